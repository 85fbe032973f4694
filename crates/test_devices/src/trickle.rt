use std::io;
use std::io::{ErrorKind, Read};

/// A reader of a text that hands out one byte a read, and fails at the read with some number, or from that on.
#[derive(Drop)]
pub struct Trickle<'t> {
    text: &'t [u8],
    reads_left: usize,
    recovers: bool,
}

impl<'t> Trickle<'t> {
    /// A reader of this text whose first `reads` reads succeed. A read at the end of the text is one too.
    pub fn new(text: &'t [u8], reads: usize) -> Self {
        Trickle {
            text,
            reads_left: reads,
            recovers: false,
        }
    }

    /// A reader of this text whose first `reads` reads succeed, and then one fails. All after that succeed again.
    pub fn failing_once(text: &'t [u8], reads: usize) -> Self {
        Trickle {
            text,
            reads_left: reads,
            recovers: true,
        }
    }
}

impl Read for Trickle<'_> {
    fn read(&mut self, buf: &mut [u8]) -> io::Result<usize> {
        if self.reads_left == 0 {
            if self.recovers {
                self.reads_left = usize::MAX;
            }
            return Err(io::Error::from(ErrorKind::BrokenPipe));
        }
        self.reads_left -= 1;
        let most = buf.len().min(1);
        self.text.read(&mut buf[..most])
    }
}
