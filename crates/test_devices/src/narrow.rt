use std::io;
use std::io::{ErrorKind, Write};

/// A writer that takes a few bytes a write, and fails at a write or a flush with some number, or from that on.
#[derive(Drop)]
pub struct Narrow {
    width: usize,
    writes_left: usize,
    flushes_left: usize,
    recovers: bool,
    fault: ErrorKind,
}

impl Narrow {
    /// A writer of up to `width` bytes a write. Its first `writes` writes succeed, and each flush or none.
    pub fn new(width: usize, writes: usize, flushes: bool) -> Self {
        Narrow {
            width,
            writes_left: writes,
            flushes_left: if flushes { usize::MAX } else { 0 },
            recovers: false,
            fault: ErrorKind::BrokenPipe,
        }
    }

    /// A writer of up to `width` bytes a write. One write fails, after this many, and one flush.
    pub fn failing_once(width: usize, writes: usize, flushes: usize) -> Self {
        Narrow {
            width,
            writes_left: writes,
            flushes_left: flushes,
            recovers: true,
            fault: ErrorKind::BrokenPipe,
        }
    }

    /// A writer of up to `width` bytes a write. One write is interrupted, after this many.
    pub fn interrupted_once(width: usize, writes: usize) -> Self {
        Narrow {
            fault: ErrorKind::Interrupted,
            ..Narrow::failing_once(width, writes, usize::MAX)
        }
    }

    /// How many writes would still succeed.
    pub fn writes_left(&self) -> usize {
        self.writes_left
    }
}

impl Write for Narrow {
    fn write(&mut self, buf: &[u8]) -> io::Result<usize> {
        if self.writes_left == 0 {
            if self.recovers {
                self.writes_left = usize::MAX;
            }
            return Err(io::Error::from(self.fault));
        }
        self.writes_left -= 1;
        Ok(buf.len().min(self.width))
    }

    fn flush(&mut self) -> io::Result<()> {
        if self.flushes_left == 0 {
            if self.recovers {
                self.flushes_left = usize::MAX;
            }
            return Err(io::Error::from(ErrorKind::BrokenPipe));
        }
        self.flushes_left -= 1;
        Ok(())
    }
}
