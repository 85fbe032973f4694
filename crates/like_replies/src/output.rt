ghost use Rattle.std.specs.Prelude.{ℕ, List, OnOk, Option};
ghost use Rattle.std.specs.Io.KnownBytes.{Keeps};
ghost use Rattle.like_replies.specs.Output.{TellsCall, Writes};

use std::io;
use std::io::{ErrorKind, Write};

/// Where a report is written: any writer.
pub trait Output {
    // The bytes that it holds, where they are known.
    ghost held: { Self → Option (List ℕ) };

    // All that it holds is flushed.
    ghost is_flushed: { Self → Type 0 };

    // A write or a flush of it has failed.
    ghost has_failed: { Self → Type 0 };

    /// Writes a text. After an error the front of it may have been written.
    fn append(&mut self, text: &[u8]) -> io::Result<()>
        ensures written { Writes (held self.old) (held self.new) result text.now }
        ensures told { TellsCall has_failed self.old self.new result };

    /// Flushes what was written.
    fn flush_all(&mut self) -> io::Result<()>
        ensures kept { Keeps (held self.old) (held self.new) }
        ensures flushed { OnOk result (is_flushed self.new) }
        ensures told { TellsCall has_failed self.old self.new result };
}

/// The kit says nothing about which calls of a writer failed, or what was flushed. So a writer states no facts of these.
impl<W: Write> Output for W {
    ghost use Rattle.std.specs.Prelude.{⊤};

    ghost held = { λ w. W.contents w };

    ghost is_flushed = { λ _. ⊤ };

    ghost has_failed = { λ _. ⊤ };

    fn append(&mut self, text: &[u8]) -> io::Result<()> {
        write_front(self, text)
    }

    fn flush_all(&mut self) -> io::Result<()> {
        self.flush()
    }
}

// Writes a text. The kit's `write_all` doesn't say what it wrote before an error.
fn write_front<W: Write>(out: &mut W, text: &[u8]) -> io::Result<()>
    ensures { Writes (W.contents out.old) (W.contents out.new) result text.now }
{
    let mut done = 0;
    for _write in 0..u64::MAX {
        if done == text.len() {
            return Ok(());
        }
        match out.write(&text[done..]) {
            Ok(0) => return Err(io::Error::from(ErrorKind::WriteZero)),
            Ok(count) => done += count,
            Err(error) => {
                if error.kind() != ErrorKind::Interrupted {
                    return Err(error);
                }
            }
        }
    }
    Err(io::Error::from(ErrorKind::Interrupted))
}
