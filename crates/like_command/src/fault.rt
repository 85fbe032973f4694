ghost use Rattle.std.specs.Prelude.{◌≡◌, IsTrue};
ghost use Rattle.std.specs.Io.KnownBytes.{Appends};
ghost use Rattle.like_command.specs.Fault.{told};

use std::alloc::AllocError;
use std::io::Write;
use thiserror::Error;

/// The line of memory that ran out.
pub const OUT_OF_MEMORY: &str = "likes: out of memory\n";

/// Why the words of the command line ask for nothing.
#[derive(Debug, Drop, Error)]
pub enum ParseFault {
    /// The words are wrong, as the text says.
    #[error("{0}")]
    Usage(String),
    #[error("out of memory")]
    Memory,
}

impl From<AllocError> for ParseFault {
    ghost use Rattle.std.specs.Prelude.{◌≡◌};
    ghost use Rattle.like_command.specs.declared.fault.ParseFault.TheVariants.{Memory};

    ghost from_gives = { λ _ fault. fault ≡ Memory };

    fn from(_: AllocError) -> ParseFault {
        ParseFault::Memory
    }
}

impl ParseFault {
    /// The exit status.
    pub fn status(&self) -> u8
        ensures { result ≡ (told self.now).0 }
    {
        match self {
            ParseFault::Usage(_) => 2,
            ParseFault::Memory => 4,
        }
    }

    /// Writes what is wrong with the command line, or that memory ran out. `false`: a write failed, and a part may have
    /// been written.
    pub fn line<W: Write>(&self, out: &mut W) -> bool
        ensures { IsTrue result
            → Appends (W.contents out.old) (W.contents out.new) (told self.now).1 }
    {
        let text = match self {
            ParseFault::Usage(text) => text.as_str(),
            ParseFault::Memory => OUT_OF_MEMORY,
        };
        out.write_all(text.as_bytes()).is_ok()
    }
}
