ghost use Rattle.std.specs.Prelude.{◌≡◌, IsTrue};
ghost use Rattle.like_program.specs.Fault.{of_files, program_status, ShowsProgramLine};

use like_command::{OUT_OF_MEMORY, Options, ParseFault};
use like_files::{DriverFault, WRITE_FAILED};
use std::alloc::AllocError;
use std::io::Write;
use thiserror::Error;

// The line for standard input as more than one file.
const INPUTS: &str = "likes: only one file can be -, which is standard input\n";

/// Why the program has not done what its words ask for. The text doesn't name the file at fault; `line` does.
#[derive(Debug, Drop, Error)]
pub enum ProgramFault {
    #[error("{0}")]
    Words(ParseFault),
    /// A fault of a run or a replay with these options.
    #[error("{fault}")]
    Files {
        options: Options,
        fault: DriverFault,
    },
    /// Help could not be written.
    #[error("write failed")]
    Output,
    /// Standard input was named for more than one file.
    #[error("only one file can be -, which is standard input")]
    Inputs,
    /// There was no memory for the example.
    #[error("out of memory")]
    Memory,
}

impl From<AllocError> for ProgramFault {
    ghost use Rattle.std.specs.Prelude.{◌≡◌};
    ghost use Rattle.like_program.specs.declared.fault.ProgramFault.TheVariants.{Memory};

    ghost from_gives = { λ _ fault. fault ≡ Memory };

    fn from(_: AllocError) -> ProgramFault {
        ProgramFault::Memory
    }
}

impl From<ParseFault> for ProgramFault {
    ghost use Rattle.std.specs.Prelude.{◌≡◌};
    ghost use Rattle.like_program.specs.declared.fault.ProgramFault.TheVariants.{Words};

    ghost from_gives = { λ why fault. fault ≡ Words why };

    fn from(why: ParseFault) -> ProgramFault {
        ProgramFault::Words(why)
    }
}

/// The fault of a run or a replay, with its options.
pub fn with_options<A: Drop>(
    done: Result<A, DriverFault>,
    options: Options,
) -> Result<A, ProgramFault>
    ensures { result ≡ of_files options done }
{
    match done {
        Ok(value) => Ok(value),
        Err(fault) => Err(ProgramFault::Files { options, fault }),
    }
}

impl ProgramFault {
    /// The exit status.
    pub fn status(&self) -> u8
        ensures { result ≡ program_status self.now }
    {
        match self {
            ProgramFault::Words(fault) => fault.status(),
            ProgramFault::Files { fault, .. } => fault.status(),
            ProgramFault::Output => 3,
            ProgramFault::Inputs => 2,
            ProgramFault::Memory => 4,
        }
    }

    /// Writes the fault's line. `false`: a write failed, and a part may have been written.
    pub fn line<W: Write>(&self, out: &mut W) -> bool
        ensures { IsTrue result
            → ShowsProgramLine self.now (W.contents out.old) (W.contents out.new) }
    {
        match self {
            ProgramFault::Words(fault) => fault.line(out),
            ProgramFault::Files { options, fault } => fault.line(options, out),
            ProgramFault::Output => out.write_all(WRITE_FAILED.as_bytes()).is_ok(),
            ProgramFault::Inputs => out.write_all(INPUTS.as_bytes()).is_ok(),
            ProgramFault::Memory => out.write_all(OUT_OF_MEMORY.as_bytes()).is_ok(),
        }
    }
}
