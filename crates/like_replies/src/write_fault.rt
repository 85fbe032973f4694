ghost use Rattle.std.specs.Prelude.{◌≡◌};
ghost use Rattle.like_replies.specs.declared.write_fault.WriteFault.TheVariants.{Memory};

use std::alloc::AllocError;
use thiserror::Error;

/// Why a report was not written whole.
#[derive(Clone, Copy, Debug, PartialEq, Eq, Error)]
pub enum WriteFault {
    #[error("write failed")]
    Write,
    #[error("out of memory")]
    Memory,
}

impl From<AllocError> for WriteFault {
    ghost from_gives = { λ _ fault. fault ≡ Memory };

    fn from(_: AllocError) -> WriteFault {
        WriteFault::Memory
    }
}
