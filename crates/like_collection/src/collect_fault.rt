ghost use Rattle.std.specs.Prelude.{◌≡◌};
ghost use Rattle.like_collection.specs.declared.collect_fault.CollectFault.TheVariants.{Memory};

use std::alloc::{AllocError, AllocFailed};
use thiserror::Error;

/// Why the workers' logs do not have just one entry for each request.
#[derive(Clone, Copy, Debug, PartialEq, Eq, Error)]
pub enum CollectFault {
    /// There is an entry, but no such request.
    #[error("submitter {submitter} has no request {number}")]
    Stranger { submitter: u32, number: u32 },
    /// There is an entry, and an earlier one of the same request.
    #[error("request {number} of submitter {submitter} ran twice")]
    Double { submitter: u32, number: u32 },
    /// This request has no entry. It is the least such request.
    #[error("request {number} of submitter {submitter} did not run")]
    Missing { submitter: u32, number: u32 },
    #[error("out of memory")]
    Memory,
}

impl From<AllocError> for CollectFault {
    ghost from_gives = { λ _ fault. fault ≡ Memory };

    fn from(_: AllocError) -> CollectFault {
        CollectFault::Memory
    }
}

impl<T: Drop> From<AllocFailed<T>> for CollectFault {
    ghost from_gives = { λ _ fault. fault ≡ Memory };

    fn from(_: AllocFailed<T>) -> CollectFault {
        CollectFault::Memory
    }
}
