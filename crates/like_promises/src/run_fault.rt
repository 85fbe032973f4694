ghost use Rattle.std.specs.Prelude.{◌≡◌};

use like_requests::SettingsFault;
use std::alloc::AllocError;
use thiserror::Error;

/// Why a run gives no report.
#[derive(Clone, Copy, Debug, PartialEq, Eq, Error)]
pub enum RunFault {
    /// The settings or a list break a limit.
    #[error("{0}")]
    Settings(SettingsFault),
    /// There was no memory before the first thread was started, or after the last one had ended.
    #[error("out of memory")]
    Memory,
    /// A thread could not be started. Those that were started ended, and took no request.
    #[error("a thread could not be started")]
    Start,
}

impl From<SettingsFault> for RunFault {
    ghost use Rattle.like_promises.specs.declared.run_fault.RunFault.TheVariants.{Settings};

    ghost from_gives = { λ why fault. fault ≡ Settings why };

    fn from(why: SettingsFault) -> Self {
        RunFault::Settings(why)
    }
}

impl From<AllocError> for RunFault {
    ghost use Rattle.like_promises.specs.declared.run_fault.RunFault.TheVariants.{Memory};

    ghost from_gives = { λ _ fault. fault ≡ Memory };

    fn from(_: AllocError) -> Self {
        RunFault::Memory
    }
}
