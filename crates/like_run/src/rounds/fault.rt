ghost use Rattle.std.specs.Prelude.{◌≡◌};

use like_requests::SettingsFault;
use std::alloc::AllocError;
use thiserror::Error;

/// Why a replay gives no report.
#[derive(Clone, Copy, Debug, PartialEq, Eq, Error)]
pub enum ReplayFault {
    /// The settings, a list or the script break a limit.
    #[error("{0}")]
    Settings(SettingsFault),
    #[error("out of memory")]
    Memory,
    /// The run did not end in 1,000,000 rounds.
    #[error("not finished after 1000000 rounds")]
    Unfinished,
}

impl From<SettingsFault> for ReplayFault {
    ghost use Rattle.like_run.specs.declared.rounds.fault.ReplayFault.TheVariants.{Settings};

    ghost from_gives = { λ why fault. fault ≡ Settings why };

    fn from(why: SettingsFault) -> Self {
        ReplayFault::Settings(why)
    }
}

impl From<AllocError> for ReplayFault {
    ghost use Rattle.like_run.specs.declared.rounds.fault.ReplayFault.TheVariants.{Memory};

    ghost from_gives = { λ _ fault. fault ≡ Memory };

    fn from(_: AllocError) -> Self {
        ReplayFault::Memory
    }
}
