ghost use Rattle.std.specs.Prelude.{◌≡◌};
ghost use Rattle.like_files.specs.Faults.{submitter_at};
ghost use Rattle.like_files.specs.Lines.{told};
ghost use Rattle.like_files.specs.declared.fault.DriverFault.TheVariants as driver;

use like_replies::WriteFault;
use like_requests::{PagesFault, RequestsFault, SettingsFault};
use like_run::{ReplayFault, RunFault, ScriptFault};
use thiserror::Error;

/// Why a run or a replay ended without its report. The text doesn't name the file at fault; `line` does.
#[derive(Clone, Copy, Debug, PartialEq, Eq, Error)]
pub enum DriverFault {
    #[error("{0}")]
    Pages(PagesFault),
    #[error("{fault}")]
    Requests {
        submitter: u32,
        fault: RequestsFault,
    },
    #[error("{0}")]
    Script(ScriptFault),
    #[error("{0}")]
    Settings(SettingsFault),
    #[error("a thread could not be started")]
    Start,
    /// The replay did not end in 1,000,000 rounds.
    #[error("not finished after 1000000 rounds")]
    Unfinished,
    /// The output failed.
    #[error("write failed")]
    Write,
    /// Memory ran out, in the run or the report.
    #[error("out of memory")]
    Memory,
}

impl From<PagesFault> for DriverFault {
    ghost use Rattle.std.specs.Prelude.{◌≡◌};
    ghost use Rattle.like_files.specs.declared.fault.DriverFault.TheVariants.{Pages};

    ghost from_gives = { λ why fault. fault ≡ Pages why };

    fn from(why: PagesFault) -> DriverFault {
        DriverFault::Pages(why)
    }
}

impl From<ScriptFault> for DriverFault {
    ghost use Rattle.std.specs.Prelude.{◌≡◌};
    ghost use Rattle.like_files.specs.declared.fault.DriverFault.TheVariants.{Script};

    ghost from_gives = { λ why fault. fault ≡ Script why };

    fn from(why: ScriptFault) -> DriverFault {
        DriverFault::Script(why)
    }
}

impl From<ReplayFault> for DriverFault {
    ghost use Rattle.std.specs.Prelude.{◌≡◌};
    ghost use Rattle.like_files.specs.Faults.{fault_of_replay};

    ghost from_gives = { λ why fault. fault ≡ fault_of_replay why };

    fn from(why: ReplayFault) -> DriverFault {
        match why {
            ReplayFault::Settings(fault) => DriverFault::Settings(fault),
            ReplayFault::Unfinished => DriverFault::Unfinished,
            ReplayFault::Memory => DriverFault::Memory,
        }
    }
}

impl From<RunFault> for DriverFault {
    ghost use Rattle.std.specs.Prelude.{◌≡◌};
    ghost use Rattle.like_files.specs.Faults.{fault_of_run};

    ghost from_gives = { λ why fault. fault ≡ fault_of_run why };

    fn from(why: RunFault) -> DriverFault {
        match why {
            RunFault::Settings(fault) => DriverFault::Settings(fault),
            RunFault::Start => DriverFault::Start,
            RunFault::Memory => DriverFault::Memory,
        }
    }
}

impl From<WriteFault> for DriverFault {
    ghost use Rattle.std.specs.Prelude.{◌≡◌};
    ghost use Rattle.like_files.specs.Faults.{fault_of};

    ghost from_gives = { λ why fault. fault ≡ fault_of why };

    fn from(why: WriteFault) -> DriverFault {
        match why {
            WriteFault::Write => DriverFault::Write,
            WriteFault::Memory => DriverFault::Memory,
        }
    }
}

impl DriverFault {
    /// The fault of the request file at a place. A submitter's number is at most 2^32 - 1.
    pub(crate) fn of_requests(place: usize, fault: RequestsFault) -> DriverFault
        ensures { result ≡ driver.Requests (submitter_at place) fault }
    {
        DriverFault::Requests {
            submitter: place.min(u32::MAX as usize) as u32,
            fault,
        }
    }

    /// The exit status.
    pub fn status(&self) -> u8
        ensures { result ≡ (told self.now).0 }
    {
        self.told().0
    }
}
