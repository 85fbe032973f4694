ghost use Rattle.std.specs.Prelude.{◌≡◌};
ghost use Rattle.like_core.specs.OpeningLimits.{run_limits, service_limits, AreLimits};

use crate::form::Form;
use crate::phase_word::LAST_PHASE;

/// The limits of a board or a core, which its opening fixes.
#[derive(Clone, Copy, PartialEq, Eq)]
pub struct Limits {
    /// The number of the last phase. Its end is never announced.
    pub last_phase: u64,
    /// The most likes that a worker adds to a board.
    pub likes: u64,
    /// The most pages.
    pub pages: u32,
    /// How many pages may get hot: the first ones, in a service all.
    pub hot: u32,
    /// The most workers.
    pub seats: u32,
    /// The form of the phase word.
    pub form: Form,
}

impl Limits {
    /// The limits of a run.
    pub fn of_run() -> Limits
        ensures limits { result ≡ run_limits }
        ensures lawful { AreLimits result }
    {
        Limits {
            last_phase: u64::from(LAST_PHASE),
            likes: 64_000_000,
            pages: 1_024,
            hot: 64,
            seats: 16,
            form: Form::Bits,
        }
    }

    /// The limits of a service that goes on: at a phase each 15 microseconds, its phases last 130 years.
    pub fn of_service() -> Limits
        ensures limits { result ≡ service_limits }
        ensures lawful { AreLimits result }
    {
        Limits {
            last_phase: (1 << 48) - 2,
            likes: 1 << 56,
            pages: 1 << 24,
            hot: 1 << 24,
            seats: 64,
            form: Form::Counts,
        }
    }
}
