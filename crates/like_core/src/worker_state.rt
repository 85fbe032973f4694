ghost use Rattle.std.specs.Prelude.{◌≡◌, ◌↔◌, IsTrue};
ghost use Rattle.like_core.specs.WorkerState.{IsIn, looked};

/// What a worker does: it runs a phase, has answered one by an acknowledgement or a report and waits for the next, or
/// is gone.
#[derive(Clone, Copy, PartialEq, Eq)]
pub enum WorkerState {
    Runs(u64),
    Answered(u64),
    Gone,
}

impl WorkerState {
    /// Whether the worker is in: it answered this phase or is gone.
    pub fn is_in(self, phase: u64) -> bool
        ensures { IsTrue result ↔ IsIn phase self }
    {
        match self {
            WorkerState::Runs(_) => false,
            WorkerState::Answered(answered) => answered == phase,
            WorkerState::Gone => true,
        }
    }

    /// The worker's state after a look at this phase.
    pub fn looked(self, phase: u64) -> WorkerState
        ensures { result ≡ looked phase self }
    {
        match self {
            WorkerState::Answered(answered) if answered < phase => WorkerState::Runs(phase),
            other => other,
        }
    }
}
