use like_promises::{Chosen, WorkerLog};

/// What a run has left once its board is closed.
#[derive(Drop)]
pub struct Outcome {
    pub(crate) logs: Vec<WorkerLog>,
    /// The last count of each page.
    pub(crate) counts: Vec<u64>,
    /// The phase in which it ended.
    pub(crate) phases: u32,
    /// The phases with hot pages, as the coordinator chose them.
    pub(crate) chosen: Vec<Chosen>,
}
