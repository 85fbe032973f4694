//! What the seats at a board know, as contracts see it. No value of these types is made.
use crate::log::Logged;
use crate::opening::Opening;
use crate::page_step::PageStep;
use crate::sight::{CoordSight, Sight};
use crate::worker_state::WorkerState;
use std::collections::LinkedList;

/// Likes that a worker added to a page's count, in one step.
pub struct Addition {
    pub phase: u64,
    pub page: u32,
    /// The page's count before.
    pub old: u64,
    pub likes: u64,
}

/// A look that a worker made at the phase word: what it saw, and how much it had done before.
pub struct Look {
    pub sight: Sight,
    /// How many steps it had made at pages.
    pub did: u64,
}

/// The mask of a phase's hot pages: bit `p` is page `p`'s.
pub struct PhaseMask {
    pub phase: u64,
    pub mask: u64,
}

/// A count that the coordinator read.
pub struct PageCount {
    pub phase: u64,
    pub page: u32,
    pub count: u64,
}

/// What a worker's seat knows.
pub struct WorkerSeatView {
    pub opening: Opening,
    pub worker: u32,
    pub state: WorkerState,
    /// Its last sight, if it looked.
    pub last: Option<Sight>,
    pub looks: LinkedList<Look>,
    /// All that it did at pages, the latest step first.
    pub did: LinkedList<PageStep>,
    /// Its entries in the board's log, its looks and these steps, with their numbers, the latest first.
    pub logged: LinkedList<Logged>,
    /// The masks that it read, the latest first.
    pub masks: LinkedList<PhaseMask>,
    /// The pages of the first slots, as it read them in its split phase.
    pub slots: LinkedList<u32>,
}

/// What the coordinator's seat knows.
pub struct CoordSeatView {
    pub opening: Opening,
    /// How many workers' seats were made.
    pub made: u32,
    pub phase: u64,
    pub ending: bool,
    /// The sight of its last look, where it announced and released nothing since.
    pub last: Option<CoordSight>,
    /// How many looks it made.
    pub looks: u64,
    /// The phase word that it saw last.
    pub word: u64,
    /// Whether a sight of this phase showed all workers in: in a service at the phase's ending, in a run at any time.
    pub all_in: bool,
    /// Whether the last sight before this phase's release showed all workers gone.
    pub gone: bool,
    /// The counts that it read, the latest first.
    pub counted: LinkedList<PageCount>,
    /// The mask that it published last since its last look.
    pub published: Option<u64>,
    /// The masks with which it released phases, the latest first.
    pub masks: LinkedList<PhaseMask>,
    /// The page that it put last into each slot.
    pub slots: LinkedList<u32>,
    /// What the workers' seats knew that were given back.
    pub joined: LinkedList<WorkerSeatView>,
}

/// What a seat knows. A seat that was given back knows nothing more.
pub enum View {
    Coord(CoordSeatView),
    Worker(WorkerSeatView),
    Spent,
}
