//! The log of a board, as contracts see it: what the workers did there, one atomic step after another. It is the board's
//! clock, and is kept in proofs alone: no value of these types is made.
use crate::page_step::PageStep;

/// What a worker did at a board in one atomic step.
pub enum LogEntry {
    /// It looked at the phase word, or came back, and saw this phase.
    Saw { worker: u32, phase: u64 },
    /// It made a step at a page.
    Did(PageStep),
}

/// An entry with its number: how many entries the log had before it.
pub struct Logged {
    pub number: u64,
    pub entry: LogEntry,
}
