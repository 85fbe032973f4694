/// What a worker did in a turn.
#[derive(Clone, Copy, Debug, PartialEq, Eq)]
pub enum Turn {
    /// It ran a request.
    Ran,
    /// It put a look at a split page into the stash.
    Stashed,
    /// It took a submitter's end mark.
    TookEnd,
    /// There was nothing to be taken.
    Nothing,
    /// It stopped at the end of a joined phase.
    Acknowledged,
    /// It merged its slice, and stopped at the end of a split phase.
    Reported,
    /// It waits for the release of the next phase.
    Waiting,
    /// It has nothing to do before the split phase ends.
    Idle,
    /// It is gone.
    Retired,
    /// It asks for what this submitter has; `give` completes the turn.
    Try { submitter: u32 },
}
