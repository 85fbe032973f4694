/// What the coordinator did in a turn.
#[derive(Clone, Copy, Debug, PartialEq, Eq)]
pub enum CoordTurn {
    /// It counted one of the turns that the running phase has left.
    Counted,
    /// It announced the end of the phase.
    Announced,
    /// It waits for workers that have not answered.
    Waiting,
    /// It released the next phase.
    Released,
    /// All workers are gone.
    Ended,
    /// The phase is the last, and goes on.
    Stays,
}
