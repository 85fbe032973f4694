/// What a driver did in a turn.
#[derive(Clone, Copy, Debug, PartialEq, Eq)]
pub enum DriverAnswer {
    /// It announced the end of the phase.
    Announced,
    /// The phase is ending, and some seat neither has answered it nor is gone.
    Waiting,
    /// It released the next phase.
    Released,
    /// The phase goes on.
    Running,
    /// All seats are gone and no phase is ending, or last counts were written.
    Ended,
}
