//! The law of a run's workers at a moment of their board: the contract of a function that does nothing.
ghost use Rattle.like_roles.specs.worker.Moments.{WorkersAreExclusive};

/// In every interleaving, no worker runs joined work while another holds an unmerged slice: at each moment of a run's
/// board, between any two atomic steps, events lead to the state that the board shows with the likes in the workers'
/// slices. While one worker runs a joined phase, no worker runs a split one, and none has a like in its slice.
pub fn workers_are_exclusive()
    ensures { WorkersAreExclusive }
{}
