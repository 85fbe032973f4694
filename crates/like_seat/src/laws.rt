//! The law of posts with their slices at a moment of their board: the contract of a function that does nothing.
ghost use Rattle.like_seat.specs.Moments.{PostsAreExclusive};

/// While one post of a board runs a joined phase, no post runs a split one, and none has a like in its slice. This is so
/// at each moment of the board, between any two atomic steps.
pub fn posts_are_exclusive()
    ensures { PostsAreExclusive }
{}
