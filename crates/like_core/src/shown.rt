use crate::sight::{CoordSight, Sight};

/// What an event shows to whoever does it.
#[derive(Clone, Copy, PartialEq, Eq)]
pub enum Shown {
    /// Of a worker's look.
    Seen(Sight),
    /// Of the coordinator's look.
    Coord(CoordSight),
    /// The step was made, and shows nothing.
    Done,
    /// A like went into the worker's slice: an operation on a slice returns no value.
    Sliced,
    /// The page's count before a like or a merge.
    Old(u64),
    /// The page's count.
    Count(u64),
    /// The mask of hot pages of the present phase: bit `p` is page `p`'s.
    Hot(u64),
}
