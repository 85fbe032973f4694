/// A call of a worker's post, with its answer.
#[derive(Clone, Copy, Debug, PartialEq)]
pub enum OnPost {
    /// The present phase, whether its end is announced, and whether the worker has answered it.
    Look(u64, bool, bool),
    /// An acknowledgement or a report, as the phase asks.
    Answer,
    /// A like of this page in a joined phase, and the page's count before.
    Like(u32, u64),
    /// The merge of the slice of page 0, which has this many likes, and the page's count before.
    Merge(u64, u64),
    /// This page's count in a joined phase.
    Read(u32, u64),
    /// The count of page 0, which is sliced.
    Glance(u64),
    /// The mask of a split phase.
    Hot(u64),
    Retire,
}

/// A call of the coordinator's seat, with its answer.
#[derive(Clone, Copy, Debug, PartialEq)]
pub enum OnCoord {
    /// The present phase, whether its end is announced, whether all workers are in, and whether all are gone.
    Look(u64, bool, bool, bool),
    Announce,
    /// The count of page 0.
    Count(u64),
    /// The mask of the phase that comes next.
    Publish(u64),
    Release,
    /// The present phase, and whether it is the last.
    IsIn(u64, bool),
}

/// A call of one of those at a board.
#[derive(Clone, Copy)]
pub enum Step {
    Coord(OnCoord),
    First(OnPost),
    Second(OnPost),
}
