use crate::reply::Reply;
use like_tables::Users;

/// A request that a worker took.
#[derive(Clone, Copy, PartialEq, Eq)]
pub struct Took {
    /// The phase in which it was taken.
    pub phase: u32,
    pub submitter: u32,
    pub number: u32,
}

/// A request that a worker ran.
#[derive(Clone, Copy, PartialEq, Eq)]
pub struct Ran {
    /// The phase in which it ran.
    pub phase: u32,
    pub submitter: u32,
    pub number: u32,
    /// Whether it came out of the stash.
    pub stashed: bool,
    pub reply: Reply,
}

/// An addition that a worker made to a page's count: a like of a page that is not split in the phase, or the merge of all
/// its likes of a page that is.
#[derive(Clone, Copy, PartialEq, Eq)]
pub struct Added {
    pub page: u32,
    pub phase: u32,
    /// How many entries of the worker's run list come before the addition. A like of a page that is not split is the
    /// next entry itself.
    pub at: u32,
    /// The page's count before.
    pub old: u64,
    /// How many likes were added.
    pub n: u64,
}

/// What a worker has done, when it is gone.
#[derive(Drop)]
pub struct WorkerLog {
    /// The requests that it took, in their order, without end marks.
    pub taken: Vec<Took>,
    /// The requests that it ran, in their order.
    pub ran: Vec<Ran>,
    /// The additions that it made, in their order; none if it did not note them.
    pub adds: Vec<Added>,
    /// The last likes of its users.
    pub last: Users,
}
