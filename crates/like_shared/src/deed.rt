//! What is done to a seat and to a driver.
ghost use Rattle.std.specs.Prelude.{[]};
ghost use Rattle.like_shared.specs.Deeds.{DriverDoes, SeatDoes};

use like_board::SharedPost;
use like_choice::Guided;
use like_live::{
    Driver, DriverAnswer, End, Found, GlanceAnswer, LikeAnswer, LikePair, LiveSeat, LookAnswer,
    RowAnswer, TurnAnswer,
};
use like_requests::Verdict;
use std::collections::LinkedList;
use told_lock::{Deeds, Done};

/// A call of a seat, with its answer, as contracts see it. No value of it is made.
pub enum SeatDeed {
    Turn {
        answer: TurnAnswer,
    },
    Like {
        user: u32,
        page: u32,
        answer: LikeAnswer,
    },
    /// A row of likes, with what it was told.
    LikeRow {
        likes: LinkedList<LikePair>,
        told: RowAnswer,
    },
    Look {
        user: u32,
        page: u32,
        tag: u64,
        answer: LookAnswer,
    },
    Glance {
        user: u32,
        page: u32,
        answer: GlanceAnswer,
    },
    TakeFound {
        taken: Option<Found>,
    },
    Retire {
        answer: TurnAnswer,
    },
    ComeBack {
        answer: TurnAnswer,
    },
    Last {
        user: u32,
        answer: Result<Option<u32>, Verdict>,
    },
    /// The places that were given for last likes of the seat's users, from this one on, and whether they were written.
    Lasts {
        from: u32,
        pages: LinkedList<u32>,
        is_done: bool,
    },
}

/// What a call does to a seat.
pub struct SeatDeeds;

impl Deeds<LiveSeat<SharedPost>, SeatDeed> for SeatDeeds {
    ghost does = { SeatDoes };
}

/// A call of a driver, with its answer, as contracts see it. No value of it is made.
pub enum DriverDeed {
    Turn {
        end: End,
        answer: DriverAnswer,
    },
    /// The pages that were proposed.
    Propose {
        pages: LinkedList<u32>,
    },
    /// The counts that were written, of the pages from this one on, and of the end of which phase they are, if any were.
    Snapshot {
        from: u32,
        counts: LinkedList<u64>,
        phase: Option<u64>,
    },
    /// The places that were given, and how many split pages were written to them.
    SplitPages {
        pages: LinkedList<u32>,
        many: usize,
    },
    /// The counts of the pages from this one on, and whether they were written as last counts.
    LastCounts {
        from: u32,
        counts: LinkedList<u64>,
        is_done: bool,
    },
}

/// What a call does to a driver.
pub struct DriverDeeds;

impl Deeds<Driver<Guided>, DriverDeed> for DriverDeeds {
    ghost does = { DriverDoes };
}

// Nothing was done since the last deed.
pub(crate) struct NoDeed;

impl<C> Done<C> for NoDeed {
    ghost done = { [] };
}
