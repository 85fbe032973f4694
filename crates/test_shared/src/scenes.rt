//! What the clients of the tests do at a service of two pages, the first of them marked, with 10 and 20 likes, and of
//! users 0 to 3 of two seats.
use crate::steps::{By, OnDriver, OnSeat, Part, Step};
use like_live::{
    Answer, Asked, Call, DriverAnswer, Found, GlanceAnswer, LikeAnswer, LikePair, LookAnswer,
    NO_PAGE, RowAnswer, TurnAnswer,
};
use like_requests::Verdict;
use like_seat::Seen;
use like_shared::Busy;

macro_rules! seen {
    ($last:expr, $count:literal) => {
        Seen {
            last: $last,
            count: $count,
        }
    };
}

macro_rules! pair {
    ($user:literal, $page:literal) => {
        LikePair {
            user: $user,
            page: $page,
        }
    };
}

// The end of a phase, which both seats answer.
const ANNOUNCED: Step = Step::Driver(OnDriver::Turn(DriverAnswer::Announced));

const ANSWERED_0: Step = Step::Seat(0, OnSeat::Turn(TurnAnswer::Between));

const ANSWERED_1: Step = Step::Seat(1, OnSeat::Turn(TurnAnswer::Between));

const RELEASED: Step = Step::Driver(OnDriver::Turn(DriverAnswer::Released));

const RETIRED: OnSeat = OnSeat::Retire(TurnAnswer::Gone);

const JOINED: &[Step] = &[
    Step::Seat(0, OnSeat::Look(0, 6, LookAnswer::Seen(seen!(None, 10)))),
    Step::Seat(1, OnSeat::Like(1, Ok(LikeAnswer::Liked))),
    Step::Seat(1, OnSeat::Glance(1, GlanceAnswer::Seen(seen!(Some(1), 21)))),
    Step::Seat(1, OnSeat::Last(Some(1))),
    Step::Seat(
        1,
        OnSeat::LikeOf(0, LikeAnswer::Refused(Verdict::OtherHome)),
    ),
    Step::Seat(1, OnSeat::Lasts([1, NO_PAGE])),
    Step::Seat(
        1,
        OnSeat::LikeRow(
            &[pair!(1, 0), pair!(3, 1), pair!(0, 0)],
            RowAnswer {
                counted: 2,
                answer: LikeAnswer::Refused(Verdict::OtherHome),
            },
        ),
    ),
    Step::Seat(
        0,
        OnSeat::Run(
            &[
                Call::Like { user: 0, page: 0 },
                Call::Look {
                    user: 0,
                    page: 0,
                    tag: 5,
                },
            ],
            &[
                Answer::Like(LikeAnswer::Liked),
                Answer::Look(LookAnswer::Seen(seen!(Some(0), 12))),
            ],
        ),
    ),
];

const CHANGE: &[Step] = &[ANNOUNCED, ANSWERED_0, ANSWERED_1, RELEASED];

const SPLIT: &[Step] = &[
    Step::Seat(0, OnSeat::Look(0, 7, LookAnswer::Waits)),
    Step::Seat(
        0,
        OnSeat::Glance(0, GlanceAnswer::Glimpsed(seen!(Some(0), 12))),
    ),
    Step::Driver(OnDriver::Splits(0)),
    Step::Driver(OnDriver::Snapshot(None, [0, 0])),
    Step::Seat(2, OnSeat::Like(0, Ok(LikeAnswer::Liked))),
];

const JOINED_AGAIN: &[Step] = &[
    Step::Driver(OnDriver::Phase(2)),
    Step::Seat(0, OnSeat::Turn(TurnAnswer::Runs)),
    Step::Seat(
        0,
        OnSeat::TakeFound(Some(Found {
            asked: Asked {
                tag: 7,
                user: 0,
                page: 0,
                phase: 1,
            },
            last: Some(0),
            count: 13,
            phase: 2,
        })),
    ),
    Step::Seat(0, OnSeat::TakeFound(None)),
    Step::Driver(OnDriver::Propose(&[1])),
    ANNOUNCED,
    ANSWERED_0,
    ANSWERED_1,
    Step::Driver(OnDriver::Snapshot(Some(2), [13, 22])),
    RELEASED,
];

const ENDS: &[Step] = &[
    Step::Seat(0, RETIRED),
    Step::Seat(0, OnSeat::ComeBack(TurnAnswer::Runs)),
    Step::Seat(0, RETIRED),
    Step::Seat(1, RETIRED),
    Step::Driver(OnDriver::LastCounts([13, 22])),
];

const LOCKS: &[Step] = &[
    Step::Seat(2, OnSeat::Lock(Ok(()))),
    Step::Seat(2, OnSeat::Like(1, Ok(LikeAnswer::Liked))),
];

const IS_TOLD_BUSY: &[Step] = &[
    Step::Seat(2, OnSeat::Lock(Err(Busy))),
    Step::Seat(2, OnSeat::Like(0, Err(Busy))),
    Step::Seat(1, OnSeat::Like(0, Ok(LikeAnswer::Liked))),
];

const UNLOCKS: &[Step] = &[Step::Seat(2, OnSeat::Unlock)];

const LIKES: &[Step] = &[Step::Seat(2, OnSeat::Like(0, Ok(LikeAnswer::Liked)))];

// The parts of a scene.
macro_rules! part {
    ($client:ident, $steps:expr) => {
        Part {
            by: By::$client,
            steps: $steps,
        }
    };
}

static EACH_CALL: [Part; 7] = [
    part!(One, JOINED),
    part!(One, CHANGE),
    part!(One, SPLIT),
    part!(One, CHANGE),
    part!(One, JOINED_AGAIN),
    part!(One, CHANGE),
    part!(One, ENDS),
];

static HOLDING_A_SEAT: [Part; 4] = [
    part!(One, LOCKS),
    part!(Two, IS_TOLD_BUSY),
    part!(One, UNLOCKS),
    part!(Two, LIKES),
];

/// Five phases, with a call of each kind. The last is joined, so seats can retire in it.
pub(crate) fn each_call() -> &'static [Part] {
    &EACH_CALL
}

/// A client holds a seat, at which another is told `Busy` until the first unlocks it.
pub(crate) fn holding_a_seat() -> &'static [Part] {
    &HOLDING_A_SEAT
}
