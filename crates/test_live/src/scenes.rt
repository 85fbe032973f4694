//! The worked examples of a live service as data.
use like_live::{
    Answer, Asked, Call, DriverAnswer, End, Found, GlanceAnswer, LikeAnswer, LikePair, LookAnswer,
    RowAnswer, TurnAnswer,
};
use like_requests::Verdict;
use like_seat::Seen;

/// A call of a seat, with its answer.
#[derive(Clone, Copy)]
pub enum OnSeat {
    /// User and page.
    Like(u32, u32, LikeAnswer),
    /// User, page and tag.
    Look(u32, u32, u64, LookAnswer),
    /// User and page.
    Glance(u32, u32, GlanceAnswer),
    Turn(TurnAnswer),
    Retire(TurnAnswer),
    ComeBack(TurnAnswer),
    TakeFound(Option<Found>),
    /// Whether its first two users are there, and their last likes.
    FirstTwo(Option<[u32; 2]>),
    /// A user's last like, or the verdict of the user.
    Last(u32, Result<Option<u32>, Verdict>),
    /// A batch, how many of its calls were made, and the answers behind it.
    Run(&'static [Call; 5], usize, &'static [Answer; 5]),
    /// A row of likes, and what it is told.
    LikeRow(&'static [LikePair], RowAnswer),
    Phase(u64),
}

/// A call of a driver, with its answer.
#[derive(Clone, Copy)]
pub enum OnDriver {
    /// Whether the phase may end.
    Turn(End, DriverAnswer),
    /// The phase of a snapshot, if there is one, and the counts behind it.
    Snapshot(Option<u64>, [u64; 2]),
    /// Whether the last counts were written, and the counts behind it.
    LastCounts(bool, [u64; 2]),
    /// The only page that is split, or was in the last split phase.
    Splits(u32),
    Phase(u64),
}

/// A call of a service.
#[derive(Clone, Copy)]
pub enum Step {
    Driver(OnDriver),
    /// Of the seat with this number.
    Seat(usize, OnSeat),
}

/// Calls in order, in parts, with the name of what makes them.
#[derive(Clone, Copy)]
pub struct Calls {
    pub name: &'static str,
    pub parts: &'static [&'static [Step]],
}

/// A service of two pages, the first of them marked, with 10 and 20 likes, and of users 0 to 3; and its calls in order.
#[derive(Clone, Copy)]
pub struct Scene {
    pub seats: u32,
    pub room: u32,
    pub calls: Calls,
}

/// What each answer is before a batch.
pub const UNANSWERED: Answer = Answer::Like(LikeAnswer::Gone);

/// The scenes. A function that takes them from here has none of them in its proof.
pub fn scenes() -> &'static [Scene] {
    &SCENES
}

// A like that is counted.
macro_rules! like {
    ($seat:literal, $user:literal, $page:literal) => {
        Step::Seat($seat, OnSeat::Like($user, $page, LikeAnswer::Liked))
    };
}

// What a user is shown whose last like is of page 0.
macro_rules! seen {
    ($count:literal) => {
        Seen {
            last: Some(0),
            count: $count,
        }
    };
}

// A like of a row.
macro_rules! pair {
    ($user:literal, $page:literal) => {
        LikePair {
            user: $user,
            page: $page,
        }
    };
}

// A row of likes by a seat, how many of them are counted, and what the next is told.
macro_rules! row {
    ($seat:literal, $likes:expr, $counted:literal, $answer:expr) => {
        Step::Seat(
            $seat,
            OnSeat::LikeRow(
                $likes,
                RowAnswer {
                    counted: $counted,
                    answer: $answer,
                },
            ),
        )
    };
}

// A look that is shown a count at once.
macro_rules! look {
    ($seat:literal, $user:literal, $page:literal, $count:literal) => {
        Step::Seat(
            $seat,
            OnSeat::Look($user, $page, 0, LookAnswer::Seen(seen!($count))),
        )
    };
}

// A glance at a page that the user liked last, with its answer.
macro_rules! glance_at {
    ($seat:literal, $user:literal, $page:literal, $answer:ident, $count:literal) => {
        Step::Seat(
            $seat,
            OnSeat::Glance(
                $user,
                $page,
                GlanceAnswer::$answer(Seen {
                    last: Some($page),
                    count: $count,
                }),
            ),
        )
    };
}

// A look, with its tag and answer.
macro_rules! look_at {
    ($seat:literal, $user:literal, $page:literal, $tag:literal, $answer:expr) => {
        Step::Seat($seat, OnSeat::Look($user, $page, $tag, $answer))
    };
}

// What a look is shown at once.
macro_rules! shown {
    ($last:expr, $count:literal) => {
        LookAnswer::Seen(Seen {
            last: $last,
            count: $count,
        })
    };
}

// A glance at page 0, which is split.
macro_rules! glance {
    ($seat:literal, $user:literal, $count:literal) => {
        Step::Seat(
            $seat,
            OnSeat::Glance($user, 0, GlanceAnswer::Glimpsed(seen!($count))),
        )
    };
}

// A look at page 0 by seat 0 in a split phase.
macro_rules! asks {
    ($user:literal, $tag:literal, $answer:ident) => {
        Step::Seat(0, OnSeat::Look($user, 0, $tag, LookAnswer::$answer))
    };
}

// A look at page 0 by seat 1 that waits.
macro_rules! asks_seat_1 {
    ($user:literal, $tag:literal) => {
        Step::Seat(1, OnSeat::Look($user, 0, $tag, LookAnswer::Waits))
    };
}

// A found look of user 0 at page 0 that seat 0 gives. It was asked in phase 1.
macro_rules! found {
    ($tag:literal, $last:expr, $count:literal) => {
        Step::Seat(
            0,
            OnSeat::TakeFound(Some(Found {
                asked: Asked {
                    tag: $tag,
                    user: 0,
                    page: 0,
                    phase: 1,
                },
                last: $last,
                count: $count,
                phase: 2,
            })),
        )
    };
}

macro_rules! turn {
    ($seat:literal, $answer:ident) => {
        Step::Seat($seat, OnSeat::Turn(TurnAnswer::$answer))
    };
}

macro_rules! retire {
    ($seat:literal) => {
        Step::Seat($seat, OnSeat::Retire(TurnAnswer::Gone))
    };
}

macro_rules! come_back {
    ($seat:literal, $answer:ident) => {
        Step::Seat($seat, OnSeat::ComeBack(TurnAnswer::$answer))
    };
}

macro_rules! drive {
    ($end:ident, $answer:ident) => {
        Step::Driver(OnDriver::Turn(End::$end, DriverAnswer::$answer))
    };
}

macro_rules! splits {
    ($page:literal) => {
        Step::Driver(OnDriver::Splits($page))
    };
}

// The end of a phase, which both seats answer, and the release of the next.
const CHANGE: &[Step] = &[
    drive!(IfItServes, Announced),
    turn!(0, Between),
    turn!(1, Between),
    drive!(IfItServes, Released),
];

// The end of a phase that only seat 1 answers, since seat 0 is gone, and the release of the next.
const CHANGE_BY_SEAT_1: &[Step] = &[
    drive!(IfItServes, Announced),
    turn!(1, Between),
    drive!(IfItServes, Released),
];

// Turns that may not end the phase.
const GOES_ON_TWICE: &[Step] = &[drive!(No, Running), drive!(No, Running)];

// The end of a phase that is not due, which both seats answer.
const EARLY_CHANGE: &[Step] = &[
    drive!(No, Announced),
    turn!(0, Between),
    turn!(1, Between),
    drive!(No, Released),
];

const LOOK: Call = Call::Look {
    user: 2,
    page: 0,
    tag: 3,
};

// Likes of a user of seat 0 and of one of seat 1, a glance and two looks.
const BATCH: &[Call; 5] = &[
    Call::Like { user: 0, page: 0 },
    Call::Like { user: 1, page: 0 },
    Call::Glance { user: 0, page: 0 },
    LOOK,
    LOOK,
];

// With room for one look, the batch stops before the other.
const BATCH_ANSWERS: &[Answer; 5] = &[
    Answer::Like(LikeAnswer::Liked),
    Answer::Like(LikeAnswer::Refused(Verdict::OtherHome)),
    Answer::Glance(GlanceAnswer::Glimpsed(seen!(11))),
    Answer::Look(LookAnswer::Waits),
    Answer::Look(LookAnswer::NoRoom),
];

// Likes of the users of seat 0 at both pages, one of a user of seat 1, and one more.
const ROW: &[LikePair] = &[
    pair!(0, 0),
    pair!(2, 1),
    pair!(2, 0),
    pair!(1, 0),
    pair!(0, 1),
];

// The first three of them.
const WHOLE_ROW: &[LikePair] = &[pair!(0, 0), pair!(2, 1), pair!(2, 0)];

static SCENES: [Scene; 11] = [
    Scene {
        seats: 1,
        room: 1,
        calls: Calls {
            name: "live_plain",
            parts: &[&[
                like!(0, 0, 0),
                like!(0, 1, 0),
                like!(0, 0, 0),
                look!(0, 0, 0, 13),
                retire!(0),
                Step::Seat(0, OnSeat::Like(0, 0, LikeAnswer::Gone)),
            ]],
        },
    },
    Scene {
        seats: 2,
        room: 1,
        calls: Calls {
            name: "live_two_seats",
            parts: &[
                &[like!(0, 0, 0), look!(0, 0, 0, 11)],
                CHANGE,
                &[
                    like!(0, 0, 0),
                    like!(0, 0, 0),
                    like!(1, 1, 0),
                    asks!(0, 7, Waits),
                    glance!(0, 0, 13),
                    glance!(1, 1, 12),
                    look!(0, 0, 1, 20),
                ],
                CHANGE,
                &[
                    like!(0, 0, 1),
                    found!(7, Some(0), 14),
                    Step::Seat(0, OnSeat::TakeFound(None)),
                ],
            ],
        },
    },
    // Looks of both users of seat 0 wait.
    Scene {
        seats: 2,
        room: 2,
        calls: Calls {
            name: "live_room",
            parts: &[
                CHANGE,
                &[asks!(0, 1, Waits), asks!(2, 2, Waits), asks!(0, 3, NoRoom)],
                CHANGE,
                &[turn!(0, Runs)],
                CHANGE,
                &[
                    asks!(0, 3, NoRoom),
                    found!(1, None, 10),
                    asks!(0, 3, Waits),
                    asks!(0, 3, NoRoom),
                ],
            ],
        },
    },
    // Seat 0 makes no call in phase 2 before that is ending.
    Scene {
        seats: 2,
        room: 1,
        calls: Calls {
            name: "live_retire",
            parts: &[
                CHANGE,
                &[asks!(0, 7, Waits)],
                CHANGE,
                &[
                    drive!(IfItServes, Announced),
                    retire!(0),
                    found!(7, None, 10),
                    Step::Seat(0, OnSeat::TakeFound(None)),
                    turn!(1, Between),
                    drive!(IfItServes, Released),
                ],
            ],
        },
    },
    Scene {
        seats: 2,
        room: 1,
        calls: Calls {
            name: "live_batch",
            parts: &[
                CHANGE,
                &[Step::Seat(0, OnSeat::Run(BATCH, 4, BATCH_ANSWERS))],
            ],
        },
    },
    // In each phase a row of seat 0 counts what single likes of seat 1 count. It stops at the first that is refused.
    Scene {
        seats: 2,
        room: 1,
        calls: Calls {
            name: "live_row",
            parts: &[
                &[
                    row!(0, WHOLE_ROW, 3, LikeAnswer::Liked),
                    row!(0, &[], 0, LikeAnswer::Liked),
                    like!(1, 1, 0),
                    like!(1, 3, 1),
                    like!(1, 3, 0),
                    look!(0, 2, 0, 14),
                    look!(1, 3, 1, 22),
                ],
                CHANGE,
                &[
                    row!(0, ROW, 3, LikeAnswer::Refused(Verdict::OtherHome)),
                    like!(1, 1, 0),
                    like!(1, 3, 1),
                    like!(1, 3, 0),
                    glance!(0, 0, 16),
                    glance!(1, 1, 16),
                    look!(0, 2, 1, 24),
                    drive!(IfItServes, Announced),
                    row!(0, WHOLE_ROW, 0, LikeAnswer::Between),
                    turn!(1, Between),
                    drive!(IfItServes, Released),
                ],
                &[
                    look!(0, 0, 0, 18),
                    retire!(0),
                    row!(0, WHOLE_ROW, 0, LikeAnswer::Gone),
                ],
            ],
        },
    },
    // The counts of a snapshot are those of the boundary of phases 0 and 1.
    Scene {
        seats: 1,
        room: 2,
        calls: Calls {
            name: "takes_a_snapshot",
            parts: &[&[
                like!(0, 0, 0),
                drive!(No, Running),
                drive!(IfItServes, Announced),
                Step::Driver(OnDriver::Snapshot(None, [0, 0])),
                drive!(IfItServes, Waiting),
                turn!(0, Between),
                Step::Driver(OnDriver::Snapshot(Some(0), [11, 20])),
                drive!(IfItServes, Released),
                Step::Driver(OnDriver::Phase(1)),
                Step::Seat(0, OnSeat::Phase(0)),
                turn!(0, Runs),
                Step::Seat(0, OnSeat::Phase(1)),
            ]],
        },
    },
    // A split phase ends early once the looks that wait at one of the seats take half of its room. In phase 3, looks
    // that were found before don't count, nor does what ended phase 1.
    Scene {
        seats: 2,
        room: 4,
        calls: Calls {
            name: "ends_at_half_the_room",
            parts: &[
                CHANGE,
                &[
                    drive!(No, Running),
                    asks!(0, 1, Waits),
                    asks_seat_1!(1, 2),
                    drive!(No, Running),
                    asks!(2, 3, Waits),
                ],
                EARLY_CHANGE,
                CHANGE,
                &[
                    turn!(0, Runs),
                    drive!(No, Running),
                    asks!(0, 4, Waits),
                    asks_seat_1!(1, 5),
                    drive!(No, Running),
                    asks_seat_1!(3, 6),
                ],
                EARLY_CHANGE,
            ],
        },
    },
    // The end of `live-plain`: the last counts, once the only seat is gone.
    Scene {
        seats: 1,
        room: 2,
        calls: Calls {
            name: "tells_the_last_counts",
            parts: &[&[
                like!(0, 0, 0),
                like!(0, 1, 0),
                like!(0, 0, 0),
                Step::Driver(OnDriver::LastCounts(false, [0, 0])),
                retire!(0),
                drive!(IfItServes, Ended),
                Step::Driver(OnDriver::LastCounts(true, [13, 20])),
                drive!(IfItServes, Ended),
                Step::Driver(OnDriver::Phase(0)),
                Step::Driver(OnDriver::Snapshot(None, [0, 0])),
                Step::Driver(OnDriver::LastCounts(true, [13, 20])),
            ]],
        },
    },
    // Both seats leave phase 0 while it is ending. There are no last counts in phase 1, which is split.
    Scene {
        seats: 2,
        room: 1,
        calls: Calls {
            name: "ends_what_all_have_left",
            parts: &[&[
                like!(0, 0, 0),
                drive!(IfItServes, Announced),
                retire!(0),
                retire!(1),
                drive!(No, Released),
                drive!(No, Ended),
                Step::Driver(OnDriver::LastCounts(false, [0, 0])),
                drive!(IfItServes, Announced),
                drive!(IfItServes, Released),
                drive!(IfItServes, Ended),
                Step::Driver(OnDriver::LastCounts(true, [11, 20])),
            ]],
        },
    },
    // Seat 0 leaves phase 0 twice, is away in phases 1 and 2, and comes back in phase 3. Both leave phase 4 while it is
    // ending, and seat 1 comes back in phase 5.
    Scene {
        seats: 2,
        room: 1,
        calls: Calls {
            name: "live_back",
            parts: &[
                &[
                    retire!(0),
                    come_back!(0, Runs),
                    like!(0, 0, 0),
                    retire!(0),
                    drive!(IfItServes, Announced),
                    come_back!(0, Between),
                    turn!(1, Between),
                    come_back!(0, Between),
                    drive!(IfItServes, Released),
                    like!(1, 1, 0),
                ],
                CHANGE_BY_SEAT_1,
                CHANGE_BY_SEAT_1,
                &[
                    come_back!(0, Runs),
                    Step::Seat(0, OnSeat::Phase(3)),
                    like!(0, 0, 0),
                    glance!(0, 0, 13),
                    come_back!(0, Runs),
                ],
                CHANGE,
                &[
                    drive!(IfItServes, Announced),
                    retire!(0),
                    retire!(1),
                    come_back!(0, Between),
                    drive!(No, Released),
                    drive!(No, Ended),
                    come_back!(1, Runs),
                    like!(1, 1, 0),
                    drive!(No, Running),
                ],
                CHANGE_BY_SEAT_1,
                &[
                    retire!(1),
                    drive!(IfItServes, Ended),
                    Step::Driver(OnDriver::LastCounts(true, [14, 20])),
                    come_back!(0, Between),
                ],
            ],
        },
    },
];

// Of page 999,999 there are two likes by seat 0 and one by seat 1, and of page 5 one by each.
static LIVE_SLOTS: Calls = Calls {
    name: "live_slots",
    parts: &[
        CHANGE,
        &[
            splits!(999_999),
            like!(0, 0, 999_999),
            like!(0, 0, 999_999),
            like!(1, 1, 999_999),
            like!(0, 2, 5),
            like!(1, 3, 5),
            glance_at!(0, 0, 999_999, Glimpsed, 2),
            glance_at!(1, 1, 999_999, Glimpsed, 1),
            glance_at!(0, 2, 5, Seen, 2),
        ],
        CHANGE,
        &[retire!(0), retire!(1)],
    ],
};

// In phase 1 page 7 is split: three likes of it, and one of page 8. In phase 3 page 8 is, in the same slot: two likes of
// it, and one of page 7, at which a look is seen at once.
static LIVE_MOVES: Calls = Calls {
    name: "live_moves",
    parts: &[
        CHANGE,
        &[
            splits!(7),
            like!(0, 0, 7),
            like!(0, 0, 7),
            like!(1, 1, 7),
            like!(0, 2, 8),
            look_at!(0, 0, 7, 1, LookAnswer::Waits),
        ],
        CHANGE,
        CHANGE,
        &[
            splits!(8),
            like!(0, 0, 7),
            like!(0, 2, 8),
            like!(1, 3, 8),
            look_at!(0, 0, 7, 2, shown!(Some(7), 4)),
            look_at!(1, 3, 8, 3, LookAnswer::Waits),
        ],
        CHANGE,
        &[retire!(0), retire!(1)],
    ],
};

// Turns that may not end the phase, in each of the first phases: the choice is asked once in phase 0, where nothing would
// be split, once at the end of phase 1, and not in phase 2.
static ASKS_WHEN_DUE: Calls = Calls {
    name: "asks_its_choice_when_due",
    parts: &[
        GOES_ON_TWICE,
        CHANGE,
        &[splits!(7)],
        GOES_ON_TWICE,
        CHANGE,
        GOES_ON_TWICE,
        CHANGE,
        &[splits!(8)],
    ],
};

static CHANGES: Calls = Calls {
    name: "a change of phases, after turns that may not end one",
    parts: &[GOES_ON_TWICE, CHANGE],
};

static ENDS_OF_THREE: Calls = Calls {
    name: "live_again",
    parts: &[&[
        like!(0, 2, 1),
        like!(0, 0, 1),
        like!(0, 0, 0),
        retire!(0),
        retire!(1),
        Step::Driver(OnDriver::LastCounts(true, [11, 22])),
        Step::Seat(0, OnSeat::FirstTwo(Some([0, 1]))),
        Step::Seat(0, OnSeat::Last(2, Ok(Some(1)))),
        Step::Seat(1, OnSeat::FirstTwo(None)),
        Step::Seat(1, OnSeat::Last(1, Ok(None))),
        Step::Seat(1, OnSeat::Last(0, Err(Verdict::OtherHome))),
        Step::Seat(1, OnSeat::Last(3, Err(Verdict::UnknownUser))),
    ]],
};

static GOES_ON: Calls = Calls {
    name: "live_again, going on",
    parts: &[&[
        look_at!(0, 0, 1, 0, shown!(Some(0), 22)),
        look_at!(0, 2, 1, 0, shown!(Some(1), 22)),
        look_at!(1, 1, 1, 0, shown!(None, 22)),
    ]],
};

static ENDS_THE_FIRST: Calls = Calls {
    name: "ends_in_any_case",
    parts: &[&[
        drive!(No, Running),
        drive!(IfItServes, Running),
        drive!(Always, Announced),
        drive!(Always, Waiting),
    ]],
};

static ANNOUNCES: Calls = Calls {
    name: "the end of phase 0",
    parts: &[&[drive!(IfItServes, Announced)]],
};

static ANSWERS_AND_RELEASES: Calls = Calls {
    name: "phase 1",
    parts: &[&[turn!(0, Between), drive!(IfItServes, Released)]],
};

static LIKES_THE_LAST: Calls = Calls {
    name: "opens_a_hundred_thousand_pages",
    parts: &[&[
        like!(0, 0, 99_999),
        Step::Seat(
            0,
            OnSeat::Like(0, 100_000, LikeAnswer::Refused(Verdict::UnknownPage)),
        ),
        glance_at!(0, 0, 99_999, Seen, 8),
    ]],
};

/// A joined phase with no request, and a split one. All seats retire then.
pub fn live_slots_calls() -> &'static Calls {
    &LIVE_SLOTS
}

/// Phases 0 to 3. All seats retire then.
pub fn live_moves_calls() -> &'static Calls {
    &LIVE_MOVES
}

/// Page 7 is split in phase 1, and page 8 in phase 3.
pub fn asks_when_due() -> &'static Calls {
    &ASKS_WHEN_DUE
}

/// A phase ends, and the next is released.
pub fn changes() -> &'static Calls {
    &CHANGES
}

/// Likes of users 2 and 0, and the end of a service of three users whose counts begin at 10 and 20. Each of its seats
/// tells the last likes of its users, and refuses other users.
pub fn ends_of_three() -> &'static Calls {
    &ENDS_OF_THREE
}

/// Looks of users 0 to 2 at page 1 in the service that goes on from there.
pub fn goes_on() -> &'static Calls {
    &GOES_ON
}

/// Nothing is split, so only the host's word ends the first phase.
pub fn ends_the_first() -> &'static Calls {
    &ENDS_THE_FIRST
}

/// The end of a phase is announced.
pub fn announces() -> &'static Calls {
    &ANNOUNCES
}

/// The only seat answers the end, and the next phase is released.
pub fn answers_and_releases() -> &'static Calls {
    &ANSWERS_AND_RELEASES
}

/// The last of 100,000 pages gets a like.
pub fn likes_the_last() -> &'static Calls {
    &LIKES_THE_LAST
}
