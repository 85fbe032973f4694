//! The calls of those at boards of one page, in their order.
use super::calls::{OnCoord, OnPost, Step};

/// Two workers walk through three phases of a page that is marked and begins at 10.
pub fn three_phases() -> &'static [&'static [Step]] {
    THREE_PHASES
}

/// A worker walks through a phase in which a page is hot that is not marked and begins at 5.
pub fn hot_phase() -> &'static [&'static [Step]] {
    HOT_PHASE
}

/// A worker goes through phases 0 to 4. The last is 4.
pub fn five_phases() -> &'static [&'static [Step]] {
    FIVE_PHASES
}

/// Two workers make each call of a post, of a page that is marked and begins at 10.
pub fn each_call() -> &'static [&'static [Step]] {
    EACH_CALL
}

/// Two workers like a page that begins at 10.
pub fn likes() -> &'static [&'static [Step]] {
    LIKES
}

// A worker's look at this phase, whose end is announced or not, and which it has answered or not.
macro_rules! looks {
    ($who:ident, $number:literal, $ending:literal, $waits:literal) => {
        Step::$who(OnPost::Look($number, $ending, $waits))
    };
}

// The coordinator's look at this phase: its end is announced or not, and all workers are in or not.
macro_rules! surveys {
    ($number:literal, $ending:literal, $all_in:literal) => {
        Step::Coord(OnCoord::Look($number, $ending, $all_in, false))
    };
}

macro_rules! publishes {
    ($mask:literal) => {
        Step::Coord(OnCoord::Publish($mask))
    };
}

const ANNOUNCES: Step = Step::Coord(OnCoord::Announce);

const RELEASES: Step = Step::Coord(OnCoord::Release);

// The coordinator is in a phase, which is the last or isn't.
macro_rules! is_in {
    ($phase:literal, $last:literal) => {
        Step::Coord(OnCoord::IsIn($phase, $last))
    };
}

// The coordinator sees all workers gone from phase 2.
const ALL_GONE: Step = Step::Coord(OnCoord::Look(2, false, true, true));

// Two workers acknowledge phase 0, and the first enters phase 1.
const TO_SPLIT: &[Step] = &[
    surveys!(0, false, false),
    ANNOUNCES,
    looks!(First, 0, true, false),
    Step::First(OnPost::Answer),
    looks!(First, 0, true, true),
    looks!(Second, 0, true, false),
    Step::Second(OnPost::Answer),
    surveys!(0, true, true),
    publishes!(0),
    RELEASES,
    looks!(First, 1, false, false),
];

// The first merges three likes in phase 1.
const MERGED: &[Step] = &[
    surveys!(1, false, false),
    ANNOUNCES,
    looks!(First, 1, true, false),
    Step::First(OnPost::Merge(3, 10)),
];

// They report; in phase 2 the first reads the page and retires.
const TO_JOINED: &[Step] = &[
    Step::First(OnPost::Answer),
    looks!(Second, 1, true, false),
    Step::Second(OnPost::Answer),
    surveys!(1, true, true),
    RELEASES,
    looks!(First, 2, false, false),
    Step::First(OnPost::Read(0, 13)),
    Step::First(OnPost::Retire),
];

const THREE_PHASES: &[&[Step]] = &[
    TO_SPLIT,
    MERGED,
    TO_JOINED,
    &[
        looks!(Second, 2, false, false),
        Step::Second(OnPost::Retire),
        ALL_GONE,
    ],
];

const EACH_CALL: &[&[Step]] = &[
    &[looks!(First, 0, false, false)],
    TO_SPLIT,
    &[
        looks!(Second, 1, false, false),
        Step::First(OnPost::Hot(0)),
        Step::First(OnPost::Glance(10)),
    ],
    MERGED,
    &[Step::First(OnPost::Glance(13))],
    TO_JOINED,
];

const LIKES: &[&[Step]] = &[&[
    Step::First(OnPost::Like(0, 10)),
    Step::Second(OnPost::Like(0, 11)),
    Step::First(OnPost::Read(0, 12)),
]];

const HOT_PHASE: &[&[Step]] = &[
    &[
        surveys!(0, false, false),
        ANNOUNCES,
        looks!(First, 0, true, false),
        Step::First(OnPost::Answer),
        surveys!(0, true, true),
        Step::Coord(OnCoord::Count(5)),
        publishes!(1),
        RELEASES,
    ],
    &[
        looks!(First, 1, false, false),
        Step::First(OnPost::Hot(1)),
        surveys!(1, false, false),
        ANNOUNCES,
        looks!(First, 1, true, false),
        Step::First(OnPost::Merge(2, 5)),
        Step::First(OnPost::Answer),
        surveys!(1, true, true),
        RELEASES,
    ],
    &[
        looks!(First, 2, false, false),
        Step::First(OnPost::Read(0, 7)),
        Step::First(OnPost::Retire),
        ALL_GONE,
    ],
];

// A worker goes on from a joined phase to the next.
macro_rules! past_joined {
    ($phase:literal, $next:literal) => {
        &[
            surveys!($phase, false, false),
            ANNOUNCES,
            looks!(First, $phase, true, false),
            Step::First(OnPost::Answer),
            surveys!($phase, true, true),
            publishes!(0),
            RELEASES,
            looks!(First, $next, false, false),
        ]
    };
}

// A worker goes on from a split phase to the next, and no mask is published.
macro_rules! past_split {
    ($phase:literal, $next:literal) => {
        &[
            surveys!($phase, false, false),
            ANNOUNCES,
            looks!(First, $phase, true, false),
            Step::First(OnPost::Answer),
            surveys!($phase, true, true),
            RELEASES,
            looks!(First, $next, false, false),
        ]
    };
}

const FIVE_PHASES: &[&[Step]] = &[
    &[looks!(First, 0, false, false), is_in!(0, false)],
    past_joined!(0, 1),
    &[is_in!(1, false)],
    past_split!(1, 2),
    &[is_in!(2, false)],
    past_joined!(2, 3),
    &[is_in!(3, false)],
    past_split!(3, 4),
    &[is_in!(4, true)],
];
