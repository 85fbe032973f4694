//! The events of the core and the phase words as data.
use like_core::{CoordSight, Event, Kind, NotNow, Shown, Sight, Wrong};

/// A core, events that are checked at once, and events that are then made one by one.
#[derive(Clone, Copy)]
pub struct Case {
    pub name: &'static str,
    pub workers: u32,
    /// The count at which each page begins.
    pub count: u64,
    /// Of each page, whether it is marked.
    pub marks: &'static [bool],
    pub events: &'static [Event],
    /// What the check of the events answers.
    pub checked: Result<(), Wrong>,
    pub steps: &'static [Step],
}

/// An event, with what it shows.
pub type Step = (Event, Result<Shown, NotNow>);

/// The cases. A function that takes them from here has none of them in its proof.
pub fn cases() -> &'static [Case] {
    &CASES
}

/// A phase word and its parts.
#[derive(Clone, Copy)]
pub struct LawfulWord {
    pub packed: u64,
    pub kind: Kind,
    pub workers: u32,
    /// The workers that have answered and those that are retired, a bit for each.
    pub answered: u16,
    pub retired: u16,
    pub number: u32,
}

/// Numbers that are words.
pub fn lawful_words() -> &'static [LawfulWord] {
    LAWFUL_WORDS
}

/// Numbers that are no words.
pub fn unlawful_words() -> &'static [u64] {
    UNLAWFUL_WORDS
}

// What a worker sees that runs a phase.
macro_rules! running {
    ($number:literal) => {
        Ok(Shown::Seen(Sight {
            number: $number,
            ending: false,
            waits: false,
        }))
    };
}

// The event of this index is refused because of the phase.
macro_rules! wrong_phase {
    ($index:literal) => {
        Err(Wrong {
            index: $index,
            reason: NotNow::Phase,
        })
    };
}

// Of two workers, the first likes the page in phase 1. Then come these events.
macro_rules! after_a_like {
    ($($event:expr),*) => {
        &[
            Event::Announce,
            Event::Acknowledge(0),
            Event::Acknowledge(1),
            Event::Release(0),
            Event::Look(0),
            Event::Like(0, 0),
            $($event),*
        ]
    };
}

// A worker and a page that begins at 0 and is marked; a case names what else it has.
const LONE: Case = Case {
    name: "",
    workers: 1,
    count: 0,
    marks: &[true],
    events: &[],
    checked: Ok(()),
    steps: &[],
};

static CASES: [Case; 6] = [
    // At the release of phase 2 the first worker has not answered.
    Case {
        name: "refuses_early_release",
        workers: 2,
        events: after_a_like!(
            Event::Announce,
            Event::Look(1),
            Event::Report(1),
            Event::Release(0)
        ),
        checked: wrong_phase!(9),
        steps: &[
            (Event::Merge(0, 0), Ok(Shown::Old(0))),
            (Event::Report(0), Ok(Shown::Done)),
            (Event::Release(0), Ok(Shown::Done)),
        ],
        ..LONE
    },
    Case {
        name: "refuses_retirement_in_split_phase",
        workers: 2,
        events: after_a_like!(Event::Retire(0)),
        checked: wrong_phase!(6),
        steps: &[(Event::Look(2), Err(NotNow::NoSuch))],
        ..LONE
    },
    Case {
        name: "refuses_like_of_full_page",
        count: 9_223_372_036_854_775_807,
        marks: &[false],
        steps: &[(Event::Like(0, 0), Err(NotNow::Full))],
        ..LONE
    },
    Case {
        name: "holds_the_most_workers_and_pages",
        workers: 16,
        count: 7,
        marks: &[false; 1_024],
        steps: &[
            (Event::Like(15, 1_023), Ok(Shown::Old(7))),
            (Event::Read(15, 1_023), Ok(Shown::Count(8))),
            (Event::Look(16), Err(NotNow::NoSuch)),
            (Event::Read(15, 1_024), Err(NotNow::NoSuch)),
        ],
        ..LONE
    },
    Case {
        name: "shows_each_step",
        count: 10,
        steps: &[
            (Event::Look(0), running!(0)),
            (Event::Like(0, 0), Ok(Shown::Old(10))),
            (Event::Read(0, 0), Ok(Shown::Count(11))),
            (Event::Announce, Ok(Shown::Done)),
            (Event::Acknowledge(0), Ok(Shown::Done)),
            (
                Event::CoordLook,
                Ok(Shown::Coord(CoordSight {
                    number: 0,
                    ending: true,
                    all_in: true,
                    all_gone: false,
                })),
            ),
            (Event::Release(0), Ok(Shown::Done)),
            (Event::Look(0), running!(1)),
            (Event::Like(0, 0), Ok(Shown::Sliced)),
            (Event::Announce, Ok(Shown::Done)),
            (Event::Merge(0, 0), Ok(Shown::Old(11))),
            (Event::Report(0), Ok(Shown::Done)),
            (
                Event::Look(0),
                Ok(Shown::Seen(Sight {
                    number: 1,
                    ending: true,
                    waits: true,
                })),
            ),
            (Event::Release(0), Ok(Shown::Done)),
            (Event::Look(0), running!(2)),
            (Event::Read(0, 0), Ok(Shown::Count(12))),
            (Event::Retire(0), Ok(Shown::Done)),
        ],
        ..LONE
    },
    // Page 0 is hot in phase 1, page 1 is marked, and there is no page 2.
    Case {
        name: "splits_hot_pages",
        marks: &[false, true],
        steps: &[
            (Event::Announce, Ok(Shown::Done)),
            (Event::Acknowledge(0), Ok(Shown::Done)),
            (Event::Release(4), Err(NotNow::NoSuch)),
            (Event::Release(1), Ok(Shown::Done)),
            (Event::Look(0), running!(1)),
            (Event::Hot(0), Ok(Shown::Hot(1))),
            (Event::Like(0, 0), Ok(Shown::Sliced)),
            (Event::Like(0, 1), Ok(Shown::Sliced)),
            (Event::Read(0, 0), Err(NotNow::Phase)),
            (Event::Announce, Ok(Shown::Done)),
            (Event::Merge(0, 0), Ok(Shown::Old(0))),
            (Event::Merge(0, 1), Ok(Shown::Old(0))),
            (Event::Report(0), Ok(Shown::Done)),
            (Event::Release(1), Err(NotNow::Phase)),
            (Event::Release(0), Ok(Shown::Done)),
            (Event::Look(0), running!(2)),
            (Event::Read(0, 0), Ok(Shown::Count(1))),
            (Event::Hot(0), Err(NotNow::Phase)),
            (Event::CoordRead(1), Ok(Shown::Count(1))),
        ],
        ..LONE
    },
];

// A word of these parts.
macro_rules! word {
    ($packed:literal, $kind:ident, $workers:literal, $answered:literal, $retired:literal, $number:literal) => {
        LawfulWord {
            packed: $packed,
            kind: Kind::$kind,
            workers: $workers,
            answered: $answered,
            retired: $retired,
            number: $number,
        }
    };
}

const LAWFUL_WORDS: &[LawfulWord] = &[
    word!(8, JoinedRunning, 2, 0, 0, 0),
    word!(1_099_511_628_043, SplitEnding, 2, 1, 0, 1),
    word!(
        18_446_741_874_686_296_068,
        JoinedRunning,
        1,
        0,
        0,
        16_777_214
    ),
    // Four workers: in phase 0 the first acknowledges and the others retire, and then phase 1 is released.
    word!(234_881_297, JoinedEnding, 4, 1, 14, 0),
    word!(1_099_746_508_818, SplitRunning, 4, 0, 14, 1),
];

const UNLAWFUL_WORDS: &[u64] = &[0, 10, 68, 264];
