//! The calls of lines as data, each with its answer.
use super::LIKE;
use like_requests::Request;

/// What a push of the end mark answers.
#[derive(Clone, Copy, Debug, PartialEq)]
pub enum AtEnd {
    Pushed,
    Full,
    Ended,
}

/// A call of one of the two ends of a line.
#[derive(Clone, Copy, Debug, PartialEq)]
pub enum Call {
    /// The next request is this.
    Next(Option<Request>),
    /// The requests of these numbers are pushed.
    Push(u32, u32),
    /// A push of the next request is refused, since the line is full.
    PushFull,
    End(AtEnd),
    /// The end mark is pushed, and no request is after it.
    EndIsLast,
    /// The requests of these numbers are taken.
    Take(u32, u32),
    TakeEnd,
    /// This many requests go through the line, some pushes and some takes at a time.
    GoThrough(u32),
}

/// A line of a plan with this many requests, and the calls of its ends on one thread.
#[derive(Clone, Copy)]
pub struct Case {
    pub name: &'static str,
    pub size: usize,
    pub calls: &'static [Call],
}

/// The cases. A function that takes them from here has none of them in its proof.
pub fn cases() -> &'static [Case] {
    CASES
}

/// A line of one request.
pub fn of_one() -> &'static Case {
    OF_ONE
}

const OF_ONE: &Case = &Case {
    name: "a_refused_growth_is_told",
    size: 1,
    calls: &[Call::Push(1, 1), Call::Take(1, 1)],
};

const CASES: &[Case] = &[
    Case {
        name: "holds_sixty_four",
        size: 66,
        calls: &[
            Call::Push(1, 64),
            Call::PushFull,
            Call::Take(1, 1),
            Call::Push(65, 65),
            Call::PushFull,
            Call::Take(2, 2),
            Call::Push(66, 66),
            Call::End(AtEnd::Full),
            Call::Take(3, 3),
            Call::EndIsLast,
            Call::End(AtEnd::Ended),
            Call::Take(4, 66),
            Call::TakeEnd,
            Call::TakeEnd,
        ],
    },
    // On one thread a line is full with 64 requests and at no other time, and empty with none.
    Case {
        name: "is_full_and_empty_in_its_time",
        size: 20_000,
        calls: &[
            Call::GoThrough(20_000),
            Call::End(AtEnd::Pushed),
            Call::TakeEnd,
        ],
    },
    Case {
        name: "takes_a_plan_of_a_million",
        size: 1_000_000,
        calls: &[Call::Next(Some(LIKE))],
    },
];
