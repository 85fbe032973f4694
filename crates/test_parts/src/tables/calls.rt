//! The calls of slices, stashes and tables of users as data, each with its answer.
use like_requests::{Numbered, Op, PageRef, Request};
use like_tables::Held;

#[derive(Clone, Copy, Debug, PartialEq)]
pub enum OnSlice {
    /// A like of this page.
    Add(u32),
    /// How many likes this page has.
    Likes(u32, u64),
    /// The likes of this page.
    Take(u32, u64),
    /// The next page that is liked, from this one on.
    Next(u32, Option<u32>),
    Total(u64),
    IsEmpty(bool),
}

#[derive(Clone, Copy, Debug, PartialEq)]
pub enum OnStash {
    /// A look of this submitter.
    Push(u32),
    /// This many looks.
    Fill(u32),
    /// The submitter of the look that comes out.
    Pop(Option<u32>),
    IsFull(bool),
    Len(u32),
}

#[derive(Clone, Copy, Debug, PartialEq)]
pub enum OnUsers {
    /// Whether the worker serves this user.
    Owns(u32, bool),
    /// The page that this user liked last.
    Last(u32, Option<u32>),
    /// A like of this user, of this page.
    Set(u32, u32),
}

#[derive(Clone, Copy, Debug, PartialEq)]
pub enum OnSplits {
    /// Splits this page, whose bucket is empty.
    Put(u32),
    /// Whether this page is split.
    Has(u32, bool),
    /// The bucket of this page.
    Bucket(u32, u32),
    /// The page in this bucket.
    PageIn(u32, Option<u32>),
    /// The page in the next bucket that holds one, from this one on.
    Next(u32, Option<u32>),
    Clear,
}

/// Tables of split pages: the factor of each, and its calls.
pub fn splits() -> &'static [(u32, &'static [OnSplits])] {
    SPLITS
}

/// Slices: how many pages each has, and its calls.
pub fn slices() -> &'static [(u32, &'static [OnSlice])] {
    SLICES
}

/// Stashes: how many looks each has room for, and its calls.
pub fn stashes() -> &'static [(u32, &'static [OnStash])] {
    STASHES
}

/// The calls of a table of five users, of whom 1 and 3 are the worker's.
pub fn of_five() -> &'static [OnUsers] {
    OF_FIVE
}

/// The calls of a table of a million users.
pub fn of_a_million() -> &'static [OnUsers] {
    OF_A_MILLION
}

/// A submitter's first look, of user 0.
pub fn held_of(submitter: u32) -> Held {
    Held { submitter, ..HELD }
}

const HELD: Held = Held {
    submitter: 0,
    ask: Numbered {
        number: 1,
        request: Request {
            op: Op::Look,
            user: 0,
            page: PageRef::Known(0),
        },
    },
};

const SLICES: &[(u32, &[OnSlice])] = &[
    (
        2,
        &[
            OnSlice::IsEmpty(true),
            OnSlice::Add(1),
            OnSlice::Add(1),
            OnSlice::Add(1),
            OnSlice::Total(3),
            OnSlice::Likes(0, 0),
            OnSlice::Likes(1, 3),
            OnSlice::Take(1, 3),
            OnSlice::Take(1, 0),
            OnSlice::IsEmpty(true),
        ],
    ),
    // A slice is walked by words of 64 pages.
    (
        130,
        &[
            OnSlice::Next(0, None),
            OnSlice::Add(0),
            OnSlice::Add(64),
            OnSlice::Add(129),
            OnSlice::Add(64),
            OnSlice::Next(0, Some(0)),
            OnSlice::Next(1, Some(64)),
            OnSlice::Next(65, Some(129)),
            OnSlice::Take(64, 2),
            OnSlice::Next(1, Some(129)),
            OnSlice::Next(130, None),
        ],
    ),
    // The most pages.
    (
        1_024,
        &[
            OnSlice::IsEmpty(true),
            OnSlice::Add(1_023),
            OnSlice::Take(1_023, 1),
        ],
    ),
];

const SPLITS: &[(u32, &[OnSplits])] = &[
    // By this factor page 0 to 1,023 has the bucket of its number.
    (
        4_194_304,
        &[
            OnSplits::Next(0, None),
            OnSplits::Put(0),
            OnSplits::Put(1_023),
            OnSplits::Has(0, true),
            OnSplits::Has(1, false),
            OnSplits::Has(1_023, true),
            OnSplits::Has(1_024, false),
            OnSplits::Bucket(1_023, 1_023),
            OnSplits::Bucket(1_024, 0),
            OnSplits::PageIn(0, Some(0)),
            OnSplits::PageIn(1, None),
            OnSplits::Next(0, Some(0)),
            OnSplits::Next(1, Some(1_023)),
            OnSplits::Next(1_024, None),
            OnSplits::Clear,
            OnSplits::Has(0, false),
            OnSplits::Has(1_023, false),
            OnSplits::Put(1_024),
            OnSplits::Has(1_024, true),
            OnSplits::Has(0, false),
        ],
    ),
    // The pages 198 and 999,999 share a bucket.
    (
        2_654_435_769,
        &[
            OnSplits::Put(999_999),
            OnSplits::Has(999_999, true),
            OnSplits::Has(198, false),
            OnSplits::Bucket(198, 379),
            OnSplits::PageIn(379, Some(999_999)),
            OnSplits::Next(379, Some(999_999)),
            OnSplits::Next(380, None),
            OnSplits::Clear,
            OnSplits::Put(198),
            OnSplits::Has(999_999, false),
            OnSplits::Has(198, true),
        ],
    ),
];

const STASHES: &[(u32, &[OnStash])] = &[
    (
        1,
        &[
            OnStash::IsFull(false),
            OnStash::Push(0),
            OnStash::IsFull(true),
            OnStash::Len(1),
            OnStash::Pop(Some(0)),
            OnStash::Pop(None),
        ],
    ),
    // A stash goes round.
    (
        2,
        &[
            OnStash::Push(0),
            OnStash::Push(1),
            OnStash::Pop(Some(0)),
            OnStash::Push(2),
            OnStash::Pop(Some(1)),
            OnStash::Pop(Some(2)),
            OnStash::Pop(None),
        ],
    ),
    // The most looks.
    (
        4_096,
        &[
            OnStash::Fill(4_096),
            OnStash::IsFull(true),
            OnStash::Len(4_096),
        ],
    ),
];

const OF_FIVE: &[OnUsers] = &[
    OnUsers::Owns(0, false),
    OnUsers::Owns(1, true),
    OnUsers::Owns(2, false),
    OnUsers::Owns(3, true),
    OnUsers::Owns(4, false),
    OnUsers::Owns(5, false),
    OnUsers::Last(3, None),
    OnUsers::Set(3, 7),
    OnUsers::Last(3, Some(7)),
    OnUsers::Last(1, None),
];

const OF_A_MILLION: &[OnUsers] = &[
    OnUsers::Owns(999_999, true),
    OnUsers::Set(999_999, 1_023),
    OnUsers::Owns(999_999, true),
    OnUsers::Last(999_999, Some(1_023)),
];
