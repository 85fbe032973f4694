//! The rows that cross between C and Rattle.
ghost use Rattle.std.specs.Prelude.{◌≡◌, ◌↔◌, IsTrue};
ghost use Rattle.like_c.specs.Layout.{AreLaidOut};
ghost use Rattle.like_c.specs.Opened.{IsUnreserved};
ghost use Rattle.like_c.specs.Rows.{HasRow, found_row, glance_row, look_row, shown_row, status_row};
ghost use Rattle.like_tables.specs.LastLike.{page_or_none};

use crate::status;
use like_live::{Answer, Call, Found, GlanceAnswer, LikePair, LookAnswer, Row};
use like_seat::Seen;
use like_tables::NO_PAGE;

// What is asked for in a request.
const LIKE: u64 = 0;

const LOOK: u64 = 1;

const GLANCE: u64 = 2;

#[repr(C)]
#[derive(Clone, Copy)]
pub struct Options {
    pub seats: u32,
    pub users: u32,
    pub room: u32,
    pub hot: u32,
    pub reserved: [u64; 6],
}

/// A law: the fields are in the order of likes.h, and at the places that it asserts.
pub fn rows_are_laid_out()
    ensures { AreLaidOut }
{}

// The sizes that likes.h pins.
const _: () = prove!(size_of::<Options>() == 64);

const _: () = prove!(size_of::<RequestRow>() == 24);

const _: () = prove!(size_of::<AnswerRow>() == 16);

const _: () = prove!(size_of::<FoundRow>() == 48);

const _: () = prove!(size_of::<LikePair>() == 8);

impl Options {
    /// Whether no reserved field is in use.
    pub(crate) fn is_unreserved(&self) -> bool
        ensures { IsTrue result ↔ IsUnreserved self.now }
    {
        self.reserved == [0; 6]
    }
}

#[repr(C)]
#[derive(Clone, Copy)]
pub struct RequestRow {
    pub tag: u64,
    pub user: u32,
    pub page: u32,
    /// C's `op`, and as its high half C's `reserved`.
    pub op: u64,
}

#[repr(C)]
#[derive(Clone, Copy)]
pub struct AnswerRow {
    pub count: u64,
    pub last: u32,
    pub status: u32,
}

#[repr(C)]
#[derive(Clone, Copy)]
pub struct FoundRow {
    pub tag: u64,
    pub count: u64,
    pub asked: u64,
    pub ran: u64,
    pub user: u32,
    pub page: u32,
    pub last: u32,
    pub reserved: u32,
}

// The number of a page, or `NO_PAGE`.
#[inline(always)]
pub(crate) fn page_or_none(page: Option<u32>) -> u32
    ensures { result ≡ page_or_none page }
{
    match page {
        Some(page) => page,
        None => NO_PAGE,
    }
}

impl AnswerRow {
    /// A status alone.
    pub(crate) fn of(status: u32) -> AnswerRow
        ensures { result ≡ status_row status }
    {
        AnswerRow {
            count: 0,
            last: 0,
            status,
        }
    }

    /// What was seen or glimpsed, as the status says.
    #[inline(always)]
    fn of_shown(shown: Seen, status: u32) -> AnswerRow
        ensures { result ≡ shown_row shown status }
    {
        AnswerRow {
            count: shown.count,
            last: page_or_none(shown.last),
            status,
        }
    }

    #[inline(always)]
    pub(crate) fn of_look(answer: LookAnswer) -> AnswerRow
        ensures { result ≡ look_row answer }
    {
        match answer {
            LookAnswer::Seen(seen) => AnswerRow::of_shown(seen, status::SEEN),
            LookAnswer::Waits => AnswerRow::of(status::WAITS),
            LookAnswer::NoRoom => AnswerRow::of(status::NO_ROOM),
            LookAnswer::Between => AnswerRow::of(status::BETWEEN),
            LookAnswer::Refused(verdict) => AnswerRow::of(status::of_verdict(verdict)),
            LookAnswer::Gone => AnswerRow::of(status::GONE),
        }
    }

    #[inline(always)]
    pub(crate) fn of_glance(answer: GlanceAnswer) -> AnswerRow
        ensures { result ≡ glance_row answer }
    {
        match answer {
            GlanceAnswer::Seen(seen) => AnswerRow::of_shown(seen, status::SEEN),
            GlanceAnswer::Glimpsed(seen) => AnswerRow::of_shown(seen, status::GLIMPSED),
            GlanceAnswer::Between => AnswerRow::of(status::BETWEEN),
            GlanceAnswer::Refused(verdict) => AnswerRow::of(status::of_verdict(verdict)),
            GlanceAnswer::Gone => AnswerRow::of(status::GONE),
        }
    }

    #[inline(always)]
    pub(crate) fn of_told_look(told: Result<LookAnswer, u32>) -> AnswerRow
        ensures { HasRow look_row result told }
    {
        match told {
            Ok(answer) => AnswerRow::of_look(answer),
            Err(refused) => AnswerRow::of(refused),
        }
    }

    #[inline(always)]
    pub(crate) fn of_told_glance(told: Result<GlanceAnswer, u32>) -> AnswerRow
        ensures { HasRow glance_row result told }
    {
        match told {
            Ok(answer) => AnswerRow::of_glance(answer),
            Err(refused) => AnswerRow::of(refused),
        }
    }
}

impl FoundRow {
    pub(crate) fn of(found: Found) -> FoundRow
        ensures { result ≡ found_row found }
    {
        FoundRow {
            tag: found.asked.tag,
            count: found.count,
            asked: found.asked.phase,
            ran: found.phase,
            user: found.asked.user,
            page: found.asked.page,
            last: page_or_none(found.last),
            reserved: 0,
        }
    }
}

impl Row for RequestRow {
    ghost use Rattle.like_c.specs.Rows.{call_of, row_of};

    type Told = AnswerRow;

    ghost asks = { call_of };

    ghost tells = { row_of };

    #[inline(always)]
    fn call(&self) -> Result<Call, AnswerRow> {
        if self.op == LIKE {
            return Ok(Call::Like {
                user: self.user,
                page: self.page,
            });
        }
        match self.op {
            LOOK => Ok(Call::Look {
                user: self.user,
                page: self.page,
                tag: self.tag,
            }),
            GLANCE => Ok(Call::Glance {
                user: self.user,
                page: self.page,
            }),
            _ => Err(AnswerRow::of(status::UNKNOWN_OP)),
        }
    }

    #[inline(always)]
    fn tell(answer: Answer) -> AnswerRow {
        match answer {
            Answer::Like(answer) => AnswerRow::of(status::of_like(answer)),
            Answer::Look(answer) => AnswerRow::of_look(answer),
            Answer::Glance(answer) => AnswerRow::of_glance(answer),
        }
    }
}
