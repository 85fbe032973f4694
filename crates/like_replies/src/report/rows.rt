ghost use Rattle.std.specs.Prelude.{◌≡◌, ◌≢◌, ◌<◌, ◌≤◌, ◌++◌, ℕ, List, OnOk, codes, length};
ghost use Rattle.std.specs.Option.{ForSome};
ghost use Rattle.csv.specs.Writing.{default_writer, field_text, row_text};
ghost use Rattle.like_requests.specs.Pages.{Page};
ghost use Rattle.like_requests.specs.declared.verdict.Verdict.TheVariants.{Accepted};
ghost use Rattle.like_promises.specs.declared.reply.Reply.TheVariants.{Refused, Seen};
ghost use Rattle.like_replies.specs.Rows.{IsShowable, header_row, hot_row, name_of, page_row, reply_row, user_row};
ghost use Rattle.like_replies.specs.PlaceRows.{place_row};
ghost use Rattle.like_replies.specs.RowParts.{phase_text, place_start, reply_start, shown_text};

use crate::report::head::Head;
use crate::report::label::Label;
use crate::report::names::Names;
use crate::report::phase_texts::PhaseTexts;
use crate::report::sheet::Sheet;
use like_promises::{Answer, Place, Reply};
use like_requests::Verdict;
use std::alloc::AllocError;

/// Adds the header row.
#[tactic(auto, unfolding(csv::specs::Writing::fields_text, csv::specs::Writing::is_blank))]
pub fn add_header(sheet: &mut Sheet) -> Result<(), AllocError>
    ensures { OnOk result (sheet.new ≡ sheet.old ++ row_text default_writer header_row) }
{
    sheet.add(b"row,id,number,phase,answer,page,count\n")
}

/// How each row of a submitter's requests begins.
pub fn start_reply(submitter: u64) -> Label
    ensures start { result ≡ reply_start submitter }
    ensures short { length result ≤ 28 }
{
    let mut start = Label::new();
    start.add(b"reply,");
    start.add_number(submitter);
    start.add(b",");
    start
}

// What a refusal shows, and the end of its row.
fn refusal(verdict: Verdict) -> &'static str
    requires { verdict ≢ Accepted }
    ensures { (pages : List Page) → result.now ≡ shown_text pages (Refused verdict) }
{
    match verdict {
        Verdict::Accepted => unreachable!(),
        Verdict::UnknownUser => ",unknown-user,,\n",
        Verdict::OtherHome => ",other-home,,\n",
        Verdict::UnknownPage => ",unknown-page,,\n",
    }
}

// Adds the phase of a reply and what it shows, and ends the row.
fn add_shown(
    sheet: &mut Sheet,
    names: &Names,
    texts: &PhaseTexts,
    reply: Reply,
) -> Result<(), AllocError>
    requires { IsShowable names.now reply }
    ensures { OnOk result (sheet.new ≡ sheet.old
        ++ (phase_text texts.now ++ shown_text names.now reply)) }
{
    match reply {
        Reply::Liked => sheet.add(texts.liked()),
        Reply::Seen { last, count } => add_seen(sheet, names, texts, last, count),
        Reply::Refused(verdict) => {
            sheet.add(texts.start())?;
            sheet.add(refusal(verdict).as_bytes())
        }
    }
}

// Adds what a look was shown.
fn add_seen(
    sheet: &mut Sheet,
    names: &Names,
    texts: &PhaseTexts,
    last: Option<u32>,
    count: u64,
) -> Result<(), AllocError>
    requires { ForSome last (λ page. page < length names.now) }
    ensures { OnOk result (sheet.new ≡ sheet.old
        ++ (phase_text texts.now ++ shown_text names.now (Seen last count))) }
{
    sheet.add(texts.seen())?;
    sheet.add(names.text_of_last(last))?;
    sheet.add_numbered(b",", count)?;
    sheet.add(b"\n")
}

/// Adds the row of a submitter's request, with the texts of an even and of an odd phase at hand: joined and split
/// phases take turns.
pub fn add_reply(
    sheet: &mut Sheet,
    names: &Names,
    head: &Head,
    phases: &mut [PhaseTexts; 2],
    answer: &Answer,
) -> Result<(), AllocError>
    requires { IsShowable names.now answer.now.reply }
    ensures { (submitter : ℕ) → head.now.start ≡ reply_start submitter
        → OnOk result (sheet.new ≡ sheet.old
        ++ row_text default_writer (reply_row names.now submitter head.now.number answer.now)) }
{
    let texts = &mut phases[answer.phase as usize % 2];
    texts.go_to(answer.phase);
    sheet.add(head.text())?;
    add_shown(sheet, names, texts, answer.reply)
}

// Adds text, and after it the name of a page.
fn add_named(sheet: &mut Sheet, text: &[u8], names: &Names, page: u32) -> Result<(), AllocError>
    requires { page < length names.now }
    ensures { OnOk result (sheet.new
        ≡ sheet.old ++ (text.now ++ field_text default_writer (name_of names.now page))) }
{
    sheet.add(text)?;
    sheet.add(names.text(page))
}

/// Adds the row of a page with its final count.
pub fn add_page(sheet: &mut Sheet, names: &Names, page: u32, count: u64) -> Result<(), AllocError>
    requires { page < length names.now }
    ensures { OnOk result (sheet.new ≡ sheet.old
        ++ row_text default_writer (page_row names.now page count)) }
{
    sheet.add_numbered(b"page,", u64::from(page))?;
    add_named(sheet, b",,,,", names, page)?;
    sheet.add_numbered(b",", count)?;
    sheet.add(b"\n")
}

/// Adds the row of the head's user, whose last like is of this page.
pub fn add_user(sheet: &mut Sheet, names: &Names, head: &Head, page: u32) -> Result<(), AllocError>
    requires start { head.now.start ≡ codes "user," }
    requires there { page < length names.now }
    ensures { OnOk result (sheet.new ≡ sheet.old
        ++ row_text default_writer (user_row names.now head.now.number page)) }
{
    sheet.add(head.text())?;
    add_named(sheet, b",,,,", names, page)?;
    sheet.add(b",\n")
}

/// Adds the row of a page that is hot in a phase.
pub fn add_hot(sheet: &mut Sheet, names: &Names, phase: u32, page: u32) -> Result<(), AllocError>
    requires { page < length names.now }
    ensures { OnOk result (sheet.new ≡ sheet.old
        ++ row_text default_writer (hot_row names.now phase page)) }
{
    sheet.add_numbered(b"hot,", u64::from(page))?;
    sheet.add_numbered(b",,", u64::from(phase))?;
    add_named(sheet, b",,", names, page)?;
    sheet.add(b",\n")
}

/// Adds the row of a place of a page.
pub fn add_place(
    sheet: &mut Sheet,
    names: &Names,
    page: u32,
    place: &Place,
) -> Result<(), AllocError>
    requires { page < length names.now }
    ensures { OnOk result (sheet.new ≡ sheet.old
        ++ row_text default_writer (place_row names.now page place.now)) }
{
    start_place(sheet, page, place)?;
    sheet.add_number(place.old)?;
    add_named(sheet, b",", names, page)?;
    sheet.add_numbered(b",", place.n)?;
    sheet.add(b"\n")
}

// Adds how that row begins.
fn start_place(sheet: &mut Sheet, page: u32, place: &Place) -> Result<(), AllocError>
    ensures { OnOk result (sheet.new ≡ sheet.old ++ place_start page place.now) }
{
    sheet.add_numbered(b"place,", u64::from(page))?;
    sheet.add_numbered(b",", u64::from(place.worker))?;
    sheet.add_numbered(b",", u64::from(place.phase))?;
    sheet.add(b",")
}
