ghost use Rattle.std.specs.Prelude.{◌≡◌, ◌<◌, ◌+◌, ◌^◌, ℕ, [], ◌∷◌, ◌++◌, All, OnOk, codes, filter, length, map};
ghost use Rattle.std.specs.List.{range_with_len};
ghost use Rattle.std.specs.Option.{ForSome};
ghost use Rattle.like_core.specs.Phase.{is_hot};
ghost use Rattle.like_replies.specs.PlaceRows.{place_row};
ghost use Rattle.like_replies.specs.RowParts.{reply_start};
ghost use Rattle.like_replies.specs.Rows.{IsShowable, answer_rows, hot_row, hot_rows, liker_rows, page_rows, rows_text};
ghost use Rattle.like_replies.specs.Sections.{HasRows, section_rows};

use crate::report::head::Head;
use crate::report::names::Names;
use crate::report::phase_texts::PhaseTexts;
use crate::report::rows::{
    add_header, add_hot, add_page, add_place, add_reply, add_user, start_reply,
};
use crate::report::sheet::Sheet;
use like_core::is_hot;
use like_promises::{Answer, Chosen, Place};
use std::alloc::AllocError;

/// A part of the rows, whose text is made in one go.
#[derive(Drop)]
pub enum Section<'a> {
    Header,
    /// Requests of a submitter, after the first `before` of them.
    Answers {
        submitter: u64,
        before: u64,
        answers: &'a [Answer],
    },
    /// The pages, by their final counts.
    Counts(&'a [u64]),
    /// The users from number `before` on, by their last likes.
    Users {
        before: u64,
        last: &'a [Option<u32>],
    },
    /// The hot pages, phase by phase.
    Hot(&'a [Chosen]),
    /// Places of a page.
    Places {
        page: u32,
        places: &'a [Place],
    },
}

// The most bytes that a row has beside a page's name.
const ROW: usize = 86;

impl Section<'_> {
    /// Room for its text, if no name of a page takes more bytes than this.
    pub fn room(&self, name: usize) -> usize {
        let rows = match self {
            Section::Header => 1,
            Section::Answers { answers, .. } => answers.len(),
            Section::Counts(counts) => counts.len(),
            Section::Users { last, .. } => last.len(),
            Section::Hot(hot) => hot_rows(hot),
            Section::Places { places, .. } => places.len(),
        };
        rows.saturating_mul(name.saturating_add(ROW))
    }
}

// How many rows show hot pages.
fn hot_rows(hot: &[Chosen]) -> usize {
    hot.iter().fold(0, |rows: usize, chosen| {
        rows.saturating_add(chosen.mask.count_ones() as usize)
    })
}

/// Adds the rows of a section.
pub fn add_section(sheet: &mut Sheet, names: &Names, section: &Section) -> Result<(), AllocError>
    requires { HasRows names.now section.now }
    ensures { OnOk result (sheet.new
        ≡ sheet.old ++ rows_text (section_rows names.now section.now)) }
{
    match *section {
        Section::Header => add_header(sheet),
        Section::Answers {
            submitter,
            before,
            answers,
        } => add_answers(sheet, names, submitter, before, answers),
        Section::Counts(counts) => add_counts(sheet, names, counts),
        Section::Users { before, last } => add_users(sheet, names, before, last),
        Section::Hot(hot) => add_all_hot(sheet, names, hot),
        Section::Places { page, places } => add_places(sheet, names, page, places),
    }
}

// Adds the rows of a submitter's requests, after the first `before` of them.
fn add_answers(
    sheet: &mut Sheet,
    names: &Names,
    submitter: u64,
    before: u64,
    answers: &[Answer],
) -> Result<(), AllocError>
    requires room { before + 1 + length answers.now < 2 ^ 64 }
    requires shown { All (λ a. IsShowable names.now a.reply) answers.now }
    ensures { OnOk result (sheet.new ≡ sheet.old
        ++ rows_text (answer_rows names.now submitter before answers.now)) }
{
    let mut head = reply_head(submitter, before);
    let mut phases = [PhaseTexts::new(0), PhaseTexts::new(1)];
    add_replies(sheet, names, &mut head, &mut phases, answers)
}

// Adds the rows of requests, from the one of this head on.
fn add_replies(
    sheet: &mut Sheet,
    names: &Names,
    head: &mut Head,
    phases: &mut [PhaseTexts; 2],
    answers: &[Answer],
) -> Result<(), AllocError>
    requires room { head.old.number + length answers.now < 2 ^ 64 }
    requires shown { All (λ a. IsShowable names.now a.reply) answers.now }
    ensures { (submitter before : ℕ)
        → head.old ≡ record { start = reply_start submitter; number = before + 1 }
        → OnOk result (sheet.new ≡ sheet.old
        ++ rows_text (answer_rows names.now submitter before answers.now)) }
{
    for answer in answers {
        add_reply(sheet, names, head, phases, answer)?;
        head.next();
    }
    Ok(())
}

// The head of the first of these rows, whose requests count from 1.
fn reply_head(submitter: u64, before: u64) -> Head
    requires { before + 1 < 2 ^ 64 }
    ensures { result ≡ record { start = reply_start submitter; number = before + 1 } }
{
    let start = start_reply(submitter);
    Head::new(start.text(), before + 1)
}

// Adds the rows of the pages.
fn add_counts(sheet: &mut Sheet, names: &Names, counts: &[u64]) -> Result<(), AllocError>
    requires { length counts.now ≡ length names.now }
    ensures { OnOk result (sheet.new ≡ sheet.old ++ rows_text (page_rows names.now counts.now)) }
{
    for page in 0..names.len() {
        add_page(sheet, names, page, counts[page as usize])?;
    }
    Ok(())
}

// Adds the rows of the users from number `before` on that have an accepted like.
fn add_users(
    sheet: &mut Sheet,
    names: &Names,
    before: u64,
    last: &[Option<u32>],
) -> Result<(), AllocError>
    requires room { before + length last.now < 2 ^ 64 }
    requires there { All (λ page. ForSome page (λ p. p < length names.now)) last.now }
    ensures { OnOk result (sheet.new ≡ sheet.old
        ++ rows_text (liker_rows names.now before last.now)) }
{
    let mut head = Head::new(b"user,", before);
    for page in last {
        add_last(sheet, names, &head, *page)?;
        head.next();
    }
    Ok(())
}

// Adds the row of the head's user, if it has a last like.
fn add_last(
    sheet: &mut Sheet,
    names: &Names,
    head: &Head,
    last: Option<u32>,
) -> Result<(), AllocError>
    requires start { head.now.start ≡ codes "user," }
    requires there { ForSome last (λ page. page < length names.now) }
    ensures { OnOk result (sheet.new ≡ sheet.old
        ++ rows_text (liker_rows names.now head.now.number (last ∷ []))) }
{
    match last {
        Some(page) => add_user(sheet, names, head, page),
        None => Ok(()),
    }
}

// Adds the rows of the hot pages, phase by phase.
fn add_all_hot(sheet: &mut Sheet, names: &Names, hot: &[Chosen]) -> Result<(), AllocError>
    ensures { OnOk result (sheet.new ≡ sheet.old ++ rows_text (hot_rows names.now hot.now)) }
{
    for chosen in hot {
        add_chosen(sheet, names, *chosen)?;
    }
    Ok(())
}

// Adds the rows of a phase's hot pages.
fn add_chosen(sheet: &mut Sheet, names: &Names, chosen: Chosen) -> Result<(), AllocError>
    ensures { OnOk result (sheet.new ≡ sheet.old
        ++ rows_text (map (hot_row names.now chosen.phase)
        (filter (is_hot chosen.mask) (range_with_len 0 (length names.now))))) }
{
    for page in 0..names.len() {
        if !is_hot(chosen.mask, page) {
            continue;
        }
        add_hot(sheet, names, chosen.phase, page)?;
    }
    Ok(())
}

// Adds the rows of places of a page.
fn add_places(
    sheet: &mut Sheet,
    names: &Names,
    page: u32,
    places: &[Place],
) -> Result<(), AllocError>
    requires { page < length names.now }
    ensures { OnOk result (sheet.new ≡ sheet.old
        ++ rows_text (map (place_row names.now page) places.now)) }
{
    for place in places {
        add_place(sheet, names, page, place)?;
    }
    Ok(())
}
