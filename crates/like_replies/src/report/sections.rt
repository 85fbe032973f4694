ghost use Rattle.std.specs.Prelude.{◌≡◌, ◌<◌, ◌++◌, ℕ, if◌then◌else◌, true, [], All, IfOk, List, OnOk, length, map};
ghost use Rattle.std.specs.Option.{ForSome};
ghost use Rattle.like_requests.specs.Pages.{Page};
ghost use Rattle.like_promises.specs.places.Places.{lists_in};
ghost use Rattle.like_replies.specs.PlaceRows.{place_row, place_rows};
ghost use Rattle.like_replies.specs.Reported.{shown_with};
ghost use Rattle.like_replies.specs.Rows.{IsShowable, IsWritable, answer_rows, liker_rows, report_rows};
ghost use Rattle.like_replies.specs.Sections.{AreSections};

use crate::report::section::Section;
use like_promises::{Answer, Place, Report};
use std::alloc::{AllocError, Global};

// The most requests, users or places that a section has rows of.
const SECTION_ROWS: usize = 16_384;

/// The sections of a report, with these replies in place of its own.
pub fn report_sections<'a>(
    alloc: Global,
    replies: &'a [Vec<Answer>],
    report: &'a Report,
) -> Result<Vec<Section<'a>>, AllocError>
    ensures { (pages : List Page)
        → IsWritable pages (shown_with (map (λ row. row.items) replies.now) report.now)
        → IfOk result (λ all. AreSections pages
        (report_rows pages (shown_with (map (λ row. row.items) replies.now) report.now)) all.items) }
{
    let mut all = Vec::new(alloc);
    all.push(Section::Header)?;
    for (submitter, answers) in replies.iter().enumerate() {
        push_answers(&mut all, submitter as u64, answers)?;
    }
    all.push(Section::Counts(&report.counts))?;
    push_users(&mut all, &report.last)?;
    all.push(Section::Hot(&report.hot))?;
    Ok(all)
}

/// The sections of places, by page.
pub fn place_sections(
    alloc: Global,
    pages: u32,
    places: &[Vec<Place>],
) -> Result<Vec<Section<'_>>, AllocError>
    requires { length places.now ≡ pages }
    ensures { (named : List Page) → length named ≡ pages
        → IfOk result (λ all. AreSections named (place_rows named (lists_in places.now)) all.items) }
{
    let mut all = Vec::new(alloc);
    for page in 0..pages {
        push_places(&mut all, page, &places[page as usize])?;
    }
    Ok(all)
}

/// The sections of places, by page, where they are asked for, and else none.
pub fn asked_sections(
    alloc: Global,
    asked: bool,
    pages: u32,
    places: &[Vec<Place>],
) -> Result<Vec<Section<'_>>, AllocError>
    requires { asked ≡ true → length places.now ≡ pages }
    ensures { (named : List Page) → length named ≡ pages → IfOk result (λ all. AreSections named
        (if asked then place_rows named (lists_in places.now) else []) all.items) }
{
    if asked {
        return place_sections(alloc, pages, places);
    }
    Ok(Vec::new(alloc))
}

// Adds the sections of a submitter's requests.
fn push_answers<'a>(
    all: &mut Vec<Section<'a>>,
    submitter: u64,
    answers: &'a [Answer],
) -> Result<(), AllocError>
    ensures { (pages : List Page) (rows : List (List (List ℕ)))
        → AreSections pages rows all.old.items
        → All (λ a. IsShowable pages a.reply) answers.now
        → OnOk result (AreSections pages (rows ++ answer_rows pages submitter 0 answers.now) all.new.items) }
{
    let mut before = 0;
    for part in answers.chunks(SECTION_ROWS) {
        all.push(Section::Answers {
            submitter,
            before,
            answers: part,
        })?;
        before += part.len() as u64;
    }
    Ok(())
}

// Adds the sections of the users.
fn push_users<'a>(all: &mut Vec<Section<'a>>, users: &'a [Option<u32>]) -> Result<(), AllocError>
    ensures { (pages : List Page) (rows : List (List (List ℕ)))
        → AreSections pages rows all.old.items
        → All (λ last. ForSome last (λ page. page < length pages)) users.now
        → OnOk result (AreSections pages (rows ++ liker_rows pages 0 users.now) all.new.items) }
{
    let mut before = 0;
    for part in users.chunks(SECTION_ROWS) {
        all.push(Section::Users { before, last: part })?;
        before += part.len() as u64;
    }
    Ok(())
}

// Adds the sections of a page's places.
fn push_places<'a>(
    all: &mut Vec<Section<'a>>,
    page: u32,
    places: &'a [Place],
) -> Result<(), AllocError>
    ensures { (pages : List Page) (rows : List (List (List ℕ)))
        → AreSections pages rows all.old.items
        → page < length pages
        → OnOk result (AreSections pages (rows ++ map (place_row pages page) places.now) all.new.items) }
{
    for part in places.chunks(SECTION_ROWS) {
        all.push(Section::Places { page, places: part })?;
    }
    Ok(())
}
