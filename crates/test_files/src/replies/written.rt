//! What is written of a report, on a writer in memory and on one that fails.
ghost use Rattle.std.specs.Prelude.{◌≡◌, List, length};
ghost use Rattle.test_files.specs.declared.replies.written.Part.TheVariants.{Places, Text};
ghost use Rattle.like_requests.specs.Pages.{Page};
ghost use Rattle.like_replies.specs.Reported.{reported};
ghost use Rattle.like_replies.specs.Rows.{IsWritable};

use crate::files::{assert_bytes, assert_same, assert_step, list, pages_of};
use like_replies::{Report, WriteFault, write_places, write_report};
use like_requests::Pages;
use std::alloc::Global;
use std::io::Write;
use std::process::Abort;

/// What is written of a report: its text, or the rows of its places.
#[derive(Clone, Copy)]
pub enum Part {
    Text,
    Places,
}

/// The page of a file with one.
pub fn one_page(rt: &impl Abort, alloc: Global, text: &str) -> Pages
    ensures { length result ≡ 1 }
{
    let pages = pages_of(rt, alloc, text.as_bytes());
    assert_one(rt, &pages);
    pages
}

fn assert_one(rt: &impl Abort, pages: &Pages)
    ensures { length pages.now ≡ 1 }
{
    assert!(rt; pages.len() == 1);
}

// Writes a part of a report.
fn write_part<W: Write>(
    alloc: Global,
    part: Part,
    report: &Report,
    pages: &Pages,
    out: &mut W,
) -> Result<(), WriteFault>
    requires text { part ≡ Text → IsWritable pages.now (reported report.now) }
    requires places { part ≡ Places → length report.now.places.items ≡ length pages.now }
{
    match part {
        Part::Text => write_report(alloc, report, pages, out),
        Part::Places => write_places(alloc, report, pages, out),
    }
}

// The fault of a write where there is room for this many bytes, and what is written.
fn write_within(
    rt: &impl Abort,
    alloc: Global,
    part: Part,
    report: &Report,
    pages: &Pages,
    bytes: usize,
) -> (Option<WriteFault>, Vec<u8>)
    requires text { part ≡ Text → IsWritable pages.now (reported report.now) }
    requires places { part ≡ Places → length report.now.places.items ≡ length pages.now }
{
    let mut room = vec![in alloc; 0; bytes].expect(rt, "memory");
    let mut out = room.as_mut_slice();
    let fault = write_part(alloc, part, report, pages, &mut out).err();
    (fault, room)
}

// Asserts that a part is written as this text where there is room for all of it, and that with any less the write fails.
fn assert_writes(
    rt: &impl Abort,
    alloc: Global,
    part: Part,
    report: &Report,
    pages: &Pages,
    text: &str,
)
    requires text { part ≡ Text → IsWritable pages.now (reported report.now) }
    requires places { part ≡ Places → length report.now.places.items ≡ length pages.now }
{
    for bytes in 0..text.len() {
        let (fault, _) = write_within(rt, alloc, part, report, pages, bytes);
        assert_step(rt, "bytes of room", bytes, fault, Some(WriteFault::Write));
    }
    let (fault, written) = write_within(rt, alloc, part, report, pages, text.len());
    assert_same(rt, "a write", fault, None);
    assert_bytes(rt, written, text.as_bytes());
}

/// Asserts that a part of a report on the page of a file is written as this text. It takes the report, so that no caller
/// has to drop it.
pub fn assert_written(
    rt: &impl Abort,
    alloc: Global,
    file: &str,
    part: Part,
    report: Report,
    text: &str,
)
    requires text { part ≡ Text → (pages : List Page) → length pages ≡ 1 → IsWritable pages (reported report) }
    requires places { part ≡ Places → length report.places.items ≡ 1 }
{
    let pages = one_page(rt, alloc, file);
    assert_writes(rt, alloc, part, &report, &pages, text);
    drop(pages);
    drop(report);
}

/// Asserts that a part is written as this text behind what was in the writer.
pub fn assert_appended(
    rt: &impl Abort,
    alloc: Global,
    file: &str,
    part: Part,
    report: Report,
    text: &str,
)
    requires text { part ≡ Text → (pages : List Page) → length pages ≡ 1 → IsWritable pages (reported report) }
    requires places { part ≡ Places → length report.places.items ≡ 1 }
{
    let pages = one_page(rt, alloc, file);
    let mut out = list(rt, alloc, b"before\n");
    write_part(alloc, part, &report, &pages, &mut out).expect(rt, "memory");
    drop(pages);
    drop(report);
    assert_bytes(rt, out, text.as_bytes());
}
