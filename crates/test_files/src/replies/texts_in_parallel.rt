//! The text of a report whose sections threads make in parallel.
ghost use Rattle.std.specs.Prelude.{◌≡◌, ◌<◌, All, List, length};
ghost use Rattle.std.specs.Option.{ForSome};
ghost use Rattle.like_requests.specs.Pages.{Page};
ghost use Rattle.like_promises.specs.Collected.{rows_of};
ghost use Rattle.like_replies.specs.Reported.{reported};
ghost use Rattle.like_replies.specs.Rows.{IsShowable, IsWritable};

use super::places::place;
use super::texts::{HEADER, answer};
use super::written::one_page;
use crate::files::{assert_bytes, list, list_of};
use like_replies::{Extent, Place, Replies, Report, Text};
use like_requests::Pages;
use like_roles::Reply;
use std::alloc::{AllocError, Global};
use std::process::Abort;
use std::thread::Threads;

// The replies to this many likes of one submitter.
fn liked(rt: &impl Abort, alloc: Global, count: usize) -> Replies
    ensures { (pages : List Page) → All (All (λ a. IsShowable pages a.reply)) (rows_of result) }
{
    let answers = vec![in alloc; answer(0, Reply::Liked); count].expect(rt, "memory");
    let rows = list_of(rt, alloc, answers);
    Replies { rows }
}

// The only page, as the last one that each of this many users liked.
fn last_liked(rt: &impl Abort, alloc: Global, users: usize) -> Vec<Option<u32>>
    ensures { (pages : List Page) → length pages ≡ 1
        → All (λ last. ForSome last (λ page. page < length pages)) result.items }
{
    vec![in alloc; Some(0); users].expect(rt, "memory")
}

// This many places on the only page.
fn placed(rt: &impl Abort, alloc: Global, count: usize) -> Vec<Vec<Place>>
    ensures { length result.items ≡ 1 }
{
    let places = vec![in alloc; place(0, 7, 1); count].expect(rt, "memory");
    list_of(rt, alloc, places)
}

// The report on this many likes of one submitter, each of another user, with a place for each.
fn report_of_likes(rt: &impl Abort, alloc: Global, count: usize) -> Report
    ensures written { (pages : List Page) → length pages ≡ 1 → IsWritable pages (reported result) }
    ensures placed { length result.places.items ≡ 1 }
{
    let replies = liked(rt, alloc, count);
    let counts = list(rt, alloc, &[7]);
    let last = last_liked(rt, alloc, count);
    Report {
        logs: Vec::new(alloc),
        replies,
        counts,
        last,
        phases: 0,
        hot: Vec::new(alloc),
        places: placed(rt, alloc, count),
    }
}

// The rows of this many requests.
fn push_requests(text: &mut String, count: usize) -> Result<(), AllocError> {
    for before in 0..count {
        let number = before + 1;
        write!(text, "reply,0,{number},0,liked,,\n")?;
    }
    Ok(())
}

// The rows of this many users.
fn push_users(text: &mut String, count: usize) -> Result<(), AllocError> {
    for user in 0..count {
        write!(text, "user,{user},,,,a,\n")?;
    }
    Ok(())
}

// The rows of this many places.
fn push_places(text: &mut String, count: usize) -> Result<(), AllocError> {
    for _ in 0..count {
        text.push_str("place,0,0,1,7,a,1\n")?;
    }
    Ok(())
}

// Its text, with this many places.
fn text_of_likes(alloc: Global, count: usize, places: usize) -> Result<String, AllocError> {
    let mut text = String::from_str(alloc, HEADER)?;
    push_rows(&mut text, count, places)?;
    Ok(text)
}

fn push_rows(text: &mut String, count: usize, places: usize) -> Result<(), AllocError> {
    push_requests(text, count)?;
    text.push_str("page,0,,,,a,7\n")?;
    push_users(text, count)?;
    push_places(text, places)
}

// Stops the test unless this is written of a report, as much of it as is asked for.
fn assert_text(
    rt: &(impl Abort + Threads + Sync),
    alloc: Global,
    report: &Report,
    extent: Extent,
    text: &str,
)
    requires written { (pages : List Page) → length pages ≡ 1
        → IsWritable pages (reported report.now) }
    requires placed { length report.now.places.items ≡ 1 }
{
    let pages = one_page(rt, alloc, "name,count,split\na,0,no\n");
    let written = written(rt, alloc, report, &pages, extent);
    drop(pages);
    assert_bytes(rt, written, text.as_bytes());
}

// What is written of a report.
fn written(
    rt: &(impl Abort + Threads + Sync),
    alloc: Global,
    report: &Report,
    pages: &Pages,
    extent: Extent,
) -> Vec<u8>
    requires written { IsWritable pages.now (reported report.now) }
    requires placed { length report.now.places.items ≡ length pages.now }
{
    let mut out = Vec::new(alloc);
    let text = Text::new(alloc, extent, report, pages).expect(rt, "memory");
    text.write_in_parallel(rt, alloc, &mut out)
        .expect(rt, "memory");
    out
}

// Stops the test unless this is written of a report of so many likes.
fn assert_written(
    rt: &(impl Abort + Threads + Sync),
    alloc: Global,
    count: usize,
    extent: Extent,
    text: &str,
) {
    let report = report_of_likes(rt, alloc, count);
    assert_text(rt, alloc, &report, extent, text);
    drop(report);
}

fn extent(totals: bool, places: bool) -> Extent {
    Extent { totals, places }
}

// 40,000 requests, users and places have three sections each, the last of them shorter than the others: more than are
// made in parallel.
#[test]
fn all_sections_in_order(rt: HostRuntime) {
    for count in &[0, 1, 16_384, 40_000] {
        let text = text_of_likes(rt.alloc(), *count, *count).expect(&rt, "memory");
        assert_written(&rt, rt.alloc(), *count, extent(false, true), &text);
    }
}

#[test]
fn no_places_unasked(rt: HostRuntime) {
    let text = text_of_likes(rt.alloc(), 1, 0).expect(&rt, "memory");
    assert_written(&rt, rt.alloc(), 1, extent(false, false), &text);
}

// The rows of the replies are left out, and those of the places are not.
#[test]
fn no_replies_in_totals(rt: HostRuntime) {
    let text = "row,id,number,phase,answer,page,count\npage,0,,,,a,7\nuser,0,,,,a,\nuser,1,,,,a,\n";
    assert_written(&rt, rt.alloc(), 2, extent(true, false), text);
    let text =
        "row,id,number,phase,answer,page,count\npage,0,,,,a,7\nuser,0,,,,a,\nplace,0,0,1,7,a,1\n";
    assert_written(&rt, rt.alloc(), 1, extent(true, true), text);
}
