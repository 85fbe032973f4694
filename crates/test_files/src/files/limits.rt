//! How many rows are taken, and refused one past it.
use crate::files::{assert_same, assert_that};
use like_requests::{Pages, PagesFault, ScriptFault, Turned, read_pages, read_script};
use std::alloc::{AllocError, Global};
use std::process::Abort;

fn push_pages(text: &mut String, pages: u32) -> Result<(), AllocError> {
    for page in 0..pages {
        write!(text, "{page},0,no\n")?;
    }
    Ok(())
}

// A file with this many pages.
fn pages_text(alloc: Global, pages: u32) -> Result<String, AllocError> {
    let mut text = String::from_str(alloc, "name,count,split\n")?;
    push_pages(&mut text, pages)?;
    Ok(text)
}

// What it is read as.
fn pages(rt: &impl Abort, alloc: Global, pages: u32) -> Result<Pages, PagesFault> {
    let text = pages_text(alloc, pages).expect(rt, "memory");
    read_pages(alloc, text.as_bytes())
}

// Whether the list has this length, and there was memory for it.
fn has_length<T: Drop>(list: Result<Vec<T>, AllocError>, length: usize) -> bool {
    match list {
        Ok(list) => list.len() == length,
        Err(_) => false,
    }
}

// Stops the test unless these are 1,024 pages, with as many counts and marks.
fn assert_all(rt: &impl Abort, alloc: Global, pages: &Pages) {
    assert_same(rt, "pages", pages.len(), 1_024);
    assert_that(rt, has_length(pages.counts(alloc), 1_024), "memory");
    assert_that(rt, has_length(pages.marks(alloc), 1_024), "memory");
}

// Stops the test unless 1,024 pages are read.
fn assert_most_pages(rt: &impl Abort, alloc: Global) {
    let pages = pages(rt, alloc, 1_024).expect(rt, "pages");
    assert_all(rt, alloc, &pages);
    drop(pages);
}

#[test]
fn of_pages(rt: HostRuntime) {
    assert_most_pages(&rt, rt.alloc());
}

#[test]
fn of_a_page_past_them(rt: HostRuntime) {
    let fault = pages(&rt, rt.alloc(), 1_025).err();
    assert_same(&rt, "1,025 pages", fault, Some(PagesFault::TooMany));
}

// A script of this many turns of the coordinator.
fn script_text(alloc: Global, turns: usize) -> Result<String, AllocError> {
    let turns = "coordinator,0\n".repeat(alloc, turns)?;
    format!(in alloc; "turn,index\n{turns}")
}

// What it is read as.
fn script(rt: &impl Abort, alloc: Global, turns: usize) -> Result<Vec<Turned>, ScriptFault> {
    let text = script_text(alloc, turns).expect(rt, "memory");
    read_script(alloc, text.as_bytes())
}

#[test]
fn of_entries(rt: HostRuntime) {
    let turns = script(&rt, rt.alloc(), 1_000_000).expect(&rt, "a script");
    assert_same(&rt, "entries", turns.len(), 1_000_000);
}

#[test]
fn of_an_entry_past_them(rt: HostRuntime) {
    let fault = script(&rt, rt.alloc(), 1_000_001).err();
    assert_same(&rt, "1,000,001 entries", fault, Some(ScriptFault::TooMany));
}
