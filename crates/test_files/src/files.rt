//! What the readers of pages, requests and scripts make of files: of whole ones, and of some that are cut short, fail
//! in mid-stream, have a byte changed or are of another kind.
ghost use Rattle.std.specs.Prelude.{◌≡◌, ◌<◌, ◌++◌, ◌∷◌, [], length};

mod cases;
mod limits;
mod refused;

use crate::records::{bytes, csv_cases};
use cases::{Case, Kind, changed, pages_files, prefixes, reads, request_files, scripts};
use like_requests::{
    Pages, PagesFault, Request, RequestsFault, read_pages, read_requests, read_script,
};
use std::alloc::Global;
use std::fmt::Debug;
use std::io::Read;
use std::process::Abort;
use test_devices::Trickle;

/// A value as `Debug` shows it. It takes the value, so that no caller has to drop it.
pub fn shown<T: Debug + Drop>(rt: &impl Abort, alloc: Global, value: T) -> String {
    format!(in alloc; "{value:?}").expect(rt, "memory")
}

/// Stops the test and tells what is wrong, unless this holds.
pub fn assert_that(rt: &impl Abort, holds: bool, wrong: &str) {
    if !holds {
        rt.panic(wrong);
    }
}

/// Stops the test unless what came in a case is as is wanted.
pub fn assert_same<T: PartialEq + Debug + Drop>(rt: &impl Abort, case: &str, came: T, wanted: T) {
    assert!(rt; came == wanted, "{case}: {came:?}, not {wanted:?}");
}

/// Stops the test unless what came at a step of a case is as is wanted.
pub fn assert_step<T: PartialEq + Debug + Drop>(
    rt: &impl Abort,
    case: &str,
    step: usize,
    came: T,
    wanted: T,
) {
    assert!(rt;
        came == wanted,
        "{case}, step {step}: {came:?}, not {wanted:?}"
    );
}

/// Stops the test unless a text is as is wanted.
pub fn assert_text(rt: &impl Abort, text: String, wanted: &str) {
    assert_same(rt, "a text", text.as_str(), wanted);
    drop(text);
}

/// A list of these.
pub fn list<T: Copy + Drop>(rt: &impl Abort, alloc: Global, items: &[T]) -> Vec<T>
    ensures { result.items ≡ items.now }
{
    Vec::from_slice(alloc, items).expect(rt, "memory")
}

/// A list of one item.
pub fn list_of<T: Drop>(rt: &impl Abort, alloc: Global, item: T) -> Vec<T>
    ensures { result.items ≡ item ∷ [] }
{
    let mut items = Vec::new(alloc);
    push(rt, &mut items, item);
    items
}

/// A list of two items.
pub fn pair_of<T: Drop>(rt: &impl Abort, alloc: Global, first: T, second: T) -> Vec<T>
    ensures { result.items ≡ first ∷ second ∷ [] }
{
    let mut items = list_of(rt, alloc, first);
    push(rt, &mut items, second);
    items
}

/// Puts an item at the end of others.
pub fn push<T: Drop>(rt: &impl Abort, items: &mut Vec<T>, item: T)
    ensures { items.new.items ≡ items.old.items ++ item ∷ [] }
{
    items.push(item).expect(rt, "memory");
}

/// Stops the test unless bytes are as is wanted.
pub fn assert_bytes(rt: &impl Abort, bytes: Vec<u8>, wanted: &[u8]) {
    assert_same(rt, "bytes", bytes.as_slice(), wanted);
}

/// The parts of a case before a mark and behind it.
pub fn halves<'a>(rt: &impl Abort, case: &'a str, mark: &str) -> (&'a str, &'a str) {
    case.split_once(mark).expect(rt, "a case")
}

// The name, the count and the mark of each page. Each is found by its name.
fn pages_shown(rt: &impl Abort, alloc: Global, pages: &Pages) -> String {
    let mut text = String::new(alloc);
    for index in 0..pages.len() {
        assert_that(rt, is_found(pages, index), "not found by its name");
        push_page(rt, &mut text, pages, index);
    }
    text
}

// Whether a page is found by its name.
fn is_found(pages: &Pages, index: u32) -> bool
    requires { index < length pages.now }
{
    pages.find(pages.name(index).as_bytes()) == Some(index)
}

fn push_page(rt: &impl Abort, text: &mut String, pages: &Pages, index: u32)
    requires { index < length pages.now }
{
    let name = pages.name(index);
    let count = pages.count(index);
    let split = pages.split(index);
    write!(text, "[{name} {count} {split}]").expect(rt, "memory");
}

// The text of a page, a, that is not marked.
fn page_a() -> &'static [u8] {
    b"name,count,split\na,10,no\n"
}

/// The pages of a file.
pub fn pages_of(rt: &impl Abort, alloc: Global, file: &[u8]) -> Pages {
    read_pages(alloc, file).expect(rt, "pages")
}

/// A page, a, that is not marked.
pub fn one_page(rt: &impl Abort, alloc: Global) -> Pages {
    pages_of(rt, alloc, page_a())
}

fn answer_of_pages<R: Read + Drop>(rt: &impl Abort, alloc: Global, file: R) -> String {
    match read_pages(alloc, file) {
        Ok(pages) => {
            let text = pages_shown(rt, alloc, &pages);
            drop(pages);
            text
        }
        Err(fault) => shown(rt, alloc, Err::<(), PagesFault>(fault)),
    }
}

/// Requests are read beside one page.
pub fn requests<R: Read + Drop>(
    rt: &impl Abort,
    alloc: Global,
    file: R,
) -> Result<Vec<Request>, RequestsFault> {
    let pages = one_page(rt, alloc);
    let requests = read_requests(alloc, file, &pages);
    drop(pages);
    requests
}

// What a file of a kind is read as, or its fault.
fn answer<R: Read + Drop>(rt: &impl Abort, alloc: Global, kind: Kind, file: R) -> String {
    match kind {
        Kind::Pages => answer_of_pages(rt, alloc, file),
        Kind::Requests => shown(rt, alloc, requests(rt, alloc, file)),
        Kind::Script => shown(rt, alloc, read_script(alloc, file)),
    }
}

// Stops the test unless a file of a kind is read as is wanted.
fn assert_answered(rt: &impl Abort, alloc: Global, kind: Kind, file: &[u8], wanted: &str) {
    assert_text(rt, answer(rt, alloc, kind, file), wanted);
}

// Stops the test unless each file of a kind is read as is wanted.
fn assert_read(rt: &impl Abort, alloc: Global, kind: Kind, cases: &str) {
    for case in cases.lines() {
        let (file, wanted) = halves(rt, case, "|");
        assert_answered(rt, alloc, kind, &bytes(rt, alloc, file), wanted);
    }
}

#[test]
fn reads_files(rt: HostRuntime) {
    assert_read(&rt, rt.alloc(), Kind::Pages, pages_files());
    assert_read(&rt, rt.alloc(), Kind::Requests, request_files());
    assert_read(&rt, rt.alloc(), Kind::Script, scripts());
}

fn two_pages() -> &'static [u8] {
    b"name,count,split\na,10,yes\nb,7,no\n"
}

#[test]
fn finds_pages_by_their_names(rt: HostRuntime) {
    let pages = pages_of(&rt, rt.alloc(), two_pages());
    assert_that(&rt, has_only_second(&pages), "not the second page alone");
    drop(pages);
}

// Whether the second page is found by its name, and no page by another one.
fn has_only_second(pages: &Pages) -> bool {
    pages.find(b"b") == Some(1) && pages.find(b"B").is_none() && pages.find(b"\xff").is_none()
}

// What is read from the first bytes of a file, or where this many reads of a byte succeed.
fn answer_within(
    rt: &impl Abort,
    alloc: Global,
    kind: Kind,
    file: &[u8],
    number: usize,
    by_reads: bool,
) -> String {
    if by_reads {
        return answer(rt, alloc, kind, Trickle::new(file, number));
    }
    answer(rt, alloc, kind, file.get(..number).unwrap_or(file))
}

// What is read of the first 0, 1, 2 .. bytes of a file, or after 0, 1, 2 .. reads of a byte. Each answer that differs
// from the one before has its number before it.
fn answers(rt: &impl Abort, alloc: Global, kind: Kind, file: &[u8], by_reads: bool) -> String {
    let mut text = String::new(alloc);
    let mut last = String::new(alloc);
    for number in 0..file.len().saturating_add(2) {
        let answer = answer_within(rt, alloc, kind, file, number, by_reads);
        if answer != last {
            write!(text, "{number}: {answer} ").expect(rt, "memory");
            last = answer;
        }
    }
    text.pop();
    text
}

fn assert_answers(rt: &impl Abort, alloc: Global, cases: &[Case], by_reads: bool) {
    for (kind, file, wanted) in cases {
        assert_text(rt, answers(rt, alloc, *kind, *file, by_reads), *wanted);
    }
}

#[test]
fn reads_prefixes(rt: HostRuntime) {
    assert_answers(&rt, rt.alloc(), prefixes(), false);
}

#[test]
fn a_read_that_fails(rt: HostRuntime) {
    assert_answers(&rt, rt.alloc(), reads(), true);
}

// Stops the test unless a file is read the same at once and byte by byte.
fn assert_both_ways(rt: &impl Abort, alloc: Global, kind: Kind, file: &[u8]) {
    let bytewise = answer(rt, alloc, kind, Trickle::new(file, 1_000));
    assert_text(rt, bytewise, &answer(rt, alloc, kind, file));
}

// Stops the test unless a file, with one byte replaced by each one in turn, is read the same at once and byte by byte.
fn assert_replaced(rt: &impl Abort, alloc: Global, kind: Kind, file: &[u8], place: usize) {
    let mut replaced = list(rt, alloc, file);
    for byte in 0..=255 {
        *replaced.get_mut(place).expect(rt, "a place") = byte;
        assert_both_ways(rt, alloc, kind, &replaced);
    }
}

// However a file is handed out, it is read the same: here with each byte replaced by each other one in turn.
#[test]
fn a_byte_that_is_changed(rt: HostRuntime) {
    for (kind, good, wanted) in changed() {
        assert_answered(&rt, rt.alloc(), *kind, *good, *wanted);
        for place in 0..good.len() {
            assert_replaced(&rt, rt.alloc(), *kind, *good, place);
        }
    }
}

#[test]
fn a_file_of_another_kind(rt: HostRuntime) {
    for case in csv_cases().lines() {
        assert_headless(&rt, rt.alloc(), case);
    }
}

// Stops the test unless the file of a case is refused by its header, whatever kind it is read as.
fn assert_headless(rt: &impl Abort, alloc: Global, case: &str) {
    let (text, _) = halves(rt, case, "=>");
    let file = bytes(rt, alloc, text);
    assert_answered(rt, alloc, Kind::Pages, &file, "Err(Header)");
    assert_answered(rt, alloc, Kind::Requests, &file, "Err(Header)");
    assert_answered(rt, alloc, Kind::Script, &file, "Err(Line { row: 0 })");
}
