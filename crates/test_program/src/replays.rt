//! Replays by `replay_files`, from the texts of the files to the text of the report or to the fault.
ghost use Rattle.std.specs.Prelude.{◌≡◌, ◌++◌, ◌∷◌, [], is_some, length};

mod cases;

use crate::replays::cases::{examples, refusals};
use like_command::Options;
use like_files::{DriverFault, replay_files};
use std::alloc::Global;
use std::io::{Read, Write};
use std::process::Abort;

/// Stops the test and tells what is wrong, unless this holds.
pub fn assert_that(rt: &impl Abort, holds: bool, wrong: &str) {
    if !holds {
        rt.panic(wrong);
    }
}

/// Stops the test unless bytes are this text, and tells both.
pub fn assert_text(rt: &impl Abort, came: &[u8], want: &str) {
    let came = str::from_utf8(came).unwrap_or("no text");
    assert!(rt; came == want, "{came}, not {want}");
}

/// Stops the test and tells the fault, if there is one.
pub fn assert_done(rt: &impl Abort, name: &str, fault: Option<DriverFault>) {
    assert!(rt; fault.is_none(), "{name}: {fault:?}");
}

/// Stops the test unless this is the fault after this many reads, writes or flushes.
pub fn assert_fault(rt: &impl Abort, fault: Option<DriverFault>, want: DriverFault, calls: usize) {
    let want = Some(want);
    assert!(rt;
        fault == want,
        "after {calls} reads, writes or flushes: {fault:?}, not {want:?}"
    );
}

/// The cell of a text at an index, with `|` between cells.
pub fn cell(text: &str, index: usize) -> &str {
    text.split('|').nth(index).unwrap_or("")
}

/// A replay: its name, its settings, the texts of its files, and what it ends in.
#[derive(Clone, Copy)]
pub struct Case<'a> {
    name: &'a str,
    settings: &'a str,
    pages: &'a str,
    requests: &'a str,
    script: &'a str,
    end: &'a str,
}

// The case that a text describes.
fn case_of(text: &str) -> Case<'_> {
    Case {
        name: cell(text, 0),
        settings: cell(text, 1),
        pages: cell(text, 2),
        requests: cell(text, 3),
        script: cell(text, 4),
        end: cell(text, 5),
    }
}

// The number at an index of the settings, or 0.
fn number(settings: &str, index: usize) -> u32 {
    number_at(settings, ' ', index).unwrap_or(0)
}

/// The number at an index of a text with this mark between its parts, if one is there.
pub fn number_at(text: &str, mark: char, index: usize) -> Option<u32> {
    text.split(mark).nth(index)?.parse().ok()
}

/// The options with these settings, which name this many request files, and a script where there is one.
pub fn options_of(
    rt: &impl Abort,
    alloc: Global,
    settings: &str,
    files: usize,
    is_scripted: bool,
) -> Options
    ensures requests { length result.requests.items ≡ files }
    ensures script { is_some result.script ≡ is_scripted }
{
    Options {
        workers: number(settings, 0),
        users: number(settings, 1),
        stash: number(settings, 2),
        turns: number(settings, 3),
        hot: number_at(settings, ' ', 4),
        places: settings.contains("places"),
        totals: settings.contains("totals"),
        summary: false,
        progress: false,
        pages: owned(rt, alloc, "p.csv"),
        requests: names(rt, alloc, files),
        script: script_name(rt, alloc, is_scripted),
    }
}

/// A list of one item.
pub fn list_of<T: Drop>(rt: &impl Abort, alloc: Global, item: T) -> Vec<T>
    ensures { result.items ≡ item ∷ [] }
{
    let mut items = Vec::new(alloc);
    push(rt, &mut items, item);
    items
}

/// Puts an item at the end of others.
pub fn push<T: Drop>(rt: &impl Abort, items: &mut Vec<T>, item: T)
    ensures { items.new.items ≡ items.old.items ++ item ∷ [] }
{
    items.push(item).expect(rt, "memory");
}

/// A copy of a text.
pub fn owned(rt: &impl Abort, alloc: Global, text: &str) -> String {
    String::from_str(alloc, text).expect(rt, "memory")
}

// The names of this many request files.
fn names(rt: &impl Abort, alloc: Global, files: usize) -> Vec<String>
    ensures { length result.items ≡ files }
{
    let mut names = Vec::new(alloc);
    for file in 0..files {
        let name = format!(in alloc; "r{file}.csv").expect(rt, "memory");
        push(rt, &mut names, name);
    }
    assert!(rt; names.len() == files);
    names
}

// The name of the script, where there is one.
fn script_name(rt: &impl Abort, alloc: Global, is_there: bool) -> Option<String>
    ensures { is_some result ≡ is_there }
{
    if is_there {
        return Some(owned(rt, alloc, "s.csv"));
    }
    None
}

/// The fault of a replay with these settings, by these readers and onto a writer.
pub fn fault_of<R: Read + Drop, W: Write>(
    rt: &impl Abort,
    alloc: Global,
    settings: &str,
    pages: R,
    requests: Vec<R>,
    script: Option<R>,
    out: &mut W,
) -> Option<DriverFault> {
    let options = options_of(rt, alloc, settings, requests.len(), script.is_some());
    let replayed = replay_files(alloc, &options, pages, requests, script, out);
    drop(options);
    replayed.err()
}

// The files of a replay, by their kind.
#[derive(Clone, Copy, Debug)]
enum File {
    Pages,
    Requests,
    Script,
}

// How many bytes the files of a replay have at most.
#[derive(Clone, Copy)]
struct Cuts {
    pages: usize,
    requests: usize,
    script: usize,
}

const WHOLE: Cuts = Cuts {
    pages: usize::MAX,
    requests: usize::MAX,
    script: usize::MAX,
};

// The files of one kind have this many bytes at most.
fn cuts_of(file: File, most: usize) -> Cuts {
    let mut cuts = WHOLE;
    match file {
        File::Pages => cuts.pages = most,
        File::Requests => cuts.requests = most,
        File::Script => cuts.script = most,
    }
    cuts
}

// The first bytes of a text, up to this many.
fn cut(text: &str, most: usize) -> &[u8] {
    let bytes = text.as_bytes();
    bytes.get(..most).unwrap_or(bytes)
}

/// The first bytes of request files, up to this many of each.
pub fn requests_of<'a>(
    rt: &impl Abort,
    alloc: Global,
    texts: &'a str,
    most: usize,
) -> Vec<&'a [u8]> {
    let mut files = Vec::new(alloc);
    for text in texts.split_terminator('&') {
        push(rt, &mut files, cut(text, most));
    }
    files
}

// The first bytes of the script, up to this many, where there is one.
fn script_of(script: &str, most: usize) -> Option<&[u8]> {
    if script == "-" {
        return None;
    }
    Some(cut(script, most))
}

// What a replay writes, and its fault.
fn replayed(
    rt: &impl Abort,
    alloc: Global,
    case: &Case<'_>,
    cuts: Cuts,
    out: &mut Vec<u8>,
) -> Option<DriverFault> {
    let pages = cut(case.pages, cuts.pages);
    let requests = requests_of(rt, alloc, case.requests, cuts.requests);
    let script = script_of(case.script, cuts.script);
    fault_of(rt, alloc, case.settings, pages, requests, script, out)
}

// Asserts that a file of this kind and of this many bytes is replayed, or is at fault itself.
fn assert_harmless(rt: &impl Abort, alloc: Global, case: &Case<'_>, file: File, most: usize) {
    let fault = replayed(rt, alloc, case, cuts_of(file, most), &mut Vec::new(alloc));
    let is_harmless = is_harmless(&fault, file);
    assert!(rt;
        is_harmless,
        "{}: {file:?} of {most} bytes: {fault:?}",
        case.name
    );
}

// Whether there is no fault, or one of a file of this kind.
fn is_harmless(fault: &Option<DriverFault>, file: File) -> bool {
    match fault {
        None => true,
        Some(fault) => is_of(fault, file),
    }
}

// Whether a fault is one of a file of this kind.
fn is_of(fault: &DriverFault, file: File) -> bool {
    match fault {
        DriverFault::Pages(_) => matches!(file, File::Pages),
        DriverFault::Requests { .. } => matches!(file, File::Requests),
        DriverFault::Script(_) => matches!(file, File::Script),
        _ => false,
    }
}

// Asserts that a file of this kind and length, whatever end is missing, is replayed, or is at fault itself.
fn assert_prefixes(rt: &impl Abort, alloc: Global, case: &Case<'_>, file: File, length: usize) {
    for most in 0..length {
        assert_harmless(rt, alloc, case, file, most);
    }
}

// The rows of a report, below its header row.
fn rows_of(report: &[u8]) -> &[u8] {
    report
        .strip_prefix(b"row,id,number,phase,answer,page,count\n".as_slice())
        .unwrap_or(b"no header".as_slice())
}

// Asserts that a case ends in its report.
fn assert_report(rt: &impl Abort, alloc: Global, case: &Case<'_>) {
    let mut out = Vec::new(alloc);
    let fault = replayed(rt, alloc, case, WHOLE, &mut out);
    assert_done(rt, case.name, fault);
    assert_text(rt, rows_of(&out), case.end);
}

// Asserts that a case ends in its report, and that files that are cut short do no harm.
fn assert_example(rt: &impl Abort, alloc: Global, case: &Case<'_>) {
    assert_report(rt, alloc, case);
    assert_prefixes(rt, alloc, case, File::Pages, case.pages.len());
    assert_prefixes(rt, alloc, case, File::Requests, case.requests.len());
    assert_prefixes(rt, alloc, case, File::Script, case.script.len());
}

#[test]
fn worked_examples(rt: HostRuntime) {
    for text in examples().split(';') {
        assert_example(&rt, rt.alloc(), &case_of(text));
    }
}

// What a replay ends in: a fault with its status, where nothing is written, or a report, where something is.
fn end_of(
    rt: &impl Abort,
    alloc: Global,
    fault: Option<DriverFault>,
    is_untouched: bool,
) -> String {
    assert_that(
        rt,
        is_untouched == fault.is_some(),
        "a report beside a fault, or neither",
    );
    let end = match fault {
        None => String::from_str(alloc, "a report"),
        Some(fault) => format!(in alloc; "{fault:?} {}", fault.status()),
    };
    end.expect(rt, "memory")
}

// Asserts what the case of a text ends in.
fn assert_end(rt: &impl Abort, alloc: Global, text: &str) {
    let end = end_of_case(rt, alloc, &case_of(text));
    assert_ends(rt, text, &end);
    drop(end);
}

// What a case ends in.
fn end_of_case(rt: &impl Abort, alloc: Global, case: &Case<'_>) -> String {
    let mut out = Vec::new(alloc);
    let fault = replayed(rt, alloc, case, WHOLE, &mut out);
    end_of(rt, alloc, fault, out.is_empty())
}

// Asserts that the case of a text has this end.
fn assert_ends(rt: &impl Abort, text: &str, end: &str) {
    let want = cell(text, 5);
    assert!(rt; end == want, "{text}: {end}, not {want}");
}

#[test]
fn refused_replays(rt: HostRuntime) {
    for text in refusals().split(';') {
        assert_end(&rt, rt.alloc(), text);
    }
}

// A case with these settings and this many request files.
fn with_files(rt: &impl Abort, alloc: Global, settings: &str, files: usize, end: &str) -> String {
    let requests = "op,user,page\nlike,0,a\nlike,1,a\nlike,0,a\n&".repeat(alloc, files);
    let requests = requests.expect(rt, "memory");
    let pages = "name,count,split\na,10,no\n";
    format!(in alloc; "settings|{settings}|{pages}|{requests}|-|{end}").expect(rt, "memory")
}

#[test]
fn the_most_submitters(rt: HostRuntime) {
    let case = with_files(&rt, rt.alloc(), "16 1000 4096 1000", 64, "a report");
    assert_end(&rt, rt.alloc(), &case);
    let case = with_files(
        &rt,
        rt.alloc(),
        "1 2 256 1000",
        65,
        "Settings(Submitters) 2",
    );
    assert_end(&rt, rt.alloc(), &case);
}
