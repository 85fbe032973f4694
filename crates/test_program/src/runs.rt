//! Runs on threads, by `run_files`.
use super::replays::{assert_done, assert_fault, assert_that, list_of, number_at, options_of};
use like_files::{DriverFault, run_files};
use std::alloc::{AllocError, Global};
use std::io::Write;
use std::process::Abort;
use std::sync::Wait;
use std::thread::Threads;
use test_devices::Narrow;

const PAGES: &str = "name,count,split\na,10,no\n";

fn pages() -> &'static str {
    PAGES
}

// A request file that has these rows this many times.
fn requests(rt: &impl Abort, alloc: Global, rows: &str, count: usize) -> String {
    let mut text = String::from_str(alloc, "op,user,page\n").expect(rt, "memory");
    for _ in 0..count {
        assert_that(rt, text.push_str(rows).is_ok(), "memory");
    }
    text
}

// The fault of a run with these settings, whose request file has these rows this many times, onto a writer.
fn run_onto<'a, W: Write>(
    rt: &(impl Threads + Wait + Abort + Sync),
    alloc: Global,
    settings: &str,
    pages: &'a str,
    requests: &'a str,
    out: &mut W,
) -> Option<DriverFault> {
    let files = list_of(rt, alloc, requests.as_bytes());
    let options = options_of(rt, alloc, settings, 1, false);
    let ran = run_files(rt, alloc, &options, pages.as_bytes(), files, out);
    drop(options);
    ran.err()
}

// Runs of this many likes of the page by user 0: their settings, how often each is made, and how its report ends.
const RUNS: &[(&str, usize, u32, &str)] = &[
    // A replay would be `Unfinished`: a worker runs one request a round.
    (
        "1 1 256 1000",
        1_000_000,
        1,
        "page,0,,,,a,1000010\nuser,0,,,,a,\n",
    ),
    // The likes are done long before the coordinator has counted a million turns, so no phase ends before them. Were it
    // fewer turns, one of ten runs would show it.
    (
        "1 1 256 1000000",
        2_000,
        10,
        "reply,0,2000,0,liked,,\npage,0,,,,a,2010\nuser,0,,,,a,\n",
    ),
    // All likes are done before the coordinator has counted a million turns, so in phase 0.
    (
        "1 1 256 1000000 - places",
        2,
        1,
        "page,0,,,,a,12\nuser,0,,,,a,\nplace,0,0,0,10,a,1\nplace,0,0,0,11,a,1\n",
    ),
];

fn runs() -> &'static [(&'static str, usize, u32, &'static str)] {
    RUNS
}

// Asserts how the report of a run of this many likes ends.
fn assert_ends(
    rt: &(impl Threads + Wait + Abort + Sync),
    alloc: Global,
    settings: &str,
    likes: usize,
    end: &str,
) {
    let requests = requests(rt, alloc, "like,0,a\n", likes);
    let mut out = Vec::new(alloc);
    let fault = run_onto(rt, alloc, settings, pages(), &requests, &mut out);
    assert_done(rt, settings, fault);
    let is_end = out.as_slice().ends_with(end.as_bytes());
    assert!(rt;
        is_end,
        "{settings}, {likes} likes: {out:?} doesn't end with {end}"
    );
}

#[test]
fn ends_of_reports(rt: HostRuntime) {
    for (settings, likes, times, end) in runs() {
        for _ in 0..*times {
            assert_ends(&rt, rt.alloc(), settings, *likes, end);
        }
    }
}

// The fault of a run of this many likes of the page by user 0 onto a writer, with places, and how many of its writes
// are left.
fn write_fault(
    rt: &(impl Threads + Wait + Abort + Sync),
    alloc: Global,
    likes: usize,
    mut out: Narrow,
) -> (Option<DriverFault>, usize) {
    let requests = requests(rt, alloc, "like,0,a\n", likes);
    let settings = "1 1 256 1000 - places";
    let fault = run_onto(rt, alloc, settings, pages(), &requests, &mut out);
    (fault, out.writes_left())
}

// Asserts that a writer is at fault that takes this many writes or flushes.
fn assert_fails(
    rt: &(impl Threads + Wait + Abort + Sync),
    alloc: Global,
    likes: usize,
    out: Narrow,
    takes: usize,
) {
    let (fault, _) = write_fault(rt, alloc, likes, out);
    assert_fault(rt, fault, DriverFault::Write, takes);
}

// Asserts that a writer of this many bytes a write is at fault at each of its writes.
fn assert_writes_fail(
    rt: &(impl Threads + Wait + Abort + Sync),
    alloc: Global,
    likes: usize,
    width: usize,
) {
    let (fault, left) = write_fault(rt, alloc, likes, Narrow::new(width, 1_000, true));
    assert_done(rt, "with all writes", fault);
    for writes in 0..1_000 - left.min(1_000) {
        assert_fails(rt, alloc, likes, Narrow::new(width, writes, true), writes);
        let once = Narrow::failing_once(width, writes, usize::MAX);
        assert_fails(rt, alloc, likes, once, writes);
    }
}

// The writes of a run without requests have a byte each, and those of a run of 1,000 likes as many as are made at once:
// more than 20,000 in one of them. It is flushed behind the report and behind its place rows.
#[test]
fn tells_a_write_that_fails(rt: HostRuntime) {
    assert_writes_fail(&rt, rt.alloc(), 0, 1);
    assert_writes_fail(&rt, rt.alloc(), 1_000, usize::MAX);
    for flush in 0..2 {
        assert_fails(
            &rt,
            rt.alloc(),
            0,
            Narrow::failing_once(1, 1_000, flush),
            flush,
        );
    }
}

// The phase of a row of a reply.
fn phase(row: &str) -> u32 {
    number_at(row, ',', 3).unwrap_or(0)
}

// The phase of each reply, by number.
fn phases(alloc: Global, report: &str) -> Result<Vec<u32>, AllocError> {
    let mut phases = Vec::new(alloc);
    for row in report.lines() {
        if row.starts_with("reply,") {
            phases.push(phase(row))?;
        }
    }
    Ok(phases)
}

// The most looks that were put off in one phase, each overtaken by the like behind it.
fn most_overtaken(phases: &[u32]) -> u32 {
    let (mut most, mut phase, mut looks) = (0_u32, 0, 0_u32);
    for pair in phases.chunks(2) {
        if let [look, like] = pair {
            if look > like {
                looks = if *like == phase {
                    looks.saturating_add(1)
                } else {
                    1
                };
                phase = *like;
                most = most.max(looks);
            }
        }
    }
    most
}

// A worker whose stash is full takes nothing, so with a stash of two a like overtakes one look in a phase at most,
// whatever the threads do. With a larger stash it would overtake as many as a split phase has time for, and with a smaller
// one none. Phases of 16 turns have time for many, and come often.
#[test]
fn keeps_to_the_stash(rt: HostRuntime) {
    let requests = requests(&rt, rt.alloc(), "look,0,a\nlike,0,b\n", 20_000);
    let pages = "name,count,split\na,0,yes\nb,0,no\n";
    let mut out = Vec::new(rt.alloc());
    let fault = run_onto(&rt, rt.alloc(), "1 1 2 16", pages, &requests, &mut out);
    assert_done(&rt, "a stash of two", fault);
    assert_overtaken_by_one(&rt, rt.alloc(), &out);
}

// Asserts that a report has 40,000 replies, and that likes overtake one look in a phase at most.
fn assert_overtaken_by_one(rt: &impl Abort, alloc: Global, report: &[u8]) {
    let report = str::from_utf8(report).expect(rt, "a text");
    let phases = phases(alloc, report).expect(rt, "memory");
    assert_eq!(rt; phases.len(), 40_000);
    assert_eq!(rt; most_overtaken(&phases), 1);
}
