//! Readers and writers that fail, by `replay_files`.
use super::replays::{assert_done, assert_fault, fault_of, list_of};
use like_files::DriverFault;
use like_requests::{PagesFault, RequestsFault};
use std::alloc::Global;
use std::process::Abort;
use test_devices::{Narrow, Trickle};

const PAGES: &str = "name,count,split\na,10,no\n";

const REQUESTS: &str = "op,user,page\nlike,0,a\nlike,1,a\nlike,0,a\n";

// The settings of the plain example, and with its places.
const SETTINGS: &str = "1 2 256 1000";

const PLACED: &str = "1 2 256 1000 - places";

// The plain example's files. A function that takes them from here has none of their text in its proof.
fn plain_files() -> (&'static str, &'static str) {
    (PAGES, REQUESTS)
}

// A reader of a text whose first `reads` reads succeed. One read after them fails, or all do.
fn reader(text: &'static str, reads: usize, recovers: bool) -> Trickle<'static> {
    if recovers {
        return Trickle::failing_once(text.as_bytes(), reads);
    }
    Trickle::new(text.as_bytes(), reads)
}

// The fault of the plain example, where this many reads of each file succeed.
fn read_fault(
    rt: &impl Abort,
    alloc: Global,
    of_pages: usize,
    of_requests: usize,
    recovers: bool,
) -> Option<DriverFault> {
    let (pages, requests) = plain_files();
    let files = list_of(rt, alloc, reader(requests, of_requests, recovers));
    let pages = reader(pages, of_pages, recovers);
    fault_of(
        rt,
        alloc,
        SETTINGS,
        pages,
        files,
        None,
        &mut Vec::new(alloc),
    )
}

const ALL: usize = usize::MAX;

// Asserts that the pages file or the request file of this many bytes is at fault at each of its reads.
fn assert_reads_fail(
    rt: &impl Abort,
    alloc: Global,
    is_pages: bool,
    length: usize,
    recovers: bool,
) {
    let want = read_fault_of(is_pages);
    for reads in 0..=length {
        let (of_pages, of_requests) = if is_pages { (reads, ALL) } else { (ALL, reads) };
        let fault = read_fault(rt, alloc, of_pages, of_requests, recovers);
        assert_fault(rt, fault, want, reads);
    }
}

fn read_fault_of(is_pages: bool) -> DriverFault {
    if is_pages {
        return DriverFault::Pages(PagesFault::Read);
    }
    DriverFault::Requests {
        submitter: 0,
        fault: RequestsFault::Read,
    }
}

#[test]
fn failing_reads(rt: HostRuntime) {
    let (pages, requests) = plain_files();
    for recovers in [false, true] {
        assert_reads_fail(&rt, rt.alloc(), true, pages.len(), recovers);
        assert_reads_fail(&rt, rt.alloc(), false, requests.len(), recovers);
        let fault = read_fault(&rt, rt.alloc(), ALL, ALL, recovers);
        assert_done(&rt, "with all reads", fault);
    }
}

// The fault of the plain example with these settings, onto a writer.
fn write_fault(
    rt: &impl Abort,
    alloc: Global,
    settings: &str,
    mut out: Narrow,
) -> Option<DriverFault> {
    let (pages, requests) = plain_files();
    let files = list_of(rt, alloc, requests.as_bytes());
    fault_of(rt, alloc, settings, pages.as_bytes(), files, None, &mut out)
}

// Asserts that a writer is at fault that takes this many writes or flushes.
fn assert_fails(rt: &impl Abort, alloc: Global, settings: &str, out: Narrow, takes: usize) {
    let fault = write_fault(rt, alloc, settings, out);
    assert_fault(rt, fault, DriverFault::Write, takes);
}

// Asserts that a writer of one byte a write is at fault at each of its writes.
fn assert_writes_fail(rt: &impl Abort, alloc: Global, settings: &str, length: usize) {
    for writes in 0..length {
        assert_fails(rt, alloc, settings, Narrow::new(1, writes, true), writes);
        let once = Narrow::failing_once(1, writes, ALL);
        assert_fails(rt, alloc, settings, once, writes);
    }
    let fault = write_fault(rt, alloc, settings, Narrow::new(1, length, true));
    assert_done(rt, settings, fault);
}

// Asserts that a writer is at fault at each of this many flushes.
fn assert_flushes_fail(rt: &impl Abort, alloc: Global, settings: &str, flushes: usize) {
    for flush in 0..flushes {
        let once = Narrow::failing_once(1, ALL, flush);
        assert_fails(rt, alloc, settings, once, flush);
    }
}

// The report has 139 bytes, and its place rows 57 more. It is flushed behind the former and behind the latter.
#[test]
fn failing_writes(rt: HostRuntime) {
    for (settings, length, flushes) in [(SETTINGS, 139, 1), (PLACED, 196, 2)] {
        assert_writes_fail(&rt, rt.alloc(), settings, length);
        assert_flushes_fail(&rt, rt.alloc(), settings, flushes);
    }
    assert_eq!(rt; DriverFault::Write.status(), 3);
}

// A writer that takes no byte is at fault at its first write.
#[test]
fn no_byte_written_is_a_fault(rt: HostRuntime) {
    let (pages, requests) = plain_files();
    let mut out = Narrow::new(0, 9, true);
    let files = list_of(&rt, rt.alloc(), requests.as_bytes());
    let fault = fault_of(
        &rt,
        rt.alloc(),
        SETTINGS,
        pages.as_bytes(),
        files,
        None,
        &mut out,
    );
    assert_fault(&rt, fault, DriverFault::Write, 0);
    assert_eq!(rt; out.writes_left(), 8);
}

// A write that is interrupted is made again.
#[test]
fn writes_again_once_interrupted(rt: HostRuntime) {
    for writes in 0..139 {
        let out = Narrow::interrupted_once(1, writes);
        let fault = write_fault(&rt, rt.alloc(), SETTINGS, out);
        assert_done(&rt, "interrupted once", fault);
    }
}
