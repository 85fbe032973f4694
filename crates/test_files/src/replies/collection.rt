//! What logs are collected to.
use crate::files::{assert_same, assert_text, push, shown};
use crate::replies::log_of;
use like_replies::{collect, collect_in_parallel};
use like_roles::{Ran, Reply, WorkerLog};
use std::alloc::Global;
use std::process::Abort;
use std::thread::Threads;

// An entry of a log, of the request of a submitter with a number.
#[derive(Clone, Copy)]
enum Entry {
    // A like that ran in phase 1.
    Like(u32, u32),
    // A look that waited for phase 2, where it saw 7.
    Look(u32, u32),
}

use Entry::{Like, Look};

const SEEN: Reply = Reply::Seen {
    last: None,
    count: 7,
};

// What a worker notes of an entry.
fn ran(entry: Entry) -> Ran {
    match entry {
        Like(submitter, number) => Ran {
            phase: 1,
            submitter,
            number,
            stashed: false,
            reply: Reply::Liked,
        },
        Look(submitter, number) => Ran {
            phase: 2,
            submitter,
            number,
            stashed: true,
            reply: SEEN,
        },
    }
}

// The log of a worker with these entries.
fn log(rt: &impl Abort, alloc: Global, entries: &[Entry]) -> WorkerLog {
    let mut noted = Vec::new(alloc);
    for entry in entries {
        push(rt, &mut noted, ran(*entry));
    }
    log_of(rt, alloc, &noted, &[])
}

// The logs of workers with these entries.
fn logs(rt: &impl Abort, alloc: Global, workers: &[&[Entry]]) -> Vec<WorkerLog> {
    let mut logs = Vec::new(alloc);
    for entries in workers {
        push(rt, &mut logs, log(rt, alloc, *entries));
    }
    logs
}

// How many requests each submitter has; the entries of each worker; what they are collected to.
const LOGS: &[(&[u32], &[&[Entry]], &str)] = &[
    (
        &[1],
        &[&[Like(0, 1)], &[]],
        "Ok(Replies { rows: [[Answer { phase: 1, stashed: false, reply: Liked }]] })",
    ),
    (
        &[1, 0, 2],
        &[&[Like(2, 2), Look(2, 1)], &[Like(0, 1)]],
        "Ok(Replies { rows: [[Answer { phase: 1, stashed: false, reply: Liked }], [], \
[Answer { phase: 2, stashed: true, reply: Seen { last: None, count: 7 } }, \
Answer { phase: 1, stashed: false, reply: Liked }]] })",
    ),
    (&[], &[&[], &[]], "Ok(Replies { rows: [] })"),
    (
        &[1],
        &[&[Like(0, 2)], &[]],
        "Err(Stranger { submitter: 0, number: 2 })",
    ),
    (
        &[1],
        &[&[Like(0, 0)], &[]],
        "Err(Stranger { submitter: 0, number: 0 })",
    ),
    (
        &[1],
        &[&[Like(1, 1)], &[]],
        "Err(Stranger { submitter: 1, number: 1 })",
    ),
    (
        &[1],
        &[&[], &[]],
        "Err(Missing { submitter: 0, number: 1 })",
    ),
    (
        &[1, 2],
        &[&[Like(0, 1)], &[Like(1, 1)]],
        "Err(Missing { submitter: 1, number: 2 })",
    ),
    (
        &[2, 2],
        &[&[Like(1, 1)], &[]],
        "Err(Missing { submitter: 0, number: 1 })",
    ),
    (
        &[1],
        &[&[Like(0, 1)], &[Like(0, 1)]],
        "Err(Double { submitter: 0, number: 1 })",
    ),
    (
        &[2],
        &[&[Like(0, 1), Like(0, 1)], &[Like(5, 5)]],
        "Err(Double { submitter: 0, number: 1 })",
    ),
    (
        &[2],
        &[&[Like(5, 5)], &[Like(0, 1), Like(0, 1)]],
        "Err(Stranger { submitter: 5, number: 5 })",
    ),
];

// A test that takes them from here has none of them in its proof, as it would with a constant.
fn all_logs() -> &'static [(&'static [u32], &'static [&'static [Entry]], &'static str)] {
    LOGS
}

#[test]
fn entries_and_faults(rt: HostRuntime) {
    for (sizes, workers, wanted) in all_logs() {
        assert_collected(&rt, rt.alloc(), *sizes, *workers, *wanted);
    }
}

// Stops the test unless logs are collected to this, one after the other and in parallel, on few threads and on many.
fn assert_collected<R: Abort + Threads + Sync>(
    rt: &R,
    alloc: Global,
    sizes: &[u32],
    workers: &[&[Entry]],
    wanted: &str,
) {
    assert!(rt; sizes.len() <= 64);
    let logs = logs(rt, alloc, workers);
    assert_text(rt, shown(rt, alloc, collect(alloc, sizes, &logs)), wanted);
    for starts in [0, 1, 64] {
        let replies = collect_in_parallel(rt, alloc, sizes, &logs, starts);
        assert_text(rt, shown(rt, alloc, replies), wanted);
    }
    drop(logs);
}

// A like of each of this many submitters.
fn one_each(rt: &impl Abort, alloc: Global, submitters: u32) -> Vec<Entry> {
    let mut entries = Vec::new(alloc);
    for submitter in 0..submitters {
        push(rt, &mut entries, Like(submitter, 1));
    }
    entries
}

// How many submitters have replies, where each of 64 has one.
fn answered(rt: &impl Abort, alloc: Global, entries: &[Entry]) -> usize {
    let logs = logs(rt, alloc, &[entries]);
    let replies = collect(alloc, &[1; 64], &logs).expect(rt, "replies");
    drop(logs);
    let answered = replies.rows.len();
    drop(replies);
    answered
}

#[test]
fn as_many_submitters_as_there_may_be(rt: HostRuntime) {
    let entries = one_each(&rt, rt.alloc(), 64);
    let answered = answered(&rt, rt.alloc(), &entries);
    assert_same(&rt, "submitters with replies", answered, 64);
}
