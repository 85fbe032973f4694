//! Runs on threads. What is asserted of them is the same on every schedule.
use super::asserts::{assert_counts, assert_same, assert_step};
use super::cases::{likes, one_page};
use super::gates::{Held, Ledger, Watch};
use super::places::{assert_placed_singly, places_of, ran_plain};
use like_replies::{Answer, Place, Report};
use like_requests::SettingsFault;
use like_roles::Reply;
use like_run::{RunFault, run_limited};
use std::alloc::Global;
use std::process::Abort;
use std::sync::Wait;
use std::thread::Threads;

// How many times a gate looks before it gives up.
const LOOKS: u32 = 1 << 24;

// Asserts that a submitter has `each` replies, all of them `Liked`.
fn assert_row_liked(rt: &impl Abort, row: &[Answer], each: usize) {
    assert_same(rt, "replies of a submitter", row.len(), each);
    for (step, answer) in row.iter().enumerate() {
        assert_step(rt, "replies", step, answer.reply, Reply::Liked);
    }
}

// Asserts that there are `submitters` rows of `each` replies, all of them `Liked`.
fn assert_rows_liked(rt: &impl Abort, rows: &[Vec<Answer>], submitters: usize, each: usize) {
    assert_same(rt, "submitters", rows.len(), submitters);
    for row in rows {
        assert_row_liked(rt, row, each);
    }
}

// Asserts that there are `users` users, and that each likes page 0.
fn assert_like_the_page(rt: &impl Abort, last: &[Option<u32>], users: usize) {
    assert_same(rt, "users", last.len(), users);
    for (user, page) in last.iter().enumerate() {
        assert_step(rt, "last likes", user, *page, Some(0));
    }
}

// Asserts that there are `submitters` rows of `each` replies, all of them `Liked`, and that `users` users like the
// page, whose count this is.
fn assert_liked(
    rt: &impl Abort,
    report: Report,
    submitters: usize,
    each: usize,
    users: usize,
    count: u64,
) {
    assert_rows_liked(rt, &report.replies.rows, submitters, each);
    assert_like_the_page(rt, &report.last, users);
    assert_counts(rt, "the count", report, &[count]);
}

// On threads the likes run in any phase.
#[test]
fn runs_plain_likes(rt: HostRuntime) {
    let report = ran_plain(&rt, rt.alloc(), true);
    assert_placed_singly(&rt, places_of(&rt, &report));
    assert_liked(&rt, report, 1, 3, 2, 13);
}

// A run of `each` likes of each submitter, where every submitter is a user, with a gate that holds calls.
#[derive(Clone, Copy)]
struct Run {
    workers: u32,
    turns: u32,
    submitters: u32,
    each: u32,
    held: Held,
}

// Many submitters, and the runs of `gates`: two workers wait for each other, a submitter for its worker, and two
// submitters for each other.
const RUNS: &[Run] = &[
    Run {
        workers: 16,
        turns: 0,
        submitters: 64,
        each: 1_000,
        held: Held::Nobody,
    },
    Run {
        workers: 16,
        turns: 1_000,
        submitters: 64,
        each: 1_000,
        held: Held::Nobody,
    },
    Run {
        workers: 2,
        turns: 1_000,
        submitters: 2,
        each: 1,
        held: Held::Workers,
    },
    Run {
        workers: 1,
        turns: 0,
        submitters: 1,
        each: 2,
        held: Held::SecondRequest,
    },
    Run {
        workers: 1,
        turns: 1_000,
        submitters: 2,
        each: 1,
        held: Held::Submitters,
    },
];

// A test that takes them from here has none of them in its proof, as it would with a constant.
fn all_runs() -> &'static [Run] {
    RUNS
}

// Makes a run. Asserts that all are liked, with a call of each gate for each, that the calls that were awaited were made,
// and that none waited in vain.
fn assert_likes(rt: &(impl Abort + Threads + Wait + Sync), alloc: Global, run: &Run) {
    let gate = Watch::new(run.held, LOOKS);
    let plans = likes(rt, alloc, run.submitters, run.each as usize);
    let case = one_page(run.workers, run.submitters, run.turns);
    let report = case.report(rt, alloc, plans, &gate);
    assert_all_liked(rt, report, run.submitters, run.each);
    assert_calls(rt, &gate, run.submitters.saturating_mul(run.each));
    drop(gate);
}

// Asserts that there are `submitters` rows of `each` replies, all of them `Liked`, and that each submitter is a user.
fn assert_all_liked(rt: &impl Abort, report: Report, submitters: u32, each: u32) {
    let count = u64::from(submitters.saturating_mul(each));
    let submitters = submitters as usize;
    assert_liked(rt, report, submitters, each as usize, submitters, count);
}

fn assert_calls(rt: &impl Abort, gate: &Watch, number: u32) {
    assert_same(rt, "calls", gate.calls(), (number, number));
    assert_same(rt, "awaited calls", gate.made(), gate.awaited());
    assert_same(rt, "a call waited in vain", gate.gave_up(), false);
}

#[test]
fn runs_likes(rt: HostRuntime) {
    for run in all_runs() {
        assert_likes(&rt, rt.alloc(), run);
    }
}

// With 1 to 16 workers.
#[test]
fn runs_each_number_of_submitters(rt: HostRuntime) {
    for submitters in 1..=64 {
        let run = Run {
            workers: 1 + submitters % 16,
            turns: 1_000,
            submitters,
            each: 1,
            held: Held::Nobody,
        };
        assert_likes(&rt, rt.alloc(), &run);
    }
}

// The worker and the count before of an addition at a place in the list of a page.
fn addition_at(places: &[Place], at: usize) -> Option<(u32, u64)> {
    match places.get(at) {
        Some(place) => Some((place.worker, place.old)),
        None => None,
    }
}

// Asserts that the first two additions to a page are one of worker 0, which finds no like, and one of worker 1.
fn assert_second_of_worker_1(rt: &impl Abort, places: &[Place]) {
    assert_same(rt, "an addition", addition_at(places, 0), Some((0, 0)));
    assert_same(rt, "the next one", addition_at(places, 1), Some((1, 1)));
}

// Each submitter has more likes than 16 bits can number, and those of submitter 2 are refused. All of it is in phase 0.
#[test]
fn tells_the_gate_of_each_call(rt: HostRuntime) {
    let report = told(&rt, rt.alloc());
    assert_second_of_worker_1(&rt, places_of(&rt, &report));
    assert_counts(&rt, "the count", report, &[140_000]);
}

// The report of a run whose gate was told of all calls.
fn told(rt: &(impl Abort + Threads + Wait + Sync), alloc: Global) -> Report {
    let gate = Ledger::new();
    let plans = likes(rt, alloc, 3, 70_000);
    let report = one_page(2, 2, 1_000_000).report(rt, alloc, plans, &gate);
    assert_told(rt, &gate);
    drop(gate);
    report
}

fn assert_told(rt: &impl Abort, gate: &Ledger) {
    assert_same(rt, "calls that are not the next one", gate.wrong(), 0);
    assert_same(rt, "calls", gate.calls(), ([70_000; 3], [70_000; 3]));
}

// What a run of two likes ends in with at most this many threads.
fn limited(
    rt: &(impl Abort + Threads + Wait + Sync),
    alloc: Global,
    gate: &Watch,
    starts: u32,
) -> Result<Report, RunFault> {
    let setup = one_page(2, 2, 1_000).setup(rt, alloc);
    let ran = run_limited(rt, alloc, &setup, likes(rt, alloc, 2, 1), gate, starts);
    drop(setup);
    ran
}

// The fault that a run ends in, if it does: here alone its report is dropped unread.
fn fault_of(ran: Result<Report, RunFault>) -> Option<RunFault> {
    ran.err()
}

// Asserts that a run makes no call with at most this many threads, which are too few.
fn assert_not_started(rt: &(impl Abort + Threads + Wait + Sync), alloc: Global, starts: u32) {
    let gate = Watch::idle();
    let fault = fault_of(limited(rt, alloc, &gate, starts));
    let (calls, phases) = (gate.calls(), gate.phases());
    drop(gate);
    assert_step(rt, "threads", starts as usize, fault, Some(RunFault::Start));
    assert_step(
        rt,
        "calls and phases",
        starts as usize,
        (calls, phases),
        ((0, 0), 0),
    );
}

// Asserts that a run makes its report with at most this many threads, which are enough.
fn assert_started(rt: &(impl Abort + Threads + Wait + Sync), alloc: Global, starts: u32) {
    let report = limited(rt, alloc, &Watch::idle(), starts).expect(rt, "a report");
    assert_liked(rt, report, 2, 1, 2, 2);
}

#[test]
fn starts_no_more_than_it_may(rt: HostRuntime) {
    for starts in 0..4 {
        assert_not_started(&rt, rt.alloc(), starts);
    }
    assert_started(&rt, rt.alloc(), 4);
}

#[test]
fn names_the_limit_that_a_run_breaks(rt: HostRuntime) {
    let plans = likes(&rt, rt.alloc(), 2, 1);
    let case = one_page(17, 2, 1_000);
    let gate = Watch::idle();
    let fault = fault_of(case.run(&rt, rt.alloc(), plans, &gate));
    drop(gate);
    let wanted = Some(RunFault::Settings(SettingsFault::Workers));
    assert_same(&rt, "a run of 17 workers", fault, wanted);
}
