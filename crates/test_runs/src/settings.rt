//! That a run keeps to the turns and the stash of its settings. No schedule is sure to show it, so each test makes runs
//! until one has shown it, and 50 at most.
use super::asserts::{assert_same, assert_step};
use super::cases::{Case, likes, one_page, requests};
use super::gates::{Held, Watch};
use like_replies::Report;
use like_requests::Op;
use like_roles::Ran;
use std::alloc::Global;
use std::process::Abort;
use std::sync::Wait;
use std::thread::Threads;

// The most runs that a test makes.
const RUNS: u32 = 50;

// A run with one worker, whose gate holds calls for this many looks.
#[derive(Clone, Copy)]
struct Waiting {
    held: Held,
    looks: u32,
    turns: u32,
    submitters: u32,
    each: usize,
    // Whether a call waits in vain, all of the run being in one phase then.
    in_vain: bool,
}

// 16 submitters look until phase 400, and let others run after each look; the coordinator rests after 32 turns in a
// row. So on any machine one of them at least looks as often as it makes turns, or nearly: in phases of 1,000 turns each
// of them has given up long before, loaded or not, and in phases of no turns none has, but for a rare run.
const NO_TURNS: Waiting = Waiting {
    held: Held::FirstRequests(400),
    looks: 50_000,
    turns: 0,
    submitters: 16,
    each: 1,
    in_vain: false,
};

const MANY_TURNS: Waiting = Waiting {
    held: Held::SecondRequest,
    looks: 20_000,
    turns: 1_000_000,
    submitters: 1,
    each: 2,
    in_vain: true,
};

// Makes a run of likes, and says whether its calls waited as they should.
fn waits_so(rt: &(impl Abort + Threads + Wait + Sync), alloc: Global, run: &Waiting) -> bool {
    let gate = Watch::new(run.held, run.looks);
    let plans = likes(rt, alloc, run.submitters, run.each);
    let report = one_page(1, 2, run.turns).report(rt, alloc, plans, &gate);
    assert_same(rt, "phases", phases_of(report), gate.phases());
    let waits = gate.gave_up() == run.in_vain && (!run.in_vain || gate.phases() == 1);
    drop(gate);
    waits
}

// How many phases a run went through. Its report is dropped here.
fn phases_of(report: Report) -> u32 {
    report.phases.saturating_add(1)
}

#[test]
fn comes_soon_to_phases_of_no_turns(rt: HostRuntime) {
    for _ in 0..10 {
        if waits_so(&rt, rt.alloc(), &NO_TURNS) {
            return;
        }
    }
    panic!(rt; "phase 400 was late in each run");
}

#[test]
fn stays_in_a_phase_of_many_turns(rt: HostRuntime) {
    for _ in 0..RUNS {
        if waits_so(&rt, rt.alloc(), &MANY_TURNS) {
            return;
        }
    }
    panic!(rt; "phase 2 came early in each run");
}

// The most entries of a log that ran in one phase from the stash.
fn most_stashed_of(ran: &[Ran]) -> u32 {
    let (mut most, mut phase, mut many) = (0, 0, 0_u32);
    for entry in ran {
        if entry.stashed {
            if entry.phase != phase {
                many = 0;
            }
            many = many.saturating_add(1);
            phase = entry.phase;
            most = most.max(many);
        }
    }
    most
}

// The most entries that a worker ran in one phase from its stash.
fn most_stashed(report: Report) -> u32 {
    let mut most = 0;
    for log in report.logs.iter() {
        most = most.max(most_stashed_of(&log.ran));
    }
    most
}

// Makes a run of 200 looks of the page that begins with phase 1, with a stash for this many, and says how full it was.
fn fill_stash(rt: &(impl Abort + Threads + Wait + Sync), alloc: Global, stash: u32) -> u32 {
    let case = Case {
        stash,
        ..one_page(1, 2, 1_000)
    };
    let gate = Watch::new(Held::FirstRequests(1), 1 << 24);
    let plans = requests(rt, alloc, Op::Look, 1, 200);
    let report = case.report(rt, alloc, plans, &gate);
    assert_same(rt, "phase 1 was late", gate.gave_up(), false);
    drop(gate);
    most_stashed(report)
}

#[test]
fn fills_its_stash_and_no_other(rt: HostRuntime) {
    for stash in [1, 7] {
        let mut most = 0;
        for _ in 0..RUNS {
            most = most.max(fill_stash(&rt, rt.alloc(), stash));
        }
        assert_step(&rt, "a full stash", stash as usize, most, stash);
    }
}
