//! Example mixed-load: likes and looks of a page that is split and of one that isn't, on threads. Run order, and the bounds
//! of each count, are computed here from what the workers took and from which likes they ran.
use super::asserts::{assert_counts, assert_same, assert_that};
use super::cases::{Case, SMALL};
use super::gates::Watch;
use super::lists::push;
use super::logs::{Entry, assert_ran};
use like_replies::Report;
use like_requests::{Op, PageRef, Request};
use like_roles::{Ran, Reply, Took, WorkerLog};
use std::alloc::Global;
use std::process::Abort;
use std::sync::Wait;
use std::thread::Threads;

const MIXED_LOAD: Case = Case {
    workers: 4,
    users: 8,
    turns: 3,
    pages: "a,0,yes\nb,0,no\n",
    ..SMALL
};

fn mixed_load() -> &'static Case {
    &MIXED_LOAD
}

// What a submitter's request of this number asks for: a like and a look of page 0, which is split, and then of page 1.
fn asked(number: u32) -> (Op, u32) {
    match number % 4 {
        1 => (Op::Like, 0),
        2 => (Op::Look, 0),
        3 => (Op::Look, 1),
        _ => (Op::Like, 1),
    }
}

fn plan(rt: &impl Abort, alloc: Global, user: u32) -> Vec<Request> {
    let mut plan = Vec::new(alloc);
    for number in 1..2_001 {
        let (op, page) = asked(number);
        let page = PageRef::Known(page);
        push(rt, &mut plan, Request { op, user, page });
    }
    plan
}

fn plans(rt: &impl Abort, alloc: Global) -> Vec<Vec<Request>> {
    let mut plans = Vec::new(alloc);
    for user in 0..8 {
        push(rt, &mut plans, plan(rt, alloc, user));
    }
    plans
}

// Run order: a look of the split page that was taken in an odd phase runs in the next one, before all others there; every
// other request runs in the phase in which it was taken.
fn entry(took: &Took) -> Entry {
    let waits = took.phase % 2 == 1 && asked(took.number) == (Op::Look, 0);
    let phase = took.phase.saturating_add(u32::from(waits));
    (phase, waits, took.submitter, took.number)
}

fn order(rt: &impl Abort, alloc: Global, taken: &[Took]) -> Vec<Entry> {
    let mut order = Vec::new(alloc);
    for took in taken {
        push(rt, &mut order, entry(took));
    }
    order
        .sort_by_key(|entry| (entry.0, !entry.1))
        .expect(rt, "memory");
    order
}

// How many likes ran, by phase and page: of page 0 in phase 0, of page 1 in phase 0, of page 0 in phase 1 and so on.
#[derive(Drop)]
struct Likes {
    rows: Vec<u64>,
}

// The row of the likes of a page in a phase.
fn row(phase: u32, page: u32) -> usize {
    phase as usize * 2 + page as usize
}

impl Likes {
    fn none(rt: &impl Abort, alloc: Global, phases: u32) -> Likes {
        Likes {
            rows: vec![in alloc; 0; row(phases, 0)].expect(rt, "memory"),
        }
    }

    fn add(&mut self, entry: &Ran) {
        if let (Op::Like, page) = asked(entry.number) {
            if let Some(likes) = self.rows.get_mut(row(entry.phase, page)) {
                *likes = likes.saturating_add(1);
            }
        }
    }

    fn add_all(&mut self, ran: &[Ran]) {
        for entry in ran {
            self.add(entry);
        }
    }

    fn within(&self, phase: u32, page: u32) -> u64 {
        self.rows.get(row(phase, page)).copied().unwrap_or(0)
    }

    // By phase and page, how many likes ran up to then. The sums of this page and of the other one take turns.
    fn up_to(&self, rt: &impl Abort, alloc: Global) -> Likes {
        let mut rows = Vec::new(alloc);
        let (mut sum, mut other) = (0_u64, 0_u64);
        for likes in self.rows.iter() {
            let up_to = sum.saturating_add(*likes);
            push(rt, &mut rows, up_to);
            sum = other;
            other = up_to;
        }
        Likes { rows }
    }
}

// The bounds of the counts that a worker's looks were shown.
#[derive(Clone, Copy)]
struct Bounds<'a> {
    // All likes, in each phase and up to it, and the worker's own ones.
    all: &'a Likes,
    up_to: &'a Likes,
    own: &'a Likes,
}

impl Bounds<'_> {
    // Whether the count that an entry was shown, if any, is within its bounds. The least is all likes of earlier phases
    // and the worker's own earlier ones in this phase. The most is all likes up to the end of this phase, less the
    // worker's own later ones in it.
    fn hold(&self, entry: &Ran, before: &Likes) -> bool {
        match entry.reply {
            Reply::Seen { count, .. } => {
                let page = asked(entry.number).1;
                self.are_round(count, entry.phase, page, before.within(entry.phase, page))
            }
            _ => true,
        }
    }

    // Whether a page's count in a phase is between its bounds, after this many of the worker's own likes in it.
    fn are_round(&self, count: u64, phase: u32, page: u32, made: u64) -> bool {
        let so_far = self.up_to.within(phase, page);
        let later = self.own.within(phase, page).saturating_sub(made);
        let earlier = so_far.saturating_sub(self.all.within(phase, page));
        earlier.saturating_add(made) <= count && count <= so_far.saturating_sub(later)
    }

    // Whether they hold for each entry and the likes before it: at first there are none.
    fn hold_for(&self, ran: &[Ran], before: &mut Likes) -> bool {
        for entry in ran {
            if !self.hold(entry, before) {
                return false;
            }
            before.add(entry);
        }
        true
    }
}

// The likes of these logs.
fn likes_of(rt: &impl Abort, alloc: Global, logs: &[WorkerLog], phases: u32) -> Likes {
    let mut all = Likes::none(rt, alloc, phases);
    for log in logs {
        all.add_all(&log.ran);
    }
    all
}

fn has_right_counts(
    rt: &impl Abort,
    alloc: Global,
    ran: &[Ran],
    all: &Likes,
    up_to: &Likes,
    phases: u32,
) -> bool {
    let mut own = Likes::none(rt, alloc, phases);
    own.add_all(ran);
    let bounds = Bounds {
        all,
        up_to,
        own: &own,
    };
    bounds.hold_for(ran, &mut Likes::none(rt, alloc, phases))
}

// Asserts that each worker ran in run order, and that its looks were shown right counts.
fn assert_logs(rt: &impl Abort, alloc: Global, logs: &[WorkerLog], phases: u32) {
    let all = likes_of(rt, alloc, logs, phases);
    let up_to = all.up_to(rt, alloc);
    for log in logs {
        assert_ran(rt, "run order", &log.ran, &order(rt, alloc, &log.taken));
        let are_right = has_right_counts(rt, alloc, &log.ran, &all, &up_to, phases);
        assert_that(rt, are_right, "a count out of its bounds");
    }
}

fn assert_right(rt: &impl Abort, alloc: Global, report: &Report, gate: &Watch) {
    let phases = gate.phases();
    assert_same(rt, "calls", gate.calls(), (16_000, 16_000));
    assert_same(rt, "phases", phases, report.phases.saturating_add(1));
    assert_logs(rt, alloc, &report.logs, phases);
}

fn assert_run(rt: &(impl Abort + Threads + Wait + Sync), alloc: Global) {
    let gate = Watch::idle();
    let report = mixed_load().report(rt, alloc, plans(rt, alloc), &gate);
    assert_right(rt, alloc, &report, &gate);
    drop(gate);
    assert_counts(rt, "counts", report, &[4_000, 4_000]);
}

#[test]
fn runs_a_mixed_load(rt: HostRuntime) {
    for _ in 0..100 {
        assert_run(&rt, rt.alloc());
    }
}
