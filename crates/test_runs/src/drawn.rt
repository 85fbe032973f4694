//! Drawn replays, compared with runs that are played by the tables of turns.
ghost use Rattle.std.specs.Prelude.{◌+◌, ◌<◌, ◌≤◌, ◌^◌};

use super::asserts::{assert_step, assert_that};
use super::cases::{pages_of, replayed};
use super::lists::push;
use super::logs::{entry_of, numbers_of};
use super::players::{Played, Player, play};
use like_replies::Report;
use like_requests::{Op, PageRef, Pages, Request, Setup};
use like_roles::{Ran, Took, WorkerLog};
use like_run::Turned;
use std::alloc::Global;
use std::process::Abort;

// Numbers by a linear congruence, with the factor and the summand of Knuth's MMIX.
#[derive(Drop)]
struct Draws {
    state: u64,
}

impl Draws {
    fn below(&mut self, bound: u32) -> u32
        requires { 0 < bound }
        ensures { result < bound }
    {
        self.state = self
            .state
            .wrapping_mul(6_364_136_223_846_793_005)
            .wrapping_add(1_442_695_040_888_963_407);
        (self.state >> 32) as u32 % bound
    }
}

fn yes_or_no(yes: bool) -> &'static str {
    if yes { "yes" } else { "no" }
}

fn draw_marks(draws: &mut Draws) -> [bool; 4] {
    let a = draws.below(3) == 0;
    let b = draws.below(3) == 0;
    let c = draws.below(3) == 0;
    [a, b, c, draws.below(3) == 0]
}

// One run in two chooses hot pages, by few likes.
fn draw_hot(draws: &mut Draws) -> Option<u32> {
    match draws.below(6) {
        0 => Some(1),
        1 => Some(2),
        2 => Some(3),
        _ => None,
    }
}

// Four pages, of which these are split.
fn marked_pages(rt: &impl Abort, alloc: Global, split: &[bool; 4]) -> Pages {
    let [a, b, c, d] = *split;
    let (a, b, c, d) = (yes_or_no(a), yes_or_no(b), yes_or_no(c), yes_or_no(d));
    let rows = format!(in alloc; "a,10,{a}\nb,20,{b}\nc,30,{c}\nd,40,{d}\n");
    pages_of(rt, alloc, &rows.expect(rt, "memory"))
}

// The settings of a run with these pages.
fn draw_setup(draws: &mut Draws, pages: Pages) -> Setup
    ensures some { 1 ≤ result.workers }
    ensures few { result.workers ≤ 5 }
{
    Setup {
        workers: 1 + draws.below(5),
        users: 12,
        stash: 1 + draws.below(2),
        turns: draws.below(3),
        hot: draw_hot(draws),
        pages,
    }
}

// One request in four is of any user, also of one who is unknown or has another home; one in eight is of an unknown page.
fn draw_request(draws: &mut Draws, submitter: u32, submitters: u32) -> Request
    requires { submitter + submitters < 2 ^ 32 }
{
    let op = match draws.below(2) {
        0 => Op::Like,
        _ => Op::Look,
    };
    let user = match draws.below(4) {
        0 => draws.below(14),
        1 => submitter,
        _ => submitter + submitters,
    };
    let page = match draws.below(8) {
        0 => PageRef::Unknown,
        other => PageRef::Known(other % 4),
    };
    Request { op, user, page }
}

fn draw_plan(
    rt: &impl Abort,
    alloc: Global,
    draws: &mut Draws,
    submitter: u32,
    submitters: u32,
) -> Vec<Request>
    requires { submitter + submitters < 2 ^ 32 }
{
    let mut plan = Vec::new(alloc);
    for _ in 0..draws.below(7) {
        push(rt, &mut plan, draw_request(draws, submitter, submitters));
    }
    plan
}

fn draw_plans(
    rt: &impl Abort,
    alloc: Global,
    draws: &mut Draws,
    submitters: u32,
) -> Vec<Vec<Request>>
    requires { submitters ≤ 7 }
{
    let mut plans = Vec::new(alloc);
    for submitter in 0..submitters {
        let plan = draw_plan(rt, alloc, draws, submitter, submitters);
        push(rt, &mut plans, plan);
    }
    plans
}

fn draw_turn(draws: &mut Draws, workers: u32, submitters: u32) -> Turned
    requires workers { 0 < workers }
    requires submitters { 0 < submitters }
{
    match draws.below(4) {
        0 => Turned::OpenOne(draws.below(submitters)),
        1 => Turned::Coordinator,
        _ => Turned::Worker(draws.below(workers)),
    }
}

fn draw_script(
    rt: &impl Abort,
    alloc: Global,
    draws: &mut Draws,
    workers: u32,
    submitters: u32,
) -> Vec<Turned>
    requires workers { 0 < workers }
    requires submitters { 0 < submitters }
{
    let mut script = Vec::new(alloc);
    for _ in 0..draws.below(161) {
        push(rt, &mut script, draw_turn(draws, workers, submitters));
    }
    script
}

// Asserts that a worker took what its player did.
fn assert_taken(rt: &impl Abort, case: usize, taken: &[Took], played: &[Took]) {
    assert_step(rt, "requests taken", case, taken.len(), played.len());
    for (took, wanted) in taken.iter().zip(played) {
        assert_step(rt, "taken", case, numbers_of(took), numbers_of(wanted));
    }
}

// Asserts that a worker ran what its player did.
fn assert_ran(rt: &impl Abort, case: usize, ran: &[Ran], played: &[Ran]) {
    assert_step(rt, "requests run", case, ran.len(), played.len());
    for (entry, wanted) in ran.iter().zip(played) {
        let came = (entry_of(entry), entry.reply);
        assert_step(rt, "run", case, came, (entry_of(wanted), wanted.reply));
    }
}

// Asserts that workers took and ran what their players did.
fn assert_logs(rt: &impl Abort, case: usize, logs: &[WorkerLog], players: &[Player]) {
    assert_step(rt, "workers", case, logs.len(), players.len());
    for (log, player) in logs.iter().zip(players) {
        assert_taken(rt, case, &log.taken, &player.taken);
        assert_ran(rt, case, &log.ran, &player.ran);
    }
}

// Asserts that a report is as its run is played, in a case with this number.
fn assert_as_played(rt: &impl Abort, case: usize, report: &Report, played: &Played) {
    assert_step(rt, "phases", case, Some(report.phases), played.phases);
    let are_chosen = report.hot == played.chosen;
    assert_step(rt, "the same choices", case, are_chosen, true);
    assert_logs(rt, case, &report.logs, &played.players);
}

// Asserts that a run of these plans is replayed as it is played.
fn assert_replayed(
    rt: &impl Abort,
    alloc: Global,
    case: usize,
    setup: Setup,
    split: [bool; 4],
    plans: Vec<Vec<Request>>,
    script: Vec<Turned>,
)
    requires some { 1 ≤ setup.workers }
    requires few { setup.workers ≤ 16 }
{
    let played = play(rt, alloc, &setup, split, &plans, &script);
    assert_that(rt, played.is_whole(), "memory, or an event of the play");
    let report = replayed(rt, alloc, setup, plans, script).expect(rt, "a report");
    assert_as_played(rt, case, &report, &played);
    drop(report);
    drop(played);
}

// Asserts that the run that is drawn next, in a case with this number, is replayed as it is played.
fn assert_next(rt: &impl Abort, alloc: Global, case: usize, draws: &mut Draws) {
    let split = draw_marks(draws);
    let setup = draw_setup(draws, marked_pages(rt, alloc, &split));
    let submitters = 1 + draws.below(7);
    let plans = draw_plans(rt, alloc, draws, submitters);
    let script = draw_script(rt, alloc, draws, setup.workers, submitters);
    assert_replayed(rt, alloc, case, setup, split, plans, script);
}

#[test]
fn replays_by_the_tables(rt: HostRuntime) {
    let mut draws = Draws { state: 1 };
    for case in 0..1_000 {
        assert_next(&rt, rt.alloc(), case, &mut draws);
    }
}
