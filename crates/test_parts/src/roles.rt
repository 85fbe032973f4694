//! The turns of the worked examples, of workers and the coordinator at one board.
ghost use Rattle.std.specs.Prelude.{◌≡◌, ◌≤◌, All, IfOk, length, map};
ghost use Rattle.like_limits.specs.Limits.{max_requests};
ghost use Rattle.like_requests.specs.Setup.{IsWithinLimits};
ghost use Rattle.like_promises.specs.Workload.{lists_of};

mod choice;
mod gates;
mod play;
mod player;
mod scenes;

use crate::asserts::{assert_part, assert_same, assert_step};
use gates::Expecting;
use like_core::Post;
use like_requests::{Request, Setup, check_setup, read_pages};
use like_roles::{Added, Chosen, Ran, Reply, Terms, Took, WorkerLog};
use like_tables::Users;
use play::{Play, board_of};
use scenes::{
    Done, Scene, addition_scenes, count_scenes, hot_limit, pair_scenes, phase_scenes, rounds,
    stash_scenes,
};
use std::alloc::Global;
use std::process::Abort;
use std::test::Fail;

// The settings of a scene.
fn setup_of(alloc: Global, scene: &Scene) -> Result<Setup, Fail> {
    Ok(Setup {
        workers: scene.workers,
        users: scene.users,
        stash: scene.stash,
        turns: scene.turns,
        hot: scene.hot,
        pages: read_pages(alloc, scene.pages.as_bytes())?,
    })
}

// The numbers of what was taken at a place: phase, submitter and number.
fn took_at(taken: &[Took], at: usize) -> Option<(u32, u32, u32)> {
    match taken.get(at) {
        Some(took) => Some((took.phase, took.submitter, took.number)),
        None => None,
    }
}

// The numbers of what ran at a place: phase, submitter and number, whether it was stashed, and the reply.
fn ran_at(ran: &[Ran], at: usize) -> Option<(u32, u32, u32, bool, Reply)> {
    match ran.get(at) {
        Some(it) => Some((it.phase, it.submitter, it.number, it.stashed, it.reply)),
        None => None,
    }
}

// The numbers of an addition at a place: page, phase, entries before it, count before it and likes.
fn added_at(adds: &[Added], at: usize) -> Option<(u32, u32, u32, u64, u64)> {
    match adds.get(at) {
        Some(it) => Some((it.page, it.phase, it.at, it.old, it.n)),
        None => None,
    }
}

// The phase and the mask of a choice at a place.
fn chosen_at(chosen: &[Chosen], at: usize) -> Option<(u32, u64)> {
    match chosen.get(at) {
        Some(choice) => Some((choice.phase, choice.mask)),
        None => None,
    }
}

// The page that a user liked last. None if the worker doesn't serve the user.
fn last_of(users: &Users, user: u32) -> Option<Option<u32>> {
    if !users.owns(user) {
        return None;
    }
    Some(users.last(user))
}

// Asserts what a worker took, and what it ran.
fn assert_run(rt: &impl Abort, case: &str, worker: usize, log: &WorkerLog, done: &Done) {
    for at in 0..log.taken.len().max(done.taken.len()) {
        let took = took_at(&log.taken, at);
        assert_part(rt, case, worker, at, took, took_at(done.taken, at));
    }
    for at in 0..log.ran.len().max(done.ran.len()) {
        let ran = ran_at(&log.ran, at);
        assert_part(rt, case, worker, at, ran, ran_at(done.ran, at));
    }
}

// Asserts what a worker added. Where additions are not noted, there was no room for any.
fn assert_added(rt: &impl Abort, scene: &Scene, worker: usize, adds: &Vec<Added>, want: &[Added]) {
    for at in 0..adds.len().max(want.len()) {
        let added = added_at(adds, at);
        assert_part(rt, scene.name, worker, at, added, added_at(want, at));
    }
    if !scene.notes {
        assert_part(rt, scene.name, worker, 0, adds.capacity(), 0);
    }
}

// Asserts what a worker has done: part `worker` of the scene in what a failure tells.
fn assert_done(rt: &impl Abort, scene: &Scene, worker: usize, log: &WorkerLog, done: &Done) {
    assert_run(rt, scene.name, worker, log, done);
    assert_added(rt, scene, worker, &log.adds, done.adds);
    for (user, page) in done.last {
        let last = last_of(&log.last, *user);
        assert_part(rt, scene.name, worker, *user as usize, last, Some(*page));
    }
}

// Asserts what the first workers have done.
fn assert_all_done(rt: &impl Abort, scene: &Scene, logs: &[WorkerLog]) {
    for worker in 0..scene.done.len() {
        match logs.get(worker) {
            Some(log) => assert_done(rt, scene, worker, log, &scene.done[worker]),
            None => assert_same(rt, scene.name, logs.len(), scene.done.len()),
        }
    }
}

// Asserts what the coordinator chose.
fn assert_chosen(rt: &impl Abort, case: &str, chosen: &[Chosen], want: &[Chosen]) {
    for at in 0..chosen.len().max(want.len()) {
        let choice = chosen_at(chosen, at);
        assert_step(rt, case, at, choice, chosen_at(want, at));
    }
}

// Makes the steps of all parts.
fn make_parts<P: Post + Drop>(
    rt: &impl Abort,
    gate: &Expecting,
    play: &mut Play<'_, P>,
    scene: &Scene,
) {
    for part in 0..scene.parts.len() {
        play.make(rt, gate, scene.name, part, scene.parts[part]);
    }
}

// Makes the steps of a scene. Asserts the last phase that the coordinator saw, its choices, what the workers have done, and
// the calls of the gate.
fn make_all<P: Post + Drop>(rt: &impl Abort, alloc: Global, scene: &Scene, mut play: Play<'_, P>) {
    let gate = Expecting::new(scene.calls);
    make_parts(rt, &gate, &mut play, scene);
    let (phase, chosen, logs) = play.finish(rt, alloc, &gate);
    assert_same(rt, scene.name, phase, scene.phase);
    assert_chosen(rt, scene.name, &chosen, scene.chosen);
    assert_same(rt, scene.name, gate.counts(), (scene.calls.len(), 0));
    assert_all_done(rt, scene, &logs);
    drop(logs);
}

// Makes the steps of a scene whose parts are those of two phases, as often as it takes for 2,060 likes, and those that end
// the run. Asserts that like n ran in phase n, and that page 0 was hot in 1,024 split phases, from phase 3 on.
fn make_often<P: Post + Drop>(
    rt: &impl Abort,
    alloc: Global,
    scene: &Scene,
    mut play: Play<'_, P>,
) {
    let gate = Expecting::new(scene.calls);
    for _ in 0..1_030 {
        make_parts(rt, &gate, &mut play, scene);
    }
    play.make(rt, &gate, scene.name, scene.parts.len(), rounds());
    let (phase, chosen, logs) = play.finish(rt, alloc, &gate);
    assert_same(rt, scene.name, phase, 2_062);
    assert_hot_in_odd_phases(rt, scene.name, &chosen);
    assert_same(rt, scene.name, logs.len(), 1);
    for log in &logs {
        assert_ran_by_phase(rt, scene.name, &log.ran);
    }
    drop(logs);
}

// Asserts that 2,060 requests ran: number n in phase n.
fn assert_ran_by_phase(rt: &impl Abort, case: &str, ran: &[Ran]) {
    assert_same(rt, case, ran.len(), 2_060);
    let mut phase = 0_u32;
    for entry in ran {
        phase = phase.saturating_add(1);
        assert_step(
            rt,
            case,
            phase as usize,
            (entry.phase, entry.number),
            (phase, phase),
        );
    }
}

// Asserts that page 0 alone was chosen for each of the 1,024 odd phases from 3 on.
fn assert_hot_in_odd_phases(rt: &impl Abort, case: &str, chosen: &[Chosen]) {
    assert_same(rt, case, chosen.len(), 1_024);
    let mut phase = 1_u32;
    for choice in chosen {
        phase = phase.saturating_add(2);
        assert_step(
            rt,
            case,
            phase as usize,
            (choice.phase, choice.mask),
            (phase, 1),
        );
    }
}

// How many requests each submitter has.
fn sizes_of(alloc: Global, plans: &[Vec<Request>]) -> Result<Vec<u32>, Fail>
    requires { All (λ size. size ≤ max_requests) (map length (lists_of plans.now)) }
    ensures sizes { IfOk result (λ sizes. sizes.items ≡ map length (lists_of plans.now)) }
    ensures len { IfOk result (λ sizes. length sizes.items ≡ length plans.now) }
{
    let mut sizes = Vec::new(alloc);
    for plan in plans {
        sizes.push(plan.len() as u32)?;
    }
    Ok(sizes)
}

// The board of a scene, with its workers and the coordinator at it, plays the scene.
fn play_at_board(
    rt: &impl Abort,
    alloc: Global,
    scene: &Scene,
    setup: &Setup,
    plans: &[Vec<Request>],
    often: bool,
) -> Result<(), Fail>
    requires within { IsWithinLimits setup.now (lists_of plans.now) }
    requires few { length plans.now ≤ setup.now.workers }
{
    let sizes = sizes_of(alloc, plans)?;
    let terms = Terms {
        sizes: &sizes,
        notes: scene.notes,
    };
    let (board, coord, seats) = board_of(alloc, setup)?;
    let play = Play::new(alloc, setup, plans, terms, &board, coord, seats)?;
    if often {
        make_often(rt, alloc, scene, play);
    } else {
        make_all(rt, alloc, scene, play);
    }
    Ok(())
}

// The requests of a scene.
fn plans_of(alloc: Global, scene: &Scene) -> Result<Vec<Vec<Request>>, Fail> {
    let mut plans = Vec::new(alloc);
    for plan in scene.plans {
        plans.push(Vec::from_slice(alloc, plan)?)?;
    }
    Ok(plans)
}

// Plays a scene with its settings, within the limits of a run.
fn play_with(
    rt: &impl Abort,
    alloc: Global,
    scene: &Scene,
    setup: &Setup,
    often: bool,
) -> Result<(), Fail> {
    let plans = plans_of(alloc, scene)?;
    let plans = plans.as_slice();
    if plans.len() > setup.workers as usize {
        return Err("more submitters than workers".into());
    }
    check_setup(setup, plans)?;
    play_at_board(rt, alloc, scene, setup, plans, often)
}

fn play_scene(rt: &impl Abort, alloc: Global, scene: &Scene, often: bool) -> Result<(), Fail> {
    let setup = setup_of(alloc, scene)?;
    play_with(rt, alloc, scene, &setup, often)
}

fn play_scenes(rt: &impl Abort, alloc: Global, scenes: &[Scene]) -> Result<(), Fail> {
    for scene in scenes {
        play_scene(rt, alloc, scene, false)?;
    }
    Ok(())
}

#[test]
fn plays_each_scene(rt: HostRuntime) -> Result<(), Fail> {
    play_scenes(&rt, rt.alloc(), stash_scenes())?;
    play_scenes(&rt, rt.alloc(), phase_scenes())?;
    play_scenes(&rt, rt.alloc(), addition_scenes())?;
    play_scenes(&rt, rt.alloc(), pair_scenes())?;
    play_scenes(&rt, rt.alloc(), count_scenes())?;
    play_scene(&rt, rt.alloc(), hot_limit(), true)
}
