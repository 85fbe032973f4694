ghost use Rattle.std.specs.Prelude.{◌≡◌, ◌≤◌, All, IfErr, IfOk, OnErr, OnOk, length, false, true};
ghost use Rattle.like_requests.specs.Setup.{IsWithinLimits};
ghost use Rattle.like_roles.specs.coordinator.CoordTurns.{HasEndedJoined};
ghost use Rattle.like_requests.specs.Script.{IsInRun};
ghost use Rattle.like_limits.specs.Limits.{max_entries};
ghost use Rattle.like_promises.specs.Workload.{lists_of};
ghost use Rattle.like_crew.specs.Crew.{AreGone, GoesOn};
ghost use Rattle.like_crew.specs.Steps.{Makes, MakesAll};
ghost use Rattle.like_promises.specs.Report.{IsReportOf};
ghost use Rattle.like_run.specs.Rounds.{CanMake, CanReplayScript, HasNotEnded, IsReplayFaultUnderWay, IsReplayFault, IsUnfinished, ReportFollows};
ghost use Rattle.like_run.specs.Script.{EndsInTime, FollowsScript, MakesMostRounds};

use like_crew::{Outcome, OwnCrew, report_of, sizes_of};
use like_promises::Report;
use like_requests::{Request, Setup, Turned, check_script, check_setup};
use like_roles::Terms;
use std::alloc::Global;
use std::snapshot::Snapshot;

mod fault;

pub use fault::ReplayFault;

/// The most rounds of a replay.
pub const MAX_ROUNDS: u32 = 1_000_000;

/// Replays a run on one thread. First the script's entries are made in their order; then all lists are opened, and
/// rounds follow: one turn of the coordinator, and one of each worker in order. It ends with the round in which the
/// coordinator finds the run ended and every worker is gone; after 1,000,000 rounds without that, it is `Unfinished`.
/// On a fault the lists are dropped.
pub fn replay(
    alloc: Global,
    setup: &Setup,
    plans: Vec<Vec<Request>>,
    script: &[Turned],
) -> Result<Report, ReplayFault>
    requires { length script.now ≤ max_entries }
    ensures report { IfOk result (IsReportOf setup.now (lists_of plans.items) true) }
    ensures follows { IfOk result (ReportFollows setup.now (lists_of plans.items) script.now) }
    ensures fits { OnOk result (CanReplayScript setup.now (lists_of plans.items) script.now) }
    ensures fault { IfErr result (IsReplayFault setup.now (lists_of plans.items) script.now) }
{
    replay_noting(alloc, setup, plans, script, true)
}

/// Replays a run as `replay` does. If `notes`, the workers note their additions and the report has places. Else these
/// take no memory.
pub fn replay_noting(
    alloc: Global,
    setup: &Setup,
    plans: Vec<Vec<Request>>,
    script: &[Turned],
    notes: bool,
) -> Result<Report, ReplayFault>
    requires { length script.now ≤ max_entries }
    ensures report { IfOk result (IsReportOf setup.now (lists_of plans.items) notes) }
    ensures follows { IfOk result (ReportFollows setup.now (lists_of plans.items) script.now) }
    ensures fits { OnOk result (CanReplayScript setup.now (lists_of plans.items) script.now) }
    ensures fault { IfErr result (IsReplayFault setup.now (lists_of plans.items) script.now) }
{
    check_setup(setup, &plans)?;
    check_script(script, setup.workers, plans.len())?;
    replay_within(alloc, setup, plans, script, notes)
}

// Replays a run within the limits.
fn replay_within(
    alloc: Global,
    setup: &Setup,
    plans: Vec<Vec<Request>>,
    script: &[Turned],
    notes: bool,
) -> Result<Report, ReplayFault>
    requires within { IsWithinLimits setup.now (lists_of plans.items) }
    requires script { All (IsInRun setup.now.workers (length plans.items)) script.now }
    ensures report { IfOk result (IsReportOf setup.now (lists_of plans.items) notes) }
    ensures follows { IfOk result (ReportFollows setup.now (lists_of plans.items) script.now) }
    ensures fault { IfErr result (IsReplayFaultUnderWay (IsUnfinished setup.now (lists_of plans.items) script.now)) }
{
    let sizes = sizes_of(alloc, &plans)?;
    let terms = Terms {
        sizes: &sizes,
        notes,
    };
    let lists = Snapshot::of(&plans);
    let crew = OwnCrew::new(alloc, setup, terms, plans)?;
    let outcome = play(alloc, crew, script)?;
    Ok(report_of(alloc, setup, &lists, terms, outcome)?)
}

// Makes a script's entries in their order, opens all lists, makes rounds until the run ended, and takes the crew apart.
fn play(alloc: Global, crew: OwnCrew, script: &[Turned]) -> Result<Outcome, ReplayFault>
    requires script { All (CanMake crew.servers) script.now }
    requires all { length crew.servers ≡ crew.coordinator.seat.opening.workers }
    ensures script { IfOk result (FollowsScript script.now crew) }
    ensures fault { IfErr result (IsReplayFaultUnderWay (HasNotEnded script.now crew)) }
{
    let mut crew = crew;
    make_all(&mut crew, script);
    crew.open_all();
    match make_rounds(&mut crew) {
        Ok(()) => Ok(crew.finish(alloc)?),
        Err(fault) => {
            drop(crew);
            Err(fault)
        }
    }
}

// Makes a script's entries in their order.
fn make_all(crew: &mut OwnCrew, script: &[Turned])
    requires { All (CanMake crew.old.servers) script.now }
    ensures makes { MakesAll script.now crew.old crew.new }
    ensures goes_on { GoesOn crew.old crew.new }
{
    for entry in script {
        make(crew, entry);
    }
}

// Makes one entry of a script.
fn make(crew: &mut OwnCrew, entry: &Turned)
    requires { CanMake crew.old.servers entry.now }
    ensures makes { Makes entry.now crew.old crew.new }
    ensures goes_on { GoesOn crew.old crew.new }
{
    match *entry {
        Turned::OpenOne(submitter) => crew.open_one(submitter),
        Turned::Worker(worker) => {
            crew.turn_of(worker);
        }
        Turned::Coordinator => {
            crew.turn();
        }
    }
}

// Makes rounds until the run ended.
fn make_rounds(crew: &mut OwnCrew) -> Result<(), ReplayFault>
    ensures rounds { OnOk result (EndsInTime crew.old crew.new) }
    ensures goes_on { GoesOn crew.old crew.new }
    ensures ended { OnOk result (HasEndedJoined crew.new.coordinator) }
    ensures gone { OnOk result (AreGone crew.new.servers) }
    ensures fault { IfErr result (λ fault. fault ≡ ReplayFault.Unfinished) }
    ensures all { OnErr result (MakesMostRounds crew.old crew.new) }
{
    for _ in 0..MAX_ROUNDS {
        if crew.round() {
            return Ok(());
        }
    }
    Err(ReplayFault::Unfinished)
}
