ghost use Rattle.std.specs.Prelude.{◌≡◌, ◌+◌, ◌-◌, ◌≤◌, ◌^◌, min, false, true, [], All, IfErr, IfOk, OnOk, length, map, vec_capacity};
ghost use Rattle.like_requests.specs.Setup.{IsWithinLimits};
ghost use Rattle.like_promises.specs.Workload.{lists_of};
ghost use Rattle.like_crew.specs.Crew.{IsCrew, crew_of};
ghost use Rattle.like_crew.specs.Ended.{IsEnded};
ghost use Rattle.like_crew.specs.Site.{AreSeats, IsSite};
ghost use Rattle.like_promises.specs.Report.{IsReportOf};
ghost use Rattle.like_queue.specs.Lines.{AreNewEnds};
ghost use Rattle.like_run.specs.Threads.{HasEndedOn, IsRunFaultUnderWay};
ghost use Rattle.like_promises.specs.RunFault.{IsRunFault};

use crate::threads::coordinator::{coordinate, join_all};
use crate::threads::room::Room;
use crate::threads::shared::Shared;
use crate::threads::submitters::start_submitters;
use crate::threads::worker::{Owes, Served};
use crate::threads::workers::start_workers;
use like_board::BoardPost;
use like_crew::{Crew, Ended, Seats, Server, Site, report_in_parallel};
use like_promises::{Report, RunFault};
use like_queue::{Lines, Parkers, SendEnd, TakeEnd, ends_of, tell};
use like_requests::{Request, Setup, check_setup};
use like_roles::Gate;
use std::alloc::Global;
use std::snapshot::Snapshot;
use std::sync::{OnceLock, Wait};
use std::thread;
use std::thread::{JoinHandle, PromisedHandle, Scope, Threads};

mod coordinator;
mod pace;
mod room;
mod shared;
mod submitters;
mod worker;
mod workers;

/// Makes a run that starts a thread for each worker and each submitter, and no other. Its report has places.
pub fn run<R: Threads + Wait + Sync, G: Gate>(
    rt: &R,
    alloc: Global,
    setup: &Setup,
    plans: Vec<Vec<Request>>,
    gate: &G,
) -> Result<Report, RunFault>
    ensures report { IfOk result (IsReportOf setup.now (lists_of plans.items) true) }
    ensures within { OnOk result (IsWithinLimits setup.now (lists_of plans.items)) }
    ensures fault { IfErr result (IsRunFault setup.now (lists_of plans.items)) }
{
    let starts = own_threads(setup, &plans);
    run_limited(rt, alloc, setup, plans, gate, starts)
}

// How many threads a run has: one for each worker and each submitter.
fn own_threads(setup: &Setup, plans: &[Vec<Request>]) -> u32
    ensures { result ≡ min (setup.now.workers + length plans.now) (2 ^ 32 - 1) }
{
    let submitters = plans.len().min(u32::MAX as usize) as u32;
    setup.workers.saturating_add(submitters)
}

/// Makes a run that starts at most `starts` threads: one for each worker and each submitter, and those beyond collect
/// the replies; with none beyond, the calling thread does. Its report has places.
pub fn run_limited<R: Threads + Wait + Sync, G: Gate>(
    rt: &R,
    alloc: Global,
    setup: &Setup,
    plans: Vec<Vec<Request>>,
    gate: &G,
    starts: u32,
) -> Result<Report, RunFault>
    ensures report { IfOk result (IsReportOf setup.now (lists_of plans.items) true) }
    ensures within { OnOk result (IsWithinLimits setup.now (lists_of plans.items)) }
    ensures enough { OnOk result (setup.now.workers + length plans.items ≤ starts) }
    ensures fault { IfErr result (IsRunFault setup.now (lists_of plans.items)) }
{
    run_noting(rt, alloc, setup, plans, gate, starts, true)
}

/// Makes a run, as the program does. Each worker and each submitter has a thread of its own, and the coordinator has the
/// calling thread. A submitter sends its requests to its worker through a line. No thread works until all exist: if one
/// can't start, or would be one more than `starts`, the others end and no request is taken. Once all have ended, the
/// replies are collected by as many threads as are left of `starts`, or by the calling thread alone. If `notes`, the
/// workers note their additions and the report has places. Else these take no memory. On a fault the lists are dropped.
pub fn run_noting<R: Threads + Wait + Sync, G: Gate>(
    rt: &R,
    alloc: Global,
    setup: &Setup,
    plans: Vec<Vec<Request>>,
    gate: &G,
    starts: u32,
    notes: bool,
) -> Result<Report, RunFault>
    ensures report { IfOk result (IsReportOf setup.now (lists_of plans.items) notes) }
    ensures within { OnOk result (IsWithinLimits setup.now (lists_of plans.items)) }
    ensures enough { OnOk result (setup.now.workers + length plans.items ≤ starts) }
    ensures fault { IfErr result (IsRunFault setup.now (lists_of plans.items)) }
{
    check_setup(setup, &plans)?;
    run_within(rt, alloc, setup, plans, gate, starts, notes)
}

// Makes a run within the limits.
fn run_within<R: Threads + Wait + Sync, G: Gate>(
    rt: &R,
    alloc: Global,
    setup: &Setup,
    plans: Vec<Vec<Request>>,
    gate: &G,
    starts: u32,
    notes: bool,
) -> Result<Report, RunFault>
    requires { IsWithinLimits setup.now (lists_of plans.items) }
    ensures report { IfOk result (IsReportOf setup.now (lists_of plans.items) notes) }
    ensures enough { OnOk result (setup.now.workers + length plans.items ≤ starts) }
    ensures fault { IfErr result IsRunFaultUnderWay }
{
    let (site, seats) = Site::new(alloc, setup, &plans, notes)?;
    let lists = Snapshot::of(&plans);
    let left = starts.saturating_sub(own_threads(setup, &plans));
    let ended = run_at(rt, alloc, setup, &site, seats, plans, gate, starts as usize)?;
    Ok(report_in_parallel(rt, alloc, setup, &lists, site, ended, left)?)
}

// Runs a crew at a new site, with a line for each submitter. The plans make room for the answers of the report.
fn run_at<R: Threads + Wait + Sync, G: Gate>(
    rt: &R,
    alloc: Global,
    setup: &Setup,
    site: &Site,
    seats: Seats,
    plans: Vec<Vec<Request>>,
    gate: &G,
    starts: usize,
) -> Result<Ended, RunFault>
    requires within { IsWithinLimits setup.now (lists_of plans.items) }
    requires site { IsSite setup.now (lists_of plans.items) site.now }
    requires seats { AreSeats setup.now site.now seats }
    ensures ended { IfOk result (IsEnded (IsCrew setup.now (lists_of plans.items) site.now)) }
    ensures enough { OnOk result (setup.now.workers + length plans.items ≤ starts) }
    ensures fault { IfErr result IsRunFaultUnderWay }
{
    let Lines { lines, passes } = Lines::new(alloc, plans)?;
    let (sends, takes) = ends_of(alloc, &lines, passes)?;
    let crew = Crew::of_inboxes(alloc, setup, site, seats, takes)?;
    on_threads(rt, alloc, crew, sends, gate, starts)
}

// Runs the workers of a crew and the submitters on threads, and takes the crew apart.
fn on_threads<R: Threads + Wait + Sync, G: Gate>(
    rt: &R,
    alloc: Global,
    crew: Crew<'_, TakeEnd<'_>>,
    ends: Vec<SendEnd<'_>>,
    gate: &G,
    starts: usize,
) -> Result<Ended, RunFault>
    requires { AreNewEnds ends.items }
    ensures ended { IfOk result (HasEndedOn starts (crew_of crew.entry) ends.entry.items) }
    ensures fault { IfErr result IsRunFaultUnderWay }
{
    let Ok(parkers) = Parkers::new(alloc, crew.servers.len()) else {
        drop(crew);
        return Err(RunFault::Memory);
    };
    let parkers = &parkers;
    let start = &OnceLock::new();
    let shared = &Shared {
        rt,
        gate,
        start,
        parkers,
    };
    thread::scope(
        thread::scope_env(),
        rt,
        move |scope| -> Result<Ended, RunFault>
            requires { AreNewEnds ends.items }
            ensures ended { IfOk result (HasEndedOn starts (crew_of crew.entry) ends.entry.items) }
            ensures fault { IfErr result IsRunFaultUnderWay }
        { in_scope(scope, alloc, shared, crew, ends, starts) },
    )
}

// Starts the threads, makes the coordinator's turns, and takes everything apart.
fn in_scope<'s, E, R: Threads + Wait + Sync, G: Gate>(
    scope: &Scope<'s, E>,
    alloc: Global,
    shared: &'s Shared<'s, R, G>,
    crew: Crew<'s, TakeEnd<'s>>,
    ends: Vec<SendEnd<'s>>,
    starts: usize,
) -> Result<Ended, RunFault>
    requires { AreNewEnds ends.items }
    ensures ended { IfOk result (HasEndedOn starts (crew_of crew.entry) ends.entry.items) }
    ensures fault { IfErr result IsRunFaultUnderWay }
{
    let Crew {
        mut coordinator,
        servers,
    } = crew;
    let Ok(room) = Room::new(alloc, servers.len(), ends.len()) else {
        drop(coordinator);
        return Err(RunFault::Memory);
    };
    let Room {
        mut workers,
        mut submitters,
        mut logs,
        mut seats,
    } = room;
    let all = start_all(
        scope,
        shared,
        servers,
        ends,
        &mut workers,
        &mut submitters,
        starts,
    );
    let Some(go) = tell(shared.rt, shared.start, all) else {
        drop(coordinator);
        return Err(RunFault::Start);
    };
    coordinate(shared.rt, shared.parkers, &mut coordinator);
    join_all(shared.rt, workers, &go, &mut logs, &mut seats);
    Ok(Ended::new(coordinator, logs, seats))
}

// Starts the threads of all workers, and then those of all submitters, and says whether all could be started; more than
// `most` can't be.
fn start_all<'s, E, R: Threads + Wait + Sync, G: Gate>(
    scope: &Scope<'s, E>,
    shared: &'s Shared<'s, R, G>,
    servers: Vec<Server<BoardPost<'s>, TakeEnd<'s>>>,
    ends: Vec<SendEnd<'s>>,
    workers: &mut Vec<PromisedHandle<Served<'s>, Owes<'s>>>,
    submitters: &mut Vec<JoinHandle<()>>,
    most: usize,
) -> bool
    requires new { AreNewEnds ends.items }
    requires workers { (workers.old.items ≡ []) × (length servers.items ≤ vec_capacity workers.old) }
    requires submitters { (submitters.old.items ≡ []) × (length ends.items ≤ vec_capacity submitters.old) }
    ensures told { All (λ thread. thread.promise.start.now.id ≡ shared.now.start.now.id)
        workers.new.items }
    ensures servers { result ≡ true
        → map (λ thread. thread.promise.server.value) workers.new.items ≡ servers.entry.items }
    ensures enough { result ≡ true → length servers.entry.items + length ends.entry.items ≤ most }
{
    let left = most.saturating_sub(servers.len());
    start_workers(scope, shared, servers, workers, most)
        && start_submitters(scope, shared, ends, submitters, left)
}
