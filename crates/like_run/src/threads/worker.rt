ghost use Rattle.std.specs.Prelude.{◌≡◌};
ghost use Rattle.like_core.specs.declared.worker_state.WorkerState.TheVariants.{Gone};
ghost use Rattle.like_crew.specs.Server.{ServerGoesOn};
ghost use Rattle.like_run.specs.Threads.{Keeps};

use crate::threads::shared::Shared;
use like_board::{BoardPost, WorkerSeat};
use like_core::Post;
use like_crew::Server;
use like_promises::WorkerLog;
use like_queue::{TakeEnd, TakeWith, hear};
use like_roles::{Gate, Turn};
use std::snapshot::Snapshot;
use std::sync::{OnceLock, OnceToken, Wait};
use std::thread::Promise;

// How often a worker looks into each of its inboxes, and finds nothing, before it waits.
const LOOKS: usize = 32;

/// What a worker's thread ends with.
#[derive(Drop)]
pub enum Served<'a> {
    /// The worker is gone: what it has done, and its seat.
    Left(WorkerLog, WorkerSeat),
    /// It was told to end: its seat, as it was when the thread began.
    Stopped(OnceToken<'a, bool>, WorkerSeat),
}

/// What is promised of that: the server that the thread begins with, and the lock that tells it to go on or to end.
#[derive(Drop)]
pub struct Owes<'a> {
    pub server: Snapshot<Server<BoardPost<'a>, TakeEnd<'a>>>,
    pub start: &'a OnceLock<bool>,
}

impl<'a> Promise<Served<'a>> for Owes<'a> {
    ghost use Rattle.like_run.specs.Threads.{Keeps};

    ghost kept_by = { λ p served. Keeps p.start.now.id p.server.value served };
}

/// A worker's thread: it waits until all threads were started, and then makes the worker's turns until it is gone.
pub fn serve<'a, R: Wait, G: Gate>(
    shared: &Shared<'a, R, G>,
    worker: usize,
    server: Server<BoardPost<'_>, TakeEnd<'_>>,
) -> Served<'a>
    ensures { Keeps shared.now.start.now.id server.entry result }
{
    let token = hear(shared.rt, shared.start);
    if !*shared.start.value(&token) {
        return Served::Stopped(token, server.leave().back());
    }
    let mut server = server;
    make_turns(shared, worker, &mut server);
    shared.parkers.answer();
    let (log, post) = server.finish();
    Served::Left(log, post.back())
}

// Makes turns until the worker is gone. It waits where it has nothing to do in its phase, and where it found nothing in
// `LOOKS` turns for each of its inboxes.
fn make_turns<R: Wait, G: Gate, P: Post, I: TakeWith<R>>(
    shared: &Shared<'_, R, G>,
    worker: usize,
    server: &mut Server<P, I>,
)
    ensures goes_on { ServerGoesOn server.old server.new }
    ensures gone { server.new.worker.post.state ≡ Gone }
{
    let most = server.inbox_count().saturating_mul(LOOKS);
    let mut tries = most;
    for _ in shared.rt.forever() {
        match server.turn(shared.rt, shared.gate) {
            Turn::Retired => return,
            Turn::Nothing if tries > 1 => tries -= 1,
            Turn::Waiting | Turn::Nothing => {
                shared.parkers.wait(shared.rt, worker);
                tries = most;
            }
            Turn::Idle => shared.parkers.idle(shared.rt, worker),
            Turn::Acknowledged | Turn::Reported => shared.parkers.answer(),
            _ => tries = most,
        }
    }
    unreachable!()
}
