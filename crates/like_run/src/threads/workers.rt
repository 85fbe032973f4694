ghost use Rattle.std.specs.Prelude.{◌≡◌, ◌≤◌, ◌<◌, true, [], All, IfSome, length, map, vec_capacity};
ghost use Rattle.like_run.specs.Threads.{Keeps};

use crate::threads::shared::Shared;
use crate::threads::worker::{Owes, Served, serve};
use like_board::BoardPost;
use like_crew::Server;
use like_queue::TakeEnd;
use like_roles::Gate;
use std::snapshot::Snapshot;
use std::sync::Wait;
use std::thread::{PromisedHandle, Scope, Threads};

/// Starts a thread for each server, in order, and says whether all could be started; more than `most` can't be.
pub fn start_workers<'s, E, R: Threads + Wait + Sync, G: Gate>(
    scope: &Scope<'s, E>,
    shared: &'s Shared<'s, R, G>,
    servers: Vec<Server<BoardPost<'s>, TakeEnd<'s>>>,
    threads: &mut Vec<PromisedHandle<Served<'s>, Owes<'s>>>,
    most: usize,
) -> bool
    requires none { threads.old.items ≡ [] }
    requires room { length servers.items ≤ vec_capacity threads.old }
    ensures told { All (λ thread. thread.promise.start.now.id ≡ shared.now.start.now.id)
        threads.new.items }
    ensures few { length threads.new.items ≤ most }
    ensures servers { result ≡ true
        → map (λ thread. thread.promise.server.value) threads.new.items ≡ servers.entry.items }
{
    for server in servers {
        let worker = threads.len();
        match start_worker(scope, shared, worker, server, most) {
            Some(thread) => threads.push_reserved(thread),
            None => return false,
        }
    }
    true
}

// Starts the thread of a server, unless there are `most` threads already.
fn start_worker<'s, E, R: Threads + Wait + Sync, G: Gate>(
    scope: &Scope<'s, E>,
    shared: &'s Shared<'s, R, G>,
    worker: usize,
    server: Server<BoardPost<'s>, TakeEnd<'s>>,
    most: usize,
) -> Option<PromisedHandle<Served<'s>, Owes<'s>>>
    ensures told { IfSome result (λ thread. thread.promise.start.now.id ≡ shared.now.start.now.id) }
    ensures few { IfSome result (λ thread. worker < most) }
    ensures server { IfSome result (λ thread. thread.promise.server.value ≡ server.entry) }
{
    if worker >= most {
        drop(server);
        return None;
    }
    let owes = Owes {
        server: Snapshot::of(&server),
        start: shared.start,
    };
    let thread = scope.spawn_with(
        owes,
        move || -> Served
            ensures { Keeps shared.entry.now.start.now.id server.entry result }
        { serve(shared, worker, server) },
    );
    thread.ok()
}
