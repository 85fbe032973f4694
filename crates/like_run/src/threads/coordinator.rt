ghost use Rattle.std.specs.Prelude.{◌≡◌, ◌≤◌, true, [], All, length, map, vec_capacity};
ghost use Rattle.like_roles.specs.coordinator.CoordTurns.{CoordinatorGoesOn, HasEndedJoined};
ghost use Rattle.like_crew.specs.Ended.{HaveLeft};

use crate::threads::pace::Pace;
use crate::threads::worker::{Owes, Served};
use like_board::WorkerSeat;
use like_crew::CoordinatorAt;
use like_promises::WorkerLog;
use like_queue::Parkers;
use like_roles::CoordTurn;
use std::sync::{OnceToken, Wait};
use std::thread::{PromisedHandle, Threads};

// How many microseconds it pauses for each wait for a release.
const FOR_WAIT: u64 = 50;

/// Makes the coordinator's turns until it finds the run ended. A change of phase keeps workers from their requests, so
/// after a release it pauses as often as it waited for that release.
pub fn coordinate<R: Wait>(rt: &R, parkers: &Parkers, coordinator: &mut CoordinatorAt<'_>)
    ensures goes_on { CoordinatorGoesOn coordinator.old coordinator.new }
    ensures ended { HasEndedJoined coordinator.new }
{
    let mut pace = Pace::new();
    let mut waits = 0u32;
    for _ in rt.forever() {
        match coordinator.turn() {
            CoordTurn::Ended => return,
            CoordTurn::Counted | CoordTurn::Stays => pace.count(rt, parkers),
            CoordTurn::Announced => {
                parkers.wake_all();
                pace.begin();
                waits = 0;
            }
            CoordTurn::Waiting => {
                parkers.wait_for_answers(rt);
                waits = waits.saturating_add(1);
            }
            CoordTurn::Released => {
                parkers.wake_all();
                rest(rt, parkers, waits);
            }
        }
    }
    unreachable!()
}

// Pauses this many times.
fn rest<R: Wait>(rt: &R, parkers: &Parkers, times: u32) {
    for _ in 0..times {
        parkers.pause(rt, FOR_WAIT);
    }
}

/// Joins all threads, in order, which were told to go on, and gathers the logs and the seats that they end with.
pub fn join_all<'s, R: Threads>(
    rt: &R,
    threads: Vec<PromisedHandle<Served<'s>, Owes<'s>>>,
    go: &OnceToken<'s, bool>,
    logs: &mut Vec<WorkerLog>,
    seats: &mut Vec<WorkerSeat>,
)
    requires goes { go.now.value ≡ true }
    requires told { All (λ thread. thread.promise.start.now.id ≡ go.now.of) threads.items }
    requires logs { (logs.old.items ≡ []) × (length threads.items ≤ vec_capacity logs.old) }
    requires seats { (seats.old.items ≡ []) × (length threads.items ≤ vec_capacity seats.old) }
    ensures { let first = map (λ thread. thread.promise.server.value) threads.entry.items in
        HaveLeft first logs.new.items seats.new.items }
{
    for thread in threads {
        match thread.join(rt) {
            Served::Left(log, seat) => {
                logs.push_reserved(log);
                seats.push_reserved(seat);
            }
            Served::Stopped(token, _) => {
                go.agrees(&token);
                unreachable!()
            }
        }
    }
}
