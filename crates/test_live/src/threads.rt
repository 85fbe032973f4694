//! A service whose seats and driver are each called by a thread, and which is then closed. What they end with is the
//! same on every schedule.
ghost use Rattle.like_live.specs.Driver.{IsSameDriver};
ghost use Rattle.like_live.specs.LiveView.{IsSameSeat};

use crate::asserts::assert_same;
use crate::ends::{Host, closes};
use crate::services::opened;
use like_board::SharedPost;
use like_choice::Guided;
use like_live::{Driver, DriverAnswer, End, LikeAnswer, LiveSeat, LookAnswer, TurnAnswer};
use std::process::Abort;
use std::test::Fail;
use std::thread::{Threads, join_mut, yield_now};

// How many likes a seat's thread makes.
const LIKES: u64 = 10_000;

/// More calls than any schedule needs.
pub const CALLS: u64 = 1 << 40;

// What a seat's thread did: its likes, and how many looks waited and were found. `in_turn` says that each found look
// had the next tag of those that waited.
#[derive(Clone, Copy)]
struct Done {
    liked: u64,
    waited: u64,
    found: u64,
    in_turn: bool,
}

impl Done {
    // A like, and then a look whose tag says how many have waited before.
    fn like_and_look(&mut self, seat: &mut LiveSeat<SharedPost>, user: u32)
        ensures { IsSameSeat seat.old seat.new }
    {
        if seat.like(user, 0) != LikeAnswer::Liked {
            return;
        }
        self.liked = self.liked.saturating_add(1);
        if seat.look(user, 0, self.waited) == LookAnswer::Waits {
            self.waited = self.waited.saturating_add(1);
        }
    }

    // Asserts that it made all its likes, and that each look that waited was found in its turn.
    fn assert_all(&self, rt: &impl Abort, case: &str) {
        let came = (self.liked, self.found, self.in_turn);
        assert_same(rt, case, came, (LIKES, self.waited, true));
    }

    // Takes a found look, if there is one.
    fn take(&mut self, seat: &mut LiveSeat<SharedPost>)
        ensures { IsSameSeat seat.old seat.new }
    {
        if let Some(found) = seat.take_found() {
            self.in_turn = self.in_turn && found.asked.tag == self.found;
            self.found = self.found.saturating_add(1);
        }
    }
}

// A seat's thread.
fn work_at(seat: &mut LiveSeat<SharedPost>, user: u32) -> Done
    ensures { IsSameSeat seat.old seat.new }
{
    let mut done = Done {
        liked: 0,
        waited: 0,
        found: 0,
        in_turn: true,
    };
    for _ in 0..CALLS {
        if done.liked < LIKES {
            done.like_and_look(seat, user);
        } else if seat.retire() == TurnAnswer::Gone {
            break;
        }
        done.take(seat);
    }
    done.take(seat);
    done.take(seat);
    done
}

/// The driver's thread. Between two turns it lets a seat's thread work, where they share a processor.
pub fn drive(driver: &mut Driver<Guided>)
    ensures { IsSameDriver driver.old driver.new }
{
    for _ in 0..CALLS {
        if driver.turn(End::IfItServes) == DriverAnswer::Ended {
            break;
        }
        yield_now();
    }
}

// Lets both seats work.
fn work_both(
    rt: &(impl Threads + Sync),
    first: &mut LiveSeat<SharedPost>,
    second: &mut LiveSeat<SharedPost>,
) -> (Done, Done)
    ensures first { IsSameSeat first.old first.new }
    ensures second { IsSameSeat second.old second.new }
{
    join_mut(rt, &mut || work_at(first, 0), &mut || work_at(second, 1))
}

/// Lets the driver and both seats work in threads, until both seats are gone.
pub fn works(
    rt: &(impl Abort + Threads + Sync),
    driver: &mut Driver<Guided>,
    first: &mut LiveSeat<SharedPost>,
    second: &mut LiveSeat<SharedPost>,
)
    ensures driver { IsSameDriver driver.old driver.new }
    ensures first { IsSameSeat first.old first.new }
    ensures second { IsSameSeat second.old second.new }
{
    let (_, (by_first, by_second)) = join_mut(
        rt,
        &mut || drive(driver),
        &mut || work_both(rt, first, second),
    );
    by_first.assert_all(rt, "what seat 0 did");
    by_second.assert_all(rt, "what seat 1 did");
}

#[test]
fn live_threads(rt: HostRuntime) -> Result<(), Fail> {
    let end = closes(&rt, opened(rt.alloc(), 2, 2)?, Host::Threads);
    assert_same(&rt, "the end of a service", end, (true, [20_010, 20]));
    Ok(())
}
