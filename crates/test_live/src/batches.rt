//! A batch that the end of a phase cuts short: a thread runs batches while another ends phases.
use crate::asserts::assert_same;
use crate::play::last_counts;
use crate::scenes::UNANSWERED;
use crate::services::opened;
use crate::threads::{CALLS, drive};
use like_board::SharedPost;
use like_choice::Guided;
use like_live::{Call, Driver, LiveSeat, TurnAnswer};
use std::process::Abort;
use std::test::Fail;
use std::thread::{Threads, join_mut};

// How many likes a batch has.
const LENGTH: usize = 64;

// Runs batches up to one that is cut short after its first call. Says how many likes were made.
fn likes_until_cut(seat: &mut LiveSeat<SharedPost>) -> u64 {
    let calls = [Call::Like { user: 0, page: 0 }; LENGTH];
    let mut answers = [UNANSWERED; LENGTH];
    let mut liked = 0u64;
    for _ in 0..CALLS {
        let made = seat.run(&calls, &mut answers);
        liked = liked.saturating_add(made as u64);
        if 0 < made && made < LENGTH {
            break;
        }
    }
    liked
}

// Retires, as soon as it may.
fn leave(seat: &mut LiveSeat<SharedPost>) {
    for _ in 0..CALLS {
        if seat.retire() == TurnAnswer::Gone {
            break;
        }
    }
}

// The seat's thread.
fn work(seat: &mut LiveSeat<SharedPost>) -> u64 {
    let liked = likes_until_cut(seat);
    leave(seat);
    liked
}

// A service of one seat.
fn cut(
    rt: &(impl Abort + Threads + Sync),
    seats: &mut [LiveSeat<SharedPost>],
    driver: &mut Driver<Guided>,
) -> u64 {
    let [seat] = seats else {
        panic!(rt; "not one seat");
    };
    let (_, liked) = join_mut(rt, &mut || drive(driver), &mut || work(seat));
    liked
}

// Each like that a batch says it made is counted, and no other.
#[test]
fn a_batch_is_cut(rt: HostRuntime) -> Result<(), Fail> {
    let mut service = opened(rt.alloc(), 1, 2)?;
    let liked = cut(&rt, &mut service.seats, &mut service.driver);
    let total = liked.saturating_add(10);
    let last = last_counts(&mut service.driver);
    drop(service);
    let wanted = Some((true, [total, 20]));
    assert_same(&rt, "the likes of a batch that is cut", last, wanted);
    Ok(())
}
