//! One thread that plays a host: it makes the calls of each scene.
use crate::asserts::{At, assert_at};
use crate::scenes::{Calls, OnDriver, OnSeat, Step, UNANSWERED, scenes};
use crate::services::opened;
use like_board::SharedPost;
use like_choice::Choice;
use like_live::{Answer, Call, Driver, LiveSeat, Service};
use std::process::Abort;
use std::test::Fail;

// Runs a batch, and asserts how many of its calls are made, and the answers after it.
fn runs(
    rt: &impl Abort,
    at: At<'_>,
    seat: &mut LiveSeat<SharedPost>,
    calls: &[Call; 5],
    made: usize,
    wanted: &[Answer; 5],
) {
    let mut answers = [UNANSWERED; 5];
    let ran = seat.run(calls, &mut answers);
    assert_at(rt, at, (ran, answers), (made, *wanted));
}

// The last likes of a seat's first two users, if it has two.
fn first_two(seat: &LiveSeat<SharedPost>) -> Option<[u32; 2]> {
    if !seat.has_users(0, 2) {
        return None;
    }
    let mut lasts = [0, 0];
    seat.lasts(0, &mut lasts);
    Some(lasts)
}

// Makes a call of a seat, and asserts that it is answered as it says.
fn asks_seat(rt: &impl Abort, at: At<'_>, seat: &mut LiveSeat<SharedPost>, call: OnSeat) {
    match call {
        OnSeat::Like(user, page, wanted) => assert_at(rt, at, seat.like(user, page), wanted),
        OnSeat::Look(user, page, tag, wanted) => {
            assert_at(rt, at, seat.look(user, page, tag), wanted);
        }
        OnSeat::Glance(user, page, wanted) => assert_at(rt, at, seat.glance(user, page), wanted),
        OnSeat::Turn(wanted) => assert_at(rt, at, seat.turn(), wanted),
        OnSeat::Retire(wanted) => assert_at(rt, at, seat.retire(), wanted),
        OnSeat::ComeBack(wanted) => assert_at(rt, at, seat.come_back(), wanted),
        OnSeat::TakeFound(wanted) => assert_at(rt, at, seat.take_found(), wanted),
        OnSeat::FirstTwo(wanted) => assert_at(rt, at, first_two(seat), wanted),
        OnSeat::Last(user, wanted) => assert_at(rt, at, seat.last(user), wanted),
        OnSeat::Run(calls, made, wanted) => runs(rt, at, seat, calls, made, wanted),
        OnSeat::LikeRow(likes, wanted) => assert_at(rt, at, seat.like_row(likes), wanted),
        OnSeat::Phase(wanted) => assert_at(rt, at, seat.phase(), wanted),
    }
}

// The phase of a snapshot, if there is one, and the counts behind it. None if there aren't two pages.
fn snapshot<C: Choice>(driver: &mut Driver<C>) -> Option<(Option<u64>, [u64; 2])> {
    if driver.pages() != 2 {
        return None;
    }
    let mut counts = [0, 0];
    let phase = driver.snapshot(0, &mut counts);
    Some((phase, counts))
}

/// Whether the last counts are written, and the counts behind it. None if there aren't two pages.
pub fn last_counts<C: Choice>(driver: &mut Driver<C>) -> Option<(bool, [u64; 2])> {
    if driver.pages() != 2 {
        return None;
    }
    let mut counts = [0, 0];
    let are_written = driver.last_counts(0, &mut counts);
    Some((are_written, counts))
}

// How many pages are split, or were in the last split phase, and the first of them.
fn split_pages<C: Choice>(driver: &Driver<C>) -> (usize, u32) {
    let mut pages = [0; 64];
    let many = driver.split_pages(&mut pages);
    (many, pages[0])
}

// Makes a call of a driver, and asserts that it is answered as it says.
fn asks_driver<C: Choice>(rt: &impl Abort, at: At<'_>, driver: &mut Driver<C>, call: OnDriver) {
    match call {
        OnDriver::Turn(end, wanted) => assert_at(rt, at, driver.turn(end), wanted),
        OnDriver::Snapshot(phase, counts) => {
            assert_at(rt, at, snapshot(driver), Some((phase, counts)));
        }
        OnDriver::LastCounts(are_written, counts) => {
            assert_at(rt, at, last_counts(driver), Some((are_written, counts)));
        }
        OnDriver::Splits(page) => assert_at(rt, at, split_pages(driver), (1, page)),
        OnDriver::Phase(wanted) => assert_at(rt, at, driver.phase(), wanted),
    }
}

// Makes a call, and asserts that it is answered as the step says.
fn asks<C: Choice>(rt: &impl Abort, at: At<'_>, service: &mut Service<C>, step: Step) {
    match step {
        Step::Driver(call) => asks_driver(rt, at, &mut service.driver, call),
        Step::Seat(seat, call) => match service.seats.get_mut(seat) {
            Some(seat) => asks_seat(rt, at, seat, call),
            None => assert_at(rt, at, None, Some(seat)),
        },
    }
}

// Makes the calls of a part.
fn plays_part<C: Choice>(
    rt: &impl Abort,
    name: &str,
    part: usize,
    service: &mut Service<C>,
    steps: &[Step],
) {
    for (step, call) in steps.iter().enumerate() {
        asks(rt, At { name, part, step }, service, *call);
    }
}

/// Makes calls, and asserts that each is answered as its step says.
pub fn plays<C: Choice>(rt: &impl Abort, service: &mut Service<C>, calls: &Calls) {
    for (part, steps) in calls.parts.iter().enumerate() {
        plays_part(rt, calls.name, part, service, steps);
    }
}

#[test]
fn plays_each_scene(rt: HostRuntime) -> Result<(), Fail> {
    for scene in scenes() {
        let mut service = opened(rt.alloc(), scene.seats, scene.room)?;
        plays(&rt, &mut service, &scene.calls);
        drop(service);
    }
    Ok(())
}
