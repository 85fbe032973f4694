//! The end of a service, with all its seats.
ghost use Rattle.like_live.specs.Driver.{IsSameDriver};
ghost use Rattle.like_live.specs.LiveView.{IsSameSeat};
ghost use Rattle.like_live.specs.Service.{AreItsSeats};

use crate::asserts::assert_same;
use crate::services::{closed, opened};
use crate::threads::works;
use like_board::SharedPost;
use like_choice::Guided;
use like_live::{Driver, DriverAnswer, End, LikeAnswer, LiveSeat, Service, TurnAnswer};
use std::process::Abort;
use std::test::Fail;
use std::thread::Threads;

// Makes a turn of a driver, which ends a phase or releases the next.
fn drives(rt: &impl Abort, driver: &mut Driver<Guided>, wanted: DriverAnswer)
    ensures { IsSameDriver driver.old driver.new }
{
    let answer = driver.turn(End::IfItServes);
    assert_same(rt, "a driver's turn", answer, wanted);
}

// Answers a phase that ends.
fn answers(rt: &impl Abort, seat: &mut LiveSeat<SharedPost>)
    ensures { IsSameSeat seat.old seat.new }
{
    let answer = seat.turn();
    assert_same(rt, "a seat's turn", answer, TurnAnswer::Between);
}

// Ends a phase, which both seats answer, and releases the next.
fn change(
    rt: &impl Abort,
    driver: &mut Driver<Guided>,
    first: &mut LiveSeat<SharedPost>,
    second: &mut LiveSeat<SharedPost>,
)
    ensures driver { IsSameDriver driver.old driver.new }
    ensures first { IsSameSeat first.old first.new }
    ensures second { IsSameSeat second.old second.new }
{
    drives(rt, driver, DriverAnswer::Announced);
    answers(rt, first);
    answers(rt, second);
    drives(rt, driver, DriverAnswer::Released);
}

/// A like of page 0.
pub fn likes(rt: &impl Abort, seat: &mut LiveSeat<SharedPost>, user: u32)
    ensures { IsSameSeat seat.old seat.new }
{
    let answer = seat.like(user, 0);
    assert_same(rt, "a like", answer, LikeAnswer::Liked);
}

fn retires(rt: &impl Abort, seat: &mut LiveSeat<SharedPost>)
    ensures { IsSameSeat seat.old seat.new }
{
    let answer = seat.retire();
    assert_same(rt, "a seat that retires", answer, TurnAnswer::Gone);
}

// Two split phases with likes of both seats. Then both retire.
fn plays(
    rt: &impl Abort,
    driver: &mut Driver<Guided>,
    first: &mut LiveSeat<SharedPost>,
    second: &mut LiveSeat<SharedPost>,
)
    ensures driver { IsSameDriver driver.old driver.new }
    ensures first { IsSameSeat first.old first.new }
    ensures second { IsSameSeat second.old second.new }
{
    likes(rt, first, 0);
    change(rt, driver, first, second);
    likes(rt, first, 2);
    likes(rt, second, 1);
    change(rt, driver, first, second);
    retires(rt, first);
    retires(rt, second);
}

/// Who plays a service: one thread, or a thread for the driver and for each seat.
#[derive(Clone, Copy)]
pub enum Host {
    Alone,
    Threads,
}

fn hosts(
    rt: &(impl Abort + Threads + Sync),
    host: Host,
    driver: &mut Driver<Guided>,
    first: &mut LiveSeat<SharedPost>,
    second: &mut LiveSeat<SharedPost>,
)
    ensures driver { IsSameDriver driver.old driver.new }
    ensures first { IsSameSeat first.old first.new }
    ensures second { IsSameSeat second.old second.new }
{
    match host {
        Host::Alone => plays(rt, driver, first, second),
        Host::Threads => works(rt, driver, first, second),
    }
}

/// Plays a service, and closes it with its two seats in the other order.
pub fn closes(
    rt: &(impl Abort + Threads + Sync),
    service: Service<Guided>,
    host: Host,
) -> (bool, [u64; 2])
    requires { AreItsSeats service.driver service.seats.items }
{
    let Service {
        mut driver,
        mut seats,
    } = service;
    let mut second = seats.pop().expect(rt, "a seat");
    let mut first = seats.pop().expect(rt, "a seat");
    if !seats.is_empty() {
        panic!(rt; "more than two seats");
    }
    hosts(rt, host, &mut driver, &mut first, &mut second);
    seats.push_reserved(second);
    seats.push_reserved(first);
    closed(rt, Service { driver, seats })
}

#[test]
fn closes_a_service(rt: HostRuntime) -> Result<(), Fail> {
    let end = closes(&rt, opened(rt.alloc(), 2, 2)?, Host::Alone);
    assert_same(&rt, "the end of a service", end, (true, [13, 20]));
    Ok(())
}
