//! What a service takes is given back where its seats and its driver are dropped, in each order. No contract says so.
use crate::ends::likes;
use crate::services::opened;
use like_board::SharedPost;
use like_choice::Guided;
use like_live::{LiveSeat, Service};
use std::alloc::Global;
use std::fs;
use std::process::Abort;
use std::rt::Files;
use std::test::Fail;

// How many services are opened. A block that each of them kept would take 32 bytes or more.
const SERVICES: usize = 5_000;

// At the end, the process must have fewer than this many more pages of memory.
const PAGES: usize = 32;

// The last seat likes, and all are dropped, that one first.
fn drops_seats(rt: &impl Abort, mut seats: Vec<LiveSeat<SharedPost>>) {
    let mut seat = seats.pop().expect(rt, "a seat");
    likes(rt, &mut seat, 1);
    drop(seat);
    drop(seats);
}

// Drops the driver first, or the seats.
fn drops(rt: &impl Abort, service: Service<Guided>, is_driver_first: bool) {
    let Service { driver, seats } = service;
    if is_driver_first {
        drop(driver);
        drops_seats(rt, seats);
    } else {
        drops_seats(rt, seats);
        drop(driver);
    }
}

// Opens this many services of two seats, one after another, and drops them.
fn opens_and_drops(rt: &impl Abort, alloc: Global, services: usize) -> Result<(), Fail> {
    for service in 0..services {
        drops(rt, opened(alloc, 2, 2)?, service % 2 == 0);
    }
    Ok(())
}

// The first number of a text.
fn first_number(text: &str) -> Result<usize, Fail> {
    let first = text.split(' ').next().ok_or("no number")?;
    Ok(first.parse::<usize>()?)
}

// The pages of memory that this process has: the first number that the system tells of it.
fn pages(rt: &(impl Files + Alloc)) -> Result<usize, Fail> {
    let told = fs::read_to_string(rt, "/proc/self/statm")?;
    first_number(&told)
}

#[test]
fn memory_is_given_back(rt: HostRuntime) -> Result<(), Fail> {
    opens_and_drops(&rt, rt.alloc(), 1)?;
    let before = pages(&rt)?;
    opens_and_drops(&rt, rt.alloc(), SERVICES)?;
    let more = pages(&rt)?.saturating_sub(before);
    assert!(rt; more < PAGES, "{more} pages were kept");
    Ok(())
}
