//! The end of a service, whose driver and seats a host hands back together.
ghost use Rattle.std.specs.Prelude.{◌≡◌, ◌≤◌, [], All, IfErr, IfOk, List, None, Some, length, map, vec_capacity};
ghost use Rattle.like_live.specs.LiveView.{LiveView};
ghost use Rattle.like_live.specs.Service.{AreGone, AreItsSeats, IsClosedService};
ghost use Rattle.like_c.specs.Closes.{AreHeldBy, HoldsGone, PreventEnd, PreventsEnd, home_of};

use crate::opened::{BoxedSeat, Opened, live_of};
use crate::seat_handle::SeatHandle;
use crate::status;
use like_board::SharedPost;
use like_live::{LiveSeat, Service};
use std::alloc::Global;

// Whether the seats in these handles are all of the driver's, in order, and gone; or a status that says what is wrong
// with the first that isn't.
pub(crate) fn check_seats(opened: &Opened, seats: &mut [SeatHandle]) -> Result<(), u32>
    ensures gone { IfOk result (λ _. All HoldsGone seats.old) }
    ensures room { IfOk result (λ _. length seats.old ≤ vec_capacity opened.now.back) }
    ensures refused { IfErr result (PreventEnd opened.now seats.old) }
    ensures same { map home_of seats.new ≡ map home_of seats.old }
{
    if seats.len() != opened.back.capacity() {
        return Err(status::WRONG_SEATS);
    }
    for i in 0..seats.len() {
        check_seat(opened, &mut seats[i], i)?;
    }
    Ok(())
}

// Checks that the seat with this number is gone.
fn check_seat(opened: &Opened, seat: &mut SeatHandle, number: usize) -> Result<(), u32>
    ensures gone { IfOk result (λ _. HoldsGone seat.old) }
    ensures refused { IfErr result (PreventsEnd seat.old) }
    ensures same { seat.new.home ≡ seat.old.home }
{
    let Some(boxed) = seat.get() else {
        return Err(status::EMPTY);
    };
    if !is_its(opened, boxed, number) {
        return Err(status::WRONG_SEATS);
    }
    if !boxed.live.is_gone() {
        return Err(status::NOT_ENDED);
    }
    Ok(())
}

// Whether this is the driver's seat with this number. No clause says so: the kit has no proved test of whose it is.
fn is_its(opened: &Opened, boxed: &BoxedSeat, number: usize) -> bool {
    opened.driver.has_seat(&boxed.live) && boxed.live.users().worker() as usize == number
}

// Takes the seats out of full handles.
fn take_all(alloc: Global, seats: &mut [SeatHandle], back: &mut Vec<LiveSeat<SharedPost>>)
    requires gone { All HoldsGone seats.old }
    requires none { back.old.items ≡ [] }
    requires room { length seats.old ≤ vec_capacity back.old }
    ensures taken { AreHeldBy seats.old back.new.items }
    ensures gone { AreGone back.new.items }
    ensures left { All (λ h. h.home ≡ None) seats.new }
{
    for i in 0..seats.len() {
        if let Some(boxed) = seats[i].take(alloc) {
            back.push_reserved(live_of(Box::into_inner(boxed)));
        }
    }
}

// Ends the service of a driver and of the seats in these handles, which it empties.
pub(crate) fn end(alloc: Global, opened: Opened, seats: &mut [SeatHandle], counts: &mut [u64])
    requires whole { (lives : List LiveView) → AreHeldBy seats.old lives → AreItsSeats opened.driver lives }
    requires gone { All HoldsGone seats.old }
    requires room { length seats.old ≤ vec_capacity opened.back }
    requires places { length counts.old ≡ length opened.driver.lead.seat.opening.counts }
    ensures closed { (lives : List LiveView) × AreHeldBy seats.old lives × AreGone lives
        × IsClosedService opened.driver lives counts.new }
    ensures left { All (λ h. h.home ≡ None) seats.new }
{
    let Opened {
        driver,
        mut back,
        ..
    } = opened;
    back.clear();
    take_all(alloc, seats, &mut back);
    let service = Service {
        driver,
        seats: back,
    };
    match service.close(counts) {
        Ok(()) => {}
        Err(_not_gone) => unreachable!(),
    }
}
