//! The live core for C. Each export calls the function of `like_live` that it is named for, and tests every number
//! first. include/likes.h has the same calls as C sees them, with the rules for a host.
#![tactic(auto)]

ghost use Rattle.std.specs.Prelude.{◌≡◌, ◌<◌, ◌≤◌, ℕ, length, slice_get, None, ⊤};
ghost use Rattle.like_seat.specs.StationView.{phase_at};
ghost use Rattle.like_shared.specs.declared.deed.DriverDeed.TheVariants.{LastCounts, Propose, Snapshot, SplitPages};
ghost use Rattle.like_shared.specs.declared.deed.SeatDeed.TheVariants.{ComeBack, Glance, Last, Lasts, Like, Look, Retire, TakeFound, Turn};
ghost use Rattle.like_c.specs.Asks.{Asks, AsksCounts, At, HandsOut, TellsLastLike, TellsList, TellsSplit, Turns, end_of};
ghost use Rattle.like_c.specs.Closes.{ClosesAt, HoldItsSeats};
ghost use Rattle.like_c.specs.Held.{CallsOpened, CallsSeat, RunsAt, TakesPhase, TakesSeat, TellsIfFound, pages_in};
ghost use Rattle.like_c.specs.Opened.{IsOpenedAs, OpensAt};
ghost use Rattle.like_c.specs.Rows.{HasRow, glance_row, look_row};
ghost use Rattle.like_c.specs.Status.{HasStatus, done_status, driver_status, last_status, lasts_status, like_status, ok, snapshot_status, turn_status, version};

mod address_row;
mod boxed_client;
mod boxed_shared;
mod client_calls;
mod client_handle;
mod client_run;
mod closing;
mod driver_handle;
mod opened;
mod parts;
mod phase_handle;
mod phase_row;
mod request_run;
mod rows;
mod seat_handle;
mod shared_calls;
mod shared_handle;
mod status;

use crate::closing::{check_seats, end};
use crate::opened::Opened;
pub use client_handle::ClientHandle;
pub use driver_handle::DriverHandle;
use like_live::End;
pub use phase_handle::PhaseHandle;
use rows::page_or_none;
pub use rows::{AnswerRow, FoundRow, Options, RequestRow, rows_are_laid_out};
pub use seat_handle::SeatHandle;
pub use shared_handle::SharedHandle;
use std::alloc::Global;

/// 1,000 times the number of the ABI, plus a number within it.
const VERSION: u32 = 6;

/// The version of `likes.h` that the library has.
#[unsafe(no_mangle)]
pub extern "C" fn likes_version() -> u32
    ensures { result ≡ version }
{
    VERSION
}

/// Opens a service. The driver's handle has to be empty, and is full after `OK`.
#[unsafe(no_mangle)]
pub extern "C" fn likes_proved_open(
    alloc: Global,
    options: &Options,
    counts: &[u64],
    marks: &[u32],
    lasts: &[u32],
    driver: &mut DriverHandle,
) -> u32
    ensures { OpensAt IsOpenedAs options.now counts.now marks.now lasts.now driver.old.home result driver.new.home }
{
    if driver.is_full() {
        return status::IN_USE;
    }
    if !options.is_unreserved() {
        return status::WRONG_RESERVED;
    }
    match Opened::new(alloc, options, counts, marks, lasts) {
        Ok(opened) => {
            driver.put(opened);
            status::OK
        }
        Err(error) => status::of_open(error),
    }
}

/// Hands out the next seat. All boxes were made by `likes_proved_open`: this takes no memory.
#[unsafe(no_mangle)]
pub extern "C" fn likes_driver_take_seat(driver: &mut DriverHandle, seat: &mut SeatHandle) -> u32
    ensures { HandsOut TakesSeat driver.old.home seat.old.home result driver.new.home seat.new.home }
{
    if seat.is_full() {
        return status::IN_USE;
    }
    let Some(opened) = driver.get() else {
        return status::EMPTY;
    };
    match opened.seats.pop() {
        Some(taken) => {
            seat.put(taken);
            status::OK
        }
        None => status::ALL_TAKEN,
    }
}

/// Hands out the phase, once.
#[unsafe(no_mangle)]
pub extern "C" fn likes_driver_take_phase(driver: &mut DriverHandle, phase: &mut PhaseHandle) -> u32
    ensures { HandsOut (λ told o p. TakesPhase told o.phase p.phase × (p ≡ record o { phase = p.phase }))
        driver.old.home phase.old.home result driver.new.home phase.new.home }
{
    if phase.is_full() {
        return status::IN_USE;
    }
    let Some(opened) = driver.get() else {
        return status::EMPTY;
    };
    match opened.phase.take() {
        Some(taken) => {
            phase.put(taken);
            status::OK
        }
        None => status::ALL_TAKEN,
    }
}

#[unsafe(no_mangle)]
pub extern "C" fn likes_driver_turn(driver: &mut DriverHandle, end: u32) -> u32
    ensures { Asks (Turns CallsOpened (end_of end)) (HasStatus driver_status result) driver.old.home driver.new.home }
{
    let Some(opened) = driver.get() else {
        return status::EMPTY;
    };
    match end_of(end) {
        Some(end) => status::of_driver(opened.driver.turn(end)),
        None => status::UNKNOWN_END,
    }
}

// The end that this number names, if it names one.
pub(crate) fn end_of(end: u32) -> Option<End>
    ensures { result ≡ end_of end }
{
    match end {
        0 => Some(End::No),
        1 => Some(End::IfItServes),
        2 => Some(End::Always),
        _ => None,
    }
}

#[unsafe(no_mangle)]
pub extern "C" fn likes_proved_driver_snapshot(
    driver: &mut DriverHandle,
    from: u32,
    counts: &mut [u64],
) -> u32
    ensures counts { AsksCounts pages_in CallsOpened Snapshot snapshot_status driver.old.home from counts.old
        result counts.new driver.new.home }
    ensures len { length counts.new ≡ length counts.old }
{
    let Some(opened) = driver.get() else {
        return status::EMPTY;
    };
    if !opened.driver.has_pages(from, counts.len()) {
        return status::WRONG_RANGE;
    }
    match opened.driver.snapshot(from, counts) {
        Some(_) => status::COUNTED,
        None => status::NO_MOMENT,
    }
}

#[unsafe(no_mangle)]
pub extern "C" fn likes_driver_phase(driver: &mut DriverHandle) -> u64
    ensures { At (result ≡ 0) (λ o p. (result ≡ o.driver.lead.seat.phase) × (p ≡ o))
        driver.old.home driver.new.home }
{
    match driver.get() {
        Some(opened) => opened.driver.phase(),
        None => 0,
    }
}

/// The pages that are split in the present or last split phase, as many as there is room for. The answer is how many were
/// written.
#[unsafe(no_mangle)]
pub extern "C" fn likes_proved_driver_split_pages(
    driver: &mut DriverHandle,
    pages: &mut [u32],
) -> usize
    ensures pages { Asks (CallsOpened (SplitPages pages.new)) (TellsSplit pages.old pages.new result)
        driver.old.home driver.new.home }
    ensures len { length pages.new ≡ length pages.old }
{
    let Some(opened) = driver.get() else {
        return 0;
    };
    opened.driver.split_pages(pages)
}

/// Proposes these pages for slots from now on. If the list is empty, the service finds pages by sampling.
#[unsafe(no_mangle)]
pub extern "C" fn likes_proved_driver_propose(driver: &mut DriverHandle, pages: &[u32]) -> u32
    ensures { Asks (CallsOpened (λ _. Propose pages.now)) (HasStatus (done_status {A = ⊤}) result)
        driver.old.home driver.new.home }
{
    let Some(opened) = driver.get() else {
        return status::EMPTY;
    };
    opened.driver.propose(pages);
    status::OK
}

/// The last counts of the pages from `from` on, once all seats are gone in a joined phase. No seats are given back, so
/// no clause says whose likes they are.
#[unsafe(no_mangle)]
pub extern "C" fn likes_proved_driver_last_counts(
    driver: &mut DriverHandle,
    from: u32,
    counts: &mut [u64],
) -> u32
    ensures counts { AsksCounts pages_in CallsOpened LastCounts last_status driver.old.home from counts.old
        result counts.new driver.new.home }
    ensures len { length counts.new ≡ length counts.old }
{
    let Some(opened) = driver.get() else {
        return status::EMPTY;
    };
    if !opened.driver.has_pages(from, counts.len()) {
        return status::WRONG_RANGE;
    }
    if opened.driver.last_counts(from, counts) {
        status::COUNTED
    } else {
        status::NOT_ENDED
    }
}

/// Ends a service, whose driver and seats its host hands back together, all gone and in order, and writes each page's
/// last count. All handles are empty then. Otherwise nothing is done.
#[unsafe(no_mangle)]
pub extern "C" fn likes_proved_close(
    alloc: Global,
    driver: &mut DriverHandle,
    seats: &mut [SeatHandle],
    counts: &mut [u64],
) -> u32
    requires whole { HoldItsSeats driver.old.home seats.old }
    ensures { ClosesAt driver.old.home seats.old counts.old result counts.new driver.new.home seats.new }
{
    let Some(opened) = driver.get() else {
        return status::EMPTY;
    };
    if counts.len() != opened.driver.pages() as usize {
        return status::WRONG_PAGES;
    }
    if let Err(refused) = check_seats(opened, seats) {
        return refused;
    }
    match driver.take(alloc) {
        Some(opened) => end(alloc, Box::into_inner(opened), seats, counts),
        None => unreachable!(),
    }
    status::COUNTED
}

#[unsafe(no_mangle)]
pub extern "C" fn likes_proved_driver_free(alloc: Global, driver: &mut DriverHandle)
    ensures { driver.new.home ≡ None }
{
    drop(driver.take(alloc));
}

#[unsafe(no_mangle)]
pub extern "C" fn likes_proved_seat_like(seat: &mut SeatHandle, user: u32, page: u32) -> u32
    ensures { Asks (CallsSeat (Like user page)) (HasStatus like_status result) seat.old.home seat.new.home }
{
    let Some(boxed) = seat.get() else {
        return status::EMPTY;
    };
    status::of_like(boxed.live.like(user, page))
}

#[unsafe(no_mangle)]
pub extern "C" fn likes_proved_seat_look(
    seat: &mut SeatHandle,
    user: u32,
    page: u32,
    tag: u64,
    answer: &mut AnswerRow,
) -> u32
    ensures case { Asks (CallsSeat (Look user page tag)) (HasRow look_row answer.new) seat.old.home seat.new.home }
    ensures status { result ≡ answer.new.status }
{
    let Some(boxed) = seat.get() else {
        *answer = AnswerRow::of(status::EMPTY);
        return status::EMPTY;
    };
    *answer = AnswerRow::of_look(boxed.live.look(user, page, tag));
    answer.status
}

#[unsafe(no_mangle)]
pub extern "C" fn likes_proved_seat_glance(
    seat: &mut SeatHandle,
    user: u32,
    page: u32,
    answer: &mut AnswerRow,
) -> u32
    ensures case { Asks (CallsSeat (Glance user page)) (HasRow glance_row answer.new) seat.old.home seat.new.home }
    ensures status { result ≡ answer.new.status }
{
    let Some(boxed) = seat.get() else {
        *answer = AnswerRow::of(status::EMPTY);
        return status::EMPTY;
    };
    *answer = AnswerRow::of_glance(boxed.live.glance(user, page));
    answer.status
}

/// The page of a user's last like. A user who is refused leaves the number behind the pointer as it was.
#[unsafe(no_mangle)]
pub extern "C" fn likes_proved_seat_last(seat: &mut SeatHandle, user: u32, page: &mut u32) -> u32
    ensures { Asks (CallsSeat (Last user)) (TellsLastLike page.old result page.new)
        seat.old.home seat.new.home }
{
    let Some(boxed) = seat.get() else {
        return status::EMPTY;
    };
    match boxed.live.last(user) {
        Ok(last) => {
            *page = page_or_none(last);
            status::OK
        }
        Err(verdict) => status::of_verdict(verdict),
    }
}

/// The last likes of a seat's users from rank `from` on.
#[unsafe(no_mangle)]
pub extern "C" fn likes_proved_seat_lasts(
    seat: &mut SeatHandle,
    from: u32,
    pages: &mut [u32],
) -> u32
    ensures pages { Asks (CallsSeat (Lasts from pages.new)) (TellsList lasts_status ok pages.old result pages.new)
        seat.old.home seat.new.home }
    ensures len { length pages.new ≡ length pages.old }
{
    let Some(boxed) = seat.get() else {
        return status::EMPTY;
    };
    if !boxed.live.has_users(from, pages.len()) {
        return status::WRONG_RANGE;
    }
    boxed.live.lasts(from, pages);
    status::OK
}

#[unsafe(no_mangle)]
pub extern "C" fn likes_proved_seat_take_found(seat: &mut SeatHandle, found: &mut FoundRow) -> bool
    ensures { Asks (CallsSeat TakeFound) (TellsIfFound found.old result found.new)
        seat.old.home seat.new.home }
{
    let Some(boxed) = seat.get() else {
        return false;
    };
    match boxed.live.take_found() {
        Some(it) => {
            *found = FoundRow::of(it);
            true
        }
        None => false,
    }
}

/// Runs requests one by one. It stops at the first that is `BETWEEN` or `NO_ROOM`, whose answer has that status, and at
/// the end of the shorter array. Later answers are left as they were.
#[unsafe(no_mangle)]
pub extern "C" fn likes_proved_seat_run(
    seat: &mut SeatHandle,
    requests: &[RequestRow],
    answers: &mut [AnswerRow],
) -> usize
    ensures rows { RunsAt seat.old.home requests.now answers.old answers.new result seat.new.home }
    ensures requests { result ≤ length requests.now }
    ensures answers { result ≤ length answers.old }
    ensures rest { (i : ℕ) → result < i → slice_get answers.new i ≡ slice_get answers.old i }
{
    let Some(boxed) = seat.get() else {
        if let Some(first) = answers.first_mut() {
            *first = AnswerRow::of(status::EMPTY);
        }
        return 0;
    };
    boxed.live.run(requests, answers)
}

#[unsafe(no_mangle)]
pub extern "C" fn likes_proved_seat_turn(seat: &mut SeatHandle) -> u32
    ensures { Asks (CallsSeat Turn) (HasStatus turn_status result) seat.old.home seat.new.home }
{
    let Some(boxed) = seat.get() else {
        return status::EMPTY;
    };
    status::of_turn(boxed.live.turn())
}

#[unsafe(no_mangle)]
pub extern "C" fn likes_proved_seat_retire(seat: &mut SeatHandle) -> u32
    ensures { Asks (CallsSeat Retire) (HasStatus turn_status result) seat.old.home seat.new.home }
{
    let Some(boxed) = seat.get() else {
        return status::EMPTY;
    };
    status::of_turn(boxed.live.retire())
}

#[unsafe(no_mangle)]
pub extern "C" fn likes_proved_seat_come_back(seat: &mut SeatHandle) -> u32
    ensures { Asks (CallsSeat ComeBack) (HasStatus turn_status result) seat.old.home seat.new.home }
{
    let Some(boxed) = seat.get() else {
        return status::EMPTY;
    };
    status::of_turn(boxed.live.come_back())
}

#[unsafe(no_mangle)]
pub extern "C" fn likes_proved_seat_phase(seat: &mut SeatHandle) -> u64
    ensures { At (result ≡ 0) (λ s t. (result ≡ phase_at s.live.station) × (t ≡ s))
        seat.old.home seat.new.home }
{
    match seat.get() {
        Some(boxed) => boxed.live.phase(),
        None => 0,
    }
}

#[unsafe(no_mangle)]
pub extern "C" fn likes_proved_seat_free(alloc: Global, seat: &mut SeatHandle)
    ensures { seat.new.home ≡ None }
{
    drop(seat.take(alloc));
}

/// The phase that the driver released last. It only reads, so C may call it from several threads at once. Its contract
/// is of one call at a time: an export can't share what is behind a pointer (README.md).
#[unsafe(no_mangle)]
pub extern "C" fn likes_phase_now(phase: &mut PhaseHandle) -> u64
    ensures { At (result ≡ 0) (λ p q. q ≡ p) phase.old.home phase.new.home }
{
    match phase.get() {
        Some(boxed) => boxed.phase.get(),
        None => 0,
    }
}

#[unsafe(no_mangle)]
pub extern "C" fn likes_proved_phase_free(alloc: Global, phase: &mut PhaseHandle)
    ensures { phase.new.home ≡ None }
{
    drop(phase.take(alloc));
}
