//! The calls of a client for C. Each makes the call of `like_shared` that it is named for, at the seat that is named, or
//! tells that there is no such seat or that another thread has it.
ghost use Rattle.std.specs.Prelude.{◌≡◌, ◌<◌, ◌≤◌, ℕ, [], length, slice_get, ⊤};
ghost use denote.RawPtr.{Ptr};
ghost use Rattle.like_shared.specs.declared.deed.DriverDeed.TheVariants.{LastCounts, Propose, Snapshot, SplitPages};
ghost use Rattle.like_shared.specs.declared.deed.SeatDeed.TheVariants.{ComeBack, Glance, Last, Lasts, Like, Look, Retire, TakeFound, Turn};
ghost use Rattle.like_shared.specs.declared.deed.SeatDeed.TheVariants as deed;
ghost use Rattle.like_c.specs.Asks.{Asks, AsksCounts, TellsFound, TellsLastLike, TellsLikes, TellsList, TellsNumber, TellsSplit, Turns, end_of};
ghost use Rattle.like_c.specs.ClientRows.{ClientRuns};
ghost use Rattle.like_c.specs.Clients.{AtSeat, Calls, CallsDriver, CallsOne, Locks, Unlocks, pages_by};
ghost use Rattle.like_c.specs.Rows.{HasRow, glance_row, look_row};
ghost use Rattle.like_c.specs.Sharing.{ClosesClient};
ghost use Rattle.like_c.specs.Status.{HasStatus, done_status, driver_status, last_status, lasts_status, like_status, ok, snapshot_status, turn_status};

use crate::address_row::{Address, AddressRow};
use crate::client_handle::ClientHandle;
use crate::phase_row::PhaseRow;
use crate::rows::{AnswerRow, FoundRow, RequestRow, page_or_none};
use crate::{end_of, status};
use like_live::LikePair;
use like_shared::{
    ComeBackCall, DriverTurnCall, GlanceCall, LastCall, LastCountsCall, LastsRow, LikeCall,
    LikeRow, LookCall, ProposeCall, RetireCall, SnapshotCall, SplitPagesCall, TakeFoundCall,
    TurnCall,
};
use std::alloc::Global;

/// Parks a client, and empties its handle. Seats that it holds are given back.
#[unsafe(no_mangle)]
pub extern "C" fn likes_client_close(alloc: Global, client: &mut ClientHandle) -> u32
    ensures { ClosesClient client.old.home result client.new.home }
{
    let Some(boxed) = client.get() else {
        return status::EMPTY;
    };
    let Some(mut card) = boxed.enter() else {
        return status::BUSY;
    };
    match client.take(alloc) {
        Some(boxed) => Box::into_inner(boxed).park(&mut card),
        None => unreachable!(),
    }
    status::OK
}

#[unsafe(no_mangle)]
pub extern "C" fn likes_client_like(
    client: &mut ClientHandle,
    seat: u32,
    user: u32,
    page: u32,
) -> u32
    ensures { Asks (CallsOne seat (Like user page)) (HasStatus like_status result) client.old.home client.new.home }
{
    let Some(boxed) = client.get() else {
        return status::EMPTY;
    };
    status::of_told_like(boxed.call(seat, &LikeCall { user, page }))
}

#[unsafe(no_mangle)]
pub extern "C" fn likes_client_look(
    client: &mut ClientHandle,
    seat: u32,
    user: u32,
    page: u32,
    tag: u64,
    answer: &mut AnswerRow,
) -> u32
    ensures case { Asks (CallsOne seat (Look user page tag)) (HasRow look_row answer.new)
        client.old.home client.new.home }
    ensures status { result ≡ answer.new.status }
{
    let Some(boxed) = client.get() else {
        *answer = AnswerRow::of(status::EMPTY);
        return status::EMPTY;
    };
    *answer = AnswerRow::of_told_look(boxed.call(seat, &LookCall { user, page, tag }));
    answer.status
}

#[unsafe(no_mangle)]
pub extern "C" fn likes_client_glance(
    client: &mut ClientHandle,
    seat: u32,
    user: u32,
    page: u32,
    answer: &mut AnswerRow,
) -> u32
    ensures case { Asks (CallsOne seat (Glance user page)) (HasRow glance_row answer.new)
        client.old.home client.new.home }
    ensures status { result ≡ answer.new.status }
{
    let Some(boxed) = client.get() else {
        *answer = AnswerRow::of(status::EMPTY);
        return status::EMPTY;
    };
    *answer = AnswerRow::of_told_glance(boxed.call(seat, &GlanceCall { user, page }));
    answer.status
}

/// The page of a user's last like. If it isn't told, the number behind the pointer stays as it was.
#[unsafe(no_mangle)]
pub extern "C" fn likes_client_last(
    client: &mut ClientHandle,
    seat: u32,
    user: u32,
    page: &mut u32,
) -> u32
    ensures { Asks (CallsOne seat (Last user)) (TellsLastLike page.old result page.new)
        client.old.home client.new.home }
{
    let Some(boxed) = client.get() else {
        return status::EMPTY;
    };
    match boxed.call(seat, &LastCall { user }) {
        Ok(Ok(last)) => {
            *page = page_or_none(last);
            status::OK
        }
        Ok(Err(verdict)) => status::of_verdict(verdict),
        Err(refused) => refused,
    }
}

/// The last likes of a seat's users from rank `from` on.
#[unsafe(no_mangle)]
pub extern "C" fn likes_proved_client_lasts(
    client: &mut ClientHandle,
    seat: u32,
    from: u32,
    pages: &mut [u32],
) -> u32
    ensures { Asks (CallsOne seat (Lasts from pages.new)) (TellsList lasts_status ok pages.old result pages.new)
        client.old.home client.new.home }
{
    let Some(boxed) = client.get() else {
        return status::EMPTY;
    };
    status::of_told_lasts(boxed.row(seat, &LastsRow { from }, pages))
}

/// Runs requests one by one. It stops at the first that is `BETWEEN` or `NO_ROOM`, whose answer has that status, and at
/// the end of the shorter array. At a seat that is `BUSY` or an `UNKNOWN_SEAT` it does none, and the first answer has
/// that status. Later answers are left as they were.
#[unsafe(no_mangle)]
pub extern "C" fn likes_proved_client_run(
    client: &mut ClientHandle,
    seat: u32,
    requests: &[RequestRow],
    answers: &mut [AnswerRow],
) -> usize
    ensures rows { ClientRuns seat client.old.home requests.now answers.old answers.new result client.new.home }
    ensures requests { result ≤ length requests.now }
    ensures answers { result ≤ length answers.old }
    ensures rest { (i : ℕ) → result < i → slice_get answers.new i ≡ slice_get answers.old i }
{
    let Some(boxed) = client.get() else {
        if let Some(first) = answers.first_mut() {
            *first = AnswerRow::of(status::EMPTY);
        }
        return 0;
    };
    boxed.run(seat, requests, answers)
}

/// Counts likes in their order, up to the first that isn't counted, with one look at the phase word. `counted` is how
/// many were, and the status is what the next one is told, or `LIKED`.
#[unsafe(no_mangle)]
pub extern "C" fn likes_proved_client_like_row(
    client: &mut ClientHandle,
    seat: u32,
    likes: &[LikePair],
    counted: &mut usize,
) -> u32
    ensures { Asks (CallsOne seat (deed.LikeRow likes.now)) (TellsLikes likes.now result counted.new)
        client.old.home client.new.home }
{
    *counted = 0;
    let Some(boxed) = client.get() else {
        return status::EMPTY;
    };
    match boxed.row(seat, &LikeRow { likes }, &mut []) {
        Ok(told) => {
            *counted = told.counted;
            status::of_like(told.answer)
        }
        Err(refused) => refused,
    }
}

#[unsafe(no_mangle)]
pub extern "C" fn likes_client_take_found(
    client: &mut ClientHandle,
    seat: u32,
    found: &mut FoundRow,
) -> u32
    ensures { Asks (CallsOne seat TakeFound) (TellsFound found.old result found.new)
        client.old.home client.new.home }
{
    let Some(boxed) = client.get() else {
        return status::EMPTY;
    };
    match boxed.call(seat, &TakeFoundCall) {
        Ok(Some(it)) => {
            *found = FoundRow::of(it);
            status::OK
        }
        Ok(None) => status::NO_FOUND,
        Err(refused) => refused,
    }
}

#[unsafe(no_mangle)]
pub extern "C" fn likes_client_turn(client: &mut ClientHandle, seat: u32) -> u32
    ensures { Asks (CallsOne seat Turn) (HasStatus turn_status result) client.old.home client.new.home }
{
    let Some(boxed) = client.get() else {
        return status::EMPTY;
    };
    status::of_told_turn(boxed.call(seat, &TurnCall))
}

#[unsafe(no_mangle)]
pub extern "C" fn likes_client_retire(client: &mut ClientHandle, seat: u32) -> u32
    ensures { Asks (CallsOne seat Retire) (HasStatus turn_status result) client.old.home client.new.home }
{
    let Some(boxed) = client.get() else {
        return status::EMPTY;
    };
    status::of_told_turn(boxed.call(seat, &RetireCall))
}

#[unsafe(no_mangle)]
pub extern "C" fn likes_client_come_back(client: &mut ClientHandle, seat: u32) -> u32
    ensures { Asks (CallsOne seat ComeBack) (HasStatus turn_status result) client.old.home client.new.home }
{
    let Some(boxed) = client.get() else {
        return status::EMPTY;
    };
    status::of_told_turn(boxed.call(seat, &ComeBackCall))
}

/// Tells the phase that a seat runs or has answered last, or 0 once it is gone. If it isn't told, the number behind the
/// pointer stays as it was.
#[unsafe(no_mangle)]
pub extern "C" fn likes_client_phase(client: &mut ClientHandle, seat: u32, phase: &mut u64) -> u32
    ensures { Asks (Calls seat (λ _. [])) (TellsNumber phase.old result phase.new)
        client.old.home client.new.home }
{
    let Some(boxed) = client.get() else {
        return status::EMPTY;
    };
    match boxed.row(seat, &PhaseRow, &mut []) {
        Ok(told) => {
            *phase = told;
            status::OK
        }
        Err(refused) => refused,
    }
}

/// Tells where the last likes of a seat's users lie in memory, four bytes for each user, so that C can have the
/// processor fetch them early. No contract says where.
#[unsafe(no_mangle)]
pub extern "C" fn likes_proved_client_address(
    client: &mut ClientHandle,
    seat: u32,
    to: &mut Address,
) -> u32
    ensures { Asks (Calls seat (λ _. [])) (HasStatus (done_status {A = Ptr}) result)
        client.old.home client.new.home }
{
    let Some(boxed) = client.get() else {
        return status::EMPTY;
    };
    match boxed.row(seat, &AddressRow, &mut []) {
        Ok(at) => {
            to.at = at;
            status::OK
        }
        Err(refused) => refused,
    }
}

/// Locks a seat for this client, until it is unlocked.
#[unsafe(no_mangle)]
pub extern "C" fn likes_client_lock(client: &mut ClientHandle, seat: u32) -> u32
    ensures { Asks (AtSeat Locks seat) (HasStatus done_status result) client.old.home client.new.home }
{
    let Some(boxed) = client.get() else {
        return status::EMPTY;
    };
    status::of_done(boxed.lock(seat))
}

/// Unlocks a seat, if this client holds it.
#[unsafe(no_mangle)]
pub extern "C" fn likes_client_unlock(client: &mut ClientHandle, seat: u32) -> u32
    ensures { Asks (AtSeat Unlocks seat) (HasStatus done_status result) client.old.home client.new.home }
{
    let Some(boxed) = client.get() else {
        return status::EMPTY;
    };
    status::of_done(boxed.unlock(seat))
}

/// Has the driver take a turn.
#[unsafe(no_mangle)]
pub extern "C" fn likes_client_drive(client: &mut ClientHandle, end: u32) -> u32
    ensures { Asks (Turns CallsDriver (end_of end)) (HasStatus driver_status result) client.old.home client.new.home }
{
    let Some(boxed) = client.get() else {
        return status::EMPTY;
    };
    match end_of(end) {
        Some(end) => status::of_told_driver(boxed.drive(&DriverTurnCall { end }, &mut [])),
        None => status::UNKNOWN_END,
    }
}

#[unsafe(no_mangle)]
pub extern "C" fn likes_proved_client_snapshot(
    client: &mut ClientHandle,
    from: u32,
    counts: &mut [u64],
) -> u32
    ensures { AsksCounts pages_by CallsDriver Snapshot snapshot_status client.old.home from counts.old
        result counts.new client.new.home }
{
    let Some(boxed) = client.get() else {
        return status::EMPTY;
    };
    if !boxed.has_pages(from, counts.len()) {
        return status::WRONG_RANGE;
    }
    status::of_told_snapshot(boxed.drive(&SnapshotCall { from }, counts))
}

#[unsafe(no_mangle)]
pub extern "C" fn likes_proved_client_last_counts(
    client: &mut ClientHandle,
    from: u32,
    counts: &mut [u64],
) -> u32
    ensures { AsksCounts pages_by CallsDriver LastCounts last_status client.old.home from counts.old
        result counts.new client.new.home }
{
    let Some(boxed) = client.get() else {
        return status::EMPTY;
    };
    if !boxed.has_pages(from, counts.len()) {
        return status::WRONG_RANGE;
    }
    status::of_told_last(boxed.drive(&LastCountsCall { from }, counts))
}

/// The pages that are split in the present or last split phase, as many as there is room for. `written` is how many were
/// written.
#[unsafe(no_mangle)]
pub extern "C" fn likes_proved_client_split_pages(
    client: &mut ClientHandle,
    pages: &mut [u32],
    written: &mut usize,
) -> u32
    ensures { Asks (CallsDriver (SplitPages pages.new)) (λ told. HasStatus done_status result told
        × TellsSplit pages.old pages.new written.new told) client.old.home client.new.home }
{
    *written = 0;
    let Some(boxed) = client.get() else {
        return status::EMPTY;
    };
    match boxed.drive(&SplitPagesCall, pages) {
        Ok(many) => {
            *written = many;
            status::OK
        }
        Err(refused) => refused,
    }
}

/// Proposes these pages for slots from now on.
#[unsafe(no_mangle)]
pub extern "C" fn likes_proved_client_propose(client: &mut ClientHandle, pages: &[u32]) -> u32
    ensures { Asks (CallsDriver (λ _. Propose pages.now)) (HasStatus (done_status {A = ⊤}) result)
        client.old.home client.new.home }
{
    let Some(boxed) = client.get() else {
        return status::EMPTY;
    };
    status::of_done(boxed.drive(&ProposeCall { pages }, &mut []))
}
