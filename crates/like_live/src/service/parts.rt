//! The parts of a service, as it is opened and closed.
ghost use Rattle.std.specs.Prelude.{◌≡◌, ◌^◌, ◌≤◌, ◌<◌, ◌↔◌, IfOk, IsTrue, length};
ghost use Rattle.std.specs.Arc.{arc_value};
ghost use Rattle.like_board.specs.Seats.{AreFresh, board_id, seat_board, seat_view};
ghost use Rattle.like_core.specs.Post.{fresh};
ghost use Rattle.like_tables.specs.Share.{share_of};
ghost use Rattle.like_tables.specs.UserTable.{table_with_lasts};
ghost use Rattle.like_live.specs.Opening.{IsWithinLimits, board_opening};
ghost use Rattle.like_live.specs.Service.{AreGone, AreOpened, AreOpenedSeats, IsOpenedSeat};

use crate::driver::Driver;
use crate::hint::Hint;
use crate::live_seat::LiveSeat;
use crate::opening::Opening;
use crate::service::Service;
use crate::signals::Signals;
use like_board::{Board, SharedPost, WorkerSeat};
use like_choice::Choice;
use like_core::Limits;
use like_tables::Users;
use std::alloc::{AllocError, Global};
use std::sync::Arc;

// Whether all seats are gone.
pub(crate) fn are_gone(seats: &[LiveSeat<SharedPost>]) -> bool
    ensures { IsTrue result ↔ AreGone seats.now }
{
    seats.iter().all(|seat| seat.is_gone())
}

// A new service. All its memory is taken here.
pub(crate) fn new_service<C: Choice + Drop>(
    alloc: Global,
    opening: &Opening,
    choice: C,
) -> Result<Service<C>, AllocError>
    requires within { IsWithinLimits opening.now }
    ensures opened { IfOk result (λ s. AreOpened opening.now s.driver s.seats.items) }
    ensures told { IfOk result (λ s. s.driver.splits.told ≡ C.told choice) }
    ensures finds { IfOk result (λ s. s.driver.splits.finds ≡ C.finds choice) }
{
    let factor = opening.factor();
    let (board, coord, workers) = Board::for_service(
        alloc,
        opening.seats,
        &opening.counts,
        factor,
        Limits::of_service(),
    )?;
    let board = Arc::new(alloc, board)?;
    let hint = Hint::new(alloc)?;
    let seats = new_seats(alloc, opening, factor, &choice, &board, &hint, workers)?;
    let driver = Driver::new(alloc, opening, factor, choice, board, coord, hint)?;
    Ok(Service { driver, seats })
}

// The seats of a new service, in order.
fn new_seats<C: Choice>(
    alloc: Global,
    opening: &Opening,
    factor: u32,
    choice: &C,
    board: &Arc<Board>,
    hint: &Hint,
    workers: Vec<WorkerSeat>,
) -> Result<Vec<LiveSeat<SharedPost>>, AllocError>
    requires within { IsWithinLimits opening.now }
    requires least { 2 ^ 22 ≤ factor }
    requires workers { AreFresh (board_id (arc_value board.now))
        (board_opening opening.now factor) workers.items }
    requires len { length workers.items ≡ opening.now.seats }
    ensures { IfOk result (λ seats.
        AreOpenedSeats opening.now factor (board_id (arc_value board.now)) seats.items) }
{
    let mut seats = Vec::new(alloc);
    for worker in workers {
        let number = seats.len() as u32;
        let signals = new_signals(choice, hint, number)?;
        let seat = new_seat(alloc, opening, factor, board, signals, worker, number)?;
        seats.push(seat)?;
    }
    Ok(seats)
}

// What the seat with this number tells its driver.
fn new_signals<C: Choice>(choice: &C, hint: &Hint, number: u32) -> Result<Signals, AllocError> {
    Ok(Signals::new(hint.share()?, choice.sampler(number)?))
}

// The seat of one worker.
fn new_seat(
    alloc: Global,
    opening: &Opening,
    factor: u32,
    board: &Arc<Board>,
    signals: Signals,
    worker: WorkerSeat,
    number: u32,
) -> Result<LiveSeat<SharedPost>, AllocError>
    requires within { IsWithinLimits opening.now }
    requires least { 2 ^ 22 ≤ factor }
    requires there { number < opening.now.seats }
    requires here { seat_board worker ≡ board_id (arc_value board.now) }
    requires view { seat_view worker ≡ fresh (board_opening opening.now factor) number }
    ensures { IfOk result (IsOpenedSeat opening.now factor
        (board_id (arc_value board.now)) number) }
{
    let (board, last) = seat_parts(alloc, opening, board, number)?;
    let post = worker.at_shared(board);
    let pages = opening.counts.len() as u32;
    match LiveSeat::new(alloc, post, factor, pages, opening.room, last, signals) {
        Ok(seat) => Ok(seat),
        Err(_) => Err(AllocError),
    }
}

// The board for the seat with this number, which all seats share, and the seat's users.
fn seat_parts(
    alloc: Global,
    opening: &Opening,
    board: &Arc<Board>,
    number: u32,
) -> Result<(Arc<Board>, Users), AllocError>
    requires within { IsWithinLimits opening.now }
    ensures here { IfOk result (λ r. arc_value r.0 ≡ arc_value board.now) }
    ensures users { IfOk result (λ r. r.1 ≡ table_with_lasts
        (share_of opening.now.users opening.now.seats opening.now.seats number) opening.now.lasts.items) }
{
    let board = Arc::try_clone(board)?;
    let seats = opening.seats;
    let last = Users::with_lasts(alloc, opening.users, seats, seats, number, &opening.lasts)?;
    Ok((board, last))
}
