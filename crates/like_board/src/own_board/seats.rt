//! How the seats of the workers of a board that one thread owns are made.
ghost use Rattle.std.specs.Prelude.{◌≡◌, ◌<◌, ◌≤◌, ◌+◌, ℕ, IfOk, length};
ghost use Rattle.like_core.specs.declared.view.View.TheVariants.{Worker};
ghost use Rattle.like_core.specs.OpeningLimits.{most_seats};
ghost use Rattle.like_core.specs.Post.{fresh};
ghost use Rattle.like_board.specs.Own.{own_opening, own_place, own_view, own_views, AreNewOwn, Knows};

use crate::own_board::OwnBoard;
use crate::own_board::worker_seat::OwnWorkerSeat;
use like_core::Form;
use std::alloc::{AllocError, Global};

/// The seat of a worker that made no step yet.
fn own_seat(board: &OwnBoard, number: u32, form: Form) -> OwnWorkerSeat
    requires there { number + 1 < length (own_views board.now) }
    requires new { Knows board.now (number + 1) (Worker (fresh (own_opening board.now) number)) }
    requires form { form ≡ (own_opening board.now).limits.form }
    requires few { number < most_seats form }
    ensures place { own_place result ≡ number + 1 }
    ensures view { own_view result ≡ fresh (own_opening board.now) number }
{
    OwnWorkerSeat {
        access: board.table.seat(number as usize + 1),
        number,
        form,
        turn: 1,
    }
}

/// The seats of all workers, in order.
pub(crate) fn own_seats(
    alloc: Global,
    board: &OwnBoard,
    workers: u32,
    form: Form,
) -> Result<Vec<OwnWorkerSeat>, AllocError>
    requires all { workers < length (own_views board.now) }
    requires new { (i : ℕ) → i < workers → Knows board.now (i + 1) (Worker (fresh (own_opening board.now) i)) }
    requires form { form ≡ (own_opening board.now).limits.form }
    requires few { workers ≤ most_seats form }
    ensures len { IfOk result (λ seats. length seats.items ≡ workers) }
    ensures seats { IfOk result (λ seats. AreNewOwn board.now seats.items) }
{
    let mut seats = Vec::with_capacity(alloc, workers as usize)?;
    for number in 0..workers {
        seats.push_reserved(own_seat(board, number, form));
    }
    Ok(seats)
}
