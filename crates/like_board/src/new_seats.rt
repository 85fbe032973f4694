//! How the seats of a board's workers are made.
ghost use Rattle.std.specs.Prelude.{◌≡◌, ◌<◌, ◌≤◌, [], length, IfOk, OnOk};
ghost use Rattle.like_core.specs.declared.view.View.TheVariants.{Coord};
ghost use Rattle.like_core.specs.OpeningLimits.{most_seats};
ghost use Rattle.like_core.specs.Post.{fresh};
ghost use Rattle.like_core.specs.views.Layout.{word_of};
ghost use Rattle.like_core.specs.views.Views.{made_coord};
ghost use Rattle.like_board.specs.Known.{coord_view_of};
ghost use Rattle.like_board.specs.Seats.{board_id, seat_board, seat_view, AreFresh};

use crate::board::Board;
use crate::plays::MakesWorker;
use crate::worker_seat::WorkerSeat;
use atomic_table::Seat;
use like_core::{Form, View};
use std::alloc::{AllocError, Global};

/// Makes the seat of the next worker.
fn make_seat(board: &Board, coord: &mut Seat<(), View>, number: u32, form: Form) -> WorkerSeat
    requires here { coord.old.table_id ≡ board_id board.now }
    requires coord { coord.old.me ≡ (Coord (coord_view_of coord.old.me.0), []) }
    requires sized { coord.old.table_id.words
        ≡ word_of (length (coord_view_of coord.old.me.0).opening.marks) }
    requires next { number ≡ (coord_view_of coord.old.me.0).made }
    requires room { number < (coord_view_of coord.old.me.0).opening.workers }
    requires form { form ≡ (coord_view_of coord.old.me.0).opening.limits.form }
    requires few { number < most_seats form }
    ensures board { coord.new.table_id ≡ coord.old.table_id }
    ensures coord { coord.new.me ≡ (Coord (made_coord (coord_view_of coord.old.me.0)), []) }
    ensures seat_board { seat_board result ≡ coord.old.table_id }
    ensures seat_view { seat_view result ≡ fresh (coord_view_of coord.old.me.0).opening number }
{
    let access = board.table.shared.split_seat::<MakesWorker>(coord);
    WorkerSeat {
        access,
        number,
        form,
        turn: 1,
    }
}

/// Makes the seats of all workers, in order.
pub(crate) fn make_seats(
    alloc: Global,
    board: &Board,
    coord: &mut Seat<(), View>,
    workers: u32,
    form: Form,
) -> Result<Vec<WorkerSeat>, AllocError>
    requires here { coord.old.table_id ≡ board_id board.now }
    requires coord { coord.old.me ≡ (Coord (coord_view_of coord.old.me.0), []) }
    requires sized { coord.old.table_id.words
        ≡ word_of (length (coord_view_of coord.old.me.0).opening.marks) }
    requires none { (coord_view_of coord.old.me.0).made ≡ 0 }
    requires all { workers ≡ (coord_view_of coord.old.me.0).opening.workers }
    requires form { form ≡ (coord_view_of coord.old.me.0).opening.limits.form }
    requires few { workers ≤ most_seats form }
    ensures board { OnOk result (coord.new.table_id ≡ coord.old.table_id) }
    ensures coord { OnOk result (
        coord.new.me ≡ (Coord (record (coord_view_of coord.old.me.0) { made = workers }), [])) }
    ensures len { IfOk result (λ seats. length seats.items ≡ workers) }
    ensures seats { IfOk result (λ seats.
        AreFresh coord.old.table_id (coord_view_of coord.old.me.0).opening seats.items) }
{
    let mut seats = Vec::with_capacity(alloc, workers as usize)?;
    for number in 0..workers {
        seats.push_reserved(make_seat(board, coord, number, form));
    }
    Ok(seats)
}
