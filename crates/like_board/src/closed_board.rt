//! How a board ends: all seats are given back, and the words are the last counts.
ghost use Rattle.std.specs.Prelude.{◌≡◌, ℕ, ◌^◌, ◌<◌, [], All, List, length, map, slice_index};
ghost use Rattle.like_core.specs.declared.view.CoordSeatView.{CoordSeatView};
ghost use Rattle.like_core.specs.declared.view.View.TheVariants.{Coord};
ghost use Rattle.like_core.specs.declared.worker_state.WorkerState.TheVariants.{Gone};
ghost use Rattle.like_core.specs.views.Layout.{word_of};
ghost use Rattle.like_core.specs.views.Views.{gathered_all};
ghost use Rattle.like_board.specs.declared.worker_seat.WorkerSeat.{WorkerSeat};
ghost use Rattle.like_board.specs.Known.{coord_view_of};
ghost use Rattle.like_board.specs.Seats.{board_id, coord_board, coord_view, seat_board, seat_view, AreAll};
ghost use Rattle.like_board.specs.Closed.{IsClosedBoard, HasAllBack, count_with};

use crate::board::Board;
use crate::coord_seat::CoordSeat;
use crate::layout::{PHASE_WORD, word_of};
use crate::plays::{Closing, Gathers};
use crate::worker_seat::WorkerSeat;
use atomic_table::Seat;
use like_core::View;

/// Gives the workers' seats back to the coordinator's.
fn gather(board: &Board, coord: &mut Seat<(), View>, mut seats: Vec<WorkerSeat>)
    requires here { coord.old.table_id ≡ board_id board.now }
    requires coord { coord.old.me ≡ (Coord (coord_view_of coord.old.me.0), []) }
    requires seats { All (λ seat. seat_board seat ≡ board_id board.now) seats.items }
    ensures board { coord.new.table_id ≡ coord.old.table_id }
    ensures coord { coord.new.me ≡
        (Coord (gathered_all (coord_view_of coord.old.me.0) (map seat_view seats.items)), []) }
{
    while let Some(seat) = seats.pop() {
        let WorkerSeat { access, .. } = seat;
        board.table.shared.join_seat::<Gathers>(coord, access);
    }
}

/// Reads each page's word, and writes it down.
fn write_counts(board: &Board, coord: &mut Seat<(), View>, counts: &mut [u64])
    requires here { coord.old.table_id ≡ board_id board.now }
    requires sized { coord.old.table_id.words ≡ word_of (length counts.old) }
    requires few_pages { length counts.old < 2 ^ 32 }
    ensures len { length counts.new ≡ length counts.old }
    ensures counts { (c : CoordSeatView) (seats : List WorkerSeat)
        → HasAllBack coord.old.me.0 c seats
        → length c.opening.counts ≡ length counts.old → (page : ℕ) → page < length counts.old
        → slice_index counts.new page ≡ count_with c seats page }
{
    for (page, count) in counts.iter_mut().enumerate() {
        let word = word_of(page as u32);
        *count = board.table.shared.load::<Closing>(coord, word);
    }
}

impl Board {
    /// The last counts of a board that several own: all seats are given back, so no step on it can follow.
    pub fn last_counts(&self, coord: CoordSeat, seats: Vec<WorkerSeat>, counts: &mut [u64])
        requires coord_here { coord_board coord ≡ board_id self.now }
        requires seats_here { All (λ seat. seat_board seat ≡ board_id self.now) seats.items }
        requires all { AreAll (coord_view coord).opening.workers seats.items }
        requires places { length counts.old ≡ length (coord_view coord).opening.counts }
        ensures { IsClosedBoard (coord_view coord) seats.items counts.new }
    {
        let CoordSeat {
            access: mut coord,
            ..
        } = coord;
        gather(self, &mut coord, seats);
        self.table.shared.load::<Closing>(&mut coord, PHASE_WORD);
        write_counts(self, &mut coord, counts);
    }

    /// Ends the board, where each worker's seat is given back and all are gone, and writes each page's last count.
    pub fn close(self, coord: CoordSeat, seats: Vec<WorkerSeat>, counts: &mut [u64])
        requires coord_here { coord_board coord ≡ board_id self }
        requires seats_here { All (λ seat. seat_board seat ≡ board_id self) seats.items }
        requires all { AreAll (coord_view coord).opening.workers seats.items }
        requires gone { All (λ seat. (seat_view seat).state ≡ Gone) seats.items }
        requires places { length counts.old ≡ length (coord_view coord).opening.counts }
        ensures { IsClosedBoard (coord_view coord) seats.items counts.new }
    {
        self.last_counts(coord, seats, counts);
    }
}
