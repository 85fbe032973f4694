//! How a board that one thread owns ends.
ghost use Rattle.std.specs.Prelude.{◌≡◌, ◌^◌, ◌<◌, ℕ, All, length, map, slice_index};
ghost use Rattle.own_table.specs.Table.{words_of};
ghost use Rattle.like_core.specs.declared.worker_state.WorkerState.TheVariants.{Gone};
ghost use Rattle.like_core.specs.views.Layout.{word_of};
ghost use Rattle.like_board.specs.Closed.{IsClosedBoard};
ghost use Rattle.like_board.specs.Own.{own_coord, own_view, own_views};
ghost use Rattle.like_board.specs.OwnClosed.{all_views, as_shared};
ghost use Rattle.like_board.specs.Seats.{AreAll};

use crate::layout::word_of;
use crate::own_board::OwnBoard;
use crate::own_board::coord_seat::OwnCoordSeat;
use crate::own_board::worker_seat::OwnWorkerSeat;

// Writes each page's word down.
fn write_own_counts(board: &OwnBoard, counts: &mut [u64])
    requires sized { length (words_of board.now.table) ≡ word_of (length counts.old) }
    requires few_pages { length counts.old < 2 ^ 32 }
    ensures len { length counts.new ≡ length counts.old }
    ensures counts { (page : ℕ) → page < length counts.old
        → slice_index counts.new page ≡ slice_index (words_of board.now.table) (word_of page) }
{
    for (page, count) in counts.iter_mut().enumerate() {
        let word = word_of(page as u32);
        *count = board.table.word(word);
    }
}

impl OwnBoard {
    /// Ends the board, where all workers are gone, and writes each page's last count.
    pub fn close(self, coord: OwnCoordSeat, seats: Vec<OwnWorkerSeat>, counts: &mut [u64])
        requires known { own_views self ≡ all_views (own_coord coord) seats.items }
        requires all { AreAll (own_coord coord).opening.workers (map as_shared seats.items) }
        requires gone { All (λ seat. (own_view seat).state ≡ Gone) seats.items }
        requires places { length counts.old ≡ length (own_coord coord).opening.counts }
        ensures { IsClosedBoard (own_coord coord) (map as_shared seats.items) counts.new }
    {
        let mut board = self;
        board.table.tell();
        write_own_counts(&board, counts);
    }
}
