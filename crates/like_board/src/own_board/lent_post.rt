ghost use Rattle.std.specs.Prelude.{◌≡◌};
ghost use Rattle.like_core.specs.declared.view.View.TheVariants.{Worker};
ghost use Rattle.like_board.specs.Lending.{AreLent};
ghost use Rattle.like_board.specs.Own.{own_place, own_view, Knows};

use crate::own_board::OwnBoard;
use crate::own_board::worker_seat::OwnWorkerSeat;
use like_core::{Post, Sight, View};
use own_table::OwnSeat;

/// A worker's seat and the board that its thread owns, both lent for a turn.
#[derive(Drop)]
pub struct LentPost<'a, 'b> {
    pub(crate) board: &'a mut OwnBoard,
    pub(crate) seat: &'b mut OwnWorkerSeat,
    /// What the seat knew when it was lent.
    pub(crate) before: OwnSeat<View>,
    ghost lent: { AreLent board.now seat.now before.me.0 },
}

impl<'a, 'b> LentPost<'a, 'b> {
    /// Lends a board and a seat of it.
    #[inline(always)]
    pub fn lend(board: &'a mut OwnBoard, seat: &'b mut OwnWorkerSeat) -> LentPost<'a, 'b>
        requires { Knows board.old (own_place seat.old) (Worker (own_view seat.old)) }
        ensures board_name { result.board.ghost_name ≡ board.entry.ghost_name }
        ensures seat_name { result.seat.ghost_name ≡ seat.entry.ghost_name }
        ensures board { result.board.now ≡ board.old }
        ensures seat { result.seat.now ≡ seat.old }
        ensures before { result.before.me.0 ≡ Worker (own_view seat.old) }
    {
        let before = board.table.seat(seat.number as usize + 1);
        LentPost {
            board,
            seat,
            before,
        }
    }
}

impl<'a, 'b> Post for LentPost<'a, 'b> {
    ghost use Rattle.like_board.specs.LentPost.{lent_numbers, lent_view};

    ghost view = { lent_view };

    ghost board = { lent_numbers };

    #[inline(always)]
    fn look(&mut self) -> Sight {
        self.seat.look(self.board)
    }

    fn acknowledge(&mut self) {
        self.seat.acknowledge(self.board);
    }

    fn report(&mut self) {
        self.seat.report(self.board);
    }

    fn retire(&mut self) {
        self.seat.retire(self.board);
    }

    #[inline(always)]
    fn add(&mut self, page: u32, n: u64) -> u64 {
        self.seat.add(self.board, page, n)
    }

    #[inline(always)]
    fn read(&mut self, page: u32) -> u64 {
        self.seat.read(self.board, page)
    }

    fn hot(&mut self) -> u64 {
        self.seat.hot(self.board)
    }
}
