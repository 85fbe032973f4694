ghost use Rattle.std.specs.Prelude.{◌≡◌};

use crate::board::Board;
use crate::holder::HoldsBoard;
use crate::worker_seat::WorkerSeat;
use like_core::{Glances, Post, Returns, Sight, SlotPost};
use std::sync::Arc;

/// A worker's seat at its board. Each call is one step on one of the board's words, and none waits.
#[derive(Drop)]
pub struct PostAt<B: HoldsBoard> {
    pub(crate) board: B,
    pub(crate) seat: WorkerSeat,
    ghost here: { seat.access.table_id ≡ B.held board },
}

/// At a board that it borrows.
pub type BoardPost<'a> = PostAt<&'a Board>;

/// At a board that it owns together with others. It borrows nothing, so any thread may take it.
pub type SharedPost = PostAt<Arc<Board>>;

impl<B: HoldsBoard + Drop> PostAt<B> {
    ghost use Rattle.like_board.specs.Seats.{seat_board, seat_view, post_board, post_view};

    /// Gives the seat back.
    pub fn back(self) -> WorkerSeat
        ensures board { seat_board result ≡ post_board self }
        ensures view { seat_view result ≡ post_view self }
    {
        let PostAt { board: _, seat } = self;
        seat
    }
}

impl<B: HoldsBoard> Post for PostAt<B> {
    ghost use Rattle.like_board.specs.Seats.{post_numbers, post_view};

    ghost view = { post_view };

    ghost board = { post_numbers };

    #[inline(always)]
    fn look(&mut self) -> Sight {
        let board = self.board.board();
        self.seat.look(board)
    }

    fn acknowledge(&mut self) {
        let board = self.board.board();
        self.seat.acknowledge(board);
    }

    fn report(&mut self) {
        let board = self.board.board();
        self.seat.report(board);
    }

    fn retire(&mut self) {
        let board = self.board.board();
        self.seat.retire(board);
    }

    #[inline(always)]
    fn add(&mut self, page: u32, n: u64) -> u64 {
        let board = self.board.board();
        self.seat.add(board, page, n)
    }

    #[inline(always)]
    fn read(&mut self, page: u32) -> u64 {
        let board = self.board.board();
        self.seat.read(board, page)
    }

    fn hot(&mut self) -> u64 {
        let board = self.board.board();
        self.seat.hot(board)
    }
}

impl<B: HoldsBoard> Glances for PostAt<B> {
    #[inline(always)]
    fn glance(&mut self, page: u32) -> u64 {
        let board = self.board.board();
        self.seat.glance(board, page)
    }
}

impl<B: HoldsBoard> SlotPost for PostAt<B> {
    fn slots(&mut self, pages: &mut [u32]) -> u64 {
        let board = self.board.board();
        self.seat.read_slots(board, pages);
        self.seat.hot_slots(board)
    }
}

impl<B: HoldsBoard> Returns for PostAt<B> {
    fn come_back(&mut self) -> Option<u64> {
        let board = self.board.board();
        self.seat.come_back(board)
    }
}
