ghost use Rattle.like_board.specs.Led.{shared};
ghost use Rattle.like_board.specs.Seats.{board_id, coord_board, coord_view};

use super::{LeadSeat, LeadsAt};
use crate::board::Board;
use crate::coord_seat::CoordSeat;
use like_core::CoordSight;

impl LeadSeat for CoordSeat {
    ghost board = { coord_board };

    ghost view = { coord_view };

    fn phase(&self) -> u64 {
        self.phase()
    }
}

impl<'a> LeadsAt<&'a Board> for CoordSeat {
    ghost tells = { λ board. shared (board_id board.now) };

    fn look(&mut self, board: &mut &'a Board) -> CoordSight {
        let at = *board;
        self.look(at)
    }

    fn announce(&mut self, board: &mut &'a Board) {
        let at = *board;
        self.announce(at);
    }

    fn count(&mut self, board: &mut &'a Board, page: u32) -> u64 {
        let at = *board;
        self.count(at, page)
    }

    fn publish(&mut self, board: &mut &'a Board, mask: u64) {
        let at = *board;
        self.publish(at, mask);
    }

    fn release(&mut self, board: &mut &'a Board) {
        let at = *board;
        self.release(at);
    }
}
