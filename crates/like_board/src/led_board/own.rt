ghost use Rattle.like_board.specs.Led.{no_board, owned};
ghost use Rattle.like_board.specs.Own.{own_coord, own_opening, own_views};

use super::{LeadSeat, LeadsAt};
use crate::own_board::{OwnBoard, OwnCoordSeat};
use like_core::CoordSight;

impl LeadSeat for OwnCoordSeat {
    ghost board = { λ _. no_board };

    ghost view = { own_coord };

    fn phase(&self) -> u64 {
        self.phase()
    }
}

impl LeadsAt<OwnBoard> for OwnCoordSeat {
    ghost tells = { λ board. owned (own_opening board) (own_views board) };

    fn look(&mut self, board: &mut OwnBoard) -> CoordSight {
        self.look(board)
    }

    fn announce(&mut self, board: &mut OwnBoard) {
        self.announce(board);
    }

    fn count(&mut self, board: &mut OwnBoard, page: u32) -> u64 {
        self.count(board, page)
    }

    fn publish(&mut self, board: &mut OwnBoard, mask: u64) {
        self.publish(board, mask);
    }

    fn release(&mut self, board: &mut OwnBoard) {
        self.release(board);
    }
}
