ghost use Rattle.std.specs.Prelude.{◌≡◌, IfOk};
ghost use Rattle.like_core.specs.OpeningLimits.{run_limits};
ghost use Rattle.like_board.specs.Seats.{board_id, coord_board, coord_view};
ghost use Rattle.like_roles.specs.coordinator.CoordTurns.{CoordTurns, CoordinatorGoesOn, HasEndedJoined, HasReleasedNone, new_coordinator};

use like_board::{Board, CoordSeat};
use like_roles::{CoordTurn, Coordinator};
use std::alloc::{AllocError, Global};
use std::marker::Model;

/// The coordinator of a run at its board. It chose hot pages by the counts that it read, and released no split phase
/// once all workers were gone.
#[derive(Drop)]
pub struct CoordinatorAt<'a> {
    board: &'a Board,
    pub(crate) coordinator: Coordinator,
}

impl<'a> Model for CoordinatorAt<'a> {
    ghost use Rattle.std.specs.Prelude.{◌≡◌};
    ghost use Rattle.like_board.specs.Seats.{board_id};
    ghost use Rattle.like_roles.specs.coordinator.CoordTurns.{CoordinatorView, IsCoordinating};

    ghost Value = { CoordinatorView };

    ghost view = { λ l. l.coordinator };

    ghost invariant = { λ l. (l.coordinator.board ≡ board_id l.board.now) × IsCoordinating l.coordinator };
}

impl<'a> CoordinatorAt<'a> {
    /// The coordinator at this board, which was made with these counts and the limits of a run. It counts `turns` turns
    /// in each phase, and `hot` likes make a page hot.
    pub(crate) fn new(
        alloc: Global,
        board: &'a Board,
        seat: CoordSeat,
        turns: u32,
        hot: Option<u32>,
        counts: &[u64],
    ) -> Result<CoordinatorAt<'a>, AllocError>
        requires here { coord_board seat ≡ board_id board.now }
        requires counts { counts.now ≡ (coord_view seat).opening.counts }
        requires limits { (coord_view seat).opening.limits ≡ run_limits }
        requires new { HasReleasedNone (coord_view seat) }
        ensures { IfOk result (λ coordinator. coordinator
            ≡ new_coordinator (board_id board.now) (coord_view seat) turns hot) }
    {
        match Coordinator::new(alloc, seat, turns, hot, counts) {
            Ok(coordinator) => Ok(CoordinatorAt { board, coordinator }),
            Err(_) => Err(AllocError),
        }
    }

    /// Makes its next turn.
    pub fn turn(&mut self) -> CoordTurn
        ensures case { CoordTurns self.old result self.new }
        ensures goes_on { CoordinatorGoesOn self.old self.new }
        ensures ended { result ≡ CoordTurn.Ended → HasEndedJoined self.new }
    {
        self.coordinator.turn(self.board)
    }
}
