//! A coordinator that finds no memory.
ghost use Rattle.std.specs.Prelude.{◌≡◌, [], ◌∷◌, IfOk};
ghost use Rattle.like_core.specs.OpeningLimits.{run_limits};
ghost use Rattle.like_board.specs.Seats.{board_id, coord_board, coord_view};

use crate::asserts::assert_same;
use like_board::{Board, CoordSeat};
use like_roles::{CoordTurn, Coordinator, NoCoordinator};
use std::alloc::Global;
use std::process::Abort;
use std::test::Fail;

// The coordinator at this seat of a board with a page that begins at 10, and whether it was refused memory at first.
fn coordinator_at(alloc: Global, coord: CoordSeat) -> Result<(Coordinator, bool), Fail>
    requires counts { (coord_view coord).opening.counts ≡ 10 ∷ [] }
    requires run { (coord_view coord).opening.limits ≡ run_limits }
    ensures { IfOk result (λ r. r.0.board ≡ coord_board coord) }
{
    match Coordinator::new(alloc, coord, 0, Some(1), &[10]) {
        Ok(coordinator) => Ok((coordinator, false)),
        Err(NoCoordinator { seat }) => match Coordinator::new(alloc, seat, 0, Some(1), &[10]) {
            Ok(coordinator) => Ok((coordinator, true)),
            Err(_) => Err(Fail::new("out of memory")),
        },
    }
}

// A coordinator announces the end of phase 0, waits for the worker, and has chosen no page.
fn leads(rt: &impl Abort, board: &Board, mut coordinator: Coordinator)
    requires { coordinator.board ≡ board_id board.now }
{
    let turns = (coordinator.turn(board), coordinator.turn(board));
    assert_same(
        rt,
        "turns",
        turns,
        (CoordTurn::Announced, CoordTurn::Waiting),
    );
    assert_same(rt, "the phase", coordinator.phase(), 0);
    let (_, chosen) = coordinator.finish();
    assert_same(rt, "chosen pages", chosen.len(), 0);
}

// A coordinator is right at its board, also after it was refused memory, which is told.
fn assert_leads(rt: &impl Abort, alloc: Global, board: &Board, coord: CoordSeat) -> Result<(), Fail>
    requires here { coord_board coord ≡ board_id board.now }
    requires counts { (coord_view coord).opening.counts ≡ 10 ∷ [] }
    requires run { (coord_view coord).opening.limits ≡ run_limits }
{
    let (coordinator, refused) = coordinator_at(alloc, coord)?;
    leads(rt, board, coordinator);
    if refused {
        return Err(Fail::new("out of memory, and then right"));
    }
    Ok(())
}

// A lack of memory is told and gives the seat back, and the next call is right.
#[test]
fn a_refused_coordinator_gives_its_seat_back(rt: HostRuntime) -> Result<(), Fail> {
    let (board, coord, _) = Board::new(rt.alloc(), 1, &[10], &[false])?;
    assert_leads(&rt, rt.alloc(), &board, coord)
}
