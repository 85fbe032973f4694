ghost use Rattle.std.specs.Prelude.{◌≡◌, ◌+◌, ◌≤◌, length};
ghost use Rattle.like_board.specs.Seats.{board_id};
ghost use Rattle.like_core.specs.OpeningLimits.{service_limits};
ghost use Rattle.like_live.specs.Driver.{LooksForEnd, ReadsBoundary, ReadsLast};

use super::turns::{LAST_PHASE, is_left};
use like_board::Board;
use like_seat::Lead;

// Looks, and writes the counts of the pages from `from` on if a joined phase is ending and all are in. The answer is
// that phase.
pub(crate) fn read_boundary(
    lead: &mut Lead,
    board: &Board,
    from: u32,
    counts: &mut [u64],
) -> Option<u64>
    requires here { lead.old.board ≡ board_id board.now }
    requires places { from + length counts.old ≤ length lead.old.seat.opening.counts }
    ensures { ReadsBoundary lead.old from counts.old result lead.new counts.new }
{
    let sight = lead.look(board);
    if !sight.ending || !sight.all_in || !lead.is_joined() {
        return None;
    }
    lead.read_counts(board, from, counts);
    Some(lead.phase())
}

// Writes the last counts of the pages from `from` on, once all seats have left a joined phase. Says whether it did.
pub(crate) fn read_last(lead: &mut Lead, board: &Board, from: u32, counts: &mut [u64]) -> bool
    requires here { lead.old.board ≡ board_id board.now }
    requires limits { lead.old.seat.opening.limits ≡ service_limits }
    requires places { from + length counts.old ≤ length lead.old.seat.opening.counts }
    ensures { ReadsLast lead.old from counts.old result lead.new counts.new }
{
    if !is_at_end(lead, board) {
        return false;
    }
    lead.read_counts(board, from, counts);
    true
}

// Looks whether all seats have left a joined phase that is ending. Where nobody announced its end, it does so and looks
// again.
fn is_at_end(lead: &mut Lead, board: &Board) -> bool
    requires here { lead.old.board ≡ board_id board.now }
    requires limits { lead.old.seat.opening.limits ≡ service_limits }
    ensures { LooksForEnd lead.old result lead.new }
{
    let sight = lead.look(board);
    if !is_left(lead, sight) {
        return false;
    }
    if sight.ending {
        return true;
    }
    if lead.phase() >= LAST_PHASE {
        return false;
    }
    lead.announce(board);
    lead.look(board).all_gone
}
