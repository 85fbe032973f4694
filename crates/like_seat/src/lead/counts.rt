ghost use Rattle.std.specs.Prelude.{◌≡◌, ◌+◌, ◌≤◌, length};
ghost use Rattle.like_board.specs.Led.{IsLedBy, led};
ghost use Rattle.like_board.specs.Seats.{board_id, coord_board, coord_view};
ghost use Rattle.like_core.specs.declared.view.View.TheVariants.{Coord};
ghost use Rattle.like_core.specs.Phase.{IsJoined};
ghost use Rattle.like_core.specs.views.Shows.{IsKnown};
ghost use Rattle.like_core.specs.views.Views.{SawAllIn};
ghost use Rattle.like_seat.specs.Lead.{counted_from, risen};
ghost use Rattle.like_limits.specs.Limits.{hot_pages};

use like_board::{Board, CoordSeat, LeadsAt};

// Reads the counts of the pages from `from` on, as many as there is room for.
pub(crate) fn read_range(seat: &mut CoordSeat, board: &Board, from: u32, counts: &mut [u64])
    requires here { coord_board seat.old ≡ board_id board.now }
    requires saw { SawAllIn (coord_view seat.old) }
    requires joined { IsJoined (coord_view seat.old).phase }
    requires there { from + length counts.old ≤ length (coord_view seat.old).opening.counts }
    ensures board { coord_board seat.new ≡ coord_board seat.old }
    ensures view { coord_view seat.new ≡ counted_from (coord_view seat.old) from counts.new }
    ensures len { length counts.new ≡ length counts.old }
    ensures known { let z = (coord_view seat.old).opening in
        IsKnown z (Coord (coord_view seat.old)) → IsKnown z (Coord (coord_view seat.new)) }
{
    for (page, count) in counts.iter_mut().enumerate() {
        *count = seat.count(board, from + page as u32);
    }
}

// Reads the counts of the first pages in place of those that were read before, and gives the mask of the pages whose
// counts rose by `least` or more.
pub(crate) fn count_risen<B, S: LeadsAt<B>>(
    seat: &mut S,
    board: &mut B,
    least: u32,
    counts: &mut [u64],
) -> u64
    requires here { IsLedBy (S.tells board.old) (S.board seat.old) (S.view seat.old) }
    requires saw { SawAllIn (S.view seat.old) }
    requires joined { IsJoined (S.view seat.old).phase }
    requires there { length counts.old ≤ length (S.view seat.old).opening.counts }
    requires few { length counts.old ≤ hot_pages }
    ensures board { S.board seat.new ≡ S.board seat.old }
    ensures view { S.view seat.new ≡ counted_from (S.view seat.old) 0 counts.new }
    ensures len { length counts.new ≡ length counts.old }
    ensures risen { result ≡ risen least counts.old counts.new }
    ensures led { S.tells board.new ≡ led (S.tells board.old) (S.view seat.new) }
{
    let mut mask = 0;
    for page in 0..counts.len() {
        let count = seat.count(board, page as u32);
        if count.saturating_sub(counts[page]) >= u64::from(least) {
            mask += 1 << page;
        }
        counts[page] = count;
    }
    mask
}
