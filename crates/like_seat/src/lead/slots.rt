ghost use Rattle.std.specs.Prelude.{◌≡◌, length, slice_set};
ghost use Rattle.like_board.specs.Seats.{board_id, coord_board, coord_view};
ghost use Rattle.like_limits.specs.Limits.{hot_pages};
ghost use Rattle.like_core.specs.views.Views.{MayPut};
ghost use Rattle.like_seat.specs.Lead.{MayPublishChoice, PutsPages, slots_with};

use like_board::{Board, CoordSeat};
use like_core::{HOT_PAGES, has_bit};

// Puts these pages into the slots in use, but for those that hold them. `held` is what the slots hold.
pub(crate) fn put_pages(
    seat: &mut CoordSeat,
    board: &Board,
    held: &mut [u32],
    pages: &[u32],
    bits: u64,
)
    requires here { coord_board seat.old ≡ board_id board.now }
    requires may { MayPublishChoice (coord_view seat.old) pages.now bits }
    requires held { held.old ≡ (coord_view seat.old).slots }
    requires all { length held.old ≡ hot_pages }
    ensures board { coord_board seat.new ≡ coord_board seat.old }
    ensures puts { let c = coord_view seat.old in
        PutsPages c (slots_with c.slots pages.now bits) (coord_view seat.new) }
    ensures held { held.new ≡ (coord_view seat.new).slots }
{
    for slot in 0..HOT_PAGES {
        if has_bit(bits, slot) {
            put_page(seat, board, held, slot, pages[slot as usize]);
        }
    }
}

// Puts a page into a slot, if that holds another.
fn put_page(seat: &mut CoordSeat, board: &Board, held: &mut [u32], slot: u32, page: u32)
    requires here { coord_board seat.old ≡ board_id board.now }
    requires may { MayPut (coord_view seat.old) slot page }
    requires held { held.old ≡ (coord_view seat.old).slots }
    requires all { length held.old ≡ hot_pages }
    ensures board { coord_board seat.new ≡ coord_board seat.old }
    ensures puts { let c = coord_view seat.old in
        PutsPages c (slice_set c.slots slot page) (coord_view seat.new) }
    ensures held { held.new ≡ (coord_view seat.new).slots }
{
    if held[slot as usize] == page {
        return;
    }
    seat.put(board, slot, page);
    held[slot as usize] = page;
}
