//! The phase of a seat, which is told and is no deed.
ghost use Rattle.std.specs.Prelude.{[], ⊤};

use like_board::SharedPost;
use like_live::LiveSeat;
use like_shared::SeatRow;

/// The phase that a seat runs or has answered last, or 0 once it is gone.
#[derive(Clone, Copy)]
pub struct PhaseRow;

impl SeatRow for PhaseRow {
    type Answer = u64;

    type Written = u64;

    ghost deeds = { λ _ _ _. [] };

    ghost writes = { λ _ _ _ _. ⊤ };

    fn make(&self, seat: &mut LiveSeat<SharedPost>, _places: &mut [u64]) -> u64 {
        seat.phase()
    }
}
