//! Where the last likes of a seat's users lie, which is told and is no deed.
ghost use Rattle.std.specs.Prelude.{[], ⊤};

use like_board::SharedPost;
use like_live::LiveSeat;
use like_shared::SeatRow;

/// An address, as C takes it.
#[repr(C)]
pub struct Address {
    pub at: *const u8,
}

/// Where the last likes of a seat's users lie in memory.
#[derive(Clone, Copy)]
pub struct AddressRow;

impl SeatRow for AddressRow {
    type Answer = *const u8;

    type Written = u64;

    ghost deeds = { λ _ _ _. [] };

    ghost writes = { λ _ _ _ _. ⊤ };

    fn make(&self, seat: &mut LiveSeat<SharedPost>, _places: &mut [u64]) -> *const u8 {
        seat.users().address()
    }
}
