//! How many more looks may wait at a seat.
ghost use Rattle.std.specs.Prelude.{◌≡◌, ◌+◌, ◌^◌, ◌<◌, false, min, IsTrue};

use like_seat::take_one;
use std::marker::Model;

/// How many more looks may wait. For so many of them as are free the seat has no other test to make: so one subtraction
/// counts a look, and tells whether it was free.
#[derive(Drop)]
pub(crate) struct LookRoom {
    free: u64,
    rest: u32,
}

impl Model for LookRoom {
    ghost use Rattle.std.specs.Prelude.{◌+◌, ◌<◌, ◌^◌};
    ghost use Rattle.like_live.specs.LookRoom.{RoomView};

    ghost Value = { RoomView };

    ghost view = { λ r. record { free = r.free; left = r.free + r.rest } };

    ghost invariant = { λ r. r.free + r.rest < 2 ^ 31 };
}

impl LookRoom {
    /// Room for so many, none of which is free.
    pub fn new(room: u32) -> LookRoom
        requires { room < 2 ^ 31 }
        ensures { result ≡ record { free = 0; left = room } }
    {
        LookRoom {
            free: 0,
            rest: room,
        }
    }

    /// For how many.
    pub fn left(&self) -> u32
        ensures { result ≡ self.now.left }
    {
        self.free as u32 + self.rest
    }

    /// Takes a free one if there is one, and says whether.
    #[inline(always)]
    pub fn take_free(&mut self) -> bool
        ensures taken { IsTrue result → (self.old.free ≡ self.new.free + 1)
            × (self.old.left ≡ self.new.left + 1) }
        ensures none { result ≡ false → (self.old.free ≡ 0) × (self.new ≡ self.old) }
    {
        take_one(&mut self.free)
    }

    /// Takes one. None is free then.
    pub fn take(&mut self)
        requires { 0 < self.old.left }
        ensures none { self.new.free ≡ 0 }
        ensures left { self.old.left ≡ self.new.left + 1 }
    {
        self.rest = self.left() - 1;
        self.free = 0;
    }

    /// Gives one back, which isn't free.
    pub fn give(&mut self)
        requires { self.old.left + 1 < 2 ^ 31 }
        ensures { self.new ≡ record self.old { left = self.old.left + 1 } }
    {
        self.rest += 1;
    }

    /// So many are free then, or as many as there are.
    pub fn set_free(&mut self, most: u32)
        ensures free { self.new.free ≡ min self.old.left most }
        ensures left { self.new.left ≡ self.old.left }
    {
        let left = self.left();
        let free = left.min(most);
        self.free = u64::from(free);
        self.rest = left - free;
    }
}
