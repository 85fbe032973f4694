//! How many likes a station has counted, and how many it may count before it is asked again.
ghost use Rattle.std.specs.Prelude.{◌≡◌, ◌+◌, ◌-◌, ◌^◌, ◌<◌, false, min, IsTrue};

use std::marker::Model;

/// The most likes that a station may count.
pub const MAX_LIKES: u64 = 1 << 56;

// Where numbers are that were taken below 0.
const BELOW_ZERO: u64 = 1 << 63;

/// Counts likes. It keeps at which number its room ends, and how much room is left: so one subtraction counts a like, and
/// tells whether there was room for it.
#[derive(Drop)]
pub(crate) struct LikeCount {
    end: u64,
    left: u64,
}

impl Model for LikeCount {
    ghost use Rattle.std.specs.Prelude.{◌-◌};
    ghost use Rattle.like_seat.specs.LikeCount.{HasRoom, LikeCountView};

    ghost Value = { LikeCountView };

    ghost view = { λ c. record { likes = c.end - c.left; left = c.left } };

    ghost invariant = { λ c. HasRoom c.end c.left };
}

// It stands apart, so that the compiler doesn't make it a part of each count.
#[cold]
#[inline(never)]
fn set_to_zero(number: &mut u64)
    ensures { number.new ≡ 0 }
{
    *number = 0;
}

/// Takes one away from a number, if it isn't 0, and says whether: by one subtraction, whose sign tells that.
#[inline(always)]
pub fn take_one(number: &mut u64) -> bool
    requires { number.old < 2 ^ 63 }
    ensures taken { IsTrue result → number.old ≡ number.new + 1 }
    ensures none { result ≡ false → (number.old ≡ 0) × (number.new ≡ 0) }
{
    *number = number.wrapping_sub(1);
    if *number < BELOW_ZERO {
        return true;
    }
    set_to_zero(number);
    false
}

impl LikeCount {
    /// No like, and no room.
    pub fn none() -> LikeCount
        ensures { result ≡ record { likes = 0; left = 0 } }
    {
        LikeCount { end: 0, left: 0 }
    }

    /// How many likes.
    #[inline(always)]
    pub fn likes(&self) -> u64
        ensures { result ≡ self.now.likes }
    {
        self.end - self.left
    }

    /// Counts one, whether there is room or not. No room is left.
    #[inline(always)]
    pub fn count(&mut self)
        requires { self.old.likes < 2 ^ 63 }
        ensures likes { self.new.likes ≡ self.old.likes + 1 }
        ensures left { self.new.left ≡ 0 }
    {
        self.end = self.likes() + 1;
        self.left = 0;
    }

    /// Counts one if there is room, and says whether.
    #[inline(always)]
    pub fn try_count(&mut self) -> bool
        ensures added { IsTrue result → self.new.likes ≡ self.old.likes + 1 }
        ensures room { IsTrue result → self.old.likes < 2 ^ 56 }
        ensures left { IsTrue result → self.old.left ≡ self.new.left + 1 }
        ensures none { result ≡ false → (self.old.left ≡ 0) × (self.new ≡ self.old) }
    {
        take_one(&mut self.left)
    }

    /// Takes away the room for one, and says whether there was any.
    #[inline(always)]
    pub fn spend(&mut self) -> bool
        ensures likes { self.new.likes ≡ self.old.likes }
        ensures left { IsTrue result → self.old.left ≡ self.new.left + 1 }
        ensures none { result ≡ false → (self.old.left ≡ 0) × (self.new.left ≡ 0) }
    {
        if take_one(&mut self.left) {
            self.end -= 1;
            return true;
        }
        false
    }

    /// Has room for so many more, as far as there are no more than 2^56 likes then.
    pub fn give(&mut self, room: u64)
        ensures likes { self.new.likes ≡ self.old.likes }
        ensures left { self.new.left ≡ min (2 ^ 56 - self.old.likes) room }
    {
        let likes = self.likes();
        let room = MAX_LIKES.saturating_sub(likes).min(room);
        self.end = likes + room;
        self.left = room;
    }
}
