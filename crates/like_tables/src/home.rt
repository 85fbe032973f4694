ghost use Rattle.std.specs.Prelude.{◌≡◌, ◌*◌, ◌/◌, ◌%◌, ◌^◌, ◌<◌};
ghost use Rattle.like_tables.specs.Home.{IsAtHome, home_of, user_at};

use std::marker::Model;

/// The users of one seat, by rank: `seat`, `seat + seats`, `seat + 2 seats` and so on.
///
/// The number of seats is an odd number times a power of two. So a division by it is a multiplication by the odd
/// number's inverse modulo 2^32, and a rotation of the bits to the right (Granlund and Montgomery, "Division by
/// Invariant Integers using Multiplication", 1994, section 9). What isn't divisible gets a rank beyond all users.
#[derive(Drop)]
pub struct Home {
    seats: u32,
    seat: u32,
    // Of the odd part of the number of seats, modulo 2^32.
    inverse: u32,
    // How often two divides the number of seats.
    turn: u32,
}

impl Model for Home {
    ghost use Rattle.like_tables.specs.Home.{Home, IsTurned, home_of};

    ghost Value = { Home };

    ghost view = { λ h. home_of h.seats h.seat };

    ghost invariant = { λ h. IsTurned (home_of h.seats h.seat) h.inverse h.turn };
}

impl Home {
    /// The home of a seat, by how many seats there are and its number.
    pub fn new(seats: u32, seat: u32) -> Self
        requires { seat < seats }
        ensures { result ≡ home_of seats seat }
    {
        let turn = seats.trailing_zeros();
        Home {
            seats,
            seat,
            inverse: inverse(seats >> turn),
            turn,
        }
    }

    /// The rank of a user of the seat. A user of another seat gets a number whose user would be beyond 2^32.
    #[inline(always)]
    pub fn rank(&self, user: u32) -> u32
        ensures there { IsAtHome self.now user → result ≡ user / self.now.seats }
        ensures back { user_at self.now result < 2 ^ 32 → user ≡ user_at self.now result }
        ensures seat { self.now.seat < self.now.seats }
    {
        user.wrapping_sub(self.seat)
            .wrapping_mul(self.inverse)
            .rotate_right(self.turn)
    }
}

// The inverse of an odd number modulo 2^32, bit by bit.
fn inverse(odd: u32) -> u32
    requires { odd % 2 ≡ 1 }
    ensures { odd * result % 2 ^ 32 ≡ 1 }
{
    let odd = odd as u64;
    let mut inverse = 1;
    for bit in 1u32..32 {
        let power = 1u64 << bit;
        if odd * inverse % (2 * power) != 1 {
            inverse += power;
        }
    }
    inverse as u32
}
