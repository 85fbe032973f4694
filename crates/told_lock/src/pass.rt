ghost use Rattle.std.specs.Borrow.{follows, sem};

use crate::deeds::Deeds;
use crate::known::Known;
use crate::lock::Lock;
use atomic_table::Seat;

/// The right of one holder at a time to take a lock. It has no bytes, and any thread may have it.
#[derive(Drop)]
pub struct Pass<T, C> {
    pub(crate) seat: Seat<T, Known<T, C>>,
}

impl<T, C> Pass<T, C> {
    ghost use Rattle.told_lock.specs.contracts.pass.Pass.{the_row};
    ghost use Rattle.told_lock.specs.Lending.{pass_with};
    ghost use Rattle.told_lock.specs.Rights.{IsHolding};

    /// The value, in its place, for the pass that has the lock.
    #[inline(always)]
    pub fn value_mut<'a, D: Deeds<T, C>>(&'a mut self, lock: &'a Lock<T, C, D>) -> &'a mut T
        requires { (x : T) × (y : T) × IsHolding lock.now self.old x y }
        ensures* writes_back { sem 𝓛 (follows (the_row T.row C.row) T.row self.entry.ghost_name result.ghost_name
            (pass_with self.old)) }
        ensures value { (x : T) × IsHolding lock.now self.old x result.now }
    {
        self.seat.slot_mut(&lock.table.shared, 0)
    }
}
