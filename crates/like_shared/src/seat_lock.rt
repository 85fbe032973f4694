//! A seat is locked and unlocked by a thread.
ghost use Rattle.std.specs.Prelude.{◌≡◌, false, true, IfErr, IsFalse, MatchResult};
ghost use Rattle.told_lock.specs.Deeds.{Continues};
ghost use Rattle.told_lock.specs.Rights.{IsHolding, IsIdle, log_of, name_of, seen_of};
ghost use Rattle.like_shared.specs.Passes.{IsReady, log_at, seen_at};

use crate::deed::NoDeed;
use crate::seat_call::{Busy, FreePass, SeatLock, SeatPass};

/// Takes the seat for all further calls, if no other thread has it.
pub fn try_lock(lock: &SeatLock, pass: &mut SeatPass) -> Result<(), Busy>
    requires { IsReady lock.now pass.old }
    ensures ready { IsReady lock.now pass.new }
    ensures held { MatchResult result (λ _. pass.new.is_held ≡ true) (λ _. pass.new.is_held ≡ pass.old.is_held) }
    ensures free { IfErr result (λ _. IsFalse pass.old.is_held) }
    ensures name { name_of pass.new.pass ≡ name_of pass.old.pass }
    ensures log { log_at pass.new ≡ log_at pass.old }
    ensures seen { Continues (seen_at pass.old) (seen_at pass.new) }
{
    if pass.is_held {
        return Ok(());
    }
    if !lock.try_take(&mut pass.pass) {
        return Err(Busy);
    }
    pass.is_held = true;
    Ok(())
}

/// Gives the seat back, if the pass holds it.
pub fn unlock(lock: &SeatLock, pass: &mut SeatPass)
    requires { IsReady lock.now pass.old }
    ensures ready { IsReady lock.now pass.new }
    ensures held { pass.new.is_held ≡ false }
    ensures name { name_of pass.new.pass ≡ name_of pass.old.pass }
    ensures log { log_at pass.new ≡ log_at pass.old }
    ensures seen { seen_at pass.new ≡ seen_at pass.old }
{
    if !pass.is_held {
        return;
    }
    give_back(lock, &mut pass.pass);
    pass.is_held = false;
}

/// The pass alone. If it holds the seat, that is given back.
pub(crate) fn free(lock: &SeatLock, pass: SeatPass) -> FreePass
    requires { IsReady lock.now pass }
    ensures idle { IsIdle lock.now result }
    ensures name { name_of result ≡ name_of pass.pass }
    ensures log { log_of result ≡ log_at pass }
    ensures seen { seen_of result ≡ seen_at pass }
{
    let mut pass = pass;
    unlock(lock, &mut pass);
    let SeatPass { pass, is_held: _ } = pass;
    pass
}

// Gives the seat back, and nothing was done.
fn give_back(lock: &SeatLock, pass: &mut FreePass)
    requires { (x : _) × IsHolding lock.now pass.old x x }
    ensures idle { IsIdle lock.now pass.new }
    ensures name { name_of pass.new ≡ name_of pass.old }
    ensures log { log_of pass.new ≡ log_of pass.old }
    ensures seen { seen_of pass.new ≡ seen_of pass.old }
{
    lock.give_back_after::<NoDeed>(pass);
}
