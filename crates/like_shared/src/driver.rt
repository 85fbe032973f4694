//! A call of a driver behind its lock, if no other thread has it.
ghost use Rattle.std.specs.Prelude.{◌≡◌, ◌≤◌, ◌++◌, ℕ, List, [], ◌∷◌, MatchResult, length};
ghost use Rattle.told_lock.specs.Deeds.{named};
ghost use Rattle.told_lock.specs.Rights.{IsHolding, IsIdle, SeesNext, first_of, log_of, name_of, seen_of};
ghost use Rattle.like_shared.specs.declared.deed.DriverDeed.{DriverDeed};
ghost use Rattle.like_shared.specs.Deeds.{DriverDoes, pages_at};

use crate::deed::{DriverDeed, DriverDeeds};
use crate::seat_call::Busy;
use like_choice::Guided;
use like_live::Driver;
use std::marker::Brand;
use told_lock::{Done, Lock, Pass};

/// A driver behind its lock.
pub type DriverLock = Lock<Driver<Guided>, DriverDeed, DriverDeeds>;

/// The right of one thread to take it.
pub type DriverPass = Pass<Driver<Guided>, DriverDeed>;

/// A call of a driver. With its answer, and with what it wrote, it is a deed.
pub trait DriverCall {
    /// What it is told.
    type Answer;

    /// What it writes, one at each place that it is given.
    type Written;

    /// The deed that it is, with this answer, and with this at its places.
    ghost deed: { Self → Self.Answer → List Self.Written → DriverDeed };

    /// What was at the places, and what is there after this answer.
    ghost writes: { Self → Self.Answer → List Self.Written → List Self.Written → Type 0 };

    /// How many pages there must be, if it is given so many places.
    ghost reach: { Self → ℕ → ℕ };

    /// Makes the call.
    fn make(&self, driver: &mut Driver<Guided>, places: &mut [Self::Written]) -> Self::Answer
        requires { reach self.now (length places.old) ≤ pages_at driver.old }
        ensures does { DriverDoes driver.old (deed self.now result places.new) driver.new }
        ensures writes { writes self.now result places.old places.new };
}

/// Makes the call if no other thread has the driver. The log has it then, with its answer, and with what it wrote.
pub fn try_drive<Q: DriverCall>(
    lock: &DriverLock,
    pass: &mut DriverPass,
    call: &Q,
    places: &mut [Q::Written],
) -> Result<Q::Answer, Busy>
    requires idle { IsIdle lock.now pass.old }
    requires places { Q.reach call.now (length places.old) ≤ pages_at (first_of lock.now) }
    ensures idle { IsIdle lock.now pass.new }
    ensures name { name_of pass.new ≡ name_of pass.old }
    ensures log { MatchResult result
        (λ answer. log_of pass.new ≡ log_of pass.old ++ Q.deed call.now answer places.new ∷ [])
        (λ _. log_of pass.new ≡ log_of pass.old) }
    ensures seen { MatchResult result (λ answer. SeesNext pass.old (Q.deed call.now answer places.new ∷ []) pass.new)
        (λ _. SeesNext pass.old [] pass.new) }
    ensures places { MatchResult result (λ answer. Q.writes call.now answer places.old places.new)
        (λ _. places.new ≡ places.old) }
{
    if !lock.try_take(pass) {
        return Err(Busy);
    }
    let answer = make_at(lock, pass, call, places);
    tell::<Q, Brand>(lock, pass, call, &answer, places);
    Ok(answer)
}

// Makes the call at the driver that the pass has taken.
fn make_at<Q: DriverCall>(
    lock: &DriverLock,
    pass: &mut DriverPass,
    call: &Q,
    places: &mut [Q::Written],
) -> Q::Answer
    requires { (x : _) × IsHolding lock.now pass.old x x × (Q.reach call.now (length places.old) ≤ pages_at x) }
    ensures name { name_of pass.new ≡ name_of pass.old }
    ensures log { log_of pass.new ≡ log_of pass.old }
    ensures seen { seen_of pass.new ≡ seen_of pass.old }
    ensures made { (x : _) × (y : _) × IsHolding lock.now pass.new x y
        × DriverDoes x (Q.deed call.now result places.new) y }
    ensures writes { Q.writes call.now result places.old places.new }
{
    call.make(pass.value_mut(lock), places)
}

// Gives the driver back, after this call: the proof of a call of this picks the deed as that of `J`.
fn tell<Q: DriverCall, J: Done<DriverDeed>>(
    lock: &DriverLock,
    pass: &mut DriverPass,
    _call: &Q,
    _answer: &Q::Answer,
    _places: &[Q::Written],
)
    requires deed { J.done ≡ Q.deed _call.now _answer.now _places.now ∷ [] }
    requires made { (x : _) × (y : _) × IsHolding lock.now pass.old x y
        × DriverDoes x (Q.deed _call.now _answer.now _places.now) y }
    ensures idle { IsIdle lock.now pass.new }
    ensures name { name_of pass.new ≡ name_of pass.old }
    ensures log { log_of pass.new ≡ log_of pass.old ++ Q.deed _call.now _answer.now _places.now ∷ [] }
    ensures seen { seen_of pass.new
        ≡ seen_of pass.old ++ named (name_of pass.old) (Q.deed _call.now _answer.now _places.now ∷ []) }
{
    lock.give_back_after::<J>(pass);
}
