//! A call of a seat behind its lock, if no other thread has it.
ghost use Rattle.std.specs.Prelude.{◌≡◌, ◌++◌, [], ◌∷◌, IfErr, IsFalse, MatchResult};
ghost use Rattle.told_lock.specs.Deeds.{named};
ghost use Rattle.told_lock.specs.Rights.{IsHolding, IsIdle, SeesNext, log_of, name_of, seen_of};
ghost use Rattle.like_shared.specs.declared.deed.SeatDeed.{SeatDeed};
ghost use Rattle.like_shared.specs.Deeds.{SeatDoes};
ghost use Rattle.like_shared.specs.Passes.{IsReady, log_at};

use crate::deed::{SeatDeed, SeatDeeds};
use like_board::SharedPost;
use like_live::LiveSeat;
use std::marker::Brand;
use told_lock::{Done, Lock, Pass};

/// A seat behind its lock.
pub type SeatLock = Lock<LiveSeat<SharedPost>, SeatDeed, SeatDeeds>;

/// The right to take a seat.
pub(crate) type FreePass = Pass<LiveSeat<SharedPost>, SeatDeed>;

/// The right of one thread to take a seat, and whether it holds it.
#[derive(Drop)]
pub struct SeatPass {
    pub(crate) pass: FreePass,
    pub(crate) is_held: bool,
}

/// Another thread has what was called, and nothing was done.
#[derive(Clone, Copy, Debug, PartialEq, Eq)]
pub struct Busy;

/// A call of a seat. With its answer it is a deed.
pub trait SeatCall {
    /// What it is told.
    type Answer;

    /// The deed that it is, with this answer.
    ghost deed: { Self → Self.Answer → SeatDeed };

    /// Makes the call.
    fn make(&self, seat: &mut LiveSeat<SharedPost>) -> Self::Answer
        ensures { SeatDoes seat.old (deed self.now result) seat.new };
}

/// Makes the call if no other thread has the seat. The log has it then, with its answer. A pass that holds the seat keeps
/// it.
#[inline(always)]
pub fn try_call<Q: SeatCall>(
    lock: &SeatLock,
    pass: &mut SeatPass,
    call: &Q,
) -> Result<Q::Answer, Busy>
    requires { IsReady lock.now pass.old }
    ensures ready { IsReady lock.now pass.new }
    ensures held { pass.new.is_held ≡ pass.old.is_held }
    ensures name { name_of pass.new.pass ≡ name_of pass.old.pass }
    ensures log { MatchResult result (λ answer. log_at pass.new ≡ log_at pass.old ++ Q.deed call.now answer ∷ [])
        (λ _. log_at pass.new ≡ log_at pass.old) }
    ensures seen { MatchResult result
        (λ answer. SeesNext pass.old.pass (Q.deed call.now answer ∷ []) pass.new.pass)
        (λ _. SeesNext pass.old.pass [] pass.new.pass) }
    ensures free { IfErr result (λ _. IsFalse pass.old.is_held) }
{
    if pass.is_held {
        return Ok(call_held(lock, &mut pass.pass, call));
    }
    call_free(lock, &mut pass.pass, call)
}

// Makes the call if no other thread has the seat, and gives the seat back.
#[inline(always)]
fn call_free<Q: SeatCall>(lock: &SeatLock, pass: &mut FreePass, call: &Q) -> Result<Q::Answer, Busy>
    requires { IsIdle lock.now pass.old }
    ensures idle { IsIdle lock.now pass.new }
    ensures name { name_of pass.new ≡ name_of pass.old }
    ensures log { MatchResult result (λ answer. log_of pass.new ≡ log_of pass.old ++ Q.deed call.now answer ∷ [])
        (λ _. log_of pass.new ≡ log_of pass.old) }
    ensures seen { MatchResult result (λ answer. SeesNext pass.old (Q.deed call.now answer ∷ []) pass.new)
        (λ _. SeesNext pass.old [] pass.new) }
{
    if !lock.try_take(pass) {
        return Err(Busy);
    }
    let answer = make_at(lock, pass, call);
    tell::<Q, Brand>(lock, pass, call, &answer);
    Ok(answer)
}

// Makes the call at the seat that the pass holds, and keeps it. Kept out of line, so that calls at other seats cost one
// test.
#[inline(never)]
fn call_held<Q: SeatCall>(lock: &SeatLock, pass: &mut FreePass, call: &Q) -> Q::Answer
    requires { (x : _) × IsHolding lock.now pass.old x x }
    ensures holding { (x : _) × IsHolding lock.now pass.new x x }
    ensures name { name_of pass.new ≡ name_of pass.old }
    ensures log { log_of pass.new ≡ log_of pass.old ++ Q.deed call.now result ∷ [] }
    ensures seen { SeesNext pass.old (Q.deed call.now result ∷ []) pass.new }
{
    let answer = make_at(lock, pass, call);
    note::<Q, Brand>(lock, pass, call, &answer);
    answer
}

// Makes the call at the seat that the pass has taken.
#[inline(always)]
fn make_at<Q: SeatCall>(lock: &SeatLock, pass: &mut FreePass, call: &Q) -> Q::Answer
    requires { (x : _) × IsHolding lock.now pass.old x x }
    ensures name { name_of pass.new ≡ name_of pass.old }
    ensures log { log_of pass.new ≡ log_of pass.old }
    ensures seen { seen_of pass.new ≡ seen_of pass.old }
    ensures made { (x : _) × (y : _) × IsHolding lock.now pass.new x y × SeatDoes x (Q.deed call.now result) y }
{
    call.make(pass.value_mut(lock))
}

// Gives the seat back, after this call: the proof of a call of this picks the deed as that of `J`.
#[inline(always)]
fn tell<Q: SeatCall, J: Done<SeatDeed>>(
    lock: &SeatLock,
    pass: &mut FreePass,
    _call: &Q,
    _answer: &Q::Answer,
)
    requires deed { J.done ≡ Q.deed _call.now _answer.now ∷ [] }
    requires made { (x : _) × (y : _) × IsHolding lock.now pass.old x y
        × SeatDoes x (Q.deed _call.now _answer.now) y }
    ensures idle { IsIdle lock.now pass.new }
    ensures name { name_of pass.new ≡ name_of pass.old }
    ensures log { log_of pass.new ≡ log_of pass.old ++ Q.deed _call.now _answer.now ∷ [] }
    ensures seen { seen_of pass.new ≡ seen_of pass.old ++ named (name_of pass.old) (Q.deed _call.now _answer.now ∷ []) }
{
    lock.give_back_after::<J>(pass);
}

// Tells the call's deed, and keeps the seat.
#[inline(always)]
fn note<Q: SeatCall, J: Done<SeatDeed>>(
    lock: &SeatLock,
    pass: &mut FreePass,
    _call: &Q,
    _answer: &Q::Answer,
)
    requires deed { J.done ≡ Q.deed _call.now _answer.now ∷ [] }
    requires made { (x : _) × (y : _) × IsHolding lock.now pass.old x y
        × SeatDoes x (Q.deed _call.now _answer.now) y }
    ensures holding { (x : _) × IsHolding lock.now pass.new x x }
    ensures name { name_of pass.new ≡ name_of pass.old }
    ensures log { log_of pass.new ≡ log_of pass.old ++ Q.deed _call.now _answer.now ∷ [] }
    ensures seen { seen_of pass.new ≡ seen_of pass.old ++ named (name_of pass.old) (Q.deed _call.now _answer.now ∷ []) }
{
    lock.note_after::<J>(pass);
}
