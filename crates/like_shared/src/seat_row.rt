//! Calls of a seat that are made under one taking of its lock.
ghost use Rattle.std.specs.Prelude.{◌≡◌, ◌++◌, [], IfErr, IsFalse, List, MatchResult};
ghost use Rattle.told_lock.specs.Deeds.{HasRun, named};
ghost use Rattle.told_lock.specs.Rights.{IsHolding, IsIdle, SeesNext, log_of, name_of, seen_of};
ghost use Rattle.like_shared.specs.declared.deed.SeatDeed.{SeatDeed};
ghost use Rattle.like_shared.specs.Deeds.{SeatDoes};
ghost use Rattle.like_shared.specs.Passes.{IsReady, log_at};

use crate::deed::SeatDeed;
use crate::seat_call::{Busy, FreePass, SeatLock, SeatPass};
use like_board::SharedPost;
use like_live::LiveSeat;
use std::marker::Brand;
use told_lock::Done;

/// Calls of a seat, one after the other. With their answer, and with what they wrote, they are deeds.
pub trait SeatRow {
    /// What they are told.
    type Answer;

    /// What they write, one at each place that they are given.
    type Written;

    /// The deeds that they are, with this answer, and with this at their places.
    ghost deeds: { Self → Self.Answer → List Self.Written → List SeatDeed };

    /// What was at the places, and what is there after this answer.
    ghost writes: { Self → Self.Answer → List Self.Written → List Self.Written → Type 0 };

    /// Makes the calls.
    fn make(&self, seat: &mut LiveSeat<SharedPost>, places: &mut [Self::Written]) -> Self::Answer
        ensures run { HasRun SeatDoes seat.old (deeds self.now result places.new) seat.new }
        ensures writes { writes self.now result places.old places.new };
}

/// Makes the calls if no other thread has the seat. The log has them then, with their answer, and with what they wrote. A
/// pass that holds the seat keeps it.
pub fn try_row<Q: SeatRow>(
    lock: &SeatLock,
    pass: &mut SeatPass,
    row: &Q,
    places: &mut [Q::Written],
) -> Result<Q::Answer, Busy>
    requires { IsReady lock.now pass.old }
    ensures ready { IsReady lock.now pass.new }
    ensures held { pass.new.is_held ≡ pass.old.is_held }
    ensures name { name_of pass.new.pass ≡ name_of pass.old.pass }
    ensures log { MatchResult result
        (λ answer. log_at pass.new ≡ log_at pass.old ++ Q.deeds row.now answer places.new)
        (λ _. log_at pass.new ≡ log_at pass.old) }
    ensures seen { MatchResult result
        (λ answer. SeesNext pass.old.pass (Q.deeds row.now answer places.new) pass.new.pass)
        (λ _. SeesNext pass.old.pass [] pass.new.pass) }
    ensures free { IfErr result (λ _. IsFalse pass.old.is_held) }
    ensures places { MatchResult result (λ answer. Q.writes row.now answer places.old places.new)
        (λ _. places.new ≡ places.old) }
{
    if pass.is_held {
        return Ok(row_held(lock, &mut pass.pass, row, places));
    }
    row_free(lock, &mut pass.pass, row, places)
}

// Makes the calls if no other thread has the seat, and gives the seat back.
fn row_free<Q: SeatRow>(
    lock: &SeatLock,
    pass: &mut FreePass,
    row: &Q,
    places: &mut [Q::Written],
) -> Result<Q::Answer, Busy>
    requires { IsIdle lock.now pass.old }
    ensures idle { IsIdle lock.now pass.new }
    ensures name { name_of pass.new ≡ name_of pass.old }
    ensures log { MatchResult result
        (λ answer. log_of pass.new ≡ log_of pass.old ++ Q.deeds row.now answer places.new)
        (λ _. log_of pass.new ≡ log_of pass.old) }
    ensures seen { MatchResult result (λ answer. SeesNext pass.old (Q.deeds row.now answer places.new) pass.new)
        (λ _. SeesNext pass.old [] pass.new) }
    ensures places { MatchResult result (λ answer. Q.writes row.now answer places.old places.new)
        (λ _. places.new ≡ places.old) }
{
    if !lock.try_take(pass) {
        return Err(Busy);
    }
    let answer = make_at(lock, pass, row, places);
    tell::<Q, Brand>(lock, pass, row, &answer, places);
    Ok(answer)
}

// Makes the calls at the seat that the pass holds, and keeps it.
fn row_held<Q: SeatRow>(
    lock: &SeatLock,
    pass: &mut FreePass,
    row: &Q,
    places: &mut [Q::Written],
) -> Q::Answer
    requires { (x : _) × IsHolding lock.now pass.old x x }
    ensures holding { (x : _) × IsHolding lock.now pass.new x x }
    ensures name { name_of pass.new ≡ name_of pass.old }
    ensures log { log_of pass.new ≡ log_of pass.old ++ Q.deeds row.now result places.new }
    ensures seen { SeesNext pass.old (Q.deeds row.now result places.new) pass.new }
    ensures places { Q.writes row.now result places.old places.new }
{
    let answer = make_at(lock, pass, row, places);
    note::<Q, Brand>(lock, pass, row, &answer, places);
    answer
}

// Makes the calls at the seat that the pass has taken.
fn make_at<Q: SeatRow>(
    lock: &SeatLock,
    pass: &mut FreePass,
    row: &Q,
    places: &mut [Q::Written],
) -> Q::Answer
    requires { (x : _) × IsHolding lock.now pass.old x x }
    ensures name { name_of pass.new ≡ name_of pass.old }
    ensures log { log_of pass.new ≡ log_of pass.old }
    ensures seen { seen_of pass.new ≡ seen_of pass.old }
    ensures made { (x : _) × (y : _) × IsHolding lock.now pass.new x y
        × HasRun SeatDoes x (Q.deeds row.now result places.new) y }
    ensures writes { Q.writes row.now result places.old places.new }
{
    row.make(pass.value_mut(lock), places)
}

// Gives the seat back, after these calls: the proof of a call of this picks their deeds as those of `J`.
fn tell<Q: SeatRow, J: Done<SeatDeed>>(
    lock: &SeatLock,
    pass: &mut FreePass,
    _row: &Q,
    _answer: &Q::Answer,
    _places: &[Q::Written],
)
    requires deeds { J.done ≡ Q.deeds _row.now _answer.now _places.now }
    requires made { (x : _) × (y : _) × IsHolding lock.now pass.old x y
        × HasRun SeatDoes x (Q.deeds _row.now _answer.now _places.now) y }
    ensures idle { IsIdle lock.now pass.new }
    ensures name { name_of pass.new ≡ name_of pass.old }
    ensures log { log_of pass.new ≡ log_of pass.old ++ Q.deeds _row.now _answer.now _places.now }
    ensures seen { seen_of pass.new
        ≡ seen_of pass.old ++ named (name_of pass.old) (Q.deeds _row.now _answer.now _places.now) }
{
    lock.give_back_after::<J>(pass);
}

// Tells the row's deeds, and keeps the seat.
fn note<Q: SeatRow, J: Done<SeatDeed>>(
    lock: &SeatLock,
    pass: &mut FreePass,
    _row: &Q,
    _answer: &Q::Answer,
    _places: &[Q::Written],
)
    requires deeds { J.done ≡ Q.deeds _row.now _answer.now _places.now }
    requires made { (x : _) × (y : _) × IsHolding lock.now pass.old x y
        × HasRun SeatDoes x (Q.deeds _row.now _answer.now _places.now) y }
    ensures holding { (x : _) × IsHolding lock.now pass.new x x }
    ensures name { name_of pass.new ≡ name_of pass.old }
    ensures log { log_of pass.new ≡ log_of pass.old ++ Q.deeds _row.now _answer.now _places.now }
    ensures seen { seen_of pass.new
        ≡ seen_of pass.old ++ named (name_of pass.old) (Q.deeds _row.now _answer.now _places.now) }
{
    lock.note_after::<J>(pass);
}
