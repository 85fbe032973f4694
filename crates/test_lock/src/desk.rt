//! Passes that are given back without the keeper at hand: it lies at a desk, behind a lock of its own, and who gives
//! a pass back takes that lock. The passes of the desk are never given back.
ghost use Rattle.std.specs.Prelude.{◌≡◌, ℕ, IfOk, IfSome};
ghost use Rattle.told_lock.specs.Deeds.{Leads};
ghost use Rattle.told_lock.specs.Rights.{IsHolding, IsIdle, IsKeeper, first_of, log_of, name_of};
ghost use Rattle.told_lock.specs.declared.lock.Lock.{Lock};
ghost use Rattle.test_lock.specs.Adding.{Added};
ghost use Rattle.test_lock.specs.declared.adds.Adds.{Adds};

use crate::adds::{Adds, Sum, try_add};
use std::alloc::{AllocError, Global};
use std::test::*;
use told_lock::{Deeds, Keeper, Lock, Pass};

// Passes were made or given back.
struct Counted;

impl Deeds<Keeper<u64, u64>, Counted> for Counted {
    ghost does = { λ before _ after. (lock : Lock ℕ ℕ Adds) × IsKeeper lock before × IsKeeper lock after };
}

type Desk = Lock<Keeper<u64, u64>, Counted, Counted>;

type Card = Pass<Keeper<u64, u64>, Counted>;

// Gives a pass back to the keeper that the card holds.
fn hand_over(lock: &Sum, desk: &Desk, card: &mut Card, pass: Pass<u64, u64>)
    requires keeper { (k : _) × IsHolding desk.now card.old k k × IsKeeper lock.now k }
    requires pass { IsIdle lock.now pass }
    ensures name { name_of card.new ≡ name_of card.old }
    ensures log { log_of card.new ≡ log_of card.old }
    ensures keeper { (k : _) × (l : _) × IsHolding desk.now card.new k l × IsKeeper lock.now k × IsKeeper lock.now l }
{
    lock.take_back(card.value_mut(desk), pass);
}

// Gives a pass back at the desk. It comes back if somebody else is there.
fn leave(lock: &Sum, desk: &Desk, card: &mut Card, pass: Pass<u64, u64>) -> Option<Pass<u64, u64>>
    requires desk { IsKeeper lock.now (first_of desk.now) }
    requires card { IsIdle desk.now card.old }
    requires pass { IsIdle lock.now pass }
    ensures card { IsIdle desk.now card.new }
    ensures pass { IfSome result (λ p. p ≡ pass) }
{
    if !desk.try_take(card) {
        return Some(pass);
    }
    hand_over(lock, desk, card, pass);
    desk.give_back(card, &Counted);
    None
}

// The number, if all passes are back.
fn close(lock: Sum, desk: Desk) -> Option<u64>
    requires { IsKeeper lock (first_of desk) }
    ensures { IfSome result (λ value. (told : _) × (seen : _) × Leads Added (first_of lock) told seen value) }
{
    let Ok(keeper) = desk.into_inner() else {
        return None;
    };
    if keeper.out > 0 {
        return None;
    }
    Some(lock.close(keeper))
}

// Two passes add a number each and are given back at the desk. The number, if all went well.
fn added_at_desk(alloc: Global, first: u64, one: u64, two: u64) -> Result<Option<u64>, AllocError>
    ensures { IfOk result (λ found. IfSome found (λ value. (told : _) × (seen : _)
        × Leads Added first told seen value)) }
{
    let (lock, mut keeper) = Sum::new(alloc, first)?;
    let a = lock.new_pass(&mut keeper);
    let b = lock.new_pass(&mut keeper);
    let (desk, mut cards) = Desk::new(alloc, keeper)?;
    let mut card = desk.new_pass(&mut cards);
    let (a, _) = try_add(&lock, a, one);
    let (b, _) = try_add(&lock, b, two);
    leave(&lock, &desk, &mut card, a);
    leave(&lock, &desk, &mut card, b);
    Ok(close(lock, desk))
}

#[test]
fn passes_come_back_at_the_desk(rt: HostRuntime) -> Result<(), Fail> {
    let value = added_at_desk(rt.alloc(), 5, 3, 4)?;
    assert_eq!(rt; value, Some(12));
    Ok(())
}
