//! Two threads add to a number, each with a pass of its own.
ghost use Rattle.std.specs.Prelude.{◌≡◌, ◌+◌, ◌<◌, ◌≤◌, ◌^◌, IfOk, IfSome, if◌then◌else◌, sum};
ghost use Rattle.test_lock.specs.Adding.{Added};
ghost use Rattle.told_lock.specs.Rights.{IsHolding, IsIdle, log_of, name_of};

use std::alloc::{AllocError, Global};
use std::marker::Brand;
use std::test::*;
use std::thread::{Threads, join};
use told_lock::{Deeds, Lock, Pass, logs_weigh_all};

/// A number that is added to another.
pub(crate) struct Adds;

impl Deeds<u64, u64> for Adds {
    ghost does = { Added };
}

/// A number behind a lock.
pub(crate) type Sum = Lock<u64, u64, Adds>;

// Adds a number to the value that the pass has, if there is room for it. Whether it did.
fn add(lock: &Sum, pass: &mut Pass<u64, u64>, more: u64) -> bool
    requires { (x : _) × IsHolding lock.now pass.old x x }
    ensures name { name_of pass.new ≡ name_of pass.old }
    ensures log { log_of pass.new ≡ log_of pass.old }
    ensures added { (x : _) × IsHolding lock.now pass.new x (if result then x + more else x) }
{
    let value = pass.value_mut(lock);
    let Some(sum) = value.checked_add(more) else {
        return false;
    };
    *value = sum;
    true
}

/// Adds a number, if nobody else has the lock and there is room for it. The pass comes back, with what was added.
pub(crate) fn try_add(lock: &Sum, mut pass: Pass<u64, u64>, more: u64) -> (Pass<u64, u64>, u64)
    requires { IsIdle lock.now pass }
    ensures idle { IsIdle lock.now result.0 }
    ensures name { name_of result.0 ≡ name_of pass }
    ensures told { sum (log_of result.0) ≡ sum (log_of pass) + result.1 }
    ensures few { result.1 ≤ more }
{
    if !lock.try_take(&mut pass) {
        return (pass, 0);
    }
    if add(lock, &mut pass, more) {
        lock.give_back(&mut pass, &more);
        (pass, more)
    } else {
        lock.give_back_after::<Brand>(&mut pass);
        (pass, 0)
    }
}

// Adds a number, and then another while it keeps the lock, if nobody else has it. What was added.
fn try_add_both(lock: &Sum, pass: &mut Pass<u64, u64>, one: u64, two: u64) -> u64
    requires idle { IsIdle lock.now pass.old }
    requires room { one + two < 2 ^ 64 }
    ensures idle { IsIdle lock.now pass.new }
    ensures told { sum (log_of pass.new) ≡ sum (log_of pass.old) + result }
{
    if !lock.try_take(pass) {
        return 0;
    }
    if !add(lock, pass, one) {
        lock.give_back_after::<Brand>(pass);
        return 0;
    }
    lock.note(pass, &one);
    if !add(lock, pass, two) {
        lock.give_back_after::<Brand>(pass);
        return one;
    }
    lock.give_back(pass, &two);
    one + two
}

// Two threads try to add a number each. The value, and what they added.
fn added_by_two<R: Threads + Sync>(
    rt: &R,
    alloc: Global,
    first: u64,
    one: u64,
    two: u64,
) -> Result<(u64, u64), AllocError>
    requires { first + one + two < 2 ^ 64 }
    ensures { IfOk result (λ r. r.0 ≡ first + r.1) }
{
    let (lock, mut keeper) = Sum::new(alloc, first)?;
    let a = lock.new_pass(&mut keeper);
    let b = lock.new_pass(&mut keeper);
    let (a, b) = join(
        rt,
        || -> (Pass<u64, u64>, u64)
            requires { IsIdle lock a }
            ensures idle { IsIdle lock result.0 }
            ensures told { sum (log_of result.0) ≡ sum (log_of a) + result.1 }
            ensures few { result.1 ≤ one }
        { try_add(&lock, a, one) },
        || -> (Pass<u64, u64>, u64)
            requires { IsIdle lock b }
            ensures idle { IsIdle lock result.0 }
            ensures told { sum (log_of result.0) ≡ sum (log_of b) + result.1 }
            ensures few { result.1 ≤ two }
        { try_add(&lock, b, two) },
    );
    let (a, by_a) = a;
    let (b, by_b) = b;
    lock.take_back(&mut keeper, a);
    lock.take_back(&mut keeper, b);
    logs_weigh_all::<u64, u64, Adds>();
    Ok((lock.close(keeper), by_a + by_b))
}

// Tries to add a number with a pass that is lost then. The value, if it was given back.
fn added_by_lost(alloc: Global, first: u64, more: u64) -> Result<Option<u64>, AllocError>
    ensures { IfOk result (λ found. IfSome found (λ value. first ≤ value)) }
{
    let (lock, mut keeper) = Sum::new(alloc, first)?;
    let pass = lock.new_pass(&mut keeper);
    try_add(&lock, pass, more);
    match lock.into_inner() {
        Ok(value) => Ok(Some(value)),
        Err(_) => Ok(None),
    }
}

#[test]
fn two_threads_add(rt: HostRuntime) -> Result<(), Fail> {
    let (value, added) = added_by_two(&rt, rt.alloc(), 5, 3, 4)?;
    assert_eq!(rt; value, 5 + added);
    assert!(rt;
        added >= 3 && added <= 7,
        "{added} is less than 3 or more than 7"
    );
    Ok(())
}

#[test]
fn holder_adds_twice(rt: HostRuntime) -> Result<(), Fail> {
    let (lock, mut keeper) = Sum::new(rt.alloc(), 5)?;
    let mut pass = lock.new_pass(&mut keeper);
    let added = try_add_both(&lock, &mut pass, 3, 4);
    assert_eq!(rt; added, 7);
    lock.take_back(&mut keeper, pass);
    assert_eq!(rt; lock.close(keeper), 12);
    Ok(())
}

#[test]
fn pass_is_lost(rt: HostRuntime) -> Result<(), Fail> {
    let value = added_by_lost(rt.alloc(), 5, 3)?;
    assert_eq!(rt; value, Some(8));
    Ok(())
}
