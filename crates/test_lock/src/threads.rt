//! What threads may take and share.
ghost use Rattle.std.specs.Prelude.{◌≡◌};

use crate::adds::{Adds, Sum};
use std::alloc::{AllocError, Global};
use std::test::*;
use told_lock::{Deeds, Keeper, Lock, Pass};

// Gives a value back: it shows that threads may take and share one of its type.
fn for_all_threads<T: Send + Sync>(value: T) -> T
    ensures { result ≡ value }
{
    value
}

// Gives a value back: it shows that any thread may take one of its type.
fn for_any_thread<T: Send>(value: T) -> T
    ensures { result ≡ value }
{
    value
}

// Threads share a lock of whatever any thread may take, and take its passes and its keeper.
fn cross<T: Send, C, D: Deeds<T, C>>(
    lock: Lock<T, C, D>,
    keeper: Keeper<T, C>,
    pass: Pass<T, C>,
) -> (Lock<T, C, D>, Keeper<T, C>, Pass<T, C>)
    ensures { result ≡ (lock, keeper, pass) }
{
    (
        for_all_threads(lock),
        for_any_thread(keeper),
        for_any_thread(pass),
    )
}

// A lock that has crossed threads.
fn crossed(alloc: Global, first: u64) -> Result<Sum, AllocError> {
    let (lock, mut keeper) = Sum::new(alloc, first)?;
    let pass = lock.new_pass(&mut keeper);
    let (lock, _, _) = cross::<u64, u64, Adds>(lock, keeper, pass);
    Ok(lock)
}

#[test]
fn locks_cross_threads(rt: HostRuntime) -> Result<(), Fail> {
    let lock = crossed(rt.alloc(), 5)?;
    assert_eq!(rt; lock.into_inner(), Ok(5));
    Ok(())
}
