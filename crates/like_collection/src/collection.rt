ghost use Rattle.std.specs.Prelude.{◌≤◌, MatchResult, length};
ghost use Rattle.like_limits.specs.Limits.{max_submitters};
ghost use Rattle.like_collection.specs.CollectFaults.{IsCollectFault};
ghost use Rattle.like_promises.specs.Collected.{IsCollected, rows_of, entries_in};

mod parts;
mod slot_row;
mod slots;

use self::parts::{join, parts_of};
use self::slots::Slots;
use crate::collect_fault::CollectFault;
use like_promises::{Replies, WorkerLog};
use std::alloc::Global;
use std::thread::Threads;

/// Collects the answer of each request from the workers' logs. `sizes` tells how many requests each submitter has.
///
/// Entries are tested in the order of the logs and of their lists, each first for `Stranger` and then for `Double`;
/// then the least request without an entry is `Missing`. The time is linear in the entries and requests.
pub fn collect(alloc: Global, sizes: &[u32], logs: &[WorkerLog]) -> Result<Replies, CollectFault>
    requires { length sizes.now ≤ max_submitters }
    ensures { MatchResult result
        (λ replies. IsCollected sizes.now (entries_in logs.now) (rows_of replies))
        (IsCollectFault sizes.now (entries_in logs.now)) }
{
    let mut slots = Slots::new(alloc, sizes)?;
    for log in logs {
        slots.put_all(&log.ran)?;
    }
    slots.into_replies(alloc)
}

/// Collects the answer of each request from the workers' logs, in parallel, if the entries of submitter s's requests are
/// in log s mod N, of N logs; else one log after the other. The fault is the one that `collect` tells. It starts at most
/// `starts` threads, and with 0 the calling thread collects all.
pub fn collect_in_parallel<T: Threads + Sync>(
    rt: &T,
    alloc: Global,
    sizes: &[u32],
    logs: &[WorkerLog],
    starts: u32,
) -> Result<Replies, CollectFault>
    requires { length sizes.now ≤ max_submitters }
    ensures { MatchResult result
        (λ replies. IsCollected sizes.now (entries_in logs.now) (rows_of replies))
        (IsCollectFault sizes.now (entries_in logs.now)) }
{
    match parts_of(rt, alloc, sizes, logs, starts as usize + 1) {
        Ok(parts) if !logs.is_empty() => Ok(join(alloc, sizes.len(), parts)?),
        Err(CollectFault::Memory) => Err(CollectFault::Memory),
        _ => collect(alloc, sizes, logs),
    }
}
