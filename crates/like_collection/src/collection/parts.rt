ghost use Rattle.std.specs.Prelude.{◌≡◌, ◌≢◌, ◌<◌, ◌≤◌, ◌↔◌, ℕ, [], All, Any, Err, IfOk, IsTrue, Ok, length, map, slice_get, slice_index_or, Some};
ghost use Rattle.like_limits.specs.Limits.{max_submitters};
ghost use Rattle.like_promises.specs.Collected.{rows_of};
ghost use Rattle.like_promises.specs.declared.log.WorkerLog.{WorkerLog as Log};
ghost use Rattle.like_collection.specs.declared.collect_fault.CollectFault.TheVariants.{Memory};
ghost use Rattle.like_collection.specs.Parts.{AreParts, IsPart, own, own_sizes, row_in};

use crate::collect_fault::CollectFault;
use crate::collection::slots::Slots;
use like_promises::{Answer, Replies, WorkerLog};
use std::alloc::{AllocError, Global};
use std::thread::Threads;
use std::{mem, thread};

/// The part of the replies that is in each log, if that has one entry for each request of its worker's submitters, and
/// no other. Up to this many threads collect them, the calling one among them.
pub(crate) fn parts_of<T: Threads + Sync>(
    rt: &T,
    alloc: Global,
    sizes: &[u32],
    logs: &[WorkerLog],
    threads: usize,
) -> Result<Vec<Replies>, CollectFault>
    requires few { length sizes.now ≤ max_submitters }
    requires some { 0 < threads }
    ensures { IfOk result (λ parts. AreParts sizes.now logs.now parts.items) }
{
    let mut collected = uncollected(alloc, logs.len())?;
    let part = |worker: usize, part: &mut Result<Replies, CollectFault>|
        requires { (worker < length logs.now) × (length sizes.now ≤ max_submitters) }
        ensures { IfOk part.new (λ part. (log : Log) → slice_get logs.entry.now worker ≡ Some log
            → IsPart (length logs.entry.now) sizes.entry.now worker log part) }
    { *part = part_of(alloc, sizes, logs.len(), worker, &logs[worker]) };
    thread::for_each_mut(rt, &mut collected, threads, &part);
    all_of(alloc, collected)
}

// A place for each part, with none collected yet.
fn uncollected(
    alloc: Global,
    count: usize,
) -> Result<Vec<Result<Replies, CollectFault>>, AllocError>
    ensures { IfOk result (λ places. length places.items ≡ count) }
{
    let mut places = Vec::with_capacity(alloc, count)?;
    for _place in 0..count {
        places.push(Err(CollectFault::Memory))?;
    }
    Ok(places)
}

// The part in a worker's log.
fn part_of(
    alloc: Global,
    sizes: &[u32],
    workers: usize,
    worker: usize,
    log: &WorkerLog,
) -> Result<Replies, CollectFault>
    requires some { 0 < workers }
    requires few { length sizes.now ≤ max_submitters }
    ensures { IfOk result (IsPart workers sizes.now worker log.now) }
{
    let own = own_sizes(alloc, sizes, workers, worker)?;
    let mut slots = Slots::new(alloc, &own)?;
    slots.put_all(&log.ran)?;
    slots.into_replies(alloc)
}

// How many requests each submitter has, or none where another worker serves it.
fn own_sizes(
    alloc: Global,
    sizes: &[u32],
    workers: usize,
    worker: usize,
) -> Result<Vec<u32>, AllocError>
    requires { 0 < workers }
    ensures { IfOk result (λ own. own.items ≡ own_sizes workers worker sizes.now) }
{
    let mut own = Vec::with_capacity(alloc, sizes.len())?;
    for (submitter, size) in sizes.iter().enumerate() {
        own.push(own_size(*size, submitter, workers, worker))?;
    }
    Ok(own)
}

// How many requests of a submitter a worker serves: this many, or none.
fn own_size(size: u32, submitter: usize, workers: usize, worker: usize) -> u32
    requires { 0 < workers }
    ensures { result ≡ own workers worker (submitter, size) }
{
    if submitter % workers == worker {
        size
    } else {
        0
    }
}

// The parts, or `Memory` if one was refused memory, or else the fault of the first that has one.
fn all_of(
    alloc: Global,
    collected: Vec<Result<Replies, CollectFault>>,
) -> Result<Vec<Replies>, CollectFault>
    ensures parts { IfOk result (λ parts. collected.items ≡ map Ok parts.items) }
    ensures memory { Any (λ part. part ≡ Err Memory) collected.items → result ≡ Err Memory }
{
    if lacks_memory(&collected) {
        return Err(CollectFault::Memory);
    }
    let mut parts = Vec::with_capacity(alloc, collected.len())?;
    for part in collected {
        parts.push(part?)?;
    }
    Ok(parts)
}

// Whether one was refused memory.
fn lacks_memory(collected: &[Result<Replies, CollectFault>]) -> bool
    ensures { IsTrue result ↔ Any (λ part. part ≡ Err Memory) collected.now }
{
    collected
        .iter()
        .any(|part| matches!(part, Err(CollectFault::Memory)))
}

/// The rows of the parts, each from the part of its submitter's worker.
pub(crate) fn join(alloc: Global, count: usize, parts: Vec<Replies>) -> Result<Replies, AllocError>
    requires some { 0 < length parts.items }
    requires full { All (λ part. length (rows_of part) ≡ count) parts.items }
    ensures count { IfOk result (λ replies. length (rows_of replies) ≡ count) }
    ensures rows { IfOk result (λ replies. (submitter : ℕ) → submitter < count
        → slice_index_or (rows_of replies) submitter [] ≡ row_in (map rows_of parts.items) submitter) }
{
    let mut parts = parts;
    let mut rows = Vec::with_capacity(alloc, count)?;
    for submitter in 0..count {
        rows.push(take_row(alloc, &mut parts, submitter))?;
    }
    Ok(Replies { rows })
}

// Takes a submitter's row out of the part of its worker.
fn take_row(alloc: Global, parts: &mut Vec<Replies>, submitter: usize) -> Vec<Answer>
    requires some { 0 < length parts.old.items }
    requires there { All (λ part. submitter < length (rows_of part)) parts.old.items }
    ensures row { result.items ≡ row_in (map rows_of parts.old.items) submitter }
    ensures others { (other : ℕ) → other ≢ submitter
        → row_in (map rows_of parts.new.items) other ≡ row_in (map rows_of parts.old.items) other }
    ensures sizes { map (λ part. length (rows_of part)) parts.new.items
        ≡ map (λ part. length (rows_of part)) parts.old.items }
{
    let worker = submitter % parts.len();
    mem::replace(&mut parts[worker].rows[submitter], Vec::new(alloc))
}
