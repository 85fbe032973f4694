ghost use Rattle.std.specs.Prelude.{◌≡◌, ◌<◌, ◌≤◌, ℕ, [], false, true, All, IfErr, IfOk, Ok, Some, length, slice_get};
ghost use Rattle.like_requests.specs.Verdict.{home};
ghost use Rattle.like_limits.specs.Limits.{max_workers};
ghost use Rattle.like_collection.specs.declared.collect_fault.CollectFault.TheVariants.{Memory};
ghost use Rattle.like_promises.specs.places.Places.{ArePlaces, lists_in};
ghost use Rattle.like_promises.specs.declared.log.WorkerLog.{WorkerLog as Log};
ghost use Rattle.like_tables.specs.Share.{share_of, worker_of};
ghost use Rattle.like_tables.specs.UserTable.{last_of};

use like_collection::{CollectFault, places};
use like_promises::{Place, Replies, WorkerLog};
use std::alloc::{AllocError, Global};

/// The replies that were collected: only memory can be lacking.
pub fn replies_of(collected: Result<Replies, CollectFault>) -> Result<Replies, AllocError>
    requires { IfErr collected (λ fault. fault ≡ Memory) }
    ensures { IfOk result (λ replies. collected ≡ Ok replies) }
{
    match collected {
        Ok(replies) => Ok(replies),
        Err(CollectFault::Memory) => Err(AllocError),
        Err(_) => unreachable!(),
    }
}

/// The last like of each user, as the log of its worker has it.
pub fn last_likes(
    alloc: Global,
    users: u32,
    submitters: u32,
    logs: &[WorkerLog],
) -> Result<Vec<Option<u32>>, AllocError>
    requires submitters { 1 ≤ submitters }
    requires logs { 1 ≤ length logs.now }
    requires tables { (worker : ℕ) (log : Log) → slice_get logs.now worker ≡ Some log
        → log.last.share ≡ share_of users submitters (length logs.now) worker }
    ensures len { IfOk result (λ last. length last.items ≡ users) }
    ensures last { IfOk result (λ last. (user : ℕ) (log : Log) → user < users
        → slice_get logs.now (worker_of (length logs.now) (home submitters user)) ≡ Some log
        → slice_get last.items user ≡ Some (last_of log.last user)) }
{
    let mut last = vec![in alloc; None; users as usize]?;
    for log in logs {
        log.last.give_to(&mut last);
    }
    Ok(last)
}

/// The places of the additions to each page if they were noted, else nothing.
pub fn places_of(
    alloc: Global,
    notes: bool,
    pages: u32,
    logs: &[WorkerLog],
) -> Result<Vec<Vec<Place>>, AllocError>
    requires few { length logs.now ≤ max_workers }
    requires there { notes ≡ true → All (λ log. All (λ a. a.page < pages) log.adds.items) logs.now }
    ensures noted { notes ≡ true
        → IfOk result (λ rows. ArePlaces pages logs.now (lists_in rows.items)) }
    ensures none { notes ≡ false → IfOk result (λ rows. rows.items ≡ []) }
{
    if notes {
        places(alloc, pages, logs)
    } else {
        Ok(Vec::new(alloc))
    }
}
