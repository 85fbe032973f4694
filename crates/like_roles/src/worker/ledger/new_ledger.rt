ghost use Rattle.std.specs.Prelude.{◌≡◌, ℕ, ◌<◌, ◌≤◌, All, IfOk, length, sum, false, None};
ghost use Rattle.like_limits.specs.Limits.{max_likes, max_requests, max_submitters, max_workers};
ghost use Rattle.like_tables.specs.Share.{dealt, submitter_of};
ghost use Rattle.like_requests.specs.Setup.{IsWithin};
ghost use Rattle.like_roles.specs.worker.Ledger.{IsNewLedger};

use crate::terms::Terms;
use crate::worker::ledger::Ledger;
use like_requests::Setup;
use std::alloc::{AllocError, Global};

impl Ledger {
    /// What a worker keeps at first. All its memory is taken here.
    pub fn new(
        alloc: Global,
        setup: &Setup,
        terms: Terms<'_>,
        worker: u32,
    ) -> Result<Ledger, AllocError>
        requires within { IsWithin setup.now terms.sizes.now }
        requires is_worker { worker < setup.now.workers }
        ensures { IfOk result (IsNewLedger setup.now terms.entry worker) }
    {
        let left = own_sizes(alloc, terms.sizes, setup.workers, worker)?;
        let room = left.iter().sum::<u32>() as usize;
        Ok(Ledger {
            started: false,
            ended: vec![in alloc; false; left.len()]?,
            left,
            cursor: 0,
            pending: None,
            taken: Vec::with_capacity(alloc, room)?,
            ran: Vec::with_capacity(alloc, room)?,
            notes: terms.notes,
            adds: Vec::with_capacity(alloc, if terms.notes { room } else { 0 })?,
        })
    }
}

// The numbers of requests of a worker's submitters, by rank.
fn own_sizes(
    alloc: Global,
    sizes: &[u32],
    workers: u32,
    worker: u32,
) -> Result<Vec<u32>, AllocError>
    requires some { 1 ≤ workers }
    requires few_workers { workers ≤ max_workers }
    requires few_submitters { length sizes.now ≤ max_submitters }
    requires is_worker { worker < workers }
    requires small { All (λ n. n ≤ max_requests) sizes.now }
    ensures sizes { IfOk result (λ own. own.items ≡ dealt workers worker sizes.now) }
    ensures there { IfOk result (λ own. (rank : ℕ) → rank < length own.items
        → submitter_of workers worker rank < length sizes.now) }
    ensures few { IfOk result (λ own. sum own.items ≤ max_likes) }
{
    let mut own = Vec::new(alloc);
    let mut submitter = worker as usize;
    while submitter < sizes.len() {
        own.push(sizes[submitter])?;
        submitter += workers as usize;
    }
    Ok(own)
}
