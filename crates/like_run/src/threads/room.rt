ghost use Rattle.std.specs.Prelude.{◌≡◌, [], IfOk, vec_capacity};

use crate::threads::worker::{Owes, Served};
use like_board::WorkerSeat;
use like_promises::WorkerLog;
use std::alloc::{AllocError, Global};
use std::thread::{JoinHandle, PromisedHandle};

/// Room for the handles of a run's threads, and for what the workers leave.
#[derive(Drop)]
pub struct Room<'s> {
    pub workers: Vec<PromisedHandle<Served<'s>, Owes<'s>>>,
    pub submitters: Vec<JoinHandle<()>>,
    pub logs: Vec<WorkerLog>,
    pub seats: Vec<WorkerSeat>,
}

impl<'s> Room<'s> {
    /// Empty room for this many workers and submitters.
    pub fn new(alloc: Global, workers: usize, submitters: usize) -> Result<Room<'s>, AllocError>
        ensures workers { IfOk result (λ r. (r.workers.items ≡ []) × (vec_capacity r.workers ≡ workers)) }
        ensures submitters { IfOk result (λ r. (r.submitters.items ≡ []) × (vec_capacity r.submitters ≡ submitters)) }
        ensures logs { IfOk result (λ r. (r.logs.items ≡ []) × (vec_capacity r.logs ≡ workers)) }
        ensures seats { IfOk result (λ r. (r.seats.items ≡ []) × (vec_capacity r.seats ≡ workers)) }
    {
        Ok(Room {
            workers: Vec::with_capacity(alloc, workers)?,
            submitters: Vec::with_capacity(alloc, submitters)?,
            logs: Vec::with_capacity(alloc, workers)?,
            seats: Vec::with_capacity(alloc, workers)?,
        })
    }
}
