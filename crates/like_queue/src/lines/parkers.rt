use crate::line::PATIENCE;
use std::alloc::{AllocError, Global};
use std::sync::Wait;
use std::sync::atomic::{AtomicU64, Ordering};
use std::thread::Parker;
use std::time::Duration;

/// Where the threads that make turns wait: the workers, in order, for requests or for a change of phase, and the
/// coordinator for the workers. A thread that is woken before it waits goes on at once.
#[derive(Drop)]
pub struct Parkers {
    workers: Vec<Parker>,
    coordinator: Parker,
    // How many workers have nothing to do before their phase ends.
    idle: AtomicU64,
}

impl Parkers {
    /// For this many workers and their coordinator.
    pub fn new(alloc: Global, count: usize) -> Result<Parkers, AllocError> {
        let mut workers = Vec::new(alloc);
        for _ in 0..count {
            workers.push(Parker::new())?;
        }
        Ok(Parkers {
            workers,
            coordinator: Parker::new(),
            idle: AtomicU64::new(0),
        })
    }

    /// A worker waits, for requests or for the next phase.
    pub fn wait<R: Wait>(&self, rt: &R, worker: usize) {
        if let Some(parker) = self.workers.get(worker) {
            parker.park_timeout(rt, Duration::from_micros(PATIENCE));
        }
    }

    /// A worker that has nothing to do before its phase ends tells the coordinator, and waits.
    pub fn idle<R: Wait>(&self, rt: &R, worker: usize) {
        self.idle.fetch_add(1, Ordering::SeqCst);
        self.coordinator.unpark();
        self.wait(rt, worker);
        self.idle.fetch_sub(1, Ordering::SeqCst);
    }

    /// A worker has answered the coordinator, or is gone.
    pub fn answer(&self) {
        self.coordinator.unpark();
    }

    /// The coordinator waits for the workers' answers.
    pub fn wait_for_answers<R: Wait>(&self, rt: &R) {
        self.coordinator
            .park_timeout(rt, Duration::from_micros(PATIENCE));
    }

    /// The coordinator leaves the processor to others for this many microseconds, at most a millisecond, unless a worker
    /// is idle. It goes on when one becomes idle, answers, or is gone.
    pub fn pause<R: Wait>(&self, rt: &R, microseconds: u64) {
        if self.idle.load(Ordering::SeqCst) == 0 {
            self.coordinator
                .park_timeout(rt, Duration::from_micros(microseconds.min(PATIENCE)));
        }
    }

    /// Wakes all workers.
    pub fn wake_all(&self) {
        for parker in &self.workers {
            parker.unpark();
        }
    }

    /// Wakes the worker of a submitter.
    pub fn wake_worker_of(&self, submitter: u32) {
        if !self.workers.is_empty() {
            self.workers[submitter as usize % self.workers.len()].unpark();
        }
    }
}
