//! A gate that holds each call to the one before it, and two workers to each other.
use super::count::{Count, Counts};
use like_roles::Gate;
use std::thread::yield_now;

// How many times a call that waits looks.
const LOOKS: u32 = 1 << 24;

/// A gate of two workers and three submitters, whose requests run in their order. It knows how many requests of each
/// submitter were pushed and ran, and how many phases each worker entered, so it knows the next call of each kind.
///
/// Worker 0 is held in the turn of its second request until worker 1 has come to its second, and submitter 1 is held
/// before its first until worker 0 is there. So the first request of worker 1 is run within that turn of worker 0, whose
/// second request must not have run yet.
#[derive(Drop)]
pub struct Ledger {
    pushed: Counts,
    ran: Counts,
    entered: Counts,
    wrong: Count,
}

impl Ledger {
    pub fn new() -> Ledger {
        Ledger {
            pushed: Counts::none(),
            ran: Counts::none(),
            entered: Counts::none(),
            wrong: Count::none(),
        }
    }

    /// How many calls were not the next one, or waited in vain.
    pub fn wrong(&self) -> u32 {
        self.wrong.get()
    }

    /// How many requests each submitter pushed, and how many of each ran.
    pub fn calls(&self) -> ([u32; 3], [u32; 3]) {
        (self.pushed.all(), self.ran.all())
    }

    fn require(&self, holds: bool) {
        if !holds {
            self.wrong.add(1);
        }
    }

    // Waits until a submitter's request of this number comes to run.
    fn wait(&self, submitter: u32, number: u32) {
        for _ in 0..LOOKS {
            if self.ran.get(submitter) >= number {
                return;
            }
            yield_now();
        }
        self.require(false);
    }
}

impl Gate for Ledger {
    fn push(&self, s: u32, n: u32) {
        if (s, n) == (1, 1) {
            self.wait(0, 2);
        }
        self.require(self.pushed.is_next(s, n));
    }

    fn run(&self, w: u32, s: u32, n: u32) {
        self.require(w == s % 2 && n <= self.pushed.get(s));
        self.require(self.ran.is_next(s, n));
        if (s, n) == (0, 2) {
            self.wait(1, 2);
        }
    }

    fn phase(&self, w: u32, k: u32) {
        self.require(w < 2 && self.entered.is_next(w, k.saturating_add(1)));
    }
}
