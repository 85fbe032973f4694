//! A gate that counts its calls and holds some of them.
use super::count::Count;
use like_roles::Gate;
use std::thread::yield_now;

/// Which calls of a gate wait, and for what.
#[derive(Clone, Copy)]
pub enum Held {
    Nobody,
    /// Each of two workers in phase 0, for the other.
    Workers,
    /// Each of two submitters at its first request, for the other.
    Submitters,
    /// The first request of each submitter, for this phase.
    FirstRequests(u32),
    /// A submitter's second request, for phase 2.
    SecondRequest,
}

/// A gate at which calls wait, each for this many looks at most.
#[derive(Drop)]
pub struct Watch {
    held: Held,
    looks: u32,
    // The calls that are awaited, or waited for that.
    made: Count,
    given_up: Count,
    pushed: Count,
    ran: Count,
    // One more than the greatest phase that a worker entered.
    entered: Count,
}

impl Watch {
    pub fn new(held: Held, looks: u32) -> Watch {
        Watch {
            held,
            looks,
            made: Count::none(),
            given_up: Count::none(),
            pushed: Count::none(),
            ran: Count::none(),
            entered: Count::none(),
        }
    }

    /// A gate that holds nobody.
    pub fn idle() -> Watch {
        Watch::new(Held::Nobody, 0)
    }

    /// How many requests were pushed, and how many ran.
    pub fn calls(&self) -> (u32, u32) {
        (self.pushed.get(), self.ran.get())
    }

    /// How many phases were entered, from phase 0 on.
    pub fn phases(&self) -> u32 {
        self.entered.get()
    }

    /// How many of the calls that wait, or are waited for, were made.
    pub fn made(&self) -> u32 {
        self.made.get()
    }

    /// How many of them there are, where two calls wait for each other, or nobody waits.
    pub fn awaited(&self) -> u32 {
        match self.held {
            Held::Nobody => 0,
            _ => 2,
        }
    }

    /// Whether a call waited in vain.
    pub fn gave_up(&self) -> bool {
        self.given_up.get() > 0
    }

    fn note(&self) {
        self.made.add(1);
    }

    // Waits until this many calls were noted.
    fn wait(&self, calls: u32) {
        for _ in 0..self.looks {
            if self.made() >= calls {
                return;
            }
            yield_now();
        }
        self.given_up.add(1);
    }
}

impl Gate for Watch {
    fn push(&self, _s: u32, n: u32) {
        self.pushed.add(1);
        match (self.held, n) {
            (Held::Submitters, 1) => {
                self.note();
                self.wait(2);
            }
            (Held::FirstRequests(_), 1) => self.wait(1),
            (Held::SecondRequest, 2) => {
                self.wait(1);
                self.note();
            }
            _ => {}
        }
    }

    fn run(&self, _w: u32, _s: u32, _n: u32) {
        self.ran.add(1);
    }

    fn phase(&self, _w: u32, k: u32) {
        self.entered.raise(k.saturating_add(1));
        match (self.held, k) {
            (Held::Workers, 0) => {
                self.note();
                self.wait(2);
            }
            (Held::FirstRequests(phase), k) if phase == k => self.note(),
            (Held::SecondRequest, 2) => self.note(),
            _ => {}
        }
    }
}
