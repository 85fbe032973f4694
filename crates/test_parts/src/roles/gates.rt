use like_roles::Gate;
use std::sync::atomic::{AtomicU32, Ordering};

/// A call of a gate.
#[derive(Clone, Copy)]
pub enum Call {
    /// Worker, submitter and number.
    Run(u32, u32, u32),
    /// Worker and phase.
    Phase(u32, u32),
}

impl Call {
    fn is_run(self, w: u32, s: u32, n: u32) -> bool {
        matches!(self, Call::Run(worker, submitter, number) if worker == w && submitter == s && number == n)
    }

    fn is_phase(self, w: u32, k: u32) -> bool {
        matches!(self, Call::Phase(worker, phase) if worker == w && phase == k)
    }
}

/// A gate that counts its calls, and among them those that it does not expect in their place.
#[derive(Drop)]
pub struct Expecting {
    calls: &'static [Call],
    made: AtomicU32,
    wrong: AtomicU32,
}

impl Expecting {
    pub fn new(calls: &'static [Call]) -> Expecting {
        Expecting {
            calls,
            made: AtomicU32::new(0),
            wrong: AtomicU32::new(0),
        }
    }

    /// How many calls were made, and how many of them are not those that are expected in their place.
    pub fn counts(&self) -> (usize, u32) {
        let made = self.made.load(Ordering::SeqCst) as usize;
        (made, self.wrong.load(Ordering::SeqCst))
    }

    // The call that is expected next, while one is made.
    fn next(&self) -> Option<Call> {
        let at = self.made.fetch_add(1, Ordering::SeqCst) as usize;
        self.calls.get(at).copied()
    }

    fn note(&self, is_expected: bool) {
        if !is_expected {
            self.wrong.fetch_add(1, Ordering::SeqCst);
        }
    }
}

impl Gate for Expecting {
    fn push(&self, _s: u32, _n: u32) {
        self.note(false);
    }

    fn run(&self, w: u32, s: u32, n: u32) {
        let expected = self.next();
        self.note(matches!(expected, Some(call) if call.is_run(w, s, n)));
    }

    fn phase(&self, w: u32, k: u32) {
        let expected = self.next();
        self.note(matches!(expected, Some(call) if call.is_phase(w, k)));
    }
}
