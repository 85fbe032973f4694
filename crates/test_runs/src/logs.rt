//! What the logs of workers have.
use super::asserts::{assert_same, assert_step};
use like_roles::{Ran, Took, WorkerLog};
use std::process::Abort;

/// A request that ran: its phase, whether it came out of the stash, its submitter and its number.
pub type Entry = (u32, bool, u32, u32);

/// What a worker takes, each with its phase, its submitter and its number, and what it runs.
#[derive(Clone, Copy)]
pub struct Log {
    pub taken: &'static [(u32, u32, u32)],
    pub ran: &'static [Entry],
}

pub const NO_LOG: Log = Log {
    taken: &[],
    ran: &[],
};

/// The phase, the submitter and the number of what was taken.
pub fn numbers_of(took: &Took) -> (u32, u32, u32) {
    (took.phase, took.submitter, took.number)
}

/// What ran, without its reply.
pub fn entry_of(ran: &Ran) -> Entry {
    (ran.phase, ran.stashed, ran.submitter, ran.number)
}

// Asserts that a worker took this.
fn assert_taken(rt: &impl Abort, case: &str, taken: &[Took], wanted: &[(u32, u32, u32)]) {
    assert_same(rt, case, taken.len(), wanted.len());
    for (step, (took, wanted)) in taken.iter().zip(wanted).enumerate() {
        assert_step(rt, case, step, numbers_of(took), *wanted);
    }
}

/// Asserts that a worker ran this.
pub fn assert_ran(rt: &impl Abort, case: &str, ran: &[Ran], wanted: &[Entry]) {
    assert_same(rt, case, ran.len(), wanted.len());
    for (step, (entry, wanted)) in ran.iter().zip(wanted).enumerate() {
        assert_step(rt, case, step, entry_of(entry), *wanted);
    }
}

/// Asserts that workers have these logs.
pub fn assert_logs(rt: &impl Abort, case: &str, logs: &[WorkerLog], wanted: &[Log]) {
    assert_same(rt, case, logs.len(), wanted.len());
    for (log, wanted) in logs.iter().zip(wanted) {
        assert_taken(rt, case, &log.taken, wanted.taken);
        assert_ran(rt, case, &log.ran, wanted.ran);
    }
}
