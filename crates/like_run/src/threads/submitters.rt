ghost use Rattle.std.specs.Prelude.{◌≡◌, ◌≤◌, true, [], length, vec_capacity};
ghost use Rattle.like_queue.specs.Lines.{AreNewEnds};

use crate::threads::shared::Shared;
use like_queue::{SendEnd, submit};
use like_roles::Gate;
use std::sync::Wait;
use std::thread::{JoinHandle, Scope, Threads};

/// Starts a thread for each submitter, in order, and says whether all could be started; more than `most` can't be.
pub fn start_submitters<'s, E, R: Threads + Wait + Sync, G: Gate>(
    scope: &Scope<'s, E>,
    shared: &'s Shared<'s, R, G>,
    ends: Vec<SendEnd<'s>>,
    threads: &mut Vec<JoinHandle<()>>,
    most: usize,
) -> bool
    requires new { AreNewEnds ends.items }
    requires none { threads.old.items ≡ [] }
    requires room { length ends.items ≤ vec_capacity threads.old }
    ensures few { length threads.new.items ≤ most }
    ensures many { result ≡ true → length threads.new.items ≡ length ends.entry.items }
{
    for end in ends {
        if threads.len() == most {
            return false;
        }
        let submitter = threads.len() as u32;
        match start_submitter(scope, shared, submitter, end) {
            Some(thread) => threads.push_reserved(thread),
            None => return false,
        }
    }
    true
}

// Starts the thread of a submitter.
fn start_submitter<'s, E, R: Threads + Wait + Sync, G: Gate>(
    scope: &Scope<'s, E>,
    shared: &'s Shared<'s, R, G>,
    submitter: u32,
    end: SendEnd<'s>,
) -> Option<JoinHandle<()>>
    requires { end.sent ≡ 0 }
{
    let thread = scope.spawn(
        move ||
            requires { end.sent ≡ 0 }
        {
            submit(
                shared.rt,
                shared.gate,
                shared.start,
                shared.parkers,
                submitter,
                end,
            )
        },
    );
    thread.ok()
}
