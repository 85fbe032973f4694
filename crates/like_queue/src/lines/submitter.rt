ghost use Rattle.std.specs.Prelude.{◌≡◌, ◌≤◌, length};
ghost use Rattle.like_queue.specs.Line.{HasSentEnd, one_sent};

use crate::line::BATCH;
use crate::lines::parkers::Parkers;
use crate::lines::signal::hear;
use crate::send_end::SendEnd;
use like_requests::Gate;
use std::sync::{OnceLock, Wait};

/// A submitter's thread: it waits until all threads were started, and then sends the submitter's plan.
pub fn submit<R: Wait, G: Gate>(
    rt: &R,
    gate: &G,
    start: &OnceLock<bool>,
    parkers: &Parkers,
    submitter: u32,
    end: SendEnd<'_>,
)
    requires { end.sent ≡ 0 }
{
    let token = hear(rt, start);
    if *start.value(&token) {
        let mut end = end;
        send_all(rt, gate, parkers, submitter, &mut end);
    }
}

// Sends the requests of the plan, and then its end mark. It wakes the worker after each batch, and at the end.
fn send_all<R: Wait, G: Gate>(
    rt: &R,
    gate: &G,
    parkers: &Parkers,
    submitter: u32,
    end: &mut SendEnd<'_>,
)
    requires { end.old.sent ≡ 0 }
    ensures { HasSentEnd end.new }
{
    for sent in 0..end.requests() {
        let number = sent + 1;
        gate.push(submitter, number);
        send_next(rt, end);
        if number as usize % BATCH == 0 {
            parkers.wake_worker_of(submitter);
        }
    }
    send_next(rt, end);
    parkers.wake_worker_of(submitter);
}

// Tries the next item of the plan until the line is not full.
fn send_next<R: Wait>(rt: &R, end: &mut SendEnd<'_>)
    requires { end.old.sent ≤ length end.old.line.plan }
    ensures { end.new ≡ one_sent end.old }
{
    for _ in rt.forever() {
        if end.push_next(rt) {
            return;
        }
        end.wait(rt);
    }
    unreachable!()
}
