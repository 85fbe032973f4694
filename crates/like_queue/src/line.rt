ghost use Rattle.std.specs.Prelude.{◌≡◌, ◌≤◌, IfOk, length};
ghost use Rattle.crossbeam_queue.specs.Passes.{IsPassOf, IsSamePass, view as known_by};
ghost use Rattle.like_limits.specs.Limits.{max_requests};
ghost use Rattle.like_queue.specs.declared.known.Role.TheVariants.{Sends, Takes};
ghost use Rattle.like_queue.specs.Rule.{known, unsplit};

use crate::rule::{Planned, Queue, QueuePass, Splitting};
use crate::send_pass::SendPass;
use crate::take_pass::TakePass;
use like_requests::Request;
use std::alloc::{AllocError, Global};
use std::marker::{Brand, Model};
use std::sync::Wait;
use std::thread::Parker;
use std::time::Duration;

/// How many items a line holds at most.
const CAPACITY: usize = 64;

/// How many items one end hands over before it wakes the other, if that waits: as many as a line holds.
pub const BATCH: usize = CAPACITY;

/// How many microseconds a thread waits at most until it looks again.
pub(crate) const PATIENCE: u64 = 1000;

/// A bounded queue between the thread of a submitter and its worker's, with the submitter's plan. Through it go the
/// requests of the plan, numbered from 1, and then the end mark.
#[derive(Drop)]
pub struct Line {
    pub(crate) queue: Queue,
    pub(crate) plan: Vec<Request>,
    // Where the sending thread waits.
    pub(crate) sender: Parker,
}

impl Model for Line {
    ghost use Rattle.std.specs.Prelude.{◌≡◌, ◌≤◌, length};
    ghost use Rattle.crossbeam_queue.specs.Passes.{ruled_capacity};
    ghost use Rattle.like_limits.specs.Limits.{max_requests};
    ghost use Rattle.like_queue.specs.Line.{LineId, line_capacity};

    ghost Value = { LineId };

    ghost view = { λ l. record { queue = l.queue.table.shared.table_id; plan = l.plan.items } };

    ghost invariant = { λ l. (ruled_capacity l.queue ≡ line_capacity)
        × (length l.plan.items ≤ max_requests) };
}

impl Line {
    /// A line for a plan, with nothing sent yet, and the passes of its two ends.
    pub fn new(alloc: Global, plan: Vec<Request>) -> Result<(Line, SendPass, TakePass), AllocError>
        requires { length plan.items ≤ max_requests }
        ensures line { IfOk result (λ r. r.0.plan ≡ plan.items) }
        ensures send { IfOk result (λ r. r.1 ≡ record { line = r.0; sent = 0 }) }
        ensures take { IfOk result (λ r. r.2 ≡ record { line = r.0; taken = 0 }) }
    {
        let (queue, mut sends) = Queue::ruled(alloc, CAPACITY)?;
        let takes = split::<Brand>(&queue, &mut sends, &plan);
        let send = SendPass {
            pass: sends,
            sent: 0,
        };
        let take = TakePass {
            pass: takes,
            taken: 0,
        };
        let line = Line {
            queue,
            plan,
            sender: Parker::new(),
        };
        Ok((line, send, take))
    }

    // The sending thread waits, but not for long.
    pub(crate) fn wait<R: Wait>(&self, rt: &R) {
        self.sender
            .park_timeout(rt, Duration::from_micros(PATIENCE));
    }

    // Wakes that thread.
    pub(crate) fn wake(&self) {
        self.sender.unpark();
    }
}

// Splits the pass of a new queue into one that sends the plan and one that takes it. Both know the plan from here on:
// the proof of a call chooses the argument as the plan of `J`.
fn split<J: Planned>(queue: &Queue, pass: &mut QueuePass, _plan: &Vec<Request>) -> QueuePass
    requires queue { IsPassOf queue.now pass.old }
    requires new { known_by pass.old ≡ unsplit }
    ensures queue { IsSamePass pass.old pass.new × IsPassOf queue.now result }
    ensures send { known_by pass.new ≡ known Sends J.plan 0 }
    ensures take { known_by result ≡ known Takes J.plan 0 }
{
    queue.another::<Splitting<J>>(pass)
}
