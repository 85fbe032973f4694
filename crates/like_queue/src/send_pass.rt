ghost use Rattle.std.specs.Prelude.{◌≡◌, ◌≤◌, Some, slice_get, true, false};
ghost use Rattle.like_queue.specs.Line.{line_capacity, one_sent};
ghost use Rattle.like_queue.specs.Rule.{items_of};

use crate::line::Line;
use crate::rule::{Item, QueuePass, Sending};
use crate::send_end::SendEnd;
use std::marker::Model;
use std::sync::Wait;

/// The right to send through a line. It borrows nothing, so any thread may take it.
#[derive(Drop)]
pub struct SendPass {
    pub(crate) pass: QueuePass,
    // How many items were sent.
    pub(crate) sent: usize,
}

impl Model for SendPass {
    ghost use Rattle.std.specs.Prelude.{◌≡◌, []};
    ghost use Rattle.crossbeam_queue.specs.Passes.{view as known_by};
    ghost use Rattle.like_queue.specs.declared.known.Role.TheVariants.{Sends};
    ghost use Rattle.like_queue.specs.Line.{Sender};
    ghost use Rattle.like_queue.specs.Rule.{Knows};

    ghost Value = { Sender };

    ghost view = { λ p.
        record {
          line = record { queue = p.pass.table_id; plan = (known_by p.pass).plan };
          sent = p.sent;
        } };

    ghost invariant = { λ p. let knows = known_by p.pass in
        (p.pass.me.1 ≡ []) × Knows knows Sends knows.plan p.sent };
}

impl SendPass {
    /// Takes the pass to its line.
    pub fn at(self, line: &Line) -> SendEnd<'_>
        requires { self.line ≡ line.now }
        ensures { result ≡ self }
    {
        SendEnd { line, pass: self }
    }

    // How many items were sent.
    pub(crate) fn sent(&self) -> usize
        ensures { result ≡ self.now.sent }
    {
        self.sent
    }

    // Pushes the next item of the plan through its line, if the queue is not full.
    pub(crate) fn push<R: Wait>(&mut self, rt: &R, line: &Line, item: Item) -> bool
        requires here { self.old.line ≡ line.now }
        requires next { slice_get (items_of self.old.line.plan) self.old.sent ≡ Some item }
        ensures sent { result ≡ true → self.new ≡ one_sent self.old }
        ensures full { result ≡ false → (line_capacity ≤ self.old.sent) × (self.new ≡ self.old) }
    {
        match line.queue.push_as::<Sending, R>(rt, &mut self.pass, item) {
            Ok(()) => {
                self.sent += 1;
                true
            }
            Err(_) => false,
        }
    }
}
