ghost use Rattle.std.specs.Prelude.{◌≡◌, ◌≤◌, IfNone, IfSome, Some, slice_get};
ghost use Rattle.like_queue.specs.Inbox.{item_count};
ghost use Rattle.like_queue.specs.Line.{one_taken};
ghost use Rattle.like_queue.specs.Rule.{items_of};

use crate::line::{BATCH, Line};
use crate::rule::{Item, QueuePass, Taking};
use crate::take_end::TakeEnd;
use std::marker::Model;
use std::sync::Wait;

/// The right to take from a line. It borrows nothing, so any thread may take it.
#[derive(Drop)]
pub struct TakePass {
    pub(crate) pass: QueuePass,
    // How many items were taken.
    pub(crate) taken: usize,
}

impl Model for TakePass {
    ghost use Rattle.std.specs.Prelude.{◌≡◌, []};
    ghost use Rattle.crossbeam_queue.specs.Passes.{view as known_by};
    ghost use Rattle.like_queue.specs.declared.known.Role.TheVariants.{Takes};
    ghost use Rattle.like_queue.specs.Line.{Taker};
    ghost use Rattle.like_queue.specs.Rule.{Knows};

    ghost Value = { Taker };

    ghost view = { λ p.
        record {
          line = record { queue = p.pass.table_id; plan = (known_by p.pass).plan };
          taken = p.taken;
        } };

    ghost invariant = { λ p. let knows = known_by p.pass in
        (p.pass.me.1 ≡ []) × Knows knows Takes knows.plan p.taken };
}

impl TakePass {
    /// Takes the pass to its line.
    pub fn at(self, line: &Line) -> TakeEnd<'_>
        requires { self.line ≡ line.now }
        ensures { result ≡ self }
    {
        TakeEnd { line, pass: self }
    }

    // How many items were taken.
    pub(crate) fn taken(&self) -> usize
        ensures taken { result ≡ self.now.taken }
        ensures few { result ≤ item_count self.now.line.plan }
    {
        self.taken
    }

    // Takes the next item of the plan from its line, if the queue is not empty. After each batch it wakes the sending
    // thread.
    pub(crate) fn pop<R: Wait>(&mut self, rt: &R, line: &Line) -> Option<Item>
        requires { self.old.line ≡ line.now }
        ensures nothing { IfNone result (self.new ≡ self.old) }
        ensures next { IfSome result (λ item.
            (slice_get (items_of self.old.line.plan) self.old.taken ≡ Some item)
            × (self.new ≡ one_taken self.old)) }
    {
        let item = line.queue.pop_as::<Taking, R>(rt, &mut self.pass)?;
        self.taken += 1;
        if self.taken % BATCH == 0 {
            line.wake();
        }
        Some(item)
    }
}
