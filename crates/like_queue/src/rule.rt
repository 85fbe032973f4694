//! The rule of a line's queue, and what each kind of step tells the pass that makes it.
ghost use Rattle.std.specs.Prelude.{◌≡◌, ◌≤◌, List, [], length, slice_get, Some, ⊤};
ghost use Rattle.like_requests.specs.declared.request.Request.{Request};
ghost use Rattle.like_queue.specs.declared.known.Role.TheVariants.{Sends, Takes};
ghost use Rattle.like_queue.specs.Rule.{IsLine, items_of, known, one_more, unsplit};

use crate::known::Known;
use crossbeam_queue::protocol::{Lesson, Outcome, Protocol, Split};
use crossbeam_queue::{Pass, RuledArrayQueue};
use like_requests::Numbered;
use std::marker::{Brand, PhantomData};

/// What goes through a line: a request with its number, or the end mark.
pub(crate) type Item = Option<Numbered>;

/// The queue of a line.
pub(crate) type Queue = RuledArrayQueue<Item, Known, LineRule>;

/// What one end of a line knows of the queue.
pub(crate) type QueuePass = Pass<Item, Known>;

/// The rule of a line.
pub struct LineRule;

impl Protocol<Item, Known> for LineRule {
    ghost holds = { IsLine };

    ghost first = { unsplit };
}

/// The plan of a line, which its passes know.
pub(crate) trait Planned {
    ghost plan: { List Request };
}

// A call with this type picks a plan of its own.
impl Planned for Brand {
    ghost plan = { [] };
}

/// The pass of a new queue becomes one that sends a plan and one that takes it.
pub(crate) struct Splitting<J: Planned> {
    of: PhantomData<J>,
}

impl<J: Planned> Split<Known> for Splitting<J> {
    ghost left = { λ _. known Sends J.plan 0 };

    ghost right = { λ _. known Takes J.plan 0 };
}

/// A push of an item.
pub(crate) struct Sending;

impl Outcome<Item, Known> for Sending {
    ghost then = { λ v _ after. after ≡ one_more v };
}

impl Lesson<Item, Known> for Sending {
    ghost fact = { λ v items. length items ≤ v.count };
}

/// A take of an item.
pub(crate) struct Taking;

impl Outcome<Item, Known> for Taking {
    ghost then = { λ v item after. (slice_get (items_of v.plan) v.count ≡ Some item)
        × (after ≡ one_more v) };
}

impl Lesson<Item, Known> for Taking {
    ghost fact = { λ _ _. ⊤ };
}
