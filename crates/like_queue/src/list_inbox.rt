ghost use Rattle.std.specs.Prelude.{◌≡◌, ◌+◌, ◌<◌, ◌≤◌, length, min, nat_lt};
ghost use Rattle.like_queue.specs.Inbox.{TakesFromList, item_count};
ghost use Rattle.like_limits.specs.Limits.{max_requests};

use crate::inbox::{Inbox, TakeWith};
use like_requests::{Numbered, Request, Taken};
use std::marker::Model;

/// A submitter's requests as a list that is opened to its worker bit by bit. Its items are the requests, numbered from
/// 1, and then the end mark. A take shifts nothing.
#[derive(Drop)]
pub struct ListInbox {
    plan: Vec<Request>,
    // How many items are open, and how many of them were taken.
    opened: usize,
    taken: usize,
}

impl Model for ListInbox {
    ghost use Rattle.std.specs.Prelude.{◌≤◌, length};
    ghost use Rattle.like_limits.specs.Limits.{max_requests};
    ghost use Rattle.like_queue.specs.Inbox.{Inbox, item_count};

    ghost Value = { Inbox };

    ghost view = { λ i. record { plan = i.plan.items; opened = i.opened; taken = i.taken } };

    ghost invariant = { λ i. let plan = i.plan.items in
        (length plan ≤ max_requests) × (i.taken ≤ i.opened) × (i.opened ≤ item_count plan) };
}

impl ListInbox {
    /// The inbox of a plan, with nothing open.
    pub fn new(plan: Vec<Request>) -> Self
        requires { length plan.items ≤ max_requests }
        ensures { result ≡ record { plan = plan.items; opened = 0; taken = 0 } }
    {
        ListInbox {
            plan,
            opened: 0,
            taken: 0,
        }
    }

    /// Opens the next item. `false`: all were open.
    pub fn open_one(&mut self) -> bool
        ensures opened { result ≡ nat_lt self.old.opened (item_count self.old.plan) }
        ensures inbox { self.new
            ≡ record self.old { opened = min (self.old.opened + 1) (item_count self.old.plan) } }
    {
        if self.opened > self.plan.len() {
            return false;
        }
        self.opened += 1;
        true
    }

    /// Opens all items.
    pub fn open_all(&mut self)
        ensures { self.new ≡ record self.old { opened = item_count self.old.plan } }
    {
        self.opened = self.plan.len() + 1;
    }

    /// Takes the next open item; after the end mark, that again.
    pub fn take(&mut self) -> Taken
        ensures { TakesFromList self.old result self.new }
    {
        let next = self.taken;
        if next > self.plan.len() {
            return Taken::End;
        }
        if next == self.opened {
            return Taken::Nothing;
        }
        self.taken += 1;
        match self.plan.get(next) {
            Some(request) => Taken::Ask(Numbered {
                number: next as u32 + 1,
                request: *request,
            }),
            None => Taken::End,
        }
    }
}

impl Inbox for ListInbox {
    ghost use Rattle.std.specs.Prelude.{true};
    ghost use Rattle.like_queue.specs.Inbox.{view_of};

    ghost view = { view_of };

    ghost opened = { λ i. i.opened };

    ghost only_open = { true };
}

impl<R> TakeWith<R> for ListInbox {
    fn take_with(&mut self, _rt: &R) -> Taken {
        self.take()
    }
}
