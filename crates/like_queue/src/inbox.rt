ghost use Rattle.std.specs.Prelude.{◌≡◌, ◌≤◌, ℕ, Bool, true};
ghost use Rattle.like_queue.specs.Inbox.{HandsOver, InboxView};

use like_requests::Taken;

/// Where a worker takes the items of a submitter's plan: its requests, numbered from 1, and then the end mark.
pub trait Inbox: Drop {
    ghost view: { Self → InboxView };

    /// How many of its items are open to the worker: a take hands over each of them. Of a line none is, since a take
    /// finds an item only once it was sent.
    ghost opened: { Self → ℕ };

    /// Whether a take hands over open items alone, as of a list.
    ghost only_open: { Bool };
}

/// An inbox that takes with a runtime of type `R`.
pub trait TakeWith<R>: Inbox {
    /// Takes the next item, if there is one; after the end mark, that again. It finds nothing only if no more items are
    /// open than were taken.
    fn take_with(&mut self, rt: &R) -> Taken
        ensures handed { HandsOver (Self.view self.old) result (Self.view self.new) }
        ensures opened { Self.opened self.new ≡ Self.opened self.old }
        ensures nothing { result ≡ Taken.Nothing → Self.opened self.old ≤ (Self.view self.old).taken }
        ensures only_open { Self.only_open ≡ true → (Self.view self.new).taken ≤ Self.opened self.old };
}
