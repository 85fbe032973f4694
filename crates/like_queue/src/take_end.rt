ghost use Rattle.std.specs.Prelude.{◌≡◌};
ghost use Rattle.like_queue.specs.Inbox.{HandsOver};
ghost use Rattle.like_queue.specs.Line.{inbox_of};

use crate::inbox::{Inbox, TakeWith};
use crate::line::Line;
use crate::take_pass::TakePass;
use like_requests::Taken;
use std::marker::Model;
use std::sync::Wait;

/// The end of a line at which a worker takes a submitter's plan: the pass, at its line.
#[derive(Drop)]
pub struct TakeEnd<'a> {
    pub(crate) line: &'a Line,
    pub(crate) pass: TakePass,
}

impl<'a> Model for TakeEnd<'a> {
    ghost use Rattle.std.specs.Prelude.{◌≡◌};
    ghost use Rattle.like_queue.specs.Line.{Taker};

    ghost Value = { Taker };

    ghost view = { λ e. e.pass };

    ghost invariant = { λ e. e.pass.line ≡ e.line.now };
}

impl TakeEnd<'_> {
    /// Takes the next item, if there is one; after the end mark, that again.
    pub fn take<R: Wait>(&mut self, rt: &R) -> Taken
        ensures line { self.new.line ≡ self.old.line }
        ensures taken { HandsOver (inbox_of self.old) result (inbox_of self.new) }
    {
        let line = self.line;
        if self.pass.taken() > line.plan.len() {
            return Taken::End;
        }
        let Some(item) = self.pass.pop(rt, line) else {
            return Taken::Nothing;
        };
        match item {
            Some(ask) => Taken::Ask(ask),
            None => Taken::End,
        }
    }
}

impl Inbox for TakeEnd<'_> {
    ghost use Rattle.std.specs.Prelude.{false};

    ghost view = { inbox_of };

    ghost opened = { λ _. 0 };

    ghost only_open = { false };
}

impl<R: Wait> TakeWith<R> for TakeEnd<'_> {
    fn take_with(&mut self, rt: &R) -> Taken {
        self.take(rt)
    }
}
