ghost use Rattle.std.specs.Prelude.{◌≡◌, ◌⊎◌, ◌<◌, ◌≤◌, None, Some, length, true, false};
ghost use Rattle.like_limits.specs.Limits.{max_requests};
ghost use Rattle.like_queue.specs.Line.{SendsEnd, HasSentEnd, Pushes, line_capacity, next_of, one_sent};

use crate::line::Line;
use crate::refused::{EndRefused, PushRefused};
use crate::send_pass::SendPass;
use like_requests::{Numbered, Request};
use std::marker::Model;
use std::sync::Wait;

/// The end of a line at which a submitter sends its plan: the pass, at its line.
#[derive(Drop)]
pub struct SendEnd<'a> {
    pub(crate) line: &'a Line,
    pub(crate) pass: SendPass,
}

impl<'a> Model for SendEnd<'a> {
    ghost use Rattle.std.specs.Prelude.{◌≡◌};
    ghost use Rattle.like_queue.specs.Line.{Sender};

    ghost Value = { Sender };

    ghost view = { λ e. e.pass };

    ghost invariant = { λ e. e.pass.line ≡ e.line.now };
}

impl SendEnd<'_> {
    /// The next request of the plan. `None`: all were sent.
    pub fn next(&self) -> Option<Request>
        ensures next { result ≡ next_of self.now }
        ensures few { length self.now.line.plan ≤ max_requests }
    {
        let line = self.line;
        line.plan.get(self.pass.sent()).copied()
    }

    /// Pushes the next request of the plan, and says its number.
    pub fn push<R: Wait>(&mut self, rt: &R, request: Request) -> Result<u32, PushRefused>
        requires { HasSentEnd self.old ⊎ (next_of self.old ≡ Some request) }
        ensures { Pushes self.old request result self.new }
    {
        if self.has_ended() {
            return Err(PushRefused::Ended(request));
        }
        let number = self.pass.sent() as u32 + 1;
        if self.push_next(rt) {
            Ok(number)
        } else {
            Err(PushRefused::Full(request))
        }
    }

    /// Pushes the end mark, after all requests of the plan.
    pub fn end<R: Wait>(&mut self, rt: &R) -> Result<(), EndRefused>
        requires { next_of self.old ≡ None }
        ensures { SendsEnd self.old result self.new }
    {
        if self.has_ended() {
            return Err(EndRefused::Ended);
        }
        if self.push_next(rt) {
            Ok(())
        } else {
            Err(EndRefused::Full)
        }
    }

    /// Pushes the next item of the plan, its end mark after all requests, if the line is not full.
    pub(crate) fn push_next<R: Wait>(&mut self, rt: &R) -> bool
        requires { self.old.sent ≤ length self.old.line.plan }
        ensures sent { result ≡ true → self.new ≡ one_sent self.old }
        ensures full { result ≡ false → (line_capacity ≤ self.old.sent) × (self.new ≡ self.old) }
    {
        let item = match self.next() {
            Some(request) => Some(Numbered {
                number: self.pass.sent() as u32 + 1,
                request,
            }),
            None => None,
        };
        self.pass.push(rt, self.line, item)
    }

    /// How many requests its plan has.
    pub(crate) fn requests(&self) -> u32
        ensures { result ≡ length self.now.line.plan }
    {
        let line = self.line;
        line.plan.len() as u32
    }

    /// Waits after the line was full, until a batch of items is taken or a millisecond has passed. It may return early.
    pub fn wait<R: Wait>(&self, rt: &R) {
        let line = self.line;
        line.wait(rt);
    }

    // Whether the end mark was pushed.
    fn has_ended(&self) -> bool
        ensures ended { result ≡ true → HasSentEnd self.now }
        ensures not { result ≡ false → self.now.sent ≤ length self.now.line.plan }
        ensures few { length self.now.line.plan ≤ max_requests }
    {
        let line = self.line;
        self.pass.sent() > line.plan.len()
    }
}
