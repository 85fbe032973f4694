ghost use Rattle.std.specs.Prelude.{◌≡◌, ◌≤◌, All, IfOk, length, map};
ghost use Rattle.like_limits.specs.Limits.{max_requests};
ghost use Rattle.like_queue.specs.Lines.{AreLines, new_ends, new_sender, new_taker};

use crate::line::Line;
use crate::send_end::SendEnd;
use crate::send_pass::SendPass;
use crate::take_end::TakeEnd;
use crate::take_pass::TakePass;
use like_requests::Request;
use std::alloc::{AllocError, Global};

mod parkers;
mod signal;
mod submitter;

pub use parkers::Parkers;
pub use signal::{hear, tell};
pub use submitter::submit;

/// A line for each submitter, in order, with the passes of its two ends.
#[derive(Drop)]
pub struct Lines {
    pub lines: Vec<Line>,
    pub passes: Vec<(SendPass, TakePass)>,
}

impl Lines {
    /// The lines of these plans, with nothing sent yet.
    pub fn new(alloc: Global, plans: Vec<Vec<Request>>) -> Result<Lines, AllocError>
        requires { All (λ plan. length plan.items ≤ max_requests) plans.items }
        ensures { IfOk result (AreLines (map (λ plan. plan.items) plans.items)) }
    {
        let mut lines = Vec::new(alloc);
        let mut passes = Vec::new(alloc);
        for plan in plans {
            let (line, send, take) = Line::new(alloc, plan)?;
            lines.push(line)?;
            passes.push((send, take))?;
        }
        Ok(Lines { lines, passes })
    }
}

/// Their ends, at which the submitters send and the workers take.
pub fn ends_of<'a>(
    alloc: Global,
    lines: &'a [Line],
    passes: Vec<(SendPass, TakePass)>,
) -> Result<(Vec<SendEnd<'a>>, Vec<TakeEnd<'a>>), AllocError>
    requires { passes.items ≡ map new_ends lines.now }
    ensures sends { IfOk result (λ ends. ends.0.items ≡ map new_sender lines.now) }
    ensures takes { IfOk result (λ ends. ends.1.items ≡ map new_taker lines.now) }
{
    let mut sends = Vec::with_capacity(alloc, lines.len())?;
    let mut takes = Vec::with_capacity(alloc, lines.len())?;
    for (send, take) in passes {
        let line = &lines[sends.len()];
        sends.push_reserved(send.at(line));
        takes.push_reserved(take.at(line));
    }
    Ok((sends, takes))
}
