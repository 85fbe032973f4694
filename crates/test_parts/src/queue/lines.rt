ghost use Rattle.std.specs.Prelude.{◌≡◌, ◌≤◌, IfOk, length};
ghost use Rattle.like_limits.specs.Limits.{max_requests};

mod cases;

use super::LIKE;
use crate::asserts::{assert_named, assert_same, assert_step};
use cases::{AtEnd, Call, Case, cases, of_one};
use like_queue::{
    EndRefused, Line, ListInbox, PushRefused, SendEnd, SendPass, TakeEnd, TakePass, TakeWith,
};
use like_requests::{Numbered, Request, Taken};
use std::alloc::{AllocError, Global};
use std::process::Abort;
use std::sync::Wait;
use std::test::Fail;
use std::thread;
use std::thread::Threads;

// Whether there is a next request, and its push is answered so.
fn pushes<R: Wait>(rt: &R, end: &mut SendEnd<'_>, want: Result<u32, PushRefused>) -> bool {
    match end.next() {
        Some(request) => end.push(rt, request) == want,
        None => false,
    }
}

// Pushes the requests of these numbers, and gives the last one before which all are pushed.
fn pushes_each<R: Wait>(rt: &R, end: &mut SendEnd<'_>, first: u32, last: u32) -> u32 {
    for number in first..=last {
        if !pushes(rt, end, Ok(number)) {
            return number.saturating_sub(1);
        }
    }
    last
}

// What a push of the end mark answers. None if a request is left.
fn ends<R: Wait>(rt: &R, end: &mut SendEnd<'_>) -> Option<AtEnd> {
    match end.next() {
        Some(_) => None,
        None => match end.end(rt) {
            Ok(()) => Some(AtEnd::Pushed),
            Err(EndRefused::Full) => Some(AtEnd::Full),
            Err(EndRefused::Ended) => Some(AtEnd::Ended),
        },
    }
}

// Whether no request is left, the end mark is pushed, and no request is after it.
fn ends_for_good<R: Wait>(rt: &R, end: &mut SendEnd<'_>) -> bool {
    match end.next() {
        Some(_) => false,
        None => match end.end(rt) {
            Ok(()) => end.push(rt, LIKE) == Err(PushRefused::Ended(LIKE)),
            Err(_) => false,
        },
    }
}

// Takes the requests of these numbers, and gives the last one up to which all are taken.
fn takes_each<R: Wait>(rt: &R, end: &mut TakeEnd<'_>, first: u32, last: u32) -> u32 {
    for number in first..=last {
        let ask = Numbered {
            number,
            request: LIKE,
        };
        if end.take(rt) != Taken::Ask(ask) {
            return number.saturating_sub(1);
        }
    }
    last
}

// Whether the end mark is taken.
fn takes_end<R: Wait>(rt: &R, end: &mut TakeEnd<'_>) -> bool {
    end.take(rt) == Taken::End
}

// Takes from an inbox until its end mark comes, and gives the last number.
fn last_number<R: Wait, I: TakeWith<R>>(rt: &R, mut inbox: I) -> u32 {
    let mut last = 0;
    for _ in rt.forever() {
        match inbox.take_with(rt) {
            Taken::Ask(ask) => last = ask.number,
            Taken::End => return last,
            Taken::Nothing => thread::yield_now(),
        }
    }
    unreachable!()
}

// Sends a whole plan.
fn send_all<R: Wait>(rt: &R, line: &Line, pass: SendPass)
    requires { pass.line ≡ line.now }
{
    let mut end = pass.at(line);
    for _ in rt.forever() {
        let sent = match end.next() {
            Some(request) => end.push(rt, request).is_ok(),
            None => match end.end(rt) {
                Err(EndRefused::Full) => false,
                _ => return,
            },
        };
        if !sent {
            end.wait(rt);
        }
    }
    unreachable!()
}

// Takes a whole plan.
fn take_all<R: Wait>(rt: &R, line: &Line, pass: TakePass) -> u32
    requires { pass.line ≡ line.now }
{
    last_number(rt, pass.at(line))
}

// Sends a plan from one thread to another.
fn through<R: Threads + Wait + Sync>(rt: &R, alloc: Global, plan: Vec<Request>) -> Result<u32, Fail>
    requires { length plan.items ≤ max_requests }
{
    let (line, send, take) = Line::new(alloc, plan)?;
    let line = &line;
    thread::scope(
        thread::scope_env(),
        rt,
        move |scope| -> Result<u32, Fail>
            requires sends { send.line ≡ line.now }
            requires takes { take.line ≡ line.now }
        {
            let sender = scope.spawn(
                move ||
                    requires { send.line ≡ line.now }
                { send_all(rt, line, send) },
            );
            match sender {
                Ok(_) => Ok(take_all(rt, line, take)),
                Err(_) => Err(Fail::new("out of memory, or no thread")),
            }
        },
    )
}

// How many requests a line was given and gave.
#[derive(Clone, Copy)]
struct Passed {
    sent: u32,
    taken: u32,
}

impl Passed {
    // What a push of the next one answers.
    fn push(&mut self) -> Result<u32, PushRefused> {
        if self.sent.saturating_sub(self.taken) >= 64 {
            return Err(PushRefused::Full(LIKE));
        }
        self.sent = self.sent.saturating_add(1);
        Ok(self.sent)
    }

    // What a take of the next one gives.
    fn take(&mut self) -> Taken {
        if self.taken == self.sent {
            return Taken::Nothing;
        }
        self.taken = self.taken.saturating_add(1);
        Taken::Ask(Numbered {
            number: self.taken,
            request: LIKE,
        })
    }
}

// Whether this many pushes are answered right, where a request is left.
fn pushes_some<R: Wait>(rt: &R, end: &mut SendEnd<'_>, passed: &mut Passed, count: u32) -> bool {
    for _ in 0..count {
        if end.next().is_some() && !pushes(rt, end, passed.push()) {
            return false;
        }
    }
    true
}

// Whether this many takes are answered right.
fn takes_some<R: Wait>(rt: &R, end: &mut TakeEnd<'_>, passed: &mut Passed, count: u32) -> bool {
    for _ in 0..count {
        if end.take(rt) != passed.take() {
            return false;
        }
    }
    true
}

// How many requests go through a line, some pushes and some takes at a time. None if one is answered wrong.
fn goes_through<R: Wait>(rt: &R, send: &mut SendEnd<'_>, take: &mut TakeEnd<'_>) -> Option<u32> {
    let mut passed = Passed { sent: 0, taken: 0 };
    for step in 0..2_000_u32 {
        if !pushes_some(rt, send, &mut passed, step.wrapping_mul(37) % 71)
            || !takes_some(rt, take, &mut passed, step.wrapping_mul(53) % 73)
        {
            return None;
        }
    }
    Some(passed.taken)
}

// Makes a call, and gives it with the answer that came. None if that is none of those that a call may have.
fn made<R: Wait>(
    rt: &R,
    send: &mut SendEnd<'_>,
    take: &mut TakeEnd<'_>,
    call: Call,
) -> Option<Call> {
    match call {
        Call::Next(_) => Some(Call::Next(send.next())),
        Call::Push(first, last) => Some(Call::Push(first, pushes_each(rt, send, first, last))),
        Call::PushFull if !pushes(rt, send, Err(PushRefused::Full(LIKE))) => None,
        Call::End(_) => match ends(rt, send) {
            Some(answer) => Some(Call::End(answer)),
            None => None,
        },
        Call::EndIsLast if !ends_for_good(rt, send) => None,
        Call::Take(first, last) => Some(Call::Take(first, takes_each(rt, take, first, last))),
        Call::TakeEnd if !takes_end(rt, take) => None,
        Call::GoThrough(_) => match goes_through(rt, send, take) {
            Some(taken) => Some(Call::GoThrough(taken)),
            None => None,
        },
        _ => Some(call),
    }
}

// Makes the calls of a case, and asserts their answers.
fn play<R: Wait + Abort>(rt: &R, send: &mut SendEnd<'_>, take: &mut TakeEnd<'_>, case: &Case) {
    for at in 0..case.calls.len() {
        let call = case.calls[at];
        let made = made(rt, send, take, call);
        assert_step(rt, case.name, at, made, Some(call));
    }
}

// Plays a case at the ends of a line.
fn play_at<R: Wait + Abort>(rt: &R, line: &Line, send: SendPass, take: TakePass, case: &Case)
    requires sends { send.line ≡ line.now }
    requires takes { take.line ≡ line.now }
{
    play(rt, &mut send.at(line), &mut take.at(line), case);
}

// This many likes.
fn plan_of(rt: &impl Abort, alloc: Global, size: usize) -> Result<Vec<Request>, AllocError>
    ensures { IfOk result (λ plan. length plan.items ≤ max_requests) }
{
    assert_named(rt, size <= 1_000_000, "a plan's size");
    Vec::from_elem(alloc, LIKE, size)
}

// A line, at whose ends a case is played.
fn play_at_line<R: Wait + Abort>(rt: &R, alloc: Global, case: &Case) -> Result<(), AllocError> {
    let plan = plan_of(rt, alloc, case.size)?;
    let (line, send, take) = Line::new(alloc, plan)?;
    play_at(rt, &line, send, take, case);
    Ok(())
}

#[test]
fn plays_each_line(rt: HostRuntime) -> Result<(), Fail> {
    for case in cases() {
        play_at_line(&rt, rt.alloc(), case)?;
    }
    Ok(())
}

// A lack of memory is told, and the next call is right.
#[test]
fn a_refused_growth_is_told(rt: HostRuntime) -> Result<(), Fail> {
    let mut refused = false;
    for _ in 0..2 {
        if play_at_line(&rt, rt.alloc(), of_one()).is_err() {
            refused = true;
        }
    }
    if refused {
        return Err(Fail::new("out of memory, and then right"));
    }
    Ok(())
}

#[test]
fn goes_to_another_thread(rt: HostRuntime) -> Result<(), Fail> {
    let plan = plan_of(&rt, rt.alloc(), 10_000)?;
    let last = through(&rt, rt.alloc(), plan)?;
    assert_same(&rt, "the last number", last, 10_000);
    Ok(())
}

#[test]
fn takes_from_a_list_as_from_a_line(rt: HostRuntime) -> Result<(), Fail> {
    let mut inbox = ListInbox::new(plan_of(&rt, rt.alloc(), 3)?);
    inbox.open_all();
    assert_same(&rt, "the last number", last_number(&rt, inbox), 3);
    Ok(())
}
