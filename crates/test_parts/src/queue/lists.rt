use super::LIKE;
use crate::asserts::{assert_named, assert_step};
use like_queue::ListInbox;
use like_requests::{Numbered, Request, Taken};
use std::process::Abort;
use std::test::Fail;

// A call of a list's inbox, with its answer. A take gives nothing, the first request or the end mark.
#[derive(Clone, Copy, Debug, PartialEq)]
enum Call {
    TakeNothing,
    TakeFirst,
    TakeEnd,
    OpenOne(bool),
    OpenAll,
}

// The first request of a list.
const FIRST: Taken = Taken::Ask(Numbered {
    number: 1,
    request: LIKE,
});

// Lists: the requests of each, and the calls.
const LISTS: &[(&[Request], &[Call])] = &[
    (
        &[LIKE],
        &[
            Call::TakeNothing,
            Call::OpenOne(true),
            Call::TakeFirst,
            Call::OpenOne(true),
            Call::TakeEnd,
            Call::TakeEnd,
            Call::OpenOne(false),
        ],
    ),
    (&[], &[Call::OpenAll, Call::OpenOne(false), Call::TakeEnd]),
];

fn lists() -> &'static [(&'static [Request], &'static [Call])] {
    LISTS
}

// The call that a take is by what it gives. None if that is another request.
fn take_of(taken: Taken) -> Option<Call> {
    match taken {
        Taken::Nothing => Some(Call::TakeNothing),
        Taken::End => Some(Call::TakeEnd),
        Taken::Ask(_) if taken == FIRST => Some(Call::TakeFirst),
        Taken::Ask(_) => None,
    }
}

// Makes a call, and gives it with the answer that came.
fn made(inbox: &mut ListInbox, call: Call) -> Option<Call> {
    match call {
        Call::OpenOne(_) => Some(Call::OpenOne(inbox.open_one())),
        Call::OpenAll => {
            inbox.open_all();
            Some(call)
        }
        _ => take_of(inbox.take()),
    }
}

// Makes the calls of a list's inbox, and asserts their answers.
fn call_list(rt: &impl Abort, inbox: &mut ListInbox, calls: &[Call]) {
    for at in 0..calls.len() {
        let call = calls[at];
        assert_step(rt, "list", at, made(inbox, call), Some(call));
    }
}

#[test]
fn hands_over_requests_and_the_end(rt: HostRuntime) -> Result<(), Fail> {
    for (plan, calls) in lists() {
        let plan = Vec::from_slice(rt.alloc(), plan)?;
        assert_named(&rt, plan.len() <= 1, "a plan's size");
        call_list(&rt, &mut ListInbox::new(plan), calls);
    }
    Ok(())
}
