//! Growths that are refused, as checks/program/memory-and-threads does it: a lack of memory is told, and the next call
//! is right.
use super::cases::{Case, good};
use super::{answer, assert_that};
use std::alloc::Global;
use std::process::Abort;

// Whether a read was told that there is no memory. Otherwise it must be right.
fn is_refused(rt: &impl Abort, alloc: Global, case: &Case) -> bool {
    let (kind, file, wanted) = *case;
    let answer = answer(rt, alloc, kind, file);
    let is_refused = answer.as_str() == "Err(Memory)";
    assert_that(
        rt,
        is_refused || answer.as_str() == wanted,
        "another answer",
    );
    drop(answer);
    is_refused
}

#[test]
fn refused_growths(rt: HostRuntime) {
    for case in good() {
        let first = is_refused(&rt, rt.alloc(), case);
        let second = is_refused(&rt, rt.alloc(), case);
        assert_that(&rt, !first && !second, "out of memory, and then right");
    }
}
