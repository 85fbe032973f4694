//! What the tests assert. A failure tells what came, what was wanted and at which step. It is formatted here, so that
//! the tests' own proofs have none of it.
ghost use Rattle.std.specs.Prelude.{IsTrue};

use std::fmt::Debug;
use std::process::Abort;

/// Asserts what must hold of a case.
pub fn assert_named(rt: &impl Abort, holds: bool, case: &str)
    ensures { IsTrue holds }
{
    assert!(rt; holds, "{case}");
}

/// A step of a case: the case's name, the part of it, and the step in that.
#[derive(Clone, Copy)]
pub struct At<'n> {
    pub name: &'n str,
    pub part: usize,
    pub step: usize,
}

/// Asserts that what came at a step is what was wanted.
pub fn assert_at<T: PartialEq + Debug + Drop>(rt: &impl Abort, at: At<'_>, came: T, wanted: T) {
    let At { name, part, step } = at;
    assert!(rt;
        came == wanted,
        "{name}, part {part}, step {step}: {came:?}, not {wanted:?}"
    );
}

/// Asserts that what came in a case is what was wanted.
pub fn assert_same<T: PartialEq + Debug + Drop>(rt: &impl Abort, case: &str, came: T, wanted: T) {
    assert!(rt; came == wanted, "{case}: {came:?}, not {wanted:?}");
}
