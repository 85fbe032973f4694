//! What the tests assert. A failure tells what came, what was wanted and at which step. It is formatted here, so that
//! the tests' own proofs have none of it.
ghost use Rattle.std.specs.Prelude.{IsTrue};

use std::fmt::Debug;
use std::process::Abort;

/// Asserts what must hold of a case.
pub fn assert_named(rt: &impl Abort, holds: bool, case: &str)
    ensures { IsTrue holds }
{
    assert!(rt; holds, "{case}");
}

/// Asserts that what came in a case is what was wanted.
pub fn assert_same<T: PartialEq + Debug + Drop>(rt: &impl Abort, case: &str, came: T, wanted: T) {
    assert!(rt; came == wanted, "{case}: {came:?}, not {wanted:?}");
}

/// Asserts that what came at a step of a case is what was wanted.
pub fn assert_step<T: PartialEq + Debug + Drop>(
    rt: &impl Abort,
    case: &str,
    step: usize,
    came: T,
    wanted: T,
) {
    assert!(rt;
        came == wanted,
        "{case}, step {step}: {came:?}, not {wanted:?}"
    );
}

/// Asserts that what came at a step of a part of a case is what was wanted.
pub fn assert_part<T: PartialEq + Debug + Drop>(
    rt: &impl Abort,
    case: &str,
    part: usize,
    step: usize,
    came: T,
    wanted: T,
) {
    assert!(rt;
        came == wanted,
        "{case}, part {part}, step {step}: {came:?}, not {wanted:?}"
    );
}
