//! What the tests assert. A failure tells what came, what was wanted and at which step. It is formatted here, so that
//! the tests' own proofs have none of it.
use like_replies::Report;
use std::fmt::Debug;
use std::process::Abort;

/// Stops the test and tells what is wrong, unless this holds.
pub fn assert_that(rt: &impl Abort, holds: bool, wrong: &str) {
    if !holds {
        rt.panic(wrong);
    }
}

/// Asserts that what came in a case is what was wanted.
pub fn assert_same<T: PartialEq + Debug + Drop>(rt: &impl Abort, case: &str, came: T, wanted: T) {
    assert!(rt; came == wanted, "{case}: {came:?}, not {wanted:?}");
}

/// Asserts that what came at a step of a case is what was wanted.
pub fn assert_step<T: PartialEq + Debug + Drop>(
    rt: &impl Abort,
    case: &str,
    step: usize,
    came: T,
    wanted: T,
) {
    assert!(rt;
        came == wanted,
        "{case}, step {step}: {came:?}, not {wanted:?}"
    );
}

/// Asserts the counts of a case's report, and drops it: a caller that dropped it would prove once more how each of its
/// parts is dropped.
pub fn assert_counts(rt: &impl Abort, case: &str, report: Report, counts: &[u64]) {
    assert_same(rt, case, report.counts.as_slice(), counts);
    drop(report);
}
