//! What words ask for, by `parse`.
mod help;

use crate::replays::{assert_text, assert_that};
use like_command::{Asked, ParseFault, parse};
use std::alloc::{AllocError, Global};
use std::fmt::Debug;
use std::process::Abort;

// The words of a text.
fn words(alloc: Global, text: &str) -> Result<Vec<&str>, AllocError> {
    text.split_whitespace().collect(alloc)
}

// What the words of a text ask for.
fn asked(alloc: Global, text: &str) -> Result<Asked, ParseFault> {
    let words = words(alloc, text)?;
    parse(alloc, words.as_slice())
}

// Words and what they ask for, as `Debug` shows it: all of it where a point ends it, and otherwise how it begins. The
// least and the greatest value of each option are among them.
const ASKED: &str = "\
replay p.csv r.csv => Ok(Replay(Options { workers: 4, users: 1000, stash: 256, turns: 1000, hot: None, places: false, totals: false, summary: false, progress: false, \
pages: \"p.csv\", requests: [\"r.csv\"], script: None })).
replay --stash 7 --workers 2 p.csv a.csv b.csv => \
Ok(Replay(Options { workers: 2, users: 1000, stash: 7, turns: 1000, hot: None, places: false, totals: false, summary: false, progress: false, \
pages: \"p.csv\", requests: [\"a.csv\", \"b.csv\"], script: None })).
replay p.csv --turns=0 a.csv --places --users=9 --script s.csv => \
Ok(Replay(Options { workers: 4, users: 9, stash: 256, turns: 0, hot: None, places: true, totals: false, summary: false, progress: false, \
pages: \"p.csv\", requests: [\"a.csv\"], script: Some(\"s.csv\") })).
run p.csv r.csv => \
Ok(Run(Options { workers: 4, users: 1000, stash: 256, turns: 1000, hot: None, places: false, totals: false, summary: false, progress: false, \
pages: \"p.csv\", requests: [\"r.csv\"], script: None })).
run --workers=16 --places p.csv --turns 0 a.csv --hot 9 b.csv --totals --summary --progress => \
Ok(Run(Options { workers: 16, users: 1000, stash: 256, turns: 0, hot: Some(9), places: true, totals: true, summary: true, progress: true, \
pages: \"p.csv\", requests: [\"a.csv\", \"b.csv\"], script: None })).
run -w 2 -u9 p.csv -s=7 a.csv -t 0 => \
Ok(Run(Options { workers: 2, users: 9, stash: 7, turns: 0, hot: None, places: false, totals: false, summary: false, progress: false, \
pages: \"p.csv\", requests: [\"a.csv\"], script: None })).
--help => Ok(Help(\"
help => Ok(Help(\"
help run => Ok(Help(\"
run -h => Ok(Help(\"
--version => Ok(Help(\"likes 0.6 (logic dac8208d650f15bf)\\n\")).
-V => Ok(Help(\"likes 0.6 (logic dac8208d650f15bf)\\n\")).
replay --workers=1 p.csv r.csv => Ok(Replay(
replay --workers=16 p.csv r.csv => Ok(Replay(
replay --users=1 p.csv r.csv => Ok(Replay(
replay --users=1000000 p.csv r.csv => Ok(Replay(
replay --stash=1 p.csv r.csv => Ok(Replay(
replay --stash=4096 p.csv r.csv => Ok(Replay(
replay --turns=0 p.csv r.csv => Ok(Replay(
replay --turns=1000000 p.csv r.csv => Ok(Replay(
replay --hot=1 p.csv r.csv => Ok(Replay(
replay --hot=1000000 p.csv r.csv => Ok(Replay(";

// A test that takes them from here has none of them in its proof, as it would with a constant.
fn all_asked() -> &'static str {
    ASKED
}

// No words, one past each bound, and other words that are wrong.
const WRONG: &[&str] = &[
    "",
    "replay --workers=0 p.csv r.csv",
    "replay --workers=17 p.csv r.csv",
    "replay --users=0 p.csv r.csv",
    "replay --users=1000001 p.csv r.csv",
    "replay --stash=0 p.csv r.csv",
    "replay --stash=4097 p.csv r.csv",
    "replay --turns=-1 p.csv r.csv",
    "replay --turns=1000001 p.csv r.csv",
    "replay --hot=0 p.csv r.csv",
    "replay --hot=1000001 p.csv r.csv",
    "walk p.csv r.csv",
    "run",
    "run p.csv",
    "help walk",
    "help help",
    "run --version",
    "run help",
    "run -w 17 p.csv r.csv",
    "run -w 2 --workers 2 p.csv r.csv",
    "run -x p.csv r.csv",
    "p.csv r.csv",
    "replay",
    "replay p.csv",
    "run --script s.csv p.csv r.csv",
    "replay --workers two p.csv r.csv",
    "replay --workers 1 --workers 2 p.csv r.csv",
    "replay --hot 1 --hot 2 p.csv r.csv",
    "replay --places --places p.csv r.csv",
    "run --places p.csv r.csv --places",
    "run --places=yes p.csv r.csv",
    "replay --totals --totals p.csv r.csv",
    "run p.csv r.csv --totals=yes",
    "replay --summary --summary p.csv r.csv",
    "run p.csv r.csv --summary=yes",
    "run --progress p.csv r.csv --progress",
    "replay --speed 9 p.csv r.csv",
    "replay p.csv r.csv --script",
];

fn all_wrong() -> &'static [&'static str] {
    WRONG
}

// Stops the test unless the words ask for what begins so.
fn assert_asks(rt: &impl Abort, alloc: Global, words: &str, wanted: &str) {
    let shown = shown(rt, alloc, asked(alloc, words));
    assert!(rt;
        shown.starts_with(wanted),
        "{words}: {shown} doesn't begin with {wanted}"
    );
}

// An answer as `Debug` shows it, with a point behind it. It takes the answer, so that no caller has to drop it.
fn shown<T: Debug + Drop>(rt: &impl Abort, alloc: Global, answer: T) -> String {
    format!(in alloc; "{answer:?}.").expect(rt, "memory")
}

#[test]
fn right_words(rt: HostRuntime) {
    for case in all_asked().lines() {
        let (words, wanted) = case.split_once(" => ").expect(&rt, "a case");
        assert_asks(&rt, rt.alloc(), words, wanted);
    }
}

#[test]
fn wrong_words(rt: HostRuntime) {
    for words in all_wrong() {
        assert_asks(&rt, rt.alloc(), *words, "Err(Usage(");
    }
}

const PAST_THE_BOUNDS: &str =
    "error: invalid value '17' for '--workers <N>': 17 is not in 1..=16\n\n\
                               For more information, try '--help'.\n";

fn past_the_bounds() -> &'static str {
    PAST_THE_BOUNDS
}

// Stops the test unless a fault has this status and line.
fn assert_tells(rt: &impl Abort, alloc: Global, fault: &ParseFault, status: u8, line: &str) {
    let mut text = Vec::with_capacity(alloc, 256).expect(rt, "memory");
    assert_that(rt, fault.line(&mut text), "memory");
    assert_text(rt, &text, line);
    let told = fault.status();
    assert!(rt; told == status, "{line}: status {told}, not {status}");
}

#[test]
fn faults(rt: HostRuntime) {
    let fault = asked(rt.alloc(), "replay --workers 17 p.csv r.csv").expect_err(&rt, "asked");
    assert_tells(&rt, rt.alloc(), &fault, 2, past_the_bounds());
    drop(fault);
    let line = "likes: out of memory\n";
    assert_tells(&rt, rt.alloc(), &ParseFault::Memory, 4, line);
}
