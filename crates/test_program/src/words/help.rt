//! What help says.
use super::asked;
use like_command::Asked;
use std::alloc::Global;
use std::process::Abort;

// The text of the help that words ask for.
fn help(rt: &impl Abort, alloc: Global, words: &str) -> String {
    match asked(alloc, words).expect(rt, "help") {
        Asked::Help(text) => text,
        _ => panic!(rt; "no help"),
    }
}

// Whether a line tells of `what`: it comes first, and two spaces or more behind it.
fn begins_with(line: &str, what: &str) -> bool {
    match line.trim_start().split_once("  ") {
        Some((first, _)) => first == what,
        None => false,
    }
}

// Whether a line of a text tells of `what`.
fn explains(text: &str, what: &str) -> bool {
    for line in text.lines() {
        if begins_with(line, what) {
            return true;
        }
    }
    false
}

// The columns of the files and the report, the answers and the options.
const COLUMNS: &[&str] = &[
    "name",
    "count",
    "split",
    "op",
    "user",
    "page",
    "row",
    "id",
    "number",
    "phase",
    "answer",
    "liked",
    "seen",
    "unknown-user",
    "other-home",
    "unknown-page",
    "-w, --workers <N>",
    "-u, --users <U>",
    "-s, --stash <C>",
    "-t, --turns <T>",
    "--hot <H>",
    "--places",
    "--totals",
    "--summary",
    "--progress",
];

// What a script is, of a replay alone.
const SCRIPT: &[&str] = &["--script <FILE>", "open,S", "worker,W", "coordinator,0"];

// The words and statuses.
const WORDS: &[&str] = &["run", "replay", "-V, --version", "0", "2", "3", "4", "5"];

const HEADERS_AND_DEFAULTS: &[&str] = &[
    "name,count,split",
    "op,user,page",
    "row,id,number,phase,answer,page,count",
    "[default: 4]",
    "[default: 1000]",
    "[default: 256]",
];

// Words, whether the help that they ask for explains each item of a list, and texts that it has.
type Case = (
    &'static str,
    &'static [&'static str],
    bool,
    &'static [&'static str],
);

const HELP: &[Case] = &[
    ("run --help", COLUMNS, true, HEADERS_AND_DEFAULTS),
    ("replay -h", COLUMNS, true, &[]),
    ("replay p.csv --help", COLUMNS, true, &[]),
    ("replay --help", SCRIPT, true, HEADERS_AND_DEFAULTS),
    ("run --help", SCRIPT, false, &[]),
    ("--help", WORDS, true, &[]),
];

// A test that takes them from here has none of their texts in its proof, as it would with a constant.
fn all_help() -> &'static [Case] {
    HELP
}

fn assert_explains(rt: &impl Abort, text: &str, list: &[&str], is_explained: bool) {
    for what in list {
        let came = explains(text, *what);
        assert!(rt; came == is_explained, "{what}: {came}, not {is_explained}");
    }
}

fn assert_says(rt: &impl Abort, text: &str, parts: &[&str]) {
    for part in parts {
        assert!(rt; text.contains(*part), "{text} doesn't say {part}");
    }
}

fn assert_narrow(rt: &impl Abort, text: &str) {
    for line in text.lines() {
        assert!(rt;
            line.len() <= 80,
            "{line} has {} columns, and not 80 or fewer",
            line.len()
        );
    }
}

// Each word, with the headers and the defaults, in lines of eighty columns.
#[test]
fn explains_each_word(rt: HostRuntime) {
    for (words, list, is_explained, texts) in all_help() {
        let help = help(&rt, rt.alloc(), *words);
        assert_explains(&rt, &help, *list, *is_explained);
        assert_says(&rt, &help, *texts);
        assert_narrow(&rt, &help);
    }
}

// Words that ask for help with `help` in front, and others that ask for the same.
const ALIKE: &[(&str, &str)] = &[
    ("help", "--help"),
    ("help", "-h"),
    ("help run", "run --help"),
    ("help replay", "replay --help"),
];

fn alike() -> &'static [(&'static str, &'static str)] {
    ALIKE
}

// Whether words ask for the same help as others.
fn ask_alike(rt: &impl Abort, alloc: Global, words: &str, others: &str) -> bool {
    help(rt, alloc, words) == help(rt, alloc, others)
}

#[test]
fn is_asked_for_by_a_word_too(rt: HostRuntime) {
    for (words, others) in alike() {
        let is_alike = ask_alike(&rt, rt.alloc(), *words, *others);
        assert!(&rt; is_alike, "{words} doesn't ask for what {others} asks for");
    }
}
