//! The program on files, by `serve_words`.
mod starts;

use crate::program::starts::starts;
use crate::replays::{assert_that, cell, owned, push};
use like_program::serve_words;
use std::alloc::Global;
use std::fs;
use std::fs::Files;
use std::io::{Input, Write};
use std::process::Abort;
use std::rt::Clock;
use std::sync::Wait;
use std::thread::Threads;
use test_devices::Narrow;

// The words of a text, each as a text.
fn texts(rt: &impl Abort, alloc: Global, text: &str) -> Vec<String> {
    let mut texts = Vec::new(alloc);
    for word in text.split_whitespace() {
        push(rt, &mut texts, owned(rt, alloc, word));
    }
    texts
}

// The status in which words end.
fn served<R: Files + Input + Threads + Wait + Abort + Clock + Sync, W: Write>(
    rt: &R,
    alloc: Global,
    words: &str,
    out: &mut W,
    errors: &mut Vec<u8>,
) -> u8
where
    R::File: Send,
    R::Reader: Send,
{
    let words = texts(rt, alloc, words);
    serve_words(rt, alloc, &words, out, errors)
}

// Writes or removes files.
fn place_files(rt: &(impl Files + Abort), files: &str, are_there: bool) {
    for file in files.split_terminator('&') {
        place_file(rt, file, are_there);
    }
}

// Writes or removes a file, a name and a text with `>` between them.
fn place_file(rt: &(impl Files + Abort), file: &str, is_there: bool) {
    let (name, text) = file.split_once('>').expect(rt, "a file");
    let done = if is_there {
        fs::write(rt, name, text)
    } else {
        fs::remove_file(rt, name)
    };
    assert_that(rt, done.is_ok(), name);
}

// Whether bytes are this text. A `..` at one of its ends means any more.
fn fits(bytes: &[u8], text: &str) -> bool {
    if let Some(end) = text.strip_prefix("..") {
        return bytes.ends_with(end.as_bytes());
    }
    match text.strip_suffix("..") {
        Some(begin) => bytes.starts_with(begin.as_bytes()),
        None => bytes == text.as_bytes(),
    }
}

// Whether a start has ended as it says.
fn is_end(start: &str, status: u8, out: &[u8], errors: &[u8]) -> bool {
    cell(start, 3).parse().ok() == Some(status)
        && fits(out, cell(start, 4))
        && fits(errors, cell(start, 5))
}

// Asserts what a start has ended in.
fn assert_end(rt: &impl Abort, start: &str, status: u8, out: &[u8], errors: &[u8]) {
    let is_end = is_end(start, status, out, errors);
    assert!(rt; is_end, "{start}: {status} {out:?} {errors:?}");
}

// Asserts what a start ends in with its files.
fn assert_start<R: Files + Input + Threads + Wait + Abort + Clock + Sync>(
    rt: &R,
    alloc: Global,
    start: &str,
)
where
    R::File: Send,
    R::Reader: Send,
{
    place_files(rt, cell(start, 1), true);
    let (mut out, mut errors) = (Vec::new(alloc), Vec::new(alloc));
    let status = served(rt, alloc, cell(start, 2), &mut out, &mut errors);
    assert_end(rt, start, status, &out, &errors);
    place_files(rt, cell(start, 1), false);
}

#[test]
fn ends_of_starts(rt: HostRuntime) {
    for start in starts().split(';') {
        assert_start(&rt, rt.alloc(), start);
    }
}

// Asserts what words end in, the line and the status, on an output of one byte a write where this many succeed.
fn assert_told<R: Files + Input + Threads + Wait + Abort + Clock + Sync>(
    rt: &R,
    alloc: Global,
    words: &str,
    writes: usize,
    flushes: bool,
    line: &str,
    status: u8,
)
where
    R::File: Send,
    R::Reader: Send,
{
    let mut out = Narrow::new(1, writes, flushes);
    let mut errors = Vec::new(alloc);
    let told = served(rt, alloc, words, &mut out, &mut errors);
    let is_told = told == status && errors.as_slice() == line.as_bytes();
    assert_is_told(rt, is_told, writes, told, &errors);
}

// Stops the test and says what was told after this many writes, unless it is right.
fn assert_is_told(rt: &impl Abort, is_told: bool, writes: usize, status: u8, errors: &[u8]) {
    assert!(rt; is_told, "after {writes} writes: {status} {errors:?}");
}

// How many bytes words write.
fn length_of<R: Files + Input + Threads + Wait + Abort + Clock + Sync>(
    rt: &R,
    alloc: Global,
    words: &str,
) -> usize
where
    R::File: Send,
    R::Reader: Send,
{
    let (mut out, mut errors) = (Vec::new(alloc), Vec::new(alloc));
    served(rt, alloc, words, &mut out, &mut errors);
    out.len()
}

// Of the stored example, and of help. The output fails at any of its writes or at its flush, and one of as many writes is
// enough.
#[test]
fn tells_that_its_output_failed(rt: HostRuntime) {
    let line = "likes: standard output: write failed\n";
    for words in ["", "--help"] {
        let length = length_of(&rt, rt.alloc(), words);
        for writes in 0..=length {
            assert_told(&rt, rt.alloc(), words, writes, writes < length, line, 3);
        }
        assert_told(&rt, rt.alloc(), words, length, true, "", 0);
    }
}
