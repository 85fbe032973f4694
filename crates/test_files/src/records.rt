//! What is read of the records of a file, and of numbers.
mod csv;

use crate::files::{assert_same, assert_step, assert_that, halves, push};
pub use csv::csv_cases;
use like_records::{Records, RecordsFault, decimal};
use std::alloc::Global;
use std::io::Read;
use std::process::Abort;
use test_devices::Trickle;

// Adds the record to the text: `|` ends a field and `;` the record.
fn push_record<R: Read>(rt: &impl Abort, out: &mut Vec<u8>, records: &Records<R>) {
    for index in 0..records.field_count() {
        push_bytes(rt, out, records.field(index));
        push_bytes(rt, out, b"|");
    }
    push_bytes(rt, out, b";");
}

fn push_bytes(rt: &impl Abort, out: &mut Vec<u8>, bytes: &[u8]) {
    out.extend_from_slice(bytes).expect(rt, "memory");
}

// Adds the records of a file to the text, and gives the answer behind the last. There are less than 100 records.
fn push_records<R: Read>(
    rt: &impl Abort,
    out: &mut Vec<u8>,
    records: &mut Records<R>,
) -> Result<bool, RecordsFault> {
    for _ in 0..100 {
        let answer = records.read_next();
        if answer != Ok(true) {
            return answer;
        }
        push_record(rt, out, records);
    }
    Ok(true)
}

// Whether this is the answer behind the last record, there are no fields then, and one more call is answered the same.
fn ends<R: Read>(
    answer: Result<bool, RecordsFault>,
    records: &mut Records<R>,
    wanted: Result<bool, RecordsFault>,
) -> bool {
    answer == wanted && records.field_count() == 0 && records.read_next() == wanted
}

// Stops the test unless a file has these records, and ends so.
fn assert_read<R: Read + Drop>(
    rt: &impl Abort,
    alloc: Global,
    file: R,
    wanted: &[u8],
    end: Result<bool, RecordsFault>,
) {
    let mut records = Records::new(alloc, file);
    let out = out_of(rt, alloc, &mut records, end);
    drop(records);
    assert_same(rt, "records", out.as_slice(), wanted);
}

// The records that are left, which must end so.
fn out_of<R: Read>(
    rt: &impl Abort,
    alloc: Global,
    records: &mut Records<R>,
    end: Result<bool, RecordsFault>,
) -> Vec<u8> {
    let mut out = Vec::new(alloc);
    let last = push_records(rt, &mut out, records);
    assert_that(
        rt,
        ends(last, records, end),
        "out of memory, or another end",
    );
    out
}

/// The bytes of the file of a case: `/` is LF, `~` is CR, and `?` is a byte that is no text.
pub fn bytes(rt: &impl Abort, alloc: Global, file: &str) -> Vec<u8> {
    let mut bytes = Vec::new(alloc);
    for byte in file.bytes() {
        push(rt, &mut bytes, byte_of(byte));
    }
    bytes
}

fn byte_of(byte: u8) -> u8 {
    match byte {
        b'/' => b'\n',
        b'~' => b'\r',
        b'?' => 0xff,
        other => other,
    }
}

// Stops the test unless a text is read as others read it.
fn assert_alike(rt: &impl Abort, alloc: Global, case: &str) {
    let (text, records) = halves(rt, case, "=>");
    let (text, records) = (bytes(rt, alloc, text), bytes(rt, alloc, records));
    assert_read(rt, alloc, text.as_slice(), &records, Ok(false));
}

#[test]
fn reads_what_others_read(rt: HostRuntime) {
    for case in csv_cases().lines() {
        assert_alike(&rt, rt.alloc(), case);
    }
}

// A byte order mark, quoted fields, and each end of a line.
const LINES: &[u8] = b"\xef\xbb\xbfname,\"co,unt\"\r\n\n\"say \"\"so\"\"\",,x\rlast";

// Files and their records.
const RECORDS: &[(&[u8], &[u8])] = &[
    (LINES, b"name|co,unt|;say \"so\"||x|;last|;"),
    (b"like,\xff,7\n", b"like|\xff|7|;"),
    (b"", b""),
];

// A test that takes them from here has none of their texts in its proof, as it would with a constant.
fn all_records() -> &'static [(&'static [u8], &'static [u8])] {
    RECORDS
}

#[test]
fn gives_each_record_in_order(rt: HostRuntime) {
    for (file, records) in all_records() {
        assert_read(&rt, rt.alloc(), *file, *records, Ok(false));
    }
}

fn two_rows() -> &'static [u8] {
    b"like,1\nlook,2\n"
}

#[test]
fn a_failed_read_stays_failed(rt: HostRuntime) {
    let file = Trickle::new(two_rows(), 11);
    let end = Err(RecordsFault::Read);
    assert_read(&rt, rt.alloc(), file, b"like|1|;", end);
}

// Reads this many records.
fn skip<R: Read>(rt: &impl Abort, records: &mut Records<R>, number: u32) {
    for _ in 0..number {
        assert_that(
            rt,
            records.read_next() == Ok(true),
            "out of memory, or no record",
        );
    }
}

// Whether a file's record of this number has these fields.
fn has_fields(rt: &impl Abort, alloc: Global, file: &[u8], number: u32, fields: &[&str]) -> bool {
    let mut records = Records::new(alloc, file);
    skip(rt, &mut records, number);
    let has_fields = records.fields_are(fields);
    drop(records);
    has_fields
}

// Files, the number of a record, fields, and whether it has them.
const FIELDS: &[(&[u8], u32, &[&str], bool)] = &[
    (LINES, 1, &["name", "co,unt"], true),
    (LINES, 2, &["say \"so\"", "", "x"], true),
    (LINES, 3, &["last"], true),
    (b"like,1\nlook,2\n", 1, &["like", "1"], true),
    (b"like,\xff,7\n", 1, &["like", "x", "7"], false),
    (b"like,\xff,7\n", 1, &["like", "x"], false),
];

fn all_fields() -> &'static [(&'static [u8], u32, &'static [&'static str], bool)] {
    FIELDS
}

#[test]
fn compares_fields(rt: HostRuntime) {
    for (at, (file, number, fields, wanted)) in all_fields().iter().enumerate() {
        let has_fields = has_fields(&rt, rt.alloc(), *file, *number, *fields);
        assert_step(&rt, "fields", at, has_fields, *wanted);
    }
}

// Texts, how many digits and up to which number they may have, and the number that is read, if one is.
const NUMBERS: &[(&str, usize, u64, Option<u64>)] = &[
    ("0", 19, u64::MAX, Some(0)),
    ("007", 19, u64::MAX, Some(7)),
    ("007", 2, u64::MAX, None),
    ("+1", 19, u64::MAX, None),
    ("-1", 19, u64::MAX, None),
    ("", 19, u64::MAX, None),
    (" 1", 19, u64::MAX, None),
    ("1 ", 19, u64::MAX, None),
    ("1/", 19, u64::MAX, None),
    ("1:", 19, u64::MAX, None),
    ("18446744073709551615", 19, u64::MAX, None),
    (
        "9999999999999999999",
        19,
        u64::MAX,
        Some(9_999_999_999_999_999_999),
    ),
    (
        "1000000000000000000",
        19,
        1_000_000_000_000_000_000,
        Some(1_000_000_000_000_000_000),
    ),
    ("1000000000000000001", 19, 1_000_000_000_000_000_000, None),
    ("4294967295", 10, 4_294_967_295, Some(4_294_967_295)),
    ("4294967296", 10, 4_294_967_295, None),
    ("0", 0, 9, None),
];

fn all_numbers() -> &'static [(&'static str, usize, u64, Option<u64>)] {
    NUMBERS
}

#[test]
fn reads_numbers(rt: HostRuntime) {
    for (text, digits, limit, number) in all_numbers() {
        let came = number_of(&rt, *text, *digits, *limit);
        assert_same(&rt, *text, came, *number);
    }
}

// The number that is read.
fn number_of(rt: &impl Abort, text: &str, digits: usize, limit: u64) -> Option<u64> {
    assert!(rt; digits <= 19);
    decimal(text.as_bytes(), digits, limit)
}
