//! The line of each fault, and what the program tells of it.
use super::replays::{assert_text, assert_that, options_of};
use like_command::Options;
use like_files::DriverFault;
use like_program::{ProgramFault, tell};
use like_requests::{PagesFault, RequestsFault, SettingsFault};
use like_run::ScriptFault;
use std::alloc::Global;
use std::process::Abort;
use test_devices::Narrow;

// What the lines say of a pages file.
const OF_PAGES: &[(PagesFault, &str)] = &[
    (PagesFault::Read, "read failed"),
    (PagesFault::Header, "the header is not name,count,split"),
    (PagesFault::Fields { row: 7 }, "row 7: not three fields"),
    (
        PagesFault::Name { row: 7 },
        "row 7: page name is not 1 to 64 bytes of UTF-8",
    ),
    (
        PagesFault::Duplicate { row: 7 },
        "row 7: page name appears twice",
    ),
    (
        PagesFault::Count { row: 4_294_967_295 },
        "row 4294967295: count is not a whole number up to 1000000000000000000",
    ),
    (
        PagesFault::Split { row: 7 },
        "row 7: split is not yes or no",
    ),
    (PagesFault::TooMany, "more than 1024 pages"),
    (PagesFault::Empty, "no page"),
];

// What they say of a request file.
const OF_REQUESTS: &[(RequestsFault, &str)] = &[
    (RequestsFault::Read, "read failed"),
    (RequestsFault::Header, "the header is not op,user,page"),
    (RequestsFault::Fields { row: 7 }, "row 7: not three fields"),
    (
        RequestsFault::Op { row: 7 },
        "row 7: op is not like or look",
    ),
    (
        RequestsFault::User { row: 7 },
        "row 7: user is not a whole number up to 4294967295",
    ),
    (RequestsFault::TooMany, "more than 1000000 requests"),
];

// What they say of a script.
const OF_SCRIPT: &[(DriverFault, &str)] = &[
    (DriverFault::Script(ScriptFault::Read), "read failed"),
    (
        DriverFault::Script(ScriptFault::Line { row: 2 }),
        "row 2: not a turn",
    ),
    (
        DriverFault::Script(ScriptFault::TooMany),
        "more than 1000000 turns",
    ),
    (
        DriverFault::Settings(SettingsFault::Script { at: 1 }),
        "row 2: no such worker or submitter",
    ),
];

fn of_pages() -> &'static [(PagesFault, &'static str)] {
    OF_PAGES
}

fn of_requests() -> &'static [(RequestsFault, &'static str)] {
    OF_REQUESTS
}

fn of_script() -> &'static [(DriverFault, &'static str)] {
    OF_SCRIPT
}

// Asserts a fault's line, and that a line is told not to be written unless each of its writes of one byte succeeds.
fn assert_line(rt: &impl Abort, alloc: Global, options: &Options, fault: DriverFault, want: &str) {
    let mut line = Vec::new(alloc);
    assert_that(rt, fault.line(options, &mut line), "memory");
    assert_text(rt, &line, want);
    for writes in 0..=want.len() {
        let is_written = fault.line(options, &mut Narrow::new(1, writes, true));
        let is_whole = writes == want.len();
        assert!(rt;
            is_written == is_whole,
            "{writes} writes of {want}: {is_written}, not {is_whole}"
        );
    }
}

// Asserts what the program tells of a fault, and with which status.
fn assert_told(rt: &impl Abort, alloc: Global, fault: &ProgramFault, want: &str, status: u8) {
    let mut line = Vec::new(alloc);
    let told = tell(fault, &mut line);
    assert!(rt; told == status, "{want}: status {told}, not {status}");
    assert_text(rt, &line, want);
}

// Asserts the line of a fault of two request files, with or without a script, by itself and as the program tells it, and
// the status.
fn assert_tells(
    rt: &impl Abort,
    alloc: Global,
    is_scripted: bool,
    fault: DriverFault,
    want: &str,
    status: u8,
) {
    let options = options_of(rt, alloc, "1 2 256 1000", 2, is_scripted);
    assert_line(rt, alloc, &options, fault, want);
    let fault = ProgramFault::Files { options, fault };
    assert_told(rt, alloc, &fault, want, status);
    drop(fault);
}

// Asserts what a fault's line says of the file of this name, with status 3.
fn assert_of_file(rt: &impl Abort, alloc: Global, fault: DriverFault, file: &str, text: &str) {
    let want = format!(in alloc; "likes: {file}: {text}\n").expect(rt, "memory");
    assert_tells(rt, alloc, true, fault, &want, 3);
}

// Asserts what the lines say of the request file of a submitter.
fn assert_requests(rt: &impl Abort, alloc: Global, submitter: u32, file: &str) {
    for (fault, text) in of_requests() {
        let fault = DriverFault::Requests {
            submitter,
            fault: *fault,
        };
        assert_of_file(rt, alloc, fault, file, text);
    }
}

#[test]
fn of_files(rt: HostRuntime) {
    for (fault, text) in of_pages() {
        assert_of_file(&rt, rt.alloc(), DriverFault::Pages(*fault), "p.csv", text);
    }
    for (submitter, file) in [(0, "r0.csv"), (1, "r1.csv"), (2, "")] {
        assert_requests(&rt, rt.alloc(), submitter, file);
    }
    for (fault, text) in of_script() {
        assert_of_file(&rt, rt.alloc(), *fault, "s.csv", text);
    }
}

// The faults that name no file, with their line and status.
const OWN: &[(DriverFault, &str, u8)] = &[
    (DriverFault::Memory, "likes: out of memory\n", 4),
    (
        DriverFault::Pages(PagesFault::Memory),
        "likes: out of memory\n",
        4,
    ),
    (
        DriverFault::Requests {
            submitter: 1,
            fault: RequestsFault::Memory,
        },
        "likes: out of memory\n",
        4,
    ),
    (
        DriverFault::Script(ScriptFault::Memory),
        "likes: out of memory\n",
        4,
    ),
    (
        DriverFault::Start,
        "likes: a thread could not be started\n",
        4,
    ),
    (
        DriverFault::Unfinished,
        "likes: not finished after 1000000 rounds\n",
        5,
    ),
    (
        DriverFault::Write,
        "likes: standard output: write failed\n",
        3,
    ),
    (
        DriverFault::Settings(SettingsFault::Submitters),
        "likes: between 1 and 64 request files\n",
        2,
    ),
    (
        DriverFault::Settings(SettingsFault::Workers),
        "likes: settings\n",
        2,
    ),
    (
        DriverFault::Script(ScriptFault::Read),
        "likes: : read failed\n",
        3,
    ),
];

fn own() -> &'static [(DriverFault, &'static str, u8)] {
    OWN
}

#[test]
fn of_no_file(rt: HostRuntime) {
    for (fault, line, status) in own() {
        assert_tells(&rt, rt.alloc(), false, *fault, line, *status);
    }
    let memory = ProgramFault::Memory;
    assert_told(&rt, rt.alloc(), &memory, "likes: out of memory\n", 4);
}
