//! The rows of places.
ghost use Rattle.std.specs.Prelude.{◌≡◌, length};

use super::places::place;
use super::written::{Part, assert_appended, assert_written};
use crate::files::{list, list_of};
use like_replies::{Place, Replies, Report};
use std::alloc::Global;
use std::process::Abort;

// A report on one page with these places.
fn report_on(rt: &impl Abort, alloc: Global, places: &[Place]) -> Report
    ensures { length result.places.items ≡ 1 }
{
    let places = list(rt, alloc, places);
    Report {
        logs: Vec::new(alloc),
        replies: Replies {
            rows: Vec::new(alloc),
        },
        counts: Vec::new(alloc),
        last: Vec::new(alloc),
        phases: 2,
        hot: Vec::new(alloc),
        places: list_of(rt, alloc, places),
    }
}

// Stops the test unless these places on the page of a file are written as these rows.
fn assert_rows(rt: &impl Abort, alloc: Global, file: &str, places: &[Place], rows: &str) {
    let report = report_on(rt, alloc, places);
    assert_written(rt, alloc, file, Part::Places, report, rows);
}

// Of two workers that merged a like each, of none, and of a page with a name in quotes.
#[test]
fn rows_of_places(rt: HostRuntime) {
    let file = "name,count,split\na,100,yes\n";
    let rows = "place,0,0,1,100,a,1\nplace,0,1,1,101,a,1\n";
    let places = [place(0, 100, 1), place(1, 101, 1)];
    assert_rows(&rt, rt.alloc(), file, &places, rows);
    assert_rows(&rt, rt.alloc(), "name,count,split\na,0,no\n", &[], "");
    let file = "name,count,split\n\"x,\"\"y\"\"\",0,yes\n";
    let rows = "place,0,3,1,0,\"x,\"\"y\"\"\",64000000\n";
    assert_rows(&rt, rt.alloc(), file, &[place(3, 0, 64_000_000)], rows);
}

#[test]
fn appends_places(rt: HostRuntime) {
    let file = "name,count,split\na,0,no\n";
    let report = report_on(&rt, rt.alloc(), &[place(0, 0, 1)]);
    let text = "before\nplace,0,0,1,0,a,1\n";
    assert_appended(&rt, rt.alloc(), file, Part::Places, report, text);
}
