//! The places of the additions in runs.
use super::asserts::{assert_counts, assert_same, assert_step};
use super::cases::plain_likes;
use super::gates::Watch;
use like_replies::{Place, Report};
use like_run::{replay_noting, run_noting};
use std::alloc::Global;
use std::process::Abort;
use std::sync::Wait;
use std::thread::Threads;

/// The additions to the one page of a report.
pub fn places_of<'a>(rt: &impl Abort, report: &'a Report) -> &'a [Place] {
    assert_same(rt, "pages", report.places.len(), 1);
    report.places.first().expect(rt, "a page")
}

/// Asserts that worker 0 made three additions of one like each, from a count of 10 on.
pub fn assert_placed_singly(rt: &impl Abort, places: &[Place]) {
    assert_same(rt, "places", places.len(), 3);
    let mut old = 10_u64;
    for (step, place) in places.iter().enumerate() {
        let came = (place.worker, place.old, place.n);
        assert_step(rt, "places", step, came, (0, old, 1));
        old = old.saturating_add(1);
    }
}

// How many additions the logs of a report have.
fn additions(report: &Report) -> usize {
    let mut many = 0_usize;
    for log in report.logs.iter() {
        many = many.saturating_add(log.adds.len());
    }
    many
}

// Asserts that a report of plain likes has their count, and no places and additions.
fn assert_none(rt: &impl Abort, report: Report) {
    let came = (report.places.len(), additions(&report));
    assert_same(rt, "places and additions", came, (0, 0));
    assert_counts(rt, "the count", report, &[13]);
}

// The report of a replay that notes no additions.
fn replayed_unnoted(rt: &impl Abort, alloc: Global) -> Report {
    let setup = plain_likes().setup(rt, alloc);
    let plans = plain_likes().plans(rt, alloc, &setup.pages);
    let replayed = replay_noting(alloc, &setup, plans, &[], false);
    drop(setup);
    replayed.expect(rt, "a report")
}

/// The report of a run of plain likes, which notes the additions or doesn't.
pub fn ran_plain(
    rt: &(impl Abort + Threads + Wait + Sync),
    alloc: Global,
    is_noted: bool,
) -> Report {
    let setup = plain_likes().setup(rt, alloc);
    let plans = plain_likes().plans(rt, alloc, &setup.pages);
    let gate = Watch::idle();
    let ran = run_noting(rt, alloc, &setup, plans, &gate, u32::MAX, is_noted);
    drop(gate);
    drop(setup);
    ran.expect(rt, "a report")
}

#[test]
fn notes_no_places_where_none_are_asked(rt: HostRuntime) {
    assert_none(&rt, replayed_unnoted(&rt, rt.alloc()));
    assert_none(&rt, ran_plain(&rt, rt.alloc(), false));
}
