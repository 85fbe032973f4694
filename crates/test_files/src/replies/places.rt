//! The places of the additions in logs.
ghost use Rattle.std.specs.Prelude.{◌≡◌, ◌<◌, All};

use crate::files::{assert_text, pair_of, shown};
use crate::replies::log_of;
use like_replies::{Place, places};
use like_roles::Added;
use std::alloc::Global;
use std::process::Abort;

// An addition in phase 1 of `n` likes to a page whose count was `old`.
fn added(page: u32, old: u64, n: u64) -> Added
    ensures { result.page ≡ page }
{
    Added {
        page,
        phase: 1,
        at: 0,
        old,
        n,
    }
}

/// The place of a worker's addition in phase 1.
pub fn place(worker: u32, old: u64, n: u64) -> Place {
    Place {
        worker,
        phase: 1,
        old,
        n,
    }
}

// The places on this many pages of what two workers added.
fn placed(rt: &impl Abort, alloc: Global, pages: u32, first: &[Added], second: &[Added]) -> String
    requires first { All (λ a. a.page < pages) first.now }
    requires second { All (λ a. a.page < pages) second.now }
{
    let first = log_of(rt, alloc, &[], first);
    let second = log_of(rt, alloc, &[], second);
    let logs = pair_of(rt, alloc, first, second);
    let places = places(alloc, pages, &logs);
    drop(logs);
    shown(rt, alloc, places)
}

const PLACES: &str = "\
Ok([[Place { worker: 0, phase: 1, old: 10, n: 1 }, Place { worker: 1, phase: 1, old: 11, n: 1 }, \
Place { worker: 0, phase: 1, old: 12, n: 1 }, Place { worker: 1, phase: 1, old: 12, n: 3 }], \
[Place { worker: 0, phase: 1, old: 5, n: 2 }], []])";

fn places_text() -> &'static str {
    PLACES
}

#[test]
fn places_by_page_and_count(rt: HostRuntime) {
    let first = [added(0, 12, 1), added(1, 5, 2), added(0, 10, 1)];
    let second = [added(0, 11, 1), added(0, 12, 3)];
    let placed = placed(&rt, rt.alloc(), 3, &first, &second);
    assert_text(&rt, placed, places_text());
}

#[test]
fn no_additions(rt: HostRuntime) {
    assert_text(&rt, placed(&rt, rt.alloc(), 1, &[], &[]), "Ok([[]])");
}
