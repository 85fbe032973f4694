//! Which pages are split: a marked one among a million, two that a choice moves through a slot, and those that a host
//! proposes beside a marked one.
use crate::asserts::{assert_named, assert_same};
use crate::play::plays;
use crate::scenes::{asks_when_due, changes, live_moves_calls, live_slots_calls};
use crate::services::open;
use like_choice::{Choice, Guided, NoProposal, Proposal, Slots};
use like_live::{Driver, Opening, Service};
use std::alloc::{AllocError, Global};
use std::process::Abort;
use std::test::Fail;

// Two seats and users 0 to 3, with these pages, each with no like, and these marks.
fn opening_of(alloc: Global, pages: usize, marks: &[u32]) -> Result<Opening, AllocError> {
    Ok(Opening {
        counts: Vec::from_elem(alloc, 0, pages)?,
        marks: Vec::from_slice(alloc, marks)?,
        seats: 2,
        users: 4,
        lasts: Vec::new(alloc),
        room: 2,
        hot: None,
    })
}

fn opened<C: Choice + Drop>(
    alloc: Global,
    pages: usize,
    marks: &[u32],
    choice: C,
) -> Result<Service<C>, Fail> {
    let opening = opening_of(alloc, pages, marks)?;
    match Service::open_with(alloc, &opening, choice) {
        Ok(service) => Ok(service),
        Err(_) => Err(Fail::new("no service")),
    }
}

// Writes the last counts, once all seats are gone.
fn write_last<C: Choice>(rt: &impl Abort, driver: &mut Driver<C>, counts: &mut [u64]) {
    assert_named(
        rt,
        driver.has_pages(0, counts.len()),
        "as many pages as counts",
    );
    let are_written = driver.last_counts(0, counts);
    assert_same(rt, "the last counts are written", are_written, true);
}

// How many pages have likes.
fn liked(counts: &[u64]) -> usize {
    let mut liked = 0usize;
    for count in counts {
        if *count != 0 {
            liked = liked.saturating_add(1);
        }
    }
    liked
}

// The likes of page 999,999 and of page 5, and how many pages have likes.
fn likes_of_two(counts: &[u64]) -> (Option<u64>, Option<u64>, usize) {
    let last = counts.get(999_999).copied();
    (last, counts.get(5).copied(), liked(counts))
}

#[test]
fn live_slots(rt: HostRuntime) -> Result<(), Fail> {
    let mut counts = Vec::from_elem(rt.alloc(), 7, 1_000_000)?;
    let mut service = opened(rt.alloc(), 1_000_000, &[999_999], NoProposal)?;
    plays(&rt, &mut service, live_slots_calls());
    write_last(&rt, &mut service.driver, &mut counts);
    drop(service);
    let likes = likes_of_two(&counts);
    assert_same(&rt, "live_slots", likes, (Some(3), Some(2), 2));
    Ok(())
}

// Proposes one page, and the next time the one after it.
#[derive(Drop)]
struct Moving {
    next: u32,
}

impl Choice for Moving {
    ghost use Rattle.std.specs.Prelude.{[], true};

    ghost told = { λ _. [] };

    ghost finds = { λ _. true };

    fn propose(&mut self, _slots: &Slots, proposed: &mut Proposal) {
        proposed.clear();
        proposed.push(self.next);
        self.next = self.next.wrapping_add(1);
    }
}

#[test]
fn live_moves(rt: HostRuntime) -> Result<(), Fail> {
    let mut service = opened(rt.alloc(), 10, &[], Moving { next: 7 })?;
    plays(&rt, &mut service, live_moves_calls());
    let mut counts = [0; 10];
    write_last(&rt, &mut service.driver, &mut counts);
    drop(service);
    let wanted = [0, 0, 0, 0, 0, 0, 0, 4, 3, 0];
    assert_same(&rt, "live_moves", counts, wanted);
    Ok(())
}

#[test]
fn asks_its_choice_when_due(rt: HostRuntime) -> Result<(), Fail> {
    let mut service = opened(rt.alloc(), 10, &[], Moving { next: 7 })?;
    plays(&rt, &mut service, asks_when_due());
    drop(service);
    Ok(())
}

// Asserts that exactly these pages are split, or were in the last split phase.
fn assert_split<C: Choice>(rt: &impl Abort, case: &str, driver: &Driver<C>, wanted: &[u32]) {
    let mut pages = [0; 64];
    let many = driver.split_pages(&mut pages);
    assert_same(rt, case, &pages[..many.min(64)], wanted);
}

// A change to a joined phase and one to a split phase. Exactly these pages are split in that.
fn changes_to(rt: &impl Abort, case: &str, service: &mut Service<Guided>, wanted: &[u32]) {
    plays(rt, service, changes());
    plays(rt, service, changes());
    assert_split(rt, case, &service.driver, wanted);
}

// Pages 3 and 4 are proposed, and then none.
fn proposes_beside_a_mark(rt: &impl Abort, service: &mut Service<Guided>) {
    service.driver.propose(&[3, 4]);
    plays(rt, service, changes());
    assert_split(rt, "the marked page", &service.driver, &[5]);
    changes_to(rt, "what is proposed", service, &[5, 3, 4]);
    changes_to(rt, "what is still proposed", service, &[5, 3, 4]);
    service.driver.propose(&[]);
    changes_to(rt, "none is proposed", service, &[5]);
}

// What is proposed is split beside what is marked, from the end of a split phase on, until the host proposes nothing.
#[test]
fn marks_beside_proposals(rt: HostRuntime) -> Result<(), Fail> {
    let opening = opening_of(rt.alloc(), 10, &[5])?;
    let mut service = open(rt.alloc(), &opening)?;
    proposes_beside_a_mark(&rt, &mut service);
    drop(service);
    Ok(())
}
