ghost use Rattle.std.specs.Prelude.{◌≡◌};
ghost use Rattle.like_core.specs.declared.form.Form.TheVariants.{Counts};
ghost use Rattle.like_core.specs.OpeningLimits.{AreLimits};

mod cases;

use crate::asserts::{assert_named, assert_same, assert_step};
use cases::{Case, LawfulWord, Step, cases, lawful_words, unlawful_words};
use like_core::{
    CoordSight, Core, Event, Form, Kind, Limits, NotNow, PhaseWord, Shown, Wrong, check_events,
};
use std::alloc::{AllocError, Global};
use std::process::Abort;
use std::test::Fail;

// A core of pages that begin at this count.
fn core_of(
    rt: &impl Abort,
    alloc: Global,
    workers: u32,
    count: u64,
    marks: &[bool],
) -> Result<Core, AllocError> {
    assert!(rt; workers >= 1 && workers <= 16);
    assert!(rt; marks.len() <= 1_024 && count <= 9_223_372_036_854_775_807);
    let counts = Vec::from_elem(alloc, count, marks.len())?;
    Core::new(alloc, workers, counts.as_slice(), marks)
}

// Why an event may not happen, in words.
fn reason_in_words(why: NotNow) -> &'static str {
    match why {
        NotNow::NoSuch => "no such worker or page",
        NotNow::Phase => "not in this phase",
        NotNow::Last => "the last phase",
        NotNow::Full => "the largest count",
    }
}

// What an event shows, or why it may not happen, in words and numbers.
fn in_words(shown: Result<Shown, NotNow>) -> (&'static str, u64, [bool; 3]) {
    let none = [false; 3];
    match shown {
        Ok(Shown::Seen(sight)) => ("seen", sight.number, [sight.ending, sight.waits, false]),
        Ok(Shown::Coord(sight)) => {
            let flags = [sight.ending, sight.all_in, sight.all_gone];
            ("seen by the coordinator", sight.number, flags)
        }
        Ok(Shown::Done) => ("done", 0, none),
        Ok(Shown::Sliced) => ("sliced", 0, none),
        Ok(Shown::Old(count)) => ("count before", count, none),
        Ok(Shown::Count(count)) => ("count", count, none),
        Ok(Shown::Hot(mask)) => ("mask", mask, none),
        Err(why) => (reason_in_words(why), 0, none),
    }
}

// The place of the first wrong event, and why it may not happen.
fn wrong_in_words(checked: Result<(), Wrong>) -> Option<(usize, &'static str)> {
    match checked {
        Ok(()) => None,
        Err(wrong) => Some((wrong.index, reason_in_words(wrong.reason))),
    }
}

// Asserts what a core shows at the steps of a case.
fn assert_steps(rt: &impl Abort, core: &mut Core, case: &str, steps: &[Step]) {
    for at in 0..steps.len() {
        let (event, shown) = steps[at];
        let came = in_words(core.step(event));
        assert_step(rt, case, at, came, in_words(shown));
    }
}

// Asserts what a core answers to the events of a case.
fn assert_case(rt: &impl Abort, core: &mut Core, case: &Case) {
    let checked = check_events(core, case.events);
    let wanted = wrong_in_words(case.checked);
    assert_same(rt, case.name, wrong_in_words(checked), wanted);
    assert_steps(rt, core, case.name, case.steps);
}

#[test]
fn answers_events(rt: HostRuntime) -> Result<(), Fail> {
    for case in cases() {
        let mut core = core_of(&rt, rt.alloc(), case.workers, case.count, case.marks)?;
        assert_case(&rt, &mut core, case);
        drop(core);
    }
    Ok(())
}

// A core of one worker goes on to the next phase: the events that lead there, checked.
fn goes_on(core: &mut Core, phase: u32) -> Result<(), Wrong> {
    let answer = if phase % 2 == 0 {
        Event::Acknowledge(0)
    } else {
        Event::Report(0)
    };
    let events = [Event::Announce, answer, Event::Release(0), Event::Look(0)];
    check_events(core, &events)
}

// What the coordinator sees of this phase, whose end was not announced.
fn shown_in(phase: u32) -> Result<Shown, NotNow> {
    Ok(Shown::Coord(CoordSight {
        number: u64::from(phase),
        ending: false,
        all_in: false,
        all_gone: false,
    }))
}

// A core goes on to the last phase, whose end can't be announced.
fn assert_last_phase(rt: &impl Abort, core: &mut Core, last_phase: u32) {
    for phase in 0..last_phase {
        let checked = goes_on(core, phase);
        if checked.is_err() {
            assert_step(rt, "phases", phase as usize, wrong_in_words(checked), None);
        }
    }
    let announced = in_words(core.step(Event::Announce));
    let wanted = in_words(Err(NotNow::Last));
    assert_same(rt, "the last phase", announced, wanted);
    let seen = in_words(core.step(Event::CoordLook));
    assert_same(rt, "its number", seen, in_words(shown_in(last_phase)));
}

#[test]
fn refuses_announcement_in_last_phase(rt: HostRuntime) -> Result<(), Fail> {
    let mut core = Core::new(rt.alloc(), 1, &[0], &[true])?;
    assert_last_phase(&rt, &mut core, 16_777_214);
    drop(core);
    Ok(())
}

/// Limits of one page and one worker, whose last phase is 4 and whose phase word counts.
pub fn small_limits() -> Limits
    ensures lawful { AreLimits result }
    ensures page { result.pages ≡ 1 }
    ensures hot { result.hot ≡ 64 }
    ensures seat { result.seats ≡ 1 }
    ensures form { result.form ≡ Counts }
{
    Limits {
        last_phase: 4,
        likes: 2,
        pages: 1,
        hot: 64,
        seats: 1,
        form: Form::Counts,
    }
}

#[test]
fn stays_in_its_last_phase(rt: HostRuntime) -> Result<(), Fail> {
    let mut core = Core::with_limits(rt.alloc(), 1, &[0], &[true], small_limits())?;
    assert_last_phase(&rt, &mut core, 4);
    drop(core);
    Ok(())
}

// The numbers of limits: last phase, likes, pages, hot pages and seats; and whether the form is that of a run.
fn numbers_of(limits: Limits) -> (u64, u64, u32, u32, u32, bool) {
    let is_of_run = limits.form == Form::Bits;
    (
        limits.last_phase,
        limits.likes,
        limits.pages,
        limits.hot,
        limits.seats,
        is_of_run,
    )
}

#[test]
fn limits_are_these_numbers(rt: HostRuntime) -> Result<(), Fail> {
    let run = (16_777_214, 64_000_000, 1_024, 64, 16, true);
    assert_same(&rt, "a run", numbers_of(Limits::of_run()), run);
    let service = (
        281_474_976_710_654,
        72_057_594_037_927_936,
        16_777_216,
        16_777_216,
        64,
        false,
    );
    assert_same(&rt, "a service", numbers_of(Limits::of_service()), service);
    Ok(())
}

// The number of a word's parts, and whether that is taken apart into them. None if the parts are no word's.
fn packed(word: LawfulWord) -> Option<(u64, bool)> {
    let parts = PhaseWord::new(
        word.kind,
        word.workers,
        word.answered,
        word.retired,
        word.number,
    );
    match parts {
        Some(made) => Some((made.pack(), PhaseWord::unpack(word.packed) == parts)),
        None => None,
    }
}

#[test]
fn packs_and_unpacks_words(rt: HostRuntime) -> Result<(), Fail> {
    let lawful = lawful_words();
    for at in 0..lawful.len() {
        let word = lawful[at];
        let wanted = Some((word.packed, true));
        assert_step(&rt, "lawful words", at, packed(word), wanted);
    }
    let unlawful = unlawful_words();
    for at in 0..unlawful.len() {
        let is_word = PhaseWord::unpack(unlawful[at]).is_some();
        assert_step(&rt, "unlawful words", at, is_word, false);
    }
    Ok(())
}

// The words of `idle-workers` at the end of phase 0 and at the start of phase 1, by what each step makes of a word.
#[test]
fn steps_lead_to_words_of_idle_workers(rt: HostRuntime) -> Result<(), Fail> {
    let form = Form::Bits;
    let gone = [form.retirement(1), form.retirement(2), form.retirement(3)];
    let mut ending = form
        .first(4)
        .saturating_add(1)
        .saturating_add(form.answer(0));
    for more in gone {
        ending = ending.saturating_add(more);
    }
    assert_same(&rt, "the end of phase 0", ending, 234_881_297);
    let is_joined =
        matches!(PhaseWord::unpack(ending), Some(word) if word.kind == Kind::JoinedEnding);
    assert_named(&rt, is_joined, "phase 0 is joined and ending");
    let released = form.released(234_881_297);
    assert_same(&rt, "phase 1", released, 1_099_746_508_818);
    Ok(())
}

// The last phase but one of a service is ending. Of its 64 seats 63 have answered, and one is gone.
const ALL_IN: u64 = 0xffff_ffff_fffd_02ff;

#[test]
fn counts_64_seats(rt: HostRuntime) -> Result<(), Fail> {
    let form = Form::Counts;
    let sight = form.coord_sight_in(ALL_IN, 64);
    assert_same(&rt, "the phase", sight.number, 281_474_976_710_653);
    let flags = (sight.ending, sight.all_in, sight.all_gone);
    assert_same(&rt, "all are in", flags, (true, true, false));
    let one_less = form.coord_sight_in(ALL_IN - form.answer(63), 64);
    assert_same(&rt, "one is not in", one_less.all_in, false);
    assert_named(&rt, form.sight_in(ALL_IN, 1).waits, "seat 1 waits");
    assert_named(&rt, !form.sight_in(ALL_IN, 0).waits, "seat 0 does not wait");
    let released = form.released(ALL_IN);
    assert_same(&rt, "the last phase", released, 0xffff_ffff_fffe_0200);
    Ok(())
}
