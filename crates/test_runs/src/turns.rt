//! The answers of each turn of a script.
ghost use Rattle.std.specs.Prelude.{◌≡◌, All, length};
ghost use Rattle.like_requests.specs.Setup.{IsWithinLimits};
ghost use Rattle.like_requests.specs.Script.{IsInRun};
ghost use Rattle.like_roles.specs.coordinator.CoordTurns.{HasEndedJoined};
ghost use Rattle.like_promises.specs.Workload.{lists_of};
ghost use Rattle.like_crew.specs.Crew.{AreGone, GoesOn};
ghost use Rattle.like_crew.specs.Outcome.{IsOutcome};
ghost use Rattle.like_run.specs.Rounds.{CanMake};

use super::asserts::{assert_counts, assert_same};
use super::cases::{
    Case, FULL_STASH, IDLE_WORKERS, LATE_WORKER, PLAIN_LIKES, SPLIT_AND_STASH, STASH_THEN_LIKE,
    TWO_SLICES, UNSPLIT, turns,
};
use like_crew::{Outcome, OwnCrew, report_of, sizes_of};
use like_replies::Report;
use like_requests::{Request, Setup, check_script, check_setup};
use like_roles::{CoordTurn, Terms, Turn};
use like_run::{MAX_ENTRIES, MAX_ROUNDS, Turned};
use std::alloc::Global;
use std::fmt::Debug;
use std::process::Abort;
use std::snapshot::Snapshot;

// What a turn answers.
#[derive(Clone, Copy)]
enum Answer {
    Led(CoordTurn),
    Did(Turn),
}

// Makes one entry of a script, and gives what it answers where it is a turn.
fn answer_of(crew: &mut OwnCrew, entry: &Turned) -> Option<Answer>
    requires { CanMake crew.old.servers entry.now }
    ensures { GoesOn crew.old crew.new }
{
    match *entry {
        Turned::OpenOne(submitter) => {
            crew.open_one(submitter);
            None
        }
        Turned::Worker(worker) => Some(Answer::Did(crew.turn_of(worker))),
        Turned::Coordinator => Some(Answer::Led(crew.turn())),
    }
}

// Writes a word, with a space behind it.
fn write_word(rt: &impl Abort, words: &mut String, word: &impl Debug) {
    write!(words, "{word:?} ").expect(rt, "memory");
}

// Writes what a turn answers.
fn write_answer(rt: &impl Abort, words: &mut String, answer: &Answer) {
    match answer {
        Answer::Led(turn) => write_word(rt, words, turn),
        Answer::Did(turn) => write_word(rt, words, turn),
    }
}

// Makes a script's entries in their order, and gives a word for what each turn among them answers.
fn answers_of(rt: &impl Abort, alloc: Global, crew: &mut OwnCrew, script: &[Turned]) -> String
    requires { All (CanMake crew.old.servers) script.now }
    ensures { GoesOn crew.old crew.new }
{
    let mut words = String::new(alloc);
    for entry in script {
        if let Some(answer) = answer_of(crew, entry) {
            write_answer(rt, &mut words, &answer);
        }
    }
    words
}

// Opens all lists, and makes rounds until the run ended.
fn end_run(rt: &impl Abort, crew: &mut OwnCrew)
    ensures goes_on { GoesOn crew.old crew.new }
    ensures ended { HasEndedJoined crew.new.coordinator }
    ensures gone { AreGone crew.new.servers }
{
    crew.open_all();
    for _ in 0..MAX_ROUNDS {
        if crew.round() {
            return;
        }
    }
    panic!(rt; "the run did not end");
}

// What the turns of a script answer, and what its crew leaves at the end of the run: a crew that is taken apart needs no
// drop.
fn play(rt: &impl Abort, alloc: Global, crew: OwnCrew, script: &[Turned]) -> (String, Outcome)
    requires script { All (CanMake crew.servers) script.now }
    requires all { length crew.servers ≡ crew.coordinator.seat.opening.workers }
    ensures { IsOutcome (GoesOn crew) result.1 }
{
    let mut crew = crew;
    let words = answers_of(rt, alloc, &mut crew, script);
    end_run(rt, &mut crew);
    let outcome = crew.finish(alloc).expect(rt, "memory");
    (words, outcome)
}

// What the turns of a script answer in a run within the limits, and its report.
fn answers_within(
    rt: &impl Abort,
    alloc: Global,
    setup: &Setup,
    plans: Vec<Vec<Request>>,
    script: &[Turned],
) -> (String, Report)
    requires within { IsWithinLimits setup.now (lists_of plans.items) }
    requires script { All (IsInRun setup.now.workers (length plans.items)) script.now }
{
    let sizes = sizes_of(alloc, &plans).expect(rt, "memory");
    let terms = Terms {
        sizes: &sizes,
        notes: true,
    };
    let lists = Snapshot::of(&plans);
    let crew = OwnCrew::new(alloc, setup, terms, plans).expect(rt, "memory");
    let (words, outcome) = play(rt, alloc, crew, script);
    let report = report_of(alloc, setup, &lists, terms, outcome).expect(rt, "a report");
    (words, report)
}

// What the turns of a script answer, and the report of its run.
fn answers(
    rt: &impl Abort,
    alloc: Global,
    setup: &Setup,
    plans: Vec<Vec<Request>>,
    script: &[Turned],
) -> (String, Report) {
    assert!(rt; script.len() <= MAX_ENTRIES as usize);
    check_setup(setup, &plans).expect(rt, "settings within the limits");
    check_script(script, setup.workers, plans.len()).expect(rt, "a script within the run");
    answers_within(rt, alloc, setup, plans, script)
}

// What the turns of a case's script answer, and the report of its run.
fn answers_in(rt: &impl Abort, alloc: Global, case: &Case) -> (String, Report) {
    let setup = case.setup(rt, alloc);
    let plans = case.plans(rt, alloc, &setup.pages);
    let script = turns(rt, alloc, case.script);
    let answers = answers(rt, alloc, &setup, plans, &script);
    drop(script);
    drop(setup);
    answers
}

// Asserts what the turns of a case's script answer, a word for each, and the counts of its run.
fn assert_answers(rt: &impl Abort, alloc: Global, case: &Case, expected: &str, counts: &[u64]) {
    let (words, report) = answers_in(rt, alloc, case);
    assert_same(rt, case.script, words.as_str().trim_end(), expected);
    assert_counts(rt, case.script, report, counts);
}

// Three rounds of four workers, three of them without a submitter, and the turns that end the run.
const IDLE: &str =
    "Announced Acknowledged Retired Retired Retired Released Ran Retired Retired Retired \
    Announced Reported Retired Retired Retired Released TookEnd Retired Retired Retired \
    Announced Retired Retired Retired Retired Ended";

// Two workers with a slice each: the coordinator and the first wait for the second, which has not reported yet.
const SLICES: &str = "Announced Acknowledged Acknowledged Released Ran Ran Stashed \
    Announced Reported Waiting Waiting Reported Released Ran";

const PLAIN_TURNS: Case = Case {
    script: "o0 o0 o0 o0 c0 w0 c0 w0 c0 w0 c0 w0 c0 w0 c0",
    ..PLAIN_LIKES
};

const IDLE_TURNS: Case = Case {
    script: "o0 o0 c0 w0 w1 w2 w3 c0 w0 w1 w2 w3 c0 w0 w1 w2 w3 c0 w0 w1 w2 w3 c0 w0 w1 w2 w3 c0",
    ..IDLE_WORKERS
};

// A case, what the turns of its script answer, and its counts.
const ANSWERS: &[(&Case, &str, &[u64])] = &[
    (
        &PLAIN_TURNS,
        "Counted Ran Counted Ran Counted Ran Counted TookEnd Counted Retired Ended",
        &[13],
    ),
    (
        &SPLIT_AND_STASH,
        "Announced Acknowledged Released Ran Stashed Announced Reported Released Ran",
        &[11],
    ),
    (
        &LATE_WORKER,
        "Announced Acknowledged Acknowledged Released Stashed Stashed \
        Announced Reported Reported Released Announced Ran Ran Acknowledged",
        &[0],
    ),
    (
        &STASH_THEN_LIKE,
        "Announced Acknowledged Released Stashed Ran Announced Reported Released Ran",
        &[5, 1],
    ),
    (
        &FULL_STASH,
        "Announced Acknowledged Released Stashed Idle Announced Reported Released Ran Ran",
        &[0],
    ),
    (&UNSPLIT, "Announced Acknowledged Released Ran Ran", &[8]),
    (&TWO_SLICES, SLICES, &[102]),
    (&IDLE_TURNS, IDLE, &[1]),
];

// A test that takes them from here has none of their texts in its proof, as it would with a constant.
fn all_answers() -> &'static [(&'static Case, &'static str, &'static [u64])] {
    ANSWERS
}

#[test]
fn answers_of_scripts(rt: HostRuntime) {
    for (case, answers, counts) in all_answers() {
        assert_answers(&rt, rt.alloc(), case, answers, counts);
    }
}
