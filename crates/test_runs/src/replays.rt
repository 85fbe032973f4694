//! Replays of scripts: what the workers took and ran, the places of their additions, refused scripts, and how long a
//! replay may last.
use super::asserts::{assert_counts, assert_same, assert_step};
use super::cases::{
    Case, FULL_STASH, IDLE_WORKERS, LATE_WORKER, PLAIN_LIKES, SMALL, SPLIT_AND_STASH,
    STASH_THEN_LIKE, TWO_SLICES, UNSPLIT, likes,
};
use super::logs::{Log, NO_LOG, assert_logs};
use like_replies::{Place, Report};
use like_requests::SettingsFault;
use like_roles::{Chosen, Ran};
use like_run::ReplayFault;
use std::alloc::Global;
use std::process::Abort;

const MERGED: Case = Case {
    users: 1,
    requests: &["like,0,a\nlike,0,a\nlike,0,a\n"],
    script: "o0 o0 o0 c0 w0 c0 w0 w0 w0 c0 w0 c0",
    ..SPLIT_AND_STASH
};

const HOT_CHOICE: Case = Case {
    hot: Some(2),
    pages: "a,0,no\n",
    requests: &["like,0,a\nlike,0,a\nlook,0,a\n"],
    ..SMALL
};

const COOL_CHOICE: Case = Case {
    hot: Some(3),
    ..HOT_CHOICE
};

// A worked example: its case, and what is asserted of its replay's report.
#[derive(Clone, Copy)]
struct Example {
    name: &'static str,
    case: Case,
    // By worker.
    logs: &'static [Log],
    // By page.
    places: &'static [&'static [Place]],
    hot: &'static [Chosen],
    counts: &'static [u64],
    phases: u32,
}

// The page is hot in phase 3, so the look that is taken there waits for phase 4.
const HOT_EXAMPLE: Example = Example {
    name: "hot-choice",
    case: HOT_CHOICE,
    logs: &[Log {
        taken: &[(1, 0, 1), (2, 0, 2), (3, 0, 3)],
        ran: &[(1, false, 0, 1), (2, false, 0, 2), (4, true, 0, 3)],
    }],
    places: &[&[
        Place {
            worker: 0,
            phase: 1,
            old: 0,
            n: 1,
        },
        Place {
            worker: 0,
            phase: 2,
            old: 1,
            n: 1,
        },
    ]],
    hot: &[Chosen { phase: 3, mask: 1 }],
    counts: &[2],
    phases: 6,
};

// Of one worker, and no hot pages. No look waits.
const OF_ONE: &[Example] = &[
    Example {
        name: "plain-likes",
        case: PLAIN_LIKES,
        logs: &[Log {
            taken: &[(0, 0, 1), (0, 0, 2), (0, 0, 3)],
            ran: &[(0, false, 0, 1), (0, false, 0, 2), (0, false, 0, 3)],
        }],
        places: &[&[
            Place {
                worker: 0,
                phase: 0,
                old: 10,
                n: 1,
            },
            Place {
                worker: 0,
                phase: 0,
                old: 11,
                n: 1,
            },
            Place {
                worker: 0,
                phase: 0,
                old: 12,
                n: 1,
            },
        ]],
        hot: &[],
        counts: &[13],
        phases: 0,
    },
    // Three likes of one worker in phase 1 are one addition.
    Example {
        name: "merged likes",
        case: MERGED,
        logs: &[Log {
            taken: &[(1, 0, 1), (1, 0, 2), (1, 0, 3)],
            ran: &[(1, false, 0, 1), (1, false, 0, 2), (1, false, 0, 3)],
        }],
        places: &[&[Place {
            worker: 0,
            phase: 1,
            old: 10,
            n: 3,
        }]],
        hot: &[],
        counts: &[13],
        phases: 4,
    },
    Example {
        name: "unsplit-in-split-phase",
        case: UNSPLIT,
        logs: &[Log {
            taken: &[(1, 0, 1), (1, 0, 2)],
            ran: &[(1, false, 0, 1), (1, false, 0, 2)],
        }],
        places: &[&[Place {
            worker: 0,
            phase: 1,
            old: 7,
            n: 1,
        }]],
        hot: &[],
        counts: &[8],
        phases: 2,
    },
];

// Of one worker, and no hot pages. Looks wait.
const OF_STASHES: &[Example] = &[
    Example {
        name: "split-and-stash",
        case: SPLIT_AND_STASH,
        logs: &[Log {
            taken: &[(1, 0, 1), (1, 0, 2)],
            ran: &[(1, false, 0, 1), (2, true, 0, 2)],
        }],
        places: &[&[Place {
            worker: 0,
            phase: 1,
            old: 10,
            n: 1,
        }]],
        hot: &[],
        counts: &[11],
        phases: 4,
    },
    Example {
        name: "stash-then-like",
        case: STASH_THEN_LIKE,
        logs: &[Log {
            taken: &[(1, 0, 1), (1, 0, 2)],
            ran: &[(1, false, 0, 2), (2, true, 0, 1)],
        }],
        places: &[
            &[],
            &[Place {
                worker: 0,
                phase: 1,
                old: 0,
                n: 1,
            }],
        ],
        hot: &[],
        counts: &[5, 1],
        phases: 4,
    },
    Example {
        name: "full-stash",
        case: FULL_STASH,
        logs: &[Log {
            taken: &[(1, 0, 1), (2, 0, 2)],
            ran: &[(2, true, 0, 1), (2, false, 0, 2)],
        }],
        places: &[&[]],
        hot: &[],
        counts: &[0],
        phases: 4,
    },
];

// Of pages that may be hot.
const OF_HOT: &[Example] = &[
    HOT_EXAMPLE,
    // The page is never hot.
    Example {
        name: "hot-choice by three likes",
        case: COOL_CHOICE,
        logs: &[Log {
            taken: &[(1, 0, 1), (2, 0, 2), (3, 0, 3)],
            ran: &[(1, false, 0, 1), (2, false, 0, 2), (3, false, 0, 3)],
        }],
        hot: &[],
        phases: 4,
        ..HOT_EXAMPLE
    },
];

// Of several workers.
const OF_SEVERAL: &[Example] = &[
    Example {
        name: "late-worker",
        case: LATE_WORKER,
        logs: &[
            NO_LOG,
            Log {
                taken: &[(1, 1, 1), (1, 1, 2)],
                ran: &[(2, true, 1, 1), (2, true, 1, 2)],
            },
        ],
        places: &[&[]],
        hot: &[],
        counts: &[0],
        phases: 4,
    },
    Example {
        name: "two-slices",
        case: TWO_SLICES,
        logs: &[
            Log {
                taken: &[(1, 0, 1), (1, 0, 2)],
                ran: &[(1, false, 0, 1), (2, true, 0, 2)],
            },
            Log {
                taken: &[(1, 1, 1)],
                ran: &[(1, false, 1, 1)],
            },
        ],
        places: &[&[
            Place {
                worker: 0,
                phase: 1,
                old: 100,
                n: 1,
            },
            Place {
                worker: 1,
                phase: 1,
                old: 101,
                n: 1,
            },
        ]],
        hot: &[],
        counts: &[102],
        phases: 4,
    },
    Example {
        name: "idle-workers",
        case: IDLE_WORKERS,
        logs: &[
            Log {
                taken: &[(1, 0, 1)],
                ran: &[(1, false, 0, 1)],
            },
            NO_LOG,
            NO_LOG,
            NO_LOG,
        ],
        places: &[&[Place {
            worker: 0,
            phase: 1,
            old: 0,
            n: 1,
        }]],
        hot: &[],
        counts: &[1],
        phases: 2,
    },
];

// A test that takes them from here has none of them in its proof, as it would with a constant.
fn of_one_worker() -> &'static [Example] {
    OF_ONE
}

fn of_stashes() -> &'static [Example] {
    OF_STASHES
}

fn of_hot_pages() -> &'static [Example] {
    OF_HOT
}

fn of_several_workers() -> &'static [Example] {
    OF_SEVERAL
}

// Asserts the places of the additions to each page.
fn assert_places(rt: &impl Abort, case: &str, rows: &[Vec<Place>], wanted: &[&[Place]]) {
    assert_same(rt, case, rows.len(), wanted.len());
    for (page, (row, wanted)) in rows.iter().zip(wanted).enumerate() {
        assert_step(rt, case, page, row.as_slice(), *wanted);
    }
}

// Asserts the choices of hot pages.
fn assert_hot(rt: &impl Abort, case: &str, hot: &[Chosen], wanted: &[Chosen]) {
    assert_same(rt, case, hot.len(), wanted.len());
    for (step, (chosen, wanted)) in hot.iter().zip(wanted).enumerate() {
        let came = (chosen.phase, chosen.mask);
        assert_step(rt, case, step, came, (wanted.phase, wanted.mask));
    }
}

// Asserts that a report has what its example says.
fn assert_shown(rt: &impl Abort, report: &Report, example: &Example) {
    assert_logs(rt, example.name, &report.logs, example.logs);
    assert_places(rt, example.name, &report.places, example.places);
    assert_hot(rt, example.name, &report.hot, example.hot);
    assert_same(rt, example.name, report.phases, example.phases);
}

fn assert_examples(rt: &impl Abort, alloc: Global, examples: &[Example]) {
    for example in examples {
        let report = example.case.replay(rt, alloc).expect(rt, "a report");
        assert_shown(rt, &report, example);
        assert_counts(rt, example.name, report, example.counts);
    }
}

#[test]
fn replays_examples(rt: HostRuntime) {
    assert_examples(&rt, rt.alloc(), of_one_worker());
    assert_examples(&rt, rt.alloc(), of_stashes());
    assert_examples(&rt, rt.alloc(), of_hot_pages());
    assert_examples(&rt, rt.alloc(), of_several_workers());
}

const AWAY: Case = Case {
    workers: 2,
    requests: &["like,0,a\n"],
    script: "w0 w5",
    ..SMALL
};

fn away() -> &'static Case {
    &AWAY
}

// The fault that a replay ends in, if it does: here alone its report is dropped unread.
fn fault_of(replayed: Result<Report, ReplayFault>) -> Option<ReplayFault> {
    replayed.err()
}

#[test]
fn names_an_entry_that_is_away(rt: HostRuntime) {
    let fault = fault_of(away().replay(&rt, rt.alloc()));
    let wanted = Some(ReplayFault::Settings(SettingsFault::Script { at: 1 }));
    assert_same(&rt, "the second entry is away", fault, wanted);
}

// Asserts that 2,060 entries ran: entry n in phase n with number n, from 1 on.
fn assert_ran_by_phase(rt: &impl Abort, ran: &[Ran]) {
    assert_same(rt, "entries", ran.len(), 2_060);
    let mut phase = 0_u32;
    for entry in ran {
        phase = phase.saturating_add(1);
        let came = (entry.phase, entry.number);
        assert_step(rt, "entries", phase as usize, came, (phase, phase));
    }
}

// Asserts that page 0 alone was chosen for each of the 1,024 odd phases from 3 to 2,049.
fn assert_hot_in_odd_phases(rt: &impl Abort, hot: &[Chosen]) {
    assert_same(rt, "choices", hot.len(), 1_024);
    let mut phase = 1_u32;
    for chosen in hot {
        phase = phase.saturating_add(2);
        let came = (chosen.phase, chosen.mask);
        assert_step(rt, "choices", phase as usize, came, (phase, 1));
    }
}

// Asserts that like n of 2,060 ran in phase n, and that page 0 alone was hot in 1,024 odd phases, from 3 on.
fn assert_hot_in_1024_phases(rt: &impl Abort, report: &Report) {
    let log = report.logs.first().expect(rt, "a log");
    assert_ran_by_phase(rt, &log.ran);
    assert_hot_in_odd_phases(rt, &report.hot);
}

// Example `hot-limit`.
const HOT_LIMIT: Case = Case {
    hot: Some(1),
    ..HOT_CHOICE
};

fn hot_limit() -> &'static Case {
    &HOT_LIMIT
}

// Like n of 2,060 runs in phase n, so the page is hot in each odd phase from 3 on, until 1,024 had hot pages.
#[test]
fn chooses_in_1024_phases_at_most(rt: HostRuntime) {
    let plans = likes(&rt, rt.alloc(), 1, 2_060);
    let replayed = hot_limit().replay_plans(&rt, rt.alloc(), plans);
    let report = replayed.expect(&rt, "a report");
    assert_hot_in_1024_phases(&rt, &report);
    assert_counts(&rt, "the count", report, &[2_060]);
}

// Example `bounds`.
const BOUNDS: Case = Case {
    turns: 1_000_000,
    pages: "a,0,no\n",
    ..SMALL
};

fn bounds() -> &'static Case {
    &BOUNDS
}

// What a replay of this many likes ends in.
fn replay_likes(rt: &impl Abort, alloc: Global, number: usize) -> Result<Report, ReplayFault> {
    bounds().replay_plans(rt, alloc, likes(rt, alloc, 1, number))
}

#[test]
fn a_replay_has_a_million_rounds(rt: HostRuntime) {
    for number in &[1_000_000, 999_998] {
        let fault = fault_of(replay_likes(&rt, rt.alloc(), *number));
        let wanted = Some(ReplayFault::Unfinished);
        assert_step(&rt, "likes", *number, fault, wanted);
    }
    let report = replay_likes(&rt, rt.alloc(), 999_997).expect(&rt, "a report");
    assert_same(&rt, "the last phase", report.phases, 0);
    assert_same(&rt, "choices", report.hot.len(), 0);
    assert_counts(&rt, "the count", report, &[999_997]);
}
