//! The turns of the worked examples as data.
use super::gates::Call;
use super::gates::Call::{Phase, Run};
use super::play::Step;
use super::play::Step::{Coord, Worker};
use like_requests::{Op, PageRef, Request};
use like_roles::{Added, Chosen, CoordTurn, Ran, Reply, Took, Turn};

/// What a worker has done at the end.
#[derive(Clone, Copy)]
pub struct Done {
    pub taken: &'static [Took],
    pub ran: &'static [Ran],
    pub adds: &'static [Added],
    /// Users of the worker, with the page that each liked last.
    pub last: &'static [(u32, Option<u32>)],
}

/// A run in which each worker has one submitter at most, turn by turn, and what its workers have done at the end.
#[derive(Clone, Copy)]
pub struct Scene {
    pub name: &'static str,
    pub workers: u32,
    pub users: u32,
    pub stash: u32,
    pub turns: u32,
    pub hot: Option<u32>,
    pub pages: &'static str,
    /// Whether the workers note their additions.
    pub notes: bool,
    /// The requests of each submitter.
    pub plans: &'static [&'static [Request]],
    /// The parts of the run's steps, with the answer of each.
    pub parts: &'static [&'static [Step]],
    /// The calls of the gate.
    pub calls: &'static [Call],
    /// The last phase that the coordinator saw.
    pub phase: u32,
    pub chosen: &'static [Chosen],
    /// What each worker with a submitter has done.
    pub done: &'static [Done],
}

/// Scenes with a stash. A function that takes scenes from here has none of them in its proof.
pub fn stash_scenes() -> &'static [Scene] {
    &STASH_SCENES
}

/// Scenes of the phases and of those that are idle in them.
pub fn phase_scenes() -> &'static [Scene] {
    &PHASE_SCENES
}

/// Scenes of additions.
pub fn addition_scenes() -> &'static [Scene] {
    &ADDITION_SCENES
}

/// Scenes of two workers.
pub fn pair_scenes() -> &'static [Scene] {
    &PAIR_SCENES
}

/// Scenes of hot pages and of large counts.
pub fn count_scenes() -> &'static [Scene] {
    &COUNT_SCENES
}

// A request of a user, or else of user 0.
macro_rules! ask {
    ($op:ident, $page:literal) => {
        ask!($op, $page, 0)
    };
    ($op:ident, $page:literal, $user:literal) => {
        Request {
            op: Op::$op,
            user: $user,
            page: PageRef::Known($page),
        }
    };
}

// A submitter's request of this number, or else submitter 0's, taken in a phase.
macro_rules! took {
    ($phase:literal, $number:literal) => {
        took!($phase, $number, 0)
    };
    ($phase:literal, $number:literal, $submitter:literal) => {
        Took {
            phase: $phase,
            submitter: $submitter,
            number: $number,
        }
    };
}

// A submitter's request of this number, or else submitter 0's, run in a phase: a like, and a look at this last like and
// count, which came out of the stash or did not.
macro_rules! liked {
    ($phase:literal, $number:literal) => {
        liked!($phase, $number, 0)
    };
    ($phase:literal, $number:literal, $submitter:literal) => {
        Ran {
            phase: $phase,
            submitter: $submitter,
            number: $number,
            stashed: false,
            reply: Reply::Liked,
        }
    };
}

macro_rules! seen {
    ($phase:literal, $number:literal, $stashed:literal, $last:expr, $count:literal) => {
        seen!($phase, $number, $stashed, $last, $count, 0)
    };
    ($phase:literal, $number:literal, $stashed:literal, $last:expr, $count:literal, $submitter:literal) => {
        Ran {
            phase: $phase,
            submitter: $submitter,
            number: $number,
            stashed: $stashed,
            reply: Reply::Seen {
                last: $last,
                count: $count,
            },
        }
    };
}

// An addition of likes to a page in a phase, when this many requests had run and its count was this.
macro_rules! added {
    ($page:literal, $phase:literal, $at:literal, $old:literal, $likes:literal) => {
        Added {
            page: $page,
            phase: $phase,
            at: $at,
            old: $old,
            n: $likes,
        }
    };
}

// The calls of the gate by worker 0: its phases, and the numbers of submitter 0's requests that it runs in each.
macro_rules! calls {
    ($($phase:literal: [$($number:literal),*]),*) => {
        &[$(Phase(0, $phase), $(Run(0, 0, $number),)*)*]
    };
}

// The end of a joined phase, where worker 0 is the only one.
const TO_SPLIT: &[Step] = &[
    Coord(CoordTurn::Announced),
    Worker(0, Turn::Acknowledged),
    Coord(CoordTurn::Released),
];

// The end of a split phase, where worker 0 is the only one.
const TO_JOINED: &[Step] = &[
    Coord(CoordTurn::Announced),
    Worker(0, Turn::Reported),
    Coord(CoordTurn::Released),
];

// The steps from the end of phase 2 on, in which everything was run.
const ROUNDS: &[Step] = &[
    Coord(CoordTurn::Announced),
    Worker(0, Turn::Acknowledged),
    Coord(CoordTurn::Released),
    Worker(0, Turn::TookEnd),
    Coord(CoordTurn::Announced),
    Worker(0, Turn::Reported),
    Coord(CoordTurn::Released),
    Worker(0, Turn::Retired),
    Coord(CoordTurn::Ended),
];

// The workers beside worker 0, of four, retire or are gone.
const OTHERS: &[Step] = &[
    Worker(1, Turn::Retired),
    Worker(2, Turn::Retired),
    Worker(3, Turn::Retired),
];

// A joined phase in which worker 0 comes to the end mark, and the run ends.
const LAST_PHASE: &[Step] = &[
    Worker(0, Turn::TookEnd),
    Coord(CoordTurn::Announced),
    Worker(0, Turn::Retired),
    Coord(CoordTurn::Ended),
];

// A worker with a stash for 256 looks, and a user; a scene names what else it has.
const LONE: Scene = Scene {
    name: "",
    workers: 1,
    users: 1,
    stash: 256,
    turns: 0,
    hot: None,
    pages: "",
    notes: true,
    plans: &[],
    parts: &[],
    calls: &[],
    phase: 0,
    chosen: &[],
    done: &[],
};

// A worker whose user 0 liked page 0 last; a scene names what else it has done.
const LIKER: Done = Done {
    taken: &[],
    ran: &[],
    adds: &[],
    last: &[(0, Some(0))],
};

static STASH_SCENES: [Scene; 3] = [
    Scene {
        name: "splits_and_stashes",
        users: 2,
        pages: "name,count,split\na,10,yes\n",
        plans: &[&[ask!(Like, 0), ask!(Look, 0)]],
        parts: &[
            TO_SPLIT,
            &[Worker(0, Turn::Ran), Worker(0, Turn::Stashed)],
            TO_JOINED,
            &[Worker(0, Turn::Ran)],
            ROUNDS,
        ],
        calls: calls!(0: [], 1: [1], 2: [2], 3: [], 4: []),
        phase: 4,
        done: &[Done {
            taken: &[took!(1, 1), took!(1, 2)],
            ran: &[liked!(1, 1), seen!(2, 2, true, Some(0), 11)],
            adds: &[added!(0, 1, 1, 10, 1)],
            last: &[(0, Some(0)), (1, None)],
            ..LIKER
        }],
        ..LONE
    },
    Scene {
        name: "stashes_and_then_likes",
        pages: "name,count,split\na,5,yes\nb,0,no\n",
        plans: &[&[ask!(Look, 0), ask!(Like, 1)]],
        parts: &[
            TO_SPLIT,
            &[Worker(0, Turn::Stashed), Worker(0, Turn::Ran)],
            TO_JOINED,
            &[Worker(0, Turn::Ran)],
            ROUNDS,
        ],
        calls: calls!(0: [], 1: [2], 2: [1], 3: [], 4: []),
        phase: 4,
        done: &[Done {
            taken: &[took!(1, 1), took!(1, 2)],
            ran: &[liked!(1, 2), seen!(2, 1, true, Some(1), 5)],
            adds: &[added!(1, 1, 0, 0, 1)],
            last: &[(0, Some(1))],
            ..LIKER
        }],
        ..LONE
    },
    Scene {
        name: "idles_with_a_full_stash",
        stash: 1,
        pages: "name,count,split\na,0,yes\n",
        plans: &[&[ask!(Look, 0), ask!(Look, 0)]],
        parts: &[
            TO_SPLIT,
            &[Worker(0, Turn::Stashed), Worker(0, Turn::Idle)],
            TO_JOINED,
            &[Worker(0, Turn::Ran), Worker(0, Turn::Ran)],
            ROUNDS,
        ],
        calls: calls!(0: [], 1: [], 2: [1, 2], 3: [], 4: []),
        phase: 4,
        done: &[Done {
            taken: &[took!(1, 1), took!(2, 2)],
            ran: &[seen!(2, 1, true, None, 0), seen!(2, 2, false, None, 0)],
            last: &[(0, None)],
            ..LIKER
        }],
        ..LONE
    },
];

static PHASE_SCENES: [Scene; 3] = [
    Scene {
        name: "runs_unsplit_pages_in_a_split_phase",
        pages: "name,count,split\na,7,no\n",
        plans: &[&[ask!(Like, 0), ask!(Look, 0)]],
        parts: &[
            TO_SPLIT,
            &[Worker(0, Turn::Ran), Worker(0, Turn::Ran)],
            TO_JOINED,
            LAST_PHASE,
        ],
        calls: calls!(0: [], 1: [1, 2], 2: []),
        phase: 2,
        done: &[Done {
            taken: &[took!(1, 1), took!(1, 2)],
            ran: &[liked!(1, 1), seen!(1, 2, false, Some(0), 8)],
            adds: &[added!(0, 1, 0, 7, 1)],
            ..LIKER
        }],
        ..LONE
    },
    Scene {
        name: "runs_beside_idle_workers",
        workers: 4,
        pages: "name,count,split\na,0,yes\n",
        plans: &[&[ask!(Like, 0)]],
        parts: &[
            &[Coord(CoordTurn::Announced), Worker(0, Turn::Acknowledged)],
            OTHERS,
            &[Coord(CoordTurn::Released), Worker(0, Turn::Ran)],
            OTHERS,
            &[Coord(CoordTurn::Announced), Worker(0, Turn::Reported)],
            OTHERS,
            &[Coord(CoordTurn::Released), Worker(0, Turn::TookEnd)],
            OTHERS,
            &[Coord(CoordTurn::Announced), Worker(0, Turn::Retired)],
            OTHERS,
            &[Coord(CoordTurn::Ended)],
        ],
        calls: &[
            Phase(0, 0),
            Phase(1, 0),
            Phase(2, 0),
            Phase(3, 0),
            Phase(0, 1),
            Run(0, 0, 1),
            Phase(0, 2),
        ],
        phase: 2,
        done: &[Done {
            taken: &[took!(1, 1)],
            ran: &[liked!(1, 1)],
            adds: &[added!(0, 1, 1, 0, 1)],
            ..LIKER
        }],
        ..LONE
    },
    // One turn is counted in each phase.
    Scene {
        name: "counts_turns_in_each_phase",
        turns: 1,
        pages: "name,count,split\na,0,yes\n",
        plans: &[&[ask!(Like, 0)]],
        parts: &[&[
            Coord(CoordTurn::Counted),
            Coord(CoordTurn::Announced),
            Coord(CoordTurn::Waiting),
            Worker(0, Turn::Acknowledged),
            Worker(0, Turn::Waiting),
            Coord(CoordTurn::Released),
            Worker(0, Turn::Ran),
            Coord(CoordTurn::Counted),
            Coord(CoordTurn::Announced),
            Worker(0, Turn::Reported),
            Coord(CoordTurn::Released),
            Worker(0, Turn::TookEnd),
            Worker(0, Turn::Retired),
            Coord(CoordTurn::Ended),
        ]],
        calls: calls!(0: [], 1: [1], 2: []),
        phase: 2,
        done: &[Done {
            taken: &[took!(1, 1)],
            ran: &[liked!(1, 1)],
            adds: &[added!(0, 1, 1, 0, 1)],
            ..LIKER
        }],
        ..LONE
    },
];

static ADDITION_SCENES: [Scene; 3] = [
    Scene {
        name: "adds_at_each_like_of_an_unsplit_page",
        users: 2,
        pages: "name,count,split\na,10,no\n",
        plans: &[&[ask!(Like, 0), ask!(Like, 0, 1), ask!(Like, 0)]],
        parts: &[&[
            Worker(0, Turn::Ran),
            Worker(0, Turn::Ran),
            Worker(0, Turn::Ran),
            Worker(0, Turn::TookEnd),
            Worker(0, Turn::Retired),
            Coord(CoordTurn::Ended),
        ]],
        calls: calls!(0: [1, 2, 3]),
        done: &[Done {
            taken: &[took!(0, 1), took!(0, 2), took!(0, 3)],
            ran: &[liked!(0, 1), liked!(0, 2), liked!(0, 3)],
            adds: &[
                added!(0, 0, 0, 10, 1),
                added!(0, 0, 1, 11, 1),
                added!(0, 0, 2, 12, 1),
            ],
            last: &[(0, Some(0)), (1, Some(0))],
        }],
        ..LONE
    },
    Scene {
        name: "adds_all_likes_of_a_split_page_at_once",
        pages: "name,count,split\na,10,yes\n",
        plans: &[&[ask!(Like, 0), ask!(Like, 0), ask!(Like, 0)]],
        parts: &[
            TO_SPLIT,
            &[
                Worker(0, Turn::Ran),
                Worker(0, Turn::Ran),
                Worker(0, Turn::Ran),
            ],
            TO_JOINED,
            ROUNDS,
        ],
        calls: calls!(0: [], 1: [1, 2, 3], 2: [], 3: [], 4: []),
        phase: 4,
        done: &[Done {
            taken: &[took!(1, 1), took!(1, 2), took!(1, 3)],
            ran: &[liked!(1, 1), liked!(1, 2), liked!(1, 3)],
            adds: &[added!(0, 1, 3, 10, 3)],
            ..LIKER
        }],
        ..LONE
    },
    // The worker runs its requests as ever, and there was no room for additions.
    Scene {
        name: "notes_no_additions_unasked",
        pages: "name,count,split\na,10,no\n",
        notes: false,
        plans: &[&[ask!(Like, 0), ask!(Like, 0)]],
        parts: &[&[
            Worker(0, Turn::Ran),
            Worker(0, Turn::Ran),
            Worker(0, Turn::TookEnd),
            Worker(0, Turn::Retired),
        ]],
        calls: calls!(0: [1, 2]),
        done: &[Done {
            taken: &[took!(0, 1), took!(0, 2)],
            ran: &[liked!(0, 1), liked!(0, 2)],
            ..LIKER
        }],
        ..LONE
    },
];

// Two workers, each with a submitter and a user.
const PAIR: Scene = Scene {
    workers: 2,
    users: 2,
    ..LONE
};

// Both workers come to the end mark in the split phase that begins, and the run ends.
const BOTH_END: &[Step] = &[
    Coord(CoordTurn::Released),
    Worker(0, Turn::TookEnd),
    Worker(1, Turn::TookEnd),
    Coord(CoordTurn::Announced),
    Worker(0, Turn::Reported),
    Worker(1, Turn::Reported),
    Coord(CoordTurn::Released),
    Worker(0, Turn::Retired),
    Worker(1, Turn::Retired),
    Coord(CoordTurn::Ended),
];

// Both workers acknowledge the end of phase 0.
const BOTH_TO_SPLIT: &[Step] = &[
    Coord(CoordTurn::Announced),
    Worker(0, Turn::Acknowledged),
    Worker(1, Turn::Acknowledged),
    Coord(CoordTurn::Released),
];

static PAIR_SCENES: [Scene; 2] = [
    // Worker 0 has not looked at phase 2 when its end is announced.
    Scene {
        name: "a_late_worker_skips_no_phase",
        pages: "name,count,split\na,0,yes\n",
        plans: &[&[], &[ask!(Look, 0, 1), ask!(Look, 0, 1)]],
        parts: &[
            BOTH_TO_SPLIT,
            &[
                Worker(1, Turn::Stashed),
                Worker(1, Turn::Stashed),
                Coord(CoordTurn::Announced),
                Worker(0, Turn::Reported),
                Worker(1, Turn::Reported),
                Coord(CoordTurn::Released),
            ],
            &[
                Coord(CoordTurn::Announced),
                Worker(1, Turn::Ran),
                Worker(1, Turn::Ran),
                Worker(1, Turn::Acknowledged),
                Coord(CoordTurn::Waiting),
                Worker(0, Turn::Acknowledged),
                Worker(1, Turn::Waiting),
            ],
            BOTH_END,
        ],
        calls: &[
            Phase(0, 0),
            Phase(1, 0),
            Phase(1, 1),
            Phase(0, 1),
            Phase(1, 2),
            Run(1, 1, 1),
            Run(1, 1, 2),
            Phase(0, 2),
            Phase(0, 3),
            Phase(1, 3),
            Phase(0, 4),
            Phase(1, 4),
        ],
        phase: 4,
        done: &[
            Done {
                last: &[(0, None)],
                ..LIKER
            },
            Done {
                taken: &[took!(1, 1, 1), took!(1, 2, 1)],
                ran: &[seen!(2, 1, true, None, 0, 1), seen!(2, 2, true, None, 0, 1)],
                last: &[(1, None)],
                ..LIKER
            },
        ],
        ..PAIR
    },
    Scene {
        name: "two_slices_are_merged",
        pages: "name,count,split\na,100,yes\n",
        plans: &[&[ask!(Like, 0), ask!(Look, 0)], &[ask!(Like, 0, 1)]],
        parts: &[
            BOTH_TO_SPLIT,
            &[
                Worker(0, Turn::Ran),
                Worker(1, Turn::Ran),
                Worker(0, Turn::Stashed),
                Coord(CoordTurn::Announced),
                Worker(0, Turn::Reported),
                Coord(CoordTurn::Waiting),
                Worker(0, Turn::Waiting),
                Worker(1, Turn::Reported),
                Coord(CoordTurn::Released),
            ],
            &[
                Worker(0, Turn::Ran),
                Coord(CoordTurn::Announced),
                Worker(0, Turn::Acknowledged),
                Worker(1, Turn::Acknowledged),
            ],
            BOTH_END,
        ],
        calls: &[
            Phase(0, 0),
            Phase(1, 0),
            Phase(0, 1),
            Run(0, 0, 1),
            Phase(1, 1),
            Run(1, 1, 1),
            Phase(0, 2),
            Run(0, 0, 2),
            Phase(1, 2),
            Phase(0, 3),
            Phase(1, 3),
            Phase(0, 4),
            Phase(1, 4),
        ],
        phase: 4,
        done: &[
            Done {
                taken: &[took!(1, 1), took!(1, 2)],
                ran: &[liked!(1, 1), seen!(2, 2, true, Some(0), 102)],
                adds: &[added!(0, 1, 1, 100, 1)],
                ..LIKER
            },
            Done {
                taken: &[took!(1, 1, 1)],
                ran: &[liked!(1, 1, 1)],
                adds: &[added!(0, 1, 1, 101, 1)],
                last: &[(1, Some(0))],
            },
        ],
        ..PAIR
    },
];

// The likes of `hot-choice` and its look.
const HOT: Scene = Scene {
    pages: "name,count,split\na,0,no\n",
    plans: &[&[ask!(Like, 0), ask!(Like, 0), ask!(Look, 0)]],
    ..LONE
};

static COUNT_SCENES: [Scene; 3] = [
    // Two likes make the page hot in phase 3, so the look waits for phase 4.
    Scene {
        name: "looks_at_a_hot_page",
        hot: Some(2),
        parts: &[
            TO_SPLIT,
            &[Worker(0, Turn::Ran)],
            TO_JOINED,
            &[Worker(0, Turn::Ran)],
            TO_SPLIT,
            &[Worker(0, Turn::Stashed)],
            TO_JOINED,
            &[Worker(0, Turn::Ran)],
            ROUNDS,
        ],
        calls: calls!(0: [], 1: [1], 2: [2], 3: [], 4: [3], 5: [], 6: []),
        phase: 6,
        chosen: &[Chosen { phase: 3, mask: 1 }],
        done: &[Done {
            taken: &[took!(1, 1), took!(2, 2), took!(3, 3)],
            ran: &[liked!(1, 1), liked!(2, 2), seen!(4, 3, true, Some(0), 2)],
            adds: &[added!(0, 1, 0, 0, 1), added!(0, 2, 1, 1, 1)],
            ..LIKER
        }],
        ..HOT
    },
    // Three likes would, so the page is never hot.
    Scene {
        name: "looks_at_a_page_that_is_not_hot",
        hot: Some(3),
        parts: &[
            TO_SPLIT,
            &[Worker(0, Turn::Ran)],
            TO_JOINED,
            &[Worker(0, Turn::Ran)],
            TO_SPLIT,
            &[Worker(0, Turn::Ran)],
            TO_JOINED,
            LAST_PHASE,
        ],
        calls: calls!(0: [], 1: [1], 2: [2], 3: [3], 4: []),
        phase: 4,
        done: &[Done {
            taken: &[took!(1, 1), took!(2, 2), took!(3, 3)],
            ran: &[liked!(1, 1), liked!(2, 2), seen!(3, 3, false, Some(0), 2)],
            adds: &[added!(0, 1, 0, 0, 1), added!(0, 2, 1, 1, 1)],
            ..LIKER
        }],
        ..HOT
    },
    Scene {
        name: "counts_from_the_largest_count_on",
        pages: "name,count,split\na,1000000000000000000,no\n",
        plans: &[&[ask!(Like, 0), ask!(Like, 0), ask!(Look, 0)]],
        parts: &[&[
            Worker(0, Turn::Ran),
            Worker(0, Turn::Ran),
            Worker(0, Turn::Ran),
            Worker(0, Turn::TookEnd),
            Worker(0, Turn::Retired),
            Coord(CoordTurn::Ended),
        ]],
        calls: calls!(0: [1, 2, 3]),
        done: &[Done {
            taken: &[took!(0, 1), took!(0, 2), took!(0, 3)],
            ran: &[
                liked!(0, 1),
                liked!(0, 2),
                seen!(0, 3, false, Some(0), 1_000_000_000_000_000_002),
            ],
            adds: &[
                added!(0, 0, 0, 1_000_000_000_000_000_000, 1),
                added!(0, 0, 1, 1_000_000_000_000_000_001, 1),
            ],
            ..LIKER
        }],
        ..LONE
    },
];

/// One like in each phase, and as a part the steps of two phases: by one like the page is hot in the next split phase.
pub fn hot_limit() -> &'static Scene {
    &HOT_LIMIT
}

static HOT_LIMIT: Scene = Scene {
    name: "is_hot_in_1024_phases",
    hot: Some(1),
    pages: "name,count,split\na,0,no\n",
    plans: &[&[ask!(Like, 0); 2_060]],
    parts: &[
        TO_SPLIT,
        &[Worker(0, Turn::Ran)],
        TO_JOINED,
        &[Worker(0, Turn::Ran)],
    ],
    ..LONE
};

/// The steps that end it.
pub fn rounds() -> &'static [Step] {
    ROUNDS
}
