//! Which pages get slots by themselves, since seats store samples and the driver's choice reads them. No clause says
//! which. Each scene is a service's calls in order.
use crate::asserts::{At, assert_at, assert_named};
use crate::services::open;
use like_board::SharedPost;
use like_choice::Guided;
use like_live::{
    DriverAnswer, End, GlanceAnswer, LikeAnswer, LiveSeat, LookAnswer, Opening, Service, TurnAnswer,
};
use std::alloc::{AllocError, Global};
use std::process::Abort;
use std::test::Fail;

/// A request, with its answer.
#[derive(Clone, Copy)]
enum Does {
    /// A like that is counted.
    Likes,
    /// A look that is answered at once.
    Sees,
    /// A look that waits.
    Waits,
    /// A glance that is answered.
    Glances,
}

/// What is done with a service.
#[derive(Clone, Copy)]
enum Part {
    /// The user with this number makes the same request for a page, so many times.
    By(u32, Does, u32, u32),
    /// User 0 likes each page, so many times.
    LikesAll(u32),
    /// Each of 64 users likes the page with its own number, so many times.
    LikesOwn(u32),
    /// The driver's turn, which has this answer.
    Turns(End, DriverAnswer),
    /// The phase ends, all seats answer, and the next is released.
    Changes(End),
    /// At each of 64 seats in turn, a split phase is ended by the look with which half of its room waits.
    EndsByEach,
    /// Exactly these pages are split, or were in the last split phase.
    Splits(&'static [u32]),
    /// The host proposes a page.
    Proposes(u32),
}

/// A service of 1,000 pages, with as many users as seats, and what is done with it: each list of parts, so many times.
#[derive(Clone, Copy)]
struct Scene {
    name: &'static str,
    seats: u32,
    room: u32,
    hot: Option<u32>,
    parts: &'static [(u32, &'static [Part])],
}

// The phase goes on, since no page is popular enough.
const GOES_ON: Part = Part::Turns(End::IfItServes, DriverAnswer::Running);

const CHANGE: Part = Part::Changes(End::IfItServes);

const CHANGE_ANYWAY: Part = Part::Changes(End::Always);

// Two seats, with room for all looks that wait. `hot` acts as 512.
const PLAIN: Scene = Scene {
    name: "",
    seats: 2,
    room: 4_096,
    hot: Some(1),
    parts: &[],
};

// 8,000 likes of page 400 by a user, 4,000 looks at it that are seen, and 8,000 likes more: it is split. So is page 500,
// with 1,000 likes, and over 60 phases with 1,000 likes in each split one. After 140 phases with no likes neither is.
macro_rules! stays_split {
    ($user:literal) => {
        &[
            (
                1,
                &[
                    Part::By($user, Does::Likes, 400, 8_000),
                    Part::By($user, Does::Sees, 400, 4_000),
                    Part::By($user, Does::Likes, 400, 8_000),
                    Part::By($user, Does::Likes, 500, 1_000),
                    CHANGE,
                    Part::Splits(&[400, 500]),
                ],
            ),
            (
                30,
                &[
                    Part::By($user, Does::Likes, 500, 1_000),
                    CHANGE,
                    CHANGE,
                    Part::Splits(&[400, 500]),
                ],
            ),
            (70, &[CHANGE_ANYWAY, CHANGE_ANYWAY]),
            (1, &[Part::Splits(&[])]),
        ]
    };
}

const FIRST_64: &[u32] = &[
    0, 1, 2, 3, 4, 5, 6, 7, 8, 9, 10, 11, 12, 13, 14, 15, 16, 17, 18, 19, 20, 21, 22, 23, 24, 25,
    26, 27, 28, 29, 30, 31, 32, 33, 34, 35, 36, 37, 38, 39, 40, 41, 42, 43, 44, 45, 46, 47, 48, 49,
    50, 51, 52, 53, 54, 55, 56, 57, 58, 59, 60, 61, 62, 63,
];

static SCENES: [Scene; 13] = [
    // Likes of each page by seat 0 make none hot. Those of page 500 by seat 1 do, though it has fewer samples by then.
    Scene {
        name: "live_hot",
        parts: &[(
            1,
            &[
                Part::LikesAll(2),
                GOES_ON,
                Part::By(1, Does::Likes, 500, 2_000),
                CHANGE,
                Part::Splits(&[500]),
            ],
        )],
        ..PLAIN
    },
    // Likes make no page hot. A host can have pages split all the same.
    Scene {
        name: "none_gets_hot",
        hot: None,
        parts: &[(
            1,
            &[
                Part::By(0, Does::Likes, 500, 2_000),
                GOES_ON,
                Part::Proposes(999),
                CHANGE,
                Part::Splits(&[999]),
            ],
        )],
        ..PLAIN
    },
    // 380 likes are too few. Of 1,000 likes and 4,000 looks, the looks are more.
    Scene {
        name: "few_likes_make_none_hot",
        parts: &[(
            1,
            &[
                Part::By(0, Does::Likes, 500, 380),
                GOES_ON,
                Part::By(0, Does::Likes, 500, 620),
                Part::By(0, Does::Sees, 500, 4_000),
                GOES_ON,
            ],
        )],
        ..PLAIN
    },
    Scene {
        name: "looks_that_wait_cost_a_slot",
        parts: &[(
            1,
            &[
                Part::By(0, Does::Likes, 500, 1_000),
                CHANGE,
                Part::Splits(&[500]),
                Part::By(0, Does::Waits, 500, 4_000),
                CHANGE,
                GOES_ON,
            ],
        )],
        ..PLAIN
    },
    // With half again as many looks as likes a page gets no slot, and one that has a slot keeps it.
    Scene {
        name: "a_slot_is_kept_longer",
        parts: &[(
            1,
            &[
                Part::By(0, Does::Likes, 400, 2_000),
                Part::By(0, Does::Sees, 400, 3_000),
                GOES_ON,
                Part::By(0, Does::Likes, 500, 2_000),
                CHANGE,
                Part::Splits(&[500]),
                Part::By(0, Does::Waits, 500, 3_000),
                CHANGE,
                CHANGE,
                Part::Splits(&[500]),
            ],
        )],
        ..PLAIN
    },
    // Glances make no page hot, and cost no slot.
    Scene {
        name: "glances_are_no_looks",
        parts: &[(
            1,
            &[
                Part::By(0, Does::Glances, 500, 4_000),
                GOES_ON,
                Part::By(0, Does::Likes, 500, 1_000),
                Part::By(0, Does::Glances, 500, 4_000),
                CHANGE,
                Part::Splits(&[500]),
            ],
        )],
        ..PLAIN
    },
    Scene {
        name: "pages_of_both_seats_get_hot",
        parts: &[(
            1,
            &[
                Part::By(0, Does::Likes, 400, 2_000),
                Part::By(1, Does::Likes, 500, 2_000),
                CHANGE,
                Part::Splits(&[400, 500]),
            ],
        )],
        ..PLAIN
    },
    Scene {
        name: "stays_split",
        parts: stays_split!(0),
        ..PLAIN
    },
    Scene {
        name: "stays_split_by_seat_63",
        seats: 64,
        parts: stays_split!(63),
        ..PLAIN
    },
    // Each of 64 seats is heard: by its likes, and by its looks that wait.
    Scene {
        name: "each_seat_is_heard",
        seats: 64,
        room: 8,
        parts: &[(
            1,
            &[
                Part::LikesOwn(2_000),
                CHANGE,
                Part::Splits(FIRST_64),
                Part::Proposes(500),
                CHANGE,
                CHANGE,
                Part::EndsByEach,
            ],
        )],
        ..PLAIN
    },
    // More samples than a ring holds, 256: those that are there count for the lost ones, too, and for no more. A page gets
    // a slot with one and a half times `hot` likes.
    Scene {
        name: "a_ring_overflows",
        hot: Some(100_000),
        parts: &[(
            1,
            &[
                Part::By(0, Does::Likes, 400, 140_000),
                GOES_ON,
                GOES_ON,
                Part::By(0, Does::Likes, 500, 200_000),
                CHANGE,
                Part::Splits(&[500]),
                Part::By(0, Does::Likes, 600, 200_000),
                CHANGE,
                CHANGE,
                Part::Splits(&[500, 600]),
            ],
        )],
        ..PLAIN
    },
    // A page is popular by likes of late: it keeps its slot over 8 phases with no likes, and not over 80.
    Scene {
        name: "likes_fade",
        hot: Some(10_000),
        parts: &[
            (
                1,
                &[
                    Part::By(0, Does::Likes, 500, 9_000),
                    GOES_ON,
                    Part::By(0, Does::Likes, 500, 20_000),
                    CHANGE,
                ],
            ),
            (4, &[CHANGE, CHANGE, Part::Splits(&[500])]),
            (40, &[CHANGE_ANYWAY, CHANGE_ANYWAY]),
            (1, &[Part::Splits(&[])]),
        ],
        ..PLAIN
    },
    // Looks fade: 16,000 of them count for little after 60 choices.
    Scene {
        name: "looks_fade",
        parts: &[
            (1, &[Part::By(0, Does::Sees, 500, 16_000)]),
            (60, &[GOES_ON]),
            (
                1,
                &[
                    Part::By(0, Does::Likes, 500, 2_000),
                    CHANGE,
                    Part::Splits(&[500]),
                ],
            ),
        ],
        ..PLAIN
    },
];

// A test that takes them from here has none of them in its proof.
fn scenes() -> &'static [Scene] {
    &SCENES
}

fn opening_of(alloc: Global, scene: &Scene) -> Result<Opening, AllocError> {
    Ok(Opening {
        counts: Vec::from_elem(alloc, 0, 1_000)?,
        marks: Vec::new(alloc),
        seats: scene.seats,
        users: scene.seats,
        lasts: Vec::new(alloc),
        room: scene.room,
        hot: scene.hot,
    })
}

// Makes a request, and asserts its answer.
fn asks(
    rt: &impl Abort,
    at: At<'_>,
    seat: &mut LiveSeat<SharedPost>,
    user: u32,
    does: Does,
    page: u32,
) {
    match does {
        Does::Likes => assert_at(rt, at, seat.like(user, page), LikeAnswer::Liked),
        Does::Waits => assert_at(rt, at, seat.look(user, page, 0), LookAnswer::Waits),
        Does::Sees => {
            let is_seen = matches!(seat.look(user, page, 0), LookAnswer::Seen(_));
            assert_at(rt, at, is_seen, true);
        }
        Does::Glances => {
            let is_seen = matches!(seat.glance(user, page), GlanceAnswer::Seen(_));
            assert_at(rt, at, is_seen, true);
        }
    }
}

// Makes a user's request so many times. Each user has a seat for itself.
fn repeats(
    rt: &impl Abort,
    at: At<'_>,
    seats: &mut [LiveSeat<SharedPost>],
    user: u32,
    does: Does,
    page: u32,
    times: u32,
) {
    assert_named(rt, (user as usize) < seats.len(), "a seat of the user");
    for _ in 0..times {
        asks(rt, at, &mut seats[user as usize], user, does, page);
    }
}

// User 0 likes each page so many times.
fn likes_all(rt: &impl Abort, at: At<'_>, seats: &mut [LiveSeat<SharedPost>], times: u32) {
    for _ in 0..times {
        for page in 0..1_000 {
            repeats(rt, at, seats, 0, Does::Likes, page, 1);
        }
    }
}

// Each of 64 users likes the page with its own number.
fn likes_own(rt: &impl Abort, at: At<'_>, seats: &mut [LiveSeat<SharedPost>], times: u32) {
    for user in 0..64 {
        repeats(rt, at, seats, user, Does::Likes, user, times);
    }
}

// All seats answer the end of a phase.
fn answer_all(rt: &impl Abort, at: At<'_>, seats: &mut [LiveSeat<SharedPost>]) {
    for seat in seats {
        assert_at(rt, at, seat.turn(), TurnAnswer::Between);
    }
}

// The end of a phase was announced. All seats answer, and the next is released.
fn releases(rt: &impl Abort, at: At<'_>, service: &mut Service<Guided>) {
    answer_all(rt, at, &mut service.seats);
    let released = service.driver.turn(End::No);
    assert_at(rt, at, released, DriverAnswer::Released);
}

fn changes(rt: &impl Abort, at: At<'_>, service: &mut Service<Guided>, end: End) {
    let announced = service.driver.turn(end);
    assert_at(rt, at, announced, DriverAnswer::Announced);
    releases(rt, at, service);
}

// Page 500 is split, and a user's seat has room for 8. With 3 looks that wait the phase goes on, with 4 it ends. Then
// comes the next split phase.
fn ends_by(rt: &impl Abort, at: At<'_>, service: &mut Service<Guided>, user: u32) {
    repeats(rt, at, &mut service.seats, user, Does::Waits, 500, 3);
    let goes_on = service.driver.turn(End::No);
    assert_at(rt, at, goes_on, DriverAnswer::Running);
    repeats(rt, at, &mut service.seats, user, Does::Waits, 500, 1);
    changes(rt, at, service, End::No);
    changes(rt, at, service, End::IfItServes);
}

fn ends_by_each(rt: &impl Abort, at: At<'_>, service: &mut Service<Guided>) {
    for user in 0..64 {
        ends_by(rt, at, service, user);
    }
}

// The pages that are split, in ascending order.
fn split_pages(alloc: Global, service: &Service<Guided>) -> Result<Vec<u32>, AllocError> {
    let mut pages = [0; 64];
    let many = service.driver.split_pages(&mut pages);
    let mut split = Vec::from_slice(alloc, &pages[..many.min(64)])?;
    split.sort_unstable();
    Ok(split)
}

fn splits(
    rt: &impl Abort,
    alloc: Global,
    at: At<'_>,
    service: &Service<Guided>,
    wanted: &[u32],
) -> Result<(), AllocError> {
    let split = split_pages(alloc, service)?;
    assert_at(rt, at, &split[..], wanted);
    Ok(())
}

fn plays(
    rt: &impl Abort,
    alloc: Global,
    at: At<'_>,
    service: &mut Service<Guided>,
    part: Part,
) -> Result<(), AllocError> {
    match part {
        Part::By(user, does, page, times) => {
            repeats(rt, at, &mut service.seats, user, does, page, times);
        }
        Part::LikesAll(times) => likes_all(rt, at, &mut service.seats, times),
        Part::LikesOwn(times) => likes_own(rt, at, &mut service.seats, times),
        Part::Turns(end, wanted) => assert_at(rt, at, service.driver.turn(end), wanted),
        Part::Changes(end) => changes(rt, at, service, end),
        Part::EndsByEach => ends_by_each(rt, at, service),
        Part::Splits(wanted) => splits(rt, alloc, at, service, wanted)?,
        Part::Proposes(page) => service.driver.propose(&[page]),
    }
    Ok(())
}

// Plays each part, in order.
fn plays_all(
    rt: &impl Abort,
    alloc: Global,
    name: &str,
    part: usize,
    service: &mut Service<Guided>,
    steps: &[Part],
) -> Result<(), AllocError> {
    for (step, does) in steps.iter().enumerate() {
        plays(rt, alloc, At { name, part, step }, service, *does)?;
    }
    Ok(())
}

fn plays_scene(
    rt: &impl Abort,
    alloc: Global,
    scene: &Scene,
    service: &mut Service<Guided>,
) -> Result<(), AllocError> {
    for (part, (times, steps)) in scene.parts.iter().enumerate() {
        for _ in 0..*times {
            plays_all(rt, alloc, scene.name, part, service, steps)?;
        }
    }
    Ok(())
}

#[test]
fn popular_pages_are_split(rt: HostRuntime) -> Result<(), Fail> {
    for scene in scenes() {
        let opening = opening_of(rt.alloc(), scene)?;
        let mut service = open(rt.alloc(), &opening)?;
        let played = plays_scene(&rt, rt.alloc(), scene, &mut service);
        drop(service);
        played?;
    }
    Ok(())
}
