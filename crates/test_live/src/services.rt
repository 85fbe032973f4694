//! A service as a whole: what it may be opened with, and that it is not closed while a seat is there.
ghost use Rattle.std.specs.Prelude.{IfOk};
ghost use Rattle.like_live.specs.Service.{AreItsSeats};

use crate::asserts::{At, assert_at, assert_named, assert_same};
use crate::play::plays;
use crate::scenes::{Calls, announces, answers_and_releases, likes_the_last};
use like_choice::Guided;
use like_live::{NO_PAGE, OpenError, Opening, PhaseNow, Service};
use std::alloc::{AllocError, Global};
use std::process::Abort;
use std::test::Fail;

/// What a service is opened with.
#[derive(Clone, Copy)]
pub struct Numbers {
    pub counts: &'static [u64],
    pub marks: &'static [u32],
    pub seats: u32,
    pub users: u32,
    pub lasts: &'static [u32],
    pub room: u32,
    pub hot: Option<u32>,
}

/// Two pages, the first of them marked, with 10 and 20 likes, and users 0 to 3.
pub const PLAIN: Numbers = Numbers {
    counts: &[10, 20],
    marks: &[0],
    seats: 2,
    users: 4,
    lasts: &[],
    room: 2,
    hot: None,
};

fn opening_of(alloc: Global, numbers: &Numbers) -> Result<Opening, AllocError> {
    Ok(Opening {
        counts: Vec::from_slice(alloc, numbers.counts)?,
        marks: Vec::from_slice(alloc, numbers.marks)?,
        seats: numbers.seats,
        users: numbers.users,
        lasts: Vec::from_slice(alloc, numbers.lasts)?,
        room: numbers.room,
        hot: numbers.hot,
    })
}

/// A service with this opening.
pub fn open(alloc: Global, opening: &Opening) -> Result<Service<Guided>, Fail>
    ensures { IfOk result (λ s. AreItsSeats s.driver s.seats.items) }
{
    match Service::open(alloc, opening) {
        Ok(service) => Ok(service),
        Err(_) => Err(Fail::new("no service")),
    }
}

pub fn opened_with(alloc: Global, numbers: &Numbers) -> Result<Service<Guided>, Fail>
    ensures { IfOk result (λ s. AreItsSeats s.driver s.seats.items) }
{
    let opening = opening_of(alloc, numbers)?;
    open(alloc, &opening)
}

/// A service of two pages, the first of them marked, with 10 and 20 likes, and of users 0 to 3.
pub fn opened(alloc: Global, seats: u32, room: u32) -> Result<Service<Guided>, Fail>
    ensures { IfOk result (λ s. AreItsSeats s.driver s.seats.items) }
{
    let numbers = Numbers {
        seats,
        room,
        ..PLAIN
    };
    opened_with(alloc, &numbers)
}

/// Plays a service that is opened with these numbers.
pub fn plays_with(
    rt: &impl Abort,
    alloc: Global,
    numbers: &Numbers,
    calls: &Calls,
) -> Result<(), Fail> {
    let mut service = opened_with(alloc, numbers)?;
    plays(rt, &mut service, calls);
    drop(service);
    Ok(())
}

// Wrong numbers, and what is told of them. Of several the first is told, in the order of `OpenError`.
static WRONG: [(Numbers, OpenError); 13] = [
    (Numbers { seats: 0, ..PLAIN }, OpenError::Seats),
    (Numbers { seats: 65, ..PLAIN }, OpenError::Seats),
    (
        Numbers {
            users: 0,
            ..WRONG_LASTS
        },
        OpenError::Users,
    ),
    (WRONG_LASTS, OpenError::Lasts),
    (
        Numbers {
            lasts: &[0, NO_PAGE, 2, 1],
            ..WRONG_LASTS
        },
        OpenError::Lasts,
    ),
    (Numbers { room: 0, ..PLAIN }, OpenError::Room),
    (
        Numbers {
            room: 4_097,
            ..PLAIN
        },
        OpenError::Room,
    ),
    (WRONG_COUNTS, OpenError::Counts),
    (
        Numbers {
            marks: &[0, 2],
            ..WRONG_COUNTS
        },
        OpenError::Marks,
    ),
    (
        Numbers {
            marks: &[1, 0, 1],
            ..WRONG_COUNTS
        },
        OpenError::Marks,
    ),
    (
        Numbers {
            counts: &[],
            ..PLAIN
        },
        OpenError::Pages,
    ),
    (
        Numbers {
            hot: Some(0),
            ..PLAIN
        },
        OpenError::Hot,
    ),
    (
        Numbers {
            hot: Some(1_000_001),
            ..PLAIN
        },
        OpenError::Hot,
    ),
];

// Last likes of three users of four, and no room.
const WRONG_LASTS: Numbers = Numbers {
    lasts: &[0, NO_PAGE, 1],
    room: 0,
    ..PLAIN
};

const WRONG_COUNTS: Numbers = Numbers {
    counts: &[10, 1_000_000_000_000_000_001],
    ..PLAIN
};

// A test that takes them from here has none of them in its proof.
fn all_wrong() -> &'static [(Numbers, OpenError)] {
    &WRONG
}

#[test]
fn refuses_wrong_numbers(rt: HostRuntime) -> Result<(), Fail> {
    for (step, (numbers, wrong)) in all_wrong().iter().enumerate() {
        let opening = opening_of(rt.alloc(), numbers)?;
        let told = Service::open(rt.alloc(), &opening).err();
        let at = At {
            name: "wrong numbers",
            part: 0,
            step,
        };
        assert_at(&rt, at, told, Some(*wrong));
    }
    Ok(())
}

// The least numbers of each kind, and the largest.
static AT_LIMITS: [Numbers; 2] = [
    Numbers {
        counts: &[0],
        marks: &[],
        seats: 1,
        users: 1,
        lasts: &[NO_PAGE],
        room: 1,
        hot: Some(1),
    },
    Numbers {
        counts: &[1_000_000_000_000_000_000; 2],
        marks: &[1, 0],
        seats: 64,
        users: 1,
        lasts: &[1],
        room: 4_096,
        hot: Some(1_000_000),
    },
];

fn all_at_limits() -> &'static [Numbers] {
    &AT_LIMITS
}

// How many seats and pages a service has.
fn seats_and_pages(service: &Service<Guided>) -> (usize, usize) {
    (service.seats.len(), service.driver.pages() as usize)
}

#[test]
fn opens_at_each_limit(rt: HostRuntime) -> Result<(), Fail> {
    for numbers in all_at_limits() {
        let service = opened_with(rt.alloc(), numbers)?;
        let came = seats_and_pages(&service);
        drop(service);
        let wanted = (numbers.seats as usize, numbers.counts.len());
        assert_same(&rt, "its seats and pages", came, wanted);
    }
    Ok(())
}

// A service of 100 pages with this many of them marked, the last of these first.
fn opening_with_marks(alloc: Global, many: u32) -> Result<Opening, AllocError> {
    let numbers = Numbers {
        counts: &[0; 100],
        ..PLAIN
    };
    let mut opening = opening_of(alloc, &numbers)?;
    opening.marks = (0..many).rev().collect(alloc)?;
    Ok(opening)
}

// Whether a service of 100 pages is opened with this many of them marked.
fn opens_with_marks(alloc: Global, many: u32) -> Result<bool, Fail> {
    let opening = opening_with_marks(alloc, many)?;
    match Service::open(alloc, &opening).err() {
        None => Ok(true),
        Some(OpenError::Marks) => Ok(false),
        Some(_) => Err(Fail::new("no service")),
    }
}

#[test]
fn opens_with_64_marks_at_most(rt: HostRuntime) -> Result<(), Fail> {
    let by_64 = opens_with_marks(rt.alloc(), 64)?;
    assert_same(&rt, "64 marks", by_64, true);
    let by_65 = opens_with_marks(rt.alloc(), 65)?;
    assert_same(&rt, "65 marks", by_65, false);
    Ok(())
}

// A service of one seat and user, and of 100,000 pages with seven likes each.
fn opening_of_many(alloc: Global) -> Result<Opening, AllocError> {
    Ok(Opening {
        counts: Vec::from_elem(alloc, 7, 100_000)?,
        marks: Vec::new(alloc),
        seats: 1,
        users: 1,
        lasts: Vec::new(alloc),
        room: 1,
        hot: None,
    })
}

fn opened_with_many(alloc: Global) -> Result<Service<Guided>, Fail> {
    let opening = opening_of_many(alloc)?;
    open(alloc, &opening)
}

#[test]
fn opens_a_hundred_thousand_pages(rt: HostRuntime) -> Result<(), Fail> {
    let mut service = opened_with_many(rt.alloc())?;
    assert_same(&rt, "pages", service.driver.pages(), 100_000);
    plays(&rt, &mut service, likes_the_last());
    drop(service);
    Ok(())
}

/// Whether a service of two pages is closed, and the counts behind it.
pub fn closed(rt: &impl Abort, service: Service<Guided>) -> (bool, [u64; 2])
    requires { AreItsSeats service.driver service.seats.items }
{
    assert_named(rt, service.driver.pages() == 2, "two pages");
    let mut counts = [0, 0];
    match service.close(&mut counts) {
        Ok(()) => (true, counts),
        Err(refused) => {
            drop(refused);
            (false, counts)
        }
    }
}

// A service is not closed while a seat is there.
#[test]
fn closes_no_running_service(rt: HostRuntime) -> Result<(), Fail> {
    let end = closed(&rt, opened(rt.alloc(), 2, 2)?);
    assert_same(&rt, "a service that goes on", end, (false, [0, 0]));
    Ok(())
}

// User 3 of two seats belongs to seat 1.
#[test]
fn tells_the_seat_of_a_user(rt: HostRuntime) -> Result<(), Fail> {
    let mut opening = opening_of(rt.alloc(), &PLAIN)?;
    opening.seats = 2;
    assert_same(&rt, "the seat of user 3", opening.seat_of(3), 1);
    assert_same(&rt, "the seat of user 2", opening.seat_of(2), 0);
    Ok(())
}

// It compiles only where any thread may hold and read the value.
fn for_any_thread<T: Send + Sync>(_value: &T) {}

// Ends phase 0 of a service with one seat.
fn ends_the_first(rt: &impl Abort, service: &mut Service<Guided>, phase: &PhaseNow) {
    plays(rt, service, announces());
    assert_same(rt, "the first phase", phase.get(), 0);
    plays(rt, service, answers_and_releases());
    assert_same(rt, "the next phase", phase.get(), 1);
}

// The phase of a service that ends its first one, and another owner of it, which sees that.
fn owners(
    rt: &impl Abort,
    service: &mut Service<Guided>,
) -> Result<(PhaseNow, PhaseNow), AllocError> {
    let phase = service.driver.phase_now()?;
    let other = phase.share()?;
    ends_the_first(rt, service, &other);
    Ok((phase, other))
}

// Another owner sees the phase that the driver releases, and still has it once the driver is dropped.
#[test]
fn tells_the_phase_to_another_owner(rt: HostRuntime) -> Result<(), Fail> {
    let mut service = opened(rt.alloc(), 1, 2)?;
    let owners = owners(&rt, &mut service);
    drop(service);
    let (phase, other) = owners?;
    for_any_thread(&other);
    assert_same(&rt, "the phase", phase.get(), 1);
    assert_same(&rt, "the phase of the other owner", other.get(), 1);
    Ok(())
}
