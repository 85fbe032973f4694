//! What is behind the handles.
ghost use Rattle.std.specs.Prelude.{◌≡◌, IfErr, IfOk, IsSome, MatchResult, length, map, reverse, vec_capacity};
ghost use Rattle.like_live.specs.Opening.{AreWithinLimits, IsFirstWrong, IsRefusedFor, asking};
ghost use Rattle.like_c.specs.Opened.{IsOpenedAs, asked_of, hot_of, seat_in};

use crate::rows::Options;
use like_board::SharedPost;
use like_choice::Guided;
use like_live::{Driver, LiveSeat, OpenError, Opening, PhaseNow, Service};
use std::alloc::{AllocError, Global};

// Padding at the end of a box: 128 bytes, which prevent false sharing between two boxes.
pub(crate) type Apart = [u64; 16];

pub(crate) const APART: Apart = [0; 16];

/// A seat, as a type without parameters, so that a handle can own it.
#[derive(Drop)]
#[repr(C)]
pub struct BoxedSeat {
    pub(crate) live: LiveSeat<SharedPost>,
    apart: Apart,
}

/// The phase of a service.
#[derive(Drop)]
#[repr(C)]
pub struct BoxedPhase {
    pub(crate) phase: PhaseNow,
    apart: Apart,
}

/// A driver; what was not taken yet: seats, the first one last, and the phase; and room for the seats at the end.
#[derive(Drop)]
#[repr(C)]
pub struct Opened {
    pub(crate) driver: Driver<Guided>,
    pub(crate) seats: Vec<Box<BoxedSeat, Global>>,
    pub(crate) phase: Option<Box<BoxedPhase, Global>>,
    /// Room for all seats, which come back at the end.
    pub(crate) back: Vec<LiveSeat<SharedPost>>,
    apart: Apart,
}

const _: () = prove!(size_of::<BoxedSeat>() == size_of::<LiveSeat<SharedPost>>() + 128);

const _: () = prove!(size_of::<BoxedPhase>() == size_of::<PhaseNow>() + 128);

impl Opened {
    /// Opens a service. Every number is tested before any memory is taken. The seats and the phase are boxed
    /// here, so that handing them out takes no memory.
    pub(crate) fn new(
        alloc: Global,
        options: &Options,
        counts: &[u64],
        marks: &[u32],
        lasts: &[u32],
    ) -> Result<Box<Opened, Global>, OpenError>
        ensures opened { IfOk result
            (λ b. IsOpenedAs (asked_of options.now counts.now marks.now lasts.now) b.value) }
        ensures refused { IfErr result
            (IsRefusedFor (asked_of options.now counts.now marks.now lasts.now)) }
    {
        check(options, counts, marks, lasts)?;
        let Ok(opening) = opening_of(alloc, options, counts, marks, lasts) else {
            return Err(OpenError::Memory);
        };
        let service = Service::open(alloc, &opening)?;
        Opened::of_service(alloc, service)
    }

    // What is behind the handles of a new service.
    fn of_service(alloc: Global, service: Service<Guided>) -> Result<Box<Opened, Global>, OpenError>
        ensures opened { IfOk result (λ b. (b.value.driver ≡ service.driver)
            × (reverse (map seat_in b.value.seats.items) ≡ service.seats.items)
            × (vec_capacity b.value.back ≡ length b.value.seats.items) × IsSome b.value.phase) }
        ensures refused { IfErr result (λ error. error ≡ OpenError.Memory) }
    {
        let Service { driver, seats } = service;
        let Ok(back) = Vec::with_capacity(alloc, seats.len()) else {
            return Err(OpenError::Memory);
        };
        let seats = boxed(alloc, seats)?;
        let Ok(phase) = boxed_phase(alloc, driver.phase_now()) else {
            return Err(OpenError::Memory);
        };
        let opened = Opened {
            driver,
            seats,
            phase: Some(phase),
            back,
            apart: APART,
        };
        in_box(alloc, opened)
    }
}

/// The seat in a box.
pub(crate) fn live_of(seat: BoxedSeat) -> LiveSeat<SharedPost>
    ensures { result ≡ seat.live }
{
    seat.live
}

/// A value in a box.
pub(crate) fn in_box<T: Drop>(alloc: Global, value: T) -> Result<Box<T, Global>, OpenError>
    ensures boxed { IfOk result (λ b. b.value ≡ value) }
    ensures refused { IfErr result (λ error. error ≡ OpenError.Memory) }
{
    match Box::new(alloc, value) {
        Ok(boxed) => Ok(boxed),
        Err(_) => Err(OpenError::Memory),
    }
}

// Each seat in a box of its own, the first one last.
fn boxed(
    alloc: Global,
    mut seats: Vec<LiveSeat<SharedPost>>,
) -> Result<Vec<Box<BoxedSeat, Global>>, OpenError>
    ensures boxed { IfOk result (λ boxed. reverse (map seat_in boxed.items) ≡ seats.items) }
    ensures refused { IfErr result (λ error. error ≡ OpenError.Memory) }
{
    let mut boxed = match Vec::with_capacity(alloc, seats.len()) {
        Ok(boxed) => boxed,
        Err(_) => return Err(OpenError::Memory),
    };
    while let Some(live) = seats.pop() {
        boxed.push_reserved(in_box(alloc, BoxedSeat { live, apart: APART })?);
    }
    Ok(boxed)
}

/// A phase in a box, if there is one.
pub(crate) fn boxed_phase(
    alloc: Global,
    phase: Result<PhaseNow, AllocError>,
) -> Result<Box<BoxedPhase, Global>, AllocError> {
    let phase = phase?;
    Ok(Box::new(
        alloc,
        BoxedPhase {
            phase,
            apart: APART,
        },
    )?)
}

/// Tests every number of what C asks for.
pub(crate) fn check(
    options: &Options,
    counts: &[u64],
    marks: &[u32],
    lasts: &[u32],
) -> Result<(), OpenError>
    ensures { let asked = asked_of options.now counts.now marks.now lasts.now in
        MatchResult result (λ _. AreWithinLimits asked) (IsFirstWrong asked) }
{
    let hot = hot_of(options.hot);
    Opening::check_numbers(
        counts,
        marks,
        options.seats,
        options.users,
        lasts,
        options.room,
        hot,
    )
}

/// The opening that C asks for.
pub(crate) fn opening_of(
    alloc: Global,
    options: &Options,
    counts: &[u64],
    marks: &[u32],
    lasts: &[u32],
) -> Result<Opening, AllocError>
    ensures { IfOk result (λ opening. asking opening
        ≡ asked_of options.now counts.now marks.now lasts.now) }
{
    Ok(Opening {
        counts: Vec::from_slice(alloc, counts)?,
        marks: Vec::from_slice(alloc, marks)?,
        seats: options.seats,
        users: options.users,
        lasts: Vec::from_slice(alloc, lasts)?,
        room: options.room,
        hot: hot_of(options.hot),
    })
}

// How many likes make a page hot, if any do.
fn hot_of(hot: u32) -> Option<u32>
    ensures { result ≡ hot_of hot }
{
    if hot == 0 { None } else { Some(hot) }
}
