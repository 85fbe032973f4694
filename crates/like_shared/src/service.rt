//! A service whose seats and driver lie behind locks.
ghost use Rattle.std.specs.Prelude.{◌≡◌, ◌%◌, ◌<◌, ◌≤◌, [], All, IfErr, IfOk, length, map};
ghost use Rattle.std.specs.List.{AllZip};
ghost use Rattle.std.specs.Option.{is_some};
ghost use Rattle.told_lock.specs.Rights.{IsKeeper, first_of, told_of};
ghost use Rattle.like_live.specs.Opening.{IsRefused};
ghost use Rattle.like_live.specs.Service.{AreItsSeats, AreOpened};
ghost use Rattle.like_shared.specs.Shared.{IsServiceKeeper, IsUnused, first_driver, first_seats, seats_of};

mod clients;
mod end;

use crate::deed::{DriverDeed, SeatDeed};
use crate::driver::DriverLock;
use crate::seat_call::SeatLock;
use like_board::SharedPost;
use like_choice::Guided;
use like_live::{Driver, LiveSeat, OpenError, Opening, PhaseNow, Service};
use std::alloc::{AllocError, Global};
use told_lock::{Keeper, Lock};

/// The keeper of a seat's passes.
pub(crate) type SeatKeeper = Keeper<LiveSeat<SharedPost>, SeatDeed>;

/// A service that threads share. Each seat and the driver lie behind a lock.
#[derive(Drop)]
pub struct SharedService {
    pub(crate) seats: Vec<SeatLock>,
    pub(crate) driver: DriverLock,
    /// The phase, for threads that call nothing.
    phase: PhaseNow,
}

/// The right to make clients of a service, to take them back, and to close it.
#[derive(Drop)]
pub struct ServiceKeeper {
    pub(crate) seats: Vec<SeatKeeper>,
    pub(crate) driver: Keeper<Driver<Guided>, DriverDeed>,
    /// Room for the seats at the end.
    pub(crate) back: Vec<LiveSeat<SharedPost>>,
}

/// Why a shared service isn't closed.
#[derive(Drop)]
pub enum NotClosed {
    /// A client is out. Nothing was done.
    ClientOut {
        service: SharedService,
        keeper: ServiceKeeper,
    },
    /// A seat isn't gone. The service comes back, and is shared no more.
    SeatNotGone {
        service: Service<Guided>,
    },
}

impl SharedService {
    /// Opens a service in phase 0 that threads share. No client is out yet.
    pub fn open(
        alloc: Global,
        opening: &Opening,
    ) -> Result<(SharedService, ServiceKeeper), OpenError>
        ensures opened { IfOk result (λ r. AreOpened opening.now (first_driver r.0) (first_seats r.0)) }
        ensures keeper { IfOk result (λ r. IsServiceKeeper r.0 r.1) }
        ensures unused { IfOk result (λ r. IsUnused r.1) }
        ensures proposed { IfOk result (λ r. (first_driver r.0).splits.told ≡ []) }
        ensures finds { IfOk result (λ r. (first_driver r.0).splits.finds ≡ is_some opening.now.hot) }
        ensures refused { IfErr result (IsRefused opening.now) }
    {
        let Service { driver, seats } = Service::open(alloc, opening)?;
        match share(alloc, driver, seats) {
            Ok(shared) => Ok(shared),
            Err(AllocError) => Err(OpenError::Memory),
        }
    }

    /// How many seats it has.
    #[inline(always)]
    pub fn seat_count(&self) -> usize
        ensures { result ≡ seats_of self.now }
    {
        self.seats.len()
    }

    /// The phase that the driver released last, which any thread may read at any time.
    pub fn phase_now(&self) -> &PhaseNow {
        &self.phase
    }

    /// The seat of a user.
    #[inline(always)]
    pub fn seat_of(&self, user: u32) -> usize
        requires { 1 ≤ seats_of self.now }
        ensures is { result ≡ user % seats_of self.now }
        ensures there { result < seats_of self.now }
    {
        user as usize % self.seats.len()
    }
}

// A driver and its seats behind locks.
fn share(
    alloc: Global,
    driver: Driver<Guided>,
    seats: Vec<LiveSeat<SharedPost>>,
) -> Result<(SharedService, ServiceKeeper), AllocError>
    requires some { 1 ≤ length seats.items }
    requires whole { AreItsSeats driver seats.items }
    ensures driver { IfOk result (λ r. first_driver r.0 ≡ driver) }
    ensures seats { IfOk result (λ r. first_seats r.0 ≡ seats.items) }
    ensures keeper { IfOk result (λ r. IsServiceKeeper r.0 r.1) }
    ensures unused { IfOk result (λ r. IsUnused r.1) }
{
    let back = Vec::with_capacity(alloc, seats.len())?;
    let mut keepers = Vec::new(alloc);
    let locks = lock_all(alloc, seats, &mut keepers)?;
    let phase = driver.phase_now()?;
    let (driver, keeper) = Lock::new(alloc, driver)?;
    Ok((
        SharedService {
            seats: locks,
            driver,
            phase,
        },
        ServiceKeeper {
            seats: keepers,
            driver: keeper,
            back,
        },
    ))
}

// Seats behind locks, in order, with the keepers of their passes.
fn lock_all(
    alloc: Global,
    seats: Vec<LiveSeat<SharedPost>>,
    keepers: &mut Vec<SeatKeeper>,
) -> Result<Vec<SeatLock>, AllocError>
    requires { keepers.old.items ≡ [] }
    ensures seats { IfOk result (λ locks. map first_of locks.items ≡ seats.items) }
    ensures keepers { IfOk result (λ locks. AllZip IsKeeper locks.items keepers.new.items) }
    ensures told { IfOk result (λ _. All (λ k. told_of k ≡ []) keepers.new.items) }
    ensures out { IfOk result (λ _. All (λ k. k.out ≡ 0) keepers.new.items) }
{
    let mut locks = Vec::new(alloc);
    for seat in seats {
        let (lock, keeper) = Lock::new(alloc, seat)?;
        locks.push(lock)?;
        keepers.push(keeper)?;
    }
    Ok(locks)
}
