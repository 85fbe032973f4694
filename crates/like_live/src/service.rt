ghost use Rattle.std.specs.Prelude.{◌≡◌, [], IfErr, IfOk, OnOk, length};
ghost use Rattle.std.specs.Option.{is_some};
ghost use Rattle.like_live.specs.Opening.{IsRefused};
ghost use Rattle.like_live.specs.Service.{AreGone, AreItsSeats, CallsKeepSeats, AreOpened, IsClosedService};

mod parts;

use self::parts::{are_gone, new_service};
use crate::driver::Driver;
use crate::live_seat::LiveSeat;
use crate::open_error::OpenError;
use crate::opening::Opening;
use like_board::SharedPost;
use like_choice::{Choice, Guided};
use std::alloc::{AllocError, Global};

/// A board with its driver and its seats. A host takes it apart, and hands each to a thread.
#[derive(Drop)]
pub struct Service<C: Choice> {
    pub driver: Driver<C>,
    /// User `u` belongs to seat `u mod seats`.
    pub seats: Vec<LiveSeat<SharedPost>>,
}

/// A seat isn't gone yet. The service is given back.
#[derive(Drop)]
pub struct NotAllGone<C: Choice> {
    pub service: Service<C>,
}

/// The calls of a driver and its seats keep them one service. `Service::open` gives all seats of a driver, and
/// `Service::close` takes these.
pub fn calls_keep_seats()
    ensures { CallsKeepSeats }
{}

impl Service<Guided> {
    /// A service in phase 0, a joined one. It finds the pages that get slots by sampling, or its host proposes them.
    /// Each number of the opening is tested. After this nothing takes memory, as no clause can say.
    pub fn open(alloc: Global, opening: &Opening) -> Result<Service<Guided>, OpenError>
        ensures opened { IfOk result (λ s. AreOpened opening.now s.driver s.seats.items) }
        ensures told { IfOk result (λ s. s.driver.splits.told ≡ []) }
        ensures finds { IfOk result (λ s. s.driver.splits.finds ≡ is_some opening.now.hot) }
        ensures whole { IfOk result (λ s. AreItsSeats s.driver s.seats.items) }
        ensures refused { IfErr result (IsRefused opening.now) }
    {
        opening.check()?;
        let hot = opening.hot.unwrap_or(0);
        match Guided::new(alloc, opening.seats, hot) {
            Ok(choice) => Service::open_with(alloc, opening, choice),
            Err(AllocError) => Err(OpenError::Memory),
        }
    }
}

impl<C: Choice + Drop> Service<C> {
    /// A service in phase 0, a joined one. Its driver asks this choice which pages get slots. Each number of the
    /// opening is tested. After this only the choice may take memory, as no clause can say.
    pub fn open_with(alloc: Global, opening: &Opening, choice: C) -> Result<Service<C>, OpenError>
        ensures opened { IfOk result (λ s. AreOpened opening.now s.driver s.seats.items) }
        ensures told { IfOk result (λ s. s.driver.splits.told ≡ C.told choice) }
        ensures finds { IfOk result (λ s. s.driver.splits.finds ≡ C.finds choice) }
        ensures whole { IfOk result (λ s. AreItsSeats s.driver s.seats.items) }
        ensures refused { IfErr result (IsRefused opening.now) }
    {
        opening.check()?;
        match new_service(alloc, opening, choice) {
            Ok(service) => Ok(service),
            Err(AllocError) => Err(OpenError::Memory),
        }
    }

    /// Ends the service, once all its seats are gone, and writes each page's last count: its first count and the
    /// tallies of all seats.
    pub fn close(self, counts: &mut [u64]) -> Result<(), NotAllGone<C>>
        requires whole { AreItsSeats self.driver self.seats.items }
        requires places { length counts.old ≡ length self.driver.lead.seat.opening.counts }
        ensures gone { OnOk result (AreGone self.seats.items) }
        ensures closed { OnOk result (IsClosedService self.driver self.seats.items counts.new) }
        ensures back { IfErr result (λ refused. refused.service ≡ self) }
        ensures some { IfErr result (λ _. ¬ AreGone self.seats.items) }
        ensures unchanged { IfErr result (λ _. counts.new ≡ counts.old) }
    {
        if !are_gone(&self.seats) {
            return Err(NotAllGone { service: self });
        }
        let Service { driver, seats } = self;
        driver.finish(seats, counts);
        Ok(())
    }
}
