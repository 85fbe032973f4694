//! A thread's client of a shared service, as it lies behind a handle.
ghost use Rattle.std.specs.Arc.{arc_value};
ghost use Rattle.std.specs.Prelude.{◌≡◌, ◌++◌, ◌+◌, ◌≤◌, ◌↔◌, [], ◌∷◌, IfErr, IfOk, IfSome, IsSome, IsTrue, MatchOption, MatchResult, false, length, replicate};
ghost use Rattle.told_lock.specs.Rights.{IsIdle, log_of};
ghost use Rattle.like_shared.specs.declared.desk.DeskDeed.TheVariants.{Made, Parked};
ghost use Rattle.like_shared.specs.Hubs.{IsAtDesk};
ghost use Rattle.like_shared.specs.Shared.{IsClient, driver_log, held_by, seat_logs, seats_of};

use crate::opened::{APART, Apart};
use crate::status;
use like_shared::{Busy, Card, Client, DriverCall, Hub, SeatCall, SeatRow};
use std::alloc::{AllocError, Global};
use std::sync::Arc;

/// A client, with the hub of its service, and its card for the hub's desk.
#[derive(Drop)]
#[repr(C)]
pub struct BoxedClient {
    pub(crate) hub: Arc<Hub, Global>,
    pub(crate) client: Client,
    pub(crate) card: Option<Card>,
    apart: Apart,
    pub ghost client_is: { ∥ IsClient (arc_value hub).service client ∥₁ },
    pub ghost card_is: { ∥ IfSome card (IsIdle (arc_value hub).desk) ∥₁ },
}

impl BoxedClient {
    ghost use Rattle.like_c.specs.Clients.{AtSeat, Calls, CallsDriver, CallsOne, Locks, Unlocks, hub_of, pages_by};
    ghost use Rattle.like_c.specs.Sharing.{IsNoClient};

    /// A new client in a box, made by this card at the desk. The box doesn't have the card yet. `Err`: a status says why
    /// not. A client that gets no box is parked.
    pub(crate) fn new(
        alloc: Global,
        hub: Arc<Hub, Global>,
        card: &mut Card,
    ) -> Result<Box<BoxedClient, Global>, u32>
        requires { IsIdle (arc_value hub).desk card.old }
        ensures left { IsIdle (arc_value hub).desk card.new }
        ensures made { IfOk result (λ _. log_of card.new ≡ log_of card.old ++ Made ∷ []) }
        ensures hub { IfOk result (λ b. hub_of b.value ≡ arc_value hub) }
        ensures logs { IfOk result
            (λ b. seat_logs b.value.client ≡ replicate (seats_of (arc_value hub).service) []) }
        ensures driver_log { IfOk result (λ b. driver_log b.value.client ≡ []) }
        ensures held { IfOk result
            (λ b. held_by b.value.client ≡ replicate (seats_of (arc_value hub).service) false) }
        ensures refused { IfErr result IsNoClient }
    {
        if !hub.enter(card) {
            return Err(status::BUSY);
        }
        match hub.make_there(alloc, card) {
            Ok(client) => BoxedClient::boxed(alloc, hub, client, card),
            Err(AllocError) => {
                hub.leave(card);
                Err(status::NO_MEMORY)
            }
        }
    }

    // The client in a box. The card is at the desk meanwhile, and then leaves it. If there is no memory, the client is
    // parked, and a status says so.
    fn boxed(
        alloc: Global,
        hub: Arc<Hub, Global>,
        client: Client,
        card: &mut Card,
    ) -> Result<Box<BoxedClient, Global>, u32>
        requires client { IsClient (arc_value hub).service client }
        requires card { IsAtDesk (arc_value hub) card.old }
        ensures left { IsIdle (arc_value hub).desk card.new }
        ensures parked { MatchResult result (λ _. log_of card.new ≡ log_of card.old)
            (λ _. log_of card.new ≡ log_of card.old ++ Parked client ∷ []) }
        ensures hub { IfOk result (λ b. hub_of b.value ≡ arc_value hub) }
        ensures client { IfOk result (λ b. b.value.client ≡ client) }
        ensures refused { IfErr result IsNoClient }
    {
        let it = BoxedClient {
            hub,
            client,
            card: None,
            apart: APART,
        };
        match Box::new(alloc, it) {
            Ok(boxed) => {
                boxed.hub.leave(card);
                Ok(boxed)
            }
            Err(failed) => {
                failed.value.park(card);
                Err(status::NO_MEMORY)
            }
        }
    }

    /// Parks its client, if no other thread is at the desk.
    pub(crate) fn try_park(self) {
        let mut it = self;
        if let Some(mut card) = it.enter() {
            it.park(&mut card);
        }
    }

    /// Makes a call of a seat. `Err`: a status says why not.
    #[inline(always)]
    pub(crate) fn call<Q: SeatCall>(&mut self, seat: u32, call: &Q) -> Result<Q::Answer, u32>
        ensures { CallsOne seat (Q.deed call.now) result self.old self.new }
    {
        let seat = seat as usize;
        if seat >= self.hub.service().seat_count() {
            return Err(status::UNKNOWN_SEAT);
        }
        match self.client.call(self.hub.service(), seat, call) {
            Ok(answer) => Ok(answer),
            Err(Busy) => Err(status::BUSY),
        }
    }

    /// Makes the calls of a row at a seat. `Err`: a status says why not.
    pub(crate) fn row<Q: SeatRow>(
        &mut self,
        seat: u32,
        row: &Q,
        places: &mut [Q::Written],
    ) -> Result<Q::Answer, u32>
        ensures calls { Calls seat (λ answer. Q.deeds row.now answer places.new) result self.old self.new }
        ensures places { MatchResult result (λ answer. Q.writes row.now answer places.old places.new)
            (λ _. places.new ≡ places.old) }
    {
        let seat = seat as usize;
        if seat >= self.hub.service().seat_count() {
            return Err(status::UNKNOWN_SEAT);
        }
        match self.client.row(self.hub.service(), seat, row, places) {
            Ok(answer) => Ok(answer),
            Err(Busy) => Err(status::BUSY),
        }
    }

    /// Makes a call of the driver. `Err`: another thread has it.
    pub(crate) fn drive<Q: DriverCall>(
        &mut self,
        call: &Q,
        places: &mut [Q::Written],
    ) -> Result<Q::Answer, u32>
        requires { Q.reach call.now (length places.old) ≤ pages_by self.old }
        ensures calls { CallsDriver (λ answer. Q.deed call.now answer places.new) result self.old self.new }
        ensures places { MatchResult result (λ answer. Q.writes call.now answer places.old places.new)
            (λ _. places.new ≡ places.old) }
    {
        match self.client.drive(self.hub.service(), call, places) {
            Ok(answer) => Ok(answer),
            Err(Busy) => Err(status::BUSY),
        }
    }

    /// Locks a seat. `Err`: a status says why not.
    pub(crate) fn lock(&mut self, seat: u32) -> Result<(), u32>
        ensures { AtSeat Locks seat result self.old self.new }
    {
        let seat = seat as usize;
        if seat >= self.hub.service().seat_count() {
            return Err(status::UNKNOWN_SEAT);
        }
        match self.client.lock(self.hub.service(), seat) {
            Ok(()) => Ok(()),
            Err(Busy) => Err(status::BUSY),
        }
    }

    /// Unlocks a seat. `Err`: there is no such seat.
    pub(crate) fn unlock(&mut self, seat: u32) -> Result<(), u32>
        ensures { AtSeat Unlocks seat result self.old self.new }
    {
        let seat = seat as usize;
        if seat >= self.hub.service().seat_count() {
            return Err(status::UNKNOWN_SEAT);
        }
        self.client.unlock(self.hub.service(), seat);
        Ok(())
    }

    /// Whether there are `many` pages from `from` on.
    pub(crate) fn has_pages(&self, from: u32, many: usize) -> bool
        ensures { IsTrue result ↔ (from + many ≤ pages_by self.now) }
    {
        self.hub.has_pages(from, many)
    }

    /// The card, at the desk. `None`: another thread is there.
    pub(crate) fn enter(&mut self) -> Option<Card>
        ensures card { MatchOption result (IsSome self.old.card → IsSome self.new.card)
            (λ card. IsAtDesk (hub_of self.old) card) }
        ensures client { self.new.client ≡ self.old.client }
        ensures hub { self.new.hub ≡ self.old.hub }
    {
        let Some(mut card) = self.card.take() else {
            return None;
        };
        if self.hub.enter(&mut card) {
            return Some(card);
        }
        self.card = Some(card);
        None
    }

    /// Parks its client by this card, which is at the desk.
    pub(crate) fn park(self, card: &mut Card)
        requires { IsAtDesk (hub_of self) card.old }
        ensures left { IsIdle (hub_of self).desk card.new }
        ensures parked { log_of card.new ≡ log_of card.old ++ Parked self.client ∷ [] }
    {
        let BoxedClient { hub, client, .. } = self;
        hub.park_there(card, client);
    }
}
