//! A service that threads come to and leave. Each makes a client at its desk and parks it there, so nobody collects
//! clients at the end.
ghost use Rattle.std.specs.Prelude.{◌≡◌, ◌++◌, ◌+◌, ◌-◌, ◌<◌, ◌≤◌, ◌^◌, ◌↔◌, [], ◌∷◌, IfErr, IfOk, IsTrue, MatchBool, MatchResult, OnOk, false, length, replicate};
ghost use Rattle.std.specs.Option.{is_some};
ghost use Rattle.told_lock.specs.Deeds.{named};
ghost use Rattle.told_lock.specs.Rights.{IsHolding, IsIdle, IsKeeper, first_of, log_of, name_of, told_of};
ghost use Rattle.like_live.specs.Opening.{IsRefused};
ghost use Rattle.like_live.specs.Service.{AreOpened};
ghost use Rattle.like_shared.specs.declared.desk.DeskDeed.TheVariants.{Made, Parked};
ghost use Rattle.like_shared.specs.Desk.{KeepsTold};
ghost use Rattle.like_shared.specs.Shared.{IsClient, IsServiceKeeper, IsUnused, driver_log, first_driver, first_seats, held_by, pages_of, seat_logs, seats_of};

use crate::client::Client;
use crate::deed::NoDeed;
use crate::desk::{Card, Cards, Desk, DeskDeed};
use crate::service::{NotClosed, SharedService};
use like_live::{OpenError, Opening};
use std::alloc::{AllocError, Global};
use std::marker::Brand;
use told_lock::Done;

/// A shared service and its desk. All threads have it together, each with a card of its own.
#[derive(Drop)]
pub struct Hub {
    pub(crate) service: SharedService,
    pub(crate) desk: Desk,
    pub(crate) pages: usize,
    pub ghost kept: { ∥ IsServiceKeeper service (first_of desk) ∥₁ },
    pub ghost places: { pages ≡ pages_of service },
}

/// Why no client is made.
#[derive(Clone, Copy, Debug, PartialEq, Eq)]
pub enum NoClient {
    /// Another thread is at the desk.
    Busy,
    /// There is no memory, or 2^64 - 1 clients are out.
    Memory,
}

/// Why a hub isn't closed.
#[derive(Drop)]
pub enum HubNotClosed {
    /// A thread never left the desk.
    DeskTaken,
    /// Its service isn't closed.
    Open(NotClosed),
}

impl Hub {
    ghost use Rattle.like_shared.specs.Hubs.{IsAtDesk, IsClosedBy, IsHubNotClosed, IsKeeperAfter, IsLastKeeper, IsNotClosedBy, done_for};

    /// Opens a service in phase 0, with its desk. No client and no card is out yet.
    pub fn open(alloc: Global, opening: &Opening) -> Result<(Hub, Cards), OpenError>
        ensures opened { IfOk result (λ r. AreOpened opening.now (first_driver r.0.service) (first_seats r.0.service)) }
        ensures unused { IfOk result (λ r. IsUnused (first_of r.0.desk)) }
        ensures proposed { IfOk result (λ r. (first_driver r.0.service).splits.told ≡ []) }
        ensures finds { IfOk result (λ r. (first_driver r.0.service).splits.finds ≡ is_some opening.now.hot) }
        ensures cards { IfOk result (λ r. IsKeeper r.0.desk r.1) }
        ensures out { IfOk result (λ r. r.1.out ≡ 0) }
        ensures told { IfOk result (λ r. told_of r.1 ≡ []) }
        ensures refused { IfErr result (IsRefused opening.now) }
    {
        let (service, keeper) = SharedService::open(alloc, opening)?;
        match Desk::new(alloc, keeper) {
            Ok((desk, cards)) => Ok((
                Hub {
                    service,
                    desk,
                    pages: opening.counts.len(),
                },
                cards,
            )),
            Err(AllocError) => Err(OpenError::Memory),
        }
    }

    /// Its service.
    #[inline(always)]
    pub fn service(&self) -> &SharedService
        ensures { result.now ≡ self.now.service }
    {
        &self.service
    }

    /// How many pages it has.
    pub fn pages(&self) -> usize
        ensures { result ≡ pages_of self.now.service }
    {
        self.pages
    }

    /// Whether there are `many` pages from `from` on.
    pub fn has_pages(&self, from: u32, many: usize) -> bool
        ensures { IsTrue result ↔ (from + many ≤ pages_of self.now.service) }
    {
        from as usize <= self.pages && many <= self.pages - from as usize
    }

    /// Another card. It has no bytes, and may be lost.
    pub fn new_card(&self, cards: &mut Cards) -> Card
        requires cards { IsKeeper self.now.desk cards.old }
        requires room { cards.old.out + 1 < 2 ^ 64 }
        ensures cards { IsKeeper self.now.desk cards.new }
        ensures out { cards.new.out ≡ cards.old.out + 1 }
        ensures told { told_of cards.new ≡ told_of cards.old }
        ensures card { IsIdle self.now.desk result }
        ensures log { log_of result ≡ [] }
    {
        self.desk.new_pass(cards)
    }

    /// Another client, if no other thread is at the desk.
    pub fn new_client(&self, alloc: Global, card: &mut Card) -> Result<Client, NoClient>
        requires { IsIdle self.now.desk card.old }
        ensures card { IsIdle self.now.desk card.new }
        ensures name { name_of card.new ≡ name_of card.old }
        ensures log { log_of card.new ≡ log_of card.old ++ done_for result }
        ensures client { IfOk result (λ client. IsClient self.now.service client) }
        ensures logs { IfOk result (λ client. seat_logs client ≡ replicate (seats_of self.now.service) []) }
        ensures driver_log { IfOk result (λ client. driver_log client ≡ []) }
        ensures held { IfOk result (λ client. held_by client ≡ replicate (seats_of self.now.service) false) }
    {
        if !self.enter(card) {
            return Err(NoClient::Busy);
        }
        let made = self.make_there(alloc, card);
        self.leave(card);
        match made {
            Ok(client) => Ok(client),
            Err(AllocError) => Err(NoClient::Memory),
        }
    }

    /// Another client, made by a card that is at the desk and stays there, so that the client can be parked if there is no
    /// memory for what goes with it. `Err`: there is no memory, or 2^64 - 1 clients are out.
    pub fn make_there(&self, alloc: Global, card: &mut Card) -> Result<Client, AllocError>
        requires { IsAtDesk self.now card.old }
        ensures card { IsAtDesk self.now card.new }
        ensures name { name_of card.new ≡ name_of card.old }
        ensures log { log_of card.new ≡ log_of card.old ++ done_for result }
        ensures client { IfOk result (λ client. IsClient self.now.service client) }
        ensures logs { IfOk result (λ client. seat_logs client ≡ replicate (seats_of self.now.service) []) }
        ensures driver_log { IfOk result (λ client. driver_log client ≡ []) }
        ensures held { IfOk result (λ client. held_by client ≡ replicate (seats_of self.now.service) false) }
    {
        let client = self.make_client(alloc, card)?;
        self.note_made::<Brand>(card);
        Ok(client)
    }

    /// Parks a client, with its log, and gives back the seats that it holds. It comes back as it was if another thread is
    /// at the desk.
    pub fn park(&self, card: &mut Card, client: Client) -> Result<(), Client>
        requires card { IsIdle self.now.desk card.old }
        requires client { IsClient self.now.service client }
        ensures card { IsIdle self.now.desk card.new }
        ensures name { name_of card.new ≡ name_of card.old }
        ensures log { MatchResult result (λ _. log_of card.new ≡ log_of card.old ++ Parked client ∷ [])
            (λ back. (back ≡ client) × (log_of card.new ≡ log_of card.old)) }
    {
        if !self.enter(card) {
            return Err(client);
        }
        self.park_there(card, client);
        Ok(())
    }

    /// Goes to the desk, if no other thread is there.
    pub fn enter(&self, card: &mut Card) -> bool
        requires { IsIdle self.now.desk card.old }
        ensures name { name_of card.new ≡ name_of card.old }
        ensures log { log_of card.new ≡ log_of card.old }
        ensures entered { MatchBool result (IsAtDesk self.now card.new) (IsIdle self.now.desk card.new) }
    {
        self.desk.try_take(card)
    }

    /// Parks a client, with its log, by a card that is at the desk, and leaves it.
    pub fn park_there(&self, card: &mut Card, client: Client)
        requires card { IsAtDesk self.now card.old }
        requires client { IsClient self.now.service client }
        ensures card { IsIdle self.now.desk card.new }
        ensures name { name_of card.new ≡ name_of card.old }
        ensures log { log_of card.new ≡ log_of card.old ++ Parked client ∷ [] }
    {
        self.leave_after_parking::<Brand>(card, client);
    }

    /// Leaves the desk. The log has all that was done there.
    pub fn leave(&self, card: &mut Card)
        requires { IsAtDesk self.now card.old }
        ensures card { IsIdle self.now.desk card.new }
        ensures name { name_of card.new ≡ name_of card.old }
        ensures log { log_of card.new ≡ log_of card.old }
    {
        self.desk.give_back_after::<NoDeed>(card);
    }

    /// Takes a card back.
    pub fn take_card(&self, cards: &mut Cards, card: Card)
        requires cards { IsKeeper self.now.desk cards.old }
        requires card { IsIdle self.now.desk card }
        ensures cards { IsKeeper self.now.desk cards.new }
        ensures out { cards.new.out ≡ cards.old.out - 1 }
        ensures told { told_of cards.new ≡ told_of cards.old ++ named (name_of card) (log_of card) }
    {
        self.desk.take_back(cards, card);
    }

    /// Ends its service, once all clients are parked and all seats are gone, and writes each page's last count. Cards
    /// may be out.
    pub fn close(self, counts: &mut [u64]) -> Result<(), HubNotClosed>
        requires { length counts.old ≡ pages_of self.service }
        ensures closed { OnOk result (IsClosedBy (IsLastKeeper self) self counts.new) }
        ensures not { IfErr result (IsHubNotClosed self) }
        ensures unchanged { IfErr result (λ _. counts.new ≡ counts.old) }
    {
        let Hub {
            service,
            desk,
            pages: _,
        } = self;
        let Ok(keeper) = desk.into_inner() else {
            return Err(HubNotClosed::DeskTaken);
        };
        match service.close(keeper, counts) {
            Ok(()) => Ok(()),
            Err(why) => Err(HubNotClosed::Open(why)),
        }
    }

    /// Ends its service, once all seats are gone and all cards are back, and writes each page's last count: what the
    /// keeper has is what their logs say.
    pub fn close_with(self, cards: Cards, counts: &mut [u64]) -> Result<(), NotClosed>
        requires cards { IsKeeper self.desk cards }
        requires back { cards.out ≡ 0 }
        requires places { length counts.old ≡ pages_of self.service }
        ensures closed { OnOk result (IsClosedBy (IsKeeperAfter self (told_of cards)) self counts.new) }
        ensures not { IfErr result (IsNotClosedBy (IsKeeperAfter self (told_of cards)) self) }
        ensures unchanged { IfErr result (λ _. counts.new ≡ counts.old) }
    {
        let Hub {
            service,
            desk,
            pages: _,
        } = self;
        let keeper = desk.close(cards);
        service.close(keeper, counts)
    }

    // Another client, made by the keeper that the card holds.
    fn make_client(&self, alloc: Global, card: &mut Card) -> Result<Client, AllocError>
        requires { IsAtDesk self.now card.old }
        ensures name { name_of card.new ≡ name_of card.old }
        ensures log { log_of card.new ≡ log_of card.old }
        ensures made { MatchResult result (λ _. (k : _) × (l : _) × IsHolding self.now.desk card.new k l
            × IsServiceKeeper self.now.service k × IsServiceKeeper self.now.service l
            × KeepsTold self.now.service k Made l) (λ _. IsAtDesk self.now card.new) }
        ensures client { IfOk result (λ client. IsClient self.now.service client) }
        ensures logs { IfOk result (λ client. seat_logs client ≡ replicate (seats_of self.now.service) []) }
        ensures driver_log { IfOk result (λ client. driver_log client ≡ []) }
        ensures held { IfOk result (λ client. held_by client ≡ replicate (seats_of self.now.service) false) }
    {
        self.service.new_client(alloc, card.value_mut(&self.desk))
    }

    // The card keeps the keeper, after it made a client: the proof of a call picks the deed as that of `J`.
    fn note_made<J: Done<DeskDeed>>(&self, card: &mut Card)
        requires deed { J.done ≡ Made ∷ [] }
        requires made { (k : _) × (l : _) × IsHolding self.now.desk card.old k l × IsServiceKeeper self.now.service k
            × IsServiceKeeper self.now.service l × KeepsTold self.now.service k Made l }
        ensures card { IsAtDesk self.now card.new }
        ensures name { name_of card.new ≡ name_of card.old }
        ensures log { log_of card.new ≡ log_of card.old ++ Made ∷ [] }
    {
        self.desk.note_after::<J>(card);
    }

    // The card's keeper takes a client back, and the card gives the keeper back.
    fn leave_after_parking<J: Done<DeskDeed>>(&self, card: &mut Card, client: Client)
        requires deed { J.done ≡ Parked client ∷ [] }
        requires card { IsAtDesk self.now card.old }
        requires client { IsClient self.now.service client }
        ensures card { IsIdle self.now.desk card.new }
        ensures name { name_of card.new ≡ name_of card.old }
        ensures log { log_of card.new ≡ log_of card.old ++ Parked client ∷ [] }
    {
        self.take_client(card, client);
        self.desk.give_back_after::<J>(card);
    }

    // The keeper that the card holds takes a client back.
    fn take_client(&self, card: &mut Card, client: Client)
        requires card { IsAtDesk self.now card.old }
        requires client { IsClient self.now.service client }
        ensures name { name_of card.new ≡ name_of card.old }
        ensures log { log_of card.new ≡ log_of card.old }
        ensures parked { (k : _) × (l : _) × IsHolding self.now.desk card.new k l × IsServiceKeeper self.now.service k
            × IsServiceKeeper self.now.service l × KeepsTold self.now.service k (Parked client) l }
    {
        self.service.take_back(card.value_mut(&self.desk), client);
    }
}
