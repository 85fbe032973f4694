//! A service that threads share, as it lies behind a handle.
ghost use Rattle.std.specs.Arc.{arc_value};
ghost use Rattle.std.specs.Prelude.{◌≡◌, ◌+◌, IfErr, IfOk, IsSome, MatchResult, None, OnOk, length};
ghost use Rattle.told_lock.specs.Rights.{IsKeeper};
ghost use Rattle.like_live.specs.Opening.{IsRefusedFor};
ghost use Rattle.like_shared.specs.Hubs.{IsClosedBy, IsLastKeeper};
ghost use Rattle.like_shared.specs.Shared.{pages_of};

use crate::boxed_client::BoxedClient;
use crate::opened::{APART, Apart, BoxedPhase, boxed_phase, check, in_box, opening_of};
use crate::rows::Options;
use crate::status;
use like_live::OpenError;
use like_shared::{Cards, Hub, LastCountsCall};
use std::alloc::Global;
use std::sync::Arc;

/// A hub that clients share, the right to make cards for its desk, and the phase, if that wasn't taken yet.
#[derive(Drop)]
#[repr(C)]
pub struct BoxedShared {
    pub(crate) hub: Arc<Hub, Global>,
    pub(crate) cards: Cards,
    pub(crate) phase: Option<Box<BoxedPhase, Global>>,
    apart: Apart,
    pub ghost cards_are: { ∥ IsKeeper (arc_value hub).desk cards ∥₁ },
}

impl BoxedShared {
    ghost use Rattle.like_c.specs.Opened.{asked_of};
    ghost use Rattle.like_c.specs.Sharing.{IsLost, IsNewClient, IsNoClient, IsNoEnd, IsSharedAs, KeepsShared, shared_hub};

    /// Opens a service. Every number is tested before any memory is taken. The phase is boxed here, so that handing it
    /// out takes no memory.
    pub(crate) fn new(
        alloc: Global,
        options: &Options,
        counts: &[u64],
        marks: &[u32],
        lasts: &[u32],
    ) -> Result<Box<BoxedShared, Global>, OpenError>
        ensures opened { IfOk result
            (λ b. IsSharedAs (asked_of options.now counts.now marks.now lasts.now) b.value) }
        ensures refused { IfErr result
            (IsRefusedFor (asked_of options.now counts.now marks.now lasts.now)) }
    {
        check(options, counts, marks, lasts)?;
        let Ok(opening) = opening_of(alloc, options, counts, marks, lasts) else {
            return Err(OpenError::Memory);
        };
        let (hub, cards) = Hub::open(alloc, &opening)?;
        BoxedShared::of_hub(alloc, hub, cards)
    }

    // What is behind the handle of a new hub.
    fn of_hub(alloc: Global, hub: Hub, cards: Cards) -> Result<Box<BoxedShared, Global>, OpenError>
        requires { IsKeeper hub.desk cards }
        ensures opened { IfOk result (λ b. (shared_hub b.value ≡ hub) × (b.value.cards ≡ cards)
            × IsSome b.value.phase) }
        ensures refused { IfErr result (λ error. error ≡ OpenError.Memory) }
    {
        let Ok(phase) = boxed_phase(alloc, hub.service().phase_now().share()) else {
            return Err(OpenError::Memory);
        };
        let Ok(hub) = Arc::new(alloc, hub) else {
            return Err(OpenError::Memory);
        };
        in_box(
            alloc,
            BoxedShared {
                hub,
                cards,
                phase: Some(phase),
                apart: APART,
            },
        )
    }

    /// How many pages it has.
    pub(crate) fn pages(&self) -> usize
        ensures { result ≡ pages_of (shared_hub self.now).service }
    {
        self.hub.pages()
    }

    /// The phase, if it wasn't taken yet.
    pub(crate) fn take_phase(&mut self) -> Option<Box<BoxedPhase, Global>>
        ensures taken { result ≡ self.old.phase }
        ensures left { self.new.phase ≡ None }
        ensures hub { self.new.hub ≡ self.old.hub }
        ensures cards { self.new.cards ≡ self.old.cards }
    {
        self.phase.take()
    }

    /// Another client. `Err`: a status says why not.
    pub(crate) fn new_client(&mut self, alloc: Global) -> Result<Box<BoxedClient, Global>, u32>
        ensures made { IfOk result (λ c. IsNewClient self.old c.value) }
        ensures refused { IfErr result IsNoClient }
        ensures keeps { KeepsShared self.old self.new }
        ensures out { MatchResult result (λ _. self.new.cards.out ≡ self.old.cards.out + 1)
            (λ _. self.new.cards.out ≡ self.old.cards.out) }
    {
        if self.cards.out == u64::MAX {
            return Err(status::NO_MEMORY);
        }
        let Ok(hub) = Arc::try_clone(&self.hub) else {
            return Err(status::NO_MEMORY);
        };
        let mut card = self.hub.new_card(&mut self.cards);
        match BoxedClient::new(alloc, hub, &mut card) {
            Ok(mut client) => {
                client.card = Some(card);
                Ok(client)
            }
            Err(refused) => {
                self.hub.take_card(&mut self.cards, card);
                Err(refused)
            }
        }
    }

    /// Whether its service can end, since no client is open, and all seats are gone. `Err`: a status says why not.
    pub(crate) fn check_end(&mut self, alloc: Global) -> Result<(), u32>
        ensures refused { IfErr result IsNoEnd }
        ensures keeps { KeepsShared self.old self.new }
    {
        if Arc::strong_count(&self.hub) != 1 {
            return Err(status::OPEN_CLIENT);
        }
        let Ok(mut asker) = self.new_client(alloc) else {
            return Err(status::NO_MEMORY);
        };
        let are_gone = asker.drive(&LastCountsCall { from: 0 }, &mut []);
        Box::into_inner(asker).try_park();
        match are_gone {
            Ok(true) => Ok(()),
            Ok(false) => Err(status::NOT_ENDED),
            Err(_busy) => Err(status::OPEN_CLIENT),
        }
    }

    /// Ends its service. `Err`: the service is lost, and a status says why.
    pub(crate) fn end(self, counts: &mut [u64]) -> Result<(), u32>
        requires { length counts.old ≡ pages_of (shared_hub self).service }
        ensures closed { OnOk result (IsClosedBy (IsLastKeeper (shared_hub self)) (shared_hub self) counts.new) }
        ensures refused { IfErr result IsLost }
        ensures unchanged { IfErr result (λ _. counts.new ≡ counts.old) }
    {
        let BoxedShared { hub, .. } = self;
        let Ok(hub) = Arc::try_unwrap(hub) else {
            return Err(status::OPEN_CLIENT);
        };
        match hub.close(counts) {
            Ok(()) => Ok(()),
            Err(_why) => Err(status::NOT_ENDED),
        }
    }
}
