ghost use Rattle.std.specs.Prelude.{◌≡◌, ◌≢◌, ◌⊎◌, ℕ, Bool, List, [], false};

use crate::proposal::Proposal;
use crate::samples::sampler::Sampler;
use crate::slots::Slots;
use std::alloc::AllocError;

/// Proposes the pages that get slots in the next split phase.
///
/// The driver calls it before it ends a split phase, and before it may end a joined one if nothing would be split in the
/// next.
/// Any proposal is lawful: `Slots::choose` takes of it what it can.
pub trait Choice {
    /// The pages that it is told to propose.
    ghost told: { Self → List ℕ };

    /// Whether it may find pages itself, while it is told none.
    ghost finds: { Self → Bool };

    /// Writes a new proposal over the old one, the most popular page first. The slots are those of the last choice.
    fn propose(&mut self, slots: &Slots, proposed: &mut Proposal)
        ensures told { (told self.old ≢ []) ⊎ (finds self.old ≡ false) → proposed.new ≡ told self.old }
        ensures keeps { told self.new ≡ told self.old }
        ensures still { finds self.new ≡ finds self.old };

    /// What a seat samples its requests with: made for each seat once, when its service is opened. A choice that needs no
    /// samples leaves it as it is.
    fn sampler(&self, _seat: u32) -> Result<Sampler, AllocError> {
        Ok(Sampler::idle())
    }
}
