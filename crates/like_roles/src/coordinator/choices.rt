ghost use Rattle.std.specs.Prelude.{◌≡◌, ◌<◌, [], IfOk, length};
ghost use Rattle.like_roles.specs.coordinator.Choice.{with_chosen, within_limit};
ghost use Rattle.like_promises.specs.HotPages.{max_chosen};

use like_promises::Chosen;
use std::alloc::{AllocError, Global};
use std::marker::Model;

/// The most phases of a run that have hot pages.
const MAX_CHOSEN: usize = 1_024;

/// The coordinator's choices of some page, in order.
#[derive(Drop)]
pub(crate) struct Choices {
    pub noted: Vec<Chosen>,
}

impl Model for Choices {
    ghost use Rattle.std.specs.Prelude.{◌≡◌, ◌≤◌, List, vec_capacity, vec_len};
    ghost use Rattle.like_promises.specs.declared.chosen.Chosen.{Chosen};
    ghost use Rattle.like_promises.specs.HotPages.{max_chosen};

    ghost Value = { List Chosen };

    ghost view = { λ c. c.noted.items };

    ghost invariant = { λ c. (vec_len c.noted ≤ max_chosen) × (vec_capacity c.noted ≡ max_chosen) };
}

impl Choices {
    /// None yet. All memory is taken here.
    pub fn new(alloc: Global) -> Result<Choices, AllocError>
        ensures { IfOk result (λ choices. choices ≡ []) }
    {
        Ok(Choices {
            noted: Vec::with_capacity(alloc, MAX_CHOSEN)?,
        })
    }

    /// The mask, or 0 once 1,024 choices had some page.
    pub fn limited(&self, mask: u64) -> u64
        ensures { result ≡ within_limit self.now mask }
    {
        if self.noted.len() < MAX_CHOSEN {
            mask
        } else {
            0
        }
    }

    /// Notes the choice for a phase, if it has some page.
    pub fn note(&mut self, phase: u32, mask: u64)
        requires { 0 < mask → length self.old < max_chosen }
        ensures { self.new ≡ with_chosen self.old phase mask }
    {
        if mask > 0 {
            self.noted.push_reserved(Chosen { phase, mask });
        }
    }
}
