ghost use Rattle.std.specs.Prelude.{◌≡◌, [], false, take};
ghost use Rattle.like_limits.specs.Limits.{hot_pages};

use crate::choice::Choice;
use crate::proposal::Proposal;
use crate::slots::Slots;
use std::marker::Model;

/// Proposes the pages of a list that a test or a host sets, until it sets another.
#[derive(Drop)]
pub struct Proposed {
    pages: Proposal,
}

impl Model for Proposed {
    ghost use Rattle.std.specs.Prelude.{ℕ, List};

    ghost Value = { List ℕ };

    ghost view = { λ p. p.pages };
}

/// Proposes no page: only marked pages are split.
#[derive(Clone, Copy, Drop)]
pub struct NoProposal;

impl Proposed {
    /// Proposes nothing yet.
    pub fn new() -> Proposed
        ensures { result ≡ [] }
    {
        Proposed {
            pages: Proposal::new(),
        }
    }

    /// Proposes these from now on, the first 64 of them.
    pub fn set(&mut self, pages: &[u32])
        ensures { self.new ≡ take hot_pages pages.now }
    {
        self.pages.copy_from(pages);
    }
}

impl Choice for Proposed {
    ghost told = { λ p. p };

    ghost finds = { λ _. false };

    fn propose(&mut self, _slots: &Slots, proposed: &mut Proposal)
        ensures proposes { proposed.new ≡ self.old }
        ensures keeps { self.new ≡ self.old }
    {
        proposed.copy_from(self.pages.pages());
    }
}

impl Choice for NoProposal {
    ghost told = { λ _. [] };

    ghost finds = { λ _. false };

    fn propose(&mut self, _slots: &Slots, proposed: &mut Proposal)
        ensures { proposed.new ≡ [] }
    {
        proposed.clear();
    }
}
