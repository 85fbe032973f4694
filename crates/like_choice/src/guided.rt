ghost use Rattle.std.specs.Prelude.{◌≡◌, [], IfOk, take};
ghost use Rattle.like_limits.specs.Limits.{hot_pages};

use crate::choice::Choice;
use crate::proposal::Proposal;
use crate::samples::Samples;
use crate::samples::sampler::Sampler;
use crate::slots::Slots;
use std::alloc::{AllocError, Global};

/// Proposes the pages that a host asks for, and as long as it asks for none, those found by sampling.
#[derive(Drop)]
pub struct Guided {
    samples: Samples,
    asked: Proposal,
}

impl Guided {
    /// For this many seats, and with this estimate of the likes that make a page popular (see `Samples::new`). All its
    /// memory is taken here.
    pub fn new(alloc: Global, seats: u32, hot: u32) -> Result<Guided, AllocError>
        ensures asked { IfOk result (λ guided. guided.asked ≡ []) }
        ensures hot { IfOk result (λ guided. guided.samples.1 ≡ hot) }
    {
        Ok(Guided {
            samples: Samples::new(alloc, seats, hot)?,
            asked: Proposal::new(),
        })
    }

    /// Proposes these pages from now on, the first 64 of them, or if there are none, those found by sampling.
    pub fn ask(&mut self, pages: &[u32])
        ensures { self.new ≡ record self.old { asked = take hot_pages pages.now } }
    {
        self.asked.copy_from(pages);
    }
}

impl Choice for Guided {
    ghost use Rattle.std.specs.Prelude.{nat_lt};

    ghost told = { λ g. g.asked };

    ghost finds = { λ g. nat_lt 0 g.samples.1 };

    fn propose(&mut self, slots: &Slots, proposed: &mut Proposal) {
        if self.asked.pages().is_empty() {
            self.samples.propose(slots, proposed);
        } else {
            proposed.copy_from(self.asked.pages());
        }
    }

    fn sampler(&self, seat: u32) -> Result<Sampler, AllocError> {
        self.samples.sampler(seat)
    }
}
