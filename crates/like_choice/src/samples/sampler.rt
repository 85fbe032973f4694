ghost use Rattle.std.specs.Prelude.{◌≤◌};

use super::ring::Ring;
use super::sample::{Kind, SEQUENCES, Sample};
use std::marker::Model;

/// What a seat samples its requests with: it stores about one in 256 of them into a ring, which the driver reads.
#[derive(Drop)]
pub struct Sampler {
    /// Where its samples go, if anybody reads them.
    ring: Option<Ring>,
    /// The state of a small generator, by which the samples don't keep step with the requests.
    random: u32,
    /// The number of the next sample.
    sequence: u32,
}

impl Model for Sampler {
    ghost use Rattle.std.specs.Prelude.{◌<◌, ◌^◌, ℕ};

    ghost Value = { ℕ };

    ghost view = { λ s. s.sequence };

    ghost invariant = { λ s. s.sequence < 2 ^ 31 };
}

impl Sampler {
    /// For a seat. Each seat's generator begins elsewhere.
    pub(crate) fn new(ring: Ring, seat: u32) -> Sampler {
        Sampler {
            ring: Some(ring),
            random: seat.wrapping_mul(0x9e37_79b9),
            sequence: 1,
        }
    }

    /// One whose samples nobody reads.
    pub fn idle() -> Sampler {
        Sampler {
            ring: None,
            random: 0,
            sequence: 1,
        }
    }

    /// Draws after how many requests the next one is to be stored.
    pub fn gap(&mut self) -> u32
        ensures least { 192 ≤ result }
        ensures most { result ≤ 319 }
    {
        self.random = self
            .random
            .wrapping_mul(1_664_525)
            .wrapping_add(1_013_904_223);
        192 + (self.random >> 25)
    }

    /// Stores a request as the next sample.
    #[cold]
    #[inline(never)]
    pub fn note(&mut self, page: u32, kind: Kind) {
        let Some(ring) = &self.ring else {
            return;
        };
        let sample = Sample {
            page,
            kind,
            sequence: self.sequence,
        };
        ring.store(self.sequence, sample.word());
        self.sequence = (self.sequence + 1) % SEQUENCES;
    }
}
