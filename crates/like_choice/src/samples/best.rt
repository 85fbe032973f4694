ghost use Rattle.std.specs.Prelude.{◌<◌, ◌≤◌, length};

use crate::proposal::Proposal;
use crate::slots::Slots;
use like_core::has_bit;

/// A page that may be proposed.
#[derive(Clone, Copy)]
pub(crate) struct Candidate {
    pub page: u32,
    pub score: u32,
}

/// The best candidates, at most 64, the best first.
#[derive(Drop)]
pub(crate) struct Best {
    all: [Candidate; 64],
    many: usize,
    ghost few: { many ≤ 64 },
}

impl Best {
    /// None yet.
    pub fn new() -> Best {
        Best {
            all: [Candidate { page: 0, score: 0 }; 64],
            many: 0,
        }
    }

    /// Takes a candidate in, if it is better than one of the 64, or if there are fewer.
    pub fn offer(&mut self, candidate: Candidate) {
        let mut place = self.many;
        if place == 64 {
            place = 63;
            if self.all[63].score >= candidate.score {
                return;
            }
        } else {
            self.many += 1;
        }
        move_up(&mut self.all, place, candidate);
    }

    /// Proposes them, but for those whose bucket a better one has.
    pub fn propose(&self, slots: &Slots, proposed: &mut Proposal) {
        // A bit for each bucket.
        let mut taken = [0u64; 16];
        for candidate in &self.all[..self.many] {
            let bucket = slots.bucket(candidate.page);
            let word = &mut taken[bucket as usize / 64];
            if !has_bit(*word, bucket % 64) {
                *word |= 1 << (bucket % 64);
                proposed.push(candidate.page);
            }
        }
    }
}

// Puts a candidate at the last place, or before it, behind all that are as good. Those between move back.
fn move_up(all: &mut [Candidate], last: usize, candidate: Candidate)
    requires { last < length all.old }
{
    let mut place = last;
    while place > 0 && all[place - 1].score < candidate.score {
        all[place] = all[place - 1];
        place -= 1;
    }
    all[place] = candidate;
}
