ghost use Rattle.std.specs.Prelude.{◌≡◌, IfOk};

mod best;
mod entry;
mod judge;
mod reader;
mod ring;
pub mod sample;
pub mod sampler;
mod table;

use self::best::Best;
use self::judge::Judge;
use self::reader::Reader;
use self::ring::Ring;
use self::sampler::Sampler;
use self::table::Table;
use crate::choice::Choice;
use crate::proposal::Proposal;
use crate::slots::Slots;
use like_core::has_bit;
use std::alloc::{AllocError, Global};
use std::marker::Model;

/// A service's own choice of the pages that get slots, by samples of what its seats do, as in phase reconciliation
/// (OSDI 2014, section 5.5).
///
/// Each seat stores about one in 256 of its requests. At each choice the driver reads what is new, and proposes the
/// pages with the most likes of late, but for those with more looks than likes. All its memory is taken when it is
/// made. Contracts see it as the number of seats and `hot`.
#[derive(Drop)]
pub struct Samples {
    readers: Vec<Reader>,
    table: Table,
    /// The likes between two choices from which on a page is popular; 0: none is.
    hot: u32,
}

impl Model for Samples {
    ghost use Rattle.std.specs.Prelude.{ℕ, vec_len};

    ghost Value = { ℕ × ℕ };

    ghost view = { λ s. (vec_len s.readers, s.hot) };
}

impl Samples {
    /// For this many seats. A page is popular from `hot` likes between two choices on: 1 to 511 act as 512, and with 0
    /// no page is. Earlier likes count too, a sixteenth less at each choice. A page gets a slot with one and a half
    /// times as many likes, and keeps it down to half as many.
    pub fn new(alloc: Global, seats: u32, hot: u32) -> Result<Samples, AllocError>
        ensures { IfOk result (λ samples. samples ≡ (seats, hot)) }
    {
        let mut readers = Vec::with_capacity(alloc, seats as usize)?;
        for _ in 0..seats {
            readers.push(Reader::new(Ring::new(alloc)?))?;
        }
        Ok(Samples {
            readers,
            table: Table::new(alloc)?,
            hot,
        })
    }
}

// Reads what the seats have stored since the last choice.
fn read(readers: &mut [Reader], table: &mut Table, slots: &Slots) {
    table.fade();
    for reader in readers {
        reader.read(table);
    }
    let bits = slots.bits();
    for slot in 0..64u32 {
        if has_bit(bits, slot) {
            table.mark_in(slots.page(slot));
        }
    }
}

impl Choice for Samples {
    ghost use Rattle.std.specs.Prelude.{[], nat_lt};

    ghost told = { λ _. [] };

    ghost finds = { λ s. nat_lt 0 s.1 };

    fn propose(&mut self, slots: &Slots, proposed: &mut Proposal) {
        proposed.clear();
        if self.hot == 0 {
            return;
        }
        read(&mut self.readers, &mut self.table, slots);
        let judge = Judge::new(self.hot, &self.table);
        let mut best = Best::new();
        for entry in self.table.entries() {
            if let Some(candidate) = judge.candidate(entry) {
                best.offer(candidate);
            }
        }
        best.propose(slots, proposed);
    }

    fn sampler(&self, seat: u32) -> Result<Sampler, AllocError> {
        match self.readers.get(seat as usize) {
            Some(reader) => Ok(Sampler::new(reader.ring().share()?, seat)),
            None => Ok(Sampler::idle()),
        }
    }
}
