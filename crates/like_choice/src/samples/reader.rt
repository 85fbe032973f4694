ghost use Rattle.std.specs.Prelude.{◌≤◌, ◌<◌, ◌^◌};

use super::ring::{PLACES, Ring};
use super::sample::{SEQUENCES, Sample};
use super::table::Table;

/// The points that a sample counts: one of about this many requests is stored.
pub(crate) const POINTS: u32 = 256;

/// What the driver reads a seat's ring with.
#[derive(Drop)]
pub(crate) struct Reader {
    ring: Ring,
    /// The number of the last sample that it has read, 0 at the start.
    last: u32,
    ghost numbered: { last < 2 ^ 31 },
}

impl Reader {
    pub fn new(ring: Ring) -> Reader {
        Reader { ring, last: 0 }
    }

    /// The ring, for its seat.
    pub fn ring(&self) -> &Ring {
        &self.ring
    }

    /// Adds the new samples of the ring to a table. If the seat has stored more than the ring holds since the last
    /// time, those that are there count for the lost ones too.
    pub fn read(&mut self, table: &mut Table) {
        let (new, stored) = self.count_new();
        if new == 0 {
            return;
        }
        let points = stored.min(1 << 20) * POINTS / new;
        for step in 1..=new {
            table.note(self.sample(step), points);
        }
        self.last = (self.last + stored) % SEQUENCES;
    }

    // How many samples in the ring are new, and how many were stored since the last one that was read. The new ones
    // begin behind that one.
    fn count_new(&self) -> (u32, u32)
        ensures new { result.0 ≤ 256 }
        ensures stored { result.1 < 2 ^ 30 }
    {
        let mut stored = 0;
        for step in 1..=PLACES {
            let later = (self.sample(step).sequence + SEQUENCES - self.last) % SEQUENCES;
            if later == 0 || later >= SEQUENCES / 2 {
                return (step - 1, stored);
            }
            stored = stored.max(later);
        }
        (PLACES, stored)
    }

    // What the ring has `step` places after the last sample that was read.
    fn sample(&self, step: u32) -> Sample
        requires { step ≤ 256 }
        ensures { result.sequence < 2 ^ 31 }
    {
        Sample::of_word(self.ring.load(self.last + step))
    }
}
