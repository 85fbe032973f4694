ghost use Rattle.std.specs.Prelude.{◌≡◌, ◌<◌, ◌≤◌, length, vec_len};

use super::entry::{Entry, faded};
use super::sample::{Kind, Sample};
use std::alloc::{AllocError, Global};

/// How many pages a set holds.
const WAYS: usize = 4;

/// An entry with fewer points than four samples makes room for a new page.
const WEAK: u32 = 4 * 256;

/// The pages that were sampled most of late: 512 sets of 4. A page's number tells its set.
#[derive(Drop)]
pub(crate) struct Table {
    entries: Vec<Entry>,
    /// The points of all likes, fading too.
    pub likes: u32,
    /// The points of all looks, likewise.
    pub looks: u32,
    ghost many: { vec_len entries ≡ 2048 },
}

impl Table {
    pub fn new(alloc: Global) -> Result<Table, AllocError> {
        Ok(Table {
            entries: vec![in alloc; Entry::empty(); 2048]?,
            likes: 0,
            looks: 0,
        })
    }

    /// What is known of the pages.
    pub fn entries(&self) -> &[Entry] {
        &self.entries
    }

    /// Takes a sixteenth off all points, and forgets which pages have slots.
    pub fn fade(&mut self) {
        fade_all(&mut self.entries);
        self.likes = faded(self.likes);
        self.looks = faded(self.looks);
    }

    /// Adds a sample. A new page takes the place of the weakest in its set, if that is weak enough.
    pub fn note(&mut self, sample: Sample, points: u32) {
        match sample.kind {
            Kind::Like => self.likes = self.likes.saturating_add(points),
            Kind::Look => self.looks = self.looks.saturating_add(points),
        }
        let first = first_of(sample.page);
        let set = &mut self.entries[first..first + WAYS];
        let place = place_in(set, sample.page);
        let entry = &mut set[place];
        if !entry.is_of(sample.page) {
            if entry.seen >= WEAK {
                return;
            }
            *entry = Entry::empty();
            entry.page = sample.page;
        }
        entry.add(sample.kind, points);
    }

    /// Says that a page has a slot.
    pub fn mark_in(&mut self, page: u32) {
        let first = first_of(page);
        let set = &mut self.entries[first..first + WAYS];
        let place = place_in(set, page);
        if set[place].is_of(page) {
            set[place].is_in = true;
        }
    }
}

// Takes a sixteenth off the points of each entry.
fn fade_all(entries: &mut [Entry]) {
    for place in 0..entries.len() {
        entries[place].fade();
    }
}

// Where the set of a page begins.
fn first_of(page: u32) -> usize
    ensures { result ≤ 2044 }
{
    WAYS * (page.wrapping_mul(0x9e37_79b1) >> 23) as usize
}

// The place of a page in its set, or the weakest entry's.
fn place_in(set: &[Entry], page: u32) -> usize
    requires { length set.now ≡ 4 }
    ensures { result < 4 }
{
    let mut weakest = 0;
    for place in 0..WAYS {
        if set[place].is_of(page) {
            return place;
        }
        if set[place].seen < set[weakest].seen {
            weakest = place;
        }
    }
    weakest
}
