//! Numbers that threads count.
use std::sync::atomic::{AtomicU32, Ordering};

#[derive(Drop)]
pub struct Count {
    number: AtomicU32,
}

impl Count {
    pub fn none() -> Count {
        Count {
            number: AtomicU32::new(0),
        }
    }

    pub fn get(&self) -> u32 {
        self.number.load(Ordering::SeqCst)
    }

    /// Adds to it, and says what it was before.
    pub fn add(&self, number: u32) -> u32 {
        self.number.fetch_add(number, Ordering::SeqCst)
    }

    pub fn raise(&self, number: u32) {
        self.number.fetch_max(number, Ordering::SeqCst);
    }
}

/// A number for each of three submitters or workers.
#[derive(Drop)]
pub struct Counts {
    zeroth: Count,
    first: Count,
    second: Count,
}

impl Counts {
    pub fn none() -> Counts {
        Counts {
            zeroth: Count::none(),
            first: Count::none(),
            second: Count::none(),
        }
    }

    fn at(&self, place: u32) -> Option<&Count> {
        match place {
            0 => Some(&self.zeroth),
            1 => Some(&self.first),
            2 => Some(&self.second),
            _ => None,
        }
    }

    pub fn all(&self) -> [u32; 3] {
        [self.get(0), self.get(1), self.get(2)]
    }

    /// The number at a place, or 0 if there is no such place.
    pub fn get(&self, place: u32) -> u32 {
        match self.at(place) {
            Some(count) => count.get(),
            None => 0,
        }
    }

    /// Counts one more at a place, and says whether it is now this number.
    pub fn is_next(&self, place: u32, number: u32) -> bool {
        match self.at(place) {
            Some(count) => count.add(1).saturating_add(1) == number,
            None => false,
        }
    }
}
