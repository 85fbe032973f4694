ghost use Rattle.std.specs.Prelude.{◌≡◌, ◌+◌, ◌<◌, min};

use crate::hint::Hint;
use like_choice::{Kind, Sampler};

/// The most likes that a seat may count.
pub const MAX_LIKES: u64 = like_seat::MAX_LIKES;

/// What a seat tells its driver beside the board: that looks wait, and which pages its requests are for. No proof rests on
/// that.
///
/// One of about 256 requests is stored as a sample: the seat's room for likes goes up to the next one, so that it costs a
/// like nothing. Looks that wait have a count of their own, from which those that are free to wait are taken at once.
#[derive(Drop)]
pub(crate) struct Signals {
    hint: Hint,
    sampler: Sampler,
    /// How many looks wait before the next that is a sample.
    gap: u32,
}

impl Signals {
    /// For a new seat, whose first request is a sample.
    pub fn new(hint: Hint, sampler: Sampler) -> Signals {
        Signals {
            hint,
            sampler,
            gap: 0,
        }
    }

    /// Stores a sample of a page, and draws how many requests come before the next one.
    pub fn store(&mut self, page: u32, kind: Kind) -> u64 {
        self.sampler.note(page, kind);
        u64::from(self.sampler.gap())
    }

    /// Counts a look that waits, and stores it if it is a sample.
    pub fn count_waiting(&mut self, page: u32)
        ensures { 0 < self.old.gap → self.old.gap ≡ self.new.gap + 1 }
    {
        if self.gap > 0 {
            self.gap -= 1;
            return;
        }
        self.sampler.note(page, Kind::Look);
        self.gap = self.sampler.gap();
    }

    /// Counts the next looks that wait, up to a sample, but no more than so many. Says how many.
    pub fn count_ahead(&mut self, most: u32) -> u32
        ensures many { result ≡ min self.old.gap most }
        ensures counted { self.old.gap ≡ self.new.gap + result }
    {
        let looks = self.gap.min(most);
        self.gap -= looks;
        looks
    }

    /// The hint by which it asks for the end of a phase.
    pub fn hint(&self) -> &Hint {
        &self.hint
    }

    /// Asks for the end of the phase, unless somebody has.
    pub fn ask(&self) {
        if !self.hint.is_asked() {
            self.hint.ask();
        }
    }
}
