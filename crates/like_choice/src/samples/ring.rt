ghost use Rattle.std.specs.Prelude.{◌≡◌, ◌<◌, vec_len};

use std::alloc::{AllocError, Global};
use std::sync::Arc;
use std::sync::atomic::{AtomicU64, Ordering};

/// How many samples a ring holds, the last ones of its seat.
pub(crate) const PLACES: u32 = 256;

#[derive(Drop)]
struct Words {
    all: Vec<AtomicU64>,
    ghost many: { vec_len all ≡ 256 },
}

/// The last samples of a seat, which it shares with its driver. Only that seat stores, at any time. A new ring holds
/// zeros.
#[derive(Drop)]
pub(crate) struct Ring {
    words: Arc<Words, Global>,
}

impl Ring {
    pub fn new(alloc: Global) -> Result<Ring, AllocError> {
        let mut all = Vec::with_capacity(alloc, PLACES as usize)?;
        for _ in 0..PLACES {
            all.push(AtomicU64::new(0))?;
        }
        Ok(Ring {
            words: Arc::new(alloc, Words { all })?,
        })
    }

    /// Another owner of this ring.
    pub fn share(&self) -> Result<Ring, AllocError> {
        Ok(Ring {
            words: Arc::try_clone(&self.words)?,
        })
    }

    /// Stores a word at the place of its number in sequence.
    pub fn store(&self, sequence: u32, word: u64) {
        let words: &Words = &self.words;
        words.all[(sequence % PLACES) as usize].store(word, Ordering::SeqCst);
    }

    /// The word at the place of a number in sequence.
    pub fn load(&self, sequence: u32) -> u64 {
        let words: &Words = &self.words;
        words.all[(sequence % PLACES) as usize].load(Ordering::SeqCst)
    }
}
