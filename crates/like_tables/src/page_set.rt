ghost use Rattle.std.specs.Prelude.{◌≡◌, ◌*◌, ◌/◌, ◌<◌, ◌≤◌, IfNone, IfOk, IfSome, length, replicate};
ghost use Rattle.std.specs.Int.{div_ceil};
ghost use Rattle.like_tables.specs.PageSet.{HasNone, IsNextIn, SetsBit};

use std::alloc::{AllocError, Global};
use std::marker::Model;

/// A set of pages: a bit for each page, 64 to a word, in the order of the pages.
#[derive(Drop)]
pub(crate) struct PageSet {
    words: Vec<u64>,
}

impl Model for PageSet {
    ghost use Rattle.std.specs.Prelude.{◌*◌, ◌^◌, ◌≤◌, ℕ, List, length};

    ghost Value = { List ℕ };

    ghost view = { λ s. s.words.items };

    ghost invariant = { λ s. 64 * length s.words.items ≤ 2 ^ 32 };
}

impl PageSet {
    // A bit for each page, and no page is in the set.
    pub fn new(alloc: Global, pages: u32) -> Result<Self, AllocError>
        ensures { IfOk result (λ set. set ≡ replicate (div_ceil pages 64) 0) }
    {
        Ok(PageSet {
            words: vec![in alloc; 0; pages.div_ceil(64) as usize]?,
        })
    }

    pub fn insert(&mut self, page: u32)
        requires { page < 64 * length self.old }
        ensures { SetsBit page 1 self.old self.new }
    {
        self.words[page as usize / 64] |= 1 << (page % 64);
    }

    pub fn remove(&mut self, page: u32)
        requires { page < 64 * length self.old }
        ensures { SetsBit page 0 self.old self.new }
    {
        self.words[page as usize / 64] &= !(1 << (page % 64));
    }

    // The least page from `from` on that is in the set. It goes word by word.
    pub fn next(&self, from: u32) -> Option<u32>
        ensures next { IfSome result (IsNextIn self.now from) }
        ensures none { IfNone result (HasNone self.now from (64 * length self.now)) }
    {
        let first = from as usize / 64;
        // Of the first word only the bits from `from` on count.
        let mut counted = u64::MAX << (from % 64);
        for place in first..self.words.len() {
            let word = self.words[place] & counted;
            if word != 0 {
                return Some(place as u32 * 64 + word.trailing_zeros());
            }
            counted = u64::MAX;
        }
        None
    }
}
