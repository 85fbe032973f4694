ghost use Rattle.std.specs.Prelude.{◌≡◌, ◌<◌, ◌≤◌, [], ◌∷◌, ◌++◌, length, take};
ghost use Rattle.like_limits.specs.Limits.{hot_pages};

use std::marker::Model;

/// The pages that are proposed for the slots: at most 64, the most popular first.
#[derive(Drop)]
pub struct Proposal {
    pages: [u32; 64],
    many: usize,
}

impl Model for Proposal {
    ghost use Rattle.std.specs.Prelude.{◌≤◌, ℕ, List, take};
    ghost use Rattle.like_limits.specs.Limits.{hot_pages};

    ghost Value = { List ℕ };

    ghost view = { λ p. take p.many p.pages };

    ghost invariant = { λ p. p.many ≤ hot_pages };
}

impl Proposal {
    /// A proposal of no pages.
    pub fn new() -> Proposal
        ensures { result ≡ [] }
    {
        Proposal {
            pages: [0; 64],
            many: 0,
        }
    }

    /// Forgets all its pages.
    pub fn clear(&mut self)
        ensures { self.new ≡ [] }
    {
        self.many = 0;
    }

    /// Adds a page behind the others, if it has fewer than 64.
    pub fn push(&mut self, page: u32)
        ensures { self.new ≡ take hot_pages (self.old ++ page ∷ []) }
    {
        if self.many < 64 {
            self.pages[self.many] = page;
            self.many += 1;
        }
    }

    /// Has these pages from now on, the first 64 of them.
    pub(crate) fn copy_from(&mut self, pages: &[u32])
        ensures { self.new ≡ take hot_pages pages.now }
    {
        self.clear();
        for page in pages {
            self.push(*page);
        }
    }

    /// The pages, the most popular first.
    pub fn pages(&self) -> &[u32]
        ensures pages { result.now ≡ self.now }
        ensures few { length self.now ≤ hot_pages }
    {
        &self.pages[..self.many]
    }
}
