ghost use Rattle.std.specs.Prelude.{◌≡◌, ◌≢◌, ◌<◌, [], IfOk, MatchOption, length, option_map, slice_get};
ghost use Rattle.like_requests.specs.Pages.{ArePages, counts_of, marks_of, number_of};

use crate::entries::Entries;
use std::alloc::{AllocError, Global};
use std::marker::Model;

/// The most pages of a run.
pub const MAX_PAGES: u32 = 1_024;

/// The most bytes of a page's name.
pub const MAX_NAME: usize = 64;

/// The greatest initial count of a page.
pub const MAX_COUNT: u64 = 1_000_000_000_000_000_000;

/// The pages of a run in the order of the pages file, numbered from 0: 1 to 1,024 of them, with distinct names.
///
/// They are `Entries` that were read to the end: there is at least one, and none can be added.
#[derive(Drop)]
pub struct Pages {
    entries: Entries,
}

impl Model for Pages {
    ghost use Rattle.std.specs.Prelude.{◌<◌, List, length};
    ghost use Rattle.like_requests.specs.Pages.{Page};

    ghost Value = { List Page };

    ghost view = { λ p. p.entries };

    ghost invariant = { λ p. 0 < length p.entries };
}

impl Pages {
    // The pages, if there are any.
    pub(crate) fn of(entries: Entries) -> Option<Self>
        ensures { MatchOption result (entries ≡ []) (λ pages. (pages ≡ entries) × (entries ≢ [])) }
    {
        if entries.len() == 0 {
            return None;
        }
        Some(Pages { entries })
    }

    /// How many pages there are.
    pub fn len(&self) -> u32
        ensures len { result ≡ length self.now }
        ensures pages { ArePages self.now }
    {
        self.entries.len()
    }

    /// The name of page `i`.
    pub fn name(&self, i: u32) -> &str
        requires { i < length self.now }
        ensures { option_map (λ p. p.name) (slice_get self.now i) ≡ Some result.now }
    {
        self.entries.name(i)
    }

    /// The initial count of page `i`.
    pub fn count(&self, i: u32) -> u64
        requires { i < length self.now }
        ensures { option_map (λ p. p.count) (slice_get self.now i) ≡ Some result }
    {
        self.entries.count(i)
    }

    /// Whether page `i` is marked split: its likes are counted in slices in each split phase.
    pub fn split(&self, i: u32) -> bool
        requires { i < length self.now }
        ensures { option_map (λ p. p.split) (slice_get self.now i) ≡ Some result }
    {
        self.entries.is_marked(i)
    }

    /// The initial count of each page.
    pub fn counts(&self, alloc: Global) -> Result<Vec<u64>, AllocError>
        ensures counts { IfOk result (λ counts. counts.items ≡ counts_of self.now) }
        ensures pages { ArePages self.now }
    {
        let mut counts = Vec::with_capacity(alloc, self.len() as usize)?;
        for page in 0..self.len() {
            counts.push(self.count(page))?;
        }
        Ok(counts)
    }

    /// Whether each page is marked split.
    pub fn marks(&self, alloc: Global) -> Result<Vec<bool>, AllocError>
        ensures marks { IfOk result (λ marks. marks.items ≡ marks_of self.now) }
        ensures pages { ArePages self.now }
    {
        let mut marks = Vec::with_capacity(alloc, self.len() as usize)?;
        for page in 0..self.len() {
            marks.push(self.split(page))?;
        }
        Ok(marks)
    }

    /// The number of the page with this name, by one look-up in a hash table.
    pub fn find(&self, name: &[u8]) -> Option<u32>
        ensures { result ≡ number_of self.now name.now }
    {
        self.entries.find(name)
    }
}
