ghost use Rattle.std.specs.Prelude.{◌≡◌, ◌<◌, ◌≤◌, [], ◌∷◌, ◌++◌, Contains, OnOk, length, option_map, slice_get};
ghost use Rattle.like_limits.specs.Limits.{max_count, max_pages};
ghost use Rattle.like_requests.specs.Pages.{AreEntries, IsName, names, number_of};

use indexmap::IndexMap;
use std::alloc::{AllocError, Global};
use std::marker::Model;

/// What the pages file says of a page beside its name.
#[derive(Clone, Copy)]
pub(crate) struct Initial {
    pub count: u64,
    pub split: bool,
}

// A page with its name, as text.
#[derive(Drop)]
struct Listed {
    name: String,
    initial: Initial,
}

/// Pages in the order in which they were added, found through a hash table by the bytes of their names: at most 1,024,
/// with distinct names.
#[derive(Drop)]
pub(crate) struct Entries {
    by_name: IndexMap<Vec<u8>, Listed>,
}

impl Model for Entries {
    ghost use Rattle.std.specs.Prelude.{List};
    ghost use Rattle.like_requests.specs.Pages.{AreEntries, Page};

    ghost Value = { List Page };

    ghost use Rattle.like_requests.specs.Entries.{AreKeyed, listed_pages};

    ghost view = { λ e. listed_pages e.by_name.entries };

    ghost invariant = { λ e. AreKeyed e.by_name.entries × AreEntries (listed_pages e.by_name.entries) };
}

impl Entries {
    pub fn new(alloc: Global) -> Self
        ensures { result ≡ [] }
    {
        Entries {
            by_name: IndexMap::new(alloc),
        }
    }

    pub fn len(&self) -> u32
        ensures len { result ≡ length self.now }
        ensures entries { AreEntries self.now }
    {
        self.by_name.len() as u32
    }

    pub fn name(&self, i: u32) -> &str
        requires { i < length self.now }
        ensures { option_map (λ p. p.name) (slice_get self.now i) ≡ Some result.now }
    {
        self.by_name.get_index(i as usize).unwrap().1.name.as_str()
    }

    pub fn count(&self, i: u32) -> u64
        requires { i < length self.now }
        ensures { option_map (λ p. p.count) (slice_get self.now i) ≡ Some result }
    {
        self.by_name.get_index(i as usize).unwrap().1.initial.count
    }

    pub fn is_marked(&self, i: u32) -> bool
        requires { i < length self.now }
        ensures { option_map (λ p. p.split) (slice_get self.now i) ≡ Some result }
    {
        self.by_name.get_index(i as usize).unwrap().1.initial.split
    }

    pub fn find(&self, name: &[u8]) -> Option<u32>
        ensures { result ≡ number_of self.now name.now }
    {
        self.by_name.get_index_of(name).map(|number| number as u32)
    }

    pub fn add(&mut self, alloc: Global, name: &str, initial: Initial) -> Result<(), AllocError>
        requires room { length self.old < max_pages }
        requires named { IsName name.now }
        requires counted { initial.count ≤ max_count }
        requires other { ¬ Contains (names self.old) name.now }
        ensures added { OnOk result (self.new
            ≡ self.old
            ++ (record { name = name.now; count = initial.count; split = initial.split }) ∷ []) }
    {
        let key = Vec::from_slice(alloc, name.as_bytes())?;
        let name = String::from_str(alloc, name)?;
        self.by_name.insert(key, Listed { name, initial })?;
        Ok(())
    }
}
