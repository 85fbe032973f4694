ghost use Rattle.std.specs.Prelude.{◌≡◌, ◌<◌, ◌≤◌, ◌↔◌, [], ◌∷◌, ◌++◌, IfOk, IsTrue, drop, length, slice_get};
ghost use Rattle.like_limits.specs.Limits.{max_stash};
ghost use Rattle.like_tables.specs.StashView.{IsStash};

use circular_buffer::HeapCircularBuffer;
use std::alloc::{AllocError, Global};
use std::marker::Model;

/// A worker's stash: what waits in a split phase for the next joined one, first in, first out.
#[derive(Drop)]
pub struct Stash<W: Copy> {
    ring: HeapCircularBuffer<W>,
}

impl<W: Copy> Model for Stash<W> {
    ghost use Rattle.like_tables.specs.Ring.{stash_in};
    ghost use Rattle.like_tables.specs.StashView.{IsStash, StashView};

    ghost Value = { StashView W };

    ghost view = { λ s. stash_in s.ring };

    ghost invariant = { λ s. IsStash (stash_in s.ring) };
}

impl<W: Copy> Stash<W> {
    /// A stash that holds nothing. Its memory, for `capacity` of them, is taken here.
    pub fn new(alloc: Global, capacity: u32) -> Result<Self, AllocError>
        requires some { 1 ≤ capacity }
        requires few { capacity ≤ max_stash }
        ensures { IfOk result (λ stash. stash ≡ record { looks = []; capacity = capacity }) }
    {
        Ok(Stash {
            ring: HeapCircularBuffer::with_capacity(alloc, capacity as usize)?,
        })
    }

    /// Adds one behind all others.
    pub fn push(&mut self, look: W)
        requires { length self.old.looks < self.old.capacity }
        ensures { self.new ≡ record self.old { looks = self.old.looks ++ look ∷ [] } }
    {
        let _ = self.ring.try_push_back(look);
    }

    /// Takes out the first, if it holds one.
    #[inline(always)]
    pub fn pop_front(&mut self) -> Option<W>
        ensures first { result ≡ slice_get self.old.looks 0 }
        ensures rest { self.new ≡ record self.old { looks = drop 1 self.old.looks } }
    {
        self.ring.pop_front()
    }

    /// Whether it holds as many as it has room for.
    pub fn is_full(&self) -> bool
        ensures full { IsTrue result ↔ (length self.now.looks ≡ self.now.capacity) }
        ensures within { IsStash self.now }
    {
        self.ring.is_full()
    }

    /// Whether it holds none.
    #[inline(always)]
    pub fn is_empty(&self) -> bool
        ensures { IsTrue result ↔ (length self.now.looks ≡ 0) }
    {
        self.ring.is_empty()
    }

    /// How many it holds.
    pub fn len(&self) -> u32
        ensures len { result ≡ length self.now.looks }
        ensures within { IsStash self.now }
    {
        self.ring.len() as u32
    }
}
