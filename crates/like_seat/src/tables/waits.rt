ghost use Rattle.std.specs.Prelude.{◌≡◌, ◌<◌, ◌↔◌, ◌++◌, [], ◌∷◌, IsTrue, drop, length, slice_get};
ghost use Rattle.like_core.specs.declared.view.WorkerSeatView.{WorkerSeatView};
ghost use Rattle.like_seat.specs.Kept.{IsKept};

use crate::tables::Tables;
use like_tables::Counts;

impl<W: Copy, C: Counts> Tables<W, C> {
    /// Stashes one until the next joined phase, behind all others that wait.
    pub fn stash(&mut self, look: W)
        requires { length self.old.stash.looks < self.old.stash.capacity }
        ensures holds { self.new ≡ record self.old {
          stash = record self.old.stash { looks = self.old.stash.looks ++ look ∷ [] };
        } }
        ensures kept { (post : WorkerSeatView) → IsKept post self.old → IsKept post self.new }
    {
        self.stash.push(look);
    }

    /// Takes out the first that waits, if one does.
    #[inline(always)]
    pub fn next_stashed(&mut self) -> Option<W>
        ensures first { result ≡ slice_get self.old.stash.looks 0 }
        ensures rest { self.new ≡ record self.old {
          stash = record self.old.stash { looks = drop 1 self.old.stash.looks };
        } }
        ensures kept { (post : WorkerSeatView) → IsKept post self.old → IsKept post self.new }
    {
        self.stash.pop_front()
    }

    /// Whether as many wait as there is room for.
    pub fn is_full(&self) -> bool
        ensures { IsTrue result ↔ (length self.now.stash.looks ≡ self.now.stash.capacity) }
    {
        self.stash.is_full()
    }
}
