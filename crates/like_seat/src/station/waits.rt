ghost use Rattle.std.specs.Prelude.{◌≡◌, ◌<◌, length, slice_get};
ghost use Rattle.like_seat.specs.StationView.{IsStation};
ghost use Rattle.like_seat.specs.Steps.{stashing, without_first};

use crate::station::Station;
use like_core::Post;
use like_tables::Counts;

impl<P: Post, W: Copy, C: Counts> Station<P, W, C> {
    /// Stashes one until the next joined phase, behind all others that wait.
    pub fn stash(&mut self, look: W)
        requires { length self.old.stash.looks < self.old.stash.capacity }
        ensures holds { self.new ≡ stashing self.old look }
        ensures station { IsStation self.new }
    {
        self.tables.stash(look);
    }

    /// Takes out the first that waits, if one does.
    #[inline(always)]
    pub fn next_stashed(&mut self) -> Option<W>
        ensures first { result ≡ slice_get self.old.stash.looks 0 }
        ensures rest { self.new ≡ without_first self.old }
        ensures station { IsStation self.new }
    {
        self.tables.next_stashed()
    }
}
