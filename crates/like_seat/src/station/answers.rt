ghost use Rattle.std.specs.Prelude.{◌≡◌, ◌^◌, ◌<◌, ◌≤◌, false, true, IsTrue, None};
ghost use Rattle.like_core.specs.Post.{is_split_at, pages_of};
ghost use Rattle.like_core.specs.WorkerState.{IsRunning};
ghost use Rattle.like_tables.specs.Ranked.{IsRanked};
ghost use Rattle.like_tables.specs.Share.{owns};
ghost use Rattle.like_seat.specs.StationView.{IsStation, likes_of};
ghost use Rattle.like_seat.specs.Steps.{CountsLike, CountsOnBoard, Glances, Reads};

use crate::seen::Seen;
use crate::station::Station;
use like_core::{Glances, Post};
use like_tables::{Counts, Ranked};

impl<P: Post, W: Copy, C: Counts> Station<P, W, C> {
    /// Whether a page is split in the phase that it runs. A page that the board doesn't have is not.
    #[inline(always)]
    pub fn is_split(&self, page: u32) -> bool
        requires running { IsRunning self.now.post.state }
        ensures there { IsTrue result → page < pages_of self.now.post }
        ensures split { page < pages_of self.now.post → result ≡ is_split_at self.now.post page }
    {
        self.tables.is_split(page)
    }

    /// Counts a like of a page, and remembers it as its user's last. Of a split page it goes into the slice. Else it is
    /// added to the page's count, and the answer is the count before.
    #[inline(always)]
    pub fn count_like_at(&mut self, ranked: Ranked, page: u32) -> Option<u64>
        requires running { IsRunning self.old.post.state }
        requires there { page < pages_of self.old.post }
        requires ranked { IsRanked self.old.last.share ranked }
        requires fits { likes_of self.old < self.old.post.opening.limits.likes }
        ensures counts { CountsLike self.old ranked.user page result self.new }
        ensures station { IsStation self.new }
    {
        self.tables.count_like_at(&mut self.post, ranked, page)
    }

    /// Counts a like of a split page where there is room for it, which was given. Says whether it did.
    #[inline(always)]
    pub fn try_sliced_at(&mut self, ranked: Ranked, page: u32) -> bool
        requires running { IsRunning self.old.post.state }
        requires there { page < pages_of self.old.post }
        requires split { is_split_at self.old.post page ≡ true }
        requires ranked { IsRanked self.old.last.share ranked }
        requires most { 2 ^ 56 ≤ self.old.post.opening.limits.likes }
        ensures counts { IsTrue result → CountsLike self.old ranked.user page None self.new }
        ensures few { IsTrue result → likes_of self.old < 2 ^ 56 }
        ensures full { result ≡ false → self.new ≡ self.old }
        ensures station { IsStation self.new }
    {
        if !self.tables.likes.try_count() {
            return false;
        }
        self.tables.slice.add(page);
        self.tables.sliced = self.tables.sliced.then(&self.post, page);
        self.tables.last.set_at(ranked, page);
        true
    }

    /// Counts a like of a page that is not split where there is room for it, which was given. Says whether it did.
    #[inline(always)]
    pub fn try_plain_at(&mut self, ranked: Ranked, page: u32) -> bool
        requires running { IsRunning self.old.post.state }
        requires there { page < pages_of self.old.post }
        requires plain { is_split_at self.old.post page ≡ false }
        requires ranked { IsRanked self.old.last.share ranked }
        requires most { 2 ^ 56 ≤ self.old.post.opening.limits.likes }
        ensures counts { IsTrue result → CountsOnBoard self.old ranked.user page self.new }
        ensures few { IsTrue result → likes_of self.old < 2 ^ 56 }
        ensures full { result ≡ false → self.new ≡ self.old }
        ensures station { IsStation self.new }
    {
        if !self.tables.likes.try_count() {
            return false;
        }
        self.tables.last.set_at(ranked, page);
        self.post.add(page, 1);
        true
    }

    /// Reads a page's count for a user's look.
    #[inline(always)]
    pub fn read_for(&mut self, user: u32, page: u32) -> Seen
        requires running { IsRunning self.old.post.state }
        requires there { page < pages_of self.old.post }
        requires plain { is_split_at self.old.post page ≡ false }
        requires owned { IsTrue (owns self.old.last.share user) }
        ensures reads { Reads self.old user page result self.new }
        ensures station { IsStation self.new }
    {
        self.tables.read_for(&mut self.post, user, page)
    }

    /// Reads a page's count for a look of a user whose rank is known.
    #[inline(always)]
    pub fn read_at(&mut self, ranked: Ranked, page: u32) -> Seen
        requires running { IsRunning self.old.post.state }
        requires there { page < pages_of self.old.post }
        requires plain { is_split_at self.old.post page ≡ false }
        requires ranked { IsRanked self.old.last.share ranked }
        ensures reads { Reads self.old ranked.user page result self.new }
        ensures station { IsStation self.new }
    {
        self.tables.read_at(&mut self.post, ranked, page)
    }
}

impl<P: Glances, W: Copy, C: Counts> Station<P, W, C> {
    /// Shows a user at once what the station knows of a split page: the page's count with the station's own slice of
    /// it. It lacks what the slices of others have.
    #[inline(always)]
    pub fn glance(&mut self, ranked: Ranked, page: u32) -> Seen
        requires running { IsRunning self.old.post.state }
        requires there { page < pages_of self.old.post }
        requires split { is_split_at self.old.post page ≡ true }
        requires ranked { IsRanked self.old.last.share ranked }
        ensures glances { Glances self.old ranked.user page result self.new }
        ensures station { IsStation self.new }
    {
        let last = self.tables.last.last_at(ranked);
        let own = self.tables.slice.likes(page);
        Seen {
            last,
            count: self.post.glance(page) + own,
        }
    }
}
