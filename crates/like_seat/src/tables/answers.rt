ghost use Rattle.std.specs.Prelude.{◌≡◌, ◌<◌, false, IsTrue};
ghost use Rattle.like_core.specs.declared.view.WorkerSeatView.{WorkerSeatView};
ghost use Rattle.like_core.specs.Post.{is_split_at, pages_of};
ghost use Rattle.like_core.specs.WorkerState.{IsRunning};
ghost use Rattle.like_tables.specs.Ranked.{IsRanked};
ghost use Rattle.like_tables.specs.Share.{owns};
ghost use Rattle.like_tables.specs.SplitSlice.{has_split};
ghost use Rattle.like_seat.specs.Kept.{IsKept, view_of};
ghost use Rattle.like_seat.specs.StationView.{likes_of};
ghost use Rattle.like_seat.specs.Steps.{CountsLike, Reads};

use crate::seen::Seen;
use crate::tables::Tables;
use like_core::Post;
use like_tables::{Counts, Ranked};

impl<W: Copy, C: Counts> Tables<W, C> {
    /// Whether a page is split in the phase that it runs. A page that the board doesn't have is not.
    #[inline(always)]
    pub fn is_split(&self, page: u32) -> bool
        ensures split { result ≡ has_split self.now.slice page }
        ensures there { (post : WorkerSeatView) → IsKept post self.now → IsTrue result → page < pages_of post }
        ensures at_post { (post : WorkerSeatView) → IsKept post self.now → IsRunning post.state → page < pages_of post
            → result ≡ is_split_at post page }
    {
        self.slice.has(page)
    }

    /// Counts a user's like of a page, and remembers it as the user's last. Of a split page it goes into the slice.
    /// Else it is added to the page's count, and the answer is the count before.
    #[inline(always)]
    pub fn count_like<P: Post>(&mut self, post: &mut P, user: u32, page: u32) -> Option<u64>
        requires kept { IsKept (P.view post.old) self.old }
        requires running { IsRunning (P.view post.old).state }
        requires there { page < pages_of (P.view post.old) }
        requires owned { IsTrue (owns self.old.last.share user) }
        requires room { likes_of (view_of (P.board post.old) (P.view post.old) self.old)
            < (P.view post.old).opening.limits.likes }
        ensures kept { IsKept (P.view post.new) self.new }
        ensures counts { CountsLike (view_of (P.board post.old) (P.view post.old) self.old) user page result
            (view_of (P.board post.new) (P.view post.new) self.new) }
    {
        let ranked = self.last.ranked(user);
        self.count_like_at(post, ranked, page)
    }

    /// Counts a like of a user whose rank is known, as `count_like` does.
    #[inline(always)]
    pub fn count_like_at<P: Post>(&mut self, post: &mut P, ranked: Ranked, page: u32) -> Option<u64>
        requires kept { IsKept (P.view post.old) self.old }
        requires running { IsRunning (P.view post.old).state }
        requires there { page < pages_of (P.view post.old) }
        requires ranked { IsRanked self.old.last.share ranked }
        requires fits { likes_of (view_of (P.board post.old) (P.view post.old) self.old)
            < (P.view post.old).opening.limits.likes }
        ensures kept { IsKept (P.view post.new) self.new }
        ensures counts { CountsLike (view_of (P.board post.old) (P.view post.old) self.old) ranked.user page result
            (view_of (P.board post.new) (P.view post.new) self.new) }
    {
        if self.is_split(page) {
            self.slice.add(page);
            self.sliced = self.sliced.then(post, page);
            self.last.set_at(ranked, page);
            self.likes.count();
            return None;
        }
        self.last.set_at(ranked, page);
        self.likes.count();
        Some(post.add(page, 1))
    }

    /// Reads a page's count for a user's look.
    #[inline(always)]
    pub fn read_for<P: Post>(&mut self, post: &mut P, user: u32, page: u32) -> Seen
        requires kept { IsKept (P.view post.old) self.old }
        requires running { IsRunning (P.view post.old).state }
        requires there { page < pages_of (P.view post.old) }
        requires plain { is_split_at (P.view post.old) page ≡ false }
        requires owned { IsTrue (owns self.old.last.share user) }
        ensures kept { IsKept (P.view post.new) self.new }
        ensures reads { Reads (view_of (P.board post.old) (P.view post.old) self.old) user page result
            (view_of (P.board post.new) (P.view post.new) self.new) }
    {
        let ranked = self.last.ranked(user);
        self.read_at(post, ranked, page)
    }

    /// Reads a page's count for a look of a user whose rank is known.
    #[inline(always)]
    pub fn read_at<P: Post>(&mut self, post: &mut P, ranked: Ranked, page: u32) -> Seen
        requires kept { IsKept (P.view post.old) self.old }
        requires running { IsRunning (P.view post.old).state }
        requires there { page < pages_of (P.view post.old) }
        requires plain { is_split_at (P.view post.old) page ≡ false }
        requires ranked { IsRanked self.old.last.share ranked }
        ensures kept { IsKept (P.view post.new) self.new }
        ensures reads { Reads (view_of (P.board post.old) (P.view post.old) self.old) ranked.user page result
            (view_of (P.board post.new) (P.view post.new) self.new) }
    {
        Seen {
            last: self.last.last_at(ranked),
            count: post.read(page),
        }
    }
}
