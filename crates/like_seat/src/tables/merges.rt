ghost use Rattle.std.specs.Prelude.{◌≡◌, ◌≤◌, length};
ghost use Rattle.like_core.specs.Post.{answered};
ghost use Rattle.like_core.specs.WorkerState.{RunsSplit, SawEnding};
ghost use Rattle.like_limits.specs.Buckets.{buckets};
ghost use Rattle.like_tables.specs.Liked.{AreUnliked};
ghost use Rattle.like_seat.specs.Kept.{IsKept, view_of};
ghost use Rattle.like_seat.specs.Steps.{MergesNext};

use crate::merged::Merged;
use crate::tables::Tables;
use like_core::{Post, WorkerState};
use like_tables::Counts;

impl<W: Copy, C: Counts> Tables<W, C> {
    /// Adds the slice of the next page that has a like to the page's count, and empties it. The pages go by their buckets,
    /// from `from` on.
    pub fn merge_next<P: Post>(&mut self, post: &mut P, from: u32) -> Option<Merged>
        requires kept { IsKept (P.view post.old) self.old }
        requires split { RunsSplit (P.view post.old).state }
        requires ending { SawEnding (P.view post.old).last }
        requires within { from ≤ buckets }
        ensures kept { IsKept (P.view post.new) self.new }
        ensures merges { MergesNext (view_of (P.board post.old) (P.view post.old) self.old) from result
            (view_of (P.board post.new) (P.view post.new) self.new) }
    {
        let Some(page) = self.slice.next(from) else {
            return None;
        };
        let likes = self.slice.take(page);
        let old = post.add(page, likes);
        Some(Merged { page, old, likes })
    }

    /// Stops at the end of a split phase, once its slice is merged, and waits for the release of the next.
    pub fn report<P: Post>(&mut self, post: &mut P)
        requires kept { IsKept (P.view post.old) self.old }
        requires runs { RunsSplit (P.view post.old).state }
        requires ending { SawEnding (P.view post.old).last }
        requires merged { let s = view_of (P.board post.old) (P.view post.old) self.old in
            AreUnliked s.slice 0 (length s.slice) }
        ensures kept { IsKept (P.view post.new) self.new }
        ensures stops { let s = view_of (P.board post.old) (P.view post.old) self.old in
            view_of (P.board post.new) (P.view post.new) self.new ≡ record s { post = answered s.post } }
    {
        self.state = WorkerState::Answered(self.phase());
        self.slice.clear();
        post.report();
    }
}
