ghost use Rattle.std.specs.Prelude.{◌≡◌, ◌≤◌, ℕ, length};
ghost use Rattle.like_core.specs.Post.{answered};
ghost use Rattle.like_core.specs.WorkerState.{RunsSplit, SawEnding};
ghost use Rattle.like_limits.specs.Buckets.{bucket, buckets};
ghost use Rattle.like_tables.specs.Liked.{AreUnliked};
ghost use Rattle.like_seat.specs.Merge.{IsMerged, MergesAndReports};
ghost use Rattle.like_seat.specs.StationView.{IsStation, likes_of, tally_of};
ghost use Rattle.like_seat.specs.Steps.{MergesNext};

use crate::merged::Merged;
use crate::station::Station;
use like_core::Post;
use like_tables::Counts;

impl<P: Post, W: Copy, C: Counts> Station<P, W, C> {
    // Adds the slice of the next page that has a like to the page's count.
    fn merge_next(&mut self, from: u32) -> Option<Merged>
        requires split { RunsSplit self.old.post.state }
        requires ending { SawEnding self.old.post.last }
        requires within { from ≤ buckets }
        ensures merges { MergesNext self.old from result self.new }
        ensures station { IsStation self.new }
    {
        self.tables.merge_next(&mut self.post, from)
    }

    // The bucket of a page.
    fn bucket(&self, page: u32) -> u32
        ensures { result ≡ bucket self.now.post.opening.factor page }
    {
        self.tables.slice.bucket(page)
    }

    /// Adds each page's slice that has a like to the page's count, in the order of their buckets, and empties it.
    pub fn merge(&mut self)
        requires split { RunsSplit self.old.post.state }
        requires ending { SawEnding self.old.post.last }
        ensures merges { IsMerged self.old self.new }
        ensures empty { AreUnliked self.new.slice 0 (length self.new.slice) }
        ensures likes { likes_of self.new ≡ likes_of self.old }
        ensures tallies { (page : ℕ) → tally_of self.new page ≡ tally_of self.old page }
        ensures station { IsStation self.new }
    {
        let mut from = 0;
        while let Some(merged) = self.merge_next(from) {
            from = self.bucket(merged.page) + 1;
        }
    }

    /// Merges its slice, stops at the end of the split phase, and waits for the release of the next.
    #[cold]
    #[inline(never)]
    pub fn merge_and_report(&mut self)
        requires split { RunsSplit self.old.post.state }
        requires ending { SawEnding self.old.post.last }
        ensures reports { MergesAndReports self.old self.new }
        ensures empty { AreUnliked self.new.slice 0 (length self.new.slice) }
        ensures likes { likes_of self.new ≡ likes_of self.old }
        ensures tallies { (page : ℕ) → tally_of self.new page ≡ tally_of self.old page }
        ensures station { IsStation self.new }
    {
        self.merge();
        self.report();
    }

    // Stops at the end of a split phase, once its slice is merged.
    fn report(&mut self)
        requires runs { RunsSplit self.old.post.state }
        requires ending { SawEnding self.old.post.last }
        requires merged { AreUnliked self.old.slice 0 (length self.old.slice) }
        ensures stops { self.new ≡ record self.old { post = answered self.old.post } }
        ensures station { IsStation self.new }
    {
        self.tables.report(&mut self.post);
    }
}
