ghost use Rattle.std.specs.Prelude.{◌≡◌, ◌+◌, ◌^◌, ◌<◌, ◌≤◌, List, ℕ, IfNone, IfSome, length, slice_index, slice_set, sum};
ghost use Rattle.like_limits.specs.Buckets.{buckets};
ghost use Rattle.like_tables.specs.SplitSlice.{HaveNoLikes, IsNextLiked, IsSplitSlice, slice_by};

use crate::split_pages::SplitPages;

/// The likes of a slice, as numbers: how many it has of the page in each bucket.
pub trait Counts: Drop {
    ghost view: { Self → List ℕ };

    /// Counts a like of the page in this bucket.
    fn add_at(&mut self, bucket: u32)
        requires there { bucket < length (view self.old) }
        requires below { sum (view self.old) + 1 < 2 ^ 63 }
        ensures counted { view self.new
            ≡ slice_set (view self.old) bucket (slice_index (view self.old) bucket + 1) }
        ensures total { sum (view self.new) ≡ sum (view self.old) + 1 };

    /// How many likes it has of that page.
    fn likes_at(&self, bucket: u32) -> u64
        requires { bucket < length (view self.now) }
        ensures { result ≡ slice_index (view self.now) bucket };

    /// Takes that page's likes out.
    fn take_at(&mut self, bucket: u32) -> u64
        requires { bucket < length (view self.old) }
        ensures taken { result ≡ slice_index (view self.old) bucket }
        ensures emptied { view self.new ≡ slice_set (view self.old) bucket 0 }
        ensures total { sum (view self.new) + result ≡ sum (view self.old) };

    /// The page in the first bucket from `from` on whose page has a like, of these split pages.
    fn next_page(&self, splits: &SplitPages, from: u32) -> Option<u32>
        requires slice { IsSplitSlice (slice_by splits.now (view self.now)) }
        requires within { from ≤ buckets }
        ensures next { IfSome result (IsNextLiked (slice_by splits.now (view self.now)) from) }
        ensures none { IfNone result (HaveNoLikes (slice_by splits.now (view self.now)) from buckets) };
}
