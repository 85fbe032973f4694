ghost use Rattle.std.specs.Prelude.{◌≡◌, ◌+◌, ◌^◌, ◌<◌, ◌≤◌, ℕ, true, IfNone, IfOk, IfSome, length, sum};
ghost use Rattle.like_limits.specs.Buckets.{buckets, run_factor};
ghost use Rattle.like_tables.specs.SplitPages.{MayPut};
ghost use Rattle.like_tables.specs.SplitSlice.{HaveNoLikes, IsNextLiked, IsSplitSlice, bucket_in, has_split, likes_in, no_slice, with_likes, with_split};

use crate::bucket_counts::BucketCounts;
use crate::counts::Counts;
use crate::slice::Slice;
use crate::split_pages::SplitPages;
use like_limits::RUN_FACTOR;
use std::alloc::{AllocError, Global};
use std::marker::Model;

/// A worker's slice of its split pages: which pages are split in its phase, and how many likes of each it has counted
/// and not merged yet.
///
/// A run's keeps the likes in a `Slice`, a service's in `BucketCounts`.
#[derive(Drop)]
pub struct SplitSlice<C: Counts> {
    splits: SplitPages,
    counts: C,
}

impl<C: Counts> Model for SplitSlice<C> {
    ghost use Rattle.like_tables.specs.SplitSlice.{IsSplitSlice, SplitSlice};

    ghost Value = { SplitSlice };

    ghost view = { λ s. record { splits = s.splits; counts = C.view s.counts } };

    ghost invariant = { λ s. IsSplitSlice (record { splits = s.splits; counts = C.view s.counts }) };
}

impl SplitSlice<Slice> {
    /// A slice of a run, which has a number for each of so many pages. No page is split.
    pub fn of_run(alloc: Global, pages: u32) -> Result<Self, AllocError>
        ensures slice { IfOk result (λ slice. slice ≡ no_slice run_factor pages) }
        ensures lawful { IfOk result (λ slice. IsSplitSlice slice) }
    {
        Ok(SplitSlice {
            splits: SplitPages::new(alloc, RUN_FACTOR)?,
            counts: Slice::new(alloc, pages)?,
        })
    }
}

impl SplitSlice<BucketCounts> {
    /// A slice of a service, which has a number for each bucket. No page is split. With the factor page 1 is not in
    /// bucket 0.
    pub fn of_service(alloc: Global, factor: u32) -> Result<Self, AllocError>
        requires { 2 ^ 22 ≤ factor }
        ensures slice { IfOk result (λ slice. slice ≡ no_slice factor buckets) }
        ensures lawful { IfOk result (λ slice. IsSplitSlice slice) }
    {
        Ok(SplitSlice {
            splits: SplitPages::new(alloc, factor)?,
            counts: BucketCounts::new(),
        })
    }
}

impl<C: Counts> SplitSlice<C> {
    /// The bucket of a page.
    #[inline(always)]
    pub fn bucket(&self, page: u32) -> u32
        ensures bucket { result ≡ bucket_in self.now page }
        ensures slice { IsSplitSlice self.now }
    {
        self.splits.bucket(page)
    }

    /// Whether the page is split.
    #[inline(always)]
    pub fn has(&self, page: u32) -> bool
        ensures { result ≡ has_split self.now page }
    {
        self.splits.has(page)
    }

    /// Splits the page. It has a number, and no other page may be in its bucket.
    pub fn put(&mut self, page: u32)
        requires apart { MayPut self.old.splits page }
        requires number { bucket_in self.old page < length self.old.counts }
        ensures put { self.new ≡ with_split self.old page }
        ensures slice { IsSplitSlice self.new }
    {
        self.splits.put(page);
    }

    /// Counts a like of the page.
    #[inline(always)]
    pub fn add(&mut self, page: u32)
        requires split { has_split self.old page ≡ true }
        requires below { sum self.old.counts + 1 < 2 ^ 63 }
        ensures counted { self.new ≡ with_likes self.old page (likes_in self.old page + 1) }
        ensures total { sum self.new.counts ≡ sum self.old.counts + 1 }
        ensures slice { IsSplitSlice self.new }
    {
        let bucket = self.bucket(page);
        self.counts.add_at(bucket);
    }

    /// How many likes it has of the page.
    #[inline(always)]
    pub fn likes(&self, page: u32) -> u64
        requires { has_split self.now page ≡ true }
        ensures { result ≡ likes_in self.now page }
    {
        self.counts.likes_at(self.bucket(page))
    }

    /// Takes the page's likes out.
    pub fn take(&mut self, page: u32) -> u64
        requires { has_split self.old page ≡ true }
        ensures taken { result ≡ likes_in self.old page }
        ensures emptied { self.new ≡ with_likes self.old page 0 }
        ensures total { sum self.new.counts + result ≡ sum self.old.counts }
        ensures slice { IsSplitSlice self.new }
    {
        let bucket = self.bucket(page);
        self.counts.take_at(bucket)
    }

    /// The page in the first bucket from `from` on whose page has a like.
    pub fn next(&self, from: u32) -> Option<u32>
        requires { from ≤ buckets }
        ensures next { IfSome result (IsNextLiked self.now from) }
        ensures none { IfNone result (HaveNoLikes self.now from buckets) }
    {
        self.counts.next_page(&self.splits, from)
    }

    /// Splits no page from now on. It has no like.
    pub fn clear(&mut self)
        requires { (page : ℕ) → likes_in self.old page ≡ 0 }
        ensures { self.new ≡ no_slice self.old.splits.factor (length self.old.counts) }
    {
        self.splits.clear();
    }
}
