ghost use Rattle.std.specs.Prelude.{◌≡◌, ◌^◌, ◌<◌, ◌≤◌, ℕ, IfNone, IfOk, IfSome, length, slice_index};
ghost use Rattle.like_limits.specs.Buckets.{bucket, buckets};
ghost use Rattle.like_tables.specs.SplitPages.{AreSplitPages, HoldNone, IsNextSplit, MayPut, is_split, none_split, page_in, with_page};
ghost use Rattle.like_tables.specs.Tags.{empty_tag};

use crate::buckets::BUCKETS;
use crate::page_set::PageSet;
use like_limits::bucket;
use std::alloc::{AllocError, Global};
use std::marker::Model;

/// The pages that are split in the phase that a worker runs, in a table of 1,024 buckets.
///
/// A page is split if its bucket holds it. So one comparison tells that, and that the page exists.
#[derive(Drop)]
pub struct SplitPages {
    factor: u32,
    // By bucket: the page that it holds. An empty one has a number that belongs in another.
    tags: [u32; BUCKETS],
    // The buckets that hold a page.
    used: PageSet,
}

impl Model for SplitPages {
    ghost use Rattle.like_tables.specs.SplitPages.{SplitPages};
    ghost use Rattle.like_tables.specs.Tags.{AreTags, table_by};

    ghost Value = { SplitPages };

    ghost view = { λ s. table_by s.factor s.tags };

    ghost invariant = { λ s. AreTags s.factor s.tags s.used };
}

// The number in a bucket that is empty: page 0 is in bucket 0, and page 1 is not.
fn empty_tag(bucket: u32) -> u32
    ensures { result ≡ empty_tag bucket }
{
    if bucket == 0 { 1 } else { 0 }
}

// The numbers of buckets that are all empty.
fn empty_tags() -> [u32; BUCKETS]
    ensures all { length result ≡ buckets }
    ensures each { (b : ℕ) → b < buckets → slice_index result b ≡ empty_tag b }
{
    let mut tags = [0; BUCKETS];
    for bucket in 0..BUCKETS {
        tags[bucket] = empty_tag(bucket as u32);
    }
    tags
}

impl SplitPages {
    /// A table in which no page is split. With the factor page 1 is not in bucket 0.
    pub fn new(alloc: Global, factor: u32) -> Result<Self, AllocError>
        requires { 2 ^ 22 ≤ factor }
        ensures { IfOk result (λ splits. splits ≡ none_split factor) }
    {
        Ok(SplitPages {
            factor,
            tags: empty_tags(),
            used: PageSet::new(alloc, BUCKETS as u32)?,
        })
    }

    /// The bucket of a page.
    #[inline(always)]
    pub fn bucket(&self, page: u32) -> u32
        ensures bucket { result ≡ bucket self.now.factor page }
        ensures table { AreSplitPages self.now }
    {
        bucket(self.factor, page)
    }

    /// Whether the page is split.
    #[inline(always)]
    pub fn has(&self, page: u32) -> bool
        ensures { result ≡ is_split self.now page }
    {
        let bucket = self.bucket(page);
        self.tags[bucket as usize] == page
    }

    /// The page that a bucket holds, if any.
    pub fn page_in(&self, place: u32) -> Option<u32>
        requires { place < buckets }
        ensures { result ≡ page_in self.now place }
    {
        let page = self.tags[place as usize];
        if bucket(self.factor, page) == place {
            Some(page)
        } else {
            None
        }
    }

    /// The page in the first bucket from `from` on that holds a page. A word tells of 64 buckets at once.
    pub fn next(&self, from: u32) -> Option<u32>
        ensures next { IfSome result (IsNextSplit self.now from) }
        ensures none { IfNone result (HoldNone self.now from buckets) }
    {
        let bucket = self.used.next(from)?;
        Some(self.tags[bucket as usize])
    }

    /// Splits the page. No other page may be in its bucket.
    pub fn put(&mut self, page: u32)
        requires { MayPut self.old page }
        ensures { self.new ≡ with_page self.old page }
    {
        let bucket = bucket(self.factor, page);
        self.tags[bucket as usize] = page;
        self.used.insert(bucket);
    }

    /// Splits no page from now on.
    pub fn clear(&mut self)
        ensures { self.new ≡ none_split self.old.factor }
    {
        let mut from = 0;
        while let Some(bucket) = self.used.next(from) {
            self.used.remove(bucket);
            self.tags[bucket as usize] = empty_tag(bucket);
            from = bucket + 1;
        }
    }
}
