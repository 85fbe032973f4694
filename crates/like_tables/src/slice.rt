ghost use Rattle.std.specs.Prelude.{◌≡◌, ◌+◌, ◌^◌, ◌<◌, ◌≤◌, ◌↔◌, ℕ, List, All, IfNone, IfOk, IfSome, IsTrue, length, replicate, slice_index, slice_set, sum};
ghost use Rattle.like_tables.specs.Liked.{AreUnliked, IsNextLiked};

use crate::counts::Counts;
use crate::page_set::PageSet;
use crate::split_pages::SplitPages;
use std::alloc::{AllocError, Global};
use std::marker::Model;

/// A worker's slice of the split pages: how many likes of each page it has counted and not merged yet.
///
/// A like of a split page goes here in a split phase, in place of the page's word. It is a number per page, by page.
#[derive(Drop)]
pub struct Slice {
    counts: Vec<u64>,
    // The pages whose number is not 0.
    liked: PageSet,
}

impl Model for Slice {
    ghost use Rattle.std.specs.Prelude.{ℕ, List};
    ghost use Rattle.like_tables.specs.Slice.{AreLikedPages};

    ghost Value = { List ℕ };

    ghost view = { λ s. s.counts.items };

    ghost invariant = { λ s. AreLikedPages s.counts.items s.liked };
}

impl Slice {
    /// A slice without a like. Its room, a number for each page, is made here.
    pub fn new(alloc: Global, pages: u32) -> Result<Self, AllocError>
        ensures { IfOk result (λ slice. slice ≡ replicate pages 0) }
    {
        Ok(Slice {
            counts: vec![in alloc; 0; pages as usize]?,
            liked: PageSet::new(alloc, pages)?,
        })
    }

    /// Counts a like of the page.
    #[inline(always)]
    pub fn add(&mut self, page: u32)
        requires there { page < length self.old }
        requires below { sum self.old + 1 < 2 ^ 63 }
        ensures counted { self.new ≡ slice_set self.old page (slice_index self.old page + 1) }
        ensures total { sum self.new ≡ sum self.old + 1 }
    {
        let likes = &mut self.counts[page as usize];
        if *likes == 0 {
            self.liked.insert(page);
        }
        *likes += 1;
    }

    /// How many likes it has of the page.
    #[inline(always)]
    pub fn likes(&self, page: u32) -> u64
        requires { page < length self.now }
        ensures { result ≡ slice_index self.now page }
    {
        let place = page as usize;
        self.counts[place]
    }

    /// Gives the page's number and sets it to 0.
    pub fn take(&mut self, page: u32) -> u64
        requires { page < length self.old }
        ensures taken { result ≡ slice_index self.old page }
        ensures emptied { self.new ≡ slice_set self.old page 0 }
        ensures total { sum self.new + result ≡ sum self.old }
    {
        let likes = self.counts[page as usize];
        self.counts[page as usize] = 0;
        self.liked.remove(page);
        likes
    }

    /// The least page at or after `from` whose number is not 0, if there is one. A word tells of 64 pages at once.
    pub fn next(&self, from: u32) -> Option<u32>
        requires { from ≤ length self.now }
        ensures next { IfSome result (IsNextLiked self.now from) }
        ensures none { IfNone result (AreUnliked self.now from (length self.now)) }
    {
        self.liked.next(from)
    }

    /// How many likes it has of all pages.
    pub fn total(&self) -> u64
        ensures { result ≡ sum self.now }
    {
        let mut total = 0;
        for likes in &self.counts {
            total += likes;
        }
        total
    }

    /// Whether it has no like of any page.
    pub fn is_empty(&self) -> bool
        ensures total { IsTrue result ↔ (sum self.now ≡ 0) }
        ensures pages { IsTrue result ↔ All (λ likes. likes ≡ 0) self.now }
    {
        self.next(0).is_none()
    }
}

// In a run a page's bucket is its number.
impl Counts for Slice {
    ghost view = { λ s. s };

    #[inline(always)]
    fn add_at(&mut self, bucket: u32) {
        self.add(bucket);
    }

    #[inline(always)]
    fn likes_at(&self, bucket: u32) -> u64 {
        self.likes(bucket)
    }

    fn take_at(&mut self, bucket: u32) -> u64 {
        self.take(bucket)
    }

    // It goes by the bits that tell which numbers are not 0.
    fn next_page(&self, splits: &SplitPages, from: u32) -> Option<u32> {
        if from as usize > self.counts.len() {
            return None;
        }
        let bucket = self.next(from)?;
        splits.page_in(bucket)
    }
}
