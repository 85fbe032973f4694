ghost use Rattle.std.specs.Prelude.{◌≡◌, ◌+◌, ◌<◌, List, ℕ, replicate};
ghost use Rattle.like_limits.specs.Buckets.{buckets};

use crate::buckets::BUCKETS;
use crate::counts::Counts;
use crate::split_pages::SplitPages;
use std::marker::Model;

/// A number for each bucket, whatever the number of pages. A like writes that number and nothing else.
#[derive(Drop)]
pub struct BucketCounts {
    counts: [u64; BUCKETS],
}

impl Model for BucketCounts {
    ghost use Rattle.std.specs.Prelude.{List, ℕ};

    ghost Value = { List ℕ };

    ghost view = { λ c. c.counts };
}

impl BucketCounts {
    /// No like.
    pub fn new() -> BucketCounts
        ensures { result ≡ replicate buckets 0 }
    {
        BucketCounts {
            counts: [0; BUCKETS],
        }
    }
}

impl Counts for BucketCounts {
    ghost view = { λ c. c };

    #[inline(always)]
    fn add_at(&mut self, bucket: u32) {
        self.counts[bucket as usize] += 1;
    }

    #[inline(always)]
    fn likes_at(&self, bucket: u32) -> u64 {
        self.counts[bucket as usize]
    }

    fn take_at(&mut self, bucket: u32) -> u64 {
        let likes = self.counts[bucket as usize];
        self.counts[bucket as usize] = 0;
        likes
    }

    // It goes over the split pages.
    fn next_page(&self, splits: &SplitPages, from: u32) -> Option<u32> {
        let mut place = from;
        while let Some(page) = splits.next(place) {
            let bucket = splits.bucket(page);
            if self.counts[bucket as usize] != 0 {
                return Some(page);
            }
            place = bucket + 1;
        }
        None
    }
}
