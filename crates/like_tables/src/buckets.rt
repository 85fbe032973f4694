ghost use Rattle.std.specs.Prelude.{◌↔◌, IfNone, IfSome, IsTrue};
ghost use Rattle.like_limits.specs.Buckets.{AreApart};
ghost use Rattle.like_tables.specs.Factors.{IsFirstApart, NoneParts, max_tries};

use like_limits::bucket;

/// How many buckets a seat's table has.
pub const BUCKETS: usize = 1024;

// How many factors are tried; the first of them, 2^32 divided by the golden ratio; and how much greater each is than
// the one before. All are odd.
const MAX_TRIES: u32 = 1_000;

const FIRST_FACTOR: u32 = 2_654_435_769;

const FACTOR_STEP: u32 = 1_640_534;

/// The first of a thousand odd factors with which no two of these pages share a bucket, if there is one. About one
/// factor in seven separates 64 pages.
pub fn factor_for(pages: &[u32]) -> Option<u32>
    ensures first { IfSome result (IsFirstApart pages.now) }
    ensures none { IfNone result (NoneParts pages.now max_tries) }
{
    for tries in 0..MAX_TRIES {
        let factor = FIRST_FACTOR + FACTOR_STEP * tries;
        if are_apart(factor, pages) {
            return Some(factor);
        }
    }
    None
}

// Whether no two of the pages share a bucket.
fn are_apart(factor: u32, pages: &[u32]) -> bool
    ensures { IsTrue result ↔ AreApart factor pages.now }
{
    let mut taken = [false; BUCKETS];
    for page in pages {
        let bucket = bucket(factor, *page) as usize;
        if taken[bucket] {
            return false;
        }
        taken[bucket] = true;
    }
    true
}
