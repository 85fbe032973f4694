//! The limits of the service, as numbers for contracts (specs/Limits.antt). The constants of the code are with the code
//! that tests them, and its contracts tie them to these. What two crates use is here: the most workers, the factor of a
//! run, and the bucket of a page.
#![tactic(auto)]

ghost use Rattle.std.specs.Prelude.{◌≡◌};
ghost use Rattle.like_limits.specs.Buckets.{bucket};

/// The most workers of a run.
pub const MAX_WORKERS: u32 = 16;

/// The factor of a run: with it, page i has bucket i.
pub const RUN_FACTOR: u32 = 1 << 22;

/// The bucket of a page, by a factor: the ten high bits of their product. The factors that are tried begin with that of
/// Fibonacci hashing (Knuth, "The Art of Computer Programming", volume 3, section 6.4).
#[inline(always)]
pub fn bucket(factor: u32, page: u32) -> u32
    ensures { result ≡ bucket factor page }
{
    page.wrapping_mul(factor) >> 22
}
