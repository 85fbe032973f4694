ghost use Rattle.std.specs.Prelude.{◌≡◌, ◌<◌, ◌==◌, ◌&&◌, length, slice_index, MatchBool};
ghost use Rattle.like_limits.specs.Buckets.{bucket};
ghost use Rattle.like_limits.specs.Limits.{hot_pages};
ghost use Rattle.like_core.specs.Functions.{has_bit};
ghost use Rattle.like_choice.specs.Slots.{IsTaken};

use like_core::has_bit;
use like_limits::bucket;

// Whether the page of a slot in use has the same bucket.
pub(crate) fn is_taken(slots: &[u32], bits: u64, factor: u32, page: u32) -> bool
    requires { length slots.now ≡ hot_pages }
    ensures { MatchBool result (IsTaken factor slots.now bits page)
        (¬ (IsTaken factor slots.now bits page)) }
{
    let bucket = bucket(factor, page);
    for slot in 0..64u32 {
        if has_bucket(slots, bits, factor, slot, bucket) {
            return true;
        }
    }
    false
}

// Whether a slot is in use and its page has this bucket.
fn has_bucket(slots: &[u32], bits: u64, factor: u32, slot: u32, wanted: u32) -> bool
    requires all { length slots.now ≡ hot_pages }
    requires there { slot < hot_pages }
    ensures { result ≡ (has_bit bits slot &&
        (bucket factor (slice_index slots.now slot) == wanted)) }
{
    let page = slots[slot as usize];
    has_bit(bits, slot) && bucket(factor, page) == wanted
}
