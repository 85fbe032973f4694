ghost use Rattle.std.specs.Prelude.{◌≡◌, [], ◌∷◌, length};
ghost use Rattle.like_limits.specs.Limits.{hot_pages};
ghost use Rattle.like_choice.specs.Steps.{Fills};

use super::taken::is_taken;
use crate::bits::{first_clear, with_bit};

// Puts these pages into free slots, in order, but for those that can't have one.
pub(crate) fn fill(slots: &mut [u32], bits: u64, factor: u32, pages: u32, proposed: &[u32]) -> u64
    requires { length slots.old ≡ hot_pages }
    ensures { Fills factor pages proposed.now slots.old bits slots.new result }
{
    let mut bits = bits;
    for page in proposed {
        bits = put(slots, bits, factor, pages, *page);
    }
    bits
}

// Puts a page into a free slot, unless it is no page of the service or its bucket is taken.
fn put(slots: &mut [u32], bits: u64, factor: u32, pages: u32, page: u32) -> u64
    requires { length slots.old ≡ hot_pages }
    ensures { Fills factor pages (page ∷ []) slots.old bits slots.new result }
{
    if page >= pages || is_taken(slots, bits, factor, page) {
        return bits;
    }
    match first_clear(bits) {
        Some(slot) => {
            slots[slot as usize] = page;
            with_bit(bits, slot)
        }
        None => bits,
    }
}
