ghost use Rattle.std.specs.Prelude.{◌≡◌, ℕ, ◌<◌, ◌&&◌, nat_lt, length};
ghost use Rattle.like_limits.specs.Limits.{hot_pages};
ghost use Rattle.like_core.specs.Functions.{has_bit};
ghost use Rattle.like_choice.specs.Steps.{stays};

use crate::bits::with_bit;
use like_core::has_bit;

// The bits of the slots that stay in use.
pub(crate) fn kept(slots: &[u32], bits: u64, marks: u32, proposed: &[u32]) -> u64
    requires { length slots.now ≡ hot_pages }
    ensures { (slot : ℕ) → has_bit result slot
        ≡ (nat_lt slot hot_pages && stays slots.now bits marks proposed.now slot) }
{
    let mut kept = 0;
    for slot in 0..64u32 {
        if stays_in(slots, bits, marks, proposed, slot) {
            kept = with_bit(kept, slot);
        }
    }
    kept
}

// Whether a slot stays in use: it is a marked page's, or its page is proposed again.
fn stays_in(slots: &[u32], bits: u64, marks: u32, proposed: &[u32], slot: u32) -> bool
    requires all { length slots.now ≡ hot_pages }
    requires there { slot < hot_pages }
    ensures { result ≡ stays slots.now bits marks proposed.now slot }
{
    let page = slots[slot as usize];
    has_bit(bits, slot) && (slot < marks || proposed.contains(&page))
}
