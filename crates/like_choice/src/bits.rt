ghost use Rattle.std.specs.Prelude.{◌≡◌, ◌==◌, ◌<◌, ◌^◌, ◌-◌, ◌≤◌, ◌||◌, ℕ, false, IfNone, IfSome};
ghost use Rattle.like_core.specs.Functions.{has_bit};
ghost use Rattle.like_choice.specs.Slots.{IsFull};

// The bits with one more set.
pub(crate) fn with_bit(bits: u64, slot: u32) -> u64
    requires { slot < 64 }
    ensures { (i : ℕ) → has_bit result i ≡ (has_bit bits i || (i == slot)) }
{
    bits | 1 << slot
}

// The lowest bit that isn't set, if there is one.
pub(crate) fn first_clear(bits: u64) -> Option<u32>
    ensures some { IfSome result (λ slot. (slot < 64) × (has_bit bits slot ≡ false)) }
    ensures none { IfNone result (IsFull bits) }
{
    if bits == u64::MAX {
        None
    } else {
        Some(bits.trailing_ones())
    }
}

// The lowest `many` bits.
pub(crate) fn low_bits(many: u32) -> u64
    requires { many ≤ 64 }
    ensures { result ≡ 2 ^ many - 1 }
{
    if many == 64 {
        u64::MAX
    } else {
        (1 << many) - 1
    }
}
