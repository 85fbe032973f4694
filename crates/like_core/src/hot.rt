ghost use Rattle.std.specs.Prelude.{◌≡◌, ◌<◌};
ghost use Rattle.like_limits.specs.Limits.{hot_pages};
ghost use Rattle.like_core.specs.Functions.{has_bit};
ghost use Rattle.like_core.specs.Phase.{is_hot};

/// How many pages can be hot at a time. In a run they are among the first 64.
pub const HOT_PAGES: u32 = 64;

/// Whether a bit of a word is set.
#[inline(always)]
pub fn has_bit(word: u64, bit: u32) -> bool
    requires { bit < hot_pages }
    ensures { result ≡ has_bit word bit }
{
    word >> bit & 1 == 1
}

/// Whether a page is hot by a mask: it is one of the first 64, and its bit is set.
#[inline(always)]
pub fn is_hot(mask: u64, page: u32) -> bool
    ensures { result ≡ is_hot mask page }
{
    page < HOT_PAGES && has_bit(mask, page)
}
