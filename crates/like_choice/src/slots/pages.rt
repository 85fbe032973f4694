ghost use Rattle.std.specs.Prelude.{◌≡◌, ◌-◌, ◌≤◌, ◌++◌, drop, length, nat_lt, replicate, take};
ghost use Rattle.std.specs.List.{list_any};
ghost use Rattle.like_limits.specs.Limits.{hot_pages};
ghost use Rattle.like_choice.specs.Slots.{pages_below};

use like_core::has_bit;

// The pages of the slots at the start: the marked ones, and zeros.
pub(crate) fn marked_first(marks: &[u32]) -> [u32; 64]
    requires { length marks.now ≤ hot_pages }
    ensures { result ≡ marks.now ++ replicate (hot_pages - length marks.now) 0 }
{
    let mut slots = [0; 64];
    write_first(&mut slots, marks);
    slots
}

// Writes these pages over the first ones.
fn write_first(slots: &mut [u32], pages: &[u32])
    requires { length pages.now ≤ length slots.old }
    ensures { slots.new ≡ pages.now ++ drop (length pages.now) slots.old }
{
    slots[..pages.len()].copy_from_slice(pages);
}

// Whether one of these is a page of a service with this many.
pub(crate) fn has_page(pages: u32, proposed: &[u32]) -> bool
    ensures { result ≡ list_any (λ page. nat_lt page pages) proposed.now }
{
    proposed.iter().any(|page| *page < pages)
}

// Writes the pages of the slots in use, in order, as many as there is room for.
pub(crate) fn write_used(slots: &[u32], bits: u64, pages: &mut [u32]) -> usize
    requires { length slots.now ≡ hot_pages }
    ensures len { length pages.new ≡ length pages.old }
    ensures few { result ≤ length pages.old }
    ensures pages { take result pages.new
        ≡ take (length pages.old) (pages_below slots.now bits hot_pages) }
    ensures rest { drop result pages.new ≡ drop result pages.old }
{
    let mut many = 0;
    for slot in 0..64u32 {
        if has_bit(bits, slot) && many < pages.len() {
            pages[many] = slots[slot as usize];
            many += 1;
        }
    }
    many
}
