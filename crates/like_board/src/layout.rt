//! Where the words of a board are in its table.
ghost use Rattle.std.specs.Prelude.{◌≡◌, ℕ, ◌^◌, ◌<◌, length, slice_index, IfOk};
ghost use Rattle.like_limits.specs.Limits.{hot_pages};
ghost use Rattle.like_core.specs.views.Layout.{mask_place, phase_place, slot_in, slot_place, word_of};

use std::alloc::{AllocError, Global};

/// The place of the phase word.
pub(crate) const PHASE_WORD: usize = 0;

/// The place of the mask word.
pub(crate) const MASK_WORD: usize = 16;

/// The place of the first slot's word. Those of the others follow.
const FIRST_SLOT: usize = 32;

/// How many places a word has to itself, against false sharing: 128 bytes.
const STRIDE: usize = 16;

/// How many such strides come before the pages' words: for the phase word, the mask word and 64 slots.
const BEFORE: usize = 6;

/// How many pages' words have a stride each: the first ones.
const APART: u32 = 64;

/// The place of a page's word.
#[inline(always)]
pub(crate) fn word_of(page: u32) -> usize
    ensures { result ≡ word_of page }
{
    if page < APART {
        STRIDE * (page as usize + BEFORE)
    } else {
        STRIDE * (APART as usize + BEFORE) + (page - APART) as usize
    }
}

/// The place of a slot's word.
pub(crate) fn slot_place(slot: u32) -> usize
    ensures { result ≡ slot_place slot }
{
    FIRST_SLOT + slot as usize
}

/// The words of a new board: the phase word and the pages' counts at their places, and 0 at all others.
pub(crate) fn first_words(
    alloc: Global,
    phase_word: u64,
    counts: &[u64],
) -> Result<Vec<u64>, AllocError>
    requires few_pages { length counts.now < 2 ^ 32 }
    ensures len { IfOk result (λ words. length words.items ≡ word_of (length counts.now)) }
    ensures phase_word { IfOk result (λ words. slice_index words.items phase_place ≡ phase_word) }
    ensures mask_word { IfOk result (λ words. slice_index words.items mask_place ≡ 0) }
    ensures slots { IfOk result (λ words. (slot : ℕ) → slot < hot_pages
        → slot_in words.items slot ≡ 0) }
    ensures counts { IfOk result (λ words. (page : ℕ) → page < length counts.now →
        slice_index words.items (word_of page) ≡ slice_index counts.now page) }
{
    let mut words = vec![in alloc; 0; word_of(counts.len() as u32)]?;
    words[PHASE_WORD] = phase_word;
    for (page, count) in counts.iter().enumerate() {
        words[word_of(page as u32)] = *count;
    }
    Ok(words)
}
