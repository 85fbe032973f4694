ghost use Rattle.std.specs.Prelude.{◌≡◌, ◌<◌, ◌≤◌, All, length, slice_index, drop, take};
ghost use Rattle.like_limits.specs.Buckets.{AreApart, bucket, buckets};
ghost use Rattle.like_limits.specs.Limits.{hot_pages};
ghost use Rattle.like_choice.specs.Slots.{AreSlots, Chooses, new_slots, pages_in_use, would_use};

mod fill;
mod kept;
mod pages;
mod taken;

use self::fill::fill;
use self::kept::kept;
use self::pages::{has_page, marked_first, write_used};
use crate::bits::low_bits;
use like_limits::bucket;
use std::marker::Model;

/// The slots of a service: 64 places for the pages that are split in its split phases.
///
/// A marked page has one of the first slots for ever. The others are given anew by each choice. No two pages in slots
/// share a bucket, a place in the tables in which seats look pages up.
#[derive(Drop)]
pub struct Slots {
    factor: u32,
    pages: u32,
    marks: u32,
    slots: [u32; 64],
    bits: u64,
}

impl Model for Slots {
    ghost use Rattle.like_choice.specs.Slots.{AreSlots, SlotsView};

    ghost Value = { SlotsView };

    ghost view = { λ s. record {
      factor = s.factor;
      pages = s.pages;
      marks = s.marks;
      slots = s.slots;
      bits = s.bits;
    } };

    ghost invariant = { λ s. AreSlots (record {
      factor = s.factor;
      pages = s.pages;
      marks = s.marks;
      slots = s.slots;
      bits = s.bits;
    }) };
}

impl Slots {
    /// The slots of a service with these marked pages, which get the first ones. The factor tells each page's bucket.
    pub fn new(factor: u32, pages: u32, marks: &[u32]) -> Slots
        requires few { length marks.now ≤ hot_pages }
        requires there { All (λ page. page < pages) marks.now }
        requires apart { AreApart factor marks.now }
        ensures new { result ≡ new_slots factor pages marks.now }
        ensures lawful { AreSlots result }
    {
        let many = marks.len() as u32;
        Slots {
            factor,
            pages,
            marks: many,
            slots: marked_first(marks),
            bits: low_bits(many),
        }
    }

    /// Takes the pages that are proposed, the most popular first. A page that is in and is proposed again keeps its
    /// slot; those that aren't lose theirs, but for marked ones. Of the others it drops those that are no page of the
    /// service, whose bucket another page has, or for which no slot is left.
    pub fn choose(&mut self, proposed: &[u32])
        ensures chooses { Chooses self.old proposed.now self.new }
        ensures lawful { AreSlots self.new }
    {
        self.bits = kept(&self.slots, self.bits, self.marks, proposed);
        self.bits = fill(
            &mut self.slots,
            self.bits,
            self.factor,
            self.pages,
            proposed,
        );
    }

    /// The bucket of a page.
    pub fn bucket(&self, page: u32) -> u32
        ensures bucket { result ≡ bucket self.now.factor page }
        ensures below { result < buckets }
    {
        bucket(self.factor, page)
    }

    /// Whether a choice among these pages would leave a slot in use: a page is marked, or one of these is a page of the
    /// service.
    pub fn would_use(&self, proposed: &[u32]) -> bool
        ensures { result ≡ would_use self.now proposed.now }
    {
        self.marks > 0 || has_page(self.pages, proposed)
    }

    /// The page in each slot. It means nothing if the slot isn't in use.
    pub fn pages(&self) -> &[u32]
        ensures pages { result.now ≡ self.now.slots }
        ensures all { length self.now.slots ≡ hot_pages }
    {
        &self.slots
    }

    /// Writes the pages in the slots in use, in the order of their slots, as many as there is room for. The answer is
    /// how many were written.
    pub fn write_pages(&self, pages: &mut [u32]) -> usize
        ensures len { length pages.new ≡ length pages.old }
        ensures few { result ≤ length pages.old }
        ensures pages { take result pages.new ≡ take (length pages.old) (pages_in_use self.now) }
        ensures rest { drop result pages.new ≡ drop result pages.old }
    {
        write_used(&self.slots, self.bits, pages)
    }

    /// The page in a slot. It means nothing if the slot isn't in use.
    pub fn page(&self, slot: u32) -> u32
        requires { slot < hot_pages }
        ensures { result ≡ slice_index self.now.slots slot }
    {
        self.slots[slot as usize]
    }

    /// A bit for each slot: whether it is in use.
    pub fn bits(&self) -> u64
        ensures bits { result ≡ self.now.bits }
        ensures lawful { AreSlots self.now }
    {
        self.bits
    }
}
