ghost use Rattle.std.specs.Prelude.{◌≡◌, true, length, slice_index};
ghost use Rattle.like_limits.specs.Limits.{hot_pages};
ghost use Rattle.like_core.specs.OpeningLimits.{has_slots};
ghost use Rattle.like_core.specs.Slots.{IsChoice, mask_of_slots};
ghost use Rattle.like_core.specs.WorkerState.{RunsSplit};
ghost use Rattle.like_core.specs.Post.{pages_of, with_mask};
ghost use Rattle.like_core.specs.views.Actions.{ReadsMask};

use crate::post::Post;

/// A post of a service, where the hot pages of a split phase are those in 64 slots.
pub trait SlotPost: Post {
    /// Reads the slots of the split phase that the worker runs: the page that each holds, and as a word which of them are
    /// in use, by bits.
    fn slots(&mut self, pages: &mut [u32]) -> u64
        requires split { RunsSplit (Self.view self.old).state }
        requires slotted { has_slots (Self.view self.old).opening.limits ≡ true }
        requires places { length pages.old ≡ hot_pages }
        ensures board { Self.board self.new ≡ Self.board self.old }
        ensures view { Self.view self.new
            ≡ with_mask (Self.view self.old) (mask_of_slots (slice_index pages.new) result hot_pages) }
        ensures event { ReadsMask (record (Self.view self.old) { slots = pages.new })
            (mask_of_slots (slice_index pages.new) result hot_pages) (Self.view self.new) }
        ensures choice { IsChoice (Self.view self.old).opening.factor (pages_of (Self.view self.old))
            (slice_index pages.new) result }
        ensures places { length pages.new ≡ hot_pages };
}
