ghost use Rattle.std.specs.Prelude.{◌≡◌, ◌^◌, ◌<◌, ◌≤◌, ◌↔◌, true, [], length, IsSome, IsTrue};
ghost use Rattle.like_core.specs.declared.view.View.TheVariants.{Coord};
ghost use Rattle.like_core.specs.OpeningLimits.{AreLimits};
ghost use Rattle.like_core.specs.word.Forms.{form_of};
ghost use Rattle.like_core.specs.views.Layout.{word_of};
ghost use Rattle.like_board.specs.Known.{coord_view_of};

use crate::board::Board;
use crate::layout::{MASK_WORD, PHASE_WORD, slot_place, word_of};
use crate::plays::{
    Announcing, Counting, Publishing, PublishingSlots, Putting, Releasing, Surveying,
};
use atomic_table::Seat;
use like_core::{CoordSight, Limits, View};

/// The coordinator's right to step on a board.
#[derive(Drop)]
pub struct CoordSeat {
    pub(crate) access: Seat<(), View>,
    /// The phase word that it saw last.
    pub(crate) seen: u64,
    /// How many workers there are.
    pub(crate) workers: u32,
    /// The present phase.
    pub(crate) phase: u64,
    /// The limits of its board.
    pub(crate) limits: Limits,
    ghost is_coord: { access.me ≡ (Coord (coord_view_of access.me.0), []) },
    ghost saw: { seen ≡ (coord_view_of access.me.0).word },
    ghost told: { IsSome (coord_view_of access.me.0).last → (form_of limits.form).phase_in seen ≤ limits.last_phase },
    ghost all: { workers ≡ (coord_view_of access.me.0).opening.workers },
    ghost few: { workers ≤ limits.seats },
    ghost sized: { access.table_id.words ≡ word_of (length (coord_view_of access.me.0).opening.counts) },
    ghost few_pages: { length (coord_view_of access.me.0).opening.counts < 2 ^ 32 },
    ghost present: { phase ≡ (coord_view_of access.me.0).phase },
    ghost within: { let c = coord_view_of access.me.0 in IsSome c.last → c.phase ≤ limits.last_phase },
    ghost made_all: { (coord_view_of access.me.0).made ≡ (coord_view_of access.me.0).opening.workers },
    ghost none_back: { (coord_view_of access.me.0).joined ≡ [] },
    ghost limited: { limits ≡ (coord_view_of access.me.0).opening.limits },
    ghost lawful: { AreLimits limits },
}

impl CoordSeat {
    ghost use Rattle.like_core.specs.Phase.{IsSplit};
    ghost use Rattle.like_core.specs.views.Views.{looked_coord, announced_coord, counted_coord, published_coord, slotted_coord, slots_put, released_coord, MayAnnounce, MayCount, MayPublish, MayPut, MayPublishSlots, MayRelease};
    ghost use Rattle.like_core.specs.views.Actions.{Surveys, Announces, Counts, Releases};
    ghost use Rattle.like_core.specs.views.Shows.{IsKnown};
    ghost use Rattle.like_board.specs.Seats.{board_id, coord_board, coord_view};

    /// The present phase.
    pub fn phase(&self) -> u64
        ensures { result ≡ (coord_view self.now).phase }
    {
        self.phase
    }

    /// Whether the present phase is the last, whose end can't be announced.
    pub fn is_last(&self) -> bool
        ensures { let c = coord_view self.now in
            IsTrue result ↔ (c.phase ≡ c.opening.limits.last_phase) }
    {
        self.phase == self.limits.last_phase
    }

    /// Looks at the phase word. Once it showed all workers in, it shows that until the release: in a run from any look
    /// on, in a service from one that showed the phase ending.
    pub fn look(&mut self, board: &Board) -> CoordSight
        requires { coord_board self.old ≡ board_id board.now }
        ensures board { coord_board self.new ≡ coord_board self.old }
        ensures view { coord_view self.new
            ≡ looked_coord (coord_view self.old) (coord_view self.new).word result }
        ensures number { let c = coord_view self.old in result.number ≡ c.phase }
        ensures within { let c = coord_view self.old in c.phase ≤ c.opening.limits.last_phase }
        ensures ending { result.ending ≡ (coord_view self.old).ending }
        ensures all_in { (coord_view self.old).all_in ≡ true → result.all_in ≡ true }
        ensures all_gone { let c = coord_view self.old in
            IsSplit c.phase → result.all_gone ≡ true → c.gone ≡ true }
        ensures known { IsKnown (coord_view self.old).opening (Coord (coord_view self.new)) }
        ensures event { Surveys (coord_view self.old) result (coord_view self.new) }
    {
        let word = board
            .table
            .shared
            .load::<Surveying>(&mut self.access, PHASE_WORD);
        self.seen = word;
        self.limits.form.coord_sight_in(word, self.workers)
    }

    /// Announces the end of the phase.
    pub fn announce(&mut self, board: &Board)
        requires here { coord_board self.old ≡ board_id board.now }
        requires running { MayAnnounce (coord_view self.old) }
        ensures board { coord_board self.new ≡ coord_board self.old }
        ensures view { coord_view self.new ≡ announced_coord (coord_view self.old) }
        ensures event { Announces (coord_view self.old) (coord_view self.new) }
    {
        board
            .table
            .shared
            .fetch_add::<Announcing>(&mut self.access, PHASE_WORD, 1);
    }

    /// A page's count at the end of a joined phase: its count at the start and all that was added up to that phase.
    pub fn count(&mut self, board: &Board, page: u32) -> u64
        requires here { coord_board self.old ≡ board_id board.now }
        requires may { MayCount (coord_view self.old) page }
        ensures board { coord_board self.new ≡ coord_board self.old }
        ensures view { coord_view self.new ≡ counted_coord (coord_view self.old) page result }
        ensures known { IsKnown (coord_view self.old).opening (Coord (coord_view self.new)) }
        ensures event { Counts (coord_view self.old) page result (coord_view self.new) }
    {
        let word = word_of(page);
        board.table.shared.load::<Counting>(&mut self.access, word)
    }

    /// Stores the mask of hot pages with which the split phase that comes next is to be released, on a board without
    /// slots. It is no event of the core: the release is.
    pub fn publish(&mut self, board: &Board, mask: u64)
        requires here { coord_board self.old ≡ board_id board.now }
        requires may { MayPublish (coord_view self.old) mask }
        ensures board { coord_board self.new ≡ coord_board self.old }
        ensures view { coord_view self.new ≡ published_coord (coord_view self.old) mask }
    {
        board
            .table
            .shared
            .store::<Publishing>(&mut self.access, MASK_WORD, mask);
    }

    /// Puts a page into a slot, while all are in. It is no event of the core. What was published before must be
    /// published again.
    pub fn put(&mut self, board: &Board, slot: u32, page: u32)
        requires here { coord_board self.old ≡ board_id board.now }
        requires may { MayPut (coord_view self.old) slot page }
        ensures board { coord_board self.new ≡ coord_board self.old }
        ensures view { coord_view self.new ≡ slotted_coord (coord_view self.old) slot page }
    {
        let word = slot_place(slot);
        board
            .table
            .shared
            .store::<Putting>(&mut self.access, word, page as u64);
    }

    /// Stores which slots are in use, by bits: their pages are hot in the split phase that comes next.
    pub fn publish_slots(&mut self, board: &Board, bits: u64)
        requires here { coord_board self.old ≡ board_id board.now }
        requires may { MayPublishSlots (coord_view self.old) bits }
        ensures board { coord_board self.new ≡ coord_board self.old }
        ensures view { let c = coord_view self.old in
            coord_view self.new ≡ published_coord c (slots_put c bits) }
    {
        board
            .table
            .shared
            .store::<PublishingSlots>(&mut self.access, MASK_WORD, bits);
    }

    /// Releases the next phase, a split one with the mask that was published last.
    pub fn release(&mut self, board: &Board)
        requires here { coord_board self.old ≡ board_id board.now }
        requires may { MayRelease (coord_view self.old) }
        ensures board { coord_board self.new ≡ coord_board self.old }
        ensures view { coord_view self.new ≡ released_coord (coord_view self.old) }
        ensures event { Releases (coord_view self.old) (coord_view self.new) }
    {
        let next = self.limits.form.released(self.seen);
        board
            .table
            .shared
            .store::<Releasing>(&mut self.access, PHASE_WORD, next);
        self.phase += 1;
    }
}
