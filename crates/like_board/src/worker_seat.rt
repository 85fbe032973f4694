ghost use Rattle.std.specs.Prelude.{◌≡◌, ◌≢◌, ◌<◌, ◌≤◌, true, false, [], length, slice_index, IfNone, IfSome};
ghost use Rattle.std.specs.Arc.{arc_value};
ghost use Rattle.like_core.specs.declared.view.View.TheVariants.{Worker};
ghost use Rattle.like_limits.specs.Limits.{hot_pages, total_bound};
ghost use Rattle.like_core.specs.OpeningLimits.{has_slots, most_seats};
ghost use Rattle.like_core.specs.Slots.{IsChoice};
ghost use Rattle.like_core.specs.WorkerState.{turn_of};
ghost use Rattle.like_core.specs.views.Layout.{word_of};
ghost use Rattle.like_core.specs.PageSteps.{additions_among};
ghost use Rattle.like_board.specs.Known.{worker_view_of};

use crate::answer::put_answer;
use crate::board::Board;
use crate::layout::{MASK_WORD, PHASE_WORD, slot_place, word_of};
use crate::plays::{
    Acknowledging, Adding, Glancing, Looking, Reading, ReadingMask, ReadingSlot, ReadingSlots,
    Reporting, Retiring, Returning,
};
use crate::post::{BoardPost, PostAt, SharedPost};
use atomic_table::Seat;
use like_core::{Form, Sight, View};
use std::sync::Arc;

/// Gives a value back: it shows that any thread may take one of its type.
fn for_any_thread<T: Send>(value: T) -> T
    ensures { result ≡ value }
{
    value
}

/// A worker's right to step on a board. It borrows nothing, so any thread may take it.
#[derive(Drop)]
pub struct WorkerSeat {
    pub(crate) access: Seat<(), View>,
    pub(crate) number: u32,
    /// The form of its board's phase word.
    pub(crate) form: Form,
    /// Whether it has answered an odd phase last: 1 or 0. A worker that runs a phase has answered the one before.
    pub(crate) turn: u64,
    ghost is_worker: { access.me ≡ (Worker (worker_view_of access.me.0), []) },
    ghost numbered: { number ≡ (worker_view_of access.me.0).worker },
    ghost formed: { form ≡ (worker_view_of access.me.0).opening.limits.form },
    ghost few: { number < most_seats form },
    ghost turned: { turn ≡ turn_of (worker_view_of access.me.0).state },
    ghost sized: { access.table_id.words ≡ word_of (length (worker_view_of access.me.0).opening.marks) },
}

impl WorkerSeat {
    ghost use Rattle.like_core.specs.declared.worker_state.WorkerState.TheVariants.{Gone};
    ghost use Rattle.like_core.specs.WorkerState.{IsSightOf, RunsJoined, RunsSplit, SawEnding, SeesEndingStill, phase_of, seen};
    ghost use Rattle.like_core.specs.Post.{MayAdd, MayRead, MayGlance, number_of, looked_at, answered, retired, returned, added, has_read, has_glanced, with_mask, with_slot, slots_read, MayReadSlot, MayReadSlots};
    ghost use Rattle.like_core.specs.Additions.{added_to};
    ghost use Rattle.like_core.specs.core.Moves.{LetsReturn};
    ghost use Rattle.like_core.specs.views.Actions.{Looks, Acknowledges, Reports, Retires, ComesBack, Adds, Reads, Glances, ReadsMask};
    ghost use Rattle.like_board.specs.Seats.{board_id, seat_board, seat_view, post_board, post_view};

    /// Takes the seat to its board.
    pub fn at(self, board: &Board) -> BoardPost<'_>
        requires { seat_board self ≡ board_id board.now }
        ensures board { post_board result ≡ seat_board self }
        ensures view { post_view result ≡ seat_view self }
    {
        PostAt { board, seat: self }
    }

    /// Takes the seat to its board, which the post owns together with others.
    pub fn at_shared(self, board: Arc<Board>) -> SharedPost
        requires { seat_board self ≡ board_id (arc_value board) }
        ensures board { post_board result ≡ seat_board self }
        ensures view { post_view result ≡ seat_view self }
    {
        for_any_thread(PostAt { board, seat: self })
    }

    #[inline(always)]
    pub(crate) fn look(&mut self, board: &Board) -> Sight
        requires here { seat_board self.old ≡ board_id board.now }
        requires there { (seat_view self.old).state ≢ Gone }
        ensures board { seat_board self.new ≡ seat_board self.old }
        ensures view { seat_view self.new
            ≡ looked_at (seat_view self.old) result (number_of (seat_view self.new)) }
        ensures sight { IsSightOf (seat_view self.old).state result }
        ensures within { let v = seat_view self.old in
            phase_of (seen v.state result) ≤ v.opening.limits.last_phase }
        ensures ending { SeesEndingStill (seat_view self.old).state
            (seat_view self.old).last result }
        ensures event { Looks (seat_view self.old) result (seat_view self.new) }
    {
        let word = board
            .table
            .shared
            .load::<Looking>(&mut self.access, PHASE_WORD);
        self.form.sight_in(word, self.turn)
    }

    pub(crate) fn acknowledge(&mut self, board: &Board)
        requires here { seat_board self.old ≡ board_id board.now }
        requires runs { RunsJoined (seat_view self.old).state }
        requires ending { SawEnding (seat_view self.old).last }
        ensures board { seat_board self.new ≡ seat_board self.old }
        ensures view { seat_view self.new ≡ answered (seat_view self.old) }
        ensures event { Acknowledges (seat_view self.old) (seat_view self.new) }
    {
        let answer = self.form.answer(self.number);
        put_answer::<Acknowledging>(&mut self.access, board, self.form, answer);
        self.turn = 0;
    }

    pub(crate) fn report(&mut self, board: &Board)
        requires here { seat_board self.old ≡ board_id board.now }
        requires runs { RunsSplit (seat_view self.old).state }
        requires ending { SawEnding (seat_view self.old).last }
        ensures board { seat_board self.new ≡ seat_board self.old }
        ensures view { seat_view self.new ≡ answered (seat_view self.old) }
        ensures event { Reports (seat_view self.old) (seat_view self.new) }
    {
        let answer = self.form.answer(self.number);
        put_answer::<Reporting>(&mut self.access, board, self.form, answer);
        self.turn = 1;
    }

    pub(crate) fn retire(&mut self, board: &Board)
        requires here { seat_board self.old ≡ board_id board.now }
        requires runs { RunsJoined (seat_view self.old).state }
        ensures board { seat_board self.new ≡ seat_board self.old }
        ensures view { seat_view self.new ≡ retired (seat_view self.old) }
        ensures event { Retires (seat_view self.old) (seat_view self.new) }
    {
        let retirement = self.form.retirement(self.number);
        put_answer::<Retiring>(&mut self.access, board, self.form, retirement);
    }

    /// Takes the worker off the count of those gone, if the phase isn't ending and no other step changes the phase word
    /// meanwhile. Otherwise nothing is done, and it is `None`.
    pub(crate) fn come_back(&mut self, board: &Board) -> Option<u64>
        requires here { seat_board self.old ≡ board_id board.now }
        requires gone { (seat_view self.old).state ≡ Gone }
        requires lets { LetsReturn (seat_view self.old).opening.limits }
        ensures board { seat_board self.new ≡ seat_board self.old }
        ensures view { IfSome result
            (λ phase. seat_view self.new
            ≡ returned (seat_view self.old) phase (number_of (seat_view self.new))) }
        ensures within { IfSome result
            (λ phase. phase ≤ (seat_view self.old).opening.limits.last_phase) }
        ensures event { IfSome result (λ _. ComesBack (seat_view self.old) (seat_view self.new)) }
        ensures none { IfNone result (seat_view self.new ≡ seat_view self.old) }
    {
        let shared = &board.table.shared;
        let word = shared.peek(PHASE_WORD);
        let retirement = self.form.retirement(self.number);
        if word % 2 == 1 || word < retirement {
            return None;
        }
        let next = word - retirement;
        let found = shared.compare_exchange::<Returning>(&mut self.access, PHASE_WORD, word, next);
        if found != word {
            return None;
        }
        let phase = self.form.phase_in(word);
        self.turn = 1 - phase % 2;
        Some(phase)
    }

    #[inline(always)]
    pub(crate) fn add(&mut self, board: &Board, page: u32, n: u64) -> u64
        requires here { seat_board self.old ≡ board_id board.now }
        requires may { MayAdd (seat_view self.old) page n }
        ensures board { seat_board self.new ≡ seat_board self.old }
        ensures view { seat_view self.new
            ≡ added (seat_view self.old) page result n (number_of (seat_view self.new)) }
        ensures own { added_to page (additions_among (seat_view self.old).did) ≤ result }
        ensures event { Adds (seat_view self.old) page n result (seat_view self.new) }
    {
        let word = word_of(page);
        board
            .table
            .shared
            .fetch_add::<Adding>(&mut self.access, word, n)
    }

    #[inline(always)]
    pub(crate) fn read(&mut self, board: &Board, page: u32) -> u64
        requires here { seat_board self.old ≡ board_id board.now }
        requires may { MayRead (seat_view self.old) page }
        ensures board { seat_board self.new ≡ seat_board self.old }
        ensures view { seat_view self.new
            ≡ has_read (seat_view self.old) page result (number_of (seat_view self.new)) }
        ensures own { added_to page (additions_among (seat_view self.old).did) ≤ result }
        ensures event { Reads (seat_view self.old) page result (seat_view self.new) }
    {
        let word = word_of(page);
        board.table.shared.load::<Reading>(&mut self.access, word)
    }

    #[inline(always)]
    pub(crate) fn glance(&mut self, board: &Board, page: u32) -> u64
        requires here { seat_board self.old ≡ board_id board.now }
        requires may { MayGlance (seat_view self.old) page }
        ensures board { seat_board self.new ≡ seat_board self.old }
        ensures view { seat_view self.new
            ≡ has_glanced (seat_view self.old) page result (number_of (seat_view self.new)) }
        ensures own { added_to page (additions_among (seat_view self.old).did) ≤ result }
        ensures bounded { result < total_bound }
        ensures event { Glances (seat_view self.old) page result (seat_view self.new) }
    {
        let word = word_of(page);
        board.table.shared.load::<Glancing>(&mut self.access, word)
    }

    pub(crate) fn hot(&mut self, board: &Board) -> u64
        requires here { seat_board self.old ≡ board_id board.now }
        requires runs { RunsSplit (seat_view self.old).state }
        requires plain { has_slots (seat_view self.old).opening.limits ≡ false }
        ensures board { seat_board self.new ≡ seat_board self.old }
        ensures view { seat_view self.new ≡ with_mask (seat_view self.old) result }
        ensures event { ReadsMask (seat_view self.old) result (seat_view self.new) }
    {
        board
            .table
            .shared
            .load::<ReadingMask>(&mut self.access, MASK_WORD)
    }

    /// The page that a slot holds in the split phase that the worker runs.
    pub(crate) fn slot(&mut self, board: &Board, slot: u32) -> u32
        requires here { seat_board self.old ≡ board_id board.now }
        requires may { MayReadSlot (seat_view self.old) slot }
        ensures board { seat_board self.new ≡ seat_board self.old }
        ensures view { seat_view self.new ≡ with_slot (seat_view self.old) slot result }
    {
        let word = slot_place(slot);
        board
            .table
            .shared
            .load::<ReadingSlot>(&mut self.access, word) as u32
    }

    /// The pages that the slots hold, each by its slot.
    pub(crate) fn read_slots(&mut self, board: &Board, pages: &mut [u32])
        requires here { seat_board self.old ≡ board_id board.now }
        requires split { RunsSplit (seat_view self.old).state }
        requires slotted { has_slots (seat_view self.old).opening.limits ≡ true }
        requires places { length pages.old ≡ hot_pages }
        ensures board { seat_board self.new ≡ seat_board self.old }
        ensures view { seat_view self.new ≡ record (seat_view self.old) { slots = pages.new } }
        ensures places { length pages.new ≡ hot_pages }
    {
        for (slot, page) in pages.iter_mut().enumerate() {
            *page = self.slot(board, slot as u32);
        }
    }

    /// Which slots are in use, by bits, once the worker has read them all.
    pub(crate) fn hot_slots(&mut self, board: &Board) -> u64
        requires here { seat_board self.old ≡ board_id board.now }
        requires may { MayReadSlots (seat_view self.old) }
        ensures board { seat_board self.new ≡ seat_board self.old }
        ensures view { let v = seat_view self.old in
            seat_view self.new ≡ with_mask v (slots_read v result) }
        ensures choice { let v = seat_view self.old in
            IsChoice v.opening.factor (length v.opening.marks) (slice_index v.slots) result }
        ensures event { let v = seat_view self.old in
            ReadsMask v (slots_read v result) (seat_view self.new) }
    {
        board
            .table
            .shared
            .load::<ReadingSlots>(&mut self.access, MASK_WORD)
    }
}
