ghost use Rattle.std.specs.Prelude.{◌≡◌, ◌^◌, ℕ, List, ◌≤◌, ◌↔◌, [], IfOk, IsTrue, length, slice_index};
ghost use Rattle.like_core.specs.WorkerState.{phase_of};
ghost use Rattle.like_core.specs.declared.view.WorkerSeatView.{WorkerSeatView};
ghost use Rattle.like_core.specs.declared.worker_state.WorkerState.TheVariants.{Gone, Runs};
ghost use Rattle.like_limits.specs.Buckets.{buckets, run_factor};
ghost use Rattle.like_limits.specs.Limits.{hot_pages, max_stash};
ghost use Rattle.like_seat.specs.Kept.{AreNew, AreSlotsApart, Enters, HaveSlotsNumbers, IsFilled, IsFilledBySlots, IsKept, IsNewOfRun, IsOfRun, IsOfService, IsUnsplit, MayEnter, is_split_in_run, view_of};
ghost use Rattle.like_seat.specs.Steps.{IsNewStation};
ghost use Rattle.like_tables.specs.SplitSlice.{HasNumbers, no_slice};

mod answers;
mod looks;
mod merges;
mod waits;

use crate::like_count::LikeCount;
use crate::slice_log::SliceLog;
use like_core::{HOT_PAGES, Post, SlotPost, WorkerState, has_bit, is_hot};
use like_tables::{BucketCounts, Counts, Slice, SplitSlice, Stash, Users};
use std::alloc::{AllocError, Global};

/// What a station keeps beside its post.
///
/// `W` is what waits for the next joined phase. `C` has the likes of its slice, and `T` the numbers of their buckets.
#[derive(Drop)]
pub struct Tables<W: Copy, C: Counts> {
    /// Of a run: whether each page is marked as split.
    pub(crate) marks: Vec<bool>,
    /// The state of its post.
    pub(crate) state: WorkerState,
    /// What waits for the next joined phase, and in that phase what is left of it.
    pub(crate) stash: Stash<W>,
    /// Which pages are split in the phase that it runs, and the likes that it has counted of them.
    pub(crate) slice: SplitSlice<C>,
    /// The likes that went into the slice.
    pub(crate) sliced: SliceLog,
    /// How many likes it has counted: what was added on the board, and the slice.
    pub(crate) likes: LikeCount,
    /// The last likes of its users.
    pub(crate) last: Users,
}

impl<W: Copy, C: Counts> Tables<W, C> {
    // The tables of a station that has done nothing yet, with this slice.
    fn new(
        alloc: Global,
        marks: Vec<bool>,
        slice: SplitSlice<C>,
        room: u32,
        last: Users,
    ) -> Result<Self, AllocError>
        requires some { 1 ≤ room }
        requires few { room ≤ max_stash }
        ensures { IfOk result (AreNew marks.items slice room last) }
    {
        Ok(Tables {
            marks,
            state: WorkerState::Runs(0),
            stash: Stash::new(alloc, room)?,
            slice,
            sliced: SliceLog::new(),
            likes: LikeCount::none(),
            last,
        })
    }
}

impl<W: Copy> Tables<W, Slice> {
    /// The tables of a worker of a run that has done nothing yet, with these marks of split pages, room for `room` that
    /// wait, and these last likes. All memory is taken here, and none by its steps.
    pub fn of_run(
        alloc: Global,
        marks: Vec<bool>,
        room: u32,
        last: Users,
    ) -> Result<Self, AllocError>
        requires small { length marks.items ≤ buckets }
        requires some { 1 ≤ room }
        requires few { room ≤ max_stash }
        ensures kept { IfOk result (λ tables. (post : WorkerSeatView) → IsNewOfRun marks.items post
            → IsKept post tables) }
        ensures new { IfOk result (λ tables. (board : List ℕ) (post : WorkerSeatView) → IsNewOfRun marks.items post
            → IsNewStation board post room last (view_of board post tables)) }
    {
        let slice = SplitSlice::of_run(alloc, marks.len() as u32)?;
        Tables::new(alloc, marks, slice, room, last)
    }
}

impl<W: Copy> Tables<W, BucketCounts> {
    // The tables of a station of a service that has done nothing yet, at a board with this factor for buckets.
    pub(crate) fn of_service(
        alloc: Global,
        factor: u32,
        room: u32,
        last: Users,
    ) -> Result<Self, AllocError>
        requires factor { 2 ^ 22 ≤ factor }
        requires some { 1 ≤ room }
        requires few { room ≤ max_stash }
        ensures { IfOk result (AreNew [] (no_slice factor buckets) room last) }
    {
        let slice = SplitSlice::of_service(alloc, factor)?;
        Tables::new(alloc, Vec::new(alloc), slice, room, last)
    }
}

// Splits each page that is marked, or hot by this mask, in a run.
fn split_pages<C: Counts>(slice: &mut SplitSlice<C>, marks: &[bool], mask: u64)
    requires few { length marks.now ≤ buckets }
    requires unsplit { IsUnsplit slice.old run_factor }
    requires numbers { HasNumbers slice.old (length marks.now) }
    ensures { IsFilled slice.old (length marks.now) (is_split_in_run marks.now mask) slice.new }
{
    for page in 0..marks.len() as u32 {
        if marks[page as usize] || is_hot(mask, page) {
            slice.put(page);
        }
    }
}

// Splits the pages in the slots in use, in a service.
fn split_slots<C: Counts>(slice: &mut SplitSlice<C>, pages: &[u32; 64], used: u64)
    requires unsplit { IsUnsplit slice.old slice.old.splits.factor }
    requires apart { AreSlotsApart slice.old.splits.factor (slice_index pages.now) used }
    requires numbers { HaveSlotsNumbers slice.old (slice_index pages.now) used }
    ensures { IsFilledBySlots slice.old (slice_index pages.now) used hot_pages slice.new }
{
    for slot in 0..HOT_PAGES {
        if has_bit(used, slot) {
            slice.put(pages[slot as usize]);
        }
    }
}

impl<W: Copy, C: Counts> Tables<W, C> {
    // Runs the phase that was released, in a run. In a split one the post reads the mask, and the pages that are marked
    // or hot are split.
    #[cold]
    #[inline(never)]
    pub(crate) fn enter<P: Post>(&mut self, post: &mut P, phase: u64)
        requires may { MayEnter (P.view post.old) self.old.slice phase }
        requires run { IsOfRun (P.view post.old).opening self.old.marks.items }
        ensures board { P.board post.new ≡ P.board post.old }
        ensures enters { Enters (P.view post.old) phase (P.view post.new) self.old self.new }
    {
        self.state = WorkerState::Runs(phase);
        if phase % 2 == 0 {
            return;
        }
        let mask = post.hot();
        split_pages(&mut self.slice, &self.marks, mask);
    }

    // Runs the phase that was released, in a service. In a split one the post reads the slots, and the pages in those
    // in use are split.
    #[cold]
    #[inline(never)]
    pub(crate) fn enter_slots<P: SlotPost>(&mut self, post: &mut P, phase: u64)
        requires may { MayEnter (P.view post.old) self.old.slice phase }
        requires service { IsOfService (P.view post.old).opening }
        ensures board { P.board post.new ≡ P.board post.old }
        ensures enters { Enters (P.view post.old) phase (P.view post.new) self.old self.new }
    {
        self.state = WorkerState::Runs(phase);
        if phase % 2 == 0 {
            return;
        }
        let mut pages = [0; 64];
        let used = post.slots(&mut pages);
        split_slots(&mut self.slice, &pages, used);
    }

    /// The phase that the worker runs or has answered, and 0 once it is gone.
    #[inline(always)]
    pub fn phase(&self) -> u64
        ensures { result ≡ phase_of self.now.state }
    {
        match self.state {
            WorkerState::Runs(phase) | WorkerState::Answered(phase) => phase,
            WorkerState::Gone => 0,
        }
    }

    /// Whether it is gone.
    #[inline(always)]
    pub fn is_gone(&self) -> bool
        ensures { IsTrue result ↔ (self.now.state ≡ Gone) }
    {
        matches!(self.state, WorkerState::Gone)
    }

    /// Its users, with their last likes.
    #[inline(always)]
    pub fn users(&self) -> &Users
        ensures { result.now ≡ self.now.last }
    {
        &self.last
    }

    /// Its users' last likes, when nothing is left to do.
    pub fn finish(self) -> Users
        ensures { result ≡ self.last }
    {
        let Tables { last, .. } = self;
        last
    }
}
