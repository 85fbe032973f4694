ghost use Rattle.std.specs.Prelude.{◌≡◌, ◌↔◌, ◌+◌, ◌≤◌, [], All, IfOk, IsTrue, drop, length, take, vec_capacity};
ghost use Rattle.std.specs.Arc.{arc_value};
ghost use Rattle.like_board.specs.Rule.{opened_coord};
ghost use Rattle.like_board.specs.Seats.{board_id, coord_board, coord_view};
ghost use Rattle.like_limits.specs.Buckets.{AreApart};
ghost use Rattle.like_choice.specs.Slots.{pages_in_use};
ghost use Rattle.like_limits.specs.Limits.{hot_pages};
ghost use Rattle.like_live.specs.Driver.{DriverTurns, IsSameDriver, IsService, TakesLast, TakesSnapshot, new_driver};
ghost use Rattle.like_live.specs.Opening.{IsWithinLimits, board_opening};
ghost use Rattle.like_live.specs.Service.{AreBackFrom, AreGone, AreItsSeats, HasMergedOnceGone, IsClosedService};

mod counts;
mod splits;
mod turns;

use self::counts::{read_boundary, read_last};
use self::splits::Splits;
use self::turns::act;
use crate::driver_answer::DriverAnswer;
use crate::driver_end::End;
use crate::hint::{HeardHint, Hint};
use crate::live_seat::LiveSeat;
use crate::opening::Opening;
use crate::phase_now::PhaseNow;
use like_board::{Board, CoordSeat, SharedPost, WorkerSeat};
use like_choice::{Choice, Guided};
use like_core::SlotPost;
use like_seat::Lead;
use std::alloc::{AllocError, Global};
use std::marker::Model;
use std::sync::Arc;

/// The coordinator of a service's phases. It ends a phase once the host says so, and releases the next one once every
/// seat has answered or is gone.
///
/// It shares its board with the seats. Its choice proposes the pages that get slots. Its calls never wait, and take no
/// memory unless the choice does.
#[derive(Drop)]
pub struct Driver<C: Choice> {
    board: Arc<Board, Global>,
    lead: Lead,
    splits: Splits<C>,
    /// How many pages there are.
    pages: u32,
    hint: HeardHint,
    /// The phase, for other threads.
    phase_now: PhaseNow,
    /// Whether last counts were written.
    is_over: bool,
    /// Room for the workers' seats that are given back at the end.
    back: Vec<WorkerSeat>,
}

impl<C: Choice> Model for Driver<C> {
    ghost use Rattle.std.specs.Arc.{arc_value};
    ghost use Rattle.like_board.specs.Seats.{board_id};
    ghost use Rattle.like_live.specs.Driver.{AreDriverParts, DriverView, HasRoom, driver_of};

    ghost Value = { DriverView };

    ghost view = { λ d. driver_of d.lead d.splits d.hint d.is_over };

    ghost invariant = { λ d. let v = driver_of d.lead d.splits d.hint d.is_over in
        AreDriverParts (board_id (arc_value d.board)) d.pages v × HasRoom d.back v };
}

impl<C: Choice + Drop> Driver<C> {
    /// The driver of a new board, with this factor for buckets. All its memory is taken here.
    pub(crate) fn new(
        alloc: Global,
        opening: &Opening,
        factor: u32,
        choice: C,
        board: Arc<Board, Global>,
        coord: CoordSeat,
        hint: Hint,
    ) -> Result<Driver<C>, AllocError>
        requires within { IsWithinLimits opening.now }
        requires factor { AreApart factor opening.now.marks.items }
        requires here { coord_board coord ≡ board_id (arc_value board) }
        requires new { coord_view coord ≡ opened_coord (board_opening opening.now factor) }
        ensures { IfOk result (λ driver. driver
            ≡ new_driver opening.now factor (board_id (arc_value board)) (C.told choice) (C.finds choice)) }
    {
        let back = Vec::with_capacity(alloc, opening.seats as usize)?;
        let phase_now = PhaseNow::new(alloc)?;
        let pages = opening.counts.len() as u32;
        match Lead::new(alloc, coord, None, &opening.counts) {
            Ok(lead) => Ok(Driver {
                board,
                lead,
                splits: Splits::new(choice, factor, pages, &opening.marks),
                pages,
                hint: HeardHint::new(hint),
                phase_now,
                is_over: false,
                back,
            }),
            Err(_) => Err(AllocError),
        }
    }

    /// Ends the board, once all seats are given back and gone, and writes each page's last count.
    pub(crate) fn finish(self, seats: Vec<LiveSeat<SharedPost>>, counts: &mut [u64])
        requires whole { AreItsSeats self seats.items }
        requires gone { AreGone seats.items }
        requires places { length counts.old ≡ length self.lead.seat.opening.counts }
        ensures { IsClosedService self seats.items counts.new }
    {
        let Driver {
            board,
            lead,
            mut back,
            ..
        } = self;
        give_back(seats, &mut back);
        board.last_counts(lead.finish(), back, counts);
    }
}

impl<C: Choice> Driver<C> {
    /// Makes one look at the phase word, and does at most one thing. A phase that is ending is released once every seat
    /// has answered it or is gone. A phase that runs is ended as `end` says, and a split phase also if the driver hears
    /// that a seat asks for it. A joined phase that all seats have left goes on, and so does a service's last phase.
    /// Once last counts were written it does nothing.
    /// Before it ends a split phase it asks its choice for pages. So it does in a joined one that may end, unless `end`
    /// is `No`, if nothing would be split in the next. Before it releases a split phase it gives slots to these pages.
    pub fn turn(&mut self, end: End) -> DriverAnswer
        ensures case { DriverTurns self.old end result self.new }
        ensures keeps { IsService self.new }
        ensures same { IsSameDriver self.old self.new }
    {
        if self.is_over {
            return DriverAnswer::Ended;
        }
        let answer = act(
            &mut self.lead,
            &mut self.splits,
            &self.board,
            &mut self.hint,
            end,
        );
        if answer == DriverAnswer::Released {
            self.phase_now.set(self.lead.phase());
        }
        answer
    }

    /// Writes the counts of the pages from `from` on, if a joined phase is ending and every seat has answered it or is
    /// gone. They are the counts of one moment, the boundary of that phase and the split one that comes next, and the
    /// answer is the phase that ends there. Otherwise, and once last counts were written, it writes nothing and answers
    /// `None`. Until the driver releases the next phase, further ranges are of the same moment.
    pub fn snapshot(&mut self, from: u32, counts: &mut [u64]) -> Option<u64>
        requires places { from + length counts.old ≤ length self.old.lead.seat.opening.counts }
        ensures case { TakesSnapshot self.old from counts.old result self.new counts.new }
        ensures keeps { IsService self.new }
        ensures same { IsSameDriver self.old self.new }
    {
        if self.is_over {
            return None;
        }
        read_boundary(&mut self.lead, &self.board, from, counts)
    }

    /// Writes the last counts of the pages from `from` on, if a look shows that all seats have left a joined phase that
    /// is ending, and says whether it did. If nobody ended that phase, it does, unless it is a service's last, and looks
    /// again. Once it wrote counts the service is over: no phase is released. Later calls write the same counts. It
    /// takes no seats, since C can't show whose they are.
    pub fn last_counts(&mut self, from: u32, counts: &mut [u64]) -> bool
        requires places { from + length counts.old ≤ length self.old.lead.seat.opening.counts }
        ensures case { TakesLast self.old from counts.old result self.new counts.new }
        ensures keeps { IsService self.new }
        ensures same { IsSameDriver self.old self.new }
    {
        if !read_last(&mut self.lead, &self.board, from, counts) {
            return false;
        }
        self.is_over = true;
        true
    }

    /// The present phase.
    pub fn phase(&self) -> u64
        ensures { result ≡ self.now.lead.seat.phase }
    {
        self.lead.phase()
    }

    /// The phase for other threads, which read it without the driver (see `PhaseNow::share`).
    pub fn phase_now(&self) -> Result<PhaseNow, AllocError> {
        self.phase_now.share()
    }

    /// Whether the seat is one of this service, as the hint that all its seats share tells. No clause says so, since the
    /// kit has no proved test of that.
    pub fn has_seat<P: SlotPost>(&self, seat: &LiveSeat<P>) -> bool {
        self.hint.is_from(seat.hint())
    }

    /// Whether there are `many` pages from `from` on.
    pub fn has_pages(&self, from: u32, many: usize) -> bool
        ensures { IsTrue result ↔ (from + many ≤ length self.now.lead.seat.opening.counts) }
    {
        from <= self.pages && many <= (self.pages - from) as usize
    }

    /// Writes the pages that are split in the present split phase, or were in the last one, in the order of their slots.
    /// Before the first split phase these are the marked ones. The answer is how many were written: all of them, at most
    /// 64, if there is room.
    pub fn split_pages(&self, pages: &mut [u32]) -> usize
        ensures len { length pages.new ≡ length pages.old }
        ensures few { result ≤ length pages.old }
        ensures pages { take result pages.new ≡ take (length pages.old) (pages_in_use self.now.splits.slots) }
        ensures rest { drop result pages.new ≡ drop result pages.old }
        ensures service { IsService self.now }
    {
        self.splits.write_pages(pages)
    }

    /// How many pages there are.
    pub fn pages(&self) -> u32
        ensures { result ≡ length self.now.lead.seat.opening.counts }
    {
        self.pages
    }
}

impl Driver<Guided> {
    /// Proposes these pages for slots from now on, the first 64 of them, in place of those found by sampling. If there are
    /// none, it samples again. The split phase after the present or next joined one is the first that can have them.
    pub fn propose(&mut self, pages: &[u32])
        ensures { self.new ≡ record self.old {
          splits = record self.old.splits { told = take hot_pages pages.now };
        } }
    {
        self.splits.ask(pages);
    }
}

// Gives the workers' seats of all these seats back, in order.
fn give_back(seats: Vec<LiveSeat<SharedPost>>, back: &mut Vec<WorkerSeat>)
    requires none { back.old.items ≡ [] }
    requires room { length seats.items ≤ vec_capacity back.old }
    ensures back { AreBackFrom seats.items back.new.items }
    ensures merged { All HasMergedOnceGone seats.items }
{
    for seat in seats {
        back.push_reserved(seat.leave().back());
    }
}
