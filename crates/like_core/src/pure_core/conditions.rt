ghost use Rattle.std.specs.Prelude.{◌≡◌, ◌<◌, ◌^◌, ◌↔◌, ℕ, IsTrue, MatchOption};
ghost use Rattle.like_core.specs.declared.event.Event.TheVariants.{Release};
ghost use Rattle.like_core.specs.declared.worker_state.WorkerState.TheVariants.{Runs};
ghost use Rattle.like_core.specs.core.Numbers.{splits, total, AllIn, AllGone};
ghost use Rattle.like_core.specs.core.Table.{NamesWhatIsThere, Suits, LeavesLast, StaysBelowBound, Permits, Refuses};
ghost use Rattle.like_core.specs.core.Core.{numbers_of};

use super::{Core, NotNow};
use crate::event::Event;
use crate::hot::{HOT_PAGES, is_hot};
use crate::worker_state::WorkerState;

/// How many bits a mask has: one for each page that can be hot.
const MASK_BITS: usize = HOT_PAGES as usize;

/// The largest total of a page.
const MAX_TOTAL: u64 = 9_223_372_036_854_775_807;

impl Core {
    fn has_worker(&self, worker: u32) -> bool
        ensures { IsTrue result ↔ (worker < (numbers_of self.now).workers) }
    {
        (worker as usize) < self.unmerged.len()
    }

    fn has_page(&self, page: u32) -> bool
        ensures { IsTrue result ↔ (page < (numbers_of self.now).pages) }
    {
        (page as usize) < self.counts.len()
    }

    /// Whether there is a page for each bit of the mask.
    fn has_pages(&self, mask: u64) -> bool
        ensures { IsTrue result ↔ (mask < 2 ^ (numbers_of self.now).pages) }
    {
        let pages = self.counts.len();
        pages >= MASK_BITS || mask >> pages == 0
    }

    pub(super) fn is_there(&self, event: Event) -> bool
        ensures { IsTrue result ↔ NamesWhatIsThere (numbers_of self.now) event }
    {
        match event {
            Event::Look(worker)
            | Event::Acknowledge(worker)
            | Event::Report(worker)
            | Event::Retire(worker)
            | Event::Hot(worker) => self.has_worker(worker),
            Event::Like(worker, page) | Event::Read(worker, page) | Event::Merge(worker, page) =>
                self.has_worker(worker) && self.has_page(page),
            Event::CoordRead(page) => self.has_page(page),
            Event::Release(mask) => self.has_pages(mask),
            Event::CoordLook | Event::Announce => true,
        }
    }

    fn runs(&self, worker: u32) -> bool
        requires { worker < (numbers_of self.now).workers }
        ensures { IsTrue result ↔ ((numbers_of self.now).state worker ≡ Runs self.now.phase) }
    {
        self.states[worker as usize] == WorkerState::Runs(self.phase)
    }

    pub(super) fn is_split(&self, page: u32) -> bool
        requires { page < (numbers_of self.now).pages }
        ensures { result ≡ splits (numbers_of self.now) page }
    {
        self.phase % 2 == 1 && (self.marks[page as usize] || is_hot(self.hot, page))
    }

    fn has_no_unmerged(&self, worker: u32) -> bool
        requires { worker < (numbers_of self.now).workers }
        ensures { IsTrue result ↔ ((page : ℕ) → (numbers_of self.now).unmerged worker page ≡ 0) }
    {
        self.unmerged[worker as usize].is_zero()
    }

    pub(super) fn all_in(&self) -> bool
        ensures { IsTrue result ↔ AllIn (numbers_of self.now) }
    {
        let phase = self.phase;
        self.states.iter().all(|state| state.is_in(phase))
    }

    pub(super) fn all_gone(&self) -> bool
        ensures { IsTrue result ↔ AllGone (numbers_of self.now) }
    {
        self.states.iter().all(|state| *state == WorkerState::Gone)
    }

    pub(super) fn total(&self, page: u32) -> u64
        requires { page < (numbers_of self.now).pages }
        ensures { result ≡ total (numbers_of self.now) page }
    {
        let mut sum = self.counts.get(page);
        for row in &self.unmerged {
            sum += row.get(page);
        }
        sum
    }

    /// Whether the end of the phase was announced, all workers are in, and the mask is 0 where the next phase is joined.
    fn may_release(&self, mask: u64) -> bool
        ensures { IsTrue result ↔ Suits (numbers_of self.now) (Release mask) }
    {
        self.ending && self.all_in() && (self.phase % 2 == 0 || mask == 0)
    }

    fn suits(&self, event: Event) -> bool
        requires { NamesWhatIsThere (numbers_of self.now) event }
        ensures { IsTrue result ↔ Suits (numbers_of self.now) event }
    {
        let joined = self.phase % 2 == 0;
        match event {
            Event::Look(worker) => self.states[worker as usize] != WorkerState::Gone,
            Event::Acknowledge(worker) => self.runs(worker) && joined && self.ending,
            Event::Report(worker) => {
                self.runs(worker) && !joined && self.ending && self.has_no_unmerged(worker)
            }
            Event::Retire(worker) => self.runs(worker) && joined,
            Event::Like(worker, _) => self.runs(worker),
            Event::Read(worker, page) => self.runs(worker) && !self.is_split(page),
            Event::Merge(worker, page) => {
                self.runs(worker) && self.is_split(page) && self.ending
            }
            Event::Hot(worker) => self.runs(worker) && !joined,
            Event::CoordLook | Event::CoordRead(_) => true,
            Event::Announce => !self.ending,
            Event::Release(mask) => self.may_release(mask),
        }
    }

    fn leaves_last(&self, event: Event) -> bool
        ensures { IsTrue result ↔ LeavesLast (numbers_of self.now) event }
    {
        match event {
            Event::Announce => self.phase < self.limits.last_phase,
            _ => true,
        }
    }

    fn has_room(&self, event: Event) -> bool
        requires { NamesWhatIsThere (numbers_of self.now) event }
        ensures { IsTrue result ↔ StaysBelowBound (numbers_of self.now) event }
    {
        match event {
            Event::Like(_, page) => self.total(page) < MAX_TOTAL,
            _ => true,
        }
    }

    /// The first reason for which the event may not happen now.
    pub(super) fn refusal(&self, event: Event) -> Option<NotNow>
        ensures { MatchOption result (Permits (numbers_of self.now) event)
            (Refuses (numbers_of self.now) event) }
    {
        if !self.is_there(event) {
            Some(NotNow::NoSuch)
        } else if !self.suits(event) {
            Some(NotNow::Phase)
        } else if !self.leaves_last(event) {
            Some(NotNow::Last)
        } else if !self.has_room(event) {
            Some(NotNow::Full)
        } else {
            None
        }
    }
}
