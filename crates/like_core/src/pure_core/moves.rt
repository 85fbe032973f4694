ghost use Rattle.std.specs.Prelude.{◌≡◌, ◌+◌, ◌-◌, ◌<◌};
ghost use Rattle.like_limits.specs.Limits.{total_bound};
ghost use Rattle.like_core.specs.core.Numbers.{with_state, with_unmerged, total, Sees, CoordSees, with_look, with_like, with_more};
ghost use Rattle.like_core.specs.WorkerState.{looked};
ghost use Rattle.like_core.specs.core.Table.{Permits, IsShown, next};
ghost use Rattle.like_core.specs.core.Core.{numbers_of};

use super::Core;
use crate::event::Event;
use crate::shown::Shown;
use crate::sight::{CoordSight, Sight};
use crate::worker_state::WorkerState;

impl Core {
    fn set_state(&mut self, worker: u32, state: WorkerState)
        requires { worker < (numbers_of self.old).workers }
        ensures { numbers_of self.new ≡ with_state (numbers_of self.old) worker state }
    {
        self.states[worker as usize] = state;
    }

    fn look(&mut self, worker: u32) -> Sight
        requires { worker < (numbers_of self.old).workers }
        ensures sees { Sees (numbers_of self.old) worker result }
        ensures looked { numbers_of self.new ≡ with_look (numbers_of self.old) worker }
    {
        let state = self.states[worker as usize];
        self.set_state(worker, state.looked(self.phase));
        Sight {
            number: self.phase,
            ending: self.ending,
            waits: state == WorkerState::Answered(self.phase),
        }
    }

    fn coord_look(&self) -> CoordSight
        ensures { CoordSees (numbers_of self.now) result }
    {
        CoordSight {
            number: self.phase,
            ending: self.ending,
            all_in: self.all_in(),
            all_gone: self.all_gone(),
        }
    }

    /// Adds one like to a worker's slice of a page.
    fn add_unmerged(&mut self, worker: u32, page: u32)
        requires worker { worker < (numbers_of self.old).workers }
        requires page { page < (numbers_of self.old).pages }
        requires room { total (numbers_of self.old) page + 1 < total_bound }
        ensures { numbers_of self.new ≡ with_like (numbers_of self.old) worker page }
    {
        let row = &mut self.unmerged[worker as usize];
        let likes = row.get(page);
        row.set(page, likes + 1);
    }

    /// Takes a worker's slice of a page, and leaves it empty.
    fn take_unmerged(&mut self, worker: u32, page: u32) -> u64
        requires worker { worker < (numbers_of self.old).workers }
        requires page { page < (numbers_of self.old).pages }
        ensures likes { result ≡ (numbers_of self.old).unmerged worker page }
        ensures empty { numbers_of self.new ≡ with_unmerged (numbers_of self.old) worker page 0 }
        ensures room { total (numbers_of self.new) page + result
            ≡ total (numbers_of self.old) page }
    {
        let row = &mut self.unmerged[worker as usize];
        let likes = row.get(page);
        row.set(page, 0);
        likes
    }

    /// Adds likes to a page's count, which it returns as it was.
    fn add_count(&mut self, page: u32, likes: u64) -> u64
        requires page { page < (numbers_of self.old).pages }
        requires room { total (numbers_of self.old) page + likes < total_bound }
        ensures old { result ≡ (numbers_of self.old).count page }
        ensures added { numbers_of self.new ≡ with_more (numbers_of self.old) page likes }
    {
        let count = self.counts.get(page);
        self.counts.set(page, count + likes);
        count
    }

    /// Moves a worker's slice of a page to the page's count, which it returns as it was.
    fn merge(&mut self, worker: u32, page: u32) -> u64
        requires worker { worker < (numbers_of self.old).workers }
        requires page { page < (numbers_of self.old).pages }
        ensures old { result ≡ (numbers_of self.old).count page }
        ensures moved { numbers_of self.new ≡ next (numbers_of self.old) (Event.Merge worker page) }
    {
        let likes = self.take_unmerged(worker, page);
        self.add_count(page, likes)
    }

    /// Makes an event that may happen.
    pub(super) fn apply(&mut self, event: Event) -> Shown
        requires { Permits (numbers_of self.old) event }
        ensures shown { IsShown (numbers_of self.old) event result }
        ensures next { numbers_of self.new ≡ next (numbers_of self.old) event }
    {
        match event {
            Event::Look(worker) => Shown::Seen(self.look(worker)),
            Event::Acknowledge(worker) | Event::Report(worker) => {
                self.set_state(worker, WorkerState::Answered(self.phase));
                Shown::Done
            }
            Event::Retire(worker) => {
                self.set_state(worker, WorkerState::Gone);
                Shown::Done
            }
            Event::Like(worker, page) if self.is_split(page) => {
                self.add_unmerged(worker, page);
                Shown::Sliced
            }
            Event::Like(_, page) => Shown::Old(self.add_count(page, 1)),
            Event::Read(_, page) | Event::CoordRead(page) => Shown::Count(self.counts.get(page)),
            Event::Merge(worker, page) => Shown::Old(self.merge(worker, page)),
            Event::Hot(_) => Shown::Hot(self.hot),
            Event::CoordLook => Shown::Coord(self.coord_look()),
            Event::Announce => {
                self.ending = true;
                Shown::Done
            }
            Event::Release(mask) => {
                self.phase += 1;
                self.ending = false;
                self.hot = mask;
                Shown::Done
            }
        }
    }
}
