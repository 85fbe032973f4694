//! What a played run has beside its workers: the pure core, the coordinator's counts, and the submitters' lists.
use like_core::{CoordSight, Core, Event, Shown, is_hot};
use like_requests::{Numbered, Op, PageRef, Request, Taken, Verdict};
use like_roles::Chosen;
use like_tables::Held;
use std::mem::replace;

/// The phase of a run that a sight tells.
pub fn phase_of(number: u64) -> u32 {
    u32::try_from(number).unwrap_or(u32::MAX)
}

/// How many items of a submitter's list are open (the end mark is the last one), and how many requests are taken.
#[derive(Clone, Copy)]
pub struct List {
    pub open: u32,
    pub taken: u32,
}

impl List {
    fn take(&mut self, plan: &[Request]) -> Taken {
        if self.taken >= self.open {
            return Taken::Nothing;
        }
        match plan.get(self.taken as usize) {
            Some(request) => {
                self.taken += 1;
                Taken::Ask(Numbered {
                    number: self.taken,
                    request: *request,
                })
            }
            None => Taken::End,
        }
    }
}

/// What a run has beside its workers: of its settings those that a turn asks for, how many submitters there are, which
/// pages are marked as split, the core, the coordinator's turns left, the counts of its last choice, its choices, and
/// the submitters' requests and lists. It is stuck once memory ran out, the core refused an event of a turn, or a
/// script named an unknown worker or submitter.
#[derive(Drop)]
pub struct Shared<'a> {
    pub users: u32,
    pub stash: u32,
    pub turns: u32,
    pub hot: Option<u32>,
    pub submitters: u32,
    pub split: [bool; 4],
    pub core: Core,
    pub turns_left: u32,
    pub counts: [u64; 4],
    pub chosen: Vec<Chosen>,
    pub plans: &'a [Vec<Request>],
    pub lists: Vec<List>,
    pub stuck: bool,
}

impl Shared<'_> {
    /// What the core shows of an event, which may happen now.
    pub fn step(&mut self, event: Event) -> Shown {
        match self.core.step(event) {
            Ok(shown) => shown,
            Err(_) => {
                self.stuck = true;
                Shown::Done
            }
        }
    }

    /// The count that an event shows.
    pub fn count(&mut self, event: Event) -> u64 {
        match self.step(event) {
            Shown::Count(count) => count,
            _ => {
                self.stuck = true;
                0
            }
        }
    }

    /// A turn of the coordinator; the phase in which the run ended where all workers are gone.
    pub fn lead(&mut self) -> Option<u32> {
        match self.step(Event::CoordLook) {
            Shown::Coord(sight) if sight.all_gone => Some(phase_of(sight.number)),
            Shown::Coord(sight) => {
                self.go_on(sight);
                None
            }
            _ => None,
        }
    }

    // Ends a phase that all have answered, counts a turn of one that goes on, or announces its end where none is left.
    fn go_on(&mut self, sight: CoordSight) {
        if sight.ending && sight.all_in {
            self.release(phase_of(sight.number));
        } else if !sight.ending && self.turns_left > 0 {
            self.turns_left -= 1;
        } else if !sight.ending {
            self.step(Event::Announce);
        }
    }

    // Ends this phase.
    fn release(&mut self, phase: u32) {
        let mask = self.choose(phase);
        if mask > 0 {
            self.note_choice(phase.saturating_add(1), mask);
        }
        self.step(Event::Release(mask));
        self.turns_left = self.turns;
    }

    // The mask of the phase that comes next.
    fn choose(&mut self, phase: u32) -> u64 {
        match self.hot {
            Some(least) if is_joined(phase) => self.grown_pages(least),
            _ => 0,
        }
    }

    fn note_choice(&mut self, phase: u32, mask: u64) {
        self.stuck |= self.chosen.push(Chosen { phase, mask }).is_err();
    }

    // The mask of the pages whose counts grew by this many likes or more since this was asked before.
    fn grown_pages(&mut self, least: u32) -> u64 {
        let mut mask = 0;
        for page in 0..4 {
            if self.growth(page) >= u64::from(least) {
                mask |= 1 << page;
            }
        }
        mask
    }

    // By how many likes a page's count grew since this was asked before.
    fn growth(&mut self, page: u32) -> u64 {
        let count = self.count(Event::CoordRead(page));
        match self.counts.get_mut(page as usize) {
            Some(before) => count.saturating_sub(replace(before, count)),
            None => 0,
        }
    }

    // Whether a page is split in this odd phase, where there are so few that no limit is met.
    fn is_split(&self, page: u32, phase: u32) -> bool {
        self.split.get(page as usize) == Some(&true) || self.is_hot(page, phase)
    }

    fn is_hot(&self, page: u32, phase: u32) -> bool {
        match self.chosen.last() {
            Some(chosen) => chosen.phase == phase && is_hot(chosen.mask, page),
            None => false,
        }
    }

    /// Merges a worker's slice of an odd phase, page by page, and reports. The core keeps the slice, and refuses a report
    /// before it is merged.
    pub fn merge_and_report(&mut self, worker: u32, phase: u32) {
        for page in 0..4 {
            if self.is_split(page, phase) {
                self.step(Event::Merge(worker, page));
            }
        }
        self.step(Event::Report(worker));
    }

    /// Whether a request that is taken in this phase waits for the next.
    pub fn waits(&self, held: &Held, phase: u32) -> bool {
        match (held.ask.request.op, held.ask.request.page) {
            (Op::Look, PageRef::Known(page)) => {
                !is_joined(phase)
                    && self.is_split(page, phase)
                    && self.verdict(held) == Verdict::Accepted
            }
            _ => false,
        }
    }

    /// What the submitter's list gives next.
    pub fn take(&mut self, submitter: u32) -> Taken {
        let plan = plan_of(self.plans, submitter);
        match self.lists.get_mut(submitter as usize) {
            Some(list) => list.take(plan),
            None => Taken::Nothing,
        }
    }

    pub fn open_one(&mut self, submitter: u32) {
        match self.lists.get_mut(submitter as usize) {
            Some(list) => list.open = list.open.saturating_add(1),
            None => self.stuck = true,
        }
    }

    fn is_home(&self, user: u32, submitter: u32) -> bool {
        user.checked_rem(self.submitters) == Some(submitter)
    }

    pub fn verdict(&self, held: &Held) -> Verdict {
        let request = held.ask.request;
        if request.user >= self.users {
            Verdict::UnknownUser
        } else if !self.is_home(request.user, held.submitter) {
            Verdict::OtherHome
        } else if request.page == PageRef::Unknown {
            Verdict::UnknownPage
        } else {
            Verdict::Accepted
        }
    }
}

// The requests of a submitter.
fn plan_of(plans: &[Vec<Request>], submitter: u32) -> &[Request] {
    match plans.get(submitter as usize) {
        Some(plan) => plan,
        None => &[],
    }
}

pub fn open_all(lists: &mut [List]) {
    for list in lists {
        list.open = u32::MAX;
    }
}

pub fn is_joined(phase: u32) -> bool {
    phase % 2 == 0
}
