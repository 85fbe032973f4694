//! A worker of a board, which knows the traits `Post` and `Glances` alone.
ghost use Rattle.std.specs.Prelude.{◌≡◌, ◌^◌, ◌<◌, ◌≤◌, IsTrue};
ghost use Rattle.like_limits.specs.Limits.{hot_pages};
ghost use Rattle.like_core.specs.Phase.{is_marked};
ghost use Rattle.like_core.specs.WorkerState.{RunsJoined, SawEnding, phase_of, seen};
ghost use Rattle.like_core.specs.Post.{IsFresh, MayAdd, pages_of};
ghost use Rattle.test_parts.specs.Walk.{IsKnown, KeepsPlace, SplitsFirst};

use super::calls::OnPost;
use crate::known::Known;
use like_core::{Glances, Limits, Post, Sight, WorkerState};

// The state of a worker after a sight.
fn state_after(state: WorkerState, sight: Sight) -> WorkerState
    requires { phase_of (seen state sight) < 2 ^ 64 }
    ensures { result ≡ seen state sight }
{
    match state {
        WorkerState::Answered(phase) if !sight.waits => WorkerState::Runs(phase + 1),
        _ => state,
    }
}

/// A worker's post, with what is known of it.
#[derive(Drop)]
pub struct Walker<P: Post> {
    pub post: P,
    pub known: Known,
    ghost is: { IsKnown (P.view post) known },
}

impl<P: Glances> Walker<P> {
    /// A worker at a post on which no call was made, at a board with this many pages, whose first is marked or is not.
    pub fn new(post: P, limits: Limits, pages: u32, marked: bool) -> Walker<P>
        requires fresh { IsFresh (P.view post) }
        requires limits { (P.view post).opening.limits ≡ limits }
        requires plain { limits.hot ≡ hot_pages }
        requires pages { pages_of (P.view post) ≡ pages }
        requires first { is_marked (P.view post).opening.marks 0 ≡ marked }
        ensures { result.post ≡ post }
    {
        let known = Known {
            state: WorkerState::Runs(0),
            last: None,
            pages,
            is_marked: marked,
            hot_in: None,
            room: limits.likes,
            likes: 0,
        };
        Walker { post, known }
    }

    /// Makes a call, and gives it with the answer that came. None if it may not be made.
    pub fn makes(&mut self, call: OnPost) -> Option<OnPost>
        ensures { KeepsPlace (P.board self.old.post) (P.view self.old.post)
            (P.board self.new.post) (P.view self.new.post) }
    {
        match call {
            OnPost::Look(_, _, _) => self.looks(),
            OnPost::Answer => self.stops(),
            OnPost::Like(page, _) => self.likes(page),
            OnPost::Merge(likes, _) => self.merges(likes),
            OnPost::Read(page, _) => self.reads(page),
            OnPost::Glance(_) => self.glances(),
            OnPost::Hot(_) => self.learns(),
            OnPost::Retire => self.retires(),
        }
    }

    fn looks(&mut self) -> Option<OnPost>
        ensures { KeepsPlace (P.board self.old.post) (P.view self.old.post)
            (P.board self.new.post) (P.view self.new.post) }
    {
        if self.known.state == WorkerState::Gone {
            return None;
        }
        let sight = self.post.look();
        self.known.state = state_after(self.known.state, sight);
        self.known.last = Some(sight);
        Some(OnPost::Look(sight.number, sight.ending, sight.waits))
    }

    fn stops(&mut self) -> Option<OnPost>
        ensures { KeepsPlace (P.board self.old.post) (P.view self.old.post)
            (P.board self.new.post) (P.view self.new.post) }
    {
        let WorkerState::Runs(phase) = self.known.state else {
            return None;
        };
        if !self.saw_ending() {
            return None;
        }
        if phase % 2 == 0 {
            self.post.acknowledge();
        } else {
            self.post.report();
        }
        self.known.state = WorkerState::Answered(phase);
        Some(OnPost::Answer)
    }

    fn saw_ending(&self) -> bool
        ensures { IsTrue result → SawEnding (P.view self.now.post).last }
    {
        matches!(self.known.last, Some(sight) if sight.ending)
    }

    // Whether it runs a joined phase.
    fn runs_joined(&self) -> bool
        ensures { IsTrue result → RunsJoined (P.view self.now.post).state }
    {
        matches!(self.known.state, WorkerState::Runs(phase) if phase % 2 == 0)
    }

    // Whether page 0 is there, and sliced in the phase that it runs.
    fn splits_first(&self) -> bool
        ensures { IsTrue result → SplitsFirst (P.view self.now.post) }
    {
        let WorkerState::Runs(phase) = self.known.state else {
            return false;
        };
        phase % 2 == 1
            && self.known.pages > 0
            && (self.known.is_marked || self.known.hot_in == Some(phase))
    }

    // The count of a page before this many likes are added.
    fn add(&mut self, page: u32, likes: u64) -> u64
        requires may { MayAdd (P.view self.old.post) page likes }
        requires room { likes ≤ self.old.known.room }
        ensures { KeepsPlace (P.board self.old.post) (P.view self.old.post)
            (P.board self.new.post) (P.view self.new.post) }
    {
        let old = self.post.add(page, likes);
        self.known.room -= likes;
        if page == 0 {
            self.known.likes += likes;
        }
        old
    }

    fn likes(&mut self, page: u32) -> Option<OnPost>
        ensures { KeepsPlace (P.board self.old.post) (P.view self.old.post)
            (P.board self.new.post) (P.view self.new.post) }
    {
        if !self.runs_joined() || page >= self.known.pages || self.known.room == 0 {
            return None;
        }
        Some(OnPost::Like(page, self.add(page, 1)))
    }

    fn merges(&mut self, likes: u64) -> Option<OnPost>
        ensures { KeepsPlace (P.board self.old.post) (P.view self.old.post)
            (P.board self.new.post) (P.view self.new.post) }
    {
        let may_merge = self.saw_ending() && self.splits_first();
        if !may_merge || likes == 0 || likes > self.known.room {
            return None;
        }
        Some(OnPost::Merge(likes, self.add(0, likes)))
    }

    fn reads(&mut self, page: u32) -> Option<OnPost>
        ensures { KeepsPlace (P.board self.old.post) (P.view self.old.post)
            (P.board self.new.post) (P.view self.new.post) }
    {
        if !self.runs_joined() || page >= self.known.pages {
            return None;
        }
        Some(OnPost::Read(page, self.post.read(page)))
    }

    fn glances(&mut self) -> Option<OnPost>
        ensures { KeepsPlace (P.board self.old.post) (P.view self.old.post)
            (P.board self.new.post) (P.view self.new.post) }
    {
        if !self.splits_first() {
            return None;
        }
        Some(OnPost::Glance(self.post.glance(0)))
    }

    fn learns(&mut self) -> Option<OnPost>
        ensures { KeepsPlace (P.board self.old.post) (P.view self.old.post)
            (P.board self.new.post) (P.view self.new.post) }
    {
        match self.known.state {
            WorkerState::Runs(phase) if phase % 2 == 1 => {
                let mask = self.post.hot();
                self.known.hot_in = if mask == 1 { Some(phase) } else { None };
                Some(OnPost::Hot(mask))
            }
            _ => None,
        }
    }

    fn retires(&mut self) -> Option<OnPost>
        ensures { KeepsPlace (P.board self.old.post) (P.view self.old.post)
            (P.board self.new.post) (P.view self.new.post) }
    {
        if !self.runs_joined() {
            return None;
        }
        self.post.retire();
        self.known.state = WorkerState::Gone;
        Some(OnPost::Retire)
    }
}
