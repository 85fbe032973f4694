ghost use Rattle.std.specs.Prelude.{◌≡◌, ◌≢◌, false};
ghost use Rattle.like_core.specs.declared.worker_state.WorkerState.TheVariants.{Gone};
ghost use Rattle.like_core.specs.OpeningLimits.{has_slots};
ghost use Rattle.like_core.specs.Post.{answered, retired};
ghost use Rattle.like_core.specs.WorkerState.{RunsJoined, SawEnding};
ghost use Rattle.like_seat.specs.Kept.{IsKept, view_of};
ghost use Rattle.like_seat.specs.Steps.{LooksAndEnters};

use crate::tables::Tables;
use like_core::{Post, Sight, WorkerState};
use like_tables::Counts;

impl<W: Copy, C: Counts> Tables<W, C> {
    /// Looks at the phase word, in a run. If the next phase was released, it enters that, and reads the mask of a split
    /// one.
    #[inline(always)]
    pub fn look<P: Post>(&mut self, post: &mut P) -> Sight
        requires kept { IsKept (P.view post.old) self.old }
        requires here { (P.view post.old).state ≢ Gone }
        requires plain { has_slots (P.view post.old).opening.limits ≡ false }
        ensures kept { IsKept (P.view post.new) self.new }
        ensures looks { LooksAndEnters (view_of (P.board post.old) (P.view post.old) self.old) result
            (view_of (P.board post.new) (P.view post.new) self.new) }
    {
        let sight = post.look();
        if let WorkerState::Answered(phase) = self.state {
            if !sight.waits {
                self.enter(post, phase + 1);
            }
        }
        sight
    }

    /// Stops at the end of a joined phase, and waits for the release of the next.
    #[cold]
    #[inline(never)]
    pub fn acknowledge<P: Post>(&mut self, post: &mut P)
        requires kept { IsKept (P.view post.old) self.old }
        requires runs { RunsJoined (P.view post.old).state }
        requires ending { SawEnding (P.view post.old).last }
        ensures kept { IsKept (P.view post.new) self.new }
        ensures stops { let s = view_of (P.board post.old) (P.view post.old) self.old in
            view_of (P.board post.new) (P.view post.new) self.new ≡ record s { post = answered s.post } }
    {
        self.state = WorkerState::Answered(self.phase());
        post.acknowledge();
    }

    /// Ends the worker's part, in a joined phase.
    pub fn retire<P: Post>(&mut self, post: &mut P)
        requires kept { IsKept (P.view post.old) self.old }
        requires runs { RunsJoined (P.view post.old).state }
        ensures kept { IsKept (P.view post.new) self.new }
        ensures ends { let s = view_of (P.board post.old) (P.view post.old) self.old in
            view_of (P.board post.new) (P.view post.new) self.new ≡ record s { post = retired s.post } }
    {
        self.state = WorkerState::Gone;
        post.retire();
    }
}
