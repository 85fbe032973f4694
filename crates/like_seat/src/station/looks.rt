ghost use Rattle.std.specs.Prelude.{◌≡◌, ◌↔◌, IsTrue, false};
ghost use Rattle.like_core.specs.Post.{answered, retired};
ghost use Rattle.like_core.specs.WorkerState.{IsRunning, RunsJoined, SawEnding};
ghost use Rattle.like_seat.specs.StationView.{IsStation};
ghost use Rattle.like_seat.specs.Steps.{LooksAndEnters};

use crate::station::Station;
use like_core::{Post, Sight, WorkerState};
use like_tables::Counts;

impl<P: Post, W: Copy, C: Counts> Station<P, W, C> {
    /// Whether it runs a phase.
    #[inline(always)]
    pub fn runs(&self) -> bool
        ensures runs { IsTrue result ↔ IsRunning self.now.post.state }
        ensures station { IsStation self.now }
    {
        matches!(self.tables.state, WorkerState::Runs(_))
    }

    /// Looks at the phase word, for a station that runs a phase. It stays in that phase, and doesn't wait.
    #[inline(always)]
    pub fn look_on(&mut self) -> Sight
        requires running { IsRunning self.old.post.state }
        ensures looks { LooksAndEnters self.old result self.new }
        ensures goes_on { result.waits ≡ false }
        ensures stays { self.new.post.state ≡ self.old.post.state }
    {
        self.post.look()
    }

    /// Stops at the end of a joined phase, and waits for the release of the next.
    #[cold]
    #[inline(never)]
    pub fn acknowledge(&mut self)
        requires runs { RunsJoined self.old.post.state }
        requires ending { SawEnding self.old.post.last }
        ensures stops { self.new ≡ record self.old { post = answered self.old.post } }
        ensures station { IsStation self.new }
    {
        self.tables.acknowledge(&mut self.post);
    }

    /// Ends the worker's part, in a joined phase. No step may follow but `come_back`.
    pub fn retire(&mut self)
        requires { RunsJoined self.old.post.state }
        ensures ends { self.new ≡ record self.old { post = retired self.old.post } }
        ensures station { IsStation self.new }
    {
        self.tables.retire(&mut self.post);
    }
}
