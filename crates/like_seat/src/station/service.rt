//! What a station of a service has in place of one of a run.
ghost use Rattle.std.specs.Prelude.{◌≡◌, ◌≢◌, ◌^◌, ◌≤◌, false, true, IfErr, IfNone, IfOk, IfSome, IsTrue};
ghost use Rattle.like_core.specs.declared.worker_state.WorkerState.TheVariants.{Gone};
ghost use Rattle.like_core.specs.OpeningLimits.{AreLimits, has_slots};
ghost use Rattle.like_core.specs.core.Moves.{LetsReturn};
ghost use Rattle.like_core.specs.Post.{IsFresh, number_of, pages_of, returned};
ghost use Rattle.like_limits.specs.Limits.{max_stash};
ghost use Rattle.like_seat.specs.Kept.{IsOfService};
ghost use Rattle.like_seat.specs.StationView.{IsStation};
ghost use Rattle.like_seat.specs.Steps.{ComesBack, IsNewStation, LooksAndEnters};

use crate::station::{NoStation, Station};
use crate::tables::Tables;
use like_core::{Post, Returns, Sight, SlotPost, WorkerState};
use like_tables::{BucketCounts, Counts, Users};
use std::alloc::Global;

impl<P: Post, W: Copy> Station<P, W, BucketCounts> {
    /// A station of a service that has done nothing yet, at a board with this factor for buckets.
    pub fn of_service(
        alloc: Global,
        post: P,
        factor: u32,
        room: u32,
        last: Users,
    ) -> Result<Self, NoStation<P>>
        requires fresh { IsFresh (P.view post) }
        requires limits { AreLimits (P.view post).opening.limits }
        requires few_pages { pages_of (P.view post) ≤ (P.view post).opening.limits.pages }
        requires service { IsOfService (P.view post).opening }
        requires factor { factor ≡ (P.view post).opening.factor }
        requires least { 2 ^ 22 ≤ factor }
        requires some { 1 ≤ room }
        requires few { room ≤ max_stash }
        ensures new { IfOk result (IsNewStation (P.board post) (P.view post) room last) }
        ensures post { IfErr result (λ refused. refused.post ≡ post) }
    {
        match Tables::of_service(alloc, factor, room, last) {
            Ok(tables) => Ok(Station { post, tables }),
            Err(_) => Err(NoStation { post }),
        }
    }
}

impl<P: SlotPost, W: Copy, C: Counts> Station<P, W, C> {
    /// Looks at the phase word, in a service. If the next phase was released, it enters that, and reads the slots of a
    /// split one.
    #[inline(always)]
    pub fn look_with_slots(&mut self) -> Sight
        requires here { self.old.post.state ≢ Gone }
        requires slotted { has_slots self.old.post.opening.limits ≡ true }
        ensures { LooksAndEnters self.old result self.new }
    {
        let sight = self.post.look();
        if let WorkerState::Answered(phase) = self.tables.state {
            if !sight.waits {
                self.tables.enter_slots(&mut self.post, phase + 1);
            }
        }
        sight
    }
}

/// How often a station tries to come back, where others change the phase word meanwhile.
const TRIES: u32 = 64;

/// Brings a worker back, and tells the phase that it then runs. `None`, with nothing done, if none of 64 tries did.
pub fn come_back<P: Returns>(post: &mut P) -> Option<u64>
    requires gone { (P.view post.old).state ≡ Gone }
    requires lets { LetsReturn (P.view post.old).opening.limits }
    ensures board { P.board post.new ≡ P.board post.old }
    ensures back { IfSome result (λ phase. P.view post.new ≡ returned (P.view post.old) phase (number_of (P.view post.new))) }
    ensures within { IfSome result (λ phase. phase ≤ (P.view post.old).opening.limits.last_phase) }
    ensures none { IfNone result (P.view post.new ≡ P.view post.old) }
{
    for _ in 0..TRIES {
        if let Some(phase) = post.come_back() {
            return Some(phase);
        }
    }
    None
}

impl<P: SlotPost + Returns, W: Copy, C: Counts> Station<P, W, C> {
    /// Brings a station that is gone back into the present phase, which it then runs, a split one with its slots read.
    /// `false`, with nothing done, if that phase is ending or others changed the phase word at each of 64 tries.
    pub fn come_back(&mut self) -> bool
        requires gone { self.old.post.state ≡ Gone }
        requires slotted { has_slots self.old.post.opening.limits ≡ true }
        requires lets { LetsReturn self.old.post.opening.limits }
        ensures back { IsTrue result → ComesBack self.old self.new }
        ensures none { result ≡ false → self.new ≡ self.old }
        ensures station { IsStation self.new }
    {
        let Some(phase) = come_back(&mut self.post) else {
            return false;
        };
        self.tables.enter_slots(&mut self.post, phase);
        true
    }
}
