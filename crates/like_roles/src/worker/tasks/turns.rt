ghost use Rattle.std.specs.Prelude.{◌≡◌, ◌≢◌, ◌<◌, ◌+◌, ◌%◌, true, length, Some};
ghost use Rattle.like_core.specs.declared.worker_state.WorkerState.TheVariants.{Gone};
ghost use Rattle.like_core.specs.WorkerState.{IsSightOf, RunsJoined, RunsSplit, SawEnding};
ghost use Rattle.like_seat.specs.Steps.{Looks};
ghost use Rattle.like_tables.specs.Share.{submitter_of};
ghost use Rattle.like_roles.specs.worker.Ledger.{HasSubmitters};
ghost use Rattle.like_roles.specs.worker.Turns.{Turns, Works};
ghost use Rattle.like_roles.specs.worker.Work.{IsIdle, IsReady, station_at, worker_at};

use crate::turn::Turn;
use crate::worker::judged::Judged;
use crate::worker::ranks::next_open;
use crate::worker::tasks::Work;
use like_core::{Post, Sight};
use like_requests::Gate;

impl Work {
    /// Makes the next turn at a post, or the part of it up to the take.
    pub(crate) fn next_turn<P: Post, G: Gate>(&mut self, post: &mut P, gate: &G) -> Turn
        requires { IsIdle (P.view post.old) self.old }
        ensures ready { IsReady (P.view post.new) self.new }
        ensures board { P.board post.new ≡ P.board post.old }
        ensures case { Turns (worker_at (P.view post.old) self.old) result (worker_at (P.view post.new) self.new) }
    {
        if self.tables.is_gone() {
            return Turn::Retired;
        }
        let sight = self.look(post, gate);
        if sight.waits {
            return Turn::Waiting;
        }
        if self.tables.phase() % 2 == 0 {
            self.joined_turn(post, gate, sight.ending)
        } else {
            self.split_turn(post, sight.ending)
        }
    }

    // Looks at the phase word, and tells the gate of a phase that it enters.
    fn look<P: Post, G: Gate>(&mut self, post: &mut P, gate: &G) -> Sight
        requires idle { IsIdle (P.view post.old) self.old }
        requires there { (P.view post.old).state ≢ Gone }
        ensures idle { IsIdle (P.view post.new) self.new }
        ensures board { P.board post.new ≡ P.board post.old }
        ensures sight { IsSightOf (P.view post.old).state result }
        ensures looks { Looks (station_at (P.view post.old) self.old) result (station_at (P.view post.new) self.new) }
        ensures rest { self.new.ledger ≡ record self.old.ledger { started = true } }
    {
        let before = self.tables.phase();
        let sight = self.tables.look(post);
        if !self.ledger.started || self.tables.phase() != before {
            gate.phase(self.tables.users().worker(), self.phase());
        }
        self.ledger.started = true;
        sight
    }

    // The turn of a worker that runs a joined phase.
    fn joined_turn<P: Post, G: Gate>(&mut self, post: &mut P, gate: &G, ending: bool) -> Turn
        requires idle { IsIdle (P.view post.old) self.old }
        requires joined { RunsJoined (P.view post.old).state }
        requires ending { ending ≡ true → SawEnding (P.view post.old).last }
        ensures ready { IsReady (P.view post.new) self.new }
        ensures board { P.board post.new ≡ P.board post.old }
        ensures works { Works (worker_at (P.view post.old) self.old) ending result
            (worker_at (P.view post.new) self.new) }
    {
        if let Some(first) = self.tables.next_stashed() {
            let judged = Judged::of(self.tables.users(), &first);
            self.run(post, gate, first, judged, true);
            return Turn::Ran;
        }
        let Some(rank) = next_open(&self.ledger.ended, self.ledger.cursor) else {
            self.tables.retire(post);
            return Turn::Retired;
        };
        if ending {
            self.tables.acknowledge(post);
            return Turn::Acknowledged;
        }
        self.try_next(rank)
    }

    // The turn of a worker that runs a split phase.
    fn split_turn<P: Post>(&mut self, post: &mut P, ending: bool) -> Turn
        requires idle { IsIdle (P.view post.old) self.old }
        requires split { RunsSplit (P.view post.old).state }
        requires ending { ending ≡ true → SawEnding (P.view post.old).last }
        ensures ready { IsReady (P.view post.new) self.new }
        ensures board { P.board post.new ≡ P.board post.old }
        ensures works { Works (worker_at (P.view post.old) self.old) ending result
            (worker_at (P.view post.new) self.new) }
    {
        if ending {
            self.merge(post);
            self.tables.report(post);
            return Turn::Reported;
        }
        if self.tables.is_full() {
            return Turn::Idle;
        }
        match next_open(&self.ledger.ended, self.ledger.cursor) {
            Some(rank) => self.try_next(rank),
            None => Turn::Idle,
        }
    }

    // Tries the submitter at a rank. The next one is looked for after it.
    fn try_next(&mut self, rank: usize) -> Turn
        requires ranks { HasSubmitters self.old.tables.last.share self.old.ledger }
        requires there { rank < length self.old.ledger.ended.items }
        ensures tables { self.new.tables ≡ self.old.tables }
        ensures tried { self.new.ledger ≡ record self.old.ledger {
          pending = Some rank;
          cursor = (rank + 1) % length self.old.ledger.ended.items;
        } }
        ensures answer { let share = self.old.tables.last.share in
            result ≡ Turn.Try (submitter_of share.workers share.worker rank) }
    {
        self.ledger.pending = Some(rank);
        self.ledger.cursor = (rank + 1) % self.ledger.ended.len();
        Turn::Try {
            submitter: self.tables.users().submitter_at(rank),
        }
    }
}
