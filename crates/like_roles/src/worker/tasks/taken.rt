ghost use Rattle.std.specs.Prelude.{◌≡◌, ◌<◌, ◌≤◌, length, slice_index, vec_len, vec_capacity, IsSome};
ghost use Rattle.like_roles.specs.worker.Ledger.{HasNotedTaken, IsTried};
ghost use Rattle.like_roles.specs.worker.Turns.{CanGive, Gives, IsNext, TakesAsk};
ghost use Rattle.like_roles.specs.worker.Work.{IsIdle, IsReady, station_at, worker_at};

use crate::turn::Turn;
use crate::worker::judged::Judged;
use crate::worker::ledger::Ledger;
use crate::worker::tasks::Work;
use like_core::Post;
use like_promises::Took;
use like_requests::{Gate, Numbered, Taken};
use like_tables::Held;

impl Work {
    /// Completes a turn by what was taken from the submitter that was tried.
    pub(crate) fn take_given<P: Post, G: Gate>(
        &mut self,
        post: &mut P,
        gate: &G,
        taken: Taken,
    ) -> Turn
        requires ready { IsReady (P.view post.old) self.old }
        requires tried { IsSome self.old.ledger.pending }
        requires given { CanGive (worker_at (P.view post.old) self.old) taken }
        ensures idle { IsIdle (P.view post.new) self.new }
        ensures board { P.board post.new ≡ P.board post.old }
        ensures case { Gives (worker_at (P.view post.old) self.old) taken result
            (worker_at (P.view post.new) self.new) }
    {
        let rank = self.tried();
        self.ledger.pending = None;
        match taken {
            Taken::Nothing => Turn::Nothing,
            Taken::End => {
                self.ledger.ended[rank] = true;
                Turn::TookEnd
            }
            Taken::Ask(ask) => self.take(post, gate, rank, ask),
        }
    }

    // Takes a request, and runs it or puts it into the stash.
    fn take<P: Post, G: Gate>(&mut self, post: &mut P, gate: &G, rank: usize, ask: Numbered) -> Turn
        requires idle { IsIdle (P.view post.old) self.old }
        requires tried { IsTried (station_at (P.view post.old) self.old) self.old.ledger rank }
        requires given { IsNext (worker_at (P.view post.old) self.old) rank ask }
        ensures idle { IsIdle (P.view post.new) self.new }
        ensures board { P.board post.new ≡ P.board post.old }
        ensures case { TakesAsk (worker_at (P.view post.old) self.old) rank ask result
            (worker_at (P.view post.new) self.new) }
    {
        let held = Held {
            submitter: self.tables.users().submitter_at(rank),
            ask,
        };
        let judged = Judged::of(self.tables.users(), &held);
        let waits = judged.waits(&self.tables, &held);
        let phase = self.phase();
        self.ledger.note_taken(phase, rank, held);
        if waits {
            self.tables.stash(held);
            return Turn::Stashed;
        }
        self.run(post, gate, held, judged, false);
        Turn::Ran
    }
}

impl Ledger {
    // Notes that a request was taken in a phase from the submitter at a rank.
    pub fn note_taken(&mut self, phase: u32, rank: usize, held: Held)
        requires there { rank < length self.old.left.items }
        requires some { 1 ≤ slice_index self.old.left.items rank }
        requires room { vec_len self.old.taken < vec_capacity self.old.taken }
        ensures { HasNotedTaken self.old self.new phase rank held }
    {
        self.left[rank] -= 1;
        self.taken.push_reserved(Took {
            phase,
            submitter: held.submitter,
            number: held.ask.number,
        });
    }
}
