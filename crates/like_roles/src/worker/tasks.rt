ghost use Rattle.std.specs.Prelude.{◌≡◌, ◌<◌, IfOk, IsSome, None, Some};
ghost use Rattle.like_core.specs.PhaseMasks.{AreMasksOf};
ghost use Rattle.like_core.specs.WorkerState.{phase_of};
ghost use Rattle.like_core.specs.declared.view.WorkerSeatView.{WorkerSeatView};
ghost use Rattle.like_core.specs.declared.worker_state.WorkerState.TheVariants.{Gone};
ghost use Rattle.like_promises.specs.Workload.{Workload};
ghost use Rattle.like_requests.specs.Setup.{IsWithin};
ghost use Rattle.like_roles.specs.worker.Follows.{Follows, IsAskedBy, IsWorkloadOf};
ghost use Rattle.like_roles.specs.worker.New.{IsNew, IsPostOf};
ghost use Rattle.like_roles.specs.worker.Turns.{CanGive, Gives, HasTaken, Pends, TakesNothing, Turns};
ghost use Rattle.like_roles.specs.worker.Work.{IsReady, worker_at};

mod additions;
mod request;
mod taken;
mod turns;

use crate::terms::Terms;
use crate::turn::Turn;
use crate::worker::ledger::Ledger;
use like_core::Post;
use like_promises::WorkerLog;
use like_requests::{Gate, Setup, Taken};
use like_seat::Tables;
use like_tables::{Held, Slice, Users};
use std::alloc::{AllocError, Global};

/// What a worker of a run keeps for its post.
pub(crate) type RunTables = Tables<Held, Slice>;

/// A worker's work, its post aside: it takes the requests of its submitters and runs them at the post that each turn
/// lends it, phase by phase.
#[derive(Drop)]
pub struct Work {
    pub(crate) tables: RunTables,
    pub(crate) ledger: Ledger,
}

impl Work {
    /// The work of worker `worker` of a run on these terms. All its memory is taken here: its turns take none.
    pub fn new(
        alloc: Global,
        setup: &Setup,
        terms: Terms<'_>,
        worker: u32,
    ) -> Result<Work, AllocError>
        requires within { IsWithin setup.now terms.sizes.now }
        requires is_worker { worker < setup.now.workers }
        ensures ready { IfOk result (λ work. (post : WorkerSeatView) → IsPostOf worker setup.now.pages post
            → IsReady post work) }
        ensures new { IfOk result (λ work. (post : WorkerSeatView) → IsPostOf worker setup.now.pages post
            → IsNew setup.now terms.entry worker post (worker_at post work)) }
        ensures follows { IfOk result (λ work. (post : WorkerSeatView) → IsPostOf worker setup.now.pages post
            → (workload : Workload) → IsWorkloadOf setup.now terms.entry.sizes.now workload
            → Follows workload (worker_at post work)) }
    {
        let marks = setup.pages.marks(alloc)?;
        let last = Users::new(
            alloc,
            setup.users,
            terms.sizes.len() as u32,
            setup.workers,
            worker,
        )?;
        let ledger = Ledger::new(alloc, setup, terms, worker)?;
        let tables = Tables::of_run(alloc, marks, setup.stash, last)?;
        Ok(Work { tables, ledger })
    }

    /// Makes the next turn, at its post. After `Try` it is completed by `give`.
    pub fn turn<P: Post, G: Gate>(&mut self, post: &mut P, gate: &G) -> Turn
        requires ready { IsReady (P.view post.old) self.old }
        requires untried { (worker_at (P.view post.old) self.old).pending ≡ None }
        ensures ready { IsReady (P.view post.new) self.new }
        ensures board { P.board post.new ≡ P.board post.old }
        ensures case { Turns (worker_at (P.view post.old) self.old) result (worker_at (P.view post.new) self.new) }
        ensures follows { (workload : Workload) → AreMasksOf workload.hot (P.view post.new).masks
            → Follows workload (worker_at (P.view post.old) self.old)
            → Follows workload (worker_at (P.view post.new) self.new) }
        ensures takes { TakesNothing (worker_at (P.view post.old) self.old) (worker_at (P.view post.new) self.new) }
        ensures pending { Pends result (worker_at (P.view post.new) self.new) }
        ensures retired { result ≡ Turn.Retired → (P.view post.new).state ≡ Gone }
    {
        self.next_turn(post, gate)
    }

    /// After `Try`, the rank of the submitter that it tries.
    pub fn tried(&self) -> usize
        requires { IsSome self.now.ledger.pending }
        ensures { self.now.ledger.pending ≡ Some result }
    {
        match self.ledger.pending {
            Some(rank) => rank,
            None => unreachable!(),
        }
    }

    /// Completes a turn that answered `Try`, by what was taken from that submitter.
    pub fn give<P: Post, G: Gate>(&mut self, post: &mut P, gate: &G, taken: Taken) -> Turn
        requires ready { IsReady (P.view post.old) self.old }
        requires tries { IsSome self.old.ledger.pending }
        requires next { CanGive (worker_at (P.view post.old) self.old) taken }
        ensures ready { IsReady (P.view post.new) self.new }
        ensures board { P.board post.new ≡ P.board post.old }
        ensures case { Gives (worker_at (P.view post.old) self.old) taken result
            (worker_at (P.view post.new) self.new) }
        ensures follows { (workload : Workload) → IsAskedBy workload (worker_at (P.view post.old) self.old) taken
            → Follows workload (worker_at (P.view post.old) self.old)
            → Follows workload (worker_at (P.view post.new) self.new) }
        ensures takes { HasTaken (worker_at (P.view post.old) self.old) taken (worker_at (P.view post.new) self.new) }
        ensures settled { (worker_at (P.view post.new) self.new).pending ≡ None }
    {
        self.take_given(post, gate, taken)
    }

    /// What a worker that is gone has done.
    pub fn finish(self) -> WorkerLog
        ensures taken { result.taken.items ≡ self.ledger.taken.items }
        ensures ran { result.ran.items ≡ self.ledger.ran.items }
        ensures adds { result.adds.items ≡ self.ledger.adds.items }
        ensures last { result.last ≡ self.tables.last }
    {
        let Work { tables, ledger } = self;
        let Ledger {
            taken,
            ran,
            adds,
            ..
        } = ledger;
        WorkerLog {
            taken,
            ran,
            adds,
            last: tables.finish(),
        }
    }

    // The phase that it runs or has answered, which in a run is below 2^24.
    fn phase(&self) -> u32
        requires { phase_of self.now.tables.state < 4294967296 }
        ensures { result ≡ phase_of self.now.tables.state }
    {
        self.tables.phase() as u32
    }
}
