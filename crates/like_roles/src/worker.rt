ghost use Rattle.std.specs.Prelude.{◌≡◌, ◌<◌, ◌≤◌, true, IfOk, IfErr, IsSome, None, Some};
ghost use Rattle.like_core.specs.declared.worker_state.WorkerState.TheVariants.{Gone};
ghost use Rattle.like_core.specs.PhaseMasks.{AreMasksOf};
ghost use Rattle.like_requests.specs.Setup.{IsWithin};
ghost use Rattle.like_seat.specs.StationView.{IsSliceInSplit};
ghost use Rattle.like_roles.specs.worker.New.{IsNewAt, IsPostOf};
ghost use Rattle.like_roles.specs.worker.Follows.{Follows, IsAskedBy, IsDone, IsWorkloadOf};
ghost use Rattle.like_promises.specs.Workload.{Workload};
ghost use Rattle.like_roles.specs.worker.Turns.{CanGive, Gives, HasTaken, Pends, TakesNothing, Turns};

mod judged;
mod ledger;
mod ranks;
mod tasks;

pub use self::tasks::Work;
use crate::terms::Terms;
use crate::turn::Turn;
use like_core::Post;
use like_promises::WorkerLog;
use like_requests::{Gate, Setup, Taken};
use std::alloc::Global;
use std::marker::Model;

/// A worker: it takes the requests of its submitters and runs them at its post, phase by phase.
///
/// Its submitters are `w`, `w + N`, `w + 2 N`, .. for worker `w` of `N`; rank `j` belongs to submitter `w + j N`.
#[derive(Drop)]
pub struct Worker<P: Post> {
    post: P,
    work: Work,
}

impl<P: Post> Model for Worker<P> {
    ghost use Rattle.like_roles.specs.worker.Posted.{PostedWorker};

    ghost Value = { PostedWorker };

    ghost use Rattle.like_roles.specs.worker.Work.{worker_at, IsReady};

    ghost view = { λ w. record { board = P.board w.post; worker = worker_at (P.view w.post) w.work } };

    ghost invariant = { λ w. IsReady (P.view w.post) w.work };
}

/// There is no memory for a worker. The post is given back.
#[derive(Drop)]
pub struct NoWorker<P: Post> {
    pub post: P,
}

impl<P: Post> Worker<P> {
    /// Worker `worker` of a run with this many requests of each submitter. It notes its additions. All its memory is
    /// taken here: its turns take none.
    pub fn new(
        alloc: Global,
        setup: &Setup,
        sizes: &[u32],
        worker: u32,
        post: P,
    ) -> Result<Worker<P>, NoWorker<P>>
        requires within { IsWithin setup.now sizes.now }
        requires is_worker { worker < setup.now.workers }
        requires post { IsPostOf worker setup.now.pages (P.view post) }
        ensures new { IfOk result (IsNewAt setup.now (record { sizes = sizes.entry; notes = true }) worker
            (P.board post) (P.view post)) }
        ensures follows { IfOk result
            (λ worker. (workload : Workload)
            → IsWorkloadOf setup.now sizes.now workload
            → Follows workload worker.worker) }
        ensures post { IfErr result (λ refused. refused.post ≡ post) }
    {
        Worker::on_terms(alloc, setup, Terms { sizes, notes: true }, worker, post)
    }

    /// Worker `worker` of a run on these terms. All its memory is taken here.
    pub fn on_terms(
        alloc: Global,
        setup: &Setup,
        terms: Terms<'_>,
        worker: u32,
        post: P,
    ) -> Result<Worker<P>, NoWorker<P>>
        requires within { IsWithin setup.now terms.sizes.now }
        requires is_worker { worker < setup.now.workers }
        requires post { IsPostOf worker setup.now.pages (P.view post) }
        ensures new { IfOk result (IsNewAt setup.now terms.entry worker (P.board post) (P.view post)) }
        ensures follows { IfOk result
            (λ worker. (workload : Workload)
            → IsWorkloadOf setup.now terms.entry.sizes.now workload
            → Follows workload worker.worker) }
        ensures post { IfErr result (λ refused. refused.post ≡ post) }
    {
        match Work::new(alloc, setup, terms, worker) {
            Ok(work) => Ok(Worker { post, work }),
            Err(_) => Err(NoWorker { post }),
        }
    }

    /// Makes the next turn. After `Try` it is completed by `give`.
    pub fn turn<G: Gate>(&mut self, gate: &G) -> Turn
        requires { self.old.worker.pending ≡ None }
        ensures board { self.new.board ≡ self.old.board }
        ensures case { Turns self.old.worker result self.new.worker }
        ensures follows { (workload : Workload) → AreMasksOf workload.hot self.new.worker.post.masks
            → Follows workload self.old.worker → Follows workload self.new.worker }
        ensures takes { TakesNothing self.old.worker self.new.worker }
        ensures pending { Pends result self.new.worker }
        ensures retired { result ≡ Turn.Retired → self.new.worker.post.state ≡ Gone }
        ensures stash { 1 ≤ self.new.worker.stash.capacity }
        ensures slice { IsSliceInSplit self.new.worker.post self.new.worker.slice }
    {
        self.work.turn(&mut self.post, gate)
    }

    /// After `Try`, the rank of the submitter that it tries.
    pub fn tried(&self) -> usize
        requires { IsSome self.now.worker.pending }
        ensures { self.now.worker.pending ≡ Some result }
    {
        self.work.tried()
    }

    /// Completes a turn that answered `Try`, by what was taken from that submitter.
    pub fn give<G: Gate>(&mut self, gate: &G, taken: Taken) -> Turn
        requires tries { IsSome self.old.worker.pending }
        requires next { CanGive self.old.worker taken }
        ensures board { self.new.board ≡ self.old.board }
        ensures case { Gives self.old.worker taken result self.new.worker }
        ensures follows { (workload : Workload) → IsAskedBy workload self.old.worker taken
            → Follows workload self.old.worker → Follows workload self.new.worker }
        ensures takes { HasTaken self.old.worker taken self.new.worker }
        ensures settled { self.new.worker.pending ≡ None }
        ensures stash { 1 ≤ self.new.worker.stash.capacity }
        ensures slice { IsSliceInSplit self.new.worker.post self.new.worker.slice }
    {
        self.work.give(&mut self.post, gate, taken)
    }

    /// Gives the post back, whatever is left to do.
    pub fn leave(self) -> P
        ensures board { P.board result ≡ self.board }
        ensures post { P.view result ≡ self.worker.post }
    {
        let Worker { post, .. } = self;
        post
    }

    /// Takes a worker that is gone apart: what it has done, and its post.
    pub fn finish(self) -> (WorkerLog, P)
        requires { self.worker.post.state ≡ Gone }
        ensures taken { result.0.taken.items ≡ self.worker.taken }
        ensures ran { result.0.ran.items ≡ self.worker.ran }
        ensures adds { result.0.adds.items ≡ self.worker.adds }
        ensures last { result.0.last ≡ self.worker.last }
        ensures board { P.board result.1 ≡ self.board }
        ensures post { P.view result.1 ≡ self.worker.post }
        ensures done { (workload : Workload) → Follows workload self.worker → IsDone workload self.worker }
    {
        let Worker { post, work } = self;
        (work.finish(), post)
    }
}
