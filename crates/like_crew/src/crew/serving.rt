ghost use Rattle.std.specs.Prelude.{◌≡◌, ◌<◌, ◌/◌, ℕ, List, [], IfOk, length, map, true};
ghost use Rattle.like_core.specs.declared.view.WorkerSeatView.{WorkerSeatView};
ghost use Rattle.like_core.specs.declared.worker_state.WorkerState.TheVariants.{Gone};
ghost use Rattle.like_requests.specs.Setup.{IsWithin};
ghost use Rattle.like_queue.specs.Inbox.{view_of};
ghost use Rattle.like_roles.specs.worker.New.{IsNew, IsPostOf};
ghost use Rattle.like_roles.specs.worker.Work.{worker_at};
ghost use Rattle.like_promises.specs.Workload.{Workload};
ghost use Rattle.like_roles.specs.worker.Follows.{IsWorkloadOf};
ghost use Rattle.like_crew.specs.Fresh.{IsModelled};
ghost use Rattle.like_crew.specs.Server.{AreInboxesFor, AreOwnPlans, IsLogOf, ServerGoesOn, WorksFor};
ghost use Rattle.like_crew.specs.ServerTurns.{OpensAll, OpensOne, ServerTurns, TakesOpen};
ghost use Rattle.like_crew.specs.Serving.{IsServing, lists_at, server_at};

use like_core::Post;
use like_promises::WorkerLog;
use like_queue::{Inbox, ListInbox, TakeWith};
use like_requests::Setup;
use like_roles::{Gate, Terms, Turn, Work};
use std::alloc::{AllocError, Global};

/// A worker's work with the inboxes of the submitters that it serves, its post aside: the inbox with rank `j` is that
/// of submitter `w + j N`, for worker `w` of `N`.
#[derive(Drop)]
pub(crate) struct Serving<I: Inbox> {
    pub work: Work,
    // How many workers there are.
    pub workers: u32,
    pub inboxes: Vec<I>,
}

impl<I: Inbox> Serving<I> {
    /// Worker `number` of a run on these terms, with the inboxes of its submitters. All its memory is taken here: its
    /// turns take none.
    pub fn new(
        alloc: Global,
        setup: &Setup,
        terms: Terms<'_>,
        number: u32,
        inboxes: Vec<I>,
    ) -> Result<Serving<I>, AllocError>
        requires within { IsWithin setup.now terms.sizes.now }
        requires is_worker { number < setup.now.workers }
        requires inboxes { AreInboxesFor setup.now terms.sizes.now number (map I.view inboxes.items) }
        ensures serving { IfOk result (λ s. (post : WorkerSeatView) → IsPostOf number setup.now.pages post
            → IsServing I.view post s) }
        ensures new { IfOk result (λ s. (post : WorkerSeatView) → IsPostOf number setup.now.pages post
            → IsNew setup.now terms.entry number post (worker_at post s.work)) }
        ensures inboxes { IfOk result (λ s. s.inboxes ≡ inboxes) }
        ensures works { IfOk result (λ s. (post : WorkerSeatView) → IsPostOf number setup.now.pages post
            → (workload : Workload) → IsWorkloadOf setup.now terms.entry.sizes.now workload
            → AreOwnPlans workload setup.now.workers number (map I.view inboxes.items)
            → WorksFor workload (server_at I.view I.opened [] post s)) }
    {
        Ok(Serving {
            work: Work::new(alloc, setup, terms, number)?,
            workers: setup.workers,
            inboxes,
        })
    }

    /// Makes one whole turn of the worker, at its post. If it tries a submitter, it is given what that submitter's inbox
    /// has.
    pub fn turn<P: Post, G: Gate, R>(&mut self, rt: &R, post: &mut P, gate: &G) -> Turn
    where
        I: TakeWith<R>,
        requires { IsServing I.view (P.view post.old) self.old }
        ensures serving { IsServing I.view (P.view post.new) self.new }
        ensures board { P.board post.new ≡ P.board post.old }
        ensures case { (board : List ℕ) → ServerTurns result (server_at I.view I.opened board (P.view post.old) self.old)
            (server_at I.view I.opened board (P.view post.new) self.new) }
        ensures modelled { (board : List ℕ) → IsModelled (server_at I.view I.opened board (P.view post.old) self.old)
            (server_at I.view I.opened board (P.view post.new) self.new) }
        ensures only_open { I.only_open ≡ true → (board : List ℕ)
            → TakesOpen (server_at I.view I.opened board (P.view post.old) self.old)
            (server_at I.view I.opened board (P.view post.new) self.new) }
        ensures goes_on { (board : List ℕ) → ServerGoesOn (server_at I.view I.opened board (P.view post.old) self.old)
            (server_at I.view I.opened board (P.view post.new) self.new) }
        ensures retired { result ≡ Turn.Retired → (P.view post.new).state ≡ Gone }
    {
        match self.work.turn(post, gate) {
            Turn::Try { .. } => {
                let place = self.work.tried();
                let taken = self.inboxes[place].take_with(rt);
                self.work.give(post, gate, taken)
            }
            turn => turn,
        }
    }

    /// What a worker that is gone has done.
    pub fn finish(self) -> WorkerLog
        ensures { (board : List ℕ) (post : WorkerSeatView) → IsServing I.view post self → post.state ≡ Gone
            → IsLogOf (server_at I.view I.opened board post self) result }
    {
        let Serving { work, .. } = self;
        work.finish()
    }
}

impl Serving<ListInbox> {
    /// Opens one item more of a submitter's list.
    pub fn open_one(&mut self, submitter: u32)
        requires some { 0 < self.old.workers }
        requires there { submitter / self.old.workers < length self.old.inboxes.items }
        ensures { (board : List ℕ) (post : WorkerSeatView) → IsServing view_of post self.old
            → IsServing view_of post self.new
            × OpensOne submitter (lists_at board post self.old) (lists_at board post self.new) }
    {
        let place = (submitter / self.workers) as usize;
        self.inboxes[place].open_one();
    }

    /// Opens all lists.
    pub fn open_all(&mut self)
        ensures { (board : List ℕ) (post : WorkerSeatView) → IsServing view_of post self.old
            → IsServing view_of post self.new
            × OpensAll (lists_at board post self.old) (lists_at board post self.new) }
    {
        let places = self.inboxes.len();
        for place in 0..places {
            self.inboxes[place].open_all();
        }
    }
}
