ghost use Rattle.std.specs.Prelude.{◌≡◌, ◌<◌, IfOk, IfErr, length, map, true};
ghost use Rattle.like_core.specs.declared.worker_state.WorkerState.TheVariants.{Gone};
ghost use Rattle.like_requests.specs.Setup.{IsWithin};
ghost use Rattle.like_roles.specs.worker.New.{IsNew, IsPostOf};
ghost use Rattle.like_promises.specs.Workload.{Workload};
ghost use Rattle.like_roles.specs.worker.Follows.{IsWorkloadOf};
ghost use Rattle.like_crew.specs.Fresh.{IsModelled};
ghost use Rattle.like_crew.specs.Server.{AreInboxesFor, AreOwnPlans, IsLogOf, ServerGoesOn, WorksFor};
ghost use Rattle.like_crew.specs.ServerTurns.{OpensAll, OpensOne, ServerTurns, TakesOpen, rank_at};

mod own_server;

pub use self::own_server::OwnServer;
use crate::crew::serving::Serving;
use like_core::Post;
use like_promises::WorkerLog;
use like_queue::{Inbox, ListInbox, TakeWith};
use like_requests::Setup;
use like_roles::{Gate, NoWorker, Terms, Turn};
use std::alloc::Global;
use std::marker::Model;

/// A worker at its post, with the inboxes of the submitters that it serves: the inbox with rank `j` is that of
/// submitter `w + j N`, for worker `w` of `N`.
#[derive(Drop)]
pub struct Server<P: Post, I: Inbox> {
    post: P,
    serving: Serving<I>,
}

impl<P: Post, I: Inbox> Model for Server<P, I> {
    ghost use Rattle.like_crew.specs.Server.{ServerView};
    ghost use Rattle.like_crew.specs.Serving.{IsServing, server_at};

    ghost Value = { ServerView };

    ghost view = { λ s. server_at I.view I.opened (P.board s.post) (P.view s.post) s.serving };

    ghost invariant = { λ s. IsServing I.view (P.view s.post) s.serving };
}

impl<P: Post, I: Inbox> Server<P, I> {
    /// Worker `number` of a run on these terms, at its post, with the inboxes of its submitters. All its memory is
    /// taken here: its turns take none.
    pub fn new(
        alloc: Global,
        setup: &Setup,
        terms: Terms<'_>,
        number: u32,
        post: P,
        inboxes: Vec<I>,
    ) -> Result<Server<P, I>, NoWorker<P>>
        requires within { IsWithin setup.now terms.sizes.now }
        requires is_worker { number < setup.now.workers }
        requires post { IsPostOf number setup.now.pages (P.view post) }
        requires inboxes { AreInboxesFor setup.now terms.sizes.now number (map I.view inboxes.items) }
        ensures board { IfOk result (λ server. server.board ≡ P.board post) }
        ensures new { IfOk result (λ server.
            IsNew setup.now terms.entry number (P.view post) server.worker) }
        ensures inboxes { IfOk result (λ server. server.inboxes ≡ map I.view inboxes.items) }
        ensures opened { IfOk result (λ server. server.opened ≡ map I.opened inboxes.items) }
        ensures works { IfOk result (λ server. (workload : Workload)
            → IsWorkloadOf setup.now terms.entry.sizes.now workload
            → AreOwnPlans workload setup.now.workers number (map I.view inboxes.items) → WorksFor workload server) }
        ensures post { IfErr result (λ refused. refused.post ≡ post) }
    {
        match Serving::new(alloc, setup, terms, number, inboxes) {
            Ok(serving) => Ok(Server { post, serving }),
            Err(_) => Err(NoWorker { post }),
        }
    }

    /// How many inboxes it has.
    pub fn inbox_count(&self) -> usize
        ensures { result ≡ length self.now.inboxes }
    {
        self.serving.inboxes.len()
    }

    /// Makes one whole turn of the worker. If it tries a submitter, it is given what that submitter's inbox has.
    pub fn turn<G: Gate, R>(&mut self, rt: &R, gate: &G) -> Turn
    where
        I: TakeWith<R>,
        ensures case { ServerTurns result self.old self.new }
        ensures modelled { IsModelled self.old self.new }
        ensures only_open { I.only_open ≡ true → TakesOpen self.old self.new }
        ensures goes_on { ServerGoesOn self.old self.new }
        ensures retired { result ≡ Turn.Retired → self.new.worker.post.state ≡ Gone }
    {
        self.serving.turn(rt, &mut self.post, gate)
    }

    /// Gives the post back, whatever is left to do.
    pub fn leave(self) -> P
        ensures board { P.board result ≡ self.board }
        ensures post { P.view result ≡ self.worker.post }
    {
        let Server { post, .. } = self;
        post
    }

    /// Takes it apart when its worker is gone: what the worker has done, and its post.
    pub fn finish(self) -> (WorkerLog, P)
        requires { self.worker.post.state ≡ Gone }
        ensures log { IsLogOf self result.0 }
        ensures board { P.board result.1 ≡ self.board }
        ensures post { P.view result.1 ≡ self.worker.post }
    {
        let Server { post, serving } = self;
        (serving.finish(), post)
    }
}

impl<P: Post> Server<P, ListInbox> {
    /// Opens one item more of a submitter's list.
    pub fn open_one(&mut self, submitter: u32)
        requires { rank_at self.old submitter < length self.old.inboxes }
        ensures opens { OpensOne submitter self.old self.new }
        ensures goes_on { ServerGoesOn self.old self.new }
    {
        self.serving.open_one(submitter);
    }

    /// Opens all lists.
    pub fn open_all(&mut self)
        ensures opens { OpensAll self.old self.new }
        ensures goes_on { ServerGoesOn self.old self.new }
    {
        self.serving.open_all();
    }
}
