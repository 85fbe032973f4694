ghost use Rattle.std.specs.Prelude.{◌≡◌, ◌<◌, [], IfOk, length, map, slice_set, true};
ghost use mathlib.Core.Option.{some};
ghost use lib.ListN.{get_elem?};
ghost use Rattle.like_core.specs.declared.view.CoordSeatView.{CoordSeatView};
ghost use Rattle.like_core.specs.declared.view.View.TheVariants.{Coord, Worker};
ghost use Rattle.like_core.specs.declared.worker_state.WorkerState.TheVariants.{Gone};
ghost use Rattle.like_board.specs.Lent.{HasFound, HasLooked};
ghost use Rattle.like_board.specs.Own.{own_place, own_view, own_views, Knows};
ghost use Rattle.like_promises.specs.Workload.{Workload};
ghost use Rattle.like_requests.specs.Setup.{IsWithin};
ghost use Rattle.like_roles.specs.worker.Follows.{IsWorkloadOf};
ghost use Rattle.like_roles.specs.worker.New.{IsNew, IsPostOf};
ghost use Rattle.like_crew.specs.Fresh.{IsModelled, LooksFresh};
ghost use Rattle.like_crew.specs.Server.{AreInboxesFor, AreOwnPlans, IsLogOf, ServerGoesOn, WorksFor};
ghost use Rattle.like_crew.specs.ServerTurns.{OpensAll, OpensOne, ServerTurns, TakesOpen, rank_at};

use crate::crew::serving::Serving;
use like_board::{LentPost, OwnBoard, OwnWorkerSeat};
use like_promises::WorkerLog;
use like_queue::{Inbox, ListInbox, TakeWith};
use like_requests::Setup;
use like_roles::{Gate, Terms, Turn};
use std::alloc::{AllocError, Global};
use std::marker::Model;

/// A worker with the inboxes of the submitters that it serves, and its seat at a board that its thread owns, which each
/// turn lends to it.
#[derive(Drop)]
pub struct OwnServer<I: Inbox> {
    seat: OwnWorkerSeat,
    serving: Serving<I>,
}

impl<I: Inbox> Model for OwnServer<I> {
    ghost use Rattle.std.specs.Prelude.{[]};
    ghost use Rattle.like_board.specs.Own.{own_place, own_view};
    ghost use Rattle.like_crew.specs.OwnServer.{OwnServerView};
    ghost use Rattle.like_crew.specs.Serving.{IsServing, server_at};

    ghost Value = { OwnServerView };

    ghost view = { λ s. record {
      server = server_at I.view I.opened [] (own_view s.seat) s.serving;
      place = own_place s.seat;
    } };

    ghost invariant = { λ s. IsServing I.view (own_view s.seat) s.serving };
}

impl<I: Inbox> OwnServer<I> {
    /// Worker `number` of a run on these terms, at its seat, with the inboxes of its submitters. All its memory is
    /// taken here: its turns take none.
    pub fn new(
        alloc: Global,
        setup: &Setup,
        terms: Terms<'_>,
        number: u32,
        seat: OwnWorkerSeat,
        inboxes: Vec<I>,
    ) -> Result<OwnServer<I>, AllocError>
        requires within { IsWithin setup.now terms.sizes.now }
        requires is_worker { number < setup.now.workers }
        requires post { IsPostOf number setup.now.pages (own_view seat) }
        requires inboxes { AreInboxesFor setup.now terms.sizes.now number (map I.view inboxes.items) }
        ensures new { IfOk result (λ s. IsNew setup.now terms.entry number (own_view seat) s.server.worker) }
        ensures board { IfOk result (λ s. s.server.board ≡ []) }
        ensures place { IfOk result (λ s. s.place ≡ own_place seat) }
        ensures inboxes { IfOk result (λ s. s.server.inboxes ≡ map I.view inboxes.items) }
        ensures opened { IfOk result (λ s. s.server.opened ≡ map I.opened inboxes.items) }
        ensures works { IfOk result (λ s. (workload : Workload)
            → IsWorkloadOf setup.now terms.entry.sizes.now workload
            → AreOwnPlans workload setup.now.workers number (map I.view inboxes.items) → WorksFor workload s.server) }
    {
        let serving = Serving::new(alloc, setup, terms, number, inboxes)?;
        Ok(OwnServer { seat, serving })
    }

    /// Makes one whole turn of the worker, to which the board is lent. What all other seats know stays as it was, its look
    /// shows the phase as the coordinator knows it, and its steps at pages find what all seats have added by then.
    pub fn turn<G: Gate, R>(&mut self, rt: &R, gate: &G, board: &mut OwnBoard) -> Turn
    where
        I: TakeWith<R>,
        requires { Knows board.old self.old.place (Worker self.old.server.worker.post) }
        ensures case { ServerTurns result self.old.server self.new.server }
        ensures modelled { IsModelled self.old.server self.new.server }
        ensures only_open { I.only_open ≡ true → TakesOpen self.old.server self.new.server }
        ensures goes_on { ServerGoesOn self.old.server self.new.server }
        ensures retired { result ≡ Turn.Retired → self.new.server.worker.post.state ≡ Gone }
        ensures fresh { (c : CoordSeatView) → get_elem? (own_views board.old) 0 ≡ some (Coord c)
            → LooksFresh c.phase c.ending self.old.server self.new.server }
        ensures looked { HasLooked (get_elem? (own_views board.old) 0) self.old.server.worker.post
            self.new.server.worker.post }
        ensures found { HasFound (own_views board.old) self.old.server.worker.post self.new.server.worker.post }
        ensures place { self.new.place ≡ self.old.place }
        ensures views { own_views board.new
            ≡ slice_set (own_views board.old) self.old.place (Worker self.new.server.worker.post) }
    {
        let mut post = LentPost::lend(board, &mut self.seat);
        self.serving.turn(rt, &mut post, gate)
    }

    /// Takes it apart when its worker is gone: what the worker has done, and its seat.
    pub fn finish(self) -> (WorkerLog, OwnWorkerSeat)
        requires { self.server.worker.post.state ≡ Gone }
        ensures log { IsLogOf self.server result.0 }
        ensures seat { own_view result.1 ≡ self.server.worker.post }
        ensures place { own_place result.1 ≡ self.place }
    {
        let OwnServer { seat, serving } = self;
        (serving.finish(), seat)
    }
}

impl OwnServer<ListInbox> {
    /// Opens one item more of a submitter's list.
    pub fn open_one(&mut self, submitter: u32)
        requires { rank_at self.old.server submitter < length self.old.server.inboxes }
        ensures opens { OpensOne submitter self.old.server self.new.server }
        ensures goes_on { ServerGoesOn self.old.server self.new.server }
        ensures place { self.new.place ≡ self.old.place }
        ensures post { self.new.server.worker.post ≡ self.old.server.worker.post }
    {
        self.serving.open_one(submitter);
    }

    /// Opens all lists.
    pub fn open_all(&mut self)
        ensures opens { OpensAll self.old.server self.new.server }
        ensures goes_on { ServerGoesOn self.old.server self.new.server }
        ensures place { self.new.place ≡ self.old.place }
        ensures post { self.new.server.worker.post ≡ self.old.server.worker.post }
    {
        self.serving.open_all();
    }
}
