ghost use Rattle.std.specs.Prelude.{◌≡◌, ◌↔◌, ◌<◌, [], IfOk, Some, length, map, slice_get, true};
ghost use Rattle.std.specs.List.{AllZip};
ghost use Rattle.like_core.specs.declared.worker_state.WorkerState.TheVariants.{Gone};
ghost use Rattle.like_requests.specs.Setup.{IsWithinLimits};
ghost use Rattle.like_promises.specs.Workload.{lists_of};
ghost use Rattle.like_roles.specs.coordinator.CoordTurns.{HasEndedJoined};
ghost use Rattle.like_roles.specs.declared.coord_turn.CoordTurn.{CoordTurn as Answer};
ghost use Rattle.like_roles.specs.declared.coord_turn.CoordTurn.TheVariants.{Ended};
ghost use Rattle.like_crew.specs.Crew.{AreGone, GoesOn, HasInbox, IsCrewAt, IsNewCrew};
ghost use Rattle.like_crew.specs.Outcome.{IsOutcome};
ghost use Rattle.like_crew.specs.Server.{ServerView};
ghost use Rattle.like_crew.specs.ServerTurns.{OpensAll, OpensOne, rank_at};
ghost use Rattle.like_crew.specs.Steps.{AtServer, FreshRound, IsFreshTurn, LeadsFresh, MakesFreshTurn, MakesTurns, OpensMore};

use crate::crew::list_inboxes;
use crate::crew::own_servers::{finish_own, own_servers};
use crate::crew::server::OwnServer;
use crate::outcome::Outcome;
use like_board::OwnBoard;
use like_queue::ListInbox;
use like_requests::{Request, Setup};
use like_roles::{CoordTurn, NoGate, OwnCoordinator, Terms, Turn};
use std::alloc::{AllocError, Global};
use std::marker::Model;

/// The crew of a run on one thread that owns its board, which it lends for each turn: the coordinator, and for each
/// worker, in order, its server.
#[derive(Drop)]
pub struct OwnCrew {
    board: OwnBoard,
    coordinator: OwnCoordinator,
    servers: Vec<OwnServer<ListInbox>>,
    // The count of each page at the start.
    counts: Vec<u64>,
}

impl Model for OwnCrew {
    ghost use Rattle.std.specs.Prelude.{◌≡◌, length};
    ghost use Rattle.like_crew.specs.Crew.{CrewView};
    ghost use Rattle.like_board.specs.Own.{own_views};
    ghost use Rattle.like_roles.specs.coordinator.CoordTurns.{IsCoordinating};
    ghost use Rattle.like_crew.specs.OwnCrew.{servers_of, AreSeated};

    ghost Value = { CrewView };

    ghost view = { λ c. record { coordinator = c.coordinator; servers = servers_of c.servers.items } };

    ghost invariant = { λ c. AreSeated (own_views c.board) c.coordinator.seat c.servers.items
        × (length c.counts.items ≡ length c.coordinator.seat.opening.counts)
        × IsCoordinating c.coordinator };
}

impl OwnCrew {
    /// The crew of a run within the limits and on these terms, at a new board, with the lists of the submitters. None
    /// of their requests is open.
    pub fn new(
        alloc: Global,
        setup: &Setup,
        terms: Terms<'_>,
        plans: Vec<Vec<Request>>,
    ) -> Result<OwnCrew, AllocError>
        requires within { IsWithinLimits setup.now (lists_of plans.items) }
        requires sizes { terms.sizes.now ≡ map length (lists_of plans.items) }
        ensures crew { IfOk result (IsCrewAt setup.now (lists_of plans.items) [] terms.entry.notes) }
        ensures new { IfOk result (IsNewCrew setup.now (lists_of plans.items)) }
    {
        let counts = setup.pages.counts(alloc)?;
        let marks = setup.pages.marks(alloc)?;
        let (board, coord, seats) = OwnBoard::new(alloc, setup.workers, &counts, &marks)?;
        let inboxes = list_inboxes(alloc, plans)?;
        let servers = own_servers(alloc, setup, terms, seats, inboxes)?;
        let Ok(coordinator) = OwnCoordinator::new(alloc, coord, setup.turns, setup.hot, &counts)
        else {
            return Err(AllocError);
        };
        Ok(OwnCrew {
            board,
            coordinator,
            servers,
            counts,
        })
    }

    /// Makes one turn of the coordinator and one of each worker, in order, and says whether the run ended with it.
    pub fn round(&mut self) -> bool
        ensures round { FreshRound result self.old self.new }
        ensures goes_on { GoesOn self.old self.new }
        ensures ended { result ≡ true → HasEndedJoined self.new.coordinator }
        ensures gone { result ≡ true → AreGone self.new.servers }
    {
        let ended = self.ends();
        let gone = self.turns();
        ended && gone
    }

    /// Makes one turn of the coordinator.
    pub fn turn(&mut self) -> CoordTurn
        ensures leads { LeadsFresh result self.old self.new }
        ensures goes_on { GoesOn self.old self.new }
        ensures ended { result ≡ CoordTurn.Ended → HasEndedJoined self.new.coordinator }
    {
        self.coordinator.turn_at(&mut self.board)
    }

    /// Makes one turn of a worker.
    pub fn turn_of(&mut self, worker: u32) -> Turn
        requires { worker < length self.old.servers }
        ensures case { AtServer worker (IsFreshTurn self.old result) self.old.servers self.new.servers }
        ensures rest { self.new.coordinator ≡ self.old.coordinator }
        ensures goes_on { GoesOn self.old self.new }
    {
        self.turn_at(worker as usize)
    }

    /// Opens one item more of a submitter's list.
    pub fn open_one(&mut self, submitter: u32)
        requires { HasInbox self.old.servers submitter }
        ensures opens { OpensMore submitter self.old.servers self.new.servers }
        ensures rest { self.new.coordinator ≡ self.old.coordinator }
        ensures goes_on { GoesOn self.old self.new }
    {
        let worker = submitter as usize % self.servers.len();
        self.open_list_of(worker, submitter);
    }

    /// Opens all lists.
    pub fn open_all(&mut self)
        ensures opens { AllZip OpensAll self.old.servers self.new.servers }
        ensures rest { self.new.coordinator ≡ self.old.coordinator }
        ensures goes_on { GoesOn self.old self.new }
    {
        let workers = self.servers.len();
        for worker in 0..workers {
            self.open_lists_of(worker);
        }
    }

    /// Takes it apart when its run has ended: its board is closed.
    pub fn finish(self, alloc: Global) -> Result<Outcome, AllocError>
        requires gone { AreGone self.servers }
        requires all { length self.servers ≡ self.coordinator.seat.opening.workers }
        requires ended { HasEndedJoined self.coordinator }
        ensures { IfOk result (IsOutcome (λ crew. crew ≡ self)) }
    {
        let OwnCrew {
            board,
            coordinator,
            servers,
            mut counts,
        } = self;
        let (logs, seats) = finish_own(alloc, servers)?;
        let phases = coordinator.phase();
        let (coord, chosen) = coordinator.finish();
        board.close(coord, seats, &mut counts);
        Ok(Outcome {
            logs,
            counts,
            phases,
            chosen,
        })
    }

    // Makes one turn of the coordinator, and says whether it found the run ended.
    fn ends(&mut self) -> bool
        ensures leads { (answer : Answer) × (LeadsFresh answer self.old self.new × ((result ≡ true) ↔ (answer ≡ Ended))) }
        ensures goes_on { GoesOn self.old self.new }
        ensures ended { result ≡ true → HasEndedJoined self.new.coordinator }
    {
        match self.turn() {
            CoordTurn::Ended => true,
            _ => false,
        }
    }

    // Makes one turn of each worker, in order, and says whether all are gone.
    fn turns(&mut self) -> bool
        ensures turns { MakesTurns self.old self.new }
        ensures rest { self.new.coordinator ≡ self.old.coordinator }
        ensures goes_on { GoesOn self.old self.new }
        ensures gone { (result ≡ true) ↔ AreGone self.new.servers }
    {
        let mut gone = true;
        let workers = self.servers.len();
        for worker in 0..workers {
            let retired = self.retires(worker);
            gone = gone && retired;
        }
        gone
    }

    // Makes one turn of a worker, and says whether it is gone.
    fn retires(&mut self, worker: usize) -> bool
        requires { worker < length self.old.servers }
        ensures case { AtServer worker (λ s t. MakesFreshTurn self.old s t
            × ((result ≡ true) ↔ (t.worker.post.state ≡ Gone))) self.old.servers self.new.servers }
        ensures rest { self.new.coordinator ≡ self.old.coordinator }
        ensures goes_on { GoesOn self.old self.new }
    {
        match self.turn_at(worker) {
            Turn::Retired => true,
            _ => false,
        }
    }

    // Makes one turn of a worker.
    fn turn_at(&mut self, worker: usize) -> Turn
        requires { worker < length self.old.servers }
        ensures case { AtServer worker (λ s t. IsFreshTurn self.old result s t
            × (result ≡ Turn.Retired → t.worker.post.state ≡ Gone)) self.old.servers self.new.servers }
        ensures rest { self.new.coordinator ≡ self.old.coordinator }
        ensures goes_on { GoesOn self.old self.new }
    {
        self.servers[worker].turn(&(), &NoGate, &mut self.board)
    }

    // Opens one item more of the list of a submitter, which is a worker's.
    fn open_list_of(&mut self, worker: usize, submitter: u32)
        requires worker { worker < length self.old.servers }
        requires there { (s : ServerView) → slice_get self.old.servers worker ≡ Some s
            → rank_at s submitter < length s.inboxes }
        ensures opens { AtServer worker (OpensOne submitter) self.old.servers self.new.servers }
        ensures rest { self.new.coordinator ≡ self.old.coordinator }
        ensures goes_on { GoesOn self.old self.new }
    {
        self.servers[worker].open_one(submitter);
    }

    // Opens all lists of a worker's submitters.
    fn open_lists_of(&mut self, worker: usize)
        requires { worker < length self.old.servers }
        ensures opens { AtServer worker OpensAll self.old.servers self.new.servers }
        ensures rest { self.new.coordinator ≡ self.old.coordinator }
        ensures goes_on { GoesOn self.old self.new }
    {
        self.servers[worker].open_all();
    }
}
