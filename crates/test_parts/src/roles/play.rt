ghost use Rattle.std.specs.Prelude.{◌≡◌, ◌≤◌, IfOk, length, map};
ghost use Rattle.like_limits.specs.Limits.{max_workers};
ghost use Rattle.like_requests.specs.Setup.{IsWithinLimits};
ghost use Rattle.like_core.specs.OpeningLimits.{run_limits};
ghost use Rattle.like_board.specs.Seats.{board_id, coord_board, coord_view};
ghost use Rattle.like_requests.specs.Pages.{counts_of};
ghost use Rattle.like_promises.specs.Workload.{lists_of};
ghost use Rattle.like_roles.specs.worker.New.{AreNewSeats};

use super::gates::Expecting;
use super::player::Player;
use crate::asserts::assert_part;
use like_board::{Board, BoardPost, CoordSeat, WorkerSeat};
use like_core::Post;
use like_requests::{Request, Setup};
use like_roles::{Chosen, CoordTurn, Coordinator, Terms, Turn, WorkerLog};
use std::alloc::{AllocError, Global};
use std::process::Abort;
use std::test::Fail;

/// A step of a script, with its answer.
#[derive(Clone, Copy, Debug, PartialEq)]
pub enum Step {
    /// A turn of the coordinator.
    Coord(CoordTurn),
    /// A turn of this worker.
    Worker(u32, Turn),
}

/// Workers and the coordinator at one board, on one thread.
#[derive(Drop)]
pub struct Play<'a, P: Post> {
    board: &'a Board,
    coordinator: Coordinator,
    players: Vec<Player<'a, P>>,
    ghost here: { coordinator.board ≡ board_id board.now },
}

/// The board of some settings, with the coordinator's seat and each worker's.
pub fn board_of(
    alloc: Global,
    setup: &Setup,
) -> Result<(Board, CoordSeat, Vec<WorkerSeat>), AllocError>
    requires some { 1 ≤ setup.now.workers }
    requires few { setup.now.workers ≤ max_workers }
    ensures coord { IfOk result (λ r. coord_board r.1 ≡ board_id r.0) }
    ensures opened { IfOk result
        (λ r. (coord_view r.1).opening.counts ≡ counts_of setup.now.pages) }
    ensures run { IfOk result (λ r. (coord_view r.1).opening.limits ≡ run_limits) }
    ensures seats { IfOk result (λ r. AreNewSeats (board_id r.0) setup.now.pages r.2.items) }
    ensures len { IfOk result (λ r. length r.2.items ≡ setup.now.workers) }
{
    let counts = setup.pages.counts(alloc)?;
    let marks = setup.pages.marks(alloc)?;
    Board::new(alloc, setup.workers, counts.as_slice(), marks.as_slice())
}

// Seats the workers of a run on these terms, the last first.
fn seat_players<'a>(
    alloc: Global,
    setup: &Setup,
    plans: &'a [Vec<Request>],
    terms: Terms<'_>,
    board: &'a Board,
    seats: &mut Vec<WorkerSeat>,
    players: &mut Vec<Player<'a, BoardPost<'a>>>,
) -> Result<(), Fail>
    requires within { IsWithinLimits setup.now (lists_of plans.now) }
    requires sizes { terms.sizes.now ≡ map length (lists_of plans.now) }
    requires few { length terms.sizes.now ≤ setup.now.workers }
    requires seats { AreNewSeats (board_id board.now) setup.now.pages seats.old.items }
    requires len { length seats.old.items ≤ setup.now.workers }
{
    while let Some(seat) = seats.pop() {
        let number = seats.len() as u32;
        players.push(Player::new(alloc, setup, plans, terms, number, seat.at(board))?)?;
    }
    Ok(())
}

// The workers of a run on these terms, in order.
fn players_of<'a>(
    alloc: Global,
    setup: &Setup,
    plans: &'a [Vec<Request>],
    terms: Terms<'_>,
    board: &'a Board,
    mut seats: Vec<WorkerSeat>,
) -> Result<Vec<Player<'a, BoardPost<'a>>>, Fail>
    requires within { IsWithinLimits setup.now (lists_of plans.now) }
    requires sizes { terms.sizes.now ≡ map length (lists_of plans.now) }
    requires few { length terms.sizes.now ≤ setup.now.workers }
    requires seats { AreNewSeats (board_id board.now) setup.now.pages seats.items }
    requires len { length seats.items ≤ setup.now.workers }
{
    let mut players = Vec::new(alloc);
    seat_players(alloc, setup, plans, terms, board, &mut seats, &mut players)?;
    players.reverse();
    Ok(players)
}

// The coordinator of a run at its seat.
fn coordinator_of(alloc: Global, setup: &Setup, coord: CoordSeat) -> Result<Coordinator, AllocError>
    requires opened { (coord_view coord).opening.counts ≡ counts_of setup.now.pages }
    requires run { (coord_view coord).opening.limits ≡ run_limits }
    ensures { IfOk result (λ coordinator. coordinator.board ≡ coord_board coord) }
{
    let counts = setup.pages.counts(alloc)?;
    match Coordinator::new(alloc, coord, setup.turns, setup.hot, &counts) {
        Ok(coordinator) => Ok(coordinator),
        Err(_) => Err(AllocError),
    }
}

impl<'a> Play<'a, BoardPost<'a>> {
    /// The start of a run on these terms, with one submitter for each worker at most.
    pub fn new(
        alloc: Global,
        setup: &Setup,
        plans: &'a [Vec<Request>],
        terms: Terms<'_>,
        board: &'a Board,
        coord: CoordSeat,
        seats: Vec<WorkerSeat>,
    ) -> Result<Play<'a, BoardPost<'a>>, Fail>
        requires within { IsWithinLimits setup.now (lists_of plans.now) }
        requires sizes { terms.sizes.now ≡ map length (lists_of plans.now) }
        requires few { length terms.sizes.now ≤ setup.now.workers }
        requires coord { coord_board coord ≡ board_id board.now }
        requires opened { (coord_view coord).opening.counts ≡ counts_of setup.now.pages }
        requires run { (coord_view coord).opening.limits ≡ run_limits }
        requires seats { AreNewSeats (board_id board.now) setup.now.pages seats.items }
        requires len { length seats.items ≤ setup.now.workers }
    {
        Ok(Play {
            board,
            coordinator: coordinator_of(alloc, setup, coord)?,
            players: players_of(alloc, setup, plans, terms, board, seats)?,
        })
    }
}

impl<P: Post + Drop> Play<'_, P> {
    /// Makes the steps of a part of a case, and asserts that they are answered as they say.
    pub fn make(
        &mut self,
        rt: &impl Abort,
        gate: &Expecting,
        case: &str,
        part: usize,
        steps: &[Step],
    ) {
        for at in 0..steps.len() {
            let step = steps[at];
            let made = self.made(gate, step);
            assert_part(rt, case, part, at, made, Some(step));
        }
    }

    // Makes a step, and gives it with the answer that came. None if there is no such worker.
    fn made(&mut self, gate: &Expecting, step: Step) -> Option<Step> {
        match step {
            Step::Coord(_) => Some(Step::Coord(self.coordinator.turn(self.board))),
            Step::Worker(worker, _) => match self.players.get_mut(worker as usize) {
                Some(player) => Some(Step::Worker(worker, player.turn(gate))),
                None => None,
            },
        }
    }

    /// The phase that the coordinator saw last, its choices, and what the workers have done, who are gone.
    pub fn finish(
        self,
        rt: &impl Abort,
        alloc: Global,
        gate: &Expecting,
    ) -> (u32, Vec<Chosen>, Vec<WorkerLog>) {
        let Play {
            coordinator,
            players,
            ..
        } = self;
        let phase = coordinator.phase();
        let (_seat, chosen) = coordinator.finish();
        (phase, chosen, logs_of(rt, alloc, players, gate))
    }
}

// What workers have done, who are gone.
fn logs_of<P: Post + Drop>(
    rt: &impl Abort,
    alloc: Global,
    players: Vec<Player<'_, P>>,
    gate: &Expecting,
) -> Vec<WorkerLog> {
    let mut logs = Vec::new(alloc);
    for player in players {
        logs.push(player.finish(rt, gate)).expect(rt, "memory");
    }
    logs
}
