ghost use Rattle.std.specs.Prelude.{◌≡◌, ◌≤◌, IfErr, IfOk};
ghost use Rattle.like_board.specs.Led.{IsLedBy, IsSightOf, ShowsTold, led};
ghost use Rattle.like_board.specs.Seats.{board_id};
ghost use Rattle.like_core.specs.Phase.{last_phase, IsJoined};
ghost use Rattle.like_core.specs.OpeningLimits.{run_limits};
ghost use Rattle.like_core.specs.views.Actions.{Surveys};
ghost use Rattle.like_core.specs.views.Views.{SawAllIn};
ghost use Rattle.like_seat.specs.Lead.{saw_word};
ghost use Rattle.like_roles.specs.coordinator.Choice.{Chooses, choice_of, ReleasesNext};
ghost use Rattle.like_roles.specs.coordinator.CoordTurns.{ChoseByCounts, CoordTurns, CoordinatorGoesOn, HasEndedJoined, HasReleasedNone, IsBeforeEnd, IsCoordinating, TurnsAt, new_coordinator};

mod choices;

use self::choices::Choices;
use crate::coord_turn::CoordTurn;
use like_board::{Board, CoordSeat, LeadSeat, LeadsAt, OwnCoordSeat};
use like_core::{CoordSight, LAST_PHASE};
use like_promises::Chosen;
use like_seat::{LeadOf, NoLead};
use std::alloc::Global;
use std::marker::Model;

/// The coordinator: it ends each phase after some turns, and releases the next when all workers have answered.
#[derive(Drop)]
pub struct CoordinatorOf<S: LeadSeat> {
    lead: LeadOf<S>,
    /// How many turns it counts in each phase.
    turns: u32,
    /// How many of them the present phase has left.
    left: u32,
    /// The phase of its last look.
    phase: u32,
    choices: Choices,
}

/// The coordinator of a board that threads share.
pub type Coordinator = CoordinatorOf<CoordSeat>;

/// The coordinator of a board that one thread owns.
pub type OwnCoordinator = CoordinatorOf<OwnCoordSeat>;

impl<S: LeadSeat> Model for CoordinatorOf<S> {
    ghost use Rattle.std.specs.Prelude.{◌≡◌};
    ghost use Rattle.like_core.specs.OpeningLimits.{run_limits};
    ghost use Rattle.like_roles.specs.coordinator.CoordTurns.{CoordinatorView, coordinator_of};

    ghost Value = { CoordinatorView };

    ghost view = { λ c. coordinator_of c.lead c.turns c.left c.phase c.choices };

    ghost invariant = { λ c. c.lead.seat.opening.limits ≡ run_limits };
}

/// There is no memory for a coordinator. The seat is given back.
#[derive(Drop)]
pub struct NoCoordinator<S: LeadSeat> {
    pub seat: S,
}

// Looks at the phase word of a run.
fn look_at_run<B, S: LeadsAt<B>>(lead: &mut LeadOf<S>, board: &mut B) -> CoordSight
    requires here { IsLedBy (S.tells board.old) lead.old.board lead.old.seat }
    requires run { lead.old.seat.opening.limits ≡ run_limits }
    ensures saw { lead.new ≡ saw_word lead.old lead.new.seat.word result }
    ensures shows { IsSightOf lead.old.seat result }
    ensures within { lead.old.seat.phase ≤ last_phase }
    ensures event { Surveys lead.old.seat result lead.new.seat }
    ensures fresh { ShowsTold (S.tells board.old) lead.old.seat.phase result }
    ensures led { S.tells board.new ≡ led (S.tells board.old) lead.new.seat }
{
    lead.look_at(board)
}

// Chooses the hot pages of the phase that follows this joined one, and publishes them.
fn choose<B, S: LeadsAt<B>>(lead: &mut LeadOf<S>, choices: &mut Choices, board: &mut B, phase: u32)
    requires here { IsLedBy (S.tells board.old) lead.old.board lead.old.seat }
    requires saw { SawAllIn lead.old.seat }
    requires joined { IsJoined lead.old.seat.phase }
    requires run { lead.old.seat.opening.limits ≡ run_limits }
    requires phase { phase ≡ lead.old.seat.phase }
    requires within { phase ≤ last_phase }
    ensures board { lead.new.board ≡ lead.old.board }
    ensures case { let v = choice_of lead.old choices.old in
        let w = choice_of lead.new choices.new in
        Chooses lead.old.seat v lead.new.seat w }
    ensures led { S.tells board.new ≡ led (S.tells board.old) lead.new.seat }
{
    let risen = lead.choose_at(board);
    let mask = choices.limited(risen);
    choices.note(phase + 1, mask);
    lead.publish_at(board, mask);
}

// Releases the phase that follows this one; before a split one it chooses that phase's hot pages.
fn release<B, S: LeadsAt<B>>(lead: &mut LeadOf<S>, choices: &mut Choices, board: &mut B, phase: u32)
    requires here { IsLedBy (S.tells board.old) lead.old.board lead.old.seat }
    requires saw { SawAllIn lead.old.seat }
    requires run { lead.old.seat.opening.limits ≡ run_limits }
    requires phase { phase ≡ lead.old.seat.phase }
    requires within { phase ≤ last_phase }
    ensures board { lead.new.board ≡ lead.old.board }
    ensures releases { let v = choice_of lead.old choices.old in
        let w = choice_of lead.new choices.new in
        ReleasesNext lead.old.seat v lead.new.seat w }
    ensures led { S.tells board.new ≡ led (S.tells board.old) lead.new.seat }
{
    if lead.is_joined() {
        choose(lead, choices, board, phase);
    }
    lead.release_at(board);
}

impl<S: LeadSeat> CoordinatorOf<S> {
    /// A coordinator of a board with these first counts, which counts `turns` turns in each phase. If `hot` is a
    /// number, it chooses hot pages before each split phase: those of the first 64 pages that got that many likes since
    /// the choice before, in at most 1,024 phases. All memory is taken here, and none by its turns.
    pub fn new(
        alloc: Global,
        seat: S,
        turns: u32,
        hot: Option<u32>,
        counts: &[u64],
    ) -> Result<CoordinatorOf<S>, NoCoordinator<S>>
        requires counts { counts.now ≡ (S.view seat).opening.counts }
        requires limits { (S.view seat).opening.limits ≡ run_limits }
        ensures new { IfOk result (λ coordinator. coordinator
            ≡ new_coordinator (S.board seat) (S.view seat) turns hot) }
        ensures coordinating { IfOk result
            (λ coordinator. HasReleasedNone (S.view seat) → IsCoordinating coordinator) }
        ensures seat { IfErr result (λ refused. refused.seat ≡ seat) }
    {
        let Ok(choices) = Choices::new(alloc) else {
            return Err(NoCoordinator { seat });
        };
        match LeadOf::new(alloc, seat, hot, counts) {
            Ok(lead) => Ok(CoordinatorOf {
                lead,
                turns,
                left: turns,
                phase: 0,
                choices,
            }),
            Err(NoLead { seat }) => Err(NoCoordinator { seat }),
        }
    }

    /// Makes the next turn, with one look at the phase word, at a board of either kind. At one that one thread owns, the
    /// look shows what all workers know, and nothing else than what the coordinator knows has changed after the turn.
    pub fn turn_at<B>(&mut self, board: &mut B) -> CoordTurn
    where
        S: LeadsAt<B>,
        requires { IsLedBy (S.tells board.old) self.old.board self.old.seat }
        ensures case { TurnsAt (S.tells board.old) self.old result self.new }
        ensures led { S.tells board.new ≡ led (S.tells board.old) self.new.seat }
        ensures goes_on { CoordinatorGoesOn self.old self.new }
        ensures keeps { IsBeforeEnd self.old → IsBeforeEnd self.new }
        ensures ended { IsBeforeEnd self.old → result ≡ CoordTurn.Ended → HasEndedJoined self.new }
        ensures chose { ChoseByCounts self.old → ChoseByCounts self.new }
    {
        self.act(board)
    }

    /// The phase of its last look, and 0 before.
    pub fn phase(&self) -> u32
        ensures { result ≡ self.now.phase }
    {
        self.phase
    }

    /// Gives the seat back, and the choices of some page in order.
    pub fn finish(self) -> (S, Vec<Chosen>)
        ensures board { S.board result.0 ≡ self.board }
        ensures view { S.view result.0 ≡ self.seat }
        ensures chosen { result.1.items ≡ self.choice.chosen }
    {
        (self.lead.finish(), self.choices.noted)
    }

    // Looks, and does what the sight asks for.
    fn act<B>(&mut self, board: &mut B) -> CoordTurn
    where
        S: LeadsAt<B>,
        requires { IsLedBy (S.tells board.old) self.old.board self.old.seat }
        ensures case { TurnsAt (S.tells board.old) self.old result self.new }
        ensures led { S.tells board.new ≡ led (S.tells board.old) self.new.seat }
    {
        let sight = look_at_run(&mut self.lead, board);
        let phase = sight.number as u32;
        self.phase = phase;
        if sight.all_gone {
            return CoordTurn::Ended;
        }
        if sight.ending && sight.all_in {
            release(&mut self.lead, &mut self.choices, board, phase);
            self.left = self.turns;
            return CoordTurn::Released;
        }
        if sight.ending {
            return CoordTurn::Waiting;
        }
        if self.left > 0 {
            self.left -= 1;
            return CoordTurn::Counted;
        }
        if phase == LAST_PHASE {
            return CoordTurn::Stays;
        }
        self.lead.announce_at(board);
        CoordTurn::Announced
    }
}

impl CoordinatorOf<CoordSeat> {
    /// Makes the next turn, with one look at the phase word.
    pub fn turn(&mut self, board: &Board) -> CoordTurn
        requires { self.old.board ≡ board_id board.now }
        ensures case { CoordTurns self.old result self.new }
        ensures goes_on { CoordinatorGoesOn self.old self.new }
        ensures keeps { IsBeforeEnd self.old → IsBeforeEnd self.new }
        ensures ended { IsBeforeEnd self.old → result ≡ CoordTurn.Ended → HasEndedJoined self.new }
        ensures chose { ChoseByCounts self.old → ChoseByCounts self.new }
    {
        let mut at = board;
        self.turn_at(&mut at)
    }
}
