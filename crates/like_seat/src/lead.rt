ghost use Rattle.std.specs.Prelude.{◌≡◌, ◌%◌, ◌==◌, false, IfErr, IfOk, length, min};
ghost use Rattle.like_board.specs.Led.{IsLedBy, ShowsTold, led};
ghost use Rattle.like_limits.specs.Limits.{hot_pages};
ghost use Rattle.like_core.specs.OpeningLimits.{has_slots};
ghost use Rattle.like_core.specs.Phase.{IsJoined};
ghost use Rattle.like_core.specs.views.Views.{MayAnnounce, MayPublish, MayRelease, SawAllIn};
ghost use Rattle.like_seat.specs.Lead.{ChoosesRisen, Sees, announced, new_lead, published, released};

mod counts;
mod shared;
mod slots;

use self::counts::count_risen;
use like_board::{CoordSeat, LeadSeat, LeadsAt};
use like_core::{CoordSight, HOT_PAGES};
use std::alloc::{AllocError, Global};
use std::marker::Model;

/// Leads the phases of a board by a coordinator's seat: it ends a phase, chooses the hot pages of the next one, and
/// releases it.
///
/// Each step is at its seat's board, which is passed.
#[derive(Drop)]
pub struct LeadOf<S: LeadSeat> {
    seat: S,
    /// How many likes since the last choice make a page hot, if any do.
    hot: Option<u32>,
    /// The counts at the last choice of the pages that may be hot.
    before: Vec<u64>,
}

/// A lead of a board that threads share.
pub type Lead = LeadOf<CoordSeat>;

impl<S: LeadSeat> Model for LeadOf<S> {
    ghost use Rattle.std.specs.Prelude.{◌≡◌, length, min};
    ghost use Rattle.like_limits.specs.Limits.{hot_pages};
    ghost use Rattle.like_seat.specs.Lead.{LeadView};

    ghost Value = { LeadView };

    ghost view = { λ l. record {
      board = S.board l.seat;
      seat = S.view l.seat;
      hot = l.hot;
      before = l.before.items;
    } };

    ghost invariant = { λ l. length l.before.items ≡ min hot_pages (length (S.view l.seat).opening.counts) };
}

/// There is no memory for a lead. The seat is given back.
#[derive(Drop)]
pub struct NoLead<S: LeadSeat> {
    pub seat: S,
}

impl<S: LeadSeat> LeadOf<S> {
    /// The lead of a board that was made with these counts. If `hot` is a number, those of the first 64 pages are hot
    /// in a split phase that got that many likes since the choice before. All its memory is taken here: its steps take
    /// none.
    pub fn new(
        alloc: Global,
        seat: S,
        hot: Option<u32>,
        counts: &[u64],
    ) -> Result<LeadOf<S>, NoLead<S>>
        requires counts { counts.now ≡ (S.view seat).opening.counts }
        ensures new { IfOk result (λ lead. lead ≡ new_lead (S.board seat) (S.view seat) hot counts.now) }
        ensures seat { IfErr result (λ refused. refused.seat ≡ seat) }
    {
        let few = counts.len().min(HOT_PAGES as usize);
        match Vec::from_slice(alloc, &counts[..few]) {
            Ok(before) => Ok(LeadOf { seat, hot, before }),
            Err(AllocError) => Err(NoLead { seat }),
        }
    }

    /// The present phase.
    pub fn phase(&self) -> u64
        ensures { result ≡ self.now.seat.phase }
    {
        self.seat.phase()
    }

    /// Whether the present phase is joined.
    pub fn is_joined(&self) -> bool
        ensures { result ≡ (self.now.seat.phase % 2 == 0) }
    {
        self.phase() % 2 == 0
    }

    /// Looks at the phase word, at a board of either kind. At one that one thread owns the sight shows what all workers
    /// know.
    pub fn look_at<B>(&mut self, board: &mut B) -> CoordSight
    where
        S: LeadsAt<B>,
        requires { IsLedBy (S.tells board.old) self.old.board self.old.seat }
        ensures sees { Sees self.old result self.new }
        ensures fresh { ShowsTold (S.tells board.old) self.old.seat.phase result }
        ensures led { S.tells board.new ≡ led (S.tells board.old) self.new.seat }
    {
        self.seat.look(board)
    }

    /// Announces the end of the phase, at a board of either kind.
    pub fn announce_at<B>(&mut self, board: &mut B)
    where
        S: LeadsAt<B>,
        requires here { IsLedBy (S.tells board.old) self.old.board self.old.seat }
        requires running { MayAnnounce self.old.seat }
        ensures announced { self.new ≡ announced self.old }
        ensures led { S.tells board.new ≡ led (S.tells board.old) self.new.seat }
    {
        self.seat.announce(board);
    }

    /// Chooses the hot pages of the next split phase, on a board without slots: those of the first 64 pages whose counts
    /// rose enough since its last choice. It gives their mask.
    pub fn choose_at<B>(&mut self, board: &mut B) -> u64
    where
        S: LeadsAt<B>,
        requires here { IsLedBy (S.tells board.old) self.old.board self.old.seat }
        requires saw { SawAllIn self.old.seat }
        requires joined { IsJoined self.old.seat.phase }
        requires plain { has_slots self.old.seat.opening.limits ≡ false }
        ensures chooses { ChoosesRisen self.old result self.new }
        ensures few { length self.new.before ≡ min hot_pages (length self.new.seat.opening.counts) }
        ensures may { MayPublish self.new.seat result }
        ensures led { S.tells board.new ≡ led (S.tells board.old) self.new.seat }
    {
        match self.hot {
            Some(least) => count_risen(&mut self.seat, board, least, &mut self.before),
            None => 0,
        }
    }

    /// Stores the mask of hot pages with which the split phase that comes next is to be released.
    pub fn publish_at<B>(&mut self, board: &mut B, mask: u64)
    where
        S: LeadsAt<B>,
        requires here { IsLedBy (S.tells board.old) self.old.board self.old.seat }
        requires may { MayPublish self.old.seat mask }
        ensures published { self.new ≡ published self.old mask }
        ensures led { S.tells board.new ≡ led (S.tells board.old) self.new.seat }
    {
        self.seat.publish(board, mask);
    }

    /// Releases the next phase, a split one with the mask that was published last, at a board of either kind.
    pub fn release_at<B>(&mut self, board: &mut B)
    where
        S: LeadsAt<B>,
        requires here { IsLedBy (S.tells board.old) self.old.board self.old.seat }
        requires may { MayRelease self.old.seat }
        ensures released { self.new ≡ released self.old }
        ensures led { S.tells board.new ≡ led (S.tells board.old) self.new.seat }
    {
        self.seat.release(board);
    }

    /// Gives the seat back.
    pub fn finish(self) -> S
        ensures board { S.board result ≡ self.board }
        ensures view { S.view result ≡ self.seat }
    {
        self.seat
    }
}
