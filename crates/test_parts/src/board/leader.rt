//! The coordinator of a board of one page.
ghost use Rattle.std.specs.Prelude.{◌≡◌, length, IsTrue, None};
ghost use Rattle.like_board.specs.Seats.{board_id, coord_board, coord_view};
ghost use Rattle.like_core.specs.Phase.{IsJoined};
ghost use Rattle.like_core.specs.views.Views.{MayAnnounce, SawAllIn};
ghost use Rattle.like_limits.specs.Limits.{hot_pages};
ghost use Rattle.test_parts.specs.Walk.{IsLed, KeepsSeat};

use super::calls::OnCoord;
use like_board::{Board, CoordSeat};
use like_core::CoordSight;

/// The coordinator's seat, with what is known of it.
#[derive(Drop)]
pub struct Leader {
    pub seat: CoordSeat,
    // Its last sight, if it has neither announced nor released since.
    saw: Option<CoordSight>,
    // Whether it has published a mask since that look.
    published: bool,
    ghost is: { IsLed (coord_view seat) saw published },
}

impl Leader {
    /// A seat on which no call was made.
    pub fn new(seat: CoordSeat) -> Leader
        requires one_page { length (coord_view seat).opening.counts ≡ 1 }
        requires plain { (coord_view seat).opening.limits.hot ≡ hot_pages }
        requires unseen { (coord_view seat).last ≡ None }
        ensures { result.seat ≡ seat }
    {
        Leader {
            seat,
            saw: None,
            published: false,
        }
    }

    /// Makes a call, and gives it with the answer that came. None if it may not be made.
    pub fn makes(&mut self, board: &Board, call: OnCoord) -> Option<OnCoord>
        requires { coord_board self.old.seat ≡ board_id board.now }
        ensures { KeepsSeat self.old.seat self.new.seat }
    {
        match call {
            OnCoord::Look(_, _, _, _) => Some(self.looks(board)),
            OnCoord::Announce => self.announces(board),
            OnCoord::Count(_) => self.counts(board),
            OnCoord::Publish(mask) => self.publishes(board, mask),
            OnCoord::Release => self.releases(board),
            OnCoord::IsIn(_, _) => Some(OnCoord::IsIn(self.seat.phase(), self.seat.is_last())),
        }
    }

    fn looks(&mut self, board: &Board) -> OnCoord
        requires { coord_board self.old.seat ≡ board_id board.now }
        ensures { KeepsSeat self.old.seat self.new.seat }
    {
        let sight = self.seat.look(board);
        self.saw = Some(sight);
        self.published = false;
        OnCoord::Look(sight.number, sight.ending, sight.all_in, sight.all_gone)
    }

    fn may_announce(&self) -> bool
        ensures { IsTrue result → MayAnnounce (coord_view self.now.seat) }
    {
        matches!(self.saw, Some(sight) if !sight.ending) && !self.seat.is_last()
    }

    fn announces(&mut self, board: &Board) -> Option<OnCoord>
        requires { coord_board self.old.seat ≡ board_id board.now }
        ensures { KeepsSeat self.old.seat self.new.seat }
    {
        if !self.may_announce() {
            return None;
        }
        self.seat.announce(board);
        self.saw = None;
        Some(OnCoord::Announce)
    }

    fn saw_all_in(&self) -> bool
        ensures { IsTrue result → SawAllIn (coord_view self.now.seat) }
    {
        matches!(self.saw, Some(sight) if sight.ending && sight.all_in)
    }

    // Whether all workers are in at the end of a joined phase.
    fn may_choose(&self) -> bool
        ensures all_in { IsTrue result → SawAllIn (coord_view self.now.seat) }
        ensures joined { IsTrue result → IsJoined (coord_view self.now.seat).phase }
    {
        self.saw_all_in() && self.seat.phase() % 2 == 0
    }

    fn counts(&mut self, board: &Board) -> Option<OnCoord>
        requires { coord_board self.old.seat ≡ board_id board.now }
        ensures { KeepsSeat self.old.seat self.new.seat }
    {
        if !self.may_choose() {
            return None;
        }
        Some(OnCoord::Count(self.seat.count(board, 0)))
    }

    fn publishes(&mut self, board: &Board, mask: u64) -> Option<OnCoord>
        requires { coord_board self.old.seat ≡ board_id board.now }
        ensures { KeepsSeat self.old.seat self.new.seat }
    {
        if !self.may_choose() || mask >= 2 {
            return None;
        }
        self.seat.publish(board, mask);
        self.published = true;
        Some(OnCoord::Publish(mask))
    }

    // A split phase is released once its mask was published.
    fn releases(&mut self, board: &Board) -> Option<OnCoord>
        requires { coord_board self.old.seat ≡ board_id board.now }
        ensures { KeepsSeat self.old.seat self.new.seat }
    {
        let may_release = self.published || self.seat.phase() % 2 == 1;
        if !self.saw_all_in() || !may_release {
            return None;
        }
        self.seat.release(board);
        self.saw = None;
        Some(OnCoord::Release)
    }
}
