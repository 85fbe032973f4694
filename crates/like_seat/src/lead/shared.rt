//! The steps of a lead at a board that threads share, some of which are of a service alone.
ghost use Rattle.std.specs.Prelude.{◌≡◌, ◌↔◌, ◌+◌, ◌≤◌, IsTrue, length};
ghost use Rattle.like_board.specs.Seats.{board_id};
ghost use Rattle.like_limits.specs.Limits.{hot_pages};
ghost use Rattle.like_core.specs.declared.view.View.TheVariants.{Coord};
ghost use Rattle.like_core.specs.Phase.{IsJoined};
ghost use Rattle.like_core.specs.views.Shows.{IsKnown};
ghost use Rattle.like_core.specs.views.Views.{MayAnnounce, MayRelease, SawAllIn};
ghost use Rattle.like_seat.specs.Lead.{MayPublishChoice, Sees, announced, published_choice, released, with_counts};

use super::LeadOf;
use super::counts::read_range;
use super::slots::put_pages;
use like_board::{Board, CoordSeat};
use like_core::CoordSight;

impl LeadOf<CoordSeat> {
    /// Looks at the phase word. Once it showed all workers in, it shows that until the release: in a run from any look
    /// on, in a service from one that showed the phase ending.
    pub fn look(&mut self, board: &Board) -> CoordSight
        requires { self.old.board ≡ board_id board.now }
        ensures { Sees self.old result self.new }
    {
        let mut at = board;
        self.look_at(&mut at)
    }

    /// Whether the present phase is the last of its board, whose end can't be announced.
    pub fn is_last(&self) -> bool
        ensures { IsTrue result ↔ (self.now.seat.phase ≡ self.now.seat.opening.limits.last_phase) }
    {
        self.seat.is_last()
    }

    /// Announces the end of the phase.
    pub fn announce(&mut self, board: &Board)
        requires here { self.old.board ≡ board_id board.now }
        requires running { MayAnnounce self.old.seat }
        ensures { self.new ≡ announced self.old }
    {
        let mut at = board;
        self.announce_at(&mut at);
    }

    /// Reads the counts of the pages from `from` on at the end of a joined phase: each is the page's count at the start
    /// and all that was added up to that phase. So all that are read before the release are of one moment.
    pub fn read_counts(&mut self, board: &Board, from: u32, counts: &mut [u64])
        requires here { self.old.board ≡ board_id board.now }
        requires saw { SawAllIn self.old.seat }
        requires joined { IsJoined self.old.seat.phase }
        requires pages { from + length counts.old ≤ length self.old.seat.opening.counts }
        ensures len { length counts.new ≡ length counts.old }
        ensures reads { self.new ≡ with_counts self.old from counts.new }
        ensures saw { SawAllIn self.new.seat }
        ensures known { let z = self.old.seat.opening in
            IsKnown z (Coord self.old.seat) → IsKnown z (Coord self.new.seat) }
    {
        read_range(&mut self.seat, board, from, counts);
    }

    /// Puts these pages into the slots of a service that these bits say are in use, and publishes that: the pages in
    /// these slots are split in the next phase. A slot that holds its page already isn't written. `held` is what the
    /// slots hold, before and after.
    pub fn publish_choice(&mut self, board: &Board, held: &mut [u32], pages: &[u32], bits: u64)
        requires here { self.old.board ≡ board_id board.now }
        requires may { MayPublishChoice self.old.seat pages.now bits }
        requires held { held.old ≡ self.old.seat.slots }
        requires all { length held.old ≡ hot_pages }
        ensures publishes { self.new ≡ published_choice self.old pages.now bits }
        ensures held { held.new ≡ self.new.seat.slots }
    {
        put_pages(&mut self.seat, board, held, pages, bits);
        self.seat.publish_slots(board, bits);
    }

    /// Releases the next phase, a split one with the mask that was published last.
    pub fn release(&mut self, board: &Board)
        requires here { self.old.board ≡ board_id board.now }
        requires may { MayRelease self.old.seat }
        ensures { self.new ≡ released self.old }
    {
        let mut at = board;
        self.release_at(&mut at);
    }
}
