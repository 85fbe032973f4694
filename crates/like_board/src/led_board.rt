//! What a coordinator's seat does at a board that threads share, or at one that a thread owns.
ghost use Rattle.std.specs.Prelude.{◌≡◌};
ghost use Rattle.like_core.specs.declared.view.CoordSeatView.{CoordSeatView};
ghost use Rattle.like_core.specs.views.Views.{MayAnnounce, MayCount, MayPublish, MayRelease, announced_coord, counted_coord, published_coord, released_coord};
ghost use Rattle.like_board.specs.Led.{BoardView, IsLedBy, SeatSees, ShowsTold, led};
ghost use Rattle.like_board.specs.Seats.{BoardId};

mod own;
mod shared;

use like_core::CoordSight;

/// A coordinator's seat.
pub trait LeadSeat: Drop {
    /// Which board it is of, if threads share that.
    ghost board: { Self → BoardId };

    /// What it knows.
    ghost view: { Self → CoordSeatView };

    /// The present phase.
    fn phase(&self) -> u64
        ensures { result ≡ (view self.now).phase };
}

/// A coordinator's seat that steps on boards of type `B`.
pub trait LeadsAt<B>: LeadSeat {
    /// What a board tells.
    ghost tells: { B → BoardView };

    /// Looks at the phase word. At a board that one thread owns it sees what the workers' steps before have left.
    fn look(&mut self, board: &mut B) -> CoordSight
        requires { IsLedBy (tells board.old) (Self.board self.old) (Self.view self.old) }
        ensures sees { SeatSees (Self.view self.old) result (Self.view self.new) }
        ensures fresh { ShowsTold (tells board.old) (Self.view self.old).phase result }
        ensures board { Self.board self.new ≡ Self.board self.old }
        ensures led { tells board.new ≡ led (tells board.old) (Self.view self.new) };

    /// Announces the end of the phase.
    fn announce(&mut self, board: &mut B)
        requires here { IsLedBy (tells board.old) (Self.board self.old) (Self.view self.old) }
        requires running { MayAnnounce (Self.view self.old) }
        ensures view { Self.view self.new ≡ announced_coord (Self.view self.old) }
        ensures board { Self.board self.new ≡ Self.board self.old }
        ensures led { tells board.new ≡ led (tells board.old) (Self.view self.new) };

    /// A page's count at the end of a joined phase: its count at the start and all that was added up to that phase.
    fn count(&mut self, board: &mut B, page: u32) -> u64
        requires here { IsLedBy (tells board.old) (Self.board self.old) (Self.view self.old) }
        requires may { MayCount (Self.view self.old) page }
        ensures view { Self.view self.new ≡ counted_coord (Self.view self.old) page result }
        ensures board { Self.board self.new ≡ Self.board self.old }
        ensures led { tells board.new ≡ led (tells board.old) (Self.view self.new) };

    /// Stores the mask of hot pages with which the split phase that comes next is to be released, on a board without
    /// slots.
    fn publish(&mut self, board: &mut B, mask: u64)
        requires here { IsLedBy (tells board.old) (Self.board self.old) (Self.view self.old) }
        requires may { MayPublish (Self.view self.old) mask }
        ensures view { Self.view self.new ≡ published_coord (Self.view self.old) mask }
        ensures board { Self.board self.new ≡ Self.board self.old }
        ensures led { tells board.new ≡ led (tells board.old) (Self.view self.new) };

    /// Releases the next phase, a split one with the mask that was published last.
    fn release(&mut self, board: &mut B)
        requires here { IsLedBy (tells board.old) (Self.board self.old) (Self.view self.old) }
        requires may { MayRelease (Self.view self.old) }
        ensures view { Self.view self.new ≡ released_coord (Self.view self.old) }
        ensures board { Self.board self.new ≡ Self.board self.old }
        ensures led { tells board.new ≡ led (tells board.old) (Self.view self.new) };
}
