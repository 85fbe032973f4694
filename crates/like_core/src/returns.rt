ghost use Rattle.std.specs.Prelude.{◌≡◌, ◌≤◌, IfNone, IfSome};
ghost use Rattle.like_core.specs.declared.worker_state.WorkerState.TheVariants.{Gone};
ghost use Rattle.like_core.specs.core.Moves.{LetsReturn};
ghost use Rattle.like_core.specs.Post.{number_of, returned};
ghost use Rattle.like_core.specs.views.Actions.{ComesBack};

use crate::post::Post;

/// A post of a service, whose worker can come back after it retired.
pub trait Returns: Post {
    /// Comes back, and tells the phase that the worker runs now: the present one, which isn't ending. `None`, with nothing
    /// done, if it is ending or another step changed the phase word meanwhile.
    fn come_back(&mut self) -> Option<u64>
        requires gone { (Self.view self.old).state ≡ Gone }
        requires lets { LetsReturn (Self.view self.old).opening.limits }
        ensures board { Self.board self.new ≡ Self.board self.old }
        ensures back { IfSome result
            (λ phase. Self.view self.new ≡ returned (Self.view self.old) phase (number_of (Self.view self.new))) }
        ensures event { IfSome result (λ _. ComesBack (Self.view self.old) (Self.view self.new)) }
        ensures within { IfSome result (λ phase. phase ≤ (Self.view self.old).opening.limits.last_phase) }
        ensures none { IfNone result (Self.view self.new ≡ Self.view self.old) };
}
