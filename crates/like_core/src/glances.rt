ghost use Rattle.std.specs.Prelude.{◌≡◌, ◌<◌, ◌≤◌};
ghost use Rattle.like_limits.specs.Limits.{total_bound};
ghost use Rattle.like_core.specs.Post.{number_of, has_glanced, additions_of, MayGlance};
ghost use Rattle.like_core.specs.views.Actions.{Glances};

use crate::post::Post;

/// A post of a service, whose worker can look at a split page's count before the end of the phase.
pub trait Glances: Post {
    /// The count of a page that is split. It lacks what the slices of the present phase have, the worker's own too.
    fn glance(&mut self, page: u32) -> u64
        requires { MayGlance (Self.view self.old) page }
        ensures board { Self.board self.new ≡ Self.board self.old }
        ensures view { Self.view self.new
            ≡ has_glanced (Self.view self.old) page result (number_of (Self.view self.new)) }
        ensures event { Glances (Self.view self.old) page result (Self.view self.new) }
        ensures own { additions_of (Self.view self.old) page ≤ result }
        ensures bounded { result < total_bound };
}
