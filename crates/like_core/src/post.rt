ghost use Rattle.std.specs.Prelude.{◌≡◌, ◌≢◌, ◌≤◌, ℕ, List, false};
ghost use Rattle.like_core.specs.declared.worker_state.WorkerState.TheVariants.{Gone};
ghost use Rattle.like_core.specs.declared.view.WorkerSeatView.{WorkerSeatView};
ghost use Rattle.like_core.specs.OpeningLimits.{has_slots};
ghost use Rattle.like_core.specs.WorkerState.{RunsJoined, RunsSplit, SawEnding, IsSightOf, SeesEndingStill, phase_of, seen};
ghost use Rattle.like_core.specs.Post.{number_of, looked_at, answered, retired, added, has_read, with_mask, additions_of, MayAdd, MayRead};
ghost use Rattle.like_core.specs.views.Actions.{Looks, Acknowledges, Reports, Retires, Adds, Reads, ReadsMask};

use crate::sight::Sight;

/// A worker's place at a board. At first the worker runs phase 0.
///
/// Each call is one step on the board's words, and none waits. A like of a split page is no call: it goes into a slice
/// that the worker keeps, and the slice's number is added at the end of the phase.
///
/// A look, an addition and a read are entries in the board's log, and so are a glance and a return. The view after the
/// call has the entry's number, which is above all numbers that any worker's view had before (`laws::numbers_rise`).
pub trait Post {
    // what its worker's seat knows
    ghost view: { Self → WorkerSeatView };
    // the numbers that tell its board from others
    ghost board: { Self → List ℕ };

    /// Looks at the phase word. A worker that has answered a phase enters the next here, once that was released. An
    /// ending phase that a worker runs stays so until the worker answers or retires.
    fn look(&mut self) -> Sight
        requires { (view self.old).state ≢ Gone }
        ensures board { board self.new ≡ board self.old }
        ensures view { view self.new ≡ looked_at (view self.old) result (number_of (view self.new)) }
        ensures event { Looks (view self.old) result (view self.new) }
        ensures sight { IsSightOf (view self.old).state result }
        ensures within { phase_of (seen (view self.old).state result)
            ≤ (view self.old).opening.limits.last_phase }
        ensures ending { SeesEndingStill (view self.old).state (view self.old).last result };

    /// Stops at the end of a joined phase, and waits for the release of the next.
    fn acknowledge(&mut self)
        requires runs { RunsJoined (view self.old).state }
        requires ending { SawEnding (view self.old).last }
        ensures board { board self.new ≡ board self.old }
        ensures view { view self.new ≡ answered (view self.old) }
        ensures event { Acknowledges (view self.old) (view self.new) };

    /// Stops at the end of a split phase, and waits for the release of the next. The worker sees to it that its slices
    /// are merged by then.
    fn report(&mut self)
        requires runs { RunsSplit (view self.old).state }
        requires ending { SawEnding (view self.old).last }
        ensures board { board self.new ≡ board self.old }
        ensures view { view self.new ≡ answered (view self.old) }
        ensures event { Reports (view self.old) (view self.new) };

    /// Ends the worker's part, in a joined phase. No call may follow but `Returns::come_back`.
    fn retire(&mut self)
        requires { RunsJoined (view self.old).state }
        ensures board { board self.new ≡ board self.old }
        ensures view { view self.new ≡ retired (view self.old) }
        ensures event { Retires (view self.old) (view self.new) };

    /// Adds to a page's count, and returns the count before: a like of a page that is not split, or the merge of a
    /// slice of `n` likes.
    fn add(&mut self, page: u32, n: u64) -> u64
        requires { MayAdd (view self.old) page n }
        ensures board { board self.new ≡ board self.old }
        ensures view { view self.new ≡ added (view self.old) page result n (number_of (view self.new)) }
        ensures event { Adds (view self.old) page n result (view self.new) }
        ensures own { additions_of (view self.old) page ≤ result };

    /// The count of a page that is not split.
    fn read(&mut self, page: u32) -> u64
        requires { MayRead (view self.old) page }
        ensures board { board self.new ≡ board self.old }
        ensures view { view self.new ≡ has_read (view self.old) page result (number_of (view self.new)) }
        ensures event { Reads (view self.old) page result (view self.new) }
        ensures own { additions_of (view self.old) page ≤ result };

    /// The mask of the hot pages of the split phase that the worker runs: bit `p` is page `p`'s. A board with slots has
    /// no such mask.
    fn hot(&mut self) -> u64
        requires split { RunsSplit (view self.old).state }
        requires plain { has_slots (view self.old).opening.limits ≡ false }
        ensures board { board self.new ≡ board self.old }
        ensures view { view self.new ≡ with_mask (view self.old) result }
        ensures event { ReadsMask (view self.old) result (view self.new) };
}
