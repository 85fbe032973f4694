ghost use Rattle.std.specs.Prelude.{◌≡◌, ◌≢◌, ◌+◌, ◌<◌, ◌≤◌, false, []};
ghost use Rattle.like_core.specs.declared.view.View.TheVariants.{Worker};
ghost use Rattle.like_core.specs.OpeningLimits.{has_slots, most_seats};
ghost use Rattle.like_core.specs.WorkerState.{turn_of};
ghost use Rattle.like_core.specs.PageSteps.{additions_among};
ghost use Rattle.like_board.specs.Known.{worker_view_of};

use crate::layout::{MASK_WORD, PHASE_WORD, word_of};
use crate::own_board::OwnBoard;
use crate::own_board::answer::put_own_answer;
use crate::plays::{Acknowledging, Adding, Looking, Reading, ReadingMask, Reporting, Retiring};
use like_core::{Form, Sight, View};
use own_table::OwnSeat;

/// A worker's right to step on a board that one thread owns.
#[derive(Drop)]
pub struct OwnWorkerSeat {
    pub(crate) access: OwnSeat<View>,
    pub(crate) number: u32,
    /// The form of its board's phase word.
    pub(crate) form: Form,
    /// Whether it has answered an odd phase last: 1 or 0. A worker that runs a phase has answered the one before.
    pub(crate) turn: u64,
    ghost placed: { access.id ≡ number + 1 },
    ghost is_worker: { access.me ≡ (Worker (worker_view_of access.me.0), []) },
    ghost numbered: { number ≡ (worker_view_of access.me.0).worker },
    ghost formed: { form ≡ (worker_view_of access.me.0).opening.limits.form },
    ghost few: { number < most_seats form },
    ghost turned: { turn ≡ turn_of (worker_view_of access.me.0).state },
}

impl OwnWorkerSeat {
    ghost use Rattle.like_core.specs.declared.worker_state.WorkerState.TheVariants.{Gone};
    ghost use Rattle.like_core.specs.WorkerState.{IsSightOf, RunsJoined, RunsSplit, SawEnding, SeesEndingStill, phase_of, seen};
    ghost use Rattle.like_core.specs.Post.{MayAdd, MayRead, number_of, looked_at, answered, retired, added, has_read, with_mask};
    ghost use Rattle.like_core.specs.Additions.{added_to};
    ghost use Rattle.like_core.specs.views.Actions.{Looks, Acknowledges, Reports, Retires, Adds, Reads, ReadsMask};
    ghost use Rattle.like_board.specs.Own.{own_place, own_view, own_views, IsPresentCount, Knows, ShowsPhase, Steps};

    /// Looks at the phase word, and sees what the coordinator's steps before have left.
    #[inline(always)]
    pub fn look(&mut self, board: &mut OwnBoard) -> Sight
        requires here { Knows board.old (own_place self.old) (Worker (own_view self.old)) }
        requires there { (own_view self.old).state ≢ Gone }
        ensures place { own_place self.new ≡ own_place self.old }
        ensures view { own_view self.new
            ≡ looked_at (own_view self.old) result (number_of (own_view self.new)) }
        ensures sight { IsSightOf (own_view self.old).state result }
        ensures within { let v = own_view self.old in
            phase_of (seen v.state result) ≤ v.opening.limits.last_phase }
        ensures ending { SeesEndingStill (own_view self.old).state (own_view self.old).last result }
        ensures event { Looks (own_view self.old) result (own_view self.new) }
        ensures board { Steps board.old board.new (own_place self.old) (Worker (own_view self.new)) }
        ensures fresh { ShowsPhase (own_views board.old) result }
    {
        let word = board.table.load::<Looking>(&mut self.access, PHASE_WORD);
        self.form.sight_in(word, self.turn)
    }

    /// Stops at the end of a joined phase.
    pub fn acknowledge(&mut self, board: &mut OwnBoard)
        requires here { Knows board.old (own_place self.old) (Worker (own_view self.old)) }
        requires runs { RunsJoined (own_view self.old).state }
        requires ending { SawEnding (own_view self.old).last }
        ensures place { own_place self.new ≡ own_place self.old }
        ensures view { own_view self.new ≡ answered (own_view self.old) }
        ensures event { Acknowledges (own_view self.old) (own_view self.new) }
        ensures board { Steps board.old board.new (own_place self.old) (Worker (own_view self.new)) }
    {
        let answer = self.form.answer(self.number);
        put_own_answer::<Acknowledging>(&mut self.access, board, self.form, answer);
        self.turn = 0;
    }

    /// Stops at the end of a split phase.
    pub fn report(&mut self, board: &mut OwnBoard)
        requires here { Knows board.old (own_place self.old) (Worker (own_view self.old)) }
        requires runs { RunsSplit (own_view self.old).state }
        requires ending { SawEnding (own_view self.old).last }
        ensures place { own_place self.new ≡ own_place self.old }
        ensures view { own_view self.new ≡ answered (own_view self.old) }
        ensures event { Reports (own_view self.old) (own_view self.new) }
        ensures board { Steps board.old board.new (own_place self.old) (Worker (own_view self.new)) }
    {
        let answer = self.form.answer(self.number);
        put_own_answer::<Reporting>(&mut self.access, board, self.form, answer);
        self.turn = 1;
    }

    /// Ends the worker's part.
    pub fn retire(&mut self, board: &mut OwnBoard)
        requires here { Knows board.old (own_place self.old) (Worker (own_view self.old)) }
        requires runs { RunsJoined (own_view self.old).state }
        ensures place { own_place self.new ≡ own_place self.old }
        ensures view { own_view self.new ≡ retired (own_view self.old) }
        ensures event { Retires (own_view self.old) (own_view self.new) }
        ensures board { Steps board.old board.new (own_place self.old) (Worker (own_view self.new)) }
    {
        let retirement = self.form.retirement(self.number);
        put_own_answer::<Retiring>(&mut self.access, board, self.form, retirement);
    }

    /// Adds to a page's count, and returns the count before, which has all that was added by then.
    #[inline(always)]
    pub fn add(&mut self, board: &mut OwnBoard, page: u32, n: u64) -> u64
        requires here { Knows board.old (own_place self.old) (Worker (own_view self.old)) }
        requires may { MayAdd (own_view self.old) page n }
        ensures place { own_place self.new ≡ own_place self.old }
        ensures view { own_view self.new
            ≡ added (own_view self.old) page result n (number_of (own_view self.new)) }
        ensures own { added_to page (additions_among (own_view self.old).did) ≤ result }
        ensures event { Adds (own_view self.old) page n result (own_view self.new) }
        ensures board { Steps board.old board.new (own_place self.old) (Worker (own_view self.new)) }
        ensures present { IsPresentCount (own_views board.old) page result }
    {
        board.table.tell();
        let word = word_of(page);
        board.table.fetch_add::<Adding>(&mut self.access, word, n)
    }

    /// The count of a page that is not split, which has all that was added by then.
    #[inline(always)]
    pub fn read(&mut self, board: &mut OwnBoard, page: u32) -> u64
        requires here { Knows board.old (own_place self.old) (Worker (own_view self.old)) }
        requires may { MayRead (own_view self.old) page }
        ensures place { own_place self.new ≡ own_place self.old }
        ensures view { own_view self.new
            ≡ has_read (own_view self.old) page result (number_of (own_view self.new)) }
        ensures own { added_to page (additions_among (own_view self.old).did) ≤ result }
        ensures event { Reads (own_view self.old) page result (own_view self.new) }
        ensures board { Steps board.old board.new (own_place self.old) (Worker (own_view self.new)) }
        ensures present { IsPresentCount (own_views board.old) page result }
    {
        board.table.tell();
        let word = word_of(page);
        board.table.load::<Reading>(&mut self.access, word)
    }

    /// The mask of the hot pages of the split phase that the worker runs.
    pub fn hot(&mut self, board: &mut OwnBoard) -> u64
        requires here { Knows board.old (own_place self.old) (Worker (own_view self.old)) }
        requires runs { RunsSplit (own_view self.old).state }
        requires plain { has_slots (own_view self.old).opening.limits ≡ false }
        ensures place { own_place self.new ≡ own_place self.old }
        ensures view { own_view self.new ≡ with_mask (own_view self.old) result }
        ensures event { ReadsMask (own_view self.old) result (own_view self.new) }
        ensures board { Steps board.old board.new (own_place self.old) (Worker (own_view self.new)) }
    {
        board.table.load::<ReadingMask>(&mut self.access, MASK_WORD)
    }
}
