ghost use Rattle.std.specs.Prelude.{◌≡◌, ◌^◌, ◌<◌, ◌≤◌, true, [], length, IsSome};
ghost use Rattle.like_core.specs.declared.view.View.TheVariants.{Coord};
ghost use Rattle.like_core.specs.OpeningLimits.{AreLimits};
ghost use Rattle.like_core.specs.word.Forms.{form_of};
ghost use Rattle.like_board.specs.Known.{coord_view_of};

use crate::layout::{MASK_WORD, PHASE_WORD, word_of};
use crate::own_board::OwnBoard;
use crate::plays::{Announcing, Counting, Publishing, Releasing, Surveying};
use like_core::{CoordSight, Limits, View};
use own_table::OwnSeat;

/// The coordinator's right to step on a board that one thread owns.
#[derive(Drop)]
pub struct OwnCoordSeat {
    pub(crate) access: OwnSeat<View>,
    /// The phase word that it saw last.
    pub(crate) seen: u64,
    /// How many workers there are.
    pub(crate) workers: u32,
    /// The present phase.
    pub(crate) phase: u64,
    /// The limits of its board.
    pub(crate) limits: Limits,
    ghost first: { access.id ≡ 0 },
    ghost is_coord: { access.me ≡ (Coord (coord_view_of access.me.0), []) },
    ghost saw: { seen ≡ (coord_view_of access.me.0).word },
    ghost told: { IsSome (coord_view_of access.me.0).last → (form_of limits.form).phase_in seen ≤ limits.last_phase },
    ghost all: { workers ≡ (coord_view_of access.me.0).opening.workers },
    ghost few: { workers ≤ limits.seats },
    ghost few_pages: { length (coord_view_of access.me.0).opening.counts < 2 ^ 32 },
    ghost present: { phase ≡ (coord_view_of access.me.0).phase },
    ghost within: { let c = coord_view_of access.me.0 in IsSome c.last → c.phase ≤ limits.last_phase },
    ghost made_all: { (coord_view_of access.me.0).made ≡ (coord_view_of access.me.0).opening.workers },
    ghost none_back: { (coord_view_of access.me.0).joined ≡ [] },
    ghost limited: { limits ≡ (coord_view_of access.me.0).opening.limits },
    ghost lawful: { AreLimits limits },
}

impl OwnCoordSeat {
    ghost use Rattle.like_core.specs.Phase.{IsSplit};
    ghost use Rattle.like_core.specs.views.Views.{looked_coord, announced_coord, counted_coord, published_coord, released_coord, MayAnnounce, MayCount, MayPublish, MayRelease};
    ghost use Rattle.like_core.specs.views.Actions.{Surveys, Announces, Counts, Releases};
    ghost use Rattle.like_core.specs.views.Shows.{IsKnown};
    ghost use Rattle.like_board.specs.Own.{own_coord, own_views, IsPresentCount, Knows, ShowsWorkers, Steps};

    /// The present phase.
    pub fn phase(&self) -> u64
        ensures { result ≡ (own_coord self.now).phase }
    {
        self.phase
    }

    /// Looks at the phase word, and sees what the workers' steps before have left.
    pub fn look(&mut self, board: &mut OwnBoard) -> CoordSight
        requires { Knows board.old 0 (Coord (own_coord self.old)) }
        ensures view { own_coord self.new ≡ looked_coord (own_coord self.old) (own_coord self.new).word result }
        ensures number { let c = own_coord self.old in result.number ≡ c.phase }
        ensures within { let c = own_coord self.old in c.phase ≤ c.opening.limits.last_phase }
        ensures ending { result.ending ≡ (own_coord self.old).ending }
        ensures all_in { (own_coord self.old).all_in ≡ true → result.all_in ≡ true }
        ensures all_gone { let c = own_coord self.old in
            IsSplit c.phase → result.all_gone ≡ true → c.gone ≡ true }
        ensures known { IsKnown (own_coord self.old).opening (Coord (own_coord self.new)) }
        ensures event { Surveys (own_coord self.old) result (own_coord self.new) }
        ensures board { Steps board.old board.new 0 (Coord (own_coord self.new)) }
        ensures fresh { ShowsWorkers (own_coord self.old).phase (own_views board.old) result }
    {
        let word = board.table.load::<Surveying>(&mut self.access, PHASE_WORD);
        self.seen = word;
        self.limits.form.coord_sight_in(word, self.workers)
    }

    /// Announces the end of the phase.
    pub fn announce(&mut self, board: &mut OwnBoard)
        requires here { Knows board.old 0 (Coord (own_coord self.old)) }
        requires running { MayAnnounce (own_coord self.old) }
        ensures view { own_coord self.new ≡ announced_coord (own_coord self.old) }
        ensures event { Announces (own_coord self.old) (own_coord self.new) }
        ensures board { Steps board.old board.new 0 (Coord (own_coord self.new)) }
    {
        board
            .table
            .fetch_add::<Announcing>(&mut self.access, PHASE_WORD, 1);
    }

    /// A page's count at the end of a joined phase.
    pub fn count(&mut self, board: &mut OwnBoard, page: u32) -> u64
        requires here { Knows board.old 0 (Coord (own_coord self.old)) }
        requires may { MayCount (own_coord self.old) page }
        ensures view { own_coord self.new ≡ counted_coord (own_coord self.old) page result }
        ensures known { IsKnown (own_coord self.old).opening (Coord (own_coord self.new)) }
        ensures event { Counts (own_coord self.old) page result (own_coord self.new) }
        ensures board { Steps board.old board.new 0 (Coord (own_coord self.new)) }
        ensures present { IsPresentCount (own_views board.old) page result }
    {
        board.table.tell();
        let word = word_of(page);
        board.table.load::<Counting>(&mut self.access, word)
    }

    /// Stores the mask of hot pages with which the split phase that comes next is to be released.
    pub fn publish(&mut self, board: &mut OwnBoard, mask: u64)
        requires here { Knows board.old 0 (Coord (own_coord self.old)) }
        requires may { MayPublish (own_coord self.old) mask }
        ensures view { own_coord self.new ≡ published_coord (own_coord self.old) mask }
        ensures board { Steps board.old board.new 0 (Coord (own_coord self.new)) }
    {
        board
            .table
            .swap::<Publishing>(&mut self.access, MASK_WORD, mask);
    }

    /// Releases the next phase, a split one with the mask that was published last.
    pub fn release(&mut self, board: &mut OwnBoard)
        requires here { Knows board.old 0 (Coord (own_coord self.old)) }
        requires may { MayRelease (own_coord self.old) }
        ensures view { own_coord self.new ≡ released_coord (own_coord self.old) }
        ensures event { Releases (own_coord self.old) (own_coord self.new) }
        ensures board { Steps board.old board.new 0 (Coord (own_coord self.new)) }
    {
        let next = self.limits.form.released(self.seen);
        board
            .table
            .swap::<Releasing>(&mut self.access, PHASE_WORD, next);
        self.phase += 1;
    }
}
