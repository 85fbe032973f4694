ghost use Rattle.std.specs.Prelude.{◌≡◌, ◌<◌, ◌≤◌, All, drop, length, take};
ghost use Rattle.like_limits.specs.Limits.{hot_pages};
ghost use Rattle.like_board.specs.Seats.{board_id};
ghost use Rattle.like_core.specs.OpeningLimits.{service_limits};
ghost use Rattle.like_core.specs.Phase.{IsJoined};
ghost use Rattle.like_core.specs.views.Views.{SawAllIn};
ghost use Rattle.like_seat.specs.Lead.{published_choice};
ghost use Rattle.like_limits.specs.Buckets.{AreApart};
ghost use Rattle.like_choice.specs.Slots.{AreSlots, Chooses, pages_in_use};
ghost use Rattle.like_live.specs.Splits.{AreSplitsOf, Proposes, SawRunning, new_splits, would_split};

use like_board::Board;
use like_choice::{Choice, Guided, Proposal, Slots};
use like_core::HOT_PAGES;
use like_seat::Lead;
use std::marker::Model;

/// The pages that are split, in their slots, and those that are proposed for the next split phase.
#[derive(Drop)]
pub(crate) struct Splits<C: Choice> {
    /// The slots of the present or last split phase.
    slots: Slots,
    choice: C,
    proposed: Proposal,
    /// What the slots of the board hold.
    held: [u32; HOT_PAGES as usize],
}

impl<C: Choice> Model for Splits<C> {
    ghost use Rattle.like_live.specs.Splits.{SplitsView};

    ghost Value = { SplitsView };

    ghost view = { λ s. record {
      slots = s.slots;
      told = C.told s.choice;
      finds = C.finds s.choice;
      proposed = s.proposed;
      held = s.held;
    } };
}

impl<C: Choice> Splits<C> {
    /// Those of a new service. The factor tells each page's bucket, and these pages are marked.
    pub fn new(choice: C, factor: u32, pages: u32, marks: &[u32]) -> Splits<C>
        requires few { length marks.now ≤ hot_pages }
        requires there { All (λ page. page < pages) marks.now }
        requires apart { AreApart factor marks.now }
        ensures new { result ≡ new_splits factor pages marks.now (C.told choice) (C.finds choice) }
        ensures lawful { AreSlots result.slots }
    {
        Splits {
            slots: Slots::new(factor, pages, marks),
            choice,
            proposed: Proposal::new(),
            held: [0; HOT_PAGES as usize],
        }
    }

    /// Whether something would be split in the next split phase.
    pub fn would_split(&self) -> bool
        ensures { result ≡ would_split self.now }
    {
        self.slots.would_use(self.proposed.pages())
    }

    /// Asks the choice for a new proposal.
    pub fn propose(&mut self, _lead: &Lead)
        requires running { SawRunning _lead.now.seat }
        ensures { Proposes self.old self.new }
    {
        self.choice.propose(&self.slots, &mut self.proposed);
    }

    /// Chooses slots for the proposed pages, and publishes them. The pages in these slots are split in the next phase.
    pub fn publish(&mut self, lead: &mut Lead, board: &Board)
        requires here { lead.old.board ≡ board_id board.now }
        requires limits { lead.old.seat.opening.limits ≡ service_limits }
        requires saw { SawAllIn lead.old.seat }
        requires joined { IsJoined lead.old.seat.phase }
        requires splits { AreSplitsOf lead.old.seat self.old }
        ensures chooses { Chooses self.old.slots self.old.proposed self.new.slots }
        ensures lawful { AreSlots self.new.slots }
        ensures publishes { lead.new ≡ published_choice lead.old self.new.slots.slots self.new.slots.bits }
        ensures held { self.new.held ≡ lead.new.seat.slots }
        ensures told { self.new.told ≡ self.old.told }
        ensures finds { self.new.finds ≡ self.old.finds }
        ensures proposed { self.new.proposed ≡ self.old.proposed }
    {
        self.slots.choose(self.proposed.pages());
        lead.publish_choice(board, &mut self.held, self.slots.pages(), self.slots.bits());
    }

    /// Writes the pages in the slots in use, in order, as many as there is room for. The answer is how many.
    pub fn write_pages(&self, pages: &mut [u32]) -> usize
        ensures len { length pages.new ≡ length pages.old }
        ensures few { result ≤ length pages.old }
        ensures pages { take result pages.new
            ≡ take (length pages.old) (pages_in_use self.now.slots) }
        ensures rest { drop result pages.new ≡ drop result pages.old }
    {
        self.slots.write_pages(pages)
    }
}

impl Splits<Guided> {
    /// Asks the choice to propose these pages from now on.
    pub fn ask(&mut self, pages: &[u32])
        ensures { self.new ≡ record self.old { told = take hot_pages pages.now } }
    {
        self.choice.ask(pages);
    }
}
