ghost use Rattle.std.specs.Prelude.{◌≡◌, ◌↔◌, false, IsTrue};
ghost use Rattle.like_board.specs.Seats.{board_id};
ghost use Rattle.like_core.specs.OpeningLimits.{service_limits};
ghost use Rattle.like_core.specs.views.Views.{SawAllIn};
ghost use Rattle.like_live.specs.Driver.{Acts, Decides, EndsJoined, EndsSplit, IsLeft, MayEnd, ReleasesNext, driver_of};
ghost use Rattle.like_live.specs.Splits.{AreSplitsOf, SawRunning};

use super::splits::Splits;
use crate::driver_answer::DriverAnswer;
use crate::driver_end::End;
use crate::hint::HeardHint;
use like_board::Board;
use like_choice::Choice;
use like_core::CoordSight;
use like_seat::Lead;

/// The last phase of a service.
pub(crate) const LAST_PHASE: u64 = (1 << 48) - 2;

// Looks, and does what the sight asks for.
pub(crate) fn act<C: Choice>(
    lead: &mut Lead,
    splits: &mut Splits<C>,
    board: &Board,
    hint: &mut HeardHint,
    end: End,
) -> DriverAnswer
    requires here { lead.old.board ≡ board_id board.now }
    requires limits { lead.old.seat.opening.limits ≡ service_limits }
    requires splits { AreSplitsOf lead.old.seat splits.old }
    ensures { Acts (driver_of lead.old splits.old hint.old false) end result
        (driver_of lead.new splits.new hint.new false) }
{
    let sight = lead.look(board);
    if sight.ending {
        if !sight.all_in {
            return DriverAnswer::Waiting;
        }
        hint.clear();
        release(lead, splits, board);
        return DriverAnswer::Released;
    }
    if prepare_end(lead, splits, hint, sight, end) {
        lead.announce(board);
        return DriverAnswer::Announced;
    }
    if sight.all_gone {
        return DriverAnswer::Ended;
    }
    DriverAnswer::Running
}

// Whether all seats have left a joined phase.
pub(crate) fn is_left(lead: &Lead, sight: CoordSight) -> bool
    ensures { IsTrue result ↔ IsLeft lead.now sight }
{
    sight.all_gone && lead.is_joined()
}

// Whether the phase may end. A service's last phase goes on, and so does a joined one that all seats have left.
fn may_end(lead: &Lead, sight: CoordSight) -> bool
    ensures { IsTrue result ↔ MayEnd lead.now sight }
{
    lead.phase() < LAST_PHASE && !is_left(lead, sight)
}

// Proposes pages before the end of a phase, and says whether its end is to be announced.
fn prepare_end<C: Choice>(
    lead: &Lead,
    splits: &mut Splits<C>,
    hint: &mut HeardHint,
    sight: CoordSight,
    end: End,
) -> bool
    requires running { SawRunning lead.now.seat }
    ensures { Decides (driver_of lead.now splits.old hint.old false) sight end result
        (driver_of lead.now splits.new hint.new false) }
{
    if !may_end(lead, sight) {
        return false;
    }
    if lead.is_joined() {
        return prepare_joined_end(lead, splits, end);
    }
    prepare_split_end(lead, splits, hint, end)
}

// Whether a joined phase is to end. Pages are proposed if the host may want it to end and nothing would be split in the
// next.
fn prepare_joined_end<C: Choice>(lead: &Lead, splits: &mut Splits<C>, end: End) -> bool
    requires running { SawRunning lead.now.seat }
    ensures { EndsJoined splits.old end result splits.new }
{
    if end == End::No {
        return false;
    }
    if splits.would_split() {
        return true;
    }
    splits.propose(lead);
    end == End::Always || splits.would_split()
}

// Whether a split phase is to end. It ends if the host wants that, or if a seat asks for it by the hint, and then pages
// are proposed. A hint counts in split phases alone, since looks wait in these alone.
fn prepare_split_end<C: Choice>(
    lead: &Lead,
    splits: &mut Splits<C>,
    hint: &mut HeardHint,
    end: End,
) -> bool
    requires running { SawRunning lead.now.seat }
    ensures { EndsSplit splits.old hint.old end result splits.new hint.new }
{
    if end == End::No && !hint.hear() {
        return false;
    }
    splits.propose(lead);
    true
}

// Releases the next phase; before a split one it gives slots to the pages that are split in it.
fn release<C: Choice>(lead: &mut Lead, splits: &mut Splits<C>, board: &Board)
    requires here { lead.old.board ≡ board_id board.now }
    requires limits { lead.old.seat.opening.limits ≡ service_limits }
    requires saw { SawAllIn lead.old.seat }
    requires splits { AreSplitsOf lead.old.seat splits.old }
    ensures { ReleasesNext (driver_of lead.old splits.old false false) (driver_of lead.new splits.new false false) }
{
    if lead.is_joined() {
        splits.publish(lead, board);
    }
    lead.release(board);
}
