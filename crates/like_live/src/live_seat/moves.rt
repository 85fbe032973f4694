ghost use Rattle.std.specs.Prelude.{◌≡◌, All, true};
ghost use Rattle.like_core.specs.WorkerState.{IsRunning, RunsJoined, SawEnding};
ghost use Rattle.like_seat.specs.StationView.{IsStation, phase_at};
ghost use Rattle.like_live.specs.LiveView.{IsLive, RanNext, live_of};
ghost use Rattle.like_live.specs.Kept.{HasLooked};
ghost use Rattle.like_live.specs.Moves.{FindsAll, Moves, Works};
ghost use Rattle.like_live.specs.Calls.{RetireWorks};

use crate::answer::TurnAnswer;
use crate::asked::{Asked, Found};
use crate::live_seat::LiveSeat;
use like_core::{Post, SlotPost};
use like_seat::ServiceStation;
use like_tables::Stash;

impl<P: SlotPost> LiveSeat<P> {
    // Looks at the phase word, and does the phase work that it asks for. Mostly the seat runs a phase that goes on, and
    // there is none: what waited was found when it entered the phase. The phase that it then runs or has answered comes
    // with the answer.
    #[inline(always)]
    pub(crate) fn advance(&mut self) -> (TurnAnswer, u64)
        ensures moves { Moves self.old result.0 self.new }
        ensures keeps { IsLive self.new }
        ensures runs { result.0 ≡ TurnAnswer.Runs → IsRunning self.new.station.post.state }
        ensures was { IsLive self.old }
        ensures phase { result.1 ≡ phase_at self.new.station }
    {
        let phase = self.station.phase();
        if !self.station.runs() {
            let answer = self.advance_late();
            return (answer, self.station.phase());
        }
        let sight = self.station.look_on();
        if !sight.ending {
            return (TurnAnswer::Runs, phase);
        }
        let answer = phase_work(&mut self.station, &mut self.found, true);
        (answer, self.station.phase())
    }

    // Does the phase work of a seat that has answered its phase or is gone.
    #[cold]
    #[inline(never)]
    fn advance_late(&mut self) -> TurnAnswer
        ensures moves { Moves self.old result self.new }
        ensures keeps { IsLive self.new }
        ensures runs { result ≡ TurnAnswer.Runs → IsRunning self.new.station.post.state }
        ensures was { IsLive self.old }
    {
        if self.station.is_gone() {
            return TurnAnswer::Gone;
        }
        let sight = self.station.look_with_slots();
        if sight.waits {
            return TurnAnswer::Between;
        }
        phase_work(&mut self.station, &mut self.found, sight.ending)
    }
}

// The phase work of a seat that is to retire: in a joined phase it finds what waits, and retires.
pub(crate) fn work_or_retire<P: Post>(
    station: &mut ServiceStation<P, Asked>,
    found: &mut Stash<Found>,
    ending: bool,
) -> TurnAnswer
    requires looked { HasLooked station.old found.old }
    requires ending { ending ≡ true → SawEnding station.old.post.last }
    ensures works { RetireWorks (live_of station.old found.old) ending result
        (live_of station.new found.new) }
    ensures live { IsLive (live_of station.new found.new) }
    ensures capacity { found.new.capacity ≡ found.old.capacity }
{
    let phase = station.phase();
    if phase % 2 == 1 {
        return phase_work(station, found, ending);
    }
    find_all(station, found);
    station.retire();
    TurnAnswer::Gone
}

// The phase work of a seat that runs a phase.
#[cold]
#[inline(never)]
fn phase_work<P: Post>(
    station: &mut ServiceStation<P, Asked>,
    found: &mut Stash<Found>,
    ending: bool,
) -> TurnAnswer
    requires looked { HasLooked station.old found.old }
    requires ending { ending ≡ true → SawEnding station.old.post.last }
    ensures works { Works (live_of station.old found.old) ending result (live_of station.new found.new) }
    ensures live { IsLive (live_of station.new found.new) }
    ensures capacity { found.new.capacity ≡ found.old.capacity }
{
    let phase = station.phase();
    if phase % 2 == 0 {
        return joined_work(station, found, ending);
    }
    if !ending {
        return TurnAnswer::Runs;
    }
    station.merge_and_report();
    TurnAnswer::Between
}

// The phase work of a joined phase: all that waits runs first.
fn joined_work<P: Post>(
    station: &mut ServiceStation<P, Asked>,
    found: &mut Stash<Found>,
    ending: bool,
) -> TurnAnswer
    requires looked { HasLooked station.old found.old }
    requires joined { RunsJoined station.old.post.state }
    requires ending { ending ≡ true → SawEnding station.old.post.last }
    ensures works { Works (live_of station.old found.old) ending result (live_of station.new found.new) }
    ensures live { IsLive (live_of station.new found.new) }
    ensures capacity { found.new.capacity ≡ found.old.capacity }
{
    find_all(station, found);
    if !ending {
        return TurnAnswer::Runs;
    }
    station.acknowledge();
    TurnAnswer::Between
}

// Runs all that waits, one after the other.
fn find_all<P: Post>(station: &mut ServiceStation<P, Asked>, found: &mut Stash<Found>)
    requires looked { HasLooked station.old found.old }
    requires joined { RunsJoined station.old.post.state }
    ensures finds { FindsAll (live_of station.old found.old) (live_of station.new found.new) }
    ensures next { All RanNext found.new.looks }
    ensures station { IsStation station.new }
    ensures capacity { found.new.capacity ≡ found.old.capacity }
{
    let phase = station.phase();
    while let Some(asked) = station.next_stashed() {
        let seen = station.read_for(asked.user, asked.page);
        found.push(Found {
            asked,
            last: seen.last,
            count: seen.count,
            phase,
        });
    }
}
