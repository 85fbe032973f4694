ghost use Rattle.std.specs.Prelude.{◌≡◌, ◌^◌, ◌<◌, ◌≤◌, ◌↔◌, ℕ, false, replicate, IfOk, IfSome, IsTrue};
ghost use Rattle.like_core.specs.declared.worker_state.WorkerState.TheVariants.{Gone};
ghost use Rattle.like_limits.specs.Limits.{max_stash};
ghost use Rattle.like_core.specs.OpeningLimits.{service_limits};
ghost use Rattle.like_core.specs.Post.{IsFresh, additions_of};
ghost use Rattle.like_core.specs.WorkerState.{IsRunning};
ghost use Rattle.like_seat.specs.StationView.{phase_at};
ghost use Rattle.like_live.specs.LiveView.{HasLastsWithin, IsLive, IsNewLive, IsSameSeat, KeepsTallies, RanNext, tally};
ghost use Rattle.like_live.specs.Moves.{Moves};
ghost use Rattle.like_live.specs.Calls.{ComeBackCase, GlanceCase, LikeCase, LookCase, RetireCase, TakesFound, TalliesLike, TellsIfSplit, last_after};

mod batch;
mod lasts;
mod like_row;
mod moves;
mod requests;

use crate::answer::{GlanceAnswer, LikeAnswer, LookAnswer, TurnAnswer};
use crate::asked::{Asked, Found};
use crate::hint::Hint;
use crate::look_room::LookRoom;
use crate::signals::Signals;
use like_core::{Glances, Post, Returns, SlotPost};
use like_seat::ServiceStation;
use like_tables::{Home, Stash, Users};
use moves::work_or_retire;
use std::alloc::{AllocError, Global};
use std::marker::Model;

/// A seat of a live service: a worker's station, and the looks that were found and not taken yet.
///
/// One thread at a time calls it, whichever that is.
#[derive(Drop)]
pub struct LiveSeat<P: Post> {
    /// What waits is in its stash.
    station: ServiceStation<P, Asked>,
    found: Stash<Found>,
    /// Which users have which rank.
    home: Home,
    /// How many pages there are.
    pages: u32,
    /// How many more looks may wait.
    room: LookRoom,
    /// Half of the room.
    half: u32,
    signals: Signals,
}

impl<P: Post> Model for LiveSeat<P> {
    ghost use Rattle.like_live.specs.LiveView.{LiveView, live_of};

    ghost Value = { LiveView };

    ghost use Rattle.like_live.specs.Kept.{AreLiveSeatParts};

    ghost view = { λ s. live_of s.station s.found };

    ghost invariant = { λ s. AreLiveSeatParts s.station s.found s.home s.pages s.room s.half };
}

impl<P: Post + Drop> LiveSeat<P> {
    /// A new seat of a board with this many pages, none of them marked, and this factor for buckets. It has room for
    /// `room` looks, waiting and found ones together, and these last likes. All its memory is taken here.
    pub(crate) fn new(
        alloc: Global,
        post: P,
        factor: u32,
        pages: u32,
        room: u32,
        last: Users,
        signals: Signals,
    ) -> Result<LiveSeat<P>, AllocError>
        requires fresh { IsFresh (P.view post) }
        requires limits { (P.view post).opening.limits ≡ service_limits }
        requires marks { (P.view post).opening.marks ≡ replicate pages false }
        requires factor { (P.view post).opening.factor ≡ factor }
        requires least { 2 ^ 22 ≤ factor }
        requires few_pages { pages ≤ service_limits.pages }
        requires some { 1 ≤ room }
        requires few { room ≤ max_stash }
        requires home { last.share.submitters ≡ last.share.workers }
        requires there { last.share.worker < last.share.workers }
        requires lasts { HasLastsWithin pages last }
        ensures new { IfOk result (IsNewLive (P.board post) (P.view post) room last) }
        ensures live { IfOk result (λ seat. IsLive seat) }
    {
        let found = Stash::new(alloc, room)?;
        let home = last.home();
        match ServiceStation::of_service(alloc, post, factor, room, last) {
            Ok(station) => Ok(LiveSeat {
                station,
                found,
                home,
                pages,
                room: LookRoom::new(room),
                half: room / 2,
                signals,
            }),
            Err(_) => Err(AllocError),
        }
    }
}

impl<P: SlotPost> LiveSeat<P> {
    /// Looks at the phase word and does the phase work that it asks for, for a thread that has nothing else to do.
    #[inline(always)]
    pub fn turn(&mut self) -> TurnAnswer
        ensures case { Moves self.old result self.new }
        ensures keeps { IsLive self.new }
        ensures runs { result ≡ TurnAnswer.Runs → IsRunning self.new.station.post.state }
        ensures same { IsSameSeat self.old self.new }
        ensures tallies { KeepsTallies self.old self.new }
        ensures last { self.new.station.last ≡ self.old.station.last }
    {
        self.advance().0
    }

    /// Counts a user's like of a page, which is then the user's last.
    #[inline(always)]
    pub fn like(&mut self, user: u32, page: u32) -> LikeAnswer
        ensures case { LikeCase self.old user page result self.new }
        ensures keeps { IsLive self.new }
        ensures same { IsSameSeat self.old self.new }
        ensures tallies { TalliesLike self.old page result self.new }
        ensures last { self.new.station.last ≡ last_after self.old.station.last user page result }
    {
        match self.turn() {
            TurnAnswer::Runs => self.like_now(user, page),
            TurnAnswer::Between => LikeAnswer::Between,
            TurnAnswer::Gone => LikeAnswer::Gone,
        }
    }

    /// Looks at a page for a user. A look that waits is found later, with its tag.
    #[inline(always)]
    pub fn look(&mut self, user: u32, page: u32, tag: u64) -> LookAnswer
        ensures case { LookCase self.old user page tag result self.new }
        ensures keeps { IsLive self.new }
        ensures same { IsSameSeat self.old self.new }
        ensures tallies { KeepsTallies self.old self.new }
        ensures last { self.new.station.last ≡ self.old.station.last }
    {
        let (answer, phase) = self.advance();
        match answer {
            TurnAnswer::Runs => self.look_now(user, page, tag, phase),
            TurnAnswer::Between => LookAnswer::Between,
            TurnAnswer::Gone => LookAnswer::Gone,
        }
    }
}

impl<P: SlotPost + Glances> LiveSeat<P> {
    /// Looks at a page for a user, and never waits. If the page is split now, the count may lack other seats' likes of
    /// this phase, and the answer says so: `Glimpsed`.
    #[inline(always)]
    pub fn glance(&mut self, user: u32, page: u32) -> GlanceAnswer
        ensures case { GlanceCase self.old user page result self.new }
        ensures tells { TellsIfSplit self.new page result }
        ensures keeps { IsLive self.new }
        ensures same { IsSameSeat self.old self.new }
        ensures tallies { KeepsTallies self.old self.new }
        ensures last { self.new.station.last ≡ self.old.station.last }
    {
        match self.turn() {
            TurnAnswer::Runs => self.glance_now(user, page),
            TurnAnswer::Between => GlanceAnswer::Between,
            TurnAnswer::Gone => GlanceAnswer::Gone,
        }
    }
}

impl<P: SlotPost> LiveSeat<P> {
    /// Retires, if the seat runs a joined phase, ending or not. What waited is found first. Otherwise this is a turn.
    /// Found looks can still be taken.
    pub fn retire(&mut self) -> TurnAnswer
        ensures case { RetireCase self.old result self.new }
        ensures keeps { IsLive self.new }
        ensures same { IsSameSeat self.old self.new }
        ensures tallies { KeepsTallies self.old self.new }
        ensures last { self.new.station.last ≡ self.old.station.last }
    {
        if self.station.is_gone() {
            return TurnAnswer::Gone;
        }
        let sight = self.station.look_with_slots();
        if sight.waits {
            return TurnAnswer::Between;
        }
        work_or_retire(&mut self.station, &mut self.found, sight.ending)
    }

    /// Takes out the first found look, if there is one. It makes no look at the phase word.
    pub fn take_found(&mut self) -> Option<Found>
        ensures takes { TakesFound self.old result self.new }
        ensures next { IfSome result RanNext }
        ensures keeps { IsLive self.new }
        ensures same { IsSameSeat self.old self.new }
    {
        let found = self.found.pop_front()?;
        self.room.give();
        Some(found)
    }

    /// Whether it has retired.
    pub fn is_gone(&self) -> bool
        ensures { IsTrue result ↔ (self.now.station.post.state ≡ Gone) }
    {
        self.station.is_gone()
    }

    /// The phase that it runs or has answered last, and 0 once it is gone.
    pub fn phase(&self) -> u64
        ensures { result ≡ phase_at self.now.station }
    {
        self.station.phase()
    }

    /// The hint that it shares with its driver and the other seats.
    pub(crate) fn hint(&self) -> &Hint {
        self.signals.hint()
    }

    /// Its users, with their last likes.
    pub fn users(&self) -> &Users
        ensures { result.now ≡ self.now.station.last }
    {
        self.station.users()
    }

    /// Gives its post back, whatever is left to do. A seat that is gone leaves nothing in its slice.
    pub fn leave(self) -> P
        ensures board { P.board result ≡ self.station.board }
        ensures post { P.view result ≡ self.station.post }
        ensures live { IsLive self }
        ensures slice { self.station.post.state ≡ Gone → (page : ℕ)
            → tally self page ≡ additions_of self.station.post page }
    {
        self.station.leave()
    }
}

impl<P: SlotPost + Returns> LiveSeat<P> {
    /// Brings a seat that is gone back into the present phase, which it then runs, a split one with its slots read.
    /// Otherwise nothing is done, and the answer is `Between`: if the phase is ending, or if others changed the phase
    /// word at each of 64 tries, as no clause says. Of any other seat this is a turn.
    pub fn come_back(&mut self) -> TurnAnswer
        ensures case { ComeBackCase self.old result self.new }
        ensures keeps { IsLive self.new }
        ensures same { IsSameSeat self.old self.new }
        ensures tallies { KeepsTallies self.old self.new }
        ensures last { self.new.station.last ≡ self.old.station.last }
    {
        if !self.station.is_gone() {
            return self.turn();
        }
        if self.station.come_back() {
            return TurnAnswer::Runs;
        }
        TurnAnswer::Between
    }
}
