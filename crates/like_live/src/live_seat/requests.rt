ghost use Rattle.std.specs.Prelude.{◌≡◌, ◌≢◌, ◌+◌, ◌-◌, ◌^◌, ◌<◌, false, min, IfNone, IfSome, IsTrue, length};
ghost use Rattle.like_core.specs.Post.{is_split_at};
ghost use Rattle.like_core.specs.WorkerState.{IsRunning, RunsSplit};
ghost use Rattle.like_seat.specs.StationView.{phase_at};
ghost use Rattle.like_live.specs.LiveView.{IsLive, IsOwn, room_of, waiting};
ghost use Rattle.like_live.specs.Calls.{GlancesNow, IsAccepted, LikesNow, LooksNow, Stashes, asked_in, verdict_at};

use crate::answer::{GlanceAnswer, LikeAnswer, LookAnswer};
use crate::asked::Asked;
use crate::live_seat::LiveSeat;
use crate::look_room::LookRoom;
use crate::signals::{MAX_LIKES, Signals};
use like_choice::Kind;
use like_core::{Glances, Post};
use like_requests::Verdict;
use like_seat::ServiceStation;
use like_tables::Ranked;

// A request that is accepted.
#[derive(Clone, Copy)]
struct Accepted {
    // Its user.
    ranked: Ranked,
    // Whether its page is split now.
    split: bool,
}

// Counts a look, and stores it if it is a sample.
#[inline(always)]
fn count_look<P: Post>(station: &mut ServiceStation<P, Asked>, signals: &mut Signals, page: u32)
    ensures { station.new ≡ station.old }
{
    if !station.spend_room() {
        store(station, signals, page, Kind::Look);
    }
}

// Stores a sample, and gives room for likes up to the next one.
#[cold]
#[inline(never)]
fn store<P: Post>(
    station: &mut ServiceStation<P, Asked>,
    signals: &mut Signals,
    page: u32,
    kind: Kind,
)
    ensures { station.new ≡ station.old }
{
    let room = signals.store(page, kind);
    station.give_room(room);
}

// Asks for the end of the phase once half of the room is taken. Up to there, and up to the next sample, looks are free
// to wait.
fn plan_ahead(room: &mut LookRoom, signals: &mut Signals, found: u32, half: u32)
    requires fits { room.old.left + found < 2 ^ 32 }
    requires none { room.old.free ≡ 0 }
    ensures left { room.new.left ≡ room.old.left }
    ensures free { room.new.free
        ≡ min signals.old.gap (min room.old.left (room.old.left + found - half - 1)) }
    ensures counted { signals.old.gap ≡ signals.new.gap + room.new.free }
{
    let clear = room.left() + found;
    if clear <= half {
        signals.ask();
        return;
    }
    let most = room.left().min(clear - half - 1);
    room.set_free(signals.count_ahead(most));
}

impl<P: Post> LiveSeat<P> {
    // The user with its rank, if a request of the user for a page is accepted. It costs no division. A page that is
    // split exists, and needs no other test. Whether it is split is tested once.
    #[inline(always)]
    fn accepts(&self, user: u32, page: u32) -> Option<Accepted>
        requires { IsRunning self.now.station.post.state }
        ensures accepted { IfSome result (λ a. IsAccepted self.now.station user page a.ranked) }
        ensures split { IfSome result (λ a. a.split ≡ is_split_at self.now.station.post page) }
        ensures refused { IfNone result (verdict_at self.now.station user page ≢ Verdict.Accepted) }
    {
        let ranked = self.station.users().find(&self.home, user)?;
        if self.station.is_split(page) {
            return Some(Accepted {
                ranked,
                split: true,
            });
        }
        if page >= self.pages {
            return None;
        }
        Some(Accepted {
            ranked,
            split: false,
        })
    }

    // Why it is not. Kept out of line, so that an accepted request costs less.
    #[cold]
    #[inline(never)]
    fn refusal(&self, user: u32, page: u32) -> Verdict
        ensures { result ≡ verdict_at self.now.station user page }
    {
        let users = self.station.users();
        match users.judge_user(users.worker(), user) {
            Verdict::Accepted if page >= self.pages => Verdict::UnknownPage,
            verdict => verdict,
        }
    }

    // A like, of a seat that runs a phase.
    #[inline(always)]
    pub(crate) fn like_now(&mut self, user: u32, page: u32) -> LikeAnswer
        requires { IsRunning self.old.station.post.state }
        ensures case { LikesNow self.old user page result self.new }
        ensures keeps { IsLive self.new }
    {
        let Some(accepted) = self.accepts(user, page) else {
            return LikeAnswer::Refused(self.refusal(user, page));
        };
        if accepted.split {
            if self.station.try_sliced_at(accepted.ranked, page) {
                return LikeAnswer::Liked;
            }
            return self.like_late(accepted.ranked, page);
        }
        if self.station.try_plain_at(accepted.ranked, page) {
            return LikeAnswer::Liked;
        }
        self.like_late(accepted.ranked, page)
    }

    // A like that is a sample, or too many. Kept out of line, so that other likes make no call.
    #[cold]
    #[inline(never)]
    fn like_late(&mut self, ranked: Ranked, page: u32) -> LikeAnswer
        requires running { IsRunning self.old.station.post.state }
        requires accepted { IsAccepted self.old.station ranked.user page ranked }
        ensures case { LikesNow self.old ranked.user page result self.new }
        ensures keeps { IsLive self.new }
    {
        if self.station.likes() >= MAX_LIKES {
            return LikeAnswer::Full;
        }
        self.station.count_like_at(ranked, page);
        store(&mut self.station, &mut self.signals, page, Kind::Like);
        LikeAnswer::Liked
    }

    // A look, of a seat that runs this phase.
    #[inline(always)]
    pub(crate) fn look_now(&mut self, user: u32, page: u32, tag: u64, phase: u64) -> LookAnswer
        requires runs { IsRunning self.old.station.post.state }
        requires phase { phase ≡ phase_at self.old.station }
        ensures case { LooksNow self.old user page tag result self.new }
        ensures keeps { IsLive self.new }
    {
        let Some(accepted) = self.accepts(user, page) else {
            return LookAnswer::Refused(self.refusal(user, page));
        };
        if !accepted.split {
            count_look(&mut self.station, &mut self.signals, page);
            return LookAnswer::Seen(self.station.read_at(accepted.ranked, page));
        }
        if self.wait(user, page, tag, phase) || self.wait_late(user, page, tag, phase) {
            return LookAnswer::Waits;
        }
        LookAnswer::NoRoom
    }

    // Puts a look at a split page by until the next joined phase, if it is free to wait. Says whether it did.
    #[inline(always)]
    fn wait(&mut self, user: u32, page: u32, tag: u64, phase: u64) -> bool
        requires split { RunsSplit self.old.station.post.state }
        requires own { IsOwn self.old.station (asked_in phase user page tag) }
        requires phase { phase ≡ phase_at self.old.station }
        ensures waits { IsTrue result → Stashes self.old (asked_in phase user page tag) self.new }
        ensures none { result ≡ false → self.new ≡ self.old }
        ensures keeps { IsLive self.new }
    {
        if !self.room.take_free() {
            return false;
        }
        self.station.stash(Asked {
            tag,
            user,
            page,
            phase,
        });
        true
    }

    // Stashes a look that isn't free to wait, if there is room. Kept out of line, so that those that are free make no
    // call.
    #[cold]
    #[inline(never)]
    fn wait_late(&mut self, user: u32, page: u32, tag: u64, phase: u64) -> bool
        requires split { RunsSplit self.old.station.post.state }
        requires own { IsOwn self.old.station (asked_in phase user page tag) }
        requires phase { phase ≡ phase_at self.old.station }
        ensures waits { IsTrue result → Stashes self.old (asked_in phase user page tag) self.new }
        ensures full { result ≡ false
            → length (waiting self.old) + length self.old.found ≡ room_of self.old }
        ensures none { result ≡ false → self.new ≡ self.old }
        ensures keeps { IsLive self.new }
    {
        if self.room.left() == 0 {
            return false;
        }
        self.room.take();
        self.signals.count_waiting(page);
        self.station.stash(Asked {
            tag,
            user,
            page,
            phase,
        });
        plan_ahead(
            &mut self.room,
            &mut self.signals,
            self.found.len(),
            self.half,
        );
        true
    }
}

impl<P: Glances> LiveSeat<P> {
    // A glance, of a seat that runs a phase.
    #[inline(always)]
    pub(crate) fn glance_now(&mut self, user: u32, page: u32) -> GlanceAnswer
        requires { IsRunning self.old.station.post.state }
        ensures case { GlancesNow self.old user page result self.new }
        ensures keeps { IsLive self.new }
    {
        let Some(accepted) = self.accepts(user, page) else {
            return GlanceAnswer::Refused(self.refusal(user, page));
        };
        if accepted.split {
            return GlanceAnswer::Glimpsed(self.station.glance(accepted.ranked, page));
        }
        GlanceAnswer::Seen(self.station.read_at(accepted.ranked, page))
    }
}
