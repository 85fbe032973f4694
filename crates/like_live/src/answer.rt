ghost use Rattle.std.specs.Prelude.{◌≡◌, ◌⊎◌, ◌↔◌, IsTrue};

use like_requests::Verdict;
use like_seat::Seen;

/// What a seat does after it looked at the phase word.
#[derive(Clone, Copy, Debug, PartialEq, Eq)]
pub enum TurnAnswer {
    /// It runs a phase.
    Runs,
    /// It has answered a phase, and the next is not released yet.
    Between,
    /// It has retired.
    Gone,
}

/// What a like is told. Unless it is `Liked`, nothing of the like was done. The call may have done phase work.
#[derive(Clone, Copy, Debug, PartialEq, Eq)]
pub enum LikeAnswer {
    /// It is counted.
    Liked,
    /// The seat is between two phases: call again.
    Between,
    /// The user is unknown or another seat's, or the page is unknown.
    Refused(Verdict),
    /// The seat has counted as many likes as a seat may.
    Full,
    /// The seat has retired.
    Gone,
}

/// What a look is told. Unless it is `Seen` or `Waits`, nothing of the look was done. The call may have done phase
/// work.
#[derive(Clone, Copy, Debug, PartialEq, Eq)]
pub enum LookAnswer {
    /// The user's last like, and the page's count.
    Seen(Seen),
    /// The page is split in this phase. The look is found in the next joined phase, with its tag.
    Waits,
    /// The look would wait, and there is no room: take found looks, or call again in the next phase.
    NoRoom,
    /// The seat is between two phases: call again.
    Between,
    /// As for a like.
    Refused(Verdict),
    /// The seat has retired.
    Gone,
}

/// What a glance is told. The call may have done phase work in each case.
#[derive(Clone, Copy, Debug, PartialEq, Eq)]
pub enum GlanceAnswer {
    /// The user's last like, and the page's count, as a look shows them: the page isn't split.
    Seen(Seen),
    /// The user's last like, and the page's count. The page is split in this phase: the count has the seat's own likes,
    /// and may lack those that other seats have counted in this phase.
    Glimpsed(Seen),
    /// The seat is between two phases: call again.
    Between,
    /// As for a like.
    Refused(Verdict),
    /// The seat has retired.
    Gone,
}

impl LikeAnswer {
    /// Whether the like must be made again.
    #[inline(always)]
    pub fn is_put_off(&self) -> bool
        ensures { IsTrue result ↔ (self.now ≡ LikeAnswer.Between) }
    {
        matches!(self, LikeAnswer::Between)
    }
}

impl LookAnswer {
    /// Whether the look must be made again.
    #[inline(always)]
    pub fn is_put_off(&self) -> bool
        ensures { IsTrue result ↔ ((self.now ≡ LookAnswer.Between) ⊎ (self.now ≡ LookAnswer.NoRoom)) }
    {
        matches!(self, LookAnswer::Between | LookAnswer::NoRoom)
    }
}

impl GlanceAnswer {
    /// Whether the glance must be made again.
    #[inline(always)]
    pub fn is_put_off(&self) -> bool
        ensures { IsTrue result ↔ (self.now ≡ GlanceAnswer.Between) }
    {
        matches!(self, GlanceAnswer::Between)
    }
}
