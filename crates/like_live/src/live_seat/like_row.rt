ghost use Rattle.std.specs.Prelude.{◌≤◌, length};
ghost use Rattle.like_core.specs.WorkerState.{IsRunning};
ghost use Rattle.like_live.specs.LikeRow.{LikesAll, RowCase};
ghost use Rattle.like_live.specs.LiveView.{IsLive, IsSameSeat};

use crate::answer::{LikeAnswer, TurnAnswer};
use crate::like_pair::{LikePair, RowAnswer};
use crate::live_seat::LiveSeat;
use like_core::SlotPost;

impl<P: SlotPost> LiveSeat<P> {
    /// Counts likes in their order, up to the first that is refused or too many. It makes one look at the phase word for
    /// all of them, and writes no answer for each.
    #[inline(never)]
    pub fn like_row(&mut self, likes: &[LikePair]) -> RowAnswer
        ensures case { RowCase self.old likes.now result self.new }
        ensures few { result.counted ≤ length likes.now }
        ensures keeps { IsLive self.new }
        ensures same { IsSameSeat self.old self.new }
    {
        match self.turn() {
            TurnAnswer::Runs => self.like_all(likes),
            TurnAnswer::Between => RowAnswer {
                counted: 0,
                answer: LikeAnswer::Between,
            },
            TurnAnswer::Gone => RowAnswer {
                counted: 0,
                answer: LikeAnswer::Gone,
            },
        }
    }

    // Counts likes in their order, of a seat that runs a phase.
    #[inline(always)]
    fn like_all(&mut self, likes: &[LikePair]) -> RowAnswer
        requires runs { IsRunning self.old.station.post.state }
        requires live { IsLive self.old }
        ensures likes { LikesAll self.old likes.now result self.new }
        ensures few { result.counted ≤ length likes.now }
        ensures keeps { IsLive self.new }
        ensures same { IsSameSeat self.old self.new }
    {
        for (counted, like) in likes.iter().enumerate() {
            match self.like_now(like.user, like.page) {
                LikeAnswer::Liked => {}
                answer => return RowAnswer { counted, answer },
            }
        }
        RowAnswer {
            counted: likes.len(),
            answer: LikeAnswer::Liked,
        }
    }
}
