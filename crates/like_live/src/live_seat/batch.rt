ghost use Rattle.std.specs.Prelude.{◌≡◌, ◌<◌, ◌≤◌, ◌↔◌, ℕ, IsTrue, Ok, length, slice_get};
ghost use Rattle.like_live.specs.declared.call.Call.TheVariants.{Glance, Like, Look};
ghost use Rattle.like_live.specs.Batch.{AnswersRow, RunCase};
ghost use Rattle.like_live.specs.LiveView.{IsLive, IsSameSeat};

use crate::answer::{LikeAnswer, LookAnswer};
use crate::call::{Answer, Call};
use crate::live_seat::LiveSeat;
use crate::row::Row;
use like_core::{Glances, SlotPost};

impl<P: SlotPost + Glances> LiveSeat<P> {
    /// Makes the calls of rows one by one, and writes their answers: up to the first that is told `Between` or `NoRoom`,
    /// or to the end of the shorter list. Says how many were done. The one that stopped it was not, and its answer says
    /// why: call it again. Later answers are left as they were.
    #[inline(never)]
    pub fn run<R: Row>(&mut self, rows: &[R], answers: &mut [R::Told]) -> usize
        ensures case { RunCase R.asks R.tells self.old rows.now answers.new result self.new }
        ensures rows { result ≤ length rows.now }
        ensures answers { result ≤ length answers.old }
        ensures rest { (i : ℕ) → result < i → slice_get answers.new i ≡ slice_get answers.old i }
        ensures unasked { (i : ℕ) → length rows.now ≤ i
            → slice_get answers.new i ≡ slice_get answers.old i }
        ensures len { length answers.new ≡ length answers.old }
        ensures keeps { IsLive self.new }
        ensures same { IsSameSeat self.old self.new }
    {
        // Opens the seat: an empty batch leaves it live, too.
        let _ = &self.station;
        let most = rows.len().min(answers.len());
        for done in 0..most {
            if self.answer(&rows[done], &mut answers[done]) {
                return done;
            }
        }
        most
    }

    // Answers a row. Says whether its call must be made again.
    #[inline(always)]
    fn answer<R: Row>(&mut self, row: &R, told: &mut R::Told) -> bool
        requires { IsLive self.old }
        ensures row { AnswersRow R.asks R.tells self.old row.now told.new result self.new }
        ensures keeps { IsLive self.new }
        ensures same { IsSameSeat self.old self.new }
    {
        match row.call() {
            Ok(call) => self.make::<R>(call, told),
            Err(refusal) => {
                *told = refusal;
                false
            }
        }
    }

    // Makes a call, and writes its answer. Says whether the call must be made again. A like is the last case here, so
    // that the compiler tests for it first.
    #[inline(always)]
    fn make<R: Row>(&mut self, call: Call, told: &mut R::Told) -> bool
        ensures made { AnswersRow Ok R.tells self.old call told.new result self.new }
        ensures keeps { IsLive self.new }
        ensures same { IsSameSeat self.old self.new }
    {
        match call {
            Call::Glance { user, page } => self.make_glance::<R>(user, page, told),
            Call::Look { user, page, tag } => self.make_look::<R>(user, page, tag, told),
            Call::Like { user, page } => self.make_like::<R>(user, page, told),
        }
    }

    #[inline(always)]
    fn make_glance<R: Row>(&mut self, user: u32, page: u32, told: &mut R::Told) -> bool
        ensures made { AnswersRow Ok R.tells self.old (Glance user page) told.new result self.new }
        ensures keeps { IsLive self.new }
        ensures same { IsSameSeat self.old self.new }
    {
        let answer = self.glance(user, page);
        *told = R::tell(Answer::Glance(answer));
        answer.is_put_off()
    }

    #[inline(always)]
    fn make_look<R: Row>(&mut self, user: u32, page: u32, tag: u64, told: &mut R::Told) -> bool
        ensures made { AnswersRow Ok R.tells self.old (Look user page tag) told.new result self.new }
        ensures keeps { IsLive self.new }
        ensures same { IsSameSeat self.old self.new }
    {
        match self.look(user, page, tag) {
            LookAnswer::Seen(seen) => {
                *told = R::tell(Answer::Look(LookAnswer::Seen(seen)));
                false
            }
            LookAnswer::Waits => {
                *told = R::tell(Answer::Look(LookAnswer::Waits));
                false
            }
            answer => {
                *told = R::tell(Answer::Look(answer));
                answer.is_put_off()
            }
        }
    }

    #[inline(always)]
    fn make_like<R: Row>(&mut self, user: u32, page: u32, told: &mut R::Told) -> bool
        ensures made { AnswersRow Ok R.tells self.old (Like user page) told.new result self.new }
        ensures keeps { IsLive self.new }
        ensures same { IsSameSeat self.old self.new }
    {
        match self.like(user, page) {
            LikeAnswer::Liked => {
                *told = R::tell(Answer::Like(LikeAnswer::Liked));
                false
            }
            answer => tell_late::<R>(answer, told),
        }
    }
}

// Writes the answer to a like that is not counted. Says whether the like must be made again. Kept out of line, so that
// likes that are counted need no test.
#[cold]
#[inline(never)]
fn tell_late<R: Row>(answer: LikeAnswer, told: &mut R::Told) -> bool
    ensures written { told.new ≡ R.tells (Answer.Like answer) }
    ensures again { IsTrue result ↔ (answer ≡ LikeAnswer.Between) }
{
    *told = R::tell(Answer::Like(answer));
    answer.is_put_off()
}
