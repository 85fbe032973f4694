//! Requests that a client makes as one batch.
ghost use Rattle.std.specs.Prelude.{◌≡◌, ◌<◌, ◌≤◌, ℕ, length, slice_get};
ghost use Rattle.like_c.specs.ClientRows.{RunsRequests, with_refused};

use crate::boxed_client::BoxedClient;
use crate::request_run::RequestRun;
use crate::rows::{AnswerRow, RequestRow};

impl BoxedClient {
    /// Makes requests at a seat one by one under one taking of its lock, and writes their answers: up to the first that
    /// has to be made again, or to the end of the shorter list. Says how many were done. If another thread has the
    /// seat, or there is no such seat, it does none, and the first answer says so. Later answers are left as they were.
    pub(crate) fn run(
        &mut self,
        seat: u32,
        requests: &[RequestRow],
        answers: &mut [AnswerRow],
    ) -> usize
        ensures case { RunsRequests seat self.old requests.now answers.old answers.new result self.new }
        ensures requests { result ≤ length requests.now }
        ensures answers { result ≤ length answers.old }
        ensures rest { (i : ℕ) → result < i → slice_get answers.new i ≡ slice_get answers.old i }
    {
        match self.row(seat, &RequestRun { requests }, answers) {
            Ok(done) => done,
            Err(refused) => {
                tell_refused(requests, refused, answers);
                0
            }
        }
    }
}

// Tells the first request, if there is one, why none was made.
fn tell_refused(requests: &[RequestRow], refused: u32, answers: &mut [AnswerRow])
    ensures told { answers.new ≡ with_refused refused requests.now answers.old }
    ensures rest { (i : ℕ) → 0 < i → slice_get answers.new i ≡ slice_get answers.old i }
{
    if requests.is_empty() {
        return;
    }
    if let Some(first) = answers.first_mut() {
        *first = AnswerRow::of(refused);
    }
}
