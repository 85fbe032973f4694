ghost use Rattle.std.specs.Prelude.{◌≡◌, ◌+◌, ◌≤◌, ◌↔◌, IsTrue, length};
ghost use Rattle.like_live.specs.Lasts.{AreLastsAt, TellsLast, users_of};

use crate::live_seat::LiveSeat;
use like_core::Post;
use like_requests::Verdict;

impl<P: Post> LiveSeat<P> {
    /// The page of a user's last like, if there is one. A user who is unknown, or another seat's, is refused. It makes
    /// no look at the phase word, so it works in every state.
    pub fn last(&self, user: u32) -> Result<Option<u32>, Verdict>
        ensures { TellsLast self.now user result }
    {
        let users = self.station.users();
        match users.judge_user(users.worker(), user) {
            Verdict::Accepted => Ok(users.last(user)),
            verdict => Err(verdict),
        }
    }

    /// Whether the seat has `many` users from rank `from` on. With rank `i` at seat `s` is user `i * seats + s`.
    pub fn has_users(&self, from: u32, many: usize) -> bool
        ensures { IsTrue result ↔ (from + many ≤ users_of self.now) }
    {
        self.station.users().has_ranks(from, many)
    }

    /// Writes the last likes of the seat's users from rank `from` on: each one's page, or `NO_PAGE`. It works in every
    /// state. While a joined phase is ending and all seats are in, all last likes are of one moment, as no clause says.
    pub fn lasts(&self, from: u32, row: &mut [u32])
        requires { from + length row.old ≤ users_of self.now }
        ensures len { length row.new ≡ length row.old }
        ensures lasts { AreLastsAt self.now from row.new }
    {
        self.station.users().write_lasts(from, row);
    }
}
