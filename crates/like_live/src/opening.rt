ghost use Rattle.std.specs.Prelude.{◌≡◌, ◌%◌, ◌<◌, ◌≤◌, ◌↔◌, IsTrue, MatchResult};
ghost use Rattle.like_tables.specs.Factors.{IsFirstApart};
ghost use Rattle.like_live.specs.Opening.{AreLasts, AreMarks, AreWithinLimits, Asking, IsFirstWrong, IsWithinLimits, asking};

use crate::open_error::OpenError;
use like_requests::{MAX_COUNT, MAX_STASH, is_hot_limit};
use like_tables::{NO_PAGE, factor_for};

/// The most pages of a service.
const MAX_PAGES: u32 = 1 << 24;

/// The most seats of a service.
const MAX_SEATS: u32 = 64;

/// The most marked pages: those that are split in every split phase.
pub const MAX_MARKS: usize = 64;

/// What a service is opened with.
#[derive(Debug, Drop)]
pub struct Opening {
    /// Each page's first count: 1 to 16,777,216 pages, each count at most 10^18.
    pub counts: Vec<u64>,
    /// The numbers of the pages that are split in every split phase: at most 64, no two alike, in any order. (Very few
    /// lists of 64 are refused too, since no factor gives each page a bucket of its own.)
    pub marks: Vec<u32>,
    /// How many seats there are: 1 to 64.
    pub seats: u32,
    /// How many users there are, at least one. User `u` belongs to seat `u mod seats`.
    pub users: u32,
    /// The page of each user's last like, by user number, or `NO_PAGE`. If it is empty, no user has one.
    pub lasts: Vec<u32>,
    /// How many looks a seat has room for, those that wait and those that were found together: 1 to 4,096.
    pub room: u32,
    /// About how many likes between two choices make a page hot: 1 to 1,000,000. Earlier likes count too, but less. 1
    /// to 511 act as 512. With none, no page gets hot.
    pub hot: Option<u32>,
}

impl Opening {
    /// Tests every number, in the order of `OpenError`. It never answers `Memory`.
    pub fn check(&self) -> Result<(), OpenError>
        ensures { MatchResult result (λ _. IsWithinLimits self.now)
            (IsFirstWrong (asking self.now)) }
    {
        Opening::check_numbers(
            &self.counts,
            &self.marks,
            self.seats,
            self.users,
            &self.lasts,
            self.room,
            self.hot,
        )
    }

    /// Tests the numbers of an opening that isn't built yet, in the order of `OpenError`. It never answers `Memory`.
    pub fn check_numbers(
        counts: &[u64],
        marks: &[u32],
        seats: u32,
        users: u32,
        lasts: &[u32],
        room: u32,
        hot: Option<u32>,
    ) -> Result<(), OpenError>
        ensures { let asked : Asking = record {
          counts = counts.now;
          marks = marks.now;
          seats = seats;
          users = users;
          lasts = lasts.now;
          room = room;
          hot = hot;
        } in
            MatchResult result (λ _. AreWithinLimits asked) (IsFirstWrong asked) }
    {
        let pages = counts.len();
        if pages < 1 || pages > MAX_PAGES as usize {
            return Err(OpenError::Pages);
        }
        if !are_marks(marks, pages) {
            return Err(OpenError::Marks);
        }
        if !counts.iter().all(|count| *count <= MAX_COUNT) {
            return Err(OpenError::Counts);
        }
        if seats < 1 || seats > MAX_SEATS {
            return Err(OpenError::Seats);
        }
        if users < 1 {
            return Err(OpenError::Users);
        }
        if !are_lasts(lasts, users, pages) {
            return Err(OpenError::Lasts);
        }
        if room < 1 || room > MAX_STASH {
            return Err(OpenError::Room);
        }
        if !is_hot_limit(hot) {
            return Err(OpenError::Hot);
        }
        Ok(())
    }

    /// The seat of a user.
    pub fn seat_of(&self, user: u32) -> u32
        requires { 1 ≤ self.now.seats }
        ensures { result ≡ user % self.now.seats }
    {
        user % self.seats
    }

    /// The factor for its pages' buckets: the first with which no two marked pages share one.
    pub(crate) fn factor(&self) -> u32
        requires { IsWithinLimits self.now }
        ensures { IsFirstApart self.now.marks.items result }
    {
        match factor_for(&self.marks) {
            Some(factor) => factor,
            None => unreachable!(),
        }
    }
}

// Whether these can be the marked pages, where there are `pages` in all.
fn are_marks(marks: &[u32], pages: usize) -> bool
    ensures { IsTrue result ↔ AreMarks pages marks.now }
{
    marks.len() <= MAX_MARKS
        && marks.iter().all(|page| (*page as usize) < pages)
        && factor_for(marks).is_some()
}

// Whether these can be the users' last likes.
fn are_lasts(lasts: &[u32], users: u32, pages: usize) -> bool
    ensures { IsTrue result ↔ AreLasts pages users lasts.now }
{
    (lasts.is_empty() || lasts.len() == users as usize)
        && lasts
            .iter()
            .all(|page| *page == NO_PAGE || (*page as usize) < pages)
}
