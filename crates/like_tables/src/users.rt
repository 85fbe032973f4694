ghost use Rattle.std.specs.Prelude.{◌≡◌, ◌≢◌, ◌+◌, ◌<◌, ◌≤◌, ◌↔◌, ℕ, None, Some, IfOk, IsTrue, false, length, slice_index_or, true};
ghost use Rattle.like_requests.specs.Verdict.{is_known, verdict_of};
ghost use Rattle.like_tables.specs.Home.{IsHomeOf};
ghost use Rattle.like_tables.specs.LastLike.{no_page};
ghost use Rattle.like_tables.specs.Ranked.{IsRanked, ranked_at, ranked_in};
ghost use Rattle.like_tables.specs.Share.{owns, share_of, submitter_of};
ghost use Rattle.like_tables.specs.Ranks.{AreLastsFrom};
ghost use Rattle.like_tables.specs.UserTable.{IsForUsers, IsUserTable, last_of, table_with_lasts, table_without_likes, with_last};

use crate::home::Home;
use crate::last_like::LastLike;
use crate::ranked::Ranked;
use crate::share::UserShare;
use like_requests::{Request, Verdict, judge, judge_user};
use std::alloc::{AllocError, Global};
use std::marker::Model;

/// The last likes of the users that a worker serves: those below `users` whose home is one of its submitters.
///
/// Submitter `s` is served by worker `s mod workers`, and the home of user `u` is submitter `u mod submitters`.
#[derive(Drop)]
pub struct Users {
    share: UserShare,
    // The last like of each such user, in the order of the users.
    pages: Vec<LastLike>,
}

impl Model for Users {
    ghost use Rattle.like_tables.specs.Ranks.{HoldsUsers, table_of};
    ghost use Rattle.like_tables.specs.UserTable.{UserTable};

    ghost Value = { UserTable };

    ghost view = { λ u. table_of u.share u.pages.items };

    ghost invariant = { λ u. HoldsUsers u.share u.pages.items };
}

impl Users {
    /// The table of worker `worker`, in which no user has liked a page. Its memory, an entry for each user that this
    /// worker serves, is taken here.
    pub fn new(
        alloc: Global,
        users: u32,
        submitters: u32,
        workers: u32,
        worker: u32,
    ) -> Result<Self, AllocError>
        requires submitters { 1 ≤ submitters }
        requires workers { 1 ≤ workers }
        ensures { IfOk result (λ table. table
            ≡ table_without_likes (share_of users submitters workers worker)) }
    {
        let share = UserShare::new(alloc, users, submitters, workers, worker)?;
        let ranks = share.owned_below(users) as usize;
        Ok(Users {
            share,
            pages: vec![in alloc; LastLike::none(); ranks]?,
        })
    }

    /// The table of worker `worker`, with the last likes of its users. `lasts` has those of all users, by user number:
    /// a page or `NO_PAGE`. If it is empty, no user has liked a page.
    pub fn with_lasts(
        alloc: Global,
        users: u32,
        submitters: u32,
        workers: u32,
        worker: u32,
        lasts: &[u32],
    ) -> Result<Self, AllocError>
        requires submitters { 1 ≤ submitters }
        requires workers { 1 ≤ workers }
        requires lasts { IsForUsers users lasts.now }
        ensures { IfOk result (λ table. table
            ≡ table_with_lasts (share_of users submitters workers worker) lasts.now) }
    {
        let Users { share, mut pages } = Users::new(alloc, users, submitters, workers, worker)?;
        if !lasts.is_empty() {
            share.take(lasts, &mut pages);
        }
        Ok(Users { share, pages })
    }

    /// Whether the worker serves this user.
    pub fn owns(&self, user: u32) -> bool
        ensures owns { result ≡ owns self.now.share user }
        ensures table { IsUserTable self.now }
    {
        self.share.owns(user)
    }

    /// Which worker it is.
    #[inline(always)]
    pub fn worker(&self) -> u32
        ensures { result ≡ self.now.share.worker }
    {
        self.share.worker
    }

    /// The submitter with a rank at the worker.
    pub fn submitter_at(&self, rank: usize) -> u32
        requires { submitter_of self.now.share.workers self.now.share.worker rank
            < self.now.share.submitters }
        ensures { result ≡ submitter_of self.now.share.workers self.now.share.worker rank }
    {
        self.share.submitter_at(rank)
    }

    /// Judges a user who asks `submitter`.
    #[inline(always)]
    pub fn judge_user(&self, submitter: u32, user: u32) -> Verdict
        ensures { result ≡ verdict_of self.now.share.users self.now.share.submitters submitter user
            true }
    {
        judge_user(user, submitter, self.share.submitters, self.share.users)
    }

    /// Judges a request of `submitter`.
    #[inline(always)]
    pub fn judge(&self, submitter: u32, request: &Request) -> Verdict
        ensures { result ≡ verdict_of self.now.share.users self.now.share.submitters submitter
            request.now.user (is_known request.now.page) }
    {
        judge(request, submitter, self.share.submitters, self.share.users)
    }

    /// Which users have which rank, if each worker serves the submitter with its number.
    pub fn home(&self) -> Home
        requires alone { self.now.share.submitters ≡ self.now.share.workers }
        requires there { self.now.share.worker < self.now.share.workers }
        ensures { IsHomeOf result self.now.share }
    {
        Home::new(self.share.submitters, self.share.worker)
    }

    /// The user with its rank.
    #[inline(always)]
    pub fn ranked(&self, user: u32) -> Ranked
        requires { IsTrue (owns self.now.share user) }
        ensures { result ≡ ranked_at self.now.share user }
    {
        Ranked {
            user,
            rank: self.share.owned_below(user),
        }
    }

    /// The user with its rank, if the worker serves it. With the home of the worker's users this costs no division.
    #[inline(always)]
    pub fn find(&self, home: &Home, user: u32) -> Option<Ranked>
        requires { IsHomeOf home.now self.now.share }
        ensures { result ≡ ranked_in self.now.share user }
    {
        self.share.find(home, user, self.pages.len())
    }

    /// The page of the user's last like, if any.
    #[inline(always)]
    pub fn last(&self, user: u32) -> Option<u32>
        requires { IsTrue (owns self.now.share user) }
        ensures { result ≡ last_of self.now user }
    {
        self.last_at(self.ranked(user))
    }

    /// The page of the last like, if any, of a user whose rank is known.
    #[inline(always)]
    pub fn last_at(&self, ranked: Ranked) -> Option<u32>
        requires { IsRanked self.now.share ranked }
        ensures { result ≡ last_of self.now ranked.user }
    {
        self.pages[ranked.rank as usize].page()
    }

    /// Notes that the user's last like is of this page.
    #[inline(always)]
    pub fn set(&mut self, user: u32, page: u32)
        requires owned { IsTrue (owns self.old.share user) }
        requires page { page < no_page }
        ensures table { self.new ≡ with_last self.old user page }
        ensures user { last_of self.new user ≡ Some page }
        ensures others { (other : ℕ) → other ≢ user
            → last_of self.new other ≡ last_of self.old other }
    {
        let ranked = self.ranked(user);
        self.set_at(ranked, page);
    }

    /// Notes that the last like of a user whose rank is known is of this page.
    #[inline(always)]
    pub fn set_at(&mut self, ranked: Ranked, page: u32)
        requires ranked { IsRanked self.old.share ranked }
        requires page { page < no_page }
        ensures table { self.new ≡ with_last self.old ranked.user page }
        ensures user { last_of self.new ranked.user ≡ Some page }
        ensures others { (other : ℕ) → other ≢ ranked.user
            → last_of self.new other ≡ last_of self.old other }
    {
        self.pages[ranked.rank as usize] = LastLike::of(page);
    }

    /// Where the last likes lie in memory, four bytes for each rank, so that a host can have the processor fetch them
    /// early. No contract says where.
    pub fn address(&self) -> *const u8 {
        self.pages.as_ptr() as *const u8
    }

    /// Whether the worker serves `many` users from rank `from` on. Its users are in the order of their numbers.
    pub fn has_ranks(&self, from: u32, many: usize) -> bool
        ensures ranks { IsTrue result ↔ (from + many ≤ self.now.room) }
        ensures table { IsUserTable self.now }
    {
        let ranks = self.pages.len();
        from as usize <= ranks && many <= ranks - from as usize
    }

    /// Writes the last likes of the worker's users from rank `from` on: each one's page, or `NO_PAGE`.
    pub fn write_lasts(&self, from: u32, row: &mut [u32])
        requires { from + length row.old ≤ self.now.room }
        ensures len { length row.new ≡ length row.old }
        ensures lasts { AreLastsFrom self.now from row.new }
        ensures table { IsUserTable self.now }
    {
        for rank in 0..row.len() {
            row[rank] = self.pages[from as usize + rank].number();
        }
    }

    /// Writes the last like of each user of the worker into a list for all users, and nothing for others.
    pub fn give_to(&self, last: &mut [Option<u32>])
        requires { length last.old ≡ self.now.share.users }
        ensures len { length last.new ≡ length last.old }
        ensures own { (user : ℕ) → IsTrue (owns self.now.share user)
            → slice_index_or last.new user None ≡ last_of self.now user }
        ensures others { (user : ℕ) → owns self.now.share user ≡ false
            → slice_index_or last.new user None ≡ slice_index_or last.old user None }
    {
        self.share.give(&self.pages, last);
    }
}
