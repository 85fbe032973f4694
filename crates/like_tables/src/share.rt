ghost use Rattle.std.specs.Prelude.{◌≡◌, ◌<◌, ◌≤◌, IfOk, length};
ghost use Rattle.like_tables.specs.Home.{IsHomeOf};
ghost use Rattle.like_tables.specs.Ranked.{ranked_in};
ghost use Rattle.like_tables.specs.Ranks.{AreTaken, HoldsUsers, IsGiven};
ghost use Rattle.like_tables.specs.Share.{owned_below, owns, share_of, submitter_of};

use crate::home::Home;
use crate::last_like::LastLike;
use crate::ranked::Ranked;
use std::alloc::{AllocError, Global};
use std::marker::Model;

/// A worker's share of the users: those below `users` whose home is one of its submitters.
#[derive(Drop)]
pub(crate) struct UserShare {
    pub users: u32,
    pub submitters: u32,
    pub workers: u32,
    pub worker: u32,
    // By submitter, and last of all of them: how many of the submitters below it are the worker's. So the rank of a
    // user costs one division.
    homes_below: Vec<u32>,
}

impl Model for UserShare {
    ghost use Rattle.like_tables.specs.Homes.{AreHomesBelow};
    ghost use Rattle.like_tables.specs.Share.{Share, share_of};

    ghost Value = { Share };

    ghost view = { λ s. share_of s.users s.submitters s.workers s.worker };

    ghost invariant = { λ s. let share = share_of s.users s.submitters s.workers s.worker in
        AreHomesBelow share s.homes_below.items };
}

impl UserShare {
    pub fn new(
        alloc: Global,
        users: u32,
        submitters: u32,
        workers: u32,
        worker: u32,
    ) -> Result<Self, AllocError>
        requires submitters { 1 ≤ submitters }
        requires workers { 1 ≤ workers }
        ensures { IfOk result (λ share. share ≡ share_of users submitters workers worker) }
    {
        let mut homes_below = Vec::with_capacity(alloc, submitters as usize + 1)?;
        let mut homes = 0;
        for submitter in 0..submitters {
            homes_below.push(homes)?;
            if submitter % workers == worker {
                homes += 1;
            }
        }
        homes_below.push(homes)?;
        Ok(UserShare {
            users,
            submitters,
            workers,
            worker,
            homes_below,
        })
    }

    pub fn owns(&self, user: u32) -> bool
        ensures { result ≡ owns self.now user }
    {
        user < self.users && user % self.submitters % self.workers == self.worker
    }

    // The submitter with a rank at the worker.
    pub fn submitter_at(&self, rank: usize) -> u32
        requires { submitter_of self.now.workers self.now.worker rank < self.now.submitters }
        ensures { result ≡ submitter_of self.now.workers self.now.worker rank }
    {
        self.worker + self.workers * rank as u32
    }

    // How many of the users below this one have their home with this worker.
    #[inline(always)]
    pub fn owned_below(&self, user: u32) -> u32
        ensures { result ≡ owned_below self.now user }
    {
        let (rounds, submitter) = (user / self.submitters, user % self.submitters);
        rounds * self.homes_below[self.submitters as usize] + self.homes_below[submitter as usize]
    }

    // The user with its rank, if it is one of the worker's `many` users. It costs no division.
    #[inline(always)]
    pub fn find(&self, home: &Home, user: u32, many: usize) -> Option<Ranked>
        requires home { IsHomeOf home.now self.now }
        requires many { many ≡ owned_below self.now self.now.users }
        ensures { result ≡ ranked_in self.now user }
    {
        // (the proof needs what is true of every share: its users are below 2^32)
        let _ = &self.users;
        let rank = home.rank(user);
        if rank as usize >= many {
            return None;
        }
        Some(Ranked { user, rank })
    }

    // Writes the last likes of the worker's users, by rank, into a list for all users. It walks over the users
    // submitter by submitter and round by round, so that none costs a division.
    pub fn give(&self, pages: &[LastLike], last: &mut [Option<u32>])
        requires ranks { HoldsUsers self.now pages.now }
        requires users { length last.old ≡ self.now.users }
        ensures { IsGiven self.now pages.now last.old last.new (length pages.now) }
    {
        let (submitters, workers) = (self.submitters as usize, self.workers as usize);
        let first = self.worker as usize;
        let (mut round, mut submitter) = (0, first);
        for page in pages {
            last[round + submitter] = page.page();
            submitter += workers;
            if submitter >= submitters {
                round += submitters;
                submitter = first;
            }
        }
    }

    // Writes the last likes of the worker's users, by rank, from a list for all users. It walks as `give` does.
    pub fn take(&self, lasts: &[u32], pages: &mut [LastLike])
        requires ranks { HoldsUsers self.now pages.old }
        requires users { length lasts.now ≡ self.now.users }
        ensures { AreTaken self.now lasts.now pages.new (length pages.new) }
    {
        let (submitters, workers) = (self.submitters as usize, self.workers as usize);
        let first = self.worker as usize;
        let (mut round, mut submitter) = (0, first);
        for rank in 0..pages.len() {
            pages[rank] = LastLike::numbered(lasts[round + submitter]);
            submitter += workers;
            if submitter >= submitters {
                round += submitters;
                submitter = first;
            }
        }
    }
}
