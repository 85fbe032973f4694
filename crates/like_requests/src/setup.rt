ghost use Rattle.std.specs.Prelude.{◌≡◌, ◌≤◌, ◌↔◌, List, IsTrue, IfNone, MatchOption, MatchResult, length, map};
ghost use Rattle.like_limits.specs.Limits.{max_submitters};
ghost use Rattle.like_requests.specs.Pages.{Page};
ghost use Rattle.like_requests.specs.declared.request.Request.{Request};
ghost use Rattle.like_requests.specs.Setup.{AreNumbersWithin, IsFirstBroken, IsHotLimit, IsPlan, IsWithinLimits};

use crate::pages::Pages;
use crate::request::{PageRef, Request};
use thiserror::Error;

/// The most workers of a run.
pub const MAX_WORKERS: u32 = like_limits::MAX_WORKERS;

/// The most submitters of a run.
pub const MAX_SUBMITTERS: usize = 64;

/// The most users of a run.
pub const MAX_USERS: u32 = 1_000_000;

/// The most looks that a worker's stash may hold.
pub const MAX_STASH: u32 = 4_096;

/// The most turns that the coordinator may count in a phase.
pub const MAX_TURNS: u32 = 1_000_000;

/// The most likes that may be asked of a page before the coordinator chooses it as hot.
pub const MAX_HOT: u32 = 1_000_000;

/// The most requests of a submitter.
pub const MAX_REQUESTS: u32 = 1_000_000;

/// The settings of a run.
#[derive(Drop)]
pub struct Setup {
    /// How many workers there are: 1 to 16.
    pub workers: u32,
    /// How many users there are: 1 to 1,000,000.
    pub users: u32,
    /// How many looks a worker's stash holds: 1 to 4,096.
    pub stash: u32,
    /// How many turns the coordinator counts before it ends a phase: 0 to 1,000,000.
    pub turns: u32,
    /// How many likes make a page hot, 1 to 1,000,000, if the coordinator is to choose hot pages.
    pub hot: Option<u32>,
    pub pages: Pages,
}

/// The first limit that settings break.
#[derive(Clone, Copy, Debug, PartialEq, Eq, Error)]
pub enum SettingsFault {
    #[error("settings")]
    Workers,
    #[error("between 1 and 64 request files")]
    Submitters,
    #[error("settings")]
    Users,
    #[error("settings")]
    Stash,
    #[error("settings")]
    Turns,
    /// The submitter's list has more than 1,000,000 requests, or one with a page number that no page has.
    #[error("settings")]
    Plan { submitter: u32 },
    /// The script's entry at this place, from 0, names a submitter or a worker that doesn't exist.
    #[error("no such worker or submitter")]
    Script { at: u32 },
    /// The number of likes that make a page hot. It is tested after the submitters' lists.
    #[error("settings")]
    Hot,
}

/// Tests the settings and the submitters' lists against every limit of a run, in the order of `SettingsFault`. It never
/// answers `Script`.
pub fn check_setup(setup: &Setup, plans: &[Vec<Request>]) -> Result<(), SettingsFault>
    ensures { let lists = map (λ plan. plan.items) plans.now in
        MatchResult result (λ _. IsWithinLimits setup.now lists) (IsFirstBroken setup.now lists) }
{
    if let Some(fault) = broken_number(setup, plans.len()) {
        return Err(fault);
    }
    for (submitter, plan) in plans.iter().enumerate() {
        if !is_plan(plan, setup.pages.len()) {
            return Err(SettingsFault::Plan {
                submitter: submitter as u32,
            });
        }
    }
    if !is_hot_limit(setup.hot) {
        return Err(SettingsFault::Hot);
    }
    Ok(())
}

// The first limit on a number that is broken, where there are this many submitters.
fn broken_number(setup: &Setup, submitters: usize) -> Option<SettingsFault>
    ensures few { IfNone result (submitters ≤ max_submitters) }
    ensures broken { (plans : List (List Request)) → length plans ≡ submitters
        → MatchOption result (AreNumbersWithin setup.now plans) (IsFirstBroken setup.now plans) }
{
    if setup.workers < 1 || setup.workers > MAX_WORKERS {
        return Some(SettingsFault::Workers);
    }
    if submitters < 1 || submitters > MAX_SUBMITTERS {
        return Some(SettingsFault::Submitters);
    }
    if setup.users < 1 || setup.users > MAX_USERS {
        return Some(SettingsFault::Users);
    }
    if setup.stash < 1 || setup.stash > MAX_STASH {
        return Some(SettingsFault::Stash);
    }
    if setup.turns > MAX_TURNS {
        return Some(SettingsFault::Turns);
    }
    None
}

/// Whether this is a lawful limit for hot pages: none, or 1 to 1,000,000.
pub fn is_hot_limit(hot: Option<u32>) -> bool
    ensures { IsTrue result ↔ IsHotLimit hot }
{
    match hot {
        Some(least) => 1 <= least && least <= MAX_HOT,
        None => true,
    }
}

// Whether a list is within the limit and has only page numbers below `pages`.
fn is_plan(plan: &[Request], pages: u32) -> bool
    ensures { (list : List Page) → length list ≡ pages → IsTrue result ↔ IsPlan list plan.now }
{
    plan.len() <= MAX_REQUESTS as usize
        && plan.iter().all(|request| match request.page {
            PageRef::Known(page) => page < pages,
            PageRef::Unknown => true,
        })
}
