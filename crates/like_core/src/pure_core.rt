ghost use Rattle.std.specs.Prelude.{◌≡◌, ◌<◌, ◌≤◌, ◌↔◌, true, [], ◌∷◌, length, replicate, All, IsOk, IfOk, OnOk, IfErr, OnErr};
ghost use Rattle.like_limits.specs.Limits.{max_pages, max_workers, total_bound};
ghost use Rattle.like_core.specs.OpeningLimits.{AreLimits};
ghost use Rattle.like_core.specs.core.Numbers.{AreBounded};
ghost use Rattle.like_core.specs.core.Kept.{kept, AreRowsOf};

use crate::event::Event;
use crate::limits::Limits;
use crate::shown::Shown;
use crate::worker_state::WorkerState;
use std::alloc::{AllocError, Global};

mod conditions;
mod moves;
mod page_numbers;
mod refusal;
mod sequence;

use page_numbers::PageNumbers;
pub use refusal::{NotNow, Wrong};
pub use sequence::check_events;

/// The core as a state machine over events: it keeps the phase and the mask of its hot pages, each worker's state, how
/// many likes of each page each worker has not merged, and each page's count.
#[derive(Drop)]
pub struct Core {
    limits: Limits,
    phase: u64,
    ending: bool,
    /// The mask of the present phase's hot pages.
    hot: u64,
    states: Vec<WorkerState>,
    /// By worker.
    unmerged: Vec<PageNumbers>,
    counts: PageNumbers,
    /// Whether each page is marked as split.
    marks: Vec<bool>,
    ghost states_sized: { length states.items ≡ length unmerged.items },
    ghost marks_sized: { length marks.items ≡ length counts },
    ghost rows_sized: { AreRowsOf (length counts) unmerged.items },
    ghost bounded: { AreBounded (kept limits phase ending hot states.items unmerged.items counts marks.items) },
    ghost lawful: { AreLimits limits },
    ghost within: { phase ≤ limits.last_phase },
    ghost last: { ending ≡ true → phase < limits.last_phase },
}

/// Nothing unmerged, for each worker.
fn empty_rows(alloc: Global, workers: u32, pages: usize) -> Result<Vec<PageNumbers>, AllocError>
    ensures { IfOk result (λ rows. rows.items ≡ replicate workers (replicate pages 0)) }
{
    let mut rows = Vec::with_capacity(alloc, workers as usize)?;
    for _ in 0..workers {
        rows.push(PageNumbers::zeros(alloc, pages)?)?;
    }
    Ok(rows)
}

impl Core {
    ghost use Rattle.like_core.specs.core.Table.{Permits, IsShown, next, Refuses};
    ghost use Rattle.like_core.specs.core.State.{opening, opening_with, start};
    ghost use Rattle.like_core.specs.core.Core.{numbers_of, StandsFor, TakesStates, IsReachable, KeepsReachable, IsCoreExclusive};

    /// The core at the start of phase 0, running, with these counts and marks by page and the limits of a run. Pages
    /// that are marked in `split` are split in each odd phase, and others of the first 64 in those that are released
    /// with their bit.
    pub fn new(
        alloc: Global,
        workers: u32,
        counts: &[u64],
        split: &[bool],
    ) -> Result<Core, AllocError>
        requires some_worker { 1 ≤ workers }
        requires few_workers { workers ≤ max_workers }
        requires same_pages { length split.now ≡ length counts.now }
        requires few_pages { length counts.now ≤ max_pages }
        requires counts { All (λ count. count < total_bound) counts.now }
        ensures start { IfOk result
            (λ core. let z = opening workers counts.now split.now in StandsFor core z (start z)) }
        ensures reachable { IfOk result
            (λ core. IsReachable core (opening workers counts.now split.now)) }
        ensures exclusive { IfOk result IsCoreExclusive }
    {
        Core::with_limits(alloc, workers, counts, split, Limits::of_run())
    }

    /// A new core within these limits.
    pub fn with_limits(
        alloc: Global,
        workers: u32,
        counts: &[u64],
        split: &[bool],
        limits: Limits,
    ) -> Result<Core, AllocError>
        requires some_worker { 1 ≤ workers }
        requires few_workers { workers ≤ limits.seats }
        requires same_pages { length split.now ≡ length counts.now }
        requires few_pages { length counts.now ≤ limits.pages }
        requires counts { All (λ count. count < total_bound) counts.now }
        requires limits { AreLimits limits }
        ensures start { IfOk result (λ core.
            let z = opening_with limits workers counts.now split.now in StandsFor core z (start z)) }
        ensures reachable { IfOk result (λ core.
            IsReachable core (opening_with limits workers counts.now split.now)) }
        ensures exclusive { IfOk result IsCoreExclusive }
    {
        Ok(Core {
            limits,
            phase: 0,
            ending: false,
            hot: 0,
            states: vec![in alloc; WorkerState::Runs(0); workers as usize]?,
            unmerged: empty_rows(alloc, workers, counts.len())?,
            counts: PageNumbers::from_slice(alloc, counts)?,
            marks: Vec::from_slice(alloc, split)?,
        })
    }

    /// Makes the event if it may happen now. Else it answers the first reason against it, and the core is as before.
    pub fn step(&mut self, event: Event) -> Result<Shown, NotNow>
        ensures permitted { IsOk result ↔ Permits (numbers_of self.old) event }
        ensures shown { IfOk result (IsShown (numbers_of self.old) event) }
        ensures next { OnOk result (numbers_of self.new ≡ next (numbers_of self.old) event) }
        ensures states { OnOk result (TakesStates self.old self.new (event ∷ [])) }

        ensures refused { IfErr result (Refuses (numbers_of self.old) event) }
        ensures unchanged { OnErr result (self.new ≡ self.old) }

        ensures reachable { KeepsReachable self.old self.new }
        ensures exclusive { IsCoreExclusive self.new }
    {
        match self.refusal(event) {
            Some(reason) => Err(reason),
            None => Ok(self.apply(event)),
        }
    }
}
