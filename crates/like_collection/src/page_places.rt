ghost use Rattle.std.specs.Prelude.{◌≡◌, ◌<◌, ◌≤◌, ◌∷◌, [], ◌++◌, ℕ, All, List, IfOk, OnOk, length, replicate, slice_index_or, slice_set};
ghost use Rattle.like_limits.specs.Limits.{max_workers};
ghost use Rattle.like_promises.specs.places.Places.{ArePlaces, AreByOld, lists_in, places_of};
ghost use Rattle.like_promises.specs.declared.place.Place.{Place as Entry};

use like_promises::{Added, Place, WorkerLog};
use std::alloc::{AllocError, Global};

/// The places of all the workers' additions to each page, by rising counts before. Those with the same count before are
/// in the order of the workers and of their additions.
pub fn places(alloc: Global, pages: u32, logs: &[WorkerLog]) -> Result<Vec<Vec<Place>>, AllocError>
    requires few { length logs.now ≤ max_workers }
    requires there { All (λ log. All (λ a. a.page < pages) log.adds.items) logs.now }
    ensures { IfOk result (λ rows. ArePlaces pages logs.now (lists_in rows.items)) }
{
    let mut rows = empty_rows(alloc, pages)?;
    let mut worker = 0;
    for log in logs {
        add_places(&mut rows, worker, &log.adds)?;
        worker += 1;
    }
    sort_all(&mut rows)?;
    Ok(rows)
}

// No places yet, for each page.
fn empty_rows(alloc: Global, pages: u32) -> Result<Vec<Vec<Place>>, AllocError>
    ensures { IfOk result (λ rows. lists_in rows.items ≡ replicate pages []) }
{
    let mut rows = Vec::with_capacity(alloc, pages as usize)?;
    for _page in 0..pages {
        rows.push(Vec::new(alloc))?;
    }
    Ok(rows)
}

// Appends the place of an addition to its page's places.
#[tactic(auto, using(crate::proofs::PlaceLists::lists_set, crate::proofs::PlaceLists::lists_get))]
fn put(rows: &mut Vec<Vec<Place>>, page: usize, place: Place) -> Result<(), AllocError>
    requires { page < length rows.old.items }
    ensures { OnOk result (lists_in rows.new.items ≡ slice_set (lists_in rows.old.items) page
        (slice_index_or (lists_in rows.old.items) page [] ++ place ∷ [])) }
{
    rows[page].push(place)?;
    Ok(())
}

// Appends the places of a worker's additions to their pages' places.
fn add_places(rows: &mut Vec<Vec<Place>>, worker: u32, adds: &[Added]) -> Result<(), AllocError>
    requires { All (λ a. a.page < length rows.old.items) adds.now }
    ensures len { OnOk result (length (lists_in rows.new.items)
        ≡ length (lists_in rows.old.items)) }
    ensures each { OnOk result ((page : ℕ) → page < length (lists_in rows.old.items) →
        slice_index_or (lists_in rows.new.items) page []
        ≡ slice_index_or (lists_in rows.old.items) page [] ++ places_of page worker adds.now) }
{
    for added in adds {
        put(
            rows,
            added.page as usize,
            Place {
                worker,
                phase: added.phase,
                old: added.old,
                n: added.n,
            },
        )?;
    }
    Ok(())
}

// Sorts the places of each page by rising counts before.
fn sort_all(rows: &mut Vec<Vec<Place>>) -> Result<(), AllocError>
    ensures len { OnOk result (length (lists_in rows.new.items)
        ≡ length (lists_in rows.old.items)) }
    ensures each { OnOk result ((page : ℕ) → page < length (lists_in rows.old.items) →
        AreByOld (slice_index_or (lists_in rows.old.items) page [])
        (slice_index_or (lists_in rows.new.items) page [])) }
{
    for page in 0..rows.len() {
        sort_at(rows, page)?;
    }
    Ok(())
}

// Sorts the places of one page.
#[tactic(auto, using(crate::proofs::PlaceLists::lists_set, crate::proofs::PlaceLists::lists_get))]
fn sort_at(rows: &mut Vec<Vec<Place>>, page: usize) -> Result<(), AllocError>
    requires { page < length rows.old.items }
    ensures { OnOk result ((placed : List Entry)
        × (AreByOld (slice_index_or (lists_in rows.old.items) page []) placed
        × (lists_in rows.new.items ≡ slice_set (lists_in rows.old.items) page placed))) }
{
    sort(&mut rows[page])
}

// Sorts places by rising counts before.
fn sort(places: &mut Vec<Place>) -> Result<(), AllocError>
    ensures { OnOk result (AreByOld places.old.items places.new.items) }
{
    places.sort_by_key(|place| place.old)?;
    Ok(())
}
