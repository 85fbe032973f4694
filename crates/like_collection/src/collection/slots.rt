ghost use Rattle.std.specs.Prelude.{◌≡◌, ◌<◌, ◌≤◌, ◌^◌, ◌↔◌, ℕ, List, [], ◌∷◌, ◌++◌, All, IfOk, IsTrue, MatchResult, Some, None, length, map, replicate};
ghost use Rattle.like_limits.specs.Limits.{max_submitters};
ghost use Rattle.like_promises.specs.declared.log.Ran.{Ran};
ghost use Rattle.like_collection.specs.CollectFaults.{IsEntryFault};
ghost use Rattle.like_promises.specs.Collected.{rows_of};
ghost use Rattle.like_collection.specs.Slots.{HoldsAll, IsSlot, IsSlotsFault};

use crate::collect_fault::CollectFault;
use crate::collection::slot_row::SlotRow;
use like_promises::{Answer, Ran, Replies};
use std::alloc::{AllocError, Global};
use std::marker::Model;

/// A place for the answer of each request, by submitter and number.
#[derive(Drop)]
pub(crate) struct Slots {
    rows: Vec<SlotRow>,
}

impl Model for Slots {
    ghost use Rattle.std.specs.Prelude.{List, Option};
    ghost use Rattle.like_promises.specs.declared.answer.Answer.{Answer};

    ghost Value = { List (List (Option Answer)) };

    ghost view = { λ s. s.rows.items };
}

impl Slots {
    /// An empty place for each request. `sizes` tells how many requests each submitter has.
    pub fn new(alloc: Global, sizes: &[u32]) -> Result<Self, AllocError>
        ensures { IfOk result (λ slots. slots ≡ map (λ size. replicate size None) sizes.now) }
    {
        let mut rows = Vec::with_capacity(alloc, sizes.len())?;
        for size in sizes {
            rows.push(SlotRow::new(alloc, *size)?)?;
        }
        Ok(Slots { rows })
    }

    // Whether there is a place for this request.
    fn has_slot(&self, submitter: u32, number: u32) -> bool
        ensures { IsTrue result ↔ IsSlot self.now submitter number }
    {
        let submitter = submitter as usize;
        submitter < self.rows.len() && number >= 1 && number as usize <= self.rows[submitter].len()
    }

    // Puts the answer of an entry at its place.
    fn put(&mut self, entry: &Ran) -> Result<(), CollectFault>
        ensures { (sizes : List ℕ) (before : List Ran) → HoldsAll sizes before self.old
            → MatchResult result
            (λ _. HoldsAll sizes (before ++ entry.now ∷ []) self.new)
            (IsEntryFault sizes (before ++ entry.now ∷ [])) }
    {
        let Ran {
            phase,
            submitter,
            number,
            stashed,
            reply,
        } = *entry;
        if !self.has_slot(submitter, number) {
            return Err(CollectFault::Stranger { submitter, number });
        }
        let row = &mut self.rows[submitter as usize];
        let place = number as usize - 1;
        if row.has(place) {
            return Err(CollectFault::Double { submitter, number });
        }
        row.put(
            place,
            Answer {
                phase,
                stashed,
                reply,
            },
        );
        Ok(())
    }

    /// Puts the answers of all entries of a run list at their places.
    pub fn put_all(&mut self, ran: &[Ran]) -> Result<(), CollectFault>
        ensures { (sizes : List ℕ) (before : List Ran) → HoldsAll sizes before self.old
            → MatchResult result
            (λ _. HoldsAll sizes (before ++ ran.now) self.new)
            (IsEntryFault sizes (before ++ ran.now)) }
    {
        for entry in ran {
            self.put(entry)?;
        }
        Ok(())
    }

    /// The answers of all requests; `Missing` at the first place that is empty.
    pub fn into_replies(self, alloc: Global) -> Result<Replies, CollectFault>
        requires few { length self ≤ max_submitters }
        requires short { All (λ row. length row < 2 ^ 32) self }
        ensures { MatchResult result
            (λ replies. self ≡ map (map Some) (rows_of replies))
            (IsSlotsFault 0 self) }
    {
        let Slots { rows } = self;
        Ok(Replies {
            rows: answer_rows(alloc, rows)?,
        })
    }
}

// The answers of all submitters.
fn answer_rows(alloc: Global, slots: Vec<SlotRow>) -> Result<Vec<Vec<Answer>>, CollectFault>
    requires few { length slots.items ≤ max_submitters }
    requires short { All (λ row. length row < 2 ^ 32) slots.items }
    ensures { MatchResult result
        (λ rows. slots.items ≡ map (map Some) (map (λ row. row.items) rows.items))
        (IsSlotsFault 0 slots.items) }
{
    let mut rows = Vec::with_capacity(alloc, slots.len())?;
    for row in slots {
        let submitter = rows.len() as u32;
        rows.push(row.into_answers(submitter)?)?;
    }
    Ok(rows)
}
