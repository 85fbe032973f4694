ghost use Rattle.std.specs.Prelude.{◌≡◌, ◌<◌, ◌^◌, [], ◌∷◌, IfOk, MatchResult, Some, None, is_some, length, map, replicate, slice_index_or, slice_set};
ghost use Rattle.like_collection.specs.Slots.{IsSlotsFault};

use crate::collect_fault::CollectFault;
use like_promises::{Answer, Reply};
use std::alloc::{AllocError, Global};
use std::marker::Model;

// What a place holds while it has no answer.
const NO_ANSWER: Answer = Answer {
    phase: 0,
    stashed: false,
    reply: Reply::Liked,
};

/// A place for the answer of each request of a submitter, and beside it whether the answer is there.
#[derive(Drop)]
pub(crate) struct SlotRow {
    answers: Vec<Answer>,
    there: Vec<bool>,
}

impl Model for SlotRow {
    ghost use Rattle.std.specs.Prelude.{◌≡◌, List, Option, length};
    ghost use Rattle.like_promises.specs.declared.answer.Answer.{Answer};
    ghost use Rattle.like_collection.specs.Slots.{answers_there};

    ghost Value = { List (Option Answer) };

    ghost view = { λ r. answers_there r.there.items r.answers.items };

    ghost invariant = { λ r. length r.there.items ≡ length r.answers.items };
}

impl SlotRow {
    /// This many places, all empty.
    pub fn new(alloc: Global, size: u32) -> Result<Self, AllocError>
        ensures { IfOk result (λ row. row ≡ replicate size None) }
    {
        Ok(SlotRow {
            answers: vec![in alloc; NO_ANSWER; size as usize]?,
            there: vec![in alloc; false; size as usize]?,
        })
    }

    /// How many places there are.
    pub fn len(&self) -> usize
        ensures { result ≡ length self.now }
    {
        self.answers.len()
    }

    /// Whether there is an answer at this place.
    pub fn has(&self, place: usize) -> bool
        requires { place < length self.now }
        ensures { result ≡ is_some (slice_index_or self.now place None) }
    {
        self.there[place]
    }

    /// Puts an answer at this place.
    pub fn put(&mut self, place: usize, answer: Answer)
        requires { place < length self.old }
        ensures { self.new ≡ slice_set self.old place (Some answer) }
    {
        self.answers[place] = answer;
        self.there[place] = true;
    }

    /// The answers at all places, of this submitter; `Missing` at the first that is empty.
    pub fn into_answers(self, submitter: u32) -> Result<Vec<Answer>, CollectFault>
        requires { length self < 2 ^ 32 }
        ensures { MatchResult result
            (λ answers. self ≡ map Some answers.items)
            (IsSlotsFault submitter (self ∷ [])) }
    {
        let SlotRow { answers, there } = self;
        for (place, is_there) in there.iter().enumerate() {
            if !*is_there {
                let number = place as u32 + 1;
                return Err(CollectFault::Missing { submitter, number });
            }
        }
        Ok(answers)
    }
}
