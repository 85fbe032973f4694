//! The forms of the phase word: what a board's steps put into it, and what it shows.
ghost use Rattle.std.specs.Prelude.{◌≡◌, ◌<◌, ◌≤◌};
ghost use Rattle.like_core.specs.Functions.{each_below, has_bit};
ghost use Rattle.like_core.specs.OpeningLimits.{most_phase, most_seats};
ghost use Rattle.like_core.specs.views.Sights.{coord_sight_in, sight_in};
ghost use Rattle.like_core.specs.word.Forms.{first_word, form_of, released_kind};

use crate::phase_word::{ANSWERED_AT, NUMBER_AT, RETIRED_AT, WORKERS_AT};
use crate::sight::{CoordSight, Sight};

// Where each field of a word of counts begins, from its lowest bit; the kind begins at bit 0.
const COUNT_AT: u32 = 2;

const GONE_AT: u32 = 9;

const PHASE_AT: u32 = 16;

// The bits of a count, which has seven.
const COUNT_MASK: u64 = 127;

/// How a phase word tells who has answered.
#[derive(Clone, Copy, PartialEq, Eq)]
pub enum Form {
    /// Two bits for each worker: the form of a run.
    Bits,
    /// How many have answered, and how many are gone: the form of a service.
    Counts,
}

// Whether a mask has a bit for each worker.
fn has_all(mask: u64, workers: u32) -> bool
    requires { workers ≤ 16 }
    ensures { result ≡ each_below (has_bit mask) workers }
{
    let full = (1u64 << workers) - 1;
    mask & full == full
}

// The kind of the phase that follows an ending one, at its start.
fn released_kind(word: u64) -> u64
    ensures { result ≡ released_kind word }
{
    if word & 3 == 1 { 2 } else { 0 }
}

impl Form {
    /// The word at the start: all workers run phase 0.
    pub fn first(self, workers: u32) -> u64
        requires { workers ≤ most_seats self }
        ensures { result ≡ first_word (form_of self) workers }
    {
        match self {
            Form::Bits => u64::from(workers) << WORKERS_AT,
            Form::Counts => 0,
        }
    }

    /// What a worker puts into the word where it acknowledges or reports: its bit, or 1 in the count of answers.
    pub fn answer(self, worker: u32) -> u64
        requires { worker < most_seats self }
        ensures { result ≡ (form_of self).answer worker }
    {
        match self {
            Form::Bits => 1 << (ANSWERED_AT + worker),
            Form::Counts => 1 << COUNT_AT,
        }
    }

    /// What it puts into it where it retires.
    pub fn retirement(self, worker: u32) -> u64
        requires { worker < most_seats self }
        ensures { result ≡ (form_of self).retirement worker }
    {
        match self {
            Form::Bits => 1 << (RETIRED_AT + worker),
            Form::Counts => 1 << GONE_AT,
        }
    }

    /// The phase that the word tells.
    #[inline(always)]
    pub fn phase_in(self, word: u64) -> u64
        ensures { result ≡ (form_of self).phase_in word }
    {
        match self {
            Form::Bits => word >> NUMBER_AT,
            Form::Counts => word >> PHASE_AT,
        }
    }

    /// What a worker sees in the word. `turn` is 1 where it has answered an odd phase last, and 0 where an even one. A
    /// worker that runs a phase needs bit 0 alone.
    #[inline(always)]
    pub fn sight_in(self, word: u64, turn: u64) -> Sight
        ensures { result ≡ sight_in (form_of self) turn word }
    {
        Sight {
            number: self.phase_in(word),
            ending: word & 1 == 1,
            waits: (word >> 1) & 1 == turn,
        }
    }

    /// Whether the word shows all workers in.
    fn all_in(self, word: u64, workers: u32) -> bool
        requires { workers ≤ most_seats self }
        ensures { result ≡ (form_of self).all_in workers word }
    {
        match self {
            Form::Bits => has_all((word >> ANSWERED_AT) | (word >> RETIRED_AT), workers),
            Form::Counts => {
                let answered = (word >> COUNT_AT) & COUNT_MASK;
                let gone = (word >> GONE_AT) & COUNT_MASK;
                answered + gone == u64::from(workers)
            }
        }
    }

    /// Whether it shows all of them gone.
    fn all_gone(self, word: u64, workers: u32) -> bool
        requires { workers ≤ most_seats self }
        ensures { result ≡ (form_of self).all_gone workers word }
    {
        match self {
            Form::Bits => has_all(word >> RETIRED_AT, workers),
            Form::Counts => (word >> GONE_AT) & COUNT_MASK == u64::from(workers),
        }
    }

    /// What the coordinator of this many workers sees.
    pub fn coord_sight_in(self, word: u64, workers: u32) -> CoordSight
        requires { workers ≤ most_seats self }
        ensures { result ≡ coord_sight_in (form_of self) workers word }
    {
        CoordSight {
            number: self.phase_in(word),
            ending: word & 1 == 1,
            all_in: self.all_in(word, workers),
            all_gone: self.all_gone(word, workers),
        }
    }

    /// The word that a release stores: the next phase, running, with the same workers gone.
    pub fn released(self, word: u64) -> u64
        requires { (form_of self).phase_in word ≤ most_phase self }
        ensures { result ≡ (form_of self).released word }
    {
        let kind = released_kind(word);
        match self {
            Form::Bits => {
                let workers = (word >> WORKERS_AT) & 63;
                let retired = (word >> RETIRED_AT) & 0xffff;
                let number = (word >> NUMBER_AT) + 1;
                kind + (workers << WORKERS_AT) + (retired << RETIRED_AT) + (number << NUMBER_AT)
            }
            Form::Counts => {
                let gone = (word >> GONE_AT) & COUNT_MASK;
                let phase = (word >> PHASE_AT) + 1;
                kind + (gone << GONE_AT) + (phase << PHASE_AT)
            }
        }
    }
}
