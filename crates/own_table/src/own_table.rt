ghost use Rattle.std.specs.Prelude.{◌≡◌, ◌+◌, ◌%◌, ◌^◌, ◌<◌, [], length, bit_or, slice_index, slice_set};
ghost use mathlib.Core.Option.{none, some};
ghost use lib.ListN.{get_elem?};
ghost use Rattle.atomic_table.specs.Table.{Allows, step};
ghost use Rattle.own_table.specs.Standing.{state};

use crate::own_seat::OwnSeat;
use crate::standing::{FirstViews, Standing};
use atomic_table::{Play, TableRule};

/// Words that one thread owns, and the views of all seats at them, which meet a rule between any two steps.
///
/// V is what a seat knows, and K what the rule is told once, when the table is made.
#[derive(Drop)]
pub struct OwnTable<V, K, P: TableRule<(), V, K>> {
    pub(crate) words: Vec<u64>,
    pub(crate) standing: Standing<V, K, P>,
    ghost same: { standing.words ≡ words.items },
}

impl<V, K, P: TableRule<(), V, K>> OwnTable<V, K, P> {
    ghost use Rattle.own_table.specs.Table.{key_of, views_of, words_of};

    /// A table with these words, whose seats know what `F` says.
    pub fn open<F: FirstViews<V, K>>(key: &K, words: Vec<u64>) -> OwnTable<V, K, P>
        requires { P.holds key.now (state words.items (F.views key.now)) }
        ensures key { key_of result ≡ key.now }
        ensures words { words_of result ≡ words.items }
        ensures views { views_of result ≡ F.views key.now }
    {
        let standing = Standing::open::<F>(key, &words);
        OwnTable { words, standing }
    }

    /// The seat at this place among the views.
    pub fn seat(&self, id: usize) -> OwnSeat<V>
        requires { id < length (views_of self.now) }
        ensures id { result.id ≡ id }
        ensures view { get_elem? (views_of self.now) id ≡ some result.me.0 }
        ensures none { result.me.1 ≡ [] }
    {
        self.standing.seat(id)
    }

    /// What the rule says now.
    pub fn tell(&mut self)
        ensures key { key_of self.new ≡ key_of self.old }
        ensures words { words_of self.new ≡ words_of self.old }
        ensures views { views_of self.new ≡ views_of self.old }
        ensures holds { P.holds (key_of self.old) (state (words_of self.old) (views_of self.old)) }
    {
        self.standing.tell();
    }

    /// A word, read by no seat.
    pub fn word(&self, word: usize) -> u64
        requires { word < length (words_of self.now) }
        ensures { result ≡ slice_index (words_of self.now) word }
    {
        self.words[word]
    }

    /// A word, read by a seat.
    #[inline(always)]
    pub fn load<M: Play<(), V>>(&mut self, seat: &mut OwnSeat<V>, word: usize) -> u64
        requires here { get_elem? (views_of self.old) seat.old.id ≡ some seat.old.me.0 }
        requires there { word < length (words_of self.old) }
        requires allowed { Allows (P.holds (key_of self.old)) 0 seat.old.id seat.old.me word (λ n. n)
            (M.then (step 0 word 0 0 none) seat.old.me) }
        ensures found { result ≡ slice_index (words_of self.old) word }
        ensures key { key_of self.new ≡ key_of self.old }
        ensures words { words_of self.new ≡ words_of self.old }
        ensures views { views_of self.new ≡ slice_set (views_of self.old) seat.old.id seat.new.me.0 }
        ensures id { seat.new.id ≡ seat.old.id }
        ensures held { P.holds (key_of self.old) (state (words_of self.old) (views_of self.old)) }
        ensures told { M.then (step 0 word 0 0 none) seat.old.me result seat.new.me }
    {
        let found = self.words[word];
        *seat = self.standing.step::<M>(seat, word, 0, found);
        found
    }

    /// Stores a word, and returns what it was.
    #[inline(always)]
    pub fn swap<M: Play<(), V>>(&mut self, seat: &mut OwnSeat<V>, word: usize, new: u64) -> u64
        requires here { get_elem? (views_of self.old) seat.old.id ≡ some seat.old.me.0 }
        requires there { word < length (words_of self.old) }
        requires allowed { Allows (P.holds (key_of self.old)) 0 seat.old.id seat.old.me word (λ _. new)
            (M.then (step 0 word new 0 none) seat.old.me) }
        ensures found { result ≡ slice_index (words_of self.old) word }
        ensures key { key_of self.new ≡ key_of self.old }
        ensures words { words_of self.new ≡ slice_set (words_of self.old) word new }
        ensures views { views_of self.new ≡ slice_set (views_of self.old) seat.old.id seat.new.me.0 }
        ensures id { seat.new.id ≡ seat.old.id }
        ensures held { P.holds (key_of self.old) (state (words_of self.old) (views_of self.old)) }
        ensures told { M.then (step 0 word new 0 none) seat.old.me result seat.new.me }
    {
        let found = self.words[word];
        *seat = self.standing.step::<M>(seat, word, new, new);
        self.words[word] = new;
        found
    }

    /// Adds to a word, and returns what it was.
    #[inline(always)]
    pub fn fetch_add<M: Play<(), V>>(&mut self, seat: &mut OwnSeat<V>, word: usize, k: u64) -> u64
        requires here { get_elem? (views_of self.old) seat.old.id ≡ some seat.old.me.0 }
        requires there { word < length (words_of self.old) }
        requires allowed { Allows (P.holds (key_of self.old)) 0 seat.old.id seat.old.me word (λ n. (n + k) % 2 ^ 64)
            (M.then (step 0 word k 0 none) seat.old.me) }
        ensures found { result ≡ slice_index (words_of self.old) word }
        ensures key { key_of self.new ≡ key_of self.old }
        ensures words { words_of self.new ≡ slice_set (words_of self.old) word ((result + k) % 2 ^ 64) }
        ensures views { views_of self.new ≡ slice_set (views_of self.old) seat.old.id seat.new.me.0 }
        ensures id { seat.new.id ≡ seat.old.id }
        ensures held { P.holds (key_of self.old) (state (words_of self.old) (views_of self.old)) }
        ensures told { M.then (step 0 word k 0 none) seat.old.me result seat.new.me }
    {
        let found = self.words[word];
        let new = found.wrapping_add(k);
        *seat = self.standing.step::<M>(seat, word, k, new);
        self.words[word] = new;
        found
    }

    /// Sets bits of a word, and returns what it was.
    #[inline(always)]
    pub fn fetch_or<M: Play<(), V>>(&mut self, seat: &mut OwnSeat<V>, word: usize, k: u64) -> u64
        requires here { get_elem? (views_of self.old) seat.old.id ≡ some seat.old.me.0 }
        requires there { word < length (words_of self.old) }
        requires allowed { Allows (P.holds (key_of self.old)) 0 seat.old.id seat.old.me word (λ n. bit_or n k)
            (M.then (step 0 word k 0 none) seat.old.me) }
        ensures found { result ≡ slice_index (words_of self.old) word }
        ensures key { key_of self.new ≡ key_of self.old }
        ensures words { words_of self.new ≡ slice_set (words_of self.old) word (bit_or result k) }
        ensures views { views_of self.new ≡ slice_set (views_of self.old) seat.old.id seat.new.me.0 }
        ensures id { seat.new.id ≡ seat.old.id }
        ensures held { P.holds (key_of self.old) (state (words_of self.old) (views_of self.old)) }
        ensures told { M.then (step 0 word k 0 none) seat.old.me result seat.new.me }
    {
        let found = self.words[word];
        let new = found | k;
        *seat = self.standing.step::<M>(seat, word, k, new);
        self.words[word] = new;
        found
    }
}
