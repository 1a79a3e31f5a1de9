//! Words of streams in a row of places by their numbers, so that one is found by one comparison.
ghost use Rattle.std.specs.Prelude.{◌≡◌, ◌≢◌, ◌≤◌, ◌%◌, ◌==◌, if◌then◌else◌, ℕ, length, Some, None, is_some, IfNone, IfSome, IsSome, OnOk};
ghost use Rattle.h3_requests.specs.FirstWord.{IsFirstWord};
ghost use Rattle.h3_requests.specs.Words.{comes_next, near_at, near_waiting, with_bits, HoldSame, IsOneHeld};

use super::word::Word;
use std::alloc::{AllocError, Global};

/// How many places a row has: so many words, of 64 streams each, stand in it if their numbers follow one another.
const PLACES: usize = 16;

/// A place: the word in it, with its number. It is free if the word has no bit.
#[derive(Clone, Copy)]
pub(crate) struct NearWord {
    pub(crate) number: u64,
    pub(crate) word: Word,
}

/// The words in their places. The number of a word says its place, so one that finds it taken has none.
#[derive(Drop)]
pub(crate) struct NearWords {
    // none before the first word, and all of them from then on
    row: Vec<NearWord>,
}

impl NearWord {
    /// On which streams of its word something waits.
    fn waiting(&self) -> u64
        ensures { result ≡ self.now.word.waiting }
    {
        self.word.waiting
    }

    /// Whether something waits on a stream of this word, which stands in its place, and its number is one from there on, and less than
    /// the first one so far.
    fn comes_next(&self, index: usize, from: u64, first: Option<(u64, u64)>) -> bool
        ensures { result ≡ comes_next self.now index from first }
    {
        let is_less = match first {
            Some((number, _)) => self.number < number,
            None => true,
        };
        place_of(self.number) == index && self.word.waiting != 0 && from <= self.number && is_less
    }
}

// The place of a number.
fn place_of(number: u64) -> usize
    ensures { result ≡ number % 16 }
{
    number as usize % PLACES
}

impl NearWords {
    /// No word. It takes no memory.
    pub(crate) fn new(alloc: Global) -> NearWords
        ensures { (q : ℕ) → near_at result q ≡ None }
    {
        NearWords {
            row: Vec::new(alloc),
        }
    }

    /// The word of this number, if it has a place.
    pub(crate) fn get(&self, number: u64) -> Option<Word>
        ensures { result ≡ near_at self.now number }
    {
        let Some(near) = self.row.get(place_of(number)) else {
            return None;
        };
        if near.number != number || near.word.is_empty() {
            return None;
        }
        Some(near.word)
    }

    /// Whether the word of this number has a place.
    pub(crate) fn has(&self, number: u64) -> bool
        ensures { result ≡ is_some (near_at self.now number) }
    {
        self.get(number).is_some()
    }

    /// Changes the word of this number, which has a place. One without bits goes.
    pub(crate) fn set(&mut self, number: u64, word: Word)
        requires { IsSome (near_at self.old number) }
        ensures { IsOneHeld number (with_bits word) (near_at self.old) (near_at self.new) }
    {
        self.row[place_of(number)].word = word;
    }

    /// Takes memory for all places, where they are not there yet. The words stay.
    pub(crate) fn reserve(&mut self) -> Result<(), AllocError>
        ensures same { HoldSame (near_at self.old) (near_at self.new) }
        ensures places { OnOk result (16 ≤ length self.new.row.items) }
    {
        if self.row.len() >= PLACES {
            return Ok(());
        }
        let free = NearWord {
            number: 0,
            word: Word::NONE,
        };
        self.row.resize(PLACES, free)
    }

    /// What stands in the place of this number.
    pub(crate) fn rival(&self, number: u64) -> Option<NearWord>
        ensures found { IfSome result (λ p. (p.number % 16 ≡ number % 16) × (near_at self.now p.number ≡ Some p.word)) }
        ensures none { IfNone result ((q : ℕ) → q % 16 ≡ number % 16 → near_at self.now q ≡ None) }
    {
        let place = place_of(number);
        let Some(near) = self.row.get(place) else {
            return None;
        };
        if near.word.is_empty() || place_of(near.number) != place {
            return None;
        }
        Some(*near)
    }

    /// Puts a word into its place. What stood there goes. It takes no memory.
    pub(crate) fn put(&mut self, number: u64, word: Word)
        requires { 16 ≤ length self.old.row.items }
        ensures own { near_at self.new number ≡ with_bits word }
        ensures others { (q : ℕ) → q ≢ number → near_at self.new q ≡ (if q % 16 == number % 16 then None else near_at self.old q) }
    {
        self.row[place_of(number)] = NearWord { number, word };
    }

    /// The first word from this number on that has a stream on which something waits.
    pub(crate) fn next(&self, from: u64) -> Option<(u64, u64)>
        ensures { IsFirstWord (near_waiting self.now) from result }
    {
        let mut first = None;
        for index in 0..self.row.len() {
            let near = self.row[index];
            if near.comes_next(index, from, first) {
                first = Some((near.number, near.waiting()));
            }
        }
        first
    }
}
