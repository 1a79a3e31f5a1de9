//! Words of streams, with the bounds of those on whose streams something waits: so a search looks at no word outside of them.
ghost use Rattle.std.specs.Prelude.{◌≡◌, ℕ, false, IfSome, IsSome, OnErr, OnOk};
ghost use Rattle.h3_requests.specs.FirstWord.{IsFirstWord};
ghost use Rattle.h3_requests.specs.Words.{is_empty, near_at, no_bits, word_at, HaveSameBits, IsOneSet};

use super::bounds::Bounds;
use super::word::Word;
use super::words::Words;
use std::alloc::{AllocError, Global};
use std::marker::Model;

/// The words. A contract sees the word of each number; one that is not there has no bits.
#[derive(Drop)]
pub(crate) struct BoundedWords {
    words: Words,
    bounds: Bounds,
}

impl Model for BoundedWords {
    ghost use Rattle.h3_requests.specs.Bounds.{AreWithin};
    ghost use Rattle.h3_requests.specs.Words.{word_at, StoredWords};

    ghost Value = { StoredWords };

    ghost view = { λ s. s.words };

    ghost invariant = { λ s. AreWithin s.bounds (word_at s.words) };
}

impl BoundedWords {
    /// No word. It takes no memory.
    pub(crate) fn new(alloc: Global) -> BoundedWords
        ensures { (q : ℕ) → word_at result q ≡ no_bits }
    {
        BoundedWords {
            words: Words::new(alloc),
            bounds: Bounds::none(),
        }
    }

    /// The word of a number.
    #[inline(always)]
    pub(crate) fn get(&self, number: u64) -> Word
        ensures { result ≡ word_at self.now number }
    {
        self.words.get(number)
    }

    /// On which streams of the word of a number something waits. (The bounds are asked first: mostly nothing waits.)
    #[inline(always)]
    pub(crate) fn waiting_in(&self, number: u64) -> u64
        ensures { result ≡ (word_at self.now number).waiting }
    {
        if number < self.bounds.lowest || number > self.bounds.highest {
            return 0;
        }
        self.words.get(number).waiting
    }

    /// The word of a number, if it stands in the row. It is found with no search.
    #[inline(always)]
    pub(crate) fn near(&self, number: u64) -> Option<Word>
        ensures place { result ≡ near_at self.now.near number }
        ensures word { IfSome result (λ w. w ≡ word_at self.now number) }
    {
        self.words.near(number)
    }

    /// Changes a word that stands in the row. It takes no memory.
    #[inline(always)]
    pub(crate) fn set_near(&mut self, number: u64, word: Word)
        requires { IsSome (near_at self.old.near number) }
        ensures { IsOneSet number word (word_at self.old) (word_at self.new) }
    {
        self.words.set_near(number, word);
        self.bounds.note(number, word);
    }

    /// The same of a word on whose streams as much waits as before.
    #[inline(always)]
    pub(crate) fn set_near_places(&mut self, number: u64, word: Word)
        requires there { IsSome (near_at self.old.near number) }
        requires same { word.waiting ≡ (word_at self.old number).waiting }
        ensures { IsOneSet number word (word_at self.old) (word_at self.new) }
    {
        self.words.set_near(number, word);
    }

    /// Puts a word there. An `Err` changes nothing: an allocation failed.
    #[inline(always)]
    pub(crate) fn put(&mut self, number: u64, word: Word) -> Result<(), AllocError>
        ensures ok { OnOk result (IsOneSet number word (word_at self.old) (word_at self.new)) }
        ensures err { OnErr result (HaveSameBits (word_at self.old) (word_at self.new)) }
    {
        let Ok(()) = self.words.put(number, word) else {
            return Err(AllocError);
        };
        self.bounds.note(number, word);
        Ok(())
    }

    /// Changes a word that is there. It takes no memory.
    #[inline(always)]
    pub(crate) fn set(&mut self, number: u64, word: Word)
        requires { is_empty (word_at self.old number) ≡ false }
        ensures { IsOneSet number word (word_at self.old) (word_at self.new) }
    {
        self.words.set(number, word);
        self.bounds.note(number, word);
    }

    /// The first word from this number on that has a stream on which something waits.
    #[inline(always)]
    pub(crate) fn next(&self, from: u64) -> Option<(u64, u64)>
        ensures { IsFirstWord (λ q. (word_at self.now q).waiting) from result }
    {
        let first = from.max(self.bounds.lowest);
        if first > self.bounds.highest {
            return None;
        }
        self.next_within(first)
    }

    // The same, with no look at the bounds.
    #[inline(always)]
    fn next_within(&self, first: u64) -> Option<(u64, u64)>
        ensures { IsFirstWord (λ q. (word_at self.now q).waiting) first result }
    {
        let waiting = self.words.get(first).waiting;
        if waiting != 0 {
            return Some((first, waiting));
        }
        self.words.next(first)
    }
}
