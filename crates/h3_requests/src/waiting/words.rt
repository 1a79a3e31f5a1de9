//! Words of streams by their numbers: one in its place of a row, and in a map those whose place another has.
ghost use Rattle.std.specs.Prelude.{◌≡◌, ◌≢◌, ℕ, false, None, unwrap_or, IfSome, IsSome, OnErr, OnOk};
ghost use Rattle.h3_requests.specs.FirstWord.{IsFirstWord};
ghost use Rattle.h3_requests.specs.Words.{far_at, far_waiting, is_empty, near_at, no_bits, word_at, HaveSameBits, IsOneSet};

use super::near::NearWords;
use super::word::Word;
use std::alloc::{AllocError, Global};
use std::collections::BTreeMap;
use std::marker::Model;

/// The words. A contract sees the word of each number; one that is not there has no bits.
#[derive(Drop)]
pub(crate) struct Words {
    near: NearWords,
    // those that found their place taken
    far: BTreeMap<u64, Word>,
}

impl Model for Words {
    ghost use Rattle.h3_requests.specs.Words.{near_at, AreApart, StoredWords};

    ghost Value = { StoredWords };

    ghost view = { λ s. record { near = s.near; far = s.far.entries } };

    ghost invariant = { λ s. AreApart (near_at s.near) s.far.entries };
}

impl Words {
    /// No word. It takes no memory.
    pub(crate) fn new(alloc: Global) -> Words
        ensures { (q : ℕ) → word_at result q ≡ no_bits }
    {
        Words {
            near: NearWords::new(alloc),
            far: BTreeMap::new(alloc),
        }
    }

    /// The word of a number.
    #[inline(always)]
    pub(crate) fn get(&self, number: u64) -> Word
        ensures { result ≡ word_at self.now number }
    {
        match self.near.get(number) {
            Some(word) => word,
            None => get_far(&self.far, number),
        }
    }

    /// The word of a number, if it stands in the row. It is found with no search.
    #[inline(always)]
    pub(crate) fn near(&self, number: u64) -> Option<Word>
        ensures place { result ≡ near_at self.now.near number }
        ensures word { IfSome result (λ w. w ≡ word_at self.now number) }
    {
        self.near.get(number)
    }

    /// Changes a word that stands in the row. It takes no memory.
    #[inline(always)]
    pub(crate) fn set_near(&mut self, number: u64, word: Word)
        requires { IsSome (near_at self.old.near number) }
        ensures { IsOneSet number word (word_at self.old) (word_at self.new) }
    {
        self.near.set(number, word);
    }

    /// Puts a word there. An `Err` changes nothing: an allocation failed.
    #[inline(always)]
    pub(crate) fn put(&mut self, number: u64, word: Word) -> Result<(), AllocError>
        ensures ok { OnOk result (IsOneSet number word (word_at self.old) (word_at self.new)) }
        ensures err { OnErr result (HaveSameBits (word_at self.old) (word_at self.new)) }
    {
        if self.near.has(number) {
            self.near.set(number, word);
            return Ok(());
        }
        self.put_new(number, word)
    }

    // The same of a word that does not stand in the row. A new one takes its place there, and what stood in it goes to the map: so the last
    // words that came are found with no search.
    #[inline(never)]
    fn put_new(&mut self, number: u64, word: Word) -> Result<(), AllocError>
        requires { near_at self.old.near number ≡ None }
        ensures ok { OnOk result (IsOneSet number word (word_at self.old) (word_at self.new)) }
        ensures err { OnErr result (HaveSameBits (word_at self.old) (word_at self.new)) }
    {
        if let Some(there) = self.far.get_mut(&number) {
            *there = word;
            return Ok(());
        }
        self.near.reserve()?;
        let Some(other) = self.near.rival(number) else {
            self.near.put(number, word);
            return Ok(());
        };
        let Ok(_) = self.far.insert(other.number, other.word) else {
            return Err(AllocError);
        };
        self.near.put(number, word);
        Ok(())
    }

    /// Changes a word that is there. It takes no memory.
    #[inline(always)]
    pub(crate) fn set(&mut self, number: u64, word: Word)
        requires { is_empty (word_at self.old number) ≡ false }
        ensures { IsOneSet number word (word_at self.old) (word_at self.new) }
    {
        if self.near.has(number) {
            self.near.set(number, word);
            return;
        }
        set_far(&mut self.far, number, word);
    }

    /// The first word from this number on that has a stream on which something waits.
    pub(crate) fn next(&self, from: u64) -> Option<(u64, u64)>
        ensures { IsFirstWord (λ q. (word_at self.now q).waiting) from result }
    {
        let far = next_far(&self.far, from);
        let Some(near) = self.near.next(from) else {
            return far;
        };
        match far {
            Some(far) if far.0 < near.0 => Some(far),
            _ => Some(near),
        }
    }
}

// The same of the map alone.
fn next_far(far: &BTreeMap<u64, Word>, from: u64) -> Option<(u64, u64)>
    ensures { IsFirstWord (far_waiting far.now.entries) from result }
{
    for (number, word) in far.range(from..) {
        let waiting = word.waiting;
        if waiting != 0 {
            return Some((*number, waiting));
        }
    }
    None
}

// The word of a number in the map.
#[inline(never)]
fn get_far(far: &BTreeMap<u64, Word>, number: u64) -> Word
    ensures { result ≡ unwrap_or (far_at far.now.entries number) no_bits }
{
    match far.get(&number) {
        Some(word) => *word,
        None => Word::NONE,
    }
}

// Changes a word in the map, if it is there. One without bits goes.
#[inline(never)]
fn set_far(far: &mut BTreeMap<u64, Word>, number: u64, word: Word)
    ensures own { IsSome (far_at far.old.entries number) → unwrap_or (far_at far.new.entries number) no_bits ≡ word }
    ensures none { far_at far.old.entries number ≡ None → far_at far.new.entries number ≡ None }
    ensures others { (q : ℕ) → q ≢ number → far_at far.new.entries q ≡ far_at far.old.entries q }
{
    if word.is_empty() {
        far.remove(&number);
        return;
    }
    if let Some(there) = far.get_mut(&number) {
        *there = word;
    }
}
