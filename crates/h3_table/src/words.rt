//! Words of 64 bits by their numbers. If many numbers are small, their words lie in a row, and are found with no search.
ghost use Rattle.std.specs.Prelude.{◌≡◌, ◌<◌, ◌≤◌, ◌+◌, ◌*◌, ℕ, true, false, length, max, bit_or, OnErr, OnOk};
ghost use Rattle.std.specs.Vec.{vec_len, vec_capacity};
ghost use Rattle.h3_table.specs.Words.{row_word, further_word, word_at, HaveSameWords, IsOneWord};
ghost use Rattle.h3_table.specs.ShortWords.{IsShort, IsOneMore, AreNoMore};

use std::alloc::{AllocError, Global};
use std::collections::BTreeMap;

/// The numbers of the words of request streams are four apart, as those streams are (RFC 9000, section 2.1).
const STEP: u64 = 4;

/// The row has at most so many places for each word that was put in, and so many more: its memory is linear in the words, whatever their
/// numbers are.
const ROW_PER_WORD: usize = 4;

const ROW_AT_FIRST: usize = 16;

/// By so many places the row grows at once. Each of them costs a search among the further words.
const ROW_GROWTH: usize = 8;

/// Words by their numbers. One that is 0 is not there.
#[derive(Drop)]
pub(crate) struct Words {
    // the words 0, 4, 8 and so on; a number whose word is 0 here may have one among the further ones
    row: Vec<u64>,
    further: BTreeMap<u64, u64>,
    // how many were put in
    count: usize,
}

/// The word of the row, or 0.
fn row_word(row: &Vec<u64>, number: u64) -> u64
    ensures { result ≡ row_word row.now.items number }
{
    let place = (number / STEP) as usize;
    if number % STEP != 0 || place >= row.len() {
        return 0;
    }
    row[place]
}

/// Takes a further word out, and answers it, or 0.
fn take_further(further: &mut BTreeMap<u64, u64>, number: u64) -> u64
    ensures own { result ≡ further_word further.old.entries number }
    ensures others { IsOneWord number 0 (further_word further.old.entries) (further_word further.new.entries) }
    ensures fewer { length further.new.entries ≤ length further.old.entries }
{
    match further.remove(&number) {
        Some(word) => word,
        None => 0,
    }
}

/// Takes memory for a place more in the row, if it has none: twice as many then, or `ROW_GROWTH`.
fn reserve(row: &mut Vec<u64>) -> Result<(), AllocError>
    ensures same { row.new.items ≡ row.old.items }
    ensures ok { OnOk result (vec_len row.new < vec_capacity row.new) }
    ensures block { vec_capacity row.new ≤ max (vec_capacity row.old) (2 * vec_len row.old + 8) }
{
    let len = row.len();
    if len < row.capacity() {
        return Ok(());
    }
    row.reserve_exact(len.max(ROW_GROWTH))
}

impl Words {
    /// No word. It takes no memory.
    pub(crate) fn new(alloc: Global) -> Words
        ensures words { (number : ℕ) → word_at result number ≡ 0 }
        ensures short { IsShort result }
        ensures none { (result.count ≡ 0) × (length result.further.entries ≡ 0) }
    {
        Words {
            row: Vec::new(alloc),
            further: BTreeMap::new(alloc),
            count: 0,
        }
    }

    /// The word of a number, or 0.
    pub(crate) fn get(&self, number: u64) -> u64
        ensures { result ≡ word_at self.now number }
    {
        let word = row_word(&self.row, number);
        if word != 0 {
            return word;
        }
        match self.further.get(&number) {
            Some(word) => *word,
            None => 0,
        }
    }

    /// Adds bits to a word that is there, and answers whether it is.
    pub(crate) fn add(&mut self, number: u64, bits: u64) -> bool
        ensures added { result ≡ true → IsOneWord number (bit_or (word_at self.old number) bits) (word_at self.old) (word_at self.new) }
        ensures not_there { result ≡ false → word_at self.old number ≡ 0 }
        ensures unchanged { result ≡ false → HaveSameWords (word_at self.old) (word_at self.new) }
        ensures short { IsShort self.old → IsShort self.new }
        ensures count { self.new.count ≡ self.old.count }
        ensures further { length self.new.further.entries ≡ length self.old.further.entries }
    {
        let word = row_word(&self.row, number);
        if word != 0 {
            self.row[(number / STEP) as usize] = word | bits;
            return true;
        }
        if let Some(word) = self.further.get_mut(&number) {
            *word |= bits;
            return true;
        }
        false
    }

    /// Makes the row longer by one word, if it has less than so many. The word is taken from the further ones.
    fn lengthen(&mut self, most: usize)
        ensures words { HaveSameWords (word_at self.old) (word_at self.new) }
        ensures short { most ≤ 4 * self.old.count + 16 → IsShort self.old → IsShort self.new }
        ensures count { self.new.count ≡ self.old.count }
        ensures further { length self.new.further.entries ≤ length self.old.further.entries }
    {
        let len = self.row.len();
        if len >= most {
            return;
        }
        let Some(number) = (len as u64).checked_mul(STEP) else {
            return;
        };
        let Ok(()) = reserve(&mut self.row) else {
            return;
        };
        let word = take_further(&mut self.further, number);
        self.row.push_reserved(word);
    }

    /// Makes the row longer, if that may give the number's word a place in it, or one that stands among the further ones.
    fn make_room(&mut self, number: u64)
        ensures words { HaveSameWords (word_at self.old) (word_at self.new) }
        ensures short { IsShort self.old → IsShort self.new }
        ensures count { self.new.count ≡ self.old.count }
        ensures further { length self.new.further.entries ≤ length self.old.further.entries }
    {
        let most = self
            .count
            .saturating_mul(ROW_PER_WORD)
            .saturating_add(ROW_AT_FIRST);
        let place = (number / STEP) as usize;
        if number % STEP != 0 || place >= most {
            return;
        }
        if place < self.row.len() && self.further.is_empty() {
            return;
        }
        for _word in 0..ROW_GROWTH {
            self.lengthen(most);
        }
    }

    /// Puts a word that is not there into the row, or else among the further ones.
    fn put(&mut self, number: u64, word: u64) -> Result<(), AllocError>
        requires not_there { word_at self.old number ≡ 0 }
        requires some { 0 < word }
        ensures ok { OnOk result (IsOneWord number word (word_at self.old) (word_at self.new)) }
        ensures err { OnErr result (HaveSameWords (word_at self.old) (word_at self.new)) }
        ensures short { IsShort self.old → IsShort self.new }
        ensures count { self.new.count ≡ self.old.count }
        ensures further { OnOk result (length self.new.further.entries ≤ length self.old.further.entries + 1) }
        ensures no_further { OnErr result (length self.new.further.entries ≡ length self.old.further.entries) }
    {
        let place = (number / STEP) as usize;
        if number % STEP == 0 && place < self.row.len() {
            self.row[place] = word;
            return Ok(());
        }
        self.further.insert(number, word)?;
        Ok(())
    }

    /// Puts a word in that is not there. If an allocation fails, no word changes.
    pub(crate) fn insert(&mut self, number: u64, word: u64) -> Result<(), AllocError>
        requires not_there { word_at self.old number ≡ 0 }
        requires some { 0 < word }
        ensures ok { OnOk result (IsOneWord number word (word_at self.old) (word_at self.new)) }
        ensures err { OnErr result (HaveSameWords (word_at self.old) (word_at self.new)) }
        ensures short { IsShort self.old → IsShort self.new }
        ensures more { OnOk result (IsOneMore self.old self.new) }
        ensures no_more { OnErr result (AreNoMore self.old self.new) }
    {
        self.make_room(number);
        self.put(number, word)?;
        self.count = self.count.saturating_add(1);
        Ok(())
    }
}
