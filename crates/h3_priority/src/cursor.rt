//! A place in a text.
ghost use Rattle.std.specs.Prelude.{◌≡◌, drop, MatchOption, [], ◌∷◌, ◌≤◌, length, if◌then◌else◌, ◌==◌};
ghost use Rattle.std.specs.List.{take_while, prefix_len};
ghost use Rattle.h3_priority.specs.Characters.{is_in};
ghost use Rattle.h3_priority.specs.Reading.{begins_with, begins_in, after};

use crate::characters::Class;
use std::marker::Model;

/// What of a text is not yet read.
#[derive(Drop)]
pub struct Cursor<'a> {
    text: &'a [u8],
}

impl<'a> Model for Cursor<'a> {
    ghost use Rattle.std.specs.Prelude.{ℕ, List};

    ghost Value = { List ℕ };

    ghost view = { λ c. c.text.now };
}

impl<'a> Cursor<'a> {
    /// A cursor over a text, of which nothing is read.
    pub fn new(text: &'a [u8]) -> Cursor<'a>
        ensures { result ≡ text.now }
    {
        Cursor { text }
    }

    /// Whether nothing is left.
    pub fn is_empty(&self) -> bool
        ensures { result ≡ (length self.now == 0) }
    {
        self.text.is_empty()
    }

    /// Whether the text begins with this character.
    pub fn begins_with(&self, byte: u8) -> bool
        ensures { result ≡ begins_with byte self.now }
    {
        match self.text {
            [first, ..] => *first == byte,
            [] => false,
        }
    }

    /// Whether the text begins with a character of this class.
    pub fn begins_in(&self, class: Class) -> bool
        ensures { result ≡ begins_in (is_in class) self.now }
    {
        match self.text {
            [first, ..] => class.has(*first),
            [] => false,
        }
    }

    /// Takes the next character.
    pub fn next(&mut self) -> Option<u8>
        ensures { MatchOption result (self.old ≡ []) (λ b. self.old ≡ b ∷ self.new) }
    {
        let (first, rest) = self.text.split_first()?;
        self.text = rest;
        Some(*first)
    }

    /// Takes this character, if the text begins with it.
    pub fn take(&mut self, byte: u8) -> bool
        ensures begins { result ≡ begins_with byte self.old }
        ensures rest { self.new ≡ (if result then drop 1 self.old else self.old) }
    {
        let begins = self.begins_with(byte);
        if begins {
            self.text = &self.text[1..];
        }
        begins
    }

    /// Takes the characters of this class that the text begins with.
    pub fn take_all(&mut self, class: Class) -> &'a [u8]
        ensures taken { result.now ≡ take_while (is_in class) self.old }
        ensures rest { self.new ≡ after (is_in class) self.old }
    {
        let count = count_front(self.text, class);
        let (taken, rest) = self.text.split_at(count);
        self.text = rest;
        taken
    }
}

// How many characters of this class a text begins with.
fn count_front(text: &[u8], class: Class) -> usize
    ensures value { result ≡ prefix_len (is_in class) text.now }
    ensures within { result ≤ length text.now }
{
    let mut count = 0;
    for byte in text {
        if !class.has(*byte) {
            return count;
        }
        count += 1;
    }
    count
}
