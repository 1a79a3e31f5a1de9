//! The words of a case, and what it answers.
ghost use Rattle.std.specs.Prelude.{◌<◌, ◌≤◌, length};

use bytes::Bytes;
use h3_field::HeaderField;
use h3_script::digits::bytes_of_digits;
use percent_encoding::{CONTROLS, percent_decode, percent_encode};
use std::alloc::{AllocError, Global};
use std::fmt;

/// Why a case has no answer.
#[derive(Clone, Copy)]
pub enum CaseError {
    /// There is no such case, or it is given something else.
    Unreadable,
    /// Something was refused that only needs memory.
    Refused,
}

/// What a case answers, as it is put together. What is refused or cannot be read is kept, and told at the end in place of the text. So
/// no function that puts a part has an exit of its own. A word that cannot be read counts as 0, or as no byte.
#[derive(Drop)]
pub struct Told {
    alloc: Global,
    text: String,
    why: Option<CaseError>,
}

impl Told {
    pub fn new(alloc: Global) -> Told {
        Told {
            alloc,
            text: String::new(alloc),
            why: None,
        }
    }

    /// The text, or why there is none.
    pub fn end(self) -> Result<String, CaseError> {
        match self.why {
            None => Ok(self.text),
            Some(e) => Err(e),
        }
    }

    /// The text of another answer. Why there is none of it is why there is none here.
    pub fn taken(&mut self, other: Told) -> String {
        match other.end() {
            Ok(text) => text,
            Err(e) => {
                self.fail(e);
                String::new(self.alloc)
            }
        }
    }

    pub fn alloc(&self) -> Global {
        self.alloc
    }

    fn fail(&mut self, e: CaseError) {
        if self.why.is_none() {
            self.why = Some(e);
        }
    }

    /// Whether something was refused, or cannot be read.
    pub fn has_failed(&self) -> bool {
        self.why.is_some()
    }

    pub fn unreadable(&mut self) {
        self.fail(CaseError::Unreadable);
    }

    pub fn refused(&mut self) {
        self.fail(CaseError::Refused);
    }

    /// What was done by a call that is refused only if it is out of memory.
    pub fn done<T: Drop, E: Drop>(&mut self, done: Result<T, E>) {
        if done.is_err() {
            self.refused();
        }
    }
}

/// The parts of an answer. Values are passed and not lent: the drop of a type parameter is one call.
impl Told {
    pub fn say(&mut self, text: &str) {
        if self.text.push_str(text).is_err() {
            self.refused();
        }
    }

    /// A text that was made, or refused.
    pub fn put(&mut self, made: Result<String, AllocError>) {
        match made {
            Ok(text) => self.say(text.as_str()),
            Err(_) => self.refused(),
        }
    }

    pub fn debug<T: fmt::Debug + Drop>(&mut self, value: T) {
        let made = format!(in self.alloc; "{value:?}");
        self.put(made);
    }

    pub fn show<T: fmt::Display + Drop>(&mut self, value: T) {
        let made = format!(in self.alloc; "{value}");
        self.put(made);
    }

    /// A blank, and a value after it.
    pub fn then_debug<T: fmt::Debug + Drop>(&mut self, value: T) {
        self.say(" ");
        self.debug(value);
    }

    /// A blank, and a value after it.
    pub fn then_show<T: fmt::Display + Drop>(&mut self, value: T) {
        self.say(" ");
        self.show(value);
    }

    /// A text, a blank, and a value after it.
    pub fn labeled<T: fmt::Display + Drop>(&mut self, text: &str, value: T) {
        self.say(text);
        self.then_show(value);
    }

    /// The hex digits of bytes, or a `-` if there are none.
    pub fn digits(&mut self, bytes: &[u8]) {
        if bytes.is_empty() {
            return self.say("-");
        }
        let made = hex::encode(self.alloc, bytes);
        self.put(made);
    }

    /// Bytes, of which those that are no letters, digits or signs are written as escapes.
    pub fn escaped(&mut self, bytes: &[u8]) {
        let escapes = CONTROLS.add(b' ').add(b'%');
        let done = percent_encode(bytes, escapes).append_to(&mut self.text);
        self.done(done);
    }

    /// A blank, and a field as a word `name=value`.
    pub fn field(&mut self, field: &HeaderField) {
        self.say(" ");
        self.say(str::from_utf8(field.name()).unwrap_or("?"));
        self.say("=");
        self.say(str::from_utf8(field.value()).unwrap_or("?"));
    }

    /// What was read, and the bytes after it.
    pub fn with_rest<T: fmt::Debug + Drop>(&mut self, read: T, rest: &[u8]) {
        self.debug(read);
        self.say(" rest ");
        self.digits(rest);
    }
}

/// The words of a case.
impl Told {
    pub fn number(&mut self, word: &str) -> u64 {
        match word.parse() {
            Ok(number) => number,
            Err(_) => {
                self.unreadable();
                0
            }
        }
    }

    /// A number below 65536.
    pub fn small(&mut self, word: &str) -> usize
        ensures { result < 65536 }
    {
        let read: Result<u16, _> = word.parse();
        match read {
            Ok(number) => usize::from(number),
            Err(_) => {
                self.unreadable();
                0
            }
        }
    }

    /// The bytes of hex digits, or none of them for a `-`.
    pub fn payload(&mut self, word: &str) -> Bytes {
        if word == "-" {
            return Bytes::new();
        }
        match bytes_of_digits(self.alloc, word) {
            Ok(Some(bytes)) => bytes,
            Ok(None) => {
                self.unreadable();
                Bytes::new()
            }
            Err(_) => {
                self.refused();
                Bytes::new()
            }
        }
    }

    /// The bytes of hex digits, at most 1,000, or none of them for a `-`.
    pub fn bytes(&mut self, word: &str) -> Vec<u8>
        ensures { length result.items ≤ 1000 }
    {
        if word == "-" {
            return Vec::new(self.alloc);
        }
        match hex::decode(self.alloc, word) {
            Ok(found) => self.at_most_1000(found),
            Err(_) => self.none(),
        }
    }

    /// No bytes, since a word cannot be read.
    fn none(&mut self) -> Vec<u8>
        ensures { length result.items ≤ 1000 }
    {
        self.unreadable();
        Vec::new(self.alloc)
    }

    /// The bytes of a word in which any byte may be an escape, as `%20`; at most 1,000.
    pub fn text(&mut self, word: &str) -> Vec<u8>
        ensures { length result.items ≤ 1000 }
    {
        let found = self.decoded(word);
        self.at_most_1000(found)
    }

    /// The bytes of a word in which any byte may be an escape.
    pub fn decoded(&mut self, word: &str) -> Vec<u8> {
        let mut found = Vec::new(self.alloc);
        self.append(&mut found, word);
        found
    }

    /// Those bytes, after others.
    pub fn append(&mut self, found: &mut Vec<u8>, word: &str) {
        let done = percent_decode(word.as_bytes()).append_to(found);
        self.done(done);
    }

    /// What stands before and after a `=`.
    pub fn pair<'a>(&mut self, word: &'a str) -> (&'a str, &'a str) {
        match word.split_once('=') {
            Some(parts) => parts,
            None => {
                self.unreadable();
                (word, word)
            }
        }
    }

    fn at_most_1000(&mut self, found: Vec<u8>) -> Vec<u8>
        ensures { length result.items ≤ 1000 }
    {
        if found.len() > 1000 {
            drop(found);
            return self.none();
        }
        found
    }
}

/// The words of a line, which blanks part.
pub fn words(alloc: Global, line: &str) -> Result<Vec<&str>, AllocError> {
    let mut found = Vec::new(alloc);
    for word in line.split_whitespace() {
        found.push(word)?;
    }
    Ok(found)
}
