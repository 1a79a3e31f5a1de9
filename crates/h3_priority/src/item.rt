//! Items of structured fields (RFC 8941, section 4.2.3).
ghost use Rattle.std.specs.Prelude.{◌≡◌, ◌≤◌, length, false, MatchOption};
ghost use Rattle.h3_priority.specs.Items.{key_at, number_of, number_at, string_from, byte_sequence_at, boolean_at, bare_item_at};
ghost use Rattle.h3_priority.specs.Items.{parameter_at, parameters_at, item_at};
ghost use Rattle.h3_priority.specs.Reading.{Answers};

use crate::characters::Class;
use crate::cursor::Cursor;

/// What a key stands for, as far as a priority needs it.
#[derive(Clone, Copy)]
pub enum Item {
    /// An integer: its sign, and its number without it.
    Integer {
        /// Whether "-" stands before it.
        is_negative: bool,
        /// The number without its sign.
        magnitude: u64,
    },
    /// A boolean.
    Boolean(bool),
    /// A decimal, a string, a token, a byte sequence or an inner list.
    Other,
}

/// The most digits of an integer.
const MOST_DIGITS: usize = 15;

/// The most digits of a decimal before its point.
const MOST_WHOLE_DIGITS: usize = 12;

/// The most digits of a decimal after its point.
const MOST_FRACTION_DIGITS: usize = 3;

/// The number that digits are.
#[tactic(auto, unfolding(crate::specs::Items::number_of))]
fn number_of(digits: &[u8]) -> u64
    requires few { length digits.now ≤ 15 }
    ensures { result ≡ number_of digits.now }
{
    let mut number = 0;
    for digit in digits {
        number = number * 10 + u64::from(digit.saturating_sub(b'0'));
    }
    number
}

impl<'a> Cursor<'a> {
    /// Takes a key.
    #[tactic(auto, unfolding(crate::specs::Items::key_at))]
    pub fn key(&mut self) -> Option<&'a [u8]>
        ensures { MatchOption result (key_at self.old ≡ None) (λ key. key_at self.old ≡ Some (key.now, self.new)) }
    {
        if !self.begins_in(Class::KeyStart) {
            return None;
        }
        Some(self.take_all(Class::Key))
    }

    /// Takes an integer or a decimal. Its sign was read.
    #[tactic(auto, unfolding(crate::specs::Items::number_at))]
    fn number(&mut self, is_negative: bool) -> Option<Item>
        ensures { Answers (number_at is_negative self.old) result self.new }
    {
        if !self.begins_in(Class::Digit) {
            return None;
        }
        let digits = self.take_all(Class::Digit);
        if self.take(b'.') {
            let fraction = self.take_all(Class::Digit);
            let is_decimal = digits.len() <= MOST_WHOLE_DIGITS
                && fraction.len() >= 1
                && fraction.len() <= MOST_FRACTION_DIGITS;
            return if is_decimal { Some(Item::Other) } else { None };
        }
        if digits.len() > MOST_DIGITS {
            return None;
        }
        let magnitude = number_of(digits);
        Some(Item::Integer {
            is_negative,
            magnitude,
        })
    }

    /// Takes a string. Its first quote was read.
    #[tactic(auto, unfolding(crate::specs::Items::string_from))]
    fn string(&mut self) -> Option<Item>
        ensures { Answers (string_from false self.old) result self.new }
    {
        let mut is_escape = false;
        // (the label names the loop in its proof)
        'characters: while let Some(byte) = self.next() {
            if is_escape {
                if byte != b'"' && byte != b'\\' {
                    return None;
                }
                is_escape = false;
            } else if byte == b'"' {
                return Some(Item::Other);
            } else if byte == b'\\' {
                is_escape = true;
            } else if !Class::Printable.has(byte) {
                return None;
            }
        }
        None
    }

    /// Takes a byte sequence. Its first ":" was read.
    #[tactic(auto, unfolding(crate::specs::Items::byte_sequence_at))]
    fn byte_sequence(&mut self) -> Option<Item>
        ensures { Answers (byte_sequence_at self.old) result self.new }
    {
        self.take_all(Class::Base64);
        if self.take(b':') {
            Some(Item::Other)
        } else {
            None
        }
    }

    /// Takes a boolean. Its "?" was read.
    #[tactic(auto, unfolding(crate::specs::Items::boolean_at))]
    fn boolean(&mut self) -> Option<Item>
        ensures { Answers (boolean_at self.old) result self.new }
    {
        if self.take(b'1') {
            return Some(Item::Boolean(true));
        }
        if self.take(b'0') {
            return Some(Item::Boolean(false));
        }
        None
    }

    /// Takes a bare item.
    #[tactic(auto, unfolding(crate::specs::Items::bare_item_at))]
    fn bare_item(&mut self) -> Option<Item>
        ensures { Answers (bare_item_at self.old) result self.new }
    {
        if self.take(b'-') {
            return self.number(true);
        }
        if self.begins_in(Class::Digit) {
            return self.number(false);
        }
        if self.take(b'"') {
            return self.string();
        }
        if self.begins_in(Class::TokenStart) {
            self.take_all(Class::Token);
            return Some(Item::Other);
        }
        if self.take(b':') {
            return self.byte_sequence();
        }
        if self.take(b'?') {
            return self.boolean();
        }
        None
    }

    /// Takes a parameter. Its ";" was read.
    #[tactic(auto, unfolding(crate::specs::Items::parameter_at))]
    fn parameter(&mut self) -> Option<Item>
        ensures { Answers (parameter_at self.old) result self.new }
    {
        self.take_all(Class::Space);
        self.key()?;
        if self.take(b'=') {
            return self.bare_item();
        }
        Some(Item::Boolean(true))
    }

    /// Takes parameters.
    pub fn parameters(&mut self) -> Option<()>
        ensures { Answers (parameters_at self.old) result self.new }
    {
        // (the label names the loop in its proof)
        'parameters: while self.take(b';') {
            self.parameter()?;
        }
        Some(())
    }

    /// Takes an item.
    #[tactic(auto, unfolding(crate::specs::Items::item_at))]
    pub fn item(&mut self) -> Option<Item>
        ensures { Answers (item_at self.old) result self.new }
    {
        let item = self.bare_item()?;
        self.parameters()?;
        Some(item)
    }
}
