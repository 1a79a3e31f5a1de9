//! The priority of a response (RFC 9218, section 4).
ghost use Rattle.std.specs.Prelude.{◌≡◌, ◌≤◌, ◌∷◌, [], ℕ, List, MatchOption, MatchResult, Some, None, Option, bytes_eq, ◌<◌};
ghost use Rattle.std.specs.Option.{SomeIff};
ghost use Rattle.h3_priority.specs.Dictionary.{Members};
ghost use Rattle.h3_priority.specs.Priority.{PriorityParameters, default_parameters, urgency_of, incremental_of, parameters_in};
ghost use Rattle.h3_priority.specs.Priority.{priority_of, value_that_says};

use crate::characters::Class;
use crate::cursor::Cursor;
use crate::item::Item;
use std::marker::Model;

/// The priority of a response: its urgency, and whether it is of use in parts. A contract sees it as these two.
#[derive(Clone, Copy, PartialEq, Eq, Hash, Debug)]
pub struct Priority {
    urgency: u8,
    incremental: bool,
}

impl Model for Priority {
    ghost use Rattle.std.specs.Prelude.{◌≤◌};
    ghost use Rattle.h3_priority.specs.Priority.{PriorityParameters};

    ghost Value = { PriorityParameters };

    ghost view = { λ p. record { urgency = p.urgency; incremental = p.incremental } };

    ghost invariant = { λ p. p.urgency ≤ 7 };

    ghost inverse = { λ v. record { urgency = v.urgency; incremental = v.incremental } };
}

impl Default for Priority {
    ghost is_default = { λ p. p ≡ default_parameters };

    /// Urgency 3, not incremental.
    fn default() -> Self {
        Priority {
            urgency: DEFAULT_URGENCY,
            incremental: false,
        }
    }
}

/// The urgency of a response of which nothing is said.
const DEFAULT_URGENCY: u8 = 3;

/// The greatest number that is an urgency: that of what is least urgent.
const MOST_URGENCY: u8 = 7;

impl Priority {
    /// A priority of this urgency, from 0, the most urgent, to 7; none if it is greater.
    pub fn new(urgency: u8, incremental: bool) -> Option<Self>
        ensures { SomeIff result (urgency ≤ 7) (record { urgency = urgency; incremental = incremental }) }
    {
        if urgency > MOST_URGENCY {
            return None;
        }
        Some(Priority {
            urgency,
            incremental,
        })
    }

    /// From 0, the most urgent, to 7.
    pub fn urgency(self) -> u8
        ensures value { result ≡ self.urgency }
        ensures most { result ≤ 7 }
    {
        self.urgency
    }

    /// Whether parts of the response are of use to the client before it is whole.
    pub fn is_incremental(self) -> bool
        ensures { result ≡ self.incremental }
    {
        self.incremental
    }

    /// The priority that a `priority` field's value says, all lines of the field joined by ", ". None if the value is no dictionary: then
    /// the field is ignored (RFC 8941, section 4.2).
    pub fn read(value: &[u8]) -> Option<Self>
        ensures { result ≡ priority_of value.now }
    {
        let mut cursor = Cursor::new(value);
        cursor.take_all(Class::Space);
        let mut priority = Priority::default();
        let mut is_another = !cursor.is_empty();
        // (the label names the loop in its proof)
        'members: while is_another {
            let (key, item) = cursor.member()?;
            priority = priority.with_member(key, item);
            is_another = cursor.comma()?;
        }
        Some(priority)
    }

    // The priority with one member more.
    fn with_member(self, key: &[u8], item: Item) -> Self
        ensures { (members : Members) → self ≡ parameters_in members → result ≡ parameters_in ((key.now, item) ∷ members) }
    {
        if is_key(key, b'u') {
            return Priority {
                urgency: urgency_of(item),
                incremental: self.incremental,
            };
        }
        if is_key(key, b'i') {
            return Priority {
                urgency: self.urgency,
                incremental: is_true(item),
            };
        }
        self
    }

    /// The value of a `priority` field that says this priority.
    pub fn field_value(self) -> &'static [u8]
        ensures { result.now ≡ value_that_says self }
    {
        let incremental = match self.urgency {
            0 => b"u=0, i",
            1 => b"u=1, i",
            2 => b"u=2, i",
            3 => b"u=3, i",
            4 => b"u=4, i",
            5 => b"u=5, i",
            6 => b"u=6, i",
            _ => b"u=7, i",
        };
        if self.incremental {
            incremental
        } else {
            &incremental[..3]
        }
    }
}

// Whether a key is this one character.
fn is_key(key: &[u8], name: u8) -> bool
    ensures { result ≡ bytes_eq key.now (name ∷ []) }
{
    match key {
        [first] => *first == name,
        _ => false,
    }
}

// The urgency that a value says.
fn urgency_of(item: Item) -> u8
    ensures value { result ≡ urgency_of (Some item) }
    ensures most { result ≤ 7 }
{
    match item {
        Item::Integer {
            is_negative,
            magnitude,
        } if magnitude == 0 || !is_negative && magnitude <= 7 => magnitude as u8,
        _ => DEFAULT_URGENCY,
    }
}

// Whether a value says true.
fn is_true(item: Item) -> bool
    ensures { result ≡ incremental_of (Some item) }
{
    match item {
        Item::Boolean(is) => is,
        _ => false,
    }
}
