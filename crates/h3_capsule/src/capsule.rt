//! Capsules on the data of a stream (RFC 9297, section 3.2): read in any pieces, and written.
ghost use Rattle.std.specs.Prelude.{◌≡◌, ◌<◌, ◌^◌, ◌++◌, [], length, IfNone, OnOk, OnErr};
ghost use Rattle.h3_coding.specs.Writing.{AppendsFront, UsesRoom};
ghost use Rattle.h3_capsule.specs.Capsule.{capsule_head, head_of, is_between, read_on, value_on, IsInValue};
ghost use Rattle.h3_capsule.specs.Capsule.Place.{InHead};
ghost use Rattle.h3_capsule.specs.ReaderStates.{place_of_state};

use crate::head_bytes::HeadBytes;
use bytes::BufMut;
use h3_coding::coding::{BufExt, BufMutExt, WriteRefused};
use std::marker::Model;

/// What a reader tells of the bytes that it took.
#[derive(Clone, Copy, PartialEq, Eq, Debug)]
pub enum Capsule {
    /// A capsule begins, of this type and with a value of this length.
    Head(u64, u64),
    /// So many bytes that were taken are of its value.
    Value(usize),
    /// The capsule is whole.
    End,
    /// All bytes were taken, and nothing more can be told of them.
    Pending,
}

/// A reader as numbers, so that a program can keep it as plain memory. All zero is a reader at the beginning of the data.
#[repr(C)]
#[derive(Clone, Copy)]
pub struct ReaderState {
    /// The first eight bytes of a type and length that are not whole, the lowest first.
    pub head_low: u64,
    /// The bytes after them.
    pub head_high: u64,
    /// How many of these came. More than 15 are as 15.
    pub head_len: u64,
    /// How many bytes of a value are to come.
    pub left: u64,
    /// Not 0 if the end of a capsule is to be told.
    pub is_at_end: u64,
}

/// A reader of capsules, which takes their bytes in any pieces. It keeps the bytes of a type and length that are not whole, and no other.
#[derive(Drop)]
pub struct CapsuleReader {
    head: HeadBytes,
    left: u64,
    is_at_end: bool,
}

impl Model for CapsuleReader {
    ghost use Rattle.std.specs.Prelude.{◌<◌, length};
    ghost use Rattle.h3_capsule.specs.Capsule.{Place, place_of};

    ghost Value = { Place };

    ghost view = { λ r. place_of r.is_at_end r.left r.head };

    ghost invariant = { λ r. length r.head < 16 };
}

/// The type and the length that bytes begin with, if both are whole.
#[tactic(auto, unfolding(crate::specs::Capsule::head_of))]
fn head_of(bytes: &[u8]) -> Option<(u64, u64)>
    ensures value { result ≡ head_of bytes.now }
    ensures few { IfNone result (length bytes.now < 16) }
{
    let mut rest = bytes;
    let Ok(kind) = rest.get_var() else {
        return None;
    };
    let Ok(length) = rest.get_var() else {
        return None;
    };
    Some((kind, length))
}

/// Appends what stands in front of a capsule's value: its type, and the value's length. An `Err` leaves a beginning of it.
pub fn write_head<B: BufMut>(buf: &mut B, kind: u64, value_length: u64) -> Result<(), WriteRefused>
    requires kind { kind < 2 ^ 62 }
    requires value_length { value_length < 2 ^ 62 }
    ensures ok { OnOk result (B.written buf.new ≡ B.written buf.old ++ capsule_head kind value_length) }
    ensures err { OnErr result (AppendsFront (capsule_head kind value_length) (B.written buf.old) (B.written buf.new)) }
    ensures room { UsesRoom result (B.spare buf.old) (B.spare buf.new) (length (capsule_head kind value_length)) }
{
    buf.write_var(kind)?;
    buf.write_var(value_length)
}

/// The same as `write_head`, in bytes of its own.
#[tactic(auto, using(crate::proofs::Lengths::of_capsule))]
pub fn head(kind: u64, value_length: u64) -> HeadBytes
    requires kind { kind < 2 ^ 62 }
    requires value_length { value_length < 2 ^ 62 }
    ensures { result ≡ capsule_head kind value_length }
{
    let mut head = HeadBytes::new();
    match write_head(&mut head, kind, value_length) {
        Ok(()) => head,
        Err(_) => unreachable!(),
    }
}

impl CapsuleReader {
    /// A reader at the beginning of the data.
    pub fn new() -> Self
        ensures { result ≡ InHead [] }
    {
        CapsuleReader {
            head: HeadBytes::new(),
            left: 0,
            is_at_end: false,
        }
    }

    /// The reader of a state, whatever its numbers are.
    #[tactic(auto, unfolding(crate::specs::ReaderStates::place_of_state))]
    pub fn of_state(state: ReaderState) -> Self
        ensures { result ≡ place_of_state state }
    {
        let head_len = state.head_len.min(15) as usize;
        CapsuleReader {
            head: HeadBytes::of_words(state.head_low, state.head_high, head_len),
            left: state.left,
            is_at_end: state.is_at_end != 0,
        }
    }

    /// Its state, of which `of_state` makes it again.
    #[tactic(auto, unfolding(crate::specs::ReaderStates::place_of_state))]
    pub fn state(&self) -> ReaderState
        ensures { place_of_state result ≡ self.now }
    {
        let (head_low, head_high) = self.head.words();
        ReaderState {
            head_low,
            head_high,
            head_len: self.head.len() as u64,
            left: self.left,
            is_at_end: self.is_at_end as u64,
        }
    }

    /// Reads on in bytes that follow: how many of them it took, and what it tells of these. Call it with the bytes that are left
    /// until it answers `Pending`, and then with the bytes that come next.
    #[tactic(auto, using(crate::proofs::Heads::more, crate::proofs::Heads::whole, crate::proofs::Heads::done), unfolding(crate::specs::Capsule::read_on))]
    pub fn read(&mut self, bytes: &[u8]) -> (usize, Capsule)
        ensures { read_on self.old bytes.now ≡ (result.0, result.1, self.new) }
    {
        if self.is_at_end {
            self.is_at_end = false;
            self.left = 0;
            self.head.clear();
            return (0, Capsule::End);
        }
        if self.left > 0 {
            return self.read_value(bytes.len());
        }
        // (the label names the loop in its proof)
        'head: for (index, byte) in bytes.iter().enumerate() {
            self.head.push(*byte);
            if let Some((kind, length)) = head_of(self.head.as_slice()) {
                self.head.clear();
                self.left = length;
                self.is_at_end = length == 0;
                return (index + 1, Capsule::Head(kind, length));
            }
        }
        (bytes.len(), Capsule::Pending)
    }

    // Takes the bytes of a value, of which so many are there.
    fn read_value(&mut self, there: usize) -> (usize, Capsule)
        requires { IsInValue self.old }
        ensures { value_on self.old there ≡ (result.0, result.1, self.new) }
    {
        let count = self.left.min(there as u64);
        if count == 0 {
            return (0, Capsule::Pending);
        }
        self.left -= count;
        self.is_at_end = self.left == 0;
        (count as usize, Capsule::Value(count as usize))
    }

    /// Whether the data may end here: no capsule was begun, or `Capsule::End` came of each that was begun. If it is false at the end of a
    /// stream, the message is malformed (RFC 9297, section 3.3).
    pub fn is_between(&self) -> bool
        ensures { result ≡ is_between self.now }
    {
        !self.is_at_end && self.left == 0 && self.head.is_empty()
    }
}
