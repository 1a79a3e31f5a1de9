//! Strings that are read with no memory.
ghost use Rattle.std.specs.Prelude.{◌≡◌, [], true};
ghost use Rattle.h3_field.specs.StringReading.{StandsFor};

use crate::octets::are_bytes;
use crate::prefix_string::Payload;
use std::marker::Model;

/// How many bytes a short string has at most.
const MOST: usize = 64;

/// The longest payload that is read. A code word has at least five bits, and the decoder writes two symbols at a time.
const LONGEST_PAYLOAD: usize = 38;

/// A string of at most 64 bytes, which takes no memory: a reader fills it. A contract sees the bytes.
#[derive(Drop)]
pub struct ShortString {
    len: usize,
    bytes: [u8; MOST],
}

impl Model for ShortString {
    ghost use Rattle.std.specs.Prelude.{◌≤◌, ℕ, List, take};

    ghost Value = { List ℕ };

    ghost view = { λ s. take s.len s.bytes };

    ghost invariant = { λ s. s.len ≤ 64 };
}

impl ShortString {
    /// The empty string.
    pub fn new() -> ShortString
        ensures { result ≡ [] }
    {
        ShortString {
            len: 0,
            bytes: [0; MOST],
        }
    }

    /// The bytes.
    pub fn as_slice(&self) -> &[u8]
        ensures { result.now ≡ self.now }
    {
        &self.bytes[..self.len]
    }

    /// Becomes the string of a payload. Not so: the payload is long, or it is no string.
    pub(crate) fn read(&mut self, payload: &Payload<'_>) -> bool
        ensures { result ≡ true → StandsFor payload.now self.new }
    {
        let encoded = payload.encoded();
        // (for the proof: each is below 256)
        are_bytes(encoded);
        let count = encoded.len();
        if count > LONGEST_PAYLOAD {
            return false;
        }
        if !payload.is_huffman() {
            self.bytes[..count].copy_from_slice(encoded);
            self.len = count;
            return true;
        }
        let Some(len) = h3_huffman::decode::decode_into(encoded, &mut self.bytes) else {
            return false;
        };
        self.len = len;
        true
    }
}
