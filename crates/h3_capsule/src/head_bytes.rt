//! The first bytes of a capsule or datagram: what stands in front of a value or a payload.
ghost use Rattle.std.specs.Prelude.{◌≡◌, ◌<◌, ◌≤◌, ◌++◌, ◌∷◌, [], ◌==◌, length, take};
ghost use Rattle.std.specs.Int.{w64, to_le_bytes};

use bytes::BufMut;
use std::alloc::AllocError;
use std::marker::Model;

/// The most bytes of a type and length: two variable-length integers.
const MOST: usize = 16;

/// At most 16 bytes, which take no memory. A contract sees them as a list.
#[derive(Drop)]
pub struct HeadBytes {
    bytes: [u8; MOST],
    len: usize,
}

impl Model for HeadBytes {
    ghost use Rattle.std.specs.Prelude.{ℕ, List, ◌≤◌, take};

    ghost Value = { List ℕ };

    ghost view = { λ h. take h.len h.bytes };

    ghost invariant = { λ h. h.len ≤ 16 };
}

// Eight bytes as a number, the lowest first.
#[tactic(auto, using(std::proofs::lemmas::Nat::le_bytes_8))]
fn word(bytes: &[u8]) -> u64
    requires { length bytes.now ≡ 8 }
    ensures { to_le_bytes w64 result ≡ bytes.now }
{
    let mut word = [0; 8];
    word.copy_from_slice(bytes);
    u64::from_le_bytes(word)
}

impl HeadBytes {
    /// None.
    pub(crate) fn new() -> Self
        ensures { result ≡ [] }
    {
        HeadBytes {
            bytes: [0; MOST],
            len: 0,
        }
    }

    /// Whether there are none.
    pub fn is_empty(&self) -> bool
        ensures { result ≡ (length self.now == 0) }
    {
        self.len == 0
    }

    /// How many there are.
    pub fn len(&self) -> usize
        ensures value { result ≡ length self.now }
        ensures bound { result ≤ 16 }
    {
        self.len
    }

    /// The bytes.
    pub fn as_slice(&self) -> &[u8]
        ensures { result.now ≡ self.now }
    {
        &self.bytes[..self.len]
    }

    /// One byte more.
    pub(crate) fn push(&mut self, byte: u8)
        requires { length self.old < 16 }
        ensures { self.new ≡ self.old ++ byte ∷ [] }
    {
        self.bytes[self.len] = byte;
        self.len += 1;
    }

    /// None any more.
    pub(crate) fn clear(&mut self)
        ensures { self.new ≡ [] }
    {
        self.len = 0;
    }

    /// The same in two numbers, each of eight bytes, the lowest first. What stands after the last byte is no part of it.
    #[tactic(auto, using(crate::proofs::Words::are_kept))]
    pub(crate) fn words(&self) -> (u64, u64)
        ensures { take (length self.now) (to_le_bytes w64 result.0 ++ to_le_bytes w64 result.1) ≡ self.now }
    {
        (word(&self.bytes[..8]), word(&self.bytes[8..]))
    }

    /// The first bytes of two such numbers.
    pub(crate) fn of_words(low: u64, high: u64, len: usize) -> HeadBytes
        requires { len ≤ 16 }
        ensures { result ≡ take len (to_le_bytes w64 low ++ to_le_bytes w64 high) }
    {
        let mut bytes = [0; MOST];
        bytes[..8].copy_from_slice(&low.to_le_bytes());
        bytes[8..].copy_from_slice(&high.to_le_bytes());
        HeadBytes { bytes, len }
    }
}

impl BufMut for HeadBytes {
    ghost use Rattle.std.specs.Prelude.{◌-◌, length};

    ghost written = { λ h. h };

    ghost spare = { λ h. 16 - length h };

    fn reserve(&mut self, additional: usize) -> Result<(), AllocError> {
        if additional <= MOST - self.len {
            Ok(())
        } else {
            Err(AllocError)
        }
    }

    fn put_slice(&mut self, src: &[u8]) -> Result<(), AllocError> {
        if MOST - self.len < src.len() {
            return Err(AllocError);
        }
        let end = self.len + src.len();
        let all = &mut self.bytes[..];
        all[self.len..end].copy_from_slice(src);
        self.len = end;
        Ok(())
    }
}
