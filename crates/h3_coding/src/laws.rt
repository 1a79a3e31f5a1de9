//! What holds of every encoding. These functions do nothing: their contracts are the laws.
ghost use Rattle.std.specs.Prelude.{◌≡◌, ℕ, ◌-◌, ◌^◌, ◌<◌, ◌==◌, List, ◌++◌};
ghost use Rattle.std.specs.Ordering.{nat_cmp};
ghost use Rattle.std.specs.Hash as fed;
ghost use Rattle.h3_coding.specs.Encodings.{IsEncoding, IsShortest, encoding};

use crate::coding::Codec;
use crate::varint::VarInt;
use std::hash::Hash;

/// The encoding of a number is its one shortest encoding.
#[tactic(auto, using(crate::specs::EncodingLaws::encoding_is_shortest))]
pub fn encoding_is_shortest()
    ensures { (v : ℕ) → v < 2 ^ 62 → IsShortest v (encoding v) }
{}

/// No encoding of a number begins an encoding of another, so an encoding is read as its number,
/// whatever follows.
pub fn one_encoding()
    ensures { (v w : ℕ) (t u r s : List ℕ) → IsEncoding v t → IsEncoding w u → t ++ r ≡ u ++ s
        → (v ≡ w) × (t ≡ u) }
{}

/// Order, equality and hash of a `VarInt` are those of its number.
pub fn compares_as_number()
    ensures order { (a b : ℕ) → ⟦<VarInt as Ord>⟧.cmp a b ≡ nat_cmp a b }
    ensures equality { (a b : ℕ) → ⟦<VarInt as PartialEq>⟧.eq a b ≡ (a == b) }
    ensures hash { (a : ℕ) → ⟦<VarInt as Hash>⟧.hash_input a ≡ fed.u64 a }
{}

/// The greatest number.
pub fn greatest() -> VarInt
    ensures { result ≡ 2 ^ 62 - 1 }
{
    VarInt::MAX
}

/// The most bytes that an encoding has.
pub fn most_bytes() -> usize
    ensures { result ≡ 8 }
{
    VarInt::MAX_SIZE
}

/// The encoding of a value is one of its encodings.
pub fn encoding_of_value<T: Codec>(value: &T)
    ensures { T.is_encoding value.now (T.encoding value.now) }
{
    // (for the proof: it is a value)
    value.known();
}
