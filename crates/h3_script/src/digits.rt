//! Bytes as hex digits, for programs whose lines carry bytes of any kind.
ghost use Rattle.std.specs.Prelude.{◌≡◌, ◌≢◌, ◌%◌, length, Ok, IfOk, IfErr, IfSome, IfNone, IsErr};
ghost use Rattle.hex.specs.Hex.{decode_of};

use bytes::Bytes;
use hex::FromHexError;
use std::alloc::{AllocError, Global};

/// The bytes that hex digits stand for, if the word is an even number of digits, in either case. Memory is asked for only if it has an
/// even number of bytes.
pub fn bytes_of_digits(alloc: Global, word: &str) -> Result<Option<Bytes>, AllocError>
    ensures bytes { IfOk result (λ found. IfSome found (λ bytes. decode_of word.now ≡ Ok bytes)) }
    ensures none { IfOk result (λ found. IfNone found (IsErr (decode_of word.now))) }
    ensures even { IfErr result (λ _. length word.now % 2 ≢ 1) }
{
    match hex::decode(alloc, word) {
        Ok(found) => Ok(Some(Bytes::from_vec(found)?)),
        Err(FromHexError::OutOfMemory) => Err(AllocError),
        Err(_) => Ok(None),
    }
}
