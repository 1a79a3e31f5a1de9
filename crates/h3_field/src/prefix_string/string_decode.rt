//! The bytes of a Huffman encoding, one by one.
ghost use Rattle.std.specs.Prelude.{◌≡◌, ℕ, true, List, IfOk, IfErr, Some};
ghost use Rattle.h3_field.specs.ErrorTexts.{huffman_text};
ghost use Rattle.std.specs.Iterator.{YieldsFirst, item_count};
ghost use Rattle.h3_field.specs.Decoding.{DecodesTo};
ghost use Rattle.h3_field.specs.StringAnswer.{TakesMemory};

use crate::prefix_string;
use crate::prefix_string::BitWindow;
use crate::prefix_string::payload::decode_payload;
use std::alloc::{AllocError, Global};
use std::fmt;
use std::iter::FusedIterator;
use std::marker::Model;

/// Why bytes are no Huffman encoding.
#[derive(Copy, Clone, PartialEq, Eq, Debug)]
pub enum Error {
    /// Never arises: an encoding is judged whole.
    MissingBits(BitWindow),
    /// No string has this encoding: the end-of-string symbol stands in it, or its padding is not fewer than eight ones.
    /// The window is empty, at the first bit; the number is how many bytes were refused.
    Unhandled(BitWindow, usize),
}

impl Error {
    fn text(&self) -> &'static str
        ensures { result.now ≡ huffman_text self.now }
    {
        match self {
            Error::MissingBits(_) => "MissingBits",
            Error::Unhandled(_, _) => "Unhandled",
        }
    }
}

impl fmt::Display for Error {
    ghost output = { λ e. Some (huffman_text e) };

    fn fmt<W: fmt::Write>(&self, f: &mut fmt::Formatter<W>) -> fmt::Result {
        f.write_str(self.text())
    }
}

impl std::error::Error for Error {}

/// The bytes of a string, or the error of what is no Huffman encoding, and then the end. A contract sees the items that
/// are still to come.
#[derive(Drop)]
pub struct DecodeIter {
    bytes: Vec<u8>,
    next: usize,
    failed: Option<Error>,
}

impl Model for DecodeIter {
    ghost use Rattle.std.specs.Prelude.{ℕ, List, ◌++◌, drop, map, Result, Ok, Err, option_to_list};
    ghost use Rattle.h3_field.specs.declared.prefix_string.string_decode.Error.{Error};

    ghost Value = { List (Result ℕ Error) };

    ghost view = { λ d. map Ok (drop d.next d.bytes.items) ++ map Err (option_to_list d.failed) };
}

impl Iterator for DecodeIter {
    type Item = Result<u8, Error>;

    ghost next_gives = { YieldsFirst (λ it. it) };

    ghost remaining = { item_count (λ it. it) };

    fn next(&mut self) -> Option<Result<u8, Error>> {
        if self.next < self.bytes.len() {
            let byte = self.bytes[self.next];
            self.next += 1;
            return Some(Ok(byte));
        }
        match self.failed {
            Some(e) => {
                self.failed = None;
                Some(Err(e))
            }
            None => None,
        }
    }
}

impl FusedIterator for DecodeIter {}

/// What is read as a Huffman encoding (RFC 7541, section 5.2 and appendix B).
pub trait HpackStringDecode {
    ghost encoded: { Self → List ℕ };

    /// The bytes that it stands for, or the error of what is no encoding. Memory is wanting for an encoding alone.
    fn hpack_decode(&self, alloc: Global) -> Result<DecodeIter, AllocError>
        ensures items { IfOk result (λ items. DecodesTo (encoded self.now) items) }
        ensures memory { IfErr result (λ _. TakesMemory (record { is_huffman = true; bytes = encoded self.now })) };
}

impl HpackStringDecode for Vec<u8> {
    ghost encoded = { λ bytes. bytes.items };

    fn hpack_decode(&self, alloc: Global) -> Result<DecodeIter, AllocError> {
        let encoded = self.as_slice();
        match decode_payload(alloc, encoded, 0) {
            Ok(bytes) => Ok(DecodeIter {
                bytes,
                next: 0,
                failed: None,
            }),
            Err(prefix_string::Error::HuffmanDecoding) => Ok(DecodeIter {
                bytes: Vec::new(alloc),
                next: 0,
                failed: Some(Error::Unhandled(BitWindow::new(), encoded.len())),
            }),
            Err(_) => Err(AllocError),
        }
    }
}
