//! Why a line, an instruction or a prefix is refused.
ghost use Rattle.std.specs.Prelude.{◌≡◌, Some};
ghost use Rattle.h3_field.specs.ErrorTexts.{parse_text};
ghost use Rattle.h3_field.specs.ShapeAnswer.{of_string};
ghost use Rattle.h3_field.specs.declared.parse_error.ParseError.TheVariants as error;

use crate::{prefix_int, prefix_string};
use std::alloc::AllocError;
use std::fmt;

/// Why a line, an instruction or a prefix is refused.
#[derive(Copy, Clone, PartialEq, Eq, Debug)]
pub enum ParseError {
    /// An integer of it, which is no string's length, is not whole or out of range.
    Integer(prefix_int::Error),
    /// A string of it is not whole, its length is out of range, or it is no Huffman encoding.
    String(prefix_string::Error),
    /// The first byte is that of another line or instruction, or the required insert count stands for none.
    InvalidPrefix(u64),
    /// The base would be below zero.
    InvalidBase,
    OutOfMemory,
}

impl ParseError {
    fn text(&self) -> &'static str
        ensures { result.now ≡ parse_text self.now }
    {
        match self {
            ParseError::Integer(_) => "Integer",
            ParseError::String(_) => "String",
            ParseError::InvalidPrefix(_) => "InvalidPrefix",
            ParseError::InvalidBase => "InvalidBase",
            ParseError::OutOfMemory => "out of memory",
        }
    }
}

impl fmt::Display for ParseError {
    ghost output = { λ e. Some (parse_text e) };

    fn fmt<W: fmt::Write>(&self, f: &mut fmt::Formatter<W>) -> fmt::Result {
        f.write_str(self.text())
    }
}

impl std::error::Error for ParseError {}

impl From<prefix_int::Error> for ParseError {
    ghost from_gives = { λ i e. e ≡ error.Integer i };

    fn from(e: prefix_int::Error) -> ParseError {
        ParseError::Integer(e)
    }
}

impl From<prefix_string::Error> for ParseError {
    ghost from_gives = { λ s e. e ≡ of_string s };

    fn from(e: prefix_string::Error) -> ParseError {
        match e {
            prefix_string::Error::OutOfMemory => ParseError::OutOfMemory,
            _ => ParseError::String(e),
        }
    }
}

impl From<AllocError> for ParseError {
    ghost from_gives = { λ _ e. e ≡ error.OutOfMemory };

    fn from(_e: AllocError) -> ParseError {
        ParseError::OutOfMemory
    }
}
