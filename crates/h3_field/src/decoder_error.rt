//! Why a decoder refuses a field section or an instruction.
ghost use Rattle.std.specs.Prelude.{◌≡◌, Some};
ghost use Rattle.h3_field.specs.ErrorTexts.{decoder_text};
ghost use Rattle.h3_field.specs.Errors.{decoder_string, decoder_dynamic, decoder_parse};
ghost use Rattle.h3_field.specs.declared.decoder_error.DecoderError.TheVariants as error;

use crate::parse_error::ParseError;
use crate::{dynamic, prefix_int, prefix_string, static_, vas};
use std::alloc::AllocError;
use std::fmt;

/// Why a decoder refuses a field section or an instruction.
#[derive(Copy, Clone, PartialEq, Eq, Debug)]
pub enum DecoderError {
    InvalidInteger(prefix_int::Error),
    InvalidString(prefix_string::Error),
    InvalidIndex(vas::Error),
    DynamicTable(dynamic::Error),
    InvalidStaticIndex(static_::Error),
    /// A first byte, or an encoded required insert count.
    UnknownPrefix(u64),
    /// The required insert count, or 0 if a dynamic entry is named without a table.
    MissingRefs(usize),
    BadBaseIndex,
    UnexpectedEnd,
    /// The sum of the sizes up to the first field that passes the limit.
    HeaderTooLong(u64),
    /// Never arises: sizes have 64 bits.
    BufSize,
    OutOfMemory,
}

impl DecoderError {
    fn text(&self) -> &'static str
        ensures { result.now ≡ decoder_text self.now }
    {
        match self {
            DecoderError::InvalidInteger(_) => "InvalidInteger",
            DecoderError::InvalidString(_) => "InvalidString",
            DecoderError::InvalidIndex(_) => "InvalidIndex",
            DecoderError::DynamicTable(_) => "DynamicTable",
            DecoderError::InvalidStaticIndex(_) => "InvalidStaticIndex",
            DecoderError::UnknownPrefix(_) => "UnknownPrefix",
            DecoderError::MissingRefs(_) => "MissingRefs",
            DecoderError::BadBaseIndex => "BadBaseIndex",
            DecoderError::UnexpectedEnd => "UnexpectedEnd",
            DecoderError::HeaderTooLong(_) => "HeaderTooLong",
            DecoderError::BufSize => "BufSize",
            DecoderError::OutOfMemory => "out of memory",
        }
    }
}

impl fmt::Display for DecoderError {
    ghost output = { λ e. Some (decoder_text e) };

    fn fmt<W: fmt::Write>(&self, f: &mut fmt::Formatter<W>) -> fmt::Result {
        f.write_str(self.text())
    }
}

impl std::error::Error for DecoderError {}

impl From<prefix_int::Error> for DecoderError {
    ghost from_gives = { λ i e. e ≡ error.InvalidInteger i };

    fn from(e: prefix_int::Error) -> DecoderError {
        DecoderError::InvalidInteger(e)
    }
}

impl From<prefix_string::Error> for DecoderError {
    ghost from_gives = { λ s e. e ≡ decoder_string s };

    fn from(e: prefix_string::Error) -> DecoderError {
        match e {
            prefix_string::Error::OutOfMemory => DecoderError::OutOfMemory,
            _ => DecoderError::InvalidString(e),
        }
    }
}

impl From<vas::Error> for DecoderError {
    ghost from_gives = { λ a e. e ≡ error.InvalidIndex a };

    fn from(e: vas::Error) -> DecoderError {
        DecoderError::InvalidIndex(e)
    }
}

impl From<dynamic::Error> for DecoderError {
    ghost from_gives = { λ d e. e ≡ decoder_dynamic d };

    fn from(e: dynamic::Error) -> DecoderError {
        match e {
            dynamic::Error::OutOfMemory => DecoderError::OutOfMemory,
            _ => DecoderError::DynamicTable(e),
        }
    }
}

impl From<static_::Error> for DecoderError {
    ghost from_gives = { λ s e. e ≡ error.InvalidStaticIndex s };

    fn from(e: static_::Error) -> DecoderError {
        DecoderError::InvalidStaticIndex(e)
    }
}

impl From<ParseError> for DecoderError {
    ghost from_gives = { λ p e. e ≡ decoder_parse p };

    fn from(e: ParseError) -> DecoderError {
        match e {
            ParseError::Integer(e) => DecoderError::InvalidInteger(e),
            ParseError::String(e) => DecoderError::from(e),
            ParseError::InvalidPrefix(prefix) => DecoderError::UnknownPrefix(prefix),
            ParseError::InvalidBase => DecoderError::BadBaseIndex,
            ParseError::OutOfMemory => DecoderError::OutOfMemory,
        }
    }
}

impl From<AllocError> for DecoderError {
    ghost from_gives = { λ _ e. e ≡ error.OutOfMemory };

    fn from(_e: AllocError) -> DecoderError {
        DecoderError::OutOfMemory
    }
}
