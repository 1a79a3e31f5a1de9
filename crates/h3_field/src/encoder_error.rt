//! Why an encoder refuses a field section or an instruction.
ghost use Rattle.std.specs.Prelude.{◌≡◌, Some};
ghost use Rattle.h3_field.specs.ErrorTexts.{encoder_text};
ghost use Rattle.h3_field.specs.Errors.{encoder_string, encoder_dynamic, encoder_parse};
ghost use Rattle.h3_field.specs.declared.encoder_error.EncoderError.TheVariants as error;

use crate::parse_error::ParseError;
use crate::{dynamic, prefix_int, prefix_string};
use std::alloc::AllocError;
use std::fmt;

/// Why an encoder refuses a field section or an instruction.
#[derive(Copy, Clone, PartialEq, Eq, Debug)]
pub enum EncoderError {
    Insertion(dynamic::Error),
    InvalidString(prefix_string::Error),
    InvalidInteger(prefix_int::Error),
    /// The first byte, or 0 if a prefix was refused.
    UnknownDecoderInstruction(u64),
    OutOfMemory,
}

impl EncoderError {
    fn text(&self) -> &'static str
        ensures { result.now ≡ encoder_text self.now }
    {
        match self {
            EncoderError::Insertion(_) => "Insertion",
            EncoderError::InvalidString(_) => "InvalidString",
            EncoderError::InvalidInteger(_) => "InvalidInteger",
            EncoderError::UnknownDecoderInstruction(_) => "UnknownDecoderInstruction",
            EncoderError::OutOfMemory => "out of memory",
        }
    }
}

impl fmt::Display for EncoderError {
    ghost output = { λ e. Some (encoder_text e) };

    fn fmt<W: fmt::Write>(&self, f: &mut fmt::Formatter<W>) -> fmt::Result {
        f.write_str(self.text())
    }
}

impl std::error::Error for EncoderError {}

impl From<dynamic::Error> for EncoderError {
    ghost from_gives = { λ d e. e ≡ encoder_dynamic d };

    fn from(e: dynamic::Error) -> EncoderError {
        match e {
            dynamic::Error::OutOfMemory => EncoderError::OutOfMemory,
            _ => EncoderError::Insertion(e),
        }
    }
}

impl From<prefix_string::Error> for EncoderError {
    ghost from_gives = { λ s e. e ≡ encoder_string s };

    fn from(e: prefix_string::Error) -> EncoderError {
        match e {
            prefix_string::Error::OutOfMemory => EncoderError::OutOfMemory,
            _ => EncoderError::InvalidString(e),
        }
    }
}

impl From<ParseError> for EncoderError {
    ghost from_gives = { λ p e. e ≡ encoder_parse p };

    fn from(e: ParseError) -> EncoderError {
        match e {
            ParseError::Integer(e) => EncoderError::InvalidInteger(e),
            ParseError::String(e) => EncoderError::from(e),
            ParseError::InvalidPrefix(first) => EncoderError::UnknownDecoderInstruction(first),
            ParseError::InvalidBase => EncoderError::UnknownDecoderInstruction(0),
            ParseError::OutOfMemory => EncoderError::OutOfMemory,
        }
    }
}

impl From<AllocError> for EncoderError {
    ghost from_gives = { λ _ e. e ≡ error.OutOfMemory };

    fn from(_e: AllocError) -> EncoderError {
        EncoderError::OutOfMemory
    }
}
