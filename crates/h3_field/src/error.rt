//! The error of either side.
ghost use Rattle.std.specs.Prelude.{◌≡◌, Some};
ghost use Rattle.h3_field.specs.ErrorTexts.{error_text};
ghost use Rattle.h3_field.specs.declared.error.Error.TheVariants as error;

use crate::decoder_error::DecoderError;
use crate::encoder_error::EncoderError;
use std::fmt;

/// What an encoder or a decoder refused.
#[derive(Copy, Clone, PartialEq, Eq, Debug)]
pub enum Error {
    Encoder(EncoderError),
    Decoder(DecoderError),
}

impl Error {
    fn text(&self) -> &'static str
        ensures { result.now ≡ error_text self.now }
    {
        match self {
            Error::Encoder(_) => "Encoder",
            Error::Decoder(_) => "Decoder",
        }
    }
}

impl fmt::Display for Error {
    ghost output = { λ e. Some (error_text e) };

    fn fmt<W: fmt::Write>(&self, f: &mut fmt::Formatter<W>) -> fmt::Result {
        f.write_str(self.text())
    }
}

impl std::error::Error for Error {}

impl From<EncoderError> for Error {
    ghost from_gives = { λ x e. e ≡ error.Encoder x };

    fn from(e: EncoderError) -> Error {
        Error::Encoder(e)
    }
}

impl From<DecoderError> for Error {
    ghost from_gives = { λ x e. e ≡ error.Decoder x };

    fn from(e: DecoderError) -> Error {
        Error::Decoder(e)
    }
}
