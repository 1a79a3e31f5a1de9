//! Why a call of the dynamic table is refused.
ghost use Rattle.std.specs.Prelude.{◌≡◌, Some};
ghost use Rattle.h3_field.specs.ErrorTexts.{dynamic_text};
ghost use Rattle.h3_field.specs.Errors.{of_address};
ghost use Rattle.h3_field.specs.declared.dynamic.Error.TheVariants as error;

use crate::vas;
use std::alloc::AllocError;
use std::fmt;

/// Why a call of the dynamic table is refused.
#[derive(Copy, Clone, PartialEq, Eq, Debug)]
pub enum Error {
    BadRelativeIndex(usize),
    BadPostbaseIndex(usize),
    BadIndex(usize),
    MaxTableSizeReached,
    MaximumTableSizeTooLarge,
    MaxBlockedStreamsTooLarge,
    UnknownStreamId(u64),
    NoTrackingData,
    InvalidTrackingCount,
    OutOfMemory,
}

impl Error {
    fn text(&self) -> &'static str
        ensures { result.now ≡ dynamic_text self.now }
    {
        match self {
            Error::BadRelativeIndex(_) => "BadRelativeIndex",
            Error::BadPostbaseIndex(_) => "BadPostbaseIndex",
            Error::BadIndex(_) => "BadIndex",
            Error::MaxTableSizeReached => "MaxTableSizeReached",
            Error::MaximumTableSizeTooLarge => "MaximumTableSizeTooLarge",
            Error::MaxBlockedStreamsTooLarge => "MaxBlockedStreamsTooLarge",
            Error::UnknownStreamId(_) => "UnknownStreamId",
            Error::NoTrackingData => "NoTrackingData",
            Error::InvalidTrackingCount => "InvalidTrackingCount",
            Error::OutOfMemory => "out of memory",
        }
    }
}

impl fmt::Display for Error {
    ghost output = { λ e. Some (dynamic_text e) };

    fn fmt<W: fmt::Write>(&self, f: &mut fmt::Formatter<W>) -> fmt::Result {
        f.write_str(self.text())
    }
}

impl std::error::Error for Error {}

impl From<vas::Error> for Error {
    ghost from_gives = { λ a e. e ≡ of_address a };

    fn from(e: vas::Error) -> Error {
        match e {
            vas::Error::RelativeIndex(index) => Error::BadRelativeIndex(index),
            vas::Error::PostbaseIndex(index) => Error::BadPostbaseIndex(index),
            vas::Error::Index(index) => Error::BadIndex(index),
        }
    }
}

impl From<AllocError> for Error {
    ghost from_gives = { λ _ e. e ≡ error.OutOfMemory };

    fn from(_e: AllocError) -> Error {
        Error::OutOfMemory
    }
}
