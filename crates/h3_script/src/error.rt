//! Why a script was not read.
ghost use Rattle.std.specs.Prelude.{◌≡◌};
ghost use Rattle.h3_script.specs.LineErrors.{refusal_at};

use h3_header::HeaderError;
use http::method::MethodError;
use http_header::{HeaderNameError, HeaderValueError};
use http_uri::UriError;
use std::alloc::{AllocError, AllocFailed};

/// Why a script was not read.
#[derive(Clone, Copy)]
pub enum ScriptError {
    /// The line of this number, counted from 1, is refused.
    Line(u64),
    /// An allocation failed.
    OutOfMemory,
}

/// Why a line was not read.
#[derive(Clone, Copy)]
pub enum LineError {
    /// It is no line of a script.
    NoSuchLine,
    /// An allocation failed.
    OutOfMemory,
}

impl LineError {
    /// The refusal of a script whose line of this number was not read.
    pub fn at(self, number: u64) -> ScriptError
        ensures { result ≡ refusal_at number self }
    {
        match self {
            LineError::NoSuchLine => ScriptError::Line(number),
            LineError::OutOfMemory => ScriptError::OutOfMemory,
        }
    }
}

impl From<AllocError> for ScriptError {
    ghost use Rattle.h3_script.specs.declared.error.ScriptError.TheVariants.{OutOfMemory};

    ghost from_gives = { λ _ r. r ≡ OutOfMemory };

    fn from(_e: AllocError) -> ScriptError {
        ScriptError::OutOfMemory
    }
}

impl<T: Drop> From<AllocFailed<T>> for ScriptError {
    ghost use Rattle.h3_script.specs.declared.error.ScriptError.TheVariants.{OutOfMemory};

    ghost from_gives = { λ _ r. r ≡ OutOfMemory };

    fn from(_e: AllocFailed<T>) -> ScriptError {
        ScriptError::OutOfMemory
    }
}

impl From<AllocError> for LineError {
    ghost use Rattle.h3_script.specs.declared.error.LineError.TheVariants.{OutOfMemory};

    ghost from_gives = { λ _ r. r ≡ OutOfMemory };

    fn from(_e: AllocError) -> LineError {
        LineError::OutOfMemory
    }
}

impl From<HeaderNameError> for LineError {
    ghost use Rattle.h3_script.specs.LineErrors.{name_refusal};

    ghost from_gives = { λ e r. r ≡ name_refusal e };

    fn from(e: HeaderNameError) -> LineError {
        match e {
            HeaderNameError::Invalid => LineError::NoSuchLine,
            HeaderNameError::OutOfMemory => LineError::OutOfMemory,
        }
    }
}

impl From<HeaderValueError> for LineError {
    ghost use Rattle.h3_script.specs.LineErrors.{value_refusal};

    ghost from_gives = { λ e r. r ≡ value_refusal e };

    fn from(e: HeaderValueError) -> LineError {
        match e {
            HeaderValueError::Invalid => LineError::NoSuchLine,
            HeaderValueError::OutOfMemory => LineError::OutOfMemory,
        }
    }
}

impl From<MethodError> for LineError {
    ghost use Rattle.h3_script.specs.LineErrors.{method_refusal};

    ghost from_gives = { λ e r. r ≡ method_refusal e };

    fn from(e: MethodError) -> LineError {
        match e {
            MethodError::Invalid => LineError::NoSuchLine,
            MethodError::OutOfMemory => LineError::OutOfMemory,
        }
    }
}

impl From<UriError> for LineError {
    ghost use Rattle.h3_script.specs.LineErrors.{uri_refusal};

    ghost from_gives = { λ e r. r ≡ uri_refusal e };

    fn from(e: UriError) -> LineError {
        match e {
            UriError::Invalid(_) => LineError::NoSuchLine,
            UriError::OutOfMemory => LineError::OutOfMemory,
        }
    }
}

impl From<HeaderError> for LineError {
    ghost use Rattle.h3_script.specs.LineErrors.{header_refusal};

    ghost from_gives = { λ e r. r ≡ header_refusal e };

    fn from(e: HeaderError) -> LineError {
        match e {
            HeaderError::OutOfMemory => LineError::OutOfMemory,
            _ => LineError::NoSuchLine,
        }
    }
}
