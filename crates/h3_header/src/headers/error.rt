//! Why a field list is no header, or a header gives no request or response.
ghost use Rattle.std.specs.Prelude.{Some, ⊤};
ghost use Rattle.h3_header.specs.ErrorText.{error_text};
ghost use Rattle.h3_header.specs.Reads.{RefusesName, RefusesValue};

use std::alloc::Global;
use std::error::Error;
use std::fmt;

/// Why a field list is no header, or a header gives no request or response.
#[derive(Debug, Drop)]
pub enum HeaderError {
    /// The name is empty, no lower case header name, or begins with `:` and is unknown.
    InvalidHeaderName(String),
    /// The value is invalid for its field.
    InvalidHeaderValue(String),
    /// Path, scheme and authority make no URI, or the authority of a plain CONNECT has userinfo or an
    /// empty host.
    InvalidRequest,
    /// The header has no `:method`.
    MissingMethod,
    /// The header has no `:status`.
    MissingStatus,
    /// The request has neither `:authority` nor `host`.
    MissingAuthority,
    /// `:authority` and `host` have other bytes.
    ContradictedAuthority,
    /// The map of regular fields is full.
    TooManyFields,
    /// The allocator had no memory.
    OutOfMemory,
}

impl HeaderError {
    /// The refusal of a name.
    pub(crate) fn invalid_name(alloc: Global, name: &[u8]) -> HeaderError
        ensures { RefusesName ⊥ result }
    {
        let text = if name.is_empty() {
            String::from_str(alloc, "name is empty")
        } else {
            format!(in alloc; "{name:?}")
        };
        match text {
            Ok(text) => HeaderError::InvalidHeaderName(text),
            Err(_) => HeaderError::OutOfMemory,
        }
    }

    /// The refusal of a value.
    pub(crate) fn invalid_value(alloc: Global, name: &[u8], value: &[u8]) -> HeaderError
        ensures { RefusesValue ⊥ ⊤ result }
    {
        let name = str::from_utf8(name).unwrap_or("");
        match format!(in alloc; "{name:?} {value:?}") {
            Ok(text) => HeaderError::InvalidHeaderValue(text),
            Err(_) => HeaderError::OutOfMemory,
        }
    }
}

impl fmt::Display for HeaderError {
    ghost output = { λ e. Some (error_text e) };

    fn fmt<W: fmt::Write>(&self, f: &mut fmt::Formatter<W>) -> fmt::Result {
        match self {
            HeaderError::InvalidHeaderName(text) => write!(f, "invalid header name: {text}"),
            HeaderError::InvalidHeaderValue(text) => write!(f, "invalid header value: {text}"),
            HeaderError::InvalidRequest => f.write_str("invalid request"),
            HeaderError::MissingMethod => f.write_str("missing method in request headers"),
            HeaderError::MissingStatus => f.write_str("missing status in response headers"),
            HeaderError::MissingAuthority => f.write_str("missing authority"),
            HeaderError::ContradictedAuthority => {
                f.write_str("uri and authority field are in contradiction")
            }
            HeaderError::TooManyFields => f.write_str("too many fields"),
            HeaderError::OutOfMemory => f.write_str("out of memory"),
        }
    }
}

impl Error for HeaderError {}
