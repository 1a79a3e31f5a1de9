//! Why a list of fields reads as no header, and what a long one reads as.
ghost use Rattle.std.specs.Prelude.{◌≡◌, ◌<◌, [], None, IfErr, length};
ghost use Rattle.h3_header.specs.Head.{trailer_head};
ghost use Rattle.h3_header.specs.HeadRead.{told};
ghost use Rattle.h3_header.specs.Reads.{RefusesOne};
ghost use Rattle.h3_header.specs.declared.headers.error.HeaderError.TheVariants as error;
ghost use Rattle.h3_messages.specs.Outline.{IsListRead, refusal_by};

use crate::outline::Outline;
use h3_field::Fields;
use h3_header::{BadPart, Header, HeaderError};
use std::alloc::Global;

/// Why a list of fields reads as no header.
#[derive(Clone, Copy, Debug, PartialEq, Eq)]
pub enum ListError {
    /// This part of a field is malformed by itself.
    Malformed(BadPart),
    /// A map has no room for all its names.
    TooMany,
    /// An allocation failed. It says nothing of the list.
    OutOfMemory,
}

impl ListError {
    // What an error says that was found in making a header.
    fn of(e: &HeaderError) -> ListError
        ensures { refusal_by result ≡ told e.now }
    {
        match e {
            HeaderError::InvalidHeaderName(_) => ListError::Malformed(BadPart::Name),
            HeaderError::InvalidHeaderValue(_) => ListError::Malformed(BadPart::Value),
            HeaderError::TooManyFields => ListError::TooMany,
            HeaderError::InvalidRequest
            | HeaderError::MissingMethod
            | HeaderError::MissingStatus
            | HeaderError::MissingAuthority
            | HeaderError::ContradictedAuthority
            | HeaderError::OutOfMemory => ListError::OutOfMemory,
        }
    }
}

// What a list of many fields reads as, by the header that is made of it.
pub(crate) fn read_long(
    alloc: Global,
    fields: &Fields<'_>,
    any_protocol: bool,
) -> Result<Outline, ListError>
    requires { 24576 < length fields.now }
    ensures read { IsListRead any_protocol fields.now result }
    ensures memory { IfErr result (λ e. refusal_by e ≡ None → RefusesOne any_protocol (trailer_head []) fields.now error.OutOfMemory) }
{
    h3_header::laws::lists_are_their_value();
    match Header::of_fields(alloc, fields, any_protocol) {
        Ok(header) => {
            let outline = Outline::of(&header);
            drop(header);
            Ok(outline)
        }
        Err(e) => Err(ListError::of(&e)),
    }
}
