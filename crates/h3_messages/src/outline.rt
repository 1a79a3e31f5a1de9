//! What of a header says at which place of a message it may stand.
ghost use Rattle.std.specs.Prelude.{◌≡◌, false, true, Some, is_some};
ghost use Rattle.h3_header.specs.HeadRead.{is_value_at};
ghost use Rattle.h3_header.specs.Reads.{status_number};
ghost use Rattle.h3_header.specs.declared.headers.kind.FieldKind.TheVariants.{Status};
ghost use Rattle.h3_messages.specs.Outline.{empty_outline, is_outline_of, is_request_outline, is_response_outline};
ghost use Rattle.h3_messages.specs.Outline.{outline_of, outlined_by};

use crate::section::Section;
use h3_field::FieldRef;
use h3_header::{FieldKind, Header};
use http::StatusCode;

/// What of a header says at which place of a message it may stand (RFC 9114, 4.1 and 4.3).
#[derive(Clone, Copy)]
pub struct Outline {
    method: bool,
    pseudo: bool,
    status: Option<StatusCode>,
}

impl Outline {
    /// That of no fields.
    pub(crate) fn empty() -> Outline
        ensures { result ≡ empty_outline }
    {
        Outline {
            method: false,
            pseudo: false,
            status: None,
        }
    }

    /// That of a header.
    pub fn of(header: &Header) -> Outline
        ensures { result ≡ outline_of header.now }
    {
        Outline {
            method: has_method(header),
            pseudo: header.has_pseudo(),
            status: header.status(),
        }
    }

    /// Whether it is that of a request's header section: with a method, and no status.
    pub fn is_request(&self) -> bool
        ensures { result ≡ is_request_outline self.now }
    {
        self.method && self.status.is_none()
    }

    /// Whether it is that of a response's header section: with a status, and no method.
    pub fn is_response(&self) -> bool
        ensures { result ≡ is_response_outline self.now }
    {
        self.status.is_some() && !self.method
    }

    /// Whether it is that of such a section: a trailer section has no pseudo-header field.
    pub fn is_of(&self, section: Section) -> bool
        ensures { result ≡ is_outline_of section self.now }
    {
        match section {
            Section::Request => self.is_request(),
            Section::Response => self.is_response(),
            Section::Trailer => !self.pseudo,
        }
    }

    /// The status, if it has one.
    pub fn status(&self) -> Option<StatusCode>
        ensures { result ≡ self.now.status }
    {
        self.status
    }

    /// Whether it has any pseudo-header field.
    pub fn has_pseudo(&self) -> bool
        ensures { result ≡ self.now.pseudo }
    {
        self.pseudo
    }

    /// With one field more, of that kind. A status has three digits.
    pub(crate) fn with(self, kind: FieldKind, field: &FieldRef<'_>) -> Outline
        requires { kind ≡ Status → is_value_at false Status field.now.value ≡ true }
        ensures { result ≡ outlined_by kind self field.now }
    {
        match kind {
            FieldKind::Regular => self,
            FieldKind::Status => Outline {
                method: self.method,
                pseudo: true,
                status: status_of(field.value()),
            },
            FieldKind::Method => Outline {
                method: true,
                pseudo: true,
                status: self.status,
            },
            FieldKind::Scheme | FieldKind::Authority | FieldKind::Path | FieldKind::Protocol => {
                Outline {
                    method: self.method,
                    pseudo: true,
                    status: self.status,
                }
            }
        }
    }
}

// Whether a header has `:method`: one with a status has it if it is no response, and another if it is a request.
fn has_method(header: &Header) -> bool
    ensures { result ≡ is_some header.now.method }
{
    if header.status().is_some() {
        return !header.is_response();
    }
    header.is_request()
}

// The status that three digits are.
#[tactic(auto, using(crate::proofs::Outlines::is_status))]
fn status_of(digits: &[u8]) -> Option<StatusCode>
    requires { is_value_at false Status digits.now ≡ true }
    ensures { result ≡ Some (status_number digits.now) }
{
    match StatusCode::from_bytes(digits) {
        Ok(status) => Some(status),
        Err(_) => None,
    }
}
