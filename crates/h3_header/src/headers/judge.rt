//! What is malformed of a field list, told without memory.
ghost use Rattle.std.specs.Prelude.{◌≡◌, IfOk, IfErr};
ghost use Rattle.h3_header.specs.BadPart.{bad_part};
ghost use Rattle.h3_header.specs.HeadRead.{is_name_at, is_value_at};
ghost use Rattle.h3_header.specs.Reads.{kind_of};
ghost use Rattle.h3_header.specs.HeadTests.{is_code_text, is_protocol_by, is_protocol_text};

use super::kind::FieldKind;
use crate::ext::{Protocol, is_short_token};
use crate::grammar::{
    is_authority, is_field_value, is_header_name, is_path_input, is_scheme, is_token,
};
use h3_field::FieldRef;
use http::StatusCode;

/// So many names a `HeaderMap` has room for: whether a list of no more fields is a header's is decided without memory.
pub const MOST_NAMES: usize = 24576;

/// What is malformed of a field by itself (RFC 9114, 4.2 and 4.3).
#[derive(Clone, Copy, Debug, PartialEq, Eq)]
pub enum BadPart {
    /// Its name.
    Name,
    /// Its value.
    Value,
}

/// The kind of a field of which nothing is malformed by itself, or else what is: its name, else its value (RFC 9114, 4.2 and 4.3). The
/// value of `:protocol` may be any token of at most 31 bytes, or one of the two names alone. Who walks over a list asks so for both at
/// once. It takes no memory.
#[inline(always)]
pub fn field_kind(field: &FieldRef<'_>, any_protocol: bool) -> Result<FieldKind, BadPart>
    ensures ok { IfOk result (λ kind. (kind ≡ kind_of field.now.name) × (bad_part any_protocol field.now ≡ None)) }
    ensures err { IfErr result (λ part. bad_part any_protocol field.now ≡ Some part) }
{
    let kind = FieldKind::of(field.name());
    if !is_name_at(kind, field.name()) {
        return Err(BadPart::Name);
    }
    if !is_value_at(kind, field.value(), any_protocol) {
        return Err(BadPart::Value);
    }
    Ok(kind)
}

// RFC 9114 4.2: malformed names of fields
// Whether a name may stand there.
fn is_name_at(kind: FieldKind, name: &[u8]) -> bool
    ensures { result ≡ is_name_at kind name.now }
{
    match kind {
        FieldKind::Regular => is_header_name(name),
        _ => true,
    }
}

// RFC 9114 10.3: malformed values of fields
// Whether a value may stand there.
#[inline(always)]
fn is_value_at(kind: FieldKind, value: &[u8], any_protocol: bool) -> bool
    ensures { result ≡ is_value_at any_protocol kind value.now }
{
    match kind {
        FieldKind::Method => is_token(value),
        FieldKind::Scheme => is_scheme(value),
        FieldKind::Authority => is_authority(value),
        FieldKind::Path => is_path_input(value),
        FieldKind::Status => is_code_text(value),
        FieldKind::Protocol => is_protocol(value, any_protocol),
        FieldKind::Regular => is_field_value(value),
    }
}

// Whether a text may be a protocol: any short token, or one of the two names alone.
fn is_protocol(text: &[u8], any: bool) -> bool
    ensures { result ≡ is_protocol_by any text.now }
{
    if any {
        is_short_token(text)
    } else {
        is_protocol_text(text)
    }
}

#[tactic(auto, using(crate::proofs::HeadTestLaws::decided, crate::proofs::HeadTestLaws::code_text))]
fn is_code_text(text: &[u8]) -> bool
    ensures { result ≡ is_code_text text.now }
{
    StatusCode::from_bytes(text).is_ok()
}

fn is_protocol_text(text: &[u8]) -> bool
    ensures { result ≡ is_protocol_text text.now }
{
    Protocol::from_bytes(text, false).is_ok()
}
