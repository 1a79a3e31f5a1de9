//! Which part of a header a field name speaks of.
ghost use Rattle.std.specs.Prelude.{◌≡◌};
ghost use Rattle.h3_header.specs.Reads.{kind_of};

use crate::grammar::{byte_at, is_text};

/// A pseudo-header field (RFC 9114, 4.3), or a regular one.
#[derive(Clone, Copy, Debug, PartialEq, Eq)]
pub enum FieldKind {
    /// `:method`
    Method,
    /// `:scheme`
    Scheme,
    /// `:authority`
    Authority,
    /// `:path`
    Path,
    /// `:status`
    Status,
    /// `:protocol` (RFC 8441, 4)
    Protocol,
    /// Any other name
    Regular,
}

impl FieldKind {
    /// The kind of the field with this name (RFC 9114, 4.3).
    #[inline(always)]
    pub fn of(name: &[u8]) -> FieldKind
        ensures { result ≡ kind_of name.now }
    {
        if byte_at(name, 0) != b':' {
            return FieldKind::Regular;
        }
        of_colon(name)
    }
}

// The kind of a name with a colon ahead. A name of another length is ruled out by its length alone.
#[inline(always)]
fn of_colon(name: &[u8]) -> FieldKind
    ensures { result ≡ kind_of name.now }
{
    if is_text(name, b":method".as_slice()) {
        FieldKind::Method
    } else if is_text(name, b":scheme".as_slice()) {
        FieldKind::Scheme
    } else if is_text(name, b":authority".as_slice()) {
        FieldKind::Authority
    } else if is_text(name, b":path".as_slice()) {
        FieldKind::Path
    } else if is_text(name, b":status".as_slice()) {
        FieldKind::Status
    } else if is_text(name, b":protocol".as_slice()) {
        FieldKind::Protocol
    } else {
        FieldKind::Regular
    }
}
