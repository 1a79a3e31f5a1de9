//! Which field of a list is invalid by itself.
ghost use Rattle.std.specs.Prelude.{◌≡◌, None, if◌then◌else◌};
ghost use Rattle.std.specs.List.{position};
ghost use Rattle.h3_messages.specs.InvalidField.{invalid_field, is_invalid};
ghost use Rattle.h3_messages.specs.Messages.{has_space_around as spaced};

use crate::text::has_space_around;
use h3_field::{FieldRef, Fields};
use h3_header::field_kind;

/// The index of the first field of a list that is invalid by itself: the first whose name or value may be in no message (RFC 9114, 4.2
/// and 4.3), or none. The value of `:protocol` may be any token of at most 31 bytes, or one of the two names alone. If no field is
/// invalid so and the rules of messages count, it is the first field with white space around its value (RFC 9114, 10.3). It takes no
/// memory, and walks over the list once or twice.
pub fn invalid_field(fields: &Fields<'_>, any_protocol: bool, is_strict: bool) -> Option<usize>
    ensures { result ≡ invalid_field any_protocol is_strict fields.now }
{
    match first_invalid(fields, any_protocol) {
        Some(place) => Some(place),
        None if is_strict => first_spaced(fields),
        None => None,
    }
}

// The first field whose name or value may be in no message.
#[tactic(auto, using(crate::proofs::Positions::found, crate::proofs::Positions::nowhere))]
fn first_invalid(fields: &Fields<'_>, any_protocol: bool) -> Option<usize>
    ensures { result ≡ position (is_invalid any_protocol) fields.now }
{
    for place in 0..fields.len() {
        if is_invalid(&fields.get(place), any_protocol) {
            return Some(place);
        }
    }
    None
}

// The first field with white space around its value.
#[tactic(auto, using(crate::proofs::Positions::found, crate::proofs::Positions::nowhere))]
fn first_spaced(fields: &Fields<'_>) -> Option<usize>
    ensures { result ≡ position spaced fields.now }
{
    for place in 0..fields.len() {
        if has_space_around(fields.get(place).value()) {
            return Some(place);
        }
    }
    None
}

// Whether its name or its value may be in no message.
fn is_invalid(field: &FieldRef<'_>, any_protocol: bool) -> bool
    ensures { result ≡ is_invalid any_protocol field.now }
{
    field_kind(field, any_protocol).is_err()
}
