//! The regular fields of a list that rules speak of (RFC 9114, 4.2; RFC 9110, 8.6).
ghost use Rattle.std.specs.Prelude.{◌≡◌};
ghost use Rattle.h3_messages.specs.Messages.{has_connection_field, is_length_wrong};

use crate::known::Known;
use crate::survey::Survey;
use crate::text::length_of;

// RFC 9114 4.2: connection-specific fields
/// Whether a field of the list is connection-specific (RFC 9114, 4.2).
#[tactic(auto, using(crate::proofs::HeldNames::any_connection))]
pub(crate) fn has_connection_field(survey: &Survey) -> bool
    ensures { result ≡ has_connection_field survey.now.fields.now }
{
    survey.holds(Known::Connection)
        || survey.holds(Known::KeepAlive)
        || survey.holds(Known::ProxyConnection)
        || survey.holds(Known::TransferEncoding)
        || survey.holds(Known::Upgrade)
}

/// Whether the list has two `content-length`, or one that is no length (RFC 9110, 8.6).
#[tactic(auto, using(crate::proofs::HeldNames::lone_length))]
pub(crate) fn is_length_wrong(survey: &Survey) -> bool
    ensures { result ≡ is_length_wrong survey.now.fields.now }
{
    if survey.repeats(Known::ContentLength) {
        return true;
    }
    survey.holds(Known::ContentLength) && length_of(survey.value_of(Known::ContentLength)).is_none()
}
