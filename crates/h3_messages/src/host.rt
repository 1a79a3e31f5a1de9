//! The authority of a request: `:authority` and `host` (RFC 9114, 4.3.1; RFC 9110, 7.2).
ghost use Rattle.std.specs.Prelude.{◌≡◌};
ghost use Rattle.h3_header.specs.Connect.{is_plain_host};
ghost use Rattle.h3_messages.specs.Messages.{is_host, is_host_wrong, are_alike};

use crate::known::Known;
use crate::survey::Survey;
use crate::text::{byte_at, has_byte, is_same};
use h3_header::grammar::is_authority;

/// Whether the text has no userinfo, and a host that is not empty.
pub(crate) fn is_plain_host(text: &[u8]) -> bool
    ensures { result ≡ is_plain_host text.now }
{
    !has_byte(b'@', text) && byte_at(text, 0) != b':'
}

/// Whether the text is an authority without userinfo (RFC 9110, 7.2).
fn is_host(text: &[u8]) -> bool
    ensures { result ≡ is_host text.now }
{
    is_authority(text) && is_plain_host(text)
}

/// Whether `:authority` and `host` have the same value, or one is not there.
fn are_alike(survey: &Survey) -> bool
    ensures { result ≡ are_alike survey.now.fields.now }
{
    if !survey.holds(Known::Authority) || !survey.holds(Known::Host) {
        return true;
    }
    let host = survey.value_of(Known::Host);
    is_same(survey.value_of(Known::Authority), host)
}

// RFC 9114 4.3.1: :authority and host
/// Whether `host` comes twice, is no host, or is unlike `:authority`.
#[tactic(auto, using(crate::proofs::HeldNames::no_host, crate::proofs::HeldNames::lone_host))]
pub(crate) fn is_host_wrong(survey: &Survey) -> bool
    ensures { result ≡ is_host_wrong survey.now.fields.now }
{
    if !survey.holds(Known::Host) {
        return false;
    }
    if survey.repeats(Known::Host) {
        return true;
    }
    !is_host(survey.value_of(Known::Host)) || !are_alike(survey)
}
