//! Which rule the header section of a request breaks (RFC 9114, 4.2, 4.3, 4.3.1 and 4.4; RFC 9220, 3).
ghost use Rattle.std.specs.Prelude.{◌≡◌};
ghost use Rattle.h3_messages.specs.Messages.{is_connect, is_plain_connect, needs_authority, misses_pseudo, is_protocol_wrong};
ghost use Rattle.h3_messages.specs.Messages.{is_connect_wrong, is_scheme_wrong, misses_authority, is_target_wrong, is_authority_wrong};
ghost use Rattle.h3_messages.specs.Messages.{is_path_right, is_path_wrong, violation_of_request};

use crate::host::{is_host_wrong, is_plain_host};
use crate::known::Known;
use crate::pseudo::{has_request_pseudo_only, repeats_pseudo};
use crate::regular::{has_connection_field, is_length_wrong};
use crate::survey::Survey;
use crate::text::{byte_at, has_byte, is_same, is_scheme, is_word, names_port};
use crate::violation::Violation;

/// The first rule that the header section of a request breaks, or none. The choice is whether its server announced extended CONNECT.
#[tactic(auto, unfolding(crate::specs::Messages::violation_of_request))]
pub(crate) fn violation_of(survey: &Survey, extended_connect: bool) -> Option<Violation>
    ensures { result ≡ violation_of_request extended_connect survey.now.fields.now }
{
    if survey.is_out_of_order() {
        return Some(Violation::PseudoOrder);
    }
    if !has_request_pseudo_only(survey) {
        return Some(Violation::WrongPseudo);
    }
    if repeats_pseudo(survey) {
        return Some(Violation::RepeatedPseudo);
    }
    if has_connection_field(survey) || survey.has_wrong_te() {
        return Some(Violation::ConnectionField);
    }
    if is_length_wrong(survey) {
        return Some(Violation::ContentLength);
    }
    if is_protocol_wrong(survey, extended_connect) {
        return Some(Violation::Protocol);
    }
    if is_connect_wrong(survey) {
        return Some(Violation::Connect);
    }
    if misses_pseudo(survey) {
        return Some(Violation::MissingPseudo);
    }
    if is_scheme_wrong(survey) {
        return Some(Violation::Scheme);
    }
    if is_authority_wrong(survey) {
        return Some(Violation::Authority);
    }
    if is_path_wrong(survey) {
        return Some(Violation::Path);
    }
    if survey.has_spaced_value() {
        return Some(Violation::Value);
    }
    None
}

/// Whether the method is CONNECT.
pub(crate) fn is_connect(survey: &Survey) -> bool
    ensures { result ≡ is_connect survey.now.fields.now }
{
    is_same(survey.value_of(Known::Method), b"CONNECT")
}

/// Whether it is a CONNECT without `:protocol` (RFC 9114, 4.4).
fn is_plain_connect(survey: &Survey) -> bool
    ensures { result ≡ is_plain_connect survey.now.fields.now }
{
    is_connect(survey) && !survey.holds(Known::Protocol)
}

/// Whether the scheme has a mandatory authority: http and https (RFC 9114, 4.3.1).
fn needs_authority(survey: &Survey) -> bool
    ensures { result ≡ needs_authority survey.now.fields.now }
{
    let scheme = survey.value_of(Known::Scheme);
    is_word(b"http", scheme) || is_word(b"https", scheme)
}

// RFC 8441 4: :protocol with CONNECT alone
/// Whether `:protocol` may not be there (RFC 8441, 4; RFC 9220, 3).
fn is_protocol_wrong(survey: &Survey, extended_connect: bool) -> bool
    ensures { result ≡ is_protocol_wrong extended_connect survey.now.fields.now }
{
    survey.holds(Known::Protocol) && !(extended_connect && is_connect(survey))
}

/// Whether a plain CONNECT has `:scheme` or `:path`, or no `:authority` with a port (RFC 9114, 4.4; RFC 9110, 9.3.6).
fn is_connect_wrong(survey: &Survey) -> bool
    ensures { result ≡ is_connect_wrong survey.now.fields.now }
{
    is_plain_connect(survey)
        && (survey.holds(Known::Scheme)
            || survey.holds(Known::Path)
            || !names_port(survey.value_of(Known::Authority)))
}

/// Whether `:method`, `:scheme` or `:path` is missing (RFC 9114, 4.3.1).
fn misses_pseudo(survey: &Survey) -> bool
    ensures { result ≡ misses_pseudo survey.now.fields.now }
{
    if !survey.holds(Known::Method) {
        return true;
    }
    !(survey.holds(Known::Scheme) && survey.holds(Known::Path)) && !is_plain_connect(survey)
}

/// Whether `:scheme` is there, and no scheme (RFC 3986, 3.1).
fn is_scheme_wrong(survey: &Survey) -> bool
    ensures { result ≡ is_scheme_wrong survey.now.fields.now }
{
    survey.holds(Known::Scheme) && !is_scheme(survey.value_of(Known::Scheme))
}

/// Whether an http or https request has neither `:authority` nor `host` (RFC 9114, 4.3.1).
fn misses_authority(survey: &Survey) -> bool
    ensures { result ≡ misses_authority survey.now.fields.now }
{
    !(survey.holds(Known::Authority) || survey.holds(Known::Host)) && needs_authority(survey)
}

/// Whether `:authority` is empty or has userinfo, for http, https and CONNECT (RFC 9114, 4.3.1 and 4.4).
fn is_target_wrong(survey: &Survey) -> bool
    ensures { result ≡ is_target_wrong survey.now.fields.now }
{
    !is_plain_host(survey.value_of(Known::Authority))
        && (needs_authority(survey) || is_connect(survey))
}

// RFC 9114 4.3.1: :authority and host
/// Whether the authority is missing or wrong.
fn is_authority_wrong(survey: &Survey) -> bool
    ensures { result ≡ is_authority_wrong survey.now.fields.now }
{
    misses_authority(survey) || is_host_wrong(survey) || is_target_wrong(survey)
}

/// Whether the path begins with `/` and has no fragment, or is `*` for OPTIONS (RFC 9114, 4.3.1).
fn is_path_right(method: &[u8], path: &[u8]) -> bool
    ensures { result ≡ is_path_right method.now path.now }
{
    (byte_at(path, 0) == b'/' && !has_byte(b'#', path))
        || (is_same(path, b"*") && is_same(method, b"OPTIONS"))
}

/// Whether `:path` is there, and no path.
fn is_path_wrong(survey: &Survey) -> bool
    ensures { result ≡ is_path_wrong survey.now.fields.now }
{
    survey.holds(Known::Path)
        && !is_path_right(survey.value_of(Known::Method), survey.value_of(Known::Path))
}
