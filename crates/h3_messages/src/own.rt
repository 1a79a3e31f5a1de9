//! The rules of a message that bind who sends it, after those by which its peer judges it (RFC 9110, 6.5.1, 8.6, 9.3.8 and 15.3.6).
ghost use Rattle.std.specs.Prelude.{◌≡◌};
ghost use Rattle.h3_messages.specs.Judging.{violation_of_sender};
ghost use Rattle.h3_messages.specs.Messages.{is_one_of};
ghost use Rattle.h3_messages.specs.OwnMessages.{answer_names, authentication_names, condition_names, control_names, format_names};
ghost use Rattle.h3_messages.specs.OwnMessages.{has_no_trailer_field, is_no_trailer_name, is_own_length_misplaced, is_reset_content};
ghost use Rattle.h3_messages.specs.OwnMessages.{is_trace, or_broken, says_content};

use crate::known::Known;
use crate::section::Section;
use crate::survey::Survey;
use crate::text::{is_same, says_more_than_none};
use crate::violation::Violation;
use h3_field::Fields;

// RFC 9110 6.5.1: fields that no trailer section has, sent
/// The rule that a section broke before, or else the one of its sender that it breaks.
pub(crate) fn violation_after(
    earlier: Option<Violation>,
    survey: &Survey,
    section: Section,
) -> Option<Violation>
    ensures { result ≡ violation_of_sender earlier section survey.now.fields.now }
{
    match section {
        Section::Request => {
            let is_broken = is_trace(survey) && says_content(survey);
            or_broken(earlier, is_broken, Violation::ContentLength)
        }
        Section::Response => {
            let is_broken = is_own_length_misplaced(survey);
            or_broken(earlier, is_broken, Violation::ContentLength)
        }
        Section::Trailer => {
            let is_broken = has_no_trailer_field(survey.fields());
            or_broken(earlier, is_broken, Violation::TrailerField)
        }
    }
}

/// The rule that was broken before, or else this one if it is broken.
pub fn or_broken(earlier: Option<Violation>, is_broken: bool, rule: Violation) -> Option<Violation>
    ensures { result ≡ or_broken earlier is_broken rule }
{
    match earlier {
        Some(violation) => Some(violation),
        None => {
            if is_broken {
                return Some(rule);
            }
            None
        }
    }
}

/// Whether the method is TRACE.
pub(crate) fn is_trace(survey: &Survey) -> bool
    ensures { result ≡ is_trace survey.now.fields.now }
{
    is_same(survey.value_of(Known::Method), b"TRACE")
}

// Whether a `content-length` other than 0 is there.
fn says_content(survey: &Survey) -> bool
    ensures { result ≡ says_content survey.now.fields.now }
{
    survey.holds(Known::ContentLength) && says_more_than_none(survey.value_of(Known::ContentLength))
}

/// Whether a response of this status has no content for which its sender answers (RFC 9110, 15.3.6).
pub(crate) fn is_reset_content(status: &[u8]) -> bool
    ensures { result ≡ is_reset_content status.now }
{
    is_same(status, b"205")
}

// Whether a `content-length` may not be sent with this status.
fn is_own_length_misplaced(survey: &Survey) -> bool
    ensures { result ≡ is_own_length_misplaced survey.now.fields.now }
{
    let status = survey.value_of(Known::Status);
    (is_same(status, b"204") && survey.holds(Known::ContentLength))
        || (is_reset_content(status) && says_content(survey))
}

// Whether a field is one that no trailer has (RFC 9110, 6.5.1).
fn has_no_trailer_field(fields: &Fields<'_>) -> bool
    ensures { result ≡ has_no_trailer_field fields.now }
{
    'fields: for place in 0..fields.len() {
        let field = fields.get(place);
        if is_no_trailer_name(field.name()) {
            return true;
        }
    }
    false
}

fn is_no_trailer_name(name: &[u8]) -> bool
    ensures { result ≡ is_no_trailer_name name.now }
{
    is_of_authentication(name)
        || is_control(name)
        || is_condition(name)
        || is_of_answer(name)
        || is_of_format(name)
}

fn is_of_authentication(name: &[u8]) -> bool
    ensures { result ≡ is_one_of authentication_names name.now }
{
    is_same(name, b"authorization")
        || is_same(name, b"proxy-authorization")
        || is_same(name, b"www-authenticate")
        || is_same(name, b"proxy-authenticate")
        || is_same(name, b"cookie")
        || is_same(name, b"set-cookie")
}

fn is_control(name: &[u8]) -> bool
    ensures { result ≡ is_one_of control_names name.now }
{
    is_same(name, b"cache-control")
        || is_same(name, b"expect")
        || is_same(name, b"max-forwards")
        || is_same(name, b"pragma")
        || is_same(name, b"range")
}

fn is_condition(name: &[u8]) -> bool
    ensures { result ≡ is_one_of condition_names name.now }
{
    is_same(name, b"if-match")
        || is_same(name, b"if-none-match")
        || is_same(name, b"if-modified-since")
        || is_same(name, b"if-unmodified-since")
        || is_same(name, b"if-range")
}

fn is_of_answer(name: &[u8]) -> bool
    ensures { result ≡ is_one_of answer_names name.now }
{
    is_same(name, b"age")
        || is_same(name, b"date")
        || is_same(name, b"expires")
        || is_same(name, b"location")
        || is_same(name, b"retry-after")
        || is_same(name, b"vary")
}

fn is_of_format(name: &[u8]) -> bool
    ensures { result ≡ is_one_of format_names name.now }
{
    is_same(name, b"content-encoding")
        || is_same(name, b"content-type")
        || is_same(name, b"content-range")
        || is_same(name, b"trailer")
}
