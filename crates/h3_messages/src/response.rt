//! Which rule a response or a trailer breaks (RFC 9114, 4.2, 4.3 and 4.3.2).
ghost use Rattle.std.specs.Prelude.{◌≡◌, ◌||◌, codes};
ghost use Rattle.h3_messages.specs.Messages.{has_connection_field, holds, is_length_misplaced, violation_of_response, violation_of_trailer};

use crate::known::Known;
use crate::pseudo::{has_pseudo, has_response_pseudo_only};
use crate::regular::{has_connection_field, is_length_wrong};
use crate::survey::Survey;
use crate::text::{byte_at, is_same, says_more_than_none};
use crate::violation::Violation;

/// The first rule that the header section of a response breaks, interim or final, or none.
#[tactic(auto, unfolding(crate::specs::Messages::violation_of_response))]
pub(crate) fn violation_of(survey: &Survey) -> Option<Violation>
    ensures { result ≡ violation_of_response survey.now.fields.now }
{
    if survey.is_out_of_order() {
        return Some(Violation::PseudoOrder);
    }
    if !has_response_pseudo_only(survey) {
        return Some(Violation::WrongPseudo);
    }
    if survey.repeats(Known::Status) {
        return Some(Violation::RepeatedPseudo);
    }
    if has_connection_field_or_te(survey) {
        return Some(Violation::ConnectionField);
    }
    if is_length_wrong(survey) {
        return Some(Violation::ContentLength);
    }
    if !survey.holds(Known::Status) {
        return Some(Violation::MissingPseudo);
    }
    if is_same(survey.value_of(Known::Status), b"101") {
        return Some(Violation::Status);
    }
    if is_length_misplaced(survey) {
        return Some(Violation::ContentLength);
    }
    if survey.has_spaced_value() {
        return Some(Violation::Value);
    }
    None
}

/// Whether a field is connection-specific, as `te` is anywhere but in a request (RFC 9114, 4.2).
fn has_connection_field_or_te(survey: &Survey) -> bool
    ensures { result ≡ (has_connection_field survey.now.fields.now || holds (codes "te") survey.now.fields.now) }
{
    has_connection_field(survey) || survey.holds(Known::Te)
}

/// Whether a `content-length` may not come with this status (RFC 9110, 8.6).
fn is_length_misplaced(survey: &Survey) -> bool
    ensures { result ≡ is_length_misplaced survey.now.fields.now }
{
    if !survey.holds(Known::ContentLength) {
        return false;
    }
    let status = survey.value_of(Known::Status);
    byte_at(status, 0) == b'1'
        || (is_same(status, b"204") && says_more_than_none(survey.value_of(Known::ContentLength)))
}

/// The first rule that a trailer breaks, or none.
#[tactic(auto, unfolding(crate::specs::Messages::violation_of_trailer))]
pub(crate) fn trailer_violation(survey: &Survey) -> Option<Violation>
    ensures { result ≡ violation_of_trailer survey.now.fields.now }
{
    if has_pseudo(survey) {
        return Some(Violation::WrongPseudo);
    }
    if has_connection_field_or_te(survey) {
        return Some(Violation::ConnectionField);
    }
    if survey.holds(Known::ContentLength) || survey.holds(Known::Host) {
        return Some(Violation::TrailerField);
    }
    if survey.has_spaced_value() {
        return Some(Violation::Value);
    }
    None
}
