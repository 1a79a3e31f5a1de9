//! The pseudo-header fields of a list (RFC 9114, 4.3).
ghost use Rattle.std.specs.Prelude.{◌≡◌};
ghost use Rattle.std.specs.List.{list_any};
ghost use Rattle.h3_messages.specs.Messages.{holds, is_pseudo, request_names, response_names, only_pseudo_of, repeats_pseudo};

use crate::known::Known;
use crate::survey::Survey;

/// Whether the list has a pseudo-header field of requests.
fn holds_of_request(survey: &Survey) -> bool
    ensures { result ≡ list_any (λ name. holds name survey.now.fields.now) request_names }
{
    survey.holds(Known::Method)
        || survey.holds(Known::Scheme)
        || survey.holds(Known::Authority)
        || survey.holds(Known::Path)
        || survey.holds(Known::Protocol)
}

/// Whether the list has a pseudo-header field.
#[tactic(auto, using(crate::proofs::HeldNames::any_pseudo))]
pub(crate) fn has_pseudo(survey: &Survey) -> bool
    ensures { result ≡ list_any is_pseudo survey.now.fields.now }
{
    survey.pseudo_are_known();
    survey.holds(Known::Status) || holds_of_request(survey)
}

/// Whether the list has no pseudo-header field but those of requests.
#[tactic(auto, using(crate::proofs::HeldNames::only_of_requests))]
pub(crate) fn has_request_pseudo_only(survey: &Survey) -> bool
    ensures { result ≡ only_pseudo_of request_names survey.now.fields.now }
{
    survey.pseudo_are_known();
    !survey.holds(Known::Status)
}

/// Whether the list has no pseudo-header field but that of responses.
#[tactic(auto, using(crate::proofs::HeldNames::only_of_responses))]
pub(crate) fn has_response_pseudo_only(survey: &Survey) -> bool
    ensures { result ≡ only_pseudo_of response_names survey.now.fields.now }
{
    survey.pseudo_are_known();
    !holds_of_request(survey)
}

/// Whether a pseudo-header field of requests comes twice.
pub(crate) fn repeats_pseudo(survey: &Survey) -> bool
    ensures { result ≡ repeats_pseudo survey.now.fields.now }
{
    survey.repeats(Known::Method)
        || survey.repeats(Known::Scheme)
        || survey.repeats(Known::Authority)
        || survey.repeats(Known::Path)
        || survey.repeats(Known::Protocol)
}
