//! What a header section says of content.
ghost use Rattle.std.specs.Prelude.{◌≡◌, codes};
ghost use Rattle.h3_messages.specs.Content.{asked_by, awaited, awaited_by, content_of_request};
ghost use Rattle.h3_messages.specs.Judging.{content_of_request_by, said_by_section};
ghost use Rattle.h3_messages.specs.Messages.{value_of};
ghost use Rattle.h3_messages.specs.ResponseSaid.{said_of_response};

use crate::content::{Asked, Content, said};
use crate::known::Known;
use crate::own::is_trace;
use crate::request::is_connect;
use crate::response_said::ResponseSaid;
use crate::section::Section;
use crate::survey::Survey;
use crate::text::is_same;
use h3_field::Fields;

/// What a section says of the content of its message.
#[derive(Clone, Copy, Debug, PartialEq, Eq)]
pub enum Said {
    /// Nothing: a trailer section, or one of which no rules are asked.
    Nothing,
    /// That of a request: what its client awaits before the header section of the response, and its own content, by `content-length` and
    /// CONNECT. By the method `NoContent` is awaited after HEAD, `Tunnel` after CONNECT, and else `Unsaid`. That is all that a stream
    /// remembers of the request.
    Request(Content, Content),
    /// That of a response.
    Response(ResponseSaid),
}

impl Said {
    // What a list says as such a section, over which the walk was made. A sender has no content after TRACE (RFC 9110, 9.3.8).
    #[inline(always)]
    pub(crate) fn by(survey: &Survey, section: Section, is_sent: bool) -> Said
        ensures { result ≡ said_by_section section is_sent survey.now.fields.now }
    {
        match section {
            Section::Request => Said::Request(
                behind_method(survey.value_of(Known::Method)),
                content_of_request_by(survey, is_sent),
            ),
            Section::Response => Said::Response(said_of_response(survey, is_sent)),
            Section::Trailer => Said::Nothing,
        }
    }
}

/// What the client of a request awaits, of whose list nothing else need be well-formed.
pub fn awaited_by(fields: &Fields<'_>) -> Content
    ensures { result ≡ awaited_by fields.now }
{
    behind_method(method_of(fields))
}

// The first value of `:method`, or no bytes.
fn method_of<'a>(fields: &Fields<'a>) -> &'a [u8]
    ensures { result.now ≡ value_of (codes ":method") fields.now }
{
    'fields: for place in 0..fields.len() {
        let field = fields.get(place);
        if is_same(field.name(), b":method") {
            return field.value();
        }
    }
    b""
}

// What is awaited after a request of this method.
fn behind_method(method: &[u8]) -> Content
    ensures { result ≡ awaited (asked_by method.now) }
{
    Content::behind_asking(Asked::by(method))
}

// The content after the header section of a request.
fn content_of_request(survey: &Survey) -> Content
    ensures { result ≡ content_of_request survey.now.fields.now }
{
    if is_connect(survey) {
        return Content::Tunnel;
    }
    said(survey.value_of(Known::ContentLength))
}

// The same of one that came, or is to be sent.
fn content_of_request_by(survey: &Survey, is_sent: bool) -> Content
    ensures { result ≡ content_of_request_by is_sent survey.now.fields.now }
{
    let content = content_of_request(survey);
    if is_sent {
        return content.or_nothing(is_trace(survey));
    }
    content
}

// What the header section of a response says.
fn said_of_response(survey: &Survey, is_sent: bool) -> ResponseSaid
    ensures { result ≡ said_of_response is_sent survey.now.fields.now }
{
    let status = survey.value_of(Known::Status);
    let size = survey.value_of(Known::ContentLength);
    ResponseSaid::by(status, size, survey.holds(Known::ContentLength), is_sent)
}
