//! How much content a message has, and what comes of it (RFC 9114, 4.1.2; RFC 9110, 6.4.1, 8.6 and 9.3.6).
ghost use Rattle.std.specs.Prelude.{◌≡◌, []};
ghost use Rattle.h3_messages.specs.Content.{asked_by, asked_for, awaited, said, is_interim_status, is_without_content, content_of_status};
ghost use Rattle.h3_messages.specs.Content.{content_behind_status, until_answered, left_behind, is_exceeded, may_end, takes_trailer};
ghost use Rattle.h3_messages.specs.OwnMessages.{or_nothing};

use crate::response_said::ResponseSaid;
use crate::text::{is_same, length_of};

/// How much content is left to come after a header section.
#[derive(Clone, Copy, Debug, PartialEq, Eq)]
pub enum Content {
    /// As much as comes: no `content-length` says it.
    Unsaid,
    /// So many bytes: what `content-length` says, less what came.
    Exactly(u64),
    /// None, whatever `content-length` says.
    NoContent,
    /// A tunnel's bytes, and no trailer (RFC 9114, 4.4).
    Tunnel,
    /// As much as comes after a CONNECT request, until its server answers it.
    Unanswered,
    /// More came than there may be (RFC 9114, 4.1.2).
    Exceeded,
}

/// What a client's stream remembers of its request's method.
#[derive(Clone, Copy, Debug, PartialEq, Eq)]
pub enum Asked {
    /// HEAD, whose response has no content (RFC 9110, 9.3.2).
    Head,
    /// CONNECT, whose 2xx response begins a tunnel (RFC 9110, 9.3.6).
    Connect,
    /// Any other method.
    Other,
}

impl Asked {
    /// What a stream remembers of this method. Methods are case-sensitive (RFC 9110, 9.1).
    pub fn by(method: &[u8]) -> Asked
        ensures { result ≡ asked_by method.now }
    {
        if is_same(method, b"HEAD") {
            Asked::Head
        } else if is_same(method, b"CONNECT") {
            Asked::Connect
        } else {
            Asked::Other
        }
    }
}

impl Content {
    // What is awaited after a request that asks this.
    pub(crate) fn behind_asking(request: Asked) -> Content
        ensures { result ≡ awaited request }
    {
        match request {
            Asked::Head => Content::NoContent,
            Asked::Connect => Content::Tunnel,
            Asked::Other => Content::Unsaid,
        }
    }

    // What the request asked after which this is awaited.
    pub(crate) fn asked(self) -> Asked
        ensures { result ≡ asked_for self }
    {
        match self {
            Content::NoContent => Asked::Head,
            Content::Tunnel => Asked::Connect,
            Content::Unsaid | Content::Exactly(_) | Content::Unanswered | Content::Exceeded => {
                Asked::Other
            }
        }
    }

    /// The content after the header section of a response of which only the status is known, before which this was awaited. An interim one
    /// leaves it as it is.
    pub fn behind_status(self, status: &[u8]) -> Content
        ensures { result ≡ content_behind_status self status.now [] }
    {
        ResponseSaid::by(status, b"", false, false).behind(self)
    }

    /// The same of a request that its server has read, and not yet answered.
    pub fn until_answered(self) -> Content
        ensures { result ≡ until_answered self }
    {
        match self {
            Content::Tunnel => Content::Unanswered,
            Content::Unsaid
            | Content::Exactly(_)
            | Content::NoContent
            | Content::Unanswered
            | Content::Exceeded => self,
        }
    }

    /// No content if none may be sent and nothing says how much is.
    pub(crate) fn or_nothing(self, is_none: bool) -> Content
        ensures { result ≡ or_nothing self is_none }
    {
        match self {
            Content::Unsaid => {
                if is_none {
                    return Content::Exactly(0);
                }
                Content::Unsaid
            }
            Content::Exactly(_)
            | Content::NoContent
            | Content::Tunnel
            | Content::Unanswered
            | Content::Exceeded => self,
        }
    }

    // RFC 9114 4.1.2: content-length and content
    /// What is left after DATA of so many bytes (RFC 9114, 4.1.2).
    pub fn left_behind(self, size: u64) -> Content
        ensures { result ≡ left_behind self size }
    {
        match self {
            Content::Exactly(left) => {
                if size <= left {
                    return Content::Exactly(left - size);
                }
                Content::Exceeded
            }
            Content::NoContent => {
                if size == 0 {
                    return Content::NoContent;
                }
                Content::Exceeded
            }
            Content::Unsaid => Content::Unsaid,
            Content::Tunnel => Content::Tunnel,
            Content::Unanswered => Content::Unanswered,
            Content::Exceeded => Content::Exceeded,
        }
    }

    /// Whether more came than there may be.
    pub fn is_exceeded(self) -> bool
        ensures { result ≡ is_exceeded self }
    {
        match self {
            Content::Exceeded => true,
            Content::Unsaid
            | Content::Exactly(_)
            | Content::NoContent
            | Content::Tunnel
            | Content::Unanswered => false,
        }
    }

    // RFC 9114 4.1.2: content-length and content
    /// Whether the content may end here, by the stream's end or a trailer (RFC 9114, 4.1.2).
    pub fn may_end(self) -> bool
        ensures { result ≡ may_end self }
    {
        match self {
            Content::Exactly(left) => left == 0,
            Content::Exceeded => false,
            Content::Unsaid | Content::NoContent | Content::Tunnel | Content::Unanswered => true,
        }
    }

    /// Whether a trailer may come: after a tunnel's beginning none may (RFC 9114, 4.4).
    pub fn takes_trailer(self) -> bool
        ensures { result ≡ takes_trailer self }
    {
        match self {
            Content::Tunnel => false,
            Content::Unsaid
            | Content::Exactly(_)
            | Content::NoContent
            | Content::Unanswered
            | Content::Exceeded => true,
        }
    }
}

/// Whether a status is one of an interim response: three digits, of which the first is 1 (RFC 9110, 15.2).
pub fn is_interim_status(status: &[u8]) -> bool
    ensures { result ≡ is_interim_status status.now }
{
    status.len() == 3 && status.iter().all(|byte| byte.is_ascii_digit()) && status[0] == b'1'
}

// What this `content-length` says, if it is a length.
pub(crate) fn said(text: &[u8]) -> Content
    ensures { result ≡ said text.now }
{
    match length_of(text) {
        Some(size) => Content::Exactly(size),
        None => Content::Unsaid,
    }
}

// Whether a message of this status has no content (RFC 9110, 6.4.1).
fn is_without_content(status: &[u8]) -> bool
    ensures { result ≡ is_without_content status.now }
{
    is_same(status, b"204") || is_same(status, b"304")
}

// The content of a response with this status and this `content-length`.
pub(crate) fn content_of_status(status: &[u8], size: &[u8]) -> Content
    ensures { result ≡ content_of_status status.now size.now }
{
    if is_without_content(status) {
        return Content::NoContent;
    }
    said(size)
}
