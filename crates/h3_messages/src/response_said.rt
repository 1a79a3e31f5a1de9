//! What the header section of a response says of the content after it, whatever its request asked (RFC 9114, 4.1.2; RFC 9110, 6.4.1, 8.6,
//! 9.3.6 and 15.3.6).
ghost use Rattle.std.specs.Prelude.{◌≡◌, ℕ, Bool, List, false, if◌then◌else◌};
ghost use Rattle.h3_field.specs.Field.{Field};
ghost use Rattle.h3_messages.specs.Content.{answered_by, content_behind_status};
ghost use Rattle.h3_messages.specs.OwnMessages.{content_of_own_response};
ghost use Rattle.h3_messages.specs.ResponseSaid.{response_said, said_by_status};
ghost use Rattle.h3_messages.specs.declared.content.Content.TheVariants.{Tunnel, Unanswered, Unsaid};

use crate::content::{Asked, Content, content_of_status, is_interim_status};
use crate::own::is_reset_content;
use crate::text::byte_at;

/// What the header section of a response says of the content after it.
#[derive(Clone, Copy, Debug, PartialEq, Eq)]
pub struct ResponseSaid {
    /// Whether it is interim, and so leaves what was awaited.
    pub is_interim: bool,
    /// Whether a tunnel begins after it, if its request was CONNECT.
    pub opens_tunnel: bool,
    /// Whether no server sends it in answer to CONNECT: it opens a tunnel, and has a `content-length` (RFC 9110, 8.6).
    pub says_tunnel_length: bool,
    /// The content after a final one, except after HEAD and in a tunnel.
    pub content: Content,
}

impl ResponseSaid {
    // What this status and this `content-length` say, which may not be there. A sender has no content with 205 (RFC 9110, 15.3.6).
    pub(crate) fn by(status: &[u8], size: &[u8], has_length: bool, is_sent: bool) -> ResponseSaid
        ensures { result ≡ said_by_status status.now size.now has_length is_sent }
    {
        let opens_tunnel = byte_at(status, 0) == b'2';
        ResponseSaid {
            is_interim: is_interim_status(status),
            opens_tunnel,
            says_tunnel_length: opens_tunnel && has_length,
            content: content_of_status(status, size).or_nothing(
                is_sent && is_reset_content(status),
            ),
        }
    }

    // RFC 9110 9.3.2: no content after HEAD
    /// The content after such a header section, before which this was awaited.
    pub fn behind(self, awaited: Content) -> Content
        ensures sent { (fields : List Field) → self ≡ response_said fields → result ≡ content_of_own_response awaited fields }
        ensures received { (status size : List ℕ) (has_length : Bool) → self ≡ said_by_status status size has_length false
            → result ≡ content_behind_status awaited status size }
    {
        if self.is_interim {
            return awaited;
        }
        match awaited.asked() {
            Asked::Head => Content::NoContent,
            Asked::Connect => self.behind_connect(),
            Asked::Other => self.content,
        }
    }

    /// What is left to come of a request, of which so much was left, if its server sends such a header section. A final one answers
    /// CONNECT.
    pub fn answering(self, content: Content) -> Content
        ensures { (fields : List Field) → self ≡ response_said fields → result ≡ answered_by content fields }
    {
        match content {
            Content::Unanswered => self.answering_connect(),
            Content::Unsaid
            | Content::Exactly(_)
            | Content::NoContent
            | Content::Tunnel
            | Content::Exceeded => content,
        }
    }

    // The same of CONNECT that was not answered.
    fn answering_connect(self) -> Content
        ensures { result ≡ (if self.is_interim then Unanswered else (if self.opens_tunnel then Tunnel else Unsaid)) }
    {
        if self.is_interim {
            return Content::Unanswered;
        }
        if self.opens_tunnel {
            return Content::Tunnel;
        }
        Content::Unsaid
    }

    // The content after a final response to CONNECT.
    fn behind_connect(self) -> Content
        ensures { result ≡ (if self.opens_tunnel then Tunnel else self.content) }
    {
        if self.opens_tunnel {
            return Content::Tunnel;
        }
        self.content
    }
}
