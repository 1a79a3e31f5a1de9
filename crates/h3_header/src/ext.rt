//! The value of `:protocol` in an extended CONNECT (RFC 8441, RFC 9220, RFC 9298).
ghost use Rattle.std.specs.Prelude.{◌≡◌, true, false, MatchResult};
ghost use Rattle.h3_header.specs.HeadTests.{is_protocol_by, is_short_token};
ghost use Rattle.h3_header.specs.ProtocolText.{IsProtocolBy, IsProtocolText};

use crate::grammar::is_token;
use std::marker::Model;
use std::str;
use std::str::FromStr;

/// The longest token that a `Protocol` has room for. The registry's longest is far shorter.
pub const MOST_PROTOCOL_BYTES: usize = 31;

// (no token is one of the two names, and zeros follow it: so equal texts are equal values)
#[derive(Clone, Copy, Debug, PartialEq)]
enum ProtocolInner {
    WebTransport,
    ConnectUdp,
    Token([u8; MOST_PROTOCOL_BYTES], u8),
}

/// A protocol that an extended CONNECT asks for (RFC 8441, section 4): a token of at most 31 bytes, which is kept in place. A contract sees
/// its text.
#[derive(Clone, Copy, Debug, PartialEq)]
pub struct Protocol(ProtocolInner);

impl Model for Protocol {
    ghost use Rattle.std.specs.Prelude.{ℕ, List};
    ghost use Rattle.h3_header.specs.Protocol.{protocol_text, protocol_of, IsKept};
    ghost use Rattle.h3_header.specs.ProtocolLaws.{kept_once};

    ghost Value = { List ℕ };

    ghost view = { λ p. protocol_text p.0 };

    ghost invariant = { λ p. IsKept p.0 };

    ghost inverse = { λ text. record { 0 = protocol_of text } };

    ghost inverse_ok = { λ p kept. kept_once p kept };
}

impl Protocol {
    /// WebTransport over HTTP/3.
    pub const WEB_TRANSPORT: Protocol = Protocol(ProtocolInner::WebTransport);
    /// Proxying UDP in HTTP (RFC 9298).
    pub const CONNECT_UDP: Protocol = Protocol(ProtocolInner::ConnectUdp);

    /// The protocol of a token of the upgrade registry, as `websocket` (RFC 9220). Refused is a text that is no token (RFC 9110, section
    /// 5.6.2), and one of more than 31 bytes. An endpoint sends and takes other protocols than the two constants only if its configuration
    /// says so (`Config::with_any_protocol`). `from_str` takes the names of the two constants alone.
    pub fn from_token(text: &str) -> Result<Protocol, InvalidProtocol>
        ensures { MatchResult result
            (λ p. (p ≡ text.now) × (is_protocol_by true text.now ≡ true))
            (λ _. is_protocol_by true text.now ≡ false) }
    {
        Protocol::from_bytes(text.as_bytes(), true)
    }

    /// The text of `:protocol`.
    pub fn as_str(&self) -> &str
        ensures value { result.now ≡ self.now }
        ensures valid { IsProtocolBy true self.now }
    {
        match &self.0 {
            ProtocolInner::WebTransport => "webtransport",
            ProtocolInner::ConnectUdp => "connect-udp",
            ProtocolInner::Token(bytes, len) => str::from_utf8(
                &bytes[..usize::from(*len)],
            ).unwrap(),
        }
    }

    /// Whether it is one of the two constants.
    pub(crate) fn is_named(&self) -> bool
        ensures value { result ≡ is_protocol_by false self.now }
        ensures token { is_protocol_by true self.now ≡ true }
    {
        !matches!(self.0, ProtocolInner::Token(_, _))
    }

    /// The protocol of a text, if it is a short token, or one of the two names alone.
    pub(crate) fn from_bytes(text: &[u8], any: bool) -> Result<Protocol, InvalidProtocol>
        ensures { MatchResult result
            (λ p. (p ≡ text.now) × (is_protocol_by any text.now ≡ true))
            (λ _. is_protocol_by any text.now ≡ false) }
    {
        if text == b"webtransport".as_slice() {
            return Ok(Protocol::WEB_TRANSPORT);
        }
        if text == b"connect-udp".as_slice() {
            return Ok(Protocol::CONNECT_UDP);
        }
        if any && is_short_token(text) {
            let mut bytes = [0; MOST_PROTOCOL_BYTES];
            bytes[..text.len()].copy_from_slice(text);
            return Ok(Protocol(ProtocolInner::Token(bytes, text.len() as u8)));
        }
        Err(InvalidProtocol)
    }
}

/// Whether the text is a token that a `Protocol` has room for.
pub(crate) fn is_short_token(text: &[u8]) -> bool
    ensures { result ≡ is_short_token text.now }
{
    is_token(text) && text.len() <= MOST_PROTOCOL_BYTES
}

impl FromStr for Protocol {
    type Err = InvalidProtocol;

    ghost from_str_gives = { λ text r. MatchResult r (λ p. (p ≡ text) × IsProtocolText p) (λ _. ¬ (IsProtocolText text)) };

    fn from_str(s: &str) -> Result<Protocol, InvalidProtocol> {
        Protocol::from_bytes(s.as_bytes(), false)
    }
}

/// The text is no protocol that is taken: for `from_str` it names neither constant, and for `from_token` it is no token of at most 31
/// bytes.
#[derive(Clone, Copy, Debug, PartialEq, Eq)]
pub struct InvalidProtocol;
