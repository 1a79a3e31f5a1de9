//! Error codes (RFC 9114, section 8.1).
ghost use Rattle.std.specs.Prelude.{◌≡◌, ℕ, ◌==◌, Some};
ghost use Rattle.std.specs.Option.{option_copied};
ghost use Rattle.h3_proto.specs.Codes.{code_name, code_text};

use std::fmt;
use std::marker::Model;

/// An error code of HTTP/3. A contract sees it as its number.
#[derive(Clone, Copy, PartialEq, Eq, Hash)]
pub struct Code(u64);

impl Model for Code {
    ghost Value = { ℕ };

    ghost view = { λ c. c.0 };

    ghost inverse = { λ n. record { 0 = n } };
}

impl Code {
    /// A datagram or capsule could not be parsed (RFC 9297, section 5.2).
    pub const H3_DATAGRAM_ERROR: Code = Code(0x33);

    /// The connection or stream is closed without an error.
    pub const H3_NO_ERROR: Code = Code(0x100);

    /// The peer broke the protocol in a way that no other code tells.
    pub const H3_GENERAL_PROTOCOL_ERROR: Code = Code(0x101);

    /// An error inside this end.
    pub const H3_INTERNAL_ERROR: Code = Code(0x102);

    /// The peer opened a stream that is not accepted.
    pub const H3_STREAM_CREATION_ERROR: Code = Code(0x103);

    /// A stream that the connection needs was closed or reset.
    pub const H3_CLOSED_CRITICAL_STREAM: Code = Code(0x104);

    /// A frame came at a place that does not permit it.
    pub const H3_FRAME_UNEXPECTED: Code = Code(0x105);

    /// A frame has a wrong layout or size.
    pub const H3_FRAME_ERROR: Code = Code(0x106);

    /// The peer may be causing too much load.
    pub const H3_EXCESSIVE_LOAD: Code = Code(0x107);

    /// A stream id or push id was used wrongly.
    pub const H3_ID_ERROR: Code = Code(0x108);

    /// The payload of a SETTINGS frame is wrong.
    pub const H3_SETTINGS_ERROR: Code = Code(0x109);

    /// The control stream does not begin with SETTINGS.
    pub const H3_MISSING_SETTINGS: Code = Code(0x10a);

    /// The server did not process the request.
    pub const H3_REQUEST_REJECTED: Code = Code(0x10b);

    /// The request or its response is cancelled.
    pub const H3_REQUEST_CANCELLED: Code = Code(0x10c);

    /// The request stream ended before the request was whole.
    pub const H3_REQUEST_INCOMPLETE: Code = Code(0x10d);

    /// A message is malformed.
    pub const H3_MESSAGE_ERROR: Code = Code(0x10e);

    /// The connection of a CONNECT request was reset or closed.
    pub const H3_CONNECT_ERROR: Code = Code(0x10f);

    /// The request is to be sent over HTTP/1.1.
    pub const H3_VERSION_FALLBACK: Code = Code(0x110);

    /// An encoded field section could not be decoded (RFC 9204, section 6).
    pub const QPACK_DECOMPRESSION_FAILED: Code = Code(0x200);

    /// An encoder instruction could not be read (RFC 9204, section 6).
    pub const QPACK_ENCODER_STREAM_ERROR: Code = Code(0x201);

    /// A decoder instruction could not be read (RFC 9204, section 6).
    pub const QPACK_DECODER_STREAM_ERROR: Code = Code(0x202);

    /// The number.
    pub const fn value(&self) -> u64
        ensures { result ≡ self.now }
    {
        self.0
    }

    /// Whether it is the code of this number.
    pub fn is(&self, value: u64) -> bool
        ensures { result ≡ (self.now == value) }
    {
        self.0 == value
    }

    // The name of a code that has one.
    fn name(self) -> Option<&'static str>
        ensures { option_copied result ≡ code_name self }
    {
        Some(match self {
            Code::H3_DATAGRAM_ERROR => "H3_DATAGRAM_ERROR",
            Code::H3_NO_ERROR => "H3_NO_ERROR",
            Code::H3_GENERAL_PROTOCOL_ERROR => "H3_GENERAL_PROTOCOL_ERROR",
            Code::H3_INTERNAL_ERROR => "H3_INTERNAL_ERROR",
            Code::H3_STREAM_CREATION_ERROR => "H3_STREAM_CREATION_ERROR",
            Code::H3_CLOSED_CRITICAL_STREAM => "H3_CLOSED_CRITICAL_STREAM",
            Code::H3_FRAME_UNEXPECTED => "H3_FRAME_UNEXPECTED",
            Code::H3_FRAME_ERROR => "H3_FRAME_ERROR",
            Code::H3_EXCESSIVE_LOAD => "H3_EXCESSIVE_LOAD",
            Code::H3_ID_ERROR => "H3_ID_ERROR",
            Code::H3_SETTINGS_ERROR => "H3_SETTINGS_ERROR",
            Code::H3_MISSING_SETTINGS => "H3_MISSING_SETTINGS",
            Code::H3_REQUEST_REJECTED => "H3_REQUEST_REJECTED",
            Code::H3_REQUEST_CANCELLED => "H3_REQUEST_CANCELLED",
            Code::H3_REQUEST_INCOMPLETE => "H3_REQUEST_INCOMPLETE",
            Code::H3_MESSAGE_ERROR => "H3_MESSAGE_ERROR",
            Code::H3_CONNECT_ERROR => "H3_CONNECT_ERROR",
            Code::H3_VERSION_FALLBACK => "H3_VERSION_FALLBACK",
            Code::QPACK_DECOMPRESSION_FAILED => "QPACK_DECOMPRESSION_FAILED",
            Code::QPACK_ENCODER_STREAM_ERROR => "QPACK_ENCODER_STREAM_ERROR",
            Code::QPACK_DECODER_STREAM_ERROR => "QPACK_DECODER_STREAM_ERROR",
            _ => return None,
        })
    }
}

impl From<u64> for Code {
    ghost from_gives = { λ x c. c ≡ x };

    fn from(value: u64) -> Self {
        Code(value)
    }
}

impl From<Code> for u64 {
    ghost from_gives = { λ c x. x ≡ c };

    fn from(code: Code) -> u64 {
        code.0
    }
}

impl fmt::Debug for Code {
    ghost debug_output = { λ c. Some (code_text c) };

    fn fmt<W: fmt::Write>(&self, f: &mut fmt::Formatter<W>) -> fmt::Result {
        fmt::Display::fmt(self, f)
    }
}

impl fmt::Display for Code {
    ghost output = { λ c. Some (code_text c) };

    fn fmt<W: fmt::Write>(&self, f: &mut fmt::Formatter<W>) -> fmt::Result {
        match self.name() {
            Some(name) => f.write_str(name),
            None => write!(f, "0x{:x}", self.0),
        }
    }
}
