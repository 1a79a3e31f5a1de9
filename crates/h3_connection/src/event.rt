//! What calls of an endpoint answer.
ghost use Rattle.std.specs.Prelude.{◌≡◌};
ghost use Rattle.h3_connection.specs.MalformationCodes.{malformation_code};
ghost use Rattle.h3_connection.specs.FaultTexts.{malformation_name};
ghost use Rattle.h3_connection.specs.StrictMessages.{malformation_by};

use bytes::Bytes;
use h3_header::Header;
use h3_messages::Violation;
use h3_proto::error::Code;
use h3_proto::stream::{Side, StreamId};
use h3_proto::webtransport::SessionId;
use std::fmt;

/// Why a call was refused. It then changed nothing, except for `Kept`, and for `Connection` if the call found the fault.
#[derive(Clone, Copy, Debug, PartialEq, Eq)]
pub enum Refusal {
    /// The connection was closed by this fault.
    Closed(Code),
    /// What was delivered is a fault of the connection, or there was one before.
    Connection(Code),
    /// The peer sends nothing on this stream.
    NotReceiving,
    /// The stream's end or reset came before.
    AfterEnd,
    /// It was stored, and an allocation failed in reading.
    Kept,
    /// Only a client opens request streams.
    NotClient,
    /// The peer goes away, and takes no request from this id on.
    GoingAway(StreamId),
    /// There are no further stream ids below 2^62.
    IdsUsedUp,
    /// The stream isn't open at this side.
    NotOpen,
    /// It may not come at this place of its message.
    OutOfOrder,
    /// A client sends the header sections of requests, a server those of responses.
    WrongSide,
    /// A trailer has no pseudo-header field.
    PseudoInTrailer,
    /// The list of fields is malformed: it is the list of no header or, at an endpoint that asks for strict messages, breaks this rule.
    Malformed(Malformation),
    /// The field section has this size, and the peer takes less.
    TooLarge(u64),
    /// The stream is one that the connection needs.
    Critical,
    /// The stream has ended.
    Ended,
    /// A server names a request stream.
    NotRequestId,
    /// An earlier GOAWAY had this lower id.
    Raised(u64),
    /// An allocation failed.
    OutOfMemory,
}

/// Why a message is malformed (RFC 9114, section 4.1.2). Each endpoint reports the first six, in the order in which it judges. After those
/// six come the rules of `h3_messages::Violation`, which are reported if the setup asks for strict messages. The last one is reported if
/// the setup limits what is unfinished.
#[derive(Clone, Copy, Debug, PartialEq, Eq)]
pub enum Malformation {
    /// A field's name is empty, not in lower case, or unknown with a `:` (RFC 9114, sections 4.2 and 4.3).
    Name,
    /// A value has a character that may not stand there. If messages are strict, also: there is white space before or after it.
    Value,
    /// There are more different names than a `HeaderMap` holds (24,576).
    TooMany,
    /// It is a header section of the other kind: without `:method` in a request, without `:status` in a response.
    WrongSide,
    /// A trailer has a pseudo-header field (RFC 9114, section 4.3).
    PseudoInTrailer,
    /// The stream ended before the final header section (RFC 9114, section 4.1).
    NoHead,
    /// A pseudo-header field comes after a regular field (RFC 9114, section 4.3).
    PseudoOrder,
    /// A pseudo-header field is not of this side (RFC 9114, section 4.3).
    WrongPseudo,
    /// A pseudo-header field comes twice (RFC 9114, section 4.3).
    RepeatedPseudo,
    /// A connection-specific field, or a `te` that is not `trailers` in a request (RFC 9114, section 4.2).
    ConnectionField,
    /// `content-length` is no number, comes twice, or may not come with this status or method (RFC 9110, sections 8.6, 9.3.8 and 15.3.6).
    ContentLength,
    /// `:protocol` without CONNECT, or when extended CONNECT was not announced (RFC 8441, section 4; RFC 9220, section 3).
    Protocol,
    /// Plain CONNECT without a port in `:authority`, or with `:scheme` or `:path` (RFC 9114, section 4.4; RFC 9110, section 9.3.6).
    Connect,
    /// `:method`, `:scheme` or `:path` is missing in a request, or `:status` in a response (RFC 9114, sections 4.3.1 and 4.3.2).
    MissingPseudo,
    /// `:scheme` is empty, does not begin with a letter, or has another byte than letters, digits, `+`, `-` and `.` (RFC 3986, section
    /// 3.1).
    Scheme,
    /// The authority is missing, empty or has userinfo; `host` is no authority, comes twice, or is unlike `:authority` (RFC 9114, section
    /// 4.3.1; RFC 9110, section 7.2).
    Authority,
    /// `:path` does not begin with `/` and is not `*` for OPTIONS, or has a fragment (RFC 9114, section 4.3.1).
    Path,
    /// Status 101, which HTTP/3 does not support (RFC 9114, section 4.5).
    Status,
    /// A field that is not for trailers (RFC 9110, section 6.5.1). Of what is sent more are refused than of what is received.
    TrailerField,
    /// A HEADERS frame is longer than the endpoint's limit on what is unfinished (RFC 9114, section 10.5). Only an endpoint with that limit
    /// reports it, whether its messages are strict or not.
    TooLong,
}

impl Malformation {
    /// The code to end its stream with, in both directions: H3_MESSAGE_ERROR (RFC 9114, section 4.1.2). At a server a request that ended
    /// before its header section is H3_REQUEST_INCOMPLETE (section 4.1). A field section that is too long is H3_EXCESSIVE_LOAD (section
    /// 10.5). `side` is the side that reads the message.
    pub fn code(self, side: Side) -> Code
        ensures { result ≡ malformation_code self side }
    {
        match self {
            Malformation::TooLong => Code::H3_EXCESSIVE_LOAD,
            Malformation::NoHead => match side {
                Side::Client => Code::H3_MESSAGE_ERROR,
                Side::Server => Code::H3_REQUEST_INCOMPLETE,
            },
            Malformation::Name
            | Malformation::Value
            | Malformation::TooMany
            | Malformation::WrongSide
            | Malformation::PseudoInTrailer
            | Malformation::PseudoOrder
            | Malformation::WrongPseudo
            | Malformation::RepeatedPseudo
            | Malformation::ConnectionField
            | Malformation::ContentLength
            | Malformation::Protocol
            | Malformation::Connect
            | Malformation::MissingPseudo
            | Malformation::Scheme
            | Malformation::Authority
            | Malformation::Path
            | Malformation::Status
            | Malformation::TrailerField => Code::H3_MESSAGE_ERROR,
        }
    }

    /// That of a list that breaks this rule.
    pub fn by(violation: Violation) -> Malformation
        ensures { result ≡ malformation_by violation }
    {
        match violation {
            Violation::PseudoOrder => Malformation::PseudoOrder,
            Violation::RepeatedPseudo => Malformation::RepeatedPseudo,
            Violation::WrongPseudo => Malformation::WrongPseudo,
            Violation::MissingPseudo => Malformation::MissingPseudo,
            Violation::ConnectionField => Malformation::ConnectionField,
            Violation::Protocol => Malformation::Protocol,
            Violation::Connect => Malformation::Connect,
            Violation::Scheme => Malformation::Scheme,
            Violation::Authority => Malformation::Authority,
            Violation::Path => Malformation::Path,
            Violation::Status => Malformation::Status,
            Violation::ContentLength => Malformation::ContentLength,
            Violation::TrailerField => Malformation::TrailerField,
            Violation::Value => Malformation::Value,
        }
    }

    /// The name of its variant.
    pub fn name(self) -> &'static str
        ensures { result.now ≡ malformation_name self }
    {
        match self {
            Malformation::Name => "Name",
            Malformation::Value => "Value",
            Malformation::TooMany => "TooMany",
            Malformation::WrongSide => "WrongSide",
            Malformation::PseudoInTrailer => "PseudoInTrailer",
            Malformation::NoHead => "NoHead",
            Malformation::PseudoOrder => "PseudoOrder",
            Malformation::WrongPseudo => "WrongPseudo",
            Malformation::RepeatedPseudo => "RepeatedPseudo",
            Malformation::ConnectionField => "ConnectionField",
            Malformation::ContentLength => "ContentLength",
            Malformation::Protocol => "Protocol",
            Malformation::Connect => "Connect",
            Malformation::MissingPseudo => "MissingPseudo",
            Malformation::Scheme => "Scheme",
            Malformation::Authority => "Authority",
            Malformation::Path => "Path",
            Malformation::Status => "Status",
            Malformation::TrailerField => "TrailerField",
            Malformation::TooLong => "TooLong",
        }
    }
}

/// What a pull returns.
#[derive(Debug, Drop)]
pub enum Item {
    /// A header section with a status from 100 to 199, which is not the last one.
    Interim(Header),
    /// The header section of a request, or the final one of a response.
    Head(Header),
    /// The next piece of the content, as the pieces came that were delivered.
    Body(Bytes),
    /// The trailer, after which nothing but the end comes.
    Trailer(Header),
    /// In the place of a header section or trailer whose size is above the local limit on sections: that size.
    TooLarge(u64),
    /// The stream is one of this WebTransport session, and no message.
    Session(SessionId),
    /// The next piece of such a stream, as it came.
    Raw(Bytes),
    /// The stream has ended, and all of it was delivered.
    End,
}

/// Why a stream gives no more.
#[derive(Clone, Copy, Debug, PartialEq, Eq)]
pub enum StreamFault {
    /// Its message is malformed (RFC 9114, section 4.1.2).
    Malformed(Malformation),
    /// Its sender reset it, with this application error code.
    Reset(u64),
    /// This side gave it up.
    Canceled,
}

/// Why there is nothing to return.
#[derive(Clone, Copy, Debug, PartialEq, Eq)]
pub enum Fault {
    /// The fault of the connection, by the code to close it with.
    Connection(Code),
    /// The stream gives no more; others go on.
    Stream(StreamFault),
    /// An allocation failed. Nothing is lost.
    Memory,
}

/// The name of the code, `malformed Name`, `reset 268`, `canceled` or `out of memory`.
impl fmt::Display for Fault {
    ghost use Rattle.std.specs.Prelude.{Some};
    ghost use Rattle.h3_connection.specs.FaultTexts.{fault_text};

    ghost output = { λ f. Some (fault_text f) };

    fn fmt<W: fmt::Write>(&self, f: &mut fmt::Formatter<W>) -> fmt::Result {
        match *self {
            Fault::Connection(code) => write!(f, "{code}"),
            Fault::Stream(StreamFault::Malformed(why)) => {
                let name = why.name();
                write!(f, "malformed {name}")
            }
            Fault::Stream(StreamFault::Reset(code)) => write!(f, "reset {code}"),
            Fault::Stream(StreamFault::Canceled) => write!(f, "canceled"),
            Fault::Memory => write!(f, "out of memory"),
        }
    }
}

/// The answer of a pull.
#[derive(Debug, Drop)]
pub enum Pull {
    /// The next item.
    Item(Item),
    /// The next item isn't there yet.
    Pending,
    /// The next header section or trailer needs so many insertions.
    Waiting(usize),
    /// There is none, for this fault.
    Fault(Fault),
    /// The stream has no messages for this side.
    NoMessages,
}

/// Why a delivery is not taken, or not read.
#[derive(Debug, Drop)]
pub enum DeliverError {
    /// It is refused, and nothing was delivered.
    Refused(Refusal),
    /// Nothing was delivered. The bytes come back.
    OutOfMemory(Bytes),
    /// It was stored, and an allocation failed in reading.
    Kept,
}

/// What the peer's settings allow (RFC 9204, section 5; RFC 9114, section 7.2.4.1), with their defaults.
#[derive(Clone, Copy, Debug, PartialEq, Eq)]
pub struct PeerLimits {
    /// The capacity that its decoder's dynamic table may have, in bytes: 0.
    pub capacity: u64,
    /// How many streams may wait at its decoder: 0.
    pub blocked: u64,
    /// The greatest field section that it takes, in bytes (RFC 9114, section 4.2.2): no limit, as 2^62 - 1.
    pub section: u64,
}

/// The sizes of both dynamic tables (RFC 9204, section 3.2.1).
#[derive(Clone, Copy, Debug, PartialEq, Eq)]
pub struct TableSizes {
    /// That of the local encoder's table, in bytes.
    pub sending: usize,
    /// That of the local decoder's table, in bytes.
    pub receiving: usize,
}
