//! Stream ids (RFC 9000, section 2.1) and the types of one-way streams (RFC 9114, section 6.2).
ghost use Rattle.std.specs.Prelude.{◌≡◌, ℕ, ◌+◌, ◌*◌, ◌/◌, ◌%◌, ◌-◌, ◌^◌, ◌<◌, min, Some, codes, false, ◌++◌};
ghost use Rattle.std.specs.Fmt.{digits};
ghost use Rattle.h3_coding.specs.Encodings.{IsEncoding, IsUnfinished, encoding};
ghost use Rattle.h3_coding.specs.EncodingLaws.{one_encoding, finished, encoding_is_valid};
ghost use Rattle.h3_proto.specs.Ids.{Converts, reserved};
ghost use Rattle.h3_proto.specs.StreamIds.{index_of, initiator_of, is_unidirectional, is_request_stream, is_push, after, stream_text};
ghost use Rattle.h3_proto.specs.StreamIds.{type_text};

use crate::webtransport::SessionId;
use bytes::{Buf, BufMut};
use h3_coding::coding::{BufExt, BufMutExt, Codec, Decode, Encode, UnexpectedEnd, WriteRefused};
use h3_coding::varint::VarInt;
use std::error::Error;
use std::fmt;
use std::marker::Model;
use std::ops::Add;

/// An end of a connection.
#[derive(Clone, Copy, PartialEq, Eq, Debug)]
pub enum Side {
    /// The end that opened the connection.
    Client = 0,
    /// The end that accepted it.
    Server = 1,
}

/// The id of a stream, below 2^62. Bit 0 tells who opened the stream, bit 1 whether it is one-way,
/// and the rest is its index among the streams of that kind. A contract sees it as its number.
#[derive(Clone, Copy, PartialEq, Eq, PartialOrd, Ord, Hash, Debug)]
pub struct StreamId(u64);

impl Model for StreamId {
    ghost Value = { ℕ };

    ghost view = { λ v. v.0 };

    ghost invariant = { λ v. v.0 < 2 ^ 62 };

    ghost inverse = { λ n. record { 0 = n } };
}

impl StreamId {
    /// The first request stream.
    pub const FIRST_REQUEST: StreamId = StreamId(0);

    /// Whether it is a request stream: opened by the client, in both directions.
    pub fn is_request(&self) -> bool
        ensures { result ≡ is_request_stream self.now }
    {
        self.0 % 4 == 0
    }

    /// Whether it is a push stream: opened by the server, one-way.
    pub fn is_push(&self) -> bool
        ensures { result ≡ is_push self.now }
    {
        self.0 % 4 == 3
    }

    /// The end that opened the stream.
    pub fn initiator(self) -> Side
        ensures { result ≡ initiator_of self }
    {
        if self.0 % 2 == 0 {
            Side::Client
        } else {
            Side::Server
        }
    }

    // Whether bytes go from the opener alone.
    fn is_unidirectional(self) -> bool
        ensures { result ≡ is_unidirectional self }
    {
        self.0 / 2 % 2 == 1
    }

    /// The place among the streams of the same opener and direction, from 0 to 2^60 - 1.
    pub fn index(self) -> u64
        ensures value { result ≡ index_of self }
        ensures bound { result < 2 ^ 60 }
    {
        self.0 >> 2
    }

    /// The number, below 2^62.
    pub fn into_inner(self) -> u64
        ensures value { result ≡ self }
        ensures bound { result < 2 ^ 62 }
    {
        self.0
    }
}

/// The number is no stream id: it is 2^62 or more.
#[derive(Debug, PartialEq, Drop)]
pub struct InvalidStreamId(pub u64);

impl TryFrom<u64> for StreamId {
    type Error = InvalidStreamId;

    ghost try_from_gives = { λ x r. Converts (λ e. e.0) x r };

    fn try_from(x: u64) -> Result<Self, InvalidStreamId> {
        if x < 1 << 62 {
            Ok(StreamId(x))
        } else {
            Err(InvalidStreamId(x))
        }
    }
}

impl From<VarInt> for StreamId {
    ghost from_gives = { λ x id. id ≡ x };

    fn from(x: VarInt) -> Self {
        StreamId(x.into_inner())
    }
}

impl From<StreamId> for VarInt {
    ghost from_gives = { λ id x. (x ≡ id) × (x < 2 ^ 62) };

    fn from(id: StreamId) -> VarInt {
        VarInt::from_u64_unchecked(id.0)
    }
}

impl From<SessionId> for StreamId {
    ghost from_gives = { λ session id. id ≡ session };

    fn from(session: SessionId) -> Self {
        StreamId(session.into_inner())
    }
}

impl Encode for StreamId {
    ghost encoding = { encoding };

    fn encode<B: BufMut>(&self, buf: &mut B) -> Result<(), WriteRefused> {
        buf.write_var(self.0)
    }
}

/// Adds to the index, and stops at the greatest one.
impl Add<usize> for StreamId {
    type Output = StreamId;

    ghost add_gives = { λ id n sum. sum ≡ after id n };

    fn add(self, rhs: usize) -> StreamId {
        let index = (self.0 >> 2).saturating_add(rhs as u64).min((1 << 60) - 1);
        StreamId(index * 4 + self.0 % 4)
    }
}

impl fmt::Display for StreamId {
    ghost output = { λ id. Some (stream_text id) };

    fn fmt<W: fmt::Write>(&self, f: &mut fmt::Formatter<W>) -> fmt::Result {
        let initiator = match self.initiator() {
            Side::Client => "client",
            Side::Server => "server",
        };
        let direction = if self.is_unidirectional() {
            "uni"
        } else {
            "bi"
        };
        let index = self.index();
        write!(f, "{initiator} {direction}directional stream {index}")
    }
}

impl fmt::Display for InvalidStreamId {
    ghost output = { λ e. Some (codes "invalid stream id: " ++ digits 16 false e.0) };

    fn fmt<W: fmt::Write>(&self, f: &mut fmt::Formatter<W>) -> fmt::Result {
        write!(f, "invalid stream id: {:x}", self.0)
    }
}

impl Error for InvalidStreamId {}

/// The type of a one-way stream, below 2^62. A contract sees it as its number.
#[derive(Clone, Copy, PartialEq, Eq, Debug)]
pub struct StreamType(u64);

impl Model for StreamType {
    ghost Value = { ℕ };

    ghost view = { λ v. v.0 };

    ghost invariant = { λ v. v.0 < 2 ^ 62 };

    ghost inverse = { λ n. record { 0 = n } };
}

impl StreamType {
    /// A control stream (RFC 9114, section 6.2.1).
    pub const CONTROL: StreamType = StreamType(0);

    /// A push stream (RFC 9114, section 6.2.2).
    pub const PUSH: StreamType = StreamType(1);

    /// A QPACK encoder stream (RFC 9204, section 4.2).
    pub const ENCODER: StreamType = StreamType(2);

    /// A QPACK decoder stream (RFC 9204, section 4.2).
    pub const DECODER: StreamType = StreamType(3);

    /// The signal value that begins a WebTransport stream in both directions.
    pub const WEBTRANSPORT_BIDI: StreamType = StreamType(0x41);

    /// A one-way WebTransport stream.
    pub const WEBTRANSPORT_UNI: StreamType = StreamType(0x54);

    /// The most bytes that the encoding of a type has.
    pub const MAX_ENCODED_SIZE: usize = VarInt::MAX_SIZE;

    /// The type of this number.
    pub fn from_value(value: u64) -> Self
        requires { value < 2 ^ 62 }
        ensures { result ≡ value }
    {
        StreamType(value)
    }

    /// Its number, below 2^62.
    pub fn value(&self) -> u64
        ensures value { result ≡ self.now }
        ensures bound { result < 2 ^ 62 }
    {
        self.0
    }

    /// A reserved type, which has no meaning (RFC 9114, section 6.2.3).
    pub fn grease(n: u64) -> Self
        requires { n < 0x210842108421083 }
        ensures { result ≡ reserved n }
    {
        StreamType(0x1f * n + 0x21)
    }
}

impl Encode for StreamType {
    ghost encoding = { encoding };

    fn encode<B: BufMut>(&self, buf: &mut B) -> Result<(), WriteRefused> {
        buf.write_var(self.0)
    }
}

impl Decode for StreamType {
    ghost is_encoding = { IsEncoding };

    ghost is_unfinished = { IsUnfinished };

    ghost one_encoding = { one_encoding };

    ghost finished = { finished };

    fn decode<B: Buf>(buf: &mut B) -> Result<Self, UnexpectedEnd> {
        Ok(StreamType(buf.get_var()?))
    }
}

impl Codec for StreamType {
    ghost is_value = { λ v. v < 2 ^ 62 };

    ghost encoding_is_valid = { encoding_is_valid };

    fn known(&self) {
        let _number = &self.0;
    }
}

impl fmt::Display for StreamType {
    ghost output = { λ v. Some (type_text v) };

    fn fmt<W: fmt::Write>(&self, f: &mut fmt::Formatter<W>) -> fmt::Result {
        match self.0 {
            0 => f.write_str("Control"),
            2 => f.write_str("Encoder"),
            3 => f.write_str("Decoder"),
            0x54 => f.write_str("WebTransportUni"),
            other => write!(f, "StreamType({other})"),
        }
    }
}
