//! The ids of WebTransport sessions.
ghost use Rattle.std.specs.Prelude.{◌≡◌, ℕ, ◌^◌, ◌<◌};
ghost use Rattle.h3_coding.specs.Encodings.{IsEncoding, IsUnfinished, encoding};
ghost use Rattle.h3_coding.specs.EncodingLaws.{one_encoding, finished, encoding_is_valid};
ghost use Rattle.h3_proto.specs.Ids.{Converts};

use crate::stream::{InvalidStreamId, StreamId};
use bytes::{Buf, BufMut};
use h3_coding::coding::{BufExt, BufMutExt, Codec, Decode, Encode, UnexpectedEnd, WriteRefused};
use h3_coding::varint::VarInt;
use std::marker::Model;

/// The id of a WebTransport session, below 2^62: that of the stream of its CONNECT request. A
/// contract sees it as its number.
#[derive(Clone, Copy, PartialEq, Eq, PartialOrd, Ord, Hash, Debug)]
pub struct SessionId(u64);

impl Model for SessionId {
    ghost Value = { ℕ };

    ghost view = { λ v. v.0 };

    ghost invariant = { λ v. v.0 < 2 ^ 62 };

    ghost inverse = { λ n. record { 0 = n } };
}

impl SessionId {
    /// The session of the CONNECT stream of this id.
    pub fn from_varint(id: VarInt) -> SessionId
        ensures { result ≡ id }
    {
        SessionId(id.into_inner())
    }

    /// Its number, below 2^62.
    pub fn into_inner(self) -> u64
        ensures value { result ≡ self }
        ensures bound { result < 2 ^ 62 }
    {
        self.0
    }
}

impl TryFrom<u64> for SessionId {
    type Error = InvalidStreamId;

    ghost try_from_gives = { λ x r. Converts (λ e. e.0) x r };

    fn try_from(x: u64) -> Result<Self, InvalidStreamId> {
        if x < 1 << 62 {
            Ok(SessionId(x))
        } else {
            Err(InvalidStreamId(x))
        }
    }
}

impl From<StreamId> for SessionId {
    ghost from_gives = { λ stream id. id ≡ stream };

    fn from(stream: StreamId) -> Self {
        SessionId(stream.into_inner())
    }
}

impl Encode for SessionId {
    ghost encoding = { encoding };

    fn encode<B: BufMut>(&self, buf: &mut B) -> Result<(), WriteRefused> {
        buf.write_var(self.0)
    }
}

impl Decode for SessionId {
    ghost is_encoding = { IsEncoding };

    ghost is_unfinished = { IsUnfinished };

    ghost one_encoding = { one_encoding };

    ghost finished = { finished };

    fn decode<B: Buf>(buf: &mut B) -> Result<Self, UnexpectedEnd> {
        Ok(SessionId(buf.get_var()?))
    }
}

impl Codec for SessionId {
    ghost is_value = { λ v. v < 2 ^ 62 };

    ghost encoding_is_valid = { encoding_is_valid };

    fn known(&self) {
        let _number = &self.0;
    }
}
