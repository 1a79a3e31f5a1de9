//! Frames (RFC 9114, section 7), as they are read and written.
ghost use Rattle.std.specs.Prelude.{◌≡◌, ℕ, ◌<◌, ◌^◌};
ghost use Rattle.h3_coding.specs.Encodings.{encoding};
ghost use Rattle.h3_proto.specs.Ids.{reserved};

use crate::proto::push::{InvalidPushId, PushId};
use crate::proto::stream::InvalidStreamId;
use crate::proto::webtransport::SessionId;
use bytes::{BufMut, Bytes};
use h3_coding::coding::{BufMutExt, Encode, UnexpectedEnd, WriteRefused};
use h3_coding::varint::VarInt;
use std::marker::Model;

mod decode;
mod encode;
mod head;
mod payload;
mod show;
mod update;

pub(crate) use encode::write_head;
pub use encode::{write_numbers, write_settings};
pub use h3_proto::frame::{SettingId, Settings, SettingsError};
pub(crate) use head::FrameHead;
pub use payload::{Lent, Payload, PayloadMut};
pub use update::PriorityUpdate;
pub(crate) use update::{is_update_type, read_update};

/// The type of a frame, below 2^62. A contract sees it as its number.
#[derive(Clone, Copy, PartialEq, Eq, Debug)]
pub struct FrameType(u64);

impl Model for FrameType {
    ghost Value = { ℕ };

    ghost view = { λ v. v.0 };

    ghost invariant = { λ v. v.0 < 2 ^ 62 };

    ghost inverse = { λ n. record { 0 = n } };
}

impl FrameType {
    /// Content of a message (RFC 9114, section 7.2.1).
    pub const DATA: FrameType = FrameType(0);

    /// An encoded field section (RFC 9114, section 7.2.2).
    pub const HEADERS: FrameType = FrameType(1);

    /// HTTP/2's PRIORITY, which HTTP/3 refuses (RFC 9114, section 7.2.8).
    pub const H2_PRIORITY: FrameType = FrameType(2);

    /// A push is not wanted (RFC 9114, section 7.2.3).
    pub const CANCEL_PUSH: FrameType = FrameType(3);

    /// The settings of a connection (RFC 9114, section 7.2.4).
    pub const SETTINGS: FrameType = FrameType(4);

    /// A promise of a push (RFC 9114, section 7.2.5).
    pub const PUSH_PROMISE: FrameType = FrameType(5);

    /// HTTP/2's PING, which HTTP/3 refuses.
    pub const H2_PING: FrameType = FrameType(6);

    /// The connection is shut down (RFC 9114, section 7.2.6).
    pub const GOAWAY: FrameType = FrameType(7);

    /// HTTP/2's WINDOW_UPDATE, which HTTP/3 refuses.
    pub const H2_WINDOW_UPDATE: FrameType = FrameType(8);

    /// HTTP/2's CONTINUATION, which HTTP/3 refuses.
    pub const H2_CONTINUATION: FrameType = FrameType(9);

    /// The greatest push id that may be used (RFC 9114, section 7.2.7).
    pub const MAX_PUSH_ID: FrameType = FrameType(13);

    /// The signal value that begins a WebTransport stream in both directions. It has no length.
    pub const WEBTRANSPORT_BI_STREAM: FrameType = FrameType(0x41);

    /// The priority of a response is another one from now on (RFC 9218, section 7.2).
    pub const PRIORITY_UPDATE: FrameType = FrameType(0xf0700);

    /// The same of a push.
    pub const PUSH_PRIORITY_UPDATE: FrameType = FrameType(0xf0701);

    /// A reserved type, which has no meaning (RFC 9114, section 7.2.8).
    pub fn grease(n: u64) -> Self
        requires { n < 0x210842108421083 }
        ensures { result ≡ reserved n }
    {
        FrameType(0x1f * n + 0x21)
    }
}

impl Encode for FrameType {
    ghost encoding = { encoding };

    fn encode<B: BufMut>(&self, buf: &mut B) -> Result<(), WriteRefused> {
        buf.write_var(self.0)
    }
}

/// How many bytes of payload follow the type and length of a DATA frame.
#[derive(Clone, Copy, Debug, PartialEq, Eq)]
pub struct PayloadLen(pub usize);

impl From<usize> for PayloadLen {
    ghost from_gives = { λ n len. len.0 ≡ n };

    fn from(len: usize) -> Self {
        PayloadLen(len)
    }
}

/// A promise of a push: its id, and the encoded field section of the request.
#[derive(PartialEq, Debug, Drop)]
pub struct PushPromise {
    id: PushId,
    encoded: Bytes,
}

impl Model for PushPromise {
    ghost use Rattle.h3_frames.specs.Promise.{Promise};

    ghost Value = { Promise };

    ghost view = { λ p. record { id = p.id; section = p.encoded } };

    ghost inverse = { λ p. record { id = p.id; encoded = p.section } };
}

impl PushPromise {
    /// The promise of a push of this id, with its encoded field section.
    pub fn new(id: PushId, encoded: Bytes) -> PushPromise
        ensures id { result.id ≡ id }
        ensures section { result.section ≡ encoded }
    {
        PushPromise { id, encoded }
    }

    /// The id of the push that is promised.
    pub fn id(&self) -> PushId
        ensures { result ≡ self.now.id }
    {
        self.id
    }
}

/// A frame. `B` stands for the payload of DATA: its bytes, or, of a frame that is read, how many
/// they are.
#[derive(Drop)]
pub enum Frame<B> {
    /// Content of a message (RFC 9114, section 7.2.1).
    Data(B),
    /// An encoded field section.
    Headers(Bytes),
    /// A push is canceled (RFC 9114, section 7.2.3).
    CancelPush(PushId),
    /// What an end announces (RFC 9114, section 7.2.4).
    Settings(Settings),
    /// A push is promised (RFC 9114, section 7.2.5).
    PushPromise(PushPromise),
    /// The priority of a response or of a push (RFC 9218, section 7.2).
    PriorityUpdate(PriorityUpdate),
    /// The id of a request or of a push.
    Goaway(VarInt),
    /// The greatest id that a push may have (RFC 9114, section 7.2.7).
    MaxPushId(PushId),
    /// The beginning of a WebTransport stream, which lasts to the stream's end.
    WebTransportStream(SessionId),
    /// A frame that has no meaning. It is written and never read.
    Grease(FrameType),
}

/// Why no frame was read.
#[derive(PartialEq, Debug, Drop)]
pub enum FrameError {
    /// The payload is longer or shorter than its fields.
    Malformed,
    /// A type of HTTP/2 that HTTP/3 refuses.
    UnsupportedFrame(u64),
    /// The type is not known. The frame was taken, and means nothing.
    UnknownFrame(u64),
    /// Kept for the names' sake: no frame gives it.
    InvalidFrameValue,
    /// The bytes end inside the frame; so many are needed for another try.
    Incomplete(usize),
    /// The settings are refused.
    Settings(SettingsError),
    /// Kept for the names' sake: an id of a frame is below 2^62.
    InvalidStreamId(InvalidStreamId),
    /// Kept for the names' sake: an id of a frame is below 2^62.
    InvalidPushId(InvalidPushId),
    /// There was no memory for the bytes that the frame carries.
    OutOfMemory,
}

impl From<SettingsError> for FrameError {
    ghost use Rattle.h3_frames.specs.declared.proto.frame.FrameError.TheVariants as error;

    ghost from_gives = { λ e f. f ≡ error.Settings e };

    fn from(e: SettingsError) -> Self {
        FrameError::Settings(e)
    }
}

impl From<UnexpectedEnd> for FrameError {
    ghost use Rattle.h3_frames.specs.declared.proto.frame.FrameError.TheVariants as error;

    ghost from_gives = { λ e f. f ≡ error.Incomplete e.0 };

    fn from(e: UnexpectedEnd) -> Self {
        FrameError::Incomplete(e.0)
    }
}

impl From<InvalidStreamId> for FrameError {
    ghost use Rattle.h3_frames.specs.declared.proto.frame.FrameError.TheVariants as error;

    ghost from_gives = { λ e f. f ≡ error.InvalidStreamId e };

    fn from(e: InvalidStreamId) -> Self {
        FrameError::InvalidStreamId(e)
    }
}

impl From<InvalidPushId> for FrameError {
    ghost use Rattle.h3_frames.specs.declared.proto.frame.FrameError.TheVariants as error;

    ghost from_gives = { λ e f. f ≡ error.InvalidPushId e };

    fn from(e: InvalidPushId) -> Self {
        FrameError::InvalidPushId(e)
    }
}
