//! How a frame is written (RFC 9114, section 7.1).
ghost use Rattle.std.specs.Prelude.{◌≡◌, ◌+◌, ◌<◌, ◌≤◌, ◌^◌, ◌++◌, ◌↔◌, length, IsTrue, OnOk, OnErr};
ghost use Rattle.h3_coding.specs.Encodings.{encoding};
ghost use Rattle.h3_coding.specs.Writing.{AppendsFront, UsesRoom};
ghost use Rattle.h3_proto.specs.Pairs.{payload_of};
ghost use Rattle.h3_frames.specs.Encoded.{head_encoding, frame_encoding, promise_payload, promise_front, front_of, written_of, HasLength};
ghost use Rattle.h3_frames.specs.Encoded.{HasNumbers};

use super::update::{write_update, write_update_front};
use super::{Frame, FrameType, PushPromise, Settings};
use bytes::{Buf, BufMut};
use h3_coding::coding::{BufMutExt, Encode, WriteRefused};
use h3_coding::varint::VarInt;

impl<B: Buf> Frame<B> {
    /// Appends the frame. Of DATA and HEADERS it appends type and length alone, and leaves the
    /// payload to the caller. The payload, which of PUSH_PROMISE has the id too, must be shorter
    /// than 2^62 bytes. An `Err` leaves a beginning of what is written.
    pub fn encode<W: BufMut>(&self, out: &mut W) -> Result<(), WriteRefused>
        requires { HasLength B.unread self.now }
        ensures ok { OnOk result (W.written out.new ≡ W.written out.old ++ written_of B.unread self.now) }
        ensures err { OnErr result (AppendsFront (written_of B.unread self.now) (W.written out.old) (W.written out.new)) }
        ensures room { UsesRoom result (W.spare out.old) (W.spare out.new) (length (written_of B.unread self.now)) }
    {
        match self {
            Frame::PushPromise(promise) => write_promise(promise, out),
            Frame::PriorityUpdate(update) => write_update(update, out),
            other => other.encode_front(out),
        }
    }

    /// Each number of the frame has an encoding. It does nothing: a proof that needs the fact calls it.
    pub(crate) fn known(&self)
        ensures { HasNumbers self.now }
    {
        match self {
            Frame::CancelPush(id) => {
                let _id = VarInt::from(*id);
            }
            Frame::Settings(settings) => {
                let _len = settings.payload_len();
            }
            Frame::PushPromise(promise) => {
                let _id = VarInt::from(promise.id);
            }
            Frame::PriorityUpdate(update) => {
                let _id = update.id().into_inner();
            }
            Frame::Goaway(id) => {
                let _id = id.into_inner();
            }
            Frame::MaxPushId(id) => {
                let _id = VarInt::from(*id);
            }
            Frame::WebTransportStream(id) => {
                let _id = id.into_inner();
            }
            Frame::Grease(kind) => {
                let _number = kind.0;
            }
            _ => {}
        }
    }

    /// Whether the length of the payload has an encoding, as `encode` requires: it is below 2^62.
    pub fn has_length(&self) -> bool
        ensures { IsTrue result ↔ HasLength B.unread self.now }
    {
        match self {
            Frame::Data(payload) => payload.remaining() <= MAX_LENGTH,
            Frame::Headers(section) => section.len() <= MAX_LENGTH,
            Frame::PushPromise(promise) => {
                promise.encoded.len() <= MAX_LENGTH - VarInt::from(promise.id).size()
            }
            Frame::PriorityUpdate(update) => {
                update.value().len() <= MAX_LENGTH - update.id().size()
            }
            _ => true,
        }
    }

    /// Appends what comes before the bytes that the frame lends: who sends those as they lie writes this alone.
    pub fn encode_front<W: BufMut>(&self, out: &mut W) -> Result<(), WriteRefused>
        requires { HasLength B.unread self.now }
        ensures ok { OnOk result (W.written out.new ≡ W.written out.old ++ front_of B.unread self.now) }
        ensures err { OnErr result (AppendsFront (front_of B.unread self.now) (W.written out.old) (W.written out.new)) }
        ensures room { UsesRoom result (W.spare out.old) (W.spare out.new) (length (front_of B.unread self.now)) }
        ensures short { length (front_of B.unread self.now) ≤ 144 }
    {
        match self {
            Frame::Data(payload) => write_head(FrameType::DATA, payload.remaining() as u64, out),
            Frame::Headers(section) => write_head(FrameType::HEADERS, section.len() as u64, out),
            Frame::CancelPush(id) => write_number(FrameType::CANCEL_PUSH, VarInt::from(*id), out),
            Frame::Settings(settings) => write_settings(settings, settings.payload_len(), out),
            Frame::PushPromise(promise) => write_promise_front(promise, out),
            Frame::PriorityUpdate(update) => write_update_front(update, out),
            Frame::Goaway(id) => write_number(FrameType::GOAWAY, *id, out),
            Frame::MaxPushId(id) => write_number(FrameType::MAX_PUSH_ID, VarInt::from(*id), out),
            Frame::WebTransportStream(id) => {
                write_head(FrameType::WEBTRANSPORT_BI_STREAM, id.into_inner(), out)
            }
            Frame::Grease(kind) => {
                write_head(*kind, GREASE.len() as u64, out)?;
                write_bytes(GREASE, out)
            }
        }
    }
}

// The greatest length that has an encoding.
const MAX_LENGTH: usize = (1 << 62) - 1;

// The payload of a frame that has no meaning.
const GREASE: &[u8] = b"grease";

/// Appends bytes, or none.
pub(super) fn write_bytes<W: BufMut>(bytes: &[u8], out: &mut W) -> Result<(), WriteRefused>
    ensures ok { OnOk result (W.written out.new ≡ W.written out.old ++ bytes.now) }
    ensures err { OnErr result (AppendsFront bytes.now (W.written out.old) (W.written out.new)) }
    ensures room { UsesRoom result (W.spare out.old) (W.spare out.new) (length bytes.now) }
{
    match out.put_slice(bytes) {
        Ok(()) => Ok(()),
        Err(_) => Err(WriteRefused),
    }
}

/// Appends two numbers: a type, and a length or a session id.
pub fn write_numbers<W: BufMut>(first: u64, second: u64, out: &mut W) -> Result<(), WriteRefused>
    requires first { first < 2 ^ 62 }
    requires second { second < 2 ^ 62 }
    ensures ok { OnOk result (W.written out.new ≡ W.written out.old ++ head_encoding first second) }
    ensures err { OnErr result (AppendsFront (head_encoding first second) (W.written out.old) (W.written out.new)) }
    ensures room { UsesRoom result (W.spare out.old) (W.spare out.new) (length (head_encoding first second)) }
    ensures short { length (head_encoding first second) ≤ 16 }
{
    out.write_var(first)?;
    out.write_var(second)
}

/// Appends type and length, or a type and a session id.
pub(crate) fn write_head<W: BufMut>(
    kind: FrameType,
    number: u64,
    out: &mut W,
) -> Result<(), WriteRefused>
    requires { number < 2 ^ 62 }
    ensures ok { OnOk result (W.written out.new ≡ W.written out.old ++ head_encoding kind number) }
    ensures err { OnErr result (AppendsFront (head_encoding kind number) (W.written out.old) (W.written out.new)) }
    ensures room { UsesRoom result (W.spare out.old) (W.spare out.new) (length (head_encoding kind number)) }
    ensures short { length (head_encoding kind number) ≤ 16 }
{
    write_numbers(kind.0, number, out)
}

// Appends a frame whose payload is one number.
fn write_number<W: BufMut>(kind: FrameType, number: VarInt, out: &mut W) -> Result<(), WriteRefused>
    ensures ok { OnOk result (W.written out.new ≡ W.written out.old ++ frame_encoding kind (encoding number)) }
    ensures err { OnErr result (AppendsFront (frame_encoding kind (encoding number)) (W.written out.old) (W.written out.new)) }
    ensures room { UsesRoom result (W.spare out.old) (W.spare out.new) (length (frame_encoding kind (encoding number))) }
    ensures short { length (frame_encoding kind (encoding number)) ≤ 24 }
{
    write_head(kind, number.size() as u64, out)?;
    number.encode(out)
}

/// Appends a SETTINGS frame, whose payload has `len` bytes.
pub fn write_settings<W: BufMut>(
    settings: &Settings,
    len: usize,
    out: &mut W,
) -> Result<(), WriteRefused>
    requires payload { len ≡ length (payload_of settings.now) }
    requires short { len ≤ 128 }
    ensures ok { OnOk result (W.written out.new ≡ W.written out.old ++ frame_encoding 4 (payload_of settings.now)) }
    ensures err { OnErr result (AppendsFront (frame_encoding 4 (payload_of settings.now)) (W.written out.old) (W.written out.new)) }
    ensures room { UsesRoom result (W.spare out.old) (W.spare out.new) (length (frame_encoding 4 (payload_of settings.now))) }
    ensures short { length (frame_encoding 4 (payload_of settings.now)) ≤ 144 }
{
    write_head(FrameType::SETTINGS, len as u64, out)?;
    settings.write_payload(out)
}

// Appends a promise up to its field section.
fn write_promise_front<W: BufMut>(promise: &PushPromise, out: &mut W) -> Result<(), WriteRefused>
    requires { length (promise_payload promise.now) < 2 ^ 62 }
    ensures ok { OnOk result (W.written out.new ≡ W.written out.old ++ promise_front promise.now) }
    ensures err { OnErr result (AppendsFront (promise_front promise.now) (W.written out.old) (W.written out.new)) }
    ensures room { UsesRoom result (W.spare out.old) (W.spare out.new) (length (promise_front promise.now)) }
    ensures short { length (promise_front promise.now) ≤ 24 }
{
    let id = VarInt::from(promise.id);
    let len = id.size() + promise.encoded.len();
    write_head(FrameType::PUSH_PROMISE, len as u64, out)?;
    id.encode(out)
}

// Appends a promise.
fn write_promise<W: BufMut>(promise: &PushPromise, out: &mut W) -> Result<(), WriteRefused>
    requires { length (promise_payload promise.now) < 2 ^ 62 }
    ensures ok { OnOk result (W.written out.new ≡ W.written out.old ++ frame_encoding 5 (promise_payload promise.now)) }
    ensures err { OnErr result (AppendsFront (frame_encoding 5 (promise_payload promise.now)) (W.written out.old) (W.written out.new)) }
    ensures room { UsesRoom result (W.spare out.old) (W.spare out.new) (length (frame_encoding 5 (promise_payload promise.now))) }
{
    write_promise_front(promise, out)?;
    write_bytes(promise.encoded.as_slice(), out)
}
