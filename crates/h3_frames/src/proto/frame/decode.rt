//! How a frame is read (RFC 9114, section 7.1).
ghost use Rattle.std.specs.Prelude.{◌≡◌, ◌^◌, ◌<◌, ◌≤◌, false, [], length, take, drop, IfOk, IfErr, IfSome, OnErr, Some};
ghost use Rattle.h3_coding.specs.Varint.{varint_at};
ghost use Rattle.h3_frames.specs.Frames.{frame_at, frame_of, has_head, BeginsWithHead, Decodes, IsNoNumber, TakesFront};
ghost use Rattle.h3_frames.specs.declared.proto.frame.FrameError.TheVariants as error;

use super::{Frame, FrameError, FrameType, PayloadLen, PushPromise, Settings};
use crate::proto::push::PushId;
use crate::proto::webtransport::SessionId;
use bytes::Buf;
use h3_coding::coding::BufExt;
use h3_coding::varint::VarInt;
use std::alloc::Global;

impl Frame<PayloadLen> {
    /// The most bytes, and more, that a stream type and a frame's type and length after it have,
    /// with one number for the frame's payload or with none.
    pub const MAX_ENCODED_SIZE: usize = VarInt::MAX_SIZE * 7;

    /// Takes a frame from the front, of DATA its type and length alone. An unknown frame is taken
    /// too, and is an `Err`. Any other `Err` leaves the buffer with a front of its bytes taken.
    /// `Incomplete` comes before every other error. Only the payload of HEADERS and the field
    /// section of PUSH_PROMISE need memory.
    pub fn decode<B: Buf>(alloc: Global, buf: &mut B) -> Result<Self, FrameError>
        ensures decodes { Decodes result (frame_at (B.unread buf.old)) (B.unread buf.new) }
        ensures front { OnErr result (TakesFront (B.unread buf.old) (B.unread buf.new)) }
        ensures few { has_head (B.unread buf.old) ≡ false → length (B.unread buf.old) < 16 }
        ensures kept { B.kept buf.new ≡ B.kept buf.old }
    {
        let remaining = buf.remaining();
        let Ok(kind) = buf.get_var() else {
            return Err(FrameError::Incomplete(remaining + 1));
        };
        let Ok(number) = buf.get_var() else {
            return Err(FrameError::Incomplete(remaining + 1));
        };
        let kind = FrameType(kind);
        if kind == FrameType::WEBTRANSPORT_BI_STREAM {
            return Ok(Frame::WebTransportStream(SessionId::from_varint(VarInt::from_u64_unchecked(
                number,
            ))));
        }
        let len = number as usize;
        if kind == FrameType::DATA {
            return Ok(Frame::Data(PayloadLen(len)));
        }
        let behind = buf.remaining();
        if behind < len {
            return Err(FrameError::Incomplete(remaining - behind + len));
        }
        read_payload(alloc, buf, kind, len)
    }
}

// RFC 9114 7.1: a payload that is one number
// Takes a payload that is one number.
#[tactic(auto, using(crate::proofs::Fronts::front_within))]
fn read_number<B: Buf>(buf: &mut B, len: usize) -> Result<VarInt, FrameError>
    requires { len ≤ length (B.unread buf.old) }
    ensures ok { IfOk result (λ n. (varint_at (take len (B.unread buf.old)) ≡ Some (n, []))
        × (B.unread buf.new ≡ drop len (B.unread buf.old))) }
    ensures err { IfErr result (λ e. (e ≡ error.Malformed) × IsNoNumber (varint_at (take len (B.unread buf.old)))) }
    ensures front { OnErr result (TakesFront (B.unread buf.old) (B.unread buf.new)) }
    ensures kept { B.kept buf.new ≡ B.kept buf.old }
{
    let Some((number, left)) = buf.get_var_within(len) else {
        return Err(FrameError::Malformed);
    };
    if left > 0 {
        return Err(FrameError::Malformed);
    }
    Ok(VarInt::from_u64_unchecked(number))
}

// RFC 9114 7.2.8: frame types of HTTP/2
// Takes the payload of a frame of this type.
#[tactic(auto, unfolding(crate::specs::Frames::frame_of))]
fn read_payload<B: Buf>(
    alloc: Global,
    buf: &mut B,
    kind: FrameType,
    len: usize,
) -> Result<Frame<PayloadLen>, FrameError>
    requires { len ≤ length (B.unread buf.old) }
    ensures decodes { Decodes result (frame_of kind (take len (B.unread buf.old)) (drop len (B.unread buf.old))) (B.unread buf.new) }
    ensures front { OnErr result (TakesFront (B.unread buf.old) (B.unread buf.new)) }
    ensures kept { B.kept buf.new ≡ B.kept buf.old }
{
    match kind {
        FrameType::HEADERS => match buf.copy_to_bytes(alloc, len) {
            Ok(section) => Ok(Frame::Headers(section)),
            Err(_) => Err(FrameError::OutOfMemory),
        },
        FrameType::CANCEL_PUSH => match read_number(buf, len) {
            Ok(id) => Ok(Frame::CancelPush(PushId::from(id))),
            Err(e) => Err(e),
        },
        FrameType::SETTINGS => match Settings::read_front(buf, len) {
            Ok(settings) => Ok(Frame::Settings(settings)),
            Err(e) => Err(FrameError::Settings(e)),
        },
        FrameType::PUSH_PROMISE => {
            let Some((id, left)) = buf.get_var_within(len) else {
                return Err(FrameError::Malformed);
            };
            let id = PushId::from(VarInt::from_u64_unchecked(id));
            match buf.copy_to_bytes(alloc, left) {
                Ok(section) => Ok(Frame::PushPromise(PushPromise::new(id, section))),
                Err(_) => Err(FrameError::OutOfMemory),
            }
        }
        FrameType::GOAWAY => match read_number(buf, len) {
            Ok(id) => Ok(Frame::Goaway(id)),
            Err(e) => Err(e),
        },
        FrameType::MAX_PUSH_ID => match read_number(buf, len) {
            Ok(id) => Ok(Frame::MaxPushId(PushId::from(id))),
            Err(e) => Err(e),
        },
        FrameType::H2_PRIORITY
        | FrameType::H2_PING
        | FrameType::H2_WINDOW_UPDATE
        | FrameType::H2_CONTINUATION => Err(FrameError::UnsupportedFrame(kind.0)),
        _ => {
            buf.advance(len);
            Err(FrameError::UnknownFrame(kind.0))
        }
    }
}
