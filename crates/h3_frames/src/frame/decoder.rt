//! Reading the frames of a buffer, one after another.
ghost use Rattle.std.specs.Prelude.{◌≡◌, ◌+◌, ◌<◌, ◌≤◌, ◌^◌, None, Some, Ok, false, true, length, IfOk, IfSome, IsNone, OnErr};
ghost use Rattle.std.specs.List.{concat};
ghost use Rattle.h3_frames.specs.declared.proto.frame.Frame.TheVariants as frame;
ghost use Rattle.h3_frames.specs.declared.frame.kinds.FrameKinds.{FrameKinds};
ghost use Rattle.h3_frames.specs.Frames.{Whole, frame_by, has_head, plain_frames, IsHeadersFrame};
ghost use Rattle.h3_frames.specs.Known.{Gives, Tries};
ghost use Rattle.h3_frames.specs.MessageFrames.{any_frame, as_frame};
ghost use Rattle.h3_frames.specs.Pieces.{IsRest, ending, first_size};
ghost use Rattle.h3_frames.specs.Tries.{Counts, Expects, counted, needed, one_more};
ghost use Rattle.h3_frames.specs.UnknownSize.{unknown_size};

use super::errors::{FrameProtocolError, FrameStreamError};
use super::kinds::FrameKinds;
use super::sparing::unknown_size;
use crate::buf::BufList;
use crate::proto::frame::{Frame, FrameError, FrameHead, PayloadLen, is_update_type, read_update};
use bytes::{Buf, Bytes};
use h3_coding::coding::BufExt;
use std::alloc::Global;
use std::marker::Model;

/// Reads frames off a buffer. It keeps how many bytes the next try needs, and how often the frame
/// at the front was tried.
#[derive(Drop)]
pub struct FrameDecoder {
    expected: Option<usize>,
    tries: u8,
}

impl Model for FrameDecoder {
    ghost use Rattle.std.specs.Prelude.{◌≤◌};
    ghost use Rattle.h3_frames.specs.Pieces.{IsRest, ending};
    ghost use Rattle.h3_frames.specs.Tries.{Decoding};

    ghost Value = { Decoding };

    ghost view = { λ d. record { expected = d.expected; tries = d.tries } };

    ghost invariant = { λ d. d.tries ≤ 17 };
}

impl Default for FrameDecoder {
    ghost is_default = { λ d. d ≡ record { expected = None; tries = 0 } };

    fn default() -> Self {
        FrameDecoder {
            expected: None,
            tries: 0,
        }
    }
}

/// A frame of which a message consists (RFC 9114, section 4.1), as it is read. It is small: `Frame` has room for settings.
#[derive(Drop)]
pub enum MessageFrame {
    /// The type and length of a DATA frame: so many bytes of payload follow.
    Data(PayloadLen),
    /// An encoded field section.
    Headers(Bytes),
}

// What a try of the front of a buffer gave.
#[derive(Drop)]
pub(crate) enum Tried {
    Frame(Frame<PayloadLen>),
    Unknown,
    Waits(usize),
    Refused(FrameProtocolError),
    OutOfMemory,
}

impl FrameDecoder {
    /// How often the frame under way was tried, or else the last one that was taken, an unknown one
    /// too: at most 17 times, and 0 before the first. A try does not count that ends because an
    /// allocation fails, or at a frame that is refused.
    pub fn tries(&self) -> u8
        ensures value { result ≡ self.now.tries }
        ensures bound { result ≤ 17 }
    {
        self.tries
    }

    // How many bytes the next try needs.
    pub(super) fn needed(&self) -> usize
        ensures { result ≡ needed self.now }
    {
        self.expected.unwrap_or(1)
    }

    // Counts a try, after which so many bytes are expected.
    pub(super) fn count(&mut self, expected: Option<usize>)
        requires { one_more self.old.expected self.old.tries ≤ 17 }
        ensures { self.new ≡ counted self.old expected }
    {
        self.tries = match self.expected {
            Some(_) => self.tries + 1,
            None => 1,
        };
        self.expected = expected;
    }

    // RFC 9114 9: unknown frames skipped
    /// Takes the next known frame, of DATA its type and length alone, and the unknown ones before
    /// it. Without a whole frame, and at an error, only unknown frames are taken. If a call
    /// answered no frame, the next one must find the bytes that it left, and may find more after
    /// them. After an allocation failed the call can be made again; a frame that was refused stays
    /// at the front and is refused again. (It stands in its callers, so that a frame in the first piece
    /// is read without room for the largest.)
    #[inline(always)]
    pub fn decode(
        &mut self,
        alloc: Global,
        src: &mut BufList<Bytes>,
    ) -> Result<Option<Frame<PayloadLen>>, FrameStreamError>
        requires expects { Expects plain_frames self.old (concat src.old.pieces) }
        ensures gives { Gives plain_frames result (concat src.old.pieces) (concat src.new.pieces) }
        ensures expects { Expects plain_frames self.new (concat src.new.pieces) }
        ensures fresh { IfOk result (λ o. IfSome o (λ f. self.new.expected ≡ None)) }
        ensures counts { Counts plain_frames self.old (concat src.old.pieces) result self.new }
        ensures pieces { src.new.pieces ≡ ending (length (concat src.new.pieces)) src.old.pieces }
    {
        self.decode_by(alloc, FrameKinds::PLAIN, src)
    }

    /// The same if frames of these kinds are known. What is expected of the front has to be expected of it whichever are known.
    #[inline(always)]
    pub(super) fn decode_by(
        &mut self,
        alloc: Global,
        kinds: FrameKinds,
        src: &mut BufList<Bytes>,
    ) -> Result<Option<Frame<PayloadLen>>, FrameStreamError>
        requires expects { Expects plain_frames self.old (concat src.old.pieces) }
        ensures gives { Gives kinds result (concat src.old.pieces) (concat src.new.pieces) }
        ensures expects { Expects kinds self.new (concat src.new.pieces) }
        ensures plain { OnErr result (Expects plain_frames self.new (concat src.new.pieces)) }
        ensures fresh { IfOk result (λ o. IfSome o (λ f. self.new.expected ≡ None)) }
        ensures counts { Counts kinds self.old (concat src.old.pieces) result self.new }
        ensures pieces { src.new.pieces ≡ ending (length (concat src.new.pieces)) src.old.pieces }
    {
        loop {
            if let Some(answer) = self.decode_first(src) {
                return Ok(any_frame(answer));
            }
            match decode_frame(alloc, kinds, src) {
                Tried::Frame(frame) => {
                    self.count(None);
                    return Ok(Some(frame));
                }
                Tried::Unknown => self.count(None),
                Tried::Waits(least) => {
                    self.count(Some(least));
                    return Ok(None);
                }
                Tried::Refused(e) => return Err(FrameStreamError::Proto(e)),
                Tried::OutOfMemory => return Err(FrameStreamError::OutOfMemory),
            }
        }
    }

    /// The same, if the next frame is HEADERS and lies in the first piece, or DATA whose type and length do, or if fewer bytes are there
    /// than the next try needs. Otherwise `None`, which changes nothing.
    #[inline(always)]
    pub(super) fn decode_first(&mut self, src: &mut BufList<Bytes>) -> Option<Option<MessageFrame>>
        requires expects { Expects plain_frames self.old (concat src.old.pieces) }
        ensures gives { (kinds : FrameKinds)
            → IfSome result (λ o. Gives kinds (Ok (any_frame o)) (concat src.old.pieces) (concat src.new.pieces)) }
        ensures expects { Expects plain_frames self.new (concat src.new.pieces) }
        ensures fresh { IfSome result (λ o. IfSome o (λ f. self.new.expected ≡ None)) }
        ensures counts { (kinds : FrameKinds)
            → IfSome result (λ o. Counts kinds self.old (concat src.old.pieces) (Ok (any_frame o)) self.new) }
        ensures none { IsNone result → (self.new ≡ self.old) × (src.new.pieces ≡ src.old.pieces) }
        ensures enough { IsNone result → needed self.old ≤ length (concat src.old.pieces) }
        ensures rest { IsRest src.old.pieces src.new.pieces }
    {
        if src.remaining() < self.needed() {
            return Some(None);
        }
        let frame = take_first(src)?;
        self.count(None);
        Some(Some(frame))
    }
}

// An answer of a message's frames as one of all frames.
#[inline(always)]
fn any_frame(answer: Option<MessageFrame>) -> Option<Frame<PayloadLen>>
    ensures { result ≡ any_frame answer }
{
    match answer {
        Some(MessageFrame::Data(len)) => Some(Frame::Data(len)),
        Some(MessageFrame::Headers(section)) => Some(Frame::Headers(section)),
        None => None,
    }
}

// Takes the type and length of a DATA frame, if they lie in the first piece, or a HEADERS frame that lies in it. The field section of that
// one is cut from the piece. `None` takes nothing.
#[inline(always)]
fn take_first(src: &mut BufList<Bytes>) -> Option<MessageFrame>
    ensures some { (kinds : FrameKinds)
        → IfSome result (λ f. frame_by kinds (concat src.old.pieces) ≡ Whole (as_frame f) (concat src.new.pieces)) }
    ensures whole { IfSome result (λ f. has_head (concat src.old.pieces) ≡ true) }
    ensures none { IsNone result → src.new.pieces ≡ src.old.pieces }
    ensures rest { IsRest src.old.pieces src.new.pieces }
{
    let bytes = src.first_bytes();
    let head = FrameHead::at_front(bytes)?;
    let len = head.number as usize;
    // the type of DATA
    if head.kind == 0 {
        src.advance_first(head.size);
        return Some(MessageFrame::Data(PayloadLen(len)));
    }
    let behind = bytes.len() - head.size;
    // the type of HEADERS
    if head.kind == 1 && len <= behind {
        let section = cut_section(src, head.size, len)?;
        return Some(MessageFrame::Headers(section));
    }
    None
}

// Cuts the field section of a HEADERS frame from the first piece, in which it lies. `None` takes
// nothing: an allocation failed.
#[inline(always)]
fn cut_section(src: &mut BufList<Bytes>, head: usize, size: usize) -> Option<Bytes>
    requires is { IsHeadersFrame (concat src.old.pieces) head size }
    requires inside { head + size ≤ first_size src.old.pieces }
    requires fits { head + size < 2 ^ 64 }
    ensures some { (kinds : FrameKinds)
        → IfSome result (λ s. frame_by kinds (concat src.old.pieces) ≡ Whole (frame.Headers s) (concat src.new.pieces)) }
    ensures none { IsNone result → src.new.pieces ≡ src.old.pieces }
    ensures rest { IsRest src.old.pieces src.new.pieces }
{
    match src.take_chunk(head + size) {
        Ok(Some(mut section)) => {
            section.advance(head);
            Some(section)
        }
        Ok(None) => unreachable!(),
        Err(_) => None,
    }
}

// Takes the frame at the front, an unknown one too. Anything else takes nothing.
fn decode_frame(alloc: Global, kinds: FrameKinds, src: &mut BufList<Bytes>) -> Tried
    ensures tries { Tries result (frame_by kinds (concat src.old.pieces)) (concat src.old.pieces) (concat src.new.pieces) }
    ensures few { has_head (concat src.old.pieces) ≡ false → length (concat src.old.pieces) < 16 }
    ensures rest { IsRest src.old.pieces src.new.pieces }
{
    match decode_update(alloc, kinds, src) {
        Some(tried) => tried,
        None => decode_known(alloc, kinds, src),
    }
}

// The same if it is no update.
fn decode_known(alloc: Global, kinds: FrameKinds, src: &mut BufList<Bytes>) -> Tried
    requires { frame_by kinds (concat src.old.pieces) ≡ frame_by (record kinds { updates = false }) (concat src.old.pieces) }
    ensures tries { Tries result (frame_by kinds (concat src.old.pieces)) (concat src.old.pieces) (concat src.new.pieces) }
    ensures few { has_head (concat src.old.pieces) ≡ false → length (concat src.old.pieces) < 16 }
    ensures rest { IsRest src.old.pieces src.new.pieces }
{
    match passed_size(src, kinds) {
        Some(size) => pass_unknown(src, size),
        None => decode_plain(alloc, src),
    }
}

// RFC 9218 7.2: PRIORITY_UPDATE, read whole
// If PRIORITY_UPDATE is known: takes such a frame at the front. One that is not whole is not taken. None, if it is no such frame, changes
// nothing.
#[tactic(auto, using(crate::specs::PieceLaws::rest_same, crate::proofs::Updates::without_updates, crate::proofs::Updates::without_kind, crate::proofs::Updates::without_number, crate::proofs::Updates::other_type))]
fn decode_update(alloc: Global, kinds: FrameKinds, src: &mut BufList<Bytes>) -> Option<Tried>
    ensures tries { IfSome result (λ tried. Tries tried (frame_by kinds (concat src.old.pieces)) (concat src.old.pieces)
        (concat src.new.pieces)) }
    ensures whole { IfSome result (λ tried. has_head (concat src.old.pieces) ≡ true) }
    ensures none { IsNone result
        → frame_by kinds (concat src.old.pieces) ≡ frame_by (record kinds { updates = false }) (concat src.old.pieces) }
    ensures same { IsNone result → src.new.pieces ≡ src.old.pieces }
    ensures rest { IsRest src.old.pieces src.new.pieces }
{
    if !kinds.updates {
        return None;
    }
    let mut cursor = src.cursor();
    let all = cursor.remaining();
    let Ok(kind) = cursor.get_var() else {
        return None;
    };
    if !is_update_type(kind) {
        return None;
    }
    let Ok(number) = cursor.get_var() else {
        return None;
    };
    let len = number as usize;
    let behind = cursor.remaining();
    if behind < len {
        return Some(Tried::Waits(all - behind + len));
    }
    match read_update(alloc, &mut cursor, kind, len) {
        Some(Ok(update)) => {
            let position = cursor.position();
            src.advance(position);
            Some(Tried::Frame(Frame::PriorityUpdate(update)))
        }
        Some(Err(_)) => Some(Tried::OutOfMemory),
        None => Some(Tried::Refused(FrameProtocolError::Malformed)),
    }
}

// If sessions are not known: how many bytes the unknown frame at the front has, one of type 0x41 among them, if its type and length came.
fn passed_size(src: &BufList<Bytes>, kinds: FrameKinds) -> Option<usize>
    ensures some { IfSome result (λ size. unknown_size kinds (concat src.now.pieces) ≡ Some size) }
    ensures none { IsNone result
        → frame_by (record kinds { updates = false }) (concat src.now.pieces) ≡ frame_by plain_frames (concat src.now.pieces) }
{
    if kinds.sessions {
        return None;
    }
    unknown_size(src, kinds)
}

// RFC 9114 9: unknown frames skipped
// Takes the unknown frame at the front, which has so many bytes. One that is not whole is not taken.
fn pass_unknown(src: &mut BufList<Bytes>, size: usize) -> Tried
    ensures tries { (kinds : FrameKinds) → unknown_size kinds (concat src.old.pieces) ≡ Some size
        → Tries result (frame_by kinds (concat src.old.pieces)) (concat src.old.pieces) (concat src.new.pieces) }
    ensures rest { IsRest src.old.pieces src.new.pieces }
{
    if src.remaining() < size {
        return Tried::Waits(size);
    }
    src.advance(size);
    Tried::Unknown
}

// The same as `decode_frame` if sessions are known.
#[tactic(auto, using(crate::specs::PieceLaws::rest_same))]
fn decode_plain(alloc: Global, src: &mut BufList<Bytes>) -> Tried
    ensures tries { Tries result (frame_by plain_frames (concat src.old.pieces)) (concat src.old.pieces) (concat src.new.pieces) }
    ensures few { has_head (concat src.old.pieces) ≡ false → length (concat src.old.pieces) < 16 }
    ensures rest { IsRest src.old.pieces src.new.pieces }
{
    let mut cursor = src.cursor();
    let decoded = Frame::decode(alloc, &mut cursor);
    let position = cursor.position();
    match decoded {
        Ok(frame) => {
            src.advance(position);
            Tried::Frame(frame)
        }
        Err(FrameError::UnknownFrame(_)) => {
            src.advance(position);
            Tried::Unknown
        }
        Err(FrameError::Incomplete(least)) => Tried::Waits(least),
        Err(FrameError::OutOfMemory) => Tried::OutOfMemory,
        Err(FrameError::Malformed) => Tried::Refused(FrameProtocolError::Malformed),
        Err(FrameError::UnsupportedFrame(kind)) => {
            Tried::Refused(FrameProtocolError::ForbiddenFrame(kind))
        }
        Err(FrameError::Settings(e)) => Tried::Refused(FrameProtocolError::Settings(e)),
        Err(FrameError::InvalidFrameValue) => {
            Tried::Refused(FrameProtocolError::InvalidFrameValue)
        }
        Err(FrameError::InvalidStreamId(e)) => {
            Tried::Refused(FrameProtocolError::InvalidStreamId(e))
        }
        Err(FrameError::InvalidPushId(e)) => Tried::Refused(FrameProtocolError::InvalidPushId(e)),
    }
}
