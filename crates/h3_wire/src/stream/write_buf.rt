//! Bytes that are to be sent.
ghost use Rattle.std.specs.Prelude.{◌≡◌, ◌-◌, ◌<◌, ◌≤◌, ◌++◌, [], length, drop};
ghost use Rattle.bytes.specs.Unread.{IsChunkOf};
ghost use Rattle.h3_coding.specs.Encodings.{encoding};
ghost use Rattle.h3_frames.specs.Encoded.{HasLength};
ghost use Rattle.h3_frames.specs.Outgoing.{all_of, first_part, IsHead, IsFrameBehind};
ghost use Rattle.h3_wire.specs.StreamHeaders.{uni_encoding, bidi_encoding};

use super::headers::{BidiStreamHeader, UniStreamHeader, write_type};
use bytes::Buf;
use h3_coding::coding::Encode;
use h3_frames::buf::Piece;
use h3_frames::proto::frame::{Frame, Lent};
use h3_frames::proto::stream::StreamType;
use h3_frames::stream::Head;
use std::marker::Model;

// A stream type, and the longest front of a frame: type, length and eight settings.
const SIZE: usize = 152;

/// A frame, a stream's header or both, as the bytes that are to be sent. They are what is written
/// of them, which needs no memory, and then the payload that the frame carries, which is not
/// copied. A contract sees both parts.
#[derive(Drop)]
pub struct WriteBuf<B: Buf> {
    head: Head<SIZE>,
    position: usize,
    lent: Lent<B>,
}

impl<B: Buf> Model for WriteBuf<B> {
    ghost use Rattle.std.specs.Prelude.{◌<◌, ◌≤◌, ◌^◌, length, drop};
    ghost use Rattle.h3_frames.specs.Outgoing.{Outgoing};
    ghost use Rattle.h3_frames.specs.Lent.{lent_left};

    ghost Value = { Outgoing };

    ghost view = { λ w. record { head = drop w.position w.head; payload = lent_left B.unread w.lent } };

    ghost invariant = { λ w. (w.position ≤ length w.head) × (length (lent_left B.unread w.lent) < 2 ^ 62) };
}

impl<B: Buf> WriteBuf<B> {
    // These bytes, and no payload.
    fn alone(head: Head<SIZE>) -> Self
        ensures { IsHead head result }
    {
        WriteBuf {
            head,
            position: 0,
            lent: Lent::Nothing,
        }
    }
}

impl<B: Buf> From<StreamType> for WriteBuf<B> {
    ghost from_gives = { λ ty w. IsHead (encoding ty) w };

    fn from(ty: StreamType) -> Self {
        let mut head = Head::new();
        // There is room for all that a `Head` gets here.
        let _written = write_type(ty, &mut head);
        WriteBuf::alone(head)
    }
}

impl<B: Buf> From<UniStreamHeader> for WriteBuf<B> {
    ghost from_gives = { λ header w. IsHead (uni_encoding header) w };

    fn from(header: UniStreamHeader) -> Self {
        let mut head = Head::new();
        let _written = header.encode(&mut head);
        WriteBuf::alone(head)
    }
}

impl<B: Buf> From<BidiStreamHeader> for WriteBuf<B> {
    ghost from_gives = { λ header w. IsHead (bidi_encoding header) w };

    fn from(header: BidiStreamHeader) -> Self {
        let mut head = Head::new();
        let _written = header.encode(&mut head);
        WriteBuf::alone(head)
    }
}

/// A frame whose payload has 2^62 bytes or more has no encoding, and gives no bytes.
impl<B: Buf + Drop> From<Frame<B>> for WriteBuf<B> {
    ghost from_gives = { λ frame w. HasLength B.unread frame → IsFrameBehind B.unread [] frame w };

    fn from(frame: Frame<B>) -> Self {
        let mut head = Head::new();
        if !frame.has_length() {
            return WriteBuf::alone(head);
        }
        let _written = frame.encode_front(&mut head);
        WriteBuf {
            head,
            position: 0,
            lent: frame.into_lent(),
        }
    }
}

/// A frame whose payload has 2^62 bytes or more has no encoding, and gives no bytes.
impl<B: Buf + Drop> From<(StreamType, Frame<B>)> for WriteBuf<B> {
    ghost from_gives = { λ both w. HasLength B.unread both.1 → IsFrameBehind B.unread (encoding both.0) both.1 w };

    fn from((ty, frame): (StreamType, Frame<B>)) -> Self {
        let mut head = Head::new();
        if !frame.has_length() {
            return WriteBuf::alone(head);
        }
        let _written = write_type(ty, &mut head);
        let _written = frame.encode_front(&mut head);
        WriteBuf {
            head,
            position: 0,
            lent: frame.into_lent(),
        }
    }
}

impl<B: Piece> WriteBuf<B> {
    /// What is to be sent first: the rest of what was written while there is some, and then all
    /// that is left of the payload.
    pub fn first_part(&self) -> &[u8]
        ensures { result.now ≡ first_part self.now }
    {
        if self.position < self.head.len() {
            return self.head.from(self.position);
        }
        self.lent.bytes()
    }
}

/// A chunk is the rest of what was written while there is some, and then bytes of the payload, as
/// the payload's own `chunk` lends them.
impl<B: Buf> Buf for WriteBuf<B> {
    ghost unread = { all_of };

    fn remaining(&self) -> usize {
        self.head.len() - self.position + self.lent.remaining()
    }

    fn chunk(&self) -> &[u8]
        ensures chunk { IsChunkOf result.now (all_of self.now) }
        ensures head { 0 < length self.now.head → result.now ≡ self.now.head }
        ensures payload { self.now.head ≡ [] → IsChunkOf result.now self.now.payload }
    {
        if self.position < self.head.len() {
            return self.head.from(self.position);
        }
        self.lent.chunk()
    }

    fn advance(&mut self, cnt: usize)
        requires { cnt ≤ length (all_of self.old) }
        ensures value { all_of self.new ≡ drop cnt (all_of self.old) }
        ensures head { self.new.head ≡ drop cnt self.old.head }
        ensures payload { self.new.payload ≡ drop (cnt - length self.old.head) self.old.payload }
    {
        let of_head = cnt.min(self.head.len() - self.position);
        self.position += of_head;
        self.lent.advance(cnt - of_head);
    }
}
