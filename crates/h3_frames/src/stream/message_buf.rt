//! The frames of a message that are to be sent.
ghost use Rattle.std.specs.Prelude.{◌≡◌, ◌-◌, ◌<◌, ◌≤◌, ◌^◌, [], length, drop, IfSome};
ghost use Rattle.bytes.specs.Unread.{IsChunkOf};
ghost use Rattle.h3_frames.specs.Encoded.{head_encoding};
ghost use Rattle.h3_frames.specs.Outgoing.{all_of, first_part};

use super::head::Head;
use crate::buf::Piece;
use crate::proto::frame::{FrameType, write_head};
use bytes::{Buf, Bytes};
use std::marker::Model;

// A type and a length.
const SIZE: usize = 16;

/// A DATA or HEADERS frame as the bytes that are to be sent: its type and length, which need no
/// memory, and then its payload, which is not copied. A queue of them is small: each has room for a
/// type and a length alone. A contract sees both parts.
#[derive(Drop)]
pub struct MessageBuf<B: Buf> {
    head: Head<SIZE>,
    position: usize,
    payload: B,
}

// A piece of a message that waits has at most 96 bytes beside its payload.
const _: () = prove!(size_of::<MessageBuf<Bytes>>() <= 96);

impl<B: Buf> Model for MessageBuf<B> {
    ghost use Rattle.std.specs.Prelude.{◌<◌, ◌≤◌, ◌^◌, length, drop};
    ghost use Rattle.h3_frames.specs.Outgoing.{Outgoing};

    ghost Value = { Outgoing };

    ghost view = { λ w. record { head = drop w.position w.head; payload = B.unread w.payload } };

    ghost invariant = { λ w. (w.position ≤ length w.head) × (length (B.unread w.payload) < 2 ^ 62) };
}

impl<B: Buf> MessageBuf<B> {
    /// A DATA frame (RFC 9114, section 7.2.1).
    pub fn data(payload: B) -> Self
        requires { length (B.unread payload) < 2 ^ 62 }
        ensures head { result.head ≡ head_encoding 0 (length (B.unread payload)) }
        ensures payload { result.payload ≡ B.unread payload }
    {
        MessageBuf::of_type(FrameType::DATA, payload)
    }

    /// A HEADERS frame with this encoded field section (RFC 9114, section 7.2.2).
    pub fn headers(section: B) -> Self
        requires { length (B.unread section) < 2 ^ 62 }
        ensures head { result.head ≡ head_encoding 1 (length (B.unread section)) }
        ensures payload { result.payload ≡ B.unread section }
    {
        MessageBuf::of_type(FrameType::HEADERS, section)
    }

    // A frame of this type.
    fn of_type(kind: FrameType, payload: B) -> Self
        requires { length (B.unread payload) < 2 ^ 62 }
        ensures head { result.head ≡ head_encoding kind (length (B.unread payload)) }
        ensures payload { result.payload ≡ B.unread payload }
    {
        let mut head = Head::new();
        // There is room for each type and length.
        let _written = write_head(kind, payload.remaining() as u64, &mut head);
        MessageBuf {
            head,
            position: 0,
            payload,
        }
    }
}

impl<B: Piece> MessageBuf<B> {
    /// What is to be sent first: the rest of type and length while there is some, and then all that is left of the payload.
    pub fn first_part(&self) -> &[u8]
        ensures { result.now ≡ first_part self.now }
    {
        if self.position < self.head.len() {
            return self.head.from(self.position);
        }
        self.payload.bytes()
    }

    /// The payload, if all of type and length was sent. It is what is to be sent first then.
    pub fn unsent_payload(&self) -> Option<&B>
        ensures { IfSome result (λ payload. B.unread payload.now ≡ first_part self.now) }
    {
        if self.position < self.head.len() {
            return None;
        }
        Some(&self.payload)
    }

    /// What is left of the payload, which is sent after type and length.
    pub fn payload(&self) -> &[u8]
        ensures { result.now ≡ self.now.payload }
    {
        let payload = &self.payload;
        payload.bytes()
    }

    /// What is left of type and length.
    pub fn head(&self) -> &[u8]
        ensures { result.now ≡ self.now.head }
    {
        let position = self.position;
        self.head.from(position)
    }
}

/// A chunk is the rest of type and length while there is some, and then bytes of the payload, as
/// the payload's own `chunk` lends them.
impl<B: Buf> Buf for MessageBuf<B> {
    ghost unread = { all_of };

    fn remaining(&self) -> usize {
        self.head.len() - self.position + self.payload.remaining()
    }

    fn chunk(&self) -> &[u8]
        ensures chunk { IsChunkOf result.now (all_of self.now) }
        ensures head { 0 < length self.now.head → result.now ≡ self.now.head }
        ensures payload { self.now.head ≡ [] → IsChunkOf result.now self.now.payload }
    {
        if self.position < self.head.len() {
            return self.head.from(self.position);
        }
        self.payload.chunk()
    }

    fn advance(&mut self, cnt: usize)
        requires { cnt ≤ length (all_of self.old) }
        ensures value { all_of self.new ≡ drop cnt (all_of self.old) }
        ensures head { self.new.head ≡ drop cnt self.old.head }
        ensures payload { self.new.payload ≡ drop (cnt - length self.old.head) self.old.payload }
    {
        let of_head = cnt.min(self.head.len() - self.position);
        self.position += of_head;
        self.payload.advance(cnt - of_head);
    }
}
