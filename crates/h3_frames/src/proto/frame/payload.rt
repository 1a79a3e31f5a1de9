//! The bytes that a frame lends: the payload of DATA and HEADERS, and the field section of a
//! promise.
ghost use Rattle.std.specs.Prelude.{◌≡◌, ◌^◌, ◌<◌, length, IfSome, IsSome, ◌↔◌};
ghost use Rattle.h3_frames.specs.Encoded.{lent_of, HasLength};
ghost use Rattle.h3_frames.specs.Lent.{lends, lent_left, payload_left, payload_mut_left};

use super::Frame;
use crate::buf::Piece;
use bytes::{Buf, Bytes};

/// The bytes that a frame lends, to be read.
#[derive(Drop)]
pub enum Payload<'a, B> {
    /// The payload of DATA.
    Data(&'a B),
    /// An encoded field section, or what is left of bytes that were passed.
    Bytes(&'a [u8]),
}

/// The bytes that a frame lends, to be taken from it.
#[derive(Drop)]
pub enum PayloadMut<'a, B> {
    /// The payload of DATA.
    Data(&'a mut B),
    /// An encoded field section.
    Bytes(&'a mut Bytes),
}

/// The bytes that a frame lends, of a frame that is no longer there.
#[derive(Drop)]
pub enum Lent<B> {
    /// The frame lends none.
    Nothing,
    /// The payload of DATA.
    Data(B),
    /// An encoded field section.
    Bytes(Bytes),
}

impl<B: Buf> Frame<B> {
    /// The bytes that the frame lends, if it is DATA, HEADERS, PUSH_PROMISE or PRIORITY_UPDATE.
    pub fn payload(&self) -> Option<Payload<'_, B>>
        ensures value { IfSome result (λ p. payload_left B.unread p ≡ lent_of B.unread self.now) }
        ensures some { IsSome result ↔ lends self.now }
    {
        match self {
            Frame::Data(payload) => Some(Payload::Data(payload)),
            Frame::Headers(section) => Some(Payload::Bytes(section.as_slice())),
            Frame::PushPromise(promise) => Some(Payload::Bytes(promise.encoded.as_slice())),
            Frame::PriorityUpdate(update) => Some(Payload::Bytes(update.value())),
            _ => None,
        }
    }

    /// The same bytes, to be taken from the frame.
    pub fn payload_mut(&mut self) -> Option<PayloadMut<'_, B>>
        ensures value { IfSome result (λ p. payload_mut_left B.unread p ≡ lent_of B.unread self.old) }
        ensures some { IsSome result ↔ lends self.old }
    {
        match self {
            Frame::Data(payload) => Some(PayloadMut::Data(payload)),
            Frame::Headers(section) => Some(PayloadMut::Bytes(section)),
            Frame::PushPromise(promise) => Some(PayloadMut::Bytes(&mut promise.encoded)),
            Frame::PriorityUpdate(update) => Some(PayloadMut::Bytes(&mut update.value)),
            _ => None,
        }
    }

    /// The bytes that the frame lends, without the frame.
    pub fn into_lent(self) -> Lent<B>
    where
        B: Drop,
        requires { HasLength B.unread self }
        ensures value { lent_left B.unread result ≡ lent_of B.unread self }
        ensures bound { length (lent_left B.unread result) < 2 ^ 62 }
    {
        match self {
            Frame::Data(payload) => Lent::Data(payload),
            Frame::Headers(section) => Lent::Bytes(section),
            Frame::PushPromise(promise) => Lent::Bytes(promise.encoded),
            Frame::PriorityUpdate(update) => Lent::Bytes(update.value),
            _ => Lent::Nothing,
        }
    }
}

impl<B: Buf> Buf for Lent<B> {
    ghost unread = { lent_left B.unread };

    fn remaining(&self) -> usize {
        match self {
            Lent::Nothing => 0,
            Lent::Data(payload) => payload.remaining(),
            Lent::Bytes(bytes) => bytes.len(),
        }
    }

    fn chunk(&self) -> &[u8] {
        match self {
            Lent::Nothing => &[],
            Lent::Data(payload) => payload.chunk(),
            Lent::Bytes(bytes) => bytes.chunk(),
        }
    }

    fn advance(&mut self, cnt: usize) {
        match self {
            Lent::Nothing => {}
            Lent::Data(payload) => payload.advance(cnt),
            Lent::Bytes(bytes) => bytes.advance(cnt),
        }
    }
}

impl<B: Piece> Piece for Lent<B> {
    fn bytes(&self) -> &[u8] {
        match self {
            Lent::Nothing => &[],
            Lent::Data(payload) => payload.bytes(),
            Lent::Bytes(bytes) => bytes.as_slice(),
        }
    }
}

impl<B: Piece> Buf for Payload<'_, B> {
    ghost unread = { payload_left B.unread };

    fn remaining(&self) -> usize {
        match self {
            Payload::Data(payload) => payload.remaining(),
            Payload::Bytes(bytes) => bytes.len(),
        }
    }

    fn chunk(&self) -> &[u8] {
        match self {
            Payload::Data(payload) => payload.bytes(),
            Payload::Bytes(bytes) => *bytes,
        }
    }

    fn advance(&mut self, cnt: usize) {
        *self = match self {
            Payload::Data(payload) => Payload::Bytes(&payload.bytes()[cnt..]),
            Payload::Bytes(bytes) => Payload::Bytes(&bytes[cnt..]),
        };
    }
}

impl<B: Buf> Buf for PayloadMut<'_, B> {
    ghost unread = { payload_mut_left B.unread };

    fn remaining(&self) -> usize {
        match self {
            PayloadMut::Data(payload) => payload.remaining(),
            PayloadMut::Bytes(bytes) => bytes.len(),
        }
    }

    fn chunk(&self) -> &[u8] {
        match self {
            PayloadMut::Data(payload) => payload.chunk(),
            PayloadMut::Bytes(bytes) => bytes.chunk(),
        }
    }

    fn advance(&mut self, cnt: usize) {
        match self {
            PayloadMut::Data(payload) => payload.advance(cnt),
            PayloadMut::Bytes(bytes) => bytes.advance(cnt),
        }
    }
}
