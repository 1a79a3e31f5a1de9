//! A frame of a message that waits.
ghost use Rattle.std.specs.Prelude.{◌≡◌, ◌≤◌, ◌^◌, ◌<◌, ◌-◌, length, drop, IfSome};
ghost use Rattle.h3_connection.specs.WaitingPieces.{frame_piece, without_first};
ghost use Rattle.h3_frames.specs.Outgoing.{all_of, first_part};
ghost use Rattle.h3_outgoing.specs.Held.{Fronts, FrontsAt, front_of, held, past_of};
ghost use Rattle.h3_outgoing.specs.Copied.{Puts};

use crate::copying::{as_bytes, put_at, put_bytes, put_front};
use crate::held::HeldFrame;
use crate::section::{EncodedSection, HeadersFrame};
use bytes::{Buf, Bytes};
use h3_frames::stream::MessageBuf;
use std::marker::Model;

/// A HEADERS or DATA frame that waits. A contract sees what is left of its type and length, and of its payload.
#[derive(Drop)]
pub(crate) struct Frame {
    form: Form,
}

/// The place of a frame's bytes.
#[derive(Drop)]
pub(crate) enum Form {
    /// A HEADERS frame, in one piece.
    Headers(HeadersFrame),
    /// A DATA frame, whose payload is the body that was passed to send.
    Data(MessageBuf<Bytes>),
    /// A DATA frame, whose payload the caller holds.
    Held(HeldFrame),
}

// A short section takes no more room than a body does.
const _: () = prove!(size_of::<Frame>() == 80);

impl Model for Frame {
    ghost use Rattle.h3_frames.specs.Outgoing.{Outgoing};
    ghost use Rattle.h3_outgoing.specs.FrameForm.{frame_in};

    ghost Value = { Outgoing };

    ghost view = { λ f. frame_in f.form };
}

impl Frame {
    /// The HEADERS frame of a section (RFC 9114, section 7.2.2).
    pub(crate) fn headers(section: EncodedSection) -> Frame
        requires { length section < 2 ^ 61 }
        ensures value { result ≡ frame_piece 1 section }
        ensures size { length (all_of result) < 2 ^ 62 }
    {
        let headers = HeadersFrame::of(section);
        Frame {
            form: Form::Headers(headers),
        }
    }

    /// The DATA frame of a body (RFC 9114, section 7.2.1).
    pub(crate) fn data(body: Bytes) -> Frame
        requires { length body < 2 ^ 61 }
        ensures value { result ≡ frame_piece 0 body }
        ensures size { length (all_of result) < 2 ^ 62 }
    {
        let data = MessageBuf::data(body);
        Frame {
            form: Form::Data(data),
        }
    }

    /// The DATA frame of a payload of so many bytes, which the caller holds.
    pub(crate) fn held(len: usize) -> Frame
        requires { len < 2 ^ 61 }
        ensures value { result ≡ frame_piece 0 (held len) }
        ensures size { length (all_of result) < 2 ^ 62 }
    {
        let frame = HeldFrame::of(len);
        Frame {
            form: Form::Held(frame),
        }
    }

    /// How many bytes are left.
    pub(crate) fn remaining(&self) -> usize
        ensures { result ≡ length (all_of self.now) }
    {
        match &self.form {
            Form::Headers(frame) => frame.remaining(),
            Form::Data(frame) => frame.remaining(),
            Form::Held(frame) => frame.remaining(),
        }
    }

    /// What is left of the type and length, or else of the payload. Of one that the caller holds none is lent.
    pub(crate) fn first_part(&self) -> &[u8]
        ensures { result.now ≡ front_of (first_part self.now) }
    {
        match &self.form {
            Form::Headers(frame) => as_bytes(frame.first_part()),
            Form::Data(frame) => as_bytes(frame.first_part()),
            Form::Held(frame) => held_head(frame),
        }
    }

    /// What is left of the payload of a body that was passed to send, if its type and length were sent.
    pub(crate) fn body(&self) -> Option<&Bytes>
        ensures { IfSome result (λ body. body.now ≡ front_of (first_part self.now)) }
    {
        match &self.form {
            Form::Data(frame) => unsent_body(frame),
            Form::Headers(_) => None,
            Form::Held(_) => None,
        }
    }

    /// Copies what is left into a buffer from a place on: up to a payload that the caller holds, and as much as fits. Returns the place
    /// after it, how many bytes of that payload follow, and whether nothing more is to be copied after this frame.
    #[inline(always)]
    pub(crate) fn put(&self, at: usize, out: &mut [u8]) -> (usize, usize, bool)
        requires { at ≤ length out.old }
        ensures { FrontsAt (all_of self.now) at out.old result.0 result.1 result.2 out.new }
    {
        let (next, past) = self.put_from(at, out);
        (next, past, past > 0 || next == out.len())
    }

    // The same without whether more is to be copied.
    #[inline(always)]
    fn put_from(&self, at: usize, out: &mut [u8]) -> (usize, usize)
        requires { at ≤ length out.old }
        ensures copied { Puts (front_of (all_of self.now)) at out.old result.0 out.new }
        ensures past { result.1 ≡ past_of (drop (result.0 - at) (all_of self.now)) }
    {
        let (count, past) = self.put_front(&mut out[at..]);
        (at + count, past)
    }

    // The same to the front of a buffer: how many bytes, and how many of the payload follow.
    fn put_front(&self, out: &mut [u8]) -> (usize, usize)
        ensures { Fronts (all_of self.now) out.old out.new result.0 result.1 }
    {
        match &self.form {
            Form::Headers(frame) => (put_bytes(frame.bytes(), out), 0),
            Form::Data(frame) => (put_data(frame, out), 0),
            Form::Held(frame) => put_held(frame, out),
        }
    }

    /// Takes the first bytes of what is left.
    pub(crate) fn advance(&mut self, count: usize)
        requires { count ≤ length (all_of self.old) }
        ensures { self.new ≡ without_first count self.old }
    {
        match &mut self.form {
            Form::Headers(frame) => frame.advance(count),
            Form::Data(frame) => frame.advance(count),
            Form::Held(frame) => frame.advance(count),
        }
    }
}

// What is left of the payload, if type and length were sent.
#[tactic(auto, using(crate::specs::HeldLaws::front_bytes))]
fn unsent_body(frame: &MessageBuf<Bytes>) -> Option<&Bytes>
    ensures { IfSome result (λ body. body.now ≡ front_of (first_part frame.now)) }
{
    let Some(body) = frame.unsent_payload() else {
        return None;
    };
    // (for the proof: none of its bytes is one that the caller holds)
    let _bytes = as_bytes(body.as_slice());
    Some(body)
}

// Copies what is left of a DATA frame to the front of a buffer: its type and length, and then its payload.
fn put_data(frame: &MessageBuf<Bytes>, out: &mut [u8]) -> usize
    ensures { Fronts (all_of frame.now) out.old out.new result 0 }
{
    let of_head = put_front(as_bytes(frame.head()), out);
    put_at(as_bytes(frame.payload()), of_head, out)
}

// What is left of the type and length of a frame whose payload the caller holds.
fn held_head(frame: &HeldFrame) -> &[u8]
    ensures { result.now ≡ front_of (first_part frame.now) }
{
    // (for the proof: the payload is places)
    let _left = frame.left();
    as_bytes(frame.head())
}

// Copies it to the front of a buffer. Returns how many bytes fit, and how many bytes of the payload follow: 0 unless all of it fits.
fn put_held(frame: &HeldFrame, out: &mut [u8]) -> (usize, usize)
    ensures { Fronts (all_of frame.now) out.old out.new result.0 result.1 }
{
    let left = frame.left();
    let head = as_bytes(frame.head());
    let of_head = put_front(head, out);
    if of_head < head.len() {
        return (of_head, 0);
    }
    (of_head, left)
}
