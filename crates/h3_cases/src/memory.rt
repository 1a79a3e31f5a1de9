//! Reading when allocations may fail: `rt try --fail-alloc N` over one of these lines refuses the Nth allocation. A
//! call that was out of memory took nothing, and is made again.
ghost use Rattle.std.specs.Prelude.{◌≡◌, ◌<◌, ◌≤◌, ◌^◌, length, false};
ghost use Rattle.h3_wire.specs.Streams.{left, is_open};

use crate::case::Told;
use crate::feed::Feed;
use bytes::Bytes;
use h3_frames::buf::BufList;
use h3_frames::frame::{FrameDecoder, FrameStreamError};
use h3_frames::proto::frame::{Frame, PayloadLen};
use h3_wire::frame::FrameStream;
use h3_wire::quic::{Poll, RecvStream};
use h3_wire::stream::BufRecvStream;
use std::alloc::{AllocError, Global};

/// The first bytes that were seen, with no memory of their own.
#[derive(Drop)]
struct Seen {
    bytes: [u8; 16],
    len: usize,
}

impl Seen {
    fn add(&mut self, bytes: &[u8]) {
        for byte in bytes {
            if self.len < 16 {
                self.bytes[self.len] = *byte;
                self.len += 1;
            }
        }
    }
}

/// The payloads of HEADERS and DATA, at most 16 bytes, and how the stream ended. It asks for memory at the end alone.
pub fn again(told: &mut Told, feed: Feed<'_>)
    requires { length feed.bytes.now < 2 ^ 62 }
{
    let mut seen = Seen {
        bytes: [0; 16],
        len: 0,
    };
    let source = BufRecvStream::new(told.alloc(), feed);
    let mut stream = FrameStream::new(told.alloc(), source);
    let how = read_all(&mut stream, &mut seen);
    shown(told, &seen, how);
}

fn shown(told: &mut Told, seen: &Seen, how: &str) {
    told.say(how);
    told.labeled(",", seen.len);
    told.say(": ");
    told.digits(&seen.bytes);
}

fn read_all(stream: &mut FrameStream<Feed<'_>>, seen: &mut Seen) -> &'static str
    requires { length (left (λ f. f.bytes.now) stream.old) < 2 ^ 62 }
{
    for _ in 0..50u32 {
        let stop = if stream.has_data() {
            see_data(stream, seen)
        } else {
            see_frame(stream, seen)
        };
        if let Some(how) = stop {
            return how;
        }
    }
    "no end"
}

fn see_data<S: RecvStream>(stream: &mut FrameStream<S>, seen: &mut Seen) -> Option<&'static str>
    requires few { length (left S.rest stream.old) < 2 ^ 62 }
    ensures fewer { length (left S.rest stream.new) ≤ length (left S.rest stream.old) }
{
    add_data(&stream.poll_data(), seen)
}

fn add_data(
    polled: &Poll<Result<Option<Bytes>, FrameStreamError>>,
    seen: &mut Seen,
) -> Option<&'static str> {
    match polled {
        Poll::Ready(Ok(Some(bytes))) => {
            seen.add(bytes.as_slice());
            None
        }
        Poll::Ready(Ok(None)) => Some("payload over"),
        Poll::Ready(Err(e)) => unless_memory(e, "an error inside a payload"),
        Poll::Pending => Some("pending inside a payload"),
    }
}

fn see_frame<S: RecvStream>(stream: &mut FrameStream<S>, seen: &mut Seen) -> Option<&'static str>
    requires closed { is_open stream.old.payload ≡ false }
    requires few { length (left S.rest stream.old) < 2 ^ 62 }
    ensures fewer { length (left S.rest stream.new) ≤ length (left S.rest stream.old) }
{
    add_frame(&stream.poll_next(), seen)
}

fn add_frame(
    polled: &Poll<Result<Option<Frame<PayloadLen>>, FrameStreamError>>,
    seen: &mut Seen,
) -> Option<&'static str> {
    match polled {
        Poll::Ready(Ok(Some(Frame::Headers(section)))) => {
            seen.add(section.as_slice());
            None
        }
        Poll::Ready(Ok(Some(_))) => None,
        Poll::Ready(Ok(None)) => Some("end"),
        Poll::Ready(Err(e)) => unless_memory(e, "an error"),
        Poll::Pending => Some("pending"),
    }
}

fn unless_memory(e: &FrameStreamError, how: &'static str) -> Option<&'static str> {
    match e {
        FrameStreamError::OutOfMemory => None,
        _ => Some(how),
    }
}

/// A copy, which is tried twice.
fn copied(alloc: Global, bytes: &[u8]) -> Result<Bytes, AllocError> {
    match Bytes::copy_from_slice(alloc, bytes) {
        Ok(copy) => Ok(copy),
        Err(_) => Bytes::copy_from_slice(alloc, bytes),
    }
}

/// A frame in one piece: whether it was read, and how often it was tried. If an allocation fails, no try is counted.
pub fn tries(told: &mut Told, bytes: &[u8]) {
    match copied(told.alloc(), bytes) {
        Ok(piece) => of_piece(told, piece),
        Err(_) => told.refused(),
    }
}

fn of_piece(told: &mut Told, piece: Bytes) {
    let mut buf = BufList::new(told.alloc());
    if buf.reserve().is_err() && buf.reserve().is_err() {
        told.refused();
    } else {
        buf.push_reserved(piece);
        decoded(told, &mut buf);
    }
}

fn decoded(told: &mut Told, buf: &mut BufList<Bytes>) {
    let alloc = told.alloc();
    let mut decoder = FrameDecoder::default();
    let mut refused = 0;
    let mut answer = decoder.decode(alloc, buf);
    if matches!(&answer, Err(FrameStreamError::OutOfMemory)) {
        refused = decoder.tries();
        answer = decoder.decode(alloc, buf);
    }
    let is_section = matches!(&answer, Ok(Some(Frame::Headers(_))));
    told.labeled("section", is_section);
    told.labeled(", tries", refused);
    told.labeled(" then", decoder.tries());
}
