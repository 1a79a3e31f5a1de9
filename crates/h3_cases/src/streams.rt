//! Streams of frames, over pieces of bytes.
ghost use Rattle.std.specs.Prelude.{◌≡◌, ◌<◌, ◌≤◌, ◌^◌, length, false};
ghost use Rattle.h3_wire.specs.Streams.{left, is_open};

use crate::case::Told;
use crate::feed::{Feed, Last};
use crate::memory;
use bytes::{Buf, Bytes};
use h3_frames::frame::FrameStreamError;
use h3_frames::proto::frame::{Frame, PayloadLen};
use h3_wire::frame::FrameStream;
use h3_wire::quic::{Poll, RecvStream};
use h3_wire::stream::{AcceptRecvStream, AcceptedRecvStream, BufRecvStream};

pub fn answer(told: &mut Told, command: &str, words: &[&str]) {
    match words {
        [] => fixed(told, command),
        [first] => of_word(told, command, *first),
        [first, later, last, digits, calls @ ..] => {
            let bytes = told.bytes(*digits);
            let feed = Feed {
                bytes: &bytes,
                first: told.small(*first),
                later: told.small(*later),
                last: ending(told, *last),
                alloc: told.alloc(),
            };
            of_feed(told, command, feed, calls);
        }
        _ => told.unreadable(),
    }
}

fn of_word(told: &mut Told, command: &str, word: &str) {
    if command == "section" {
        let first = told.small(word);
        return long_section(told, first);
    }
    let bytes = told.bytes(word);
    match command {
        "cuts" => cuts(told, &bytes),
        "tries" => memory::tries(told, &bytes),
        _ => told.unreadable(),
    }
}

/// What comes after the bytes.
fn ending(told: &mut Told, word: &str) -> Last {
    match word {
        "end" => Last::End,
        "nothing" => Last::Nothing,
        "reset" => Last::Reset,
        _ => {
            told.unreadable();
            Last::End
        }
    }
}

fn of_feed(told: &mut Told, command: &str, feed: Feed<'_>, calls: &[&str])
    requires { length feed.bytes.now < 2 ^ 62 }
{
    match command {
        "read" => read(told, feed),
        "poll" => polls(told, feed, calls),
        "accept" => accept(told, feed),
        "again" => memory::again(told, feed),
        _ => told.unreadable(),
    }
}

/// The frames of a stream and how it ended, and the bytes of all payloads.
fn read(told: &mut Told, feed: Feed<'_>)
    requires { length feed.bytes.now < 2 ^ 62 }
{
    let mut payload = Vec::new(told.alloc());
    read_all(told, feed, &mut payload);
    told.say(" payload ");
    told.digits(&payload);
}

fn read_all(told: &mut Told, feed: Feed<'_>, payload: &mut Vec<u8>)
    requires { length feed.bytes.now < 2 ^ 62 }
{
    let source = BufRecvStream::new(told.alloc(), feed);
    let mut stream = FrameStream::new(told.alloc(), source);
    read_on(told, &mut stream, payload);
}

fn read_on(told: &mut Told, stream: &mut FrameStream<Feed<'_>>, payload: &mut Vec<u8>)
    requires { length (left (λ f. f.bytes.now) stream.old) < 2 ^ 62 }
{
    for _ in 0..400u32 {
        let goes_on = if stream.has_data() {
            data(told, stream, payload)
        } else {
            frame(told, stream)
        };
        if !goes_on {
            return;
        }
    }
    told.say("no end");
}

/// Asks for the next frame, tells it, and answers whether there was one.
fn frame<S: RecvStream>(told: &mut Told, stream: &mut FrameStream<S>) -> bool
    requires closed { is_open stream.old.payload ≡ false }
    requires few { length (left S.rest stream.old) < 2 ^ 62 }
    ensures fewer { length (left S.rest stream.new) ≤ length (left S.rest stream.old) }
{
    tell_frame(told, &stream.poll_next())
}

fn tell_frame(
    told: &mut Told,
    polled: &Poll<Result<Option<Frame<PayloadLen>>, FrameStreamError>>,
) -> bool {
    match polled {
        Poll::Ready(Ok(Some(frame))) => {
            told.debug(frame);
            told.say(";");
            true
        }
        Poll::Ready(Ok(None)) => stops(told, "end"),
        Poll::Ready(Err(e)) => stops(told, error_text(e)),
        Poll::Pending => stops(told, "pending"),
    }
}

/// Tells how a stream stopped.
fn stops(told: &mut Told, how: &str) -> bool {
    told.say(how);
    false
}

/// Asks for the next bytes of a payload, and answers whether there were some.
fn data<S: RecvStream>(told: &mut Told, stream: &mut FrameStream<S>, payload: &mut Vec<u8>) -> bool
    requires few { length (left S.rest stream.old) < 2 ^ 62 }
    ensures fewer { length (left S.rest stream.new) ≤ length (left S.rest stream.old) }
{
    tell_data(told, &stream.poll_data(), payload)
}

fn tell_data(
    told: &mut Told,
    polled: &Poll<Result<Option<Bytes>, FrameStreamError>>,
    payload: &mut Vec<u8>,
) -> bool {
    match polled {
        Poll::Ready(Ok(Some(bytes))) => {
            told.done(payload.extend_from_slice(bytes.as_slice()));
            true
        }
        Poll::Ready(Ok(None)) => stops(told, "payload over"),
        Poll::Ready(Err(e)) => stops(told, error_text(e)),
        Poll::Pending => stops(told, "pending"),
    }
}

fn error_text(e: &FrameStreamError) -> &'static str {
    match e {
        FrameStreamError::Proto(_) => "refused",
        FrameStreamError::Quic(_) => "reset",
        FrameStreamError::UnexpectedEnd => "unexpected end",
        FrameStreamError::OutOfMemory => "out of memory",
    }
}

/// What single calls answer.
fn polls(told: &mut Told, feed: Feed<'_>, calls: &[&str])
    requires { length feed.bytes.now < 2 ^ 62 }
{
    let source = BufRecvStream::new(told.alloc(), feed);
    let mut stream = FrameStream::new(told.alloc(), source);
    poll_each(told, &mut stream, calls);
}

fn poll_each(told: &mut Told, stream: &mut FrameStream<Feed<'_>>, calls: &[&str])
    requires { length (left (λ f. f.bytes.now) stream.old) < 2 ^ 62 }
{
    for call in calls {
        poll(told, stream, *call);
    }
}

/// Asks for a frame, or else for a piece of a payload.
fn poll<S: RecvStream>(told: &mut Told, stream: &mut FrameStream<S>, call: &str)
    requires few { length (left S.rest stream.old) < 2 ^ 62 }
    ensures fewer { length (left S.rest stream.new) ≤ length (left S.rest stream.old) }
{
    if call == "frame" && !stream.has_data() {
        let _goes_on = frame(told, stream);
        return;
    }
    let mut piece = Vec::new(told.alloc());
    let _goes_on = data(told, stream, &mut piece);
    told.say("(");
    told.digits(&piece);
    told.say(")");
}

/// The stream by its type, and how many bytes after it were read, or why its type is not known.
fn accept(told: &mut Told, feed: Feed<'_>)
    requires { length feed.bytes.now < 2 ^ 62 }
{
    let mut stream = AcceptRecvStream::new(told.alloc(), feed);
    let polled = stream.poll_type();
    if stream.is_resolved() {
        tell_accepted(told, &stream.into_stream());
    } else {
        told.debug(polled);
    }
}

fn tell_accepted<S: RecvStream>(told: &mut Told, stream: &AcceptedRecvStream<S>) {
    match stream {
        AcceptedRecvStream::WebTransportUni(session, rest) => {
            told.debug(session);
            told.labeled(",", rest.remaining());
            told.say(" behind");
        }
        _ => told.say("another type"),
    }
}

/// What is read of the bytes that are cut in two, in every place: each answer that is not the one before.
fn cuts(told: &mut Told, bytes: &[u8])
    requires { length bytes.now < 2 ^ 62 }
{
    let mut before = String::new(told.alloc());
    for cut in 0..=bytes.len() {
        let now = cut_at(told, bytes, cut);
        tell_change(told, before, now.as_str());
        before = now;
    }
}

fn tell_change(told: &mut Told, before: String, now: &str) {
    if now != before.as_str() {
        told.say(now);
        told.say("; ");
    }
    drop(before);
}

fn cut_at(told: &mut Told, bytes: &[u8], cut: usize) -> String
    requires { length bytes.now < 2 ^ 62 }
{
    let feed = Feed {
        bytes,
        first: cut,
        later: 99,
        last: Last::End,
        alloc: told.alloc(),
    };
    let mut other = Told::new(told.alloc());
    read(&mut other, feed);
    told.taken(other)
}

fn fixed(told: &mut Told, command: &str) {
    match command {
        "body" => long_body(told),
        "print" => {
            let stream = three_bytes(told);
            told.debug(stream);
        }
        "parts" => {
            let stream = three_bytes(told);
            parts(told, stream);
        }
        _ => told.unreadable(),
    }
}

fn three_bytes(told: &Told) -> BufRecvStream<Feed<'static>> {
    let feed = Feed {
        bytes: b"abc",
        first: 9,
        later: 9,
        last: Last::End,
        alloc: told.alloc(),
    };
    BufRecvStream::new(told.alloc(), feed)
}

fn parts(told: &mut Told, stream: BufRecvStream<Feed<'_>>) {
    let (list, feed) = stream.into_parts();
    told.show(list.remaining());
    told.then_show(feed.bytes.len());
    drop(list);
}

/// The type and length of a frame, and so many times the bytes 0 to 9 after them.
fn long_frame(told: &mut Told, head: &[u8], tens: usize) -> Vec<u8> {
    let mut bytes = Vec::new(told.alloc());
    told.done(bytes.extend_from_slice(head));
    for _ in 0..tens {
        told.done(bytes.extend_from_slice(b"0123456789"));
    }
    bytes
}

/// A field section of 2,000 bytes, of which so many come first and then 700 at a time.
fn long_section(told: &mut Told, first: usize) {
    let bytes = long_frame(told, &[1, 0x47, 0xd0], 200);
    let feed = Feed {
        bytes: &bytes,
        first,
        later: 700,
        last: Last::End,
        alloc: told.alloc(),
    };
    section_of(told, feed);
}

fn section_of(told: &mut Told, feed: Feed<'_>) {
    let bytes = feed.bytes;
    if bytes.len() != 2003 {
        return told.say("another length");
    }
    let source = BufRecvStream::new(told.alloc(), feed);
    let mut stream = FrameStream::new(told.alloc(), source);
    let polled = stream.poll_next();
    let tries = stream.tries();
    drop(stream);
    tell_section(told, &polled, &bytes[3..], tries);
}

/// Whether the section is this one, and whether it was tried twice at most.
fn tell_section(
    told: &mut Told,
    polled: &Poll<Result<Option<Frame<PayloadLen>>, FrameStreamError>>,
    wanted: &[u8],
    tries: u8,
) {
    let Poll::Ready(Ok(Some(Frame::Headers(section)))) = polled else {
        return told.say("no field section");
    };
    told.labeled("same", section.as_slice() == wanted);
    told.labeled(", tries at most two", tries <= 2);
}

/// A body of 1,000,000 bytes in pieces of 16,384.
fn long_body(told: &mut Told) {
    let bytes = long_frame(told, &[0, 0x80, 0x0f, 0x42, 0x40], 100_000);
    let feed = Feed {
        bytes: &bytes,
        first: 16_384,
        later: 16_384,
        last: Last::End,
        alloc: told.alloc(),
    };
    body_of(told, feed);
}

/// What stands after the frame's type and length, which are five bytes; `None` unless it is 1,000,000 bytes.
fn body_behind_its_head(frame: &[u8]) -> Option<&[u8]> {
    if frame.len() != 1_000_005 {
        return None;
    }
    frame.get(5..)
}

/// How the body is read, and whether it comes out as it stands in the frame. (Reading asks for fewer bytes than 2^62.)
fn body_of(told: &mut Told, feed: Feed<'_>) {
    if feed.bytes.len() >= 1 << 62 {
        return told.say("another length");
    }
    let Some(body) = body_behind_its_head(feed.bytes) else {
        return told.say("another length");
    };
    let mut payload = Vec::new(told.alloc());
    read_all(told, feed, &mut payload);
    told.labeled(" same", payload.as_slice() == body);
}
