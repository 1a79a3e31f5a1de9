//! What is sent: frames with a payload, stream headers, messages, and pieces of bytes.
ghost use Rattle.std.specs.Prelude.{◌≤◌, length};

use crate::case::Told;
use bytes::{Buf, Bytes};
use h3_coding::varint::VarInt;
use h3_frames::buf::BufList;
use h3_frames::proto::frame::{Frame, PushPromise};
use h3_frames::proto::push::PushId;
use h3_frames::proto::stream::StreamType;
use h3_frames::proto::webtransport::SessionId;
use h3_frames::stream::MessageBuf;
use h3_wire::stream::{BidiStreamHeader, UniStreamHeader, WriteBuf};

pub fn answer(told: &mut Told, command: &str, words: &[&str]) {
    match words {
        [] => alone(told, command),
        [first, more @ ..] => {
            let bytes = told.bytes(*first);
            of_bytes(told, command, &bytes, more);
        }
    }
}

fn alone(told: &mut Told, command: &str) {
    match command {
        "cursor" => cursor(told),
        _ => head(told, command),
    }
}

fn of_bytes(told: &mut Told, command: &str, bytes: &[u8], more: &[&str])
    requires { length bytes.now ≤ 1000 }
{
    if command == "pieces" {
        return pieces(told, bytes, more);
    }
    match Bytes::copy_from_slice(told.alloc(), bytes) {
        Ok(payload) => of_payload(told, command, payload, more),
        Err(_) => told.refused(),
    }
}

/// A message of one frame, or a frame after something else.
fn of_payload(told: &mut Told, command: &str, payload: Bytes, more: &[&str])
    requires { length payload ≤ 1000 }
{
    match command {
        "headers" => message(told, MessageBuf::headers(payload), more),
        "data" => message(told, MessageBuf::data(payload), more),
        _ => frame(told, command, payload, more),
    }
}

/// The header of a stream.
fn head(told: &mut Told, command: &str) {
    let session = SessionId::from_varint(VarInt::from_u32(5));
    match command {
        "uni" => first(
            told,
            WriteBuf::from(UniStreamHeader::WebTransportUni(session)),
        ),
        "bidi" => first(
            told,
            WriteBuf::from(BidiStreamHeader::WebTransportBidi(session)),
        ),
        "decoder" => first(told, WriteBuf::from(UniStreamHeader::Decoder)),
        "type" => parts(told, WriteBuf::from(StreamType::ENCODER), &[]),
        "goaway" => {
            let frame = Frame::Goaway(VarInt::from_u32(2));
            parts(told, WriteBuf::from((StreamType::ENCODER, frame)), &[]);
        }
        _ => told.unreadable(),
    }
}

fn first(told: &mut Told, sent: WriteBuf<Bytes>) {
    told.digits(sent.chunk());
}

/// The promise of push 134, or a DATA frame after the type of an encoder stream.
fn frame(told: &mut Told, command: &str, payload: Bytes, more: &[&str]) {
    match command {
        "promise" => {
            let promise = PushPromise::new(PushId::from(VarInt::from_u32(134)), payload);
            parts(told, WriteBuf::from(Frame::PushPromise(promise)), more);
        }
        "encoder" => {
            let frame = Frame::Data(payload);
            parts(told, WriteBuf::from((StreamType::ENCODER, frame)), more);
        }
        _ => told.unreadable(),
    }
}

/// How many bytes are sent; the first of them, and in turn those that are first once so many more are taken.
fn parts(told: &mut Told, mut sent: WriteBuf<Bytes>, counts: &[&str]) {
    told.show(sent.remaining());
    told.say(": ");
    told.digits(sent.chunk());
    for count in counts {
        let count = told.small(*count);
        behind(told, &mut sent, count);
    }
}

fn behind(told: &mut Told, sent: &mut WriteBuf<Bytes>, count: usize) {
    if count > sent.remaining() {
        told.unreadable();
    } else {
        sent.advance(count);
    }
    told.say(" then ");
    told.digits(sent.chunk());
}

/// How many bytes of a message are sent; and in turn the first part of them, of which so many are taken.
fn message(told: &mut Told, mut sent: MessageBuf<Bytes>, counts: &[&str]) {
    told.show(sent.remaining());
    told.say(":");
    for count in counts {
        let count = told.small(*count);
        part(told, &mut sent, count);
    }
}

/// The first part and the first chunk, of which so many bytes are taken.
fn part(told: &mut Told, sent: &mut MessageBuf<Bytes>, count: usize) {
    told.say(" ");
    told.digits(sent.first_part());
    told.say(" ");
    told.digits(sent.chunk());
    told.say(";");
    if count > sent.remaining() {
        told.unreadable();
    } else {
        sent.advance(count);
    }
}

/// Three integers that are taken from two pieces, for which room is made first, and how many bytes are left.
fn pieces(told: &mut Told, first: &[u8], more: &[&str]) {
    let [second] = more else {
        return told.unreadable();
    };
    let second = told.bytes(*second);
    let mut list = BufList::new(told.alloc());
    push(told, &mut list, first);
    push(told, &mut list, &second);
    taken(told, &mut list);
}

fn push(told: &mut Told, list: &mut BufList<Bytes>, piece: &[u8]) {
    if list.remaining() > 1000 || piece.len() > 1000 {
        return told.unreadable();
    }
    match Bytes::copy_from_slice(told.alloc(), piece) {
        Ok(piece) => match list.reserve() {
            Ok(()) => list.push_reserved(piece),
            Err(_) => told.refused(),
        },
        Err(_) => told.refused(),
    }
}

fn taken(told: &mut Told, list: &mut BufList<Bytes>) {
    told.debug(list.take_var());
    told.then_debug(list.take_var());
    told.then_debug(list.take_var());
    told.labeled(" left", list.remaining());
}

/// A cursor on a list of one piece, past two bytes and past all.
fn cursor(told: &mut Told) {
    let mut list = BufList::new(told.alloc());
    push(told, &mut list, &[1, 2, 3, 4]);
    moved(told, &list);
}

fn moved(told: &mut Told, list: &BufList<Bytes>) {
    let mut cursor = list.cursor();
    if cursor.remaining() != 4 {
        return told.say("another length");
    }
    told.say("4; ");
    cursor.advance(2);
    told.digits(cursor.chunk());
    told.then_show(cursor.remaining());
    cursor.advance(2);
    told.say("; ");
    told.digits(cursor.chunk());
    told.then_show(cursor.remaining());
    told.then_show(cursor.position());
    told.say("; ");
    told.show(list.remaining());
}
