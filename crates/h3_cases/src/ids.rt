//! Ids of streams, sessions and pushes, types of streams, and error codes.
use crate::case::Told;
use bytes::BytesMut;
use h3_coding::coding::{BufExt, BufMutExt};
use h3_coding::varint::VarInt;
use h3_proto::error::Code;
use h3_proto::frame::SettingId;
use h3_proto::push::PushId;
use h3_proto::stream::{Side, StreamId, StreamType};
use h3_proto::webtransport::SessionId;
use std::fmt;

pub fn answer(told: &mut Told, command: &str, words: &[&str]) {
    match words {
        [] => alone(told, command),
        [word] => of_word(told, command, *word),
        [first, second] => {
            let (first, second) = (told.number(*first), told.number(*second));
            of_two(told, command, first, second);
        }
        _ => told.unreadable(),
    }
}

fn of_word(told: &mut Told, command: &str, word: &str) {
    if command == "read" {
        let bytes = told.bytes(word);
        return read(told, &bytes);
    }
    let number = told.number(word);
    of_number(told, command, number);
}

fn alone(told: &mut Told, command: &str) {
    match command {
        "sides" => {
            told.show(Side::Client as u8);
            told.then_show(Side::Server as u8);
        }
        "types" => types(told),
        "reserved" => {
            told.show(StreamType::grease(1).value());
            told.then_debug(SettingId::grease(0));
        }
        "codes" => codes(told),
        _ => told.unreadable(),
    }
}

fn of_number(told: &mut Told, command: &str, number: u64) {
    match command {
        "stream" => stream(told, number),
        "session" => session(told, number),
        "push" => push(told, number),
        "code" => {
            let code = Code::from(number);
            told.show(code);
            told.then_debug(code);
            told.then_show(u64::from(code));
        }
        _ => told.unreadable(),
    }
}

/// An error in both forms.
pub fn refused<E: fmt::Debug + fmt::Display + Drop>(told: &mut Told, e: E) {
    told.debug(&e);
    told.say(": ");
    told.show(e);
}

/// What a stream's id tells.
fn stream(told: &mut Told, number: u64) {
    match StreamId::try_from(number) {
        Ok(id) => of_id(told, id),
        Err(e) => refused(told, e),
    }
}

fn of_id(told: &mut Told, id: StreamId) {
    told.show(VarInt::from(id));
    told.then_show(id);
    told.labeled(", request", id.is_request());
    told.labeled(", push", id.is_push());
    told.say(", by");
    told.then_debug(id.initiator());
    told.labeled(", index", id.index());
}

/// A session's id, as that of its stream, and back.
fn session(told: &mut Told, number: u64) {
    match SessionId::try_from(number) {
        Ok(session) => {
            let stream = StreamId::from(session);
            told.debug(session);
            told.then_show(stream.into_inner());
            told.then_show(SessionId::from(stream).into_inner());
        }
        Err(e) => refused(told, e),
    }
}

fn push(told: &mut Told, number: u64) {
    match PushId::try_from(number) {
        Ok(id) => {
            told.show(id);
            told.labeled(",", VarInt::from(id));
        }
        Err(e) => refused(told, e),
    }
}

fn of_two(told: &mut Told, command: &str, first: u64, second: u64) {
    match command {
        "sum" => {
            let id = stream_id(told, first) + second as usize;
            told.show(id.into_inner());
        }
        "write" => {
            let session = SessionId::from(stream_id(told, first));
            let stream = stream_id(told, second);
            write(told, session, stream);
        }
        _ => told.unreadable(),
    }
}

/// The id of a number below 2^62.
pub fn stream_id(told: &mut Told, number: u64) -> StreamId {
    match StreamId::try_from(number) {
        Ok(id) => id,
        Err(_) => {
            told.unreadable();
            StreamId::FIRST_REQUEST
        }
    }
}

/// The type and the session ID of a WebTransport stream, and a stream's id after them.
fn write(told: &mut Told, session: SessionId, stream: StreamId) {
    let mut out = BytesMut::new(told.alloc());
    told.done(out.write(StreamType::WEBTRANSPORT_UNI));
    told.done(out.write(session));
    told.done(out.write(stream));
    told.digits(out.as_slice());
}

/// A type and a session's id.
fn read(told: &mut Told, bytes: &[u8]) {
    let mut from = bytes;
    let kind = BufExt::get::<StreamType>(&mut from);
    let session = BufExt::get::<SessionId>(&mut from);
    told.with_rest((kind, session), from);
}

/// The types that have a name here.
fn types(told: &mut Told) {
    kind(told, StreamType::CONTROL);
    kind(told, StreamType::PUSH);
    kind(told, StreamType::ENCODER);
    kind(told, StreamType::DECODER);
    kind(told, StreamType::WEBTRANSPORT_UNI);
    kind(told, StreamType::WEBTRANSPORT_BIDI);
}

fn kind(told: &mut Told, kind: StreamType) {
    told.show(kind);
    told.then_show(kind.value());
    told.say(";");
}

/// Codes by their names, and whether one is a number.
fn codes(told: &mut Told) {
    let message = Code::H3_MESSAGE_ERROR;
    told.show(Code::H3_NO_ERROR);
    told.then_debug(Code::QPACK_DECOMPRESSION_FAILED);
    told.then_show(message.is(0x10e));
    told.then_show(message.is(0x10f));
    told.then_show(Code::H3_DATAGRAM_ERROR.value());
    told.then_show(Code::from(0x202) == Code::QPACK_DECODER_STREAM_ERROR);
}
