//! Frames as they are read and written (RFC 9114, section 7).
ghost use Rattle.std.specs.Prelude.{◌<◌};

use crate::case::Told;
use bytes::{Buf, Bytes, BytesMut};
use h3_coding::varint::VarInt;
use h3_frames::proto::config::Config;
use h3_frames::proto::frame::{Frame, FrameError, FrameType, PayloadLen, Settings, SettingsError};
use h3_frames::proto::push::PushId;
use h3_frames::proto::webtransport::SessionId;
use h3_wire::stream::WriteBuf;

pub fn answer(told: &mut Told, command: &str, words: &[&str]) {
    match words {
        [] => texts(told, command),
        [word] => {
            let bytes = told.bytes(*word);
            read(told, command, &bytes);
        }
        [kind, number] => {
            let number = told.small(*number);
            let frame = made(told, *kind, number);
            write(told, command, frame);
        }
        _ => told.unreadable(),
    }
}

/// The frame at the front, or the first two and the bytes after them; or what is written of a frame with these bytes.
fn read(told: &mut Told, command: &str, bytes: &[u8]) {
    let mut from = bytes;
    match command {
        "read" => next(told, &mut from),
        "two" => {
            next(told, &mut from);
            told.say("; ");
            next(told, &mut from);
            told.say("; rest ");
            told.digits(from);
        }
        "data" | "headers" => with_payload(told, command, bytes),
        _ => told.unreadable(),
    }
}

/// The text of the frame at the front, or of why there is no frame.
fn next(told: &mut Told, from: &mut &[u8]) {
    match Frame::<PayloadLen>::decode(told.alloc(), from) {
        Ok(frame) => told.debug(frame),
        Err(e) => told.show(e),
    }
}

/// A frame of this kind, with this number.
fn made(told: &mut Told, kind: &str, number: usize) -> Frame<Bytes>
    requires { number < 65536 }
{
    let id = VarInt::from_u32(number as u32);
    match kind {
        "cancel_push" => Frame::CancelPush(PushId::from(id)),
        "max_push_id" => Frame::MaxPushId(PushId::from(id)),
        "goaway" => Frame::Goaway(id),
        "webtransport" => Frame::WebTransportStream(SessionId::from_varint(id)),
        "reserved" => Frame::Grease(FrameType::grease(number as u64)),
        _ => of_settings(told, kind),
    }
}

/// The frame of no settings, or of those that an end announces which names none of its own.
fn of_settings(told: &mut Told, kind: &str) -> Frame<Bytes> {
    match kind {
        "no_settings" => Frame::Settings(Settings::default()),
        "settings" => announced(told),
        _ => {
            told.unreadable();
            Frame::Settings(Settings::default())
        }
    }
}

fn announced(told: &mut Told) -> Frame<Bytes> {
    match Config::default().with_grease(false).into_settings(0) {
        Ok(settings) => Frame::Settings(settings),
        Err(_) => {
            told.refused();
            Frame::Settings(Settings::default())
        }
    }
}

/// What is written of a frame, what is sent of it, or its text.
fn write(told: &mut Told, command: &str, frame: Frame<Bytes>) {
    match command {
        "send" => sent(told, WriteBuf::from(frame)),
        "write" => written(told, frame),
        "print" => told.debug(frame),
        _ => told.unreadable(),
    }
}

fn written(told: &mut Told, frame: Frame<Bytes>) {
    if frame.has_length() {
        let mut out = BytesMut::new(told.alloc());
        told.done(frame.encode(&mut out));
        told.digits(out.as_slice());
    } else {
        told.say("no length");
    }
}

/// What is written of a DATA or a HEADERS frame with this payload: its type and length, and the payload that the frame lends.
fn with_payload(told: &mut Told, command: &str, bytes: &[u8]) {
    match Bytes::copy_from_slice(told.alloc(), bytes) {
        Ok(payload) => both_parts(told, of_payload(command, payload)),
        Err(_) => told.refused(),
    }
}

fn of_payload(command: &str, payload: Bytes) -> Frame<Bytes> {
    if command == "data" {
        Frame::Data(payload)
    } else {
        Frame::Headers(payload)
    }
}

fn both_parts(told: &mut Told, frame: Frame<Bytes>) {
    if let Some(payload) = frame.payload() {
        told.digits(payload.chunk());
        told.say(" behind ");
    }
    written(told, frame);
}

/// The first bytes that are sent, and how many there are in all.
fn sent(told: &mut Told, sent: WriteBuf<Bytes>) {
    told.digits(sent.chunk());
    told.labeled(" of", sent.remaining());
}

/// Texts of errors that no frame gives, of settings that are refused, and of a DATA frame of three bytes.
fn texts(told: &mut Told, command: &str) {
    match command {
        "errors" => {
            told.show(FrameError::InvalidFrameValue);
            told.say("; ");
            told.show(FrameError::OutOfMemory);
        }
        "setting" => {
            let id = h3_proto::frame::SettingId(6);
            told.show(SettingsError::InvalidSettingValue(id, 7));
        }
        "data" => match Bytes::copy_from_slice(told.alloc(), b"hey") {
            Ok(bytes) => told.debug(Frame::Data(bytes)),
            Err(_) => told.refused(),
        },
        _ => told.unreadable(),
    }
}
