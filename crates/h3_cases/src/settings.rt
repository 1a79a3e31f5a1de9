//! Settings (RFC 9114, section 7.2.4).
use crate::case::Told;
use crate::ids::refused;
use bytes::{Bytes, BytesMut};
use h3_frames::proto::frame::{Frame, PayloadLen};
use h3_proto::config;
use h3_proto::config::Config;
use h3_proto::frame::{SettingId, Settings};
use std::io::Cursor;

pub fn answer(told: &mut Told, command: &str, words: &[&str]) {
    match command {
        "announce" => announce(told, words),
        "insert" => drop(filled(told, words)),
        "flags" => flags(told, words),
        "frame" => whole_frame(told, words),
        "room" => room(told, words),
        _ => match words {
            [first, more @ ..] => of_first(told, command, *first, more),
            _ => told.unreadable(),
        },
    }
}

fn of_first(told: &mut Told, command: &str, first: &str, more: &[&str]) {
    if command == "get" {
        let id = told.number(first);
        return get(told, id, more);
    }
    let payload = told.bytes(first);
    match command {
        "read" => read(told, &payload, more),
        "decode" => decode(told, &payload, more),
        "front" => front(told, &payload),
        _ => told.unreadable(),
    }
}

/// A configuration with one thing more.
fn with_word(told: &mut Told, config: Config, word: &str) -> Config {
    match word {
        "reserved" => config.with_grease(true),
        "connect" => config.with_extended_connect(true),
        "webtransport" => config.with_webtransport(true),
        "datagram" => config.with_datagram(true),
        _ => {
            let (name, value) = told.pair(word);
            let value = told.number(value);
            with_number(told, config, name, value)
        }
    }
}

fn with_number(told: &mut Told, config: Config, name: &str, value: u64) -> Config {
    match name {
        "section" => config.with_max_field_section_size(value),
        "sessions" => config.with_max_webtransport_sessions(value),
        _ => {
            told.unreadable();
            config
        }
    }
}

/// What an end of these words announces, or why it can't.
fn announce(told: &mut Told, words: &[&str]) {
    let mut config = Config::default().with_grease(false);
    for word in words {
        config = with_word(told, config, *word);
    }
    match config.into_settings(0) {
        Ok(settings) => announced(told, &settings),
        Err(e) => refused(told, e),
    }
}

fn announced(told: &mut Told, settings: &Settings) {
    let mut out = BytesMut::new(told.alloc());
    told.done(settings.write_payload(&mut out));
    payload(told, settings, out.as_slice());
}

/// The payload, its length, and whether it reads back as the settings.
fn payload(told: &mut Told, settings: &Settings, payload: &[u8]) {
    let mut from = payload;
    let same = Settings::read_payload(&mut from).is_ok_and(|read| read == *settings);
    told.digits(payload);
    told.labeled(" length", settings.payload_len());
    told.labeled(" same", same);
}

/// The values of these ids in a payload, or why it is refused.
fn read(told: &mut Told, payload: &[u8], ids: &[&str]) {
    let mut from = payload;
    match Settings::read_payload(&mut from) {
        Ok(settings) => values(told, &settings, ids),
        Err(e) => refused(told, e),
    }
}

fn values(told: &mut Told, settings: &Settings, ids: &[&str]) {
    for id in ids {
        let id = told.number(*id);
        told.debug(settings.get(SettingId(id)));
        told.say(" ");
    }
}

/// The values of these ids in a whole SETTINGS frame.
fn decode(told: &mut Told, frame: &[u8], ids: &[&str]) {
    let mut from = frame;
    match Frame::<PayloadLen>::decode(told.alloc(), &mut from) {
        Ok(Frame::Settings(settings)) => values(told, &settings, ids),
        Ok(frame) => told.debug(frame),
        Err(e) => told.show(e),
    }
}

/// The setting 1 of the first two bytes, and the bytes after them.
fn front(told: &mut Told, bytes: &[u8]) {
    if bytes.len() < 2 {
        return told.unreadable();
    }
    let mut from = bytes;
    match Settings::read_front(&mut from, 2) {
        Ok(settings) => told.with_rest(settings.get(SettingId(1)), from),
        Err(e) => refused(told, e),
    }
}

/// Settings into which pairs were inserted in turn, and what each insertion answered.
fn filled(told: &mut Told, pairs: &[&str]) -> Settings {
    let mut settings = Settings::default();
    for pair in pairs {
        insert(told, &mut settings, *pair);
    }
    settings
}

fn insert(told: &mut Told, settings: &mut Settings, word: &str) {
    let (id, value) = told.pair(word);
    let (id, value) = (told.number(id), told.number(value));
    match settings.insert(SettingId(id), value) {
        Ok(()) => told.say("ok"),
        Err(e) => refused(told, e),
    }
    told.say("; ");
}

/// Settings of pairs, and nothing of what each insertion answered.
fn of_pairs(told: &mut Told, pairs: &[&str]) -> Settings {
    let mut other = Told::new(told.alloc());
    let settings = filled(&mut other, pairs);
    drop(told.taken(other));
    settings
}

/// The value of an id among pairs.
fn get(told: &mut Told, id: u64, pairs: &[&str]) {
    let settings = of_pairs(told, pairs);
    told.debug(settings.get(SettingId(id)));
}

/// The SETTINGS frame of pairs, whole.
fn whole_frame(told: &mut Told, pairs: &[&str]) {
    let frame: Frame<Bytes> = Frame::Settings(of_pairs(told, pairs));
    if frame.has_length() {
        let mut out = BytesMut::new(told.alloc());
        told.done(frame.encode(&mut out));
        told.digits(out.as_slice());
    }
}

/// What a peer of these pairs allows.
fn flags(told: &mut Told, pairs: &[&str]) {
    let peer = config::Settings::from(&of_pairs(told, pairs));
    told.labeled("webtransport", peer.enable_webtransport());
    told.labeled(" datagram", peer.enable_datagram());
    told.labeled(" connect", peer.enable_extended_connect());
}

/// Pairs that are written into a room of one byte.
fn room(told: &mut Told, pairs: &[&str]) {
    let settings = of_pairs(told, pairs);
    let mut room = [0; 1];
    told.debug(settings.write_payload(&mut Cursor::new(&mut room[..])));
}
