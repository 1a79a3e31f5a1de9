//! Variable-length integers (RFC 9000, section 16).
use crate::case::Told;
use bytes::BytesMut;
use h3_coding::coding::{BufExt, BufMutExt};
use h3_coding::varint::VarInt;
use std::io::Cursor;

pub fn answer(told: &mut Told, command: &str, words: &[&str]) {
    match words {
        [] => alone(told, command),
        [word] => of_word(told, command, *word),
        _ => told.unreadable(),
    }
}

fn alone(told: &mut Told, command: &str) {
    match command {
        "fill" => fill(told),
        "texts" => texts(told),
        _ => told.unreadable(),
    }
}

fn of_word(told: &mut Told, command: &str, word: &str) {
    if command == "write" {
        let number = told.number(word);
        return write(told, number);
    }
    let bytes = told.bytes(word);
    read(told, command, &bytes);
}

/// A value and its encoding, or why there is none.
fn write(told: &mut Told, number: u64) {
    match VarInt::from_u64(number) {
        Ok(value) => encoded(told, value),
        Err(e) => told.debug(e),
    }
}

fn encoded(told: &mut Told, value: VarInt) {
    let mut out = BytesMut::new(told.alloc());
    told.done(value.encode(&mut out));
    told.digits(out.as_slice());
    told.labeled(" size", value.size());
}

/// A number, a value, or a byte at the front.
fn read(told: &mut Told, command: &str, bytes: &[u8]) {
    let mut from = bytes;
    match command {
        "read" => match from.get_var() {
            Ok(number) => told.with_rest(number, from),
            Err(e) => told.debug(e),
        },
        "value" => told.with_rest(BufExt::get::<VarInt>(&mut from), from),
        "byte" => told.with_rest(BufExt::get::<u8>(&mut from), from),
        _ => told.unreadable(),
    }
}

/// Into a room of three bytes: a number of four bytes, one of two, a byte, and one more.
fn fill(told: &mut Told) {
    let mut room = [0; 3];
    let mut out = Cursor::new(&mut room[..]);
    told.debug(out.write_var(16384));
    told.then_debug(out.write_var(64));
    told.then_debug(out.write(7u8));
    told.then_debug(out.write(7u8));
}

/// Half of 7, the default, and values of other types.
fn texts(told: &mut Told) {
    told.show(VarInt::from_u32(7) / 2);
    told.then_debug(VarInt::default());
    told.then_show(u64::from(VarInt::from(200u8)));
    told.then_debug(VarInt::try_from(5usize));
    told.then_debug(VarInt::from(5u16));
}
