//! Prefixed integers and strings (RFC 9204, section 4.1), and the Huffman code (RFC 7541, section 5.2).
ghost use Rattle.std.specs.Prelude.{◌≤◌, length};

use crate::case::Told;
use h3_field::prefix_string::{BitWindow, DecodeIter, HpackStringDecode, HpackStringEncode};
use h3_field::{SliceCursor, prefix_int, prefix_string};

pub fn answer(told: &mut Told, command: &str, words: &[&str]) {
    match words {
        [] => fixed(told, command),
        [word] => of_word(told, command, *word),
        _ => told.unreadable(),
    }
}

fn fixed(told: &mut Told, command: &str) {
    match command {
        "put" => integer(told),
        "window" => window(told),
        _ => told.unreadable(),
    }
}

fn of_word(told: &mut Told, command: &str, word: &str) {
    match command {
        "huffman" => {
            let plain = told.text(word);
            huffman(told, plain);
        }
        "write" => {
            let value = told.text(word);
            write(told, &value);
        }
        _ => {
            let bytes = told.bytes(word);
            of_bytes(told, command, bytes);
        }
    }
}

fn of_bytes(told: &mut Told, command: &str, bytes: Vec<u8>) {
    match command {
        "unhuffman" => match bytes.hpack_decode(told.alloc()) {
            Ok(items) => unhuffman(told, items),
            Err(_) => told.refused(),
        },
        _ => read(told, command, &bytes),
    }
}

/// The encoding of a string.
fn huffman(told: &mut Told, plain: Vec<u8>)
    requires { length plain.items ≤ 1000 }
{
    match plain.hpack_encode(told.alloc()) {
        Ok(encoded) => told.digits(&encoded),
        Err(_) => told.refused(),
    }
}

/// The string of an encoding, item by item.
fn unhuffman(told: &mut Told, items: DecodeIter) {
    let mut plain = Vec::new(told.alloc());
    let mut refused = false;
    for item in items {
        match item {
            Ok(byte) => told.done(plain.push(byte)),
            Err(_) => refused = true,
        }
    }
    if refused {
        told.say("refused");
    } else {
        told.say(str::from_utf8(&plain).unwrap_or("?"));
    }
}

/// A string with a length of five bits after the flag 1.
fn write(told: &mut Told, value: &[u8])
    requires { length value.now ≤ 1000 }
{
    let mut out = Vec::new(told.alloc());
    told.done(prefix_string::encode(6, 1, value, &mut out));
    told.digits(&out);
}

/// A string with a length of five bits, or an integer of five bits.
fn read(told: &mut Told, command: &str, bytes: &[u8]) {
    let alloc = told.alloc();
    let mut buf = SliceCursor::new(bytes);
    match command {
        "read" => told.with_rest(prefix_string::decode(alloc, 6, &mut buf), buf.chunk()),
        "integer" => told.with_rest(prefix_int::decode(5, &mut buf), buf.chunk()),
        _ => told.unreadable(),
    }
}

/// The integer 1337 in five bits, after the flags 2.
fn integer(told: &mut Told) {
    let mut out = Vec::new(told.alloc());
    told.done(prefix_int::encode(5, 2, 1337, &mut out));
    told.digits(&out);
}

/// A window of 4 bits after 13 bits, and the one from the same bit to the end of the byte.
fn window(told: &mut Told) {
    let mut window = BitWindow::new();
    window.forwards(13);
    window.forwards(4);
    told.debug(&window);
    told.then_debug(window.opposite_bit_window());
}
