//! Encoder and decoder instructions (RFC 9204, sections 4.3 and 4.4).
ghost use Rattle.std.specs.Prelude.{◌<◌, ◌≤◌, length};

use crate::case::Told;
use h3_field::SliceCursor;
use h3_field::stream::{
    DecoderInstruction, Duplicate, DynamicTableSizeUpdate, EncoderInstruction, HeaderAck,
    InsertCountIncrement, InsertWithNameRef, InsertWithoutNameRef, StreamCancel,
};

pub fn answer(told: &mut Told, command: &str, words: &[&str]) {
    match words {
        [digits] => {
            let bytes = told.bytes(*digits);
            read(told, command, &bytes);
        }
        [kind, number] => {
            let number = told.small(*number);
            put(told, *kind, number);
        }
        [kind, first, last] => {
            let value = told.text(*last);
            write(told, *kind, *first, &value);
        }
        _ => told.unreadable(),
    }
}

/// The encoder's instruction at the front, or the kinds that a first byte tells.
fn read(told: &mut Told, command: &str, bytes: &[u8]) {
    let alloc = told.alloc();
    let mut buf = SliceCursor::new(bytes);
    match command {
        "capacity" => told.with_rest(DynamicTableSizeUpdate::decode(&mut buf), buf.chunk()),
        "named" => told.with_rest(InsertWithNameRef::decode(alloc, &mut buf), buf.chunk()),
        "literal" => told.with_rest(InsertWithoutNameRef::decode(alloc, &mut buf), buf.chunk()),
        "duplicate" => told.with_rest(Duplicate::decode(&mut buf), buf.chunk()),
        "kind" => kind(told, bytes),
        _ => read_reply(told, command, bytes),
    }
}

/// The decoder's instruction at the front.
fn read_reply(told: &mut Told, command: &str, bytes: &[u8]) {
    let mut buf = SliceCursor::new(bytes);
    match command {
        "acknowledgment" => told.with_rest(HeaderAck::decode(&mut buf), buf.chunk()),
        "cancellation" => told.with_rest(StreamCancel::decode(&mut buf), buf.chunk()),
        "increment" => told.with_rest(InsertCountIncrement::decode(&mut buf), buf.chunk()),
        _ => told.unreadable(),
    }
}

fn kind(told: &mut Told, bytes: &[u8]) {
    match bytes {
        [first] => {
            told.debug(EncoderInstruction::decode(*first));
            told.then_debug(DecoderInstruction::decode(*first));
        }
        _ => told.unreadable(),
    }
}

/// An instruction of a number, or an insertion of an empty value.
fn put(told: &mut Told, kind: &str, number: usize)
    requires { number < 65536 }
{
    let mut out = Vec::new(told.alloc());
    match kind {
        "capacity" => told.done(DynamicTableSizeUpdate(number).encode(&mut out)),
        "duplicate" => told.done(Duplicate(number).encode(&mut out)),
        "acknowledgment" => told.done(HeaderAck(number as u64).encode(&mut out)),
        "cancellation" => told.done(StreamCancel(number as u64).encode(&mut out)),
        "increment" => told.done(InsertCountIncrement(number as u64).encode(&mut out)),
        _ => put_empty(told, kind, number, &mut out),
    }
    told.digits(&out);
}

fn put_empty(told: &mut Told, kind: &str, index: usize, out: &mut Vec<u8>)
    requires { index < 65536 }
{
    let value = Vec::new(told.alloc());
    match kind {
        "dynamic" => told.done(InsertWithNameRef::Dynamic { index, value }.encode(out)),
        "literal" => {
            let name = Vec::new(told.alloc());
            told.done(InsertWithoutNameRef { name, value }.encode(out));
        }
        _ => told.unreadable(),
    }
}

/// An insertion: an index or a name, and a value after it.
fn write(told: &mut Told, kind: &str, first: &str, value: &[u8])
    requires { length value.now ≤ 1000 }
{
    let mut out = Vec::new(told.alloc());
    if kind == "literal" {
        let name = told.text(first);
        told.done(InsertWithoutNameRef::write(&name, value, false, &mut out));
    } else {
        let index = told.small(first);
        write_named(told, kind, index, value, &mut out);
    }
    told.digits(&out);
}

fn write_named(told: &mut Told, kind: &str, index: usize, value: &[u8], out: &mut Vec<u8>)
    requires index { index < 65536 }
    requires value { length value.now ≤ 1000 }
{
    match kind {
        "static" => told.done(InsertWithNameRef::write_static(index, value, false, out)),
        "dynamic" => told.done(InsertWithNameRef::write_dynamic(index, value, false, out)),
        _ => told.unreadable(),
    }
}
