//! Whole field sections without a dynamic table, and the fields that they are of.
use crate::case::Told;
use h3_field::{
    Decoded, DecoderError, EncoderError, Fields, HeaderField, SliceCursor, decode_stateless,
    dynamic, encode_stateless, prefix_int, section_size, vas,
};
use std::borrow::CowSlice;

pub fn answer(told: &mut Told, command: &str, words: &[&str]) {
    if command == "write" {
        return write(told, words);
    }
    match words {
        [] => errors(told, command),
        [first, second] => of_two(told, command, *first, *second),
        _ => told.unreadable(),
    }
}

fn of_two(told: &mut Told, command: &str, first: &str, second: &str) {
    if command == "read" {
        let limit = told.number(first);
        let section = told.bytes(second);
        return read(told, limit, &section);
    }
    let name = told.text(first);
    let value = told.text(second);
    of_field(told, command, field(name, value));
}

/// A field of bytes of its own.
pub fn field(name: Vec<u8>, value: Vec<u8>) -> HeaderField {
    HeaderField::new(CowSlice::Owned(name), CowSlice::Owned(value))
}

/// The fields of words `name=value`.
pub fn fields(told: &mut Told, words: &[&str]) -> Vec<HeaderField> {
    let mut fields = Vec::new(told.alloc());
    for word in words {
        push(told, &mut fields, *word);
    }
    fields
}

fn push(told: &mut Told, fields: &mut Vec<HeaderField>, word: &str) {
    let (name, value) = told.pair(word);
    let name = told.decoded(name);
    let value = told.decoded(value);
    told.done(fields.push(field(name, value)));
}

/// The same, but that a value `x*n` is the bytes of `x` so many times over.
pub fn list(told: &mut Told, words: &[&str]) -> Vec<HeaderField> {
    let mut list = Vec::new(told.alloc());
    for word in words {
        push_many(told, &mut list, *word);
    }
    list
}

fn push_many(told: &mut Told, list: &mut Vec<HeaderField>, word: &str) {
    let (name, value) = told.pair(word);
    let name = told.decoded(name);
    let value = many(told, value);
    told.done(list.push(field(name, value)));
}

fn many(told: &mut Told, value: &str) -> Vec<u8> {
    match value.split_once('*') {
        Some((bytes, count)) => {
            let read: Result<u16, _> = count.parse();
            match read {
                Ok(count) => times(told, bytes, count),
                Err(_) => told.decoded(value),
            }
        }
        None => told.decoded(value),
    }
}

fn times(told: &mut Told, bytes: &str, count: u16) -> Vec<u8> {
    let bytes = told.decoded(bytes);
    let mut value = Vec::new(told.alloc());
    for _ in 0..count {
        told.done(value.extend_from_slice(&bytes));
    }
    value
}

/// The size of a section, whether a dynamic entry is named, its fields, and how many bytes are left; or why it is refused.
fn read(told: &mut Told, limit: u64, section: &[u8]) {
    let mut buf = SliceCursor::new(section);
    match decode_stateless(told.alloc(), &mut buf, limit) {
        Ok(decoded) => of_section(told, &decoded, buf.remaining()),
        Err(e) => told.with_rest(e, buf.chunk()),
    }
}

fn of_section(told: &mut Told, decoded: &Decoded, left: usize) {
    told.labeled("size", decoded.mem_size);
    told.labeled(" dynamic", decoded.dyn_ref);
    told.labeled(" left", left);
    told.say(":");
    for field in &decoded.fields {
        told.field(field);
    }
}

/// The section of the fields of words `name=value`, and its size.
fn write(told: &mut Told, words: &[&str]) {
    let fields = fields(told, words);
    written(told, &fields);
}

fn written(told: &mut Told, fields: &[HeaderField]) {
    let sum = section_size(&Fields::of(fields));
    if sum > 1000 {
        return told.unreadable();
    }
    let mut section = Vec::new(told.alloc());
    let size = encode_stateless(&mut section, fields);
    told.with_rest((sum, size), &section);
}

/// The texts of a field, or the parts that it is taken into.
fn of_field(told: &mut Told, command: &str, field: HeaderField) {
    match command {
        "print" => told.show(field),
        "other_value" => other_value(told, field),
        "parts" => taken(told, field),
        "copied" => copied(told, field),
        _ => told.unreadable(),
    }
}

fn other_value(told: &mut Told, field: HeaderField) {
    match field.with_value(told.alloc(), CowSlice::Borrowed(b"2")) {
        Ok(other) => {
            let text = other.into_string(told.alloc());
            told.put(text);
        }
        Err(_) => told.refused(),
    }
}

fn copied(told: &mut Told, field: HeaderField) {
    match HeaderField::copied(told.alloc(), field.name(), field.value()) {
        Ok(copy) => taken(told, copy),
        Err(_) => told.refused(),
    }
}

/// A field put together from the parts of one, and whether it is the one of borrowed bytes.
fn taken(told: &mut Told, field: HeaderField) {
    match field.into_inner(told.alloc()) {
        Ok(parts) => of_parts(told, HeaderField::from(parts)),
        Err(_) => told.refused(),
    }
}

/// The parts of a field, and whether it is the one of borrowed bytes.
fn of_parts(told: &mut Told, field: HeaderField) {
    field.are_bytes();
    let same = field == HeaderField::from_static(b":path", b"a");
    told.debug(field.as_ref().name());
    told.then_debug(field.value());
    told.labeled(" same", same);
}

/// The texts of errors that are made of others.
fn errors(told: &mut Told, command: &str) {
    if command != "errors" {
        return told.unreadable();
    }
    told.show(DecoderError::from(prefix_int::Error::UnexpectedEnd));
    told.then_show(EncoderError::from(dynamic::Error::from(vas::Error::Index(3))));
    told.then_debug(DecoderError::from(dynamic::Error::OutOfMemory));
}
