//! Field lines and the prefix of a section (RFC 9204, section 4.5).
ghost use Rattle.std.specs.Prelude.{◌<◌, ◌≤◌, length};

use crate::case::Told;
use h3_field::SliceCursor;
use h3_field::block::{
    HeaderBlockField, HeaderPrefix, Indexed, IndexedWithPostBase, Literal, LiteralWithNameRef,
    LiteralWithPostBaseNameRef,
};

pub fn answer(told: &mut Told, command: &str, words: &[&str]) {
    match words {
        [digits] => {
            let bytes = told.bytes(*digits);
            read(told, command, &bytes);
        }
        [kind, index] => {
            let index = told.small(*index);
            put(told, *kind, index);
        }
        [first, second, last] => of_three(told, command, (*first, *second), *last),
        [required, base, inserted, capacity] => {
            let (required, base) = (told.small(*required), told.small(*base));
            let (inserted, capacity) = (told.small(*inserted), told.small(*capacity));
            put_prefix(told, required, base, (inserted, capacity));
        }
        _ => told.unreadable(),
    }
}

fn of_three(told: &mut Told, command: &str, front: (&str, &str), last: &str) {
    let (first, second) = front;
    if command == "prefix" {
        let (inserted, capacity) = (told.small(first), told.small(second));
        let bytes = told.bytes(last);
        return prefix(told, inserted, capacity, &bytes);
    }
    let value = told.text(last);
    write(told, first, second, &value);
}

/// The line at the front, or the kind that its first byte tells.
fn read(told: &mut Told, command: &str, bytes: &[u8]) {
    let alloc = told.alloc();
    let mut buf = SliceCursor::new(bytes);
    match command {
        "indexed" => told.with_rest(Indexed::decode(&mut buf), buf.chunk()),
        "post_base" => told.with_rest(IndexedWithPostBase::decode(&mut buf), buf.chunk()),
        "named" => told.with_rest(LiteralWithNameRef::decode(alloc, &mut buf), buf.chunk()),
        "post_base_named" => told.with_rest(
            LiteralWithPostBaseNameRef::decode(alloc, &mut buf),
            buf.chunk(),
        ),
        "literal" => told.with_rest(Literal::decode(alloc, &mut buf), buf.chunk()),
        _ => kind(told, bytes),
    }
}

fn kind(told: &mut Told, bytes: &[u8]) {
    match bytes {
        [first] => told.debug(HeaderBlockField::decode(*first)),
        _ => told.unreadable(),
    }
}

/// A prefix, and what it says after so many insertions at this capacity.
fn prefix(told: &mut Told, inserted: usize, capacity: usize, bytes: &[u8])
    requires { inserted < 65536 }
{
    let mut buf = SliceCursor::new(bytes);
    match HeaderPrefix::decode(&mut buf) {
        Ok(prefix) => told.with_rest(prefix.get(inserted, capacity), buf.chunk()),
        Err(e) => told.with_rest(e, buf.chunk()),
    }
}

/// A line without a value, or of an empty one.
fn put(told: &mut Told, kind: &str, index: usize)
    requires { index < 65536 }
{
    let mut out = Vec::new(told.alloc());
    match kind {
        "static" => told.done(Indexed::Static(index).encode(&mut out)),
        "dynamic" => told.done(Indexed::Dynamic(index).encode(&mut out)),
        "post_base" => told.done(IndexedWithPostBase(index).encode(&mut out)),
        _ => put_empty(told, kind, index, &mut out),
    }
    told.digits(&out);
}

fn put_empty(told: &mut Told, kind: &str, index: usize, out: &mut Vec<u8>)
    requires { index < 65536 }
{
    let value = Vec::new(told.alloc());
    match kind {
        "static_named" => told.done(LiteralWithNameRef::new_static(index, value).encode(out)),
        "post_base_named" => told.done(LiteralWithPostBaseNameRef::new(index, value).encode(out)),
        "literal" => {
            let name = Vec::new(told.alloc());
            told.done(Literal::new(name, value).encode(out));
        }
        _ => told.unreadable(),
    }
}

/// A line: an index or a name, and a value after it. A kind that begins with `never_` has the bit N.
fn write(told: &mut Told, kind: &str, first: &str, value: &[u8])
    requires { length value.now ≤ 1000 }
{
    let mut out = Vec::new(told.alloc());
    let (kind, never) = match kind.strip_prefix("never_") {
        Some(rest) => (rest, true),
        None => (kind, false),
    };
    if kind == "literal" {
        let name = told.text(first);
        told.done(Literal::write(&name, value, never, false, &mut out));
    } else {
        let index = told.small(first);
        write_named(told, (kind, never), index, value, &mut out);
    }
    told.digits(&out);
}

fn write_named(told: &mut Told, form: (&str, bool), index: usize, value: &[u8], out: &mut Vec<u8>)
    requires index { index < 65536 }
    requires value { length value.now ≤ 1000 }
{
    let (kind, never) = form;
    match kind {
        "static" => told.done(LiteralWithNameRef::write_static(index, value, never, false, out)),
        "dynamic" => told.done(LiteralWithNameRef::write_dynamic(index, value, never, false, out)),
        "post_base" => told.done(LiteralWithPostBaseNameRef::write(
            index, value, never, false, out,
        )),
        _ => told.unreadable(),
    }
}

/// The prefix of a required insert count and a base, after so many insertions at a capacity.
fn put_prefix(told: &mut Told, required: usize, base: usize, table: (usize, usize))
    requires { base < 65536 }
{
    let (inserted, capacity) = table;
    if required > inserted || capacity < 32 || inserted > 65535 {
        return told.unreadable();
    }
    let mut out = Vec::new(told.alloc());
    told.done(HeaderPrefix::new(required, base, inserted, capacity).encode(&mut out));
    told.digits(&out);
}
