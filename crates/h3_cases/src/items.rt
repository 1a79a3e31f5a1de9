//! The lines of what a pull delivers: bytes that are no letters are written as escapes, so that no two items have one line.
use crate::case::Told;
use h3_connection::event::{Item, Pull};
use h3_field::{Fields, HeaderField};
use h3_header::Header;
use h3_script::text::FaultText;
use h3_session::{ListItem, ListPull};

/// The line of what a pull answers.
pub fn pulled(told: &mut Told, pull: &Pull) {
    match pull {
        Pull::Item(item) => tell_item(told, item),
        Pull::Pending => told.say("pending"),
        Pull::Waiting(count) => told.labeled("waiting", *count),
        Pull::Fault(fault) => told.labeled("fault", FaultText(*fault)),
        Pull::NoMessages => told.say("no messages"),
    }
}

/// The line of what a pull of lists answers.
pub fn pulled_list(told: &mut Told, pull: &ListPull) {
    match pull {
        ListPull::Item(item) => tell_list_item(told, item),
        ListPull::Pending => told.say("pending"),
        ListPull::Waiting(count) => told.labeled("waiting", *count),
        ListPull::Fault(fault) => told.labeled("fault", FaultText(*fault)),
        ListPull::NoMessages => told.say("no messages"),
    }
}

fn tell_list_item(told: &mut Told, item: &ListItem) {
    match item {
        ListItem::Interim(list) => tell_list(told, "interim", &list.fields()),
        ListItem::Head(list) => tell_list(told, "head", &list.fields()),
        ListItem::Body(bytes) => escaped(told, "body ", bytes.as_slice()),
        ListItem::Trailer(list) => tell_list(told, "trailer", &list.fields()),
        ListItem::TooLarge(size) => told.labeled("too large", *size),
        ListItem::Session(id) => told.labeled("session", id.into_inner()),
        ListItem::Raw(bytes) => escaped(told, "raw ", bytes.as_slice()),
        ListItem::End => told.say("end"),
    }
}

/// The name, and the fields after it. A value of more than 100 bytes that are all the same is one of them, and their count.
fn tell_list(told: &mut Told, name: &str, fields: &Fields<'_>) {
    told.say(name);
    for place in 0..fields.len() {
        let field = fields.get(place);
        escaped(told, " ", field.name());
        match repeated(field.value()) {
            Some(byte) => {
                escaped(told, "=", &[byte]);
                told.say("*");
                told.show(field.value().len());
            }
            None => escaped(told, "=", field.value()),
        }
    }
}

fn repeated(value: &[u8]) -> Option<u8> {
    let first = *value.first()?;
    for byte in value {
        if *byte != first {
            return None;
        }
    }
    if value.len() > 100 { Some(first) } else { None }
}

fn tell_item(told: &mut Told, item: &Item) {
    match item {
        Item::Interim(head) => section(told, "interim", head),
        Item::Head(head) => section(told, "head", head),
        Item::Body(bytes) => escaped(told, "body ", bytes.as_slice()),
        Item::Trailer(trailer) => section(told, "trailer", trailer),
        Item::TooLarge(size) => told.labeled("too large", *size),
        Item::Session(id) => told.labeled("session", id.into_inner()),
        Item::Raw(bytes) => escaped(told, "raw ", bytes.as_slice()),
        Item::End => told.say("end"),
    }
}

/// The name, and the fields after it.
fn section(told: &mut Told, name: &str, section: &Header) {
    told.say(name);
    match section.fields(told.alloc()) {
        Ok(fields) => each(told, &fields),
        Err(_) => told.refused(),
    }
}

fn each(told: &mut Told, fields: &[HeaderField]) {
    for field in fields {
        escaped(told, " ", field.name());
        escaped(told, "=", field.value());
    }
}

fn escaped(told: &mut Told, front: &str, bytes: &[u8]) {
    told.say(front);
    told.escaped(bytes);
}
