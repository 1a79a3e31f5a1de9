//! Headers of messages (RFC 9114, section 4.3): field lists and the headers that they make, refusals and texts.
use crate::case::Told;
use crate::sections::{field, fields};
use h3_field::HeaderField;
use h3_header::ext::Protocol;
use h3_header::headers::{Header, HeaderError};
use http::{Method, StatusCode};
use http_header::{HeaderMap, HeaderName, HeaderValue};
use http_uri::Uri;
use std::alloc::AllocError;
use std::str::FromStr;

pub fn answer(told: &mut Told, command: &str, words: &[&str]) {
    match command {
        "request" => request(told, words),
        "many_names" => many_names(told),
        "many_values" => many_values(told),
        "protocol" => protocol(told, words),
        "response" => response(told, words),
        _ => of_fields(told, command, words),
    }
}

fn of_fields(told: &mut Told, command: &str, words: &[&str]) {
    let fields = fields(told, words);
    match Header::try_from(told.alloc(), fields) {
        Ok(header) => of_header(told, command, header),
        Err(e) => told.show(e),
    }
}

/// What a header that was read is asked for.
fn of_header(told: &mut Told, command: &str, header: Header) {
    match command {
        "fields" => listed(told, header),
        "iterate" => iterated(told, header),
        "kind" => kind(told, header),
        "target" => target(told, header),
        "status" => status(told, header),
        _ => told.unreadable(),
    }
}

/// How many fields there are, and the fields in their order.
fn listed(told: &mut Told, header: Header) {
    told.show(header.len());
    told.then_show(header.size());
    told.say(":");
    match header.fields(told.alloc()) {
        Ok(fields) => each(told, &fields),
        Err(_) => told.refused(),
    }
}

fn each(told: &mut Told, fields: &[HeaderField]) {
    for field in fields {
        told.field(field);
    }
}

/// The fields as the iterator gives them.
fn iterated(told: &mut Told, header: Header) {
    for item in header.into_iter(told.alloc()) {
        given(told, item);
    }
}

fn given(told: &mut Told, item: Result<HeaderField, AllocError>) {
    match item {
        Ok(field) => told.field(&field),
        Err(_) => told.refused(),
    }
}

fn kind(told: &mut Told, header: Header) {
    told.labeled("request", header.is_request());
    told.labeled(" response", header.is_response());
    told.labeled(" pseudo", header.has_pseudo());
    told.say(" status");
    told.then_debug(header.status());
}

/// The URI of a request, or why there is none.
fn target(told: &mut Told, header: Header) {
    match header.into_request_parts(told.alloc()) {
        Ok(parts) => told.put(parts.1.to_string(told.alloc())),
        Err(e) => told.show(e),
    }
}

/// The status of a response and the number of its fields, or why there is none.
fn status(told: &mut Told, header: Header) {
    match header.into_response_parts() {
        Ok((status, fields)) => {
            told.debug(status);
            told.labeled(", fields", fields.len());
        }
        Err(e) => told.show(e),
    }
}

/// A request of a method, a URI, a protocol or `-`, and a host if there is one more word.
fn request(told: &mut Told, words: &[&str]) {
    match words {
        [method, uri, protocol, hosts @ ..] => {
            match Method::from_bytes(told.alloc(), method.as_bytes()) {
                Ok(method) => to(told, method, (*uri, *protocol), hosts),
                Err(_) => told.unreadable(),
            }
        }
        _ => told.unreadable(),
    }
}

fn to(told: &mut Told, method: Method, place: (&str, &str), hosts: &[&str]) {
    let (uri, protocol) = place;
    match Uri::from_str(told.alloc(), uri) {
        Ok(uri) => {
            let fields = hosts_of(told, hosts);
            let protocol = Protocol::from_str(protocol).ok();
            made(told, Header::request(method, uri, fields, protocol));
        }
        Err(_) => told.unreadable(),
    }
}

/// The field `host` for each word.
fn hosts_of(told: &mut Told, hosts: &[&str]) -> HeaderMap {
    let mut fields = HeaderMap::new(told.alloc());
    for host in hosts {
        append_host(told, &mut fields, *host);
    }
    fields
}

fn append_host(told: &mut Told, fields: &mut HeaderMap, host: &str) {
    match HeaderValue::from_str(told.alloc(), host) {
        Ok(value) => told.done(fields.append(HeaderName::from_static("host"), value)),
        Err(_) => told.unreadable(),
    }
}

fn made(told: &mut Told, header: Result<Header, HeaderError>) {
    match header {
        Ok(header) => {
            told.labeled("request", header.is_request());
            told.say(": ");
            listed(told, header);
        }
        Err(e) => told.show(e),
    }
}

/// A response without fields: its text, or whether its iterator gives one field and then no more.
fn response(told: &mut Told, words: &[&str]) {
    let [word] = words else {
        return told.unreadable();
    };
    let header = Header::response(StatusCode::OK, HeaderMap::new(told.alloc()));
    match *word {
        "print" => told.debug(header),
        _ => thrice(told, header),
    }
}

/// Whether its iterator gives a field, asked three times.
fn thrice(told: &mut Told, header: Header) {
    let mut iter = header.into_iter(told.alloc());
    told.show(iter.next().is_some());
    told.then_show(iter.next().is_some());
    told.then_show(iter.next().is_some());
}

/// A list of one name more than a map holds.
fn many_names(told: &mut Told) {
    let mut names = Vec::new(told.alloc());
    for i in 0..24577u32 {
        let field = field(name(told, i), Vec::new(told.alloc()));
        told.done(names.push(field));
    }
    made(told, Header::try_from(told.alloc(), names));
}

fn name(told: &mut Told, i: u32) -> Vec<u8> {
    match format!(in told.alloc(); "x-{i}") {
        Ok(name) => name.into_bytes(),
        Err(_) => {
            told.refused();
            Vec::new(told.alloc())
        }
    }
}

/// As many values of one name.
fn many_values(told: &mut Told) {
    let mut values = Vec::new(told.alloc());
    for _ in 0..24577u32 {
        let field = field(told.text("x-a"), Vec::new(told.alloc()));
        told.done(values.push(field));
    }
    match Header::try_from(told.alloc(), values) {
        Ok(header) => counted(told, header),
        Err(e) => told.show(e),
    }
}

fn counted(told: &mut Told, header: Header) {
    told.show(header.len());
    told.then_show(header.into_fields().len());
}

/// The text of a protocol, which of the two it is, and whether it may be sent if any is taken.
fn protocol(told: &mut Told, words: &[&str]) {
    let word = match words {
        [] => "",
        [word, ..] => *word,
    };
    match Protocol::from_str(word) {
        Ok(protocol) => {
            told.say(protocol.as_str());
            told.then_show(protocol == Protocol::WEB_TRANSPORT);
            told.then_show(protocol == Protocol::CONNECT_UDP);
        }
        Err(_) => told.say("refused"),
    }
    told.then_show(Protocol::from_token(word).is_ok());
}
