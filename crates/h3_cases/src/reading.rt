//! Lines that are read as calls of an endpoint. Of a line that cannot be read any call comes, and none is made.
use crate::call::Call;
use crate::case::Told;
use crate::choices::chosen;
use crate::ids;
use crate::sections::{fields, list};
use h3_coding::varint::VarInt;
use h3_connection::setup::Limits;
use h3_field::Fields;
use h3_header::Header;
use h3_proto::stream::{Side, StreamId};
use http_header::HeaderMap;

/// The call that a line asks for.
pub fn call(told: &mut Told, words: &[&str]) -> Call {
    match words {
        [command, rest @ ..] => named(told, *command, rest),
        [] => unreadable(told),
    }
}

/// The call of this command, with the words after that.
pub fn named(told: &mut Told, command: &str, words: &[&str]) -> Call {
    match words {
        [] => plain(told, command),
        [id, more @ ..] => of_words(told, command, *id, more),
    }
}

fn unreadable(told: &mut Told) -> Call {
    told.unreadable();
    Call::Show
}

fn of_words(told: &mut Told, command: &str, id: &str, more: &[&str]) -> Call {
    if command == "new" {
        return new(told, id, more);
    }
    let number = told.number(id);
    let id = ids::stream_id(told, number);
    on_stream(told, command, id, more)
}

/// A call of one word.
fn plain(told: &mut Told, command: &str) -> Call {
    match command {
        "open" => Call::Open,
        "show" => Call::Show,
        "sent" => Call::Sent,
        "goaways" => Call::Goaways,
        _ => unreadable(told),
    }
}

/// The side of a word `c` or `s`.
pub fn side(told: &mut Told, word: &str) -> Side {
    match word {
        "c" => Side::Client,
        "s" => Side::Server,
        _ => {
            told.unreadable();
            Side::Client
        }
    }
}

fn new(told: &mut Told, side_word: &str, words: &[&str]) -> Call {
    let [section, table, blocked, choices @ ..] = words else {
        return unreadable(told);
    };
    let side = side(told, side_word);
    let section = told.number(*section);
    let limits = Limits {
        table: told.number(*table),
        blocked: told.number(*blocked),
    };
    let (config, limits) = chosen(told, section, limits, choices);
    Call::New(side, config, limits)
}

/// A call on a stream.
fn on_stream(told: &mut Told, command: &str, id: StreamId, words: &[&str]) -> Call {
    match command {
        "head" => Call::Head(id, section(told, words)),
        "trailer" => Call::Trailer(id, section(told, words)),
        "fields" => Call::Fields(id, list(told, words)),
        "trailers" => Call::Trailers(id, list(told, words)),
        _ => match words {
            [] => alone(told, command, id),
            [word] => with_word(told, command, id, *word),
            _ => unreadable(told),
        },
    }
}

/// A call on a stream with one word after its id.
fn with_word(told: &mut Told, command: &str, id: StreamId, word: &str) -> Call {
    match command {
        "body" => Call::Body(id, told.payload(word)),
        "deliver" => Call::Deliver(id, told.payload(word)),
        "gone" => Call::Gone(id, told.number(word)),
        "advance" => Call::Advance(id, told.number(word) as usize),
        _ => unreadable(told),
    }
}

/// A call on a stream with nothing else.
fn alone(told: &mut Told, command: &str, id: StreamId) -> Call {
    match command {
        "pull" => Call::Pull(id),
        "pulls" => Call::Pulls(id),
        "waits" => Call::Waits(id),
        "lends" => Call::Lends(id),
        "sends" => Call::Sends(id),
        "tries" => Call::Tries(id),
        _ => ending(told, command, id),
    }
}

/// A call that ends something.
fn ending(told: &mut Told, command: &str, id: StreamId) -> Call {
    match command {
        "finish" => Call::Finish(id),
        "reset" => Call::Reset(id),
        "cancel" => Call::Cancel(id),
        "goaway" => Call::Goaway(VarInt::from(id)),
        "end" => Call::End(id),
        _ => unreadable(told),
    }
}

/// The header section or trailer of fields, each a word `name=value`. Any token may be the value of `:protocol`.
fn section(told: &mut Told, words: &[&str]) -> Header {
    let fields = fields(told, words);
    match Header::of_fields(told.alloc(), &Fields::of(fields.as_slice()), true) {
        Ok(header) => header,
        Err(_) => {
            told.unreadable();
            Header::trailer(HeaderMap::new(told.alloc()))
        }
    }
}
