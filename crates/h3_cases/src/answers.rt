//! Answers of events, and their lines.
use crate::case::Told;
use crate::ids::stream_id;
use h3_connection::event::{
    Fault, Item, Malformation, PeerLimits, Pull, Refusal, StreamFault, TableSizes,
};
use h3_header::Header;
use h3_proto::error::Code;
use h3_proto::webtransport::SessionId;
use h3_script::text::answer_text;
use h3_world::event::Answer;
use http::StatusCode;
use http_header::{HeaderMap, HeaderName, HeaderValue};

pub fn answer(told: &mut Told, command: &str, words: &[&str]) {
    match words {
        [] => plain(told, command),
        [word] => of_word(told, command, *word),
        [table, blocked] => {
            let (table, blocked) = (told.number(*table), told.number(*blocked));
            shown(told, command, table, blocked);
        }
        _ => told.unreadable(),
    }
}

fn of_word(told: &mut Told, command: &str, word: &str) {
    match command {
        "body" => {
            let bytes = told.payload(word);
            item(told, Item::Body(bytes));
        }
        "raw" => {
            let bytes = told.payload(word);
            item(told, Item::Raw(bytes));
        }
        _ => {
            let number = told.number(word);
            of_number(told, command, number);
        }
    }
}

fn item(told: &mut Told, item: Item) {
    line(told, Answer::Pulled(Pull::Item(item)));
}

/// The line of an answer, which one call frees: at the end of a scope its parts would be dropped one by one.
pub fn line(told: &mut Told, answer: Answer) {
    let text = answer_text(told.alloc(), &answer);
    drop(answer);
    told.put(text);
}

/// An answer that carries nothing.
fn plain(told: &mut Told, command: &str) {
    match command {
        "done" => line(told, Answer::Done),
        "no_stream" => line(told, Answer::NoStream),
        "early" => line(told, Answer::Early),
        "pseudo_in_trailer" => line(told, Answer::Refused(Refusal::PseudoInTrailer)),
        "no_memory" => line(told, Answer::Refused(Refusal::OutOfMemory)),
        _ => pause(told, command),
    }
}

/// A pull that delivers nothing, or the end.
fn pause(told: &mut Told, command: &str) {
    match command {
        "pending" => line(told, Answer::Pulled(Pull::Pending)),
        "no_messages" => line(told, Answer::Pulled(Pull::NoMessages)),
        "end" => item(told, Item::End),
        "canceled" => fault(told, Fault::Stream(StreamFault::Canceled)),
        "malformed" => {
            let malformed = StreamFault::Malformed(Malformation::NoHead);
            fault(told, Fault::Stream(malformed));
        }
        "memory" => fault(told, Fault::Memory),
        _ => section(told, command),
    }
}

fn fault(told: &mut Told, fault: Fault) {
    line(told, Answer::Pulled(Pull::Fault(fault)));
}

/// A header section with the field x-b, an interim header section, and a trailer.
fn section(told: &mut Told, command: &str) {
    let fields = HeaderMap::new(told.alloc());
    match command {
        "trailer" => item(told, Item::Trailer(Header::trailer(fields))),
        "interim" => {
            let interim = Header::response(StatusCode::EARLY_HINTS, fields);
            item(told, Item::Interim(interim));
        }
        "head" => head(told, fields),
        _ => told.unreadable(),
    }
}

fn head(told: &mut Told, mut fields: HeaderMap) {
    let (name, value) = (
        HeaderName::from_static("x-b"),
        HeaderValue::from_static("2"),
    );
    told.done(fields.append(name, value));
    item(told, Item::Head(Header::response(StatusCode::OK, fields)));
}

/// An answer that carries a number.
fn of_number(told: &mut Told, command: &str, number: u64) {
    match command {
        "opened" => {
            let id = stream_id(told, number);
            line(told, Answer::Opened(id));
        }
        "delivered" => line(told, Answer::Delivered(number as usize)),
        "short" => line(told, Answer::Short(number as usize)),
        "waiting" => line(told, Answer::Pulled(Pull::Waiting(number as usize))),
        "too_large_item" => item(told, Item::TooLarge(number)),
        "session" => {
            let id = stream_id(told, number);
            item(told, Item::Session(SessionId::from(id)));
        }
        _ => of_refusal(told, command, number),
    }
}

/// A refusal or a fault that carries a number.
fn of_refusal(told: &mut Told, command: &str, number: u64) {
    match command {
        "closed" => line(told, Answer::Refused(Refusal::Closed(Code::from(number)))),
        "connection" => {
            let refusal = Refusal::Connection(Code::from(number));
            line(told, Answer::Refused(refusal));
        }
        "going_away" => {
            let id = stream_id(told, number);
            line(told, Answer::Refused(Refusal::GoingAway(id)));
        }
        "too_large" => line(told, Answer::Refused(Refusal::TooLarge(number))),
        "raised" => line(told, Answer::Refused(Refusal::Raised(number))),
        "fault" => fault(told, Fault::Connection(Code::from(number))),
        "reset" => fault(told, Fault::Stream(StreamFault::Reset(number))),
        _ => told.unreadable(),
    }
}

/// The tables of 38 and of no bytes, without a peer's limits if `capacity` is 0.
fn shown(told: &mut Told, command: &str, capacity: u64, waiting: u64) {
    if command != "shown" {
        return told.unreadable();
    }
    let known = PeerLimits {
        capacity,
        blocked: 16,
        section: 1000,
    };
    let limits = if capacity == 0 { None } else { Some(known) };
    let tables = TableSizes {
        sending: 38,
        receiving: 0,
    };
    line(told, Answer::Shown(limits, tables, waiting as usize));
}
