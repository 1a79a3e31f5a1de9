//! Scripts of a client and a server that are made by choices (`choices`): the events of `h3_script`, and more calls of either side.
use crate::acting::{act, begin, deliver, deliver_end, deliver_reset, delivered, refused, why};
use crate::answers::line;
use crate::call::Call;
use crate::case::{Told, words};
use crate::choices::chosen;
use crate::{ids, reading};
use bytes::Bytes;
use h3_connection::event::Refusal;
use h3_connection::setup::Limits;
use h3_proto::stream::{Side, StreamId};
use h3_script::error::LineError;
use h3_script::line::event_line;
use h3_session::endpoint::Endpoint;
use h3_world::event::{Answer, Event};
use std::alloc::{AllocError, Global};

/// No limit on field sections.
const NONE: u64 = (1 << 62) - 1;

/// The code of a reset that goes over: H3_REQUEST_CANCELLED (RFC 9114, section 8.1).
const RESET_CODE: u64 = 0x10c;

/// What goes over from one side to the other.
#[derive(Clone, Copy)]
enum Going {
    /// So many bytes.
    Bytes(usize),
    End,
    Reset,
    /// All bytes that wait, and the reset or the end.
    All,
}

/// The first line of a script, after its command: the choices of the client, a `/`, and those of the server. New endpoints take the place
/// of those before.
pub fn config(
    told: &mut Told,
    client: &mut Option<Endpoint>,
    server: &mut Option<Endpoint>,
    rest: &str,
) {
    let Some((first, second)) = rest.split_once('/') else {
        return told.unreadable();
    };
    made(told, client, Side::Client, first);
    told.say(" ");
    made(told, server, Side::Server, second);
}

fn made(told: &mut Told, endpoint: &mut Option<Endpoint>, side: Side, choices: &str) {
    let limits = Limits {
        table: 0,
        blocked: 0,
    };
    match words(told.alloc(), choices) {
        Ok(words) => {
            let (config, limits) = chosen(told, NONE, limits, &words);
            if !told.has_failed() {
                begin(told, endpoint, (side, config), limits);
            }
        }
        Err(_) => told.refused(),
    }
}

/// What a later line answers.
pub fn answer(
    told: &mut Told,
    client: &mut Option<Endpoint>,
    server: &mut Option<Endpoint>,
    text: &str,
) {
    match client {
        Some(client) => match server {
            Some(server) => talk(told, client, server, text),
            None => told.say("no endpoint"),
        },
        None => told.say("no endpoint"),
    }
}

fn talk(told: &mut Told, client: &mut Endpoint, server: &mut Endpoint, text: &str) {
    let (command, rest) = text.split_once(' ').unwrap_or((text, ""));
    match command {
        "carry" | "call" | "fields" | "trailers" => match words(told.alloc(), rest) {
            Ok(words) => of_words(told, client, server, command, &words),
            Err(_) => told.refused(),
        },
        _ => match event_line(told.alloc(), text.as_bytes()) {
            Ok(event) => happen(told, client, server, event),
            Err(LineError::NoSuchLine) => told.unreadable(),
            Err(LineError::OutOfMemory) => told.refused(),
        },
    }
}

/// A command that `h3_script` does not have, with a side and what stands after that.
fn of_words(
    told: &mut Told,
    client: &mut Endpoint,
    server: &mut Endpoint,
    command: &str,
    words: &[&str],
) {
    let [side, rest @ ..] = words else {
        return told.unreadable();
    };
    let side = reading::side(told, *side);
    match command {
        "carry" => carry(told, client, server, side, rest),
        "call" => {
            let call = reading::call(told, rest);
            on(told, client, server, side, call);
        }
        _ => {
            let call = reading::named(told, command, rest);
            on(told, client, server, side, call);
        }
    }
}

/// A call of one side. None is made of a line that cannot be read.
fn on(told: &mut Told, client: &mut Endpoint, server: &mut Endpoint, side: Side, call: Call) {
    if told.has_failed() {
        return;
    }
    match side {
        Side::Client => act(told, client, call),
        Side::Server => act(told, server, call),
    }
}

/// What an event of `h3_script` answers.
fn happen(told: &mut Told, client: &mut Endpoint, server: &mut Endpoint, event: Event) {
    match event {
        Event::OpenRequest(side) => on(told, client, server, side, Call::Open),
        Event::Head(side, id, head) => on(told, client, server, side, Call::Head(id, head)),
        Event::Body(side, id, body) => on(told, client, server, side, Call::Body(id, body)),
        Event::Trailer(side, id, trailer) => {
            on(told, client, server, side, Call::Trailer(id, trailer));
        }
        Event::Finish(side, id) => on(told, client, server, side, Call::Finish(id)),
        Event::Reset(side, id) => on(told, client, server, side, Call::Reset(id)),
        Event::Cancel(side, id) => on(told, client, server, side, Call::Cancel(id)),
        Event::Goaway(side, number) => on(told, client, server, side, Call::Goaway(number)),
        Event::Deliver(side, id, count) => {
            go(told, client, server, side, id, Going::Bytes(count));
        }
        Event::DeliverEnd(side, id) => go(told, client, server, side, id, Going::End),
        Event::DeliverReset(side, id) => go(told, client, server, side, id, Going::Reset),
        Event::Pull(side, id) => on(told, client, server, side, Call::Pull(id)),
        Event::PullFields(side, id) => on(told, client, server, side, Call::Pulls(id)),
        Event::Show(side) => on(told, client, server, side, Call::Show),
        // no line of `h3_script` sends a list: `fields` and `trailers` do that here
        Event::Fields(_, _, _) | Event::TrailerFields(_, _, _) => told.unreadable(),
    }
}

/// All of a stream goes over, or all of the control, the encoder and the decoder stream of a side.
fn carry(
    told: &mut Told,
    client: &mut Endpoint,
    server: &mut Endpoint,
    side: Side,
    words: &[&str],
) {
    match words {
        [] => carry_own(told, client, server, side),
        [id] => {
            let number = told.number(*id);
            let id = ids::stream_id(told, number);
            go(told, client, server, side, id, Going::All);
        }
        _ => told.unreadable(),
    }
}

fn carry_own(told: &mut Told, client: &mut Endpoint, server: &mut Endpoint, side: Side) {
    let first = match side {
        Side::Client => 2,
        Side::Server => 3,
    };
    let control = ids::stream_id(told, first);
    go(told, client, server, side, control, Going::All);
    told.say(" ");
    let encoder = ids::stream_id(told, first + 4);
    go(told, client, server, side, encoder, Going::All);
    told.say(" ");
    let decoder = ids::stream_id(told, first + 8);
    go(told, client, server, side, decoder, Going::All);
}

/// Something goes over from a side to the other. Nothing does by a line that cannot be read.
fn go(
    told: &mut Told,
    client: &mut Endpoint,
    server: &mut Endpoint,
    side: Side,
    id: StreamId,
    going: Going,
) {
    if told.has_failed() {
        return;
    }
    match side {
        Side::Client => goes(told, client, server, id, going),
        Side::Server => goes(told, server, client, id, going),
    }
}

fn goes(told: &mut Told, writer: &mut Endpoint, reader: &mut Endpoint, id: StreamId, going: Going) {
    if !writer.has_outgoing(id) {
        return told.say("no stream");
    }
    match going {
        Going::Bytes(count) => bytes(told, writer, reader, id, count),
        Going::End => end(told, writer, reader, id),
        Going::Reset => reset(told, writer, reader, id),
        Going::All => all(told, writer, reader, id),
    }
}

fn bytes(
    told: &mut Told,
    writer: &mut Endpoint,
    reader: &mut Endpoint,
    id: StreamId,
    count: usize,
) {
    let waiting = writer.waiting(id);
    if waiting < count {
        return line(told, Answer::Short(waiting));
    }
    match moved(told.alloc(), writer, reader, id, count) {
        None => line(told, Answer::Delivered(count)),
        Some(refusal) => refused(told, refusal),
    }
}

fn end(told: &mut Told, writer: &Endpoint, reader: &mut Endpoint, id: StreamId) {
    if !writer.is_finished(id) || writer.waiting(id) > 0 {
        return told.say("early");
    }
    delivered(told, deliver_end(reader, id));
}

fn reset(told: &mut Told, writer: &Endpoint, reader: &mut Endpoint, id: StreamId) {
    if !writer.is_reset(id) {
        return told.say("early");
    }
    delivered(told, deliver_reset(reader, id, RESET_CODE));
}

fn all(told: &mut Told, writer: &mut Endpoint, reader: &mut Endpoint, id: StreamId) {
    let count = writer.waiting(id);
    match moved(told.alloc(), writer, reader, id, count) {
        Some(refusal) => refused(told, refusal),
        None => ending(told, writer, reader, id),
    }
}

/// The reset or the end of a stream of which nothing waits, if it has one.
fn ending(told: &mut Told, writer: &Endpoint, reader: &mut Endpoint, id: StreamId) {
    if writer.is_reset(id) {
        return reset(told, writer, reader, id);
    }
    if writer.is_finished(id) {
        return end(told, writer, reader, id);
    }
    told.say("ok");
}

/// Bytes go over, and those that the reader takes leave the writer. It answers why they are not taken, or not read.
fn moved(
    alloc: Global,
    writer: &mut Endpoint,
    reader: &mut Endpoint,
    id: StreamId,
    count: usize,
) -> Option<Refusal> {
    match front(alloc, writer, id, count) {
        Ok(bytes) => offered(writer, reader, id, count, bytes),
        Err(_) => Some(Refusal::OutOfMemory),
    }
}

/// A copy of the first bytes that wait.
fn front(
    alloc: Global,
    writer: &Endpoint,
    id: StreamId,
    count: usize,
) -> Result<Bytes, AllocError> {
    let mut front = Vec::new(alloc);
    writer.copy_outgoing(id, count, &mut front)?;
    Ok(Bytes::from_vec(front)?)
}

fn offered(
    writer: &mut Endpoint,
    reader: &mut Endpoint,
    id: StreamId,
    count: usize,
    bytes: Bytes,
) -> Option<Refusal> {
    let refusal = why(&deliver(reader, id, bytes));
    if let None | Some(Refusal::Kept) = refusal {
        writer.advance(id, count);
    }
    refusal
}
