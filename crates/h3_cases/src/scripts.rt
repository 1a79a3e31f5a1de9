//! Lines of scripts, and the events that they are.
ghost use Rattle.std.specs.Prelude.{◌<◌, ◌^◌};

use crate::case::Told;
use h3_header::Header;
use h3_proto::stream::{Side, StreamId};
use h3_script::error::ScriptError;
use h3_script::script::{Script, parse};
use h3_world::event::Event;

const MOST: u64 = 1 << 48;

/// A line after a setup, a line between a setup and an event, or a script of at most so many bytes. Any byte may be an escape,
/// as `%20`.
pub fn answer(told: &mut Told, command: &str, rest: &str) {
    match command {
        "line" => {
            let setup = "config 1000 0 0 1000 0 0%0A%0A# a comment%0A";
            framed(told, setup, rest, "%0A");
        }
        "refused" => framed(told, "config 0 0 0 0 0 0%0A", rest, "%0Aopen c%0A"),
        "read" => framed(told, "", rest, ""),
        _ => {
            let most = told.number(command);
            at_most(told, most, rest);
        }
    }
}

fn at_most(told: &mut Told, most: u64, rest: &str) {
    if most > MOST {
        return told.unreadable();
    }
    let text = told.text(rest);
    read(told, &text, most);
}

fn framed(told: &mut Told, front: &str, line: &str, end: &str) {
    let mut text = told.decoded(front);
    told.append(&mut text, line);
    told.append(&mut text, end);
    read(told, &text, MOST);
}

/// The script, or the line that is refused.
fn read(told: &mut Told, text: &[u8], most: u64)
    requires { most < 2 ^ 62 }
{
    match parse(told.alloc(), text, most) {
        Ok(script) => of_script(told, &script),
        Err(ScriptError::Line(number)) => told.labeled("refused at", number),
        Err(ScriptError::OutOfMemory) => told.refused(),
    }
}

/// The tables and how many streams may wait, of the client and of the server; and the events.
fn of_script(told: &mut Told, script: &Script) {
    let client = script.setup.announced_at(Side::Client).limits;
    let server = script.setup.announced_at(Side::Server).limits;
    told.show(client.table);
    told.then_show(client.blocked);
    told.then_show(server.table);
    told.then_show(server.blocked);
    told.say(":");
    for event in &script.events {
        told.say(" ");
        of_event(told, event);
        told.say(";");
    }
}

/// The event in words: its name, its side, and what it carries. A field section is counted in fields.
fn of_event(told: &mut Told, event: &Event) {
    match event {
        Event::OpenRequest(side) => sided(told, "OpenRequest", *side),
        Event::Head(side, id, head) => sized(told, "Head", (*side, *id), head),
        Event::Fields(side, id, list) => {
            named(told, "Fields", *side, *id);
            told.then_show(list.fields().len());
        }
        Event::Body(side, id, bytes) => {
            named(told, "Body", *side, *id);
            told.then_debug(bytes.as_slice());
        }
        Event::Trailer(side, id, trailer) => sized(told, "Trailer", (*side, *id), trailer),
        Event::TrailerFields(side, id, list) => {
            named(told, "TrailerFields", *side, *id);
            told.then_show(list.fields().len());
        }
        Event::Finish(side, id) => named(told, "Finish", *side, *id),
        Event::Reset(side, id) => named(told, "Reset", *side, *id),
        Event::Cancel(side, id) => named(told, "Cancel", *side, *id),
        Event::Goaway(side, number) => {
            sided(told, "Goaway", *side);
            told.then_show(number.into_inner());
        }
        Event::Deliver(side, id, count) => {
            named(told, "Deliver", *side, *id);
            told.then_show(*count);
        }
        Event::DeliverEnd(side, id) => named(told, "DeliverEnd", *side, *id),
        Event::DeliverReset(side, id) => named(told, "DeliverReset", *side, *id),
        Event::Pull(side, id) => named(told, "Pull", *side, *id),
        Event::PullFields(side, id) => named(told, "PullFields", *side, *id),
        Event::Show(side) => sided(told, "Show", *side),
    }
}

fn sided(told: &mut Told, name: &str, side: Side) {
    told.say(name);
    told.then_debug(side);
}

fn named(told: &mut Told, name: &str, side: Side, id: StreamId) {
    sided(told, name, side);
    told.then_show(id.into_inner());
}

fn sized(told: &mut Told, name: &str, stream: (Side, StreamId), section: &Header) {
    let (side, id) = stream;
    named(told, name, side, id);
    match section.fields(told.alloc()) {
        Ok(fields) => told.then_show(fields.len()),
        Err(_) => told.refused(),
    }
}
