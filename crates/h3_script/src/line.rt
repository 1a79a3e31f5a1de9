//! The lines of a script.
ghost use Rattle.std.specs.Prelude.{◌≡◌, IfOk, IfErr, option_map};
ghost use Rattle.h3_script.specs.Pieces.{texts};
ghost use Rattle.h3_script.specs.BodyLine.{body_of};
ghost use Rattle.h3_script.specs.ScriptLine.{is_skipped, config_of, setup_by, setup_of, side_event, number_event, deliver_event};
ghost use Rattle.h3_script.specs.ScriptLine.{short_event, IsSectionEvent, SaysWords, SaysSetup, SaysEvent, Denies};
ghost use Rattle.h3_world.specs.Setup.{Setup as Made};
ghost use Rattle.h3_world.specs.declared.event.Event.{Event as Does};

use crate::error::LineError;
use crate::head::{head, trailer};
use crate::pieces::{cut, pieces};
use crate::words::{is, number, side, stream_id, var_int};
use bytes::Bytes;
use h3_coding::varint::VarInt;
use h3_connection::setup::Limits;
use h3_proto::config::Config;
use h3_proto::stream::{Side, StreamId};
use h3_world::event::Event;
use h3_world::setup::Setup;
use std::alloc::Global;

/// Whether a line says nothing: it is empty, or begins with `#`.
pub fn is_skipped(line: &[u8]) -> bool
    ensures { result ≡ is_skipped line.now }
{
    match line.first() {
        Some(first) => *first == b'#',
        None => true,
    }
}

/// The setup of the first line.
pub fn setup_line(alloc: Global, line: &[u8]) -> Result<Setup, LineError>
    ensures ok { IfOk result (SaysSetup line.now) }
    ensures err { IfErr result (Denies ((setup : Made) × SaysSetup line.now setup)) }
{
    let words = pieces(alloc, line, b' ')?;
    match setup(&words) {
        Some(setup) => Ok(setup),
        None => Err(LineError::NoSuchLine),
    }
}

/// `config` and six numbers: section size, table and blocked of the client, then of the server.
fn setup(words: &[&[u8]]) -> Option<Setup>
    ensures { result ≡ setup_of (texts words.now) }
{
    let [command, a, b, c, d, e, f] = words else {
        return None;
    };
    if !is(*command, "config") {
        return None;
    }
    setup_by(
        number(*a),
        number(*b),
        number(*c),
        number(*d),
        number(*e),
        number(*f),
    )
}

/// The setup of six numbers, if all are there and both sides may announce them.
fn setup_by(
    client: Option<u64>,
    client_table: Option<u64>,
    client_blocked: Option<u64>,
    server: Option<u64>,
    server_table: Option<u64>,
    server_blocked: Option<u64>,
) -> Option<Setup>
    ensures { result ≡ setup_by client client_table client_blocked server server_table server_blocked }
{
    let client = config(client?);
    let client_limits = Limits {
        table: client_table?,
        blocked: client_blocked?,
    };
    let server = config(server?);
    let server_limits = Limits {
        table: server_table?,
        blocked: server_blocked?,
    };
    Setup::new(client, client_limits, 0, server, server_limits, 0).ok()
}

/// The configuration with a section size.
fn config(section: u64) -> Config
    ensures { result ≡ config_of section }
{
    Config::default()
        .with_grease(false)
        .with_max_field_section_size(section)
}

/// The event of a later line.
pub fn event_line(alloc: Global, line: &[u8]) -> Result<Event, LineError>
    ensures ok { IfOk result (SaysEvent line.now) }
    ensures err { IfErr result (Denies ((event : Does) × SaysEvent line.now event)) }
{
    if let Some(found) = body(line) {
        let bytes = Bytes::copy_from_slice(alloc, found.2)?;
        return Ok(Event::Body(found.0, found.1, bytes));
    }
    let words = pieces(alloc, line, b' ')?;
    event(alloc, &words)
}

/// `body`, a side and a stream id, each with one blank after it, and then any bytes.
fn body(line: &[u8]) -> Option<(Side, StreamId, &[u8])>
    ensures { option_map (λ found. (found.0, found.1, found.2.now)) result ≡ body_of line.now }
{
    let (command, rest) = cut(line, b' ')?;
    if !is(command, "body") {
        return None;
    }
    let (acting, rest) = cut(rest, b' ')?;
    let (id, bytes) = cut(rest, b' ')?;
    Some((side(acting)?, stream_id(id)?, bytes))
}

/// The event of some words.
fn event(alloc: Global, words: &[&[u8]]) -> Result<Event, LineError>
    ensures ok { IfOk result (SaysWords (texts words.now)) }
    ensures err { IfErr result (Denies ((event : Does) × SaysWords (texts words.now) event)) }
{
    match short_event(words) {
        Some(event) => Ok(event),
        None => section_event(alloc, words),
    }
}

/// The event of words that name a side and numbers alone.
fn short_event(words: &[&[u8]]) -> Option<Event>
    ensures { result ≡ short_event (texts words.now) }
{
    match words {
        [command, acting] => side_event(*command, side(*acting)?),
        [command, acting, number] => number_event(*command, side(*acting)?, var_int(*number)?),
        [command, acting, id, count] => {
            deliver_event(*command, side(*acting)?, stream_id(*id)?, number(*count)?)
        }
        _ => None,
    }
}

/// `open` and `show` with a side.
fn side_event(command: &[u8], side: Side) -> Option<Event>
    ensures { result ≡ side_event command.now side }
{
    if is(command, "open") {
        return Some(Event::OpenRequest(side));
    }
    if is(command, "show") {
        return Some(Event::Show(side));
    }
    None
}

/// `finish`, `reset`, `cancel`, `pull`, `pulls`, `end` and `gone` with a side and a stream id, and
/// `goaway` with a side and a number.
fn number_event(command: &[u8], side: Side, number: VarInt) -> Option<Event>
    ensures { result ≡ number_event command.now side number }
{
    let id = StreamId::from(number);
    if is(command, "finish") {
        return Some(Event::Finish(side, id));
    }
    if is(command, "reset") {
        return Some(Event::Reset(side, id));
    }
    if is(command, "cancel") {
        return Some(Event::Cancel(side, id));
    }
    if is(command, "pull") {
        return Some(Event::Pull(side, id));
    }
    if is(command, "pulls") {
        return Some(Event::PullFields(side, id));
    }
    if is(command, "end") {
        return Some(Event::DeliverEnd(side, id));
    }
    if is(command, "gone") {
        return Some(Event::DeliverReset(side, id));
    }
    if is(command, "goaway") {
        return Some(Event::Goaway(side, number));
    }
    None
}

/// `deliver` with a side, a stream id and a number.
fn deliver_event(command: &[u8], side: Side, id: StreamId, count: u64) -> Option<Event>
    ensures { result ≡ deliver_event command.now side id count }
{
    if is(command, "deliver") {
        return Some(Event::Deliver(side, id, count as usize));
    }
    None
}

/// `head` or `trailer`, a side, a stream id, and the words of a header section or a trailer.
fn section_event(alloc: Global, words: &[&[u8]]) -> Result<Event, LineError>
    ensures ok { IfOk result (IsSectionEvent (texts words.now)) }
    ensures err { IfErr result (Denies ((event : Does) × IsSectionEvent (texts words.now) event)) }
{
    let [command, acting, id, words @ ..] = words else {
        return Err(LineError::NoSuchLine);
    };
    let Some(acting) = side(*acting) else {
        return Err(LineError::NoSuchLine);
    };
    let Some(id) = stream_id(*id) else {
        return Err(LineError::NoSuchLine);
    };
    if is(*command, "head") {
        return Ok(Event::Head(acting, id, head(alloc, words)?));
    }
    if is(*command, "trailer") {
        return Ok(Event::Trailer(acting, id, trailer(alloc, words)?));
    }
    Err(LineError::NoSuchLine)
}
