//! A connection (RFC 9114): a client and a server over `Endpoint`. In place of QUIC, what waits on a stream of one end is delivered
//! to the other.
use crate::lists;
use crate::log::words;
use h3_session::endpoint::Endpoint;
use h3_session::{
    Bytes, Code, Config, DeliverError, Header, Item, Limits, Pull, Refusal, Side, StreamId, VarInt,
};
use http::{Method, StatusCode};
use http_header::{HeaderMap, HeaderName, HeaderValue};
use http_uri::Uri;
use std::alloc::{AllocError, Global};
use std::str::FromStr;

/// Why the example ends early. (A caller would keep which refusal it was.)
#[derive(Clone, Copy)]
pub(crate) enum Stop {
    Memory,
    Refused,
}

impl From<AllocError> for Stop {
    fn from(_e: AllocError) -> Stop {
        Stop::Memory
    }
}

impl From<Refusal> for Stop {
    fn from(_refusal: Refusal) -> Stop {
        Stop::Refused
    }
}

/// A request with a body and its response, an exchange by lists of fields, a request that is malformed, and a server that goes away.
pub fn client_and_server(alloc: Global, text: &mut String) -> Result<(), AllocError> {
    words(text, "# a client and a server")?;
    match with_client(alloc, text) {
        Ok(()) => Ok(()),
        Err(Stop::Memory) => Err(AllocError),
        Err(Stop::Refused) => words(text, "refused"),
    }
}

/// An end that takes field sections of 4,096 bytes, a table of 220 bytes and two blocked streams. (These are in range, so only memory
/// can be refused.)
fn endpoint(alloc: Global, side: Side) -> Result<Endpoint, Stop> {
    let config = Config::default()
        .with_grease(false)
        .with_max_field_section_size(4096);
    let limits = Limits {
        table: 220,
        blocked: 2,
    };
    match Endpoint::new(alloc, side, config, limits, 0) {
        Ok(endpoint) => Ok(endpoint),
        Err(_) => Err(Stop::Memory),
    }
}

// (each end has one owner with one exit, which frees it by one call)
fn with_client(alloc: Global, text: &mut String) -> Result<(), Stop> {
    let mut client = endpoint(alloc, Side::Client)?;
    let done = with_server(alloc, text, &mut client);
    client.free();
    done
}

fn with_server(alloc: Global, text: &mut String, client: &mut Endpoint) -> Result<(), Stop> {
    let mut server = endpoint(alloc, Side::Server)?;
    let done = talk(alloc, text, client, &mut server);
    server.free();
    done
}

fn talk(
    alloc: Global,
    text: &mut String,
    client: &mut Endpoint,
    server: &mut Endpoint,
) -> Result<(), Stop> {
    // the settings
    carry_own(alloc, client, server)?;
    let id = client.open_request()?;
    send_request(alloc, client, id)?;
    carry(alloc, client, server, id)?;
    // its header section waits for the insertions on the encoder stream
    pull_all(alloc, text, "server", server, id)?;
    carry_own(alloc, client, server)?;
    pull_all(alloc, text, "server", server, id)?;
    send_response(alloc, server, id)?;
    carry_own(alloc, client, server)?;
    carry(alloc, server, client, id)?;
    pull_all(alloc, text, "client", client, id)?;
    lists::exchange(alloc, text, client, server)?;
    reset_malformed(alloc, text, client, server)?;
    go_away(alloc, text, client, server)
}

/// A POST of five bytes.
fn send_request(alloc: Global, client: &mut Endpoint, id: StreamId) -> Result<(), Stop> {
    let uri = Uri::from_str(alloc, "https://www.example.com/upload").map_err(|_| Stop::Memory)?;
    let head = Header::request(Method::POST, uri, HeaderMap::new(alloc), None).map_err(
        |_| Stop::Memory,
    )?;
    send_head(client, id, head)?;
    send_body(client, id, b"hello")?;
    Ok(client.finish(id)?)
}

/// An interim response, a final one with a body, and a trailer.
fn send_response(alloc: Global, server: &mut Endpoint, id: StreamId) -> Result<(), Stop> {
    let hints = Header::response(StatusCode::EARLY_HINTS, HeaderMap::new(alloc));
    send_head(server, id, hints)?;
    let head = Header::response(StatusCode::OK, head_fields(alloc)?);
    send_head(server, id, head)?;
    send_body(server, id, b"5 bytes came")?;
    send_trailer(server, id, Header::trailer(trailer_fields(alloc)?))?;
    Ok(server.finish(id)?)
}

fn head_fields(alloc: Global) -> Result<HeaderMap, Stop> {
    let mut fields = HeaderMap::new(alloc);
    let value = HeaderValue::from_static("text/plain");
    fields
        .append(HeaderName::from_static("content-type"), value)
        .map_err(|_| Stop::Memory)?;
    Ok(fields)
}

fn trailer_fields(alloc: Global) -> Result<HeaderMap, Stop> {
    let mut fields = HeaderMap::new(alloc);
    let value = HeaderValue::from_static("1 ms");
    fields
        .append(HeaderName::from_static("x-took"), value)
        .map_err(|_| Stop::Memory)?;
    Ok(fields)
}

fn send_head(endpoint: &mut Endpoint, id: StreamId, head: Header) -> Result<(), Stop> {
    let sent = endpoint.send_head(id, &head);
    drop(head);
    Ok(sent?)
}

fn send_trailer(endpoint: &mut Endpoint, id: StreamId, trailer: Header) -> Result<(), Stop> {
    let sent = endpoint.send_trailer(id, &trailer);
    drop(trailer);
    Ok(sent?)
}

fn send_body(endpoint: &mut Endpoint, id: StreamId, body: &'static [u8]) -> Result<(), Stop> {
    match endpoint.send_body(id, Bytes::from_static(body)) {
        Ok(()) => Ok(()),
        Err((refusal, _body)) => Err(Stop::from(refusal)),
    }
}

/// A header section comes as no `Endpoint` sends it, with a name in capitals (RFC 9114, section 4.2): the server resets its stream, and
/// other streams are as before.
fn reset_malformed(
    alloc: Global,
    text: &mut String,
    client: &mut Endpoint,
    server: &mut Endpoint,
) -> Result<(), Stop> {
    let id = client.open_request()?;
    // HEADERS of seven bytes: the prefix, the static entry `:method: GET`, and the literals `A` and `b`
    let head = Bytes::from_static(b"\x01\x07\x00\x00\xd1\x21A\x01b");
    delivered(server.deliver(id, head))?;
    pull_all(alloc, text, "server", server, id)?;
    server.reset(id)?;
    let code = Code::H3_MESSAGE_ERROR.value();
    delivered(client.deliver_reset(id, code))?;
    pull_all(alloc, text, "client", client, id)
}

/// The server takes no request from stream 12 on, and a client that has learned it opens none.
fn go_away(
    alloc: Global,
    text: &mut String,
    client: &mut Endpoint,
    server: &mut Endpoint,
) -> Result<(), Stop> {
    server.goaway(VarInt::from_u32(12))?;
    carry_own(alloc, client, server)?;
    let opened = client.open_request();
    let line = format!(in alloc; "client opens a request: {opened:?}")?;
    Ok(words(text, line.as_str())?)
}

/// Carries what waits on the control, encoder and decoder stream of both ends, which QUIC opened before any other.
pub(crate) fn carry_own(
    alloc: Global,
    client: &mut Endpoint,
    server: &mut Endpoint,
) -> Result<(), Stop> {
    carry_on(alloc, client, server, 2)?;
    carry_on(alloc, client, server, 6)?;
    carry_on(alloc, client, server, 10)?;
    carry_on(alloc, server, client, 3)?;
    carry_on(alloc, server, client, 7)?;
    carry_on(alloc, server, client, 11)
}

fn carry_on(
    alloc: Global,
    from: &mut Endpoint,
    to: &mut Endpoint,
    number: u32,
) -> Result<(), Stop> {
    let id = StreamId::from(VarInt::from_u32(number));
    carry(alloc, from, to, id)
}

/// Carries what waits on a stream, and the end of one that is finished.
pub(crate) fn carry(
    alloc: Global,
    from: &mut Endpoint,
    to: &mut Endpoint,
    id: StreamId,
) -> Result<(), Stop> {
    // a piece has a byte at least
    for _ in 0..from.waiting(id) {
        carry_piece(alloc, from, to, id)?;
    }
    if from.is_finished(id) {
        delivered(to.deliver_end(id))?;
    }
    Ok(())
}

/// Carries the first piece of what waits. A QUIC stream would take bytes of it, and hand them out at the other end.
fn carry_piece(
    alloc: Global,
    from: &mut Endpoint,
    to: &mut Endpoint,
    id: StreamId,
) -> Result<(), Stop> {
    if from.waiting(id) == 0 {
        return Ok(());
    }
    let piece = Bytes::copy_from_slice(alloc, from.outgoing(id))?;
    let count = piece.len();
    delivered(to.deliver(id, piece))?;
    from.advance(id, count);
    Ok(())
}

fn delivered(tried: Result<(), DeliverError>) -> Result<(), Stop> {
    match tried {
        Ok(()) => Ok(()),
        Err(e) => {
            let taken = taken(&e);
            drop(e);
            taken
        }
    }
}

/// Whether the bytes of a delivery were taken: those that are kept are read at the next delivery or pull.
fn taken(e: &DeliverError) -> Result<(), Stop> {
    match e {
        DeliverError::Kept => Ok(()),
        DeliverError::OutOfMemory(_) => Err(Stop::Memory),
        DeliverError::Refused(refusal) => Err(Stop::from(*refusal)),
    }
}

/// Pulls what came on a stream, until more has to come. (No message here has eight items.)
fn pull_all(
    alloc: Global,
    text: &mut String,
    who: &str,
    endpoint: &mut Endpoint,
    id: StreamId,
) -> Result<(), Stop> {
    for _ in 0..8u32 {
        let pull = endpoint.pull(id);
        let told = told(alloc, text, who, &pull);
        drop(pull);
        if !told? {
            return Ok(());
        }
    }
    Ok(())
}

/// A line of what a pull answered, and whether to pull again at once.
fn told(alloc: Global, text: &mut String, who: &str, pull: &Pull) -> Result<bool, AllocError> {
    let line = format!(in alloc; "{who}: {pull:?}")?;
    words(text, line.as_str())?;
    Ok(match pull {
        Pull::Item(Item::End) => false,
        Pull::Item(_) => true,
        // bytes of this stream, or insertions, have to come first; or nothing more will come
        Pull::Pending | Pull::Waiting(_) | Pull::Fault(_) | Pull::NoMessages => false,
    })
}
