//! Connections of two endpoints, with no C between: requests are sent some at a time, carried piece by piece, read and answered.

use crate::header::fields_of;
use crate::input;
use crate::report::{Failure, Report, answer};
use bytes::Bytes;
use h3_coding::varint::VarInt;
use h3_connection::event::DeliverError;
use h3_connection::setup::Limits;
use h3_field::{Fields, HeaderField};
use h3_incoming::answer::{MessageKind, Plain};
use h3_incoming::{BlockPull, Told};
use h3_proto::config::Config;
use h3_proto::stream::{Side, StreamId};
use h3_session::endpoint::Endpoint;
use std::alloc::Global;

/// The table and the blocked streams that both ends announce; how often requests are sent, and how many each time.
#[derive(Copy, Clone)]
struct Shape {
    limits: Limits,
    batches: usize,
    under_way: usize,
}

/// How many bytes are carried at once, those of bodies aside.
const PACKET: usize = 1200;

/// The fields of a header section.
#[derive(Drop)]
struct Head {
    fields: Vec<HeaderField>,
}

/// The header section of each encoded section.
fn heads(alloc: Global, bytes: &[u8]) -> Result<Vec<Head>, Failure> {
    let sections = input::strings(alloc, bytes)?;
    let mut heads = Vec::new(alloc);
    for section in &sections {
        let fields = fields_of(alloc, *section)?;
        heads.push(Head { fields })?;
    }
    Ok(heads)
}

/// What an end sends on each stream: one of its header sections, in turn, and the body.
#[derive(Drop)]
struct Messages {
    heads: Vec<Head>,
    body: Vec<u8>,
}

impl Messages {
    /// Of encoded field sections, and the body's bytes.
    fn new(alloc: Global, sections: &[u8], body: &[u8]) -> Result<Messages, Failure> {
        let body = Vec::from_slice(alloc, body)?;
        let heads = heads(alloc, sections)?;
        Ok(Messages { heads, body })
    }

    /// Sends a whole message. Its body is announced by its length, and its bytes stay here.
    fn send(&self, from: &mut Endpoint, id: StreamId) -> Result<(), Failure> {
        let number = (id.into_inner() / 4) as usize;
        let count = self.heads.len();
        if count == 0 {
            return Err(Failure::Input);
        }
        let head = &self.heads[number % count];
        done(
            from.send_fields(id, &Fields::of(head.fields.as_slice()))
                .is_ok(),
        )?;
        if !self.body.is_empty() {
            done(from.send_body_of(id, self.body.len()).is_ok())?;
        }
        done(from.finish(id).is_ok())
    }
}

fn done(is_done: bool) -> Result<(), Failure> {
    if is_done {
        Ok(())
    } else {
        Err(Failure::Refused)
    }
}

/// What came out at both ends of a connection, counted, and the answer of the last pull, in whose place the next one is written.
#[derive(Drop)]
struct CameOut {
    report: Report,
    answer: BlockPull,
    packet: [u8; PACKET],
}

impl CameOut {
    /// Nothing came.
    fn new(alloc: Global) -> CameOut {
        CameOut {
            report: Report::new(),
            answer: BlockPull::new(alloc),
            packet: [0; PACKET],
        }
    }

    /// Carries what waits on a request stream up to a payload that its sender holds, and then that payload, a part of `body`, which is
    /// copied nowhere. With the end of the stream, if it is next. All of it is read. Says whether to go on.
    fn carry(
        &mut self,
        alloc: Global,
        from: &mut Endpoint,
        to: &mut Endpoint,
        id: StreamId,
        body: &[u8],
    ) -> Result<bool, Failure> {
        let (count, held, is_end) = from.copy_with_end(id, &mut self.packet);
        if count > 0 {
            let copy = Bytes::copy_from_slice(alloc, &self.packet[..count])?;
            self.take(to, id, copy)?;
        }
        if held > 0 {
            let piece = body.get(..held).ok_or(Failure::Room)?;
            self.read(alloc, to, id, piece)?;
        }
        let carried = count.saturating_add(held);
        from.advance(id, carried);
        if is_end {
            delivered(to.deliver_end(id))?;
            self.pull(to, id);
        }
        Ok(carried > 0 && !is_end)
    }

    /// Reads a piece of a body where it lies, if it can be.
    fn read(
        &mut self,
        alloc: Global,
        to: &mut Endpoint,
        id: StreamId,
        piece: &[u8],
    ) -> Result<(), Failure> {
        match to.read_body(id, piece) {
            Some(place) => {
                self.report.add(0, place.len);
                Ok(())
            }
            None => {
                let copy = Bytes::copy_from_slice(alloc, piece)?;
                self.take(to, id, copy)
            }
        }
    }

    /// Delivers bytes, and reads all that came.
    fn take(&mut self, to: &mut Endpoint, id: StreamId, bytes: Bytes) -> Result<(), Failure> {
        delivered(to.deliver(id, bytes))?;
        for _ in 0..u32::MAX {
            if !self.pull(to, id) || to.unread(id) == 0 {
                break;
            }
        }
        Ok(())
    }

    /// Reads the next item of a stream, and says whether there may be more. A fault comes out as counts that are too small.
    fn pull(&mut self, to: &mut Endpoint, id: StreamId) -> bool {
        to.pull_block(id, &mut self.answer);
        count(&self.answer, &mut self.report)
    }
}

/// Counts what came out, and says whether there may be more.
fn count(answer: &BlockPull, report: &mut Report) -> bool {
    match answer.told() {
        Told::Message(MessageKind::Head, _) => {
            report.add(answer.block().len(), 0);
            true
        }
        Told::Plain(Plain::Body(piece)) => {
            report.add(0, piece.len());
            true
        }
        Told::Plain(Plain::End) => {
            report.checksum = report.checksum.wrapping_add(1);
            false
        }
        _ => false,
    }
}

/// What goes on between both ends.
#[derive(Copy, Clone)]
struct Exchanges<'a> {
    alloc: Global,
    shape: Shape,
    requests: &'a Messages,
    responses: &'a Messages,
}

impl Exchanges<'_> {
    /// A connection, from its making to its end.
    fn connect(&self, came: &mut CameOut) -> Result<(), Failure> {
        let mut client = endpoint(self.alloc, Side::Client, self.shape.limits)?;
        let done = self.with_server(&mut client, came);
        client.free();
        done
    }

    fn with_server(&self, client: &mut Endpoint, came: &mut CameOut) -> Result<(), Failure> {
        let mut server = endpoint(self.alloc, Side::Server, self.shape.limits)?;
        let done = self.talk(client, &mut server, came);
        server.free();
        done
    }

    fn talk(
        &self,
        client: &mut Endpoint,
        server: &mut Endpoint,
        came: &mut CameOut,
    ) -> Result<(), Failure> {
        self.carry_own(client, server)?;
        let mut streams = Vec::new(self.alloc);
        for _ in 0..self.shape.batches {
            self.request(client, &mut streams)?;
            self.exchange(client, server, &streams, came)?;
            streams.clear();
        }
        Ok(())
    }

    /// Opens streams and sends a request on each.
    fn request(&self, client: &mut Endpoint, streams: &mut Vec<StreamId>) -> Result<(), Failure> {
        for _ in 0..self.shape.under_way {
            let id = client.open_request().map_err(|_| Failure::Refused)?;
            self.requests.send(client, id)?;
            streams.push(id)?;
        }
        Ok(())
    }

    /// Requests are carried, read and answered. What waits on the control, encoder and decoder streams is carried first, since header
    /// sections may need it.
    fn exchange(
        &self,
        client: &mut Endpoint,
        server: &mut Endpoint,
        streams: &[StreamId],
        came: &mut CameOut,
    ) -> Result<(), Failure> {
        self.carry_own(client, server)?;
        self.carry_all(client, server, self.requests, streams, came)?;
        for id in streams {
            self.responses.send(server, *id)?;
        }
        self.carry_own(client, server)?;
        self.carry_all(server, client, self.responses, streams, came)?;
        self.carry_own(client, server)
    }

    /// Carries what waits on the local streams of both: control, encoder and decoder stream.
    fn carry_own(&self, client: &mut Endpoint, server: &mut Endpoint) -> Result<(), Failure> {
        for number in [2, 6, 10] {
            self.carry(client, server, StreamId::from(VarInt::from_u32(number)))?;
        }
        for number in [3, 7, 11] {
            self.carry(server, client, StreamId::from(VarInt::from_u32(number)))?;
        }
        Ok(())
    }

    /// Carries all that waits on a stream of the endpoint itself.
    fn carry(&self, from: &mut Endpoint, to: &mut Endpoint, id: StreamId) -> Result<(), Failure> {
        // a piece has a byte at least
        for _ in 0..from.waiting(id) {
            let waits = from.outgoing(id);
            let count = waits.len();
            delivered(to.deliver(id, Bytes::copy_from_slice(self.alloc, waits)?))?;
            from.advance(id, count);
            if from.waiting(id) == 0 {
                break;
            }
        }
        Ok(())
    }

    /// Carries all that waits on request streams, with their ends, and reads it.
    fn carry_all(
        &self,
        from: &mut Endpoint,
        to: &mut Endpoint,
        sent: &Messages,
        streams: &[StreamId],
        came: &mut CameOut,
    ) -> Result<(), Failure> {
        for id in streams {
            for _ in 0..u32::MAX {
                if !came.carry(self.alloc, from, to, *id, sent.body.as_slice())? {
                    break;
                }
            }
        }
        Ok(())
    }
}

fn endpoint(alloc: Global, side: Side, limits: Limits) -> Result<Endpoint, Failure> {
    let config = Config::default().with_grease(false);
    match Endpoint::new(alloc, side, config, limits, 0) {
        Ok(endpoint) => Ok(endpoint),
        Err(_) => Err(Failure::Input),
    }
}

fn delivered(tried: Result<(), DeliverError>) -> Result<(), Failure> {
    let is_done = tried.is_ok();
    drop(tried);
    done(is_done)
}

fn connections(rounds: u64, exchanges: &Exchanges<'_>) -> Result<Report, Failure> {
    let mut report = Report::new();
    for _ in 0..rounds {
        let mut came = CameOut::new(exchanges.alloc);
        exchanges.connect(&mut came)?;
        report = came.report;
    }
    Ok(report)
}

fn with_messages(
    alloc: Global,
    rounds: u64,
    shape: Shape,
    requests: &Messages,
    responses: &Messages,
) -> Result<Report, Failure> {
    let exchanges = Exchanges {
        alloc,
        shape,
        requests,
        responses,
    };
    connections(rounds, &exchanges)
}

/// What an end sends, as C passes it.
#[derive(Copy, Clone)]
struct Given<'a> {
    sections: &'a [u8],
    body: &'a [u8],
}

fn with_given(
    alloc: Global,
    rounds: u64,
    shape: Shape,
    requests: Given<'_>,
    responses: Given<'_>,
) -> Result<Report, Failure> {
    let requests = Messages::new(alloc, requests.sections, requests.body)?;
    let responses = Messages::new(alloc, responses.sections, responses.body)?;
    with_messages(alloc, rounds, shape, &requests, &responses)
}

/// Connections, in each of which so many times so many requests are sent at once, and answered. The report is of one connection: the
/// fields that came out at both ends, the bytes of bodies, and the ends of streams.
#[unsafe(no_mangle)]
pub extern "C" fn h3_bench_endpoints(
    alloc: Global,
    rounds: u64,
    table: u64,
    blocked: u64,
    batches: usize,
    under_way: usize,
    requests: &[u8],
    request_body: &[u8],
    responses: &[u8],
    response_body: &[u8],
    report: &mut Report,
) -> u32 {
    let shape = Shape {
        limits: Limits { table, blocked },
        batches,
        under_way,
    };
    let requests = Given {
        sections: requests,
        body: request_body,
    };
    let responses = Given {
        sections: responses,
        body: response_body,
    };
    answer(
        with_given(alloc, rounds, shape, requests, responses),
        report,
    )
}
