//! Calls of one of two endpoints.
ghost use Rattle.std.specs.Prelude.{◌≡◌};
ghost use Rattle.h3_world.specs.declared.event.Event.TheVariants as does;
ghost use Rattle.h3_connection.specs.SendingContracts.{SendsBody};
ghost use Rattle.h3_session.specs.Acting.{Acts, ByOne, Tells};
ghost use Rattle.h3_session.specs.Running.{Shown, opened_answer, done_answer, body_answer};

use super::carrying::{carry_bytes, carry_end, carry_reset};
use crate::endpoint::Endpoint;
use bytes::Bytes;
use h3_coding::varint::VarInt;
use h3_connection::event::Refusal;
use h3_field::Fields;
use h3_header::Header;
use h3_proto::stream::{Side, StreamId};
use h3_world::event::{Answer, Event};
use h3_world::lists::FieldLines;
use std::alloc::Global;

fn opened(tried: Result<StreamId, Refusal>) -> Answer
    ensures { result ≡ opened_answer tried }
{
    match tried {
        Ok(id) => Answer::Opened(id),
        Err(refusal) => Answer::Refused(refusal),
    }
}

fn done(tried: Result<(), Refusal>) -> Answer
    ensures { result ≡ done_answer tried }
{
    match tried {
        Ok(()) => Answer::Done,
        Err(refusal) => Answer::Refused(refusal),
    }
}

fn sent(tried: Result<(), (Refusal, Bytes)>) -> Answer
    ensures { result ≡ body_answer tried }
{
    match tried {
        Ok(()) => Answer::Done,
        Err(refused) => {
            let (refusal, _body) = refused;
            Answer::Refused(refusal)
        }
    }
}

/// A side opens a request stream.
fn open_request(client: &mut Endpoint, server: &mut Endpoint, side: Side) -> Answer
    ensures { Acts (does.OpenRequest side) client.old server.old result client.new server.new }
{
    match side {
        Side::Client => opened(client.open_request()),
        Side::Server => opened(server.open_request()),
    }
}

/// A side sends a header section.
fn send_head(
    client: &mut Endpoint,
    server: &mut Endpoint,
    side: Side,
    id: StreamId,
    head: &Header,
) -> Answer
    ensures { Acts (does.Head side id head.now) client.old server.old result client.new server.new }
{
    match side {
        Side::Client => done(client.send_head(id, head)),
        Side::Server => done(server.send_head(id, head)),
    }
}

/// A side sends a header section as this list.
fn send_fields(
    client: &mut Endpoint,
    server: &mut Endpoint,
    side: Side,
    id: StreamId,
    list: &FieldLines,
) -> Answer
    ensures { Acts (does.Fields side id list.now) client.old server.old result client.new server.new }
{
    match side {
        Side::Client => done(client.send_fields(id, &Fields::of(list.fields()))),
        Side::Server => done(server.send_fields(id, &Fields::of(list.fields()))),
    }
}

/// A side sends some bytes of the body.
fn send_body(
    client: &mut Endpoint,
    server: &mut Endpoint,
    side: Side,
    id: StreamId,
    body: Bytes,
) -> Answer
    ensures { ByOne side (Tells body_answer (λ s t r. SendsBody s t id body r)) client.old server.old result client.new server.new }
{
    match side {
        Side::Client => sent(client.send_body(id, body)),
        Side::Server => sent(server.send_body(id, body)),
    }
}

/// The same of bytes that the event keeps: they are shared.
fn share_body(
    client: &mut Endpoint,
    server: &mut Endpoint,
    side: Side,
    id: StreamId,
    body: &Bytes,
) -> Answer
    ensures { Acts (does.Body side id body.now) client.old server.old result client.new server.new }
{
    let Ok(shared) = body.clone() else {
        return Answer::Refused(Refusal::OutOfMemory);
    };
    send_body(client, server, side, id, shared)
}

/// A side sends the trailer.
fn send_trailer(
    client: &mut Endpoint,
    server: &mut Endpoint,
    side: Side,
    id: StreamId,
    trailer: &Header,
) -> Answer
    ensures { Acts (does.Trailer side id trailer.now) client.old server.old result client.new server.new }
{
    match side {
        Side::Client => done(client.send_trailer(id, trailer)),
        Side::Server => done(server.send_trailer(id, trailer)),
    }
}

/// A side sends the trailer as this list.
fn send_trailer_fields(
    client: &mut Endpoint,
    server: &mut Endpoint,
    side: Side,
    id: StreamId,
    list: &FieldLines,
) -> Answer
    ensures { Acts (does.TrailerFields side id list.now) client.old server.old result client.new server.new }
{
    match side {
        Side::Client => done(client.send_trailer_fields(id, &Fields::of(list.fields()))),
        Side::Server => done(server.send_trailer_fields(id, &Fields::of(list.fields()))),
    }
}

/// A side finishes its message.
fn finish(client: &mut Endpoint, server: &mut Endpoint, side: Side, id: StreamId) -> Answer
    ensures { Acts (does.Finish side id) client.old server.old result client.new server.new }
{
    match side {
        Side::Client => done(client.finish(id)),
        Side::Server => done(server.finish(id)),
    }
}

/// A side resets its sending.
fn reset(client: &mut Endpoint, server: &mut Endpoint, side: Side, id: StreamId) -> Answer
    ensures { Acts (does.Reset side id) client.old server.old result client.new server.new }
{
    match side {
        Side::Client => done(client.reset(id)),
        Side::Server => done(server.reset(id)),
    }
}

/// A side gives up what comes on a stream.
fn cancel(client: &mut Endpoint, server: &mut Endpoint, side: Side, id: StreamId) -> Answer
    ensures { Acts (does.Cancel side id) client.old server.old result client.new server.new }
{
    match side {
        Side::Client => done(client.cancel(id)),
        Side::Server => done(server.cancel(id)),
    }
}

/// A side goes away.
fn goaway(client: &mut Endpoint, server: &mut Endpoint, side: Side, id: VarInt) -> Answer
    ensures { Acts (does.Goaway side id) client.old server.old result client.new server.new }
{
    match side {
        Side::Client => done(client.goaway(id)),
        Side::Server => done(server.goaway(id)),
    }
}

/// Bytes of a side go over to the other.
fn deliver(
    alloc: Global,
    client: &mut Endpoint,
    server: &mut Endpoint,
    side: Side,
    id: StreamId,
    count: usize,
) -> Answer
    ensures { Acts (does.Deliver side id count) client.old server.old result client.new server.new }
{
    match side {
        Side::Client => carry_bytes(alloc, client, server, id, count),
        Side::Server => carry_bytes(alloc, server, client, id, count),
    }
}

/// The end of a side's stream goes over.
fn deliver_end(client: &mut Endpoint, server: &mut Endpoint, side: Side, id: StreamId) -> Answer
    ensures { Acts (does.DeliverEnd side id) client.old server.old result client.new server.new }
{
    match side {
        Side::Client => carry_end(client, server, id),
        Side::Server => carry_end(server, client, id),
    }
}

/// The reset of a side's stream goes over.
fn deliver_reset(client: &mut Endpoint, server: &mut Endpoint, side: Side, id: StreamId) -> Answer
    ensures { Acts (does.DeliverReset side id) client.old server.old result client.new server.new }
{
    match side {
        Side::Client => carry_reset(client, server, id),
        Side::Server => carry_reset(server, client, id),
    }
}

/// A side asks for the next item.
fn pull(client: &mut Endpoint, server: &mut Endpoint, side: Side, id: StreamId) -> Answer
    ensures { Acts (does.Pull side id) client.old server.old result client.new server.new }
{
    match side {
        Side::Client => Answer::Pulled(client.pull(id)),
        Side::Server => Answer::Pulled(server.pull(id)),
    }
}

/// A side asks for the next item, with a list in the place of a header.
fn pull_fields(client: &mut Endpoint, server: &mut Endpoint, side: Side, id: StreamId) -> Answer
    ensures { Acts (does.PullFields side id) client.old server.old result client.new server.new }
{
    match side {
        Side::Client => Answer::Listed(client.pull_fields(id)),
        Side::Server => Answer::Listed(server.pull_fields(id)),
    }
}

/// What an endpoint shows.
fn shown(end: &Endpoint) -> Answer
    ensures { Shown end.now result }
{
    Answer::Shown(end.peer_limits(), end.table_size(), end.waiting_heads())
}

/// A side shows its limits and tables.
fn show(client: &mut Endpoint, server: &mut Endpoint, side: Side) -> Answer
    ensures { Acts (does.Show side) client.old server.old result client.new server.new }
{
    match side {
        Side::Client => shown(client),
        Side::Server => shown(server),
    }
}

/// What comes of one event.
pub(super) fn act(
    alloc: Global,
    client: &mut Endpoint,
    server: &mut Endpoint,
    event: &Event,
) -> Answer
    ensures { Acts event.now client.old server.old result client.new server.new }
{
    match event {
        Event::OpenRequest(side) => open_request(client, server, *side),
        Event::Head(side, id, head) => send_head(client, server, *side, *id, head),
        Event::Fields(side, id, list) => send_fields(client, server, *side, *id, list),
        Event::Body(side, id, body) => share_body(client, server, *side, *id, body),
        Event::Trailer(side, id, trailer) => send_trailer(client, server, *side, *id, trailer),
        Event::TrailerFields(side, id, list) => {
            send_trailer_fields(client, server, *side, *id, list)
        }
        Event::Finish(side, id) => finish(client, server, *side, *id),
        Event::Reset(side, id) => reset(client, server, *side, *id),
        Event::Cancel(side, id) => cancel(client, server, *side, *id),
        Event::Goaway(side, id) => goaway(client, server, *side, *id),
        Event::Deliver(side, id, count) => deliver(alloc, client, server, *side, *id, *count),
        Event::DeliverEnd(side, id) => deliver_end(client, server, *side, *id),
        Event::DeliverReset(side, id) => deliver_reset(client, server, *side, *id),
        Event::Pull(side, id) => pull(client, server, *side, *id),
        Event::PullFields(side, id) => pull_fields(client, server, *side, *id),
        Event::Show(side) => show(client, server, *side),
    }
}
