//! A client and a server over a schedule: two endpoints, and the bytes carried between them.
ghost use Rattle.std.specs.Prelude.{◌≡◌, false, Ok, IfOk};
ghost use Rattle.std.specs.List.{list_any};
ghost use Rattle.h3_world.specs.Ends.{new_ends};
ghost use Rattle.h3_world.specs.Headline.{is_out_of_memory};
ghost use Rattle.h3_world.specs.Small.{ArePlain, AreSmall};
ghost use Rattle.h3_faithful.specs.Faithful.{Faithful};
ghost use Rattle.h3_session.specs.Headlines.{RunsInOneWorld, RunsInWorld};
ghost use Rattle.h3_session.specs.Acting.{ActsEach, RunsByCalls};

mod acting;
mod carrying;
mod typed;

use self::acting::act;
use self::typed::events_are_typed;
use crate::endpoint::Endpoint;
use h3_faithful::laws::each_side_gets_what_the_other_sent;
use h3_headline::laws::two_endpoints_run_in_a_world;
use h3_memory::laws::two_endpoints_run_with_memory;
use h3_proto::stream::Side;
use h3_world::event::{Answer, Event};
use h3_world::setup::Setup;
use std::alloc::{AllocError, Global};

/// What a run gives: an answer for each event, and both endpoints as the schedule left them.
#[derive(Drop)]
pub struct Outcome {
    /// An answer for each event, in order.
    pub answers: Vec<Answer>,
    /// The client after the last event.
    pub client: Endpoint,
    /// The server after the last event.
    pub server: Endpoint,
}

/// Answers the events in order.
fn run_between(
    alloc: Global,
    client: &mut Endpoint,
    server: &mut Endpoint,
    events: &[Event],
) -> Result<Vec<Answer>, AllocError>
    ensures { IfOk result (λ answers. ActsEach client.old server.old events.now answers.items client.new server.new) }
{
    let mut answers = Vec::with_capacity(alloc, events.len())?;
    for event in events {
        let answer = act(alloc, client, server, event);
        answers.push(answer)?;
    }
    Ok(answers)
}

/// Both values, or the first error. A type parameter is dropped by one call: no body here or in `run` opens an endpoint's parts for
/// each exit.
fn both<A: Drop, B: Drop>(
    first: Result<A, AllocError>,
    second: Result<B, AllocError>,
) -> Result<(A, B), AllocError>
    ensures { IfOk result (λ made. (first ≡ Ok made.0) × (second ≡ Ok made.1)) }
{
    match first {
        Ok(first) => beside(first, second),
        Err(e) => Err(e),
    }
}

fn beside<A: Drop, B: Drop>(first: A, second: Result<B, AllocError>) -> Result<(A, B), AllocError>
    ensures { IfOk result (λ made. (first ≡ made.0) × (second ≡ Ok made.1)) }
{
    match second {
        Ok(second) => Ok((first, second)),
        Err(e) => Err(e),
    }
}

/// Drives a client and a server by the events, in order, and answers each. `Err` arises only if there is no room for the endpoints and the
/// answers, before the first event.
///
/// Whichever allocations fail:
/// - `calls`: each event is answered by the calls of the endpoints that it names, by their own contracts. The endpoints are returned as
///   these calls left them.
/// - `faithful`: in every setup, with both sides strict, one or none, with limits or without, up to a connection fault. Its bound is less
///   than 2^56 bytes for a section or body that is sent. By the events and their answers alone, after each event: what a side pulled from a
///   stream is a front of what the other side sent on it, and with the end it is all of that. A send that is next on its stream is
///   accepted, or an allocation fails. (A strict side, or what a side does not read itself, may be found malformed. And a strict connection
///   begins no request after GOAWAY.) With nothing left to deliver, a pull pauses only after all that was sent. If both sides ask for
///   strict messages, or both do not, there is no connection fault.
/// - `world`: within the same bound, all answers up to a connection fault are those of a run of one world, in which allocations may fail.
///   What a side keeps and has not read counts as not delivered there. An answer that does not report out of memory is one of that world,
///   and one that does loses nothing. Beside that a strict side refuses a send as malformed, and any side what it does not read itself, and
///   nothing changes. And a pull finds a message malformed or too long, and gives it up. If no connection fault arises, the endpoints that
/// are returned stand in the last world, with what they keep, once they are taken for ones without strict messages and limits that take any
/// protocol. If neither side asks for strict messages or has a limit, and each takes the protocols that are named, each step is plain or
/// one of memory, and the endpoints stand there as they are.
///
/// If no answer reports out of memory:
/// - `headline`: within the same bound, of plain sides. Neither asks for strict messages or limits what is unfinished, and no `:protocol`
///   is named that one of the two sides does not take (`ArePlain`). Then the answers are a run of the world of a connection, and the
///   endpoints that are returned stand in its last world. In each of its steps no connection fault arises, and a send that is in order and
///   within the known limit is accepted. A pull returns what was sent, or pauses exactly when that isn't there. With everything delivered
///   everything comes out, and no more header sections wait than were announced.
///
/// What follows from `calls` is a law (`crate::laws::calls_are_steps_of_two_endpoints`).
pub fn run(alloc: Global, setup: Setup, events: &[Event]) -> Result<Outcome, AllocError>
    ensures calls { IfOk result (λ out. RunsByCalls (new_ends setup) events.now out.answers.items out.client out.server) }
    ensures faithful { IfOk result (λ out. AreSmall events.now → Faithful setup events.now out.answers.items) }
    ensures world { IfOk result (λ out. AreSmall events.now → RunsInOneWorld setup events.now out.answers.items out.client out.server) }
    ensures headline { IfOk result (λ out. list_any is_out_of_memory out.answers.items ≡ false → AreSmall events.now
        → ArePlain setup events.now →
        RunsInWorld setup events.now out.answers.items out.client out.server) }
{
    each_side_gets_what_the_other_sent();
    two_endpoints_run_in_a_world();
    two_endpoints_run_with_memory();
    events_are_typed(events);
    let (client, server) = setup.into_sides();
    let client = Endpoint::announcing(alloc, Side::Client, client);
    let server = Endpoint::announcing(alloc, Side::Server, server);
    let (mut client, mut server) = both(client, server)?;
    let answers = run_between(alloc, &mut client, &mut server, events);
    let ((client, server), answers) = beside((client, server), answers)?;
    Ok(Outcome {
        answers,
        client,
        server,
    })
}
