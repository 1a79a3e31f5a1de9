//! Calls of an endpoint, and what they answer.
use crate::answers::line;
use crate::call::Call;
use crate::case::Told;
use crate::items::{pulled, pulled_list};
use crate::reading::call;
use bytes::Bytes;
use h3_connection::event::{DeliverError, Fault, Pull, Refusal};
use h3_connection::setup::{Limits, NewError};
use h3_proto::config::Config;
use h3_proto::stream::{Side, StreamId};
use h3_session::endpoint::Endpoint;
use h3_session::{Fields, ListPull};
use h3_world::event::Answer;

/// What a call answers. None is made of a line that cannot be read.
pub fn answer(told: &mut Told, endpoint: &mut Option<Endpoint>, words: &[&str]) {
    let call = call(told, words);
    if !told.has_failed() {
        perform(told, endpoint, call);
    }
}

/// Makes a call of the endpoint, if there is one, or makes a new one.
fn perform(told: &mut Told, endpoint: &mut Option<Endpoint>, call: Call) {
    match call {
        Call::New(side, config, limits) => begin(told, endpoint, (side, config), limits),
        call => match endpoint {
            Some(endpoint) => act(told, endpoint, call),
            None => told.say("no endpoint"),
        },
    }
}

/// A new endpoint takes the place of the one before.
pub fn begin(
    told: &mut Told,
    endpoint: &mut Option<Endpoint>,
    asked: (Side, Config),
    limits: Limits,
) {
    let (side, config) = asked;
    match Endpoint::new(told.alloc(), side, config, limits, 0) {
        Ok(made) => {
            if let Some(before) = endpoint.replace(made) {
                before.free();
            }
            told.say("ok");
        }
        Err(NewError::TableLimit) => told.say("refused TableLimit"),
        Err(NewError::BlockedLimit) => told.say("refused BlockedLimit"),
        Err(NewError::Settings(_)) => told.say("refused Settings"),
        Err(NewError::UnfinishedLimit) => told.say("refused UnfinishedLimit"),
        Err(NewError::OutOfMemory) => told.say("refused OutOfMemory"),
    }
}

/// What a call answers.
pub fn act(told: &mut Told, endpoint: &mut Endpoint, call: Call) {
    match call {
        Call::New(_, _, _) => told.unreadable(),
        Call::Open => opened(told, endpoint.open_request()),
        Call::Head(id, head) => done(told, endpoint.send_head(id, &head)),
        Call::Fields(id, fields) => done(told, endpoint.send_fields(id, &Fields::of(&fields))),
        Call::Body(id, body) => sent(told, endpoint.send_body(id, body)),
        Call::Trailer(id, trailer) => done(told, endpoint.send_trailer(id, &trailer)),
        Call::Trailers(id, fields) => done(
            told,
            endpoint.send_trailer_fields(id, &Fields::of(&fields)),
        ),
        Call::Finish(id) => done(told, endpoint.finish(id)),
        Call::Reset(id) => done(told, endpoint.reset(id)),
        Call::Cancel(id) => done(told, cancel(endpoint, id)),
        Call::Goaway(id) => done(told, endpoint.goaway(id)),
        Call::Deliver(id, bytes) => delivered(told, deliver(endpoint, id, bytes)),
        Call::End(id) => delivered(told, deliver_end(endpoint, id)),
        Call::Gone(id, code) => delivered(told, deliver_reset(endpoint, id, code)),
        Call::Pull(id) => pulled(told, &pull(endpoint, id)),
        Call::Pulls(id) => pulled_list(told, &pull_fields(endpoint, id)),
        Call::Advance(id, count) => advance(told, endpoint, id, count),
        Call::Waits(id) => waits(told, endpoint, id),
        Call::Lends(id) => lends(told, endpoint, id),
        Call::Tries(id) => told.labeled("tries", endpoint.block_tries(id)),
        Call::Sends(id) => told.say(sends(endpoint, id)),
        Call::Show => shown(told, endpoint),
        Call::Sent => told.labeled("sent", endpoint.sent()),
        Call::Goaways => goaways(told, endpoint),
    }
}

fn advance(told: &mut Told, endpoint: &mut Endpoint, id: StreamId, count: usize) {
    endpoint.advance(id, count);
    told.say("ok");
}

/// Delivers bytes. Those that come back because an allocation failed are delivered once more. If they were taken and not read, an
/// empty piece is delivered, so that they are read.
pub fn deliver(endpoint: &mut Endpoint, id: StreamId, bytes: Bytes) -> Result<(), DeliverError> {
    match endpoint.deliver(id, bytes) {
        Err(DeliverError::OutOfMemory(bytes)) => endpoint.deliver(id, bytes),
        Err(DeliverError::Kept) => endpoint.deliver(id, Bytes::new()),
        told => told,
    }
}

/// Delivers an end, a second time if an allocation failed.
pub fn deliver_end(endpoint: &mut Endpoint, id: StreamId) -> Result<(), DeliverError> {
    match endpoint.deliver_end(id) {
        Err(DeliverError::OutOfMemory(_)) => endpoint.deliver_end(id),
        told => told,
    }
}

/// Delivers a reset, a second time if an allocation failed.
pub fn deliver_reset(endpoint: &mut Endpoint, id: StreamId, code: u64) -> Result<(), DeliverError> {
    match endpoint.deliver_reset(id, code) {
        Err(DeliverError::OutOfMemory(_)) => endpoint.deliver_reset(id, code),
        told => told,
    }
}

/// Pulls, a second time if an allocation failed.
fn pull(endpoint: &mut Endpoint, id: StreamId) -> Pull {
    match endpoint.pull(id) {
        Pull::Fault(Fault::Memory) => endpoint.pull(id),
        told => told,
    }
}

/// Pulls a list, a second time if an allocation failed.
fn pull_fields(endpoint: &mut Endpoint, id: StreamId) -> ListPull {
    match endpoint.pull_fields(id) {
        ListPull::Fault(Fault::Memory) => endpoint.pull_fields(id),
        told => told,
    }
}

/// Cancels, a second time if an allocation failed.
fn cancel(endpoint: &mut Endpoint, id: StreamId) -> Result<(), Refusal> {
    match endpoint.cancel(id) {
        Err(Refusal::OutOfMemory) => endpoint.cancel(id),
        told => told,
    }
}

fn opened(told: &mut Told, tried: Result<StreamId, Refusal>) {
    match tried {
        Ok(id) => line(told, Answer::Opened(id)),
        Err(refusal) => refused(told, refusal),
    }
}

fn done(told: &mut Told, tried: Result<(), Refusal>) {
    match tried {
        Ok(()) => line(told, Answer::Done),
        Err(refusal) => refused(told, refusal),
    }
}

pub fn refused(told: &mut Told, refusal: Refusal) {
    line(told, Answer::Refused(refusal));
}

fn sent(told: &mut Told, tried: Result<(), (Refusal, Bytes)>) {
    match tried {
        Ok(()) => done(told, Ok(())),
        Err((refusal, _body)) => refused(told, refusal),
    }
}

pub fn delivered(told: &mut Told, tried: Result<(), DeliverError>) {
    match tried {
        Ok(()) => done(told, Ok(())),
        Err(e) => refused(told, refusal_of(&e)),
    }
}

/// Why a delivery is not taken, or not read; `None` if it is taken and read.
pub fn why(tried: &Result<(), DeliverError>) -> Option<Refusal> {
    tried.as_ref().err().map(refusal_of)
}

/// Why a delivery is not taken, or not read.
fn refusal_of(e: &DeliverError) -> Refusal {
    match e {
        DeliverError::Refused(refusal) => *refusal,
        DeliverError::OutOfMemory(_) => Refusal::OutOfMemory,
        DeliverError::Kept => Refusal::Kept,
    }
}

/// All that waits on a stream, over pieces.
fn waits(told: &mut Told, endpoint: &Endpoint, id: StreamId) {
    let mut bytes = Vec::new(told.alloc());
    told.done(endpoint.copy_outgoing(id, endpoint.waiting(id), &mut bytes));
    told.say("waits ");
    told.digits(&bytes);
}

fn lends(told: &mut Told, endpoint: &Endpoint, id: StreamId) {
    told.say("lends ");
    told.digits(endpoint.outgoing(id));
}

/// Whether anything can be sent on a stream, and whether that was finished or reset.
fn sends(endpoint: &Endpoint, id: StreamId) -> &'static str {
    if !endpoint.has_outgoing(id) {
        return "no stream";
    }
    if endpoint.is_finished(id) {
        return "finished";
    }
    if endpoint.is_reset(id) {
        return "reset";
    }
    "sends"
}

fn shown(told: &mut Told, endpoint: &Endpoint) {
    let limits = endpoint.peer_limits();
    let answer = Answer::Shown(limits, endpoint.table_size(), endpoint.waiting_heads());
    line(told, answer);
}

fn goaways(told: &mut Told, endpoint: &Endpoint) {
    told.say("goaways");
    for id in endpoint.peer_goaways() {
        told.then_show(id.into_inner());
    }
}
