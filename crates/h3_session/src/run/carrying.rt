//! Bytes, ends and resets that go from one endpoint to the other.
ghost use Rattle.std.specs.Prelude.{◌≡◌, take, true, false, Some, IfOk};
ghost use Rattle.h3_connection.specs.Answers.{delivery_refused};
ghost use Rattle.h3_connection.specs.Endpoint.{EndpointHistory, bytes_waiting};
ghost use Rattle.h3_connection.specs.SendingContracts.{Advances};
ghost use Rattle.h3_connection.specs.State.{StandsFor};
ghost use Rattle.h3_world.specs.declared.event.Answer.TheVariants as answer;
ghost use Rattle.h3_session.specs.Acting.{CarriesBytes, CarriesEnd, CarriesReset, Offers};
ghost use Rattle.h3_session.specs.Running.{answer_of, is_stored, failed, told_answer};

use crate::endpoint::Endpoint;
use bytes::Bytes;
use h3_connection::event::{DeliverError, Refusal};
use h3_proto::stream::StreamId;
use h3_world::event::Answer;
use std::alloc::{AllocError, Global};

/// The code of a reset that goes over: H3_REQUEST_CANCELLED (RFC 9114, section 8.1).
const RESET_CODE: u64 = 0x10c;

/// Why a delivery is not taken, or not read.
fn refusal_of(e: &DeliverError) -> Refusal
    ensures { Some result ≡ delivery_refused (failed e.now) }
{
    match e {
        DeliverError::Refused(refusal) => *refusal,
        DeliverError::OutOfMemory(_) => Refusal::OutOfMemory,
        DeliverError::Kept => Refusal::Kept,
    }
}

/// What a delivery of an end or a reset answers.
fn told(tried: Result<(), DeliverError>) -> Answer
    ensures { result ≡ told_answer tried }
{
    match tried {
        Ok(()) => Answer::Done,
        Err(e) => Answer::Refused(refusal_of(&e)),
    }
}

/// A copy of the first bytes that wait on a stream.
fn front_of(
    alloc: Global,
    writer: &Endpoint,
    id: StreamId,
    count: usize,
) -> Result<Bytes, AllocError>
    ensures { IfOk result (λ bytes. (w : EndpointHistory) → StandsFor writer.now w → bytes ≡ take count (bytes_waiting w id)) }
{
    let mut front = Vec::new(alloc);
    writer.copy_outgoing(id, count, &mut front)?;
    let Ok(bytes) = Bytes::from_vec(front) else {
        return Err(AllocError);
    };
    Ok(bytes)
}

/// What a delivery of so many bytes answers.
fn delivered(tried: Result<(), DeliverError>, count: usize) -> Answer
    ensures { result ≡ answer_of (answer.Delivered count) (delivery_refused tried) }
{
    match tried {
        Ok(()) => Answer::Delivered(count),
        Err(e) => Answer::Refused(refusal_of(&e)),
    }
}

/// Whether the bytes of a delivery were taken, be they read or not.
fn is_stored(tried: &Result<(), DeliverError>) -> bool
    ensures { result ≡ is_stored tried.now }
{
    match tried {
        Ok(()) => true,
        Err(DeliverError::Kept) => true,
        Err(_) => false,
    }
}

/// Takes the first bytes that wait on a stream, or leaves them.
fn advance_if(writer: &mut Endpoint, id: StreamId, count: usize, taken: bool)
    ensures taken { taken ≡ true → Advances writer.old writer.new id count }
    ensures left { taken ≡ false → writer.new ≡ writer.old }
{
    if taken {
        writer.advance(id, count);
    }
}

/// Offers bytes to the reader. Those that it takes leave the writer, which has so many.
fn hand_over(
    writer: &mut Endpoint,
    reader: &mut Endpoint,
    id: StreamId,
    count: usize,
    bytes: Bytes,
) -> Answer
    ensures { Offers id count bytes writer.old reader.old result writer.new reader.new }
{
    let tried = reader.deliver(id, bytes);
    let stored = is_stored(&tried);
    advance_if(writer, id, count, stored);
    delivered(tried, count)
}

/// The first bytes that wait on a stream go over.
pub(super) fn carry_bytes(
    alloc: Global,
    writer: &mut Endpoint,
    reader: &mut Endpoint,
    id: StreamId,
    count: usize,
) -> Answer
    ensures { CarriesBytes id count writer.old reader.old result writer.new reader.new }
{
    if !writer.has_outgoing(id) {
        return Answer::NoStream;
    }
    let waiting = writer.waiting(id);
    if waiting < count {
        return Answer::Short(waiting);
    }
    let Ok(bytes) = front_of(alloc, writer, id, count) else {
        return Answer::Refused(Refusal::OutOfMemory);
    };
    hand_over(writer, reader, id, count, bytes)
}

/// The end of a stream goes over, once it is finished and nothing of it waits.
pub(super) fn carry_end(writer: &mut Endpoint, reader: &mut Endpoint, id: StreamId) -> Answer
    ensures { CarriesEnd id writer.old reader.old result writer.new reader.new }
{
    if !writer.has_outgoing(id) {
        return Answer::NoStream;
    }
    if !writer.is_finished(id) {
        return Answer::Early;
    }
    if writer.waiting(id) > 0 {
        return Answer::Early;
    }
    told(reader.deliver_end(id))
}

/// The reset of a stream goes over.
pub(super) fn carry_reset(writer: &mut Endpoint, reader: &mut Endpoint, id: StreamId) -> Answer
    ensures { CarriesReset id writer.old reader.old result writer.new reader.new }
{
    if !writer.has_outgoing(id) {
        return Answer::NoStream;
    }
    if !writer.is_reset(id) {
        return Answer::Early;
    }
    told(reader.deliver_reset(id, RESET_CODE))
}
