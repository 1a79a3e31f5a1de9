//! Streams of the peer in a map by their ids.
ghost use Rattle.std.specs.Prelude.{◌≡◌, ◌≢◌, ◌+◌, ◌<◌, ◌^◌, ℕ, length, IsSome, IfSome, IfNone, Some, None, is_some, is_none, IfOk, IfErr};
ghost use Rattle.std.specs.Prelude.{OnOk, OnErr};
ghost use Rattle.std.specs.List.{concat};
ghost use Rattle.h3_connection.specs.Calls.{Sets, AllSame};
ghost use Rattle.h3_connection.specs.StrictConnection.{known_streams};
ghost use Rattle.h3_connection.specs.State.{kept_at};
ghost use Rattle.h3_connection.specs.Unidirectional.{is_closed};
ghost use Rattle.h3_connection.specs.Unread.{held_of_role};
ghost use Rattle.h3_streams.specs.Placed.{peer_stream, Pulls, Receives, Closes};
ghost use Rattle.h3_unidirectional.specs.Told.{kind_in};

use bytes::Bytes;
use h3_connection::event::Pull;
use h3_connection::setup::Announced;
use h3_proto::stream::StreamId;
use h3_unidirectional::stream::{Kind, Received, UnidirectionalStream};
use std::alloc::{AllocError, Global};
use std::collections::BTreeMap;

/// The stream of this id.
pub(crate) fn get<'a>(
    streams: &'a BTreeMap<u64, UnidirectionalStream>,
    id: &u64,
) -> Option<&'a UnidirectionalStream>
    ensures some { IfSome result (λ stream. kept_at streams.now.entries id.now ≡ Some stream.now) }
    ensures none { IfNone result (kept_at streams.now.entries id.now ≡ None) }
{
    streams.get(id)
}

/// Whether there is a stream of this id.
pub(crate) fn has(streams: &BTreeMap<u64, UnidirectionalStream>, id: StreamId) -> bool
    ensures { result ≡ is_some (kept_at streams.now.entries id) }
{
    streams.contains_key(&id.into_inner())
}

/// Whether the end or the reset of the stream of this id came.
pub(crate) fn is_closed(streams: &BTreeMap<u64, UnidirectionalStream>, id: StreamId) -> bool
    ensures { result ≡ is_closed (peer_stream streams.now.entries id) }
{
    match streams.get(&id.into_inner()) {
        Some(stream) => stream.is_closed(),
        None => false,
    }
}

/// What the stream of this id is read as. One of which nothing came is not told yet.
pub(crate) fn kind(streams: &BTreeMap<u64, UnidirectionalStream>, id: StreamId) -> Kind
    ensures { result ≡ kind_in (peer_stream streams.now.entries id).role }
{
    match streams.get(&id.into_inner()) {
        Some(stream) => stream.kind(),
        None => Kind::Untold,
    }
}

/// How many bytes of a session came on it and were not returned.
pub(crate) fn unread_len(streams: &BTreeMap<u64, UnidirectionalStream>, id: StreamId) -> usize
    ensures { result ≡ length (concat (peer_stream streams.now.entries id).unread) }
{
    match streams.get(&id.into_inner()) {
        Some(stream) => stream.unread_len(),
        None => 0,
    }
}

/// How many bytes of it are held: of its type or its session.
pub(crate) fn held(streams: &BTreeMap<u64, UnidirectionalStream>, id: StreamId) -> usize
    ensures { result ≡ held_of_role (peer_stream streams.now.entries id) (peer_stream streams.now.entries id).role }
{
    match streams.get(&id.into_inner()) {
        Some(stream) => stream.held(),
        None => 0,
    }
}

/// The next item of the stream of this id.
pub(crate) fn pull(streams: &mut BTreeMap<u64, UnidirectionalStream>, id: StreamId) -> Pull
    ensures { Pulls (kept_at streams.old.entries id) result streams.old.entries streams.new.entries id }
{
    match streams.get_mut(&id.into_inner()) {
        Some(stream) => stream.pull(),
        None => Pull::Pending,
    }
}

/// Puts a stream there of which nothing came, if there is none, and returns whether there was none. An `Err` changes nothing.
fn open(
    streams: &mut BTreeMap<u64, UnidirectionalStream>,
    alloc: Global,
    id: StreamId,
) -> Result<bool, AllocError>
    ensures ok { OnOk result (Sets streams.old.entries streams.new.entries id (peer_stream streams.old.entries id)) }
    ensures absent { IfOk result (λ is_new. is_new ≡ is_none (kept_at streams.old.entries id)) }
    ensures err { OnErr result (AllSame streams.old.entries streams.new.entries) }
{
    if streams.contains_key(&id.into_inner()) {
        return Ok(false);
    }
    streams.insert(id.into_inner(), UnidirectionalStream::new(alloc))?;
    Ok(true)
}

/// Its end came, or its reset with this code. It returns whether the connection needs the stream. An `Err` changes nothing.
pub(crate) fn close(
    streams: &mut BTreeMap<u64, UnidirectionalStream>,
    alloc: Global,
    id: StreamId,
    code: Option<u64>,
) -> Result<bool, AllocError>
    ensures ok { IfOk result (λ is_critical. Closes streams.old.entries streams.new.entries id code is_critical) }
    ensures err { OnErr result (AllSame streams.old.entries streams.new.entries) }
{
    open(streams, alloc, id)?;
    let Some(stream) = streams.get_mut(&id.into_inner()) else {
        unreachable!()
    };
    match code {
        Some(code) => stream.reset(alloc, code),
        None => stream.end(),
    }
    Ok(stream.is_critical())
}

/// Bytes come on a stream that is there.
fn receive_there(
    streams: &mut BTreeMap<u64, UnidirectionalStream>,
    own: &Announced,
    id: StreamId,
    bytes: Bytes,
) -> Result<Received, Bytes>
    requires there { IsSome (kept_at streams.old.entries id) }
    requires fits { length (concat (peer_stream streams.old.entries id).unread) + length bytes < 2 ^ 64 }
    ensures ok { IfOk result (λ received. Receives (known_streams own.now) streams.old.entries streams.new.entries id bytes received) }
    ensures err { IfErr result (λ back. (back ≡ bytes) × AllSame streams.old.entries streams.new.entries) }
{
    let Some(stream) = streams.get_mut(&id.into_inner()) else {
        unreachable!()
    };
    stream.receive(own, bytes)
}

/// Takes the stream of this id out, if there is one.
fn take_out(streams: &mut BTreeMap<u64, UnidirectionalStream>, id: StreamId)
    ensures here { kept_at streams.new.entries id ≡ None }
    ensures others { (q : ℕ) → q ≢ id → kept_at streams.new.entries q ≡ kept_at streams.old.entries q }
{
    drop(streams.remove(&id.into_inner()));
}

/// Bytes come, and open the stream if it is not there. An `Err` changes nothing, and returns the bytes.
pub(crate) fn receive(
    streams: &mut BTreeMap<u64, UnidirectionalStream>,
    alloc: Global,
    own: &Announced,
    id: StreamId,
    bytes: Bytes,
) -> Result<Received, Bytes>
    requires { length (concat (peer_stream streams.old.entries id).unread) + length bytes < 2 ^ 64 }
    ensures ok { IfOk result (λ received. Receives (known_streams own.now) streams.old.entries streams.new.entries id bytes received) }
    ensures err { IfErr result (λ back. (back ≡ bytes) × AllSame streams.old.entries streams.new.entries) }
{
    let Ok(is_new) = open(streams, alloc, id) else {
        return Err(bytes);
    };
    match receive_there(streams, own, id, bytes) {
        Ok(received) => Ok(received),
        Err(back) => {
            if is_new {
                take_out(streams, id);
            }
            Err(back)
        }
    }
}
