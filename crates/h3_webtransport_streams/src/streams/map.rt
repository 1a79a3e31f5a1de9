//! The streams in a map by their ids.
ghost use Rattle.std.specs.List.{concat};
ghost use Rattle.std.specs.Prelude.{◌≡◌, ◌≢◌, ℕ, ◌+◌, ◌<◌, ◌^◌, length, unwrap_or, true, false, is_none, is_some, Some, None};
ghost use Rattle.std.specs.Prelude.{IfErr, IfNone, IfOk, IfSome, IsSome, OnErr, OnOk};
ghost use Rattle.h3_connection.specs.Answers.{call_refused};
ghost use Rattle.h3_connection.specs.Calls.{AllSame, Sets};
ghost use Rattle.h3_connection.specs.NextWaiting.{IsLeast};
ghost use Rattle.h3_connection.specs.State.{kept_at};
ghost use Rattle.h3_connection.specs.declared.event.Pull.TheVariants.{NoMessages};
ghost use Rattle.h3_connection.specs.declared.event.Refusal.TheVariants.{NotOpen, OutOfMemory};
ghost use Rattle.h3_webtransport_streams.specs.Begun.{Delivers, TakesBytes, refusal_of, stream_or_unseen, tells_session};
ghost use Rattle.h3_webtransport_streams.specs.Closing.{Closes, closing};
ghost use Rattle.h3_webtransport_streams.specs.Indexed.{AreAtMost, AreIndexed, AreIndexedBut};
ghost use Rattle.h3_webtransport_streams.specs.Receiver.{canceled, pulled};
ghost use Rattle.h3_webtransport_streams.specs.Sender.{cut_off, end_told, finished, held, sent};
ghost use Rattle.h3_webtransport_streams.specs.SessionStream.{Acts, Changes, answer_at, gives_up, passes, receiving, sending};
ghost use Rattle.h3_webtransport_streams.specs.SessionStream.{takes, takes_turns, unread_of};
ghost use Rattle.h3_webtransport_streams.specs.Sought.{is_sought};

use crate::receiver::Begun;
use crate::stream::{Sought, StoredStream};
use crate::turn_ids::TurnIds;
use bytes::Bytes;
use h3_connection::event::{DeliverError, Pull, Refusal};
use h3_proto::stream::StreamId;
use h3_proto::webtransport::SessionId;
use std::alloc::{AllocError, Global};
use std::collections::BTreeMap;

/// The stream of this id.
pub(super) fn get(streams: &BTreeMap<u64, StoredStream>, id: StreamId) -> Option<&StoredStream>
    ensures some { IfSome result (λ stream. kept_at streams.now.entries id ≡ Some stream.now) }
    ensures none { IfNone result (kept_at streams.now.entries id ≡ None) }
{
    streams.get(&id.into_inner())
}

// Whether the stream of this id is there and takes turns.
fn takes_turns(streams: &BTreeMap<u64, StoredStream>, id: StreamId) -> bool
    ensures { result ≡ passes takes_turns (kept_at streams.now.entries id) }
{
    match streams.get(&id.into_inner()) {
        Some(stream) => stream.takes_turns(),
        None => false,
    }
}

/// The stream of this id has changed, and no other one: its id enters the index, or leaves it. It takes no memory.
#[tactic(auto, using(crate::proofs::Indexing::entered_indexed, crate::proofs::Indexing::left_indexed, crate::proofs::Indexing::has_room))]
pub(super) fn settle(turns: &mut TurnIds, streams: &BTreeMap<u64, StoredStream>, id: StreamId)
    requires { AreIndexedBut id turns.old streams.now.entries }
    ensures { AreIndexed turns.new streams.now.entries }
{
    if takes_turns(streams, id) {
        turns.enter(id.into_inner());
    } else {
        turns.leave(id.into_inner());
    }
}

// Puts a stream there, and makes room for its id. An `Err` changes nothing: an allocation failed.
#[tactic(auto, using(crate::proofs::Indexing::same_room))]
fn insert(
    turns: &mut TurnIds,
    streams: &mut BTreeMap<u64, StoredStream>,
    id: StreamId,
    stream: StoredStream,
) -> Result<(), AllocError>
    requires { AreIndexed turns.old streams.old.entries }
    ensures ok { OnOk result (Sets streams.old.entries streams.new.entries id stream) }
    ensures err { OnErr result (AllSame streams.old.entries streams.new.entries) }
    ensures ids { turns.new.ids ≡ turns.old.ids }
    ensures room { AreAtMost (λ q. is_some (kept_at streams.new.entries q)) turns.new.room }
{
    let Ok(()) = turns.reserve(streams.len()) else {
        return Err(AllocError);
    };
    let Ok(_) = streams.insert(id.into_inner(), stream) else {
        return Err(AllocError);
    };
    Ok(())
}

/// Puts a stream there. An `Err` changes nothing: an allocation failed.
#[tactic(auto, using(crate::proofs::Indexing::put_but, crate::proofs::Indexing::same_indexed))]
pub(super) fn put(
    turns: &mut TurnIds,
    streams: &mut BTreeMap<u64, StoredStream>,
    id: StreamId,
    stream: StoredStream,
) -> Result<(), AllocError>
    requires { AreIndexed turns.old streams.old.entries }
    ensures ok { OnOk result (Sets streams.old.entries streams.new.entries id stream) }
    ensures err { OnErr result (AllSame streams.old.entries streams.new.entries) }
    ensures indexed { AreIndexed turns.new streams.new.entries }
{
    let Ok(()) = insert(turns, streams, id, stream) else {
        return Err(AllocError);
    };
    settle(turns, streams, id);
    Ok(())
}

/// The stream of this id is of this session.
pub(super) fn set_session(
    streams: &mut BTreeMap<u64, StoredStream>,
    id: StreamId,
    session: SessionId,
)
    ensures { Changes (λ s. record s { session = Some session }) streams.old.entries streams.new.entries id }
{
    if let Some(stream) = streams.get_mut(&id.into_inner()) {
        stream.set_session(session);
    }
}

/// Nothing more is needed of the stream of this id, which another part read, and whose end came there or not.
pub(super) fn give_up(
    streams: &mut BTreeMap<u64, StoredStream>,
    alloc: Global,
    id: StreamId,
    ended: bool,
)
    ensures { Changes (λ s. gives_up s ended) streams.old.entries streams.new.entries id }
{
    if let Some(stream) = streams.get_mut(&id.into_inner()) {
        stream.give_up(alloc, ended);
    }
}

/// Takes the stream of this id out, if there is one.
#[tactic(auto, using(crate::proofs::Indexing::gone_indexed))]
pub(super) fn take_out(turns: &mut TurnIds, streams: &mut BTreeMap<u64, StoredStream>, id: StreamId)
    requires { AreIndexed turns.old streams.old.entries }
    ensures here { kept_at streams.new.entries id ≡ None }
    ensures others { (q : ℕ) → q ≢ id → kept_at streams.new.entries q ≡ kept_at streams.old.entries q }
    ensures indexed { AreIndexed turns.new streams.new.entries }
{
    drop(streams.remove(&id.into_inner()));
    turns.leave(id.into_inner());
}

/// Sends bytes on the stream of this id.
pub(super) fn send(
    streams: &mut BTreeMap<u64, StoredStream>,
    id: StreamId,
    bytes: Bytes,
) -> Result<(), (Refusal, Bytes)>
    ensures ok { OnOk result (Acts (Some NotOpen) (sending (Some NotOpen)
        (λ s. sent s bytes)) streams.old.entries streams.new.entries id None) }
    ensures why { IfErr result (λ e. e.0 ≡ unwrap_or (answer_at (Some NotOpen) (sending (Some NotOpen) (λ s. sent s bytes))
        (kept_at streams.old.entries id)) OutOfMemory) }
    ensures err { IfErr result (λ e. (e.1 ≡ bytes) × AllSame streams.old.entries streams.new.entries) }
{
    let Some(stream) = streams.get_mut(&id.into_inner()) else {
        return Err((Refusal::NotOpen, bytes));
    };
    match stream.send(bytes) {
        Ok(()) => Ok(()),
        Err(refused) => Err(refused),
    }
}

/// All was sent on the stream of this id.
pub(super) fn finish(streams: &mut BTreeMap<u64, StoredStream>, id: StreamId) -> Result<(), Refusal>
    ensures { Acts (Some NotOpen) (sending (Some NotOpen) finished) streams.old.entries streams.new.entries id (call_refused result) }
{
    match streams.get_mut(&id.into_inner()) {
        Some(stream) => stream.finish(),
        None => Err(Refusal::NotOpen),
    }
}

/// Sending on the stream of this id ends here.
pub(super) fn reset(
    streams: &mut BTreeMap<u64, StoredStream>,
    alloc: Global,
    id: StreamId,
) -> Result<(), Refusal>
    ensures { Acts (Some NotOpen) (sending (Some NotOpen) cut_off) streams.old.entries streams.new.entries id (call_refused result) }
{
    match streams.get_mut(&id.into_inner()) {
        Some(stream) => stream.reset(alloc),
        None => Err(Refusal::NotOpen),
    }
}

/// Takes the first bytes that wait on the stream of this id, at most all.
pub(super) fn advance(streams: &mut BTreeMap<u64, StoredStream>, id: StreamId, count: usize)
    ensures { Changes (λ s. takes s count) streams.old.entries streams.new.entries id }
{
    if let Some(stream) = streams.get_mut(&id.into_inner()) {
        stream.advance(count);
    }
}

/// QUIC took the end of the stream of this id, if that was next: it answers whether it was.
pub(super) fn end_taken(streams: &mut BTreeMap<u64, StoredStream>, id: StreamId) -> bool
    ensures { Acts false (sending false end_told) streams.old.entries streams.new.entries id result }
{
    match streams.get_mut(&id.into_inner()) {
        Some(stream) => stream.end_taken(),
        None => false,
    }
}

/// QUIC has no credit for the stream of this id, or has it again. It answers whether this side sends on it.
pub(super) fn hold(streams: &mut BTreeMap<u64, StoredStream>, id: StreamId, is_held: bool) -> bool
    ensures { Acts false (sending false (λ s. (true, held s is_held))) streams.old.entries streams.new.entries id result }
{
    match streams.get_mut(&id.into_inner()) {
        Some(stream) => stream.hold(is_held),
        None => false,
    }
}

/// What comes next on the stream of this id.
pub(super) fn pull(streams: &mut BTreeMap<u64, StoredStream>, id: StreamId) -> Pull
    ensures { Acts NoMessages (λ s. receiving NoMessages (λ r. pulled r s.session) s) streams.old.entries streams.new.entries id result }
{
    match streams.get_mut(&id.into_inner()) {
        Some(stream) => stream.pull(),
        None => Pull::NoMessages,
    }
}

/// Nothing more of the stream of this id is needed.
pub(super) fn cancel(
    streams: &mut BTreeMap<u64, StoredStream>,
    alloc: Global,
    id: StreamId,
) -> Result<(), Refusal>
    ensures { Acts (Some NotOpen) (receiving (Some NotOpen) canceled) streams.old.entries streams.new.entries id (call_refused result) }
{
    match streams.get_mut(&id.into_inner()) {
        Some(stream) => stream.cancel(alloc),
        None => Err(Refusal::NotOpen),
    }
}

/// Puts a stream there of which nothing came, if there is none, and returns whether there was none. An `Err` changes nothing.
#[tactic(auto, using(crate::proofs::Indexing::unseen_indexed, crate::proofs::Indexing::same_indexed))]
fn open(
    turns: &mut TurnIds,
    streams: &mut BTreeMap<u64, StoredStream>,
    alloc: Global,
    id: StreamId,
) -> Result<bool, AllocError>
    requires { AreIndexed turns.old streams.old.entries }
    ensures ok { OnOk result (Sets streams.old.entries streams.new.entries id (stream_or_unseen streams.old.entries id)) }
    ensures absent { IfOk result (λ is_new. is_new ≡ is_none (kept_at streams.old.entries id)) }
    ensures err { OnErr result (AllSame streams.old.entries streams.new.entries) }
    ensures indexed { AreIndexed turns.new streams.new.entries }
{
    if streams.contains_key(&id.into_inner()) {
        return Ok(false);
    }
    let Ok(()) = insert(turns, streams, id, StoredStream::unseen(alloc)) else {
        return Err(AllocError);
    };
    Ok(true)
}

/// Why what comes on the stream of this id is refused.
pub(super) fn arrival_refusal(
    streams: &BTreeMap<u64, StoredStream>,
    id: StreamId,
) -> Option<Refusal>
    ensures { result ≡ refusal_of (stream_or_unseen streams.now.entries id).receiver }
{
    match streams.get(&id.into_inner()) {
        Some(stream) => stream.arrival_refusal(),
        None => None,
    }
}

/// How many bytes came on the stream of this id and were not pulled.
pub(super) fn unread_len(streams: &BTreeMap<u64, StoredStream>, id: StreamId) -> usize
    ensures { result ≡ length (concat (unread_of (stream_or_unseen streams.now.entries id).receiver)) }
{
    match streams.get(&id.into_inner()) {
        Some(stream) => stream.unread_len(),
        None => 0,
    }
}

// Bytes come on a stream that is there, and takes them.
fn arrive(
    streams: &mut BTreeMap<u64, StoredStream>,
    alloc: Global,
    id: StreamId,
    bytes: Bytes,
) -> Result<Begun, Bytes>
    requires there { IsSome (kept_at streams.old.entries id) }
    requires takes { refusal_of (stream_or_unseen streams.old.entries id).receiver ≡ None }
    requires fits { length (concat (unread_of (stream_or_unseen streams.old.entries id).receiver)) + length bytes < 2 ^ 64 }
    ensures ok { IfOk result (TakesBytes streams.old.entries streams.new.entries id bytes (stream_or_unseen streams.old.entries id)
        (stream_or_unseen streams.old.entries id).receiver) }
    ensures err { IfErr result (λ back. (back ≡ bytes) × AllSame streams.old.entries streams.new.entries) }
{
    let Some(stream) = streams.get_mut(&id.into_inner()) else {
        unreachable!()
    };
    stream.arrive(alloc, bytes)
}

// Whether the bytes told a session: their stream is answered from then on.
fn tells_session(begun: &Begun) -> bool
    ensures { result ≡ tells_session begun.now }
{
    match begun {
        Begun::Taken(session) => session.is_some(),
        Begun::NoFront => false,
        Begun::NoSession => false,
    }
}

// The same, in the index too.
#[tactic(auto, using(crate::proofs::Indexing::taken_but, crate::proofs::Indexing::again_indexed))]
fn arrive_there(
    turns: &mut TurnIds,
    streams: &mut BTreeMap<u64, StoredStream>,
    alloc: Global,
    id: StreamId,
    bytes: Bytes,
) -> Result<Begun, Bytes>
    requires indexed { AreIndexed turns.old streams.old.entries }
    requires there { IsSome (kept_at streams.old.entries id) }
    requires takes { refusal_of (stream_or_unseen streams.old.entries id).receiver ≡ None }
    requires fits { length (concat (unread_of (stream_or_unseen streams.old.entries id).receiver)) + length bytes < 2 ^ 64 }
    ensures ok { IfOk result (TakesBytes streams.old.entries streams.new.entries id bytes (stream_or_unseen streams.old.entries id)
        (stream_or_unseen streams.old.entries id).receiver) }
    ensures err { IfErr result (λ back. (back ≡ bytes) × AllSame streams.old.entries streams.new.entries) }
    ensures indexed { AreIndexed turns.new streams.new.entries }
{
    let begun = match arrive(streams, alloc, id, bytes) {
        Ok(begun) => begun,
        Err(back) => return Err(back),
    };
    if tells_session(&begun) {
        settle(turns, streams, id);
    }
    Ok(begun)
}

/// Bytes come, and open the stream if it is not there. An `Err` changes nothing.
pub(super) fn deliver(
    turns: &mut TurnIds,
    streams: &mut BTreeMap<u64, StoredStream>,
    alloc: Global,
    id: StreamId,
    bytes: Bytes,
) -> Result<Begun, DeliverError>
    requires { AreIndexed turns.old streams.old.entries }
    ensures delivers { Delivers streams.old.entries streams.new.entries id bytes result }
    ensures indexed { AreIndexed turns.new streams.new.entries }
{
    if let Some(refusal) = arrival_refusal(streams, id) {
        return Err(DeliverError::Refused(refusal));
    }
    if unread_len(streams, id).checked_add(bytes.len()).is_none() {
        return Err(DeliverError::OutOfMemory(bytes));
    }
    let Ok(is_new) = open(turns, streams, alloc, id) else {
        return Err(DeliverError::OutOfMemory(bytes));
    };
    match arrive_there(turns, streams, alloc, id, bytes) {
        Ok(begun) => Ok(begun),
        Err(back) => {
            if is_new {
                take_out(turns, streams, id);
            }
            Err(DeliverError::OutOfMemory(back))
        }
    }
}

// The end of a stream that is there comes (no code), or its reset.
fn close_there(
    streams: &mut BTreeMap<u64, StoredStream>,
    alloc: Global,
    id: StreamId,
    code: Option<u64>,
)
    requires { IsSome (kept_at streams.old.entries id) }
    ensures { Sets streams.old.entries streams.new.entries id (closing code (stream_or_unseen streams.old.entries id)
        (stream_or_unseen streams.old.entries id).receiver) }
{
    let Some(stream) = streams.get_mut(&id.into_inner()) else {
        unreachable!()
    };
    stream.close(alloc, code);
}

/// The end of a stream comes (no code), or its reset, and opens it if it is not there. An `Err` changes nothing.
#[tactic(auto, using(crate::proofs::Indexing::closed_indexed))]
pub(super) fn close(
    turns: &mut TurnIds,
    streams: &mut BTreeMap<u64, StoredStream>,
    alloc: Global,
    id: StreamId,
    code: Option<u64>,
) -> Result<(), DeliverError>
    requires { AreIndexed turns.old streams.old.entries }
    ensures closes { Closes streams.old.entries streams.new.entries id code result }
    ensures indexed { AreIndexed turns.new streams.new.entries }
{
    if let Some(refusal) = arrival_refusal(streams, id) {
        return Err(DeliverError::Refused(refusal));
    }
    let Ok(_) = open(turns, streams, alloc, id) else {
        return Err(DeliverError::OutOfMemory(Bytes::new()));
    };
    close_there(streams, alloc, id, code);
    Ok(())
}

/// The least id from `from` on of a stream that is looked for. It looks at those from `from` on, up to that one.
pub(super) fn next(streams: &BTreeMap<u64, StoredStream>, sought: Sought, from: u64) -> Option<u64>
    ensures value { IsLeast (λ id. passes (is_sought sought) (kept_at streams.now.entries id)) from result }
    ensures fits { IfSome result (λ id. id < 2 ^ 64) }
{
    for (id, stream) in streams.range(from..) {
        if stream.is_sought(sought) {
            return Some(*id);
        }
    }
    None
}
