//! The peer's unidirectional streams by their ids.
ghost use Rattle.std.specs.Prelude.{◌≡◌, ◌+◌, ◌<◌, ◌^◌, ◌++◌, [], false, Some, None, length, IfSome, IfNone, IfOk, IfErr, OnErr};
ghost use Rattle.std.specs.List.{concat};
ghost use Rattle.h3_connection.specs.Calls.{AllSame};
ghost use Rattle.h3_connection.specs.Keeping.{is_settled_peer};
ghost use Rattle.h3_connection.specs.StrictConnection.{known_streams};
ghost use Rattle.h3_connection.specs.State.{kept_at};
ghost use Rattle.h3_connection.specs.Unidirectional.{is_closed};
ghost use Rattle.h3_connection.specs.Unread.{held_of_role};
ghost use Rattle.h3_streams.specs.Placed.{peer_stream, Pulls, Receives, Closes};
ghost use Rattle.h3_streams.specs.Plain.{plain_streams};
ghost use Rattle.h3_unidirectional.specs.Told.{kind_in};

use crate::map;
use crate::plain::PlainStreams;
use bytes::Bytes;
use h3_connection::event::Pull;
use h3_connection::setup::Announced;
use h3_proto::stream::StreamId;
use h3_unidirectional::stream::{Kind, Received, UnidirectionalStream};
use std::alloc::{AllocError, Global};
use std::collections::BTreeMap;
use std::marker::Model;

/// The peer's streams of which anything came. A contract sees them as a list by their ids.
#[derive(Drop)]
pub struct PeerStreams {
    // those whose type alone tells their role: nothing else is kept of them
    plain: PlainStreams,
    // the others, and those whose number is far ahead of the streams that came
    kept: BTreeMap<u64, UnidirectionalStream>,
}

impl Model for PeerStreams {
    ghost use Rattle.std.specs.Prelude.{◌++◌};
    ghost use Rattle.h3_connection.specs.StreamSets.{Streams};
    ghost use Rattle.h3_connection.specs.Unidirectional.{Unidirectional};
    ghost use Rattle.h3_streams.specs.Plain.{plain_streams};

    ghost Value = { Streams Unidirectional };

    ghost view = { λ p. plain_streams p.plain ++ p.kept.entries };
}

/// Bytes come on a stream that has no place yet: it gets one if they tell its role.
fn receive_elsewhere(
    plain: &mut PlainStreams,
    kept: &mut BTreeMap<u64, UnidirectionalStream>,
    alloc: Global,
    own: &Announced,
    id: StreamId,
    bytes: Bytes,
) -> Result<Received, Bytes>
    requires absent { kept_at (plain_streams plain.old) id ≡ None }
    requires fits { length (concat (peer_stream kept.old.entries id).unread) + length bytes < 2 ^ 64 }
    ensures ok { IfOk result (λ received. Receives (known_streams own.now) (plain_streams plain.old ++ kept.old.entries)
        (plain_streams plain.new ++ kept.new.entries) id bytes received) }
    ensures err { IfErr result (λ back. (back ≡ bytes)
        × AllSame (plain_streams plain.old ++ kept.old.entries) (plain_streams plain.new ++ kept.new.entries)) }
{
    if map::has(kept, id) {
        return map::receive(kept, alloc, own, id, bytes);
    }
    match plain.begin(own, id.into_inner(), kept.len(), bytes) {
        Ok(received) => Ok(received),
        Err(bytes) => map::receive(kept, alloc, own, id, bytes),
    }
}

impl PeerStreams {
    /// None. It takes no memory.
    pub(crate) fn new(alloc: Global) -> PeerStreams
        ensures { result ≡ [] }
    {
        PeerStreams {
            plain: PlainStreams::new(alloc),
            kept: BTreeMap::new(alloc),
        }
    }

    /// The stream of this id, if more than its role is kept of it. What is not returned is not settled.
    pub fn get(&self, id: &u64) -> Option<&UnidirectionalStream>
        ensures some { IfSome result (λ stream. kept_at self.now id.now ≡ Some stream.now) }
        ensures none { IfNone result (is_settled_peer (kept_at self.now id.now) ≡ false) }
    {
        match self.plain.role(*id) {
            Some(_role) => None,
            None => map::get(&self.kept, id),
        }
    }

    /// Whether the end or the reset of a stream came.
    pub(crate) fn is_closed(&self, id: StreamId) -> bool
        ensures { result ≡ is_closed (peer_stream self.now id) }
    {
        match self.plain.role(id.into_inner()) {
            Some(_role) => self.plain.is_closed(id.into_inner()),
            None => map::is_closed(&self.kept, id),
        }
    }

    /// What a stream is read as. One of which nothing came is not told yet. It takes no memory, and one look-up.
    pub fn kind(&self, id: StreamId) -> Kind
        ensures { result ≡ kind_in (peer_stream self.now id).role }
    {
        match self.plain.role(id.into_inner()) {
            Some(role) => role.kind(),
            None => map::kind(&self.kept, id),
        }
    }

    /// How many bytes of a session came on a stream and were not returned.
    pub(crate) fn unread_len(&self, id: StreamId) -> usize
        ensures { result ≡ length (concat (peer_stream self.now id).unread) }
    {
        match self.plain.role(id.into_inner()) {
            Some(_role) => 0,
            None => map::unread_len(&self.kept, id),
        }
    }

    /// How many bytes of a stream are held: of its type or its session.
    pub(crate) fn held(&self, id: StreamId) -> usize
        ensures { result ≡ held_of_role (peer_stream self.now id) (peer_stream self.now id).role }
    {
        match self.plain.role(id.into_inner()) {
            Some(_role) => 0,
            None => map::held(&self.kept, id),
        }
    }

    /// The next item of a stream. It takes no memory.
    pub(crate) fn pull(&mut self, id: StreamId) -> Pull
        ensures { Pulls (kept_at self.old id) result self.old self.new id }
    {
        match self.plain.role(id.into_inner()) {
            Some(_role) => Pull::NoMessages,
            None => map::pull(&mut self.kept, id),
        }
    }

    /// The end of a stream came, or its reset with this code. It returns whether the connection needs the stream. An `Err` changes nothing.
    pub(crate) fn close(
        &mut self,
        alloc: Global,
        id: StreamId,
        code: Option<u64>,
    ) -> Result<bool, AllocError>
        ensures ok { IfOk result (λ is_critical. Closes self.old self.new id code is_critical) }
        ensures err { OnErr result (AllSame self.old self.new) }
    {
        match self.plain.role(id.into_inner()) {
            Some(role) => {
                let Ok(()) = self.plain.close(id.into_inner(), code) else {
                    return Err(AllocError);
                };
                Ok(role.is_critical())
            }
            None => map::close(&mut self.kept, alloc, id, code),
        }
    }

    /// Bytes come, and open the stream if it is not there. An `Err` changes nothing, and returns the bytes.
    pub(crate) fn receive(
        &mut self,
        alloc: Global,
        own: &Announced,
        id: StreamId,
        bytes: Bytes,
    ) -> Result<Received, Bytes>
        requires { length (concat (peer_stream self.old id).unread) + length bytes < 2 ^ 64 }
        ensures ok { IfOk result (λ received. Receives (known_streams own.now) self.old self.new id bytes received) }
        ensures err { IfErr result (λ back. (back ≡ bytes) × AllSame self.old self.new) }
    {
        match self.plain.role(id.into_inner()) {
            Some(role) => Ok(role.received(bytes)),
            None => receive_elsewhere(&mut self.plain, &mut self.kept, alloc, own, id, bytes),
        }
    }
}
