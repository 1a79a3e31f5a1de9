//! All streams of the sessions of one endpoint.
ghost use Rattle.std.specs.Prelude.{◌≡◌, ◌≢◌, ◌+◌, ◌<◌, ◌^◌, ℕ, is_some, Some, None, IfSome, OnErr, OnOk};
ghost use Rattle.h3_connection.specs.Calls.{AllSame, Sets};
ghost use Rattle.h3_connection.specs.NextWaiting.{IsLeast};
ghost use Rattle.h3_connection.specs.State.{kept_at};
ghost use Rattle.h3_webtransport_streams.specs.SessionStream.{Changes, both_ways, entered, has_something, is_of, one_way, passes};
ghost use Rattle.h3_webtransport_streams.specs.SessionStream.{receiver_of, session_of, takes_turns};
ghost use Rattle.h3_webtransport_streams.specs.Sessions.{OpensNext, no_streams};

use crate::stream::{Sought, StoredStream};
use crate::turn_ids::TurnIds;
use h3_connection::event::Refusal;
use h3_proto::stream::{Side, StreamId};
use h3_proto::webtransport::SessionId;
use std::alloc::{AllocError, Global};
use std::collections::BTreeMap;
use std::marker::Model;

mod map;
mod receiving;
mod sending;

/// The streams of sessions, no id twice. A contract sees them as the definitions' `SessionsState`.
#[derive(Drop)]
pub struct SessionStreams {
    alloc: Global,
    streams: BTreeMap<u64, StoredStream>,
    turns: TurnIds,
    next_both: u64,
    next_one: u64,
    from: u64,
}

impl Model for SessionStreams {
    ghost use Rattle.h3_webtransport_streams.specs.Indexed.{AreIndexed};
    ghost use Rattle.h3_webtransport_streams.specs.Sessions.{SessionsState};

    ghost Value = { SessionsState };

    ghost view = { λ s. record { streams = s.streams.entries; next_both = s.next_both; next_one = s.next_one; from = s.from } };

    ghost invariant = { λ s. AreIndexed s.turns s.streams.entries };
}

impl SessionStreams {
    /// No stream. It takes no memory.
    #[tactic(auto, using(crate::proofs::Indexing::none_indexed))]
    pub fn new(alloc: Global, side: Side) -> SessionStreams
        ensures { result ≡ no_streams side }
    {
        let next_one = match side {
            Side::Client => 14,
            Side::Server => 15,
        };
        SessionStreams {
            alloc,
            streams: BTreeMap::new(alloc),
            turns: TurnIds::new(alloc),
            next_both: 1,
            next_one,
            from: 0,
        }
    }

    /// Whether a stream is one of a session, or may become one.
    pub fn contains(&self, id: StreamId) -> bool
        ensures { result ≡ is_some (kept_at self.now.streams id) }
    {
        map::get(&self.streams, id).is_some()
    }

    /// Whether what comes on a stream is read here.
    pub fn receives(&self, id: StreamId) -> bool
        ensures { result ≡ is_some (receiver_of (kept_at self.now.streams id)) }
    {
        match map::get(&self.streams, id) {
            Some(stream) => stream.receives(),
            None => false,
        }
    }

    /// The session of a stream, if it is known.
    pub fn session(&self, id: StreamId) -> Option<SessionId>
        ensures { result ≡ session_of (kept_at self.now.streams id) }
    {
        match map::get(&self.streams, id) {
            Some(stream) => stream.session(),
            None => None,
        }
    }

    /// Opens a stream both ways of a session, of an id that was given for it. An `Err` changes nothing: an allocation failed.
    pub fn open_at(&mut self, id: StreamId, session: SessionId) -> Result<(), AllocError>
        ensures ok { OnOk result (Sets self.old.streams self.new.streams id (both_ways session)) }
        ensures rest { self.new ≡ record self.old { streams = self.new.streams } }
        ensures err { OnErr result (AllSame self.old.streams self.new.streams) }
    {
        let Ok(stream) = StoredStream::both_ways(self.alloc, session) else {
            return Err(AllocError);
        };
        map::put(&mut self.turns, &mut self.streams, id, stream)
    }

    /// Opens the next stream both ways of a session at a server. An `Err` changes nothing: there are no further ids, or an allocation
    /// failed.
    pub fn open_both_ways(&mut self, session: SessionId) -> Result<StreamId, Refusal>
        ensures opens { OpensNext self.old.next_both self.old.streams self.new.streams (both_ways session) result }
        ensures ok { OnOk result (self.new ≡ record self.old { streams = self.new.streams; next_both = self.old.next_both + 4 }) }
        ensures err { OnErr result (self.new ≡ record self.old { streams = self.new.streams }) }
    {
        let Ok(id) = StreamId::try_from(self.next_both) else {
            return Err(Refusal::IdsUsedUp);
        };
        let Ok(()) = self.open_at(id, session) else {
            return Err(Refusal::OutOfMemory);
        };
        self.next_both += 4;
        Ok(id)
    }

    /// Opens the next stream of a session that goes one way. Refused in the same way.
    pub fn open_one_way(&mut self, session: SessionId) -> Result<StreamId, Refusal>
        ensures opens { OpensNext self.old.next_one self.old.streams self.new.streams (one_way session) result }
        ensures ok { OnOk result (self.new ≡ record self.old { streams = self.new.streams; next_one = self.old.next_one + 4 }) }
        ensures err { OnErr result (self.new ≡ record self.old { streams = self.new.streams }) }
    {
        let Ok(id) = StreamId::try_from(self.next_one) else {
            return Err(Refusal::IdsUsedUp);
        };
        let Ok(stream) = StoredStream::one_way(self.alloc, session) else {
            return Err(Refusal::OutOfMemory);
        };
        let Ok(()) = map::put(&mut self.turns, &mut self.streams, id, stream) else {
            return Err(Refusal::OutOfMemory);
        };
        self.next_one += 4;
        Ok(id)
    }

    /// A stream of the peer that is read elsewhere is one of this session. It is answered if it goes both ways. An `Err` changes nothing:
    /// an allocation failed.
    pub fn enter(
        &mut self,
        id: StreamId,
        session: SessionId,
        answers: bool,
    ) -> Result<(), AllocError>
        ensures ok { OnOk result (Sets self.old.streams self.new.streams id (entered session answers)) }
        ensures rest { self.new ≡ record self.old { streams = self.new.streams } }
        ensures err { OnErr result (AllSame self.old.streams self.new.streams) }
    {
        let stream = StoredStream::entered(self.alloc, session, answers);
        map::put(&mut self.turns, &mut self.streams, id, stream)
    }

    /// A stream that was entered is of this session.
    pub fn set_session(&mut self, id: StreamId, session: SessionId)
        ensures acts { Changes (λ s. record s { session = Some session }) self.old.streams self.new.streams id }
        ensures rest { self.new ≡ record self.old { streams = self.new.streams } }
    {
        map::set_session(&mut self.streams, id, session);
    }

    /// Nothing is kept of a stream any longer.
    pub fn forget(&mut self, id: StreamId)
        ensures here { kept_at self.new.streams id ≡ None }
        ensures others { (q : ℕ) → q ≢ id → kept_at self.new.streams q ≡ kept_at self.old.streams q }
        ensures rest { self.new ≡ record self.old { streams = self.new.streams } }
    {
        map::take_out(&mut self.turns, &mut self.streams, id);
    }

    /// The least id from `from` on of a stream on which bytes or an end wait. It goes over the streams from `from` on, up to that one.
    pub fn next_to_send(&self, from: u64) -> Option<u64>
        ensures value { IsLeast (λ id. passes has_something (kept_at self.now.streams id)) from result }
        ensures fits { IfSome result (λ id. id < 2 ^ 64) }
    {
        map::next(&self.streams, Sought::ToSend, from)
    }

    /// The least id from `from` on of a stream of this session. It goes over the streams from `from` on, up to that one.
    pub fn next_of_session(&self, session: SessionId, from: u64) -> Option<u64>
        ensures value { IsLeast (λ id. passes (is_of session) (kept_at self.now.streams id)) from result }
        ensures fits { IfSome result (λ id. id < 2 ^ 64) }
    {
        map::next(&self.streams, Sought::Session(session.into_inner()), from)
    }
}
