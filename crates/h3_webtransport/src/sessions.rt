//! The sessions of a connection, beside its endpoint.
ghost use Rattle.std.specs.Prelude.{◌≡◌, ◌&&◌};
ghost use Rattle.h3_connection.specs.State.{kept_at};
ghost use Rattle.h3_connection.specs.NextWaiting.{IsLeast};
ghost use Rattle.h3_webtransport.specs.Joint.{first_joint, has_stream, is_begun_by_peer, is_one_way, is_read, is_server_opened, may_begin};
ghost use Rattle.h3_webtransport_streams.specs.SessionStream.{is_of, passes};

use h3_proto::stream::{Side, StreamId};
use h3_proto::webtransport::SessionId;
use h3_webtransport_streams::streams::SessionStreams;
use std::alloc::Global;
use std::marker::Model;

mod keeping;
mod ordering;
mod receiving;
mod sending;

/// The sessions of one connection. Who has them makes each call that is here with the endpoint in place of the call of the endpoint itself,
/// on whatever stream: it is passed on if no session has the stream. All other calls are the endpoint's. If sessions are off, each call is
/// the endpoint's, and costs one test: the calls of each byte and each packet stand in their caller (`inline`).
#[derive(Drop)]
pub struct Sessions {
    pub(crate) streams: SessionStreams,
    pub(crate) side: Side,
    pub(crate) is_on: bool,
    // a stream of a session sends next, if a request's does too
    pub(crate) is_next: bool,
}

impl Model for Sessions {
    ghost use Rattle.h3_webtransport.specs.Joint.{Joint};

    ghost Value = { Joint };

    ghost view = { λ s. record { sessions = s.streams; side = s.side; is_on = s.is_on; is_next = s.is_next } };
}

impl Sessions {
    /// No session, of an endpoint of this side; and whether there may be any. It takes no memory. Sessions need the settings of
    /// WebTransport, of datagrams and of extended CONNECT: an endpoint that does not announce all three has none.
    pub fn new(alloc: Global, side: Side, is_on: bool) -> Sessions
        ensures { result ≡ first_joint side is_on }
    {
        Sessions {
            streams: SessionStreams::new(alloc, side),
            side,
            is_on,
            is_next: false,
        }
    }

    /// Whether there may be any session.
    #[inline(always)]
    pub fn is_on(&self) -> bool
        ensures { result ≡ self.now.is_on }
    {
        self.is_on
    }

    /// Whether a stream is one of a session.
    #[inline(always)]
    pub fn has(&self, id: StreamId) -> bool
        ensures { result ≡ has_stream self.now id }
    {
        self.is_on && self.streams.contains(id)
    }

    /// The least id from `from` on of a stream of this session, its CONNECT request aside. It takes no memory. When a session ends give up
    /// each of these, and tell QUIC (`close_stream`).
    pub fn next_of_session(&self, session: SessionId, from: u64) -> Option<u64>
        ensures { IsLeast (λ id. passes (is_of session) (kept_at self.now.sessions.streams id)) from result }
    {
        self.streams.next_of_session(session, from)
    }

    // Whether a server opened a stream both ways, of which its client reads here.
    fn is_server_opened(&self, id: StreamId) -> bool
        ensures { result ≡ is_server_opened self.now.side id }
    {
        match self.side {
            Side::Client => id.into_inner() % 4 == 1,
            Side::Server => false,
        }
    }

    // Whether what comes on a stream is read here.
    #[inline(always)]
    pub(crate) fn reads(&self, id: StreamId) -> bool
        ensures { result ≡ is_read self.now id }
    {
        self.is_on
            && (self.streams.receives(id)
                || (self.is_server_opened(id) && !self.streams.contains(id)))
    }

    // Whether the endpoint reads a stream of a session as one that goes one way, or nothing comes on it.
    pub(crate) fn is_one_way(&self, id: StreamId) -> bool
        ensures { result ≡ is_one_way self.now id }
    {
        self.has(id) && !self.streams.receives(id) && !id.is_request()
    }

    // Whether what the endpoint reads on a stream may turn out to be of a session.
    #[inline(always)]
    pub(crate) fn may_begin(&self, id: StreamId) -> bool
        ensures { result ≡ may_begin self.now id }
    {
        self.is_on && !self.streams.contains(id) && is_begun_by_peer(self.side, id)
    }
}

// Whether the peer opens streams of this id, which its endpoint reads.
fn is_begun_by_peer(side: Side, id: StreamId) -> bool
    ensures { result ≡ is_begun_by_peer side id }
{
    let kind = id.into_inner() % 4;
    match side {
        Side::Client => kind == 3,
        Side::Server => kind == 0 || kind == 2,
    }
}
