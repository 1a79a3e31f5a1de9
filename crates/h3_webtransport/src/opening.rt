//! Streams that this side opens for a session.
ghost use Rattle.std.specs.Prelude.{◌≡◌, ◌&&◌, ◌||◌, not, is_some};
ghost use Rattle.h3_webtransport.specs.Opening.{OpensAtClient, OpensKind, OpensOn, is_one, is_over, open_error, takes_sessions};
ghost use Rattle.h3_webtransport.specs.Opening.{unless_taken};
ghost use Rattle.h3_connection.specs.Endpoint.{EndpointHistory};
ghost use Rattle.h3_connection.specs.Pulling.{is_client};
ghost use Rattle.h3_connection.specs.Sending.{body_refusal};
ghost use Rattle.h3_connection.specs.State.{StandsFor};

use crate::sessions::Sessions;
use h3_connection::event::Refusal;
use h3_proto::frame::SettingId;
use h3_proto::stream::{Side, StreamId};
use h3_proto::webtransport::SessionId;
use h3_session::endpoint::Endpoint;

/// Why no stream of a session can be opened.
#[derive(Clone, Copy, Debug, PartialEq, Eq)]
pub enum OpenError {
    /// As other calls are refused.
    Refused(Refusal),
    /// Sessions are off, or the peer's settings have not come or do not have those that sessions need.
    NoSessions,
}

fn is_one(setting: Option<u64>) -> bool
    ensures { result ≡ is_one setting }
{
    match setting {
        Some(value) => value == 1,
        None => false,
    }
}

// Whether the peer takes sessions, by its settings: extended CONNECT, WebTransport and datagrams.
fn takes_by(side: Side, connects: bool, is_taken: bool, datagrams: bool) -> bool
    ensures { result ≡ ((not (is_client side) || connects) && is_taken && datagrams) }
{
    match side {
        Side::Client => connects && is_taken && datagrams,
        Side::Server => is_taken && datagrams,
    }
}

#[tactic(auto, using(crate::proofs::Opened::takes_of))]
fn takes_sessions(endpoint: &Endpoint, side: Side) -> bool
    ensures { (e : EndpointHistory) → StandsFor endpoint.now e → e.side ≡ side → result ≡ takes_sessions e }
{
    let connects = is_one(endpoint.peer_setting(SettingId::ENABLE_CONNECT_PROTOCOL));
    let is_taken = is_one(endpoint.peer_setting(SettingId::ENABLE_WEBTRANSPORT));
    let datagrams = is_one(endpoint.peer_setting(SettingId::H3_DATAGRAM));
    takes_by(side, connects, is_taken, datagrams)
}

// Whether bytes are refused on the request of a session, out of memory aside: no header section was sent there, or sending has ended.
fn refuses_bytes(endpoint: &Endpoint, session: StreamId) -> bool
    ensures { (e : EndpointHistory) → StandsFor endpoint.now e → result ≡ is_some (body_refusal e session 0) }
{
    let Some(refusal) = endpoint.body_refusal(session, 0) else {
        return false;
    };
    if refusal == Refusal::OutOfMemory {
        return false;
    }
    true
}

// Whether no session goes on there: it has not begun, or one of the halves of its stream has ended.
#[tactic(auto, using(crate::proofs::Opened::over_of))]
fn is_over(endpoint: &Endpoint, session: StreamId) -> bool
    ensures { (e : EndpointHistory) → StandsFor endpoint.now e → result ≡ is_over e session }
{
    let refuses = refuses_bytes(endpoint, session);
    let ended = endpoint.has_ended(session);
    refuses || ended
}

fn refusal_of(is_taken: bool, session: StreamId, refuses: bool) -> Option<OpenError>
    ensures { result ≡ unless_taken is_taken session refuses }
{
    if !is_taken {
        return Some(OpenError::NoSessions);
    }
    if !session.is_request() {
        return Some(OpenError::Refused(Refusal::NotRequestId));
    }
    if refuses {
        return Some(OpenError::Refused(Refusal::NotOpen));
    }
    None
}

impl Sessions {
    /// Opens a stream of the session whose CONNECT request has this id, both ways or from this side alone. Its front waits on it, and
    /// `send_raw` sends after that. A client's stream both ways gets the id that `open_request` would give next, a server's 1, 5 and so on;
    /// one that goes one way gets 14, 18 and so on from a client, 15, 19 and so on from a server. Refused are, in this order, every call
    /// after a connection fault, sessions that are off or that the peer does not take (`NoSessions`), and the id of no request. Next is a
    /// session on whose request no header section was sent, or which is over as sending there has ended, or the peer's end or reset came
    /// (`NotOpen`). Then come a stream both ways of a client after the peer's GOAWAY, and one beyond the last id. `OutOfMemory` comes last.
    #[tactic(auto, using(crate::proofs::Opened::opens_not, crate::proofs::Opened::opens_it, crate::proofs::Opened::opens_none))]
    pub fn open_session_stream(
        &mut self,
        endpoint: &mut Endpoint,
        session: StreamId,
        both_ways: bool,
    ) -> Result<StreamId, OpenError>
        ensures { OpensOn endpoint.old endpoint.new self.old self.new session both_ways result }
    {
        if let Some(error) = self.open_refusal(endpoint, session) {
            return Err(error);
        }
        match self.open_kind(endpoint, SessionId::from(session), both_ways) {
            Ok(id) => Ok(id),
            Err(refusal) => Err(OpenError::Refused(refusal)),
        }
    }

    // Whether there may be sessions.
    #[tactic(auto, using(crate::proofs::Opened::takes_if_on))]
    fn takes(&self, endpoint: &Endpoint) -> bool
        ensures { (e : EndpointHistory) → StandsFor endpoint.now e → e.side ≡ self.now.side
            → result ≡ (self.now.is_on && takes_sessions e) }
    {
        let are_taken = takes_sessions(endpoint, self.side);
        self.is_on && are_taken
    }

    // Why no stream of this session is opened, whichever way it goes.
    #[tactic(auto, using(crate::proofs::Opened::says_closed, crate::proofs::Opened::says_rest))]
    fn open_refusal(&self, endpoint: &Endpoint, session: StreamId) -> Option<OpenError>
        ensures { (e : EndpointHistory) → StandsFor endpoint.now e → e.side ≡ self.now.side → result ≡ open_error e self.now.is_on session }
    {
        if let Some(code) = endpoint.fault() {
            return Some(OpenError::Refused(Refusal::Closed(code)));
        }
        let is_taken = self.takes(endpoint);
        let is_over = is_over(endpoint, session);
        refusal_of(is_taken, session, is_over)
    }

    #[tactic(auto, using(crate::proofs::Opened::opens_one_way, crate::proofs::Opened::opens_at_server, crate::proofs::Opened::opens_at_client))]
    fn open_kind(
        &mut self,
        endpoint: &mut Endpoint,
        session: SessionId,
        both_ways: bool,
    ) -> Result<StreamId, Refusal>
        ensures opens { (h : EndpointHistory) → StandsFor endpoint.old h
            → OpensKind both_ways self.old.side endpoint.old endpoint.new self.old.sessions self.new.sessions session result }
        ensures rest { self.new ≡ record self.old { sessions = self.new.sessions } }
    {
        if !both_ways {
            return self.streams.open_one_way(session);
        }
        match self.side {
            Side::Server => self.streams.open_both_ways(session),
            Side::Client => self.open_beside_requests(endpoint, session),
        }
    }

    // A client's stream both ways has an id of the same row as its requests.
    #[tactic(auto, using(crate::proofs::Opened::client_refused, crate::proofs::Opened::client_lacks, crate::proofs::Opened::client_takes))]
    fn open_beside_requests(
        &mut self,
        endpoint: &mut Endpoint,
        session: SessionId,
    ) -> Result<StreamId, Refusal>
        ensures opens { (h : EndpointHistory) → StandsFor endpoint.old h
            → OpensAtClient endpoint.old endpoint.new self.old.sessions self.new.sessions session result }
        ensures rest { self.new ≡ record self.old { sessions = self.new.sessions } }
    {
        let id = match endpoint.next_request() {
            Ok(id) => id,
            Err(refusal) => return Err(refusal),
        };
        let Ok(()) = self.streams.open_at(id, session) else {
            return Err(Refusal::OutOfMemory);
        };
        // (not refused: the same was asked before)
        endpoint.take_request_id()
    }
}
