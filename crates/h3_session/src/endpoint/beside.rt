//! What another part of a connection needs of its endpoint, one beside it that has streams of its own.
ghost use Rattle.std.specs.Prelude.{◌≡◌, Some, unwrap_or};
ghost use Rattle.h3_connection.specs.Endpoint.{EndpointHistory};
ghost use Rattle.h3_connection.specs.State.{StandsFor};
ghost use Rattle.h3_session.specs.Beside.{ClosesFor, DropsSession, ShowsEnd, TakesId, drop_refusal, drop_rules, is_of_session};

use super::Endpoint;
use h3_connection::event::Refusal;
use h3_proto::error::Code;
use h3_proto::stream::StreamId;
use h3_unidirectional::stream::Kind;

/// Whether a stream is one of a session, by its type.
fn is_of_session(kind: Option<Kind>) -> bool
    ensures { result ≡ is_of_session kind }
{
    match kind {
        Some(kind) => matches!(kind, Kind::Session(_)),
        None => false,
    }
}

/// Why nothing is given up of a stream: no session has it, or it is over.
fn drop_rules(is_there: bool, is_over: bool) -> Option<Refusal>
    ensures { result ≡ drop_rules is_there is_over }
{
    if !is_there {
        return Some(Refusal::NotOpen);
    }
    if is_over {
        return Some(Refusal::Ended);
    }
    None
}

impl Endpoint {
    /// The fault that closed the connection.
    pub fn fault(&self) -> Option<Code>
        ensures { result ≡ self.now.closed }
    {
        self.closed
    }

    /// Takes the id that `open_request` would give next, for a stream that is no request: nothing is opened, and no request gets that id.
    /// Refused as `open_request`. It takes no memory.
    #[tactic(auto, using(crate::proofs::Beside::takes_far))]
    pub fn take_request_id(&mut self) -> Result<StreamId, Refusal>
        ensures { TakesId self.old self.new result }
    {
        if let Some(refusal) = self.open_refusal() {
            return Err(refusal);
        }
        let Ok(id) = StreamId::try_from(self.next_id) else {
            return Err(Refusal::IdsUsedUp);
        };
        self.next_id += 4;
        Ok(id)
    }

    /// A fault of the connection was found on a stream that is read elsewhere: it closes the endpoint, unless another one did, and the one
    /// that closed it is answered.
    #[tactic(auto, using(crate::proofs::Beside::closes_first, crate::proofs::Beside::closes_now))]
    pub fn close_for(&mut self, code: Code) -> Code
        ensures stands { ClosesFor self.old self.new code }
        ensures first { result ≡ unwrap_or self.old.closed code }
        ensures rest { self.new ≡ record self.old { closed = Some result } }
    {
        if let Some(first) = self.closed {
            return first;
        }
        self.closed = Some(code);
        code
    }

    /// Whether nothing more is taken on a stream: its end or its reset came, or the peer sends nothing there.
    #[tactic(auto, using(crate::proofs::Beside::shows_end))]
    pub fn has_ended(&self, id: StreamId) -> bool
        ensures { ShowsEnd self.now id result }
    {
        self.arrival_refusal(id).is_some()
    }

    /// Nothing more is needed of a unidirectional stream of the peer that is one of a session: what came on it is dropped, and nothing more
    /// of it is taken, as if the peer had reset it with this code, also if its end came. Refused are first calls after a connection fault,
    /// then a stream of no session, then one whose end was pulled or that was reset. `OutOfMemory` comes last, and loses nothing. It also
    /// says that an allocation failed before (`Kept`): what was kept then has to be read first, by any delivery or pull.
    #[tactic(auto, using(crate::proofs::Dropping::drops_not, crate::proofs::Dropping::drops_later, crate::proofs::Dropping::drops_all, crate::proofs::Dropping::drops_lacking))]
    pub fn drop_session(&mut self, id: StreamId, code: Code) -> Result<(), Refusal>
        ensures { DropsSession self.old self.new id code result }
    {
        if let Some(refusal) = self.drop_refusal(id) {
            return Err(refusal);
        }
        if !self.kept.is_empty() {
            return Err(Refusal::OutOfMemory);
        }
        match self.read_reset(id, code.value()) {
            Ok(_fault) => Ok(()),
            Err(_) => Err(Refusal::OutOfMemory),
        }
    }

    // Why nothing is given up of a stream.
    #[tactic(auto, using(crate::proofs::Dropping::closed_refuses, crate::proofs::Dropping::rules_refuse))]
    fn drop_refusal(&self, id: StreamId) -> Option<Refusal>
        ensures { (e : EndpointHistory) → StandsFor self.now e → result ≡ drop_refusal e id }
    {
        if let Some(code) = self.closed {
            return Some(Refusal::Closed(code));
        }
        let is_there = is_of_session(self.stream_kind(id));
        let is_over = self.is_settled(id);
        drop_rules(is_there, is_over)
    }
}
