//! What comes on streams, those of sessions among them.
ghost use Rattle.std.specs.Prelude.{◌≡◌, ℕ, Some, None, true, false, unwrap_or};
ghost use Rattle.h3_proto.specs.StreamIds.{is_request_stream};
ghost use Rattle.h3_connection.specs.declared.event.DeliverError.TheVariants.{Refused};
ghost use Rattle.h3_connection.specs.declared.event.Refusal.TheVariants.{Connection, NotOpen};
ghost use Rattle.h3_connection.specs.Answers.{call_refused};
ghost use Rattle.h3_webtransport.specs.Parts.{ActsHere, StreamsAlone, UnlessClosed};
ghost use Rattle.h3_webtransport_streams.specs.Receiver.{canceled};
ghost use Rattle.h3_connection.specs.Unread.{ShowsUnread};
ghost use Rattle.h3_connection.specs.Lists.{list_of, pull_of};
ghost use Rattle.h3_incoming.specs.BlockPulls.{plain_answer};
ghost use Rattle.h3_session.specs.Listing.{ListsNext};
ghost use Rattle.h3_webtransport_streams.specs.SessionStream.{entered, receiving};
ghost use Rattle.h3_webtransport.specs.Joint.{is_read, may_begin, stored_at};
ghost use Rattle.h3_webtransport.specs.Receiving.{Arrives, BeginsAt, CancelsOn, CancelsOneWay, DeliversOn, EndsOn, Enters, ListsAgain};
ghost use Rattle.h3_webtransport.specs.Receiving.{PullsFirst, PullsOn, PullsThere, RefusesDeliveriesOn, raw_unread, session_of};

use super::Sessions;
use super::keeping::drop_one_way;
use bytes::Bytes;
use h3_connection::event::{DeliverError, Fault, Refusal};
use h3_incoming::answer::Plain;
use h3_incoming::{BlockPull, Told};
use h3_proto::error::Code;
use h3_proto::stream::StreamId;
use h3_proto::webtransport::SessionId;
use h3_session::endpoint::Endpoint;
use h3_webtransport_streams::Begun;

// The session that an answer tells.
#[tactic(auto, using(crate::proofs::Telling::tells_none, crate::proofs::Telling::tells_plain))]
fn session_of(answer: &BlockPull) -> Option<SessionId>
    ensures { result ≡ session_of (pull_of answer.now) }
{
    match answer.told() {
        Told::Message(_, _) => None,
        Told::Plain(plain) => session_in(plain),
    }
}

fn session_in(plain: &Plain) -> Option<SessionId>
    ensures { result ≡ session_of (pull_of (plain_answer plain.now)) }
{
    match plain {
        Plain::Session(session) => Some(*session),
        Plain::Body(_)
        | Plain::Raw(_)
        | Plain::TooLarge(_)
        | Plain::End
        | Plain::Pending
        | Plain::Waiting(_)
        | Plain::Fault(_)
        | Plain::NoMessages => None,
    }
}

// The connection has this fault.
fn fault(endpoint: &mut Endpoint, code: Code) -> DeliverError
    ensures is { result ≡ Refused (Connection (unwrap_or endpoint.old.closed code)) }
    ensures closes { endpoint.new ≡ record endpoint.old { closed = Some (unwrap_or endpoint.old.closed code) } }
{
    DeliverError::Refused(Refusal::Connection(endpoint.close_for(code)))
}

// Whether a session may have this id: that of a request.
fn is_session(session: SessionId) -> bool
    ensures { result ≡ is_request_stream session }
{
    session.into_inner() % 4 == 0
}

impl Sessions {
    /// Bytes came on a stream. On one both ways that a server opened its client refuses other first bytes than those of a session's stream
    /// as a fault of the connection, H3_STREAM_CREATION_ERROR, and the id of no session as H3_ID_ERROR.
    #[inline(always)]
    #[tactic(auto, using(crate::proofs::Parting::part_here, crate::proofs::Parting::part_elsewhere, crate::proofs::Parting::is_faulty, crate::proofs::Parting::is_sound))]
    pub fn deliver(
        &mut self,
        endpoint: &mut Endpoint,
        id: StreamId,
        bytes: Bytes,
    ) -> Result<(), DeliverError>
        ensures { DeliversOn endpoint.old endpoint.new self.old self.new id bytes result }
    {
        if !self.reads(id) {
            return endpoint.deliver(id, bytes);
        }
        if let Some(code) = endpoint.fault() {
            return Err(DeliverError::Refused(Refusal::Connection(code)));
        }
        self.deliver_here(endpoint, id, bytes)
    }

    // The same of a stream that is read here, of a connection that is open.
    #[tactic(auto, using(crate::proofs::Arriving::arrives_taken, crate::proofs::Arriving::arrives_no_front, crate::proofs::Arriving::arrives_no_session, crate::proofs::Arriving::arrives_refused))]
    fn deliver_here(
        &mut self,
        endpoint: &mut Endpoint,
        id: StreamId,
        bytes: Bytes,
    ) -> Result<(), DeliverError>
        requires { endpoint.old.closed ≡ None }
        ensures { Arrives endpoint.old endpoint.new self.old self.new id bytes result }
    {
        match self.streams.deliver(id, bytes) {
            Ok(Begun::Taken(_)) => Ok(()),
            Ok(Begun::NoFront) => Err(fault(endpoint, Code::H3_STREAM_CREATION_ERROR)),
            Ok(Begun::NoSession) => Err(fault(endpoint, Code::H3_ID_ERROR)),
            Err(error) => Err(error),
        }
    }

    /// The end of a stream came.
    #[inline(always)]
    #[tactic(auto, using(crate::proofs::Parting::part_here, crate::proofs::Parting::part_elsewhere, crate::proofs::Parting::is_faulty, crate::proofs::Parting::is_sound))]
    pub fn deliver_end(&mut self, endpoint: &mut Endpoint, id: StreamId) -> Result<(), DeliverError>
        ensures { EndsOn endpoint.old endpoint.new self.old self.new id None result }
    {
        if !self.reads(id) {
            return endpoint.deliver_end(id);
        }
        match endpoint.fault() {
            Some(code) => Err(DeliverError::Refused(Refusal::Connection(code))),
            None => self.streams.deliver_end(id),
        }
    }

    /// A stream was reset by its sender, with this code.
    #[tactic(auto, using(crate::proofs::Parting::part_here, crate::proofs::Parting::part_elsewhere, crate::proofs::Parting::is_faulty, crate::proofs::Parting::is_sound))]
    pub fn deliver_reset(
        &mut self,
        endpoint: &mut Endpoint,
        id: StreamId,
        code: u64,
    ) -> Result<(), DeliverError>
        ensures { EndsOn endpoint.old endpoint.new self.old self.new id (Some code) result }
    {
        if !self.reads(id) {
            return endpoint.deliver_reset(id, code);
        }
        match endpoint.fault() {
            Some(first) => Err(DeliverError::Refused(Refusal::Connection(first))),
            None => self.streams.deliver_reset(id, code),
        }
    }

    /// Why bytes on a stream are refused.
    #[inline(always)]
    #[tactic(auto, using(crate::proofs::Refusing::refuses_other, crate::proofs::Refusing::refuses_closed, crate::proofs::Refusing::refuses_here))]
    pub fn bytes_refusal(&self, endpoint: &Endpoint, id: StreamId) -> Option<Refusal>
        ensures { RefusesDeliveriesOn endpoint.now self.now id result }
    {
        if !self.reads(id) {
            return endpoint.bytes_refusal(id);
        }
        match endpoint.fault() {
            Some(code) => Some(Refusal::Connection(code)),
            None => self.streams.arrival_refusal(id),
        }
    }

    /// How many bytes of a stream came and are held. None count after a connection fault.
    #[inline(always)]
    #[tactic(auto, using(crate::proofs::Refusing::counts_none, crate::proofs::Refusing::counts_unread))]
    pub fn unread(&self, endpoint: &Endpoint, id: StreamId) -> u64
        ensures own { is_read self.now id ≡ true → result ≡ raw_unread endpoint.now.closed self.now id }
        ensures other { is_read self.now id ≡ false → ShowsUnread endpoint.now id result }
    {
        if !self.reads(id) {
            return endpoint.unread(id);
        }
        match endpoint.fault() {
            Some(_) => 0,
            None => self.streams.unread(id) as u64,
        }
    }

    /// What comes next on a stream. A stream that the endpoint reads is one of a session from the answer on that tells the session; it is
    /// answered if it goes both ways. With sessions on, an id that no session has is a fault of the connection, H3_ID_ERROR.
    #[inline(always)]
    #[tactic(auto, using(crate::proofs::Pulling::pulls_begun, crate::proofs::Pulling::pulls_elsewhere, crate::proofs::Pulling::pulls_faulty, crate::proofs::Pulling::pulls_own))]
    pub fn pull_block(&mut self, endpoint: &mut Endpoint, id: StreamId, out: &mut BlockPull)
        ensures pulls { PullsOn endpoint.old endpoint.new self.old self.new id (pull_of out.new) }
        ensures list { is_read self.old id ≡ false → ListsNext endpoint.old id (list_of out.new) }
    {
        if self.may_begin(id) {
            return self.pull_first(endpoint, id, out);
        }
        if !self.reads(id) {
            return endpoint.pull_block(id, out);
        }
        if let Some(code) = endpoint.fault() {
            return out.fail(Fault::Connection(code));
        }
        self.pull_here(id, out);
    }

    // The same of a stream that is read here, of a connection that is open.
    #[tactic(auto, using(crate::proofs::Pulling::pulls_absent))]
    fn pull_here(&mut self, id: StreamId, out: &mut BlockPull)
        ensures { PullsThere self.old self.new id (pull_of out.new) (stored_at self.old id) }
    {
        if !self.streams.contains(id) {
            return out.pause();
        }
        out.give_made(self.streams.pull(id));
    }

    // The same of a stream that may turn out to be of a session: there is room for it before anything is pulled, so that nothing is lost.
    #[tactic(auto, using(crate::proofs::Pulling::lists_none, crate::proofs::Pulling::lists_same, crate::proofs::Pulling::twice_alone, crate::proofs::Pulling::then_alone))]
    fn pull_first(&mut self, endpoint: &mut Endpoint, id: StreamId, out: &mut BlockPull)
        requires { may_begin self.old id ≡ true }
        ensures first { PullsFirst endpoint.old endpoint.new self.old self.new id (pull_of out.new) }
        ensures rest { StreamsAlone self.old self.new }
        ensures list { ListsNext endpoint.old id (list_of out.new) }
    {
        let Ok(()) = self.streams.enter(id, SessionId::from(id), id.is_request()) else {
            return out.fail(Fault::Memory);
        };
        endpoint.pull_block(id, out);
        match session_of(out) {
            Some(session) => self.begin(endpoint, id, session, out),
            None => self.streams.forget(id),
        }
    }

    // The stream is of this session.
    #[tactic(auto, using(crate::proofs::Pulling::begins_taken, crate::proofs::Pulling::begins_wrong, crate::proofs::Pulling::then_alone))]
    fn begin(
        &mut self,
        endpoint: &mut Endpoint,
        id: StreamId,
        session: SessionId,
        out: &mut BlockPull,
    )
        requires { stored_at self.old id ≡ Some (entered id (is_request_stream id)) }
        ensures begins { BeginsAt (is_request_stream session) endpoint.old endpoint.new self.old self.new id session (pull_of out.old)
            (pull_of out.new) }
        ensures list { ListsAgain (is_request_stream session) (list_of out.old) (list_of out.new) }
        ensures rest { StreamsAlone self.old self.new }
    {
        if !is_session(session) {
            self.streams.forget(id);
            let code = endpoint.close_for(Code::H3_ID_ERROR);
            return out.fail(Fault::Connection(code));
        }
        self.streams.set_session(id, session);
        self.begin_sending(endpoint, id);
    }

    // On a stream of a session that the endpoint reads as a request no message is sent. If sending there has ended before, it has ended
    // here: an end that QUIC did not take there waits here.
    #[tactic(auto, using(crate::proofs::Pulling::sends_none, crate::proofs::Pulling::sends_on, crate::proofs::Pulling::sends_the_end, crate::proofs::Pulling::sends_no_more))]
    fn begin_sending(&mut self, endpoint: &mut Endpoint, id: StreamId)
        ensures begins { (session : ℕ) → stored_at self.old id ≡ Some (entered session (is_request_stream id))
            → Enters endpoint.old endpoint.new self.old.sessions.streams self.new.sessions.streams id session (is_request_stream id) }
        ensures rest { StreamsAlone self.old self.new }
    {
        if !id.is_request() {
            return;
        }
        if endpoint.reset(id).is_ok() {
            return;
        }
        // (neither is refused: nothing was sent yet)
        if endpoint.end_taken(id) {
            let _finished = self.streams.finish(id);
        } else {
            let _reset = self.streams.reset(id);
        }
    }

    /// Nothing more of a stream is needed. What comes on a stream of the peer that goes one way is read here from then on, and thrown away.
    /// If something was kept, as an allocation failed before, that is read first. After `OutOfMemory` the stream is as it was.
    #[tactic(auto, using(crate::proofs::Canceling::cancels_own, crate::proofs::Canceling::cancels_one_way, crate::proofs::Canceling::cancels_other))]
    pub fn cancel(&mut self, endpoint: &mut Endpoint, id: StreamId) -> Result<(), Refusal>
        ensures { CancelsOn endpoint.old endpoint.new self.old self.new id result }
    {
        if self.reads(id) {
            return self.cancel_here(endpoint, id);
        }
        if self.is_one_way(id) {
            return self.cancel_one_way(endpoint, id);
        }
        endpoint.cancel(id)
    }

    // The same of a stream that is read here.
    #[tactic(auto, using(crate::proofs::Parting::is_closed, crate::proofs::Parting::is_open))]
    fn cancel_here(&mut self, endpoint: &Endpoint, id: StreamId) -> Result<(), Refusal>
        ensures { UnlessClosed endpoint.now.closed self.old self.new (call_refused result)
            (ActsHere (Some NotOpen) (receiving (Some NotOpen) canceled) self.old self.new id (call_refused result)) }
    {
        match endpoint.fault() {
            Some(code) => Err(Refusal::Closed(code)),
            None => self.streams.cancel(id),
        }
    }

    // The same of one that the endpoint reads as a stream that goes one way.
    fn cancel_one_way(&mut self, endpoint: &mut Endpoint, id: StreamId) -> Result<(), Refusal>
        ensures { CancelsOneWay endpoint.old endpoint.new self.old self.new id result }
    {
        let ended = endpoint.has_ended(id);
        match drop_one_way(endpoint, id) {
            Ok(()) => {
                self.streams.give_up(id, ended);
                Ok(())
            }
            Err(refusal) => Err(refusal),
        }
    }
}
