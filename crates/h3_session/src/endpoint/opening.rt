//! A request of an id that QUIC gave is opened.
ghost use Rattle.std.specs.Prelude.{◌≡◌, ◌≤◌, IfNone, OnErr, OnOk};
ghost use Rattle.h3_connection.specs.Answers.{call_refused};
ghost use Rattle.h3_connection.specs.Endpoint.{EndpointHistory};
ghost use Rattle.h3_connection.specs.Refusals.{or_later};
ghost use Rattle.h3_connection.specs.State.{StandsFor};
ghost use Rattle.h3_session.specs.OpeningAt.{id_refused, opened_more, OpensAt, OpensFewer};
ghost use Rattle.h3_session.specs.Refused.{open_refused};

use super::Endpoint;
use h3_connection::event::Refusal;
use h3_proto::stream::StreamId;
use std::alloc::AllocError;

/// The ids of request streams are four apart (RFC 9000, section 2.1).
const STEP: u64 = 4;

impl Endpoint {
    /// Opens the request stream whose id QUIC gave, and all with lower ids that are not open yet. Each that it opens takes memory. Refused
    /// is first what `open_request` refuses, then the id of no request stream (`NotRequestId`), then one below the next id
    /// (`OutOfOrder`). After `OutOfMemory` streams with lower ids may be open, and the call may be tried again.
    #[tactic(auto, using(crate::proofs::OpeningAt::refuses_at, crate::proofs::OpeningAt::opens_at, crate::proofs::OpeningAt::lacks_at))]
    pub fn open_request_at(&mut self, id: StreamId) -> Result<(), Refusal>
        ensures { OpensAt self.old self.new id (call_refused result) }
    {
        if let Some(refusal) = self.opening_refusal(id) {
            return Err(refusal);
        }
        let count = (id.into_inner() - self.next_id) / STEP + 1;
        match self.open_requests(count) {
            Ok(()) => Ok(()),
            Err(_) => Err(Refusal::OutOfMemory),
        }
    }

    // Why the request of an id is not opened.
    fn opening_refusal(&self, id: StreamId) -> Option<Refusal>
        ensures value { result ≡ or_later (open_refused self.now) (id_refused self.now.next_id id) }
        ensures next { IfNone result (self.now.next_id ≤ id) }
    {
        if let Some(refusal) = self.open_refusal() {
            return Some(refusal);
        }
        if !id.is_request() {
            return Some(Refusal::NotRequestId);
        }
        if id.into_inner() < self.next_id {
            return Some(Refusal::OutOfOrder);
        }
        None
    }

    // Opens so many requests. An `Err` leaves open those that it opened: an allocation failed.
    #[tactic(auto, using(crate::proofs::OpeningAt::opened_fewer))]
    fn open_requests(&mut self, count: u64) -> Result<(), AllocError>
        ensures ok { OnOk result ((e : EndpointHistory) → StandsFor self.old e → StandsFor self.new (opened_more count e)) }
        ensures err { OnErr result (OpensFewer self.old self.new count) }
    {
        for opened in 0..count {
            let Ok(_) = self.open_request() else {
                return Err(AllocError);
            };
        }
        Ok(())
    }
}
