//! What refuses a call whose bytes are not there: its caller copies them first, and has no memory for the copy. It asks here, and so
//! answers what the call itself would have: any other reason comes before out of memory. Nothing changes, and no memory is taken.
ghost use Rattle.std.specs.Prelude.{◌≡◌};
ghost use Rattle.h3_connection.specs.State.{kept_at};
ghost use Rattle.h3_requests.specs.Refused.{body_refused_at};
ghost use Rattle.h3_session.specs.Lacking.{RefusesBodies, RefusesDeliveries, RefusesHeads, RefusesTrailers};
ghost use Rattle.h3_session.specs.Refused.{going_refused, head_refused_in};

use super::Endpoint;
use h3_connection::event::Refusal;
use h3_proto::stream::{Side, StreamId};

impl Endpoint {
    /// Why `send_body` refuses a body of so many bytes on a stream. `None`: it is taken, if there is memory.
    #[tactic(auto, using(crate::proofs::Lacking::bodies_closed, crate::proofs::Lacking::bodies_refused))]
    pub fn body_refusal(&self, id: StreamId, size: usize) -> Option<Refusal>
        ensures { RefusesBodies self.now id size result }
    {
        if let Some(code) = self.closed {
            return Some(Refusal::Closed(code));
        }
        match self.uncounted_refusal(id, size) {
            Refusal::OutOfMemory => None,
            refusal => Some(refusal),
        }
    }

    /// Why `deliver` refuses bytes on a stream. `None`: they are taken, if there is memory; what they are may still be a fault.
    #[tactic(auto, using(crate::proofs::Lacking::deliveries_closed, crate::proofs::Lacking::deliveries_refused))]
    pub fn bytes_refusal(&self, id: StreamId) -> Option<Refusal>
        ensures { RefusesDeliveries self.now id result }
    {
        if let Some(code) = self.closed {
            return Some(Refusal::Connection(code));
        }
        self.arrival_refusal(id)
    }

    /// Why `send_fields` refuses each list on a stream. `None`: a list is judged by its fields.
    #[tactic(auto, using(crate::proofs::Lacking::heads_refused))]
    pub fn head_refusal(&self, id: StreamId) -> Option<Refusal>
        ensures { RefusesHeads self.now id result }
    {
        if let Some(code) = self.closed {
            return Some(Refusal::Closed(code));
        }
        self.head_order_refusal(id)
    }

    /// Why `send_trailer_fields` refuses each list on a stream. `None`: a list is judged by its fields.
    #[tactic(auto, using(crate::proofs::Lacking::trailers_refused))]
    pub fn trailer_refusal(&self, id: StreamId) -> Option<Refusal>
        ensures { RefusesTrailers self.now id result }
    {
        if let Some(code) = self.closed {
            return Some(Refusal::Closed(code));
        }
        self.trailer_order_refusal(id)
    }

    // Why a stream takes no header section now, a fault of the connection aside.
    pub(super) fn head_order_refusal(&self, id: StreamId) -> Option<Refusal>
        ensures { result ≡ head_refused_in self.now id }
    {
        let Some(stream) = self.requests.outgoing(id) else {
            return Some(Refusal::NotOpen);
        };
        if !stream.takes_head() {
            return Some(Refusal::OutOfOrder);
        }
        self.going_refusal()
    }

    // Why no request begins: at a client that asks for a strict connection the peer's GOAWAY (RFC 9114, section 5.2), on a stream that was
    // opened before it too.
    pub(super) fn going_refusal(&self) -> Option<Refusal>
        ensures { result ≡ going_refused self.now }
    {
        if !self.announced.choices.extensions.strict_connection {
            return None;
        }
        if let Side::Server = self.side {
            return None;
        }
        match self.streams.peer.last_goaway() {
            Some(id) => Some(Refusal::GoingAway(StreamId::from(id))),
            None => None,
        }
    }

    // Why a stream takes no trailer now, a fault of the connection aside.
    pub(super) fn trailer_order_refusal(&self, id: StreamId) -> Option<Refusal>
        ensures { result ≡ body_refused_at (kept_at self.now.requests id) }
    {
        let Some(stream) = self.requests.outgoing(id) else {
            return Some(Refusal::NotOpen);
        };
        if !stream.takes_body() {
            return Some(Refusal::OutOfOrder);
        }
        None
    }
}
