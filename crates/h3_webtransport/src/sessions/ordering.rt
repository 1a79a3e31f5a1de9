//! Which stream sends next, those of sessions among them.
ghost use Rattle.std.specs.Prelude.{◌≡◌, ◌==◌, ◌&&◌, true, false, not, if◌then◌else◌};
ghost use Rattle.h3_proto.specs.StreamIds.{is_request_stream};
ghost use Rattle.h3_webtransport.specs.Ordering.{lower_of, turn_of, AdvancesOn, DrainsOn, HoldsOn, SendsInTurn, SendsLowest};

use super::Sessions;
use h3_connection::event::Refusal;
use h3_proto::stream::StreamId;
use h3_session::endpoint::Endpoint;

impl Sessions {
    /// Takes the first bytes that wait on a stream, at most all.
    #[inline(always)]
    #[tactic(auto, using(crate::proofs::Parting::part_here, crate::proofs::Parting::part_elsewhere))]
    pub fn advance(&mut self, endpoint: &mut Endpoint, id: StreamId, count: usize)
        ensures { AdvancesOn endpoint.old endpoint.new self.old self.new id count }
    {
        if self.has(id) {
            self.streams.advance(id, count);
            self.is_next = after_raw(self.is_next, count);
            return;
        }
        self.is_next = after_other(self.is_on, self.is_next, id, count);
        endpoint.advance(id, count);
    }

    /// The first stream from this id on on which bytes wait to be sent, or an end.
    #[inline(always)]
    #[tactic(auto, using(crate::proofs::Turning::lowest_off, crate::proofs::Turning::lowest_on))]
    pub fn next_to_send(&self, endpoint: &Endpoint, from: u64) -> Option<u64>
        ensures { SendsLowest endpoint.now self.now from result }
    {
        let first = number_of(endpoint.next_to_send(from));
        if !self.is_on {
            return first;
        }
        lower(first, self.streams.next_to_send(from))
    }

    /// The stream that sends next. If a request's and one of a session send, they take turns: a stream of a session is next once bytes of a
    /// request's were taken, and the other way round.
    #[inline(always)]
    #[tactic(auto, using(crate::proofs::Turning::turn_off, crate::proofs::Turning::turn_on))]
    pub fn next_by_priority(&self, endpoint: &mut Endpoint) -> Option<u64>
        ensures { SendsInTurn endpoint.old endpoint.new self.now result }
    {
        let first = number_of(endpoint.next_by_priority());
        if !self.is_on {
            return first;
        }
        turn(self.is_next, first, self.streams.next_in_turn())
    }

    /// Whether nothing is left to be done, so that the connection can be closed without losing a request or what waits on a stream of a
    /// session.
    #[tactic(auto, using(crate::proofs::Turning::drains_off, crate::proofs::Turning::drains_on))]
    pub fn is_drained(&self, endpoint: &Endpoint) -> bool
        ensures { DrainsOn endpoint.now self.now result }
    {
        let is_drained = endpoint.is_drained();
        if !self.is_on {
            return is_drained;
        }
        let raw = self.streams.next_to_send(0);
        is_drained && raw.is_none()
    }

    /// QUIC has no credit for a stream, or has it again.
    #[tactic(auto, using(crate::proofs::Parting::part_here, crate::proofs::Parting::part_elsewhere, crate::proofs::Parting::is_closed, crate::proofs::Parting::is_open, crate::proofs::Turning::holds_there, crate::proofs::Turning::holds_absent))]
    pub fn hold(
        &mut self,
        endpoint: &mut Endpoint,
        id: StreamId,
        is_held: bool,
    ) -> Result<(), Refusal>
        ensures { HoldsOn endpoint.old endpoint.new self.old self.new id is_held result }
    {
        if !self.has(id) {
            return endpoint.hold(id, is_held);
        }
        if let Some(code) = endpoint.fault() {
            return Err(Refusal::Closed(code));
        }
        if self.streams.hold(id, is_held) {
            Ok(())
        } else {
            Err(Refusal::NotOpen)
        }
    }
}

// Whether a stream of a session is next after bytes of one were taken.
fn after_raw(is_next: bool, count: usize) -> bool
    ensures { result ≡ (if count == 0 then is_next else false) }
{
    if count == 0 {
        return is_next;
    }
    false
}

// Whether one is next after bytes of another stream were taken.
fn after_other(is_on: bool, is_next: bool, id: StreamId, count: usize) -> bool
    ensures { result ≡ (if is_on && not (count == 0) && is_request_stream id then true else is_next) }
{
    if is_on && count > 0 && id.is_request() {
        return true;
    }
    is_next
}

fn number_of(id: Option<StreamId>) -> Option<u64>
    ensures { result ≡ id }
{
    match id {
        Some(id) => Some(id.into_inner()),
        None => None,
    }
}

// The lower of two streams.
fn lower(first: Option<u64>, raw: Option<u64>) -> Option<u64>
    ensures { result ≡ lower_of first raw }
{
    match (first, raw) {
        (Some(other), Some(id)) => { if other < id { first } else { raw } }
        (_, None) => first,
        (None, Some(_)) => raw,
    }
}

// Which of two streams sends: that of the endpoint, or that of a session.
fn turn(is_next: bool, first: Option<u64>, raw: Option<u64>) -> Option<u64>
    ensures { result ≡ turn_of is_next first raw }
{
    match (first, raw) {
        (Some(other), Some(_)) => {
            if other % 4 != 0 || !is_next {
                first
            } else {
                raw
            }
        }
        (_, None) => first,
        (None, Some(_)) => raw,
    }
}
