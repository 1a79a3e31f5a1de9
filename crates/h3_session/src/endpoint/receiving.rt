//! What comes from the peer.
ghost use Rattle.std.specs.Prelude.{◌≡◌, ◌≢◌, true, false, [], Err, Some, None, ◌<◌, ◌+◌, ◌++◌, ◌∷◌, OnOk, OnErr, IfOk, IfErr};
ghost use Rattle.std.specs.VecDeque.{deque_len, deque_capacity};
ghost use Rattle.h3_connection.specs.Arrivals.{stream_of, closes, is_closed_in};
ghost use Rattle.h3_blocked.specs.Sums.{TakesOut};
ghost use Rattle.h3_connection.specs.Calls.{AllSame, Sets, fresh_request};
ghost use Rattle.h3_connection.specs.Delivering.{kept, with_end, server_opened_refusal};
ghost use Rattle.h3_connection.specs.Endpoint.{EndpointHistory, kind_of};
ghost use Rattle.h3_connection.specs.Endpoint.Kind.{Request};
ghost use Rattle.h3_connection.specs.Keeping.{arrival_refusal};
ghost use Rattle.h3_connection.specs.ReceivingContracts.{IsTaken, Receives, KeepsBehind, Delivers, DeliversEnd, DeliversReset, bytes_of};
ghost use Rattle.h3_connection.specs.State.{StandsFor, kept_at};
ghost use Rattle.h3_connection.specs.declared.event.DeliverError.TheVariants.{Kept};
ghost use Rattle.h3_session.specs.Arriving.{delivery_refused, arrival_refused, is_stored, IsReceived, IsAccepted, ComesFirst};
ghost use Rattle.h3_requests.specs.Changing.{Receives as ReceivesHere, receiver_refusal, IsRefusedBy};
ghost use Rattle.h3_session.specs.Changes.{ChangesRequests};

use super::Endpoint;
use bytes::Bytes;
use h3_connection::arrival::Arrival;
use h3_connection::event::{DeliverError, Refusal};
use h3_connection::setup::Announced;
use h3_proto::stream::{Side, StreamId};
use h3_requests::RequestStreams;
use h3_streams::ids::StreamKind;
use h3_unidirectional::waiting::WaitingBytes;
use std::alloc::{AllocError, Global};
use std::collections::VecDeque;
use std::mem;

/// The stream on which it came.
pub(super) fn stream_of(arrival: &Arrival) -> StreamId
    ensures { result ≡ stream_of arrival.now }
{
    match arrival {
        Arrival::BytesCame(id, _) => *id,
        Arrival::EndCame(id) => *id,
        Arrival::ResetCame(id, _) => *id,
    }
}

/// The bytes that came, which are returned if they could not be stored.
fn bytes_of(arrival: Arrival) -> Bytes
    ensures { result ≡ bytes_of arrival }
{
    match arrival {
        Arrival::BytesCame(_, bytes) => bytes,
        Arrival::EndCame(_) => Bytes::new(),
        Arrival::ResetCame(_, _) => Bytes::new(),
    }
}

fn is_request(side: Side, id: StreamId) -> bool
    ensures yes { result ≡ true → kind_of side id ≡ Request }
    ensures not { result ≡ false → kind_of side id ≢ Request }
{
    match StreamKind::of(side, id) {
        StreamKind::Request => true,
        StreamKind::ServerOpened => false,
        StreamKind::OwnUnidirectional => false,
        StreamKind::PeerUnidirectional => false,
    }
}

/// Whether what came was stored.
fn is_stored(answer: &Result<(), DeliverError>) -> bool
    ensures { result ≡ is_stored answer.now }
{
    match answer {
        Ok(()) => true,
        Err(error) => matches!(error, DeliverError::Kept),
    }
}

/// These arrivals with one more after them.
fn behind(mut arrivals: VecDeque<Arrival>, arrival: Arrival) -> VecDeque<Arrival>
    requires { deque_len arrivals < deque_capacity arrivals }
    ensures items { result.items ≡ arrivals.items ++ arrival ∷ [] }
    ensures room { (deque_len result ≡ deque_len arrivals + 1) × (deque_capacity result ≡ deque_capacity arrivals) }
{
    arrivals.push_back_reserved(arrival);
    arrivals
}

/// Whether nothing more comes on the stream after this.
fn closes(id: StreamId, arrival: &Arrival) -> bool
    ensures { result ≡ closes id arrival.now }
{
    match arrival {
        Arrival::BytesCame(_, _) => false,
        Arrival::EndCame(other) => other.into_inner() == id.into_inner(),
        Arrival::ResetCame(other, _) => other.into_inner() == id.into_inner(),
    }
}

fn is_closed_in(arrivals: &[Arrival], id: StreamId) -> bool
    ensures { result ≡ is_closed_in arrivals.now id }
{
    for arrival in arrivals {
        if closes(id, arrival) {
            return true;
        }
    }
    false
}

/// Why what comes on a stream that a server would open is refused.
fn server_opened_refusal(side: Side) -> Option<Refusal>
    ensures { result ≡ server_opened_refusal side }
{
    match side {
        Side::Client => None,
        Side::Server => Some(Refusal::NotOpen),
    }
}

/// What came on a request stream is its receiver's. A stream that is not there is opened. If an allocation fails nothing has changed, and
/// the arrival comes back.
#[tactic(auto, using(crate::proofs::Behind::written_behind))]
fn receive_arrival(
    requests: &mut RequestStreams,
    alloc: Global,
    announced: &Announced,
    replies: &mut WaitingBytes,
    arrival: Arrival,
) -> Result<(), Arrival>
    ensures ok { OnOk result (IsReceived arrival requests.old requests.new replies.old replies.new) }
    ensures back { IfErr result (λ a. a ≡ arrival) }
    ensures err { OnErr result (AllSame requests.old requests.new × (replies.new ≡ replies.old)) }
{
    match arrival {
        Arrival::BytesCame(id, bytes) => match requests.deliver(alloc, announced, id, bytes) {
            Ok(()) => Ok(()),
            Err(bytes) => Err(Arrival::BytesCame(id, bytes)),
        },
        Arrival::EndCame(id) => match requests.end(alloc, id) {
            Ok(()) => Ok(()),
            Err(_) => Err(Arrival::EndCame(id)),
        },
        Arrival::ResetCame(id, code) => {
            match requests.reset_incoming(alloc, id, code, replies.behind_mut()) {
                Ok(()) => Ok(()),
                Err(_) => Err(Arrival::ResetCame(id, code)),
            }
        }
    }
}

impl Endpoint {
    /// Bytes came on a stream. They are kept as they are, with no copy, and all that can be read of them is read. Refused is first
    /// everything after a connection fault, then what comes on a stream that sends nothing or isn't open, then what comes after an end or a
    /// reset. `OutOfMemory` returns the bytes, and nothing has changed. `Kept`: the bytes are taken, and an allocation failed in reading
    /// what came; the next delivery or pull reads on from there. However small the pieces are, the type and length of a frame are tried at
    /// most 17 times: no delivery sets the count back that `frames` shows.
    #[tactic(auto, using(crate::proofs::ReceivingAtOnce::delivers_at_once))]
    #[inline(always)]
    pub fn deliver(&mut self, id: StreamId, bytes: Bytes) -> Result<(), DeliverError>
        ensures { Delivers self.old self.new id bytes result }
    {
        if self.takes_at_once(id) {
            return self.deliver_at_once(id, bytes);
        }
        self.arrive(Arrival::BytesCame(id, bytes))
    }

    /// The end of a stream came. It is refused as bytes are.
    #[inline(always)]
    #[tactic(auto, using(crate::proofs::ReceivingAtOnce::ends_at_once))]
    pub fn deliver_end(&mut self, id: StreamId) -> Result<(), DeliverError>
        ensures { DeliversEnd self.old self.new id result }
    {
        if self.takes_at_once(id) {
            return self.end_at_once(id);
        }
        self.arrive(Arrival::EndCame(id))
    }

    /// A stream was reset by its sender, with this code of an application. It is refused as bytes are. What was not pulled is thrown away.
    /// Of a request stream the peer's encoder learns of it (RFC 9204, section 2.2.2.2).
    pub fn deliver_reset(&mut self, id: StreamId, code: u64) -> Result<(), DeliverError>
        ensures { DeliversReset self.old self.new id code result }
    {
        self.arrive(Arrival::ResetCame(id, code))
    }

    // Whether what comes on the stream is its receiver's at once: it is a request stream's, and nothing is kept.
    pub(super) fn takes_at_once(&self, id: StreamId) -> bool
        ensures closed { result ≡ true → self.now.closed ≡ None }
        ensures kept { result ≡ true → self.now.kept ≡ [] }
        ensures request { result ≡ true → kind_of self.now.side id ≡ Request }
        ensures not { result ≡ false → self.now.closed ≡ None → self.now.kept ≡ [] → kind_of self.now.side id ≢ Request }
    {
        self.closed.is_none() && self.kept.is_empty() && is_request(self.side, id)
    }

    // Bytes of a request stream, with one look-up.
    fn deliver_at_once(&mut self, id: StreamId, bytes: Bytes) -> Result<(), DeliverError>
        ensures rest { self.new ≡ record self.old { requests = self.new.requests } }
        ensures ok { OnOk result (ReceivesHere self.old.requests self.new.requests id (λ i. kept i bytes)) }
        ensures taken { OnOk result (receiver_refusal self.old.side (kept_at self.old.requests id) ≡ None) }
        ensures why { IfErr result (λ e. IsRefusedBy (receiver_refusal self.old.side (kept_at self.old.requests id)) bytes e) }
        ensures err { OnErr result (AllSame self.old.requests self.new.requests) }
    {
        self.requests
            .deliver_or_refuse(self.alloc, self.side, &self.announced, id, bytes)
    }

    // The end of a request stream, with one look-up.
    #[inline(always)]
    fn end_at_once(&mut self, id: StreamId) -> Result<(), DeliverError>
        ensures rest { self.new ≡ record self.old { requests = self.new.requests } }
        ensures ok { OnOk result (ReceivesHere self.old.requests self.new.requests id with_end) }
        ensures taken { OnOk result (receiver_refusal self.old.side (kept_at self.old.requests id) ≡ None) }
        ensures why { IfErr result (λ e. IsRefusedBy (receiver_refusal self.old.side (kept_at self.old.requests id)) [] e) }
        ensures err { OnErr result (AllSame self.old.requests self.new.requests) }
    {
        self.requests.end_or_refuse(self.alloc, self.side, id)
    }

    // What comes is read after all that is kept. With nothing kept, what comes on a request stream is its receiver's at once.
    #[tactic(auto, using(crate::proofs::ReceivingArrives::was_closed, crate::proofs::ReceivingArrives::was_refused, crate::proofs::ReceivingArrives::is_taken, crate::proofs::ReceivingArrives::took_none, crate::proofs::ReceivingCancel::nothing_changed))]
    fn arrive(&mut self, arrival: Arrival) -> Result<(), DeliverError>
        ensures receives { Receives self.old self.new arrival result }
        ensures behind { KeepsBehind self.old (stream_of arrival) result }
    {
        if let Some(code) = self.closed {
            return Err(DeliverError::Refused(Refusal::Connection(code)));
        }
        let id = stream_of(&arrival);
        if let Some(refusal) = self.arrival_refusal(id) {
            return Err(DeliverError::Refused(refusal));
        }
        if is_request(self.side, id) {
            if self.kept.is_empty() {
                return self.receive_at_once(arrival);
            }
            if !self.requests.contains(id) {
                return self.take_first(arrival);
            }
        }
        self.take(arrival)
    }

    // What comes on a request stream is its receiver's, with nothing kept.
    #[tactic(auto, using(crate::proofs::ReceivingArrives::received_once, crate::proofs::ReceivingArrives::took_none, crate::proofs::ReceivingCancel::requests_same))]
    fn receive_at_once(&mut self, arrival: Arrival) -> Result<(), DeliverError>
        requires none { self.old.kept ≡ [] }
        requires request { kind_of self.old.side (stream_of arrival) ≡ Request }
        requires taken { (e : EndpointHistory) → StandsFor self.old e → IsTaken e (stream_of arrival) }
        ensures receives { Receives self.old self.new arrival result }
        ensures kept { result ≢ Err Kept }
    {
        match self.receive(arrival) {
            Ok(()) => Ok(()),
            Err(arrival) => Err(DeliverError::OutOfMemory(bytes_of(arrival))),
        }
    }

    // What opens a request stream, after what is kept. It is opened before that is read, since nothing is kept of a stream that is not
    // open. It is taken out again if what was kept has a fault.
    #[tactic(auto, using(crate::proofs::ReceivingFirst::first_accepted, crate::proofs::ReceivingFirst::first_stored, crate::proofs::ReceivingFirst::first_undone, crate::proofs::ReceivingFirst::first_refused_memory))]
    fn take_first(&mut self, arrival: Arrival) -> Result<(), DeliverError>
        requires { ComesFirst self.old arrival }
        ensures { Receives self.old self.new arrival result }
    {
        let id = stream_of(&arrival);
        let Ok(()) = self.open_first(id) else {
            return Err(DeliverError::OutOfMemory(bytes_of(arrival)));
        };
        let answer = self.take(arrival);
        if is_stored(&answer) {
            return answer;
        }
        self.undo_first(id);
        answer
    }

    fn open_first(&mut self, id: StreamId) -> Result<(), AllocError>
        ensures rest { self.new ≡ record self.old { requests = self.new.requests } }
        ensures ok { OnOk result (Sets self.old.requests self.new.requests id fresh_request) }
        ensures err { OnErr result (self.new ≡ self.old) }
    {
        self.requests.open(self.alloc, id)
    }

    fn undo_first(&mut self, id: StreamId)
        ensures rest { self.new ≡ record self.old { requests = self.new.requests } }
        ensures taken_out { TakesOut self.old.requests self.new.requests id }
    {
        self.requests.undo_open(id);
    }

    // What comes is kept after the rest, and all of it is read.
    #[tactic(auto, using(crate::proofs::ReceivingArrives::took_all, crate::proofs::ReceivingArrives::took_fault, crate::proofs::ReceivingArrives::took_part, crate::proofs::ReceivingArrives::took_none, crate::proofs::ReceivingCancel::nothing_changed))]
    fn take(&mut self, arrival: Arrival) -> Result<(), DeliverError>
        requires { IsAccepted self.old arrival }
        ensures { Receives self.old self.new arrival result }
    {
        let Ok(arrivals) = self.take_kept(1) else {
            return Err(DeliverError::OutOfMemory(bytes_of(arrival)));
        };
        let arrivals = behind(arrivals, arrival);
        match self.read_all(arrivals) {
            Ok(None) => Ok(()),
            Ok(Some(code)) => {
                self.closed = Some(code);
                Err(DeliverError::Refused(Refusal::Connection(code)))
            }
            Err(_) => Err(DeliverError::Kept),
        }
    }

    // Takes out all that is kept, with room for so many arrivals more, and one. An `Err` changes nothing: an allocation failed.
    pub(super) fn take_kept(&mut self, more: usize) -> Result<VecDeque<Arrival>, AllocError>
        requires { more < 2 }
        ensures ok { IfOk result (λ kept. (kept.items ≡ self.old.kept) × (deque_len kept + more < deque_capacity kept)) }
        ensures none { OnOk result (self.new ≡ record self.old { kept = [] }) }
        ensures err { OnErr result (self.new ≡ self.old) }
    {
        let Ok(()) = self.kept.reserve(more + 1) else {
            return Err(AllocError);
        };
        Ok(mem::replace(&mut self.kept, VecDeque::new(self.alloc)))
    }

    // Why what comes on a stream is refused, a connection fault aside. An end or a reset that is kept counts.
    #[tactic(auto, using(crate::proofs::ReceivingRefusals::arrival_refusal_is))]
    pub(super) fn arrival_refusal(&self, id: StreamId) -> Option<Refusal>
        ensures stored { result ≡ arrival_refused self.now id }
        ensures history { (e : EndpointHistory) → StandsFor self.now e → result ≡ arrival_refusal e id }
    {
        if let Some(refusal) = self.delivery_refusal(id) {
            return Some(refusal);
        }
        if self.is_closed_behind(id) {
            return Some(Refusal::AfterEnd);
        }
        None
    }

    fn delivery_refusal(&self, id: StreamId) -> Option<Refusal>
        ensures { result ≡ delivery_refused self.now id (kind_of self.now.side id) }
    {
        match StreamKind::of(self.side, id) {
            StreamKind::Request => self.requests.delivery_refusal(self.side, id),
            StreamKind::ServerOpened => server_opened_refusal(self.side),
            StreamKind::OwnUnidirectional => Some(Refusal::NotReceiving),
            StreamKind::PeerUnidirectional => {
                if self.streams.is_closed(id) {
                    return Some(Refusal::AfterEnd);
                }
                None
            }
        }
    }

    // Whether an end or a reset of the stream is kept.
    #[tactic(auto, using(crate::proofs::ReceivingRefusals::closed_in_parts))]
    pub(super) fn is_closed_behind(&self, id: StreamId) -> bool
        ensures { result ≡ is_closed_in self.now.kept id }
    {
        let (front, back) = self.kept.as_slices();
        is_closed_in(front, id) || is_closed_in(back, id)
    }

    // What came on a request stream is its receiver's.
    pub(super) fn receive(&mut self, arrival: Arrival) -> Result<(), Arrival>
        ensures rest { ChangesRequests self.old self.new }
        ensures ok { OnOk result (IsReceived arrival self.old.requests self.new.requests self.old.own.decoder self.new.own.decoder) }
        ensures back { IfErr result (λ a. a ≡ arrival) }
        ensures err { OnErr result (AllSame self.old.requests self.new.requests × (self.new.own.decoder ≡ self.old.own.decoder)) }
    {
        let replies = &mut self.streams.own.decoder;
        receive_arrival(
            &mut self.requests,
            self.alloc,
            &self.announced,
            replies,
            arrival,
        )
    }
}
