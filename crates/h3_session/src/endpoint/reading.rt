//! Reading what came, in order.
ghost use Rattle.std.specs.Prelude.{◌≡◌, ◌≢◌, ◌<◌, ◌≤◌, ◌+◌, ◌++◌, [], OnOk, OnErr, IfOk};
ghost use Rattle.std.specs.VecDeque.{deque_len, deque_capacity};
ghost use Rattle.h3_connection.specs.Arrivals.{stream_of};
ghost use Rattle.h3_connection.specs.Endpoint.{EndpointHistory, kind_of};
ghost use Rattle.h3_connection.specs.Endpoint.Kind.{PeerUnidirectional};
ghost use Rattle.h3_connection.specs.State.{StandsFor};
ghost use Rattle.h3_connection.specs.Delivering.{end_at, reset_at};
ghost use Rattle.h3_connection.specs.declared.arrival.Arrival.TheVariants.{BytesCame};
ghost use Rattle.h3_streams.specs.ReadingOn.{left_arrivals};
ghost use Rattle.h3_session.specs.Reading.{ReadsEach, ReadsEvery, SameRequests, Finds, unread_arrivals};

use super::Endpoint;
use super::receiving::stream_of;
use bytes::Bytes;
use h3_connection::arrival::Arrival;
use h3_proto::error::Code;
use h3_proto::stream::StreamId;
use h3_streams::ids::StreamKind;
use h3_streams::left::Left;
use std::alloc::AllocError;
use std::collections::VecDeque;

/// What is left to read of an arrival after an allocation failed: this, and then what the peer's decoder stream has waiting since before
/// the settings, if it is named.
#[derive(Drop)]
pub(super) struct Unread {
    first: Arrival,
    early: Option<StreamId>,
}

impl Unread {
    /// The arrival, whole.
    fn of(arrival: Arrival) -> Unread
        ensures { result ≡ record { first = arrival; early = Rattle.std.specs.Prelude.None } }
    {
        Unread {
            first: arrival,
            early: None,
        }
    }

    /// What the reading of bytes left.
    fn left_by(left: Left) -> Unread
        ensures { unread_arrivals result ≡ left_arrivals left }
    {
        let Left { id, bytes, early } = left;
        Unread {
            first: Arrival::BytesCame(id, bytes),
            early,
        }
    }
}

impl Endpoint {
    // Reads these arrivals in order, up to the first fault, which it answers; the others are dropped then. If an allocation fails what is
    // left is kept: there has to be room for one arrival more. Nothing else is kept.
    #[tactic(auto, using(crate::proofs::ReceivingReading::front_first, crate::proofs::ReceivingReading::front_next, crate::proofs::ReceivingReading::front_whole_kept, crate::proofs::ReceivingReading::front_faulty, crate::proofs::ReceivingReading::front_stopped))]
    pub(super) fn read_all(
        &mut self,
        mut arrivals: VecDeque<Arrival>,
    ) -> Result<Option<Code>, AllocError>
        requires room { deque_len arrivals < deque_capacity arrivals }
        requires none { self.old.kept ≡ [] }
        ensures reads { ReadsEvery self.old arrivals.items result self.new }
        ensures some_kept { OnErr result (self.new.kept ≢ []) }
        ensures none_kept { OnOk result (self.new.kept ≡ self.old.kept) }
    {
        while let Some(arrival) = arrivals.pop_front() {
            match self.read_arrival(arrival) {
                Ok(None) => {}
                Ok(Some(code)) => return Ok(Some(code)),
                Err(unread) => {
                    self.keep(unread, arrivals);
                    return Err(AllocError);
                }
            }
        }
        // its room serves the next delivery
        self.kept = arrivals;
        Ok(None)
    }

    // Keeps what is left, and these after it.
    fn keep(&mut self, unread: Unread, mut arrivals: VecDeque<Arrival>)
        requires { deque_len arrivals + 2 ≤ deque_capacity arrivals }
        ensures { self.new ≡ record self.old { kept = unread_arrivals unread ++ arrivals.items } }
    {
        let Unread { first, early } = unread;
        if let Some(id) = early {
            arrivals.push_front_reserved(Arrival::BytesCame(id, Bytes::new()));
        }
        arrivals.push_front_reserved(first);
        self.kept = arrivals;
    }

    // Reads one arrival, and answers the fault that it finds.
    #[tactic(auto, using(crate::proofs::ReceivingReading::reads_request_whole, crate::proofs::ReceivingReading::leaves_request, crate::proofs::ReceivingReading::reads_server_opened, crate::proofs::ReceivingReading::reads_own))]
    fn read_arrival(&mut self, arrival: Arrival) -> Result<Option<Code>, Unread>
        ensures reads { ReadsEach self.old arrival result self.new }
        ensures kept { self.new.kept ≡ self.old.kept }
    {
        match StreamKind::of(self.side, stream_of(&arrival)) {
            StreamKind::Request => match self.receive(arrival) {
                Ok(()) => Ok(None),
                Err(arrival) => Err(Unread::of(arrival)),
            },
            StreamKind::ServerOpened => Ok(Some(Code::H3_STREAM_CREATION_ERROR)),
            StreamKind::OwnUnidirectional => Ok(None),
            StreamKind::PeerUnidirectional => self.read_peer(arrival),
        }
    }

    // Reads what came on a unidirectional stream of the peer.
    #[tactic(auto, using(crate::proofs::ReceivingReading::reads_peer, crate::proofs::ReceivingReading::leaves_peer))]
    fn read_peer(&mut self, arrival: Arrival) -> Result<Option<Code>, Unread>
        requires { kind_of self.old.side (stream_of arrival) ≡ PeerUnidirectional }
        ensures reads { ReadsEach self.old arrival result self.new }
        ensures kept { self.new.kept ≡ self.old.kept }
    {
        match arrival {
            Arrival::BytesCame(id, bytes) => self.read_bytes(id, bytes),
            Arrival::EndCame(id) => match self.read_end(id) {
                Ok(fault) => Ok(fault),
                Err(_) => Err(Unread::of(Arrival::EndCame(id))),
            },
            Arrival::ResetCame(id, code) => match self.read_reset(id, code) {
                Ok(fault) => Ok(fault),
                Err(_) => Err(Unread::of(Arrival::ResetCame(id, code))),
            },
        }
    }

    #[tactic(auto, using(crate::proofs::ReceivingReading::reads_bytes, crate::proofs::ReceivingReading::leaves_bytes))]
    fn read_bytes(&mut self, id: StreamId, bytes: Bytes) -> Result<Option<Code>, Unread>
        requires { kind_of self.old.side id ≡ PeerUnidirectional }
        ensures reads { ReadsEach self.old (BytesCame id bytes) result self.new }
        ensures kept { self.new.kept ≡ self.old.kept }
    {
        let left = match self
            .streams
            .bytes(self.alloc, self.side, &self.announced, id, bytes)
        {
            Ok(fault) => return Ok(fault),
            Err(left) => left,
        };
        Err(Unread::left_by(left))
    }

    fn read_end(&mut self, id: StreamId) -> Result<Option<Code>, AllocError>
        ensures rest { SameRequests self.old self.new }
        ensures ok { IfOk result
            (λ fault. (e : EndpointHistory) → StandsFor self.old e → Finds fault self.new (end_at e id PeerUnidirectional)) }
        ensures err { OnErr result ((e : EndpointHistory) → StandsFor self.old e → StandsFor self.new e) }
    {
        self.streams.end(self.alloc, id)
    }

    pub(super) fn read_reset(&mut self, id: StreamId, code: u64) -> Result<Option<Code>, AllocError>
        ensures rest { SameRequests self.old self.new }
        ensures ok { IfOk result
            (λ fault. (e : EndpointHistory) → StandsFor self.old e → Finds fault self.new (reset_at e id code PeerUnidirectional)) }
        ensures err { OnErr result ((e : EndpointHistory) → StandsFor self.old e → StandsFor self.new e) }
    {
        self.streams.reset(self.alloc, id, code)
    }
}
