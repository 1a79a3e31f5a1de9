//! What comes on the peer's unidirectional streams (RFC 9114, section 6.2).
ghost use Rattle.std.specs.Prelude.{◌≡◌, ◌≤◌, ◌+◌, ◌^◌, true, false, [], ◌∷◌, length, IfOk, IfErr, OnErr};
ghost use Rattle.std.specs.List.{concat};
ghost use Rattle.h3_connection.specs.declared.arrival.Arrival.TheVariants.{BytesCame};
ghost use Rattle.h3_connection.specs.Delivering.{bytes_at, end_at, reset_at, push_code};
ghost use Rattle.h3_connection.specs.Endpoint.{EndpointHistory};
ghost use Rattle.h3_connection.specs.Endpoint.Kind.{PeerUnidirectional};
ghost use Rattle.h3_connection.specs.State.{EndpointState, StandsFor};
ghost use Rattle.h3_connection.specs.StrictConnection.{session_fault};
ghost use Rattle.h3_streams.specs.Placed.{placed, stream_of_peer, Reads, KeepsAll, closing_code};
ghost use Rattle.h3_streams.specs.ReadingOn.{HasRoom, IsDue, StopsAt, left_arrivals};

use crate::left::Left;
use crate::streams::ConnectionStreams;
use bytes::Bytes;
use h3_connection::arrival::MOST_HELD;
use h3_connection::setup::Announced;
use h3_proto::error::Code;
use h3_proto::stream::{Side, StreamId};
use h3_unidirectional::stream::Received;
use std::alloc::{AllocError, Global};

// RFC 9114 6.2.1: a critical stream closed by the peer
/// The fault of an end or a reset.
fn closing_fault(is_critical: bool) -> Option<Code>
    ensures { result ≡ closing_code is_critical }
{
    if is_critical {
        return Some(Code::H3_CLOSED_CRITICAL_STREAM);
    }
    None
}

/// The fault of a push stream: a client has allowed none, and to a server none may come.
fn push_fault(side: Side) -> Code
    ensures { result ≡ push_code side }
{
    match side {
        Side::Client => Code::H3_ID_ERROR,
        Side::Server => Code::H3_STREAM_CREATION_ERROR,
    }
}

/// The fault of a stream of this session: if the endpoint asks for a strict connection, its id is that of a request stream.
fn session_fault(own: &Announced, session: u64) -> Option<Code>
    ensures { result ≡ session_fault own.now session }
{
    if own.is_no_session(session) {
        return Some(Code::H3_ID_ERROR);
    }
    None
}

impl ConnectionStreams {
    /// How many bytes of a session came on it and were not returned.
    fn session_len(&self, id: StreamId) -> usize
        ensures { result ≡ length (concat (stream_of_peer self.now id).unread) }
    {
        self.unidirectional.unread_len(id)
    }

    /// Whether bytes have room here: no more is held than any memory has room for, and no less is refused.
    fn has_room(&self, id: StreamId, len: usize) -> bool
        ensures room { result ≡ true → HasRoom self.now id len }
        ensures none { result ≡ false → 2 ^ 61 ≤ length (concat (stream_of_peer self.now id).unread) + len }
    {
        self.session_len(id) < MOST_HELD && len < MOST_HELD
    }

    /// Bytes came on a unidirectional stream of the peer, which is not closed. They tell its role, or are for it. What is for the control,
    /// encoder and decoder stream is read, up to the first fault, and that is returned. A frame of the control stream that says a length
    /// above the limit of the endpoint's choices is a fault. So is an instruction of the encoder or decoder stream that is longer. If the
    /// call runs out of memory, what was read stands, and the `Err` has what is still to be read.
    pub fn bytes(
        &mut self,
        alloc: Global,
        side: Side,
        own: &Announced,
        id: StreamId,
        bytes: Bytes,
    ) -> Result<Option<Code>, Left>
        ensures ok { IfOk result
            (λ fault. (s : EndpointState) (e : EndpointHistory) → IsDue s self.old e side own.now id
            → Reads s fault self.new (bytes_at e id bytes PeerUnidirectional)) }
        ensures err { IfErr result
            (λ left. (s : EndpointState) (e : EndpointHistory) → IsDue s self.old e side own.now id
            → StopsAt s self.new e (BytesCame id bytes ∷ []) (left_arrivals left)) }
    {
        if !self.has_room(id, bytes.len()) {
            return Err(Left::of(id, bytes));
        }
        match self.unidirectional.receive(alloc, own, id, bytes) {
            Ok(Received::Nothing) => Ok(None),
            Ok(Received::Push) => Ok(Some(push_fault(side))),
            Ok(Received::Session(session)) => Ok(session_fault(own, session)),
            Ok(Received::Control(rest)) => self.control_bytes(alloc, side, own, id, rest),
            Ok(Received::Encoder(rest)) => self.encoder_bytes(own, id, rest),
            Ok(Received::Decoder(rest)) => self.decoder_bytes(own, id, rest),
            Err(back) => Err(Left::of(id, back)),
        }
    }

    /// The end of a stream of the peer came. It returns the fault that this is, if the connection needs the stream. If an allocation fails,
    /// nothing has changed.
    pub fn end(&mut self, alloc: Global, id: StreamId) -> Result<Option<Code>, AllocError>
        ensures ok { IfOk result
            (λ fault. (s : EndpointState) (e : EndpointHistory) → StandsFor (placed s self.old) e
            → Reads s fault self.new (end_at e id PeerUnidirectional)) }
        ensures err { OnErr result (KeepsAll self.old self.new) }
    {
        let is_critical = self.unidirectional.close(alloc, id, None)?;
        Ok(closing_fault(is_critical))
    }

    /// A stream of the peer was reset, with this code. It returns the fault that this is, if the connection needs the stream. If an
    /// allocation fails, nothing has changed.
    pub fn reset(
        &mut self,
        alloc: Global,
        id: StreamId,
        code: u64,
    ) -> Result<Option<Code>, AllocError>
        ensures ok { IfOk result
            (λ fault. (s : EndpointState) (e : EndpointHistory) → StandsFor (placed s self.old) e
            → Reads s fault self.new (reset_at e id code PeerUnidirectional)) }
        ensures err { OnErr result (KeepsAll self.old self.new) }
    {
        let is_critical = self.unidirectional.close(alloc, id, Some(code))?;
        Ok(closing_fault(is_critical))
    }
}
