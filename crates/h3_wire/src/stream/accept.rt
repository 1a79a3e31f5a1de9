//! A peer's one-way stream, until its type is known (RFC 9114, section 6.2).
ghost use Rattle.std.specs.Prelude.{◌≡◌, ◌<◌, ◌≤◌, ◌^◌, ◌++◌, ℕ, List, [], false, true, None, length, IsSome};
ghost use Rattle.std.specs.Borrow.{Lends, sem};
ghost use Rattle.h3_wire.specs.contracts.stream.accept.AcceptRecvStream.{the_row};
ghost use Rattle.std.specs.List.{concat};
ghost use Rattle.h3_wire.specs.Given.{AddsPieces, LeavesPieces, PassesPieces};
ghost use Rattle.h3_frames.specs.Pieces.{IsRest};
ghost use Rattle.h3_wire.specs.Source.{Asked};
ghost use Rattle.h3_wire.specs.Streams.{Adds, EndIsTold, Tells};
ghost use Rattle.h3_wire.specs.Accepting.{has_id, start_from, all_left, stream_of, resolved, Short, PollsType, type_error};
ghost use Rattle.h3_wire.specs.Accepted.{Accepts};
ghost use Rattle.h3_wire.specs.Asking.{Asks};
ghost use Rattle.h3_wire.specs.Starting.{Starts, StartRounds, type_read, behind_type_read, id_read, behind_id_read};

use super::{BufRecvStream, Received};
use crate::frame::FrameStream;
use crate::quic::{Poll, RecvStream, StreamErrorIncoming};
use h3_coding::varint::VarInt;
use h3_frames::frame::FrameStreamError;
use h3_frames::proto::stream::{StreamId, StreamType};
use h3_frames::proto::webtransport::SessionId;
use std::alloc::Global;
use std::marker::Model;

/// Why the type of a stream is not known.
#[derive(Debug, Drop)]
pub enum PollTypeError {
    /// The connection was closed, with this code.
    IncomingError(u64),
    /// The stream ended, was reset or failed before type and id were whole.
    EndOfStream,
    /// There was no memory. Nothing was taken, and the call can be made again.
    OutOfMemory,
}

/// A one-way stream by its type, with every byte after the type and its id.
#[derive(Drop)]
pub enum AcceptedRecvStream<S> {
    /// A control stream.
    Control(FrameStream<S>),
    /// A push stream.
    Push(FrameStream<S>),
    /// An encoder stream of QPACK.
    Encoder(BufRecvStream<S>),
    /// A decoder stream of QPACK.
    Decoder(BufRecvStream<S>),
    /// A stream of this WebTransport session.
    WebTransportUni(SessionId, BufRecvStream<S>),
    /// A type without a meaning.
    Unknown(BufRecvStream<S>),
}

/// A peer's one-way stream, whose type and the id after it (of types 1 and 0x54) are to be read.
#[derive(Drop)]
pub struct AcceptRecvStream<S> {
    stream: BufRecvStream<S>,
    ty: Option<StreamType>,
    id: Option<VarInt>,
    alloc: Global,
}

impl<S> Model for AcceptRecvStream<S> {
    ghost use Rattle.std.specs.Prelude.{◌≡◌, None};
    ghost use Rattle.h3_wire.specs.Accepting.{Accepting};

    ghost Value = { Accepting S };

    ghost view = { λ s. record { pieces = s.stream.pieces; source = s.stream.source; is_eos = s.stream.is_eos; kind = s.ty; id = s.id } };

    ghost invariant = { λ s. s.ty ≡ None → s.id ≡ None };
}

impl<S> AcceptRecvStream<S> {
    /// A stream whose type is not read yet.
    pub fn new(alloc: Global, stream: S) -> Self
        ensures bytes { concat result.pieces ≡ [] }
        ensures pieces { result.pieces ≡ [] }
        ensures source { result.source ≡ stream }
        ensures is_eos { result.is_eos ≡ false }
        ensures kind { result.kind ≡ None }
        ensures id { result.id ≡ None }
    {
        AcceptRecvStream {
            stream: BufRecvStream::new(alloc, stream),
            ty: None,
            id: None,
            alloc,
        }
    }

    /// Lends the source, so that more can be put into it.
    pub fn source_mut(&mut self) -> &mut S
        ensures value { result.now ≡ self.old.source }
        ensures* writes_back { sem 𝓛 (Lends (the_row S.row) S.row self.entry result (λ x. record self.old { source = x })) }
    {
        self.stream.source_mut()
    }

    /// Whether the type was read, and the id if there is one.
    pub fn is_resolved(&self) -> bool
        ensures { result ≡ resolved self.now.kind self.now.id }
    {
        match self.ty {
            None => false,
            Some(ty) => self.id.is_some() || !carries_id(ty),
        }
    }

    /// The stream by its type. No byte after type and id is lost.
    pub fn into_stream(self) -> AcceptedRecvStream<S>
        requires { resolved self.kind self.id ≡ true }
        ensures { Accepts result self }
    {
        let Some(ty) = self.ty else { unreachable!() };
        match ty {
            StreamType::CONTROL => {
                AcceptedRecvStream::Control(FrameStream::new(self.alloc, self.stream))
            }
            StreamType::PUSH => {
                AcceptedRecvStream::Push(FrameStream::new(self.alloc, self.stream))
            }
            StreamType::ENCODER => AcceptedRecvStream::Encoder(self.stream),
            StreamType::DECODER => AcceptedRecvStream::Decoder(self.stream),
            StreamType::WEBTRANSPORT_UNI => {
                let Some(id) = self.id else { unreachable!() };
                AcceptedRecvStream::WebTransportUni(SessionId::from_varint(id), self.stream)
            }
            _ => AcceptedRecvStream::Unknown(self.stream),
        }
    }

    // Takes what was read of type and id, and answers whether both are there.
    fn take_start(&mut self) -> bool
        ensures same { (more : List ℕ)
            → start_from self.new.kind self.new.id (concat self.new.pieces ++ more) ≡ start_from self.old.kind self.old.id
            (concat self.old.pieces ++ more) }
        ensures resolved { result ≡ resolved self.new.kind self.new.id }
        ensures short { result ≡ false → start_from self.new.kind self.new.id (concat self.new.pieces) ≡ Short }
        ensures fewer { length (concat self.new.pieces) ≤ length (concat self.old.pieces) }
        ensures rest { IsRest self.old.pieces self.new.pieces }
        ensures source { self.new.source ≡ self.old.source }
        ensures is_eos { self.new.is_eos ≡ self.old.is_eos }
        ensures starts { Starts self.old self.new }
    {
        self.take_type_and_id()
    }

    fn take_type_and_id(&mut self) -> bool
        ensures same { (more : List ℕ)
            → start_from self.new.kind self.new.id (concat self.new.pieces ++ more) ≡ start_from self.old.kind self.old.id
            (concat self.old.pieces ++ more) }
        ensures resolved { result ≡ resolved self.new.kind self.new.id }
        ensures short { result ≡ false → start_from self.new.kind self.new.id (concat self.new.pieces) ≡ Short }
        ensures fewer { length (concat self.new.pieces) ≤ length (concat self.old.pieces) }
        ensures rest { IsRest self.old.pieces self.new.pieces }
        ensures source { self.new.source ≡ self.old.source }
        ensures is_eos { self.new.is_eos ≡ self.old.is_eos }
        ensures kind { self.new.kind ≡ type_read self.old.kind (concat self.old.pieces) }
        ensures id { self.new.id ≡ id_read self.new.kind self.old.id (behind_type_read self.old.kind (concat self.old.pieces)) }
        ensures buffered { concat self.new.pieces ≡ behind_id_read self.new.kind self.old.id
            (behind_type_read self.old.kind (concat self.old.pieces)) }
    {
        if !self.take_type() {
            return false;
        }
        self.take_id()
    }

    // Takes the type, if it was not read, and answers whether it is there.
    #[tactic(auto, using(h3_frames::specs::PieceLaws::rest_same))]
    fn take_type(&mut self) -> bool
        ensures same { (more : List ℕ)
            → start_from self.new.kind self.new.id (concat self.new.pieces ++ more) ≡ start_from self.old.kind self.old.id
            (concat self.old.pieces ++ more) }
        ensures typed { result ≡ true → IsSome self.new.kind }
        ensures short { result ≡ false → (resolved self.new.kind self.new.id ≡ false)
            × (start_from self.new.kind self.new.id (concat self.new.pieces) ≡ Short) }
        ensures fewer { length (concat self.new.pieces) ≤ length (concat self.old.pieces) }
        ensures rest { IsRest self.old.pieces self.new.pieces }
        ensures source { self.new.source ≡ self.old.source }
        ensures is_eos { self.new.is_eos ≡ self.old.is_eos }
        ensures kind { self.new.kind ≡ type_read self.old.kind (concat self.old.pieces) }
        ensures id { self.new.id ≡ self.old.id }
        ensures buffered { concat self.new.pieces ≡ behind_type_read self.old.kind (concat self.old.pieces) }
        ensures none { result ≡ false → self.new.kind ≡ None }
    {
        if self.ty.is_some() {
            return true;
        }
        let Some(number) = self.stream.take_number() else {
            return false;
        };
        self.ty = Some(StreamType::from_value(number));
        true
    }

    // Takes the id if the type, which was read, has one.
    #[tactic(auto, using(h3_frames::specs::PieceLaws::rest_same))]
    fn take_id(&mut self) -> bool
        requires { IsSome self.old.kind }
        ensures same { (more : List ℕ)
            → start_from self.new.kind self.new.id (concat self.new.pieces ++ more) ≡ start_from self.old.kind self.old.id
            (concat self.old.pieces ++ more) }
        ensures resolved { result ≡ resolved self.new.kind self.new.id }
        ensures short { result ≡ false → start_from self.new.kind self.new.id (concat self.new.pieces) ≡ Short }
        ensures fewer { length (concat self.new.pieces) ≤ length (concat self.old.pieces) }
        ensures rest { IsRest self.old.pieces self.new.pieces }
        ensures source { self.new.source ≡ self.old.source }
        ensures is_eos { self.new.is_eos ≡ self.old.is_eos }
        ensures kind { self.new.kind ≡ self.old.kind }
        ensures id { self.new.id ≡ id_read self.old.kind self.old.id (concat self.old.pieces) }
        ensures buffered { concat self.new.pieces ≡ behind_id_read self.old.kind self.old.id (concat self.old.pieces) }
    {
        if self.is_resolved() {
            return true;
        }
        let Some(number) = self.stream.take_number() else {
            return false;
        };
        self.id = Some(VarInt::from_u64_unchecked(number));
        true
    }
}

// Whether an id follows the type.
fn carries_id(ty: StreamType) -> bool
    ensures { result ≡ has_id ty }
{
    ty == StreamType::PUSH || ty == StreamType::WEBTRANSPORT_UNI
}

impl<S: RecvStream> AcceptRecvStream<S> {
    /// The id of the stream.
    pub fn id(&self) -> StreamId
        ensures { result ≡ S.id self.now.source }
    {
        self.stream.recv_id()
    }

    /// Reads the type, and the id of types 1 and 0x54. The source is asked only if what was read
    /// does not suffice.
    pub fn poll_type(&mut self) -> Poll<Result<(), PollTypeError>>
        requires { length (all_left S.rest self.old) < 2 ^ 62 }
        ensures same { (more : List ℕ) → start_from self.new.kind self.new.id (all_left S.rest self.new ++ more)
            ≡ start_from self.old.kind self.old.id (all_left S.rest self.old ++ more) }
        ensures polls { PollsType S.answers result self.new }
        ensures rounds { StartRounds S.answers self.old result self.new }
        ensures asked { Asked S.answers self.old.source self.new.source }
        ensures ended { EndIsTold S.answers self.new.source self.old.is_eos self.new.is_eos }
        ensures fewer { length (all_left S.rest self.new) ≤ length (all_left S.rest self.old) }
        ensures pieces { LeavesPieces S.answers
            (length (concat self.new.pieces)) self.old.source self.old.pieces self.new.source self.new.pieces }
    {
        self.poll_start()
    }

    fn poll_start(&mut self) -> Poll<Result<(), PollTypeError>>
        requires { length (all_left S.rest self.old) < 2 ^ 62 }
        ensures same { (more : List ℕ) → start_from self.new.kind self.new.id (all_left S.rest self.new ++ more)
            ≡ start_from self.old.kind self.old.id (all_left S.rest self.old ++ more) }
        ensures polls { PollsType S.answers result self.new }
        ensures rounds { StartRounds S.answers self.old result self.new }
        ensures asked { Asked S.answers self.old.source self.new.source }
        ensures ended { EndIsTold S.answers self.new.source self.old.is_eos self.new.is_eos }
        ensures fewer { length (all_left S.rest self.new) ≤ length (all_left S.rest self.old) }
        ensures pieces { PassesPieces S.answers self.old.source self.old.pieces self.new.source self.new.pieces }
    {
        loop {
            if self.take_start() {
                return Poll::Ready(Ok(()));
            }
            match self.ask() {
                Ok(Received::More) => {}
                Ok(Received::End) => return Poll::Ready(Err(PollTypeError::EndOfStream)),
                Ok(Received::Nothing) => return Poll::Pending,
                Err(FrameStreamError::Quic(e)) => return Poll::Ready(Err(as_type_error(e))),
                Err(FrameStreamError::OutOfMemory) => {
                    return Poll::Ready(Err(PollTypeError::OutOfMemory));
                }
                // A read has no other error.
                Err(FrameStreamError::Proto(_)) => unreachable!(),
                Err(FrameStreamError::UnexpectedEnd) => unreachable!(),
            }
        }
    }
}

impl<S: RecvStream> AcceptRecvStream<S> {
    // Asks the source, unless its end is known.
    fn ask(&mut self) -> Result<Received, FrameStreamError>
        requires { length (all_left S.rest self.old) < 2 ^ 62 }
        ensures all { all_left S.rest self.new ≡ all_left S.rest self.old }
        ensures kind { self.new.kind ≡ self.old.kind }
        ensures id { self.new.id ≡ self.old.id }
        ensures adds { Adds result (concat self.old.pieces) (concat self.new.pieces) }
        ensures tells { Tells S.rest S.answers result (stream_of self.old) (stream_of self.new) }
        ensures asked { Asked S.answers self.old.source self.new.source }
        ensures ended { EndIsTold S.answers self.new.source self.old.is_eos self.new.is_eos }
        ensures pieces { AddsPieces S.answers self.old.source self.old.pieces self.new.source self.new.pieces }
        ensures asks { Asks S.answers (stream_of self.old) result (stream_of self.new) }
    {
        self.stream.receive()
    }
}

// An error of the source as a `PollTypeError`.
fn as_type_error(e: StreamErrorIncoming) -> PollTypeError
    ensures { result ≡ type_error e }
{
    match e {
        StreamErrorIncoming::ConnectionErrorIncoming { code } => PollTypeError::IncomingError(code),
        StreamErrorIncoming::StreamTerminated { .. } | StreamErrorIncoming::Unknown => {
            PollTypeError::EndOfStream
        }
        StreamErrorIncoming::OutOfMemory => PollTypeError::OutOfMemory,
    }
}
