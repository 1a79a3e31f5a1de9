//! A source with a buffer before it.
ghost use Rattle.std.specs.Prelude.{◌≡◌, nat_le, ◌<◌, ◌+◌, ◌^◌, ◌++◌, ◌≤◌, ℕ, List, false, true, [], length, MatchOption, IfOk, IfSome};
ghost use Rattle.std.specs.Prelude.{None, OnErr, Err, IsTrue, ◌↔◌};
ghost use Rattle.h3_wire.specs.Source.{Asked, coming};
ghost use Rattle.std.specs.Borrow.{Lends, sem};
ghost use Rattle.h3_wire.specs.contracts.stream.BufRecvStream.{the_row};
ghost use Rattle.h3_frames.specs.Numbers.{TakesNumber};
ghost use Rattle.h3_wire.specs.Asking.{Asks};
ghost use Rattle.h3_wire.specs.Buffering.{left_behind, AnswersFrom};
ghost use Rattle.h3_wire.specs.BufferingLaws.{polls_behind, same_behind};
ghost use Rattle.h3_frames.specs.Frames.{plain_frames};
ghost use Rattle.h3_frames.specs.Known.{Gives};
ghost use Rattle.h3_wire.specs.Cut.{TellsEnd};
ghost use Rattle.h3_wire.specs.Given.{AddsPieces};
ghost use Rattle.h3_frames.specs.Pieces.{IsRest, chunk_of, ending, first_of};
ghost use Rattle.h3_frames.specs.Tries.{Counts, Expects};
ghost use Rattle.std.specs.List.{concat};
ghost use Rattle.h3_wire.specs.Streams.{ReadsMore, Tells, Adds, EndIsTold, AsksFirst, stream_error, error_of};

use crate::quic::{Poll, RecvStream, StreamErrorIncoming};
use bytes::{Buf, Bytes};
use h3_frames::buf::BufList;
use h3_frames::frame::{FrameDecoder, FrameStreamError};
use h3_frames::proto::frame::{Frame, PayloadLen};
use h3_frames::proto::stream::StreamId;
use std::alloc::{AllocError, Global};
use std::fmt;
use std::marker::Model;

mod accept;
mod headers;
mod write_buf;

pub use accept::{AcceptRecvStream, AcceptedRecvStream, PollTypeError};
pub use h3_frames::stream::MessageBuf;
pub use headers::{BidiStreamHeader, UniStreamHeader};
pub use write_buf::WriteBuf;

/// A source, and the bytes of it that were read and not yet taken.
#[derive(Drop)]
pub struct BufRecvStream<S> {
    buf: BufList<Bytes>,
    eos: bool,
    stream: S,
}

impl<S> Model for BufRecvStream<S> {
    ghost use Rattle.h3_wire.specs.Streams.{Buffered};

    ghost Value = { Buffered S };

    ghost view = { λ s. record { pieces = s.buf.pieces; source = s.stream; is_eos = s.eos } };
}

impl<S> BufRecvStream<S> {
    /// A stream of which nothing was read.
    pub fn new(alloc: Global, stream: S) -> Self
        ensures bytes { concat result.pieces ≡ [] }
        ensures pieces { result.pieces ≡ [] }
        ensures source { result.source ≡ stream }
        ensures is_eos { result.is_eos ≡ false }
    {
        BufRecvStream {
            buf: BufList::new(alloc),
            eos: false,
            stream,
        }
    }

    /// Lends the source, so that more can be put into it.
    pub fn source_mut(&mut self) -> &mut S
        ensures value { result.now ≡ self.old.source }
        ensures* writes_back { sem 𝓛 (Lends (the_row S.row) S.row self.entry result (λ x. record self.old { source = x })) }
    {
        &mut self.stream
    }

    /// How many bytes were read and not yet taken.
    pub fn remaining(&self) -> usize
        ensures { result ≡ length (concat self.now.pieces) }
    {
        self.buf.remaining()
    }

    /// Whether bytes were read and not yet taken.
    pub fn has_remaining(&self) -> bool
        ensures { IsTrue result ↔ (0 < length (concat self.now.pieces)) }
    {
        self.buf.has_remaining()
    }

    /// Takes the first piece's first bytes, `max` or all of it.
    pub fn take_chunk(&mut self, max: usize) -> Result<Option<Bytes>, AllocError>
        ensures some { IfOk result (λ o. MatchOption o ((concat self.old.pieces ≡ []) × (concat self.new.pieces ≡ []))
            (λ b. (concat self.old.pieces ≡ b ++ concat self.new.pieces) × (length b ≤ max) × (0 < max → 0 < length b))) }
        ensures pieces { IfOk result (λ o. (o, self.new.pieces) ≡ chunk_of max self.old.pieces) }
        ensures err { OnErr result (self.new.pieces ≡ self.old.pieces) }
        ensures source { self.new.source ≡ self.old.source }
        ensures is_eos { self.new.is_eos ≡ self.old.is_eos }
    {
        self.buf.take_chunk(max)
    }

    // Takes the first piece.
    pub(crate) fn take_first_chunk(&mut self) -> Option<Bytes>
        ensures some { MatchOption result ((concat self.old.pieces ≡ []) × (concat self.new.pieces ≡ []))
            (λ b. (concat self.old.pieces ≡ b ++ concat self.new.pieces) × (0 < length b)) }
        ensures pieces { (result, self.new.pieces) ≡ first_of self.old.pieces }
        ensures source { self.new.source ≡ self.old.source }
        ensures is_eos { self.new.is_eos ≡ self.old.is_eos }
    {
        self.buf.take_first_chunk()
    }

    // Takes the number at the front of what was read, if it is whole.
    fn take_number(&mut self) -> Option<u64>
        ensures takes { TakesNumber result (concat self.old.pieces) (concat self.new.pieces) }
        ensures below { IfSome result (λ n. n < 2 ^ 62) }
        ensures rest { IsRest self.old.pieces self.new.pieces }
        ensures source { self.new.source ≡ self.old.source }
        ensures is_eos { self.new.is_eos ≡ self.old.is_eos }
    {
        self.buf.take_var()
    }

    // Whether all that was read lies in one piece.
    pub(crate) fn is_one_piece(&self) -> bool
        ensures { result ≡ nat_le (length self.now.pieces) 1 }
    {
        self.buf.is_one_piece()
    }

    /// The bytes that were read and not yet taken, and the source. `is_eos` tells whether its end
    /// is known.
    pub fn into_parts(self) -> (BufList<Bytes>, S)
        ensures pieces { result.0.pieces ≡ self.pieces }
        ensures source { result.1 ≡ self.source }
    {
        (self.buf, self.stream)
    }

    /// Whether the source's end is known.
    pub fn is_eos(&self) -> bool
        ensures { result ≡ self.now.is_eos }
    {
        self.eos
    }
}

// What a read gave: more bytes, the end, or nothing yet.
#[derive(Clone, Copy)]
pub(crate) enum Received {
    More,
    End,
    Nothing,
}

impl<S: RecvStream> BufRecvStream<S> {
    /// Reads a piece into the buffer, and answers whether the end came. Room is taken before the source is asked.
    pub fn poll_read(&mut self) -> Poll<Result<bool, StreamErrorIncoming>>
        requires { length (concat self.old.pieces) + length (S.rest self.old.source) < 2 ^ 62 }
        ensures { ReadsMore S.answers result self.old self.new }
    {
        if self.buf.reserve().is_err() {
            return Poll::Ready(Err(StreamErrorIncoming::OutOfMemory));
        }
        match self.stream.poll_data() {
            Poll::Ready(Ok(Some(piece))) => {
                self.buf.keep_reserved(piece);
                Poll::Ready(Ok(false))
            }
            Poll::Ready(Ok(None)) => {
                self.eos = true;
                Poll::Ready(Ok(true))
            }
            Poll::Ready(Err(e)) => Poll::Ready(Err(e)),
            Poll::Pending => Poll::Pending,
        }
    }

    // Reads more, unless the source's end is known.
    pub(crate) fn receive(&mut self) -> Result<Received, FrameStreamError>
        requires { length (concat self.old.pieces ++ coming self.old.is_eos (S.rest self.old.source)) < 2 ^ 62 }
        ensures all { concat self.new.pieces ++ coming self.new.is_eos (S.rest self.new.source) ≡ concat self.old.pieces
            ++ coming self.old.is_eos (S.rest self.old.source) }
        ensures grows { (more : List ℕ) × (concat self.new.pieces ≡ concat self.old.pieces ++ more) }
        ensures adds { Adds result (concat self.old.pieces) (concat self.new.pieces) }
        ensures tells { Tells S.rest S.answers result self.old self.new }
        ensures asked { Asked S.answers self.old.source self.new.source }
        ensures ended { EndIsTold S.answers self.new.source self.old.is_eos self.new.is_eos }
        ensures first { self.old.is_eos ≡ false → AsksFirst S.answers self.old.source (error_of result) }
        ensures pieces { AddsPieces S.answers self.old.source self.old.pieces self.new.source self.new.pieces }
        ensures end { TellsEnd result self.new.is_eos }
        ensures asks { Asks S.answers self.old result self.new }
    {
        if self.eos {
            return Ok(Received::End);
        }
        match self.poll_read() {
            Poll::Ready(Ok(false)) => Ok(Received::More),
            Poll::Ready(Ok(true)) => Ok(Received::End),
            Poll::Ready(Err(e)) => Err(as_stream_error(e)),
            Poll::Pending => Ok(Received::Nothing),
        }
    }

    // Takes the next known frame of what was read.
    pub(crate) fn take_frame(
        &mut self,
        alloc: Global,
        decoder: &mut FrameDecoder,
    ) -> Result<Option<Frame<PayloadLen>>, FrameStreamError>
        requires expects { Expects plain_frames decoder.old (concat self.old.pieces) }
        ensures gives { Gives plain_frames result (concat self.old.pieces) (concat self.new.pieces) }
        ensures expects { Expects plain_frames decoder.new (concat self.new.pieces) }
        ensures counts { Counts plain_frames decoder.old (concat self.old.pieces) result decoder.new }
        ensures fresh { IfOk result (λ o. IfSome o (λ f. decoder.new.expected ≡ None)) }
        ensures pieces { self.new.pieces ≡ ending (length (concat self.new.pieces)) self.old.pieces }
        ensures source { self.new.source ≡ self.old.source }
        ensures is_eos { self.new.is_eos ≡ self.old.is_eos }
    {
        decoder.decode(alloc, &mut self.buf)
    }
}

// An error of the source as the stream of frames tells it.
fn as_stream_error(e: StreamErrorIncoming) -> FrameStreamError
    ensures { result ≡ stream_error e }
{
    match e {
        StreamErrorIncoming::OutOfMemory => FrameStreamError::OutOfMemory,
        e => FrameStreamError::Quic(e),
    }
}

/// What was read comes first, a piece a call. After it nothing comes once the source's end is known.
impl<S: RecvStream> RecvStream for BufRecvStream<S> {
    ghost rest = { left_behind S.rest };

    ghost answers = { AnswersFrom S.answers };

    ghost id = { λ s. S.id s.source };

    ghost polls = { polls_behind S.rest S.answers S.polls };

    ghost same = { same_behind S.answers S.id S.same };

    fn poll_data(&mut self) -> Poll<Result<Option<Bytes>, StreamErrorIncoming>> {
        if let Some(piece) = self.buf.take_first_chunk() {
            return Poll::Ready(Ok(Some(piece)));
        }
        if self.eos {
            return Poll::Ready(Ok(None));
        }
        let answer = self.stream.poll_data();
        self.eos = matches!(&answer, Poll::Ready(Ok(None)));
        answer
    }

    fn recv_id(&self) -> StreamId {
        self.stream.recv_id()
    }
}

impl<S> fmt::Debug for BufRecvStream<S> {
    fn fmt<W: fmt::Write>(&self, f: &mut fmt::Formatter<W>) -> fmt::Result {
        f.debug_struct("BufRecvStream")
            .field("buf", &self.buf)
            .field("eos", &self.eos)
            .field("stream", &"...")
            .finish()
    }
}
