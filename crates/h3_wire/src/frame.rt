//! A stream of frames.
ghost use Rattle.std.specs.Prelude.{◌≡◌, ◌<◌, ◌≤◌, ◌-◌, ◌^◌, ℕ, List, false, true, None, Ok, [], length, MatchOption, IfOk, IfErr, OnErr};
ghost use Rattle.h3_wire.specs.declared.quic.Poll.TheVariants.{Ready};
ghost use Rattle.std.specs.Borrow.{Lends, sem};
ghost use Rattle.h3_wire.specs.contracts.frame.FrameStream.{the_row};
ghost use Rattle.h3_wire.specs.Asking.{Asks, IsRoundBefore, Rounds, ReadsOnce, TakesFirst, data_of, is_short};
ghost use Rattle.h3_wire.specs.declared.stream.Received.TheVariants as end;
ghost use Rattle.h3_frames.specs.declared.frame.errors.FrameStreamError.TheVariants as stream;
ghost use Rattle.h3_wire.specs.Source.{Asked, coming};
ghost use Rattle.std.specs.List.{concat};
ghost use Rattle.h3_wire.specs.Cut.{PollsPiece, TellsEnd, cut, is_cut_short};
ghost use Rattle.h3_wire.specs.Given.{AddsPieces, LeavesPieces, PassesPieces};
ghost use Rattle.h3_wire.specs.ReadsOn.{ReadsFrame, ReadsData};
ghost use Rattle.h3_wire.specs.Streams.{left, is_open, payload_behind, stream_part, Tells, PollsFrame, PollsData, TakesData, IsCutShort};
ghost use Rattle.h3_wire.specs.Streams.{Continues, EndIsTold, AsksFirst, error_of, poll_error, round_error};

use crate::quic::{Poll, RecvStream};
use crate::stream::{BufRecvStream, Received};
use bytes::Bytes;
use h3_frames::proto::frame::{Frame, PayloadLen};
use h3_frames::proto::stream::StreamId;
use std::alloc::Global;
use std::marker::Model;

mod payload_left;

pub use h3_frames::frame::{
    FrameBuffer, FrameDecoder, FrameKinds, FrameProtocolError, FrameStreamError, MessageFrame,
};
pub use payload_left::PayloadLeft;

/// Reads frames, and the payloads of DATA and of WebTransport in pieces.
#[derive(Drop)]
pub struct FrameStream<S> {
    stream: BufRecvStream<S>,
    decoder: FrameDecoder,
    payload: PayloadLeft,
    alloc: Global,
}

impl<S> Model for FrameStream<S> {
    ghost use Rattle.std.specs.Prelude.{◌≡◌, true, None};
    ghost use Rattle.std.specs.List.{concat};
    ghost use Rattle.h3_frames.specs.Frames.{plain_frames};
    ghost use Rattle.h3_frames.specs.Tries.{Expects};
    ghost use Rattle.h3_wire.specs.Streams.{Framing, is_open};

    ghost Value = { Framing S };

    ghost view = { λ s. record {
      pieces = s.stream.pieces;
      source = s.stream.source;
      is_eos = s.stream.is_eos;
      payload = s.payload;
      decoder = s.decoder;
    } };

    ghost invariant = { λ s. Expects plain_frames s.decoder (concat s.stream.pieces)
        × (is_open s.payload ≡ true → s.decoder.expected ≡ None) };
}

// The payload that is under way after a frame.
fn payload_of(frame: &Frame<PayloadLen>) -> PayloadLeft
    ensures { result ≡ payload_behind frame.now }
{
    match frame {
        Frame::Data(len) => PayloadLeft::Bytes(len.0),
        Frame::WebTransportStream(_) => PayloadLeft::ToEnd,
        _ => PayloadLeft::Bytes(0),
    }
}

impl<S> FrameStream<S> {
    /// Reads frames from here on. What was read of the stream and not yet taken comes first.
    pub fn new(alloc: Global, stream: BufRecvStream<S>) -> Self
        ensures bytes { concat result.pieces ≡ concat stream.pieces }
        ensures pieces { result.pieces ≡ stream.pieces }
        ensures source { result.source ≡ stream.source }
        ensures is_eos { result.is_eos ≡ stream.is_eos }
        ensures payload { is_open result.payload ≡ false }
        ensures decoder { result.decoder ≡ record { expected = None; tries = 0 } }
    {
        FrameStream {
            stream,
            decoder: FrameDecoder::default(),
            payload: PayloadLeft::Bytes(0),
            alloc,
        }
    }

    /// The stream with the bytes that no call took.
    pub fn into_inner(self) -> BufRecvStream<S>
        ensures pieces { result.pieces ≡ self.pieces }
        ensures source { result.source ≡ self.source }
        ensures is_eos { result.is_eos ≡ self.is_eos }
    {
        self.stream
    }

    /// Whether a payload is under way.
    pub fn has_data(&self) -> bool
        ensures { result ≡ is_open self.now.payload }
    {
        match self.payload {
            PayloadLeft::Bytes(count) => 0 < count,
            PayloadLeft::ToEnd => true,
        }
    }

    /// How often the frame under way was tried, or else the last one that was taken, an unknown one
    /// too: at most 17 times, and 0 before the first.
    pub fn tries(&self) -> u8
        ensures value { result ≡ self.now.decoder.tries }
        ensures bound { result ≤ 17 }
    {
        self.decoder.tries()
    }

    /// Lends the source, so that more can be put into it.
    pub fn source_mut(&mut self) -> &mut S
        ensures value { result.now ≡ self.old.source }
        ensures* writes_back { sem 𝓛 (Lends (the_row S.row) S.row self.entry result (λ x. record self.old { source = x })) }
    {
        self.stream.source_mut()
    }
}

impl<S: RecvStream> FrameStream<S> {
    /// The id of the stream.
    pub fn id(&self) -> StreamId
        ensures { result ≡ S.id self.now.source }
    {
        self.stream.recv_id()
    }

    /// The next frame, of DATA its type and length. The source is asked before the buffer, so that a reset comes before a frame that was
    /// read.
    pub fn poll_next(&mut self) -> Poll<Result<Option<Frame<PayloadLen>>, FrameStreamError>>
        requires closed { is_open self.old.payload ≡ false }
        requires few { length (left S.rest self.old) < 2 ^ 62 }
        ensures reads { (more : List ℕ) → ReadsFrame S.rest result self.old self.new more }
        ensures rounds { Rounds S.answers self.old result self.new }
        ensures polls { PollsFrame S.rest S.answers result self.old self.new }
        ensures fewer { length (left S.rest self.new) ≤ length (left S.rest self.old) }
        ensures asked { Asked S.answers self.old.source self.new.source }
        ensures ended { EndIsTold S.answers self.new.source self.old.is_eos self.new.is_eos }
        ensures first { self.old.is_eos ≡ false → AsksFirst S.answers self.old.source (poll_error result) }
        ensures pieces { LeavesPieces S.answers
            (length (concat self.new.pieces)) self.old.source self.old.pieces self.new.source self.new.pieces }
    {
        self.poll_frame()
    }

    fn poll_frame(&mut self) -> Poll<Result<Option<Frame<PayloadLen>>, FrameStreamError>>
        requires closed { is_open self.old.payload ≡ false }
        requires few { length (left S.rest self.old) < 2 ^ 62 }
        ensures rounds { Rounds S.answers self.old result self.new }
        ensures polls { PollsFrame S.rest S.answers result self.old self.new }
        ensures fewer { length (left S.rest self.new) ≤ length (left S.rest self.old) }
        ensures asked { Asked S.answers self.old.source self.new.source }
        ensures ended { EndIsTold S.answers self.new.source self.old.is_eos self.new.is_eos }
        ensures first { self.old.is_eos ≡ false → AsksFirst S.answers self.old.source (poll_error result) }
        ensures pieces { PassesPieces S.answers self.old.source self.old.pieces self.new.source self.new.pieces }
    {
        loop {
            if let Some(answer) = self.read_frame() {
                return answer;
            }
        }
    }

    // Asks the source once, and takes a frame if one is whole. `None` if more bytes came that end no frame.
    fn read_frame(&mut self) -> Option<Poll<Result<Option<Frame<PayloadLen>>, FrameStreamError>>>
        requires closed { is_open self.old.payload ≡ false }
        requires few { length (left S.rest self.old) < 2 ^ 62 }
        ensures round { MatchOption result (IsRoundBefore S.answers self.old self.new)
            (λ answer. Rounds S.answers self.old answer self.new) }
        ensures polls { MatchOption result (Continues S.rest self.old self.new)
            (λ answer. PollsFrame S.rest S.answers answer self.old self.new) }
        ensures fewer { length (left S.rest self.new) ≤ length (left S.rest self.old) }
        ensures asked { Asked S.answers self.old.source self.new.source }
        ensures ended { EndIsTold S.answers self.new.source self.old.is_eos self.new.is_eos }
        ensures first { self.old.is_eos ≡ false → AsksFirst S.answers self.old.source (round_error result) }
        ensures pieces { PassesPieces S.answers self.old.source self.old.pieces self.new.source self.new.pieces }
    {
        match self.stream.receive() {
            Err(e) => Some(Poll::Ready(Err(e))),
            Ok(received) => match self.stream.take_frame(self.alloc, &mut self.decoder) {
                Err(e) => Some(Poll::Ready(Err(e))),
                Ok(Some(frame)) => {
                    self.payload = payload_of(&frame);
                    Some(Poll::Ready(Ok(Some(frame))))
                }
                Ok(None) => match received {
                    Received::More => return None,
                    Received::Nothing => return Some(Poll::Pending),
                    Received::End => {
                        if self.stream.remaining() > 0 {
                            return Some(Poll::Ready(Err(FrameStreamError::UnexpectedEnd)));
                        }
                        return Some(Poll::Ready(Ok(None)));
                    }
                },
            },
        }
    }

    /// The next bytes of the payload under way, and `None` at its end. If no payload is under way the answer is `None`, and nothing
    /// changes. The source is asked before the buffer. At a known end the last piece of a payload that ends early is refused, and stays.
    pub fn poll_data(&mut self) -> Poll<Result<Option<Bytes>, FrameStreamError>>
        requires { length (left S.rest self.old) < 2 ^ 62 }
        ensures reads { (more : List ℕ) → ReadsData S.rest result self.old self.new more }
        ensures closed { is_open self.old.payload ≡ false → (result ≡ Ready (Ok None)) × (self.new ≡ self.old) }
        ensures once { ReadsOnce S.answers self.old result self.new }
        ensures polls { PollsData S.rest S.answers result self.old self.new }
        ensures asked { Asked S.answers self.old.source self.new.source }
        ensures ended { EndIsTold S.answers self.new.source self.old.is_eos self.new.is_eos }
        ensures first { self.old.is_eos ≡ false → is_open self.old.payload ≡ true
            → AsksFirst S.answers self.old.source (poll_error result) }
        ensures fewer { length (left S.rest self.new) ≤ length (left S.rest self.old) }
        ensures pieces { PollsPiece S.answers result self.old self.new }
    {
        self.poll_payload()
    }

    fn poll_payload(&mut self) -> Poll<Result<Option<Bytes>, FrameStreamError>>
        requires { length (left S.rest self.old) < 2 ^ 62 }
        ensures closed { is_open self.old.payload ≡ false → (result ≡ Ready (Ok None)) × (self.new ≡ self.old) }
        ensures once { ReadsOnce S.answers self.old result self.new }
        ensures polls { PollsData S.rest S.answers result self.old self.new }
        ensures asked { Asked S.answers self.old.source self.new.source }
        ensures ended { EndIsTold S.answers self.new.source self.old.is_eos self.new.is_eos }
        ensures first { self.old.is_eos ≡ false → is_open self.old.payload ≡ true
            → AsksFirst S.answers self.old.source (poll_error result) }
        ensures pieces { PollsPiece S.answers result self.old self.new }
    {
        if !self.has_data() {
            return Poll::Ready(Ok(None));
        }
        let received = match self.ask() {
            Ok(received) => received,
            Err(e) => return Poll::Ready(Err(e)),
        };
        if self.ends_short(received) {
            return Poll::Ready(Err(FrameStreamError::UnexpectedEnd));
        }
        match self.take_data() {
            Ok(taken) => data_answer(received, taken),
            Err(e) => Poll::Ready(Err(e)),
        }
    }

    // Asks the source, unless its end is known.
    fn ask(&mut self) -> Result<Received, FrameStreamError>
        requires { length (left S.rest self.old) < 2 ^ 62 }
        ensures all { left S.rest self.new ≡ left S.rest self.old }
        ensures payload { self.new.payload ≡ self.old.payload }
        ensures tells { Tells S.rest S.answers result (stream_part self.old) (stream_part self.new) }
        ensures asked { Asked S.answers self.old.source self.new.source }
        ensures ended { EndIsTold S.answers self.new.source self.old.is_eos self.new.is_eos }
        ensures first { self.old.is_eos ≡ false → AsksFirst S.answers self.old.source (error_of result) }
        ensures pieces { AddsPieces S.answers self.old.source self.old.pieces self.new.source self.new.pieces }
        ensures end { TellsEnd result self.new.is_eos }
        ensures asks { Asks S.answers (stream_part self.old) result (stream_part self.new) }
        ensures decoder { self.new.decoder ≡ self.old.decoder }
    {
        self.stream.receive()
    }
}

// What a read of a payload answers, by what the source answered and the bytes that were taken.
fn data_answer(
    received: Received,
    taken: Option<Bytes>,
) -> Poll<Result<Option<Bytes>, FrameStreamError>>
    ensures { result ≡ data_of received taken }
{
    match taken {
        Some(bytes) => Poll::Ready(Ok(Some(bytes))),
        None => match received {
            Received::End => Poll::Ready(Ok(None)),
            _ => Poll::Pending,
        },
    }
}

impl<S> FrameStream<S> {
    // Whether the end is known, and cuts the payload short in what was read.
    fn ends_short(&self, received: Received) -> bool
        ensures is { result ≡ is_short received self.now.payload (stream_part self.now) }
        ensures short { result ≡ true → (received ≡ end.End) × IsCutShort (length (concat self.now.pieces)) self.now.payload }
        ensures whole { result ≡ false → received ≡ end.End → concat self.now.pieces ≡ [] → is_open self.now.payload ≡ true
            → self.now.payload ≡ PayloadLeft.ToEnd }
    {
        match received {
            Received::End => self.is_cut_short(),
            _ => false,
        }
    }

    // Whether all that was read is the last piece of a payload that is longer.
    fn is_cut_short(&self) -> bool
        ensures is { result ≡ is_cut_short self.now.payload (length (concat self.now.pieces)) (length self.now.pieces) }
        ensures short { result ≡ true → IsCutShort (length (concat self.now.pieces)) self.now.payload }
        ensures whole { result ≡ false → concat self.now.pieces ≡ [] → is_open self.now.payload ≡ true
            → self.now.payload ≡ PayloadLeft.ToEnd }
    {
        match self.payload {
            PayloadLeft::Bytes(count) => {
                let there = self.stream.remaining();
                there < count && (there == 0 || self.stream.is_one_piece())
            }
            PayloadLeft::ToEnd => false,
        }
    }

    // Takes bytes of the payload from what was read.
    fn take_data(&mut self) -> Result<Option<Bytes>, FrameStreamError>
        requires { is_open self.old.payload ≡ true }
        ensures takes { TakesData result self.old self.new }
        ensures pieces { IfOk result (λ o. (o, self.new.pieces) ≡ cut self.old.payload self.old.pieces) }
        ensures err { OnErr result (self.new.pieces ≡ self.old.pieces) }
        ensures first { IfOk result (λ o. TakesFirst (stream_part self.old) self.old.payload o self.new) }
        ensures none { OnErr result (self.new ≡ self.old) }
        ensures memory { IfErr result (λ e. e ≡ stream.OutOfMemory) }
        ensures decoder { self.new.decoder ≡ self.old.decoder }
        ensures source { self.new.source ≡ self.old.source }
        ensures is_eos { self.new.is_eos ≡ self.old.is_eos }
    {
        match self.payload {
            PayloadLeft::Bytes(count) => match self.stream.take_chunk(count) {
                Ok(Some(bytes)) => {
                    self.payload = PayloadLeft::Bytes(count - bytes.len());
                    Ok(Some(bytes))
                }
                Ok(None) => Ok(None),
                Err(_) => Err(FrameStreamError::OutOfMemory),
            },
            PayloadLeft::ToEnd => Ok(self.stream.take_first_chunk()),
        }
    }
}
