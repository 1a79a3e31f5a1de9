//! Bytes for the streams of the peer that the connection itself reads: its control, encoder and decoder stream.
ghost use Rattle.std.specs.Prelude.{◌≡◌, ◌&&◌, Some, IfOk, IfErr};
ghost use Rattle.h3_frames.specs.FirstFrames.{begins_other};
ghost use Rattle.h3_connection.specs.StrictConnection.{is_strict, stream_fault};
ghost use Rattle.h3_proto.specs.declared.stream.Side.{Side};
ghost use Rattle.h3_connection.specs.Delivering.{heard_as};
ghost use Rattle.h3_connection.specs.Endpoint.{EndpointHistory};
ghost use Rattle.h3_connection.specs.State.{EndpointState};
ghost use Rattle.h3_connection.specs.Unidirectional.Role.{Control, Encoder, Decoder};
ghost use Rattle.h3_streams.specs.Placed.{Reads};
ghost use Rattle.h3_streams.specs.ReadingOn.{IsRead, Stops, ReadsHeld, StopsHeld, left_arrivals};
ghost use Rattle.h3_streams.specs.Stopping.{early_of, ReadsEarly, StopsEarly};

use crate::learning::read_first;
use crate::left::Left;
use crate::readers::{hear, hold, listen};
use crate::streams::ConnectionStreams;
use bytes::Bytes;
use h3_connection::setup::Announced;
use h3_proto::error::Code;
use h3_proto::stream::{Side, StreamId};
use std::alloc::Global;

// RFC 9114 6.2.1: a second control stream
/// Whether some other stream is read as such already.
fn is_second(first: Option<StreamId>, id: StreamId) -> bool
    ensures { result ≡ Rattle.h3_connection.specs.Endpoint.is_second first id }
{
    match first {
        Some(first) => first.into_inner() != id.into_inner(),
        None => false,
    }
}

/// The fault of an instruction, on a stream whose error has this code. If the endpoint asks for a strict connection, one that is too long
/// is an error of that stream too (RFC 9204, section 7.4).
fn of_stream(own: &Announced, code: Code, fault: Option<Code>) -> Option<Code>
    ensures { result ≡ stream_fault (is_strict own.now) code fault }
{
    if !own.choices.extensions.strict_connection {
        return fault;
    }
    fault.and(Some(code))
}

impl ConnectionStreams {
    /// Bytes for the encoder stream: of the first such stream, whose role was known before or is known now. A second one is a fault, and so
    /// is an instruction that is longer than the limit of the endpoint's choices.
    pub(crate) fn encoder_bytes(
        &mut self,
        own: &Announced,
        id: StreamId,
        bytes: Bytes,
    ) -> Result<Option<Code>, Left>
        ensures ok { IfOk result
            (λ fault. (s : EndpointState) (e : EndpointHistory) (side : Side) → IsRead s self.old e side own.now id Encoder
            → Reads s fault self.new (heard_as e id Encoder bytes)) }
        ensures err { IfErr result
            (λ left. (s : EndpointState) (e : EndpointHistory) (side : Side) → IsRead s self.old e side own.now id Encoder
            → Stops Encoder s self.old self.new e id bytes (left_arrivals left)) }
    {
        if is_second(self.encoder_on, id) {
            return Ok(Some(Code::H3_STREAM_CREATION_ERROR));
        }
        self.encoder_on = Some(id);
        let stop = match hear(
            &mut self.decoding,
            own.choices.unfinished_limit,
            &mut self.own.decoder,
            bytes,
        ) {
            Ok(fault) => return Ok(of_stream(own, Code::QPACK_ENCODER_STREAM_ERROR, fault)),
            Err(stop) => stop,
        };
        Err(stop.left(id))
    }

    /// Bytes for the decoder stream, likewise. Before the settings they are held, up to that limit.
    pub(crate) fn decoder_bytes(
        &mut self,
        own: &Announced,
        id: StreamId,
        bytes: Bytes,
    ) -> Result<Option<Code>, Left>
        ensures ok { IfOk result
            (λ fault. (s : EndpointState) (e : EndpointHistory) (side : Side) → IsRead s self.old e side own.now id Decoder
            → Reads s fault self.new (heard_as e id Decoder bytes)) }
        ensures err { IfErr result
            (λ left. (s : EndpointState) (e : EndpointHistory) (side : Side) → IsRead s self.old e side own.now id Decoder
            → Stops Decoder s self.old self.new e id bytes (left_arrivals left)) }
    {
        if is_second(self.decoder_on, id) {
            return Ok(Some(Code::H3_STREAM_CREATION_ERROR));
        }
        self.decoder_on = Some(id);
        let stop = match listen(
            &mut self.encoding,
            own.choices.unfinished_limit,
            self.peer.has_settings(),
            bytes,
        ) {
            Ok(fault) => return Ok(of_stream(own, Code::QPACK_DECODER_STREAM_ERROR, fault)),
            Err(stop) => stop,
        };
        Err(stop.left(id))
    }

    /// Bytes for the control stream: of the first such stream, whose role was known before or is known now. A second one is a fault, and so
    /// is a frame that says a length above that limit.
    pub(crate) fn control_bytes(
        &mut self,
        alloc: Global,
        side: Side,
        own: &Announced,
        id: StreamId,
        bytes: Bytes,
    ) -> Result<Option<Code>, Left>
        ensures ok { IfOk result
            (λ fault. (s : EndpointState) (e : EndpointHistory) → IsRead s self.old e side own.now id Control
            → Reads s fault self.new (heard_as e id Control bytes)) }
        ensures err { IfErr result
            (λ left. (s : EndpointState) (e : EndpointHistory) → IsRead s self.old e side own.now id Control
            → Stops Control s self.old self.new e id bytes (left_arrivals left)) }
    {
        if is_second(self.control_on, id) {
            return Ok(Some(Code::H3_STREAM_CREATION_ERROR));
        }
        self.control_on = Some(id);
        match hold(&mut self.peer, bytes) {
            Ok(()) => {}
            Err(back) => return Err(Left::of(id, back)),
        }
        self.frames(alloc, side, own, id)
    }

    /// Reads what is held of the control stream.
    fn frames(
        &mut self,
        alloc: Global,
        side: Side,
        own: &Announced,
        id: StreamId,
    ) -> Result<Option<Code>, Left>
        ensures ok { IfOk result (λ fault. ReadsHeld self.old self.new side own.now id fault) }
        ensures err { IfErr result (λ left. StopsHeld self.old self.new side own.now id (left_arrivals left)) }
    {
        if !self.peer.has_settings() {
            return self.first_frames(alloc, side, own, id);
        }
        let Ok(fault) = self.peer.read(alloc, side, own.choices, own.kinds()) else {
            return Err(Left::held(id));
        };
        Ok(fault)
    }

    /// The same while the settings have not come. If they come, the table that they allow is used at once, and what the peer's decoder said
    /// before is read after them.
    fn first_frames(
        &mut self,
        alloc: Global,
        side: Side,
        own: &Announced,
        id: StreamId,
    ) -> Result<Option<Code>, Left>
        requires { self.old.peer.settings ≡ None }
        ensures ok { IfOk result (λ fault. ReadsHeld self.old self.new side own.now id fault) }
        ensures err { IfErr result (λ left. StopsHeld self.old self.new side own.now id (left_arrivals left)) }
    {
        if self.lacks_settings(own) {
            return Ok(Some(Code::H3_MISSING_SETTINGS));
        }
        let out = self.own.encoder.bytes_mut();
        match read_first(&mut self.peer, &mut self.encoding, out, alloc, side, own) {
            Ok(Some(code)) => Ok(Some(code)),
            Ok(None) => self.early_replies(own),
            Err(_) => Err(Left {
                id,
                bytes: Bytes::new(),
                early: self.early_stream(),
            }),
        }
    }

    /// The peer's decoder stream, if the settings came.
    fn early_stream(&self) -> Option<StreamId>
        ensures { result ≡ early_of self.now.peer.settings self.now.decoder_on }
    {
        if self.peer.has_settings() {
            return self.decoder_on;
        }
        None
    }

    /// Reads what the peer's decoder said before the settings came, if they came now.
    fn early_replies(&mut self, own: &Announced) -> Result<Option<Code>, Left>
        ensures ok { IfOk result (λ fault. ReadsEarly own.now self.old self.new fault) }
        ensures err { IfErr result (λ left. (side : Side) → StopsEarly own.now self.old self.new side (left_arrivals left)) }
    {
        let Some(decoder) = self.early_stream() else {
            return Ok(None);
        };
        let Ok(fault) = self.encoding.read(own.choices.unfinished_limit) else {
            return Err(Left::held(decoder));
        };
        Ok(of_stream(own, Code::QPACK_DECODER_STREAM_ERROR, fault))
    }

    // Whether another frame than SETTINGS begins the control stream, which an endpoint that asks for a strict connection does not take.
    fn lacks_settings(&self, own: &Announced) -> bool
        ensures { result ≡ (is_strict own.now && begins_other self.now.peer.unread) }
    {
        own.choices.extensions.strict_connection && self.peer.begins_other()
    }
}
