//! The local control, encoder and decoder streams (RFC 9114, section 6.2.1; RFC 9204, section 4.2): what waits on each.
ghost use Rattle.std.specs.Prelude.{◌≡◌, ◌≤◌, ◌++◌, ℕ, length, IfOk, OnOk, OnErr};
ghost use Rattle.h3_coding.specs.Encodings.{encoding};
ghost use Rattle.h3_connection.specs.OwnUpdates.{goaway_encoding, update_encoding};
ghost use Rattle.h3_unidirectional.specs.Owned.{first_own, own_stream_of, waiting_on, having_taken};
ghost use Rattle.h3_frames.specs.ControlStreams.{control_encoding};

use crate::waiting::WaitingBytes;
use h3_coding::coding::BufMutExt;
use h3_coding::varint::VarInt;
use h3_frames::proto::frame::FrameType;
use h3_priority::priority::Priority;
use h3_proto::frame::Settings;
use h3_proto::stream::{Side, StreamId, StreamType};
use std::alloc::{AllocError, Global};
use std::marker::Model;

/// What waits on the three local streams.
#[derive(Drop)]
pub struct OwnStreams {
    /// On the control stream.
    pub control: WaitingBytes,
    /// On the encoder stream.
    pub encoder: WaitingBytes,
    /// On the decoder stream.
    pub decoder: WaitingBytes,
}

impl Model for OwnStreams {
    ghost use Rattle.h3_connection.specs.State.{OwnState};

    ghost Value = { OwnState };

    ghost view = { λ o. record { control = o.control; encoder = o.encoder; decoder = o.decoder } };
}

/// Room for what a control stream usually begins with.
const START_ROOM: usize = 64;

/// What a control stream begins with: its type, and the SETTINGS frame.
fn control_start(alloc: Global, settings: &Settings) -> Result<Vec<u8>, AllocError>
    ensures { IfOk result (λ bytes. bytes.items ≡ control_encoding settings.now) }
{
    let mut bytes = Vec::with_capacity(alloc, START_ROOM)?;
    let len = settings.payload_len() as u64;
    bytes.write(StreamType::CONTROL).map_err(|_| AllocError)?;
    bytes.write(FrameType::SETTINGS).map_err(|_| AllocError)?;
    bytes.write_var(len).map_err(|_| AllocError)?;
    settings.write_payload(&mut bytes).map_err(|_| AllocError)?;
    Ok(bytes)
}

/// A stream that begins with its type.
fn typed(alloc: Global, kind: StreamType) -> Result<Vec<u8>, AllocError>
    ensures { IfOk result (λ bytes. bytes.items ≡ encoding kind) }
{
    let mut bytes = Vec::new(alloc);
    bytes.write(kind).map_err(|_| AllocError)?;
    Ok(bytes)
}

/// A GOAWAY frame (RFC 9114, section 7.2.6).
fn goaway_frame(alloc: Global, id: VarInt) -> Result<Vec<u8>, AllocError>
    ensures { IfOk result (λ bytes. bytes.items ≡ goaway_encoding id) }
{
    let mut bytes = Vec::new(alloc);
    bytes.write(FrameType::GOAWAY).map_err(|_| AllocError)?;
    bytes.write_var(id.size() as u64).map_err(|_| AllocError)?;
    bytes.write_var(id.into_inner()).map_err(|_| AllocError)?;
    Ok(bytes)
}

/// A PRIORITY_UPDATE frame (RFC 9218, section 7.2).
fn update_frame(alloc: Global, id: StreamId, priority: Priority) -> Result<Vec<u8>, AllocError>
    ensures { IfOk result (λ bytes. (behind : ℕ)
        → bytes.items ≡ update_encoding (record { behind = behind; id = id; priority = priority })) }
{
    let mut bytes = Vec::new(alloc);
    let number = VarInt::from(id);
    let value = priority.field_value();
    let Ok(()) = bytes.write(FrameType::PRIORITY_UPDATE) else {
        return Err(AllocError);
    };
    let Ok(()) = bytes.write_var((number.size() + value.len()) as u64) else {
        return Err(AllocError);
    };
    let Ok(()) = bytes.write_var(number.into_inner()) else {
        return Err(AllocError);
    };
    bytes.extend_from_slice(value)?;
    Ok(bytes)
}

/// One of the three local streams.
#[derive(Clone, Copy)]
enum OwnStream {
    Control,
    Encoder,
    Decoder,
}

/// Which of the three local streams has an id: 2, 6 and 10 of a client, 3, 7 and 11 of a server.
fn own_stream(side: Side, id: StreamId) -> Option<OwnStream>
    ensures { result ≡ own_stream_of side id }
{
    let base = match side {
        Side::Client => 2,
        Side::Server => 3,
    };
    let id = id.into_inner();
    if id == base {
        return Some(OwnStream::Control);
    }
    if id == base + 4 {
        return Some(OwnStream::Encoder);
    }
    if id == base + 8 {
        return Some(OwnStream::Decoder);
    }
    None
}

impl OwnStreams {
    /// The three streams with their types, and the settings.
    pub fn new(alloc: Global, settings: &Settings) -> Result<OwnStreams, AllocError>
        ensures { IfOk result (λ own. own ≡ first_own settings.now) }
    {
        let control = control_start(alloc, settings)?;
        let encoder = typed(alloc, StreamType::ENCODER)?;
        let decoder = typed(alloc, StreamType::DECODER)?;
        Ok(OwnStreams {
            control: WaitingBytes::from_vec(control),
            encoder: WaitingBytes::from_vec(encoder),
            decoder: WaitingBytes::from_vec(decoder),
        })
    }

    /// Writes a GOAWAY frame on the control stream. A refusal changes nothing.
    pub fn goaway(&mut self, alloc: Global, id: VarInt) -> Result<(), AllocError>
        ensures ok { OnOk result (self.new ≡ record self.old { control = self.old.control ++ goaway_encoding id }) }
        ensures err { OnErr result (self.new ≡ self.old) }
    {
        let frame = goaway_frame(alloc, id)?;
        self.control.append(frame.as_slice())
    }

    /// Writes a PRIORITY_UPDATE frame on the control stream. A refusal changes nothing.
    pub fn update(
        &mut self,
        alloc: Global,
        id: StreamId,
        priority: Priority,
    ) -> Result<(), AllocError>
        ensures ok { OnOk result ((behind : ℕ)
            → self.new ≡ record self.old {
              control = self.old.control ++ update_encoding
                  (record { behind = behind; id = id; priority = priority });
            }) }
        ensures err { OnErr result (self.new ≡ self.old) }
    {
        let frame = update_frame(alloc, id, priority)?;
        self.control.append(frame.as_slice())
    }

    /// The bytes that wait on the stream of this id, none if it is not one of these three.
    pub fn outgoing(&self, side: Side, id: StreamId) -> &[u8]
        ensures { result.now ≡ waiting_on self.now side id }
    {
        match own_stream(side, id) {
            Some(OwnStream::Control) => self.control.as_slice(),
            Some(OwnStream::Encoder) => self.encoder.as_slice(),
            Some(OwnStream::Decoder) => self.decoder.as_slice(),
            None => &[],
        }
    }

    /// Takes the first `count` bytes that wait on the stream of this id, of which no more than all may be taken.
    pub fn advance(&mut self, side: Side, id: StreamId, count: usize)
        requires { count ≤ length (waiting_on self.old side id) }
        ensures { self.new ≡ having_taken self.old side id count }
    {
        match own_stream(side, id) {
            Some(OwnStream::Control) => self.control.advance(count),
            Some(OwnStream::Encoder) => self.encoder.advance(count),
            Some(OwnStream::Decoder) => self.decoder.advance(count),
            None => {}
        }
    }
}
