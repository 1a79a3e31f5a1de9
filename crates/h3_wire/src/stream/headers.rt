//! What a stream begins with.
ghost use Rattle.std.specs.Prelude.{◌≡◌, ◌≤◌, ◌++◌, length, OnOk, OnErr};
ghost use Rattle.h3_coding.specs.Writing.{AppendsFront, UsesRoom};
ghost use Rattle.h3_coding.specs.Encodings.{encoding};
ghost use Rattle.h3_wire.specs.StreamHeaders.{uni_encoding, bidi_encoding};
ghost use Rattle.h3_frames.specs.ControlStreams.{control_encoding};

use bytes::BufMut;
use h3_coding::coding::{BufMutExt, Encode, WriteRefused};
use h3_frames::proto::frame::{Settings, write_numbers, write_settings};
use h3_frames::proto::stream::StreamType;
use h3_frames::proto::webtransport::SessionId;

/// What a one-way stream begins with: its type, and what must come next (RFC 9114, section 6.2).
#[derive(Drop)]
pub enum UniStreamHeader {
    /// A control stream, with the SETTINGS frame.
    Control(Settings),
    /// A WebTransport stream of a session.
    WebTransportUni(SessionId),
    /// An encoder stream of QPACK.
    Encoder,
    /// A decoder stream of QPACK.
    Decoder,
}

/// What a stream in both directions begins with, if it carries no message.
#[derive(Clone, Copy, Drop)]
pub enum BidiStreamHeader {
    /// A WebTransport stream of a session.
    WebTransportBidi(SessionId),
}

impl Encode for UniStreamHeader {
    ghost encoding = { uni_encoding };

    fn encode<B: BufMut>(&self, buf: &mut B) -> Result<(), WriteRefused>
        ensures ok { OnOk result (B.written buf.new ≡ B.written buf.old ++ uni_encoding self.now) }
        ensures err { OnErr result (AppendsFront (uni_encoding self.now) (B.written buf.old) (B.written buf.new)) }
        ensures room { UsesRoom result (B.spare buf.old) (B.spare buf.new) (length (uni_encoding self.now)) }
        ensures short { length (uni_encoding self.now) ≤ 152 }
    {
        match self {
            UniStreamHeader::Control(settings) => write_control(settings, buf),
            UniStreamHeader::WebTransportUni(id) => {
                write_numbers(StreamType::WEBTRANSPORT_UNI.value(), id.into_inner(), buf)
            }
            UniStreamHeader::Encoder => write_type(StreamType::ENCODER, buf),
            UniStreamHeader::Decoder => write_type(StreamType::DECODER, buf),
        }
    }
}

impl Encode for BidiStreamHeader {
    ghost encoding = { bidi_encoding };

    fn encode<B: BufMut>(&self, buf: &mut B) -> Result<(), WriteRefused>
        ensures ok { OnOk result (B.written buf.new ≡ B.written buf.old ++ bidi_encoding self.now) }
        ensures err { OnErr result (AppendsFront (bidi_encoding self.now) (B.written buf.old) (B.written buf.new)) }
        ensures room { UsesRoom result (B.spare buf.old) (B.spare buf.new) (length (bidi_encoding self.now)) }
        ensures short { length (bidi_encoding self.now) ≤ 152 }
    {
        match self {
            BidiStreamHeader::WebTransportBidi(id) => {
                write_numbers(StreamType::WEBTRANSPORT_BIDI.value(), id.into_inner(), buf)
            }
        }
    }
}

/// Appends the type of a stream.
pub(super) fn write_type<B: BufMut>(ty: StreamType, buf: &mut B) -> Result<(), WriteRefused>
    ensures ok { OnOk result (B.written buf.new ≡ B.written buf.old ++ encoding ty) }
    ensures err { OnErr result (AppendsFront (encoding ty) (B.written buf.old) (B.written buf.new)) }
    ensures room { UsesRoom result (B.spare buf.old) (B.spare buf.new) (length (encoding ty)) }
    ensures short { length (encoding ty) ≤ 8 }
{
    buf.write_var(ty.value())
}

// Appends what a control stream begins with.
fn write_control<B: BufMut>(settings: &Settings, buf: &mut B) -> Result<(), WriteRefused>
    ensures ok { OnOk result (B.written buf.new ≡ B.written buf.old ++ control_encoding settings.now) }
    ensures err { OnErr result (AppendsFront (control_encoding settings.now) (B.written buf.old) (B.written buf.new)) }
    ensures room { UsesRoom result (B.spare buf.old) (B.spare buf.new) (length (control_encoding settings.now)) }
    ensures short { length (control_encoding settings.now) ≤ 152 }
{
    let len = settings.payload_len();
    write_type(StreamType::CONTROL, buf)?;
    write_settings(settings, len, buf)
}
