//! Why a stream gives no frame.
ghost use Rattle.std.specs.Prelude.{◌≡◌};
ghost use Rattle.h3_frames.specs.Codes.{refusal_code};
ghost use Rattle.h3_frames.specs.Known.{refusal};

use crate::proto::error::Code;
use crate::proto::frame::SettingsError;
use crate::proto::push::InvalidPushId;
use crate::proto::stream::InvalidStreamId;
use crate::quic::StreamErrorIncoming;

/// A frame that the protocol refuses.
#[derive(Debug, PartialEq, Drop)]
pub enum FrameProtocolError {
    /// The payload is longer or shorter than its fields.
    Malformed,
    /// A type of HTTP/2 that HTTP/3 refuses.
    ForbiddenFrame(u64),
    /// Kept for the names' sake: no frame gives it.
    InvalidFrameValue,
    /// The settings are refused.
    Settings(SettingsError),
    /// Kept for the names' sake: an id of a frame is below 2^62.
    InvalidStreamId(InvalidStreamId),
    /// Kept for the names' sake: an id of a frame is below 2^62.
    InvalidPushId(InvalidPushId),
}

impl FrameProtocolError {
    /// The code of the connection fault that this frame is, on whatever stream it stands (RFC 9114, sections 7.1, 7.2.4 and 7.2.8).
    pub fn code(&self) -> Code
        ensures { result ≡ refusal_code (refusal self.now) }
    {
        match self {
            FrameProtocolError::Settings(e) => e.code(),
            FrameProtocolError::ForbiddenFrame(_) => Code::H3_FRAME_UNEXPECTED,
            _ => Code::H3_FRAME_ERROR,
        }
    }
}

/// Why a stream of frames gives none.
#[derive(Debug, Drop)]
pub enum FrameStreamError {
    /// The frame at the front is refused.
    Proto(FrameProtocolError),
    /// The transport has an error.
    Quic(StreamErrorIncoming),
    /// The stream ended inside a frame.
    UnexpectedEnd,
    /// There was no memory. Nothing but unknown frames was taken, and the call can be made again.
    OutOfMemory,
}
