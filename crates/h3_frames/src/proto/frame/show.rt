//! The texts of frames and of their errors.
ghost use Rattle.std.specs.Prelude.{◌≡◌, ◌++◌, codes, Some, MatchOption};
ghost use Rattle.std.specs.Fmt.{decimal};
ghost use Rattle.h3_frames.specs.Texts.{frame_error_text, other_text, read_text, written_text, HasNoNumber};

use super::{Frame, FrameError, PayloadLen};
use bytes::Buf;
use h3_coding::varint::VarInt;
use std::error::Error;
use std::fmt;

impl fmt::Display for FrameError {
    ghost output = { λ e. Some (frame_error_text e) };

    fn fmt<W: fmt::Write>(&self, f: &mut fmt::Formatter<W>) -> fmt::Result {
        match self {
            FrameError::Malformed => f.write_str("frame is malformed"),
            FrameError::UnsupportedFrame(kind) => write!(f, "frame 0x{kind:x} is not allowed h3"),
            FrameError::UnknownFrame(kind) => write!(f, "frame 0x{kind:x} ignored"),
            FrameError::InvalidFrameValue => f.write_str("frame value is invalid"),
            FrameError::Incomplete(least) => write!(f, "internal error: frame incomplete {least}"),
            FrameError::Settings(e) => write!(f, "invalid settings: {e}"),
            FrameError::InvalidStreamId(e) => fmt::Display::fmt(e, f),
            FrameError::InvalidPushId(e) => fmt::Display::fmt(e, f),
            FrameError::OutOfMemory => f.write_str("out of memory"),
        }
    }
}

impl Error for FrameError {}

/// A session is printed as its type derives it, of which nothing is said.
impl fmt::Debug for Frame<PayloadLen> {
    ghost debug_output = { read_text };

    fn fmt<W: fmt::Write>(&self, f: &mut fmt::Formatter<W>) -> fmt::Result {
        match self {
            Frame::Data(len) => write!(f, "Data: {} bytes", len.0),
            Frame::WebTransportStream(session) => write!(f, "WebTransportStream({session:?})"),
            other => fmt::Display::fmt(&Other(other), f),
        }
    }
}

impl<B> Frame<B> {
    // The number that is printed of a frame, and what stands before it.
    fn number(&self) -> Option<(&'static str, u64)>
        ensures { MatchOption result (HasNoNumber self.now) (λ p. other_text self.now ≡ p.0.now ++ (decimal p.1 ++ codes ")")) }
    {
        match self {
            Frame::CancelPush(id) => Some(("CancelPush(push ", VarInt::from(*id).into_inner())),
            Frame::MaxPushId(id) => Some(("MaxPushId(push ", VarInt::from(*id).into_inner())),
            Frame::PushPromise(promise) => {
                Some(("PushPromise(", VarInt::from(promise.id).into_inner()))
            }
            Frame::PriorityUpdate(update) => { Some(("PriorityUpdate(", update.id().into_inner())) }
            Frame::Goaway(id) => Some(("GoAway(", id.into_inner())),
            _ => None,
        }
    }
}

// A frame that has no payload of its own kind.
#[derive(Drop)]
struct Other<'a, B>(&'a Frame<B>);

impl<B> fmt::Display for Other<'_, B> {
    ghost output = { λ o. Some (other_text o.0.now) };

    fn fmt<W: fmt::Write>(&self, f: &mut fmt::Formatter<W>) -> fmt::Result {
        match self.0 {
            Frame::Data(_) => f.write_str("Data"),
            Frame::Headers(section) => write!(f, "Headers({} entries)", section.len()),
            Frame::Settings(_) => f.write_str("Settings"),
            Frame::WebTransportStream(_) => f.write_str("WebTransportStream()"),
            Frame::Grease(_) => f.write_str("Grease()"),
            other => match other.number() {
                Some((name, number)) => write!(f, "{name}{number})"),
                None => unreachable!(),
            },
        }
    }
}

impl<B: Buf> fmt::Debug for Frame<B> {
    ghost debug_output = { λ f. Some (written_text B.unread f) };

    fn fmt<W: fmt::Write>(&self, f: &mut fmt::Formatter<W>) -> fmt::Result {
        match self {
            Frame::Data(data) => write!(f, "Data: {} bytes", data.remaining()),
            other => fmt::Display::fmt(&Other(other), f),
        }
    }
}
