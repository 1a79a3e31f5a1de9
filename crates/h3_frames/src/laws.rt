//! What holds of every frame. These functions do nothing: their contracts are the laws.
ghost use Rattle.std.specs.Prelude.{◌≡◌, ◌<◌, ℕ, List, ◌++◌, length, take, Err};
ghost use Rattle.h3_frames.specs.Encoded.{encoding_of, needed_of, HasLength, IsReserved};
ghost use Rattle.h3_frames.specs.ReadBack.{read_back};
ghost use Rattle.h3_frames.specs.declared.frame.kinds.FrameKinds.{FrameKinds};
ghost use Rattle.h3_frames.specs.Frames.{frame_at};
ghost use Rattle.h3_frames.specs.Known.{Gives};
ghost use Rattle.h3_frames.specs.Fronts.{IsUnfinishedFront};
ghost use Rattle.h3_frames.specs.declared.frame.errors.FrameProtocolError.{FrameProtocolError};
ghost use Rattle.h3_frames.specs.declared.frame.errors.FrameStreamError.TheVariants as stream;

use crate::proto::frame::Frame;
use bytes::Buf;

/// A frame that was written is read as it was, whatever follows it: of DATA its type and length,
/// with the payload after them. A frame without a meaning is skipped if its type is a reserved one.
pub fn written_is_read<B: Buf>(frame: &Frame<B>)
    requires length { HasLength B.unread frame.now }
    requires reserved { IsReserved frame.now }
    ensures { (rest : List ℕ) → frame_at (encoding_of B.unread frame.now ++ rest) ≡ read_back B.unread frame.now rest }
{
    // (for the proof: its numbers have encodings)
    frame.known();
}

/// Less than a frame that was written is the unfinished front of a frame. Of DATA it is less than
/// its type and length, since a DATA frame is delivered with these alone.
pub fn less_than_a_frame_is_unfinished<B: Buf>(frame: &Frame<B>)
    requires length { HasLength B.unread frame.now }
    requires reserved { IsReserved frame.now }
    ensures { (kinds : FrameKinds) (count : ℕ) → count < length (needed_of B.unread frame.now)
        → IsUnfinishedFront kinds (take count (needed_of B.unread frame.now)) }
{
    // (for the proof: its numbers have encodings)
    frame.known();
}

/// A refused frame is refused again, whatever follows it, and nothing of it is taken.
pub fn refused_stays_refused()
    ensures { (kinds : FrameKinds) (e : FrameProtocolError) (old new more : List ℕ) → Gives kinds (Err (stream.Proto e)) old new
        → Gives kinds (Err (stream.Proto e)) (new ++ more) (new ++ more) }
{}
