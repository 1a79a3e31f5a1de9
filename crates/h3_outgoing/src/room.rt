//! Room for a frame on a stream.
ghost use Rattle.std.specs.Prelude.{◌<◌};

use crate::frames::WaitingFrames;

/// Room for one more frame on a stream. None is made but of frames that have it.
#[derive(Drop)]
pub struct FrameRoom {
    _private: (),
}

impl FrameRoom {
    // The room of frames that have a place for one more.
    pub(crate) fn of(_frames: &WaitingFrames) -> FrameRoom
        requires { 0 < _frames.now.room }
    {
        FrameRoom { _private: () }
    }
}
