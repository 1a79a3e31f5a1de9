//! How many bytes of a frame's payload are still to come (RFC 9114, section 7.1).
ghost use Rattle.std.specs.Prelude.{◌≡◌};
ghost use Rattle.std.specs.List.{concat};
ghost use Rattle.h3_frames.specs.FrameLeft.{left_of_frame};

use crate::buf::BufList;
use bytes::{Buf, Bytes};
use h3_coding::coding::BufExt;

/// How many bytes of the payload are still to come of the frame that the bytes begin with: 0 while its type and length are not whole, and
/// 0 once it is. Nothing is taken.
pub(super) fn frame_left(src: &BufList<Bytes>) -> usize
    ensures { result ≡ left_of_frame (concat src.now.pieces) }
{
    let mut cursor = src.cursor();
    let Ok(_kind) = cursor.get_var() else {
        return 0;
    };
    let Ok(number) = cursor.get_var() else {
        return 0;
    };
    let len = number as usize;
    len.saturating_sub(cursor.remaining())
}
