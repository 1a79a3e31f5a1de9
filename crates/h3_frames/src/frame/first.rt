//! Which frame comes first on a control stream (RFC 9114, section 6.2.1).
ghost use Rattle.std.specs.Prelude.{◌≡◌};
ghost use Rattle.std.specs.List.{concat};
ghost use Rattle.h3_frames.specs.FirstFrames.{begins_other};

use crate::buf::BufList;
use bytes::Bytes;
use h3_coding::coding::BufExt;

/// The type of SETTINGS (RFC 9114, section 7.2.4).
const SETTINGS: u64 = 4;

/// Whether the bytes begin with the type and the length of a frame that is not SETTINGS. Nothing is taken.
pub(super) fn begins_other(src: &BufList<Bytes>) -> bool
    ensures { result ≡ begins_other (concat src.now.pieces) }
{
    let mut cursor = src.cursor();
    let Ok(kind) = cursor.get_var() else {
        return false;
    };
    let Ok(_number) = cursor.get_var() else {
        return false;
    };
    kind != SETTINGS
}
