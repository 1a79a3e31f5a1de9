//! Capsules as C sees them: `h3_capsule` of the header, and what stands in front of a value or of a datagram's payload.
ghost use Rattle.std.specs.Prelude.{◌≡◌};
ghost use Rattle.h3_c.specs.Datagrams.{capsule_shown, put_head};

use crate::numbers::{OK, ROOM, Told};
use crate::rows::put_row;
use h3_capsule::capsule::Capsule;
use h3_capsule::head_bytes::HeadBytes;

/// What bytes of capsules tell: `enum h3_capsule_part`, and what that says.
#[repr(C)]
#[derive(Copy, Clone)]
pub struct CapsuleTold {
    pub part: u64,
    pub capsule_type: u64,
    pub length: u64,
}

/// What a reader tells, as C sees it.
pub(crate) fn shown(capsule: Capsule) -> CapsuleTold
    ensures { result ≡ capsule_shown capsule }
{
    let (part, capsule_type, length) = match capsule {
        Capsule::Pending => (0, 0, 0),
        Capsule::Head(kind, length) => (1, kind, length),
        Capsule::Value(count) => (2, 0, count as u64),
        Capsule::End => (3, 0, 0),
    };
    CapsuleTold {
        part,
        capsule_type,
        length,
    }
}

/// Writes all of these bytes at the front of a buffer, or nothing if the buffer is too small.
pub(crate) fn put_head(head: &HeadBytes, buffer: &mut [u8], count: &mut usize) -> Told
    ensures { (result, buffer.new, count.new) ≡ put_head head.now buffer.old count.old }
{
    if buffer.len() < head.len() {
        return ROOM;
    }
    put_row(head.as_slice(), buffer);
    *count = head.len();
    OK
}
