//! Memory for the first bytes of a block.
ghost use Rattle.std.specs.Prelude.{◌≡◌};

use std::alloc::AllocError;

/// The first bytes of a block take so much memory at once. It is enough for the usual section, and for its instructions.
pub(crate) const SOME_BYTES: usize = 512;

/// Takes memory for some bytes at once, if there is less.
#[inline(always)]
pub fn reserve_some(bytes: &mut Vec<u8>) -> Result<(), AllocError>
    ensures { bytes.new.items ≡ bytes.old.items }
{
    if bytes.capacity() >= SOME_BYTES {
        return Ok(());
    }
    bytes.reserve(SOME_BYTES)
}
