//! What C calls: the version of the library.
ghost use Rattle.std.specs.Prelude.{◌≡◌};
ghost use Rattle.h3_c.specs.Numbers.{version};

/// `H3_VERSION` of the header that belongs to this library: major, minor and patch, a byte each.
const VERSION: u32 = 0x01_00_00;

/// `H3_UNPROVED` in the place of 0 if the library is built without its proofs (`scripts/c/unproved.py`).
const MARK: u32 = 0;

/// Which version of the library this is, and whether it was built without its proofs.
#[unsafe(no_mangle)]
pub extern "C" fn h3_raw_version() -> u32
    ensures { result ≡ version }
{
    VERSION | MARK
}
