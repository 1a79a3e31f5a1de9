//! Bytes that are copied into a buffer.
ghost use Rattle.std.specs.List.{AllByRecursion};
ghost use Rattle.std.specs.Prelude.{◌≡◌, ◌≤◌, length, min};
ghost use Rattle.h3_coding.specs.Encodings.{IsByte};
ghost use Rattle.h3_outgoing.specs.Copied.{Puts, put};
ghost use Rattle.h3_outgoing.specs.Held.{Fronts};

/// Copies bytes into a buffer from a place on, as many as fit, and returns the place after them.
pub(crate) fn put_at(bytes: &[u8], at: usize, out: &mut [u8]) -> usize
    requires { at ≤ length out.old }
    ensures { Puts bytes.now at out.old result out.new }
{
    at + put_front(bytes, &mut out[at..])
}

/// Copies bytes to the front of a buffer, as many as fit, and says how many. The rest of the buffer stays.
pub fn put_front(bytes: &[u8], out: &mut [u8]) -> usize
    ensures count { result ≡ min (length bytes.now) (length out.old) }
    ensures front { out.new ≡ put bytes.now out.old }
{
    let count = bytes.len().min(out.len());
    out[..count].copy_from_slice(&bytes[..count]);
    count
}

/// The same of bytes that wait: none of them is one that the caller holds.
pub fn put_bytes(bytes: &[u8], out: &mut [u8]) -> usize
    ensures { Fronts bytes.now out.old out.new result 0 }
{
    put_front(as_bytes(bytes), out)
}

/// These bytes. For the proof: each item of a slice of bytes is below 256.
#[inline]
pub fn as_bytes(bytes: &[u8]) -> &[u8]
    ensures same { result.now ≡ bytes.now }
    ensures each { AllByRecursion IsByte result.now }
{
    bytes
}
