//! The type and length of a frame (RFC 9114, section 7.1), if their bytes lie together.
ghost use Rattle.std.specs.Prelude.{◌≡◌, ◌^◌, ◌<◌, ◌≤◌, length, drop, IfSome, Some};
ghost use Rattle.h3_coding.specs.Varint.{varint_at};
ghost use Rattle.h3_frames.specs.Frames.{BeginsWithHead};

use h3_coding::coding::BufExt;

/// A type and the number after it: a length, or of a WebTransport stream a session id.
#[derive(Clone, Copy)]
pub(crate) struct FrameHead {
    pub(crate) kind: u64,
    pub(crate) number: u64,
    /// How many bytes both have.
    pub(crate) size: usize,
}

impl FrameHead {
    /// The type and the number that lie whole at the front of the bytes.
    #[inline(always)]
    pub(crate) fn at_front(bytes: &[u8]) -> Option<FrameHead>
        ensures begins { IfSome result (λ h. BeginsWithHead h.kind h.number bytes.now (drop h.size bytes.now)) }
        ensures inside { IfSome result (λ h. (0 < h.size) × (h.size ≤ length bytes.now)) }
        ensures below { IfSome result (λ h. h.number < 2 ^ 62) }
    {
        let (kind, of_kind) = number_at(bytes)?;
        let (number, of_number) = number_at(&bytes[of_kind..])?;
        Some(FrameHead {
            kind,
            number,
            size: of_kind + of_number,
        })
    }
}

// The number that lies whole at the front of the bytes (RFC 9000, section 16), and how many of them
// it has. Most types have one byte, and most lengths one or two.
#[inline(always)]
fn number_at(bytes: &[u8]) -> Option<(u64, usize)>
    ensures number { IfSome result (λ p. varint_at bytes.now ≡ Some (p.0, drop p.1 bytes.now)) }
    ensures inside { IfSome result (λ p. (0 < p.1) × (p.1 ≤ length bytes.now)) }
    ensures below { IfSome result (λ p. p.0 < 2 ^ 62) }
{
    if bytes.len() < 2 {
        return long_number_at(bytes);
    }
    let first = u64::from(bytes[0]);
    if first < 0x40 {
        return Some((first, 1));
    }
    if first < 0x80 {
        return Some(((first - 0x40) * 256 + u64::from(bytes[1]), 2));
    }
    long_number_at(bytes)
}

// The same, for all forms.
fn long_number_at(bytes: &[u8]) -> Option<(u64, usize)>
    ensures number { IfSome result (λ p. varint_at bytes.now ≡ Some (p.0, drop p.1 bytes.now)) }
    ensures inside { IfSome result (λ p. (0 < p.1) × (p.1 ≤ length bytes.now)) }
    ensures below { IfSome result (λ p. p.0 < 2 ^ 62) }
{
    let mut left = bytes;
    let Ok(number) = left.get_var() else {
        return None;
    };
    Some((number, bytes.len() - left.len()))
}
