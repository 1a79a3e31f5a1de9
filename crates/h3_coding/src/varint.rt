//! Variable-length integers: numbers below 2^62 in one, two, four or eight bytes (RFC 9000, section 16).
ghost use Rattle.std.specs.Prelude.{◌≡◌, ℕ, ◌+◌, ◌-◌, ◌*◌, ◌/◌, ◌^◌, ◌<◌, ◌≤◌, ◌∷◌, ◌++◌, length, take, drop, IfOk, IfErr, IfSome, IsNone};
ghost use Rattle.std.specs.Prelude.{OnOk, OnErr, Some, None};
ghost use Rattle.std.specs.Result.{OkIff};
ghost use Rattle.std.specs.Fmt.{decimal};
ghost use Rattle.std.specs.List.{AllByRecursion};
ghost use Rattle.h3_coding.specs.Bounds.{ConvertsBelowLimit};
ghost use Rattle.h3_coding.specs.Encodings.{big_endian, IsByte, IsEncoding, encoding, IsUnfinished};
ghost use Rattle.h3_coding.specs.Reading.{Takes};
ghost use Rattle.h3_coding.specs.Varint.{varint_at};
ghost use Rattle.h3_coding.specs.Writing.{UsesRoom};
ghost use Rattle.h3_coding.specs.EncodingLaws.{one_encoding, finished, encoding_is_valid};

use crate::coding::{Codec, Decode, Encode, UnexpectedEnd, WriteRefused};
use bytes::{Buf, BufMut};
use std::alloc::AllocError;
use std::fmt;
use std::marker::Model;
use std::ops::Div;

/// A variable-length integer, from 0 to 2^62 - 1 (RFC 9000, section 16). A contract sees it as its
/// number.
#[derive(Clone, Copy, PartialEq, Eq, PartialOrd, Ord, Hash)]
pub struct VarInt(u64);

impl Model for VarInt {
    ghost Value = { ℕ };

    ghost view = { λ v. v.0 };

    ghost invariant = { λ v. v.0 < 2 ^ 62 };

    ghost inverse = { λ n. record { 0 = n } };
}

/// The number, which is 2^62 or more, is no variable-length integer.
#[derive(Clone, Copy, Debug, PartialEq, Eq)]
pub struct VarIntBoundsExceeded(pub u64);

impl VarInt {
    /// The greatest one, 2^62 - 1.
    pub const MAX: VarInt = VarInt((1 << 62) - 1);

    /// The most bytes that an encoding has.
    pub const MAX_SIZE: usize = 8;

    /// Every `u32` is one.
    pub const fn from_u32(x: u32) -> Self
        ensures { result ≡ x }
    {
        VarInt(x as u64)
    }

    /// Refuses a number of 2^62 or more.
    pub fn from_u64(x: u64) -> Result<Self, VarIntBoundsExceeded>
        ensures ok { OkIff result (x < 2 ^ 62) x }
        ensures err { IfErr result (λ e. e.0 ≡ x) }
    {
        if x < 1 << 62 {
            Ok(VarInt(x))
        } else {
            Err(VarIntBoundsExceeded(x))
        }
    }

    /// A number that is known to be below 2^62.
    pub const fn from_u64_unchecked(x: u64) -> Self
        requires { x < 2 ^ 62 }
        ensures { result ≡ x }
    {
        VarInt(x)
    }

    /// The number, below 2^62.
    pub const fn into_inner(self) -> u64
        ensures value { result ≡ self }
        ensures bound { result < 2 ^ 62 }
    {
        self.0
    }

    /// How many bytes the shortest encoding has: 1, 2, 4 or 8.
    #[tactic(auto, unfolding(crate::specs::Encodings::encoding))]
    pub fn size(self) -> usize
        ensures value { result ≡ length (encoding self) }
        ensures bound { (1 ≤ result) × (result ≤ 8) }
    {
        let x = self.0;
        if x < 1 << 6 {
            1
        } else if x < 1 << 14 {
            2
        } else if x < 1 << 30 {
            4
        } else {
            8
        }
    }

    /// How many bytes an encoding has whose first byte is this one: 1, 2, 4 or 8, by its two highest
    /// bits (RFC 9000, table 4).
    pub fn encoded_size(first: u8) -> usize
        ensures { result ≡ 2 ^ (first / 64) }
    {
        1 << (first >> 6)
    }

    /// Takes an encoding from the front, also one that is longer than needed. The error of input that
    /// is empty has the count 0; of a form of 2, 4 or 8 bytes that is not whole it has 1, 2 or 3, and the
    /// first byte is taken.
    #[inline(always)]
    pub fn decode<B: Buf>(buf: &mut B) -> Result<Self, UnexpectedEnd>
        ensures ok { IfOk result (λ v. Takes (IsEncoding v) (B.unread buf.old) (B.unread buf.new)) }
        ensures err { IfErr result (λ e. IsUnfinished (B.unread buf.old) e.0 (B.unread buf.new)) }
        ensures kept { B.kept buf.new ≡ B.kept buf.old }
    {
        let bytes = buf.chunk();
        let len = bytes.len();
        if let Some((number, size)) = VarInt::at_front(bytes) {
            buf.advance(size);
            return Ok(number);
        }
        if buf.remaining() == len {
            return Err(VarInt::take_unfinished(buf));
        }
        VarInt::decode_in_pieces(buf)
    }

    // Takes the first byte, if there is one, of bytes that begin no encoding, and returns why. If the
    // bytes of a buffer always lie together, this is all that is left of a read that fails: so the
    // place of such a buffer stays in registers.
    #[inline(always)]
    fn take_unfinished<B: Buf>(buf: &mut B) -> UnexpectedEnd
        requires { varint_at (B.unread buf.old) ≡ None }
        ensures why { IsUnfinished (B.unread buf.old) result.0 (B.unread buf.new) }
        ensures kept { B.kept buf.new ≡ B.kept buf.old }
    {
        let bytes = buf.chunk();
        let len = bytes.len();
        if len == 0 {
            return UnexpectedEnd(0);
        }
        let count = VarInt::form_of(bytes[0]);
        buf.advance(1);
        UnexpectedEnd(count)
    }

    // 0, 1, 2 or 3 for a first byte of a form of 1, 2, 4 or 8 bytes.
    fn form_of(first: u8) -> usize
        ensures value { result ≡ first / 64 }
        ensures byte { first < 256 }
    {
        usize::from(first >> 6)
    }

    // The number that the bytes begin with, and how many of them it has; none if it does not lie
    // whole in them. One test of the length serves all forms. Each form has a branch, so that the
    // place of the next number does not wait for this one's bytes. Each form takes a load of its
    // own: if the first byte were put together with the others, LLVM would load these one by one.
    // Of the orders of the branches this one was as fast as any when all forms come in turn.
    #[inline(always)]
    fn at_front(bytes: &[u8]) -> Option<(Self, usize)>
        ensures some { IfSome result (λ p. IsEncoding p.0 (take p.1 bytes.now)
            × (p.1 ≤ length bytes.now)) }
        ensures none { IsNone result → varint_at bytes.now ≡ None }
    {
        let Some(eight) = bytes.first_chunk::<8>() else {
            return VarInt::at_short_front(bytes);
        };
        let first = bytes[0];
        if first < 0x40 {
            return Some((VarInt(u64::from(first)), 1));
        }
        if first >> 6 == 2 {
            let Some(four) = bytes.first_chunk::<4>() else {
                unreachable!();
            };
            let number = u32::from_be_bytes(*four) & 0x3fff_ffff;
            return Some((VarInt(u64::from(number)), 4));
        }
        if first >= 0xc0 {
            let number = u64::from_be_bytes(*eight) & 0x3fff_ffff_ffff_ffff;
            return Some((VarInt(number), 8));
        }
        let Some(two) = bytes.first_chunk::<2>() else {
            unreachable!();
        };
        let number = u16::from_be_bytes(*two) & 0x3fff;
        Some((VarInt(u64::from(number)), 2))
    }

    // The same for fewer than eight bytes. Out of line, since more of them mostly lie there.
    #[inline(never)]
    fn at_short_front(bytes: &[u8]) -> Option<(Self, usize)>
        requires few { length bytes.now < 8 }
        ensures some { IfSome result (λ p. IsEncoding p.0 (take p.1 bytes.now)
            × (p.1 ≤ length bytes.now)) }
        ensures none { IsNone result → varint_at bytes.now ≡ None }
    {
        let len = bytes.len();
        if len == 0 {
            return None;
        }
        let leading = bytes[0];
        if leading < 0x40 {
            return Some((VarInt(u64::from(leading)), 1));
        }
        if leading < 0x80 {
            if len < 2 {
                return None;
            }
            let number = u16::from_be_bytes([leading, bytes[1]]) & 0x3fff;
            return Some((VarInt(u64::from(number)), 2));
        }
        if leading < 0xc0 {
            if len < 4 {
                return None;
            }
            let number = u32::from_be_bytes([leading, bytes[1], bytes[2], bytes[3]]) & 0x3fff_ffff;
            return Some((VarInt(u64::from(number)), 4));
        }
        None
    }

    // Reads an encoding byte by byte, across the pieces of the buffer.
    // Out of line, since most numbers lie in one piece.
    #[inline(never)]
    fn decode_in_pieces<B: Buf>(buf: &mut B) -> Result<Self, UnexpectedEnd>
        ensures ok { IfOk result (λ v. Takes (IsEncoding v) (B.unread buf.old) (B.unread buf.new)) }
        ensures err { IfErr result (λ e. IsUnfinished (B.unread buf.old) e.0 (B.unread buf.new)) }
        ensures kept { B.kept buf.new ≡ B.kept buf.old }
    {
        if !buf.has_remaining() {
            return Err(UnexpectedEnd(0));
        }
        let first = buf.get_u8();
        let more = VarInt::encoded_size(first) - 1;
        if buf.remaining() < more {
            return Err(UnexpectedEnd(VarInt::form_of(first)));
        }
        Ok(VarInt(get_number(buf, first & 0x3f, more)))
    }

    /// Appends the shortest encoding, whole or, if the buffer is full or its allocation fails, not at
    /// all.
    pub fn encode<B: BufMut>(&self, buf: &mut B) -> Result<(), WriteRefused>
        ensures ok { OnOk result (B.written buf.new ≡ B.written buf.old ++ encoding self.now) }
        ensures err { OnErr result (B.written buf.new ≡ B.written buf.old) }
        ensures room { UsesRoom result (B.spare buf.old)
            (B.spare buf.new) (length (encoding self.now)) }
    {
        put_encoding(buf, self.0).map_err(|_| WriteRefused)
    }
}

impl Encode for VarInt {
    ghost encoding = { encoding };

    fn encode<B: BufMut>(&self, buf: &mut B) -> Result<(), WriteRefused> {
        VarInt::encode(self, buf)
    }
}

impl Decode for VarInt {
    ghost is_encoding = { IsEncoding };

    ghost is_unfinished = { IsUnfinished };

    ghost one_encoding = { one_encoding };

    ghost finished = { finished };

    fn decode<B: Buf>(buf: &mut B) -> Result<Self, UnexpectedEnd> {
        VarInt::decode(buf)
    }
}

impl Codec for VarInt {
    ghost is_value = { λ v. v < 2 ^ 62 };

    ghost encoding_is_valid = { encoding_is_valid };

    fn known(&self) {
        let _number = &self.0;
    }
}

impl From<u8> for VarInt {
    ghost from_gives = { λ x v. v ≡ x };

    fn from(x: u8) -> Self {
        VarInt::from_u32(u32::from(x))
    }
}

impl From<u16> for VarInt {
    ghost from_gives = { λ x v. v ≡ x };

    fn from(x: u16) -> Self {
        VarInt::from_u32(u32::from(x))
    }
}

impl From<u32> for VarInt {
    ghost from_gives = { λ x v. v ≡ x };

    fn from(x: u32) -> Self {
        VarInt::from_u32(x)
    }
}

impl TryFrom<u64> for VarInt {
    type Error = VarIntBoundsExceeded;

    ghost try_from_gives = { ConvertsBelowLimit };

    fn try_from(x: u64) -> Result<Self, VarIntBoundsExceeded> {
        VarInt::from_u64(x)
    }
}

impl TryFrom<usize> for VarInt {
    type Error = VarIntBoundsExceeded;

    ghost try_from_gives = { ConvertsBelowLimit };

    fn try_from(x: usize) -> Result<Self, VarIntBoundsExceeded> {
        VarInt::from_u64(x as u64)
    }
}

impl From<VarInt> for u64 {
    ghost from_gives = { λ v x. (x ≡ v) × (x < 2 ^ 62) };

    fn from(v: VarInt) -> u64 {
        v.0
    }
}

impl Div<u64> for VarInt {
    type Output = VarInt;

    ghost can_div = { λ _ n. 0 < n };

    ghost div_gives = { λ v n q. q ≡ v / n };

    fn div(self, rhs: u64) -> VarInt {
        VarInt(self.0 / rhs)
    }
}

impl Default for VarInt {
    ghost is_default = { λ v. v ≡ 0 };

    fn default() -> Self {
        VarInt(0)
    }
}

impl fmt::Debug for VarInt {
    ghost debug_output = { λ v. Some (decimal v) };

    fn fmt<W: fmt::Write>(&self, f: &mut fmt::Formatter<W>) -> fmt::Result {
        fmt::Debug::fmt(&self.0, f)
    }
}

impl fmt::Display for VarInt {
    ghost output = { λ v. Some (decimal v) };

    fn fmt<W: fmt::Write>(&self, f: &mut fmt::Formatter<W>) -> fmt::Result {
        fmt::Display::fmt(&self.0, f)
    }
}

// Appends the shortest encoding of a number, whole or not at all.
fn put_encoding<B: BufMut>(buf: &mut B, x: u64) -> Result<(), AllocError>
    requires { x < 2 ^ 62 }
    ensures ok { OnOk result (B.written buf.new ≡ B.written buf.old ++ encoding x) }
    ensures err { OnErr result (B.written buf.new ≡ B.written buf.old) }
    ensures room { UsesRoom result (B.spare buf.old) (B.spare buf.new) (length (encoding x)) }
{
    if x < 1 << 6 {
        buf.put_u8(x as u8)
    } else if x < 1 << 14 {
        buf.put_u16(1 << 14 | x as u16)
    } else if x < 1 << 30 {
        buf.put_u32(2 << 30 | x as u32)
    } else {
        buf.put_u64(3 << 62 | x)
    }
}

// What a first byte and the next ones are worth.
fn get_number<B: Buf>(buf: &mut B, first: u8, more: usize) -> u64
    requires low { first < 64 }
    requires few { more < 8 }
    requires there { more ≤ length (B.unread buf.old) }
    ensures value { result ≡ big_endian (first ∷ take more (B.unread buf.old)) }
    ensures below { result < 64 * 256 ^ more }
    ensures bytes { AllByRecursion IsByte (take more (B.unread buf.old)) }
    ensures rest { B.unread buf.new ≡ drop more (B.unread buf.old) }
    ensures kept { B.kept buf.new ≡ B.kept buf.old }
{
    let mut number = u64::from(first);
    for _ in 0..more {
        number = number * 256 + u64::from(buf.get_u8());
    }
    number
}
