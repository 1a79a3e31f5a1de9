//! Reading and writing values at a buffer, with an error if bytes or room are missing. Each trait
//! says in ghost members which bytes stand for a value, so that generic code knows them.
ghost use Rattle.std.specs.Prelude.{◌≡◌, ℕ, ◌<◌, ◌^◌, List, [], ◌∷◌, ◌++◌, length, IfOk, IfErr, IfSome, IsNone, OnOk, OnErr, None, Some};
ghost use Rattle.std.specs.Prelude.{◌≤◌, take, drop, refl};
ghost use Rattle.h3_coding.specs.ByteLaws.{one_byte, byte_finished};
ghost use Rattle.h3_coding.specs.Reading.{Takes};
ghost use Rattle.h3_coding.specs.Encodings.{IsEncoding, IsUnfinished, encoding};
ghost use Rattle.h3_coding.specs.Varint.{varint_at, ReadsVarint};
ghost use Rattle.h3_coding.specs.Writing.{AppendsFront, UsesRoom};

use crate::varint::VarInt;
use bytes::{Buf, BufMut};

/// The input ended inside a value. The count is that of the type that was read: of a variable-length
/// integer see `VarInt::decode`, of a byte it is 1.
#[derive(Clone, Copy, Debug, PartialEq, Eq)]
pub struct UnexpectedEnd(pub usize);

/// The buffer is full, or its allocation failed.
#[derive(Clone, Copy, Debug, PartialEq, Eq)]
pub struct WriteRefused;

/// What a read answers.
pub type Result<T> = std::result::Result<T, UnexpectedEnd>;

/// A value that can be written.
pub trait Encode {
    // The encoding that is written.
    ghost encoding: { Self → List ℕ };

    /// Appends the encoding. It is refused only if the buffer is full or its allocation fails, and then leaves the bytes that were there
    /// and a beginning of the encoding.
    fn encode<B: BufMut>(&self, buf: &mut B) -> std::result::Result<(), WriteRefused>
        ensures ok { OnOk result (B.written buf.new ≡ B.written buf.old ++ encoding self.now) }
        ensures err { OnErr result
            (AppendsFront (encoding self.now) (B.written buf.old) (B.written buf.new)) }
        ensures room { UsesRoom result (B.spare buf.old)
            (B.spare buf.new) (length (encoding self.now)) };
}

/// A value that can be read. No encoding of one value begins an encoding of another.
pub trait Decode: Sized {
    // The bytes are an encoding of the value.
    ghost is_encoding: { Self → List ℕ → Type 0 };

    // The bytes begin no encoding: the count that the error has, and what is left.
    ghost is_unfinished: { List ℕ → ℕ → List ℕ → Type 0 };

    /// Takes an encoding from the front, and leaves what follows it.
    fn decode<B: Buf>(buf: &mut B) -> Result<Self>
        ensures ok { IfOk result
            (λ v. Takes (is_encoding v) (B.unread buf.old) (B.unread buf.new)) }
        ensures err { IfErr result (λ e. is_unfinished (B.unread buf.old) e.0 (B.unread buf.new)) }
        ensures kept { B.kept buf.new ≡ B.kept buf.old };

    // No encoding of a value begins an encoding of another.
    ghost one_encoding: { (v w : Self) (t u r s : List ℕ) → is_encoding v t → is_encoding w u
        → t ++ r ≡ u ++ s → (v ≡ w) × (t ≡ u) };

    // What begins with an encoding is not unfinished.
    ghost finished: { (v : Self) (t r left : List ℕ) (count : ℕ) → is_encoding v t
        → is_unfinished (t ++ r) count left → ⊥ };
}

/// A value that is read back from what is written of it.
pub trait Codec: Encode + Decode {
    // Holds of each value of the type.
    ghost is_value: { Self → Type 0 };

    /// The value is one of its type. It does nothing: a proof that needs the fact calls it.
    fn known(&self)
        ensures { is_value self.now };

    // What is written is an encoding of the value.
    ghost encoding_is_valid: { (v : Self) → is_value v → Self.is_encoding v (Self.encoding v) };
}

impl Codec for u8 {
    ghost is_value = { λ x. x < 256 };

    ghost encoding_is_valid = { λ x h. refl };

    fn known(&self) {
        let _value = *self;
    }
}

impl Encode for u8 {
    ghost encoding = { λ x. x ∷ [] };

    fn encode<B: BufMut>(&self, buf: &mut B) -> std::result::Result<(), WriteRefused> {
        buf.put_u8(*self).map_err(|_| WriteRefused)
    }
}

impl Decode for u8 {
    ghost is_encoding = { λ x octets. octets ≡ x ∷ [] };

    ghost is_unfinished = { λ bytes count left. (bytes ≡ []) × (count ≡ 1) × (left ≡ []) };

    ghost one_encoding = { one_byte };

    ghost finished = { byte_finished };

    fn decode<B: Buf>(buf: &mut B) -> Result<u8> {
        if buf.remaining() < 1 {
            return Err(UnexpectedEnd(1));
        }
        Ok(buf.get_u8())
    }
}

/// Reading values from a buffer.
pub trait BufExt: Buf + Sized {
    /// Takes an encoding of a value from the front.
    final fn get<T: Decode>(&mut self) -> Result<T>
        ensures ok { IfOk result
            (λ v. Takes (T.is_encoding v) (Self.unread self.old) (Self.unread self.new)) }
        ensures err { IfErr result
            (λ e. T.is_unfinished (Self.unread self.old) e.0 (Self.unread self.new)) }
        ensures kept { Self.kept self.new ≡ Self.kept self.old }

        // Each encoding is read as its value, whatever follows it.
        ensures whole { (v : T) (octets rest : List ℕ) → T.is_encoding v octets
            → Self.unread self.old ≡ octets ++ rest
            → (result ≡ Ok v) × (Self.unread self.new ≡ rest) }
    {
        T::decode(self)
    }

    /// Takes a variable-length integer from the front (RFC 9000, section 16).
    #[inline(always)]
    final fn get_var(&mut self) -> Result<u64>
        ensures reads { ReadsVarint result (Self.unread self.old) (Self.unread self.new) }
        ensures few { OnErr result (length (Self.unread self.old) < 8) }
        ensures ok { IfOk result
            (λ n. Takes (IsEncoding n) (Self.unread self.old) (Self.unread self.new)) }
        ensures below { IfOk result (λ n. n < 2 ^ 62) }
        ensures err { IfErr result
            (λ e. IsUnfinished (Self.unread self.old) e.0 (Self.unread self.new)) }
        ensures kept { Self.kept self.new ≡ Self.kept self.old }

        // Each encoding is read as its number, whatever follows it.
        ensures whole { (n : ℕ) (octets rest : List ℕ) → IsEncoding n octets
            → Self.unread self.old ≡ octets ++ rest
            → (result ≡ Ok n) × (Self.unread self.new ≡ rest) }
    {
        match VarInt::decode(self) {
            Ok(v) => Ok(v.into_inner()),
            Err(e) => Err(e),
        }
    }

    /// Takes a number that lies within the first `len` bytes, and answers it with how many of those
    /// bytes follow it. Takes nothing if no number lies within them.
    final fn get_var_within(&mut self, len: usize) -> Option<(u64, usize)>
        requires { len ≤ length (Self.unread self.old) }
        ensures some { IfSome result (λ p. (varint_at (take len (Self.unread self.old))
            ≡ Some (p.0, take p.1 (Self.unread self.new)))
            × (drop len (Self.unread self.old) ≡ drop p.1 (Self.unread self.new))) }
        ensures inside { IfSome result (λ p. (p.1 ≤ length (Self.unread self.new)) × (p.1 < len)) }
        ensures below { IfSome result (λ p. p.0 < 2 ^ 62) }
        ensures none { IsNone result → varint_at (take len (Self.unread self.old)) ≡ None }
        ensures same { IsNone result → Self.unread self.new ≡ Self.unread self.old }
        ensures kept { Self.kept self.new ≡ Self.kept self.old }
    {
        if len == 0 {
            return None;
        }
        let size = VarInt::encoded_size(self.chunk()[0]);
        if size > len {
            return None;
        }
        let Ok(number) = self.get_var() else {
            return None;
        };
        Some((number, len - size))
    }
}

impl<B: Buf> BufExt for B {}

/// Writing values to a buffer.
pub trait BufMutExt: BufMut + Sized {
    /// Appends the encoding of a value. An `Err` leaves a beginning of it.
    final fn write<T: Encode + Drop>(&mut self, x: T) -> std::result::Result<(), WriteRefused>
        ensures ok { OnOk result (Self.written self.new ≡ Self.written self.old ++ T.encoding x) }
        ensures err { OnErr result
            (AppendsFront (T.encoding x) (Self.written self.old) (Self.written self.new)) }
        ensures room { UsesRoom result (Self.spare self.old)
            (Self.spare self.new) (length (T.encoding x)) }
    {
        x.encode(self)
    }

    /// Appends the shortest encoding of a number below 2^62, whole or not at all (RFC 9000, section 16).
    final fn write_var(&mut self, x: u64) -> std::result::Result<(), WriteRefused>
        requires { x < 2 ^ 62 }
        ensures ok { OnOk result (Self.written self.new ≡ Self.written self.old ++ encoding x) }
        ensures err { OnErr result (Self.written self.new ≡ Self.written self.old) }
        ensures room { UsesRoom result (Self.spare self.old)
            (Self.spare self.new) (length (encoding x)) }
    {
        VarInt::from_u64_unchecked(x).encode(self)
    }
}

impl<B: BufMut> BufMutExt for B {}
