//! String literals (RFC 9204, section 4.1.2; RFC 7541, section 5.2): as they stand or Huffman coded, after their length.
ghost use Rattle.std.specs.Prelude.{◌≡◌, ◌+◌, ◌*◌, ◌-◌, ◌^◌, ◌<◌, ◌≤◌, ◌++◌, OnOk, OnErr, IfOk, IfSome, Result, length, take, Some, true, false};
ghost use Rattle.h3_huffman.specs.Huffman.{huffman};
ghost use Rattle.h3_field.specs.Ends.{IsEndOf};
ghost use Rattle.h3_field.specs.ErrorTexts.{string_text};
ghost use Rattle.std.specs.Result.{IsOkUnless};
ghost use Rattle.h3_field.specs.StringLiteral.{string_literal, huffman_text, plain_text, coded};
ghost use Rattle.h3_field.specs.StringReading.{string};
ghost use Rattle.h3_field.specs.StringAnswer.{AnswersString, of_integer};
ghost use Rattle.h3_field.specs.declared.prefix_string.Error.TheVariants as error;

mod bitwin;
mod payload;
mod short_string;
pub mod string_decode;
pub mod string_encode;

use crate::cursor::SliceCursor;
use crate::prefix_int;
pub use bitwin::BitWindow;
pub(crate) use payload::{Payload, refusal_of_encoded, take_payload};
pub use short_string::ShortString;
use std::alloc::{AllocError, Global};
use std::fmt;
pub use string_decode::{DecodeIter, HpackStringDecode};
pub use string_encode::HpackStringEncode;

/// Why no string was read or written.
#[derive(Copy, Clone, PartialEq, Eq, Debug)]
pub enum Error {
    /// The string is not whole.
    UnexpectedEnd,
    /// Its length is out of range.
    Integer(prefix_int::Error),
    /// Its bytes are no string's Huffman encoding.
    HuffmanDecoding,
    /// Never arises: every string has a Huffman encoding.
    HuffmanEncoding,
    /// Never arises: sizes have 64 bits.
    BufSize,
    OutOfMemory,
}

impl Error {
    fn text(&self) -> &'static str
        ensures { result.now ≡ string_text self.now }
    {
        match self {
            Error::UnexpectedEnd => "UnexpectedEnd",
            Error::Integer(_) => "Integer",
            Error::HuffmanDecoding => "HuffmanDecoding",
            Error::HuffmanEncoding => "HuffmanEncoding",
            Error::BufSize => "BufSize",
            Error::OutOfMemory => "out of memory",
        }
    }
}

impl fmt::Display for Error {
    ghost output = { λ e. Some (string_text e) };

    fn fmt<W: fmt::Write>(&self, f: &mut fmt::Formatter<W>) -> fmt::Result {
        f.write_str(self.text())
    }
}

impl std::error::Error for Error {}

impl From<prefix_int::Error> for Error {
    ghost from_gives = { λ i e. e ≡ of_integer i };

    fn from(e: prefix_int::Error) -> Error {
        match e {
            prefix_int::Error::UnexpectedEnd => Error::UnexpectedEnd,
            prefix_int::Error::Overflow => Error::Integer(e),
        }
    }
}

impl From<AllocError> for Error {
    ghost from_gives = { λ _ e. e ≡ error.OutOfMemory };

    fn from(_e: AllocError) -> Error {
        Error::OutOfMemory
    }
}

impl From<string_decode::Error> for Error {
    ghost from_gives = { λ _ e. e ≡ error.HuffmanDecoding };

    fn from(_e: string_decode::Error) -> Error {
        Error::HuffmanDecoding
    }
}

impl From<string_encode::Error> for Error {
    ghost from_gives = { λ _ e. e ≡ error.OutOfMemory };

    fn from(_e: string_encode::Error) -> Error {
        Error::OutOfMemory
    }
}

/// Takes a string from the front. The flags above its `size` bits are ignored. A refused read takes nothing.
pub fn decode(alloc: Global, size: u8, buf: &mut SliceCursor<'_>) -> Result<Vec<u8>, Error>
    requires least { 2 ≤ size }
    requires most { size ≤ 8 }
    ensures answer { AnswersString (string size buf.old) buf.old buf.new result }
    ensures rest { IsEndOf buf.old buf.new }
{
    let mut ahead = SliceCursor::new(buf.chunk());
    let (_, payload) = take_payload(size, &mut ahead)?;
    let bytes = payload.to_bytes(alloc, 0)?;
    *buf = ahead;
    Ok(bytes)
}

/// The longest string that is encoded in one pass: most often its code has fewer than 255 bytes, so the length takes at most two.
pub(crate) const SHORT: usize = 250;

/// The longest string that is tried with another length: as it stands, its length takes one byte in seven bits. A longer one may well be
/// written as it stands, and then each try is in vain.
const TRIED_AGAIN: usize = 126;

/// Whether the length of a string most often takes one byte: a code word has six bits in the mean.
#[inline(always)]
fn is_near(size: u8, value: &[u8]) -> bool
    requires least { 2 ≤ size }
    requires most { size ≤ 8 }
    requires short { length value.now ≤ 250 }
{
    let likely = (3 * value.len() + 3) / 4;
    (likely as u64) < prefix_int::greatest(size - 1)
}

/// Whether a string is written Huffman coded, of which the code has `len` bytes: if `shortest`, only if that is shorter; else always.
#[inline(always)]
fn is_coded(value: &[u8], shortest: bool, len: usize) -> bool
    requires { len ≡ length (huffman value.now) }
    ensures { result ≡ (coded shortest value.now).is_huffman }
{
    !shortest || len < value.len()
}

/// Appends the length of a string, and the string as it stands. A refusal may leave a part of them.
fn put_plain(size: u8, flags: u8, value: &[u8], buf: &mut Vec<u8>) -> Result<(), AllocError>
    requires least { 2 ≤ size }
    requires most { size ≤ 8 }
    requires flags { flags < 2 ^ (8 - size) }
    requires value { length value.now < 2 ^ 62 }
    ensures ok { OnOk result (buf.new.items ≡ buf.old.items ++ string_literal size flags (plain_text value.now)) }
    ensures err { OnErr result (take (length buf.old.items) buf.new.items ≡ buf.old.items) }
{
    prefix_int::encode(size - 1, 2 * flags, value.len() as u64, buf)?;
    buf.extend_from_slice(value)
}

/// Appends the length of a string that is empty, and has an empty encoding. It is not shorter, so if `shortest` the string is written as it
/// stands.
#[inline(always)]
fn put_empty(
    size: u8,
    flags: u8,
    value: &[u8],
    shortest: bool,
    buf: &mut Vec<u8>,
) -> Result<(), AllocError>
    requires least { 2 ≤ size }
    requires most { size ≤ 8 }
    requires flags { flags < 2 ^ (8 - size) }
    requires empty { length value.now ≡ 0 }
    ensures ok { OnOk result (buf.new.items ≡ buf.old.items ++ string_literal size flags (coded shortest value.now)) }
    ensures err { OnErr result (take (length buf.old.items) buf.new.items ≡ buf.old.items) }
{
    if shortest {
        return put_plain(size, flags, value, buf);
    }
    prefix_int::encode(size - 1, 2 * flags + 1, value.len() as u64, buf)
}

/// Writes the length of a short string, and the string as it stands, to the front of `out`, and returns how many bytes they are. None: the
/// length takes more than one byte.
#[inline(always)]
fn write_plain(size: u8, flags: u8, value: &[u8], out: &mut [u8]) -> Option<usize>
    requires least { 2 ≤ size }
    requires most { size ≤ 8 }
    requires flags { flags < 2 ^ (8 - size) }
    requires short { length value.now ≤ 250 }
    requires room { length value.now + 1 ≤ length out.old }
    ensures most { IfSome result (λ count. count ≤ length value.now + 1) }
    ensures literal { IfSome result (λ count. take count out.new ≡ string_literal size flags (plain_text value.now)) }
{
    let len = value.len();
    let first = prefix_int::one_byte(size - 1, 2 * flags, len as u64)?;
    out[1..len + 1].copy_from_slice(value);
    out[0] = first;
    Some(len + 1)
}

/// Writes the length and the Huffman encoding of a short string to the front of `out`, or the string as it stands, and returns how many
/// bytes they are. None: the length takes more than one byte.
#[inline(always)]
fn write_behind_one(
    size: u8,
    flags: u8,
    value: &[u8],
    shortest: bool,
    out: &mut [u8],
) -> Option<usize>
    requires least { 2 ≤ size }
    requires most { size ≤ 8 }
    requires flags { flags < 2 ^ (8 - size) }
    requires short { length value.now ≤ 250 }
    requires room { 4 * length value.now + 6 ≤ length out.old }
    ensures most { IfSome result (λ count. count ≤ 4 * length value.now + 6) }
    ensures within { IfSome result (λ count. count ≤ length out.new) }
    ensures literal { IfSome result (λ count. take count out.new ≡ string_literal size flags (coded shortest value.now)) }
{
    let len = h3_huffman::encode::encode_front(value, &mut out[1..]);
    if !is_coded(value, shortest, len) {
        return write_plain(size, flags, value, out);
    }
    out[0] = prefix_int::one_byte(size - 1, 2 * flags + 1, len as u64)?;
    Some(len + 1)
}

/// The same with a length of two bytes. None: it takes one byte, or more than two, or the string is to be written as it stands.
#[inline(always)]
fn write_behind_two(
    size: u8,
    flags: u8,
    value: &[u8],
    shortest: bool,
    out: &mut [u8],
) -> Option<usize>
    requires least { 2 ≤ size }
    requires most { size ≤ 8 }
    requires flags { flags < 2 ^ (8 - size) }
    requires short { length value.now ≤ 250 }
    requires room { 4 * length value.now + 6 ≤ length out.old }
    ensures most { IfSome result (λ count. count ≤ 4 * length value.now + 6) }
    ensures within { IfSome result (λ count. count ≤ length out.new) }
    ensures literal { IfSome result (λ count. take count out.new ≡ string_literal size flags (coded shortest value.now)) }
{
    let len = h3_huffman::encode::encode_front(value, &mut out[2..]);
    if !is_coded(value, shortest, len) {
        return None;
    }
    let (first, second) = prefix_int::two_bytes(size - 1, 2 * flags + 1, len as u64)?;
    out[0] = first;
    out[1] = second;
    Some(len + 2)
}

/// Writes the length of a string that is empty, and has an empty encoding. It is not shorter, so if `shortest` the string is written as it
/// stands.
#[inline(always)]
fn write_empty(size: u8, flags: u8, value: &[u8], shortest: bool, out: &mut [u8]) -> Option<usize>
    requires least { 2 ≤ size }
    requires most { size ≤ 8 }
    requires flags { flags < 2 ^ (8 - size) }
    requires empty { length value.now ≡ 0 }
    requires room { 6 ≤ length out.old }
    ensures most { IfSome result (λ count. count ≤ 6) }
    ensures literal { IfSome result (λ count. take count out.new ≡ string_literal size flags (coded shortest value.now)) }
{
    if shortest {
        return write_plain(size, flags, value, out);
    }
    out[0] = prefix_int::one_byte(size - 1, 2 * flags + 1, value.len() as u64)?;
    Some(1)
}

/// Writes a short string to the front of `out`, in its final place, and returns how many bytes it takes. If its length takes another number
/// of bytes than is likely, a string of at most 126 bytes is encoded once more. None: the string is longer, its length takes more than two
/// bytes, or it is to be written as it stands.
#[inline(always)]
pub(crate) fn write_short(
    size: u8,
    flags: u8,
    value: &[u8],
    shortest: bool,
    out: &mut [u8],
) -> Option<usize>
    requires least { 2 ≤ size }
    requires most { size ≤ 8 }
    requires flags { flags < 2 ^ (8 - size) }
    requires short { length value.now ≤ 250 }
    requires room { 4 * length value.now + 6 ≤ length out.old }
    ensures most { IfSome result (λ count. count ≤ 4 * length value.now + 6) }
    ensures within { IfSome result (λ count. count ≤ length out.new) }
    ensures literal { IfSome result (λ count. take count out.new ≡ string_literal size flags (coded shortest value.now)) }
{
    if value.is_empty() {
        return write_empty(size, flags, value, shortest, out);
    }
    if is_near(size, value) {
        let written = write_behind_one(size, flags, value, shortest, out);
        if written.is_some() || value.len() > TRIED_AGAIN {
            return written;
        }
        return write_behind_two(size, flags, value, shortest, out);
    }
    let written = write_behind_two(size, flags, value, shortest, out);
    if written.is_some() || value.len() > TRIED_AGAIN {
        return written;
    }
    write_behind_one(size, flags, value, shortest, out)
}

/// Appends the length of a short string and its Huffman encoding, or the string as it stands. It is encoded in its final place. A refusal
/// may leave a part of it.
#[inline(always)]
fn put_short(
    size: u8,
    flags: u8,
    value: &[u8],
    shortest: bool,
    buf: &mut Vec<u8>,
) -> Result<(), AllocError>
    requires least { 2 ≤ size }
    requires most { size ≤ 8 }
    requires flags { flags < 2 ^ (8 - size) }
    requires short { length value.now ≤ 250 }
    ensures ok { OnOk result (buf.new.items ≡ buf.old.items ++ string_literal size flags (coded shortest value.now)) }
    ensures err { OnErr result (take (length buf.old.items) buf.new.items ≡ buf.old.items) }
{
    let start = buf.len();
    // the length, at most four bytes of code for each, and what the encoder writes after its last bits
    buf.resize(start.saturating_add(4 * value.len() + 6), 0)?;
    let Some(count) = write_short(size, flags, value, shortest, &mut buf[start..]) else {
        buf.truncate(start);
        return put_long(size, flags, value, shortest, buf);
    };
    buf.truncate(start + count);
    Ok(())
}

/// Writes two short strings to the front of `out`, as `write_short` does.
#[inline(always)]
fn write_both(
    size: u8,
    flags: u8,
    name: &[u8],
    value: &[u8],
    shortest: bool,
    out: &mut [u8],
) -> Option<usize>
    requires least { 2 ≤ size }
    requires most { size ≤ 8 }
    requires flags { flags < 2 ^ (8 - size) }
    requires name { length name.now ≤ 250 }
    requires value { length value.now ≤ 250 }
    requires room { 4 * length name.now + 4 * length value.now + 12 ≤ length out.old }
    ensures within { IfSome result (λ count. count ≤ length out.new) }
    ensures literals { IfSome result (λ count. take count out.new ≡
        string_literal size flags (coded shortest name.now) ++ string_literal 8 0 (coded shortest value.now)) }
{
    let first = write_short(size, flags, name, shortest, out)?;
    let second = write_short(8, 0, value, shortest, &mut out[first..])?;
    Some(first + second)
}

/// Appends two short strings, both in their final place. False: nothing is appended, since the length of one takes another number of bytes
/// than is likely. A refusal may leave a part of them.
#[inline(always)]
fn put_both_short(
    size: u8,
    flags: u8,
    name: &[u8],
    value: &[u8],
    shortest: bool,
    buf: &mut Vec<u8>,
) -> Result<bool, AllocError>
    requires least { 2 ≤ size }
    requires most { size ≤ 8 }
    requires flags { flags < 2 ^ (8 - size) }
    requires name { length name.now ≤ 250 }
    requires value { length value.now ≤ 250 }
    ensures ok { IfOk result (λ both. both ≡ true → buf.new.items ≡
        buf.old.items ++ (string_literal size flags (coded shortest name.now) ++ string_literal 8 0 (coded shortest value.now))) }
    ensures none { IfOk result (λ both. both ≡ false → buf.new.items ≡ buf.old.items) }
    ensures err { OnErr result (take (length buf.old.items) buf.new.items ≡ buf.old.items) }
{
    let start = buf.len();
    buf.resize(start.saturating_add(4 * (name.len() + value.len()) + 12), 0)?;
    let Some(count) = write_both(size, flags, name, value, shortest, &mut buf[start..]) else {
        buf.truncate(start);
        return Ok(false);
    };
    buf.truncate(start + count);
    Ok(true)
}

/// Appends the length of a string and its Huffman encoding, or the string as it stands. The encoding is counted first. A refusal may leave
/// a part of them.
#[inline(never)]
fn put_long(
    size: u8,
    flags: u8,
    value: &[u8],
    shortest: bool,
    buf: &mut Vec<u8>,
) -> Result<(), AllocError>
    requires least { 2 ≤ size }
    requires most { size ≤ 8 }
    requires flags { flags < 2 ^ (8 - size) }
    requires value { length value.now < 2 ^ 62 }
    ensures ok { OnOk result (buf.new.items ≡ buf.old.items ++ string_literal size flags (coded shortest value.now)) }
    ensures err { OnErr result (take (length buf.old.items) buf.new.items ≡ buf.old.items) }
{
    let len = h3_huffman::encode::payload_len(value);
    if !is_coded(value, shortest, len) {
        return put_plain(size, flags, value, buf);
    }
    buf.reserve(len)?;
    prefix_int::encode(size - 1, 2 * flags + 1, len as u64, buf)?;
    let start = buf.len();
    buf.resize(start + len, 0)?;
    h3_huffman::encode::encode_into(value, &mut buf[start..]);
    Ok(())
}

/// Appends the length of a string and its Huffman encoding, or the string as it stands. A refusal may leave a part of them.
#[inline(always)]
fn put_string(
    size: u8,
    flags: u8,
    value: &[u8],
    shortest: bool,
    buf: &mut Vec<u8>,
) -> Result<(), AllocError>
    requires least { 2 ≤ size }
    requires most { size ≤ 8 }
    requires flags { flags < 2 ^ (8 - size) }
    requires value { length value.now < 2 ^ 62 }
    ensures ok { OnOk result (buf.new.items ≡ buf.old.items ++ string_literal size flags (coded shortest value.now)) }
    ensures err { OnErr result (take (length buf.old.items) buf.new.items ≡ buf.old.items) }
{
    if value.is_empty() {
        return put_empty(size, flags, value, shortest, buf);
    }
    if value.len() <= SHORT {
        return put_short(size, flags, value, shortest, buf);
    }
    put_long(size, flags, value, shortest, buf)
}

/// Appends a string, Huffman coded, in the low `size` bits of a byte below `flags`. A refusal appends nothing.
pub fn encode(size: u8, flags: u8, value: &[u8], buf: &mut Vec<u8>) -> Result<(), Error>
    requires least { 2 ≤ size }
    requires most { size ≤ 8 }
    requires flags { flags < 2 ^ (8 - size) }
    requires value { length value.now < 2 ^ 62 }
    ensures memory { IsOkUnless result error.OutOfMemory }
    ensures ok { OnOk result (buf.new.items ≡ buf.old.items ++ string_literal size flags (huffman_text value.now)) }
    ensures err { OnErr result (buf.new.items ≡ buf.old.items) }
{
    write(size, flags, value, false, buf)
}

// RFC 9204 4.1.2: shortest strings
/// Appends a string in the low `size` bits of a byte below `flags`: Huffman coded, or as it stands if `shortest` and its Huffman code is
/// not shorter. A refusal appends nothing.
#[inline(always)]
pub fn write(
    size: u8,
    flags: u8,
    value: &[u8],
    shortest: bool,
    buf: &mut Vec<u8>,
) -> Result<(), Error>
    requires least { 2 ≤ size }
    requires most { size ≤ 8 }
    requires flags { flags < 2 ^ (8 - size) }
    requires value { length value.now < 2 ^ 62 }
    ensures memory { IsOkUnless result error.OutOfMemory }
    ensures ok { OnOk result (buf.new.items ≡ buf.old.items ++ string_literal size flags (coded shortest value.now)) }
    ensures err { OnErr result (buf.new.items ≡ buf.old.items) }
{
    let start = buf.len();
    if put_string(size, flags, value, shortest, buf).is_err() {
        buf.truncate(start);
        return Err(Error::OutOfMemory);
    }
    Ok(())
}

/// Appends two strings as `write` does, the second one with no flags. A refusal appends nothing.
#[inline(always)]
pub(crate) fn write_two(
    size: u8,
    flags: u8,
    name: &[u8],
    value: &[u8],
    shortest: bool,
    buf: &mut Vec<u8>,
) -> Result<(), Error>
    requires least { 2 ≤ size }
    requires most { size ≤ 8 }
    requires flags { flags < 2 ^ (8 - size) }
    requires name { length name.now < 2 ^ 62 }
    requires value { length value.now < 2 ^ 62 }
    ensures memory { IsOkUnless result error.OutOfMemory }
    ensures ok { OnOk result
        (buf.new.items ≡ buf.old.items ++
        (string_literal size flags (coded shortest name.now) ++ string_literal 8 0 (coded shortest value.now))) }
    ensures err { OnErr result (buf.new.items ≡ buf.old.items) }
{
    let start = buf.len();
    if put_two(size, flags, name, value, shortest, buf).is_err() {
        buf.truncate(start);
        return Err(Error::OutOfMemory);
    }
    Ok(())
}

/// The same. A refusal may leave a part of them.
#[inline(always)]
fn put_two(
    size: u8,
    flags: u8,
    name: &[u8],
    value: &[u8],
    shortest: bool,
    buf: &mut Vec<u8>,
) -> Result<(), AllocError>
    requires least { 2 ≤ size }
    requires most { size ≤ 8 }
    requires flags { flags < 2 ^ (8 - size) }
    requires name { length name.now < 2 ^ 62 }
    requires value { length value.now < 2 ^ 62 }
    ensures ok { OnOk result
        (buf.new.items ≡ buf.old.items ++
        (string_literal size flags (coded shortest name.now) ++ string_literal 8 0 (coded shortest value.now))) }
    ensures err { OnErr result (take (length buf.old.items) buf.new.items ≡ buf.old.items) }
{
    if name.len() <= SHORT && value.len() <= SHORT {
        if put_both_short(size, flags, name, value, shortest, buf)? {
            return Ok(());
        }
    }
    put_each(size, flags, name, value, shortest, buf)
}

/// The same, one after the other.
#[inline(never)]
fn put_each(
    size: u8,
    flags: u8,
    name: &[u8],
    value: &[u8],
    shortest: bool,
    buf: &mut Vec<u8>,
) -> Result<(), AllocError>
    requires least { 2 ≤ size }
    requires most { size ≤ 8 }
    requires flags { flags < 2 ^ (8 - size) }
    requires name { length name.now < 2 ^ 62 }
    requires value { length value.now < 2 ^ 62 }
    ensures ok { OnOk result
        (buf.new.items ≡ buf.old.items ++
        (string_literal size flags (coded shortest name.now) ++ string_literal 8 0 (coded shortest value.now))) }
    ensures err { OnErr result (take (length buf.old.items) buf.new.items ≡ buf.old.items) }
{
    put_string(size, flags, name, shortest, buf)?;
    match put_string(8, 0, value, shortest, buf) {
        Ok(()) => Ok(()),
        Err(e) => Err(e),
    }
}
