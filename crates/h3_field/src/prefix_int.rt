//! Prefixed integers (RFC 9204, section 4.1.1; RFC 7541, section 5.1).
ghost use Rattle.std.specs.Prelude.{◌≡◌, ◌+◌, ◌-◌, ◌^◌, ◌<◌, ◌≤◌, ◌++◌, [], IfSome, take, OnOk, OnErr, IfOk, Result, length, MatchOption, ◌*◌};
ghost use Rattle.std.specs.Prelude.{◌∷◌, Some, vec_len, vec_capacity};
ghost use Rattle.h3_field.specs.Ends.{IsEndOf};
ghost use Rattle.h3_field.specs.ErrorTexts.{integer_text};
ghost use Rattle.h3_field.specs.Integer.{prefixed, ones, groups};
ghost use Rattle.h3_field.specs.IntegerReading.{integer, integer_limit};
ghost use Rattle.h3_field.specs.IntegerAnswer.{AnswersInteger};

use crate::cursor::SliceCursor;
use std::alloc::AllocError;
use std::fmt;

/// Why no integer was read.
#[derive(Copy, Clone, PartialEq, Eq, Debug)]
pub enum Error {
    /// The sum of what was read is out of range, whether the integer is whole or not.
    Overflow,
    /// The integer is not whole.
    UnexpectedEnd,
}

impl Error {
    fn text(&self) -> &'static str
        ensures { result.now ≡ integer_text self.now }
    {
        match self {
            Error::Overflow => "Overflow",
            Error::UnexpectedEnd => "UnexpectedEnd",
        }
    }
}

impl fmt::Display for Error {
    ghost output = { λ e. Some (integer_text e) };

    fn fmt<W: fmt::Write>(&self, f: &mut fmt::Formatter<W>) -> fmt::Result {
        f.write_str(self.text())
    }
}

impl std::error::Error for Error {}

/// The greatest value of that many bits.
pub(crate) fn greatest(size: u8) -> u64
    requires { size ≤ 8 }
    ensures value { result ≡ ones size }
    ensures most { result ≤ 255 }
{
    (1 << size) - 1
}

/// The sum with one group more, if it is in range.
fn add_group(limit: u64, sum: u64, place: usize, group: u64) -> Option<u64>
    requires within { sum < limit }
    requires near { limit ≤ sum + 2 ^ 63 }
    requires far { 2 ^ 63 ≤ limit }
    requires group { group < 128 }
    ensures { MatchOption result (limit ≤ sum + group * 128 ^ place) (λ s. (s ≡ sum + group * 128 ^ place) × (s < limit)) }
{
    if group == 0 {
        return Some(sum);
    }
    if place > 8 {
        return None;
    }
    let worth = group << (7 * place);
    if worth < limit - sum {
        Some(sum + worth)
    } else {
        None
    }
}

/// Takes an integer in the low `size` bits from the front: the flags above it, and its value, which is below
/// `2^63 + 2^size - 1`. A refused read takes nothing.
pub fn decode(size: u8, buf: &mut SliceCursor<'_>) -> Result<(u8, u64), Error>
    requires least { 1 ≤ size }
    requires most { size ≤ 8 }
    ensures answer { AnswersInteger (integer size buf.old) buf.old buf.new result }
    ensures below { IfOk result (λ found. found.1 < integer_limit size) }
    ensures rest { IsEndOf buf.old buf.new }
{
    let bytes = buf.chunk();
    if bytes.is_empty() {
        return Err(Error::UnexpectedEnd);
    }
    let first = u64::from(bytes[0]);
    let ones = greatest(size);
    let flags = (first >> size) as u8;
    let low = first & ones;
    if low < ones {
        buf.advance(1);
        return Ok((flags, low));
    }
    let limit = (1 << 63) + ones;
    let mut sum = ones;
    for i in 1..bytes.len() {
        let byte = bytes[i];
        let Some(next) = add_group(limit, sum, i - 1, u64::from(byte % 128)) else {
            return Err(Error::Overflow);
        };
        sum = next;
        if byte < 128 {
            buf.advance(i + 1);
            return Ok((flags, sum));
        }
    }
    Err(Error::UnexpectedEnd)
}

/// The first byte: the flags, and what stands below them.
fn first_byte(size: u8, flags: u8, low: u64) -> u8
    requires most { size ≤ 8 }
    requires flags { flags < 2 ^ (8 - size) }
    requires low { low ≤ ones size }
    ensures { result ≡ flags * 2 ^ size + low }
{
    let top = u64::from(flags) << size;
    (top + low) as u8
}

/// The encoding of `value` in the low `size` bits of a byte below `flags`. None: it has more than one byte.
#[inline(always)]
pub(crate) fn one_byte(size: u8, flags: u8, value: u64) -> Option<u8>
    requires least { 1 ≤ size }
    requires most { size ≤ 8 }
    requires flags { flags < 2 ^ (8 - size) }
    ensures { IfSome result (λ first. first ∷ [] ≡ prefixed size flags value) }
{
    if value >= greatest(size) {
        return None;
    }
    Some(first_byte(size, flags, value))
}

/// The encoding of `value` in the low `size` bits of a byte below `flags`, and in the next byte. None: it has not two bytes.
#[inline(always)]
pub(crate) fn two_bytes(size: u8, flags: u8, value: u64) -> Option<(u8, u8)>
    requires least { 1 ≤ size }
    requires most { size ≤ 8 }
    requires flags { flags < 2 ^ (8 - size) }
    ensures { IfSome result (λ both. both.0 ∷ both.1 ∷ [] ≡ prefixed size flags value) }
{
    let ones = greatest(size);
    if value < ones || value - ones >= 128 {
        return None;
    }
    Some((first_byte(size, flags, ones), (value - ones) as u8))
}

/// Writes the encoding of `value` in the low `size` bits of a byte below `flags` to the front of `out`, and returns how many bytes it has.
/// None: it has more than two.
#[inline(always)]
pub(crate) fn write(size: u8, flags: u8, value: u64, out: &mut [u8]) -> Option<usize>
    requires least { 1 ≤ size }
    requires most { size ≤ 8 }
    requires flags { flags < 2 ^ (8 - size) }
    requires room { 2 ≤ length out.old }
    ensures most { IfSome result (λ count. count ≤ 2) }
    ensures same { length out.new ≡ length out.old }
    ensures bytes { IfSome result (λ count. take count out.new ≡ prefixed size flags value) }
{
    if let Some(first) = one_byte(size, flags, value) {
        out[0] = first;
        return Some(1);
    }
    let (first, second) = two_bytes(size, flags, value)?;
    out[0] = first;
    out[1] = second;
    Some(2)
}

/// The most bytes that an integer takes.
const LONGEST: usize = 10;

/// Appends a first byte of all ones, and the groups of the rest. `buf` needs room for them.
fn put_groups(first: u8, rest: u64, buf: &mut Vec<u8>)
    requires rest { rest < 2 ^ 63 }
    requires room { vec_len buf.old + length (first ∷ groups 9 rest) ≤ vec_capacity buf.old }
    ensures { buf.new.items ≡ buf.old.items ++ first ∷ groups 9 rest }
{
    buf.push_reserved(first);
    let mut left = rest;
    while left >= 128 {
        buf.push_reserved((128 + left % 128) as u8);
        left /= 128;
    }
    buf.push_reserved(left as u8);
}

/// Appends the shortest encoding of `value` in the low `size` bits of a byte below `flags`. `buf` needs room for it.
pub fn put(size: u8, flags: u8, value: u64, buf: &mut Vec<u8>)
    requires least { 1 ≤ size }
    requires most { size ≤ 8 }
    requires flags { flags < 2 ^ (8 - size) }
    requires value { value < integer_limit size }
    requires room { vec_len buf.old + length (prefixed size flags value) ≤ vec_capacity buf.old }
    ensures { buf.new.items ≡ buf.old.items ++ prefixed size flags value }
{
    let ones = greatest(size);
    if value < ones {
        buf.push_reserved(first_byte(size, flags, value));
    } else {
        put_groups(first_byte(size, flags, ones), value - ones, buf);
    }
}

/// Appends the shortest encoding of `value` in the low `size` bits of a byte below `flags`. A refusal
/// appends nothing.
#[inline(always)]
pub fn encode(size: u8, flags: u8, value: u64, buf: &mut Vec<u8>) -> Result<(), AllocError>
    requires least { 1 ≤ size }
    requires most { size ≤ 8 }
    requires flags { flags < 2 ^ (8 - size) }
    requires value { value < integer_limit size }
    ensures ok { OnOk result (buf.new.items ≡ buf.old.items ++ prefixed size flags value) }
    ensures err { OnErr result (buf.new.items ≡ buf.old.items) }
{
    if value < greatest(size) && buf.len() < buf.capacity() {
        buf.push_reserved(first_byte(size, flags, value));
        return Ok(());
    }
    encode_any(size, flags, value, buf)
}

/// The same if more than one byte is written, or if there may be no room for it.
#[inline(never)]
fn encode_any(size: u8, flags: u8, value: u64, buf: &mut Vec<u8>) -> Result<(), AllocError>
    requires least { 1 ≤ size }
    requires most { size ≤ 8 }
    requires flags { flags < 2 ^ (8 - size) }
    requires value { value < integer_limit size }
    ensures ok { OnOk result (buf.new.items ≡ buf.old.items ++ prefixed size flags value) }
    ensures err { OnErr result (buf.new.items ≡ buf.old.items) }
{
    buf.reserve(LONGEST)?;
    if let Some((first, second)) = two_bytes(size, flags, value) {
        buf.push_reserved(first);
        buf.push_reserved(second);
        return Ok(());
    }
    put(size, flags, value, buf);
    Ok(())
}
