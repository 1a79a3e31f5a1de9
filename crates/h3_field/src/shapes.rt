//! What lines and instructions are made of: an integer, an integer and a string, or two strings.
ghost use Rattle.std.specs.Prelude.{◌≡◌, ◌<◌, ◌≤◌, ◌+◌, ◌*◌, ◌-◌, ◌^◌, ◌++◌, true, false, length, take, slice_index, is_some, if◌then◌else◌, MatchResult};
ghost use Rattle.std.specs.Prelude.{IfSome, IfNone, IfOk, OnOk, OnErr};
ghost use Rattle.std.specs.Result.{IsOkUnless};
ghost use Rattle.h3_field.specs.Ends.{IsEndOf};
ghost use Rattle.h3_field.specs.Integer.{prefixed};
ghost use Rattle.h3_field.specs.IntegerReading.{integer};
ghost use Rattle.h3_field.specs.Room.{HasRoom};
ghost use Rattle.h3_field.specs.StringLiteral.{string_literal, coded};
ghost use Rattle.h3_field.specs.declared.prefix_string.Error.TheVariants as string_error;
ghost use Rattle.h3_field.specs.Shapes.{begins, index_and_string, two_strings};
ghost use Rattle.h3_field.specs.Values.{string_of};
ghost use Rattle.h3_field.specs.ShapeAnswer.{behind, IsIndexAndString, AreTwoStrings, AnswersIndexAndString, AnswersBothStrings};
ghost use Rattle.h3_field.specs.ShapeAnswer.{AnswersTwoStrings};
ghost use Rattle.h3_field.specs.declared.parse_error.ParseError.TheVariants as parse_error;

use crate::cursor::SliceCursor;
use crate::field::HeaderField;
use crate::parse_error::ParseError;
use crate::prefix_int;
use crate::prefix_string::{self, Payload, ShortString, take_payload};
use std::alloc::{AllocError, Global};

/// Refuses a first byte that is not from `low` to `high`, if there is one.
pub(crate) fn expect_first(buf: &SliceCursor<'_>, low: u8, high: u8) -> Result<(), ParseError>
    ensures { MatchResult result (λ _. begins low high buf.now ≡ true)
        (λ e. (begins low high buf.now ≡ false) × (e ≡ parse_error.InvalidPrefix (slice_index buf.now 0))) }
{
    let bytes = buf.chunk();
    if bytes.is_empty() {
        return Ok(());
    }
    let first = bytes[0];
    if first < low || first > high {
        return Err(ParseError::InvalidPrefix(u64::from(first)));
    }
    Ok(())
}

/// An integer, the flags above it, and the string after it.
#[derive(Drop)]
pub(crate) struct IndexAndString {
    pub(crate) flags: u8,
    pub(crate) index: u64,
    pub(crate) value: Vec<u8>,
}

// RFC 9204 4.3: encoder instructions as bytes
/// Takes an integer and a string from the front, whose block has room for `spare` bytes more. A refused read takes nothing.
pub(crate) fn take_index_and_string(
    alloc: Global,
    size: u8,
    buf: &mut SliceCursor<'_>,
    spare: usize,
) -> Result<IndexAndString, ParseError>
    requires least { 1 ≤ size }
    requires most { size ≤ 8 }
    ensures answer { AnswersIndexAndString (behind (integer size buf.old)) (index_and_string size buf.old) buf.old buf.new result }
    ensures rest { IsEndOf buf.old buf.new }
    ensures room { IfOk result (λ parts. HasRoom spare parts.value) }
{
    let mut ahead = SliceCursor::new(buf.chunk());
    let (flags, index) = prefix_int::decode(size, &mut ahead)?;
    let payload = match take_payload(8, &mut ahead) {
        Ok((_, payload)) => payload,
        Err(e) => return Err(ParseError::String(prefix_string::Error::from(e))),
    };
    let value = payload.to_bytes(alloc, spare)?;
    *buf = ahead;
    Ok(IndexAndString {
        flags,
        index,
        value,
    })
}

/// An integer and the flags above it.
#[derive(Clone, Copy)]
pub(crate) struct FlaggedIndex {
    pub(crate) flags: u8,
    pub(crate) index: u64,
}

/// Takes an integer and a string from the front, and reads the string into `value`. None: the string may be long, or the read is
/// refused. Then nothing is taken.
pub(crate) fn take_index_and_short(
    size: u8,
    buf: &mut SliceCursor<'_>,
    value: &mut ShortString,
) -> Option<FlaggedIndex>
    requires least { 1 ≤ size }
    requires most { size ≤ 8 }
    ensures some { IfSome result (λ head. IsIndexAndString (index_and_string size buf.old) head value.new buf.new) }
    ensures none { IfNone result (buf.new ≡ buf.old) }
{
    let mut ahead = SliceCursor::new(buf.chunk());
    let Ok((flags, index)) = prefix_int::decode(size, &mut ahead) else {
        return None;
    };
    let Ok((_, payload)) = take_payload(8, &mut ahead) else {
        return None;
    };
    if !value.read(&payload) {
        return None;
    }
    *buf = ahead;
    Some(FlaggedIndex { flags, index })
}

/// Takes two strings from the front, as a field that takes no memory. It has the flag if the lowest flag is 1. None: the field may be long,
/// its value is empty, or the read is refused. Then nothing is taken.
pub(crate) fn take_short_field(size: u8, buf: &mut SliceCursor<'_>) -> Option<HeaderField>
    requires least { 2 ≤ size }
    requires most { size ≤ 8 }
    ensures some { IfSome result (λ f. AreTwoStrings (two_strings size buf.old) f buf.new) }
    ensures none { IfNone result (buf.new ≡ buf.old) }
{
    let mut ahead = SliceCursor::new(buf.chunk());
    let Ok((flags, first)) = take_payload(size, &mut ahead) else {
        return None;
    };
    let Ok((_, second)) = take_payload(8, &mut ahead) else {
        return None;
    };
    if second.encoded().is_empty() {
        return None;
    }
    let mut value = ShortString::new();
    if !value.read(&second) {
        return None;
    }
    let mut name = ShortString::new();
    if !name.read(&first) {
        return None;
    }
    let field = HeaderField::short(name.as_slice(), value.as_slice())?;
    *buf = ahead;
    Some(field.with_never_indexed(flags % 2 == 1))
}

/// Two strings, one after the other, and the flags above the first.
#[derive(Drop)]
pub(crate) struct TwoStrings {
    pub(crate) flags: u8,
    pub(crate) name: Vec<u8>,
    pub(crate) value: Vec<u8>,
}

/// The error of two strings, if the first is one for which there is no memory.
fn refusal_before(second: &Payload<'_>) -> ParseError
    ensures { result ≡
        (if is_some (string_of second.now) then parse_error.OutOfMemory else parse_error.String string_error.HuffmanDecoding) }
{
    if second.is_string() {
        return ParseError::OutOfMemory;
    }
    ParseError::String(prefix_string::Error::HuffmanDecoding)
}

/// The strings of two payloads, and the flags. If one is no string, this is the answer, whether there is memory or not.
fn both_strings(
    alloc: Global,
    flags: u8,
    first: &Payload<'_>,
    second: &Payload<'_>,
) -> Result<TwoStrings, ParseError>
    ensures { AnswersBothStrings flags first.now second.now result }
{
    let name = match first.to_bytes(alloc, 0) {
        Ok(name) => name,
        Err(prefix_string::Error::OutOfMemory) => return Err(refusal_before(second)),
        Err(e) => return Err(ParseError::String(e)),
    };
    match second.to_bytes(alloc, 0) {
        Ok(value) => Ok(TwoStrings { flags, name, value }),
        Err(prefix_string::Error::OutOfMemory) => Err(ParseError::OutOfMemory),
        Err(e) => Err(ParseError::String(e)),
    }
}

/// Takes two strings from the front. A refused read takes nothing.
pub(crate) fn take_two_strings(
    alloc: Global,
    size: u8,
    buf: &mut SliceCursor<'_>,
) -> Result<TwoStrings, ParseError>
    requires least { 2 ≤ size }
    requires most { size ≤ 8 }
    ensures answer { AnswersTwoStrings (two_strings size buf.old) buf.old buf.new result }
    ensures rest { IsEndOf buf.old buf.new }
{
    let mut ahead = SliceCursor::new(buf.chunk());
    let (flags, first) = match take_payload(size, &mut ahead) {
        Ok(found) => found,
        Err(e) => return Err(ParseError::String(prefix_string::Error::from(e))),
    };
    let second = match take_payload(8, &mut ahead) {
        Ok((_, payload)) => payload,
        Err(e) => return Err(ParseError::String(prefix_string::Error::from(e))),
    };
    let parts = both_strings(alloc, flags, &first, &second)?;
    *buf = ahead;
    Ok(parts)
}

/// Writes an integer and a short string after it to the front of `out`, in their final place, and returns how many bytes they take. None: the
/// integer or the length takes more than two bytes, or the string is to be written as it stands.
#[inline(always)]
fn write_index_and_short(
    size: u8,
    flags: u8,
    index: u64,
    value: &[u8],
    shortest: bool,
    out: &mut [u8],
) -> Option<usize>
    requires least { 1 ≤ size }
    requires most { size ≤ 8 }
    requires flags { flags < 2 ^ (8 - size) }
    requires short { length value.now ≤ 250 }
    requires room { 4 * length value.now + 8 ≤ length out.old }
    ensures within { IfSome result (λ count. count ≤ length out.new) }
    ensures bytes { IfSome result (λ count. take count out.new ≡
        prefixed size flags index ++ string_literal 8 0 (coded shortest value.now)) }
{
    let first = prefix_int::write(size, flags, index, out)?;
    let second = prefix_string::write_short(8, 0, value, shortest, &mut out[first..])?;
    Some(first + second)
}

/// Appends an integer and a short string after it, both in their final place. False: nothing is appended, since they are to be written one
/// after the other. A refusal appends nothing.
#[inline(always)]
fn put_index_and_short(
    size: u8,
    flags: u8,
    index: u64,
    value: &[u8],
    shortest: bool,
    buf: &mut Vec<u8>,
) -> Result<bool, AllocError>
    requires least { 1 ≤ size }
    requires most { size ≤ 8 }
    requires flags { flags < 2 ^ (8 - size) }
    requires short { length value.now ≤ 250 }
    ensures ok { IfOk result (λ both. both ≡ true → buf.new.items ≡
        buf.old.items ++ (prefixed size flags index ++ string_literal 8 0 (coded shortest value.now))) }
    ensures none { IfOk result (λ both. both ≡ false → buf.new.items ≡ buf.old.items) }
    ensures err { OnErr result (buf.new.items ≡ buf.old.items) }
{
    let start = buf.len();
    // the index, the length, at most four bytes of code for each, and what the encoder writes after its last bits
    buf.resize(start.saturating_add(4 * value.len() + 8), 0)?;
    let Some(count) = write_index_and_short(size, flags, index, value, shortest, &mut buf[start..])
    else {
        buf.truncate(start);
        return Ok(false);
    };
    buf.truncate(start + count);
    Ok(true)
}

// RFC 9204 4.5: field lines as bytes
/// Appends an integer and a string after it, which is written as `prefix_string::write` does. A refusal appends nothing.
pub(crate) fn put_index_and_string(
    size: u8,
    flags: u8,
    index: u64,
    value: &[u8],
    shortest: bool,
    buf: &mut Vec<u8>,
) -> Result<(), prefix_string::Error>
    requires least { 1 ≤ size }
    requires most { size ≤ 8 }
    requires flags { flags < 2 ^ (8 - size) }
    requires index { index < 2 ^ 62 }
    requires value { length value.now < 2 ^ 62 }
    ensures memory { IsOkUnless result string_error.OutOfMemory }
    ensures ok { OnOk result
        (buf.new.items ≡ buf.old.items ++ (prefixed size flags index ++ string_literal 8 0 (coded shortest value.now))) }
    ensures err { OnErr result (buf.new.items ≡ buf.old.items) }
{
    if value.len() <= prefix_string::SHORT
        && put_index_and_short(size, flags, index, value, shortest, buf)?
    {
        return Ok(());
    }
    let start = buf.len();
    prefix_int::encode(size, flags, index, buf)?;
    if prefix_string::write(8, 0, value, shortest, buf).is_err() {
        buf.truncate(start);
        return Err(prefix_string::Error::OutOfMemory);
    }
    Ok(())
}

/// Appends two strings, written as `prefix_string::write` does. A refusal appends nothing.
#[inline(always)]
pub(crate) fn put_two_strings(
    size: u8,
    flags: u8,
    name: &[u8],
    value: &[u8],
    shortest: bool,
    buf: &mut Vec<u8>,
) -> Result<(), prefix_string::Error>
    requires least { 2 ≤ size }
    requires most { size ≤ 8 }
    requires flags { flags < 2 ^ (8 - size) }
    requires name { length name.now < 2 ^ 62 }
    requires value { length value.now < 2 ^ 62 }
    ensures memory { IsOkUnless result string_error.OutOfMemory }
    ensures ok { OnOk result
        (buf.new.items ≡ buf.old.items ++
        (string_literal size flags (coded shortest name.now) ++ string_literal 8 0 (coded shortest value.now))) }
    ensures err { OnErr result (buf.new.items ≡ buf.old.items) }
{
    prefix_string::write_two(size, flags, name, value, shortest, buf)
}
