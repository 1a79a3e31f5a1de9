//! Field sections that name no dynamic entry, decoded (RFC 9204, section 4.5).
ghost use Rattle.std.specs.Prelude.{◌≡◌, ◌<◌, ◌≤◌, [], true, false, length, OnOk, IfSome, IfNone, MatchResult, ◌∷◌, ◌++◌, vec_capacity};
ghost use Rattle.h3_field.specs.Ends.{IsEndOf};
ghost use Rattle.h3_field.specs.Shapes.{begins};
ghost use Rattle.h3_field.specs.Section.{AnswersSection, Fields};
ghost use Rattle.h3_field.specs.IntegerReading.{integer};
ghost use Rattle.h3_field.specs.SectionAnswer.{AnswersField, HasField, IsRefusal, IsNameRefusal, IsNamedRefusal};

use crate::block::{HeaderBlockField, HeaderPrefix, Indexed, Literal, LiteralWithNameRef, NameRef};
use crate::cursor::SliceCursor;
use crate::decoder_error::DecoderError;
use crate::field::HeaderField;
use crate::parse_error::ParseError;
use crate::prefix_int;
use crate::prefix_string::ShortString;
use crate::static_::StaticTable;
use std::alloc::{AllocError, Global};
use std::borrow::CowSlice;

/// A decoded field section.
#[derive(Drop)]
pub struct Decoded {
    /// The fields, in order. A field whose line had the bit N has the flag (RFC 9204, section 4.5.4).
    pub fields: Vec<HeaderField>,
    /// Whether the required insert count was above 0.
    pub dyn_ref: bool,
    /// The sum of the fields' sizes, which stops at the greatest number.
    pub mem_size: u64,
}

/// The field of an indexed line.
fn take_indexed(buf: &mut SliceCursor<'_>) -> Result<HeaderField, DecoderError>
    requires some { 0 < length buf.old }
    requires own { begins 128 255 buf.old ≡ true }
    ensures { AnswersField buf.old buf.new result }
{
    match Indexed::decode(buf)? {
        Indexed::Static(index) => Ok(StaticTable::get(index)?),
        Indexed::Dynamic(_) => Err(DecoderError::MissingRefs(0)),
    }
}

/// Why a line is refused for whose value there is no memory, by the name in front of it.
fn refusal_of_name(buf: &SliceCursor<'_>) -> DecoderError
    ensures { IsNameRefusal (integer 4 buf.now) result }
{
    let mut ahead = SliceCursor::new(buf.chunk());
    match prefix_int::decode(4, &mut ahead) {
        Ok((flags, index)) => {
            if flags % 2 == 1 {
                match StaticTable::get_name(index as usize) {
                    Ok(_) => DecoderError::OutOfMemory,
                    Err(e) => DecoderError::InvalidStaticIndex(e),
                }
            } else {
                DecoderError::MissingRefs(0)
            }
        }
        Err(_) => DecoderError::OutOfMemory,
    }
}

/// Why a line with a name reference is refused. Its name is judged before memory is.
fn refusal_of_named(buf: &SliceCursor<'_>, e: ParseError) -> DecoderError
    ensures { IsNamedRefusal (integer 4 buf.now) e result }
{
    match e {
        ParseError::OutOfMemory => refusal_of_name(buf),
        _ => DecoderError::from(e),
    }
}

/// The field of a line with a literal value and the name of a static entry, if it takes no memory. None: it may take some, or the line is
/// refused. Then nothing is taken.
fn take_short_named(buf: &mut SliceCursor<'_>) -> Option<HeaderField>
    requires some { 0 < length buf.old }
    requires own { begins 64 127 buf.old ≡ true }
    ensures some { IfSome result (λ f. HasField buf.old f buf.new) }
    ensures none { IfNone result (buf.new ≡ buf.old) }
{
    let mut ahead = SliceCursor::new(buf.chunk());
    let mut value = ShortString::new();
    let head = LiteralWithNameRef::decode_short(&mut ahead, &mut value)?;
    let NameRef::Static(index) = head.0 else {
        return None;
    };
    let Ok(name) = StaticTable::get_name(index) else {
        return None;
    };
    let field = HeaderField::short_with_static_name(name, value.as_slice())?;
    *buf = ahead;
    Some(field.with_never_indexed(head.1))
}

/// The field of a line with a literal value and the name of an entry.
fn take_named(alloc: Global, buf: &mut SliceCursor<'_>) -> Result<HeaderField, DecoderError>
    requires some { 0 < length buf.old }
    requires own { begins 64 127 buf.old ≡ true }
    ensures { AnswersField buf.old buf.new result }
{
    match take_short_named(buf) {
        Some(field) => Ok(field),
        None => take_long_named(alloc, buf),
    }
}

/// The same with memory for the value.
fn take_long_named(alloc: Global, buf: &mut SliceCursor<'_>) -> Result<HeaderField, DecoderError>
    requires some { 0 < length buf.old }
    requires own { begins 64 127 buf.old ≡ true }
    ensures { AnswersField buf.old buf.new result }
{
    match LiteralWithNameRef::decode(alloc, buf) {
        Ok(
            LiteralWithNameRef::Static {
                index,
                value,
                never_indexed,
            },
        ) => match StaticTable::get_name(index) {
            Ok(name) => {
                Ok(HeaderField::with_static_name(name, value).with_never_indexed(never_indexed))
            }
            Err(e) => Err(DecoderError::InvalidStaticIndex(e)),
        },
        Ok(LiteralWithNameRef::Dynamic { .. }) => Err(DecoderError::MissingRefs(0)),
        Err(e) => Err(refusal_of_named(buf, e)),
    }
}

/// The field of a line with a literal name and value.
fn take_literal(alloc: Global, buf: &mut SliceCursor<'_>) -> Result<HeaderField, DecoderError>
    requires some { 0 < length buf.old }
    requires own { begins 32 63 buf.old ≡ true }
    ensures { AnswersField buf.old buf.new result }
{
    match Literal::decode_short(buf) {
        Some(field) => Ok(field),
        None => take_long_literal(alloc, buf),
    }
}

/// The same with memory for both.
fn take_long_literal(alloc: Global, buf: &mut SliceCursor<'_>) -> Result<HeaderField, DecoderError>
    requires some { 0 < length buf.old }
    requires own { begins 32 63 buf.old ≡ true }
    ensures { AnswersField buf.old buf.new result }
{
    let line = Literal::decode(alloc, buf)?;
    let field = HeaderField::new(CowSlice::Owned(line.name), CowSlice::Owned(line.value));
    Ok(field.with_never_indexed(line.never_indexed))
}

/// The field of the line at the front, if it names no dynamic entry.
fn take_field(alloc: Global, buf: &mut SliceCursor<'_>) -> Result<HeaderField, DecoderError>
    requires { 0 < length buf.old }
    ensures { AnswersField buf.old buf.new result }
{
    match HeaderBlockField::decode(buf.chunk()[0]) {
        HeaderBlockField::Indexed => take_indexed(buf),
        HeaderBlockField::LiteralWithNameRef => take_named(alloc, buf),
        HeaderBlockField::Literal => take_literal(alloc, buf),
        _ => Err(DecoderError::MissingRefs(0)),
    }
}

/// How many fields get room at first: most sections have no more, and the list of their fields need not grow. Sixteen are the most
/// that fit 1,032 bytes, up to which an allocator of the C library keeps blocks at hand.
const FIRST_ROOM: usize = 16;

/// Adds a field after which so many bytes are left: each may be a field. A list that has the room is not given more.
fn keep(fields: &mut Vec<HeaderField>, field: HeaderField, left: usize) -> Result<(), AllocError>
    ensures ok { OnOk result (fields.new.items ≡ fields.old.items ++ field ∷ []) }
    ensures room { vec_capacity fields.old ≤ vec_capacity fields.new }
{
    if fields.is_empty() {
        fields.reserve(left.min(FIRST_ROOM - 1) + 1)?;
    }
    fields.push(field)?;
    Ok(())
}

/// Reads the prefix and the lines of a section, to the end of `buf`. It adds their fields to an empty list, as long as they sum to at most
/// `max_size`. Answers their sum. A refused read takes nothing, and may leave fields in the list.
fn list_section(
    alloc: Global,
    buf: &mut SliceCursor<'_>,
    max_size: u64,
    fields: &mut Vec<HeaderField>,
) -> Result<u64, DecoderError>
    requires { fields.old.items ≡ [] }
    ensures answer { MatchResult result
        (λ sum. AnswersSection max_size buf.old (Fields fields.new.items sum) × (buf.new ≡ []))
        (λ e. IsRefusal max_size buf.old e × (buf.new ≡ buf.old)) }
    ensures rest { IsEndOf buf.old buf.new }
    ensures room { vec_capacity fields.old ≤ vec_capacity fields.new }
{
    let mut ahead = SliceCursor::new(buf.chunk());
    HeaderPrefix::decode(&mut ahead)?;
    let mut mem_size: u64 = 0;
    // (the label names the loop in its proof)
    'lines: while ahead.remaining() > 0 {
        let field = take_field(alloc, &mut ahead)?;
        mem_size = mem_size.saturating_add(field.mem_size() as u64);
        if mem_size > max_size {
            return Err(DecoderError::HeaderTooLong(mem_size));
        }
        keep(fields, field, ahead.remaining())?;
    }
    *buf = ahead;
    Ok(mem_size)
}

/// Decodes a field section that names no dynamic entry, to the end of `buf`. It stops at the first field that makes the sum of the sizes
/// pass `max_size`. A refused read takes nothing. `OutOfMemory` is returned only if the first line is a field. A caller of many sections
/// may keep one list for them all: `decode_stateless_into`.
pub fn decode_stateless(
    alloc: Global,
    buf: &mut SliceCursor<'_>,
    max_size: u64,
) -> Result<Decoded, DecoderError>
    ensures answer { MatchResult result
        (λ d. AnswersSection max_size buf.old (Fields d.fields.items d.mem_size) × (d.dyn_ref ≡ false) × (buf.new ≡ []))
        (λ e. IsRefusal max_size buf.old e × (buf.new ≡ buf.old)) }
    ensures rest { IsEndOf buf.old buf.new }
{
    let mut fields = Vec::new(alloc);
    match decode_stateless_into(alloc, buf, max_size, &mut fields) {
        Ok(mem_size) => Ok(Decoded {
            fields,
            dyn_ref: false,
            mem_size,
        }),
        Err(e) => {
            drop(fields);
            Err(e)
        }
    }
}

/// Decodes a field section that names no dynamic entry, to the end of `buf` (RFC 9204, section 4.5), as `decode_stateless`, into a list
/// whose memory serves again. The fields that it holds are freed first. Its room is kept, which is that of the longest section so far. It
/// answers the sum of the sizes of the fields, in bytes, which stops at the greatest number (RFC 9204, section 3.2.1).
///
/// `HeaderTooLong(sum)`: the first fields sum to that, more than `max_size`; no line after them is read. `MissingRefs`: a line names a
/// dynamic entry. `OutOfMemory`: it may be tried again; it is returned only if the first line is a field. Every other refusal is of a bad
/// section. A refused read takes nothing, and leaves the list empty.
pub fn decode_stateless_into(
    alloc: Global,
    buf: &mut SliceCursor<'_>,
    max_size: u64,
    fields: &mut Vec<HeaderField>,
) -> Result<u64, DecoderError>
    ensures answer { MatchResult result
        (λ sum. AnswersSection max_size buf.old (Fields fields.new.items sum) × (buf.new ≡ []))
        (λ e. IsRefusal max_size buf.old e × (buf.new ≡ buf.old) × (fields.new.items ≡ [])) }
    ensures rest { IsEndOf buf.old buf.new }
    ensures room { vec_capacity fields.old ≤ vec_capacity fields.new }
{
    fields.clear();
    match list_section(alloc, buf, max_size, fields) {
        Ok(mem_size) => Ok(mem_size),
        Err(e) => {
            fields.clear();
            Err(e)
        }
    }
}
