//! How strings and lists are passed. Numbers have four bytes, the low one first. Strings are a count, and then each
//! string after its length. Lists are a count, and for each list the count of its fields, and the name and the value
//! of each field as strings.
ghost use Rattle.std.specs.Prelude.{◌≡◌, ◌<◌, ◌^◌};
ghost use Rattle.h3_field.specs.Field.{section_size};

use crate::report::Failure;
use h3_field::{HeaderField, SliceCursor};
use std::alloc::Global;
use std::borrow::CowSlice;
use std::marker::Model;

pub(crate) fn take_number(input: &mut SliceCursor<'_>) -> Result<usize, Failure> {
    let bytes = input.chunk();
    if bytes.len() < 4 {
        return Err(Failure::Input);
    }
    let number = u32::from_le_bytes([bytes[0], bytes[1], bytes[2], bytes[3]]);
    input.advance(4);
    Ok(number as usize)
}

pub(crate) fn take_string<'a>(input: &mut SliceCursor<'a>) -> Result<&'a [u8], Failure> {
    let len = take_number(input)?;
    if len > input.remaining() {
        return Err(Failure::Input);
    }
    let string = &input.chunk()[..len];
    input.advance(len);
    Ok(string)
}

/// All strings.
pub(crate) fn strings<'a>(alloc: Global, bytes: &'a [u8]) -> Result<Vec<&'a [u8]>, Failure> {
    let mut input = SliceCursor::new(bytes);
    let count = take_number(&mut input)?;
    let mut strings = Vec::new(alloc);
    for _ in 0..count {
        let string = take_string(&mut input)?;
        strings.push(string)?;
    }
    Ok(strings)
}

/// Fields that an encoder takes: their sizes are in range.
#[derive(Drop)]
pub(crate) struct FieldList {
    fields: Vec<HeaderField>,
}

impl Model for FieldList {
    ghost use Rattle.std.specs.Prelude.{List, ◌<◌, ◌^◌};
    ghost use Rattle.h3_field.specs.Field.{Field, section_size};

    ghost Value = { List Field };

    ghost view = { λ l. l.fields.items };

    ghost invariant = { λ l. section_size l.fields.items < 2 ^ 62 };
}

impl FieldList {
    pub(crate) fn fields(&self) -> &[HeaderField]
        ensures value { result.now ≡ self.now }
        ensures size { section_size result.now < 2 ^ 62 }
    {
        self.fields.as_slice()
    }
}

fn take_owned(
    alloc: Global,
    input: &mut SliceCursor<'_>,
) -> Result<CowSlice<'static, u8>, Failure> {
    let string = take_string(input)?;
    Ok(CowSlice::Owned(Vec::from_slice(alloc, string)?))
}

fn take_field(alloc: Global, input: &mut SliceCursor<'_>) -> Result<HeaderField, Failure> {
    let name = take_owned(alloc, input)?;
    let value = take_owned(alloc, input)?;
    Ok(HeaderField::new(name, value))
}

fn take_list(alloc: Global, input: &mut SliceCursor<'_>) -> Result<FieldList, Failure> {
    let count = take_number(input)?;
    let mut fields = Vec::new(alloc);
    let mut size: u64 = 0;
    for _ in 0..count {
        let field = take_field(alloc, input)?;
        let own_size = field.mem_size() as u64;
        if own_size >= (1 << 62) - size {
            return Err(Failure::Input);
        }
        size += own_size;
        fields.push(field)?;
    }
    Ok(FieldList { fields })
}

/// Lists after their count.
pub(crate) fn take_lists(
    alloc: Global,
    input: &mut SliceCursor<'_>,
) -> Result<Vec<FieldList>, Failure> {
    let count = take_number(input)?;
    let mut lists = Vec::new(alloc);
    for _ in 0..count {
        let list = take_list(alloc, input)?;
        lists.push(list)?;
    }
    Ok(lists)
}

/// All lists.
pub(crate) fn field_lists(alloc: Global, bytes: &[u8]) -> Result<Vec<FieldList>, Failure> {
    take_lists(alloc, &mut SliceCursor::new(bytes))
}
