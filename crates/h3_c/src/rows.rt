//! All fields of a header or trailer section, as C gets them at once: their sizes, their flags, and their names and values in order.
ghost use Rattle.std.specs.Prelude.{◌≡◌, ◌≤◌, ◌++◌, true, length, take, drop};
ghost use Rattle.std.specs.List.{list_all};
ghost use Rattle.h3_c.specs.Exported.{GivesFields};
ghost use Rattle.h3_c.specs.Rows.{flags_of, is_short, row_len, size_of, sizes_of};
ghost use Rattle.h3_c.specs.Bits.{bit};

use crate::fields::FieldSize;
use crate::numbers::{OK, ROOM, Told};
use h3_field::{FieldBlock, FieldRef, Fields};

/// Returns all fields, if there is room for all of them, and the flags of as many as have room.
#[tactic(auto, using(crate::proofs::RowLaws::row_is_end_to_end))]
pub(crate) fn fields_at_once(
    block: &FieldBlock,
    sizes: &mut [FieldSize],
    flags: &mut [u8],
    bytes: &mut [u8],
) -> Told
    ensures { GivesFields block.now result sizes.old sizes.new flags.old flags.new bytes.old bytes.new }
{
    let fields = block.fields();
    let len = bytes_in(block);
    if fields.len() > sizes.len() {
        return ROOM;
    }
    if len > bytes.len() {
        return ROOM;
    }
    if !are_short_within(&fields, len) {
        return ROOM;
    }
    put_sizes(&fields, sizes);
    put_flags(&fields, flags);
    put_row(block.bytes(), bytes);
    OK
}

/// How many bytes all names and values have.
#[tactic(auto, using(crate::proofs::RowLaws::row_len_is))]
pub(crate) fn bytes_in(block: &FieldBlock) -> usize
    ensures { result ≡ row_len block.now }
{
    block.bytes().len()
}

// Whether each size is a number of 32 bits. All names and values have at most so many bytes: if that is a number of 32 bits, no field is
// looked at.
#[tactic(auto, using(crate::proofs::RowLaws::short_within))]
fn are_short_within(fields: &Fields<'_>, len: usize) -> bool
    requires { row_len fields.now ≤ len }
    ensures { result ≡ list_all is_short fields.now }
{
    len < 1 << 32 || are_short(fields)
}

// Whether each size is a number of 32 bits.
fn are_short(fields: &Fields<'_>) -> bool
    ensures { result ≡ list_all is_short fields.now }
{
    for place in 0..fields.len() {
        if !is_short(&fields.get(place)) {
            return false;
        }
    }
    true
}

fn is_short(field: &FieldRef<'_>) -> bool
    ensures { result ≡ is_short field.now }
{
    field.name().len() < 1 << 32 && field.value().len() < 1 << 32
}

// Writes the sizes of all fields.
fn put_sizes(fields: &Fields<'_>, sizes: &mut [FieldSize])
    requires count { length fields.now ≤ length sizes.old }
    requires short { list_all is_short fields.now ≡ true }
    ensures { sizes.new ≡ sizes_of fields.now ++ drop (length fields.now) sizes.old }
{
    for place in 0..fields.len() {
        sizes[place] = size_of(&fields.get(place));
    }
}

// The size of a field, whose numbers have 32 bits.
fn size_of(field: &FieldRef<'_>) -> FieldSize
    requires { is_short field.now ≡ true }
    ensures { result ≡ size_of field.now }
{
    FieldSize {
        name: field.name().len() as u32,
        value: field.value().len() as u32,
    }
}

// Writes the flags of the fields, as many as have room.
fn put_flags(fields: &Fields<'_>, flags: &mut [u8])
    ensures { flags.new ≡ take (length flags.old) (flags_of fields.now) ++ drop (length fields.now) flags.old }
{
    for place in 0..fields.len() {
        if place >= flags.len() {
            return;
        }
        flags[place] = flag_of(&fields.get(place));
    }
}

// The flags of a field.
fn flag_of(field: &FieldRef<'_>) -> u8
    ensures { result ≡ bit field.now.never_indexed }
{
    if field.is_never_indexed() { 1 } else { 0 }
}

/// Copies all of these bytes to the front of a buffer.
pub(crate) fn put_row(row: &[u8], bytes: &mut [u8])
    requires { length row.now ≤ length bytes.old }
    ensures { bytes.new ≡ row.now ++ drop (length row.now) bytes.old }
{
    bytes[..row.len()].copy_from_slice(row);
}
