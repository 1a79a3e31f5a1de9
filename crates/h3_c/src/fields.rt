//! Lists of fields as C gives them: the sizes of each name and value, the flags of each field, and all their bytes in one buffer.
ghost use Rattle.std.specs.Prelude.{◌≡◌, ◌<◌, ◌≤◌, [], List, ℕ, length, drop, IfErr, OnOk, OnErr, Some, is_some};
ghost use Rattle.std.specs.List.{list_all};
ghost use Rattle.h3_field.specs.BorrowedFields.{in_front_of};
ghost use Rattle.h3_c.specs.Given.{fields_cut, fields_given, first_flag, is_flags};
ghost use Rattle.h3_c.specs.Giving.{RefusesFields};

use crate::numbers::{ARGUMENT, MEMORY, Told};
use h3_field::BorrowedFields;

/// The flag of a field that is never indexed: `H3_NEVER_INDEX` of the header.
const NEVER_INDEX: u8 = 1;

/// How long a name and its value are, in bytes: `h3_field_size` of the header.
#[repr(C)]
#[derive(Copy, Clone)]
pub struct FieldSize {
    pub name: u32,
    pub value: u32,
}

fn behind(bytes: &'static [u8], count: usize) -> &'static [u8]
    requires { count ≤ length bytes.now }
    ensures { result.now ≡ drop count bytes.now }
{
    &bytes[count..]
}

// Whether the field at that place is never indexed.
#[tactic(auto, using(crate::proofs::Cuts::flag_there, crate::proofs::Cuts::no_flag))]
fn flag_at(flags: &[u8], at: usize) -> bool
    ensures { result ≡ first_flag (drop at flags.now) }
{
    at < flags.len() && flags[at] == NEVER_INDEX
}

// Whether the sizes are those of all bytes.
fn are_sizes_of(sizes: &[FieldSize], bytes: &'static [u8]) -> bool
    ensures { result ≡ is_some (fields_cut sizes.now [] bytes.now) }
{
    let mut rest = bytes;
    for at in 0..sizes.len() {
        let size = sizes[at];
        let len = size.name as usize + size.value as usize;
        if rest.len() < len {
            return false;
        }
        rest = behind(rest, len);
    }
    if rest.len() > 0 {
        return false;
    }
    true
}

// Why a list of one field or more is not made for which there is no room.
#[tactic(auto, using(crate::proofs::Cuts::lacks, crate::proofs::Cuts::no_sizes))]
fn without_room(sizes: &[FieldSize], bytes: &'static [u8]) -> Told
    requires { 0 < length sizes.now }
    ensures { (flags : List ℕ) → RefusesFields (fields_cut sizes.now flags bytes.now) result }
{
    if are_sizes_of(sizes, bytes) {
        return MEMORY;
    }
    ARGUMENT
}

// Whether C knows all flags.
fn are_flags(flags: &[u8]) -> bool
    ensures { result ≡ list_all is_flags flags.now }
{
    for at in 0..flags.len() {
        if flags[at] > NEVER_INDEX {
            return false;
        }
    }
    true
}

/// The fields of all the bytes, if the sizes are theirs and all flags are known. No field is there before. Names and values stay where they
/// lie. After a refusal some fields may be there.
#[tactic(auto, using(crate::proofs::Cuts::all_known, crate::proofs::Cuts::not_known))]
#[inline(always)]
pub(crate) fn given_fields(
    fields: &mut BorrowedFields<'static>,
    sizes: &[FieldSize],
    flags: &[u8],
    bytes: &'static [u8],
) -> Result<(), Told>
    requires { fields.old ≡ in_front_of bytes.now }
    ensures ok { OnOk result (fields_given sizes.now flags.now bytes.now ≡ Some fields.new.fields) }
    ensures err { IfErr result (RefusesFields (fields_given sizes.now flags.now bytes.now)) }
{
    if !are_flags(flags) {
        return Err(ARGUMENT);
    }
    cut_fields(fields, sizes, flags, bytes)
}

// The same of flags that are known.
#[tactic(auto, using(crate::proofs::Cuts::start))]
fn cut_fields(
    fields: &mut BorrowedFields<'static>,
    sizes: &[FieldSize],
    flags: &[u8],
    bytes: &'static [u8],
) -> Result<(), Told>
    requires { fields.old ≡ in_front_of bytes.now }
    ensures ok { OnOk result (fields_cut sizes.now flags.now bytes.now ≡ Some fields.new.fields) }
    ensures err { IfErr result (RefusesFields (fields_cut sizes.now flags.now bytes.now)) }
{
    let Ok(()) = fields.reserve(sizes.len()) else {
        return Err(without_room(sizes, bytes));
    };
    for at in 0..sizes.len() {
        let (name, value) = (sizes[at].name as usize, sizes[at].value as usize);
        if fields.rest_len() < name + value {
            return Err(ARGUMENT);
        }
        let Ok(()) = fields.push(name, value, flag_at(flags, at)) else {
            return Err(without_room(sizes, bytes));
        };
    }
    if fields.rest_len() > 0 {
        return Err(ARGUMENT);
    }
    Ok(())
}
