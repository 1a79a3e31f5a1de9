//! The static table (RFC 9204, appendix A). A hash that tells its names apart and one that tells its entries apart
//! find an entry by one look.
ghost use Rattle.std.specs.Prelude.{◌≡◌, ◌<◌, ◌≤◌, false, length, None, Some, MatchResult, IfSome, slice_get};
ghost use Rattle.h3_field.specs.ErrorTexts.{static_text};
ghost use Rattle.h3_field.specs.Field.{plain_field};
ghost use Rattle.h3_field.specs.StaticTable.{static_table, static_field, static_name, NamesEntry};
ghost use Rattle.h3_field.specs.StaticFound.{IsFound};
ghost use Rattle.h3_field.specs.StaticHash.{name_hash, field_hash};
ghost use Rattle.h3_field.specs.StaticSlots.{name_slot, name_of, name_start, name_part, field_slot, value_of, value_start, value_part};
ghost use Rattle.h3_field.specs.declared.static_.Error.TheVariants.{Unknown};

mod tables;

use crate::field::HeaderField;
use crate::fields::FieldRef;
use crate::same::is_same;
use crate::static_::tables::{FIELD_SLOTS, NAME_SLOTS, NAME_STARTS, NAMES, VALUE_STARTS, VALUES};
use std::fmt;

/// Why the table has no entry.
#[derive(Copy, Clone, PartialEq, Eq, Debug)]
pub enum Error {
    /// The index is 99 or more.
    Unknown(usize),
}

impl fmt::Display for Error {
    ghost output = { λ e. Some (static_text e) };

    fn fmt<W: fmt::Write>(&self, f: &mut fmt::Formatter<W>) -> fmt::Result {
        match self {
            Error::Unknown(_) => write!(f, "Unknown"),
        }
    }
}

impl std::error::Error for Error {}

/// How many entries the table has.
const COUNT: usize = 99;

/// The hash of a name: of its length and of two of its bytes.
fn hash_of_name(name: &[u8]) -> usize
    requires some { 0 < length name.now }
    ensures value { result ≡ name_hash name.now }
    ensures below { result < 256 }
{
    let len = name.len();
    let last = name[len - 1] as usize;
    let late = name[len - 1 - len / 6] as usize;
    (42 * (len % 128) + 29 * last + 12 * late) % 256
}

/// The hash of a field: of its name's hash, and of the length and three bytes of its value.
fn hash_of_field(name_hash: usize, value: &[u8]) -> usize
    requires { name_hash < 256 }
    ensures value { result ≡ field_hash name_hash value.now }
    ensures below { result < 512 }
{
    let len = value.len();
    if len == 0 {
        return 21 * name_hash % 512;
    }
    let last = value[len - 1] as usize;
    let middle = value[len / 2] as usize;
    let early = value[len / 4] as usize;
    (21 * (name_hash + len % 128) + 6 * last + 56 * middle + 55 * early) % 512
}

/// What stands in a slot of the names.
fn name_slot_at(hash: usize) -> usize
    requires { hash < 256 }
    ensures { result ≡ name_slot hash }
{
    let slot = NAME_SLOTS[hash];
    slot as usize
}

/// What stands in a slot of the fields.
fn field_slot_at(hash: usize) -> usize
    requires { hash < 512 }
    ensures { result ≡ field_slot hash }
{
    let slot = FIELD_SLOTS[hash];
    slot as usize
}

/// The place at which a name begins.
fn name_start_at(index: usize) -> usize
    requires { index < 100 }
    ensures { result ≡ name_start index }
{
    let start = NAME_STARTS[index];
    start as usize
}

/// The place at which a value begins.
fn value_start_at(index: usize) -> usize
    requires { index < 100 }
    ensures { result ≡ value_start index }
{
    let start = VALUE_STARTS[index];
    start as usize
}

/// A part of the names.
fn part_of_names(start: usize, end: usize) -> &'static [u8]
    requires order { start ≤ end }
    requires within { end ≤ 1294 }
    ensures { result.now ≡ name_part start end }
{
    &NAMES[start..end]
}

/// A part of the values.
fn part_of_values(start: usize, end: usize) -> &'static [u8]
    requires order { start ≤ end }
    requires within { end ≤ 732 }
    ensures { result.now ≡ value_part start end }
{
    &VALUES[start..end]
}

/// The name of an entry.
fn name_at(index: usize) -> &'static [u8]
    requires { index < 99 }
    ensures { result.now ≡ name_of index }
{
    part_of_names(name_start_at(index), name_start_at(index + 1))
}

/// The value of an entry.
fn value_at(index: usize) -> &'static [u8]
    requires { index < 99 }
    ensures { result.now ≡ value_of index }
{
    part_of_values(value_start_at(index), value_start_at(index + 1))
}

/// What the table has of a field.
#[derive(Copy, Clone)]
pub(crate) enum Found {
    /// The entry of this index is the field.
    Entry(usize),
    /// The entry of this index is the first with its name, and none is the field.
    Name(usize),
    /// No entry has its name.
    Nothing,
}

/// The table of 99 entries that both sides know.
pub struct StaticTable;

impl StaticTable {
    /// The entry of that index.
    #[tactic(auto, using(crate::proofs::StaticEntries::entry_is))]
    pub fn get(index: usize) -> Result<HeaderField, Error>
        ensures { MatchResult result (λ f. slice_get static_table index ≡ Some f) (λ e. (e ≡ Unknown index) × (99 ≤ index)) }
    {
        if index >= COUNT {
            return Err(Error::Unknown(index));
        }
        Ok(HeaderField::from_static(name_at(index), value_at(index)))
    }

    /// The name of the entry of that index.
    pub fn get_name(index: usize) -> Result<&'static [u8], Error>
        ensures { MatchResult result (λ name. NamesEntry index name.now) (λ e. (e ≡ Unknown index) × (99 ≤ index)) }
    {
        if index >= COUNT {
            return Err(Error::Unknown(index));
        }
        Ok(name_at(index))
    }

    /// The index of the entry with that name and value. None for a field with the flag, which is always a literal (RFC 9204, section
    /// 4.5.4).
    pub fn find(field: &HeaderField) -> Option<usize>
        ensures entry { result ≡ static_field field.now }
        ensures below { IfSome result (λ index. index < 99) }
    {
        StaticTable::find_lent(&FieldRef::of(field))
    }

    /// The same for a field that lies elsewhere.
    #[inline(always)]
    #[tactic(auto, using(crate::proofs::StaticEntries::field_flagged, crate::proofs::StaticEntries::field_plain))]
    pub fn find_lent(field: &FieldRef<'_>) -> Option<usize>
        ensures entry { result ≡ static_field field.now }
        ensures below { IfSome result (λ index. index < 99) }
    {
        if field.is_never_indexed() {
            return None;
        }
        StaticTable::find_plain(field.name(), field.value())
    }

    /// The index of the entry with that name and value.
    #[inline(always)]
    fn find_plain(name: &[u8], value: &[u8]) -> Option<usize>
        ensures entry { result ≡ static_field (plain_field name.now value.now) }
        ensures below { IfSome result (λ index. index < 99) }
    {
        if name.is_empty() {
            return None;
        }
        let slot = field_slot_at(hash_of_field(hash_of_name(name), value));
        if slot >= COUNT {
            return None;
        }
        if !is_same(name_at(slot), name) {
            return None;
        }
        if !is_same(value_at(slot), value) {
            return None;
        }
        Some(slot)
    }

    /// Whether an entry may have that name: its hash is that of one.
    #[inline(always)]
    fn may_name(name: &[u8]) -> bool
        ensures { result ≡ false → static_name name.now ≡ None }
    {
        if name.is_empty() {
            return false;
        }
        name_slot_at(hash_of_name(name)) < COUNT
    }

    /// What the table has of a field. For most names that no entry has, one look says so.
    #[inline(always)]
    pub(crate) fn look_up(field: &FieldRef<'_>) -> Found
        ensures { IsFound field.now result }
    {
        if !StaticTable::may_name(field.name()) {
            return Found::Nothing;
        }
        if let Some(index) = StaticTable::find_lent(field) {
            return Found::Entry(index);
        }
        match StaticTable::find_name(field.name()) {
            Some(index) => Found::Name(index),
            None => Found::Nothing,
        }
    }

    /// The least index of an entry with that name.
    #[inline(always)]
    pub fn find_name(name: &[u8]) -> Option<usize>
        ensures entry { result ≡ static_name name.now }
        ensures below { IfSome result (λ index. index < 99) }
    {
        if name.is_empty() {
            return None;
        }
        let slot = name_slot_at(hash_of_name(name));
        if slot >= COUNT {
            return None;
        }
        if !is_same(name_at(slot), name) {
            return None;
        }
        Some(slot)
    }
}
