//! Fields that are read by their places, in a list or in a block.
ghost use Rattle.std.specs.Prelude.{◌≡◌, ◌<◌, ◌^◌, ◌-◌, ◌+◌, min, length, slice_get, Some, IfOk, OnErr};
ghost use Rattle.h3_field.specs.Field.{plain_field, field_size, section_size};
ghost use Rattle.h3_field.specs.Secret.{is_credential, is_cookie, is_secret};
ghost use Rattle.h3_field.specs.ReadBack.{IsFieldOfBytes};
ghost use Rattle.h3_field.specs.FieldBlock.{fields_at, IsBlock};

use crate::field::{ESTIMATED_OVERHEAD_BYTES, HeaderField};
use crate::field_block::FieldPlace;
use crate::octets::are_bytes;
use crate::same::is_same;
use std::alloc::{AllocError, Global};
use std::marker::Model;

/// A name and a value that lie elsewhere, and the flag of the field (`HeaderField::is_never_indexed`). A contract sees the two byte lists
/// and the flag.
#[derive(Drop)]
pub struct FieldRef<'a> {
    name: &'a [u8],
    value: &'a [u8],
    never_indexed: bool,
}

impl<'a> Model for FieldRef<'a> {
    ghost use Rattle.h3_field.specs.Field.{Field};

    ghost Value = { Field };

    ghost view = { λ f. record { name = f.name.now; value = f.value.now; never_indexed = f.never_indexed } };
}

impl<'a> FieldRef<'a> {
    /// A name and a value, without the flag.
    pub fn new(name: &'a [u8], value: &'a [u8]) -> FieldRef<'a>
        ensures { result ≡ plain_field name.now value.now }
    {
        FieldRef {
            name,
            value,
            never_indexed: false,
        }
    }

    /// The same with that flag.
    #[inline(always)]
    pub fn with_never_indexed(mut self, never_indexed: bool) -> FieldRef<'a>
        ensures { result ≡ record { name = self.entry.name; value = self.entry.value; never_indexed = never_indexed } }
    {
        self.never_indexed = never_indexed;
        self
    }

    /// Those of a field.
    pub fn of(field: &'a HeaderField) -> FieldRef<'a>
        ensures { result ≡ field.now }
    {
        FieldRef {
            name: field.name(),
            value: field.value(),
            never_indexed: field.is_never_indexed(),
        }
    }

    /// Whether the line of the field had the bit N, or is to have it (RFC 9204, section 4.5.4).
    pub fn is_never_indexed(&self) -> bool
        ensures { result ≡ self.now.never_indexed }
    {
        self.never_indexed
    }

    /// The bytes of the name.
    pub fn name(&self) -> &'a [u8]
        ensures { result.now ≡ self.now.name }
    {
        self.name
    }

    /// The bytes of the value.
    pub fn value(&self) -> &'a [u8]
        ensures { result.now ≡ self.now.value }
    {
        self.value
    }

    // RFC 9204 7.1.3: guarded secrets
    /// Whether it names a secret: an `authorization` or `proxy-authorization`, or a `cookie` or `set-cookie` with a value of fewer than 20
    /// bytes, which may be guessed. Names are compared whole.
    #[inline(always)]
    pub fn is_secret(&self) -> bool
        ensures { result ≡ is_secret self.now }
    {
        is_credential(self.name) || (is_cookie(self.name) && self.value.len() < 20)
    }

    /// The field with copies of both, and with the flag, as `HeaderField::copied` makes it.
    pub fn copied(&self, alloc: Global) -> Result<HeaderField, AllocError>
        ensures ok { IfOk result (λ f. f ≡ self.now) }
        ensures err { OnErr result (0 < length self.now.name + length self.now.value) }
    {
        let field = HeaderField::copied(alloc, self.name, self.value)?;
        Ok(field.with_never_indexed(self.never_indexed))
    }

    /// Each item of name and value is a byte. It does nothing: a proof that needs the fact calls it.
    pub fn are_bytes(&self)
        ensures { IsFieldOfBytes self.now }
    {
        are_bytes(self.name);
        are_bytes(self.value);
    }

    /// The bytes of name and value and 32 more, or the greatest number if the sum passes it (RFC 9204, section 3.2.1).
    pub fn mem_size(&self) -> usize
        ensures { result ≡ min (2 ^ 64 - 1) (field_size self.now) }
    {
        self.name
            .len()
            .saturating_add(self.value.len())
            .saturating_add(ESTIMATED_OVERHEAD_BYTES)
    }
}

// Whether the values of that name are credentials.
#[inline(always)]
fn is_credential(name: &[u8]) -> bool
    ensures { result ≡ is_credential name.now }
{
    is_same(name, b"authorization") || is_same(name, b"proxy-authorization")
}

// Whether the values of that name are cookies.
#[inline(always)]
fn is_cookie(name: &[u8]) -> bool
    ensures { result ≡ is_cookie name.now }
{
    is_same(name, b"cookie") || is_same(name, b"set-cookie")
}

/// Fields that lie in a list or in a block. A contract sees the list.
#[derive(Drop)]
pub struct Fields<'a> {
    row: Row<'a>,
}

/// Where they lie.
#[derive(Copy, Clone)]
pub(crate) enum Row<'a> {
    List(&'a [HeaderField]),
    Block(&'a [FieldPlace], &'a [u8]),
}

impl<'a> Model for Fields<'a> {
    ghost use Rattle.std.specs.Prelude.{List};
    ghost use Rattle.h3_field.specs.Field.{Field};
    ghost use Rattle.h3_field.specs.FieldRow.{fields_in_row, IsRow};

    ghost Value = { List Field };

    ghost view = { λ f. fields_in_row f.row };

    ghost invariant = { λ f. IsRow f.row };
}

impl<'a> Fields<'a> {
    /// Those of a list.
    pub fn of(fields: &'a [HeaderField]) -> Fields<'a>
        ensures { result ≡ fields.now }
    {
        Fields {
            row: Row::List(fields),
        }
    }

    // Those of a block.
    pub(crate) fn of_block(places: &'a [FieldPlace], bytes: &'a [u8]) -> Fields<'a>
        requires { IsBlock bytes.now places.now }
        ensures { result ≡ fields_at bytes.now places.now }
    {
        Fields {
            row: Row::Block(places, bytes),
        }
    }

    /// How many there are.
    pub fn len(&self) -> usize
        ensures { result ≡ length self.now }
    {
        match self.row {
            Row::List(fields) => fields.len(),
            Row::Block(places, _) => places.len(),
        }
    }

    /// The field at a place, counted from 0.
    #[inline(always)]
    pub fn get(&self, place: usize) -> FieldRef<'a>
        requires { place < length self.now }
        ensures { slice_get self.now place ≡ Some result }
    {
        match self.row {
            Row::List(fields) => listed(fields, place),
            Row::Block(places, bytes) => placed(places, bytes, place),
        }
    }
}

// The field at a place of a list.
#[inline(always)]
fn listed<'a>(fields: &'a [HeaderField], place: usize) -> FieldRef<'a>
    requires { place < length fields.now }
    ensures { slice_get fields.now place ≡ Some result }
{
    FieldRef::of(&fields[place])
}

// The field at a place of a block.
#[inline(always)]
fn placed<'a>(places: &'a [FieldPlace], bytes: &'a [u8], place: usize) -> FieldRef<'a>
    requires block { IsBlock bytes.now places.now }
    requires place { place < length places.now }
    ensures { slice_get (fields_at bytes.now places.now) place ≡ Some result }
{
    let at = places[place];
    FieldRef {
        name: &bytes[at.start..at.middle],
        value: &bytes[at.middle..at.end],
        never_indexed: at.never_indexed,
    }
}

/// The size of a field section that is not compressed (RFC 9114, section 4.2.2): the bytes of each name and value, and 32 more for each
/// field. If the sum passes the greatest number, it is that number. Fields of a block are counted at once.
pub fn section_size(fields: &Fields<'_>) -> u64
    ensures { result ≡ min (2 ^ 64 - 1) (section_size fields.now) }
{
    match fields.row {
        Row::List(fields) => listed_size(fields),
        Row::Block(places, bytes) => placed_size(places, bytes),
    }
}

// That of a list.
fn listed_size(fields: &[HeaderField]) -> u64
    ensures { result ≡ min (2 ^ 64 - 1) (section_size fields.now) }
{
    let mut size: u64 = 0;
    // (the label names the loop in its proof)
    'fields: for field in fields {
        size = size.saturating_add(field.mem_size() as u64);
    }
    size
}

// That of a block, which has the bytes of all names and values.
#[tactic(auto, using(crate::proofs::BlockSizes::block_size))]
fn placed_size(places: &[FieldPlace], bytes: &[u8]) -> u64
    requires { IsBlock bytes.now places.now }
    ensures { result ≡ min (2 ^ 64 - 1) (section_size (fields_at bytes.now places.now)) }
{
    let overhead = (ESTIMATED_OVERHEAD_BYTES as u64).saturating_mul(places.len() as u64);
    overhead.saturating_add(bytes.len() as u64)
}
