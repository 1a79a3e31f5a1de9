//! A field of two byte strings, static or owned, and the flag of one that no table keeps.
ghost use Rattle.std.specs.Prelude.{◌≡◌, ◌++◌, ◌∷◌, codes, string_bytes, IfOk, OnErr, IfSome, IfNone, ◌⊎◌, Some, encode_utf8_all, nat_eq};
ghost use Rattle.std.specs.Prelude.{min, ◌^◌, ◌-◌, ◌+◌, ◌<◌, ◌≤◌, length, take, drop};
ghost use Rattle.std.specs.Cow.{cow_slice_items};
ghost use Rattle.std.specs.Vec.{vec_len, vec_capacity};
ghost use Rattle.h3_field.specs.Field.{plain_field, field_size, section_size};
ghost use Rattle.h3_field.specs.FieldForm.{part_bytes};
ghost use Rattle.h3_field.specs.ReadBack.{IsFieldOfBytes};
ghost use Rattle.std.specs.Hash as fed;
ghost use Rattle.std.specs.Cmp.Lexicographic.{pointwise};
ghost use Rattle.std.specs.Ordering.{on, eq_of_both};
ghost use Rattle.std.specs.Cmp.Rules.{comparing, hashing};
ghost use Rattle.std.proofs.Common.{rules};
ghost use Rattle.bstr.specs.Utf8.{lossy_chars};

use crate::octets::are_bytes;
use crate::part::Part;
use crate::short::{ShortField, ShortValue};
use bstr::{BStr, ByteVec};
use std::alloc::{AllocError, Global};
use std::borrow::CowSlice;
use std::fmt;
use std::hash::{Hash, Hasher};
use std::marker::Model;

/// What a field counts beside its bytes (RFC 9204, section 3.2.1).
pub const ESTIMATED_OVERHEAD_BYTES: usize = 32;

/// A name and a value, in 64 bytes beside the memory that it owns: a short field owns none. And whether its line has the bit N (RFC 9204,
/// section 4.5.4), which no constructor sets. A contract sees the two byte lists and the flag.
#[derive(Drop)]
pub struct HeaderField {
    form: Form,
    never_indexed: bool,
}

// A short field takes no more room than the longest form does, and the flag takes eight bytes.
const _: () = prove!(size_of::<HeaderField>() == 64);

/// How the bytes of a field's name and value are stored.
#[derive(Drop)]
pub(crate) enum Form {
    Static(&'static [u8], &'static [u8]),
    StaticName(&'static [u8], Vec<u8>),
    StaticValue(Vec<u8>, &'static [u8]),
    Owned(Vec<u8>, Vec<u8>),
    /// The name and then the value in one block, and the length of the name.
    Block(Vec<u8>, usize),
    ShortValue(ShortValue, &'static [u8]),
    /// A name, and a value of at least one byte.
    Short(ShortField),
}

impl Model for HeaderField {
    ghost use Rattle.h3_field.specs.Field.{Field, flagged};

    ghost Value = { Field };

    ghost use Rattle.h3_field.specs.FieldForm.{field_in, IsForm};

    ghost view = { λ f. flagged (field_in f.form) f.never_indexed };

    ghost invariant = { λ f. IsForm f.form };
}

/// Puts bytes in place of as many at the front.
fn set_front(room: &mut [u8], bytes: &[u8])
    requires { length bytes.now ≤ length room.old }
    ensures { room.new ≡ bytes.now ++ drop (length bytes.now) room.old }
{
    room[..bytes.len()].copy_from_slice(bytes);
}

impl HeaderField {
    /// The field with that name and value, as bytes. Static ones are not copied. It does not ask whether HTTP allows them.
    pub fn new(name: CowSlice<'static, u8>, value: CowSlice<'static, u8>) -> HeaderField
        ensures { result ≡ plain_field (cow_slice_items name.entry) (cow_slice_items value.entry) }
    {
        let form = match name {
            CowSlice::Borrowed(name) => match value {
                CowSlice::Borrowed(value) => Form::Static(name, value),
                CowSlice::Owned(value) => Form::StaticName(name, value),
            },
            CowSlice::Owned(name) => match value {
                CowSlice::Borrowed(value) => Form::StaticValue(name, value),
                CowSlice::Owned(value) => Form::Owned(name, value),
            },
        };
        HeaderField {
            form,
            never_indexed: false,
        }
    }

    /// A static name and a static value. It takes no memory.
    pub fn from_static(name: &'static [u8], value: &'static [u8]) -> HeaderField
        ensures { result ≡ plain_field name.now value.now }
    {
        HeaderField {
            form: Form::Static(name, value),
            never_indexed: false,
        }
    }

    /// A static name and an owned value.
    pub fn with_static_name(name: &'static [u8], value: Vec<u8>) -> HeaderField
        ensures { result ≡ plain_field name.now value.items }
    {
        HeaderField {
            form: Form::StaticName(name, value),
            never_indexed: false,
        }
    }

    /// A copy of the name in front of the value, in the value's block. It takes memory only if that block has no room for the name.
    pub fn with_copied_name(name: &[u8], value: Vec<u8>) -> Result<HeaderField, AllocError>
        ensures ok { IfOk result (λ f. f ≡ plain_field name.now value.items) }
        ensures err { OnErr result (vec_capacity value < vec_len value + length name.now) }
    {
        let mut block = value;
        let len = block.len();
        block.extend_from_slice(name)?;
        block.copy_within(..len, name.len());
        set_front(block.as_mut_slice(), name);
        Ok(HeaderField::from_block(block, name.len()))
    }

    /// A field in one block: the first bytes, as many as the length, are the name, and those after them the value.
    pub fn from_block(bytes: Vec<u8>, name_length: usize) -> HeaderField
        requires { name_length ≤ length bytes.items }
        ensures { result ≡ plain_field (take name_length bytes.items) (drop name_length bytes.items) }
    {
        HeaderField {
            form: Form::Block(bytes, name_length),
            never_indexed: false,
        }
    }

    /// A static name and a copy of a value. It takes no memory if the value has at most 36 bytes.
    pub fn with_copied_value(
        alloc: Global,
        name: &'static [u8],
        value: &[u8],
    ) -> Result<HeaderField, AllocError>
        ensures ok { IfOk result (λ f. f ≡ plain_field name.now value.now) }
        ensures err { OnErr result (36 < length value.now) }
    {
        if let Some(value) = ShortValue::of(value) {
            return Ok(HeaderField {
                form: Form::ShortValue(value, name),
                never_indexed: false,
            });
        }
        let value = Vec::from_slice(alloc, value)?;
        Ok(HeaderField::with_static_name(name, value))
    }

    /// A static name and a copy of a value, which take no memory. None: the value is too long.
    pub fn short_with_static_name(name: &'static [u8], value: &[u8]) -> Option<HeaderField>
        ensures some { IfSome result (λ f. f ≡ plain_field name.now value.now) }
        ensures none { IfNone result (36 < length value.now) }
    {
        let value = ShortValue::of(value)?;
        Some(HeaderField {
            form: Form::ShortValue(value, name),
            never_indexed: false,
        })
    }

    /// Copies of a name and a value, which take no memory. None: the value is empty, or they are too long.
    pub fn short(name: &[u8], value: &[u8]) -> Option<HeaderField>
        ensures some { IfSome result (λ f. f ≡ plain_field name.now value.now) }
        ensures none { IfNone result ((length value.now ≡ 0) ⊎ (50 < length name.now + length value.now)) }
    {
        if value.is_empty() {
            return None;
        }
        let field = ShortField::of(name, value)?;
        Some(HeaderField {
            form: Form::Short(field),
            never_indexed: false,
        })
    }

    /// A field of copies: a short one takes no memory, and any other lies in one block. It takes no memory if both are empty.
    pub fn copied(alloc: Global, name: &[u8], value: &[u8]) -> Result<HeaderField, AllocError>
        ensures ok { IfOk result (λ f. f ≡ plain_field name.now value.now) }
        ensures err { OnErr result (0 < length name.now + length value.now) }
    {
        if name.is_empty() && value.is_empty() {
            return Ok(HeaderField::from_static(b"", b""));
        }
        if let Some(field) = HeaderField::short(name, value) {
            return Ok(field);
        }
        let mut bytes = Vec::with_capacity(alloc, name.len().saturating_add(value.len()))?;
        bytes.extend_from_slice(name)?;
        bytes.extend_from_slice(value)?;
        Ok(HeaderField::from_block(bytes, name.len()))
    }

    /// The field with that flag. With it an encoder writes a literal with the bit N, and inserts nothing (RFC 9204, section 7.1.3), and so
    /// does every hop that follows the RFC.
    #[inline(always)]
    pub fn with_never_indexed(mut self, never_indexed: bool) -> HeaderField
        ensures { result ≡ record { name = self.name; value = self.value; never_indexed = never_indexed } }
    {
        self.never_indexed = never_indexed;
        self
    }

    /// Whether the line of the field had the bit N, or is to have it (RFC 9204, section 4.5.4).
    pub fn is_never_indexed(&self) -> bool
        ensures { result ≡ self.now.never_indexed }
    {
        self.never_indexed
    }

    /// The field with another value, and with its flag. A name that is not static is copied.
    pub fn with_value(
        &self,
        alloc: Global,
        value: CowSlice<'static, u8>,
    ) -> Result<HeaderField, AllocError>
        ensures { IfOk result
            (λ f. f ≡ record { name = self.now.name; value = cow_slice_items value.entry; never_indexed = self.now.never_indexed }) }
    {
        let name = match self.name_part() {
            Part::Static(name) => CowSlice::Borrowed(name),
            Part::Lent(name) => CowSlice::Owned(Vec::from_slice(alloc, name)?),
        };
        Ok(HeaderField::new(name, value).with_never_indexed(self.never_indexed))
    }

    /// The name and the value. Only a field in one block and a short one take memory, for copies of what has no block of its own.
    pub fn into_inner(
        self,
        alloc: Global,
    ) -> Result<(CowSlice<'static, u8>, CowSlice<'static, u8>), AllocError>
        ensures name { IfOk result (λ parts. cow_slice_items parts.0 ≡ self.name) }
        ensures value { IfOk result (λ parts. cow_slice_items parts.1 ≡ self.value) }
        ensures err { OnErr result (0 < length self.value) }
    {
        match self.form {
            Form::Static(name, value) => Ok((CowSlice::Borrowed(name), CowSlice::Borrowed(value))),
            Form::StaticName(name, value) => {
                Ok((CowSlice::Borrowed(name), CowSlice::Owned(value)))
            }
            Form::StaticValue(name, value) => {
                Ok((CowSlice::Owned(name), CowSlice::Borrowed(value)))
            }
            Form::Owned(name, value) => Ok((CowSlice::Owned(name), CowSlice::Owned(value))),
            Form::Block(bytes, name_length) => split(alloc, bytes, name_length),
            Form::ShortValue(value, name) => {
                Ok((CowSlice::Borrowed(name), copy_of(alloc, value.as_slice())?))
            }
            Form::Short(field) => {
                let name = copy_of(alloc, field.name())?;
                Ok((name, copy_of(alloc, field.value())?))
            }
        }
    }

    /// The bytes of the name.
    pub fn name(&self) -> &[u8]
        ensures { result.now ≡ self.now.name }
    {
        match &self.form {
            Form::Static(name, _) => *name,
            Form::StaticName(name, _) => *name,
            Form::StaticValue(name, _) => name.as_slice(),
            Form::Owned(name, _) => name.as_slice(),
            Form::Block(bytes, name_length) => &bytes.as_slice()[..*name_length],
            Form::ShortValue(_, name) => *name,
            Form::Short(field) => field.name(),
        }
    }

    /// The bytes of the value.
    pub fn value(&self) -> &[u8]
        ensures { result.now ≡ self.now.value }
    {
        match &self.form {
            Form::Static(_, value) => *value,
            Form::StaticName(_, value) => value.as_slice(),
            Form::StaticValue(_, value) => *value,
            Form::Owned(_, value) => value.as_slice(),
            Form::Block(bytes, name_length) => &bytes.as_slice()[*name_length..],
            Form::ShortValue(value, _) => value.as_slice(),
            Form::Short(field) => field.value(),
        }
    }

    /// The name, and whether it is static.
    pub fn name_part(&self) -> Part<'_>
        ensures { part_bytes result ≡ self.now.name }
    {
        match &self.form {
            Form::Static(name, _) => Part::Static(*name),
            Form::StaticName(name, _) => Part::Static(*name),
            Form::ShortValue(_, name) => Part::Static(*name),
            _ => Part::Lent(self.name()),
        }
    }

    /// The bytes of name and value and 32 more, or the greatest number if the sum passes it (RFC 9204, section 3.2.1).
    pub fn mem_size(&self) -> usize
        ensures { result ≡ min (2 ^ 64 - 1) (field_size self.now) }
    {
        self.name()
            .len()
            .saturating_add(self.value().len())
            .saturating_add(ESTIMATED_OVERHEAD_BYTES)
    }

    /// Each item of name and value is a byte. It does nothing: a proof that needs the fact calls it.
    pub fn are_bytes(&self)
        ensures { IsFieldOfBytes self.now }
    {
        are_bytes(self.name());
        are_bytes(self.value());
    }

    /// Name, tab, value, with U+FFFD for what is no character.
    pub fn into_string(self, alloc: Global) -> Result<String, AllocError>
        ensures { IfOk result (λ s. string_bytes s
            ≡ encode_utf8_all (lossy_chars (self.name ++ 9 ∷ self.value))) }
    {
        let mut text = Vec::from_slice(alloc, self.name())?;
        text.push(b'\t')?;
        text.extend_from_slice(self.value())?;
        text.into_string_lossy()
    }
}

/// A copy. It takes no memory if there is nothing to copy.
fn copy_of(alloc: Global, bytes: &[u8]) -> Result<CowSlice<'static, u8>, AllocError>
    ensures ok { IfOk result (λ copy. cow_slice_items copy ≡ bytes.now) }
    ensures err { OnErr result (0 < length bytes.now) }
{
    if bytes.is_empty() {
        return Ok(CowSlice::Borrowed(b""));
    }
    Ok(CowSlice::Owned(Vec::from_slice(alloc, bytes)?))
}

/// The name and the value of a block. The block stays the name's.
fn split(
    alloc: Global,
    mut bytes: Vec<u8>,
    name_length: usize,
) -> Result<(CowSlice<'static, u8>, CowSlice<'static, u8>), AllocError>
    requires { name_length ≤ length bytes.items }
    ensures name { IfOk result (λ parts. cow_slice_items parts.0 ≡ take name_length bytes.items) }
    ensures value { IfOk result (λ parts. cow_slice_items parts.1 ≡ drop name_length bytes.items) }
    ensures err { OnErr result (0 < length (drop name_length bytes.items)) }
{
    if bytes.len() == name_length {
        return Ok((CowSlice::Owned(bytes), CowSlice::Borrowed(b"")));
    }
    let value = Vec::from_slice(alloc, &bytes.as_slice()[name_length..])?;
    bytes.truncate(name_length);
    Ok((CowSlice::Owned(bytes), CowSlice::Owned(value)))
}

impl AsRef<HeaderField> for HeaderField {
    fn as_ref(&self) -> &HeaderField
        ensures { result.now ≡ self.now }
    {
        self
    }
}

impl From<(CowSlice<'static, u8>, CowSlice<'static, u8>)> for HeaderField {
    ghost from_gives = { λ parts f. f ≡ plain_field (cow_slice_items parts.0) (cow_slice_items parts.1) };

    fn from(parts: (CowSlice<'static, u8>, CowSlice<'static, u8>)) -> HeaderField {
        let (name, value) = parts;
        HeaderField::new(name, value)
    }
}

impl PartialEq for HeaderField {
    ghost eq = { eq_of_both (on (λ f. f.name) (pointwise nat_eq)) (on (λ f. f.value) (pointwise nat_eq)) };

    ghost laws = { Prim.search (comparing, rules) };

    fn eq(&self, other: &HeaderField) -> bool {
        self.name() == other.name() && self.value() == other.value()
    }
}

impl Eq for HeaderField {
    ghost laws = { Prim.search (comparing, rules) };
}

impl Hash for HeaderField {
    ghost hash_input = { λ f. fed.slice fed.u8 f.name ++ fed.slice fed.u8 f.value };

    ghost respects_eq = { Prim.search (hashing, rules) };

    fn hash<H: Hasher>(&self, state: &mut H) {
        self.name().hash(state);
        self.value().hash(state);
    }
}

impl fmt::Display for HeaderField {
    ghost output = { λ f. Some (encode_utf8_all (lossy_chars f.name) ++ codes ": " ++ encode_utf8_all (lossy_chars f.value)) };

    fn fmt<W: fmt::Write>(&self, f: &mut fmt::Formatter<W>) -> fmt::Result {
        let name = BStr::new(self.name());
        let value = BStr::new(self.value());
        write!(f, "{name}: {value}")
    }
}
