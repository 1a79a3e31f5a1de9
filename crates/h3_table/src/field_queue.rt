//! Fields in the order of their insertion, whose bytes lie end to end.
ghost use Rattle.std.specs.Prelude.{◌≡◌, ◌+◌, ◌-◌, ◌*◌, ◌/◌, ◌^◌, ◌<◌, ◌≤◌, ◌++◌, ◌∷◌, [], List, length, take, drop, slice_get};
ghost use Rattle.std.specs.Prelude.{slice_index_or, min, max, Some, None, false, IfSome, IfNone, IfOk, OnOk, OnErr};
ghost use Rattle.std.specs.Vec.{vec_len, vec_capacity};
ghost use Rattle.std.specs.VecDeque.{deque_len, deque_capacity};
ghost use Rattle.h3_field.specs.Field.{Field, plain_field, field_size, section_size};
ghost use Rattle.h3_table.specs.Records.{byte_count, first_field};

use crate::byte_queue::ByteQueue;
use crate::slices::Slices;
use h3_field::HeaderField;
use std::alloc::{AllocError, Global};
use std::collections::VecDeque;
use std::marker::Model;

/// The place of the bytes of a field.
#[derive(Clone, Copy)]
pub(crate) struct Record {
    // how many bytes were ever put in before its name
    place: u128,
    name_len: usize,
    value_len: usize,
    // the name, if it is static
    static_name: Option<&'static [u8]>,
}

/// An entry of a table, whose bytes lie there. A contract sees the field, which has no flag: one with the bit N is in no table (RFC 9204,
/// section 7.1.3).
#[derive(Drop)]
pub struct Entry<'t> {
    name: &'t [u8],
    value: &'t [u8],
    static_name: Option<&'static [u8]>,
}

impl<'t> Model for Entry<'t> {
    ghost use Rattle.h3_field.specs.Field.{Field, plain_field};
    ghost use Rattle.std.specs.Prelude.{◌≡◌, IfSome};

    ghost Value = { Field };

    ghost view = { λ e. plain_field e.name.now e.value.now };

    ghost invariant = { λ e. IfSome e.static_name (λ name. name.now ≡ e.name.now) };
}

impl<'t> Entry<'t> {
    /// The bytes of the name.
    pub fn name(&self) -> &[u8]
        ensures { result.now ≡ self.now.name }
    {
        self.name
    }

    /// The bytes of the value.
    pub fn value(&self) -> &[u8]
        ensures { result.now ≡ self.now.value }
    {
        self.value
    }

    /// An entry has no flag. It does nothing: a proof that needs the fact calls it.
    pub fn is_plain(&self)
        ensures { self.now.never_indexed ≡ false }
    {
        // (for the proof: what the entry is made of)
        let _name = self.name;
    }

    /// The size of the entry, stopping at the greatest number (RFC 9204, section 3.2.1).
    pub fn mem_size(&self) -> usize
        ensures { result ≡ min (2 ^ 64 - 1) (field_size self.now) }
    {
        self.name
            .len()
            .saturating_add(self.value.len())
            .saturating_add(32)
    }

    /// How many bytes of its name a field of the entry's name and another value owns: none if the name is static.
    pub fn owned_name_len(&self) -> usize
        ensures { result ≤ length self.now.name }
    {
        match self.static_name {
            Some(_) => 0,
            None => self.name.len(),
        }
    }

    /// A field of the entry's name and another value. A static name is not copied, and any other is copied in front of the value, in the
    /// value's block. Memory is taken only if that block has no room for it (`owned_name_len`).
    pub fn with_value(&self, value: Vec<u8>) -> Result<HeaderField, AllocError>
        ensures ok { IfOk result (λ f. f ≡ plain_field self.now.name value.items) }
        ensures err { OnErr result (vec_capacity value < vec_len value + length self.now.name) }
    {
        if let Some(name) = self.static_name {
            return Ok(HeaderField::with_static_name(name, value));
        }
        HeaderField::with_copied_name(self.name, value)
    }

    /// A field of the entry's name and another value, which takes no memory. None: they are too long for that, or the value is empty.
    pub fn with_short_value(&self, value: &[u8]) -> Option<HeaderField>
        ensures { IfSome result (λ f. f ≡ plain_field self.now.name value.now) }
    {
        if let Some(name) = self.static_name {
            return HeaderField::short_with_static_name(name, value);
        }
        HeaderField::short(self.name, value)
    }

    /// A copy, with at most one allocation: of the value if the name is static, else of both in one block. A short copy takes none.
    pub fn copy(&self, alloc: Global) -> Result<HeaderField, AllocError>
        ensures { IfOk result (λ f. f ≡ self.now) }
    {
        if let Some(name) = self.static_name {
            return HeaderField::with_copied_value(alloc, name, self.value);
        }
        HeaderField::copied(alloc, self.name, self.value)
    }
}

/// The entry of a record, whose bytes begin at a place.
fn entry_at<'t>(bytes: &'t [u8], at: usize, found: &Record) -> Entry<'t>
    requires within { at + byte_count found.now ≤ length bytes.now }
    requires few { length bytes.now < 2 ^ 33 }
    requires static_name { IfSome found.now.static_name (λ name. name.now ≡ take found.now.name_len (drop at bytes.now)) }
    ensures { result ≡ first_field (drop at bytes.now) found.now }
{
    let middle = at + found.name_len;
    Entry {
        name: &bytes[at..middle],
        value: &bytes[middle..middle + found.value_len],
        static_name: found.static_name,
    }
}

/// The fields where they lie, for a search that reads many of them.
#[derive(Drop)]
pub(crate) struct FieldSlices<'a> {
    records: Slices<'a, Record>,
    bytes: &'a [u8],
    // the place of the first byte
    first: u128,
}

impl<'a> Model for FieldSlices<'a> {
    ghost use Rattle.std.specs.Prelude.{List};
    ghost use Rattle.h3_field.specs.Field.{Field};

    ghost Value = { List Field };

    ghost use Rattle.h3_table.specs.FieldQueueInside.{fields_inside, AreFieldSlices};

    ghost view = { fields_inside };

    ghost invariant = { AreFieldSlices };
}

impl<'a> FieldSlices<'a> {
    /// The field at a place, the oldest at 0.
    pub(crate) fn get(&self, place: usize) -> Option<Entry<'a>>
        ensures value { result ≡ slice_get self.now place }
        ensures lookup { IfSome result (λ e. e ≡ slice_index_or self.now place e) }
        ensures inside { IfSome result (λ e. place < length self.now) }
        ensures none { IfNone result (length self.now ≤ place) }
    {
        let Some(record) = self.records.get(place) else {
            return None;
        };
        let at = (record.place - self.first) as usize;
        Some(entry_at(self.bytes, at, record))
    }
}

/// The fields, the oldest first. A record of each has the place of its bytes.
#[derive(Drop)]
pub(crate) struct FieldQueue {
    records: VecDeque<Record>,
    bytes: ByteQueue,
    // the place of the first byte that is there
    first: u128,
}

impl Model for FieldQueue {
    ghost use Rattle.h3_table.specs.FieldRow.{FieldRow};

    ghost Value = { FieldRow };

    ghost use Rattle.h3_table.specs.FieldQueueInside.{field_row_inside, IsFieldQueue};

    ghost view = { field_row_inside };

    ghost invariant = { IsFieldQueue };
}

/// Takes memory for a record more, if there is none: for twice as many then, or for 16.
fn reserve_record(records: &mut VecDeque<Record>) -> Result<(), AllocError>
    ensures items { records.new.items ≡ records.old.items }
    ensures len { deque_len records.new ≡ deque_len records.old }
    ensures ok { OnOk result (deque_len records.new < deque_capacity records.new) }
    ensures few { deque_capacity records.new ≤ max (deque_capacity records.old) (2 * deque_len records.old + 16) }
{
    let len = records.len();
    if len < records.capacity() {
        return Ok(());
    }
    records.reserve_exact(len.max(16))
}

impl FieldQueue {
    pub(crate) fn new(alloc: Global) -> FieldQueue
        ensures fields { result.fields ≡ [] }
        ensures written { result.written ≡ 0 }
    {
        FieldQueue {
            records: VecDeque::new(alloc),
            bytes: ByteQueue::new(alloc),
            first: 0,
        }
    }

    pub(crate) fn len(&self) -> usize
        ensures { result ≡ length self.now.fields }
    {
        self.records.len()
    }

    /// How many bytes of names and values there are.
    pub(crate) fn byte_count(&self) -> usize
        ensures { result + 32 * length self.now.fields ≡ section_size self.now.fields }
    {
        self.bytes.len()
    }

    /// The field at a place, the oldest at 0.
    pub(crate) fn get(&self, place: usize) -> Option<Entry<'_>>
        ensures value { result ≡ slice_get self.now.fields place }
        ensures lookup { IfSome result (λ e. e ≡ slice_index_or self.now.fields place e) }
        ensures inside { IfSome result (λ e. place < length self.now.fields) }
        ensures none { IfNone result (length self.now.fields ≤ place) }
    {
        let Some(record) = self.records.get(place) else {
            return None;
        };
        let at = (record.place - self.first) as usize;
        Some(entry_at(self.bytes.as_slice(), at, record))
    }

    /// The fields where they lie.
    pub(crate) fn slices(&self) -> FieldSlices<'_>
        ensures { result ≡ self.now.fields }
    {
        FieldSlices {
            records: Slices::of(&self.records),
            bytes: self.bytes.as_slice(),
            first: self.first,
        }
    }

    /// Takes memory for a record more, and for so many bytes more beside those that are kept. For these it is a new block, if the one that
    /// is there has no room for them. The fields stay.
    pub(crate) fn reserve(
        &mut self,
        kept: usize,
        count: usize,
    ) -> Result<Option<Vec<u8>>, AllocError>
        requires kept { kept < 2 ^ 32 }
        requires more { count < 2 ^ 32 }
        requires there { kept ≤ section_size self.old.fields }
        ensures needed { IfOk result (λ block. IfSome block (λ b. self.old.room < count)) }
        ensures records { self.new.places ≤ max self.old.places (2 * length self.old.fields + 16) }
        ensures fields { self.new.fields ≡ self.old.fields }
        ensures written { self.new.written ≡ self.old.written }
        ensures places { OnOk result (length self.new.fields < self.new.places) }
        ensures none { IfOk result (λ block. IfNone block (count ≤ self.new.room)) }
        ensures empty { IfOk result (λ block. IfSome block (λ b. b.items ≡ [])) }
        ensures len { IfOk result (λ block. IfSome block (λ b. vec_capacity b ≡ kept + kept / 4 + count + 512)) }
    {
        reserve_record(&mut self.records)?;
        self.bytes.block_for(kept, count)
    }

    /// Puts a field in as the newest one, for which there is memory: in the block that is given, or if none is given, in the one that is
    /// there.
    pub(crate) fn push(
        &mut self,
        name: &[u8],
        value: &[u8],
        static_name: Option<&'static [u8]>,
        block: Option<Vec<u8>>,
    )
        requires same { IfSome static_name (λ given. given.now ≡ name.now) }
        requires place { length self.old.fields < self.old.places }
        requires room { IfNone block (length name.now + length value.now ≤ self.old.room) }
        requires empty { IfSome block (λ b. b.items ≡ []) }
        requires fits { IfSome block
            (λ b. section_size self.old.fields + (length name.now + length value.now) ≤ vec_capacity b + 32 * length self.old.fields) }
        requires small { length name.now + length value.now < 2 ^ 32 }
        requires few { section_size self.old.fields < 2 ^ 32 }
        requires written { self.old.written + 2 ^ 32 < 2 ^ 128 }
        ensures fields { self.new.fields ≡ self.old.fields ++ plain_field name.now value.now ∷ [] }
        ensures written { self.new.written ≡ self.old.written + (length name.now + length value.now) }
    {
        let there = self.bytes.len();
        self.bytes.move_to(block);
        self.records.push_back_reserved(Record {
            place: self.first + there as u128,
            name_len: name.len(),
            value_len: value.len(),
            static_name,
        });
        self.bytes.push(name);
        self.bytes.push(value);
    }

    /// Takes the oldest field out, and answers how many bytes it had.
    pub(crate) fn pop(&mut self) -> Option<usize>
        ensures some { IfSome result (λ n. (f : Field) × (self.old.fields ≡ f ∷ self.new.fields) × (n + 32 ≡ field_size f)) }
        ensures none { IfNone result ((self.old.fields ≡ []) × (self.new ≡ self.old)) }
        ensures written { self.new.written ≡ self.old.written }
        ensures memory { (self.new.room ≡ self.old.room) × (self.new.places ≡ self.old.places) }
    {
        let record = self.records.pop_front()?;
        let count = record.name_len + record.value_len;
        self.bytes.drop_front(count);
        self.first += count as u128;
        Some(count)
    }
}
