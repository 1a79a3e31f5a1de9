//! Fields in bytes that lie elsewhere.
ghost use Rattle.std.specs.Prelude.{◌≡◌, ◌+◌, ◌≤◌, ◌<◌, [], length, OnOk, OnErr};
ghost use Rattle.h3_field.specs.BorrowedFields.{in_front_of, with_field};

use crate::field_block::{FieldPlace, put_place};
use crate::fields::Fields;
use std::alloc::{AllocError, Global};
use std::marker::Model;

/// So many fields have room between two lists, at most.
const MOST_SPARE: usize = 32;

/// Fields whose names and values lie end to end in bytes of a caller's: the name of a field, its value, and so on with the next field. The
/// bytes stay where they are, and the place of each field is noted. A contract sees the fields so far, and the bytes after them.
#[derive(Drop)]
pub struct BorrowedFields<'a> {
    bytes: &'a [u8],
    end: usize,
    places: Vec<FieldPlace>,
}

impl<'a> Model for BorrowedFields<'a> {
    ghost use Rattle.std.specs.Prelude.{◌≤◌, take, drop, length};
    ghost use Rattle.h3_field.specs.BorrowedFields.{Borrowed};
    ghost use Rattle.h3_field.specs.FieldBlock.{fields_at, IsBlock};

    ghost Value = { Borrowed };

    ghost view = { λ b. record { fields = fields_at (take b.end b.bytes.now) b.places.items; rest = drop b.end b.bytes.now } };

    ghost invariant = { λ b. (b.end ≤ length b.bytes.now) × IsBlock (take b.end b.bytes.now) b.places.items };
}

impl BorrowedFields<'static> {
    /// No field, of no bytes. It takes no memory.
    pub fn new(alloc: Global) -> BorrowedFields<'static>
        ensures { result ≡ in_front_of [] }
    {
        BorrowedFields {
            bytes: b"",
            end: 0,
            places: Vec::new(alloc),
        }
    }
}

impl<'a> BorrowedFields<'a> {
    /// No field yet, in front of these bytes. Memory that was taken serves again, unless it has room for many fields.
    #[inline(always)]
    pub fn over<'b>(self, bytes: &'b [u8]) -> BorrowedFields<'b>
        ensures { result ≡ in_front_of bytes.now }
    {
        let mut places = self.places;
        if places.capacity() > MOST_SPARE {
            places = Vec::new(*places.allocator());
        }
        places.clear();
        BorrowedFields {
            bytes,
            end: 0,
            places,
        }
    }

    /// Takes memory for so many fields more.
    pub fn reserve(&mut self, count: usize) -> Result<(), AllocError>
        ensures same { self.new ≡ self.old }
        ensures err { OnErr result (0 < count) }
    {
        if count <= self.places.capacity() - self.places.len() {
            return Ok(());
        }
        self.places.reserve(count)
    }

    /// How many bytes lie after the fields.
    pub fn rest_len(&self) -> usize
        ensures { result ≡ length self.now.rest }
    {
        self.bytes.len() - self.end
    }

    /// Adds the field of so many bytes of a name, and of so many of a value after it, with its flag (`HeaderField::is_never_indexed`). A
    /// refusal adds nothing.
    #[inline(always)]
    pub fn push(&mut self, name: usize, value: usize, never_indexed: bool) -> Result<(), AllocError>
        requires { name + value ≤ length self.old.rest }
        ensures ok { OnOk result (self.new ≡ with_field name value never_indexed self.old) }
        ensures err { OnErr result (self.new ≡ self.old) }
    {
        let middle = self.end + name;
        let end = middle + value;
        let place = FieldPlace {
            start: self.end,
            middle,
            end,
            never_indexed,
        };
        put_place(&mut self.places, place)?;
        self.end = end;
        Ok(())
    }

    /// The fields.
    pub fn fields(&self) -> Fields<'_>
        ensures { result ≡ self.now.fields }
    {
        Fields::of_block(self.places.as_slice(), &self.bytes[..self.end])
    }
}
