//! Fields in one block of memory, which serves again: their names and values lie end to end.
ghost use Rattle.std.specs.Prelude.{◌≡◌, ◌++◌, ◌+◌, ◌<◌, ◌≤◌, ◌∷◌, [], length, true, false, OnOk, OnErr, IfOk, IfSome, IfNone};
ghost use Rattle.h3_field.specs.Ends.{IsEndOf};
ghost use Rattle.h3_field.specs.Field.{plain_field};
ghost use Rattle.h3_field.specs.OntoAnswer.{AnswersField, PushesField, PushesStrings, PutsField, PutsStrings, ReadsStrings};
ghost use Rattle.h3_field.specs.OntoAnswer.{IsRefusedString};
ghost use Rattle.h3_field.specs.Shapes.{two_strings};
ghost use Rattle.h3_field.specs.StringReading.{string};

use crate::byte_buffer::ByteBuffer;
use crate::cursor::SliceCursor;
use crate::field::HeaderField;
use crate::fields::{FieldRef, Fields};
use crate::prefix_string::{self, Payload, take_payload};
use std::alloc::{AllocError, Global};
use std::marker::Model;

/// So many bytes of names and values are no large block.
const MOST_BYTES: usize = 65536;

/// Nor are so many fields, with three numbers and a flag for each.
const MOST_PLACES: usize = 2048;

/// The place of the bytes of a field in its block: the name from `start` to `middle`, and the value from there to `end`. And its flag.
#[derive(Copy, Clone)]
pub(crate) struct FieldPlace {
    pub(crate) start: usize,
    pub(crate) middle: usize,
    pub(crate) end: usize,
    pub(crate) never_indexed: bool,
}

/// Fields in two blocks of memory that serve again for the next list. One has the bytes of all names and values, end to end, and the other
/// has the ends of each of them and its flag. A contract sees the list.
#[derive(Drop)]
pub struct FieldBlock {
    bytes: ByteBuffer,
    places: Vec<FieldPlace>,
}

impl Model for FieldBlock {
    ghost use Rattle.std.specs.Prelude.{List};
    ghost use Rattle.h3_field.specs.Field.{Field};
    ghost use Rattle.h3_field.specs.FieldBlock.{fields_at, IsBlock};

    ghost Value = { List Field };

    ghost view = { λ b. fields_at b.bytes b.places.items };

    ghost invariant = { λ b. IsBlock b.bytes b.places.items };
}

impl FieldBlock {
    ghost use Rattle.h3_field.specs.FieldBlock.{end_to_end};

    /// A block of no fields. It takes no memory.
    pub fn new(alloc: Global) -> FieldBlock
        ensures { result ≡ [] }
    {
        FieldBlock {
            bytes: ByteBuffer::new(alloc),
            places: Vec::new(alloc),
        }
    }

    /// How many fields there are.
    pub fn len(&self) -> usize
        ensures { result ≡ length self.now }
    {
        self.places.len()
    }

    /// Whether its memory is more than the usual section takes: above 64 KiB for either block. No clause says so: it decides what memory is
    /// kept, and no answer depends on it.
    pub fn is_large(&self) -> bool {
        self.bytes.capacity() > MOST_BYTES || self.places.capacity() > MOST_PLACES
    }

    /// The fields.
    pub fn fields(&self) -> Fields<'_>
        ensures { result ≡ self.now }
    {
        Fields::of_block(self.places.as_slice(), self.bytes.as_slice())
    }

    /// The bytes of all names and values: the name of a field, its value, and so on with the next field.
    pub fn bytes(&self) -> &[u8]
        ensures { result.now ≡ end_to_end self.now }
    {
        self.bytes.as_slice()
    }

    /// Lets all fields go. Their memory stays for the next ones.
    pub fn clear(&mut self)
        ensures { self.new ≡ [] }
    {
        self.bytes.truncate(0);
        self.places.clear();
    }

    /// Adds copies of a name and a value, as a field without the flag. A refusal adds nothing.
    pub fn push(&mut self, name: &[u8], value: &[u8]) -> Result<(), AllocError>
        ensures ok { OnOk result (self.new ≡ self.old ++ plain_field name.now value.now ∷ []) }
        ensures err { OnErr result (self.new ≡ self.old) }
    {
        self.push_field(&FieldRef::new(name, value))
    }

    /// Adds a copy of a field that lies elsewhere, with its flag. A refusal adds nothing.
    #[inline(always)]
    pub fn push_field(&mut self, field: &FieldRef<'_>) -> Result<(), AllocError>
        ensures ok { OnOk result (self.new ≡ self.old ++ field.now ∷ []) }
        ensures err { OnErr result (self.new ≡ self.old) }
    {
        let start = self.bytes.len();
        let place = put_field(&mut self.bytes, field)?;
        if let Err(_) = put_place(&mut self.places, place) {
            self.bytes.truncate(start);
            return Err(AllocError);
        }
        Ok(())
    }

    /// Takes a string from the front, and adds the field of a copied name, of the string and of the flag, which is the bit N in front of
    /// the name (RFC 9204, section 4.5.4). It takes no memory of its own. A refused read takes nothing, and adds nothing.
    pub fn push_value_read(
        &mut self,
        name: &[u8],
        never_indexed: bool,
        buf: &mut SliceCursor<'_>,
    ) -> Result<(), prefix_string::Error>
        ensures answer { AnswersField name.now never_indexed (string 8 buf.old) buf.old buf.new self.old self.new result }
        ensures rest { IsEndOf buf.old buf.new }
    {
        let mut ahead = SliceCursor::new(buf.chunk());
        let (_, payload) = take_payload(8, &mut ahead)?;
        self.push_payload(name, never_indexed, &payload)?;
        *buf = ahead;
        Ok(())
    }

    // Adds the field of a copied name, of the string of a payload and of the flag. A refusal adds nothing.
    fn push_payload(
        &mut self,
        name: &[u8],
        never_indexed: bool,
        value: &Payload<'_>,
    ) -> Result<(), prefix_string::Error>
        ensures { PushesField name.now never_indexed value.now self.old self.new result }
    {
        let start = self.bytes.len();
        let place = put_payload(&mut self.bytes, name, never_indexed, value)?;
        if let Err(_) = put_place(&mut self.places, place) {
            self.bytes.truncate(start);
            return Err(prefix_string::Error::OutOfMemory);
        }
        Ok(())
    }

    /// Takes two strings from the front, and adds the field of them, a name and a value. It has the flag if the lowest flag in front of the
    /// name is 1. The strings are read in their place. False: the read is refused, or memory is. Then nothing is taken, and nothing is
    /// added.
    pub(crate) fn has_read_strings(&mut self, size: u8, buf: &mut SliceCursor<'_>) -> bool
        requires least { 2 ≤ size }
        requires most { size ≤ 8 }
        ensures yes { result ≡ true → ReadsStrings (two_strings size buf.old) buf.new self.old self.new }
        ensures no { result ≡ false → (buf.new ≡ buf.old) × (self.new ≡ self.old) }
    {
        let mut ahead = SliceCursor::new(buf.chunk());
        let Ok((flags, name)) = take_payload(size, &mut ahead) else {
            return false;
        };
        let Ok((_, value)) = take_payload(8, &mut ahead) else {
            return false;
        };
        if !self.has_pushed_strings(&name, &value, flags % 2 == 1) {
            return false;
        }
        *buf = ahead;
        true
    }

    // Adds the field of the strings of two payloads and of the flag. False: nothing is added.
    fn has_pushed_strings(
        &mut self,
        name: &Payload<'_>,
        value: &Payload<'_>,
        never_indexed: bool,
    ) -> bool
        ensures yes { result ≡ true → PushesStrings name.now value.now never_indexed self.old self.new }
        ensures no { result ≡ false → self.new ≡ self.old }
    {
        let start = self.bytes.len();
        let Some(place) = put_strings(&mut self.bytes, name, value, never_indexed) else {
            return false;
        };
        if let Err(_) = put_place(&mut self.places, place) {
            self.bytes.truncate(start);
            return false;
        }
        true
    }

    /// The fields, each with bytes of its own and its flag. No fields take no memory.
    pub fn to_fields(&self, alloc: Global) -> Result<Vec<HeaderField>, AllocError>
        ensures ok { IfOk result (λ fields. fields.items ≡ self.now) }
        ensures err { OnErr result (0 < length self.now) }
    {
        let fields = self.fields();
        let mut list = Vec::with_capacity(alloc, fields.len())?;
        for place in 0..fields.len() {
            let field = fields.get(place);
            list.push(field.copied(alloc)?)?;
        }
        Ok(list)
    }
}

/// The places of so many fields are asked for at once.
const SOME_PLACES: usize = 16;

/// Appends a place. A refusal appends nothing.
#[inline(always)]
pub(crate) fn put_place(places: &mut Vec<FieldPlace>, place: FieldPlace) -> Result<(), AllocError>
    ensures ok { OnOk result (places.new.items ≡ places.old.items ++ place ∷ []) }
    ensures err { OnErr result (places.new.items ≡ places.old.items) }
{
    if places.len() == places.capacity() {
        places.reserve(SOME_PLACES)?;
    }
    places.push_reserved(place);
    Ok(())
}

/// Appends name and value of a field, and answers where they lie, with its flag. A refusal appends nothing.
#[inline(always)]
fn put_field(bytes: &mut ByteBuffer, field: &FieldRef<'_>) -> Result<FieldPlace, AllocError>
    ensures ok { OnOk result (bytes.new ≡ bytes.old ++ field.now.name ++ field.now.value) }
    ensures start { IfOk result (λ place. place.start ≡ length bytes.old) }
    ensures middle { IfOk result (λ place. place.middle ≡ length bytes.old + length field.now.name) }
    ensures end { IfOk result (λ place. place.end ≡ length bytes.old + length field.now.name + length field.now.value) }
    ensures flag { IfOk result (λ place. place.never_indexed ≡ field.now.never_indexed) }
    ensures err { OnErr result (bytes.new ≡ bytes.old) }
{
    let start = bytes.len();
    bytes.append(field.name())?;
    let middle = bytes.len();
    if let Err(e) = bytes.append(field.value()) {
        bytes.truncate(start);
        return Err(e);
    }
    let end = bytes.len();
    Ok(FieldPlace {
        start,
        middle,
        end,
        never_indexed: field.is_never_indexed(),
    })
}

/// Why the string of a payload is refused, if there is no memory for what stands before it.
fn refusal_of(value: &Payload<'_>) -> prefix_string::Error
    ensures { IsRefusedString value.now result }
{
    if value.is_string() {
        return prefix_string::Error::OutOfMemory;
    }
    prefix_string::Error::HuffmanDecoding
}

/// Appends a name and the string of a payload, and answers where they lie, with the flag. A refusal appends nothing.
fn put_payload(
    bytes: &mut ByteBuffer,
    name: &[u8],
    never_indexed: bool,
    value: &Payload<'_>,
) -> Result<FieldPlace, prefix_string::Error>
    ensures { PutsField name.now never_indexed value.now bytes.old bytes.new result }
{
    let start = bytes.len();
    if bytes.append(name).is_err() {
        return Err(refusal_of(value));
    }
    let middle = bytes.len();
    if let Err(e) = value.append_to(bytes) {
        bytes.truncate(start);
        return Err(e);
    }
    let end = bytes.len();
    Ok(FieldPlace {
        start,
        middle,
        end,
        never_indexed,
    })
}

/// Appends the strings of two payloads, a name and a value, and answers where they lie, with the flag. None: nothing is appended.
fn put_strings(
    bytes: &mut ByteBuffer,
    name: &Payload<'_>,
    value: &Payload<'_>,
    never_indexed: bool,
) -> Option<FieldPlace>
    ensures some { IfSome result (PutsStrings name.now value.now never_indexed bytes.old bytes.new) }
    ensures none { IfNone result (bytes.new ≡ bytes.old) }
{
    let start = bytes.len();
    if name.append_to(bytes).is_err() {
        return None;
    }
    let middle = bytes.len();
    if value.append_to(bytes).is_err() {
        bytes.truncate(start);
        return None;
    }
    let end = bytes.len();
    Some(FieldPlace {
        start,
        middle,
        end,
        never_indexed,
    })
}
