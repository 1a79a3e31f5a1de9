//! Instructions of an encoder, on its stream to a decoder (RFC 9204, section 4.3).
ghost use Rattle.std.specs.Prelude.{◌≡◌, ◌<◌, ◌^◌, ◌++◌, true, false, length, slice_index, IfOk, IfNone, IfSome, OnOk, OnErr, Ok, Err};
ghost use Rattle.std.specs.Prelude.{Some};
ghost use Rattle.std.specs.Result.{IsOkUnless};
ghost use Rattle.h3_field.specs.StringLiteral.{coded};
ghost use Rattle.h3_field.specs.Instruction.{encoder_bytes};
ghost use Rattle.h3_field.specs.Instruction.{EncoderInstruction as instruction};
ghost use Rattle.h3_field.specs.Ends.{IsEndOf};
ghost use Rattle.h3_field.specs.Room.{HasRoom, inserted_value};
ghost use Rattle.h3_field.specs.ShapeAnswer.{AtInteger, AtString, behind};
ghost use Rattle.h3_field.specs.IntegerReading.{integer};
ghost use Rattle.h3_field.specs.Shapes.{begins};
ghost use Rattle.h3_field.specs.InstructionReading.{name_reference, literal_name};
ghost use Rattle.h3_field.specs.InstructionAnswer.{AnswersInstruction, IsSendable, field_insertion, named_insertion, literal_insertion};
ghost use Rattle.h3_field.specs.InstructionAnswer.{short_named_insertion};
ghost use Rattle.h3_field.specs.declared.parse_error.ParseError.TheVariants.{InvalidPrefix};
ghost use Rattle.h3_field.specs.declared.prefix_string.Error.TheVariants.{OutOfMemory};
ghost use Rattle.h3_field.specs.declared.stream.insertion.InsertWithNameRef.TheVariants as named_ref;

use crate::block::NameRef;
use crate::cursor::SliceCursor;
use crate::field::HeaderField;
use crate::parse_error::ParseError;
use crate::prefix_string::ShortString;
use crate::shapes::{
    expect_first, put_index_and_string, put_two_strings, take_index_and_short,
    take_index_and_string, take_short_field, take_two_strings,
};
use crate::{prefix_int, prefix_string};
use std::alloc::Global;

/// An insertion with the name of a static entry, or of a dynamic one by its distance from the newest (RFC 9204, section 4.3.2). It is
/// insert with name reference, `| 1 | T | name index (6+) | H | value length (7+) | value |`.
#[derive(PartialEq, Debug, Drop)]
pub enum InsertWithNameRef {
    Static { index: usize, value: Vec<u8> },
    Dynamic { index: usize, value: Vec<u8> },
}

impl InsertWithNameRef {
    /// The insertion with the name of that entry of the static table, counted from 0 (RFC 9204, appendix A), and the value. It takes any
    /// index: `encode` asks for one below 2^62.
    pub fn new_static(index: usize, value: Vec<u8>) -> InsertWithNameRef
        ensures { result ≡ named_ref.Static index value }
    {
        InsertWithNameRef::Static { index, value }
    }

    /// The insertion with the name of a dynamic entry, by its relative index, 0 for the newest (RFC 9204, section 3.2.5), and the value.
    pub fn new_dynamic(index: usize, value: Vec<u8>) -> InsertWithNameRef
        ensures { result ≡ named_ref.Dynamic index value }
    {
        InsertWithNameRef::Dynamic { index, value }
    }

    /// Takes the instruction from the front, or answers `None` if it is not whole. Then, and on a refusal, nothing is taken.
    pub fn decode(
        alloc: Global,
        buf: &mut SliceCursor<'_>,
    ) -> Result<Option<InsertWithNameRef>, ParseError>
        ensures own { begins 128 255 buf.old ≡ true
            → AnswersInstruction named_insertion (behind (integer 6 buf.old)) (name_reference buf.old) buf.old buf.new result }
        ensures other { begins 128 255 buf.old ≡ false → (result ≡ Err (InvalidPrefix (slice_index buf.old 0))) × (buf.new ≡ buf.old) }
        ensures rest { IsEndOf buf.old buf.new }
    {
        InsertWithNameRef::decode_with_room(alloc, buf, 0)
    }

    /// Takes the instruction from the front as `decode` does, into a block that has room for `spare` bytes after the value. So the name of
    /// the entry can be put there with no second block (`HeaderField::with_copied_name`). An empty value has no block.
    #[tactic(auto, using(crate::specs::EndLaws::none_dropped))]
    pub fn decode_with_room(
        alloc: Global,
        buf: &mut SliceCursor<'_>,
        spare: usize,
    ) -> Result<Option<InsertWithNameRef>, ParseError>
        ensures own { begins 128 255 buf.old ≡ true
            → AnswersInstruction named_insertion (behind (integer 6 buf.old)) (name_reference buf.old) buf.old buf.new result }
        ensures other { begins 128 255 buf.old ≡ false → (result ≡ Err (InvalidPrefix (slice_index buf.old 0))) × (buf.new ≡ buf.old) }
        ensures rest { IsEndOf buf.old buf.new }
        ensures room { IfOk result (λ read. IfSome read (λ insertion. HasRoom spare (inserted_value insertion))) }
    {
        expect_first(buf, 128, 255)?;
        match take_index_and_string(alloc, 6, buf, spare) {
            Ok(parts) => {
                let index = parts.index as usize;
                let value = parts.value;
                if parts.flags % 2 == 1 {
                    Ok(Some(InsertWithNameRef::Static { index, value }))
                } else {
                    Ok(Some(InsertWithNameRef::Dynamic { index, value }))
                }
            }
            Err(ParseError::Integer(prefix_int::Error::UnexpectedEnd)) => Ok(None),
            Err(ParseError::String(prefix_string::Error::UnexpectedEnd)) => Ok(None),
            Err(e) => Err(e),
        }
    }

    /// Takes the instruction from the front, and reads its value into `value`, with no memory: the name that it refers to. None: the value
    /// may be long, or the instruction is not whole, or it is refused. Then nothing is taken.
    pub fn decode_short(buf: &mut SliceCursor<'_>, value: &mut ShortString) -> Option<NameRef>
        ensures some { IfSome result
            (λ name. AnswersInstruction (short_named_insertion value.new) AtInteger (name_reference buf.old) buf.old buf.new
            (Ok (Some name))) }
        ensures none { IfNone result (buf.new ≡ buf.old) }
    {
        let head = take_index_and_short(6, buf, value)?;
        let index = head.index as usize;
        if head.flags % 2 == 1 {
            Some(NameRef::Static(index))
        } else {
            Some(NameRef::Dynamic(index))
        }
    }

    /// Appends the instruction. A refusal appends nothing.
    pub fn encode(&self, buf: &mut Vec<u8>) -> Result<(), prefix_string::Error>
        requires { IsSendable (named_insertion self.now) }
        ensures memory { IsOkUnless result OutOfMemory }
        ensures ok { OnOk result (buf.new.items ≡ buf.old.items ++ encoder_bytes (named_insertion self.now)) }
        ensures err { OnErr result (buf.new.items ≡ buf.old.items) }
    {
        match self {
            InsertWithNameRef::Static { index, value } => {
                InsertWithNameRef::write_static(*index, value.as_slice(), false, buf)
            }
            InsertWithNameRef::Dynamic { index, value } => {
                InsertWithNameRef::write_dynamic(*index, value.as_slice(), false, buf)
            }
        }
    }

    /// Appends the instruction with the name of a static entry. If `shortest` and its Huffman code is not shorter, the value is written as
    /// it stands; else it is Huffman coded.
    pub fn write_static(
        index: usize,
        value: &[u8],
        shortest: bool,
        buf: &mut Vec<u8>,
    ) -> Result<(), prefix_string::Error>
        requires index { index < 2 ^ 62 }
        requires value { length value.now < 2 ^ 62 }
        ensures memory { IsOkUnless result OutOfMemory }
        ensures ok { OnOk result
            (buf.new.items ≡ buf.old.items ++ encoder_bytes (instruction.InsertWithStaticName index (coded shortest value.now))) }
        ensures err { OnErr result (buf.new.items ≡ buf.old.items) }
    {
        put_index_and_string(6, 3, index as u64, value, shortest, buf)
    }

    /// Appends the instruction with the name of a dynamic entry. `shortest` is as in `write_static`.
    pub fn write_dynamic(
        index: usize,
        value: &[u8],
        shortest: bool,
        buf: &mut Vec<u8>,
    ) -> Result<(), prefix_string::Error>
        requires index { index < 2 ^ 62 }
        requires value { length value.now < 2 ^ 62 }
        ensures memory { IsOkUnless result OutOfMemory }
        ensures ok { OnOk result
            (buf.new.items ≡ buf.old.items ++ encoder_bytes (instruction.InsertWithEntryName index (coded shortest value.now))) }
        ensures err { OnErr result (buf.new.items ≡ buf.old.items) }
    {
        put_index_and_string(6, 2, index as u64, value, shortest, buf)
    }
}

/// An insertion with a literal name, `| 0 | 1 | H | name length (5+) | name | H | value length (7+) | value |` (RFC 9204,
/// section 4.3.3).
#[derive(PartialEq, Debug, Drop)]
pub struct InsertWithoutNameRef {
    pub name: Vec<u8>,
    pub value: Vec<u8>,
}

impl InsertWithoutNameRef {
    /// The insertion of that name and value, which it owns.
    pub fn new(name: Vec<u8>, value: Vec<u8>) -> InsertWithoutNameRef
        ensures { result ≡ record { name = name; value = value } }
    {
        InsertWithoutNameRef { name, value }
    }

    /// Takes the instruction from the front, or answers `None` if it is not whole. Then, and on a refusal, nothing is taken.
    #[tactic(auto, using(crate::specs::EndLaws::none_dropped))]
    pub fn decode(
        alloc: Global,
        buf: &mut SliceCursor<'_>,
    ) -> Result<Option<InsertWithoutNameRef>, ParseError>
        ensures own { begins 64 127 buf.old ≡ true
            → AnswersInstruction literal_insertion AtString (literal_name buf.old) buf.old buf.new result }
        ensures other { begins 64 127 buf.old ≡ false → (result ≡ Err (InvalidPrefix (slice_index buf.old 0))) × (buf.new ≡ buf.old) }
        ensures rest { IsEndOf buf.old buf.new }
    {
        expect_first(buf, 64, 127)?;
        match take_two_strings(alloc, 6, buf) {
            Ok(parts) => Ok(Some(InsertWithoutNameRef {
                name: parts.name,
                value: parts.value,
            })),
            Err(ParseError::String(prefix_string::Error::UnexpectedEnd)) => Ok(None),
            Err(e) => Err(e),
        }
    }

    /// Takes the instruction from the front as a field that takes no memory. None: the field may be long, or the instruction is not whole,
    /// or it is refused. Then nothing is taken.
    pub fn decode_short(buf: &mut SliceCursor<'_>) -> Option<HeaderField>
        ensures some { IfSome result (λ field. AnswersInstruction field_insertion AtString (literal_name buf.old) buf.old buf.new
            (Ok (Some field))) }
        ensures plain { IfSome result (λ field. field.never_indexed ≡ false) }
        ensures none { IfNone result (buf.new ≡ buf.old) }
    {
        let field = take_short_field(6, buf)?;
        // what stands above the name's length is no bit N
        Some(field.with_never_indexed(false))
    }

    /// Appends the instruction. A refusal appends nothing.
    pub fn encode(&self, buf: &mut Vec<u8>) -> Result<(), prefix_string::Error>
        requires { IsSendable (literal_insertion self.now) }
        ensures memory { IsOkUnless result OutOfMemory }
        ensures ok { OnOk result (buf.new.items ≡ buf.old.items ++ encoder_bytes (literal_insertion self.now)) }
        ensures err { OnErr result (buf.new.items ≡ buf.old.items) }
    {
        InsertWithoutNameRef::write(self.name.as_slice(), self.value.as_slice(), false, buf)
    }

    /// Appends the instruction with that name and value. If `shortest`, each is written as it stands if its Huffman code is not shorter;
    /// else both are Huffman coded.
    pub fn write(
        name: &[u8],
        value: &[u8],
        shortest: bool,
        buf: &mut Vec<u8>,
    ) -> Result<(), prefix_string::Error>
        requires name { length name.now < 2 ^ 62 }
        requires value { length value.now < 2 ^ 62 }
        ensures memory { IsOkUnless result OutOfMemory }
        ensures ok { OnOk result
            (buf.new.items ≡ buf.old.items ++ encoder_bytes
            (instruction.InsertLiteral (coded shortest name.now) (coded shortest value.now))) }
        ensures err { OnErr result (buf.new.items ≡ buf.old.items) }
    {
        put_two_strings(6, 1, name, value, shortest, buf)
    }
}
