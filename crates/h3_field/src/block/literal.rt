//! Lines with a literal value (RFC 9204, sections 4.5.4 to 4.5.6). Each has the bit N as a flag: a field whose line has it is written as a
//! literal with it on every hop, and is never inserted (section 7.1.3).
ghost use Rattle.std.specs.Prelude.{◌≡◌, ◌<◌, ◌^◌, ◌++◌, ◌∷◌, [], true, false, length, slice_index, IfSome, IfNone, IfOk, OnOk, OnErr};
ghost use Rattle.std.specs.Prelude.{Ok, Err};
ghost use Rattle.h3_field.specs.Field.{Field};
ghost use Rattle.std.specs.Result.{IsOkUnless};
ghost use Rattle.h3_field.specs.StringLiteral.{coded};
ghost use Rattle.h3_field.specs.Line.{bit_n, line_bytes};
ghost use Rattle.h3_field.specs.Line.FieldLine.{StaticName, RelativeName, PostBaseName};
ghost use Rattle.h3_field.specs.Line.{FieldLine as line};
ghost use Rattle.h3_field.specs.Ends.{IsEndOf};
ghost use Rattle.h3_field.specs.Room.{HasRoom, line_value};
ghost use Rattle.h3_field.specs.ShapeAnswer.{AtInteger, AtString, behind};
ghost use Rattle.h3_field.specs.IntegerReading.{integer};
ghost use Rattle.h3_field.specs.Shapes.{begins};
ghost use Rattle.h3_field.specs.OntoAnswer.{AnswersIndex, named_head, post_base_head};
ghost use Rattle.h3_field.specs.LineReading.{named, post_base_named, literal};
ghost use Rattle.h3_field.specs.LineAnswer.{AnswersLine, IsWritable, named_line, named_with, short_named_line, short_post_base_named_line};
ghost use Rattle.h3_field.specs.LineAnswer.{post_base_named_line, literal_line, field_line};
ghost use Rattle.h3_field.specs.declared.parse_error.ParseError.TheVariants.{InvalidPrefix};
ghost use Rattle.h3_field.specs.declared.prefix_string.Error.TheVariants.{OutOfMemory};
ghost use Rattle.h3_field.specs.declared.block.literal.LiteralWithNameRef.TheVariants as named_ref;

use crate::cursor::SliceCursor;
use crate::field::HeaderField;
use crate::field_block::FieldBlock;
use crate::parse_error::ParseError;
use crate::prefix_int;
use crate::prefix_string::{self, ShortString};
use crate::shapes::{
    expect_first, put_index_and_string, put_two_strings, take_index_and_short,
    take_index_and_string, take_short_field, take_two_strings,
};
use std::alloc::Global;

/// The bit N.
#[inline(always)]
fn bit_n(never_indexed: bool) -> u8
    ensures value { result ≡ bit_n never_indexed }
    ensures below { result < 2 }
{
    if never_indexed { 1 } else { 0 }
}

/// The name of a static entry, or of a dynamic one by its distance below the base.
#[derive(Clone, Copy)]
pub enum NameRef {
    Static(usize),
    Dynamic(usize),
}

/// A line with the name of a static entry, or of a dynamic one by its distance below the base (RFC 9204, section 4.5.4). It is the literal
/// field line with name reference, `| 0 | 1 | N | T | name index (4+) | H | value length (7+) | value |`.
#[derive(PartialEq, Debug, Drop)]
pub enum LiteralWithNameRef {
    Static {
        index: usize,
        value: Vec<u8>,
        never_indexed: bool,
    },
    Dynamic {
        index: usize,
        value: Vec<u8>,
        never_indexed: bool,
    },
}

impl LiteralWithNameRef {
    /// The line with the name of that entry of the static table, counted from 0 (RFC 9204, appendix A), and the value, without the bit N.
    /// It takes any index: `encode` asks for one below 2^62.
    pub fn new_static(index: usize, value: Vec<u8>) -> LiteralWithNameRef
        ensures { result ≡ named_ref.Static index value false }
    {
        LiteralWithNameRef::Static {
            index,
            value,
            never_indexed: false,
        }
    }

    /// The line with the name of a dynamic entry, by its relative index, and the value, without the bit N. Index 0 is for the one right
    /// below the base (RFC 9204, section 3.2.5).
    pub fn new_dynamic(index: usize, value: Vec<u8>) -> LiteralWithNameRef
        ensures { result ≡ named_ref.Dynamic index value false }
    {
        LiteralWithNameRef::Dynamic {
            index,
            value,
            never_indexed: false,
        }
    }

    /// The same with that bit N (RFC 9204, section 4.5.4).
    pub fn with_never_indexed(self, never_indexed: bool) -> LiteralWithNameRef
        ensures { result ≡ named_with self never_indexed }
    {
        match self {
            LiteralWithNameRef::Static { index, value, .. } => LiteralWithNameRef::Static {
                index,
                value,
                never_indexed,
            },
            LiteralWithNameRef::Dynamic { index, value, .. } => LiteralWithNameRef::Dynamic {
                index,
                value,
                never_indexed,
            },
        }
    }

    /// Takes the line from the front. A refused read takes nothing.
    pub fn decode(
        alloc: Global,
        buf: &mut SliceCursor<'_>,
    ) -> Result<LiteralWithNameRef, ParseError>
        ensures own { begins 64 127 buf.old ≡ true
            → AnswersLine named_line (behind (integer 4 buf.old)) (named buf.old) buf.old buf.new result }
        ensures other { begins 64 127 buf.old ≡ false → (result ≡ Err (InvalidPrefix (slice_index buf.old 0))) × (buf.new ≡ buf.old) }
        ensures rest { IsEndOf buf.old buf.new }
    {
        LiteralWithNameRef::decode_with_room(alloc, buf, 0)
    }

    /// Takes the line from the front as `decode` does, into a block that has room for `spare` bytes after the value. So the name of the
    /// entry can be put there with no second block (`HeaderField::with_copied_name`). An empty value has no block.
    #[tactic(auto, using(crate::specs::EndLaws::none_dropped))]
    pub fn decode_with_room(
        alloc: Global,
        buf: &mut SliceCursor<'_>,
        spare: usize,
    ) -> Result<LiteralWithNameRef, ParseError>
        ensures own { begins 64 127 buf.old ≡ true
            → AnswersLine named_line (behind (integer 4 buf.old)) (named buf.old) buf.old buf.new result }
        ensures other { begins 64 127 buf.old ≡ false → (result ≡ Err (InvalidPrefix (slice_index buf.old 0))) × (buf.new ≡ buf.old) }
        ensures rest { IsEndOf buf.old buf.new }
        ensures room { IfOk result (λ line. HasRoom spare (line_value line)) }
    {
        expect_first(buf, 64, 127)?;
        let parts = take_index_and_string(alloc, 4, buf, spare)?;
        let index = parts.index as usize;
        let value = parts.value;
        let never_indexed = parts.flags / 2 % 2 == 1;
        if parts.flags % 2 == 1 {
            Ok(LiteralWithNameRef::Static {
                index,
                value,
                never_indexed,
            })
        } else {
            Ok(LiteralWithNameRef::Dynamic {
                index,
                value,
                never_indexed,
            })
        }
    }

    // RFC 9204 4.5: field lines as bytes
    /// Takes the first part of the line from the front: the name that it refers to, and the bit N. The string of its value is left, for
    /// `FieldBlock::push_value_read`. A refused read takes nothing.
    pub fn decode_index(buf: &mut SliceCursor<'_>) -> Result<(NameRef, bool), ParseError>
        ensures answer { AnswersIndex named_head (integer 4 buf.old) buf.old buf.new result }
        ensures rest { IsEndOf buf.old buf.new }
    {
        let (flags, index) = prefix_int::decode(4, buf)?;
        let never_indexed = flags / 2 % 2 == 1;
        if flags % 2 == 1 {
            return Ok((NameRef::Static(index as usize), never_indexed));
        }
        Ok((NameRef::Dynamic(index as usize), never_indexed))
    }

    /// Takes the line from the front, and reads its value into `value`, with no memory: the name that it refers to, and the bit N. None:
    /// the value may be long, or the read is refused. Then nothing is taken.
    pub fn decode_short(
        buf: &mut SliceCursor<'_>,
        value: &mut ShortString,
    ) -> Option<(NameRef, bool)>
        ensures some { IfSome result
            (λ head. AnswersLine (short_named_line value.new) AtInteger (named buf.old) buf.old buf.new (Ok head)) }
        ensures none { IfNone result (buf.new ≡ buf.old) }
    {
        let head = take_index_and_short(4, buf, value)?;
        let index = head.index as usize;
        let never_indexed = head.flags / 2 % 2 == 1;
        if head.flags % 2 == 1 {
            Some((NameRef::Static(index), never_indexed))
        } else {
            Some((NameRef::Dynamic(index), never_indexed))
        }
    }

    /// Appends the line. A refusal appends nothing.
    pub fn encode(&self, buf: &mut Vec<u8>) -> Result<(), prefix_string::Error>
        requires { IsWritable (named_line self.now) }
        ensures memory { IsOkUnless result OutOfMemory }
        ensures ok { OnOk result (buf.new.items ≡ buf.old.items ++ line_bytes (named_line self.now)) }
        ensures err { OnErr result (buf.new.items ≡ buf.old.items) }
    {
        match self {
            LiteralWithNameRef::Static {
                index,
                value,
                never_indexed,
            } => LiteralWithNameRef::write_static(
                *index,
                value.as_slice(),
                *never_indexed,
                false,
                buf,
            ),
            LiteralWithNameRef::Dynamic {
                index,
                value,
                never_indexed,
            } => LiteralWithNameRef::write_dynamic(
                *index,
                value.as_slice(),
                *never_indexed,
                false,
                buf,
            ),
        }
    }

    /// Appends the line with the name of a static entry, and that bit N. If `shortest` and its Huffman code is not shorter, the value is
    /// written as it stands; else it is Huffman coded.
    pub fn write_static(
        index: usize,
        value: &[u8],
        never_indexed: bool,
        shortest: bool,
        buf: &mut Vec<u8>,
    ) -> Result<(), prefix_string::Error>
        requires index { index < 2 ^ 62 }
        requires value { length value.now < 2 ^ 62 }
        ensures memory { IsOkUnless result OutOfMemory }
        ensures ok { OnOk result (buf.new.items ≡ buf.old.items ++ line_bytes (StaticName index (coded shortest value.now) never_indexed)) }
        ensures err { OnErr result (buf.new.items ≡ buf.old.items) }
    {
        put_index_and_string(
            4,
            5 + 2 * bit_n(never_indexed),
            index as u64,
            value,
            shortest,
            buf,
        )
    }

    /// Appends the line with the name of a dynamic entry, and that bit N. `shortest` is as in `write_static`.
    pub fn write_dynamic(
        index: usize,
        value: &[u8],
        never_indexed: bool,
        shortest: bool,
        buf: &mut Vec<u8>,
    ) -> Result<(), prefix_string::Error>
        requires index { index < 2 ^ 62 }
        requires value { length value.now < 2 ^ 62 }
        ensures memory { IsOkUnless result OutOfMemory }
        ensures ok { OnOk result
            (buf.new.items ≡ buf.old.items ++ line_bytes (RelativeName index (coded shortest value.now) never_indexed)) }
        ensures err { OnErr result (buf.new.items ≡ buf.old.items) }
    {
        put_index_and_string(
            4,
            4 + 2 * bit_n(never_indexed),
            index as u64,
            value,
            shortest,
            buf,
        )
    }
}

/// A line with the name of a dynamic entry, by its distance from the base on (RFC 9204, section 4.5.5). It is the literal field line with
/// post-base name reference, `| 0 | 0 | 0 | 0 | N | name index (3+) | H | value length (7+) | value |`.
#[derive(PartialEq, Debug, Drop)]
pub struct LiteralWithPostBaseNameRef {
    pub index: usize,
    pub value: Vec<u8>,
    pub never_indexed: bool,
}

impl LiteralWithPostBaseNameRef {
    /// The line with the name of a dynamic entry, by its post-base index, and the value, without the bit N. Index 0 is for the one at the
    /// base (RFC 9204, section 3.2.6).
    pub fn new(index: usize, value: Vec<u8>) -> LiteralWithPostBaseNameRef
        ensures { result ≡ record { index = index; value = value; never_indexed = false } }
    {
        LiteralWithPostBaseNameRef {
            index,
            value,
            never_indexed: false,
        }
    }

    /// The same with that bit N (RFC 9204, section 4.5.5).
    pub fn with_never_indexed(mut self, never_indexed: bool) -> LiteralWithPostBaseNameRef
        ensures { result ≡ record { index = self.index; value = self.value; never_indexed = never_indexed } }
    {
        self.never_indexed = never_indexed;
        self
    }

    /// Takes the line from the front. A refused read takes nothing.
    pub fn decode(
        alloc: Global,
        buf: &mut SliceCursor<'_>,
    ) -> Result<LiteralWithPostBaseNameRef, ParseError>
        ensures own { begins 0 15 buf.old ≡ true
            → AnswersLine post_base_named_line (behind (integer 3 buf.old)) (post_base_named buf.old) buf.old buf.new result }
        ensures other { begins 0 15 buf.old ≡ false → (result ≡ Err (InvalidPrefix (slice_index buf.old 0))) × (buf.new ≡ buf.old) }
        ensures rest { IsEndOf buf.old buf.new }
    {
        LiteralWithPostBaseNameRef::decode_with_room(alloc, buf, 0)
    }

    /// Takes the line from the front as `decode` does, into a block that has room for `spare` bytes after the value. So the name of the
    /// entry can be put there with no second block (`HeaderField::with_copied_name`). An empty value has no block.
    #[tactic(auto, using(crate::specs::EndLaws::none_dropped))]
    pub fn decode_with_room(
        alloc: Global,
        buf: &mut SliceCursor<'_>,
        spare: usize,
    ) -> Result<LiteralWithPostBaseNameRef, ParseError>
        ensures own { begins 0 15 buf.old ≡ true
            → AnswersLine post_base_named_line (behind (integer 3 buf.old)) (post_base_named buf.old) buf.old buf.new result }
        ensures other { begins 0 15 buf.old ≡ false → (result ≡ Err (InvalidPrefix (slice_index buf.old 0))) × (buf.new ≡ buf.old) }
        ensures rest { IsEndOf buf.old buf.new }
        ensures room { IfOk result (λ line. HasRoom spare line.value) }
    {
        expect_first(buf, 0, 15)?;
        let parts = take_index_and_string(alloc, 3, buf, spare)?;
        Ok(LiteralWithPostBaseNameRef {
            index: parts.index as usize,
            value: parts.value,
            never_indexed: parts.flags % 2 == 1,
        })
    }

    /// Takes the first part of the line from the front: the post-base index of its name, and the bit N. The string of its value is left,
    /// for `FieldBlock::push_value_read`. A refused read takes nothing.
    pub fn decode_index(buf: &mut SliceCursor<'_>) -> Result<(usize, bool), ParseError>
        ensures answer { AnswersIndex post_base_head (integer 3 buf.old) buf.old buf.new result }
        ensures rest { IsEndOf buf.old buf.new }
    {
        let (flags, index) = prefix_int::decode(3, buf)?;
        Ok((index as usize, flags % 2 == 1))
    }

    /// Takes the line from the front, and reads its value into `value`, with no memory: the post-base index of its name, and the bit N.
    /// None: the value may be long, or the read is refused. Then nothing is taken.
    pub fn decode_short(buf: &mut SliceCursor<'_>, value: &mut ShortString) -> Option<(usize, bool)>
        ensures some { IfSome result
            (λ head. AnswersLine (short_post_base_named_line value.new) AtInteger (post_base_named buf.old) buf.old buf.new (Ok head)) }
        ensures none { IfNone result (buf.new ≡ buf.old) }
    {
        let head = take_index_and_short(3, buf, value)?;
        Some((head.index as usize, head.flags % 2 == 1))
    }

    /// Appends the line. A refusal appends nothing.
    pub fn encode(&self, buf: &mut Vec<u8>) -> Result<(), prefix_string::Error>
        requires { IsWritable (post_base_named_line self.now) }
        ensures memory { IsOkUnless result OutOfMemory }
        ensures ok { OnOk result (buf.new.items ≡ buf.old.items ++ line_bytes (post_base_named_line self.now)) }
        ensures err { OnErr result (buf.new.items ≡ buf.old.items) }
    {
        LiteralWithPostBaseNameRef::write(
            self.index,
            self.value.as_slice(),
            self.never_indexed,
            false,
            buf,
        )
    }

    /// Appends the line with that index, value and bit N. `shortest` is as in `LiteralWithNameRef::write_static`.
    pub fn write(
        index: usize,
        value: &[u8],
        never_indexed: bool,
        shortest: bool,
        buf: &mut Vec<u8>,
    ) -> Result<(), prefix_string::Error>
        requires index { index < 2 ^ 62 }
        requires value { length value.now < 2 ^ 62 }
        ensures memory { IsOkUnless result OutOfMemory }
        ensures ok { OnOk result
            (buf.new.items ≡ buf.old.items ++ line_bytes (PostBaseName index (coded shortest value.now) never_indexed)) }
        ensures err { OnErr result (buf.new.items ≡ buf.old.items) }
    {
        put_index_and_string(3, bit_n(never_indexed), index as u64, value, shortest, buf)
    }
}

/// A line with a literal name, `| 0 | 0 | 1 | N | H | name length (3+) | name | H | value length (7+) | value |` (RFC 9204,
/// section 4.5.6).
#[derive(PartialEq, Debug, Drop)]
pub struct Literal {
    pub name: Vec<u8>,
    pub value: Vec<u8>,
    pub never_indexed: bool,
}

impl Literal {
    /// The line with that name and value, which it owns, without the bit N.
    pub fn new(name: Vec<u8>, value: Vec<u8>) -> Literal
        ensures { result ≡ record { name = name; value = value; never_indexed = false } }
    {
        Literal {
            name,
            value,
            never_indexed: false,
        }
    }

    /// The same with that bit N (RFC 9204, section 4.5.6).
    pub fn with_never_indexed(mut self, never_indexed: bool) -> Literal
        ensures { result ≡ record { name = self.name; value = self.value; never_indexed = never_indexed } }
    {
        self.never_indexed = never_indexed;
        self
    }

    /// Takes the line from the front. A refused read takes nothing.
    #[tactic(auto, using(crate::specs::EndLaws::none_dropped))]
    pub fn decode(alloc: Global, buf: &mut SliceCursor<'_>) -> Result<Literal, ParseError>
        ensures own { begins 32 63 buf.old ≡ true → AnswersLine literal_line AtString (literal buf.old) buf.old buf.new result }
        ensures other { begins 32 63 buf.old ≡ false → (result ≡ Err (InvalidPrefix (slice_index buf.old 0))) × (buf.new ≡ buf.old) }
        ensures rest { IsEndOf buf.old buf.new }
    {
        expect_first(buf, 32, 63)?;
        let parts = take_two_strings(alloc, 4, buf)?;
        Ok(Literal {
            name: parts.name,
            value: parts.value,
            never_indexed: parts.flags % 2 == 1,
        })
    }

    /// Takes the line from the front as a field that takes no memory, with the bit N as its flag. None: the field may be long, or the read
    /// is refused. Then nothing is taken.
    pub fn decode_short(buf: &mut SliceCursor<'_>) -> Option<HeaderField>
        ensures some { IfSome result (λ field. AnswersLine field_line AtString (literal buf.old) buf.old buf.new (Ok field)) }
        ensures none { IfNone result (buf.new ≡ buf.old) }
    {
        take_short_field(4, buf)
    }

    /// Takes the line from the front, and adds its field to a block, with the bit N as its flag. False: nothing is taken and nothing is
    /// added, since the read is refused or memory is.
    pub fn has_read_onto(buf: &mut SliceCursor<'_>, block: &mut FieldBlock) -> bool
        ensures yes { result ≡ true
            → (f : Field) × AnswersLine field_line AtString (literal buf.old) buf.old buf.new (Ok f) × (block.new ≡ block.old ++ f ∷ []) }
        ensures no { result ≡ false → (buf.new ≡ buf.old) × (block.new ≡ block.old) }
    {
        block.has_read_strings(4, buf)
    }

    /// Appends the line. A refusal appends nothing.
    pub fn encode(&self, buf: &mut Vec<u8>) -> Result<(), prefix_string::Error>
        requires { IsWritable (literal_line self.now) }
        ensures memory { IsOkUnless result OutOfMemory }
        ensures ok { OnOk result (buf.new.items ≡ buf.old.items ++ line_bytes (literal_line self.now)) }
        ensures err { OnErr result (buf.new.items ≡ buf.old.items) }
    {
        Literal::write(
            self.name.as_slice(),
            self.value.as_slice(),
            self.never_indexed,
            false,
            buf,
        )
    }

    /// Appends the line with that name, value and bit N. If `shortest`, each is written as it stands if its Huffman code is not shorter;
    /// else both are Huffman coded.
    #[inline(always)]
    pub fn write(
        name: &[u8],
        value: &[u8],
        never_indexed: bool,
        shortest: bool,
        buf: &mut Vec<u8>,
    ) -> Result<(), prefix_string::Error>
        requires name { length name.now < 2 ^ 62 }
        requires value { length value.now < 2 ^ 62 }
        ensures memory { IsOkUnless result OutOfMemory }
        ensures ok { OnOk result
            (buf.new.items ≡ buf.old.items ++ line_bytes
            (line.Literal (coded shortest name.now) (coded shortest value.now) never_indexed)) }
        ensures err { OnErr result (buf.new.items ≡ buf.old.items) }
    {
        put_two_strings(4, 2 + bit_n(never_indexed), name, value, shortest, buf)
    }
}
