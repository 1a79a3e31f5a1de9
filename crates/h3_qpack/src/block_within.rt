//! The fields of a section's lines, in a block that the caller passes: its memory serves again.
ghost use Rattle.std.specs.Prelude.{◌≡◌, ◌≤◌, ◌<◌, [], ◌∷◌, ◌++◌, List, length, true, false, Ok, IfOk, IfErr, OnOk, Some, None};
ghost use Rattle.std.specs.Prelude.{MatchOption};
ghost use Rattle.h3_field.specs.Field.{Field};
ghost use Rattle.h3_field.specs.OntoAnswer.{AnswersField};
ghost use Rattle.h3_field.specs.Shapes.{begins};
ghost use Rattle.h3_field.specs.StringReading.{string};
ghost use Rattle.h3_field.specs.declared.decoder_error.DecoderError.TheVariants.{OutOfMemory};
ghost use Rattle.h3_qpack.specs.DecodedSection.{fields_in};
ghost use Rattle.h3_qpack.specs.SectionAnswers.{LinesAskMemory, IsReasonFor, HasPut, PutsLine};
ghost use Rattle.h3_qpack.specs.Sizes.{IsBlockWithin, PassesLimit, told_size};

use crate::lines::{Lines, lent};
use crate::within::LargeSection;
use h3_field::block::{
    HeaderBlockField, Indexed, IndexedWithPostBase, Literal, LiteralWithNameRef,
    LiteralWithPostBaseNameRef, NameRef,
};
use h3_field::static_::StaticTable;
use h3_field::{DecoderError, FieldBlock, FieldRef, SliceCursor};

/// What the caller learns of a decoded field section whose fields are in its block.
#[derive(Copy, Clone)]
pub struct SectionSummary {
    /// Whether the required insert count was above 0: then the section has to be acknowledged.
    pub dyn_ref: bool,
    /// The sum of the sizes of its fields, in bytes, which stops at the greatest number (RFC 9204, section 3.2.1).
    pub mem_size: u64,
}

/// A field section that was decoded into a block, under a limit on the sum of its fields' sizes.
#[derive(Drop)]
pub enum BlockWithin {
    /// The sum is at most the limit: the fields stand in the block.
    Fields(SectionSummary),
    /// The sum passes the limit.
    TooLarge(LargeSection),
}

/// The sum of the sizes of a block's fields, which stops at the greatest number (RFC 9204, section 3.2.1).
fn size_of_block(block: &FieldBlock) -> u64
    ensures { result ≡ told_size block.now }
{
    let count = block.len();
    let bytes = block.bytes();
    count.saturating_mul(32).saturating_add(bytes.len()) as u64
}

/// Adds a copy of a field.
#[inline(always)]
fn put(block: &mut FieldBlock, field: &FieldRef<'_>) -> Result<(), DecoderError>
    ensures ok { OnOk result (block.new ≡ block.old ++ field.now ∷ []) }
    ensures err { IfErr result (λ e. e ≡ OutOfMemory) }
{
    block.push_field(field)?;
    Ok(())
}

/// Adds the field of a copied name, of the string at the front and of the flag. False: nothing is added.
fn has_put_value(
    block: &mut FieldBlock,
    name: &[u8],
    never_indexed: bool,
    buf: &mut SliceCursor<'_>,
) -> bool
    ensures yes { result ≡ true → AnswersField name.now never_indexed (string 8 buf.old) buf.old buf.new block.old block.new (Ok tt) }
    ensures no { result ≡ false → block.new ≡ block.old }
{
    block.push_value_read(name, never_indexed, buf).is_ok()
}

impl<'t> Lines<'t> {
    /// Adds the field of an indexed line.
    fn put_indexed(
        &self,
        buf: &mut SliceCursor<'_>,
        block: &mut FieldBlock,
    ) -> Result<(), DecoderError>
        requires some { 0 < length buf.old }
        requires own { begins 128 255 buf.old ≡ true }
        ensures { PutsLine self.now.table self.now.base buf.old buf.new block.old block.new result }
    {
        match Indexed::decode(buf)? {
            Indexed::Static(index) => {
                let field = StaticTable::get(index)?;
                put(block, &FieldRef::of(&field))
            }
            Indexed::Dynamic(index) => {
                let entry = self.relative(index)?;
                put(block, &lent(&entry))
            }
        }
    }

    /// Adds the field of a line that is an entry, by its distance from the base on.
    fn put_post_base(
        &self,
        buf: &mut SliceCursor<'_>,
        block: &mut FieldBlock,
    ) -> Result<(), DecoderError>
        requires some { 0 < length buf.old }
        requires own { begins 16 31 buf.old ≡ true }
        ensures { PutsLine self.now.table self.now.base buf.old buf.new block.old block.new result }
    {
        let line = IndexedWithPostBase::decode(buf)?;
        let entry = self.post_base(line.0)?;
        put(block, &lent(&entry))
    }

    /// Adds the field of a line with a literal value and the name of an entry, which is read straight onto the block. False: nothing
    /// is added.
    fn has_put_named(&self, buf: &mut SliceCursor<'_>, block: &mut FieldBlock) -> bool
        requires some { 0 < length buf.old }
        requires own { begins 64 127 buf.old ≡ true }
        ensures yes { result ≡ true → HasPut self.now.table self.now.base buf.old buf.new block.old block.new }
        ensures no { result ≡ false → block.new ≡ block.old }
    {
        match LiteralWithNameRef::decode_index(buf) {
            Ok(head) => match head.0 {
                NameRef::Static(index) => match StaticTable::get_name(index) {
                    Ok(name) => has_put_value(block, name, head.1, buf),
                    Err(_) => false,
                },
                NameRef::Dynamic(index) => match self.relative(index) {
                    Ok(entry) => has_put_value(block, entry.name(), head.1, buf),
                    Err(_) => false,
                },
            },
            Err(_) => false,
        }
    }

    /// The same for a name that the line gives by its distance from the base on.
    fn has_put_post_base_named(&self, buf: &mut SliceCursor<'_>, block: &mut FieldBlock) -> bool
        requires some { 0 < length buf.old }
        requires own { begins 0 15 buf.old ≡ true }
        ensures yes { result ≡ true → HasPut self.now.table self.now.base buf.old buf.new block.old block.new }
        ensures no { result ≡ false → block.new ≡ block.old }
    {
        match LiteralWithPostBaseNameRef::decode_index(buf) {
            Ok(head) => match self.post_base(head.0) {
                Ok(entry) => has_put_value(block, entry.name(), head.1, buf),
                Err(_) => false,
            },
            Err(_) => false,
        }
    }

    /// Adds the field of a line with a literal value and the name of an entry.
    fn put_named(
        &self,
        buf: &mut SliceCursor<'_>,
        block: &mut FieldBlock,
    ) -> Result<(), DecoderError>
        requires some { 0 < length buf.old }
        requires own { begins 64 127 buf.old ≡ true }
        ensures { PutsLine self.now.table self.now.base buf.old buf.new block.old block.new result }
    {
        let mut ahead = SliceCursor::new(buf.chunk());
        if self.has_put_named(&mut ahead, block) {
            *buf = ahead;
            return Ok(());
        }
        self.put_other(buf, block)
    }

    /// The same for a name that the line gives by its distance from the base on.
    fn put_post_base_named(
        &self,
        buf: &mut SliceCursor<'_>,
        block: &mut FieldBlock,
    ) -> Result<(), DecoderError>
        requires some { 0 < length buf.old }
        requires own { begins 0 15 buf.old ≡ true }
        ensures { PutsLine self.now.table self.now.base buf.old buf.new block.old block.new result }
    {
        let mut ahead = SliceCursor::new(buf.chunk());
        if self.has_put_post_base_named(&mut ahead, block) {
            *buf = ahead;
            return Ok(());
        }
        self.put_other(buf, block)
    }

    /// Adds the field of a line with a literal name and value, which are read straight onto the block.
    fn put_literal(
        &self,
        buf: &mut SliceCursor<'_>,
        block: &mut FieldBlock,
    ) -> Result<(), DecoderError>
        requires some { 0 < length buf.old }
        requires own { begins 32 63 buf.old ≡ true }
        ensures { PutsLine self.now.table self.now.base buf.old buf.new block.old block.new result }
    {
        if Literal::has_read_onto(buf, block) {
            return Ok(());
        }
        self.put_other(buf, block)
    }

    /// Adds the field of the line at the front, whatever it is, by way of a field of its own.
    #[inline(never)]
    fn put_other(
        &self,
        buf: &mut SliceCursor<'_>,
        block: &mut FieldBlock,
    ) -> Result<(), DecoderError>
        requires { 0 < length buf.old }
        ensures { PutsLine self.now.table self.now.base buf.old buf.new block.old block.new result }
    {
        let line = self.take(buf)?;
        put(block, &line.lent())
    }

    /// Adds the field of the line at the front to the block.
    fn put_line(
        &self,
        buf: &mut SliceCursor<'_>,
        block: &mut FieldBlock,
    ) -> Result<(), DecoderError>
        requires { 0 < length buf.old }
        ensures { PutsLine self.now.table self.now.base buf.old buf.new block.old block.new result }
    {
        match HeaderBlockField::decode(buf.chunk()[0]) {
            HeaderBlockField::Indexed => self.put_indexed(buf, block),
            HeaderBlockField::LiteralWithNameRef => self.put_named(buf, block),
            HeaderBlockField::IndexedWithPostBase => self.put_post_base(buf, block),
            HeaderBlockField::LiteralWithPostBaseNameRef => self.put_post_base_named(buf, block),
            HeaderBlockField::Literal => self.put_literal(buf, block),
            HeaderBlockField::Unknown => self.put_other(buf, block),
        }
    }

    // RFC 9114 4.2.2: size of a section, received
    /// Reads the lines, to the end of `buf`, and adds their fields to an empty block as long as they sum to at most `max`.
    /// Answers their sum. None: they pass `max`, and nothing of `buf` is taken. No memory is asked for before the first line is
    /// read or has a string.
    pub(crate) fn block_within(
        &self,
        buf: &mut SliceCursor<'_>,
        max: u64,
        block: &mut FieldBlock,
    ) -> Result<Option<u64>, DecoderError>
        requires { block.old ≡ [] }
        ensures ok { IfOk result (λ told. MatchOption told (PassesLimit self.now.table self.now.base buf.old max × (buf.new ≡ buf.old))
            (λ sum. (fields_in self.now.table self.now.base buf.old ≡ Some block.new) × (sum ≡ told_size block.new) × (sum ≤ max)
            × (buf.new ≡ []))) }
        ensures err { IfErr result (IsReasonFor (fields_in self.now.table self.now.base buf.old ≡ None) (λ count. ⊥)) }
        ensures memory { IfErr result (λ e. e ≡ OutOfMemory → LinesAskMemory self.now.table self.now.base buf.old) }
    {
        let mut ahead = SliceCursor::new(buf.chunk());
        let mut mem_size: u64 = 0;
        // (the label names the loop in its proof)
        'lines: while ahead.remaining() > 0 {
            self.put_line(&mut ahead, block)?;
            mem_size = size_of_block(block);
            if mem_size > max {
                return Ok(None);
            }
        }
        *buf = ahead;
        Ok(Some(mem_size))
    }

    /// Reads the lines, to the end of `buf`, into an empty block. Their fields are kept as long as they sum to at most `max`. Once they
    /// pass it they are removed, and all lines are read again and counted. No memory is asked for before the first line is read or has a
    /// string.
    pub(crate) fn take_block(
        &self,
        buf: &mut SliceCursor<'_>,
        dyn_ref: bool,
        max: u64,
        name: &[u8],
        block: &mut FieldBlock,
    ) -> Result<BlockWithin, DecoderError>
        requires { block.old ≡ [] }
        ensures ok { IfOk result
            (λ d. (fields : List Field) × (fields_in self.now.table self.now.base buf.old ≡ Some fields)
            × IsBlockWithin max name.now dyn_ref fields d block.new × (buf.new ≡ [])) }
        ensures err { IfErr result (IsReasonFor (fields_in self.now.table self.now.base buf.old ≡ None) (λ count. ⊥)) }
        ensures memory { IfErr result (λ e. e ≡ OutOfMemory → LinesAskMemory self.now.table self.now.base buf.old) }
    {
        match self.block_within(buf, max, block)? {
            Some(mem_size) => Ok(BlockWithin::Fields(SectionSummary { dyn_ref, mem_size })),
            None => {
                block.clear();
                let large = self.take_large(buf, dyn_ref, name)?;
                Ok(BlockWithin::TooLarge(large))
            }
        }
    }

    /// Reads the lines, to the end of `buf`, into an empty block, whatever their fields sum to, and answers the sum. A refusal leaves
    /// the block empty.
    pub(crate) fn block(
        &self,
        buf: &mut SliceCursor<'_>,
        block: &mut FieldBlock,
    ) -> Result<u64, DecoderError>
        requires { block.old ≡ [] }
        ensures ok { IfOk result
            (λ sum. (fields_in self.now.table self.now.base buf.old ≡ Some block.new) × (sum ≡ told_size block.new) × (buf.new ≡ [])) }
        ensures err { IfErr result
            (λ e. IsReasonFor (fields_in self.now.table self.now.base buf.old ≡ None) (λ count. ⊥) e × (block.new ≡ [])) }
        ensures memory { IfErr result (λ e. e ≡ OutOfMemory → LinesAskMemory self.now.table self.now.base buf.old) }
    {
        match self.block_within(buf, u64::MAX, block) {
            Ok(Some(sum)) => Ok(sum),
            Ok(None) => unreachable!(),
            Err(e) => {
                block.clear();
                Err(e)
            }
        }
    }
}
