//! A decoder with its dynamic table (RFC 9204, sections 2.2 and 4).
ghost use Rattle.std.specs.Prelude.{◌≡◌, ◌≢◌, ◌≤◌, ◌<◌, ◌^◌, ℕ, ◌-◌, List, [], Some, true, false, length, min, nat_lt, drop, IfOk, IfErr};
ghost use Rattle.std.specs.Prelude.{IfNone, IfSome, OnOk, OnErr, ◌++◌};
ghost use Rattle.h3_field.specs.Instruction.{decoder_bytes};
ghost use Rattle.h3_field.specs.Instruction.DecoderInstruction.{Acknowledge, CancelStream};
ghost use Rattle.h3_field.specs.Reading.{Unfinished};
ghost use Rattle.h3_field.specs.InstructionAnswer.{short_named_insertion};
ghost use Rattle.h3_field.specs.InstructionReading.{instruction};
ghost use Rattle.h3_qpack.specs.Increments.{increment_for};
ghost use Rattle.h3_field.specs.Field.{Field, section_size};
ghost use Rattle.h3_field.specs.declared.decoder_error.DecoderError.TheVariants.{OutOfMemory};
ghost use Rattle.h3_field.specs.Shapes.{begins};
ghost use Rattle.h3_qpack.specs.DecoderState.{DecoderState, announcing, checking, greatest_capacity, insertion_of};
ghost use Rattle.h3_qpack.specs.Meaning.{HasPrefix, MeansFields, names_no_entry, table_for};
ghost use Rattle.h3_qpack.specs.DecodedSection.{decode_section, fields_in, with_fields, IsRefusalOf, Fields};
ghost use Rattle.h3_qpack.specs.Sizes.{IsBlockWithin};
ghost use Rattle.h3_qpack.specs.SectionAnswers.{MayAskMemory, IsRefusal, IsReasonFor};
ghost use Rattle.h3_qpack.specs.InstructionAnswers.{AnswersInsertionRead, AnswersOne, BeginsInsertion};
ghost use Rattle.h3_qpack.specs.Instructions.{HasRead, BeginsBad};
ghost use Rattle.h3_qpack.specs.Hearing.{heard, hear};

use crate::block_within::{BlockWithin, SectionSummary};
use crate::dynamic::DynamicTable;
use crate::lines::{Lines, relative, relative_name_room};
use crate::reserved::{INCREMENT_LEN, put_increment};
use h3_field::block::{HeaderPrefix, NameRef};
use h3_field::dynamic::Error;
use h3_field::static_::StaticTable;
use h3_field::stream::{
    Duplicate, DynamicTableSizeUpdate, EncoderInstruction, HeaderAck, InsertWithNameRef,
    InsertWithoutNameRef, StreamCancel,
};
use h3_field::{Decoded, DecoderError, FieldBlock, HeaderField, ShortString, SliceCursor};
use h3_table::entries::{Entries, MAX_CAPACITY, MOST_INSERTIONS};
use std::alloc::{AllocError, Global};
use std::borrow::CowSlice;
use std::marker::Model;

/// Reads encoded field sections and an encoder's instructions against one dynamic table.
#[derive(Drop)]
pub struct Decoder {
    alloc: Global,
    entries: Entries,
    // the greatest capacity that was announced; none if the table came with a capacity of its own
    announced: Option<usize>,
    // whether each section is held to its required insert count
    checks_count: bool,
}

impl Model for Decoder {
    ghost use Rattle.h3_qpack.specs.DecoderState.{DecoderState};

    ghost Value = { DecoderState };

    ghost use Rattle.h3_qpack.specs.DecoderInside.{decoder_state_inside, IsDecoder};

    ghost view = { decoder_state_inside };

    ghost invariant = { IsDecoder };
}

impl Decoder {
    /// A decoder that announced this capacity. Its table has capacity 0 until an instruction sets it.
    pub fn announced(alloc: Global, capacity: usize) -> Decoder
        requires { capacity < 2 ^ 30 }
        ensures { result ≡ announcing capacity }
    {
        Decoder {
            alloc,
            entries: Entries::new(alloc),
            announced: Some(capacity),
            checks_count: false,
        }
    }

    /// A decoder with this table, whose capacity may be set to any.
    pub fn from(alloc: Global, table: DynamicTable) -> Decoder
        ensures { result ≡ record { announced = None; checks_count = false; table = table.table } }
    {
        Decoder {
            alloc,
            entries: table.into_entries(),
            announced: None,
            checks_count: false,
        }
    }

    /// The same decoder, which holds each section to its required insert count, or does not. If it does, a line of an entry from that count
    /// on is bad (RFC 9204, section 2.2.3), and without an announced table so is a prefix whose encoded count or sign is not 0 (sections
    /// 4.5.1.1 and 4.5.1.2). Else an entry that is there may be named, and without a table a prefix says nothing.
    pub fn checking_counts(self, checks: bool) -> Decoder
        ensures { result ≡ checking checks self }
    {
        Decoder {
            alloc: self.alloc,
            entries: self.entries,
            announced: self.announced,
            checks_count: checks,
        }
    }

    /// How many insertions were read.
    pub fn inserted(&self) -> usize
        ensures value { result ≡ self.now.table.inserted }
        ensures small { result < 2 ^ 62 }
    {
        self.entries.inserted()
    }

    /// The sum of the sizes of the entries of the table (RFC 9204, section 3.2.1): at most its capacity, which is at most the
    /// announced one.
    pub fn table_size(&self) -> usize
        ensures value { result ≡ section_size self.now.table.entries }
        ensures small { result ≤ self.now.table.capacity }
        ensures announced { self.now.table.capacity ≤ greatest_capacity self.now }
    {
        self.entries.size()
    }

    // RFC 9204 2.2.1: missing insertions
    /// The required insert count and the base of the section at the front, whose lines are left. What needs insertions that
    /// were not read is refused.
    fn take_prefix(&self, buf: &mut SliceCursor<'_>) -> Result<(usize, usize), DecoderError>
        ensures ok { IfOk result (λ p. decode_section self.now buf.old ≡ with_fields p.0 (fields_in (table_for self.now p.0) p.1 buf.new)) }
        ensures begins { IfOk result (λ p. HasPrefix self.now buf.old buf.new p.0 p.1 × (p.0 ≤ self.now.table.inserted)) }
        ensures err { IfErr result (IsRefusalOf (decode_section self.now buf.old)) }
        ensures memory { IfErr result (λ e. e ≢ OutOfMemory) }
    {
        let prefix = match HeaderPrefix::decode(buf) {
            Ok(prefix) => prefix,
            Err(e) => return Err(DecoderError::from(e)),
        };
        let inserted = self.entries.inserted();
        let capacity = self.announced.unwrap_or(self.entries.capacity());
        if self.checks_count && capacity == 0 {
            if names_no_entry(prefix) {
                return Ok((0, 0));
            }
            return Err(DecoderError::BadBaseIndex);
        }
        let (count, base) = match prefix.get(inserted, capacity) {
            Ok(found) => found,
            Err(e) => return Err(DecoderError::from(e)),
        };
        if count > inserted {
            return Err(DecoderError::MissingRefs(count));
        }
        Ok((count, base))
    }

    /// The lines of a section of this required insert count and base, which name no entry that it may not.
    fn lines(&self, count: usize, base: usize, longest_name: usize) -> Lines<'_>
        ensures { result ≡ record { table = table_for self.now count; base = base } }
    {
        // (for the proof: no more entries are there than were inserted)
        self.entries.evicted();
        let most = if self.checks_count {
            count
        } else {
            self.entries.inserted()
        };
        Lines::new(self.alloc, &self.entries, base, most, longest_name)
    }

    /// Decodes an encoded field section, to the end of `buf` (RFC 9204, section 4.5), as `decode_block`, into a list of fields of their
    /// own. A refused read takes nothing.
    pub fn decode_header(&self, buf: &mut SliceCursor<'_>) -> Result<Decoded, DecoderError>
        ensures ok { IfOk result (λ d. (count : ℕ) × MeansFields self.now buf.old count d.fields.items × (d.dyn_ref ≡ nat_lt 0 count)
            × (d.mem_size ≡ min (2 ^ 64 - 1) (section_size d.fields.items)) × (buf.new ≡ [])) }
        ensures value { IfOk result
            (λ d. (count : ℕ) × (decode_section self.now buf.old ≡ Fields d.fields.items count) × (d.dyn_ref ≡ nat_lt 0 count)) }
        ensures err { IfErr result (λ e. IsRefusal self.now buf.old e × (buf.new ≡ buf.old)) }
        ensures refusal { IfErr result (IsRefusalOf (decode_section self.now buf.old)) }
        ensures memory { IfErr result (λ e. e ≡ OutOfMemory → MayAskMemory self.now buf.old) }
    {
        let mut ahead = SliceCursor::new(buf.chunk());
        let mut block = FieldBlock::new(self.alloc);
        let told = match self.decode_block(&mut ahead, &mut block) {
            Ok(told) => told,
            Err(e) => return Err(e),
        };
        let Ok(fields) = block.to_fields(self.alloc) else {
            return Err(DecoderError::OutOfMemory);
        };
        *buf = ahead;
        Ok(Decoded {
            fields,
            dyn_ref: told.dyn_ref,
            mem_size: told.mem_size,
        })
    }

    /// Decodes an encoded field section, to the end of `buf` (RFC 9204, section 4.5), into a block whose memory serves again: the fields
    /// that it holds are removed first. If the sizes of the section's fields sum to at most `max` the block has them. Else it is left
    /// empty, and the answer is the sum and the value of the last field named `name`. What is held at one time is at most the fields up to
    /// the limit, one line and one value. The value's block may have room for a name of at most `max` bytes.
    ///
    /// `MissingRefs(n)`: the section needs n insertions, and not all were read; no line is read then. `OutOfMemory`: it may be tried again.
    /// Every other refusal is of a bad section, also if its fields before the bad line pass the limit. A refused read takes nothing, and
    /// leaves anything in the block. No memory is asked for before the first line is read or has a string.
    pub fn decode_block_within(
        &self,
        buf: &mut SliceCursor<'_>,
        max: u64,
        name: &[u8],
        block: &mut FieldBlock,
    ) -> Result<BlockWithin, DecoderError>
        ensures ok { IfOk result (λ d. (fields : List Field) × (count : ℕ) × (decode_section self.now buf.old ≡ Fields fields count)
            × IsBlockWithin max name.now (nat_lt 0 count) fields d block.new × (buf.new ≡ [])) }
        ensures err { IfErr result (λ e. IsRefusalOf (decode_section self.now buf.old) e × (buf.new ≡ buf.old)) }
        ensures memory { IfErr result (λ e. e ≡ OutOfMemory → MayAskMemory self.now buf.old) }
    {
        block.clear();
        let mut ahead = SliceCursor::new(buf.chunk());
        let (count, base) = match self.take_prefix(&mut ahead) {
            Ok(found) => found,
            Err(e) => return Err(e),
        };
        let lines = self.lines(count, base, max as usize);
        match lines.take_block(&mut ahead, count > 0, max, name, block) {
            Ok(decoded) => {
                *buf = ahead;
                Ok(decoded)
            }
            Err(e) => Err(e),
        }
    }

    /// Decodes an encoded field section, to the end of `buf`, as `decode_block_within`, whatever the sizes of its fields sum to. A refused
    /// read takes nothing, and leaves the block empty.
    pub fn decode_block(
        &self,
        buf: &mut SliceCursor<'_>,
        block: &mut FieldBlock,
    ) -> Result<SectionSummary, DecoderError>
        ensures ok { IfOk result (λ d. (count : ℕ) × MeansFields self.now buf.old count block.new × (d.dyn_ref ≡ nat_lt 0 count)
            × (d.mem_size ≡ min (2 ^ 64 - 1) (section_size block.new)) × (buf.new ≡ [])) }
        ensures value { IfOk result
            (λ d. (count : ℕ) × (decode_section self.now buf.old ≡ Fields block.new count) × (d.dyn_ref ≡ nat_lt 0 count)) }
        ensures err { IfErr result (λ e. IsRefusal self.now buf.old e × (buf.new ≡ buf.old) × (block.new ≡ [])) }
        ensures refusal { IfErr result (IsRefusalOf (decode_section self.now buf.old)) }
        ensures memory { IfErr result (λ e. e ≡ OutOfMemory → MayAskMemory self.now buf.old) }
    {
        block.clear();
        let mut ahead = SliceCursor::new(buf.chunk());
        let (count, base) = match self.take_prefix(&mut ahead) {
            Ok(found) => found,
            Err(e) => return Err(e),
        };
        let lines = self.lines(count, base, usize::MAX);
        match lines.block(&mut ahead, block) {
            Ok(mem_size) => {
                *buf = ahead;
                Ok(SectionSummary {
                    dyn_ref: count > 0,
                    mem_size,
                })
            }
            Err(e) => Err(e),
        }
    }

    /// The field of an insertion with the name of an entry.
    fn read_named(&self, buf: &mut SliceCursor<'_>) -> Result<Option<HeaderField>, DecoderError>
        requires some { 0 < length buf.old }
        requires own { begins 128 255 buf.old ≡ true }
        ensures { AnswersInsertionRead self.now.table buf.old buf.new result }
    {
        match self.read_short_named(buf) {
            Some(field) => Ok(Some(field)),
            None => self.read_long_named(buf),
        }
    }

    /// The same, if the field takes no memory. None: it may take some, or no insertion is read. Then nothing is taken.
    fn read_short_named(&self, buf: &mut SliceCursor<'_>) -> Option<HeaderField>
        requires some { 0 < length buf.old }
        requires own { begins 128 255 buf.old ≡ true }
        ensures some { IfSome result (λ f. BeginsInsertion self.now.table buf.old f buf.new) }
        ensures none { IfNone result (buf.new ≡ buf.old) }
    {
        let mut ahead = SliceCursor::new(buf.chunk());
        let mut value = ShortString::new();
        let name = InsertWithNameRef::decode_short(&mut ahead, &mut value)?;
        let field = self.short_named(name, value.as_slice())?;
        *buf = ahead;
        Some(field)
    }

    /// The field of the name of an entry and a value, if it takes no memory.
    fn short_named(&self, name: NameRef, value: &[u8]) -> Option<HeaderField>
        ensures names { IfSome result (λ f. insertion_of self.now.table (short_named_insertion value.now name) ≡ Some f) }
        ensures plain { IfSome result (λ f. f.never_indexed ≡ false) }
    {
        match name {
            NameRef::Static(index) => match StaticTable::get_name(index) {
                Ok(name) => {
                    let field = HeaderField::short_with_static_name(name, value)?;
                    Some(field)
                }
                Err(_) => None,
            },
            NameRef::Dynamic(index) => match relative(
                &self.entries,
                self.entries.inserted(),
                index,
            ) {
                Ok(entry) => {
                    let field = entry.with_short_value(value)?;
                    Some(field)
                }
                Err(_) => None,
            },
        }
    }

    /// The same with memory for the value.
    fn read_long_named(
        &self,
        buf: &mut SliceCursor<'_>,
    ) -> Result<Option<HeaderField>, DecoderError>
        requires some { 0 < length buf.old }
        requires own { begins 128 255 buf.old ≡ true }
        ensures { AnswersInsertionRead self.now.table buf.old buf.new result }
    {
        let newest = self.entries.inserted();
        let spare = relative_name_room(&self.entries, newest, 6, usize::MAX, buf);
        match InsertWithNameRef::decode_with_room(self.alloc, buf, spare) {
            Ok(Some(InsertWithNameRef::Static { index, value })) => match StaticTable::get_name(
                index,
            ) {
                Ok(name) => Ok(Some(HeaderField::with_static_name(name, value))),
                Err(e) => Err(DecoderError::InvalidStaticIndex(e)),
            },
            Ok(Some(InsertWithNameRef::Dynamic { index, value })) => {
                match relative(&self.entries, newest, index) {
                    Ok(entry) => match entry.with_value(value) {
                        Ok(field) => Ok(Some(field)),
                        Err(_) => Err(DecoderError::OutOfMemory),
                    },
                    Err(e) => Err(e),
                }
            }
            Ok(None) => Ok(None),
            Err(e) => Err(DecoderError::from(e)),
        }
    }

    /// The field of an insertion with a literal name.
    fn read_literal(&self, buf: &mut SliceCursor<'_>) -> Result<Option<HeaderField>, DecoderError>
        requires some { 0 < length buf.old }
        requires own { begins 64 127 buf.old ≡ true }
        ensures { AnswersInsertionRead self.now.table buf.old buf.new result }
    {
        match InsertWithoutNameRef::decode_short(buf) {
            Some(field) => Ok(Some(field)),
            None => self.read_long_literal(buf),
        }
    }

    /// The same with memory for both.
    fn read_long_literal(
        &self,
        buf: &mut SliceCursor<'_>,
    ) -> Result<Option<HeaderField>, DecoderError>
        requires some { 0 < length buf.old }
        requires own { begins 64 127 buf.old ≡ true }
        ensures { AnswersInsertionRead self.now.table buf.old buf.new result }
    {
        match InsertWithoutNameRef::decode(self.alloc, buf) {
            Ok(Some(InsertWithoutNameRef { name, value })) => Ok(Some(HeaderField::new(
                CowSlice::Owned(name),
                CowSlice::Owned(value),
            ))),
            Ok(None) => Ok(None),
            Err(e) => Err(DecoderError::from(e)),
        }
    }

    /// The field of a duplicate of an entry.
    fn read_duplicate(&self, buf: &mut SliceCursor<'_>) -> Result<Option<HeaderField>, DecoderError>
        requires some { 0 < length buf.old }
        requires own { begins 0 31 buf.old ≡ true }
        ensures { AnswersInsertionRead self.now.table buf.old buf.new result }
    {
        match Duplicate::decode(buf) {
            Ok(Some(Duplicate(index))) => {
                match relative(&self.entries, self.entries.inserted(), index) {
                    Ok(entry) => {
                        // (for the proof: no entry has the flag)
                        entry.is_plain();
                        match entry.copy(self.alloc) {
                            Ok(field) => Ok(Some(field)),
                            Err(_) => Err(DecoderError::OutOfMemory),
                        }
                    }
                    Err(e) => Err(e),
                }
            }
            Ok(None) => Ok(None),
            Err(e) => Err(DecoderError::from(e)),
        }
    }

    /// The field of the insertion at the front, which does not begin a capacity.
    fn read_insertion(&self, buf: &mut SliceCursor<'_>) -> Result<Option<HeaderField>, DecoderError>
        requires some { 0 < length buf.old }
        requires own { begins 32 63 buf.old ≡ false }
        ensures { AnswersInsertionRead self.now.table buf.old buf.new result }
    {
        match EncoderInstruction::decode(buf.chunk()[0]) {
            EncoderInstruction::InsertWithNameRef => self.read_named(buf),
            EncoderInstruction::InsertWithoutNameRef => self.read_literal(buf),
            EncoderInstruction::Duplicate => self.read_duplicate(buf),
            _ => Err(DecoderError::UnexpectedEnd),
        }
    }

    // RFC 9204 4.3.1: a capacity above the limit
    /// Reads a capacity at the front, and sets it. What is refused is left unread.
    fn take_capacity(&mut self, buf: &mut SliceCursor<'_>) -> Result<bool, DecoderError>
        requires some { 0 < length buf.old }
        requires own { begins 32 63 buf.old ≡ true }
        ensures { AnswersOne self.old self.new buf.old buf.new result }
    {
        let mut ahead = SliceCursor::new(buf.chunk());
        match DynamicTableSizeUpdate::decode(&mut ahead) {
            Ok(Some(DynamicTableSizeUpdate(capacity))) => {
                if capacity > self.announced.unwrap_or(MAX_CAPACITY) {
                    return Err(DecoderError::DynamicTable(Error::MaximumTableSizeTooLarge));
                }
                self.entries.set_capacity(capacity);
                *buf = ahead;
                Ok(true)
            }
            Ok(None) => Ok(false),
            Err(e) => Err(DecoderError::from(e)),
        }
    }

    /// Reads the insertion at the front, and inserts its field. What is refused is left unread.
    fn take_insertion(&mut self, buf: &mut SliceCursor<'_>) -> Result<bool, DecoderError>
        requires some { 0 < length buf.old }
        requires own { begins 32 63 buf.old ≡ false }
        ensures { AnswersOne self.old self.new buf.old buf.new result }
    {
        let mut ahead = SliceCursor::new(buf.chunk());
        match self.read_insertion(&mut ahead) {
            Ok(Some(field)) => {
                if self.entries.inserted() + 1 >= MOST_INSERTIONS {
                    return Err(DecoderError::DynamicTable(Error::MaxTableSizeReached));
                }
                if field.mem_size() > self.entries.capacity() {
                    return Err(DecoderError::DynamicTable(Error::MaxTableSizeReached));
                }
                if self.entries.insert(field).is_err() {
                    return Err(DecoderError::OutOfMemory);
                }
                *buf = ahead;
                Ok(true)
            }
            Ok(None) => Ok(false),
            Err(e) => Err(e),
        }
    }

    /// Reads the instruction at the front, and does as it says. What is refused is left unread.
    fn take_instruction(&mut self, buf: &mut SliceCursor<'_>) -> Result<bool, DecoderError>
        requires { 0 < length buf.old }
        ensures { AnswersOne self.old self.new buf.old buf.new result }
    {
        let first = buf.chunk()[0];
        if first >= 32 && first < 64 {
            return self.take_capacity(buf);
        }
        self.take_insertion(buf)
    }

    /// Reads the whole instructions at the front up to the first that is refused. It writes no increment: `put_increment` does, for as
    /// many insertions as `inserted` then counts more.
    pub fn take_instructions(&mut self, buf: &mut SliceCursor<'_>) -> Result<(), DecoderError>
        ensures read { HasRead self.old self.new buf.old buf.new }
        ensures grows { self.old.table.inserted ≤ self.new.table.inserted }
        ensures ok { OnOk result (instruction buf.new ≡ Unfinished) }
        ensures err { IfErr result (IsReasonFor (BeginsBad self.new buf.new) (λ count. ⊥)) }
    {
        while buf.remaining() > 0 {
            let is_read = self.take_instruction(buf)?;
            if !is_read {
                return Ok(());
            }
        }
        Ok(())
    }

    /// Reads an encoder's instructions, and writes one increment if some of them inserted. It answers the insertions so far. An instruction
    /// that is not whole, or is refused, is left unread; those before it stand, and the increment counts them. What is left unread is an
    /// end of what was there.
    pub fn on_encoder_recv(
        &mut self,
        read: &mut SliceCursor<'_>,
        write: &mut Vec<u8>,
    ) -> Result<usize, DecoderError>
        ensures read { HasRead self.old self.new read.old read.new }
        ensures rest { read.new ≡ drop (length read.old - length read.new) read.old }
        ensures ok { IfOk result (λ n. (n ≡ self.new.table.inserted) × (instruction read.new ≡ Unfinished)) }
        ensures err { IfErr result (IsReasonFor (BeginsBad self.new read.new) (λ count. ⊥)) }
        ensures value { OnOk result (hear self.old read.old ≡ heard self.new read.new false) }
        ensures bad { IfErr result (IsReasonFor (hear self.old read.old ≡ heard self.new read.new true) (λ count. ⊥)) }
        ensures increment { write.new.items ≡ write.old.items ++ increment_for (self.new.table.inserted - self.old.table.inserted) }
    {
        if write.reserve(INCREMENT_LEN).is_err() {
            return Err(DecoderError::OutOfMemory);
        }
        let before = self.entries.inserted();
        let outcome = self.take_instructions(read);
        let count = self.entries.inserted() - before;
        put_increment(count, write);
        if let Err(e) = outcome {
            return Err(e);
        }
        Ok(self.entries.inserted())
    }
}

// RFC 9204 4.5.1.1: prefix without a table
/// Whether the encoded count and the sign are 0.
fn names_no_entry(prefix: HeaderPrefix) -> bool
    ensures { result ≡ names_no_entry prefix }
{
    // by a table of one entry such a prefix has the count 0, and any other a greater one or none
    match prefix.get(0, 32) {
        Ok((count, _base)) => count == 0,
        Err(_) => false,
    }
}

/// Appends the acknowledgment of a stream's oldest section that is not yet acknowledged (RFC 9204, section 4.4.1). A
/// refusal appends nothing.
pub fn ack_header(stream: u64, out: &mut Vec<u8>) -> Result<(), AllocError>
    requires { stream < 2 ^ 62 }
    ensures ok { OnOk result (out.new.items ≡ out.old.items ++ decoder_bytes (Acknowledge stream)) }
    ensures err { OnErr result (out.new.items ≡ out.old.items) }
{
    HeaderAck(stream).encode(out)
}

/// Appends the cancellation of a stream (RFC 9204, section 4.4.2). A refusal appends nothing.
pub fn stream_canceled(stream: u64, out: &mut Vec<u8>) -> Result<(), AllocError>
    requires { stream < 2 ^ 62 }
    ensures ok { OnOk result (out.new.items ≡ out.old.items ++ decoder_bytes (CancelStream stream)) }
    ensures err { OnErr result (out.new.items ≡ out.old.items) }
{
    StreamCancel(stream).encode(out)
}
