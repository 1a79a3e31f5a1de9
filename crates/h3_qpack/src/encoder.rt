//! An encoder with its dynamic table: what it writes, and what it reads of its decoder (RFC 9204, sections 2.1 and 4).
ghost use Rattle.std.specs.Prelude.{◌≡◌, ◌≢◌, ◌==◌, ◌<◌, ◌≤◌, ◌^◌, ◌++◌, ◌-◌, true, false, length, drop, min, IfOk, IfErr, OnOk, OnErr};
ghost use Rattle.std.specs.Result.{IsOkUnless};
ghost use Rattle.h3_field.specs.Field.{section_size};
ghost use Rattle.h3_field.specs.declared.encoder_error.EncoderError.TheVariants.{OutOfMemory};
ghost use Rattle.h3_field.specs.Reading.{Unfinished};
ghost use Rattle.h3_field.specs.Shapes.{begins};
ghost use Rattle.h3_field.specs.InstructionReading.{decoder_instruction};
ghost use Rattle.h3_qpack.specs.EncoderHistory.{EncoderHistory, no_table, using_table, blocks_out, was_canceled, writing_on, withdrawn};
ghost use Rattle.h3_table.specs.Table.{table};
ghost use Rattle.h3_qpack.specs.EncoderState.{encoder_state, was_canceled_in, MayHaveCapacity};
ghost use Rattle.h3_table.specs.Cancellations.{none_canceled};
ghost use Rattle.h3_qpack.specs.Drafting.{IsSent, IsCutOff};
ghost use Rattle.h3_table.specs.TableState.{with_capacity};
ghost use Rattle.h3_field.specs.Instruction.{encoder_bytes};
ghost use Rattle.h3_field.specs.Instruction.EncoderInstruction.{SetCapacity};
ghost use Rattle.h3_qpack.specs.Hearing.{HasListened};
ghost use Rattle.h3_qpack.specs.EncoderAnswers.{HasReadDecoderInstructions, AnswersDecoderInstruction, IsLeft, IsDecoderInstructionRefusal};
ghost use Rattle.h3_qpack.specs.EncoderAnswers.{IsSizeRefusal, IsTableRefusal};

use crate::dynamic::{DynamicTable, MAX_BLOCKED};
use crate::encoder_choices::EncoderChoices;
use crate::section::Section;
use crate::static_section::put_static_section;
use crate::writing::{put_fields, put_section};
use h3_field::stream::{
    DecoderInstruction, DynamicTableSizeUpdate, HeaderAck, InsertCountIncrement, StreamCancel,
};
use h3_field::{EncoderError, Fields, HeaderField, SliceCursor, dynamic};
use h3_table::entries::MAX_CAPACITY;
use std::alloc::Global;
use std::marker::Model;

/// Writes field sections over one dynamic table, and keeps what its decoder says of it.
#[derive(Drop)]
pub struct Encoder {
    table: DynamicTable,
    // the lines of a section, before its prefix is known
    lines: Vec<u8>,
}

impl Model for Encoder {
    ghost use Rattle.h3_qpack.specs.EncoderState.{EncoderState};

    ghost Value = { EncoderState };

    ghost view = { λ e. e.table };
}

impl Encoder {
    /// An encoder that may not use a table.
    pub fn new(alloc: Global) -> Encoder
        ensures { result ≡ encoder_state no_table }
    {
        Encoder {
            table: DynamicTable::new(alloc),
            lines: Vec::new(alloc),
        }
    }

    /// An encoder with this table.
    pub fn from(table: DynamicTable) -> Encoder
        ensures { result ≡ table }
    {
        let lines = Vec::new(table.alloc());
        Encoder { table, lines }
    }

    /// From now on an acknowledgment of a section tells of the insertions that the section needs (RFC 9204, section 2.1.4), or does not. If
    /// it does, an increment that is 0 or past what was inserted is refused (RFC 9204, section 4.4.3), and else it is not. Off at first.
    pub fn count_acknowledgments(&mut self, counted: bool)
        ensures { (s : EncoderHistory) → self.old ≡ encoder_state s
            → self.new ≡ encoder_state (record s { counts_acknowledgments = counted }) }
    {
        self.table.count_acknowledgments(counted);
    }

    /// From now on the encoder goes by these choices. At first nothing is chosen.
    pub fn choose(&mut self, choices: EncoderChoices)
        ensures { (s : EncoderHistory) → self.old ≡ encoder_state s → self.new ≡ encoder_state (record s { choices = choices }) }
    {
        self.table.choose(choices);
    }

    /// From now on at most so many of the streams are kept whose cancellation is read, or all, as at first; those that were kept are
    /// forgotten. If there is one too many the least goes. From then on each stream up to it counts as canceled that has no tracked
    /// section: its sections name no entry, which costs their compression alone.
    pub fn keep_canceled(&mut self, most: Option<usize>)
        ensures { (s : EncoderHistory) → self.old ≡ encoder_state s
            → self.new ≡ encoder_state (record s { canceled = none_canceled most }) }
    {
        self.table.keep_canceled(most);
    }

    /// From now on `use_table` and `allow_table` give the table at most this capacity, whatever the decoder announces. 2^30 - 1 at
    /// first, which is as much as a table has.
    pub fn limit_table(&mut self, most: usize)
        ensures { (s : EncoderHistory) → self.old ≡ encoder_state s → self.new ≡ encoder_state (record s { most_capacity = most }) }
    {
        self.table.limit_capacity(most);
    }

    /// The most that the table is given.
    pub fn table_limit(&self) -> usize
        ensures value { result ≡ self.now.most_capacity }
    {
        self.table.most_capacity()
    }

    /// How many insertions are known to be received.
    pub fn known_received(&self) -> usize
        ensures value { result ≡ self.now.known_received }
        ensures history { (s : EncoderHistory) → self.now ≡ encoder_state s → result ≡ s.known_received }
    {
        self.table.known_received()
    }

    /// How many sections may be blocked at the decoder.
    pub fn blocks_out(&self) -> usize
        ensures value { result ≡ length self.now.blocking_counts }
        ensures history { (s : EncoderHistory) → self.now ≡ encoder_state s → result ≡ blocks_out s }
    {
        self.table.blocks_out()
    }

    /// How many fields were ever inserted into the table.
    pub fn inserted(&self) -> usize
        ensures value { result ≡ self.now.table.inserted }
        ensures small { result < 2 ^ 62 }
        ensures history { (s : EncoderHistory) → self.now ≡ encoder_state s → result ≡ length s.inserted }
    {
        self.table.inserted()
    }

    /// The sum of the sizes of the entries of the table (RFC 9204, section 3.2.1), at most its capacity.
    pub fn table_size(&self) -> usize
        ensures value { result ≡ section_size self.now.table.entries }
        ensures small { result ≤ self.now.table.capacity }
        ensures history { (s : EncoderHistory) → self.now ≡ encoder_state s → result ≡ section_size (table s.capacity s.inserted) }
    {
        self.table.size()
    }

    /// Whether the stream counts as canceled (RFC 9204, section 4.4.2): what is written on it names no entry. Each stream does whose
    /// cancellation was read, and if at most so many are kept (`keep_canceled`) also one below them that has no tracked section.
    pub fn is_canceled(&self, stream: u64) -> bool
        ensures value { result ≡ was_canceled_in self.now stream }
        ensures history { (s : EncoderHistory) → self.now ≡ encoder_state s → result ≡ was_canceled s stream }
    {
        self.table.is_canceled(stream)
    }

    /// Lets an encoder that has inserted nothing use a table. Its decoder announced this capacity, at most 2^30 - 1, and that up to
    /// `blocked` sections, at most 65535, may be blocked there. The table gets the lesser of that capacity and the most that it may have
    /// (`limit_table`; what a table costs stands at `h3_table::entries::MAX_CAPACITY`). The instruction for it is appended (RFC 9204,
    /// section 4.3.1). What was written and read before stands. A refusal changes nothing.
    pub fn use_table(
        &mut self,
        announced: usize,
        blocked: usize,
        out: &mut Vec<u8>,
    ) -> Result<(), EncoderError>
        requires { self.old.table.inserted ≡ 0 }
        ensures limits { OnOk result ((announced < 2 ^ 30) × (blocked ≤ 65535)) }
        ensures ok { OnOk result
            ((s : EncoderHistory) → self.old ≡ encoder_state s → self.new ≡ encoder_state (using_table s announced blocked)) }
        ensures written { OnOk result
            (out.new.items ≡ out.old.items ++ encoder_bytes (SetCapacity (min self.old.most_capacity announced))) }
        ensures err { IfErr result (λ e. IsTableRefusal announced blocked e × (self.new ≡ self.old) × (out.new.items ≡ out.old.items)) }
    {
        if announced > MAX_CAPACITY {
            return Err(EncoderError::Insertion(dynamic::Error::MaximumTableSizeTooLarge));
        }
        if blocked > MAX_BLOCKED {
            return Err(EncoderError::Insertion(dynamic::Error::MaxBlockedStreamsTooLarge));
        }
        let capacity = self.table.most_capacity().min(announced);
        DynamicTableSizeUpdate(capacity).encode(out)?;
        self.table.use_announced(announced, blocked);
        Ok(())
    }

    /// The same if the caller writes the instruction for the capacity. It takes no memory.
    pub fn allow_table(&mut self, announced: usize, blocked: usize)
        requires empty { self.old.table.inserted ≡ 0 }
        requires small { announced < 2 ^ 30 }
        requires few { blocked ≤ 65535 }
        ensures { (s : EncoderHistory) → self.old ≡ encoder_state s → self.new ≡ encoder_state (using_table s announced blocked) }
    {
        let table = &mut self.table;
        table.use_announced(announced, blocked);
    }

    // RFC 9204 4.4.1: section acknowledgment, read
    /// Reads the acknowledgment at the front. What is refused is left unread.
    fn take_acknowledgment(&mut self, buf: &mut SliceCursor<'_>) -> Result<bool, EncoderError>
        requires some { 0 < length buf.old }
        requires own { begins 128 255 buf.old ≡ true }
        ensures { AnswersDecoderInstruction self.old self.new buf.old buf.new result }
    {
        let mut ahead = SliceCursor::new(buf.chunk());
        match HeaderAck::decode(&mut ahead) {
            Ok(Some(HeaderAck(stream))) => {
                if !self.table.acknowledge(stream) {
                    let unknown = dynamic::Error::UnknownStreamId(stream);
                    return Err(EncoderError::Insertion(unknown));
                }
                *buf = ahead;
                Ok(true)
            }
            Ok(None) => Ok(false),
            Err(e) => Err(EncoderError::from(e)),
        }
    }

    /// Reads the cancellation at the front: its stream is kept, and all its tracked sections are released. If there is no memory to keep
    /// the stream, the instruction is left unread and nothing is released.
    fn take_cancellation(&mut self, buf: &mut SliceCursor<'_>) -> Result<bool, EncoderError>
        requires some { 0 < length buf.old }
        requires own { begins 64 127 buf.old ≡ true }
        ensures { AnswersDecoderInstruction self.old self.new buf.old buf.new result }
    {
        let mut ahead = SliceCursor::new(buf.chunk());
        match StreamCancel::decode(&mut ahead) {
            Ok(Some(StreamCancel(stream))) => {
                let Ok(()) = self.table.cancel(stream) else {
                    return Err(EncoderError::OutOfMemory);
                };
                *buf = ahead;
                Ok(true)
            }
            Ok(None) => Ok(false),
            Err(e) => Err(EncoderError::from(e)),
        }
    }

    /// Reads the increment at the front. What is refused is left unread.
    fn take_increment(&mut self, buf: &mut SliceCursor<'_>) -> Result<bool, EncoderError>
        requires some { 0 < length buf.old }
        requires own { begins 0 63 buf.old ≡ true }
        ensures { AnswersDecoderInstruction self.old self.new buf.old buf.new result }
    {
        let mut ahead = SliceCursor::new(buf.chunk());
        match InsertCountIncrement::decode(&mut ahead) {
            Ok(Some(InsertCountIncrement(count))) => {
                if self.table.refuses_increment(count) {
                    let invalid = dynamic::Error::InvalidTrackingCount;
                    return Err(EncoderError::Insertion(invalid));
                }
                self.table.update_largest_received(count as usize);
                *buf = ahead;
                Ok(true)
            }
            Ok(None) => Ok(false),
            Err(e) => Err(EncoderError::from(e)),
        }
    }

    /// Reads the instruction at the front, and does as it says. What is refused is left unread.
    fn take_instruction(&mut self, buf: &mut SliceCursor<'_>) -> Result<bool, EncoderError>
        requires { 0 < length buf.old }
        ensures { AnswersDecoderInstruction self.old self.new buf.old buf.new result }
    {
        match DecoderInstruction::decode(buf.chunk()[0]) {
            DecoderInstruction::HeaderAck => self.take_acknowledgment(buf),
            DecoderInstruction::StreamCancel => self.take_cancellation(buf),
            _ => self.take_increment(buf),
        }
    }

    /// Reads a decoder's instructions: the whole ones at the front, up to the first that is refused. One that is not whole, or is refused,
    /// is left unread; those before it stand. Refused are an integer out of range and an acknowledgment of a stream without a tracked
    /// section. If acknowledgments count, an increment that is 0 or past what was inserted is refused. If an allocation fails, the first
    /// cancellation of a stream is refused. What is left unread is an end of what was there.
    pub fn on_decoder_recv(&mut self, read: &mut SliceCursor<'_>) -> Result<(), EncoderError>
        ensures read_before { HasReadDecoderInstructions self.old self.new read.old read.new }
        ensures rest { read.new ≡ drop (length read.old - length read.new) read.old }
        ensures ok { OnOk result (decoder_instruction read.new ≡ Unfinished) }
        ensures err { IfErr result
            (λ e. ((s : EncoderHistory) → self.new ≡ encoder_state s → IsLeft s read.new e)
            × IsDecoderInstructionRefusal (decoder_instruction read.new) e) }
        ensures value { OnOk result ((s : EncoderHistory) → self.old ≡ encoder_state s → HasListened s self.new read.old read.new false) }
        ensures refused { IfErr result
            (λ e. e ≢ OutOfMemory → (s : EncoderHistory) → self.old ≡ encoder_state s → HasListened s self.new read.old read.new true) }
    {
        while read.remaining() > 0 {
            let is_read = self.take_instruction(read)?;
            if !is_read {
                return Ok(());
            }
        }
        Ok(())
    }

    /// Appends an encoded field section to `block`, and the instructions for it to `encoder_buf`, and answers its required insert count
    /// (RFC 9204, sections 2.1 and 4.5). The sizes of the fields sum to less than 2^62. The section is tracked under its stream if it names
    /// entries. On a stream whose cancellation was read it names none and inserts nothing, since nobody acknowledges it. The one refusal is
    /// out of memory: then `block` is as it was, and `encoder_buf` gained whole instructions, those of the insertions that were made.
    pub fn encode(
        &mut self,
        stream: u64,
        block: &mut Vec<u8>,
        encoder_buf: &mut Vec<u8>,
        fields: &[HeaderField],
    ) -> Result<usize, EncoderError>
        requires { section_size fields.now < 2 ^ 62 }
        ensures memory { IsOkUnless result OutOfMemory }
        ensures sent { IfOk result (λ count. (s : EncoderHistory) → self.old ≡ encoder_state s →
            IsSent s stream fields.now count self.new block.old.items block.new.items encoder_buf.old.items encoder_buf.new.items) }
        ensures grows { length encoder_buf.old.items ≤ length encoder_buf.new.items }
        ensures unwritten { OnErr result (block.new.items ≡ block.old.items) }
        ensures cut_off { OnErr result
            ((s : EncoderHistory) → self.old ≡ encoder_state s
            → IsCutOff s (writing_on s stream) fields.now self.new encoder_buf.old.items encoder_buf.new.items) }
    {
        self.encode_lent(stream, block, encoder_buf, &Fields::of(fields))
    }

    // RFC 9204 2.1.2: required insert count of a section
    /// The same for fields that lie in a list or in a block.
    pub fn encode_lent(
        &mut self,
        stream: u64,
        block: &mut Vec<u8>,
        encoder_buf: &mut Vec<u8>,
        fields: &Fields<'_>,
    ) -> Result<usize, EncoderError>
        requires { section_size fields.now < 2 ^ 62 }
        ensures memory { IsOkUnless result OutOfMemory }
        ensures sent { IfOk result (λ count. (s : EncoderHistory) → self.old ≡ encoder_state s →
            IsSent s stream fields.now count self.new block.old.items block.new.items encoder_buf.old.items encoder_buf.new.items) }
        ensures grows { length encoder_buf.old.items ≤ length encoder_buf.new.items }
        ensures unwritten { OnErr result (block.new.items ≡ block.old.items) }
        ensures cut_off { OnErr result
            ((s : EncoderHistory) → self.old ≡ encoder_state s
            → IsCutOff s (writing_on s stream) fields.now self.new encoder_buf.old.items encoder_buf.new.items) }
    {
        if self.table.names_none(stream) {
            put_static_section(self.table.choices(), fields, block)?;
            return Ok(0);
        }
        self.lines.clear();
        let mut section = Section::begin(&self.table);
        put_fields(
            &mut self.table,
            &mut section,
            fields,
            &mut self.lines,
            encoder_buf,
        )?;
        // (for the proof: its numbers are small)
        self.table.is_small();
        let start = block.len();
        put_section(&self.table, &section, &self.lines, block)?;
        if section.newest != 0 {
            let Ok(()) = self.table.track(stream, section.newest, section.oldest) else {
                block.truncate(start);
                return Err(EncoderError::OutOfMemory);
            };
        }
        Ok(section.newest)
    }

    /// Takes back the newest section of a stream, as if it had not been written: for a section that is not sent after all. `count` is its
    /// required insert count. Its insertions stay, and so do the marks of its literals.
    pub fn withdraw(&mut self, stream: u64, count: usize)
        ensures { (s : EncoderHistory) → self.old ≡ encoder_state s → self.new ≡ encoder_state (withdrawn s stream count) }
    {
        self.table.withdraw(stream, count);
    }
}

/// Sets the capacity of a table, as the one that its decoder announced, and appends the instruction for it (RFC 9204, section 4.3.1). A
/// refusal changes nothing; memory is asked for last, if the table may have the capacity.
pub fn set_dynamic_table_size(
    table: &mut DynamicTable,
    out: &mut Vec<u8>,
    size: usize,
) -> Result<(), EncoderError>
    ensures ok { OnOk result
        (MayHaveCapacity table.old size × (table.new ≡ record table.old { table = with_capacity table.old.table size; announced = size })) }
    ensures written { OnOk result (out.new.items ≡ out.old.items ++ encoder_bytes (SetCapacity size)) }
    ensures err { IfErr result (λ e. IsSizeRefusal table.old size e × (table.new ≡ table.old) × (out.new.items ≡ out.old.items)) }
{
    table.evicted_with_capacity(size)?;
    DynamicTableSizeUpdate(size).encode(out)?;
    table.set_max_size(size)?;
    Ok(())
}
