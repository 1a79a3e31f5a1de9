//! The two ends of a session with a dynamic table. Bytes come in any pieces: what is not whole is kept.
ghost use Rattle.std.specs.Prelude.{◌≡◌, ℕ, nat_lt, IfOk, IfSome, IfNone};
ghost use Rattle.h3_qpack.specs.DecodedSection.{decode_section, Fields, Missing};

use crate::input::FieldList;
use crate::report::{Failure, Report};
use h3_field::waiting::{Wait, decoder_wait, decoder_wait_behind};
use h3_qpack::{
    BlockWithin, Decoder, DecoderError, DynamicTable, Encoder, EncoderChoices, FieldBlock,
    SliceCursor, ack_header, set_dynamic_table_size,
};
use h3_unidirectional::decoding::Decoding;
use h3_unidirectional::waiting::WaitingBytes;
use std::alloc::Global;

/// The greatest integer of variable length stands for no limit (RFC 9000, section 16).
const UNLIMITED: u64 = (1 << 62) - 1;

/// The choices of an encoder by `h3_config_default`.
const DEFAULT_CHOICES: EncoderChoices = EncoderChoices {
    economical: true,
    guards_secrets: true,
    shortest_strings: true,
};

/// Keeps the last `left` bytes. If these are all of them, nothing is moved: else bytes that come one by one would be moved at each.
fn keep_last(bytes: &mut Vec<u8>, left: usize) {
    let taken = bytes.len().saturating_sub(left);
    if taken == 0 {
        return;
    }
    bytes.copy_within(taken.., 0);
    bytes.truncate(bytes.len() - taken);
}

/// Appends the instruction of the capacity.
fn set_limits(
    table: &mut DynamicTable,
    capacity: usize,
    limit: usize,
    instructions: &mut Vec<u8>,
) -> Result<(), Failure> {
    table.set_max_blocked(limit).map_err(|_| Failure::Input)?;
    set_dynamic_table_size(table, instructions, capacity).map_err(|_| Failure::Input)
}

/// What an encoder begins with.
#[derive(Clone, Copy)]
pub(crate) struct EncoderSetup {
    /// The capacity of its table.
    pub(crate) capacity: usize,
    /// So many of its sections may wait.
    pub(crate) limit: usize,
    /// Whether it has the choices of `h3_config_default`, or none.
    pub(crate) chooses: bool,
}

/// An encoder, and the start of an instruction that is not whole.
#[derive(Drop)]
pub(crate) struct Sender {
    encoder: Encoder,
    unread: Vec<u8>,
    wait: Wait,
}

impl Sender {
    /// With a table. Appends the instruction of its capacity.
    pub(crate) fn new(
        alloc: Global,
        setup: EncoderSetup,
        instructions: &mut Vec<u8>,
    ) -> Result<Sender, Failure> {
        let mut table = DynamicTable::new(alloc);
        set_limits(&mut table, setup.capacity, setup.limit, instructions)?;
        let mut encoder = Encoder::from(table);
        if setup.chooses {
            encoder.choose(DEFAULT_CHOICES);
        }
        Ok(Sender {
            encoder,
            unread: Vec::new(alloc),
            wait: Wait::Bytes(1),
        })
    }

    /// Appends the list's section, and the instructions to be read before it.
    pub(crate) fn send(
        &mut self,
        stream: u64,
        list: &FieldList,
        section: &mut Vec<u8>,
        instructions: &mut Vec<u8>,
    ) -> Result<(), Failure> {
        self.encoder
            .encode(stream, section, instructions, list.fields())
            .map_err(|_| Failure::Memory)?;
        Ok(())
    }

    /// Reads what the decoder wrote.
    pub(crate) fn hear(&mut self, bytes: &[u8]) -> Result<(), Failure> {
        self.unread.extend_from_slice(bytes)?;
        self.wait = decoder_wait_behind(self.wait, bytes, &self.unread);
        if self.wait.goes_on() {
            return Ok(());
        }
        let mut read = SliceCursor::new(&self.unread);
        let heard = self.encoder.on_decoder_recv(&mut read);
        let left = read.remaining();
        keep_last(&mut self.unread, left);
        self.wait = decoder_wait(&self.unread);
        heard.map_err(|_| Failure::Refused)
    }
}

/// Decodes a section in place of the fields that the block holds, and answers whether it has to be acknowledged. None: it waits
/// for insertions.
fn decode_into(
    decoder: &Decoder,
    section: &[u8],
    block: &mut FieldBlock,
) -> Result<Option<bool>, Failure>
    ensures decoded { IfOk result (λ told. IfSome told (λ dyn_ref. (count : ℕ)
        × (decode_section decoder.now section.now ≡ Fields block.new count) × (dyn_ref ≡ nat_lt 0 count))) }
    ensures waits { IfOk result (λ told. IfNone told ((count : ℕ) × (decode_section decoder.now section.now ≡ Missing count))) }
{
    match decoder.decode_block(&mut SliceCursor::new(section), block) {
        Ok(told) => Ok(Some(told.dyn_ref)),
        Err(DecoderError::MissingRefs(_)) => Ok(None),
        Err(_) => Err(Failure::Refused),
    }
}

/// A decoder with its peer's encoder stream, as an endpoint has it, and the fields of the section that was decoded last.
#[derive(Drop)]
pub(crate) struct Receiver {
    decoding: Decoding,
    // one block for all sections, whose memory serves again
    block: FieldBlock,
}

impl Receiver {
    /// One that announced this capacity.
    pub(crate) fn new(alloc: Global, capacity: usize) -> Result<Receiver, Failure> {
        if capacity >= 1 << 30 {
            return Err(Failure::Input);
        }
        Ok(Receiver {
            decoding: Decoding::new(alloc, capacity, false),
            block: FieldBlock::new(alloc),
        })
    }

    /// Reads what the encoder wrote beside its sections, and appends the increment for it.
    pub(crate) fn hear(&mut self, bytes: &[u8], replies: &mut WaitingBytes) -> Result<(), Failure> {
        self.decoding.push(bytes)?;
        match self.decoding.read(UNLIMITED, replies)? {
            None => Ok(()),
            Some(_) => Err(Failure::Refused),
        }
    }

    /// Decodes a section, and appends the acknowledgment if it names entries. Its fields are lent up to the next section. None:
    /// it waits for instructions.
    pub(crate) fn decode(
        &mut self,
        stream: u64,
        section: &[u8],
        replies: &mut WaitingBytes,
    ) -> Result<Option<&FieldBlock>, Failure> {
        let Some(dyn_ref) = decode_into(self.decoding.decoder(), section, &mut self.block)? else {
            return Ok(None);
        };
        if dyn_ref {
            acknowledge(stream, replies.behind_mut())?;
        }
        Ok(Some(&self.block))
    }

    /// What the decoder says of a section whose fields are kept up to `max` bytes: how many were kept, and the size of all.
    pub(crate) fn weigh(&mut self, section: &[u8], max: u64) -> Result<Report, Failure> {
        let mut section = SliceCursor::new(section);
        let told = self
            .decoding
            .decoder()
            .decode_block_within(&mut section, max, &[], &mut self.block)
            .map_err(|_| Failure::Refused)?;
        Ok(report_of(&told, self.block.len()))
    }

    /// Decodes a section that does not have to wait. Returns the count of its fields.
    pub(crate) fn count(
        &mut self,
        stream: u64,
        section: &[u8],
        replies: &mut WaitingBytes,
    ) -> Result<usize, Failure> {
        let block = self.decode(stream, section, replies)?;
        Ok(block.ok_or(Failure::Refused)?.len())
    }
}

fn report_of(told: &BlockWithin, kept: usize) -> Report {
    let mut report = Report::new();
    match told {
        BlockWithin::Fields(section) => report.add(kept, section.mem_size as usize),
        BlockWithin::TooLarge(large) => report.add(0, large.mem_size as usize),
    }
    report
}

fn acknowledge(stream: u64, replies: &mut Vec<u8>) -> Result<(), Failure> {
    if stream >= 1 << 62 {
        return Err(Failure::Input);
    }
    ack_header(stream, replies)?;
    Ok(())
}
