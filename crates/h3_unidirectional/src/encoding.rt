//! The local encoder, and the peer's decoder stream that tells it what was received (RFC 9204, section 4.4).
ghost use Rattle.std.specs.Prelude.{◌≡◌, ◌<◌, ◌^◌, ◌++◌, [], false, length, Some, IfOk, IfErr, OnOk, OnErr};
ghost use Rattle.h3_field.specs.Field.{section_size};
ghost use Rattle.h3_field.specs.Waiting.{goes_on, decoder_wait};
ghost use Rattle.h3_qpack.specs.Drafting.{IsSent, IsCutOff};
ghost use Rattle.h3_qpack.specs.EncoderHistory.{EncoderHistory, withdrawn, writing_on};
ghost use Rattle.h3_qpack.specs.EncoderState.{encoder_state};
ghost use Rattle.h3_connection.specs.Codes.{decoder_stream_error, excessive_load};
ghost use Rattle.h3_connection.specs.Control.{is_table_usable};
ghost use Rattle.h3_connection.specs.Endpoint.{chosen_encoder};
ghost use Rattle.h3_connection.specs.Listeners.{Listens, fault_if};
ghost use Rattle.h3_unidirectional.specs.Faults.{IsReplyFaultOf, UnlessMemory};
ghost use Rattle.h3_unidirectional.specs.Fronts.{ListensFront, StopsListening};
ghost use Rattle.h3_unidirectional.specs.Learned.{having_learned, usable_capacity};
ghost use Rattle.h3_unidirectional.specs.Windows.{is_longer, ListeningEnds, ListensWindow, IsRefusedAt};

use crate::limits::{is_longer, most_kept, window};
use crate::waiting::{WaitingBytes, drop_front, keep};
use h3_field::Fields;
use h3_field::waiting::{Wait, decoder_wait, decoder_wait_behind};
use h3_proto::config::{Choices, MAX_BLOCKED_STREAMS, MAX_TABLE_CAPACITY};
use h3_proto::error::Code;
use h3_proto::frame::{SettingId, Settings};
use h3_proto::stream::StreamId;
use h3_qpack::{Encoder, EncoderChoices, EncoderError, SliceCursor};
use std::alloc::{AllocError, Global};
use std::marker::Model;

/// The local encoder, and the bytes of the peer's decoder stream that are not read. These are all of them before the peer's settings
/// came, and less than an instruction after that, unless an allocation failed.
#[derive(Drop)]
pub struct Encoding {
    encoder: Encoder,
    unread: Vec<u8>,
    // what the unread bytes wait for, so that they are not read again at each delivery
    wait: Wait,
}

impl Model for Encoding {
    ghost use Rattle.h3_connection.specs.Listeners.{Encoding as Kept};

    ghost Value = { Kept };

    ghost view = { λ e. record { encoder = e.encoder; unread = e.unread.items } };

    ghost use Rattle.std.specs.Prelude.{◌≡◌};
    ghost use Rattle.h3_field.specs.Waiting.{decoder_wait};

    ghost invariant = { λ e. e.wait ≡ decoder_wait e.unread.items };
}

impl Encoding {
    /// An encoder that may not use a table yet. The choices say whether acknowledgments tell of insertions (RFC 9204, section 2.1.4), and
    /// the most that its table may have. They also say whether it is economical with it, whether it flags secrets and writes the shortest
    /// strings, and how many canceled streams it keeps.
    pub fn new(alloc: Global, choices: Choices) -> Encoding
        ensures { result ≡ record { encoder = encoder_state (chosen_encoder choices); unread = [] } }
    {
        let mut encoder = Encoder::new(alloc);
        encoder.limit_table(choices.encoder_table as usize);
        encoder.count_acknowledgments(choices.acknowledgments_counted);
        encoder.choose(EncoderChoices {
            economical: choices.economical_table,
            guards_secrets: choices.extensions.secrets_guarded,
            shortest_strings: choices.extensions.shortest_strings,
        });
        encoder.keep_canceled(most_kept(choices));
        Encoding {
            encoder,
            unread: Vec::new(alloc),
            wait: Wait::Bytes(1),
        }
    }

    /// How many bytes of the stream are not read.
    pub fn unread_len(&self) -> usize
        ensures { result ≡ length self.now.unread }
    {
        self.unread.len()
    }

    /// More of the stream, which is kept until it is read. A refusal changes nothing.
    pub fn push(&mut self, bytes: &[u8]) -> Result<(), AllocError>
        ensures ok { OnOk result (self.new ≡ record self.old { unread = self.old.unread ++ bytes.now }) }
        ensures err { OnErr result (self.new ≡ self.old) }
    {
        keep(&mut self.unread, bytes)?;
        self.wait = decoder_wait_behind(self.wait, bytes, self.unread.as_slice());
        Ok(())
    }

    /// The encoder.
    pub fn encoder(&self) -> &Encoder
        ensures { result.now ≡ self.now.encoder }
    {
        &self.encoder
    }

    // RFC 9204 3.2.3: capacity of the local encoder's table
    /// The peer's settings came. If they allow a table of 1 to 2^30 - 1 bytes and at most 65535 blocked streams, they can be used (RFC
    /// 9204, section 5). If they can, and the local table may have more than 0 bytes, it is used from now on; else nothing changes. The
    /// answer is the capacity of a table that is used, in bytes, which the caller writes on the encoder stream. It is the lesser of what
    /// the peer announced and the most that the table may have. The call takes no memory.
    pub fn allow(&mut self, settings: &Settings) -> Option<u64>
        requires { self.old.encoder.table.inserted ≡ 0 }
        ensures encoder { (s : EncoderHistory) → self.old.encoder ≡ encoder_state s
            → self.new.encoder ≡ encoder_state (having_learned s settings.now) }
        ensures capacity { result ≡ usable_capacity self.old.encoder.most_capacity settings.now }
        ensures unread { self.new.unread ≡ self.old.unread }
    {
        let capacity = settings
            .get(SettingId::QPACK_MAX_TABLE_CAPACITY)
            .unwrap_or(0);
        let blocked = settings
            .get(SettingId::QPACK_MAX_BLOCKED_STREAMS)
            .unwrap_or(0);
        let most = self.encoder.table_limit() as u64;
        if !is_usable(most, capacity, blocked) {
            return None;
        }
        self.encoder
            .allow_table(capacity as usize, blocked as usize);
        Some(most.min(capacity))
    }

    /// Appends an encoded field section to `block`, and the instructions for it to what waits on the local encoder stream. It
    /// answers its required insert count (RFC 9204, sections 2.1 and 4.5). The sizes of the fields sum to less than 2^62.
    /// If an allocation fails, `block` is as it was, and the encoder stream gained whole instructions, those of the insertions
    /// that were made.
    pub fn encode(
        &mut self,
        stream: StreamId,
        block: &mut Vec<u8>,
        out: &mut WaitingBytes,
        fields: &Fields<'_>,
    ) -> Result<usize, AllocError>
        requires { section_size fields.now < 2 ^ 62 }
        ensures sent { IfOk result (λ count. (s : EncoderHistory) → self.old.encoder ≡ encoder_state s →
            IsSent s stream fields.now count self.new.encoder block.old.items block.new.items out.old out.new) }
        ensures unwritten { OnErr result (block.new.items ≡ block.old.items) }
        ensures cut_off { OnErr result ((s : EncoderHistory) → self.old.encoder ≡ encoder_state s
            → IsCutOff s (writing_on s stream) fields.now self.new.encoder out.old out.new) }
        ensures unread { self.new.unread ≡ self.old.unread }
    {
        let Ok(count) = self
            .encoder
            .encode_lent(stream.into_inner(), block, out.behind_mut(), fields)
        else {
            return Err(AllocError);
        };
        Ok(count)
    }

    /// Takes back the newest section of a stream, as if it had not been written; `count` is its required insert count.
    /// Its insertions stay.
    pub fn withdraw(&mut self, stream: StreamId, count: usize)
        ensures encoder { (s : EncoderHistory) → self.old.encoder ≡ encoder_state s
            → self.new.encoder ≡ encoder_state (withdrawn s stream count) }
        ensures unread { self.new.unread ≡ self.old.unread }
    {
        self.encoder.withdraw(stream.into_inner(), count);
    }

    /// The fault of the instruction at the front, of which nothing is to be read, if it is longer than `most`.
    fn excess(&self, most: u64) -> Option<Code>
        ensures { result ≡ fault_if (is_longer most (length self.now.unread) (decoder_wait self.now.unread)) excessive_load }
    {
        if is_longer(most, self.unread.len(), self.wait) {
            return Some(Code::H3_EXCESSIVE_LOAD);
        }
        None
    }

    // Reads up to the first instruction that is refused, not whole or longer than `most`. The one at the front is not unfinished.
    fn read_front(&mut self, most: u64) -> Result<(), EncoderError>
        requires { goes_on (decoder_wait self.old.unread) ≡ false }
        ensures front { (s : EncoderHistory) → self.old.encoder ≡ encoder_state s → ListensFront most s self.old self.new }
        ensures ok { OnOk result ((s : EncoderHistory) → self.old.encoder ≡ encoder_state s → ListeningEnds most self.new.unread) }
        ensures err { IfErr result (λ e. UnlessMemory e ((s : EncoderHistory) → self.old.encoder ≡ encoder_state s
            → Listens most s self.old.unread self.new (Some decoder_stream_error))) }
    {
        let bytes = self.unread.as_slice();
        let mut rest = SliceCursor::new(bytes);
        let outcome = read_windows(&mut self.encoder, &mut rest, most);
        let taken = bytes.len().saturating_sub(rest.remaining());
        drop_front(&mut self.unread, taken);
        self.wait = decoder_wait(self.unread.as_slice());
        outcome
    }

    /// Reads what is unread, up to the first instruction that is refused, not whole or longer than `most`. It answers the fault of a
    /// refused one, and of one that is known to be longer, whether it came or not (RFC 9114, section 10.5). If an allocation fails, the
    /// instructions that were read stand. The others stay unread, and the next reading goes on with them.
    #[tactic(auto, using(crate::proofs::Listened::is_reply_fault))]
    pub fn read(&mut self, most: u64) -> Result<Option<Code>, AllocError>
        ensures ok { IfOk result (λ fault. (s : EncoderHistory) → self.old.encoder ≡ encoder_state s
            → Listens most s self.old.unread self.new fault) }
        ensures refused { OnErr result ((s : EncoderHistory) → self.old.encoder ≡ encoder_state s
            → StopsListening most s self.old self.new) }
    {
        if self.wait.goes_on() {
            return Ok(self.excess(most));
        }
        match self.read_front(most) {
            Ok(()) => Ok(self.excess(most)),
            Err(e) => fault_of(e),
        }
    }
}

// Reads the whole instructions in the first `most` bytes of `rest`, or in all of it if there is no limit, up to the first that is refused.
// It answers whether to go on after them: if there were none, or no bytes after those it looked at, nothing of the rest is to be read.
fn read_window(
    encoder: &mut Encoder,
    rest: &mut SliceCursor<'_>,
    most: u64,
) -> Result<bool, EncoderError>
    ensures front { (s : EncoderHistory) → encoder.old ≡ encoder_state s
        → ListensFront most s (record { encoder = encoder.old; unread = rest.old }) (record { encoder = encoder.new; unread = rest.new }) }
    ensures ok { IfOk result (ListensWindow most rest.old rest.new) }
    ensures err { IfErr result (λ e. UnlessMemory e (IsRefusedAt most encoder.new rest.new)) }
{
    let bytes = rest.chunk();
    let looked_at = window(most, bytes.len());
    let mut ahead = SliceCursor::new(&bytes[..looked_at]);
    let outcome = encoder.on_decoder_recv(&mut ahead);
    let taken = looked_at.saturating_sub(ahead.remaining());
    rest.advance(taken);
    match outcome {
        Ok(()) => Ok(taken > 0 && looked_at < bytes.len()),
        Err(e) => Err(e),
    }
}

// Reads on until nothing of the rest is to be read. So no byte that was read is moved before all are.
fn read_windows(
    encoder: &mut Encoder,
    rest: &mut SliceCursor<'_>,
    most: u64,
) -> Result<(), EncoderError>
    ensures front { (s : EncoderHistory) → encoder.old ≡ encoder_state s
        → ListensFront most s (record { encoder = encoder.old; unread = rest.old }) (record { encoder = encoder.new; unread = rest.new }) }
    ensures ok { OnOk result (ListeningEnds most rest.new) }
    ensures err { IfErr result (λ e. UnlessMemory e (IsRefusedAt most encoder.new rest.new)) }
{
    loop {
        match read_window(encoder, rest, most) {
            Ok(true) => {}
            Ok(false) => return Ok(()),
            Err(e) => return Err(e),
        }
    }
}

/// Whether the table may be used with these limits, if it has at most so much.
fn is_usable(most: u64, capacity: u64, blocked: u64) -> bool
    ensures { result ≡ is_table_usable most capacity blocked }
{
    most.min(capacity) > 0 && capacity <= MAX_TABLE_CAPACITY && blocked <= MAX_BLOCKED_STREAMS
}

/// The fault that a refused instruction is, unless an allocation failed.
fn fault_of(e: EncoderError) -> Result<Option<Code>, AllocError>
    ensures { IsReplyFaultOf e result }
{
    match e {
        EncoderError::OutOfMemory => Err(AllocError),
        _ => Ok(Some(Code::QPACK_DECODER_STREAM_ERROR)),
    }
}
