//! The peer's encoder stream (RFC 9204, section 4.3), and the dynamic table that it fills.
ghost use Rattle.std.specs.Prelude.{length, ◌≡◌, ◌-◌, ◌<◌, ◌^◌, ◌++◌, [], true, false, Some, IfOk, IfErr, OnOk, OnErr};
ghost use Rattle.h3_field.specs.Waiting.{goes_on, encoder_wait};
ghost use Rattle.h3_qpack.specs.Hearing.{heard};
ghost use Rattle.h3_qpack.specs.Increments.{increment_for};
ghost use Rattle.h3_qpack.specs.DecoderState.{announcing, checking};
ghost use Rattle.h3_qpack.specs.SectionAnswers.{IsReasonFor};
ghost use Rattle.h3_connection.specs.Codes.{encoder_stream_error, excessive_load};
ghost use Rattle.h3_connection.specs.ExcessiveInstructions.{hear_up_to};
ghost use Rattle.h3_connection.specs.Listeners.{Decoding as Heard, Hears, fault_if};
ghost use Rattle.h3_unidirectional.specs.Faults.{IsFaultOf};
ghost use Rattle.h3_unidirectional.specs.Fronts.{HearsFront, StopsHearing};
ghost use Rattle.h3_unidirectional.specs.Windows.{is_longer, HearingEnds, HearsWindow};

use crate::limits::{is_longer, window};
use crate::waiting::{WaitingBytes, drop_front, keep};
use h3_field::waiting::{Wait, encoder_wait, encoder_wait_behind};
use h3_proto::error::Code;
use h3_qpack::reserved::{INCREMENT_LEN, put_increment};
use h3_qpack::{Decoder, DecoderError, SliceCursor};
use std::alloc::{AllocError, Global};
use std::marker::Model;

/// The local decoder, and the bytes of the peer's encoder stream that are not read: less than an instruction, unless an allocation
/// failed.
#[derive(Drop)]
pub struct Decoding {
    decoder: Decoder,
    unread: Vec<u8>,
    // what the unread bytes wait for, so that they are not read again at each delivery
    wait: Wait,
}

impl Model for Decoding {
    ghost use Rattle.h3_connection.specs.Listeners.{Decoding as Heard};

    ghost Value = { Heard };

    ghost view = { λ d. record { decoder = d.decoder; unread = d.unread.items } };

    ghost use Rattle.std.specs.Prelude.{◌≡◌};
    ghost use Rattle.h3_field.specs.Waiting.{encoder_wait};

    ghost invariant = { λ d. d.wait ≡ encoder_wait d.unread.items };
}

impl Decoding {
    /// A decoder that announced this capacity, in bytes, and holds sections to their required insert counts, or does not.
    pub fn new(alloc: Global, capacity: usize, checks_counts: bool) -> Decoding
        requires { capacity < 2 ^ 30 }
        ensures { result ≡ record { decoder = checking checks_counts (announcing capacity); unread = [] } }
    {
        Decoding {
            decoder: Decoder::announced(alloc, capacity).checking_counts(checks_counts),
            unread: Vec::new(alloc),
            wait: Wait::Bytes(1),
        }
    }

    /// The decoder, for field sections.
    pub fn decoder(&self) -> &Decoder
        ensures { result.now ≡ self.now.decoder }
    {
        &self.decoder
    }

    /// How many bytes of the stream are not read.
    pub fn unread_len(&self) -> usize
        ensures { result ≡ length self.now.unread }
    {
        self.unread.len()
    }

    /// More of the stream, which is kept until it is read. A refusal changes nothing.
    #[inline(always)]
    pub fn push(&mut self, bytes: &[u8]) -> Result<(), AllocError>
        ensures ok { OnOk result (self.new ≡ record self.old { unread = self.old.unread ++ bytes.now }) }
        ensures err { OnErr result (self.new ≡ self.old) }
    {
        keep(&mut self.unread, bytes)?;
        self.wait = encoder_wait_behind(self.wait, bytes, self.unread.as_slice());
        Ok(())
    }

    /// The fault of the instruction at the front, of which nothing is to be read, if it is longer than `most`.
    fn excess(&self, most: u64) -> Option<Code>
        ensures { result ≡ fault_if (is_longer most (length self.now.unread) (encoder_wait self.now.unread)) excessive_load }
    {
        if is_longer(most, self.unread.len(), self.wait) {
            return Some(Code::H3_EXCESSIVE_LOAD);
        }
        None
    }

    // Reads up to the first instruction that is bad, not whole or longer than `most`.
    fn read_unread(&mut self, most: u64) -> Result<(), DecoderError>
        ensures front { HearsFront most self.old self.new }
        ensures ok { OnOk result (HearingEnds most self.new.decoder self.new.unread) }
        ensures err { IfErr result (IsReasonFor (hear_up_to most self.new.decoder self.new.unread
            ≡ heard self.new.decoder self.new.unread true) (λ count. ⊥)) }
    {
        let bytes = self.unread.as_slice();
        let mut rest = SliceCursor::new(bytes);
        let outcome = read_windows(&mut self.decoder, &mut rest, most);
        let taken = bytes.len().saturating_sub(rest.remaining());
        drop_front(&mut self.unread, taken);
        self.wait = encoder_wait(self.unread.as_slice());
        outcome
    }

    // RFC 9204 4.4.3: insert count increment, written
    // The same with the increment. The instruction at the front is not unfinished.
    fn read_front(&mut self, most: u64, replies: &mut Vec<u8>) -> Result<(), DecoderError>
        requires { goes_on (encoder_wait self.old.unread) ≡ false }
        ensures front { HearsFront most self.old self.new }
        ensures ok { OnOk result (HearingEnds most self.new.decoder self.new.unread) }
        ensures err { IfErr result (IsReasonFor (Hears most self.old self.new []
            (Some encoder_stream_error) replies.old.items replies.new.items) (λ count. ⊥)) }
        ensures increment { replies.new.items ≡ replies.old.items ++ increment_for
            (self.new.decoder.table.inserted - self.old.decoder.table.inserted) }
    {
        replies.reserve(INCREMENT_LEN)?;
        let before = self.decoder.inserted();
        let outcome = self.read_unread(most);
        put_increment(self.decoder.inserted().saturating_sub(before), replies);
        outcome
    }

    #[tactic(auto, using(crate::proofs::Waits::is_fault))]
    fn read_into(&mut self, most: u64, replies: &mut Vec<u8>) -> Result<Option<Code>, AllocError>
        requires { goes_on (encoder_wait self.old.unread) ≡ false }
        ensures front { HearsFront most self.old self.new }
        ensures ok { IfOk result (λ fault. Hears most self.old self.new [] fault replies.old.items replies.new.items) }
        ensures increment { replies.new.items ≡ replies.old.items ++ increment_for
            (self.new.decoder.table.inserted - self.old.decoder.table.inserted) }
    {
        match self.read_front(most, replies) {
            Ok(()) => Ok(self.excess(most)),
            Err(e) => fault_of(e),
        }
    }

    // Reads what is unread, as `read` does. The instruction at the front is not unfinished.
    #[inline(never)]
    #[tactic(auto, using(crate::proofs::Waits::waiting_ok, crate::proofs::Heard::hearing_stopped))]
    fn read_instructions(
        &mut self,
        most: u64,
        out: &mut WaitingBytes,
    ) -> Result<Option<Code>, AllocError>
        requires { goes_on (encoder_wait self.old.unread) ≡ false }
        ensures ok { IfOk result (λ fault. Hears most self.old self.new [] fault out.old out.new) }
        ensures increment { out.new ≡ out.old ++ increment_for (self.new.decoder.table.inserted - self.old.decoder.table.inserted) }
        ensures refused { OnErr result (StopsHearing most self.old self.new) }
    {
        self.read_into(most, out.behind_mut())
    }

    /// Reads what is unread, up to the first instruction that is bad, not whole or longer than `most`, and writes one increment if
    /// something was inserted. It answers the fault of a bad instruction, and of one that is known to be longer, whether it came or not
    /// (RFC 9114, section 10.5). If an allocation fails, the instructions that were read stand, and the increment counts them. The others
    /// stay unread, and the next reading goes on with them. Bytes that are known to leave the instruction at the front unfinished are not
    /// read again, so a stream costs no more however it is cut.
    #[inline(always)]
    pub fn read(&mut self, most: u64, out: &mut WaitingBytes) -> Result<Option<Code>, AllocError>
        ensures ok { IfOk result (λ fault. Hears most self.old self.new [] fault out.old out.new) }
        ensures increment { out.new ≡ out.old ++ increment_for (self.new.decoder.table.inserted - self.old.decoder.table.inserted) }
        ensures refused { OnErr result (StopsHearing most self.old self.new) }
    {
        if self.wait.goes_on() {
            return Ok(self.excess(most));
        }
        self.read_instructions(most, out)
    }
}

// Reads the whole instructions in the first `most` bytes of `rest`, or in all of it if there is no limit, up to the first that is bad. It
// answers whether to go on after them: if there were none, or no bytes after those it looked at, nothing of the rest is to be read.
fn read_window(
    decoder: &mut Decoder,
    rest: &mut SliceCursor<'_>,
    most: u64,
) -> Result<bool, DecoderError>
    ensures front { HearsFront most (record { decoder = decoder.old; unread = rest.old })
        (record { decoder = decoder.new; unread = rest.new }) }
    ensures ok { IfOk result (HearsWindow most decoder.new rest.old rest.new) }
    ensures err { IfErr result (IsReasonFor (hear_up_to most decoder.new rest.new ≡ heard decoder.new rest.new true) (λ count. ⊥)) }
{
    let bytes = rest.chunk();
    let looked_at = window(most, bytes.len());
    let mut ahead = SliceCursor::new(&bytes[..looked_at]);
    let outcome = decoder.take_instructions(&mut ahead);
    let taken = looked_at.saturating_sub(ahead.remaining());
    rest.advance(taken);
    match outcome {
        Ok(()) => Ok(taken > 0 && looked_at < bytes.len()),
        Err(e) => Err(e),
    }
}

// Reads on until nothing of the rest is to be read. So no byte that was read is moved before all are.
fn read_windows(
    decoder: &mut Decoder,
    rest: &mut SliceCursor<'_>,
    most: u64,
) -> Result<(), DecoderError>
    ensures front { HearsFront most (record { decoder = decoder.old; unread = rest.old })
        (record { decoder = decoder.new; unread = rest.new }) }
    ensures ok { OnOk result (HearingEnds most decoder.new rest.new) }
    ensures err { IfErr result (IsReasonFor (hear_up_to most decoder.new rest.new ≡ heard decoder.new rest.new true) (λ count. ⊥)) }
{
    loop {
        match read_window(decoder, rest, most) {
            Ok(true) => {}
            Ok(false) => return Ok(()),
            Err(e) => return Err(e),
        }
    }
}

/// The fault that a refused instruction is, unless an allocation failed.
fn fault_of(e: DecoderError) -> Result<Option<Code>, AllocError>
    ensures { IsFaultOf e result }
{
    match e {
        DecoderError::OutOfMemory => Err(AllocError),
        _ => Ok(Some(Code::QPACK_ENCODER_STREAM_ERROR)),
    }
}
