//! A run of one encoder and one decoder, with a stream of bytes each way (RFC 9204, section 4.2).
ghost use Rattle.std.specs.Prelude.{◌≡◌, ◌<◌, ◌≤◌, ◌^◌, ℕ, false, Some, None, IfSome, IfNone, IfOk, IfErr, OnOk, OnErr, nat_lt, ◌++◌, []};
ghost use Rattle.std.specs.Prelude.{if◌then◌else◌};
ghost use Rattle.h3_field.specs.Instruction.{decoder_bytes};
ghost use Rattle.h3_field.specs.Instruction.DecoderInstruction.{Acknowledge};
ghost use Rattle.std.specs.List.{AllByRecursion, list_any};
ghost use Rattle.h3_field.specs.Field.{section_size};
ghost use Rattle.h3_qpack.specs.Meaning.{MeansFields};
ghost use Rattle.h3_qpack.specs.SectionAnswers.{IsRefusal};
ghost use Rattle.h3_qpack.specs.RunAnswers.{HasAnswered};
ghost use Rattle.h3_qpack.specs.Exchange.{ExchangeHistory, ExchangeState, exchange_state, start, is_given_up, is_of, Encodes};
ghost use Rattle.h3_qpack.specs.Exchange.{DeliversToDecoder, DeliversToEncoder, Decodes, Cancels, Happens, IsEvent, IsPlace};
ghost use Rattle.h3_qpack.specs.Exchange.{refused_section, IsNoBeginning, IsNoRun};

use crate::pending_section::PendingSection;
use crate::{Decoder, DynamicTable, Encoder, ack_header, set_dynamic_table_size, stream_canceled};
use h3_field::{Decoded, DecoderError, EncoderError, Error, HeaderField, SliceCursor, dynamic};
use std::alloc::{AllocError, Global};
use std::marker::Model;

/// What happens in a run.
#[derive(Drop)]
pub enum SessionEvent {
    /// A field section of that stream is encoded.
    Encode(u64, Vec<HeaderField>),
    /// So many more bytes of the encoder's come to the decoder.
    EncoderBytes(usize),
    /// So many more bytes of the decoder's come to the encoder.
    DecoderBytes(usize),
    /// The oldest section of that stream that is not decoded yet is decoded, and acknowledged if it names entries.
    Decode(u64),
    /// That stream is given up: none of its sections is decoded any more.
    Cancel(u64),
}

/// What an event answers.
#[derive(Drop)]
pub enum SessionAnswer {
    /// The required insert count of the section.
    Encoded(usize),
    /// The bytes came, and what is whole was read.
    Delivered,
    /// Only so many bytes are not delivered. Nothing was done.
    Short(usize),
    /// The fields of the section.
    Decoded(Vec<HeaderField>),
    /// The section needs so many insertions, and not all were read.
    Missing(usize),
    /// The stream has no section that is not decoded.
    NoBlock,
    /// The stream is given up.
    Canceled,
    /// The step is refused.
    Refused(Error),
}

/// The bytes of one direction, and how many of them came and were read.
#[derive(Drop)]
pub(crate) struct ByteStream {
    /// All that was written.
    pub bytes: Vec<u8>,
    /// How many of them were delivered.
    pub arrived: usize,
    /// How many of them were read.
    pub read: usize,
}

/// An encoder and a decoder, what is between them, and the streams that were given up.
#[derive(Drop)]
pub(crate) struct Session {
    alloc: Global,
    encoder: Encoder,
    decoder: Decoder,
    encoder_stream: ByteStream,
    decoder_stream: ByteStream,
    sections: Vec<PendingSection>,
    canceled: Vec<u64>,
}

impl Model for Session {
    ghost use Rattle.h3_qpack.specs.Exchange.{ExchangeState};

    ghost Value = { ExchangeState };

    ghost use Rattle.h3_qpack.specs.SessionInside.{exchange_state_inside, IsSession};

    ghost view = { exchange_state_inside };

    ghost invariant = { IsSession };
}

/// The place of the oldest section of a stream.
fn place_of(sections: &Vec<PendingSection>, stream: u64) -> Option<usize>
    ensures some { IfSome result (λ place. IsPlace stream sections.now.items place) }
    ensures none { IfNone result (list_any (is_of stream) sections.now.items ≡ false) }
{
    for place in 0..sections.len() {
        if sections[place].stream() == stream {
            return Some(place);
        }
    }
    None
}

/// Whether a stream was given up.
fn is_given_up(canceled: &Vec<u64>, stream: u64) -> bool
    ensures { result ≡ is_given_up canceled.now.items stream }
{
    for place in 0..canceled.len() {
        if canceled[place] == stream {
            return true;
        }
    }
    false
}

/// The fields of a section, and whether it names entries.
fn decode_section(
    decoder: &Decoder,
    section: &PendingSection,
) -> Result<(Vec<HeaderField>, bool), DecoderError>
    ensures ok { IfOk result (λ d. (count : ℕ) × MeansFields decoder.now section.now.bytes count d.0.items × (d.1 ≡ nat_lt 0 count)) }
    ensures err { IfErr result (IsRefusal decoder.now section.now.bytes) }
{
    let mut cursor = SliceCursor::new(section.bytes());
    let decoded = decoder.decode_header(&mut cursor)?;
    Ok((decoded.fields, decoded.dyn_ref))
}

/// What a refused section answers.
fn refusal(e: DecoderError) -> SessionAnswer
    ensures { result ≡ refused_section e }
{
    match e {
        DecoderError::MissingRefs(count) => SessionAnswer::Missing(count),
        _ => SessionAnswer::Refused(Error::Decoder(e)),
    }
}

/// Acknowledges a section that names entries. A refusal appends nothing.
fn acknowledge(is_needed: bool, stream: u64, out: &mut Vec<u8>) -> Result<(), AllocError>
    requires { stream < 2 ^ 62 }
    ensures ok { OnOk result (out.new.items ≡ out.old.items ++ (if is_needed then decoder_bytes (Acknowledge stream) else [])) }
    ensures err { OnErr result (out.new.items ≡ out.old.items) }
{
    if !is_needed {
        return Ok(());
    }
    ack_header(stream, out)
}

impl Session {
    /// The section is encoded, and waits to be decoded.
    fn encode(&mut self, stream: u64, fields: &[HeaderField]) -> SessionAnswer
        requires { section_size fields.now < 2 ^ 62 }
        ensures { (w : ExchangeHistory) → self.old ≡ exchange_state w → (new : ExchangeHistory) × Encodes w stream fields.now result new
            × (self.new ≡ exchange_state new) }
    {
        if self.sections.reserve(1).is_err() {
            return SessionAnswer::Refused(Error::Encoder(EncoderError::OutOfMemory));
        }
        let mut section = Vec::new(self.alloc);
        match self.encoder.encode(stream, &mut section, &mut self.encoder_stream.bytes, fields) {
            Ok(count) => {
                self.sections
                    .push_reserved(PendingSection::new(stream, section));
                SessionAnswer::Encoded(count)
            }
            Err(e) => SessionAnswer::Refused(Error::Encoder(e)),
        }
    }

    /// More bytes come to the decoder, and what is whole is read.
    fn deliver_to_decoder(&mut self, count: usize) -> SessionAnswer
        ensures { (w : ExchangeHistory) → self.old ≡ exchange_state w → (new : ExchangeHistory) × DeliversToDecoder w count result new
            × (self.new ≡ exchange_state new) }
    {
        let undelivered = self.encoder_stream.bytes.len() - self.encoder_stream.arrived;
        if count > undelivered {
            return SessionAnswer::Short(undelivered);
        }
        self.encoder_stream.arrived += count;
        let mut cursor = SliceCursor::new(
            &self.encoder_stream.bytes[self.encoder_stream.read..self.encoder_stream.arrived],
        );
        let outcome = self
            .decoder
            .on_encoder_recv(&mut cursor, &mut self.decoder_stream.bytes);
        let arrived = self.encoder_stream.arrived;
        self.encoder_stream.read = arrived.saturating_sub(cursor.remaining());
        let Err(e) = outcome else {
            return SessionAnswer::Delivered;
        };
        SessionAnswer::Refused(Error::Decoder(e))
    }

    /// More bytes come to the encoder, and what is whole is read.
    fn deliver_to_encoder(&mut self, count: usize) -> SessionAnswer
        ensures { (w : ExchangeHistory) → self.old ≡ exchange_state w → (new : ExchangeHistory) × DeliversToEncoder w count result new
            × (self.new ≡ exchange_state new) }
    {
        let undelivered = self.decoder_stream.bytes.len() - self.decoder_stream.arrived;
        if count > undelivered {
            return SessionAnswer::Short(undelivered);
        }
        self.decoder_stream.arrived += count;
        let mut cursor = SliceCursor::new(
            &self.decoder_stream.bytes[self.decoder_stream.read..self.decoder_stream.arrived],
        );
        let outcome = self.encoder.on_decoder_recv(&mut cursor);
        let arrived = self.decoder_stream.arrived;
        self.decoder_stream.read = arrived.saturating_sub(cursor.remaining());
        let Err(e) = outcome else {
            return SessionAnswer::Delivered;
        };
        SessionAnswer::Refused(Error::Encoder(e))
    }

    /// The oldest section of a stream is decoded.
    fn decode(&mut self, stream: u64) -> SessionAnswer
        requires { stream < 2 ^ 62 }
        ensures { (w : ExchangeHistory) → self.old ≡ exchange_state w → (new : ExchangeHistory) × Decodes w stream result new
            × (self.new ≡ exchange_state new) }
    {
        if is_given_up(&self.canceled, stream) {
            return SessionAnswer::Canceled;
        }
        let Some(place) = place_of(&self.sections, stream) else {
            return SessionAnswer::NoBlock;
        };
        let (fields, names_entries) = match decode_section(&self.decoder, &self.sections[place]) {
            Ok(decoded) => decoded,
            Err(e) => return refusal(e),
        };
        let Ok(()) = acknowledge(names_entries, stream, &mut self.decoder_stream.bytes) else {
            return SessionAnswer::Refused(Error::Decoder(DecoderError::OutOfMemory));
        };
        self.sections.remove(place);
        SessionAnswer::Decoded(fields)
    }

    /// A stream is given up.
    fn cancel(&mut self, stream: u64) -> SessionAnswer
        requires { stream < 2 ^ 62 }
        ensures { (w : ExchangeHistory) → self.old ≡ exchange_state w → (new : ExchangeHistory) × Cancels w stream result new
            × (self.new ≡ exchange_state new) }
    {
        if is_given_up(&self.canceled, stream) {
            return SessionAnswer::Canceled;
        }
        if self.canceled.reserve(1).is_err() {
            return SessionAnswer::Refused(Error::Decoder(DecoderError::OutOfMemory));
        }
        if stream_canceled(stream, &mut self.decoder_stream.bytes).is_err() {
            return SessionAnswer::Refused(Error::Decoder(DecoderError::OutOfMemory));
        }
        self.canceled.push_reserved(stream);
        self.sections.retain(|section| section.stream() != stream);
        SessionAnswer::Canceled
    }

    /// One event.
    fn step(&mut self, event: &SessionEvent) -> SessionAnswer
        requires { IsEvent event.now }
        ensures { (w : ExchangeHistory) → self.old ≡ exchange_state w → (new : ExchangeHistory) × Happens w event.now result new
            × (self.new ≡ exchange_state new) }
    {
        match event {
            SessionEvent::Encode(stream, fields) => self.encode(*stream, fields.as_slice()),
            SessionEvent::EncoderBytes(count) => self.deliver_to_decoder(*count),
            SessionEvent::DecoderBytes(count) => self.deliver_to_encoder(*count),
            SessionEvent::Decode(stream) => self.decode(*stream),
            SessionEvent::Cancel(stream) => self.cancel(*stream),
        }
    }

    /// An encoder that may use a table of that capacity, and a decoder that announced it. For a capacity above 0 the
    /// encoder's stream begins with the instruction for it.
    fn begin(alloc: Global, capacity: usize, blocked: usize) -> Result<Session, EncoderError>
        ensures ok { IfOk result
            (λ session. (capacity < 2 ^ 30) × (blocked ≤ 65535) × (session ≡ exchange_state (start capacity blocked))) }
        ensures err { IfErr result (IsNoBeginning capacity blocked) }
    {
        let mut table = DynamicTable::new(alloc);
        let mut bytes = Vec::new(alloc);
        table.set_max_blocked(blocked)?;
        if capacity > 0 {
            set_dynamic_table_size(&mut table, &mut bytes, capacity)?;
        }
        Ok(Session {
            alloc,
            encoder: Encoder::from(table),
            decoder: Decoder::announced(alloc, capacity),
            encoder_stream: ByteStream {
                bytes,
                arrived: 0,
                read: 0,
            },
            decoder_stream: ByteStream {
                bytes: Vec::new(alloc),
                arrived: 0,
                read: 0,
            },
            sections: Vec::new(alloc),
            canceled: Vec::new(alloc),
        })
    }
}

/// Drives one encoder and one decoder over the events, one after the other, and answers each. Streams are below 2^62, and the
/// sizes of a section's fields sum to less. Refused are a limit above 65535, a capacity above 2^30 - 1, and the room for the
/// answers, which is taken first.
pub fn run(
    alloc: Global,
    capacity: usize,
    blocked: usize,
    events: &[SessionEvent],
) -> Result<Vec<SessionAnswer>, Error>
    requires { AllByRecursion IsEvent events.now }
    ensures limits { OnOk result ((capacity < 2 ^ 30) × (blocked ≤ 65535)) }
    ensures ok { IfOk result (λ answers. HasAnswered capacity blocked events.now answers.items) }
    ensures err { IfErr result (IsNoRun capacity blocked) }
{
    let mut session = Session::begin(alloc, capacity, blocked)?;
    let Ok(mut answers) = Vec::with_capacity(alloc, events.len()) else {
        return Err(Error::Encoder(EncoderError::OutOfMemory));
    };
    // (the label names the loop in its proof)
    'events: for event in events {
        let answer = session.step(event);
        answers.push_reserved(answer);
    }
    Ok(answers)
}
