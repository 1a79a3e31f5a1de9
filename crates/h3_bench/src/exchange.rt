//! Sessions of an encoder and a decoder in one: lists are sent in batches, and each batch is read and answered before the
//! next is sent.

use crate::ends::{EncoderSetup, Receiver, Sender};
use crate::input::{self, FieldList};
use crate::output;
use crate::report::{Failure, Report, answer};
use h3_unidirectional::waiting::WaitingBytes;
use std::alloc::Global;

/// How a session goes: what its encoder begins with, how many lists are in a batch, and how often all lists are sent.
#[derive(Copy, Clone)]
struct Shape {
    encoder: EncoderSetup,
    batch: usize,
    passes: usize,
}

/// A batch under way: the stream and the section of each list, the instructions for them, and the replies.
#[derive(Drop)]
struct Batch {
    streams: Vec<u64>,
    sections: Vec<Vec<u8>>,
    instructions: Vec<u8>,
    replies: WaitingBytes,
}

impl Batch {
    /// With room for so many sections, whose memory serves again.
    fn new(alloc: Global, size: usize) -> Result<Batch, Failure> {
        let mut sections = Vec::new(alloc);
        for _ in 0..size {
            sections.push(Vec::new(alloc))?;
        }
        Ok(Batch {
            streams: Vec::new(alloc),
            sections,
            instructions: Vec::new(alloc),
            replies: WaitingBytes::from_vec(Vec::new(alloc)),
        })
    }

    fn is_full(&self) -> bool {
        self.streams.len() >= self.sections.len()
    }

    fn send(&mut self, sender: &mut Sender, stream: u64, list: &FieldList) -> Result<(), Failure> {
        let place = self.streams.len();
        if place >= self.sections.len() {
            return Err(Failure::Room);
        }
        self.sections[place].clear();
        sender.send(
            stream,
            list,
            &mut self.sections[place],
            &mut self.instructions,
        )?;
        self.streams.push(stream)?;
        Ok(())
    }

    /// The decoder reads the batch.
    fn receive(&mut self, receiver: &mut Receiver, report: &mut Report) -> Result<(), Failure> {
        receiver.hear(&self.instructions, &mut self.replies)?;
        report.add(0, self.instructions.len());
        for (stream, section) in self.streams.iter().zip(self.sections.iter()) {
            report.add(0, section.len());
            let count = receiver.count(*stream, section, &mut self.replies)?;
            report.add(count, 0);
        }
        Ok(())
    }

    /// Packs the count of the sections, each of them, the instructions and the replies.
    fn put(&self, packed: &mut Vec<u8>) -> Result<(), Failure> {
        output::put_number(packed, self.streams.len())?;
        for (_, section) in self.streams.iter().zip(self.sections.iter()) {
            output::put_string(packed, section)?;
        }
        output::put_string(packed, &self.instructions)?;
        output::put_string(packed, self.replies.as_slice())
    }

    fn clear(&mut self) {
        self.streams.clear();
        self.instructions.clear();
        self.replies.advance(self.replies.len());
    }
}

/// Both ends of a session, the batch between them, and what came of the batches before it.
#[derive(Drop)]
struct Ends {
    sender: Sender,
    receiver: Receiver,
    batch: Batch,
    report: Report,
}

impl Ends {
    /// Around an empty batch, in which the encoder's first instruction stands then.
    fn new(alloc: Global, shape: Shape) -> Result<Ends, Failure> {
        let mut batch = Batch::new(alloc, shape.batch)?;
        let instructions = &mut batch.instructions;
        Ok(Ends {
            sender: Sender::new(alloc, shape.encoder, instructions)?,
            receiver: Receiver::new(alloc, shape.encoder.capacity)?,
            batch,
            report: Report::new(),
        })
    }

    /// The batch is read, answered and packed, and the next begins.
    fn settle(&mut self, packed: &mut Vec<u8>) -> Result<(), Failure> {
        self.batch.receive(&mut self.receiver, &mut self.report)?;
        self.sender.hear(self.batch.replies.as_slice())?;
        self.batch.put(packed)?;
        self.batch.clear();
        Ok(())
    }
}

/// Sends each list once, the first on `first`. Returns the stream of the next list.
fn send_lists(
    lists: &[FieldList],
    first: u64,
    is_last_pass: bool,
    ends: &mut Ends,
    packed: &mut Vec<u8>,
) -> Result<u64, Failure> {
    let mut stream = first;
    for (place, list) in lists.iter().enumerate() {
        ends.batch.send(&mut ends.sender, stream, list)?;
        stream = stream.wrapping_add(4) % (1 << 62);
        if ends.batch.is_full() || is_last_pass && place + 1 == lists.len() {
            ends.settle(packed)?;
        }
    }
    Ok(stream)
}

/// All passes through the lists. Their batches stand in `packed` then.
fn send_passes(
    passes: usize,
    lists: &[FieldList],
    ends: &mut Ends,
    packed: &mut Vec<u8>,
) -> Result<Report, Failure> {
    let mut stream: u64 = 0;
    packed.clear();
    for pass in 0..passes {
        let is_last = pass + 1 == passes;
        stream = send_lists(lists, stream, is_last, ends, packed)?;
    }
    Ok(ends.report)
}

/// A session. Its batches stand in `packed` then.
fn exchange(
    alloc: Global,
    shape: Shape,
    lists: &[FieldList],
    packed: &mut Vec<u8>,
) -> Result<Report, Failure> {
    let mut ends = Ends::new(alloc, shape)?;
    send_passes(shape.passes, lists, &mut ends, packed)
}

fn run_rounds(
    alloc: Global,
    rounds: u64,
    shape: Shape,
    lists: &[FieldList],
    packed: &mut Vec<u8>,
    out: &mut [u8],
) -> Result<Report, Failure> {
    for _ in 0..rounds {
        exchange(alloc, shape, lists, packed)?;
    }
    let report = exchange(alloc, shape, lists, packed)?;
    output::hand_out(packed, out)?;
    Ok(report)
}

fn run(
    alloc: Global,
    rounds: u64,
    shape: Shape,
    bytes: &[u8],
    out: &mut [u8],
) -> Result<Report, Failure> {
    let lists = input::field_lists(alloc, bytes)?;
    let mut packed = Vec::new(alloc);
    run_rounds(alloc, rounds, shape, &lists, &mut packed, out)
}

/// Runs a session `rounds` times, and once more to return its batches: for each the count of its sections, each of
/// them, the instructions and the replies. Reports how many fields came out, and how many bytes sections and
/// instructions had.
#[unsafe(no_mangle)]
pub extern "C" fn h3_bench_exchange(
    alloc: Global,
    rounds: u64,
    capacity: usize,
    limit: usize,
    choices: u32,
    batch: usize,
    passes: usize,
    bytes: &[u8],
    out: &mut [u8],
    report: &mut Report,
) -> u32 {
    let shape = Shape {
        encoder: EncoderSetup {
            capacity,
            limit,
            chooses: choices != 0,
        },
        batch,
        passes,
    };
    answer(run(alloc, rounds, shape, bytes, out), report)
}
