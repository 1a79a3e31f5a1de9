//! Sessions with a dynamic table: one end, driven by what the other wrote.
//!
//! Each end is given steps: a count, and for each step its kind. At a sender kind 0 is followed by a stream and the number
//! of a list, at a receiver by a stream and a section. Kind 1 is followed at both by what the other end wrote beside its
//! sections. The lists of a sender stand before its steps.

use crate::ends::{EncoderSetup, Receiver, Sender};
use crate::input::{FieldList, take_lists, take_number, take_string};
use crate::output;
use crate::report::{Failure, Report, answer};
use h3_field::{FieldBlock, Fields, SliceCursor};
use h3_unidirectional::waiting::WaitingBytes;
use std::alloc::Global;

/// What an end does: something of a stream, or it reads what the other wrote.
#[derive(Clone, Copy)]
enum Step<'a, T> {
    Stream(u64, T),
    Hear(&'a [u8]),
}

fn sender_step<'a>(input: &mut SliceCursor<'a>) -> Result<Step<'a, usize>, Failure> {
    let kind = take_number(input)?;
    if kind == 0 {
        return take_listed(input);
    }
    if kind != 1 {
        return Err(Failure::Input);
    }
    let heard = take_string(input)?;
    Ok(Step::Hear(heard))
}

fn take_listed<'a>(input: &mut SliceCursor<'a>) -> Result<Step<'a, usize>, Failure> {
    let stream = take_number(input)? as u64;
    let list = take_number(input)?;
    Ok(Step::Stream(stream, list))
}

fn receiver_step<'a>(input: &mut SliceCursor<'a>) -> Result<Step<'a, &'a [u8]>, Failure> {
    let kind = take_number(input)?;
    if kind == 0 {
        return take_sectioned(input);
    }
    if kind != 1 {
        return Err(Failure::Input);
    }
    let heard = take_string(input)?;
    Ok(Step::Hear(heard))
}

fn take_sectioned<'a>(input: &mut SliceCursor<'a>) -> Result<Step<'a, &'a [u8]>, Failure> {
    let stream = take_number(input)? as u64;
    let section = take_string(input)?;
    Ok(Step::Stream(stream, section))
}

fn sender_steps<'a>(
    alloc: Global,
    input: &mut SliceCursor<'a>,
) -> Result<Vec<Step<'a, usize>>, Failure> {
    let count = take_number(input)?;
    let mut steps = Vec::new(alloc);
    for _ in 0..count {
        let step = sender_step(input)?;
        steps.push(step)?;
    }
    Ok(steps)
}

fn receiver_steps<'a>(alloc: Global, bytes: &'a [u8]) -> Result<Vec<Step<'a, &'a [u8]>>, Failure> {
    let mut input = SliceCursor::new(bytes);
    let count = take_number(&mut input)?;
    let mut steps = Vec::new(alloc);
    for _ in 0..count {
        let step = receiver_step(&mut input)?;
        steps.push(step)?;
    }
    Ok(steps)
}

/// A step of an encoder. It appends the section and the instructions that it writes.
fn send(
    sender: &mut Sender,
    lists: &[FieldList],
    step: &Step<'_, usize>,
    section: &mut Vec<u8>,
    instructions: &mut Vec<u8>,
    report: &mut Report,
) -> Result<(), Failure> {
    match step {
        Step::Stream(stream, number) => {
            let list = lists.get(*number).ok_or(Failure::Input)?;
            sender.send(*stream, list, section, instructions)?;
            report.add(list.fields().len(), section.len());
            report.add(0, instructions.len());
            Ok(())
        }
        Step::Hear(bytes) => sender.hear(*bytes),
    }
}

/// Packs what a step wrote, a section and the instructions to be read before it, and makes room for the next.
fn put_written(
    packed: &mut Vec<u8>,
    section: &mut Vec<u8>,
    instructions: &mut Vec<u8>,
) -> Result<(), Failure> {
    output::put_string(packed, section)?;
    output::put_string(packed, instructions)?;
    section.clear();
    instructions.clear();
    Ok(())
}

/// All steps of an encoder. Its first instruction stands in `instructions` before.
fn send_steps(
    alloc: Global,
    sender: &mut Sender,
    lists: &[FieldList],
    steps: &[Step<'_, usize>],
    instructions: &mut Vec<u8>,
    packed: &mut Vec<u8>,
) -> Result<Report, Failure> {
    let mut report = Report::new();
    let mut section = Vec::new(alloc);
    packed.clear();
    output::put_number(packed, steps.len())?;
    for step in steps {
        send(sender, lists, step, &mut section, instructions, &mut report)?;
        put_written(packed, &mut section, instructions)?;
    }
    Ok(report)
}

/// A session of an encoder: what it writes in each step stands in `packed` then.
fn send_all(
    alloc: Global,
    setup: EncoderSetup,
    lists: &[FieldList],
    steps: &[Step<'_, usize>],
    packed: &mut Vec<u8>,
) -> Result<Report, Failure> {
    let mut instructions = Vec::new(alloc);
    let mut sender = Sender::new(alloc, setup, &mut instructions)?;
    send_steps(alloc, &mut sender, lists, steps, &mut instructions, packed)
}

/// A step of a decoder; the fields if it decoded a section. It appends what it writes.
fn receive<'r>(
    receiver: &'r mut Receiver,
    step: &Step<'_, &[u8]>,
    replies: &mut WaitingBytes,
) -> Result<Option<&'r FieldBlock>, Failure> {
    match step {
        Step::Stream(stream, section) => receiver.decode(*stream, *section, replies),
        Step::Hear(bytes) => {
            receiver.hear(*bytes, replies)?;
            Ok(None)
        }
    }
}

/// Adds the fields that a section gave.
fn count_block(fields: &Fields<'_>, report: &mut Report) {
    for place in 0..fields.len() {
        let field = fields.get(place);
        report.add(1, field.name().len());
        report.add(0, field.value().len());
    }
}

/// A step of a decoder whose fields are counted, and whose replies are dropped.
fn receive_one(
    receiver: &mut Receiver,
    step: &Step<'_, &[u8]>,
    replies: &mut WaitingBytes,
    report: &mut Report,
) -> Result<(), Failure> {
    if let Some(block) = receive(receiver, step, replies)? {
        count_block(&block.fields(), report);
    }
    replies.advance(replies.len());
    Ok(())
}

fn receive_steps(
    alloc: Global,
    receiver: &mut Receiver,
    steps: &[Step<'_, &[u8]>],
) -> Result<Report, Failure> {
    let mut report = Report::new();
    let mut replies = WaitingBytes::from_vec(Vec::new(alloc));
    for step in steps {
        receive_one(receiver, step, &mut replies, &mut report)?;
    }
    Ok(report)
}

/// A session of a decoder.
fn receive_all(
    alloc: Global,
    capacity: usize,
    steps: &[Step<'_, &[u8]>],
) -> Result<Report, Failure> {
    let mut receiver = Receiver::new(alloc, capacity)?;
    receive_steps(alloc, &mut receiver, steps)
}

/// Packs 1 and a list if a section was decoded, else 0.
fn put_decoded(packed: &mut Vec<u8>, decoded: Option<&FieldBlock>) -> Result<(), Failure> {
    match decoded {
        Some(block) => {
            output::put_number(packed, 1)?;
            output::put_fields(packed, &block.fields())
        }
        None => output::put_number(packed, 0),
    }
}

/// Packs what a step of a decoder gives and writes. `replies` is empty before and after.
fn receive_into(
    packed: &mut Vec<u8>,
    receiver: &mut Receiver,
    step: &Step<'_, &[u8]>,
    replies: &mut WaitingBytes,
) -> Result<(), Failure> {
    let decoded = receive(receiver, step, replies)?;
    put_decoded(packed, decoded)?;
    output::put_string(packed, replies.as_slice())?;
    replies.advance(replies.len());
    Ok(())
}

fn receive_steps_into(
    alloc: Global,
    packed: &mut Vec<u8>,
    receiver: &mut Receiver,
    steps: &[Step<'_, &[u8]>],
) -> Result<(), Failure> {
    let mut replies = WaitingBytes::from_vec(Vec::new(alloc));
    output::put_number(packed, steps.len())?;
    for step in steps {
        receive_into(packed, receiver, step, &mut replies)?;
    }
    Ok(())
}

/// Packs what a decoder gives and writes in a session, for each step: 1 and a list if it decoded a section, else 0;
/// and what it wrote.
fn put_received(
    alloc: Global,
    packed: &mut Vec<u8>,
    capacity: usize,
    steps: &[Step<'_, &[u8]>],
) -> Result<(), Failure> {
    let mut receiver = Receiver::new(alloc, capacity)?;
    receive_steps_into(alloc, packed, &mut receiver, steps)
}

fn send_rounds(
    alloc: Global,
    rounds: u64,
    setup: EncoderSetup,
    lists: &[FieldList],
    steps: &[Step<'_, usize>],
    packed: &mut Vec<u8>,
    out: &mut [u8],
) -> Result<Report, Failure> {
    for _ in 0..rounds {
        send_all(alloc, setup, lists, steps, packed)?;
    }
    let report = send_all(alloc, setup, lists, steps, packed)?;
    output::hand_out(packed, out)?;
    Ok(report)
}

fn encode(
    alloc: Global,
    rounds: u64,
    setup: EncoderSetup,
    bytes: &[u8],
    out: &mut [u8],
) -> Result<Report, Failure> {
    let mut input = SliceCursor::new(bytes);
    let lists = take_lists(alloc, &mut input)?;
    let steps = sender_steps(alloc, &mut input)?;
    let mut packed = Vec::new(alloc);
    send_rounds(alloc, rounds, setup, &lists, &steps, &mut packed, out)
}

fn decode(
    alloc: Global,
    rounds: u64,
    capacity: usize,
    bytes: &[u8],
    out: &mut [u8],
) -> Result<Report, Failure> {
    let steps = receiver_steps(alloc, bytes)?;
    let mut report = Report::new();
    for _ in 0..rounds {
        report = receive_all(alloc, capacity, &steps)?;
    }
    let mut packed = Vec::new(alloc);
    put_received(alloc, &mut packed, capacity, &steps)?;
    output::hand_out(&packed, out)?;
    Ok(report)
}

/// Runs a session of an encoder `rounds` times, and once more to return what it writes for each step. That is a section,
/// and the instructions to be read before it (both empty if it hears).
#[unsafe(no_mangle)]
pub extern "C" fn h3_bench_session_encode(
    alloc: Global,
    rounds: u64,
    capacity: usize,
    limit: usize,
    choices: u32,
    bytes: &[u8],
    out: &mut [u8],
    report: &mut Report,
) -> u32 {
    let setup = EncoderSetup {
        capacity,
        limit,
        chooses: choices != 0,
    };
    answer(encode(alloc, rounds, setup, bytes, out), report)
}

/// Runs a session of a decoder `rounds` times, and once more to return what it gives and writes for each step. It gives
/// 1 and a list if a section was decoded, else 0 (it waits, if the step is a section).
#[unsafe(no_mangle)]
pub extern "C" fn h3_bench_session_decode(
    alloc: Global,
    rounds: u64,
    capacity: usize,
    bytes: &[u8],
    out: &mut [u8],
    report: &mut Report,
) -> u32 {
    answer(decode(alloc, rounds, capacity, bytes, out), report)
}
