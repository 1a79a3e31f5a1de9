//! Field sections whose fields sum to more than a limit.

use crate::ends::Receiver;
use crate::report::{Failure, Report, answer};
use h3_unidirectional::waiting::WaitingBytes;
use std::alloc::Global;

/// Reads the encoder's instructions, and then the section in each round.
fn weigh_rounds(
    receiver: &mut Receiver,
    replies: &mut WaitingBytes,
    rounds: u64,
    max: u64,
    instructions: &[u8],
    section: &[u8],
) -> Result<Report, Failure> {
    receiver.hear(instructions, replies)?;
    let mut report = Report::new();
    for _ in 0..rounds {
        report = receiver.weigh(section, max)?;
    }
    Ok(report)
}

fn weigh(
    alloc: Global,
    rounds: u64,
    capacity: usize,
    max: u64,
    instructions: &[u8],
    section: &[u8],
) -> Result<Report, Failure> {
    let mut replies = WaitingBytes::from_vec(Vec::new(alloc));
    let mut receiver = Receiver::new(alloc, capacity)?;
    weigh_rounds(
        &mut receiver,
        &mut replies,
        rounds,
        max,
        instructions,
        section,
    )
}

/// Reads a section whose fields are kept up to `max` bytes, `rounds` times, at a decoder that announced this capacity and read these
/// instructions.
#[unsafe(no_mangle)]
pub extern "C" fn h3_bench_section_within(
    alloc: Global,
    rounds: u64,
    capacity: usize,
    max: u64,
    instructions: &[u8],
    section: &[u8],
    report: &mut Report,
) -> u32 {
    answer(
        weigh(alloc, rounds, capacity, max, instructions, section),
        report,
    )
}
