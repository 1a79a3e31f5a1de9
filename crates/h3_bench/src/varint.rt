//! Varints.

use crate::output;
use crate::report::{Failure, Report, answer};
use h3_coding::coding::{BufExt, BufMutExt};
use std::alloc::Global;

/// Writes the numbers, and copies what the last round wrote to `out`.
fn encode(alloc: Global, rounds: u64, numbers: &[u64], out: &mut [u8]) -> Result<Report, Failure> {
    let mut encoded = Vec::with_capacity(alloc, out.len())?;
    for _ in 0..rounds {
        encoded.clear();
        for number in numbers {
            if *number >= 1 << 62 {
                return Err(Failure::Input);
            }
            encoded.write_var(*number).map_err(|_| Failure::Memory)?;
        }
    }
    output::hand_out(&encoded, out)?;
    Ok(Report {
        items: numbers.len() as u64,
        bytes: encoded.len() as u64,
        checksum: 0,
    })
}

/// Reads `count` numbers from the front.
fn decode(rounds: u64, count: usize, bytes: &[u8]) -> Result<Report, Failure> {
    let mut checksum: u64 = 0;
    for _ in 0..rounds {
        let mut input = bytes;
        checksum = 0;
        for _ in 0..count {
            let number = input.get_var().map_err(|_| Failure::Input)?;
            checksum = checksum.wrapping_add(number);
        }
    }
    Ok(Report {
        items: count as u64,
        bytes: bytes.len() as u64,
        checksum,
    })
}

/// Writes the numbers `rounds` times.
#[unsafe(no_mangle)]
pub extern "C" fn h3_bench_varint_encode(
    alloc: Global,
    rounds: u64,
    numbers: &[u64],
    out: &mut [u8],
    report: &mut Report,
) -> u32 {
    answer(encode(alloc, rounds, numbers, out), report)
}

/// Reads the numbers `rounds` times.
#[unsafe(no_mangle)]
pub extern "C" fn h3_bench_varint_decode(
    rounds: u64,
    count: usize,
    bytes: &[u8],
    report: &mut Report,
) -> u32 {
    answer(decode(rounds, count, bytes), report)
}
