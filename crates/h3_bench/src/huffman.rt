//! The Huffman code of string literals.

use crate::input;
use crate::report::{Failure, Report, answer};
use h3_huffman::decode::decode_into;
use h3_huffman::encode::encode_front;
use std::alloc::Global;

/// Writes the payload of each string after the one before it.
fn encode_all(strings: &[&[u8]], out: &mut [u8]) -> Result<usize, Failure> {
    let mut written = 0;
    for string in strings {
        let string: &[u8] = *string;
        // a code word has at most thirty bits, and the encoder writes its last bits as four bytes
        if string.len() >= (out.len() - written) / 4 {
            return Err(Failure::Room);
        }
        let len = encode_front(string, &mut out[written..]);
        written += len;
    }
    Ok(written)
}

/// Writes the string of each payload after the one before it.
fn decode_all(payloads: &[&[u8]], out: &mut [u8]) -> Result<usize, Failure> {
    let mut written = 0;
    for payload in payloads {
        let payload: &[u8] = *payload;
        // a code word has at least five bits, and the decoder writes two symbols at a time
        if payload.len() / 5 * 8 + 12 > out.len() - written {
            return Err(Failure::Room);
        }
        let len = decode_into(payload, &mut out[written..]).ok_or(Failure::Refused)?;
        written += len;
    }
    Ok(written)
}

/// Encodes the strings `rounds` times.
#[unsafe(no_mangle)]
pub extern "C" fn h3_bench_huffman_encode(
    alloc: Global,
    rounds: u64,
    bytes: &[u8],
    out: &mut [u8],
    report: &mut Report,
) -> u32 {
    answer(encode(alloc, rounds, bytes, out), report)
}

/// Decodes the payloads `rounds` times.
#[unsafe(no_mangle)]
pub extern "C" fn h3_bench_huffman_decode(
    alloc: Global,
    rounds: u64,
    bytes: &[u8],
    out: &mut [u8],
    report: &mut Report,
) -> u32 {
    answer(decode(alloc, rounds, bytes, out), report)
}

fn encode(alloc: Global, rounds: u64, bytes: &[u8], out: &mut [u8]) -> Result<Report, Failure> {
    let strings = input::strings(alloc, bytes)?;
    let mut written = 0;
    for _ in 0..rounds {
        written = encode_all(&strings, out)?;
    }
    Ok(Report {
        items: strings.len() as u64,
        bytes: written as u64,
        checksum: 0,
    })
}

fn decode(alloc: Global, rounds: u64, bytes: &[u8], out: &mut [u8]) -> Result<Report, Failure> {
    let payloads = input::strings(alloc, bytes)?;
    let mut written = 0;
    for _ in 0..rounds {
        written = decode_all(&payloads, out)?;
    }
    Ok(Report {
        items: payloads.len() as u64,
        bytes: written as u64,
        checksum: 0,
    })
}
