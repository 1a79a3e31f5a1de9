//! Headers, made of the fields of sections and listed.

use crate::input;
use crate::report::{Failure, Report, answer};
use h3_field::{HeaderField, SliceCursor, decode_stateless};
use h3_header::Header;
use std::alloc::Global;

/// The fields of a section, as they come to a receiver.
pub(crate) fn fields_of(alloc: Global, section: &[u8]) -> Result<Vec<HeaderField>, Failure> {
    let decoded = decode_stateless(alloc, &mut SliceCursor::new(section), u64::MAX).map_err(
        |_| Failure::Refused,
    )?;
    Ok(decoded.fields)
}

fn header_of(alloc: Global, section: &[u8]) -> Result<Header, Failure> {
    let fields = fields_of(alloc, section)?;
    Header::try_from(alloc, fields).map_err(|_| Failure::Refused)
}

/// Makes the header of each section, and frees it.
fn read_all(alloc: Global, sections: &[&[u8]]) -> Result<Report, Failure> {
    let mut report = Report::new();
    for section in sections {
        report.add(header_of(alloc, *section)?.len(), 0);
    }
    Ok(report)
}

/// What `read_all` does before it makes headers.
fn decode_all(alloc: Global, sections: &[&[u8]]) -> Result<Report, Failure> {
    let mut report = Report::new();
    for section in sections {
        report.add(fields_of(alloc, *section)?.len(), 0);
    }
    Ok(report)
}

/// Lists the fields of each header, and frees the list.
fn list_all(alloc: Global, headers: &[Header]) -> Result<Report, Failure> {
    let mut report = Report::new();
    for header in headers {
        report.add(header.fields(alloc)?.len(), 0);
    }
    Ok(report)
}

fn read(alloc: Global, rounds: u64, bytes: &[u8]) -> Result<Report, Failure> {
    let sections = input::strings(alloc, bytes)?;
    let mut report = Report::new();
    for _ in 0..rounds {
        report = read_all(alloc, &sections)?;
    }
    Ok(report)
}

fn decode(alloc: Global, rounds: u64, bytes: &[u8]) -> Result<Report, Failure> {
    let sections = input::strings(alloc, bytes)?;
    let mut report = Report::new();
    for _ in 0..rounds {
        report = decode_all(alloc, &sections)?;
    }
    Ok(report)
}

/// The headers of sections.
fn headers(alloc: Global, bytes: &[u8]) -> Result<Vec<Header>, Failure> {
    let sections = input::strings(alloc, bytes)?;
    let mut headers = Vec::new(alloc);
    for section in &sections {
        headers.push(header_of(alloc, *section)?)?;
    }
    Ok(headers)
}

fn list(alloc: Global, rounds: u64, bytes: &[u8]) -> Result<Report, Failure> {
    let headers = headers(alloc, bytes)?;
    let mut report = Report::new();
    for _ in 0..rounds {
        report = list_all(alloc, &headers)?;
    }
    Ok(report)
}

/// Decodes the sections and makes their headers, `rounds` times.
#[unsafe(no_mangle)]
pub extern "C" fn h3_bench_header_read(
    alloc: Global,
    rounds: u64,
    bytes: &[u8],
    report: &mut Report,
) -> u32 {
    answer(read(alloc, rounds, bytes), report)
}

/// Decodes the sections alone, `rounds` times.
#[unsafe(no_mangle)]
pub extern "C" fn h3_bench_header_decode(
    alloc: Global,
    rounds: u64,
    bytes: &[u8],
    report: &mut Report,
) -> u32 {
    answer(decode(alloc, rounds, bytes), report)
}

/// Lists the fields of the sections' headers, `rounds` times.
#[unsafe(no_mangle)]
pub extern "C" fn h3_bench_header_fields(
    alloc: Global,
    rounds: u64,
    bytes: &[u8],
    report: &mut Report,
) -> u32 {
    answer(list(alloc, rounds, bytes), report)
}
