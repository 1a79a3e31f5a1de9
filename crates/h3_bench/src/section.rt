//! Field sections that name no dynamic entry.
ghost use Rattle.std.specs.Prelude.{◌^◌, ◌-◌, IfOk};
ghost use Rattle.h3_field.specs.Section.{AnswersSection, Fields};

use crate::input::{self, FieldList};
use crate::output;
use crate::report::{Failure, Report, answer};
use h3_field::{HeaderField, SliceCursor, decode_stateless_into, encode_stateless};
use std::alloc::Global;

/// Encodes a list in place of what stands in `section`.
fn encode_list(list: &FieldList, section: &mut Vec<u8>) -> Result<(), Failure> {
    section.clear();
    encode_stateless(section, list.fields()).map_err(|_| Failure::Memory)?;
    Ok(())
}

/// Encodes each list into the same buffer.
fn encode_all(lists: &[FieldList], section: &mut Vec<u8>) -> Result<Report, Failure> {
    let mut report = Report::new();
    for list in lists {
        encode_list(list, section)?;
        report.add(list.fields().len(), section.len());
    }
    Ok(report)
}

/// Decodes a section in place of the fields that the list holds, and answers the sum of their sizes.
fn decode_into(alloc: Global, section: &[u8], fields: &mut Vec<HeaderField>) -> Result<u64, Failure>
    ensures { IfOk result (λ sum. AnswersSection (2 ^ 64 - 1) section.now (Fields fields.new.items sum)) }
{
    decode_stateless_into(alloc, &mut SliceCursor::new(section), u64::MAX, fields).map_err(
        |_| Failure::Refused,
    )
}

/// Adds the fields that a section gave.
fn count_fields(fields: &[HeaderField], report: &mut Report) {
    for field in fields {
        report.add(1, field.name().len());
        report.add(0, field.value().len());
    }
}

/// Decodes each section into the same list.
fn decode_all(
    alloc: Global,
    sections: &[&[u8]],
    fields: &mut Vec<HeaderField>,
) -> Result<Report, Failure> {
    let mut report = Report::new();
    for section in sections {
        decode_into(alloc, *section, fields)?;
        count_fields(fields.as_slice(), &mut report);
    }
    Ok(report)
}

/// Packs the section of each list.
fn put_sections(
    lists: &[FieldList],
    section: &mut Vec<u8>,
    packed: &mut Vec<u8>,
) -> Result<(), Failure> {
    output::put_number(packed, lists.len())?;
    for list in lists {
        encode_list(list, section)?;
        output::put_string(packed, section)?;
    }
    Ok(())
}

fn encode_rounds(
    rounds: u64,
    lists: &[FieldList],
    section: &mut Vec<u8>,
    packed: &mut Vec<u8>,
    out: &mut [u8],
) -> Result<Report, Failure> {
    let mut report = Report::new();
    for _ in 0..rounds {
        report = encode_all(lists, section)?;
    }
    put_sections(lists, section, packed)?;
    output::hand_out(packed, out)?;
    Ok(report)
}

fn encode(alloc: Global, rounds: u64, bytes: &[u8], out: &mut [u8]) -> Result<Report, Failure> {
    let lists = input::field_lists(alloc, bytes)?;
    let mut section = Vec::new(alloc);
    let mut packed = Vec::new(alloc);
    encode_rounds(rounds, &lists, &mut section, &mut packed, out)
}

/// Packs the list of each section.
fn put_lists(
    alloc: Global,
    sections: &[&[u8]],
    fields: &mut Vec<HeaderField>,
    packed: &mut Vec<u8>,
) -> Result<(), Failure> {
    output::put_number(packed, sections.len())?;
    for section in sections {
        decode_into(alloc, *section, fields)?;
        output::put_fields(packed, &h3_field::Fields::of(fields.as_slice()))?;
    }
    Ok(())
}

fn decode_rounds(
    alloc: Global,
    rounds: u64,
    sections: &[&[u8]],
    fields: &mut Vec<HeaderField>,
    packed: &mut Vec<u8>,
    out: &mut [u8],
) -> Result<Report, Failure> {
    let mut report = Report::new();
    for _ in 0..rounds {
        report = decode_all(alloc, sections, fields)?;
    }
    put_lists(alloc, sections, fields, packed)?;
    output::hand_out(packed, out)?;
    Ok(report)
}

fn decode(alloc: Global, rounds: u64, bytes: &[u8], out: &mut [u8]) -> Result<Report, Failure> {
    let sections = input::strings(alloc, bytes)?;
    // one list for all sections, whose memory serves again
    let mut fields = Vec::new(alloc);
    let mut packed = Vec::new(alloc);
    decode_rounds(alloc, rounds, &sections, &mut fields, &mut packed, out)
}

/// Encodes the lists `rounds` times, and once more to return their sections as strings.
#[unsafe(no_mangle)]
pub extern "C" fn h3_bench_section_encode(
    alloc: Global,
    rounds: u64,
    bytes: &[u8],
    out: &mut [u8],
    report: &mut Report,
) -> u32 {
    answer(encode(alloc, rounds, bytes, out), report)
}

/// Decodes the sections `rounds` times, and once more to return their lists.
#[unsafe(no_mangle)]
pub extern "C" fn h3_bench_section_decode(
    alloc: Global,
    rounds: u64,
    bytes: &[u8],
    out: &mut [u8],
    report: &mut Report,
) -> u32 {
    answer(decode(alloc, rounds, bytes, out), report)
}
