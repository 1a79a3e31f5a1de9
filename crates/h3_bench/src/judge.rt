//! Header sections of requests, judged by the rules of well-formed messages that a strict endpoint asks.

use crate::header::fields_of;
use crate::input;
use crate::report::{Failure, Report, answer};
use h3_field::{Fields, HeaderField};
use h3_messages::{Rules, Section};
use std::alloc::Global;

/// The fields of each section.
fn lists_of(alloc: Global, bytes: &[u8]) -> Result<Vec<Vec<HeaderField>>, Failure> {
    let sections = input::strings(alloc, bytes)?;
    let mut lists = Vec::new(alloc);
    for section in &sections {
        lists.push(fields_of(alloc, *section)?)?;
    }
    Ok(lists)
}

/// The rules of a strict endpoint for what it receives.
const RULES: Rules = Rules {
    is_sent: false,
    strict_messages: true,
    any_protocol: false,
    extended_connect: false,
};

/// Whether a list reads as the header section of a request and breaks no rule, by one walk over it.
fn is_well_formed(alloc: Global, fields: &[HeaderField]) -> bool {
    match h3_messages::judge(alloc, &Fields::of(fields), Section::Request, &RULES) {
        Ok(read) => read.violation.is_none(),
        Err(_) => false,
    }
}

/// Judges each list as the header section of a request. The fields of those that break no rule are counted.
fn judge_all(alloc: Global, lists: &[Vec<HeaderField>]) -> Report {
    let mut report = Report::new();
    for fields in lists {
        if is_well_formed(alloc, fields.as_slice()) {
            report.add(fields.len(), 0);
        }
    }
    report
}

fn judge(alloc: Global, rounds: u64, bytes: &[u8]) -> Result<Report, Failure> {
    let lists = lists_of(alloc, bytes)?;
    let mut report = Report::new();
    for _ in 0..rounds {
        report = judge_all(alloc, lists.as_slice());
    }
    Ok(report)
}

/// Judges the fields of the sections as header sections of requests, `rounds` times.
#[unsafe(no_mangle)]
pub extern "C" fn h3_bench_request_judge(
    alloc: Global,
    rounds: u64,
    bytes: &[u8],
    report: &mut Report,
) -> u32 {
    answer(judge(alloc, rounds, bytes), report)
}
