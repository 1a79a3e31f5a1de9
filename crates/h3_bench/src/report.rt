//! What an export answers.

use std::alloc::{AllocError, AllocFailed};

/// Why a work was given up.
#[derive(Copy, Clone, PartialEq, Eq, Debug)]
pub(crate) enum Failure {
    /// The input is not of its format.
    Input,
    /// The output does not fit.
    Room,
    /// No memory.
    Memory,
    /// A call refused its input.
    Refused,
}

impl From<AllocError> for Failure {
    fn from(_e: AllocError) -> Failure {
        Failure::Memory
    }
}

impl<T: Drop> From<AllocFailed<T>> for Failure {
    fn from(_e: AllocFailed<T>) -> Failure {
        Failure::Memory
    }
}

/// What one round did.
#[repr(C)]
#[derive(Copy, Clone)]
pub struct Report {
    /// How many values, strings, or fields.
    pub items: u64,
    /// How many bytes were written, or stand in the strings that were read.
    pub bytes: u64,
    /// A sum over what was read, which wraps.
    pub checksum: u64,
}

impl Report {
    /// Nothing done.
    pub(crate) fn new() -> Report {
        Report {
            items: 0,
            bytes: 0,
            checksum: 0,
        }
    }

    pub(crate) fn add(&mut self, items: usize, bytes: usize) {
        self.items = self.items.wrapping_add(items as u64);
        self.bytes = self.bytes.wrapping_add(bytes as u64);
    }
}

/// Returns a report in `report`. 0 says that it is there; other numbers say why there is none.
pub(crate) fn answer(done: Result<Report, Failure>, report: &mut Report) -> u32 {
    match done {
        Ok(found) => {
            *report = found;
            0
        }
        Err(Failure::Input) => 1,
        Err(Failure::Room) => 2,
        Err(Failure::Memory) => 3,
        Err(Failure::Refused) => 4,
    }
}
