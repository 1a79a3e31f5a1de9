//! A script from a reader: all of it is read, and the number of a refused line is written.
ghost use Rattle.std.specs.Prelude.{◌≡◌, ◌⊎◌, IfOk, IfErr};
ghost use Rattle.std.specs.Io.KnownBytes.{Appends};
ghost use Rattle.h3_script.specs.Inputs.{HasRead, ReadsScript, RefusesInput, LosesInput, Fails};
ghost use Rattle.h3_script.specs.Lines.{refused_line};

use crate::error::ScriptError;
use crate::output::put;
use crate::script::{Script, parse};
use std::alloc::Global;
use std::io::{Read, Write};

/// How many bytes a script may have.
const MOST: u64 = 1 << 48;

/// Why there is no script to answer.
#[derive(Clone, Copy)]
enum Failure {
    /// An allocation or a read failed.
    Lost,
    /// The line of this number is refused.
    Line(u64),
}

/// Reads a script of at most 2^48 bytes whole. If a line is refused, nothing but `line` and the number of the first such line is
/// written, and the error is the status 1. It is 2 if an allocation, a read or a write failed. Then nothing was written, unless
/// a line is refused: nothing is promised of what was written of its number.
pub fn read_script<R: Read, W: Write>(
    alloc: Global,
    reader: &mut R,
    writer: &mut W,
) -> Result<Script, u8>
    ensures ok { IfOk result (λ s. ReadsScript (R.remaining reader.old) (R.remaining reader.new) s.setup s.events.items) }
    ensures unwritten { IfOk result (λ _. W.contents writer.new ≡ W.contents writer.old) }
    ensures refused { IfErr result (λ status. status ≡ 1 → RefusesInput (R.remaining reader.old) (R.remaining reader.new)
        (W.contents writer.old) (W.contents writer.new)) }
    ensures lost { IfErr result (λ status. status ≡ 2 → LosesInput (R.remaining reader.old) (R.remaining reader.new)
        (W.contents writer.old) (W.contents writer.new)) }
    ensures statuses { IfErr result (λ status. (status ≡ 1) ⊎ (status ≡ 2)) }
{
    match read(alloc, reader) {
        Ok(script) => Ok(script),
        Err(Failure::Line(number)) => Err(refuse(alloc, number, writer)),
        Err(Failure::Lost) => Err(2),
    }
}

/// The script that the input is.
fn read<R: Read>(alloc: Global, reader: &mut R) -> Result<Script, Failure>
    ensures ok { IfOk result (λ s. ReadsScript (R.remaining reader.old) (R.remaining reader.new) s.setup s.events.items) }
    ensures err { IfErr result (Fails (R.remaining reader.old) (R.remaining reader.new)) }
{
    let Ok(bytes) = gather(alloc, reader) else {
        return Err(Failure::Lost);
    };
    match parse(alloc, &bytes, MOST) {
        Ok(script) => Ok(script),
        Err(ScriptError::Line(number)) => Err(Failure::Line(number)),
        Err(ScriptError::OutOfMemory) => Err(Failure::Lost),
    }
}

/// Reads to the end, or past the most bytes that a script may have.
fn gather<R: Read>(alloc: Global, reader: &mut R) -> Result<Vec<u8>, Failure>
    ensures { IfOk result (λ bytes. HasRead (R.remaining reader.old) (R.remaining reader.new) bytes.items) }
{
    let mut bytes = Vec::new(alloc);
    let mut buffer = [0u8; 4096];
    for _ in 0..MOST + 1 {
        let Ok(count) = reader.read(&mut buffer) else {
            return Err(Failure::Lost);
        };
        if count == 0 {
            return Ok(bytes);
        }
        if bytes.extend_from_slice(&buffer[..count]).is_err() {
            return Err(Failure::Lost);
        }
        if bytes.len() as u64 > MOST {
            return Ok(bytes);
        }
    }
    Ok(bytes)
}

/// Writes the number of the refused line.
fn refuse<W: Write>(alloc: Global, number: u64, writer: &mut W) -> u8
    ensures refused { result ≡ 1 → Appends (W.contents writer.old) (W.contents writer.new) (refused_line number) }
    ensures statuses { (result ≡ 1) ⊎ (result ≡ 2) }
{
    let Ok(text) = format!(in alloc; "line {number}\n") else {
        return 2;
    };
    if put(writer, text.as_bytes()) { 1 } else { 2 }
}
