//! The lines of answers, into a writer.
ghost use Rattle.std.specs.Prelude.{◌≡◌, true, string_bytes, IfOk};
ghost use Rattle.std.specs.Io.KnownBytes.{Appends};
ghost use Rattle.h3_script.specs.Lines.{printed};

use crate::text::answer_text;
use h3_world::event::Answer;
use std::alloc::{AllocError, Global};
use std::io::Write;

/// Writes the lines of the answers, each with its end. Returns `true` if all of them were written; else an allocation or a write
/// failed.
pub fn write_answers<W: Write>(alloc: Global, answers: &[Answer], writer: &mut W) -> bool
    ensures { result ≡ true → Appends (W.contents writer.old) (W.contents writer.new) (printed answers.now) }
{
    let Ok(text) = print(alloc, answers) else {
        return false;
    };
    put(writer, text.as_bytes())
}

/// The lines of the answers.
fn print(alloc: Global, answers: &[Answer]) -> Result<String, AllocError>
    ensures { IfOk result (λ text. string_bytes text ≡ printed answers.now) }
{
    let mut text = String::new(alloc);
    for answer in answers {
        let line = answer_text(alloc, answer)?;
        text.push_str(line.as_str())?;
        text.push('\n')?;
    }
    Ok(text)
}

/// Whether all of the text was written.
pub fn put<W: Write>(writer: &mut W, text: &[u8]) -> bool
    ensures { result ≡ true → Appends (W.contents writer.old) (W.contents writer.new) text.now }
{
    writer.write_all(text).is_ok() && writer.flush().is_ok()
}
