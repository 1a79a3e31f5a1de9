//! Lines of what is printed.
use h3_qpack::HeaderField;
use std::alloc::{AllocError, Global};

/// A line of text.
pub fn words(text: &mut String, line: &str) -> Result<(), AllocError> {
    text.push_str(line)?;
    text.push('\n')
}

/// A line of a number.
pub fn number(
    alloc: Global,
    text: &mut String,
    what: &str,
    number: usize,
) -> Result<(), AllocError> {
    let line = format!(in alloc; "{what}: {number}\n")?;
    text.push_str(line.as_str())
}

/// A line of bytes.
pub fn bytes(alloc: Global, text: &mut String, what: &str, bytes: &[u8]) -> Result<(), AllocError> {
    let line = format!(in alloc; "{what}: {bytes:?}\n")?;
    text.push_str(line.as_str())
}

/// A line a field.
pub fn fields(text: &mut String, fields: &[HeaderField]) -> Result<(), AllocError> {
    for it in fields {
        field(text, it.name(), it.value())?;
    }
    Ok(())
}

/// A line of a field.
pub fn field(text: &mut String, name: &[u8], value: &[u8]) -> Result<(), AllocError> {
    text.push_str("  ")?;
    push_bytes(text, name)?;
    text.push_str(" = ")?;
    push_bytes(text, value)?;
    text.push('\n')
}

/// Bytes as text, or a question mark if they are not text.
fn push_bytes(text: &mut String, bytes: &[u8]) -> Result<(), AllocError> {
    match str::from_utf8(bytes) {
        Ok(part) => text.push_str(part),
        Err(_) => text.push_str("?"),
    }
}
