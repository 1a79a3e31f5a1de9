//! Field sections that name no entry of a dynamic table.
use crate::log::{bytes, fields, number, words};
use crate::session::field;
use h3_qpack::{SliceCursor, decode_stateless, encode_stateless};
use std::alloc::{AllocError, Global};

/// A response is written, read back, and refused if it is larger than is taken.
pub fn response(alloc: Global, text: &mut String) -> Result<(), AllocError> {
    words(text, "# a section without a table")?;
    let mut section = Vec::new(alloc);
    write(&mut section)?;
    told(alloc, text, &section)
}

fn write(section: &mut Vec<u8>) -> Result<(), AllocError> {
    let response = [field(b":status", b"200"), field(b"x-a", b"1")];
    if response[0]
        .mem_size()
        .saturating_add(response[1].mem_size())
        > 1000
    {
        return Err(AllocError);
    }
    if encode_stateless(section, &response).is_err() {
        return Err(AllocError);
    }
    Ok(())
}

fn told(alloc: Global, text: &mut String, section: &[u8]) -> Result<(), AllocError> {
    bytes(alloc, text, "section", section)?;
    read(alloc, text, section, 1000)?;
    read(alloc, text, section, 77)
}

/// The fields, if their sizes sum to at most `most` (RFC 9114, section 4.2.2).
fn read(alloc: Global, text: &mut String, section: &[u8], most: u64) -> Result<(), AllocError> {
    let mut cursor = SliceCursor::new(section);
    match decode_stateless(alloc, &mut cursor, most) {
        Ok(decoded) => {
            number(alloc, text, "bytes left", cursor.remaining())?;
            fields(text, &decoded.fields)
        }
        Err(e) => {
            let line = format!(in alloc; "not decoded: {e:?}")?;
            words(text, line.as_str())
        }
    }
}
