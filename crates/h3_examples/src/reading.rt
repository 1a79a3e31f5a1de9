//! A decoder whose encoder stream comes in pieces (RFC 9204, appendix B.2).
use crate::log::{bytes, fields, number, words};
use h3_qpack::{Decoder, SliceCursor};
use std::alloc::{AllocError, Global};

// Capacity 220, and the insertions of :authority www.example.com and :path /sample/path.
const TWO_INSERTIONS: &[u8] = b"\x3f\xbd\x01\xc0\x0fwww.example.com\xc1\x0c/sample/path";

// Both entries, after two lines of the static table.
const SECTION: &[u8] = &[3, 129, 209, 215, 16, 17];

/// The section waits, and is decoded once both instructions are whole. Of bytes that end inside an instruction its front is left.
pub fn in_pieces(alloc: Global, text: &mut String) -> Result<(), AllocError> {
    words(text, "# a decoder whose encoder stream comes in pieces")?;
    let mut decoder = Decoder::announced(alloc, 220);
    two_pieces(alloc, &mut decoder, text)
}

fn two_pieces(alloc: Global, decoder: &mut Decoder, text: &mut String) -> Result<(), AllocError> {
    section(alloc, decoder, text)?;
    piece(alloc, decoder, &TWO_INSERTIONS[..30], text)?;
    piece(alloc, decoder, &TWO_INSERTIONS[20..], text)?;
    section(alloc, decoder, text)
}

/// One insertion and 299 duplicates of it. Then an instruction for a capacity above the one that was announced.
pub fn at_once(alloc: Global, text: &mut String) -> Result<(), AllocError> {
    words(
        text,
        "# 300 insertions at once, and a capacity above the announced one",
    )?;
    let mut many = Vec::new(alloc);
    push_insertions(&mut many)?;
    alone(alloc, &many, text)?;
    alone(alloc, &[63, 190, 1], text)
}

fn push_insertions(many: &mut Vec<u8>) -> Result<(), AllocError> {
    many.extend_from_slice(&[63, 189, 1, 192, 0])?;
    for _ in 0..299 {
        many.push(0)?;
    }
    Ok(())
}

/// What a decoder makes of these bytes that has read nothing before.
fn alone(alloc: Global, bytes: &[u8], text: &mut String) -> Result<(), AllocError> {
    let mut decoder = Decoder::announced(alloc, 220);
    piece(alloc, &mut decoder, bytes, text)
}

fn section(alloc: Global, decoder: &Decoder, text: &mut String) -> Result<(), AllocError> {
    match decoder.decode_header(&mut SliceCursor::new(SECTION)) {
        Ok(decoded) => {
            words(
                text,
                if decoded.dyn_ref {
                    "decoded, to be acknowledged"
                } else {
                    "decoded"
                },
            )?;
            fields(text, &decoded.fields)
        }
        Err(e) => {
            let line = format!(in alloc; "not decoded: {e:?}")?;
            words(text, line.as_str())
        }
    }
}

/// Reads instructions, and tells how many insertions there are, what is left, and what the decoder answers.
fn piece(
    alloc: Global,
    decoder: &mut Decoder,
    bytes_: &[u8],
    text: &mut String,
) -> Result<(), AllocError> {
    let mut cursor = SliceCursor::new(bytes_);
    let mut replies = Vec::new(alloc);
    match decoder.on_encoder_recv(&mut cursor, &mut replies) {
        Ok(count) => number(alloc, text, "insertions read", count)?,
        Err(_) => words(text, "refused")?,
    }
    number(alloc, text, "bytes left", cursor.remaining())?;
    bytes(alloc, text, "decoder stream", &replies)
}
