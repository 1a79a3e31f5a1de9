//! What an encoder refuses.
use crate::log::{bytes, number, words};
use h3_qpack::{DynamicTable, Encoder, EncoderError, SliceCursor, set_dynamic_table_size};
use std::alloc::{AllocError, Global};

/// `ok`, or the refusal.
fn answer(
    alloc: Global,
    text: &mut String,
    told: Result<(), EncoderError>,
) -> Result<(), AllocError> {
    let line = format!(in alloc; "{told:?}")?;
    words(text, line.as_str())
}

/// What was answered, and what was written with it.
fn answer_with(
    alloc: Global,
    text: &mut String,
    told: Result<(), EncoderError>,
    out: &[u8],
) -> Result<(), AllocError> {
    answer(alloc, text, told)?;
    bytes(alloc, text, "encoder stream", out)
}

/// A table of 2^30 bytes, and more than 65535 waiting streams.
pub fn of_limits(alloc: Global, text: &mut String) -> Result<(), AllocError> {
    words(text, "# limits of an encoder's table")?;
    use_table(alloc, text, 1 << 30, 65536)?;
    use_table(alloc, text, (1 << 30) - 1, 65536)?;
    use_table(alloc, text, (1 << 30) - 1, 65535)?;
    set_size(alloc, text, 220)?;
    set_size(alloc, text, 1 << 30)?;
    set_limit(alloc, text, 65535)?;
    set_limit(alloc, text, 65536)
}

fn use_table(
    alloc: Global,
    text: &mut String,
    capacity: usize,
    blocked: usize,
) -> Result<(), AllocError> {
    let mut encoder = Encoder::new(alloc);
    let mut out = Vec::new(alloc);
    let told = encoder.use_table(capacity, blocked, &mut out);
    answer_with(alloc, text, told, &out)
}

fn set_size(alloc: Global, text: &mut String, size: usize) -> Result<(), AllocError> {
    let mut table = DynamicTable::new(alloc);
    let mut out = Vec::new(alloc);
    let told = set_dynamic_table_size(&mut table, &mut out, size);
    answer_with(alloc, text, told, &out)
}

fn set_limit(alloc: Global, text: &mut String, limit: usize) -> Result<(), AllocError> {
    let mut table = DynamicTable::new(alloc);
    let set = table.set_max_blocked(limit);
    let line = format!(in alloc; "{set:?}")?;
    words(text, line.as_str())
}

/// An increment by 63, the cancellation of stream 4, its acknowledgment, which there is no section for, and an increment by 1. Then
/// an increment by 2, and one that is not whole.
pub fn of_an_acknowledgment(alloc: Global, text: &mut String) -> Result<(), AllocError> {
    words(text, "# an acknowledgment of no section")?;
    let mut encoder = Encoder::new(alloc);
    replies(alloc, text, &mut encoder, &[63, 0, 68, 132, 1])?;
    replies(alloc, text, &mut encoder, &[2, 63])
}

fn replies(
    alloc: Global,
    text: &mut String,
    encoder: &mut Encoder,
    bytes: &[u8],
) -> Result<(), AllocError> {
    let mut cursor = SliceCursor::new(bytes);
    answer(alloc, text, encoder.on_decoder_recv(&mut cursor))?;
    number(alloc, text, "bytes left", cursor.remaining())?;
    number(
        alloc,
        text,
        "known received count",
        encoder.known_received(),
    )?;
    number(alloc, text, "sections that may wait", encoder.blocks_out())
}
