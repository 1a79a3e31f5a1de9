//! An encoded field section (RFC 9204, section 4.5), as a decoder reads it now.
ghost use Rattle.std.specs.Prelude.{◌≡◌, ℕ, List};
ghost use Rattle.h3_field.specs.Field.{Field};
ghost use Rattle.h3_field.specs.declared.decoder_error.DecoderError.TheVariants.{OutOfMemory};
ghost use Rattle.h3_qpack.specs.DecodedSection.{IsRefusalOf, decode_section};
ghost use Rattle.h3_qpack.specs.DecoderState.{DecoderState};
ghost use Rattle.h3_qpack.specs.SectionAnswers.{MayAskMemory};
ghost use Rattle.h3_incoming.specs.Trying.{IsTry};

use h3_field::FieldBlock;
use h3_qpack::{BlockWithin, Decoder, DecoderError, SliceCursor};

/// What a decoder makes of a field section.
#[derive(Drop)]
pub(crate) enum Tried {
    /// Its fields stand in the block, or they sum to more than the limit: then it has the sum and their last status.
    Decoded(BlockWithin),
    /// It needs so many insertions, and not all were read.
    Missing(usize),
    Bad,
    OutOfMemory,
}

/// Decodes a field section into a block, which keeps nothing of what it held before. If its fields sum to more than the limit, none is
/// kept. `OutOfMemory` is returned only for a section whose prefix is good, whose insertions were read, and whose first line has a string
/// or is of a field.
pub(crate) fn try_section(
    decoder: &Decoder,
    bytes: &[u8],
    limit: u64,
    block: &mut FieldBlock,
) -> Tried
    ensures { IsTry (MayAskMemory decoder.now bytes.now) limit (decode_section decoder.now bytes.now) result block.new }
{
    let mut cursor = SliceCursor::new(bytes);
    match decoder.decode_block_within(&mut cursor, limit, b":status".as_slice(), block) {
        Ok(decoded) => Tried::Decoded(decoded),
        Err(e) => refused(e),
    }
}

// What a refusal is.
fn refused(error: DecoderError) -> Tried
    ensures { (limit : ℕ) (r : DecoderState) (bytes : List ℕ) (block : List Field) → IsRefusalOf (decode_section r bytes) error
        → (error ≡ OutOfMemory → MayAskMemory r bytes)
        → IsTry (MayAskMemory r bytes) limit (decode_section r bytes) result block }
{
    match error {
        DecoderError::MissingRefs(count) => Tried::Missing(count),
        DecoderError::OutOfMemory => Tried::OutOfMemory,
        DecoderError::HeaderTooLong(_)
        | DecoderError::InvalidInteger(_)
        | DecoderError::InvalidString(_)
        | DecoderError::InvalidIndex(_)
        | DecoderError::DynamicTable(_)
        | DecoderError::InvalidStaticIndex(_)
        | DecoderError::UnknownPrefix(_)
        | DecoderError::BadBaseIndex
        | DecoderError::UnexpectedEnd
        | DecoderError::BufSize => Tried::Bad,
    }
}
