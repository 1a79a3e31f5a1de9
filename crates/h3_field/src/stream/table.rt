//! Instructions of an encoder that carry no string (RFC 9204, sections 4.3.1 and 4.3.4).
ghost use Rattle.std.specs.Prelude.{◌≡◌, ◌++◌, true, false, slice_index, OnOk, OnErr, Err};
ghost use Rattle.h3_field.specs.Instruction.{encoder_bytes};
ghost use Rattle.h3_field.specs.Ends.{IsEndOf};
ghost use Rattle.h3_field.specs.ShapeAnswer.{AtInteger};
ghost use Rattle.h3_field.specs.Shapes.{begins};
ghost use Rattle.h3_field.specs.InstructionReading.{capacity, repeat};
ghost use Rattle.h3_field.specs.InstructionAnswer.{AnswersInstruction, IsSendable, duplication, capacity_setting};
ghost use Rattle.h3_field.specs.declared.parse_error.ParseError.TheVariants.{InvalidPrefix};

use crate::cursor::SliceCursor;
use crate::parse_error::ParseError;
use crate::prefix_int;
use crate::shapes::expect_first;
use std::alloc::AllocError;

/// An insertion of a present entry again, by its distance from the newest: duplicate, `| 0 | 0 | 0 | index (5+) |` (RFC 9204, section
/// 4.3.4).
#[derive(Copy, Clone, PartialEq, Eq, Debug)]
pub struct Duplicate(pub usize);

impl Duplicate {
    /// Takes the instruction from the front, or answers `None` if it is not whole. Then, and on a refusal, nothing is taken.
    #[tactic(auto, using(crate::specs::EndLaws::none_dropped))]
    pub fn decode(buf: &mut SliceCursor<'_>) -> Result<Option<Duplicate>, ParseError>
        ensures own { begins 0 31 buf.old ≡ true → AnswersInstruction duplication AtInteger (repeat buf.old) buf.old buf.new result }
        ensures other { begins 0 31 buf.old ≡ false → (result ≡ Err (InvalidPrefix (slice_index buf.old 0))) × (buf.new ≡ buf.old) }
        ensures rest { IsEndOf buf.old buf.new }
    {
        expect_first(buf, 0, 31)?;
        match prefix_int::decode(5, buf) {
            Ok((_, value)) => Ok(Some(Duplicate(value as usize))),
            Err(prefix_int::Error::UnexpectedEnd) => Ok(None),
            Err(e) => Err(ParseError::Integer(e)),
        }
    }

    /// Appends the instruction. A refusal appends nothing.
    pub fn encode(&self, buf: &mut Vec<u8>) -> Result<(), AllocError>
        requires { IsSendable (duplication self.now) }
        ensures ok { OnOk result (buf.new.items ≡ buf.old.items ++ encoder_bytes (duplication self.now)) }
        ensures err { OnErr result (buf.new.items ≡ buf.old.items) }
    {
        prefix_int::encode(5, 0, self.0 as u64, buf)
    }
}

/// A new capacity of the table, in bytes: set dynamic table capacity, `| 0 | 0 | 1 | capacity (5+) |` (RFC 9204, section
/// 4.3.1).
#[derive(Copy, Clone, PartialEq, Eq, Debug)]
pub struct DynamicTableSizeUpdate(pub usize);

impl DynamicTableSizeUpdate {
    /// Takes the instruction from the front, or answers `None` if it is not whole. Then, and on a refusal, nothing is taken.
    #[tactic(auto, using(crate::specs::EndLaws::none_dropped))]
    pub fn decode(buf: &mut SliceCursor<'_>) -> Result<Option<DynamicTableSizeUpdate>, ParseError>
        ensures own { begins 32 63 buf.old ≡ true
            → AnswersInstruction capacity_setting AtInteger (capacity buf.old) buf.old buf.new result }
        ensures other { begins 32 63 buf.old ≡ false → (result ≡ Err (InvalidPrefix (slice_index buf.old 0))) × (buf.new ≡ buf.old) }
        ensures rest { IsEndOf buf.old buf.new }
    {
        expect_first(buf, 32, 63)?;
        match prefix_int::decode(5, buf) {
            Ok((_, value)) => Ok(Some(DynamicTableSizeUpdate(value as usize))),
            Err(prefix_int::Error::UnexpectedEnd) => Ok(None),
            Err(e) => Err(ParseError::Integer(e)),
        }
    }

    /// Appends the instruction. A refusal appends nothing.
    pub fn encode(&self, buf: &mut Vec<u8>) -> Result<(), AllocError>
        requires { IsSendable (capacity_setting self.now) }
        ensures ok { OnOk result (buf.new.items ≡ buf.old.items ++ encoder_bytes (capacity_setting self.now)) }
        ensures err { OnErr result (buf.new.items ≡ buf.old.items) }
    {
        prefix_int::encode(5, 1, self.0 as u64, buf)
    }
}
