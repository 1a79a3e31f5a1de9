//! Instructions of a decoder, on its stream to an encoder (RFC 9204, section 4.4).
ghost use Rattle.std.specs.Prelude.{◌≡◌, ◌++◌, true, false, slice_index, OnOk, OnErr, Err};
ghost use Rattle.h3_field.specs.Instruction.{decoder_bytes};
ghost use Rattle.h3_field.specs.Ends.{IsEndOf};
ghost use Rattle.h3_field.specs.Shapes.{begins};
ghost use Rattle.h3_field.specs.InstructionReading.{acknowledgment, cancellation, increment};
ghost use Rattle.h3_field.specs.InstructionAnswer.{AnswersReply, IsReply, count_increment, section_acknowledgment, stream_cancellation};
ghost use Rattle.h3_field.specs.declared.parse_error.ParseError.TheVariants.{InvalidPrefix};

use crate::cursor::SliceCursor;
use crate::parse_error::ParseError;
use crate::prefix_int;
use crate::shapes::expect_first;
use std::alloc::AllocError;

/// So many insertions were read since the last one that was reported: insert count increment, `| 0 | 0 | increment (6+) |` (RFC 9204,
/// section 4.4.3).
#[derive(Copy, Clone, PartialEq, Eq, Debug)]
pub struct InsertCountIncrement(pub u64);

impl InsertCountIncrement {
    /// Takes the instruction from the front, or answers `None` if it is not whole. Then, and on a refusal, nothing is taken.
    #[tactic(auto, using(crate::specs::EndLaws::none_dropped))]
    pub fn decode(buf: &mut SliceCursor<'_>) -> Result<Option<InsertCountIncrement>, ParseError>
        ensures own { begins 0 63 buf.old ≡ true → AnswersReply count_increment (increment buf.old) buf.old buf.new result }
        ensures other { begins 0 63 buf.old ≡ false → (result ≡ Err (InvalidPrefix (slice_index buf.old 0))) × (buf.new ≡ buf.old) }
        ensures rest { IsEndOf buf.old buf.new }
    {
        expect_first(buf, 0, 63)?;
        match prefix_int::decode(6, buf) {
            Ok((_, value)) => Ok(Some(InsertCountIncrement(value))),
            Err(prefix_int::Error::UnexpectedEnd) => Ok(None),
            Err(e) => Err(ParseError::Integer(e)),
        }
    }

    /// Appends the instruction. A refusal appends nothing.
    pub fn encode(&self, buf: &mut Vec<u8>) -> Result<(), AllocError>
        requires { IsReply (count_increment self.now) }
        ensures ok { OnOk result (buf.new.items ≡ buf.old.items ++ decoder_bytes (count_increment self.now)) }
        ensures err { OnErr result (buf.new.items ≡ buf.old.items) }
    {
        prefix_int::encode(6, 0, self.0, buf)
    }
}

/// A section of that stream, with a required insert count above 0, was decoded: section acknowledgment,
/// `| 1 | stream id (7+) |` (RFC 9204, section 4.4.1).
#[derive(Copy, Clone, PartialEq, Eq, Debug)]
pub struct HeaderAck(pub u64);

impl HeaderAck {
    /// Takes the instruction from the front, or answers `None` if it is not whole. Then, and on a refusal, nothing is taken.
    #[tactic(auto, using(crate::specs::EndLaws::none_dropped))]
    pub fn decode(buf: &mut SliceCursor<'_>) -> Result<Option<HeaderAck>, ParseError>
        ensures own { begins 128 255 buf.old ≡ true → AnswersReply section_acknowledgment (acknowledgment buf.old) buf.old buf.new result }
        ensures other { begins 128 255 buf.old ≡ false → (result ≡ Err (InvalidPrefix (slice_index buf.old 0))) × (buf.new ≡ buf.old) }
        ensures rest { IsEndOf buf.old buf.new }
    {
        expect_first(buf, 128, 255)?;
        match prefix_int::decode(7, buf) {
            Ok((_, value)) => Ok(Some(HeaderAck(value))),
            Err(prefix_int::Error::UnexpectedEnd) => Ok(None),
            Err(e) => Err(ParseError::Integer(e)),
        }
    }

    /// Appends the instruction. A refusal appends nothing.
    pub fn encode(&self, buf: &mut Vec<u8>) -> Result<(), AllocError>
        requires { IsReply (section_acknowledgment self.now) }
        ensures ok { OnOk result (buf.new.items ≡ buf.old.items ++ decoder_bytes (section_acknowledgment self.now)) }
        ensures err { OnErr result (buf.new.items ≡ buf.old.items) }
    {
        prefix_int::encode(7, 1, self.0, buf)
    }
}

/// No further section of that stream is decoded: stream cancellation, `| 0 | 1 | stream id (6+) |` (RFC 9204, section
/// 4.4.2).
#[derive(Copy, Clone, PartialEq, Eq, Debug)]
pub struct StreamCancel(pub u64);

impl StreamCancel {
    /// Takes the instruction from the front, or answers `None` if it is not whole. Then, and on a refusal, nothing is taken.
    #[tactic(auto, using(crate::specs::EndLaws::none_dropped))]
    pub fn decode(buf: &mut SliceCursor<'_>) -> Result<Option<StreamCancel>, ParseError>
        ensures own { begins 64 127 buf.old ≡ true → AnswersReply stream_cancellation (cancellation buf.old) buf.old buf.new result }
        ensures other { begins 64 127 buf.old ≡ false → (result ≡ Err (InvalidPrefix (slice_index buf.old 0))) × (buf.new ≡ buf.old) }
        ensures rest { IsEndOf buf.old buf.new }
    {
        expect_first(buf, 64, 127)?;
        match prefix_int::decode(6, buf) {
            Ok((_, value)) => Ok(Some(StreamCancel(value))),
            Err(prefix_int::Error::UnexpectedEnd) => Ok(None),
            Err(e) => Err(ParseError::Integer(e)),
        }
    }

    /// Appends the instruction. A refusal appends nothing.
    pub fn encode(&self, buf: &mut Vec<u8>) -> Result<(), AllocError>
        requires { IsReply (stream_cancellation self.now) }
        ensures ok { OnOk result (buf.new.items ≡ buf.old.items ++ decoder_bytes (stream_cancellation self.now)) }
        ensures err { OnErr result (buf.new.items ≡ buf.old.items) }
    {
        prefix_int::encode(6, 1, self.0, buf)
    }
}
