//! Instructions of an encoder and of a decoder (RFC 9204, sections 4.3 and 4.4).
ghost use Rattle.h3_field.specs.InstructionAnswer.{IsEncoderKind, IsDecoderKind};

mod insertion;
mod reply;
mod table;

pub use insertion::{InsertWithNameRef, InsertWithoutNameRef};
pub use reply::{HeaderAck, InsertCountIncrement, StreamCancel};
pub use table::{Duplicate, DynamicTableSizeUpdate};

/// Which instruction of an encoder a first byte begins.
#[derive(Copy, Clone, PartialEq, Eq, Debug)]
pub enum EncoderInstruction {
    DynamicTableSizeUpdate,
    InsertWithNameRef,
    InsertWithoutNameRef,
    Duplicate,
    /// Never arises: every byte begins an instruction.
    Unknown,
}

impl EncoderInstruction {
    /// The instruction that a byte begins, by its top bits.
    pub fn decode(first: u8) -> EncoderInstruction
        ensures { IsEncoderKind first result }
    {
        if first >= 128 {
            EncoderInstruction::InsertWithNameRef
        } else if first >= 64 {
            EncoderInstruction::InsertWithoutNameRef
        } else if first >= 32 {
            EncoderInstruction::DynamicTableSizeUpdate
        } else {
            EncoderInstruction::Duplicate
        }
    }
}

/// Which instruction of a decoder a first byte begins.
#[derive(Copy, Clone, PartialEq, Eq, Debug)]
pub enum DecoderInstruction {
    HeaderAck,
    StreamCancel,
    InsertCountIncrement,
    /// Never arises: every byte begins an instruction.
    Unknown,
}

impl DecoderInstruction {
    /// The instruction that a byte begins, by its top bits.
    pub fn decode(first: u8) -> DecoderInstruction
        ensures { IsDecoderKind first result }
    {
        if first >= 128 {
            DecoderInstruction::HeaderAck
        } else if first >= 64 {
            DecoderInstruction::StreamCancel
        } else {
            DecoderInstruction::InsertCountIncrement
        }
    }
}
