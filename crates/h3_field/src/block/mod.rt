//! Field lines, and the prefix of a field section (RFC 9204, section 4.5).
ghost use Rattle.h3_field.specs.LineAnswer.{IsLineKind};

mod indexed;
mod literal;
mod prefix;

pub use indexed::{Indexed, IndexedWithPostBase};
pub use literal::{Literal, LiteralWithNameRef, LiteralWithPostBaseNameRef, NameRef};
pub use prefix::HeaderPrefix;

/// Which line a first byte begins.
#[derive(Copy, Clone, PartialEq, Eq, Debug)]
pub enum HeaderBlockField {
    Indexed,
    IndexedWithPostBase,
    LiteralWithNameRef,
    LiteralWithPostBaseNameRef,
    Literal,
    /// Never arises: every byte begins a line.
    Unknown,
}

impl HeaderBlockField {
    /// The line that a byte begins, by its top bits.
    pub fn decode(first: u8) -> HeaderBlockField
        ensures { IsLineKind first result }
    {
        if first >= 128 {
            HeaderBlockField::Indexed
        } else if first >= 64 {
            HeaderBlockField::LiteralWithNameRef
        } else if first >= 32 {
            HeaderBlockField::Literal
        } else if first >= 16 {
            HeaderBlockField::IndexedWithPostBase
        } else {
            HeaderBlockField::LiteralWithPostBaseNameRef
        }
    }
}
