//! Lines that name an entry whole (RFC 9204, sections 4.5.2 and 4.5.3).
ghost use Rattle.std.specs.Prelude.{◌≡◌, ◌++◌, true, false, slice_index, OnOk, OnErr, Err};
ghost use Rattle.h3_field.specs.Line.{line_bytes};
ghost use Rattle.h3_field.specs.Ends.{IsEndOf};
ghost use Rattle.h3_field.specs.ShapeAnswer.{AtInteger};
ghost use Rattle.h3_field.specs.Shapes.{begins};
ghost use Rattle.h3_field.specs.LineReading.{indexed, post_base};
ghost use Rattle.h3_field.specs.LineAnswer.{AnswersLine, IsWritable, indexed_line, post_base_line};
ghost use Rattle.h3_field.specs.declared.parse_error.ParseError.TheVariants.{InvalidPrefix};

use crate::cursor::SliceCursor;
use crate::parse_error::ParseError;
use crate::prefix_int;
use crate::shapes::expect_first;
use std::alloc::AllocError;

/// A line that is an entry of the static table, or a dynamic one by its distance below the base (RFC 9204, section 4.5.2). It is the
/// indexed field line, `| 1 | T | index (6+) |`: T is 1 for the static table.
#[derive(Copy, Clone, PartialEq, Eq, Debug)]
pub enum Indexed {
    Static(usize),
    Dynamic(usize),
}

impl Indexed {
    /// Takes the line from the front. A refused read takes nothing.
    #[tactic(auto, using(crate::specs::EndLaws::none_dropped))]
    pub fn decode(buf: &mut SliceCursor<'_>) -> Result<Indexed, ParseError>
        ensures own { begins 128 255 buf.old ≡ true → AnswersLine indexed_line AtInteger (indexed buf.old) buf.old buf.new result }
        ensures other { begins 128 255 buf.old ≡ false → (result ≡ Err (InvalidPrefix (slice_index buf.old 0))) × (buf.new ≡ buf.old) }
        ensures rest { IsEndOf buf.old buf.new }
    {
        expect_first(buf, 128, 255)?;
        let (flags, index) = prefix_int::decode(6, buf)?;
        if flags % 2 == 1 {
            Ok(Indexed::Static(index as usize))
        } else {
            Ok(Indexed::Dynamic(index as usize))
        }
    }

    /// Appends the line. A refusal appends nothing.
    pub fn encode(&self, buf: &mut Vec<u8>) -> Result<(), AllocError>
        requires { IsWritable (indexed_line self.now) }
        ensures ok { OnOk result (buf.new.items ≡ buf.old.items ++ line_bytes (indexed_line self.now)) }
        ensures err { OnErr result (buf.new.items ≡ buf.old.items) }
    {
        match *self {
            Indexed::Static(index) => prefix_int::encode(6, 3, index as u64, buf),
            Indexed::Dynamic(index) => prefix_int::encode(6, 2, index as u64, buf),
        }
    }
}

/// A line that is a dynamic entry, by its distance from the base on (RFC 9204, section 4.5.3). It is the indexed field line with post-base
/// index, `| 0 | 0 | 0 | 1 | index (4+) |`.
#[derive(Copy, Clone, PartialEq, Eq, Debug)]
pub struct IndexedWithPostBase(pub usize);

impl IndexedWithPostBase {
    /// Takes the line from the front. A refused read takes nothing.
    #[tactic(auto, using(crate::specs::EndLaws::none_dropped))]
    pub fn decode(buf: &mut SliceCursor<'_>) -> Result<IndexedWithPostBase, ParseError>
        ensures own { begins 16 31 buf.old ≡ true → AnswersLine post_base_line AtInteger (post_base buf.old) buf.old buf.new result }
        ensures other { begins 16 31 buf.old ≡ false → (result ≡ Err (InvalidPrefix (slice_index buf.old 0))) × (buf.new ≡ buf.old) }
        ensures rest { IsEndOf buf.old buf.new }
    {
        expect_first(buf, 16, 31)?;
        let (_, index) = prefix_int::decode(4, buf)?;
        Ok(IndexedWithPostBase(index as usize))
    }

    /// Appends the line. A refusal appends nothing.
    pub fn encode(&self, buf: &mut Vec<u8>) -> Result<(), AllocError>
        requires { IsWritable (post_base_line self.now) }
        ensures ok { OnOk result (buf.new.items ≡ buf.old.items ++ line_bytes (post_base_line self.now)) }
        ensures err { OnErr result (buf.new.items ≡ buf.old.items) }
    {
        prefix_int::encode(4, 1, self.0 as u64, buf)
    }
}
