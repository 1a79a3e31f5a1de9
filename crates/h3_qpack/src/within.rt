//! Field sections whose fields are only counted, since the sum of their sizes passes a limit.
ghost use Rattle.std.specs.Prelude.{◌≡◌, ◌<◌, [], List, IfOk, OnOk, IfErr, Some, None};
ghost use Rattle.h3_field.specs.Field.{Field};
ghost use Rattle.h3_field.specs.declared.decoder_error.DecoderError.TheVariants.{OutOfMemory};
ghost use Rattle.h3_qpack.specs.DecodedSection.{fields_in};
ghost use Rattle.h3_qpack.specs.SectionAnswers.{LinesAskMemory, IsReasonFor};
ghost use Rattle.h3_qpack.specs.Sizes.{IsLarge, counted, counted_on};

use crate::lines::{LineField, Lines};
use h3_field::{DecoderError, SliceCursor};
use std::alloc::{AllocError, Global};
use std::marker::Model;

/// What the caller learns of a field section whose fields sum to more than a limit.
#[derive(Drop)]
pub struct LargeSection {
    /// The sum of the sizes of all its fields, which stops at the greatest number.
    pub mem_size: u64,
    /// Whether the required insert count was above 0: then the section has to be acknowledged.
    pub dyn_ref: bool,
    /// The value of its last field of the name that was asked for.
    pub last_value: Option<Vec<u8>>,
}

/// Fields that are counted and not kept.
#[derive(Drop)]
struct Count {
    sum: u64,
    // the value of the last field of the name that was asked for
    last: Option<Vec<u8>>,
}

impl Model for Count {
    ghost use Rattle.std.specs.Prelude.{option_map};
    ghost use Rattle.h3_qpack.specs.Sizes.{Counted};

    ghost Value = { Counted };

    ghost view = { λ c. record { sum = c.sum; last = option_map (λ v. v.items) c.last } };
}

impl Count {
    /// Counts one field more.
    fn add(&mut self, alloc: Global, name: &[u8], line: LineField<'_>) -> Result<(), AllocError>
        ensures { OnOk result (self.new ≡ counted_on name.now self.old line.entry) }
    {
        self.sum = self.sum.saturating_add(line.mem_size() as u64);
        if line.has_name(name) {
            // no two copies at one time
            self.last = None;
            self.last = Some(line.copy_value(alloc)?);
        }
        Ok(())
    }
}

impl<'t> Lines<'t> {
    /// Counts the fields of the lines, to the end of `buf`.
    fn count(&self, buf: &mut SliceCursor<'_>, name: &[u8]) -> Result<Count, DecoderError>
        ensures ok { IfOk result
            (λ c. (fields : List Field) × (fields_in self.now.table self.now.base buf.old ≡ Some fields) × (c ≡ counted name.now fields)
            × (buf.new ≡ [])) }
        ensures err { IfErr result (IsReasonFor (fields_in self.now.table self.now.base buf.old ≡ None) (λ count. ⊥)) }
        ensures memory { IfErr result (λ e. e ≡ OutOfMemory → LinesAskMemory self.now.table self.now.base buf.old) }
    {
        let mut count = Count { sum: 0, last: None };
        // (the label names the loop in its proof)
        'lines: while buf.remaining() > 0 {
            let line = self.take(buf)?;
            count.add(self.alloc(), name, line)?;
        }
        Ok(count)
    }

    /// What the caller learns of lines whose fields sum to more than the limit.
    pub(crate) fn take_large(
        &self,
        buf: &mut SliceCursor<'_>,
        dyn_ref: bool,
        name: &[u8],
    ) -> Result<LargeSection, DecoderError>
        ensures ok { IfOk result
            (λ l. (fields : List Field) × (fields_in self.now.table self.now.base buf.old ≡ Some fields) × IsLarge name.now dyn_ref fields l
            × (buf.new ≡ [])) }
        ensures err { IfErr result (IsReasonFor (fields_in self.now.table self.now.base buf.old ≡ None) (λ count. ⊥)) }
        ensures memory { IfErr result (λ e. e ≡ OutOfMemory → LinesAskMemory self.now.table self.now.base buf.old) }
    {
        let count = self.count(buf, name)?;
        Ok(LargeSection {
            mem_size: count.sum,
            dyn_ref,
            last_value: count.last,
        })
    }
}
