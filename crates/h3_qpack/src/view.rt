//! A dynamic table as the lines of one section name its entries (RFC 9204, sections 3.2.5 and 3.2.6).
ghost use Rattle.std.specs.Prelude.{◌≡◌, ◌+◌, ◌-◌};
ghost use Rattle.h3_field.specs.declared.dynamic.Error.TheVariants.{BadRelativeIndex, BadPostbaseIndex};
ghost use Rattle.h3_table.specs.TableState.{entry_at};
ghost use Rattle.h3_qpack.specs.Views.{AnswersEntry};

use crate::dynamic::DynamicTable;
use h3_field::HeaderField;
use h3_field::dynamic::Error;
use h3_table::entries::MOST_INSERTIONS;
use std::marker::Model;

/// The entries of a table, as the lines of a section with a base name them.
#[derive(Drop)]
pub struct DynamicTableDecoder<'a> {
    table: &'a DynamicTable,
    base: usize,
}

impl<'a> Model for DynamicTableDecoder<'a> {
    ghost use Rattle.h3_qpack.specs.Views.{Based};

    ghost Value = { Based };

    ghost view = { λ v. record { table = v.table.now.table; base = v.base } };
}

impl<'a> DynamicTableDecoder<'a> {
    pub(crate) fn new(table: &'a DynamicTable, base: usize) -> DynamicTableDecoder<'a>
        ensures { result ≡ record { table = table.now.table; base = base } }
    {
        DynamicTableDecoder { table, base }
    }

    /// A copy of the entry at a distance below the base.
    pub fn get_relative(&self, index: usize) -> Result<HeaderField, Error>
        ensures { AnswersEntry (entry_at self.now.table (self.now.base - index)) (BadRelativeIndex index) result }
    {
        let Some(entry) = self.table.get(self.base.saturating_sub(index)) else {
            return Err(Error::BadRelativeIndex(index));
        };
        Ok(entry.copy(self.table.alloc())?)
    }

    /// A copy of the entry at a distance from the base on.
    pub fn get_postbase(&self, index: usize) -> Result<HeaderField, Error>
        ensures { AnswersEntry (entry_at self.now.table (self.now.base + index + 1)) (BadPostbaseIndex index) result }
    {
        // beyond all numbers of entries, if the sum might not fit
        let number = if self.base < MOST_INSERTIONS && index < MOST_INSERTIONS {
            self.base + index + 1
        } else {
            MOST_INSERTIONS
        };
        let Some(entry) = self.table.get(number) else {
            return Err(Error::BadPostbaseIndex(index));
        };
        Ok(entry.copy(self.table.alloc())?)
    }
}
