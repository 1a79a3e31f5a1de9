//! Sets of the names that the rules speak of.
ghost use Rattle.std.specs.Prelude.{◌≡◌, ◌==◌, ◌||◌, false};
ghost use Rattle.h3_messages.specs.Known.{place};
ghost use Rattle.h3_messages.specs.Survey.{has};
ghost use Rattle.h3_messages.specs.declared.known.Known.{Known};

use crate::known::Known;

/// A set of names: the bit at the place of each.
#[derive(Clone, Copy)]
pub(crate) struct NameSet {
    pub(crate) bits: u32,
}

impl NameSet {
    /// That of no name.
    pub(crate) fn none() -> NameSet
        ensures { (k : Known) → has k result ≡ false }
    {
        NameSet { bits: 0 }
    }

    /// Whether it has the name.
    pub(crate) fn has(self, known: Known) -> bool
        ensures { result ≡ has known self }
    {
        (self.bits >> known.place()) & 1 == 1
    }

    /// The same with this name.
    pub(crate) fn with(self, known: Known) -> NameSet
        ensures { (k : Known) → has k result ≡ (has k self || (place k == place known)) }
    {
        NameSet {
            bits: self.bits | (1 << known.place()),
        }
    }
}
