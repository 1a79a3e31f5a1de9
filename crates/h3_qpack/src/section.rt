//! A field section under way, and the choice of how each field is written (RFC 9204, section 2.1).
ghost use Rattle.std.specs.Prelude.{◌≡◌, ◌<◌, ◌≤◌};
ghost use Rattle.h3_qpack.specs.Drafting.{begun, naming, most_usable, IsOver, IsLiteral, IsChosen, IsPossible, is_literal};
ghost use Rattle.h3_qpack.specs.Missed.{IsMissedFor};

use crate::dynamic::DynamicTable;
use h3_field::FieldRef;
use h3_field::static_::StaticTable;
use h3_table::entries::Match;

/// How a field is written.
#[derive(Clone, Copy)]
pub(crate) enum Choice {
    /// A line that is the static entry of that index.
    Static(usize),
    /// A line that is the dynamic entry of that number, which is older than the section.
    Entry(usize),
    /// An insertion, after which so many entries are evicted, and a line that is the new entry. No entry up to the second number equals
    /// the field.
    Insertion(usize, usize),
    /// A literal value with the name of the static entry of that index.
    StaticName(usize),
    /// A literal value with the name of the dynamic entry of that number.
    EntryName(usize),
    /// A literal name and value.
    Literal,
}

impl Choice {
    /// Whether the line is a literal.
    pub(crate) fn is_literal(self) -> bool
        ensures { result ≡ is_literal self }
    {
        matches!(
            self,
            Choice::StaticName(_) | Choice::EntryName(_) | Choice::Literal
        )
    }
}

/// A section under way: how many insertions there were before it, whether it may be blocked at the decoder, which entries drain, and which
/// entries its lines name so far. Of these it keeps the oldest and the newest. If the lines name none, they are the greatest number and 0.
#[derive(Clone, Copy)]
pub(crate) struct Section {
    /// How many insertions there were before it.
    pub base: usize,
    /// Whether it may be blocked at the decoder.
    pub may_block: bool,
    /// Its lines name no entry up to this number, 0 if the encoder is not economical.
    pub draining: usize,
    /// The oldest entry that it names.
    pub oldest: usize,
    /// The newest entry that it names.
    pub newest: usize,
}

impl Section {
    // RFC 9204 2.1.2: limit of blocked streams, at the encoder
    /// A section before its first field.
    pub(crate) fn begin(table: &DynamicTable) -> Section
        ensures value { result ≡ begun table.now }
        ensures over { IsOver table.now.table result }
    {
        Section {
            base: table.inserted(),
            may_block: table.blocks_out() < table.limit(),
            draining: table.draining(),
            oldest: usize::MAX,
            newest: 0,
        }
    }

    /// A line names this entry.
    pub(crate) fn name(&mut self, number: usize)
        ensures { self.new ≡ naming self.old number }
    {
        self.oldest = self.oldest.min(number);
        self.newest = self.newest.max(number);
    }

    // RFC 9204 2.1.2: limit of blocked streams, at the encoder
    /// The greatest number that a line may name, of those up to a number.
    pub(crate) fn most_usable(&self, table: &DynamicTable, number: usize) -> usize
        ensures { result ≡ most_usable table.now self.now number }
    {
        if self.may_block {
            return number;
        }
        number.min(table.known_received())
    }

    /// How a field is written that is never indexed, or is no entry and may not be inserted.
    fn choose_literal(&self, table: &DynamicTable, field: &FieldRef<'_>) -> Choice
        requires { IsLiteral table.now self.now field.now }
        ensures rule { IsChosen table.now self.now field.now result }
        ensures possible { IsPossible table.now self.now field.now result }
        ensures missed { IsMissedFor table.now.table field.now result }
    {
        if let Some(index) = StaticTable::find_name(field.name()) {
            return Choice::StaticName(index);
        }
        let most = self.most_usable(table, table.inserted());
        let above = table.evicted().max(self.draining);
        if let Some(number) = table.newest(Match::Name, field, above, most) {
            return Choice::EntryName(number);
        }
        Choice::Literal
    }

    // RFC 9204 4.5.4: never-indexed fields
    /// How a field is written: a static entry, else an older entry that does not drain, else a new one, else a literal. One that is never
    /// indexed is a literal (RFC 9204, section 4.5.4).
    pub(crate) fn choose(&self, table: &DynamicTable, field: &FieldRef<'_>) -> Choice
        requires { self.now.base ≤ table.now.table.inserted }
        ensures rule { IsChosen table.now self.now field.now result }
        ensures possible { IsPossible table.now self.now field.now result }
        ensures missed { IsMissedFor table.now.table field.now result }
    {
        if field.is_never_indexed() {
            return self.choose_literal(table, field);
        }
        if let Some(index) = StaticTable::find_lent(field) {
            return Choice::Static(index);
        }
        let most = self.most_usable(table, self.base);
        let older = table.newest(Match::Field, field, table.evicted(), most);
        if let Some(number) = older {
            if number > self.draining {
                return Choice::Entry(number);
            }
        }
        if self.may_block && table.is_worth(field, older.is_some()) {
            if let Some(after) = table.room_for(field, self.oldest) {
                let searched = if older.is_some() { 0 } else { self.base };
                return Choice::Insertion(after, searched);
            }
        }
        self.choose_literal(table, field)
    }
}
