//! A dynamic table as the encoder of one section uses it (RFC 9204, sections 2.1 and 3.2.4 to 3.2.6).
ghost use Rattle.std.specs.Prelude.{◌≡◌, ◌≤◌, IfOk, IfErr};
ghost use Rattle.h3_field.specs.StaticTable.{static_name};
ghost use Rattle.h3_field.specs.declared.dynamic.Error.TheVariants.{OutOfMemory};
ghost use Rattle.h3_table.specs.TableState.{evicted};
ghost use Rattle.h3_qpack.specs.Drafting.{begun, IsOver};
ghost use Rattle.h3_qpack.specs.EncoderView.{AnswersField, AnswersName, section_found, IsInsertion, AnswersInsertion, committed};

use crate::dynamic::DynamicTable;
use crate::section::Section;
use h3_field::dynamic::Error;
use h3_field::static_::StaticTable;
use h3_field::{FieldRef, HeaderField};
use h3_table::entries::Match;

/// An entry that a line may name. Dynamic entries have the numbers of their insertions, from 1 (`absolute`), and an index
/// below the base of the section or from it on.
#[derive(Copy, Clone, PartialEq, Eq, Debug)]
pub enum DynamicLookupResult {
    /// The static entry of that index.
    Static(usize),
    /// A dynamic entry, at a distance below the base.
    Relative { index: usize, absolute: usize },
    /// A dynamic entry, at a distance from the base on.
    PostBase { index: usize, absolute: usize },
    /// There is none.
    NotFound,
}

/// How a field was inserted. The new entry has the number `absolute`, from 1, and the distance `postbase` from the base of
/// the section on.
#[derive(Copy, Clone, PartialEq, Eq, Debug)]
pub enum DynamicInsertionResult {
    /// With a literal name and value.
    Inserted {
        postbase: usize,
        absolute: usize,
    },
    /// As a copy of the entry at a distance below the newest.
    Duplicated {
        relative: usize,
        postbase: usize,
        absolute: usize,
    },
    /// With the name of the entry at a distance below the newest.
    InsertedWithNameRef {
        relative: usize,
        postbase: usize,
        absolute: usize,
    },
    /// With the name of the static entry of that index.
    InsertedWithStaticNameRef {
        index: usize,
        postbase: usize,
        absolute: usize,
    },
    /// It may not be inserted.
    NotInserted,
}

/// How a field is inserted, after which so many entries are evicted.
fn insertion_of(
    table: &DynamicTable,
    base: usize,
    field: &FieldRef<'_>,
    static_index: Option<usize>,
    after: usize,
) -> DynamicInsertionResult
    requires index { static_index ≡ static_name field.now.name }
    requires after { evicted table.now.table ≤ after }
    requires base { base ≤ table.now.table.inserted }
    ensures { IsInsertion table.now.table base after field.now result }
{
    let inserted = table.inserted();
    let postbase = inserted - base;
    let absolute = inserted + 1;
    if let Some(number) = table.newest(Match::Field, field, after, inserted) {
        let relative = inserted - number;
        return DynamicInsertionResult::Duplicated {
            relative,
            postbase,
            absolute,
        };
    }
    if let Some(index) = static_index {
        return DynamicInsertionResult::InsertedWithStaticNameRef {
            index,
            postbase,
            absolute,
        };
    }
    if let Some(number) = table.newest(Match::Name, field, after, inserted) {
        let relative = inserted - number;
        return DynamicInsertionResult::InsertedWithNameRef {
            relative,
            postbase,
            absolute,
        };
    }
    DynamicInsertionResult::Inserted { postbase, absolute }
}

/// Ends a section, and answers its required insert count. It is tracked if it names entries.
fn end(table: &mut DynamicTable, stream: u64, section: &Section) -> Result<usize, Error>
    requires { IsOver table.old.table section.now }
    ensures ok { IfOk result (λ count. (count ≡ section.now.newest) × (table.new ≡ committed table.old stream section.now)) }
    ensures err { IfErr result (λ e. (e ≡ OutOfMemory) × (table.new ≡ table.old)) }
{
    if section.newest != 0 {
        table.track(stream, section.newest, section.oldest)?;
    }
    Ok(section.newest)
}

/// A table, with a section of one stream under way: what its lines name and what is inserted for it. The section is
/// tracked once it is committed, and else it is released. What it names is in the table (`over`).
#[derive(Drop)]
pub struct DynamicTableEncoder<'a> {
    table: &'a mut DynamicTable,
    stream: u64,
    section: Section,
    pub ghost over: { IsOver table.now.table section },
}

impl<'a> DynamicTableEncoder<'a> {
    pub(crate) fn new(table: &'a mut DynamicTable, stream: u64) -> DynamicTableEncoder<'a>
        ensures same_reference { result.table.ghost_name ≡ table.entry.ghost_name }
        ensures table { result.table.now ≡ table.old }
        ensures stream { result.stream ≡ stream }
        ensures section { result.section ≡ begun table.old }
    {
        let section = Section::begin(table);
        DynamicTableEncoder {
            table,
            stream,
            section,
        }
    }

    /// How many insertions there were before the section.
    pub fn base(&self) -> usize
        ensures { result ≡ self.now.section.base }
    {
        self.section.base
    }

    /// How many insertions there were in all.
    pub fn total_inserted(&self) -> usize
        ensures { result ≡ self.now.table.now.table.inserted }
    {
        self.table.inserted()
    }

    /// The capacity of the table.
    pub fn max_size(&self) -> usize
        ensures { result ≡ self.now.table.now.table.capacity }
    {
        self.table.capacity()
    }

    /// An equal entry: of the static table, else the newest one that is older than the section and may be named, which a
    /// line then names (RFC 9204, section 2.1.2). No entry equals a field that is never indexed.
    pub fn lookup(&mut self, field: &HeaderField) -> DynamicLookupResult
        ensures found { AnswersField self.old.table.now self.old.section field.now result }
        ensures section { self.new.section ≡ section_found self.old.section result }
        ensures same_reference { self.new.table.ghost_name ≡ self.old.table.ghost_name }
        ensures table { self.new.table.now ≡ self.old.table.now }
        ensures stream { self.new.stream ≡ self.old.stream }
    {
        if let Some(index) = StaticTable::find(field) {
            return DynamicLookupResult::Static(index);
        }
        let most = self.section.most_usable(self.table, self.section.base);
        let evicted = self.table.evicted();
        let lent = FieldRef::of(field);
        let Some(absolute) = self.table.newest(Match::Field, &lent, evicted, most) else {
            return DynamicLookupResult::NotFound;
        };
        let index = self.section.base - absolute;
        self.section.name(absolute);
        DynamicLookupResult::Relative { index, absolute }
    }

    /// An entry of the field's name: of the static table, else the newest one that may be named, which a line then names.
    pub fn lookup_name(&mut self, field: &HeaderField) -> DynamicLookupResult
        ensures found { AnswersName self.old.table.now self.old.section field.now result }
        ensures section { self.new.section ≡ section_found self.old.section result }
        ensures same_reference { self.new.table.ghost_name ≡ self.old.table.ghost_name }
        ensures table { self.new.table.now ≡ self.old.table.now }
        ensures stream { self.new.stream ≡ self.old.stream }
    {
        if let Some(index) = StaticTable::find_name(field.name()) {
            return DynamicLookupResult::Static(index);
        }
        let most = self.section.most_usable(self.table, self.table.inserted());
        let evicted = self.table.evicted();
        let lent = FieldRef::of(field);
        let Some(absolute) = self.table.newest(Match::Name, &lent, evicted, most) else {
            return DynamicLookupResult::NotFound;
        };
        let base = self.section.base;
        self.section.name(absolute);
        if absolute <= base {
            let index = base - absolute;
            return DynamicLookupResult::Relative { index, absolute };
        }
        let index = absolute - base - 1;
        DynamicLookupResult::PostBase { index, absolute }
    }

    /// Inserts a field if it may be inserted (RFC 9204, sections 2.1.1 and 2.1.2), and a line then names the new entry. That needs a
    /// section that may be blocked at its decoder, and entries to be evicted that are known to be received and named by no section. A field
    /// that is never indexed is not inserted (section 7.1.3). If an allocation fails nothing changes.
    pub fn insert(&mut self, field: &HeaderField) -> Result<DynamicInsertionResult, Error>
        ensures ok { IfOk result (AnswersInsertion self.old.table.now self.old.section field.now self.new.table.now self.new.section) }
        ensures err { IfErr result
            (λ e. (e ≡ OutOfMemory) × (self.new.table.now ≡ self.old.table.now) × (self.new.section ≡ self.old.section)) }
        ensures same_reference { self.new.table.ghost_name ≡ self.old.table.ghost_name }
        ensures stream { self.new.stream ≡ self.old.stream }
    {
        if !self.section.may_block || field.is_never_indexed() {
            return Ok(DynamicInsertionResult::NotInserted);
        }
        let lent = FieldRef::of(field);
        let Some(after) = self.table.room_for(&lent, self.section.oldest) else {
            return Ok(DynamicInsertionResult::NotInserted);
        };
        let static_index = StaticTable::find_name(field.name());
        let answer = insertion_of(self.table, self.section.base, &lent, static_index, after);
        let number = self.table.inserted() + 1;
        self.table.insert(&lent, after)?;
        self.section.name(number);
        Ok(answer)
    }

    /// Ends the section, and answers its required insert count. If it names entries it is tracked under its stream, until it is
    /// acknowledged or the stream is canceled (RFC 9204, section 2.1.1). If an allocation fails it is not tracked.
    pub fn commit(self) -> Result<usize, Error>
        ensures ok { IfOk result
            (λ count. (count ≡ self.entry.section.newest)
            × (self.exit.0.now ≡ committed self.entry.table.now self.entry.stream self.entry.section)) }
        ensures err { IfErr result (λ e. (e ≡ OutOfMemory) × (self.exit.0.now ≡ self.entry.table.now)) }
    {
        let DynamicTableEncoder {
            table,
            stream,
            section,
        } = self;
        end(table, stream, &section)
    }

    /// Ends a section that is not sent. It is not tracked, and its insertions stay.
    pub fn release(self)
        ensures { self.exit.0.now ≡ self.entry.table.now }
    {}
}
