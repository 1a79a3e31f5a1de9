//! Sections that are sent and neither acknowledged nor canceled, and have no place of their own. Each stream has its own in the order of
//! sending.
ghost use Rattle.std.specs.Prelude.{◌≡◌, ◌<◌, ◌++◌, ◌∷◌, List, [], length, false, None, Some, IfSome, IfNone, OnErr, OnOk};
ghost use Rattle.std.specs.List.{list_any};
ghost use Rattle.h3_table.specs.Tracking.{is_of};
ghost use Rattle.std.specs.Ordering.{nat_cmp};
ghost use Rattle.std.specs.BTreeMap.{is_at};
ghost use Rattle.std.specs.Map.{lookup};
ghost use Rattle.h3_table.specs.Sections.{sections_of, IsChanged};
ghost use Rattle.h3_table.specs.ByStream.{of_stream, HasOneMore, IsFirstTaken, IsLastTaken};
ghost use Rattle.h3_table.specs.declared.tracking.NamedEntries.{NamedEntries};

use crate::tracking::{NamedEntries, TrackedSection};
use std::alloc::{AllocError, Global};
use std::collections::{BTreeMap, VecDeque};
use std::marker::Model;

/// What the sections of one stream name, in the order of sending. There is at least one; further ones are few, so the first stands
/// by itself.
#[derive(Drop)]
pub(crate) struct EntriesInOrder {
    first: NamedEntries,
    more: VecDeque<NamedEntries>,
}

impl Model for EntriesInOrder {
    ghost use Rattle.std.specs.Prelude.{List, ◌∷◌};
    ghost use Rattle.h3_table.specs.declared.tracking.NamedEntries.{NamedEntries};

    ghost Value = { List NamedEntries };

    ghost view = { λ o. o.first ∷ o.more.items };
}

impl EntriesInOrder {
    fn new(alloc: Global, first: NamedEntries) -> EntriesInOrder
        ensures { result ≡ first ∷ [] }
    {
        EntriesInOrder {
            first,
            more: VecDeque::new(alloc),
        }
    }

    fn add(&mut self, named: NamedEntries) -> Result<(), AllocError>
        ensures ok { OnOk result (self.new ≡ self.old ++ named ∷ []) }
        ensures err { OnErr result (self.new ≡ self.old) }
    {
        self.more.push_back(named)?;
        Ok(())
    }

    /// Takes the first away, if others follow it.
    fn take_first(&mut self) -> Option<NamedEntries>
        ensures some { IfSome result (λ n. self.old ≡ n ∷ self.new) }
        ensures none { IfNone result ((length self.old ≡ 1) × (self.new ≡ self.old)) }
    {
        let next = self.more.pop_front()?;
        let first = self.first;
        self.first = next;
        Some(first)
    }

    /// Takes the last away, if others stand in front of it.
    fn take_last(&mut self) -> Option<NamedEntries>
        ensures some { IfSome result (λ n. self.old ≡ self.new ++ n ∷ []) }
        ensures none { IfNone result ((length self.old ≡ 1) × (self.new ≡ self.old)) }
    {
        self.more.pop_back()
    }

    /// There is at least one. It does nothing: a proof that needs the fact calls it.
    fn has_some(&self)
        ensures { 0 < length self.now }
    {
        self.more.len();
    }

    fn first(&self) -> NamedEntries
        ensures { (rest : List NamedEntries) → (n : NamedEntries) → self.now ≡ n ∷ rest → result ≡ n }
    {
        self.first
    }
}

/// The sections in the order of their streams, and those of one stream in the order of sending.
#[derive(Drop)]
pub(crate) struct FurtherSections {
    alloc: Global,
    streams: BTreeMap<u64, EntriesInOrder>,
}

impl Model for FurtherSections {
    ghost use Rattle.std.specs.Prelude.{List};
    ghost use Rattle.h3_table.specs.declared.tracking.TrackedSection.{TrackedSection};
    ghost use Rattle.h3_table.specs.Sections.{sections_of};

    ghost Value = { List TrackedSection };

    ghost view = { λ s. sections_of s.streams.entries };
}

/// A section is the first of its stream.
fn begin(
    streams: &mut BTreeMap<u64, EntriesInOrder>,
    alloc: Global,
    section: TrackedSection,
) -> Result<(), AllocError>
    requires { lookup (is_at (nat_cmp section.stream)) streams.old.entries ≡ None }
    ensures ok { OnOk result (HasOneMore section (sections_of streams.old.entries) (sections_of streams.new.entries)) }
    ensures err { OnErr result (sections_of streams.new.entries ≡ sections_of streams.old.entries) }
{
    let entries = EntriesInOrder::new(alloc, section.named());
    streams.insert(section.stream, entries)?;
    Ok(())
}

/// Adds a section to those of its stream.
fn add(
    streams: &mut BTreeMap<u64, EntriesInOrder>,
    alloc: Global,
    section: TrackedSection,
) -> Result<(), AllocError>
    ensures ok { OnOk result (HasOneMore section (sections_of streams.old.entries) (sections_of streams.new.entries)) }
    ensures err { OnErr result (sections_of streams.new.entries ≡ sections_of streams.old.entries) }
{
    let Some(entries) = streams.get_mut(&section.stream) else {
        return begin(streams, alloc, section);
    };
    entries.add(section.named())?;
    Ok(())
}

/// Takes a stream away, and answers what its only section names.
fn take_only(streams: &mut BTreeMap<u64, EntriesInOrder>, stream: u64) -> Option<NamedEntries>
    ensures only { (n : NamedEntries) → lookup (is_at (nat_cmp stream)) streams.old.entries ≡ Some (n ∷ []) → result ≡ Some n }
    ensures after { IsChanged stream streams.old.entries streams.new.entries None }
{
    let entries = streams.remove(&stream)?;
    Some(entries.first())
}

/// Takes the oldest section of a stream away, and answers what it names.
fn take_oldest(streams: &mut BTreeMap<u64, EntriesInOrder>, stream: u64) -> Option<NamedEntries>
    ensures { IsFirstTaken stream (sections_of streams.old.entries) (sections_of streams.new.entries) result }
{
    let entries = streams.get_mut(&stream)?;
    if let Some(named) = entries.take_first() {
        return Some(named);
    }
    take_only(streams, stream)
}

/// Takes the newest section of a stream away, and answers what it names.
fn take_newest(streams: &mut BTreeMap<u64, EntriesInOrder>, stream: u64) -> Option<NamedEntries>
    ensures { IsLastTaken stream (sections_of streams.old.entries) (sections_of streams.new.entries) result }
{
    let entries = streams.get_mut(&stream)?;
    if let Some(named) = entries.take_last() {
        return Some(named);
    }
    take_only(streams, stream)
}

impl FurtherSections {
    /// No section. It takes no memory.
    pub(crate) fn new(alloc: Global) -> FurtherSections
        ensures { result ≡ [] }
    {
        FurtherSections {
            alloc,
            streams: BTreeMap::new(alloc),
        }
    }

    /// Whether there are sections of a stream.
    pub(crate) fn has(&self, stream: u64) -> bool
        ensures value { result ≡ list_any (is_of stream) self.now }
        ensures absent { result ≡ false → of_stream stream self.now ≡ [] }
    {
        let Some(entries) = self.streams.get(&stream) else {
            return false;
        };
        // (for the proof: there is at least one, and the map is in order)
        entries.has_some();
        self.streams.len();
        true
    }

    /// A section was sent on its stream. If an allocation fails, nothing changes.
    pub(crate) fn add(&mut self, section: TrackedSection) -> Result<(), AllocError>
        ensures ok { OnOk result (HasOneMore section self.old self.new) }
        ensures err { OnErr result (self.new ≡ self.old) }
    {
        add(&mut self.streams, self.alloc, section)
    }

    /// Takes the oldest section of a stream away, and answers what it names.
    pub(crate) fn take_oldest(&mut self, stream: u64) -> Option<NamedEntries>
        ensures { IsFirstTaken stream self.old self.new result }
    {
        take_oldest(&mut self.streams, stream)
    }

    /// Takes the newest section of a stream away, and answers what it names.
    pub(crate) fn take_newest(&mut self, stream: u64) -> Option<NamedEntries>
        ensures { IsLastTaken stream self.old self.new result }
    {
        take_newest(&mut self.streams, stream)
    }
}
