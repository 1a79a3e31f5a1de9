//! Sections that are sent and neither acknowledged nor canceled, by their streams: each stream has its own in the order of sending.
ghost use Rattle.std.specs.Prelude.{◌≡◌, ◌<◌, ◌≤◌, ◌+◌, ◌*◌, ◌^◌, ◌++◌, [], length, max, OnErr, OnOk};
ghost use Rattle.std.specs.List.{list_any};
ghost use Rattle.h3_table.specs.Tracking.{is_of};
ghost use Rattle.h3_table.specs.InOrder.{in_order, put_last};
ghost use Rattle.h3_table.specs.Sections.{IsOldestTaken, IsNewestTaken};
ghost use Rattle.h3_table.specs.ByStream.{HaveSame, HasOneMore, IsFirstTaken, IsLastTaken};

use crate::further::FurtherSections;
use crate::places::Places;
use crate::tracking::{NamedEntries, TrackedSection};
use std::alloc::{AllocError, Global};
use std::marker::Model;

/// The sections in the order of their streams, and those of one stream in the order of sending. A stream's section at its place is
/// older than its further ones.
#[derive(Drop)]
pub struct Sections {
    places: Places,
    // the further ones of a stream, and those whose place another stream's has
    further: FurtherSections,
    // how many sections there are
    count: usize,
}

impl Model for Sections {
    ghost use Rattle.std.specs.Prelude.{List};
    ghost use Rattle.h3_table.specs.declared.tracking.TrackedSection.{TrackedSection};
    ghost use Rattle.h3_table.specs.SectionsInside.{sections_inside, IsCounted};

    ghost Value = { List TrackedSection };

    ghost view = { sections_inside };

    ghost invariant = { IsCounted };
}

/// Adds a section after those of its stream. There are so many sections then, and at most so many times four places, and 16.
fn add(
    places: &mut Places,
    further: &mut FurtherSections,
    count: usize,
    section: TrackedSection,
) -> Result<(), AllocError>
    requires { count ≡ length (in_order (λ t. t.stream) (places.old.sections ++ further.old)) + 1 }
    ensures few { places.new.places ≤ max places.old.places (4 * count + 16) }
    ensures ok { OnOk result (HasOneMore section (places.old.sections ++ further.old) (places.new.sections ++ further.new)) }
    ensures err { OnErr result (HaveSame (places.old.sections ++ further.old) (places.new.sections ++ further.new)) }
{
    if further.has(section.stream) {
        return further.add(section);
    }
    let done = places.put(count, section)?;
    if done {
        return Ok(());
    }
    further.add(section)
}

/// Gives memory back, if there are no sections by that count.
fn give_back(places: &mut Places, count: usize)
    requires { count ≡ 0 → places.old.sections ≡ [] }
    ensures same { places.new.sections ≡ places.old.sections }
    ensures none { count ≡ 0 → places.new.places ≤ 1024 }
    ensures fewer { places.new.places ≤ places.old.places }
{
    if count == 0 {
        places.give_back();
    }
}

/// Takes the oldest section of a stream away, and answers what it names.
fn take_oldest(
    places: &mut Places,
    further: &mut FurtherSections,
    stream: u64,
) -> Option<NamedEntries>
    ensures places { places.new.places ≡ places.old.places }
    ensures taken { IsFirstTaken stream (places.old.sections ++ further.old) (places.new.sections ++ further.new) result }
{
    if let Some(named) = places.take(stream) {
        return Some(named);
    }
    further.take_oldest(stream)
}

/// Takes the newest section of a stream away, and answers what it names.
fn take_newest(
    places: &mut Places,
    further: &mut FurtherSections,
    stream: u64,
) -> Option<NamedEntries>
    ensures places { places.new.places ≡ places.old.places }
    ensures taken { IsLastTaken stream (places.old.sections ++ further.old) (places.new.sections ++ further.new) result }
{
    if let Some(named) = further.take_newest(stream) {
        return Some(named);
    }
    places.take(stream)
}

impl Sections {
    /// No section. It takes no memory.
    pub fn new(alloc: Global) -> Sections
        ensures { result ≡ [] }
    {
        Sections {
            places: Places::new(alloc),
            further: FurtherSections::new(alloc),
            count: 0,
        }
    }

    /// How many sections there are.
    pub fn len(&self) -> usize
        ensures { result ≡ length self.now }
    {
        self.count
    }

    /// A section was sent on its stream. If an allocation fails, nothing changes.
    pub fn add(&mut self, section: TrackedSection) -> Result<(), AllocError>
        ensures ok { OnOk result (self.new ≡ put_last (λ t. t.stream) section self.old) }
        ensures few { OnOk result (length self.new < 2 ^ 64) }
        ensures err { OnErr result (self.new ≡ self.old) }
    {
        let Some(count) = self.count.checked_add(1) else {
            return Err(AllocError);
        };
        add(&mut self.places, &mut self.further, count, section)?;
        self.count = count;
        Ok(())
    }

    /// Whether there are sections of a stream.
    pub fn has(&self, stream: u64) -> bool
        ensures { result ≡ list_any (is_of stream) self.now }
    {
        if self.places.has(stream) {
            return true;
        }
        self.further.has(stream)
    }

    /// Takes the oldest section of a stream away, and answers what it names.
    pub fn take_oldest(&mut self, stream: u64) -> Option<NamedEntries>
        ensures { IsOldestTaken stream self.old self.new result }
    {
        let named = take_oldest(&mut self.places, &mut self.further, stream)?;
        self.count -= 1;
        give_back(&mut self.places, self.count);
        Some(named)
    }

    /// Takes the newest section of a stream away, and answers what it names.
    pub fn take_newest(&mut self, stream: u64) -> Option<NamedEntries>
        ensures { IsNewestTaken stream self.old self.new result }
    {
        let named = take_newest(&mut self.places, &mut self.further, stream)?;
        self.count -= 1;
        give_back(&mut self.places, self.count);
        Some(named)
    }
}
