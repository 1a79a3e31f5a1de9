//! Sections that are sent and neither acknowledged nor canceled, each at the place of its stream: it is found with no search.
ghost use Rattle.std.specs.Prelude.{◌≡◌, ◌<◌, ◌≤◌, ◌+◌, ◌*◌, [], true, false, max, IfSome, IfOk, OnErr};
ghost use Rattle.std.specs.List.{list_any};
ghost use Rattle.h3_table.specs.Tracking.{is_of};
ghost use Rattle.h3_table.specs.Places.{place_of};
ghost use Rattle.h3_table.specs.ByStream.{of_stream, HaveSame, HasOneMore, IsFirstTaken};

use crate::tracking::{NamedEntries, TrackedSection};
use std::alloc::{AllocError, Global};
use std::marker::Model;

/// How many places there are at first.
const FIRST_PLACES: usize = 16;

/// More places than these are given back when no section is left.
const KEPT_PLACES: usize = 1024;

/// Streams of requests are four apart (RFC 9000, section 2.1).
const STREAM_STEP: u64 = 4;

/// A section in twelve bytes, so that five of them share a line of memory. Entries are numbered from 1, so one that names entry 0 is no
/// section.
#[derive(Clone, Copy)]
struct PlacedSection {
    // the stream's number among request streams
    index: u32,
    oldest: u32,
    newest: u32,
}

impl Model for PlacedSection {
    ghost use Rattle.h3_table.specs.declared.tracking.TrackedSection.{TrackedSection};
    ghost use Rattle.h3_table.specs.PlacedSectionInside.{placed_section_inside, placed_section_of};
    ghost use Rattle.h3_table.specs.PlacedSectionLaws.{placed_section_is_back};

    ghost Value = { TrackedSection };

    ghost view = { placed_section_inside };

    ghost inverse = { placed_section_of };

    ghost inverse_ok = { λ s h. placed_section_is_back s };
}

/// What stands at a place that has no section.
const NOTHING: PlacedSection = PlacedSection {
    index: 0,
    oldest: 0,
    newest: 0,
};

impl PlacedSection {
    /// The section, if it fits: its stream is of the kind of requests, and no number needs more than 32 bits.
    fn of(section: TrackedSection) -> Option<PlacedSection>
        ensures { IfSome result (λ slot. slot ≡ section) }
    {
        if section.stream % STREAM_STEP != 0 {
            return None;
        }
        let index = u32::try_from(section.stream / STREAM_STEP).ok()?;
        let oldest = u32::try_from(section.oldest).ok()?;
        let newest = u32::try_from(section.newest).ok()?;
        Some(PlacedSection {
            index,
            oldest,
            newest,
        })
    }

    fn stream(self) -> u64
        ensures { result ≡ self.stream }
    {
        u64::from(self.index) * STREAM_STEP
    }

    fn oldest(self) -> usize
        ensures { result ≡ self.oldest }
    {
        self.oldest as usize
    }

    fn named(self) -> NamedEntries
        ensures { result ≡ record { oldest = self.oldest; newest = self.newest } }
    {
        NamedEntries {
            oldest: self.oldest as usize,
            newest: self.newest as usize,
        }
    }
}

/// At most one section of each stream, and of the streams with one place one at most. Streams near one another have places of their own. If
/// a place is not free and there are less than two for each section, the places are made twice as many.
#[derive(Drop)]
pub(crate) struct Places {
    alloc: Global,
    // one that names no entry, or is not at the place of its stream, is no section
    slots: Vec<PlacedSection>,
}

impl Model for Places {
    ghost use Rattle.std.specs.Prelude.{length};
    ghost use Rattle.h3_table.specs.PlaceRow.{PlaceRow};
    ghost use Rattle.h3_table.specs.Places.{placed};

    ghost Value = { PlaceRow };

    ghost view = { λ p. record { sections = placed p.slots.items; places = length p.slots.items } };
}

/// The place of a stream, of so many.
fn place_of(count: usize, stream: u64) -> usize
    requires { 0 < count }
    ensures value { result ≡ place_of count stream }
    ensures below { result < count }
{
    (stream / STREAM_STEP) as usize % count
}

impl Places {
    /// No section. It takes no memory.
    pub(crate) fn new(alloc: Global) -> Places
        ensures { result ≡ record { sections = []; places = 0 } }
    {
        Places {
            alloc,
            slots: Vec::new(alloc),
        }
    }

    /// Makes the places twice as many, if so many sections would take more than half of them. What then stands at two places counts at one
    /// of them.
    fn make_room(&mut self, count: usize) -> Result<(), AllocError>
        ensures same { HaveSame self.old.sections self.new.sections }
        ensures few { self.new.places ≤ max self.old.places (4 * count + 16) }
    {
        let len = self.slots.len();
        if count <= len / 2 {
            return Ok(());
        }
        if len == 0 {
            return self.slots.resize(FIRST_PLACES, NOTHING);
        }
        self.slots.extend_from_within(..)
    }

    /// Gives the memory of many places back, when there is no section.
    pub(crate) fn give_back(&mut self)
        requires { self.old.sections ≡ [] }
        ensures none { self.new.sections ≡ [] }
        ensures few { self.new.places ≤ 1024 }
        ensures fewer { self.new.places ≤ self.old.places }
    {
        if self.slots.len() > KEPT_PLACES {
            self.slots = Vec::new(self.alloc);
        }
    }

    /// Puts a section at the place of its stream, and answers whether that was free.
    fn put_at_once(&mut self, section: PlacedSection) -> bool
        ensures put { result ≡ true → HasOneMore section self.old.sections self.new.sections }
        ensures taken { result ≡ false → self.new ≡ self.old }
        ensures places { self.new.places ≡ self.old.places }
    {
        let len = self.slots.len();
        if len == 0 || section.oldest() == 0 {
            return false;
        }
        let place = place_of(len, section.stream());
        let there = self.slots[place];
        if there.oldest() != 0 && place_of(len, there.stream()) == place {
            return false;
        }
        self.slots[place] = section;
        true
    }

    /// Puts a section at the place of its stream, and answers whether that was free or could be made so. There are so many sections then.
    pub(crate) fn put(&mut self, count: usize, section: TrackedSection) -> Result<bool, AllocError>
        ensures put { IfOk result (λ done. done ≡ true → HasOneMore section self.old.sections self.new.sections) }
        ensures taken { IfOk result (λ done. done ≡ false → HaveSame self.old.sections self.new.sections) }
        ensures err { OnErr result (HaveSame self.old.sections self.new.sections) }
        ensures few { self.new.places ≤ max self.old.places (4 * count + 16) }
    {
        let Some(slot) = PlacedSection::of(section) else {
            return Ok(false);
        };
        if self.put_at_once(slot) {
            return Ok(true);
        }
        self.make_room(count)?;
        Ok(self.put_at_once(slot))
    }

    /// Takes the section of a stream away, and answers what it names.
    pub(crate) fn take(&mut self, stream: u64) -> Option<NamedEntries>
        ensures taken { IsFirstTaken stream self.old.sections self.new.sections result }
        ensures alone { IfSome result (λ n. of_stream stream self.new.sections ≡ []) }
        ensures places { self.new.places ≡ self.old.places }
    {
        let len = self.slots.len();
        if len == 0 {
            return None;
        }
        let place = place_of(len, stream);
        let there = self.slots[place];
        if there.stream() != stream || there.oldest() == 0 {
            return None;
        }
        self.slots[place] = NOTHING;
        Some(there.named())
    }
    /// Whether there is a section of a stream.
    pub(crate) fn has(&self, stream: u64) -> bool
        ensures { result ≡ list_any (is_of stream) self.now.sections }
    {
        let len = self.slots.len();
        if len == 0 {
            return false;
        }
        let place = place_of(len, stream);
        let there = self.slots[place];
        if there.stream() != stream || there.oldest() == 0 {
            return false;
        }
        true
    }
}
