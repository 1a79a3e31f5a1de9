//! Sections that are sent and neither acknowledged nor canceled (RFC 9204, sections 2.1.1 and 2.1.2), and how many of
//! them hold each entry.
ghost use Rattle.std.specs.Prelude.{◌≡◌, ◌+◌, ◌-◌, ◌^◌, ◌<◌, ◌≤◌, [], length, true, drop, slice_set, slice_index_or, is_some, IfSome};
ghost use Rattle.std.specs.Prelude.{OnErr, OnOk};
ghost use Rattle.std.specs.List.{list_any, AllByRecursion};
ghost use Rattle.h3_table.specs.InOrder.{put_last};
ghost use Rattle.h3_table.specs.Tracking.{TrackingState, is_of, reference_count, is_free_to, newest_named, without_oldest_of};
ghost use Rattle.h3_table.specs.Tracking.{without_newest_of, without_all_of};

use crate::alone::TrackedSections;
use crate::index::reserve_number;
use std::alloc::{AllocError, Global};
use std::collections::VecDeque;
use std::marker::Model;

/// The oldest and the newest of the entries that a section names. The number of the newest is the section's required insert count.
#[derive(Clone, Copy, Debug)]
pub struct NamedEntries {
    pub oldest: usize,
    pub newest: usize,
}

/// A section that names entries, with the oldest and the newest of them.
#[derive(Clone, Copy, Debug)]
pub struct TrackedSection {
    pub stream: u64,
    pub oldest: usize,
    pub newest: usize,
}

impl TrackedSection {
    /// What it names.
    pub(crate) fn named(self) -> NamedEntries
        ensures { result ≡ record { oldest = self.oldest; newest = self.newest } }
    {
        NamedEntries {
            oldest: self.oldest,
            newest: self.newest,
        }
    }
}

/// The tracked sections in the order of their streams, and those of one stream in the order of sending, over the entries that
/// are there.
#[derive(Drop)]
pub struct Tracking {
    // of each entry, how many sections have it as their oldest
    references: VecDeque<usize>,
    evicted: usize,
    sections: TrackedSections,
}

impl Model for Tracking {
    ghost use Rattle.h3_table.specs.Tracking.{TrackingState};

    ghost Value = { TrackingState };

    ghost use Rattle.h3_table.specs.TrackingInside.{tracking_state_inside, IsTracking};

    ghost view = { tracking_state_inside };

    ghost invariant = { IsTracking };
}

/// Drops so many items from the front.
pub(crate) fn drop_front(items: &mut VecDeque<usize>, count: usize)
    ensures { items.new.items ≡ drop count items.old.items }
{
    for _done in 0..count {
        items.pop_front();
    }
}

/// A number is one less.
fn take_one(references: &mut VecDeque<usize>, place: usize)
    requires inside { place < length references.old.items }
    requires above { 0 < slice_index_or references.old.items place 0 }
    ensures { references.new.items ≡ slice_set references.old.items place (slice_index_or references.old.items place 0 - 1) }
{
    references[place] -= 1;
}

impl Tracking {
    /// Tracks no sections, over a table that never had an entry. It takes no memory.
    pub fn new(alloc: Global) -> Tracking
        ensures { result ≡ record { evicted = 0; made = 0; sections = [] } }
    {
        Tracking {
            references: VecDeque::new(alloc),
            evicted: 0,
            sections: TrackedSections::new(alloc),
        }
    }

    /// The oldest entry of each section has a number from 1. It does nothing: a proof that needs the fact calls it.
    pub fn names_entries(&self)
        ensures { AllByRecursion (λ t. 0 < t.oldest) self.now.sections }
    {
        self.references.len();
    }

    /// Whether no section names an entry up to that number.
    pub fn is_free_to(&self, number: usize) -> bool
        requires from { self.now.evicted ≤ number }
        requires to { number ≤ self.now.made }
        ensures { result ≡ is_free_to number self.now.sections }
    {
        let count = number - self.evicted;
        let mut place = 0;
        while place < count {
            if self.references[place] != 0 {
                return false;
            }
            place += 1;
        }
        true
    }

    /// One entry more is there, which no section names.
    pub fn add_entry(&mut self) -> Result<(), AllocError>
        requires { self.old.made + 1 < 2 ^ 62 }
        ensures ok { OnOk result (self.new ≡ record self.old { made = self.old.made + 1 }) }
        ensures unnamed { OnOk result (reference_count (self.old.made + 1) self.old.sections ≡ 0) }
        ensures err { OnErr result (self.new ≡ self.old) }
    {
        reserve_number(&mut self.references)?;
        self.references.push_back_reserved(0);
        Ok(())
    }

    /// The newest entry, which no section names, is not there after all.
    pub fn remove_entry(&mut self)
        requires some { self.old.evicted < self.old.made }
        requires unnamed { reference_count self.old.made self.old.sections ≡ 0 }
        ensures { self.new ≡ record self.old { made = self.old.made - 1 } }
    {
        self.references.pop_back();
    }

    /// The entries up to that number, which no section names, are no longer there.
    pub fn drop_to(&mut self, number: usize)
        requires from { self.old.evicted ≤ number }
        requires to { number ≤ self.old.made }
        requires free { is_free_to number self.old.sections ≡ true }
        ensures { self.new ≡ record self.old { evicted = number } }
    {
        drop_front(&mut self.references, number - self.evicted);
        self.evicted = number;
    }

    /// Whether sections of a stream are tracked.
    pub fn has(&self, stream: u64) -> bool
        ensures { result ≡ list_any (is_of stream) self.now.sections }
    {
        self.sections.has(stream)
    }

    /// Tracks a section whose oldest entry is there.
    pub fn track(&mut self, section: TrackedSection) -> Result<(), AllocError>
        requires from { self.old.evicted < section.oldest }
        requires to { section.oldest ≤ self.old.made }
        ensures ok { OnOk result (self.new ≡ record self.old { sections = put_last (λ t. t.stream) section self.old.sections }) }
        ensures err { OnErr result (self.new ≡ self.old) }
    {
        self.sections.add(section)?;
        let place = section.oldest - self.evicted - 1;
        self.references[place] += 1;
        Ok(())
    }

    /// Releases the oldest section of a stream, and answers the newest entry that it names.
    pub fn release(&mut self, stream: u64) -> Option<usize>
        ensures found { is_some result ≡ list_any (is_of stream) self.old.sections }
        ensures newest { IfSome result (λ n. n ≡ newest_named stream self.old.sections) }
        ensures after { self.new ≡ record self.old { sections = without_oldest_of stream self.old.sections } }
    {
        let named = self.sections.take_oldest(stream)?;
        take_one(&mut self.references, named.oldest - self.evicted - 1);
        Some(named.newest)
    }

    /// Releases all sections of a stream.
    pub fn release_all(&mut self, stream: u64)
        ensures { self.new ≡ record self.old { sections = without_all_of stream self.old.sections } }
    {
        while self.release(stream).is_some() {}
    }

    /// Releases the newest section of a stream, if there is one.
    pub fn release_newest(&mut self, stream: u64)
        ensures { self.new ≡ record self.old { sections = without_newest_of stream self.old.sections } }
    {
        let Some(named) = self.sections.take_newest(stream) else {
            return;
        };
        take_one(&mut self.references, named.oldest - self.evicted - 1);
    }
}
