//! Sections that are sent and neither acknowledged nor canceled, of which there often is one alone.
ghost use Rattle.std.specs.Prelude.{◌≡◌, ◌<◌, ◌^◌, [], length, OnErr, OnOk};
ghost use Rattle.std.specs.List.{list_any};
ghost use Rattle.h3_table.specs.Tracking.{is_of};
ghost use Rattle.h3_table.specs.InOrder.{put_last};
ghost use Rattle.h3_table.specs.Sections.{IsOldestTaken, IsNewestTaken};

use crate::sections::Sections;
use crate::tracking::{NamedEntries, TrackedSection};
use std::alloc::{AllocError, Global};
use std::marker::Model;

/// The sections in the order of their streams, and those of one stream in the order of sending. One that is alone has a place of
/// its own, and takes no memory.
#[derive(Drop)]
pub struct TrackedSections {
    only: Option<TrackedSection>,
    // all sections, if no one stands alone
    others: Sections,
}

impl Model for TrackedSections {
    ghost use Rattle.std.specs.Prelude.{List};
    ghost use Rattle.h3_table.specs.declared.tracking.TrackedSection.{TrackedSection};
    ghost use Rattle.h3_table.specs.Alone.{tracked_sections_inside, IsAlone};

    ghost Value = { List TrackedSection };

    ghost view = { tracked_sections_inside };

    ghost invariant = { IsAlone };
}

impl TrackedSections {
    /// No section. It takes no memory.
    pub fn new(alloc: Global) -> TrackedSections
        ensures { result ≡ [] }
    {
        TrackedSections {
            only: None,
            others: Sections::new(alloc),
        }
    }

    /// A section was sent on its stream. If an allocation fails, nothing changes.
    pub fn add(&mut self, section: TrackedSection) -> Result<(), AllocError>
        ensures ok { OnOk result (self.new ≡ put_last (λ t. t.stream) section self.old) }
        ensures few { OnOk result (length self.new < 2 ^ 64) }
        ensures err { OnErr result (self.new ≡ self.old) }
    {
        if let Some(first) = self.only {
            self.others.add(first)?;
            self.only = None;
            return self.others.add(section);
        }
        if self.others.len() == 0 {
            self.only = Some(section);
            return Ok(());
        }
        self.others.add(section)
    }

    /// Whether there are sections of a stream.
    pub fn has(&self, stream: u64) -> bool
        ensures { result ≡ list_any (is_of stream) self.now }
    {
        let Some(only) = self.only else {
            return self.others.has(stream);
        };
        only.stream == stream
    }

    /// Takes the oldest section of a stream away, and answers what it names.
    pub fn take_oldest(&mut self, stream: u64) -> Option<NamedEntries>
        ensures { IsOldestTaken stream self.old self.new result }
    {
        let Some(only) = self.only else {
            return self.others.take_oldest(stream);
        };
        if only.stream != stream {
            return None;
        }
        self.only = None;
        Some(only.named())
    }

    /// Takes the newest section of a stream away, and answers what it names.
    pub fn take_newest(&mut self, stream: u64) -> Option<NamedEntries>
        ensures { IsNewestTaken stream self.old self.new result }
    {
        let Some(only) = self.only else {
            return self.others.take_newest(stream);
        };
        if only.stream != stream {
            return None;
        }
        self.only = None;
        Some(only.named())
    }
}
