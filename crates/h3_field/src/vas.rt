//! Numbers of the dynamic table's entries (RFC 9204, sections 3.2.4 to 3.2.6). The first insertion is number 1.
ghost use Rattle.std.specs.Prelude.{◌≡◌, ◌↔◌, ◌+◌, ◌-◌, ◌^◌, ◌<◌, ◌≤◌, IsTrue, MatchResult, Some};
ghost use Rattle.h3_field.specs.ErrorTexts.{address_text};
ghost use Rattle.h3_field.specs.Addresses.{Names, NamesNone};
ghost use Rattle.h3_field.specs.declared.vas.Error.TheVariants as error;

use std::fmt;
use std::marker::Model;

/// An index of an entry by its distance.
pub type RelativeIndex = usize;

/// The number of an entry.
pub type AbsoluteIndex = usize;

/// Why an index names no entry.
#[derive(Copy, Clone, PartialEq, Eq, Debug)]
pub enum Error {
    RelativeIndex(usize),
    PostbaseIndex(usize),
    Index(usize),
}

impl Error {
    fn text(&self) -> &'static str
        ensures { result.now ≡ address_text self.now }
    {
        match self {
            Error::RelativeIndex(_) => "RelativeIndex",
            Error::PostbaseIndex(_) => "PostbaseIndex",
            Error::Index(_) => "Index",
        }
    }
}

impl fmt::Display for Error {
    ghost output = { λ e. Some (address_text e) };

    fn fmt<W: fmt::Write>(&self, f: &mut fmt::Formatter<W>) -> fmt::Result {
        f.write_str(self.text())
    }
}

impl std::error::Error for Error {}

/// How many entries were added and dropped. A contract sees both numbers.
#[derive(Default, Drop)]
pub struct VirtualAddressSpace {
    added: usize,
    gone: usize,
}

impl Model for VirtualAddressSpace {
    ghost use Rattle.std.specs.Prelude.{◌≤◌, ◌^◌};
    ghost use Rattle.h3_field.specs.Addresses.{Addresses};

    ghost Value = { Addresses };

    ghost view = { λ a. record { inserted = a.added; dropped = a.gone } };

    ghost invariant = { λ a. (a.gone ≤ a.added) × (a.added ≤ 2 ^ 62) };
}

impl VirtualAddressSpace {
    /// The numbers before any insertion.
    pub fn new() -> VirtualAddressSpace
        ensures { result ≡ record { inserted = 0; dropped = 0 } }
    {
        VirtualAddressSpace { added: 0, gone: 0 }
    }

    /// Adds an entry: its number.
    pub fn add(&mut self) -> AbsoluteIndex
        requires { self.old.inserted < 2 ^ 62 }
        ensures number { result ≡ self.old.inserted + 1 }
        ensures after { self.new ≡ record { inserted = self.old.inserted + 1; dropped = self.old.dropped } }
    {
        self.added += 1;
        self.added
    }

    /// Drops the oldest entry.
    pub fn drop(&mut self)
        requires { self.old.dropped < self.old.inserted }
        ensures { self.new ≡ record { inserted = self.old.inserted; dropped = self.old.dropped + 1 } }
    {
        self.gone += 1;
    }

    /// The place, from the oldest present entry, of the one with that distance from the newest.
    pub fn relative(&self, index: RelativeIndex) -> Result<usize, Error>
        ensures { MatchResult result (λ place. Names self.now (self.now.inserted - index) place × (index ≤ self.now.inserted))
            (λ e. (e ≡ error.RelativeIndex index) × (self.now.inserted ≤ self.now.dropped + index)) }
    {
        let present = self.added - self.gone;
        if index >= present {
            return Err(Error::RelativeIndex(index));
        }
        Ok(present - index - 1)
    }

    /// Whether the entry of that number was dropped.
    pub fn evicted(&self, index: AbsoluteIndex) -> bool
        ensures { IsTrue result ↔ (0 < index) × (index ≤ self.now.dropped) }
    {
        index > 0 && index <= self.gone
    }

    /// The place of the entry with that distance below the base.
    pub fn relative_base(&self, base: usize, index: RelativeIndex) -> Result<usize, Error>
        ensures { MatchResult result (λ place. (index ≤ base) × Names self.now (base - index) place)
            (λ e. (e ≡ error.RelativeIndex index) × (index ≤ base → NamesNone self.now (base - index))) }
    {
        if index > base {
            return Err(Error::RelativeIndex(index));
        }
        let number = base - index;
        if number <= self.gone || number > self.added {
            return Err(Error::RelativeIndex(index));
        }
        Ok(number - self.gone - 1)
    }

    /// The place of the entry with that distance from the base on.
    pub fn post_base(&self, base: usize, index: RelativeIndex) -> Result<usize, Error>
        ensures { MatchResult result (λ place. Names self.now (base + index + 1) place)
            (λ e. (e ≡ error.PostbaseIndex index) × NamesNone self.now (base + index + 1)) }
    {
        if base >= self.added || index >= self.added - base || base + index < self.gone {
            return Err(Error::PostbaseIndex(index));
        }
        Ok(base + index - self.gone)
    }

    /// The number of the entry at that place.
    pub fn index(&self, place: usize) -> Result<AbsoluteIndex, Error>
        ensures { MatchResult result (λ number. Names self.now number place)
            (λ e. (e ≡ error.Index place) × (self.now.inserted ≤ self.now.dropped + place)) }
    {
        if place >= self.added - self.gone {
            return Err(Error::Index(place));
        }
        Ok(place + self.gone + 1)
    }

    /// How many entries are present.
    pub fn largest_ref(&self) -> usize
        ensures { result ≡ self.now.inserted - self.now.dropped }
    {
        self.added - self.gone
    }

    /// How many entries were added.
    pub fn total_inserted(&self) -> usize
        ensures { result ≡ self.now.inserted }
    {
        self.added
    }
}
