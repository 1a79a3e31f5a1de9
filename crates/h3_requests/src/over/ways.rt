//! The ways in which streams are over, those of each precedence apart: so none makes another one's search longer.
ghost use Rattle.std.specs.Prelude.{◌≡◌, ◌≢◌, ◌<◌, ◌≤◌, ◌==◌, ℕ, [], Some, true, false, length, option_copied, IfSome};
ghost use Rattle.h3_connection.specs.declared.event.StreamFault.TheVariants.{Reset};
ghost use Rattle.h3_requests.specs.Over.{group_of, way_at, ways_in, AddsWays, HasWays, IsOver, IsWay};

use super::{Way, way_of};
use crate::stream::RequestStream;
use h3_connection::order::Precedence;
use std::alloc::{AllocError, Global};
use std::collections::BTreeMap;

/// Ways in groups, one for each precedence.
#[derive(Drop)]
pub(crate) struct Ways {
    // those of streams of which no priority was said, and which are not held
    plain: Vec<Way>,
    // those of other streams, by their groups
    others: BTreeMap<u8, Vec<Way>>,
}

/// The group of the streams of a precedence, below 128. It is 0 if no priority was said and they are not held.
pub(crate) fn group_of(precedence: &Precedence) -> u8
    ensures { result ≡ group_of precedence.now }
{
    let urgency = (precedence.priority.urgency() + 5) % 8;
    let incremental = precedence.priority.is_incremental() as u8;
    let held = precedence.is_held as u8;
    urgency * 16 + incremental * 8 + held * 4 + precedence.source.rank()
}

impl Ways {
    /// No way. It takes no memory.
    pub(crate) fn new(alloc: Global) -> Ways
        ensures { (group : ℕ) → ways_in result group ≡ [] }
    {
        Ways {
            plain: Vec::new(alloc),
            others: BTreeMap::new(alloc),
        }
    }

    /// What memory is taken from.
    pub(crate) fn allocator(&self) -> Global {
        *self.plain.allocator()
    }

    /// Takes memory for two ways more, so that a stream of which no priority was said is mostly put in without.
    pub(crate) fn reserve(&mut self) -> Result<(), AllocError>
        ensures { ways_in self.new ≡ ways_in self.old }
    {
        self.plain.reserve(2)
    }

    /// A way of a group, if it is there. (A call of its own: most streams that are looked up are not over.)
    #[inline(never)]
    pub(crate) fn get(&self, group: u8, way: u8) -> Option<&Way>
        ensures { option_copied result ≡ way_at (ways_in self.now group) way }
    {
        if group == 0 {
            return way_in(&self.plain, way);
        }
        match self.others.get(&group) {
            Some(ways) => way_in(ways, way),
            None => None,
        }
    }

    /// The way of a group in which a stream is over, each with a code of its own or not. It is 0 if there are too many, or if an allocation
    /// fails for one more.
    pub(crate) fn way_of(
        &mut self,
        group: u8,
        stream: &RequestStream,
        has_code: bool,
        most: usize,
    ) -> u8
        requires over { IsOver stream.now }
        requires ways { (group way : ℕ) → IfSome (way_at (ways_in self.old group) way) IsWay }
        requires code { has_code ≡ true → stream.now.incoming.fault ≡ Some (Reset 0) }
        requires most { most ≤ 255 }
        ensures is { 0 < result → way_at (ways_in self.new group) result ≡ Some (record { stream = stream.now; has_code = has_code }) }
        ensures known { result ≤ length (ways_in self.new group) }
        ensures others { HasWays (ways_in self.old group) (ways_in self.new group) }
        ensures adds { AddsWays (ways_in self.old group) (ways_in self.new group) }
        ensures rest { (other : ℕ) → other ≢ group → ways_in self.new other ≡ ways_in self.old other }
    {
        if group == 0 {
            return way_of(&mut self.plain, stream, has_code, most);
        }
        self.other_way_of(group, stream, has_code, most)
    }

    // The same of streams of which a priority was said, or that are held.
    #[inline(never)]
    fn other_way_of(&mut self, group: u8, stream: &RequestStream, has_code: bool, most: usize) -> u8
        requires group { (group == 0) ≡ false }
        requires over { IsOver stream.now }
        requires ways { (group way : ℕ) → IfSome (way_at (ways_in self.old group) way) IsWay }
        requires code { has_code ≡ true → stream.now.incoming.fault ≡ Some (Reset 0) }
        requires most { most ≤ 255 }
        ensures is { 0 < result → way_at (ways_in self.new group) result ≡ Some (record { stream = stream.now; has_code = has_code }) }
        ensures known { result ≤ length (ways_in self.new group) }
        ensures others { HasWays (ways_in self.old group) (ways_in self.new group) }
        ensures adds { AddsWays (ways_in self.old group) (ways_in self.new group) }
        ensures rest { (other : ℕ) → other ≢ group → ways_in self.new other ≡ ways_in self.old other }
    {
        let Some(ways) = self.others.get_mut(&group) else {
            return self.add_group(group, stream, has_code, most);
        };
        way_of(ways, stream, has_code, most)
    }

    // The first way of a group.
    fn add_group(&mut self, group: u8, stream: &RequestStream, has_code: bool, most: usize) -> u8
        requires group { (group == 0) ≡ false }
        requires absent { ways_in self.old group ≡ [] }
        requires over { IsOver stream.now }
        requires code { has_code ≡ true → stream.now.incoming.fault ≡ Some (Reset 0) }
        requires most { most ≤ 255 }
        ensures is { 0 < result → way_at (ways_in self.new group) result ≡ Some (record { stream = stream.now; has_code = has_code }) }
        ensures known { result ≤ length (ways_in self.new group) }
        ensures others { HasWays (ways_in self.old group) (ways_in self.new group) }
        ensures adds { AddsWays (ways_in self.old group) (ways_in self.new group) }
        ensures rest { (other : ℕ) → other ≢ group → ways_in self.new other ≡ ways_in self.old other }
    {
        let mut ways = Vec::new(self.allocator());
        let way = way_of(&mut ways, stream, has_code, most);
        let Ok(_) = self.others.insert(group, ways) else {
            return 0;
        };
        way
    }
}

// A way by its number, if it is there.
fn way_in(ways: &[Way], way: u8) -> Option<&Way>
    ensures { option_copied result ≡ way_at ways.now way }
{
    if way == 0 {
        return None;
    }
    ways.get(way as usize - 1)
}
