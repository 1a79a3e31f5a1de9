//! The counts that streams wait for.
ghost use Rattle.std.specs.Prelude.{◌≡◌, ◌≢◌, ◌+◌, ◌<◌, ◌≤◌, ◌-◌, ◌^◌, ℕ, nat_lt, OnOk, OnErr};
ghost use Rattle.h3_blocked.specs.Counting.{above, number_at, number_in, one_if, sum_above, HasCount, HasRoom, IsNextCount, IsOneNumber};
ghost use Rattle.h3_blocked.specs.Counting.{IsSound, Replaces, SameCounts};

use std::alloc::{AllocError, Global};
use std::collections::BTreeMap;

/// So many counts are kept at most. No memory holds as many streams.
const MOST: usize = 1 << 62;

/// The required insert counts that streams wait for, each of them as often as streams wait for it, and no 0.
#[derive(Drop)]
pub struct Blocked {
    // how many streams wait for a count, by that count
    streams: BTreeMap<usize, usize>,
    // how many these are, of all counts
    total: usize,
    // one count more, for which no place was made there yet, or 0
    newest: usize,
    // how many of `streams` wait for more than `passed`
    passed: usize,
    above_passed: usize,
}

impl Blocked {
    /// No count. It takes no memory.
    pub fn new(alloc: Global) -> Blocked
        ensures none { (n : ℕ) → above n result ≡ 0 }
        ensures sound { IsSound result }
    {
        Blocked {
            streams: BTreeMap::new(alloc),
            total: 0,
            newest: 0,
            passed: 0,
            above_passed: 0,
        }
    }

    /// How many of the counts are greater than this one. The counts between it and the last one that was passed are gone over.
    pub fn above(&self, count: usize) -> usize
        requires { IsSound self.now }
        ensures { result ≡ above count self.now }
    {
        let above = self.placed_above(count);
        if self.newest > count {
            return above + 1;
        }
        above
    }

    /// Passes all counts up to this one, so that the number of those above it is known. While the count that is passed grows, each
    /// count is gone over once.
    pub fn pass(&mut self, count: usize)
        requires { IsSound self.old }
        ensures same { SameCounts self.old self.new }
        ensures room { HasRoom self.old → HasRoom self.new }
        ensures sound { IsSound self.new }
    {
        if count == self.passed {
            return;
        }
        self.above_passed = self.placed_above(count);
        self.passed = count;
    }

    /// Makes room for one count. If there is room for one, it takes no memory.
    #[inline(always)]
    pub fn make_room(&mut self) -> Result<(), AllocError>
        requires { IsSound self.old }
        ensures ok { OnOk result (HasRoom self.new) }
        ensures err { OnErr result (0 < self.old.newest) }
        ensures same { SameCounts self.old self.new }
        ensures sound { IsSound self.new }
    {
        if self.newest == 0 {
            return Ok(());
        }
        self.place_newest()
    }

    // The same if there is none.
    #[inline(never)]
    fn place_newest(&mut self) -> Result<(), AllocError>
        requires sound { IsSound self.old }
        requires newest { 0 < self.old.newest }
        ensures ok { OnOk result (HasRoom self.new) }
        ensures err { OnErr result (0 < self.old.newest) }
        ensures same { SameCounts self.old self.new }
        ensures sound { IsSound self.new }
    {
        if self.total >= MOST {
            return Err(AllocError);
        }
        self.place(self.newest)?;
        self.newest = 0;
        Ok(())
    }

    /// Takes the one count out and puts the other one in. A count of 0 stands for none. It takes no memory.
    #[inline(always)]
    pub fn replace(&mut self, before: usize, after: usize)
        requires sound { IsSound self.old }
        requires among { HasCount self.old before }
        requires room { before ≢ after → 0 < after → HasRoom self.old }
        ensures replaced { Replaces self.old self.new before after }
        ensures sound { IsSound self.new }
    {
        if before == after {
            return;
        }
        self.replace_other(before, after);
    }

    // The same of another count.
    #[inline(never)]
    fn replace_other(&mut self, before: usize, after: usize)
        requires sound { IsSound self.old }
        requires among { HasCount self.old before }
        requires room { 0 < after → HasRoom self.old }
        ensures replaced { Replaces self.old self.new before after }
        ensures sound { IsSound self.new }
    {
        if before > 0 {
            self.take_out(before);
        }
        if after > 0 {
            self.newest = after;
        }
    }

    // The newest count is placed among the others. An `Err` changes nothing: an allocation failed.
    fn place(&mut self, count: usize) -> Result<(), AllocError>
        requires sound { IsSound self.old }
        requires few { self.old.total < 2 ^ 62 }
        requires some { 0 < count }
        ensures placed { OnOk result
            ((n : ℕ) → sum_above n (number_at self.new) ≡ sum_above n (number_at self.old) + one_if (nat_lt n count)) }
        ensures err { OnErr result (SameCounts self.old self.new) }
        ensures newest { self.new.newest ≡ self.old.newest }
        ensures sound { IsSound self.new }
    {
        add_one(&mut self.streams, count)?;
        self.total += 1;
        if count > self.passed {
            self.above_passed += 1;
        }
        Ok(())
    }

    // Takes one such count out.
    fn take_out(&mut self, count: usize)
        requires sound { IsSound self.old }
        requires among { (0 < count) × HasCount self.old count }
        ensures replaced { Replaces self.old self.new count 0 }
        ensures room { HasRoom self.old → HasRoom self.new }
        ensures sound { IsSound self.new }
    {
        if self.newest == count {
            self.newest = 0;
            return;
        }
        take_one(&mut self.streams, count);
        self.total -= 1;
        if count > self.passed {
            self.above_passed -= 1;
        }
    }

    // How many streams wait for more than this count, without the newest.
    fn placed_above(&self, count: usize) -> usize
        requires { IsSound self.now }
        ensures { result ≡ sum_above count (number_at self.now) }
    {
        if count == self.passed {
            return self.above_passed;
        }
        if count < self.passed {
            return self.above_passed + self.between(count, self.passed);
        }
        self.above_passed - self.between(self.passed, count)
    }

    // How many streams wait for a count above the one and not above the other.
    fn between(&self, low: usize, high: usize) -> usize
        requires sound { IsSound self.now }
        requires order { low ≤ high }
        ensures { result + sum_above high (number_at self.now) ≡ sum_above low (number_at self.now) }
    {
        let mut sum = 0;
        let mut at = low;
        while at < high {
            match self.next(at) {
                Some((count, number)) if count <= high => {
                    sum += number;
                    at = count;
                }
                _ => at = high,
            }
        }
        sum
    }

    // The first count above this one for which streams wait, and how many do.
    fn next(&self, count: usize) -> Option<(usize, usize)>
        ensures { IsNextCount self.now count result }
    {
        let from = count.checked_add(1)?;
        match self.streams.range(from..).next() {
            Some((count, number)) => Some((*count, *number)),
            None => None,
        }
    }
}

// One stream more waits for this count. An `Err` changes nothing: an allocation failed.
fn add_one(streams: &mut BTreeMap<usize, usize>, count: usize) -> Result<(), AllocError>
    requires { number_in streams.old count < 2 ^ 62 }
    ensures ok { OnOk result (IsOneNumber count (number_in streams.old count + 1) (number_in streams.old) (number_in streams.new)) }
    ensures err { OnErr result ((k : ℕ) → number_in streams.new k ≡ number_in streams.old k) }
{
    if let Some(number) = streams.get_mut(&count) {
        *number += 1;
        return Ok(());
    }
    let Ok(_) = streams.insert(count, 1) else {
        return Err(AllocError);
    };
    Ok(())
}

// One stream less waits for it.
fn take_one(streams: &mut BTreeMap<usize, usize>, count: usize)
    requires { 0 < number_in streams.old count }
    ensures { IsOneNumber count (number_in streams.old count - 1) (number_in streams.old) (number_in streams.new) }
{
    let Some(number) = streams.get_mut(&count) else {
        return;
    };
    if *number > 1 {
        *number -= 1;
        return;
    }
    streams.remove(&count);
}
