//! How many sections wait for insertions that are not known to be received (RFC 9204, section 2.1.2).
ghost use Rattle.std.specs.Prelude.{◌≡◌, ℕ, ◌-◌, ◌<◌, ◌^◌, ◌==◌, length, drop, sum, [], OnErr, OnOk};
ghost use Rattle.h3_table.specs.Blocking.{BlockingState, counts_from, with_count, without_count, with_increment};

use std::alloc::{AllocError, Global};
use std::collections::VecDeque;
use std::marker::Model;

/// What is known to be received, and the required insert counts above that, in increasing order.
#[derive(Drop)]
pub struct BlockingCounts {
    known_received: usize,
    // of each insertion after those, how many sections have it as their required insert count
    waiting: VecDeque<usize>,
    // how many sections that is in all
    total: usize,
}

impl Model for BlockingCounts {
    ghost use Rattle.h3_table.specs.Blocking.{BlockingState, blocking_state_inside, IsBlocking};

    ghost Value = { BlockingState };

    ghost view = { blocking_state_inside };

    ghost invariant = { IsBlocking };
}

/// Drops so many numbers from the front, and answers the sum of those that are left.
fn drop_counts(waiting: &mut VecDeque<usize>, count: usize, total: usize) -> usize
    requires { total ≡ sum waiting.old.items }
    ensures rest { waiting.new.items ≡ drop count waiting.old.items }
    ensures total { result ≡ sum waiting.new.items }
{
    let mut left = total;
    for _done in 0..count {
        let Some(sections) = waiting.pop_front() else {
            return left;
        };
        left -= sections;
    }
    left
}

/// There is a number at the place: those after the last are 0.
fn reach(waiting: &mut VecDeque<usize>, place: usize) -> Result<(), AllocError>
    requires { place < 2 ^ 64 - 1 }
    ensures ok { OnOk result (place < length waiting.new.items) }
    ensures counts { (number : ℕ) → counts_from number waiting.new.items ≡ counts_from number waiting.old.items }
    ensures total { sum waiting.new.items ≡ sum waiting.old.items }
{
    while waiting.len() <= place {
        waiting.push_back(0)?;
    }
    Ok(())
}

impl BlockingCounts {
    /// No section waits, and no insertion is known to be received.
    pub fn new(alloc: Global) -> BlockingCounts
        ensures { result ≡ record { known_received = 0; counts = [] } }
    {
        BlockingCounts {
            known_received: 0,
            waiting: VecDeque::new(alloc),
            total: 0,
        }
    }

    /// How many insertions are known to be received.
    pub fn known_received(&self) -> usize
        ensures { result ≡ self.now.known_received }
    {
        self.known_received
    }

    /// How many sections wait.
    pub fn len(&self) -> usize
        ensures { result ≡ length self.now.counts }
    {
        self.total
    }

    // RFC 9204 2.1.4: known received count
    /// The sum of increments grows, and stops at the greatest number. Sections whose insertions are known to be received
    /// wait no more; only these are gone over.
    pub fn raise(&mut self, increment: usize)
        ensures after { self.new ≡ with_increment self.old increment }
        ensures small { self.old.known_received < 2 ^ 64 }
    {
        let known = self.known_received.saturating_add(increment);
        self.total = drop_counts(&mut self.waiting, known - self.known_received, self.total);
        self.known_received = known;
    }

    /// A section of that required insert count was written. If an allocation fails, nothing changes.
    pub fn add(&mut self, count: usize) -> Result<(), AllocError>
        ensures ok { OnOk result (self.new ≡ with_count self.old count) }
        ensures undone { OnOk result (without_count self.new count ≡ self.old) }
        ensures err { OnErr result (self.new ≡ self.old) }
    {
        if count <= self.known_received {
            return Ok(());
        }
        let Some(total) = self.total.checked_add(1) else {
            return Err(AllocError);
        };
        let place = count - self.known_received - 1;
        reach(&mut self.waiting, place)?;
        self.waiting[place] += 1;
        self.total = total;
        Ok(())
    }

    /// Takes back the newest section of that required insert count, if one waits.
    pub fn remove(&mut self, count: usize)
        ensures { self.new ≡ without_count self.old count }
    {
        if count <= self.known_received {
            return;
        }
        let place = count - self.known_received - 1;
        if place >= self.waiting.len() {
            return;
        }
        if self.waiting[place] == 0 {
            return;
        }
        self.waiting[place] -= 1;
        self.total -= 1;
    }
}
