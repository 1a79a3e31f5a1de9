//! The streams of which a cancellation was read (RFC 9204, section 4.4.2): all of them, or at most so many.
ghost use Rattle.std.specs.Prelude.{◌≡◌, false, nat_lt, IsSome, OnErr, OnOk};
ghost use Rattle.h3_table.specs.Cancellations.{none_canceled, with_canceled, without_least, is_kept};

use crate::stream_set::StreamSet;
use std::alloc::{AllocError, Global};
use std::collections::BTreeSet;
use std::marker::Model;

/// Streams of which a cancellation was read. If at most so many are kept, the least is dropped for a further one. From then on each stream
/// up to it counts as canceled unless a section of it is tracked.
#[derive(Drop)]
pub struct CanceledStreams {
    // if all are kept
    all: StreamSet,
    // if at most so many are
    last: BTreeSet<u64>,
    most: Option<usize>,
    // above each stream that was dropped
    below: u128,
}

impl Model for CanceledStreams {
    ghost use Rattle.h3_table.specs.Cancellations.{Cancellations};
    ghost use Rattle.h3_table.specs.CancellationsInside.{cancellations_inside};

    ghost Value = { Cancellations };

    ghost view = { cancellations_inside };
}

impl CanceledStreams {
    /// No stream. At most so many are to be kept, or all. It takes no memory.
    pub fn new(alloc: Global, most: Option<usize>) -> CanceledStreams
        ensures { result ≡ none_canceled most }
    {
        CanceledStreams {
            all: StreamSet::new(alloc),
            last: BTreeSet::new(alloc),
            most,
            below: 0,
        }
    }

    /// Whether the stream is kept.
    pub fn is_kept(&self, stream: u64) -> bool
        ensures { result ≡ is_kept self.now stream }
    {
        match self.most {
            Some(_most) => self.last.contains(&stream),
            None => self.all.contains(stream),
        }
    }

    /// Whether the stream is below the number that is above each stream that was dropped.
    pub fn is_below(&self, stream: u64) -> bool
        ensures { result ≡ nat_lt stream self.now.below }
    {
        u128::from(stream) < self.below
    }

    /// Drops the least stream, when at most so many are kept.
    fn let_least_go(&mut self)
        requires { IsSome self.old.most }
        ensures { self.new ≡ without_least self.old self.old.kept }
    {
        if let Some(least) = self.last.pop_first() {
            self.below = self.below.max(u128::from(least) + 1);
        }
    }

    /// A cancellation of the stream was read. If an allocation fails, nothing changes. No memory is needed for a stream that is kept or is
    /// below the number.
    pub fn insert(&mut self, stream: u64) -> Result<(), AllocError>
        ensures ok { OnOk result (self.new ≡ with_canceled self.old stream) }
        ensures err { OnErr result ((self.new ≡ self.old) × (is_kept self.old stream ≡ false) × (nat_lt stream self.old.below ≡ false)) }
    {
        if self.is_below(stream) {
            return Ok(());
        }
        let Some(most) = self.most else {
            let Ok(()) = self.all.insert(stream) else {
                return Err(AllocError);
            };
            return Ok(());
        };
        let Ok(_) = self.last.insert(stream) else {
            return Err(AllocError);
        };
        if self.last.len() > most {
            self.let_least_go();
        }
        Ok(())
    }
}
