//! The request streams under way, found by their ids: one in its place of a row, and in a map those whose place another has.
ghost use Rattle.std.specs.Borrow.{sem};
ghost use Rattle.std.specs.Option.{option_copied_mut};
ghost use Rattle.std.specs.Prelude.{◌≡◌, ◌<◌, ◌^◌, [], None, Some, is_some, option_copied, IfSome, OnErr, OnOk};
ghost use Rattle.h3_blocked.specs.Sums.{TakesOut};
ghost use Rattle.h3_connection.specs.Calls.{fresh_request, Sets};
ghost use Rattle.h3_connection.specs.NextWaiting.{IsLeast};
ghost use Rattle.h3_connection.specs.State.{kept_at};
ghost use Rattle.h3_requests.specs.Done.{is_sought};
ghost use Rattle.h3_requests.specs.Greatest.{IsGreatest};
ghost use Rattle.h3_requests.specs.Unblocked.{is_unblocked};
ghost use Rattle.h3_requests.specs.UnderWayLending.{LendsUnderWay};

use crate::boxed::BoxedStream;
use crate::greatest::greater;
use crate::lesser::lesser;
use crate::spare::Spare;
use crate::stream::RequestStream;
use std::alloc::{AllocError, Global};
use std::marker::Model;

mod others;
mod row;

use others::Others;
use row::Row;

/// The streams under way, no id twice. A contract sees the list of them, and finds one by `kept_at`.
#[derive(Drop)]
pub(crate) struct StreamsUnderWay {
    row: Row,
    // those that found their place taken
    others: Others,
    // the blocks of streams that went
    spare: Spare,
}

impl Model for StreamsUnderWay {
    ghost use Rattle.h3_connection.specs.State.{RequestState};
    ghost use Rattle.h3_connection.specs.StreamSets.{Streams};
    ghost use Rattle.h3_requests.specs.Listed.{streams_of};
    ghost use Rattle.h3_requests.specs.Row.{found_at, AreApart};

    ghost Value = { Streams RequestState };

    ghost view = { λ s. streams_of (found_at s.row s.others.streams.entries) };

    ghost invariant = { λ s. AreApart s.row s.others.streams.entries };
}

impl StreamsUnderWay {
    /// No stream. It takes no memory.
    pub(crate) fn new(alloc: Global) -> StreamsUnderWay
        ensures { result ≡ [] }
    {
        StreamsUnderWay {
            row: Row::new(alloc),
            others: Others::new(alloc),
            spare: Spare::new(alloc),
        }
    }

    /// The stream of this id.
    pub(crate) fn get(&self, id: u64) -> Option<&RequestStream>
        ensures { option_copied result ≡ kept_at self.now id }
    {
        if let Some(stream) = self.row.get(id) {
            return Some(stream);
        }
        self.others.get(id)
    }

    /// The stream of this id, if it stands in the row: it is found with no search.
    pub(crate) fn get_near(&self, id: u64) -> Option<&RequestStream>
        ensures { IfSome result (λ stream. kept_at self.now id ≡ Some stream.now) }
    {
        match self.row.get(id) {
            Some(stream) => Some(stream),
            None => None,
        }
    }

    /// Whether there is a stream of this id.
    pub(crate) fn contains(&self, id: u64) -> bool
        ensures { result ≡ is_some (kept_at self.now id) }
    {
        self.row.has(id) || self.others.has(id)
    }

    /// The greatest id of a stream: of all, or of those alone that are not done. It looks at each stream that is under way.
    pub(crate) fn greatest(&self, undone: bool) -> Option<u64>
        ensures value { IsGreatest (λ id. is_sought undone (kept_at self.now id)) result }
        ensures fits { IfSome result (λ id. id < 2 ^ 64) }
    {
        greater(self.row.greatest(undone), self.others.greatest(undone))
    }

    /// The least id from `from` on of a stream that so many insertions unblock. It looks at each stream that is under way.
    pub(crate) fn next_unblocked(&self, inserted: usize, from: u64) -> Option<u64>
        ensures value { IsLeast (λ id. is_unblocked inserted (kept_at self.now id)) from result }
        ensures fits { IfSome result (λ id. id < 2 ^ 64) }
    {
        lesser(
            self.row.next_unblocked(inserted, from),
            self.others.next_unblocked(inserted, from),
        )
    }

    /// The stream of this id, to be changed. In its callers, so that one that stands in the row is found with no call.
    #[inline(always)]
    pub(crate) fn get_mut(&mut self, id: u64) -> Option<&mut RequestStream>
        ensures* writes_back { sem 𝓛 (LendsUnderWay self.entry id result) }
        ensures value { option_copied_mut result ≡ kept_at self.old id }
    {
        if self.row.has(id) {
            return Some(self.row.get_mut(id));
        }
        match self.others.get_mut(id) {
            Some(stream) => Some(stream),
            None => None,
        }
    }

    /// Puts a stream on which nothing has happened at an id that has none. An `Err` changes nothing: an allocation failed.
    pub(crate) fn open(&mut self, alloc: Global, id: u64) -> Result<(), AllocError>
        requires { kept_at self.old id ≡ None }
        ensures ok { OnOk result (Sets self.old self.new id fresh_request) }
        ensures err { OnErr result (self.new ≡ self.old) }
    {
        let Ok(stream) = self.spare.take(alloc) else {
            return Err(AllocError);
        };
        self.insert(id, stream)
    }

    /// Puts a stream at an id that has none. An `Err` changes nothing: an allocation failed.
    pub(crate) fn insert(&mut self, id: u64, stream: BoxedStream) -> Result<(), AllocError>
        requires { kept_at self.old id ≡ None }
        ensures ok { OnOk result (Sets self.old self.new id stream) }
        ensures err { OnErr result (self.new ≡ self.old) }
    {
        self.row.reserve(id)?;
        if self.row.has_room(id) {
            self.row.put(id, stream);
            return Ok(());
        }
        let Ok(()) = self.others.put(id, stream) else {
            return Err(AllocError);
        };
        Ok(())
    }

    /// Takes the stream of this id out. It takes no memory.
    pub(crate) fn remove(&mut self, id: u64) -> Option<BoxedStream>
        ensures value { result ≡ kept_at self.old id }
        ensures takes_out { TakesOut self.old self.new id }
    {
        if let Some(stream) = self.row.take(id) {
            return Some(stream);
        }
        self.others.take(id)
    }

    /// Drops the stream of this id, and keeps its block for the next one. It takes no memory.
    pub(crate) fn retire(&mut self, alloc: Global, id: u64)
        ensures { TakesOut self.old self.new id }
    {
        if let Some(stream) = self.remove(id) {
            self.spare.keep(alloc, stream);
        }
    }
}
