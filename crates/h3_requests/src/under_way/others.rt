//! The request streams that found their place in the row taken, in a map by their ids. Each look-up is a call of its own, so that one in
//! the row is found with no search and no frame.
ghost use Rattle.std.specs.Borrow.{sem};
ghost use Rattle.std.specs.Option.{option_copied_mut};
ghost use Rattle.std.specs.Prelude.{◌≡◌, ◌<◌, ◌^◌, [], None, Some, is_some, option_copied, IfSome, OnErr, OnOk};
ghost use Rattle.h3_connection.specs.NextWaiting.{IsLeast};
ghost use Rattle.h3_connection.specs.State.{kept_at};
ghost use Rattle.h3_requests.specs.Done.{is_sought};
ghost use Rattle.h3_requests.specs.Greatest.{IsGreatest};
ghost use Rattle.h3_requests.specs.OthersLending.{LendsOther};
ghost use Rattle.h3_requests.specs.Row.{KeepsOthers};
ghost use Rattle.h3_requests.specs.Unblocked.{is_next, is_unblocked};

use crate::boxed::BoxedStream;
use crate::greatest::greater;
use crate::lesser::lesser;
use crate::stream::RequestStream;
use std::alloc::{AllocError, Global};
use std::collections::BTreeMap;

/// The streams by their ids.
#[derive(Drop)]
pub(crate) struct Others {
    streams: BTreeMap<u64, BoxedStream>,
}

impl Others {
    /// No stream. It takes no memory.
    pub(crate) fn new(alloc: Global) -> Others
        ensures { result.streams.entries ≡ [] }
    {
        Others {
            streams: BTreeMap::new(alloc),
        }
    }

    /// Whether there is a stream of this id.
    #[inline(never)]
    pub(crate) fn has(&self, id: u64) -> bool
        ensures { result ≡ is_some (kept_at self.now.streams.entries id) }
    {
        self.streams.contains_key(&id)
    }

    /// The stream of this id.
    #[inline(never)]
    pub(crate) fn get(&self, id: u64) -> Option<&RequestStream>
        ensures { option_copied result ≡ kept_at self.now.streams.entries id }
    {
        match self.streams.get(&id) {
            Some(stream) => Some(stream.get()),
            None => None,
        }
    }

    // Whether the stream of this id is there, and counts.
    fn seeks(&self, id: u64, undone: bool) -> bool
        ensures { result ≡ is_sought undone (kept_at self.now.streams.entries id) }
    {
        match self.streams.get(&id) {
            Some(stream) => stream.get().is_sought(undone),
            None => false,
        }
    }

    /// The greatest id of a stream: of all, or of those alone that are not done.
    #[inline(never)]
    pub(crate) fn greatest(&self, undone: bool) -> Option<u64>
        ensures value { IsGreatest (λ id. is_sought undone (kept_at self.now.streams.entries id)) result }
        ensures fits { IfSome result (λ id. id < 2 ^ 64) }
    {
        let mut found = None;
        // (the label names the loop in its proof)
        'ids: for id in self.streams.keys() {
            if self.seeks(*id, undone) {
                found = greater(found, Some(*id));
            }
        }
        found
    }

    // Whether the stream of this id is there, is not before `from`, and so many insertions unblock it.
    fn is_next(&self, id: u64, inserted: usize, from: u64) -> bool
        ensures { result ≡ is_next inserted from id (kept_at self.now.streams.entries id) }
    {
        if id < from {
            return false;
        }
        match self.streams.get(&id) {
            Some(stream) => stream.get().is_unblocked(inserted),
            None => false,
        }
    }

    /// The least id from `from` on of a stream that so many insertions unblock.
    #[inline(never)]
    pub(crate) fn next_unblocked(&self, inserted: usize, from: u64) -> Option<u64>
        ensures value { IsLeast (λ id. is_unblocked inserted (kept_at self.now.streams.entries id)) from result }
        ensures fits { IfSome result (λ id. id < 2 ^ 64) }
    {
        let mut found = None;
        // (the label names the loop in its proof)
        'ids: for id in self.streams.keys() {
            if self.is_next(*id, inserted, from) {
                found = lesser(found, Some(*id));
            }
        }
        found
    }

    /// The stream of this id, to be changed.
    #[inline(never)]
    pub(crate) fn get_mut(&mut self, id: u64) -> Option<&mut RequestStream>
        ensures* writes_back { sem 𝓛 (LendsOther self.entry id result) }
        ensures value { option_copied_mut result ≡ kept_at self.old.streams.entries id }
    {
        match self.streams.get_mut(&id) {
            Some(stream) => Some(stream.get_mut()),
            None => None,
        }
    }

    /// Puts a stream there. An `Err` changes nothing: an allocation failed.
    #[inline(never)]
    pub(crate) fn put(&mut self, id: u64, stream: BoxedStream) -> Result<(), AllocError>
        ensures own { OnOk result (kept_at self.new.streams.entries id ≡ Some stream) }
        ensures others { OnOk result (KeepsOthers self.old.streams.entries self.new.streams.entries id) }
        ensures err { OnErr result (self.new.streams.entries ≡ self.old.streams.entries) }
    {
        let Ok(_) = self.streams.insert(id, stream) else {
            return Err(AllocError);
        };
        Ok(())
    }

    /// Takes the stream of this id out. It takes no memory.
    #[inline(never)]
    pub(crate) fn take(&mut self, id: u64) -> Option<BoxedStream>
        ensures value { result ≡ kept_at self.old.streams.entries id }
        ensures own { kept_at self.new.streams.entries id ≡ None }
        ensures others { KeepsOthers self.old.streams.entries self.new.streams.entries id }
    {
        self.streams.remove(&id)
    }
}
