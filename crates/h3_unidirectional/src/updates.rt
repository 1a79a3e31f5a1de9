//! What PRIORITY_UPDATE frames said that waits to be used (RFC 9218, section 7.2).
ghost use Rattle.std.specs.Prelude.{◌≡◌, ◌<◌, length, remove, slice_get, OnOk};
ghost use Rattle.h3_connection.specs.StreamSets.{stream_at};
ghost use Rattle.h3_connection.specs.Updates.{no_updates, with_update};
ghost use Rattle.h3_unidirectional.specs.Waits.{updates_in, HasSpare, place_of};

use h3_priority::priority::Priority;
use h3_proto::stream::StreamId;
use std::alloc::{AllocError, Global};

/// The last update of each stream, of so many streams at most. They are few, so that one is found by a look at all.
#[derive(Drop)]
pub(crate) struct WaitingUpdates {
    pub(crate) most: usize,
    pub(crate) waiting: Vec<(StreamId, Priority)>,
}

impl WaitingUpdates {
    /// None. It takes no memory.
    pub(crate) fn new(alloc: Global, most: usize) -> WaitingUpdates
        ensures { updates_in result ≡ no_updates most }
    {
        WaitingUpdates {
            most,
            waiting: Vec::new(alloc),
        }
    }

    /// How many wait.
    pub(crate) fn len(&self) -> usize
        ensures { result ≡ length self.now.waiting.items }
    {
        self.waiting.len()
    }

    /// One of them, by its place.
    pub(crate) fn at(&self, place: usize) -> Option<(StreamId, Priority)>
        ensures { result ≡ slice_get self.now.waiting.items place }
    {
        self.waiting.get(place).copied()
    }

    /// The one of a stream.
    #[tactic(auto, using(crate::proofs::UpdatePlaces::none_there, crate::proofs::UpdatePlaces::not_past, crate::proofs::UpdatePlaces::one_there))]
    pub(crate) fn get(&self, id: StreamId) -> Option<Priority>
        ensures { result ≡ stream_at self.now.waiting.items id }
    {
        let place = self.place_of(id)?;
        let found = self.at(place)?;
        Some(found.1)
    }

    // The place of the one of a stream.
    fn place_of(&self, id: StreamId) -> Option<usize>
        ensures { result ≡ place_of self.now.waiting.items id }
    {
        let number = id.into_inner();
        self.waiting
            .iter()
            .position(|update| update.0.into_inner() == number)
    }

    /// Room for one more, if there may be one. An `Err` changes nothing.
    pub(crate) fn reserve(&mut self) -> Result<(), AllocError>
        ensures same { updates_in self.new ≡ updates_in self.old }
        ensures spare { OnOk result (HasSpare self.new) }
    {
        if self.waiting.len() < self.most {
            self.waiting.reserve(1)?;
        }
        Ok(())
    }

    /// One came, for which room was taken. It takes no memory.
    #[tactic(auto, using(crate::proofs::UpdatePlaces::place_within, crate::proofs::UpdatePlaces::put_there, crate::proofs::UpdatePlaces::put_last, crate::proofs::UpdatePlaces::put_nowhere))]
    pub(crate) fn put(&mut self, id: StreamId, priority: Priority)
        requires { HasSpare self.old }
        ensures { updates_in self.new ≡ with_update (updates_in self.old) id priority }
    {
        if let Some(place) = self.place_of(id) {
            self.waiting[place] = (id, priority);
            return;
        }
        if self.waiting.len() < self.most {
            self.waiting.push_reserved((id, priority));
        }
    }

    /// The one at this place waits no longer.
    pub(crate) fn remove(&mut self, place: usize)
        requires { place < length self.old.waiting.items }
        ensures { updates_in self.new ≡ record (updates_in self.old) { waiting = remove self.old.waiting.items place } }
    {
        self.waiting.remove(place);
    }
}
