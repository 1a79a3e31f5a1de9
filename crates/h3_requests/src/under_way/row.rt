//! A row of places in which request streams stand by their ids, so that one is found by one comparison.
ghost use Rattle.std.specs.Borrow.{sem};
ghost use Rattle.std.specs.Prelude.{◌≡◌, ◌<◌, ◌/◌, ◌%◌, ◌^◌, ℕ, length, true, Some, None, is_some, option_copied, IfSome, IsSome};
ghost use Rattle.h3_connection.specs.NextWaiting.{IsLeast};
ghost use Rattle.h3_requests.specs.Done.{is_sought};
ghost use Rattle.h3_requests.specs.Greatest.{IsGreatest};
ghost use Rattle.h3_requests.specs.Row.{held_at, in_place, HasFreePlace, IsOneHeld, HoldSame};
ghost use Rattle.h3_requests.specs.Unblocked.{is_next, is_unblocked};
ghost use Rattle.h3_requests.specs.RowLending.{LendsHeld, LendsPlaced};

use crate::boxed::BoxedStream;
use crate::greatest::greater;
use crate::lesser::lesser;
use crate::stream::RequestStream;
use std::alloc::{AllocError, Global};
use std::mem;

/// The ids of request streams are four apart (RFC 9000, section 2.1).
const STEP: u64 = 4;

/// How many places a row has.
const PLACES: usize = 128;

/// How many it has at first. Most connections have no more streams.
const FIRST_PLACES: usize = 16;

/// A place: the stream in it, with its id, or none.
#[derive(Drop)]
pub(crate) struct Place {
    id: u64,
    stream: Option<BoxedStream>,
}

/// The streams in their places. The id of a stream says its place, so one that finds it taken has none.
#[derive(Drop)]
pub(crate) struct Row {
    // none before the first stream, and all of them once one needs a place after the first ones
    places: Vec<Place>,
}

// The place of a stream.
fn place_of(id: u64) -> usize
    ensures { result ≡ id / 4 % 128 }
{
    (id / STEP) as usize % PLACES
}

impl Place {
    // Nothing stands there.
    fn free() -> Place
        ensures { result.stream ≡ None }
    {
        Place {
            id: 0,
            stream: None,
        }
    }

    // The stream of this id, if it stands there.
    fn get(&self, id: u64) -> Option<&RequestStream>
        ensures { option_copied result ≡ in_place self.now id }
    {
        if self.id != id {
            return None;
        }
        match &self.stream {
            Some(stream) => Some(stream.get()),
            None => None,
        }
    }

    // Whether the stream of this id stands there.
    fn has(&self, id: u64) -> bool
        ensures { result ≡ is_some (in_place self.now id) }
    {
        self.id == id && self.stream.is_some()
    }

    // The stream that stands there, to be changed.
    fn stream_mut(&mut self) -> &mut RequestStream
        requires { IsSome self.old.stream }
        ensures* writes_back { sem 𝓛 (LendsPlaced self.entry result) }
        ensures value { self.old.stream ≡ Some result.now }
    {
        match &mut self.stream {
            Some(stream) => stream.get_mut(),
            None => unreachable!(),
        }
    }
}

impl Row {
    /// No stream. It takes no memory.
    pub(crate) fn new(alloc: Global) -> Row
        ensures { (q : ℕ) → held_at result q ≡ None }
    {
        Row {
            places: Vec::new(alloc),
        }
    }

    /// The stream of this id, if it has a place.
    pub(crate) fn get(&self, id: u64) -> Option<&RequestStream>
        ensures { option_copied result ≡ held_at self.now id }
    {
        match self.places.get(place_of(id)) {
            Some(place) => place.get(id),
            None => None,
        }
    }

    /// Whether the stream of this id has a place.
    pub(crate) fn has(&self, id: u64) -> bool
        ensures { result ≡ is_some (held_at self.now id) }
    {
        match self.places.get(place_of(id)) {
            Some(place) => place.has(id),
            None => false,
        }
    }

    /// The stream of this id, which has a place, to be changed.
    pub(crate) fn get_mut(&mut self, id: u64) -> &mut RequestStream
        requires { IsSome (held_at self.old id) }
        ensures* writes_back { sem 𝓛 (LendsHeld self.entry id result) }
        ensures value { held_at self.old id ≡ Some result.now }
    {
        self.places[place_of(id)].stream_mut()
    }

    // Whether the stream of this id has a place, and counts.
    fn seeks(&self, id: u64, undone: bool) -> bool
        ensures { result ≡ is_sought undone (held_at self.now id) }
    {
        match self.get(id) {
            Some(stream) => stream.is_sought(undone),
            None => false,
        }
    }

    /// The greatest id of a stream that has a place: of all, or of those alone that are not done.
    pub(crate) fn greatest(&self, undone: bool) -> Option<u64>
        ensures value { IsGreatest (λ id. is_sought undone (held_at self.now id)) result }
        ensures fits { IfSome result (λ id. id < 2 ^ 64) }
    {
        let mut found = None;
        // (the label names the loop in its proof)
        'places: for place in &self.places {
            if self.seeks(place.id, undone) {
                found = greater(found, Some(place.id));
            }
        }
        found
    }

    // Whether the stream of this id has a place, is not before `from`, and so many insertions unblock it.
    fn is_next(&self, id: u64, inserted: usize, from: u64) -> bool
        ensures { result ≡ is_next inserted from id (held_at self.now id) }
    {
        if id < from {
            return false;
        }
        match self.get(id) {
            Some(stream) => stream.is_unblocked(inserted),
            None => false,
        }
    }

    /// The least id from `from` on of a stream that has a place and that so many insertions unblock.
    pub(crate) fn next_unblocked(&self, inserted: usize, from: u64) -> Option<u64>
        ensures value { IsLeast (λ id. is_unblocked inserted (held_at self.now id)) from result }
        ensures fits { IfSome result (λ id. id < 2 ^ 64) }
    {
        let mut found = None;
        // (the label names the loop in its proof)
        'places: for place in &self.places {
            if self.is_next(place.id, inserted, from) {
                found = lesser(found, Some(place.id));
            }
        }
        found
    }

    /// Takes memory for the place of this id, unless it is there: for some places at first, and then for all. The streams stay.
    pub(crate) fn reserve(&mut self, id: u64) -> Result<(), AllocError>
        ensures { HoldSame self.old self.new }
    {
        let place = place_of(id);
        let len = self.places.len();
        if place < len {
            return Ok(());
        }
        let count = if place < FIRST_PLACES {
            FIRST_PLACES
        } else {
            PLACES
        };
        self.lengthen(count - len)
    }

    // So many places more, in which nothing stands.
    #[inline(never)]
    fn lengthen(&mut self, more: usize) -> Result<(), AllocError>
        ensures { HoldSame self.old self.new }
    {
        self.places.reserve_exact(more)?;
        for _ in 0..more {
            self.places.push_reserved(Place::free());
        }
        Ok(())
    }

    /// Whether nothing stands in the place of this id.
    pub(crate) fn has_room(&self, id: u64) -> bool
        ensures { result ≡ true → HasFreePlace self.now id }
    {
        match self.places.get(place_of(id)) {
            Some(place) => place.stream.is_none(),
            None => false,
        }
    }

    /// Puts a stream into its place, in which none stands. It takes no memory.
    pub(crate) fn put(&mut self, id: u64, stream: BoxedStream)
        requires { HasFreePlace self.old id }
        ensures { IsOneHeld id (Some stream) self.old self.new }
    {
        let place = Place {
            id,
            stream: Some(stream),
        };
        let Place { stream: before, .. } = mem::replace(&mut self.places[place_of(id)], place);
        match before {
            None => {}
            Some(_) => unreachable!(),
        }
    }

    /// Takes a stream out of its place, if it has one. It takes no memory.
    pub(crate) fn take(&mut self, id: u64) -> Option<BoxedStream>
        ensures value { result ≡ held_at self.old id }
        ensures taken { IsOneHeld id None self.old self.new }
    {
        let Some(place) = self.places.get_mut(place_of(id)) else {
            return None;
        };
        if place.id != id {
            return None;
        }
        place.stream.take()
    }
}
