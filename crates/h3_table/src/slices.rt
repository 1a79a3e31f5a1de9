//! The items of a ring where they lie, for a search that reads many of them.
ghost use Rattle.std.specs.Prelude.{◌≡◌, ◌≤◌, ◌++◌, length, slice_get, Some, IfSome, IfNone};

use std::collections::VecDeque;

/// The two rows of memory that the items of a ring lie in: an item is found in them in fewer steps than in the ring.
#[derive(Drop)]
pub(crate) struct Slices<'a, T> {
    first: &'a [T],
    further: &'a [T],
}

impl<'a, T> Slices<'a, T> {
    pub(crate) fn of(ring: &'a VecDeque<T>) -> Slices<'a, T>
        ensures { result.first.now ++ result.further.now ≡ ring.now.items }
    {
        let (first, further) = ring.as_slices();
        Slices { first, further }
    }

    /// The item at a place.
    pub(crate) fn get(&self, place: usize) -> Option<&'a T>
        ensures some { IfSome result (λ x. slice_get (self.now.first.now ++ self.now.further.now) place ≡ Some x.now) }
        ensures none { IfNone result (length (self.now.first.now ++ self.now.further.now) ≤ place) }
    {
        let count = self.first.len();
        if place < count {
            return Some(&self.first[place]);
        }
        self.further.get(place - count)
    }
}
