//! The ids of the streams that take turns, so that the next one is found with no look at the others.
ghost use Rattle.std.specs.Prelude.{◌≡◌, ◌≢◌, ◌<◌, ◌≤◌, ◌^◌, ◌||◌, ◌==◌, ℕ, [], false, OnOk};
ghost use Rattle.h3_webtransport_streams.specs.Indexed.{has_id, AreAtMost, IsCountBelow, IsPlace, Rises};
ghost use Rattle.h3_webtransport_streams.specs.Sessions.{IsLast, IsTurn};

use std::alloc::{AllocError, Global};
use std::marker::Model;

/// The ids, in rising order. A contract sees them as the definitions' `TurnIdsState`.
#[derive(Drop)]
pub(crate) struct TurnIds {
    ids: Vec<u64>,
}

impl Model for TurnIds {
    ghost use Rattle.std.specs.Vec.{vec_capacity};
    ghost use Rattle.h3_webtransport_streams.specs.Indexed.{TurnIdsState, Rises};

    ghost Value = { TurnIdsState };

    ghost view = { λ t. record { ids = t.ids.items; room = vec_capacity t.ids } };

    ghost invariant = { λ t. Rises t.ids.items };
}

impl TurnIds {
    /// No id. It takes no memory.
    #[tactic(auto, using(crate::proofs::Rising::none_rise))]
    pub(crate) fn new(alloc: Global) -> TurnIds
        ensures { result ≡ record { ids = []; room = 0 } }
    {
        TurnIds {
            ids: Vec::new(alloc),
        }
    }

    /// Makes room for more than so many ids. They stay. An `Err` comes if an allocation failed.
    pub(crate) fn reserve(&mut self, count: usize) -> Result<(), AllocError>
        requires { count < 2 ^ 63 }
        ensures ids { self.new.ids ≡ self.old.ids }
        ensures room { self.old.room ≤ self.new.room }
        ensures ok { OnOk result (count < self.new.room) }
    {
        let more = count.saturating_sub(self.ids.len()) + 1;
        self.ids.reserve(more)
    }

    /// Enters an id, for which there is room. It takes no memory.
    #[tactic(auto, using(crate::proofs::Rising::entered_rises, crate::proofs::Rising::entered_has, crate::proofs::Rising::there_has))]
    pub(crate) fn enter(&mut self, id: u64)
        requires { AreAtMost (λ q. (id == q) || has_id self.old.ids q) self.old.room }
        ensures ids { (q : ℕ) → has_id self.new.ids q ≡ ((id == q) || has_id self.old.ids q) }
        ensures room { self.new.room ≡ self.old.room }
    {
        if let Err(place) = place_of(&self.ids, id) {
            match self.ids.insert(place, id) {
                Ok(()) => {}
                Err(_) => unreachable!(),
            }
        }
    }

    /// Takes an id out, if it is there.
    #[tactic(auto, using(crate::proofs::Rising::left_rises, crate::proofs::Rising::left_here, crate::proofs::Rising::absent_here))]
    pub(crate) fn leave(&mut self, id: u64)
        ensures here { has_id self.new.ids id ≡ false }
        ensures others { (q : ℕ) → q ≢ id → has_id self.new.ids q ≡ has_id self.old.ids q }
        ensures room { self.new.room ≡ self.old.room }
    {
        if let Ok(place) = place_of(&self.ids, id) {
            self.ids.remove(place);
        }
    }

    /// The id whose turn it is: the greatest below `from`, or the greatest of all.
    pub(crate) fn next(&self, from: u64) -> Option<u64>
        ensures { IsTurn (λ q. has_id self.now.ids q) from result }
    {
        match self.last(Some(from)) {
            Some(id) => Some(id),
            None => self.last(None),
        }
    }

    // The greatest id below a number, if there is one.
    #[tactic(auto, using(crate::proofs::Rising::last_none))]
    fn last(&self, below: Option<u64>) -> Option<u64>
        ensures { IsLast (λ q. has_id self.now.ids q) below result }
    {
        let count = count_below(&self.ids, below);
        if count == 0 {
            return None;
        }
        Some(self.ids[count - 1])
    }
}

// The place of an id, or else the one between others that it would have.
#[tactic(auto, using(crate::proofs::Rising::place_is))]
fn place_of(ids: &[u64], id: u64) -> Result<usize, usize>
    requires { Rises ids.now }
    ensures { IsPlace ids.now id result }
{
    ids.binary_search(&id)
}

// How many ids are below a number, if there is one.
#[tactic(auto, using(crate::proofs::Rising::count_all))]
fn count_below(ids: &[u64], below: Option<u64>) -> usize
    requires { Rises ids.now }
    ensures { IsCountBelow below ids.now result }
{
    let Some(place) = below else {
        return ids.len();
    };
    match place_of(ids, place) {
        Ok(count) => count,
        Err(count) => count,
    }
}
