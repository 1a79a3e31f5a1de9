//! An index of the entries of a dynamic table: chains of those with one slot, the newest first.
ghost use Rattle.std.specs.Prelude.{◌≡◌, ◌<◌, ◌≤◌, ◌+◌, ◌++◌, ◌∷◌, [], ℕ, List, length, drop, slice_index_or, OnOk};
ghost use Rattle.std.specs.VecDeque.{deque_len, deque_capacity};
ghost use Rattle.h3_table.specs.Index.{IsIndexed, HasRoom};
ghost use Rattle.h3_table.specs.Slots.{name_slot, field_slot};

use crate::slices::Slices;
use crate::tracking::drop_front;
use std::alloc::{AllocError, Global};
use std::collections::VecDeque;

/// How many slots there are.
const SLOTS: usize = 256;

/// For so many entries memory is taken at once.
const AHEAD: usize = 16;

/// Takes memory for a number more, if there is none.
#[inline(always)]
pub(crate) fn reserve_number(numbers: &mut VecDeque<usize>) -> Result<(), AllocError>
    ensures items { numbers.new.items ≡ numbers.old.items }
    ensures ok { OnOk result (deque_len numbers.new < deque_capacity numbers.new) }
{
    if numbers.len() < numbers.capacity() {
        return Ok(());
    }
    numbers.reserve(AHEAD)
}

/// The slot of a name: of its length and two of its bytes, so that a long name costs no more.
pub fn slot_of_name(name: &[u8]) -> usize
    ensures value { result ≡ name_slot name.now }
    ensures below { result < 256 }
{
    let len = name.len();
    if len == 0 {
        return 0;
    }
    let last = name[len - 1] as usize;
    let middle = name[len / 2] as usize;
    (37 * (len % 256) + 101 * last + 59 * middle) % 256
}

/// The slot of a field: of its name's slot, and of the length and three bytes of its value.
pub fn slot_of_field(name_slot: usize, value: &[u8]) -> usize
    requires { name_slot < 256 }
    ensures value { result ≡ field_slot name_slot value.now }
    ensures below { result < 256 }
{
    let len = value.len();
    if len == 0 {
        return name_slot;
    }
    let last = value[len - 1] as usize;
    let late = value[len - 1 - len / 6] as usize;
    let middle = value[len / 2] as usize;
    (name_slot + 37 * (len % 256) + 101 * last + 171 * late + 13 * middle) % 256
}

/// Makes an item for each slot. New ones stand for no entry.
#[inline(always)]
fn fill(heads: &mut Vec<usize>) -> Result<(), AllocError>
    ensures same { (slot : ℕ) → slot < 256 → slice_index_or heads.new.items slot 0 ≡ slice_index_or heads.old.items slot 0 }
    ensures ok { OnOk result (length heads.new.items ≡ 256) }
{
    if heads.len() == SLOTS {
        return Ok(());
    }
    heads.resize(SLOTS, 0)?;
    Ok(())
}

/// For each slot the newest entry, and for each entry the next older one of its slot. Numbers of entries that are evicted
/// may stand for none. It takes no memory before the first entry.
#[derive(Drop)]
pub struct Index {
    // by slot: the number of the newest entry, or 0
    heads: Vec<usize>,
    // by entry: the number of the next older one of its slot, or 0
    links: VecDeque<usize>,
}

impl Index {
    /// An index of no entries. It takes no memory.
    pub fn new(alloc: Global) -> Index
        ensures { (evicted : ℕ) → IsIndexed result evicted [] }
    {
        Index {
            heads: Vec::new(alloc),
            links: VecDeque::new(alloc),
        }
    }

    /// Takes memory for one entry more.
    #[inline(always)]
    pub fn reserve(&mut self) -> Result<(), AllocError>
        ensures same { (evicted : ℕ) (slots : List ℕ) → IsIndexed self.old evicted slots → IsIndexed self.new evicted slots }
        ensures ok { OnOk result (HasRoom self.new) }
    {
        fill(&mut self.heads)?;
        reserve_number(&mut self.links)
    }

    /// Adds an entry, for which there is memory.
    pub fn add(&mut self, slot: usize, number: usize)
        requires room { HasRoom self.old }
        requires slot { slot < 256 }
        ensures { (evicted : ℕ) (slots : List ℕ) → IsIndexed self.old evicted slots → number ≡ evicted + 1 + length slots
            → IsIndexed self.new evicted (slots ++ slot ∷ []) }
    {
        self.links.push_back_reserved(self.heads[slot]);
        self.heads[slot] = number;
    }

    /// Evicts the oldest entries, so many.
    pub fn evict_oldest(&mut self, count: usize)
        ensures { (evicted : ℕ) (slots : List ℕ) → IsIndexed self.old evicted slots → count ≤ length slots
            → IsIndexed self.new (evicted + count) (drop count slots) }
    {
        drop_front(&mut self.links, count);
    }

    /// The number of the newest entry of a slot. If none is there, it is that of one that is evicted, or 0.
    pub fn newest(&self, slot: usize) -> usize
        ensures { result ≡ slice_index_or self.now.heads.items slot 0 }
    {
        self.heads.get(slot).copied().unwrap_or(0)
    }

    /// For each entry the number of the next older one of its slot, as `newest` gives it.
    pub(crate) fn links(&self) -> Slices<'_, usize>
        ensures { result.first.now ++ result.further.now ≡ self.now.links.items }
    {
        Slices::of(&self.links)
    }
}

/// The number of the next older entry of the slot of the entry at a place.
pub(crate) fn older(links: &Slices<'_, usize>, place: usize) -> usize
    ensures { result ≡ slice_index_or (links.now.first.now ++ links.now.further.now) place 0 }
{
    match links.get(place) {
        Some(number) => *number,
        None => 0,
    }
}
