//! The entries of a dynamic table (RFC 9204, section 3.2): present ones end to end in one buffer, each with its number.
ghost use Rattle.std.specs.Prelude.{◌≡◌, ℕ, ◌+◌, ◌-◌, ◌*◌, ◌^◌, ◌<◌, ◌≤◌, length, map, min, Some, None, IfSome, IfNone, OnErr, OnOk};
ghost use Rattle.h3_field.specs.Field.{Field, plain_field, field_size, section_size};
ghost use Rattle.h3_table.specs.Table.{table};
ghost use Rattle.h3_table.specs.TableState.{TableState, no_entries, evicted, entry_at, newest_in, with_entry, with_capacity};
ghost use Rattle.h3_table.specs.Matches.{matches};
ghost use Rattle.h3_table.specs.Slots.{slot_of};
ghost use Rattle.h3_table.specs.Index.{IsIndexed};

pub use crate::field_queue::Entry;
use crate::field_queue::FieldQueue;
use crate::index::{Index, older, slot_of_field, slot_of_name};
use h3_field::{FieldRef, HeaderField, Part};
use std::alloc::{AllocError, Global};
use std::marker::Model;

/// Numbers of entries stay below this one.
pub const MOST_INSERTIONS: usize = 1 << 62;

/// The greatest capacity of a table, in bytes: 2^30 - 1. Of fields without bytes a table of it has 33,554,431 entries, with a record of
/// about 50 bytes for each. At an encoder there are also three numbers of 8 bytes for each. Records and numbers lie in rings that have room
/// for up to twice as many. Of long fields it has 1 GiB of bytes, in a block of at most a quarter more. A search walks the entries of one
/// slot of 256.
pub const MAX_CAPACITY: usize = (1 << 30) - 1;

/// The size of a field in a table, stopping at the greatest number (RFC 9204, section 3.2.1).
pub fn size_of(field: &FieldRef<'_>) -> usize
    ensures { result ≡ min (2 ^ 64 - 1) (field_size field.now) }
{
    field
        .name()
        .len()
        .saturating_add(field.value().len())
        .saturating_add(32)
}

/// What an entry has in common with a field.
#[derive(Clone, Copy)]
pub enum Match {
    Name,
    Field,
}

impl Match {
    /// The slot of a field in an index of such matches.
    pub fn slot(self, field: &FieldRef<'_>) -> usize
        ensures value { result ≡ slot_of self field.now }
        ensures below { result < 256 }
    {
        let slot = slot_of_name(field.name());
        match self {
            Match::Name => slot,
            Match::Field => slot_of_field(slot, field.value()),
        }
    }

    /// Whether the entry has that in common with a field of these parts.
    fn is_met(self, name: &[u8], value: &[u8], never_indexed: bool, entry: &Entry<'_>) -> bool
        ensures { result ≡ matches self (record { name = name.now; value = value.now; never_indexed = never_indexed }) entry.now }
    {
        // (for the proof: no entry has the flag)
        entry.is_plain();
        match self {
            Match::Name => entry.name() == name,
            // entries of one slot mostly have one name
            Match::Field => !never_indexed && entry.value() == value && entry.name() == name,
        }
    }
}

// RFC 9204 3.2.2: eviction
/// Drops the oldest fields until the sizes of the others sum to at most that, and answers this sum.
fn evict_oldest(fields: &mut FieldQueue, size: usize, most: usize) -> usize
    requires { size ≡ section_size fields.old.fields }
    ensures fields { fields.new ≡ record fields.old { fields = table most fields.old.fields } }
    ensures sum { result ≡ section_size fields.new.fields }
    ensures within { result ≤ most }
    ensures len { length fields.new.fields ≤ length fields.old.fields }
{
    let mut sum = size;
    while sum > most {
        let Some(count) = fields.pop() else {
            return 0;
        };
        sum -= count + 32;
    }
    sum
}

/// The entries that are there, the oldest first, and how many there ever were.
#[derive(Drop)]
pub struct Entries {
    fields: FieldQueue,
    inserted: usize,
    // the sum of the sizes of the fields
    size: usize,
    capacity: usize,
}

impl Model for Entries {
    ghost use Rattle.h3_table.specs.TableState.{TableState};

    ghost Value = { TableState };

    ghost use Rattle.h3_table.specs.EntriesInside.{table_state_inside, IsEntries};

    ghost view = { table_state_inside };

    ghost invariant = { IsEntries };
}

impl Entries {
    /// An empty table of capacity 0 (RFC 9204, section 3.2.3). It takes no memory.
    pub fn new(alloc: Global) -> Entries
        ensures { result ≡ no_entries }
    {
        Entries {
            fields: FieldQueue::new(alloc),
            inserted: 0,
            size: 0,
            capacity: 0,
        }
    }

    /// The capacity in bytes, as entries count (RFC 9204, section 3.2.1): the sizes of the entries never sum to more.
    pub fn capacity(&self) -> usize
        ensures value { result ≡ self.now.capacity }
        ensures small { result < 2 ^ 30 }
    {
        self.capacity
    }

    /// How many entries there ever were: the number of the newest one.
    pub fn inserted(&self) -> usize
        ensures value { result ≡ self.now.inserted }
        ensures small { result < 2 ^ 62 }
    {
        self.inserted
    }

    /// How many entries are evicted.
    pub fn evicted(&self) -> usize
        ensures value { result ≡ evicted self.now }
        ensures small { result ≤ self.now.inserted }
        ensures made { length self.now.entries ≤ self.now.inserted }
    {
        self.inserted - self.fields.len()
    }

    /// The sum of the sizes of the entries.
    pub fn size(&self) -> usize
        ensures value { result ≡ section_size self.now.entries }
        ensures small { result ≤ self.now.capacity }
    {
        self.size
    }

    /// How many bytes of names and values there are: at most the capacity.
    pub fn byte_count(&self) -> usize
        ensures { result + 32 * length self.now.entries ≡ section_size self.now.entries }
    {
        self.fields.byte_count()
    }

    /// The entry of that number, if it is there.
    pub fn get(&self, number: usize) -> Option<Entry<'_>>
        ensures value { result ≡ entry_at self.now number }
        ensures beyond { (n : ℕ) → 2 ^ 62 ≤ n → entry_at self.now n ≡ None }
    {
        let evicted = self.inserted - self.fields.len();
        if number <= evicted {
            return None;
        }
        self.fields.get(number - evicted - 1)
    }

    /// The number of the newest entry that matches the field, of those above one number and up to another. The search
    /// goes along the chain of its slot.
    pub fn newest(
        &self,
        index: &Index,
        what: Match,
        field: &FieldRef<'_>,
        above: usize,
        most: usize,
    ) -> Option<usize>
        requires indexed { IsIndexed index.now (evicted self.now) (map (slot_of what) self.now.entries) }
        requires above { evicted self.now ≤ above }
        ensures value { result ≡ newest_in self.now (matches what field.now) above most }
        ensures within { IfSome result (λ n. (above < n) × (n ≤ most) × (n ≤ self.now.inserted)) }
    {
        let evicted = self.inserted - self.fields.len();
        // read once, and not at each entry
        let name = field.name();
        let value = field.value();
        let never_indexed = field.is_never_indexed();
        let fields = self.fields.slices();
        let links = index.links();
        let mut number = index.newest(what.slot(field));
        while number > above {
            let place = number - evicted - 1;
            let entry = fields.get(place)?;
            if number <= most && what.is_met(name, value, never_indexed, &entry) {
                return Some(number);
            }
            number = older(&links, place);
        }
        None
    }

    /// How many entries are evicted once the sizes of the others sum to at most the room, unless that is above the most.
    pub fn evicted_within(&self, room: usize, most: usize) -> Option<usize>
        requires { evicted self.now ≤ most }
        ensures some { IfSome result (λ n. (n ≡ self.now.inserted - length (table room self.now.entries)) × (n ≤ most)) }
        ensures made { IfSome result (λ n. (evicted self.now ≤ n) × (n ≤ self.now.inserted)) }
        ensures none { IfNone result (most < self.now.inserted - length (table room self.now.entries)) }
    {
        let evicted = self.inserted - self.fields.len();
        let mut sum = self.size;
        let mut evictions = 0;
        while sum > room {
            if evicted + evictions >= most {
                return None;
            }
            let entry = self.fields.get(evictions)?;
            sum -= entry.mem_size();
            evictions += 1;
        }
        Some(evicted + evictions)
    }

    /// How many entries are evicted once this field is inserted, unless that is above the most.
    pub fn evicted_after(&self, field: &FieldRef<'_>, most: usize) -> Option<usize>
        requires fits { field_size field.now ≤ self.now.capacity }
        requires may { evicted self.now ≤ most }
        ensures some { IfSome result (λ n. (n ≡ evicted (with_entry self.now field.now)) × (n ≤ most)) }
        ensures made { IfSome result (λ n. (evicted self.now ≤ n) × (n ≤ self.now.inserted)) }
        ensures none { IfNone result (most < evicted (with_entry self.now field.now)) }
    {
        self.evicted_within(self.capacity - size_of(field), most)
    }

    /// Sets the capacity: the oldest entries are evicted.
    pub fn set_capacity(&mut self, capacity: usize)
        requires { capacity < 2 ^ 30 }
        ensures { self.new ≡ with_capacity self.old capacity }
    {
        self.size = evict_oldest(&mut self.fields, self.size, capacity);
        self.capacity = capacity;
    }

    /// Inserts a field for which there is room: the oldest entries are evicted. The entry is of its name and its value alone: an encoder
    /// inserts no field that has the flag (RFC 9204, section 7.1.3). If an allocation fails, nothing changes.
    pub fn insert(&mut self, field: HeaderField) -> Result<(), AllocError>
        requires few { self.old.inserted + 1 < 2 ^ 62 }
        requires fits { field_size field ≤ self.old.capacity }
        ensures ok { OnOk result (self.new ≡ with_entry self.old (plain_field field.name field.value)) }
        ensures err { OnErr result (self.new ≡ self.old) }
    {
        let static_name = match field.name_part() {
            Part::Static(name) => Some(name),
            Part::Lent(_) => None,
        };
        self.put(field.name(), field.value(), static_name)
    }

    /// The same for a field that stays the caller's.
    pub fn insert_copy(&mut self, field: &FieldRef<'_>) -> Result<(), AllocError>
        requires few { self.old.inserted + 1 < 2 ^ 62 }
        requires fits { field_size field.now ≤ self.old.capacity }
        ensures ok { OnOk result (self.new ≡ with_entry self.old (plain_field field.now.name field.now.value)) }
        ensures err { OnErr result (self.new ≡ self.old) }
    {
        self.put(field.name(), field.value(), None)
    }

    /// How many bytes of names and values there are at most, once the sizes of the entries sum to at most the room.
    fn kept_within(&self, room: usize) -> usize
        ensures most { section_size (table room self.now.entries) ≤ result + 32 * length (table room self.now.entries) }
        ensures within { result ≤ room }
        ensures there { result ≤ section_size self.now.entries }
    {
        if self.size > room {
            room
        } else {
            self.fields.byte_count()
        }
    }

    /// Inserts an entry of a name, which may be static, and a value. Room is taken before the first entry is evicted, for what is left then
    /// and for this one. A new block has at most a quarter more than the sizes of the entries that are there, this one's bytes, and 512.
    fn put(
        &mut self,
        name: &[u8],
        value: &[u8],
        static_name: Option<&'static [u8]>,
    ) -> Result<(), AllocError>
        requires same { IfSome static_name (λ given. given.now ≡ name.now) }
        requires few { self.old.inserted + 1 < 2 ^ 62 }
        requires fits { length name.now + length value.now + 32 ≤ self.old.capacity }
        ensures ok { OnOk result (self.new ≡ with_entry self.old (plain_field name.now value.now)) }
        ensures err { OnErr result (self.new ≡ self.old) }
    {
        let count = name.len() + value.len();
        let room = self.capacity - (count + 32);
        let kept = self.kept_within(room);
        let block = self.fields.reserve(kept, count)?;
        let size = evict_oldest(&mut self.fields, self.size, room);
        self.fields.push(name, value, static_name, block);
        self.size = size + count + 32;
        self.inserted += 1;
        Ok(())
    }
}
