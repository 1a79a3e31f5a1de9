//! The dynamic table with what its encoder goes by (RFC 9204, sections 2.1 and 3.2).
ghost use Rattle.std.specs.Prelude.{◌≡◌, ℕ, ◌+◌, ◌-◌, ◌^◌, ◌<◌, ◌≤◌, List, [], length, min, max, true, false, None, IfSome, IfNone, ◌==◌};
ghost use Rattle.std.specs.Prelude.{◌||◌, IfOk, IfErr, OnErr, OnOk};
ghost use Rattle.std.specs.List.{list_any};
ghost use Rattle.h3_table.specs.Cancellations.{none_canceled};
ghost use Rattle.h3_field.specs.Field.{Field, field_size, section_size};
ghost use Rattle.h3_table.specs.TableState.{no_entries, evicted, entry_at, newest_in, with_entry, with_capacity};
ghost use Rattle.h3_table.specs.Matches.{matches};
ghost use Rattle.h3_table.specs.Index.{IsIndexed, HasRoom};
ghost use Rattle.h3_table.specs.Tracking.{is_of, is_free_to};
ghost use Rattle.h3_field.specs.Instruction.DecoderInstruction.{Acknowledge, CancelStream};
ghost use Rattle.h3_qpack.specs.EncoderHistory.{no_choices};
ghost use Rattle.h3_qpack.specs.EncoderState.{EncoderState, MayInsertInto, MayHaveCapacity, IsCapacityRefusal, raised, refuses_increment};
ghost use Rattle.h3_qpack.specs.EncoderState.{encoder_state_sent, encoder_state_after, encoder_state_withdrawn, was_canceled_in};
ghost use Rattle.h3_qpack.specs.Marks.{no_marks};
ghost use Rattle.h3_qpack.specs.Missed.{IsMissed};
ghost use Rattle.h3_qpack.specs.Drafting.{begun, draining_in, is_worth_in, noted, IsSmall, MayInsertAhead};
ghost use Rattle.h3_field.specs.declared.dynamic.Error.TheVariants.{MaxBlockedStreamsTooLarge};

use crate::encoder_choices::EncoderChoices;
use crate::encoder_view::DynamicTableEncoder;
use crate::marks::Marks;
use crate::section::Section;
use crate::view::DynamicTableDecoder;
use h3_field::FieldRef;
pub use h3_field::dynamic::Error;
use h3_table::blocking::BlockingCounts;
use h3_table::canceled_streams::CanceledStreams;
use h3_table::entries::{Entries, Entry, MAX_CAPACITY, MOST_INSERTIONS, Match, size_of};
use h3_table::index::Index;
use h3_table::tracking::{TrackedSection, Tracking};
use std::alloc::{AllocError, Global};
use std::marker::Model;

/// The most sections that may be blocked at a decoder.
pub(crate) const MAX_BLOCKED: usize = 65535;

/// The entries of a table, and what an encoder knows of its decoder. That is the greatest number of insertions known to be received, the
/// sections that may be blocked there, and those that hold entries.
#[derive(Drop)]
pub struct DynamicTable {
    entries: Entries,
    // of the entries by their names, and by names and values
    names: Index,
    fields: Index,
    tracking: Tracking,
    // the streams of which a cancellation was read, which nobody acknowledges any more
    canceled: CanceledStreams,
    // the most that the table may have, and the greatest capacity that the decoder announced
    most_capacity: usize,
    announced: usize,
    // how many sections may be blocked at the decoder
    limit: usize,
    // what is known to be received, and the required insert counts above that
    blocking: BlockingCounts,
    // an acknowledgment tells of the insertions that its section needs
    counts_acknowledgments: bool,
    choices: EncoderChoices,
    // of the last values that it wrote as literals
    marks: Marks,
    alloc: Global,
}

impl Model for DynamicTable {
    ghost use Rattle.h3_qpack.specs.EncoderState.{EncoderState};

    ghost Value = { EncoderState };

    ghost use Rattle.h3_qpack.specs.TableInside.{encoder_state_inside, IsTable};

    ghost view = { encoder_state_inside };

    ghost invariant = { IsTable };
}

/// Takes memory for one entry more in both.
fn reserve(names: &mut Index, fields: &mut Index) -> Result<(), AllocError>
    ensures names { (evicted : ℕ) (slots : List ℕ) → IsIndexed names.old evicted slots → IsIndexed names.new evicted slots }
    ensures fields { (evicted : ℕ) (slots : List ℕ) → IsIndexed fields.old evicted slots → IsIndexed fields.new evicted slots }
    ensures ok { OnOk result (HasRoom names.new × HasRoom fields.new) }
{
    names.reserve()?;
    fields.reserve()
}

impl DynamicTable {
    /// A table of capacity 0, whose sections may not be blocked. It may have any capacity up to 2^30 - 1.
    pub fn new(alloc: Global) -> DynamicTable
        ensures { result ≡
            record {
              table = no_entries;
              most_capacity = 2 ^ 30 - 1;
              announced = 0;
              limit = 0;
              known_received = 0;
              blocking_counts = [];
              tracked = [];
              canceled = none_canceled None;
              counts_acknowledgments = false;
              choices = no_choices;
              marks = no_marks;
            } }
    {
        DynamicTable {
            entries: Entries::new(alloc),
            names: Index::new(alloc),
            fields: Index::new(alloc),
            tracking: Tracking::new(alloc),
            canceled: CanceledStreams::new(alloc, None),
            most_capacity: MAX_CAPACITY,
            announced: 0,
            limit: 0,
            blocking: BlockingCounts::new(alloc),
            counts_acknowledgments: false,
            choices: EncoderChoices {
                economical: false,
                guards_secrets: false,
                shortest_strings: false,
            },
            marks: Marks::new(),
            alloc,
        }
    }

    pub(crate) fn into_entries(self) -> Entries
        ensures value { result ≡ self.table }
        ensures small { result.capacity < 2 ^ 30 }
    {
        self.entries.capacity();
        self.entries
    }

    /// The allocator from which the table takes its memory.
    pub(crate) fn alloc(&self) -> Global {
        self.alloc
    }

    pub(crate) fn capacity(&self) -> usize
        ensures value { result ≡ self.now.table.capacity }
        ensures small { result < 2 ^ 30 }
    {
        self.entries.capacity()
    }

    /// The greatest capacity that the decoder announced, by which required insert counts are encoded.
    pub(crate) fn announced(&self) -> usize
        ensures value { result ≡ self.now.announced }
    {
        self.announced
    }

    /// The most that the table may have.
    pub(crate) fn most_capacity(&self) -> usize
        ensures { result ≡ self.now.most_capacity }
    {
        self.most_capacity
    }

    /// From now on the table is not given a greater capacity than this by what a decoder announces.
    pub(crate) fn limit_capacity(&mut self, most: usize)
        ensures { self.new ≡ record self.old { most_capacity = most } }
    {
        self.most_capacity = most;
    }

    pub(crate) fn inserted(&self) -> usize
        ensures value { result ≡ self.now.table.inserted }
        ensures small { result < 2 ^ 62 }
    {
        self.entries.inserted()
    }

    pub(crate) fn evicted(&self) -> usize
        ensures value { result ≡ evicted self.now.table }
        ensures small { result ≤ self.now.table.inserted }
    {
        self.entries.evicted()
    }

    /// How many insertions are known to be received.
    pub(crate) fn known_received(&self) -> usize
        ensures { result ≡ self.now.known_received }
    {
        self.blocking.known_received()
    }

    /// How many sections may be blocked at the decoder.
    pub fn blocks_out(&self) -> usize
        ensures { result ≡ length self.now.blocking_counts }
    {
        self.blocking.len()
    }

    pub(crate) fn limit(&self) -> usize
        ensures { result ≡ self.now.limit }
    {
        self.limit
    }

    /// The entry of that number, if it is there.
    pub(crate) fn get(&self, number: usize) -> Option<Entry<'_>>
        ensures value { result ≡ entry_at self.now.table number }
        ensures beyond { (n : ℕ) → 2 ^ 62 ≤ n → entry_at self.now.table n ≡ None }
    {
        self.entries.get(number)
    }

    /// The table as the lines of a section with this base name its entries.
    pub fn decoder(&self, base: usize) -> DynamicTableDecoder<'_>
        ensures { result ≡ record { table = self.now.table; base = base } }
    {
        DynamicTableDecoder::new(self, base)
    }

    /// The table with a section of this stream under way, which is then committed or released.
    pub fn encoder(&mut self, stream: u64) -> DynamicTableEncoder<'_>
        ensures same_reference { result.table.ghost_name ≡ self.entry.ghost_name }
        ensures table { result.table.now ≡ self.old }
        ensures stream { result.stream ≡ stream }
        ensures section { result.section ≡ begun self.old }
    {
        DynamicTableEncoder::new(self, stream)
    }

    /// The numbers that the table keeps are small. It does nothing: a proof that needs the fact calls it.
    pub(crate) fn is_small(&self)
        ensures { IsSmall self.now }
    {
        // (for the proof: what each of these says of its answer)
        self.tracking.names_entries();
        self.entries.inserted();
        self.entries.size();
    }

    pub(crate) fn newest(
        &self,
        what: Match,
        field: &FieldRef<'_>,
        above: usize,
        most: usize,
    ) -> Option<usize>
        requires { evicted self.now.table ≤ above }
        ensures value { result ≡ newest_in self.now.table (matches what field.now) above most }
        ensures within { IfSome result (λ n. (above < n) × (n ≤ most) × (n ≤ self.now.table.inserted)) }
    {
        // if none may be named that is there, no chain is followed: it may have all entries of a name
        if most <= above {
            return None;
        }
        match what {
            Match::Name => self.entries.newest(&self.names, what, field, above, most),
            Match::Field => self.entries.newest(&self.fields, what, field, above, most),
        }
    }

    /// Sets how many sections may be blocked at the decoder, at most 65535.
    pub fn set_max_blocked(&mut self, limit: usize) -> Result<(), Error>
        ensures ok { OnOk result ((limit ≤ 65535) × (self.new ≡ record self.old { limit = limit })) }
        ensures err { IfErr result (λ e. (65535 < limit) × (e ≡ MaxBlockedStreamsTooLarge) × (self.new ≡ self.old)) }
    {
        if limit > MAX_BLOCKED {
            return Err(Error::MaxBlockedStreamsTooLarge);
        }
        self.limit = limit;
        Ok(())
    }

    /// Sets the capacity, at most 2^30 - 1, as the one that the decoder announced: the oldest entries are evicted, unless a tracked
    /// section names one of them.
    pub fn set_max_size(&mut self, size: usize) -> Result<(), Error>
        ensures ok { OnOk result
            (MayHaveCapacity self.old size × (self.new ≡ record self.old { table = with_capacity self.old.table size; announced = size })) }
        ensures err { IfErr result (λ e. IsCapacityRefusal self.old size e × (self.new ≡ self.old)) }
    {
        let after = self.evicted_with_capacity(size)?;
        let count = after - self.entries.evicted();
        self.entries.set_capacity(size);
        self.announced = size;
        self.names.evict_oldest(count);
        self.fields.evict_oldest(count);
        self.tracking.drop_to(after);
        Ok(())
    }

    // RFC 9204 3.2.3: capacity of the local encoder's table
    /// Takes what the decoder of a table without entries announced, a capacity and how many sections may be blocked there. The table gets
    /// the lesser of that capacity and the most that it may have.
    pub(crate) fn use_announced(&mut self, announced: usize, limit: usize)
        requires empty { self.old.table.inserted ≡ 0 }
        requires small { announced < 2 ^ 30 }
        requires few { limit ≤ 65535 }
        ensures { self.new ≡ record
            self.old { table = with_capacity self.old.table (min self.old.most_capacity announced); announced = announced; limit = limit } }
    {
        self.entries.evicted();
        self.entries.set_capacity(self.most_capacity.min(announced));
        self.announced = announced;
        self.limit = limit;
    }

    /// How many entries are evicted once the table has this capacity, if it may have it.
    pub(crate) fn evicted_with_capacity(&self, size: usize) -> Result<usize, Error>
        ensures ok { IfOk result
            (λ n. MayHaveCapacity self.now size × (n ≡ evicted (with_capacity self.now.table size)) × (evicted self.now.table ≤ n)
            × (n ≤ self.now.table.inserted)) }
        ensures err { IfErr result (IsCapacityRefusal self.now size) }
    {
        if size > MAX_CAPACITY {
            return Err(Error::MaximumTableSizeTooLarge);
        }
        let inserted = self.entries.inserted();
        let Some(after) = self.entries.evicted_within(size, inserted) else {
            return Err(Error::MaxTableSizeReached);
        };
        if !self.tracking.is_free_to(after) {
            return Err(Error::MaxTableSizeReached);
        }
        Ok(after)
    }

    /// The sum of the sizes of the entries.
    pub(crate) fn size(&self) -> usize
        ensures value { result ≡ section_size self.now.table.entries }
        ensures small { result ≤ self.now.table.capacity }
    {
        self.entries.size()
    }

    // RFC 9204 2.1.1: entries that may be evicted
    /// How many entries are evicted once the field, which has no flag, is inserted, if it may be inserted. The entries have to be known to
    /// be received, named by no tracked section, and below `oldest`.
    pub(crate) fn room_for(&self, field: &FieldRef<'_>, oldest: usize) -> Option<usize>
        requires plain { field.now.never_indexed ≡ false }
        ensures some { IfSome result
            (λ n. MayInsertInto self.now field.now oldest × (n ≡ evicted (with_entry self.now.table field.now))
            × (evicted self.now.table ≤ n)) }
        ensures none { IfNone result (MayInsertInto self.now field.now oldest → ⊥) }
    {
        if self.entries.inserted() + 1 >= MOST_INSERTIONS
            || size_of(field) > self.entries.capacity()
        {
            return None;
        }
        let evicted = self.entries.evicted();
        let most = self.blocking.known_received().max(evicted);
        let after = self.entries.evicted_after(field, most)?;
        if after >= oldest || !self.tracking.is_free_to(after) {
            return None;
        }
        Some(after)
    }

    /// The number up to which entries drain: the oldest eighth of an economical encoder's capacity.
    pub(crate) fn draining(&self) -> usize
        ensures { result ≡ draining_in self.now }
    {
        if !self.choices.economical {
            return 0;
        }
        let capacity = self.entries.capacity();
        let inserted = self.entries.inserted();
        self.entries.evicted();
        match self
            .entries
            .evicted_within(capacity - capacity / 8, inserted)
        {
            Some(number) => number,
            None => 0,
        }
    }

    /// Whether a field is worth an entry, if an entry of it drains or if none does. An economical encoder inserts again what drains. It
    /// inserts what is the first of its name, what was among the last literals, and anything if nothing would drain.
    pub(crate) fn is_worth(&self, field: &FieldRef<'_>, drains: bool) -> bool
        ensures { result ≡ is_worth_in self.now drains field.now }
    {
        if !self.choices.economical || drains {
            return true;
        }
        let capacity = self.entries.capacity();
        if self.entries.size().saturating_add(size_of(field)) <= capacity - capacity / 8 {
            return true;
        }
        let evicted = self.entries.evicted();
        let inserted = self.entries.inserted();
        match self.newest(Match::Name, field, evicted, inserted) {
            Some(_number) => self.marks.has(field.value()),
            None => true,
        }
    }

    /// Keeps the mark of a field that was written as a literal, if the encoder is economical, its table may have entries, and the field may
    /// be indexed.
    pub(crate) fn note(&mut self, field: &FieldRef<'_>)
        ensures { self.new ≡ noted self.old field.now }
    {
        let keeps_marks = self.choices.economical && self.entries.capacity() > 0;
        if keeps_marks && !field.is_never_indexed() {
            self.marks.add(field.value());
        }
    }

    /// The same as `room_for` for a field that is inserted for later sections alone. The encoder is economical, its sections may never be
    /// blocked, the field is worth an entry, and no entry equals it but such as drain. It also answers up to which number none does.
    pub(crate) fn room_ahead(
        &self,
        field: &FieldRef<'_>,
        section: &Section,
    ) -> Option<(usize, usize)>
        ensures some { IfSome result
            (λ p. MayInsertAhead self.now section.now field.now × (p.0 ≡ evicted (with_entry self.now.table field.now))
            × (evicted self.now.table ≤ p.0)) }
        ensures missed { IfSome result (λ p. IsMissed self.now.table p.1 field.now) }
        ensures none { IfNone result (MayInsertAhead self.now section.now field.now → ⊥) }
    {
        if !self.choices.economical || self.limit != 0 || field.is_never_indexed() {
            return None;
        }
        if size_of(field) > self.entries.capacity() {
            return None;
        }
        let evicted = self.entries.evicted();
        let inserted = self.entries.inserted();
        let equal = self.newest(Match::Field, field, evicted, inserted);
        if equal.unwrap_or(0) > section.draining || !self.is_worth(field, equal.is_some()) {
            return None;
        }
        let after = self.room_for(field, section.oldest)?;
        let searched = if equal.is_some() { 0 } else { inserted };
        Some((after, searched))
    }

    /// The sum of increments grows, and stops at the greatest number. Sections whose insertions are known to be received
    /// wait no more.
    pub fn update_largest_received(&mut self, increment: usize)
        ensures after { self.new ≡ raised self.old increment }
        ensures small { self.old.known_received < 2 ^ 64 }
    {
        self.blocking.raise(increment);
    }

    /// Inserts a field that may be inserted: the oldest entries, up to `after`, are evicted. If an allocation fails nothing changes.
    #[tactic(auto, using(h3_field::specs::FieldLaws::plain_is))]
    pub(crate) fn insert(&mut self, field: &FieldRef<'_>, after: usize) -> Result<(), AllocError>
        requires after { after ≡ evicted (with_entry self.old.table field.now) }
        requires from { evicted self.old.table ≤ after }
        requires plain { field.now.never_indexed ≡ false }
        requires few { self.old.table.inserted + 1 < 2 ^ 62 }
        requires fits { field_size field.now ≤ self.old.table.capacity }
        requires free { is_free_to (evicted (with_entry self.old.table field.now)) self.old.tracked ≡ true }
        ensures ok { OnOk result (self.new ≡ record self.old { table = with_entry self.old.table field.now }) }
        ensures err { OnErr result (self.new ≡ self.old) }
    {
        reserve(&mut self.names, &mut self.fields)?;
        let name = Match::Name.slot(field);
        let whole = Match::Field.slot(field);
        let evicted = self.entries.evicted();
        self.tracking.add_entry()?;
        let Ok(()) = self.entries.insert_copy(field) else {
            self.tracking.remove_entry();
            return Err(AllocError);
        };
        self.tracking.drop_to(after);
        let number = self.entries.inserted();
        self.names.add(name, number);
        self.names.evict_oldest(after - evicted);
        self.fields.add(whole, number);
        self.fields.evict_oldest(after - evicted);
        Ok(())
    }

    /// Counts a section that was written, and tracks it if it names entries. If an allocation fails nothing changes.
    pub(crate) fn track(
        &mut self,
        stream: u64,
        count: usize,
        oldest: usize,
    ) -> Result<(), AllocError>
        requires from { evicted self.old.table < oldest }
        requires to { oldest ≤ self.old.table.inserted }
        ensures ok { OnOk result (self.new ≡ encoder_state_sent self.old stream count oldest) }
        ensures err { OnErr result (self.new ≡ self.old) }
    {
        self.blocking.add(count)?;
        let Ok(()) = self.tracking.track(TrackedSection {
            stream,
            oldest,
            newest: count,
        })
        else {
            self.blocking.remove(count);
            return Err(AllocError);
        };
        Ok(())
    }

    /// From now on an acknowledgment tells of the insertions that its section needs (RFC 9204, section 2.1.4), or does not.
    pub(crate) fn count_acknowledgments(&mut self, counted: bool)
        ensures { self.new ≡ record self.old { counts_acknowledgments = counted } }
    {
        self.counts_acknowledgments = counted;
    }

    /// What the encoder chose.
    #[inline(always)]
    pub(crate) fn choices(&self) -> EncoderChoices
        ensures { result ≡ self.now.choices }
    {
        self.choices
    }

    /// From now on the encoder goes by these choices.
    pub(crate) fn choose(&mut self, choices: EncoderChoices)
        ensures { self.new ≡ record self.old { choices = choices } }
    {
        self.choices = choices;
    }

    /// Whether an increment is 0 or past what was inserted, if acknowledgments count.
    pub(crate) fn refuses_increment(&self, increment: u64) -> bool
        ensures { result ≡ refuses_increment self.now increment }
    {
        if !self.counts_acknowledgments {
            return false;
        }
        let inserted = self.entries.inserted();
        match self
            .blocking
            .known_received()
            .checked_add(increment as usize)
        {
            Some(known) => increment == 0 || inserted < known,
            None => true,
        }
    }

    // RFC 9204 2.1.4: known received count
    /// Releases the oldest tracked section of a stream, and tells whether there was one. If acknowledgments count, the insertions that the
    /// section needs are known to be received then.
    pub(crate) fn acknowledge(&mut self, stream: u64) -> bool
        ensures found { result ≡ list_any (is_of stream) self.old.tracked }
        ensures after { result ≡ true → self.new ≡ encoder_state_after self.old (Acknowledge stream) }
        ensures none { result ≡ false → self.new ≡ self.old }
    {
        let Some(count) = self.tracking.release(stream) else {
            return false;
        };
        if self.counts_acknowledgments {
            let known = self.blocking.known_received();
            self.blocking.raise(count.saturating_sub(known));
        }
        true
    }

    /// From now on at most so many streams are kept of which a cancellation was read, or all; those that were kept are forgotten.
    pub(crate) fn keep_canceled(&mut self, most: Option<usize>)
        ensures { self.new ≡ record self.old { canceled = none_canceled most } }
    {
        self.canceled = CanceledStreams::new(self.alloc, most);
    }

    /// Whether the stream counts as canceled.
    pub(crate) fn is_canceled(&self, stream: u64) -> bool
        ensures { result ≡ was_canceled_in self.now stream }
    {
        if self.canceled.is_kept(stream) {
            return true;
        }
        self.canceled.is_below(stream) && !self.tracking.has(stream)
    }

    /// Whether what is written on the stream names no entry and inserts none: the table may have none, or the stream counts as canceled.
    #[inline(always)]
    pub(crate) fn names_none(&self, stream: u64) -> bool
        ensures { result ≡ ((self.now.table.capacity == 0) || was_canceled_in self.now stream) }
    {
        if self.entries.capacity() == 0 {
            return true;
        }
        self.is_canceled(stream)
    }

    /// Keeps that a cancellation of the stream was read, and releases all its tracked sections. If an allocation fails nothing changes. No
    /// memory is needed if one was read before.
    pub(crate) fn cancel(&mut self, stream: u64) -> Result<(), AllocError>
        ensures ok { OnOk result (self.new ≡ encoder_state_after self.old (CancelStream stream)) }
        ensures err { OnErr result ((self.new ≡ self.old) × (was_canceled_in self.old stream ≡ false)) }
    {
        self.canceled.insert(stream)?;
        self.tracking.release_all(stream);
        Ok(())
    }

    /// Takes back the newest section of a stream, which has that required insert count, as if it had not been sent.
    pub(crate) fn withdraw(&mut self, stream: u64, count: usize)
        ensures { self.new ≡ encoder_state_withdrawn self.old stream count }
    {
        self.blocking.remove(count);
        if count != 0 {
            self.tracking.release_newest(stream);
        }
    }
}
