//! Sets of streams that only grow, such as those of which a cancellation was read (RFC 9204, section 4.4.2).
ghost use Rattle.std.specs.Prelude.{◌≡◌, ◌==◌, ◌<◌, ◌*◌, ◌%◌, ◌^◌, [], false, OnErr, OnOk};
ghost use Rattle.std.specs.List.{list_any};
ghost use Rattle.std.specs.Ordering.{nat_cmp};
ghost use Rattle.std.specs.BTreeSet.{insert_key};
ghost use Rattle.h3_table.specs.StreamSet.{word_of, place_of};

use crate::words::Words;
use std::alloc::{AllocError, Global};
use std::marker::Model;

/// A set of streams by words of 64 bits: 64 request streams, one after the other, share a word.
#[derive(Drop)]
pub struct StreamSet {
    words: Words,
}

impl Model for StreamSet {
    ghost use Rattle.std.specs.Prelude.{ℕ, List};
    ghost use Rattle.h3_table.specs.StreamSet.{streams_in};
    ghost use Rattle.h3_table.specs.Words.{word_at};

    ghost Value = { List ℕ };

    ghost view = { λ s. streams_in (word_at s.words) };

    ghost use Rattle.h3_table.specs.StreamSetInside.{IsSmall};

    ghost invariant = { IsSmall };
}

/// The number of the word in which a stream has its bit. Each 64 streams of one kind (request, push and so on, by the last two bits) have a
/// number of that kind.
fn word_of(stream: u64) -> u64
    ensures { result ≡ word_of stream }
{
    stream / 256 * 4 + stream % 4
}

/// The place of the stream's bit in its word.
fn place_of(stream: u64) -> u32
    ensures value { result ≡ place_of stream }
    ensures within { result < 64 }
{
    (stream / 4 % 64) as u32
}

/// The stream's bit in its word.
fn bit_of(stream: u64) -> u64
    ensures value { result ≡ 1 * 2 ^ place_of stream % 2 ^ 64 }
    ensures some { 0 < result }
{
    1 << place_of(stream)
}

impl StreamSet {
    /// No stream. It takes no memory.
    pub fn new(alloc: Global) -> StreamSet
        ensures { result ≡ [] }
    {
        StreamSet {
            words: Words::new(alloc),
        }
    }

    /// Whether the stream is in the set.
    pub fn contains(&self, stream: u64) -> bool
        ensures { result ≡ list_any (λ other. other == stream) self.now }
    {
        (self.words.get(word_of(stream)) >> place_of(stream)) & 1 == 1
    }

    /// Puts a stream into the set. If an allocation fails, nothing changes. No memory is needed if a stream of the same word is there.
    pub fn insert(&mut self, stream: u64) -> Result<(), AllocError>
        ensures ok { OnOk result (self.new ≡ insert_key nat_cmp self.old stream) }
        ensures err { OnErr result ((self.new ≡ self.old) × (list_any (λ other. other == stream) self.old ≡ false)) }
        ensures room { OnErr result (list_any (λ other. word_of other == word_of stream) self.old ≡ false) }
    {
        let number = word_of(stream);
        let bit = bit_of(stream);
        if self.words.add(number, bit) {
            return Ok(());
        }
        self.words.insert(number, bit)?;
        Ok(())
    }
}
