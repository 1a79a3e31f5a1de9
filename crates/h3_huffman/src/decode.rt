//! Reads Huffman payloads.
ghost use Rattle.std.specs.Prelude.{◌≡◌, ◌↔◌, IsTrue, ◌+◌, ◌-◌, ◌*◌, ◌%◌, ◌^◌, ◌<◌, ◌≤◌, ◌++◌, length, take, drop, replicate, flat_map};
ghost use Rattle.std.specs.Prelude.{is_some, MatchOption};
ghost use Rattle.std.specs.List.{AllByRecursion};
ghost use Rattle.h3_huffman.specs.Huffman.{huffman, bits, code_word};
ghost use Rattle.h3_huffman.specs.Payload.{IsByte, IsNoPayload};
ghost use Rattle.h3_huffman.specs.Unhuffman.{unhuffman};
ghost use Rattle.h3_huffman.specs.Tables.{entry_symbols, entry_count, entry_first, entry_first_length, entry_length, IsEntry};

use crate::tables::{ENTRIES, LENGTHS, LIMITS, OFFSETS, SYMBOLS};

/// The entries from this one on belong to words longer than the index.
const LONG: u64 = 4092;

/// The symbol of the end of a string, which no payload has (RFC 7541, section 5.2).
const END: u16 = 256;

/// The word of a symbol: its length in bits.
#[derive(Copy, Clone)]
struct Word {
    symbol: u16,
    length: u64,
}

/// An entry of the table: one or two symbols, and the lengths of their words, in the bits that the table's comment names.
#[derive(Copy, Clone)]
struct Entry {
    packed: u32,
}

impl Entry {
    /// The symbols, the first one low. If there is one alone, the other means nothing.
    #[inline(always)]
    fn symbols(self) -> u16
        ensures { result ≡ self.packed % 65536 }
    {
        (self.packed % 65536) as u16
    }

    /// The first symbol, which is a byte.
    #[inline(always)]
    fn first(self) -> u8
        ensures { result ≡ entry_first self.packed }
    {
        (self.packed % 256) as u8
    }

    /// The length of all words, in bits.
    #[inline(always)]
    fn length(self) -> u64
        ensures { result ≡ entry_length self.packed }
    {
        u64::from((self.packed >> 16) % 16)
    }

    /// The length of the first symbol's word.
    #[inline(always)]
    fn first_length(self) -> u64
        ensures { result ≡ entry_first_length self.packed }
    {
        u64::from((self.packed >> 20) % 16)
    }

    /// The number of symbols.
    #[inline(always)]
    fn count(self) -> usize
        ensures { result ≡ entry_count self.packed }
    {
        (self.packed >> 24) as usize
    }
}

/// The word at the front of a window of thirty bits that begin with ten ones.
#[cold]
#[inline(never)]
fn long_word(window: u32) -> Word
    requires high { 0x3ff00000 ≤ window }
    requires low { window < 2 ^ 30 }
    ensures word { bits 30 window ≡ code_word result.symbol ++ bits (30 - result.length) window }
    ensures symbol { result.symbol ≤ 256 }
    ensures least { 13 ≤ result.length }
    ensures most { result.length ≤ 30 }
{
    let mut row = 0;
    while window >= LIMITS[row + 1] {
        row += 1;
    }
    let length = LENGTHS[row];
    let place = (window - LIMITS[row]) >> (30 - length);
    Word {
        symbol: SYMBOLS[OFFSETS[row] + place as usize],
        length: u64::from(length),
    }
}

/// The entry of twelve bits.
fn entry_at(index: u64) -> Entry
    requires { index < 4092 }
    ensures { IsEntry index result.packed }
{
    Entry {
        packed: ENTRIES[index as usize],
    }
}

/// The next four bytes, the first one high.
fn word_at(payload: &[u8], place: usize) -> u32
    requires { place + 4 ≤ length payload.now }
    ensures { flat_map (bits 8) (drop place payload.now) ≡ bits 32 result ++ flat_map (bits 8) (drop (place + 4) payload.now) }
{
    u32::from_be_bytes([
        payload[place],
        payload[place + 1],
        payload[place + 2],
        payload[place + 3],
    ])
}

/// Writes the entry's symbols, and returns the place of the next ones.
fn put_symbols(out: &mut [u8], place: usize, entry: Entry) -> usize
    requires room { place + 2 ≤ length out.old }
    requires few { entry_count entry.packed ≤ 2 }
    ensures place { result ≡ place + entry_count entry.packed }
    ensures symbols { take result out.new ≡ take place out.old ++ entry_symbols entry.packed }
{
    // (both at once, whether there is a second one or not)
    out[place..place + 2].copy_from_slice(&entry.symbols().to_le_bytes());
    place + entry.count()
}

// RFC 7541 5.2: Huffman padding
/// Whether the low bits are fewer than eight, and ones.
fn is_padding(acc: u64, count: u64) -> bool
    requires { count < 64 }
    ensures { IsTrue result ↔ (count < 8) × (bits count acc ≡ replicate count 1) }
{
    let mask = (1 << count) - 1;
    count < 8 && acc & mask == mask
}

/// The word at the front of a window of thirty bits.
fn first_word(window: u32) -> Word
    requires { window < 2 ^ 30 }
    ensures word { bits 30 window ≡ code_word result.symbol ++ bits (30 - result.length) window }
    ensures symbol { result.symbol ≤ 256 }
    ensures least { 5 ≤ result.length }
    ensures most { result.length ≤ 30 }
{
    let index = u64::from(window >> 18);
    if index >= LONG {
        return long_word(window);
    }
    let entry = entry_at(index);
    Word {
        symbol: u16::from(entry.first()),
        length: entry.first_length(),
    }
}

/// Whether the payload is the Huffman encoding of a string. It takes one symbol at a time and writes none, so it asks for
/// no memory, and is slower than `decode_into`.
pub fn is_encoding(payload: &[u8]) -> bool
    ensures { result ≡ is_some (unhuffman payload.now) }
{
    let mut acc: u64 = 0;
    let mut count: u64 = 0;
    let mut read: usize = 0;
    // (the label names the loop in its proof)
    'reading: while read < payload.len() {
        acc = acc << 8 | u64::from(payload[read]);
        count += 8;
        read += 1;
        // (the label names the loop in its proof)
        'symbols: while count >= 30 {
            let first = first_word(((acc >> (count - 30)) % (1 << 30)) as u32);
            if first.symbol == END {
                return false;
            }
            count -= first.length;
        }
    }
    let wide = acc << 32 | 0xffff_ffff;
    // (the label names the loop in its proof)
    'ending: while !is_padding(acc, count) {
        let first = first_word(((wide >> (count + 2)) % (1 << 30)) as u32);
        if first.symbol == END || first.length > count {
            return false;
        }
        count -= first.length;
    }
    true
}

/// Writes the string whose Huffman encoding the payload is to the front of `out`, and says how long it is.
pub fn decode_into(payload: &[u8], out: &mut [u8]) -> Option<usize>
    requires room { 8 * length payload.now + 10 ≤ 5 * length out.old }
    ensures whole { MatchOption result (IsNoPayload payload.now)
        (λ n. (n ≤ length out.new) × AllByRecursion IsByte (take n out.new) × (payload.now ≡ huffman (take n out.new))) }
{
    let mut acc: u64 = 0;
    let mut count: u64 = 0;
    let mut read: usize = 0;
    let mut written: usize = 0;
    // (the label names the loop in its proof)
    'reading: while read < payload.len() {
        if payload.len() - read >= 4 {
            acc = acc << 32 | u64::from(word_at(payload, read));
            count += 32;
            read += 4;
        } else {
            acc = acc << 8 | u64::from(payload[read]);
            count += 8;
            read += 1;
        }
        // (the label names the loop in its proof)
        'symbols: while count >= 30 {
            let index = (acc >> (count - 12)) % 4096;
            if index < LONG {
                let entry = entry_at(index);
                written = put_symbols(out, written, entry);
                count -= entry.length();
            } else {
                let word = long_word(((acc >> (count - 30)) % (1 << 30)) as u32);
                if word.symbol == END {
                    return None;
                }
                out[written] = word.symbol as u8;
                written += 1;
                count -= word.length;
            }
        }
    }
    let wide = acc << 32 | 0xffff_ffff;
    // (the label names the loop in its proof)
    'ending: while !is_padding(acc, count) {
        let index = (wide >> (count + 20)) % 4096;
        if index < LONG {
            let entry = entry_at(index);
            let length = entry.length();
            let first_length = entry.first_length();
            if length <= count {
                written = put_symbols(out, written, entry);
                count -= length;
            } else if first_length <= count {
                out[written] = entry.first();
                written += 1;
                count -= first_length;
            } else {
                return None;
            }
        } else {
            let word = long_word(((wide >> (count + 2)) % (1 << 30)) as u32);
            if word.symbol == END || word.length > count {
                return None;
            }
            out[written] = word.symbol as u8;
            written += 1;
            count -= word.length;
        }
    }
    Some(written)
}
