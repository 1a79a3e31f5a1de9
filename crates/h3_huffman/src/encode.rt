//! Writes Huffman payloads.
ghost use Rattle.std.specs.Prelude.{◌≡◌, ℕ, List, ◌+◌, ◌*◌, ◌/◌, ◌^◌, ◌<◌, ◌≤◌, ◌++◌, IfSome, take, length, flat_map};
ghost use Rattle.std.specs.Int.{w32, w64, to_be_bytes};
ghost use Rattle.h3_huffman.specs.Huffman.{huffman, code_word};
ghost use Rattle.h3_huffman.specs.Writing.{IsHighWord, IsPending};

use crate::byte_words::{WORD_LENGTHS, WORDS};

/// How many bits the word of a byte has.
fn word_len(byte: u8) -> u64
    ensures value { result ≡ length (code_word byte) }
    ensures least { 5 ≤ result }
    ensures most { result ≤ 30 }
{
    let length = WORD_LENGTHS[byte as usize];
    u64::from(length)
}

/// The word of a byte, at the high end of 64 bits.
fn word_of(byte: u8) -> u64
    ensures { IsHighWord byte result }
{
    WORDS[byte as usize]
}

/// Writes the four bytes of a number, the high one first.
fn put_word(out: &mut [u8], place: usize, word: u32)
    requires { place + 4 ≤ length out.old }
    ensures { take (place + 4) out.new ≡ take place out.old ++ to_be_bytes w32 word }
{
    out[place..place + 4].copy_from_slice(&word.to_be_bytes());
}

/// Writes the eight bytes of a number, the high one first.
fn put_eight(out: &mut [u8], place: usize, number: u64)
    requires { place + 8 ≤ length out.old }
    ensures { take (place + 8) out.new ≡ take place out.old ++ to_be_bytes w64 number }
{
    out[place..place + 8].copy_from_slice(&number.to_be_bytes());
}

/// How many bits the words of a string have, if their sum fits 64 bits.
fn word_bits(plain: &[u8]) -> u64
    requires { length plain.now < 2 ^ 58 }
    ensures value { result ≡ length (flat_map code_word plain.now) }
    ensures most { result ≤ 30 * length plain.now }
{
    let mut total: u64 = 0;
    for byte in plain {
        total += word_len(*byte);
    }
    total
}

/// How many bits the words of a very long string have.
fn wide_word_bits(plain: &[u8]) -> u128
    requires { length plain.now < 2 ^ 62 }
    ensures value { result ≡ length (flat_map code_word plain.now) }
    ensures most { result ≤ 30 * length plain.now }
{
    let mut total: u128 = 0;
    for byte in plain {
        total += u128::from(word_len(*byte));
    }
    total
}

/// How many bytes the Huffman encoding of a string has.
#[tactic(auto, using(crate::proofs::Writing::huffman_length))]
pub fn payload_len(plain: &[u8]) -> usize
    requires { length plain.now < 2 ^ 62 }
    ensures value { result ≡ length (huffman plain.now) }
    ensures most { result ≤ 4 * length plain.now }
{
    if plain.len() < 1 << 58 {
        ((word_bits(plain) + 7) / 8) as usize
    } else {
        ((wide_word_bits(plain) + 7) / 8) as usize
    }
}

/// What is not yet written: the high `count` bits of `acc`, which go to `out[written]` on. The bits below them are 0. So a word is put
/// after them by one shift, which waits for the lengths of those before it alone.
#[derive(Copy, Clone)]
struct Pending {
    acc: u64,
    count: u64,
    written: usize,
}

/// Writes the first four bytes of what is pending, if there are so many.
#[inline(always)]
fn flush(out: &mut [u8], before: Pending) -> Pending
    requires few { before.count < 64 }
    requires room { 8 * before.written + before.count ≤ 8 * length out.old }
    ensures standing { (plain : List ℕ) (index : ℕ) → IsPending plain out.old index before.acc before.count before.written
        → IsPending plain out.new index result.acc result.count result.written }
    ensures few { result.count < 32 }
    ensures same { length out.new ≡ length out.old }
{
    if before.count < 32 {
        return before;
    }
    put_word(out, before.written, (before.acc >> 32) as u32);
    Pending {
        acc: before.acc << 32,
        count: before.count - 32,
        written: before.written + 4,
    }
}

/// Adds the words of four bytes. None: with them the bits are more than 63.
#[inline(always)]
fn add_four(plain: &[u8], place: usize, before: Pending) -> Option<Pending>
    requires there { place + 4 ≤ length plain.now }
    requires few { before.count < 32 }
    ensures standing { IfSome result
        (λ ahead. (out : List ℕ) → IsPending plain.now out place before.acc before.count before.written
        → IsPending plain.now out (place + 4) ahead.acc ahead.count ahead.written) }
    ensures fits { IfSome result (λ ahead. ahead.count < 64) }
{
    let first_end = before.count + word_len(plain[place]);
    let second_end = first_end + word_len(plain[place + 1]);
    let third_end = second_end + word_len(plain[place + 2]);
    let count = third_end + word_len(plain[place + 3]);
    if count >= 64 {
        return None;
    }
    let first = before.acc | word_of(plain[place]) >> before.count;
    let second = first | word_of(plain[place + 1]) >> first_end;
    let third = second | word_of(plain[place + 2]) >> second_end;
    let acc = third | word_of(plain[place + 3]) >> third_end;
    Some(Pending {
        acc,
        count,
        written: before.written,
    })
}

/// Adds the word of one byte, and writes four bytes if so many are pending.
#[inline(always)]
fn put_one(plain: &[u8], place: usize, out: &mut [u8], before: Pending) -> Pending
    requires there { place < length plain.now }
    requires few { before.count < 32 }
    requires standing { IsPending plain.now out.old place before.acc before.count before.written }
    ensures standing { IsPending plain.now out.new (place + 1) result.acc result.count result.written }
    ensures few { result.count < 32 }
    ensures same { length out.new ≡ length out.old }
{
    let ahead = Pending {
        acc: before.acc | word_of(plain[place]) >> before.count,
        count: before.count + word_len(plain[place]),
        written: before.written,
    };
    flush(out, ahead)
}

/// Writes the whole bytes of what is pending. It writes eight bytes, of which those that follow are written again later.
#[inline(always)]
fn flush_bytes(out: &mut [u8], before: Pending) -> Pending
    requires few { before.count < 64 }
    requires room { before.written + 8 ≤ length out.old }
    ensures standing { (plain : List ℕ) (index : ℕ) → IsPending plain out.old index before.acc before.count before.written
        → IsPending plain out.new index result.acc result.count result.written }
    ensures few { result.count < 8 }
    ensures same { length out.new ≡ length out.old }
{
    put_eight(out, before.written, before.acc);
    let count = before.count % 8;
    Pending {
        acc: before.acc << (before.count - count),
        count,
        written: before.written + (before.count / 8) as usize,
    }
}

/// Writes the words of two bytes after fewer than eight pending bits, save for the last bits of fewer than eight. The two words are
/// joined first: so what is pending is needed late, and there is no branch.
#[inline(always)]
fn put_two(plain: &[u8], place: usize, out: &mut [u8], before: Pending) -> Pending
    requires there { place + 2 ≤ length plain.now }
    requires few { before.count < 8 }
    requires room { before.written + 8 ≤ length out.old }
    requires standing { IsPending plain.now out.old place before.acc before.count before.written }
    ensures standing { IsPending plain.now out.new (place + 2) result.acc result.count result.written }
    ensures few { result.count < 8 }
    ensures same { length out.new ≡ length out.old }
{
    let first_len = word_len(plain[place]);
    let both_len = first_len + word_len(plain[place + 1]);
    let both = word_of(plain[place]) | word_of(plain[place + 1]) >> first_len;
    put_eight(out, before.written, before.acc | both >> before.count);
    let total = before.count + both_len;
    let count = total % 8;
    Pending {
        acc: both << (both_len - count),
        count,
        written: before.written + (total / 8) as usize,
    }
}

/// How far words were written: those of the bytes before `place`, save for the pending bits.
#[derive(Copy, Clone)]
struct Front {
    pending: Pending,
    place: usize,
}

/// Writes the words of a string four bytes at a time, up to four that have more bits than are free, or the last three.
#[inline(always)]
fn put_fours(plain: &[u8], out: &mut [u8]) -> Front
    requires { length (huffman plain.now) ≤ length out.old }
    ensures standing { IsPending plain.now out.new result.place result.pending.acc result.pending.count result.pending.written }
    ensures few { result.pending.count < 32 }
    ensures within { result.place ≤ length plain.now }
    ensures same { length out.new ≡ length out.old }
{
    let mut pending = Pending {
        acc: 0,
        count: 0,
        written: 0,
    };
    let mut place: usize = 0;
    // (the label names the loop in its proof)
    'fours: while place + 4 <= plain.len() {
        let Some(ahead) = add_four(plain, place, pending) else {
            break;
        };
        pending = flush(out, ahead);
        place += 4;
    }
    Front { pending, place }
}

/// Writes the words of the rest of a string one after another, save for the last bits of fewer than four bytes.
#[inline(always)]
fn put_rest(plain: &[u8], from: usize, out: &mut [u8], before: Pending) -> Pending
    requires there { from ≤ length plain.now }
    requires few { before.count < 32 }
    requires standing { IsPending plain.now out.old from before.acc before.count before.written }
    ensures standing { IsPending plain.now out.new (length plain.now) result.acc result.count result.written }
    ensures few { result.count < 32 }
    ensures same { length out.new ≡ length out.old }
{
    let mut pending = before;
    let mut place = from;
    // (the label names the loop in its proof)
    'ones: while place < plain.len() {
        pending = put_one(plain, place, out, pending);
        place += 1;
    }
    pending
}

/// Writes what is pending with ones after it, as four bytes, and returns the length of all that is written.
#[inline(always)]
fn put_last(out: &mut [u8], before: Pending) -> usize
    requires few { before.count < 32 }
    requires room { before.written + 4 ≤ length out.old }
    ensures payload { (plain : List ℕ) → IsPending plain out.old (length plain) before.acc before.count before.written
        → take result out.new ≡ huffman plain }
    ensures value { result ≡ before.written + (before.count + 7) / 8 }
    ensures same { length out.new ≡ length out.old }
{
    let last = before.acc >> 32 | 0xffff_ffff >> before.count;
    put_word(out, before.written, (last % (1 << 32)) as u32);
    before.written + ((before.count + 7) / 8) as usize
}

/// Writes the rest of a string whose words are long: two bytes at a time, which costs less than a try of four that fails. (A function of
/// its own: the loop over short words needs the registers.)
#[inline(never)]
fn encode_long(plain: &[u8], from: usize, out: &mut [u8], before: Pending) -> usize
    requires there { from + 4 ≤ length plain.now }
    requires few { before.count < 32 }
    requires room { 4 * length plain.now + 4 ≤ length out.old }
    requires standing { IsPending plain.now out.old from before.acc before.count before.written }
    ensures payload { take result out.new ≡ huffman plain.now }
    ensures value { result ≡ length (huffman plain.now) }
    ensures same { length out.new ≡ length out.old }
{
    let mut pending = flush_bytes(out, before);
    let mut place = from;
    let end = plain.len() - 3;
    // (the label names the loop in its proof)
    'pairs: while place < end {
        pending = put_two(plain, place, out, pending);
        pending = put_two(plain, place + 2, out, pending);
        place += 4;
    }
    let whole = put_rest(plain, place, out, pending);
    put_last(out, whole)
}

/// Writes the Huffman encoding of a string.
pub fn encode_into(plain: &[u8], out: &mut [u8])
    requires { length out.old ≡ length (huffman plain.now) }
    ensures { out.new ≡ huffman plain.now }
{
    let front = put_fours(plain, out);
    let Pending {
        acc: high,
        mut count,
        mut written,
    } = put_rest(plain, front.place, out, front.pending);
    let acc = high >> 32 >> (32 - count);
    // (the label names the loop in its proof)
    'last: while count >= 8 {
        count -= 8;
        out[written] = ((acc >> count) % 256) as u8;
        written += 1;
    }
    if count > 0 {
        out[written] = ((acc << (8 - count) | 255 >> count) % 256) as u8;
    }
}

/// Writes the Huffman encoding of a string to the front of `out`, and returns its length. It needs no length before and has no loop over
/// the last bytes, so it is the faster one for short strings. It may write some bytes after the encoding.
pub fn encode_front(plain: &[u8], out: &mut [u8]) -> usize
    requires { 4 * length plain.now + 4 ≤ length out.old }
    ensures payload { take result out.new ≡ huffman plain.now }
    ensures value { result ≡ length (huffman plain.now) }
    ensures most { result ≤ 4 * length plain.now }
    ensures same { length out.new ≡ length out.old }
{
    let front = put_fours(plain, out);
    if front.place + 4 <= plain.len() {
        return encode_long(plain, front.place, out, front.pending);
    }
    let whole = put_rest(plain, front.place, out, front.pending);
    put_last(out, whole)
}
