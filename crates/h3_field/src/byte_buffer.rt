//! Bytes in a block of memory that serves again.
ghost use Rattle.std.specs.Prelude.{◌≡◌, ◌+◌, ◌*◌, ◌-◌, ◌≤◌, ◌++◌, [], length, take, drop, true, OnOk, OnErr, IfSome, vec_len};
ghost use Rattle.h3_field.specs.ByteBuffer.{DecodesBehind};
ghost use Rattle.h3_field.specs.OntoAnswer.{AppendsString};

use crate::first_room::SOME_BYTES;
use crate::prefix_string::{Error, refusal_of_encoded};
use std::alloc::{AllocError, Global};
use std::marker::Model;

/// Bytes at the front of a block of memory that serves again. The block is filled with zeros once, when it is taken. What lies after the
/// bytes in use means nothing, so that no fill precedes what is appended. A contract sees the bytes in use.
#[derive(Drop)]
pub(crate) struct ByteBuffer {
    block: Vec<u8>,
    used: usize,
}

impl Model for ByteBuffer {
    ghost use Rattle.std.specs.Prelude.{List, ℕ, ◌≤◌, length, take};

    ghost Value = { List ℕ };

    ghost view = { λ b. take b.used b.block.items };

    ghost invariant = { λ b. b.used ≤ length b.block.items };
}

impl ByteBuffer {
    /// No bytes. It takes no memory.
    pub(crate) fn new(alloc: Global) -> ByteBuffer
        ensures { result ≡ [] }
    {
        ByteBuffer {
            block: Vec::new(alloc),
            used: 0,
        }
    }

    /// How many bytes there are.
    pub(crate) fn len(&self) -> usize
        ensures { result ≡ length self.now }
    {
        self.used
    }

    /// How many bytes the block has room for.
    pub(crate) fn capacity(&self) -> usize {
        self.block.capacity()
    }

    /// The bytes.
    pub(crate) fn as_slice(&self) -> &[u8]
        ensures { result.now ≡ self.now }
    {
        &self.block[..self.used]
    }

    /// Lets all bytes but so many at the front go. Their memory stays.
    pub(crate) fn truncate(&mut self, len: usize)
        requires { len ≤ length self.old }
        ensures { self.new ≡ take len self.old }
    {
        self.used = len;
    }

    /// Appends bytes. A refusal appends nothing.
    #[inline(always)]
    pub(crate) fn append(&mut self, bytes: &[u8]) -> Result<(), AllocError>
        ensures ok { OnOk result (self.new ≡ self.old ++ bytes.now) }
        ensures err { OnErr result (self.new ≡ self.old) }
    {
        make_room(&mut self.block, self.used, bytes.len())?;
        self.used = put(&mut self.block, self.used, bytes);
        Ok(())
    }

    /// Appends the string of a Huffman encoding. A refusal appends nothing.
    #[inline(always)]
    pub(crate) fn append_decoded(&mut self, encoded: &[u8]) -> Result<(), Error>
        ensures { AppendsString (record { is_huffman = true; bytes = encoded.now }) self.old self.new result }
    {
        // a code word has at least five bits, and the decoder writes two symbols at a time
        let room = encoded.len() / 5 * 8 + 12;
        let Ok(()) = make_room(&mut self.block, self.used, room) else {
            return Err(refusal_of_encoded(encoded));
        };
        let Some(end) = put_decoded(&mut self.block, self.used, encoded) else {
            return Err(Error::HuffmanDecoding);
        };
        self.used = end;
        Ok(())
    }
}

/// Makes a block so long that so many bytes more have room after those in use. A refusal changes nothing of these.
#[inline(always)]
fn make_room(block: &mut Vec<u8>, used: usize, more: usize) -> Result<(), AllocError>
    requires { used ≤ vec_len block.old }
    ensures kept { take used block.new.items ≡ take used block.old.items }
    ensures within { used ≤ vec_len block.new }
    ensures room { OnOk result (used + more ≤ vec_len block.new) }
{
    if more <= block.len() - used {
        return Ok(());
    }
    grow(block, used, more)
}

/// The same for a block that is too short: it is at least doubled.
#[cold]
#[inline(never)]
fn grow(block: &mut Vec<u8>, used: usize, more: usize) -> Result<(), AllocError>
    requires { used ≤ vec_len block.old }
    ensures kept { take used block.new.items ≡ take used block.old.items }
    ensures within { used ≤ vec_len block.new }
    ensures room { OnOk result (used + more ≤ vec_len block.new) }
{
    block.reserve(more.max(SOME_BYTES))?;
    let whole = block.capacity();
    block.resize(whole, 0)
}

/// Copies bytes to a place of a block, and returns the place after them.
#[inline(always)]
fn put(block: &mut [u8], place: usize, bytes: &[u8]) -> usize
    requires { place + length bytes.now ≤ length block.old }
    ensures end { result ≡ place + length bytes.now }
    ensures bytes { take result block.new ≡ take place block.old ++ bytes.now }
    ensures same { length block.new ≡ length block.old }
{
    let end = place + bytes.len();
    block[place..end].copy_from_slice(bytes);
    end
}

/// Writes the string of a Huffman encoding to a place of a block, and returns the place after it. None: it is no encoding.
#[inline(always)]
fn put_decoded(block: &mut [u8], place: usize, encoded: &[u8]) -> Option<usize>
    requires within { place ≤ length block.old }
    requires room { 8 * length encoded.now + 10 ≤ 5 * (length block.old - place) }
    ensures decodes { DecodesBehind place encoded.now block.old block.new result }
    ensures kept { take place block.new ≡ take place block.old }
    ensures same { length block.new ≡ length block.old }
{
    let len = h3_huffman::decode::decode_into(encoded, &mut block[place..])?;
    Some(place + len)
}
