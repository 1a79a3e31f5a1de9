//! The bytes of a string, before they are decoded.
ghost use Rattle.std.specs.Prelude.{◌≡◌, ◌+◌, ◌-◌, ◌≤◌, is_some, true, IfOk, vec_len, vec_capacity};
ghost use Rattle.h3_field.specs.Ends.{IsEndOf};
ghost use Rattle.h3_field.specs.Room.{HasRoom};
ghost use Rattle.h3_field.specs.StringReading.{string};
ghost use Rattle.h3_field.specs.Values.{string_of};
ghost use Rattle.h3_field.specs.StringAnswer.{AnswersPayload, AnswersBytes};
ghost use Rattle.h3_field.specs.OntoAnswer.{AppendsString, IsRefusedString};

use crate::byte_buffer::ByteBuffer;
use crate::cursor::SliceCursor;
use crate::octets::are_bytes;
use crate::prefix_int;
use crate::prefix_string::Error;
use std::alloc::{AllocError, Global};
use std::marker::Model;

/// The bytes of a string, and whether they are Huffman coded.
#[derive(Drop)]
pub(crate) struct Payload<'a> {
    is_huffman: bool,
    bytes: &'a [u8],
}

impl<'a> Model for Payload<'a> {
    ghost use Rattle.h3_field.specs.StringReading.{Payload};

    ghost Value = { Payload };

    ghost view = { λ p. record { is_huffman = p.is_huffman; bytes = p.bytes.now } };
}

/// Takes a string from the front, not yet decoded: the flags above the bit H, and its payload. Nothing is taken if there is none.
pub(crate) fn take_payload<'a>(
    size: u8,
    buf: &mut SliceCursor<'a>,
) -> Result<(u8, Payload<'a>), prefix_int::Error>
    requires least { 2 ≤ size }
    requires most { size ≤ 8 }
    ensures answer { AnswersPayload (string size buf.old) buf.old buf.new result }
    ensures rest { IsEndOf buf.old buf.new }
{
    let mut ahead = SliceCursor::new(buf.chunk());
    let (head, len) = prefix_int::decode(size - 1, &mut ahead)?;
    if len > ahead.remaining() as u64 {
        return Err(prefix_int::Error::UnexpectedEnd);
    }
    let bytes = &ahead.chunk()[..len as usize];
    ahead.advance(len as usize);
    *buf = ahead;
    Ok((
        head / 2,
        Payload {
            is_huffman: head % 2 == 1,
            bytes,
        },
    ))
}

/// A copy of bytes, in a block with room for `spare` bytes more.
fn copy_with_room(alloc: Global, bytes: &[u8], spare: usize) -> Result<Vec<u8>, AllocError>
    ensures items { IfOk result (λ copy. copy.items ≡ bytes.now) }
    ensures room { IfOk result (λ copy. vec_len copy + spare ≤ vec_capacity copy) }
{
    let mut copy = Vec::with_capacity(alloc, bytes.len().saturating_add(spare))?;
    copy.extend_from_slice(bytes)?;
    Ok(copy)
}

/// So many zeros, in a block with room for `spare` bytes more.
fn zeros_with_room(alloc: Global, count: usize, spare: usize) -> Result<Vec<u8>, AllocError>
    ensures len { IfOk result (λ zeros. vec_len zeros ≡ count) }
    ensures room { IfOk result (λ zeros. count + spare ≤ vec_capacity zeros) }
{
    let mut zeros = Vec::with_capacity(alloc, count.saturating_add(spare))?;
    zeros.resize(count, 0)?;
    Ok(zeros)
}

impl<'a> Payload<'a> {
    /// The bytes, before they are decoded.
    pub(crate) fn encoded(&self) -> &'a [u8]
        ensures { result.now ≡ self.now.bytes }
    {
        self.bytes
    }

    pub(crate) fn is_huffman(&self) -> bool
        ensures { result ≡ self.now.is_huffman }
    {
        self.is_huffman
    }

    /// The string that it stands for, in a block with room for `spare` bytes more. The empty string has no block.
    pub(crate) fn to_bytes(&self, alloc: Global, spare: usize) -> Result<Vec<u8>, Error>
        ensures answer { AnswersBytes self.now result }
        ensures room { IfOk result (λ bytes. HasRoom spare bytes) }
    {
        let encoded = self.bytes;
        are_bytes(encoded);
        if encoded.is_empty() {
            return Ok(Vec::new(alloc));
        }
        if !self.is_huffman {
            return Ok(copy_with_room(alloc, encoded, spare)?);
        }
        decode_payload(alloc, encoded, spare)
    }

    /// Appends the string that it stands for. A refusal appends nothing.
    #[inline(always)]
    pub(crate) fn append_to(&self, bytes: &mut ByteBuffer) -> Result<(), Error>
        ensures { AppendsString self.now bytes.old bytes.new result }
    {
        let encoded = self.bytes;
        are_bytes(encoded);
        if self.is_huffman {
            return bytes.append_decoded(encoded);
        }
        bytes.append(encoded)?;
        Ok(())
    }

    /// Whether it stands for a string. It asks for no memory.
    pub(crate) fn is_string(&self) -> bool
        ensures { result ≡ is_some (string_of self.now) }
    {
        let encoded = self.bytes;
        are_bytes(encoded);
        !self.is_huffman || h3_huffman::decode::is_encoding(encoded)
    }
}

/// The string of a Huffman encoding, in a block with room for `spare` bytes more. What is no encoding is refused as such, whether there
/// is memory or not.
pub(crate) fn decode_payload(alloc: Global, encoded: &[u8], spare: usize) -> Result<Vec<u8>, Error>
    ensures answer { AnswersBytes (record { is_huffman = true; bytes = encoded.now }) result }
    ensures room { IfOk result (λ bytes. HasRoom spare bytes) }
{
    if encoded.is_empty() {
        return Ok(Vec::new(alloc));
    }
    // a code word has at least five bits, and the decoder writes two symbols at a time
    let room = encoded.len() / 5 * 8 + 12;
    let Ok(mut bytes) = zeros_with_room(alloc, room, spare) else {
        if h3_huffman::decode::is_encoding(encoded) {
            return Err(Error::OutOfMemory);
        }
        return Err(Error::HuffmanDecoding);
    };
    let Some(len) = h3_huffman::decode::decode_into(encoded, &mut bytes) else {
        return Err(Error::HuffmanDecoding);
    };
    bytes.truncate(len);
    Ok(bytes)
}

/// Why the string of a Huffman encoding is refused for which there is no memory.
pub(crate) fn refusal_of_encoded(encoded: &[u8]) -> Error
    ensures { IsRefusedString (record { is_huffman = true; bytes = encoded.now }) result }
{
    if h3_huffman::decode::is_encoding(encoded) {
        return Error::OutOfMemory;
    }
    Error::HuffmanDecoding
}
