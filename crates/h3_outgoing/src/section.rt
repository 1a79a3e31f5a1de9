//! An encoded field section and its HEADERS frame, in one piece.
ghost use Rattle.std.specs.Prelude.{◌≡◌, ◌-◌, ◌<◌, ◌≤◌, ◌^◌, length, take, drop, IfNone, IfOk, IfSome, OnOk};
ghost use Rattle.std.specs.Int.{w64, to_be_bytes};
ghost use Rattle.h3_coding.specs.Encodings.{encoding};
ghost use Rattle.h3_connection.specs.WaitingPieces.{frame_piece, without_first};
ghost use Rattle.h3_frames.specs.Encoded.{head_encoding};
ghost use Rattle.h3_frames.specs.Outgoing.{all_of, first_part};

use crate::block::FrameBytes;
use std::alloc::{AllocError, Global};
use std::marker::Model;

/// How many bytes the type and the length of a HEADERS frame have at most (RFC 9114, section 7.1).
pub(crate) const HEAD_ROOM: usize = 9;

/// The type of a HEADERS frame (RFC 9114, section 7.2.2).
const HEADERS: u8 = 1;

/// An encoded field section, with room in front of it for the type and length of its frame. So the frame goes out from the place of its
/// section: from the block in which it was written, or a short one from the frame itself. A contract sees the section.
#[derive(Drop)]
pub struct EncodedSection {
    block: FrameBytes,
}

impl Model for EncodedSection {
    ghost use Rattle.std.specs.Prelude.{◌≤◌, ℕ, List, length, drop};

    ghost Value = { List ℕ };

    ghost view = { λ s. drop 9 s.block };

    ghost invariant = { λ s. 9 ≤ length s.block };
}

impl EncodedSection {
    /// A block of 9 bytes, after which a section is to be written, with room for so many bytes of it. It takes memory once.
    pub fn block(alloc: Global, size: usize) -> Result<Vec<u8>, AllocError>
        ensures { IfOk result (λ block. length block.items ≡ 9) }
    {
        let mut block = Vec::with_capacity(alloc, HEAD_ROOM.saturating_add(size))?;
        block.extend_from_slice(&[0; HEAD_ROOM])?;
        Ok(block)
    }

    /// Empties a block but for 9 bytes, after which a section is to be written. One that has fewer takes memory once, with room for so many
    /// bytes of it.
    pub fn begin(block: &mut Vec<u8>, size: usize) -> Result<(), AllocError>
        ensures { OnOk result (length block.new.items ≡ 9) }
    {
        if block.len() < HEAD_ROOM {
            *block = EncodedSection::block(*block.allocator(), size)?;
            return Ok(());
        }
        block.truncate(HEAD_ROOM);
        Ok(())
    }

    /// The section that was written after the first 9 bytes of a block; none if it has fewer. A short one is copied, so that the block
    /// serves again, and a longer one takes the block with it. It takes no memory.
    pub fn taken_from(block: &mut Vec<u8>) -> Option<EncodedSection>
        ensures some { IfSome result (λ section. section ≡ drop 9 block.old.items) }
        ensures none { IfNone result (length block.old.items < 9) }
    {
        if block.len() < HEAD_ROOM {
            return None;
        }
        let block = FrameBytes::taken_from(block);
        Some(EncodedSection { block })
    }

    /// How many bytes it has.
    pub fn len(&self) -> usize
        ensures { result ≡ length self.now }
    {
        let bytes = self.block.as_slice();
        bytes.len() - HEAD_ROOM
    }
}

/// A HEADERS frame that waits, in one piece. A contract sees what is left of its type and length, and of its payload.
#[derive(Drop)]
pub(crate) struct HeadersFrame {
    // the bytes up to the place `HEAD_ROOM` end with the type and the length, and the others are the section
    block: FrameBytes,
    start: usize,
}

impl Model for HeadersFrame {
    ghost use Rattle.std.specs.Prelude.{◌≤◌, length, take, drop, max};
    ghost use Rattle.h3_frames.specs.Outgoing.{Outgoing};

    ghost Value = { Outgoing };

    ghost view = { λ f. record {
      head = drop f.start (take 9 f.block);
      payload = drop (max f.start 9) f.block;
    } };

    ghost invariant = { λ f. (9 ≤ length f.block) × (f.start ≤ length f.block) };
}

impl HeadersFrame {
    /// The frame of a section (RFC 9114, section 7.2.2).
    pub(crate) fn of(section: EncodedSection) -> HeadersFrame
        requires { length section < 2 ^ 62 }
        ensures { result ≡ frame_piece 1 section }
    {
        let EncodedSection { mut block } = section;
        let start = block.write_head();
        HeadersFrame { block, start }
    }

    /// What is left of it.
    pub(crate) fn bytes(&self) -> &[u8]
        ensures { result.now ≡ all_of self.now }
    {
        let bytes = self.block.as_slice();
        &bytes[self.start..]
    }

    /// What is left of the type and length, or else of the section.
    pub(crate) fn first_part(&self) -> &[u8]
        ensures { result.now ≡ first_part self.now }
    {
        let bytes = self.block.as_slice();
        if self.start < HEAD_ROOM {
            return &bytes[self.start..HEAD_ROOM];
        }
        &bytes[self.start..]
    }

    /// How many bytes are left.
    pub(crate) fn remaining(&self) -> usize
        ensures { result ≡ length (all_of self.now) }
    {
        let bytes = self.block.as_slice();
        bytes.len() - self.start
    }

    /// Takes the first bytes of what is left.
    pub(crate) fn advance(&mut self, count: usize)
        requires { count ≤ length (all_of self.old) }
        ensures { self.new ≡ without_first count self.old }
    {
        // (for the proof: what lies in memory is counted by a usize)
        let bytes = self.block.as_slice();
        let _len = bytes.len();
        self.start += count;
    }
}

/// Writes the type and the length of the HEADERS frame of a section right in front of it, and returns the place at which they begin.
pub(crate) fn write_head(block: &mut [u8]) -> usize
    requires room { 9 ≤ length block.old }
    requires size { length (drop 9 block.old) < 2 ^ 62 }
    ensures head { drop result (take 9 block.new) ≡ (frame_piece 1 (drop 9 block.old)).head }
    ensures section { drop 9 block.new ≡ drop 9 block.old }
    ensures start { result ≤ 7 }
{
    let len = block.len() - HEAD_ROOM;
    write_front(block, HEADERS, len as u64)
}

/// Writes the type and the length of a frame so that they end with the ninth byte of a block, and returns the place at which they begin.
pub(crate) fn write_front(block: &mut [u8], kind: u8, len: u64) -> usize
    requires room { 9 ≤ length block.old }
    requires kind { kind < 64 }
    requires size { len < 2 ^ 62 }
    ensures head { drop result (take 9 block.new) ≡ head_encoding kind len }
    ensures rest { drop 9 block.new ≡ drop 9 block.old }
    ensures start { result ≤ 7 }
{
    let (word, size) = length_word(len);
    block[1..HEAD_ROOM].copy_from_slice(&word.to_be_bytes());
    let start = HEAD_ROOM - 1 - size;
    block[start] = kind;
    start
}

// A word whose last bytes are the encoding of a length, and how many they are.
fn length_word(len: u64) -> (u64, usize)
    requires { len < 2 ^ 62 }
    ensures encoding { drop (8 - result.1) (to_be_bytes w64 result.0) ≡ encoding len }
    ensures size { (1 ≤ result.1) × (result.1 ≤ 8) }
{
    if len < 1 << 6 {
        (len, 1)
    } else if len < 1 << 14 {
        (1 << 14 | len, 2)
    } else if len < 1 << 30 {
        (2 << 30 | len, 4)
    } else {
        (3 << 62 | len, 8)
    }
}
