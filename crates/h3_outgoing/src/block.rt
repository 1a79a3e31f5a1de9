//! The bytes of a HEADERS frame: few of them lie in the frame itself.
ghost use Rattle.std.specs.Prelude.{◌≡◌, ◌-◌, ◌<◌, ◌≤◌, ◌^◌, length, take, drop, MatchOption};
ghost use Rattle.h3_connection.specs.WaitingPieces.{frame_piece};

use crate::section::write_head;
use std::marker::Model;
use std::mem;

/// The most bytes that lie in a frame, so that it takes no more room than one whose payload is a body.
const SHORT: usize = 54;

/// A type, a length and a section, with room in front of them: in memory of their own, or few of them here. A contract sees the bytes.
#[derive(Drop)]
pub(crate) struct FrameBytes {
    form: BytesForm,
}

/// The place of the bytes of a HEADERS frame.
#[derive(Drop)]
pub(crate) enum BytesForm {
    Short(ShortBytes),
    Long(Vec<u8>),
}

impl Model for FrameBytes {
    ghost use Rattle.std.specs.Prelude.{ℕ, List};
    ghost use Rattle.h3_outgoing.specs.FrameForm.{bytes_in};

    ghost Value = { List ℕ };

    ghost view = { λ b. bytes_in b.form };
}

impl FrameBytes {
    /// Those of a block, in its memory.
    pub(crate) fn of(block: Vec<u8>) -> FrameBytes
        ensures { result ≡ block.items }
    {
        FrameBytes {
            form: BytesForm::Long(block),
        }
    }

    /// Those of a block: a copy of few bytes, and else the block itself, in whose place an empty one is left. It takes no memory.
    pub(crate) fn taken_from(block: &mut Vec<u8>) -> FrameBytes
        ensures { result ≡ block.old.items }
    {
        if let Some(bytes) = ShortBytes::of(block.as_slice()) {
            return FrameBytes {
                form: BytesForm::Short(bytes),
            };
        }
        let alloc = *block.allocator();
        FrameBytes::of(mem::replace(block, Vec::new(alloc)))
    }

    /// The bytes.
    pub(crate) fn as_slice(&self) -> &[u8]
        ensures { result.now ≡ self.now }
    {
        match &self.form {
            BytesForm::Short(bytes) => bytes.as_slice(),
            BytesForm::Long(block) => block.as_slice(),
        }
    }

    /// Writes the type and the length of a section's HEADERS frame right in front of the section, which begins after the first 9 bytes.
    /// Returns the place at which they begin.
    pub(crate) fn write_head(&mut self) -> usize
        requires room { 9 ≤ length self.old }
        requires size { length (drop 9 self.old) < 2 ^ 62 }
        ensures head { drop result (take 9 self.new) ≡ (frame_piece 1 (drop 9 self.old)).head }
        ensures section { drop 9 self.new ≡ drop 9 self.old }
        ensures len { length self.new ≡ length self.old }
        ensures start { result ≤ 7 }
    {
        match &mut self.form {
            BytesForm::Short(bytes) => bytes.write_head(),
            BytesForm::Long(block) => write_head(block.as_mut_slice()),
        }
    }
}

/// Few bytes. A contract sees them.
#[derive(Drop)]
pub(crate) struct ShortBytes {
    len: u16,
    bytes: [u8; SHORT],
}

impl Model for ShortBytes {
    ghost use Rattle.std.specs.Prelude.{◌≤◌, ℕ, List, take};

    ghost Value = { List ℕ };

    ghost view = { λ b. take b.len b.bytes };

    ghost invariant = { λ b. b.len ≤ 54 };
}

impl ShortBytes {
    // A copy of bytes. None: they are too many.
    fn of(bytes: &[u8]) -> Option<ShortBytes>
        ensures { MatchOption result (54 < length bytes.now) (λ b. b ≡ bytes.now) }
    {
        let len = bytes.len();
        if len > SHORT {
            return None;
        }
        let mut copy = [0; SHORT];
        copy[..len].copy_from_slice(bytes);
        Some(ShortBytes {
            len: len as u16,
            bytes: copy,
        })
    }

    fn as_slice(&self) -> &[u8]
        ensures { result.now ≡ self.now }
    {
        &self.bytes[..usize::from(self.len)]
    }

    // The same as that of `FrameBytes`.
    fn write_head(&mut self) -> usize
        requires room { 9 ≤ length self.old }
        ensures head { drop result (take 9 self.new) ≡ (frame_piece 1 (drop 9 self.old)).head }
        ensures section { drop 9 self.new ≡ drop 9 self.old }
        ensures len { length self.new ≡ length self.old }
        ensures start { result ≤ 7 }
    {
        write_head(&mut self.bytes[..usize::from(self.len)])
    }
}
