//! Bytes that are put in at one end and taken out at the other, and lie in one buffer.
ghost use Rattle.std.specs.Prelude.{◌≡◌, ◌<◌, ◌≤◌, ◌+◌, ◌-◌, ◌/◌, ◌^◌, ◌++◌, [], length, drop, IfOk, IfSome, IfNone};
ghost use Rattle.std.specs.Vec.{vec_capacity};

use std::alloc::{AllocError, Global};
use std::marker::Model;

/// The bytes that are there stand after those that were taken out. If no room is left after them, they are moved to a new block. It has
/// room for a quarter more than is kept and a bit, so a byte is moved four times or less in the mean.
#[derive(Drop)]
pub(crate) struct ByteQueue {
    bytes: Vec<u8>,
    // how many of them were taken out
    start: usize,
}

impl Model for ByteQueue {
    ghost use Rattle.h3_table.specs.ByteRow.{ByteRow};

    ghost Value = { ByteRow };

    ghost use Rattle.h3_table.specs.ByteQueueInside.{byte_row_inside, IsByteQueue};

    ghost view = { byte_row_inside };

    ghost invariant = { IsByteQueue };
}

impl ByteQueue {
    pub(crate) fn new(alloc: Global) -> ByteQueue
        ensures { result.bytes ≡ [] }
    {
        ByteQueue {
            bytes: Vec::new(alloc),
            start: 0,
        }
    }

    pub(crate) fn len(&self) -> usize
        ensures { result ≡ length self.now.bytes }
    {
        self.bytes.len() - self.start
    }

    pub(crate) fn as_slice(&self) -> &[u8]
        ensures { result.now ≡ self.now.bytes }
    {
        &self.bytes[self.start..]
    }

    /// A new block for what is kept of the bytes and so many more, if there is no room for these after the bytes.
    pub(crate) fn block_for(&self, kept: usize, count: usize) -> Result<Option<Vec<u8>>, AllocError>
        requires kept { kept < 2 ^ 32 }
        requires more { count < 2 ^ 32 }
        ensures none { IfOk result (λ block. IfNone block (count ≤ self.now.room)) }
        ensures empty { IfOk result (λ block. IfSome block (λ b. b.items ≡ [])) }
        ensures len { IfOk result (λ block. IfSome block (λ b. vec_capacity b ≡ kept + kept / 4 + count + 512)) }
        ensures needed { IfOk result (λ block. IfSome block (λ b. self.now.room < count)) }
    {
        if count <= self.bytes.capacity() - self.bytes.len() {
            return Ok(None);
        }
        let block = Vec::with_capacity(*self.bytes.allocator(), kept + kept / 4 + count + 512)?;
        Ok(Some(block))
    }

    /// Moves the bytes to a new block, if there is one, which has room for them.
    pub(crate) fn move_to(&mut self, block: Option<Vec<u8>>)
        requires empty { IfSome block (λ b. b.items ≡ []) }
        requires fits { IfSome block (λ b. length self.old.bytes ≤ vec_capacity b) }
        ensures bytes { self.new.bytes ≡ self.old.bytes }
        ensures none { IfNone block (self.new.room ≡ self.old.room) }
        ensures some { IfSome block (λ b. vec_capacity b ≤ self.new.room + length self.old.bytes) }
    {
        let Some(mut block) = block else {
            return;
        };
        let Ok(()) = block.extend_from_slice(&self.bytes[self.start..]) else {
            return;
        };
        self.bytes = block;
        self.start = 0;
    }

    /// Puts bytes in, for which there is room.
    pub(crate) fn push(&mut self, bytes: &[u8])
        requires { length bytes.now ≤ self.old.room }
        ensures bytes { self.new.bytes ≡ self.old.bytes ++ bytes.now }
        ensures room { self.old.room ≤ self.new.room + length bytes.now }
    {
        let Ok(()) = self.bytes.extend_from_slice(bytes) else {
            return;
        };
    }

    /// Takes so many bytes out.
    pub(crate) fn drop_front(&mut self, count: usize)
        requires { count ≤ length self.old.bytes }
        ensures bytes { self.new.bytes ≡ drop count self.old.bytes }
        ensures room { self.new.room ≡ self.old.room }
    {
        self.start += count;
    }
}
