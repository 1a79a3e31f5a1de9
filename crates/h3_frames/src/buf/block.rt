//! A block that small pieces share.
ghost use Rattle.std.specs.Prelude.{◌≡◌, IfOk};

use bytes::{Bytes, BytesMut};
use std::alloc::{AllocError, Global};

/// A block that has room for more of them, if there is one.
pub(super) type Block = Option<Box<BytesMut>>;

/// A copy of a piece, after the last one of the block; or in a new block of so much room, if there is none, or it is full.
pub(super) fn copied(
    block: &mut Block,
    alloc: Global,
    room: usize,
    piece: &[u8],
) -> Result<Bytes, AllocError>
    ensures { IfOk result (λ b. b ≡ piece.now) }
{
    if let Some(block) = block {
        return copied_into(block, alloc, room, piece);
    }
    let mut fresh = BytesMut::new(alloc);
    let copy = copied_into(&mut fresh, alloc, room, piece)?;
    *block = Some(Box::new(alloc, fresh)?);
    Ok(copy)
}

fn copied_into(
    block: &mut BytesMut,
    alloc: Global,
    room: usize,
    piece: &[u8],
) -> Result<Bytes, AllocError>
    ensures { IfOk result (λ b. b ≡ piece.now) }
{
    block.clear();
    if block.capacity() < piece.len() {
        *block = BytesMut::with_capacity(alloc, room.max(piece.len()))?;
    }
    block.extend_reserved(piece);
    block.freeze_to(piece.len())
}
