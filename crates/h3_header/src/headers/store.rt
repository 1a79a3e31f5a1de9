//! The memory in which the bytes of a list's fields are kept.
ghost use Rattle.std.specs.Prelude.{◌≡◌, [], IfOk, IfErr};

use super::error::HeaderError;
use crate::grammar::byte_at;
use bytes::{Bytes, BytesMut};
use h3_field::Fields;
use http_header::HeaderMap;
use std::alloc::Global;

/// One block of memory for the names and values of a list, which goes when the last of them does. Without room for one
/// more it begins another block.
#[derive(Drop)]
pub(crate) struct Store {
    room: BytesMut,
}

impl Store {
    /// With room for so many bytes, if there is memory for it.
    fn with_room(alloc: Global, bytes: usize) -> Store {
        match BytesMut::with_capacity(alloc, bytes) {
            Ok(room) => Store { room },
            Err(_) => Store {
                room: BytesMut::new(alloc),
            },
        }
    }

    /// A copy of the bytes in the block, shared.
    pub(crate) fn keep(&mut self, bytes: &[u8]) -> Result<Bytes, HeaderError>
        ensures ok { IfOk result (λ b. b ≡ bytes.now) }
        ensures err { IfErr result (λ e. e ≡ HeaderError.OutOfMemory) }
    {
        self.room.truncate(0);
        if self.room.extend_from_slice(bytes).is_err() {
            return Err(HeaderError::OutOfMemory);
        }
        match self.room.freeze_to(bytes.len()) {
            Ok(kept) => Ok(kept),
            Err(_) => Err(HeaderError::OutOfMemory),
        }
    }
}

/// An empty map and a store, with room for these fields if there is memory for it.
pub(crate) fn room_for(alloc: Global, fields: &Fields<'_>) -> (HeaderMap, Store)
    ensures { result.0 ≡ [] }
{
    let mut names: usize = 0;
    let mut bytes: usize = 0;
    for place in 0..fields.len() {
        let field = fields.get(place);
        bytes = bytes.saturating_add(field.value().len());
        if byte_at(field.name(), 0) != b':' {
            names = names.saturating_add(1);
            bytes = bytes.saturating_add(field.name().len());
        }
    }
    (map_with_room(alloc, names), Store::with_room(alloc, bytes))
}

// An empty map, with room for so many names if there is memory for it.
fn map_with_room(alloc: Global, names: usize) -> HeaderMap
    ensures { result ≡ [] }
{
    match HeaderMap::with_capacity(alloc, names) {
        Ok(map) => map,
        Err(_) => HeaderMap::new(alloc),
    }
}
