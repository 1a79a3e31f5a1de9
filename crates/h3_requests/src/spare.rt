//! Blocks that streams have left, for the next streams.
ghost use Rattle.std.specs.Prelude.{◌≡◌, IfOk};
ghost use Rattle.h3_connection.specs.Calls.{fresh_request};

use crate::boxed::BoxedStream;
use crate::stream::RequestStream;
use std::alloc::{AllocError, Global};
use std::marker::Model;

/// So many blocks are kept at most: some 50 KB, however many streams there were at once. It is what a QUIC library most often lets a peer
/// open at once.
const MOST: usize = 100;

/// The blocks that are kept, with a stream in each on which nothing has happened: so streams that come and go, one after the other or many
/// at once, take no new block each time.
#[derive(Drop)]
pub(crate) struct Spare {
    streams: Vec<BoxedStream>,
}

impl Model for Spare {
    ghost use Rattle.std.specs.List.{All};
    ghost use Rattle.std.specs.Prelude.{◌≡◌, List};
    ghost use Rattle.h3_connection.specs.Calls.{fresh_request};
    ghost use Rattle.h3_connection.specs.State.{RequestState};

    ghost Value = { List RequestState };

    ghost view = { λ s. s.streams.items };

    ghost invariant = { λ s. All (λ r. r ≡ fresh_request) s.streams.items };
}

impl Spare {
    /// No block. It takes no memory.
    pub(crate) fn new(alloc: Global) -> Spare {
        Spare {
            streams: Vec::new(alloc),
        }
    }

    /// A block with a stream in it on which nothing has happened: one that is kept, or a new one.
    pub(crate) fn take(&mut self, alloc: Global) -> Result<BoxedStream, AllocError>
        ensures { IfOk result (λ b. b ≡ fresh_request) }
    {
        if let Some(stream) = self.streams.pop() {
            return Ok(stream);
        }
        make_room(&mut self.streams);
        new_block(alloc)
    }

    /// Drops a stream, and keeps its block if there is room for it. It takes no memory.
    pub(crate) fn keep(&mut self, alloc: Global, stream: BoxedStream) {
        if self.streams.len() == self.streams.capacity() {
            return;
        }
        let mut stream = stream;
        stream.renew(alloc);
        self.streams.push_reserved(stream);
    }
}

// Room for the block that comes back: one for the first stream of a connection, and then all. Without memory fewer are kept.
fn make_room(streams: &mut Vec<BoxedStream>)
    ensures { streams.new.items ≡ streams.old.items }
{
    let room = if streams.capacity() == 0 { 1 } else { MOST };
    let _ = streams.reserve_exact(room);
}

// A new block with such a stream.
#[inline(never)]
fn new_block(alloc: Global) -> Result<BoxedStream, AllocError>
    ensures { IfOk result (λ b. b ≡ fresh_request) }
{
    BoxedStream::new(alloc, RequestStream::new(alloc))
}
