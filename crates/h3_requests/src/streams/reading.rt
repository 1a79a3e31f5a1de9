//! A piece of a body that is read where it lies.
ghost use Rattle.std.specs.Prelude.{◌≡◌, true, false, IfSome, IsNone};
ghost use Rattle.h3_connection.specs.Incoming.{Incoming};
ghost use Rattle.h3_connection.specs.Calls.{AllSame};
ghost use Rattle.h3_connection.specs.State.{kept_at};
ghost use Rattle.h3_connection.specs.StreamSets.{Streams};
ghost use Rattle.h3_requests.specs.Limited.{AreReceivers};
ghost use Rattle.h3_requests.specs.ReadingBodies.{are_too_many, BeginsDataAt, place_unless, ReadsPieceAt};

use super::RequestStreams;
use h3_incoming::BodyPlace;
use h3_proto::stream::StreamId;
use std::alloc::Global;

impl RequestStreams {
    /// Reads a piece of a body where it lies in bytes that came on a stream, as `IncomingStream::read_body` does, with one look-up. It also
    /// returns `None`, which changes nothing, if more than `limit` streams wait for more insertions than these: the next pull is a fault
    /// then (RFC 9204, section 2.1.2).
    pub fn read_body(
        &mut self,
        alloc: Global,
        limit: u64,
        inserted: usize,
        id: StreamId,
        bytes: &[u8],
    ) -> Option<BodyPlace>
        ensures place { (receivers : Streams Incoming) → AreReceivers receivers self.old
            → result ≡ place_unless (are_too_many limit inserted receivers) (kept_at self.old id) bytes.now }
        ensures reads { IfSome result (λ p. ReadsPieceAt limit inserted self.old self.new id bytes.now p) }
        ensures none { IsNone result → AllSame self.old self.new }
    {
        if self.blocked.above(inserted) as u64 > limit {
            return None;
        }
        let Some(stream) = self.streams.get_mut(id) else {
            let _over = self.streams.is_over(id);
            return None;
        };
        stream.incoming.read_body(alloc, bytes)
    }

    /// Reads the type and length of a DATA frame where they lie in bytes that came on a stream, as `IncomingStream::begin_body` does, with
    /// one look-up. It also returns `false`, which changes nothing, if more than `limit` streams wait for more insertions than these.
    pub fn begin_body(
        &mut self,
        alloc: Global,
        limit: u64,
        inserted: usize,
        id: StreamId,
        bytes: &[u8],
    ) -> bool
        ensures begins { result ≡ true → BeginsDataAt limit inserted self.old self.new id bytes.now }
        ensures none { result ≡ false → AllSame self.old self.new }
    {
        let waiting = self.blocked.above(inserted) as u64;
        if waiting > limit {
            return false;
        }
        let Some(stream) = self.streams.get_mut(id) else {
            return false;
        };
        stream.incoming.begin_body(alloc, bytes)
    }
}
