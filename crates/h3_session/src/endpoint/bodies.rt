//! Pieces of bodies that are read where they lie.
ghost use Rattle.std.specs.Prelude.{◌≡◌, true, false, IfSome, IsNone};
ghost use Rattle.h3_connection.specs.Calls.{AllSame, IsSame};
ghost use Rattle.h3_connection.specs.Endpoint.{EndpointHistory};
ghost use Rattle.h3_connection.specs.Incoming.{Incoming};
ghost use Rattle.h3_connection.specs.State.{StandsFor, kept_at};
ghost use Rattle.h3_connection.specs.StreamSets.{Streams};
ghost use Rattle.h3_requests.specs.Limited.{AreReceivers};
ghost use Rattle.h3_requests.specs.ReadingBodies.{are_too_many, BeginsDataAt, place_unless, ReadsPieceAt};
ghost use Rattle.h3_session.specs.ReadingBodies.{BeginsBody, place_next, ReadsBody};

use super::Endpoint;
use h3_incoming::BodyPlace;
use h3_proto::stream::StreamId;

impl Endpoint {
    /// Reads a piece of a body where it lies in bytes that came on a stream, and answers its place in them. The endpoint is left as by
    /// `deliver` of the bytes up to the end of the piece and a `pull`, which returns it. What follows in the bytes was not delivered.
    /// Nothing is copied, nothing of the bytes is kept, and no memory is taken. It is so on a request stream of which nothing is kept, if
    /// the bytes go on with the payload of a DATA frame. It is so too if they begin with the whole type and length of one and some of its
    /// payload. `None` changes nothing: then the bytes are to be delivered.
    #[tactic(auto, using(crate::proofs::ReadingBodies::place_elsewhere, crate::proofs::ReadingBodies::place_at_once, crate::proofs::ReadingBodies::reads_at_once, crate::proofs::ReadingBodies::same_at_once))]
    pub fn read_body(&mut self, id: StreamId, bytes: &[u8]) -> Option<BodyPlace>
        ensures place { (e : EndpointHistory) → StandsFor self.old e → result ≡ place_next e id bytes.now }
        ensures reads { IfSome result (λ p. ReadsBody self.old self.new id bytes.now p) }
        ensures none { IsNone result → IsSame self.old self.new }
    {
        if !self.takes_at_once(id) {
            return None;
        }
        self.read_at_once(id, bytes)
    }

    // The same of a request stream, with nothing kept.
    fn read_at_once(&mut self, id: StreamId, bytes: &[u8]) -> Option<BodyPlace>
        ensures rest { self.new ≡ record self.old { requests = self.new.requests } }
        ensures place { (receivers : Streams Incoming) → AreReceivers receivers self.old.requests
            → result ≡ place_unless (are_too_many self.old.announced.limits.blocked self.old.decoding.decoder.table.inserted receivers)
            (kept_at self.old.requests id) bytes.now }
        ensures reads { IfSome result (λ p.
            ReadsPieceAt self.old.announced.limits.blocked self.old.decoding.decoder.table.inserted self.old.requests self.new.requests id
            bytes.now p) }
        ensures none { IsNone result → AllSame self.old.requests self.new.requests }
    {
        let limit = self.announced.limits.blocked;
        let inserted = self.streams.decoding.decoder().inserted();
        self.requests
            .read_body(self.alloc, limit, inserted, id, bytes)
    }

    /// Reads the type and length of a DATA frame where they lie in bytes that came on a stream and end with them. The endpoint is left as
    /// by
    /// `deliver` of the bytes and a `pull`, which waits for more of them (`Pending`). Nothing is copied, nothing of the bytes is kept, and
    /// no memory is taken. It is so on a request stream of which nothing is kept, if a DATA frame may come next. `false` changes nothing:
    /// then the bytes are to be delivered.
    #[tactic(auto, using(crate::proofs::ReadingBodies::begins_at_once, crate::proofs::ReadingBodies::none_begun))]
    pub fn begin_body(&mut self, id: StreamId, bytes: &[u8]) -> bool
        ensures begins { result ≡ true → BeginsBody self.old self.new id bytes.now }
        ensures none { result ≡ false → IsSame self.old self.new }
    {
        if !self.takes_at_once(id) {
            return false;
        }
        self.begin_at_once(id, bytes)
    }

    // The same of a request stream, with nothing kept.
    fn begin_at_once(&mut self, id: StreamId, bytes: &[u8]) -> bool
        ensures rest { self.new ≡ record self.old { requests = self.new.requests } }
        ensures begins { result ≡ true →
            BeginsDataAt self.old.announced.limits.blocked self.old.decoding.decoder.table.inserted self.old.requests self.new.requests id
            bytes.now }
        ensures none { result ≡ false → AllSame self.old.requests self.new.requests }
    {
        let limit = self.announced.limits.blocked;
        let inserted = self.streams.decoding.decoder().inserted();
        self.requests
            .begin_body(self.alloc, limit, inserted, id, bytes)
    }
}
