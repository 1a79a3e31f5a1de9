//! How much of what came is still held.
ghost use Rattle.std.specs.Prelude.{◌≡◌};
ghost use Rattle.std.specs.List.{sum_by};
ghost use Rattle.h3_connection.specs.Delivering.{incoming_at};
ghost use Rattle.h3_connection.specs.Endpoint.{EndpointHistory, kind_of};
ghost use Rattle.h3_connection.specs.State.{StandsFor};
ghost use Rattle.h3_connection.specs.Unread.{ShowsUnread, held_at, held_of_request, held_of_peer, held_in, counted};

use super::Endpoint;
use h3_connection::arrival::Arrival;
use h3_proto::stream::StreamId;
use h3_streams::ids::StreamKind;

/// How many bytes of a stream an arrival has.
fn held_in(id: StreamId, arrival: &Arrival) -> usize
    ensures { result ≡ held_in id arrival.now }
{
    match arrival {
        Arrival::BytesCame(other, bytes) => {
            if other.into_inner() == id.into_inner() {
                bytes.len()
            } else {
                0
            }
        }
        Arrival::EndCame(_) => 0,
        Arrival::ResetCame(_, _) => 0,
    }
}

/// The same of all of these, at most the greatest `usize`.
fn held_in_all(id: StreamId, arrivals: &[Arrival]) -> usize
    ensures { result ≡ counted (sum_by (held_in id) arrivals.now) }
{
    let mut held: usize = 0;
    // (the label names the loop in its proof)
    'arrivals: for arrival in arrivals {
        held = held.saturating_add(held_in(id, arrival));
    }
    held
}

impl Endpoint {
    /// How many bytes were delivered on a stream and are still held: no pull returned them, and they were not read. Credit in QUIC may be
    /// granted for all others that came (RFC 9000, section 4.1), since of these nothing is kept. Of a request stream the bytes are counted
    /// that were not read, as those of an unfinished frame, and the field section that waits to be decoded. Of the peer's control, encoder
    /// and decoder streams those after the last whole frame or instruction are counted. Of its other unidirectional streams a type that is
    /// not whole is counted, and what was not pulled of a session, or of a stream of another type that is delivered. What was kept of the
    /// stream because an allocation failed is counted too. 0 of a stream that is not there or was given up, and of each stream once the
    /// connection has a fault. No byte is read then, also not by this call, so bytes that were lent may be gone. At most the greatest
    /// `u64`. It takes no memory, and one look-up; after a `Kept` also a pass over what is kept.
    ///
    /// It is proved that this is what the definitions hold of all that came (`held_at`). No clause here says what memory has of it. Of a
    /// frame of an unknown type `FrameBytes` of `h3_frames` says that its bytes are freed (`AreSpared`), and tests measure that nothing
    /// else stays.
    #[tactic(auto, using(crate::proofs::Held::shows_none, crate::proofs::Held::shows_unread))]
    #[inline(always)]
    pub fn unread(&self, id: StreamId) -> u64
        ensures { ShowsUnread self.now id result }
    {
        if self.closed.is_some() {
            return 0;
        }
        let held = self.held(id);
        held.saturating_add(self.held_in_kept(id)) as u64
    }

    // What is held of a stream, what is kept aside.
    #[tactic(auto, using(crate::proofs::Held::held_by_kind))]
    fn held(&self, id: StreamId) -> usize
        ensures { (e : EndpointHistory) → StandsFor self.now e → result ≡ counted (held_at e id (kind_of e.side id)) }
    {
        match StreamKind::of(self.side, id) {
            StreamKind::Request => self.held_of_request(id),
            StreamKind::PeerUnidirectional => self.held_of_peer(id),
            StreamKind::ServerOpened => 0,
            StreamKind::OwnUnidirectional => 0,
        }
    }

    #[tactic(auto, using(crate::proofs::Held::held_request))]
    fn held_of_request(&self, id: StreamId) -> usize
        ensures { (e : EndpointHistory) → StandsFor self.now e → result ≡ counted (held_of_request e.announced (incoming_at e id)) }
    {
        self.requests.held(&self.announced, id)
    }

    fn held_of_peer(&self, id: StreamId) -> usize
        ensures { (e : EndpointHistory) → StandsFor self.now e → result ≡ counted (held_of_peer e id) }
    {
        self.streams.held(&self.announced, id)
    }

    // What is kept of the stream because an allocation failed.
    #[tactic(auto, using(crate::proofs::Held::counted_sum))]
    fn held_in_kept(&self, id: StreamId) -> usize
        ensures { result ≡ counted (sum_by (held_in id) self.now.kept) }
    {
        let (front, back) = self.kept.as_slices();
        held_in_all(id, front).saturating_add(held_in_all(id, back))
    }
}
