//! How much of a frame is still to come.
ghost use Rattle.std.specs.Prelude.{◌≡◌};
ghost use Rattle.h3_connection.specs.Delivering.{incoming_at};
ghost use Rattle.h3_connection.specs.Endpoint.{EndpointHistory, kind_of};
ghost use Rattle.h3_connection.specs.FrameLeft.{ShowsFrameLeft, frame_left_at, frame_left_of_peer, frame_left_of_request};
ghost use Rattle.h3_connection.specs.State.{StandsFor};

use super::Endpoint;
use h3_proto::stream::StreamId;
use h3_streams::ids::StreamKind;

impl Endpoint {
    /// How many bytes are still to come of the payload of a frame (RFC 9114, section 7.1): on a request stream of the DATA frame that is
    /// under way, or else of the frame that is next to be pulled, and on the peer's control stream of the frame that was not read. 0 while
    /// its type and length are not whole, once all of it came, of every other stream, and of each stream once the connection has a fault.
    /// What was kept of the stream because an allocation failed is still to be read, and counts as to come. It takes no memory, and one
    /// look-up.
    #[tactic(auto, using(crate::proofs::FramesLeft::shows_none, crate::proofs::FramesLeft::shows_left))]
    pub fn frame_left(&self, id: StreamId) -> u64
        ensures { ShowsFrameLeft self.now id result }
    {
        if self.closed.is_some() {
            return 0;
        }
        self.frame_left_at(id) as u64
    }

    // The same, whether or not the connection has a fault.
    #[tactic(auto, using(crate::proofs::FramesLeft::left_by_kind))]
    fn frame_left_at(&self, id: StreamId) -> usize
        ensures { (e : EndpointHistory) → StandsFor self.now e → result ≡ frame_left_at e id (kind_of e.side id) }
    {
        match StreamKind::of(self.side, id) {
            StreamKind::Request => self.frame_left_of_request(id),
            StreamKind::PeerUnidirectional => self.frame_left_of_peer(id),
            StreamKind::ServerOpened => 0,
            StreamKind::OwnUnidirectional => 0,
        }
    }

    #[tactic(auto, using(crate::proofs::FramesLeft::left_of_stored))]
    fn frame_left_of_request(&self, id: StreamId) -> usize
        ensures { (e : EndpointHistory) → StandsFor self.now e → result ≡ frame_left_of_request (incoming_at e id) }
    {
        self.requests.frame_left(id)
    }

    // Of a unidirectional stream of the peer.
    fn frame_left_of_peer(&self, id: StreamId) -> usize
        ensures { (e : EndpointHistory) → StandsFor self.now e → result ≡ frame_left_of_peer e id }
    {
        match self.streams.control_frames(id) {
            Some(frames) => frames.frame_left(),
            None => 0,
        }
    }
}
