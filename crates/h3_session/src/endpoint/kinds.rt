//! What the peer's unidirectional streams are.
ghost use Rattle.h3_session.specs.PeerKinds.{ShowsStreamKind};

use super::Endpoint;
use h3_proto::stream::StreamId;
use h3_streams::ids::StreamKind;
use h3_unidirectional::stream::Kind;

impl Endpoint {
    /// What a unidirectional stream of the peer is, by its type (RFC 9114, section 6.2). `Kind::Untold` says that its type is not whole
    /// yet, or the id that follows the type of a push stream or a WebTransport stream. What comes on a stream of unknown type,
    /// `Kind::Ignored`, is thrown away: QUIC may send STOP_SENDING with H3_STREAM_CREATION_ERROR. `None` of every other stream. It takes no
    /// memory, and one look-up.
    #[tactic(auto, using(crate::proofs::PeerKinds::shows_kind, crate::proofs::PeerKinds::shows_none))]
    pub fn stream_kind(&self, id: StreamId) -> Option<Kind>
        ensures { ShowsStreamKind self.now id result }
    {
        match StreamKind::of(self.side, id) {
            StreamKind::PeerUnidirectional => Some(self.streams.unidirectional.kind(id)),
            StreamKind::Request => None,
            StreamKind::ServerOpened => None,
            StreamKind::OwnUnidirectional => None,
        }
    }
}
