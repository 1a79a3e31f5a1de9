//! How much of what came is still held.
ghost use Rattle.std.specs.Prelude.{◌≡◌, if◌then◌else◌};
ghost use Rattle.h3_connection.specs.Endpoint.{EndpointHistory};
ghost use Rattle.h3_connection.specs.State.{EndpointState, StandsFor};
ghost use Rattle.h3_connection.specs.Unread.{held_of_role, held_of_peer, counted};
ghost use Rattle.h3_streams.specs.Placed.{placed, stream_of_peer};

use crate::streams::{ConnectionStreams, is_read_as};
use h3_connection::setup::Announced;
use h3_proto::stream::StreamId;

/// How much a reader holds of a stream: all that it holds, if that is its stream.
fn held_by(reader: Option<StreamId>, id: StreamId, held: usize) -> usize
    ensures { result ≡ (if Rattle.h3_connection.specs.Endpoint.is_read_as reader id then held else 0) }
{
    if is_read_as(reader, id) { held } else { 0 }
}

impl ConnectionStreams {
    /// How many bytes came on a unidirectional stream of the peer and are held, at most the greatest `usize`. They are held as its type or
    /// its session, or by the reader of the control, encoder or decoder stream. It takes no memory.
    #[tactic(auto, using(crate::proofs::Held::held_stands))]
    pub fn held(&self, own: &Announced, id: StreamId) -> usize
        ensures { (s : EndpointState) (e : EndpointHistory) → StandsFor (placed s self.now) e → e.announced ≡ own.now
            → result ≡ counted (held_of_peer e id) }
    {
        let control = held_by(self.control_on, id, self.peer.held(own.kinds()));
        let encoder = held_by(self.encoder_on, id, self.decoding.unread_len());
        let decoder = held_by(self.decoder_on, id, self.encoding.unread_len());
        self.held_by_stream(id)
            .saturating_add(control)
            .saturating_add(encoder)
            .saturating_add(decoder)
    }

    // What is held as its type or its session.
    fn held_by_stream(&self, id: StreamId) -> usize
        ensures { result ≡ held_of_role (stream_of_peer self.now id) (stream_of_peer self.now id).role }
    {
        self.unidirectional.held(id)
    }
}
