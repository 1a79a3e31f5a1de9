//! The unidirectional streams of an endpoint.
ghost use Rattle.std.specs.Prelude.{◌≡◌, ◌<◌, ◌^◌, IfOk, IfSome, is_some};
ghost use Rattle.std.specs.List.{concat};
ghost use Rattle.h3_connection.specs.Endpoint.{EndpointHistory, is_critical_id};
ghost use Rattle.h3_connection.specs.Sending.{pull_peer};
ghost use Rattle.h3_connection.specs.State.{EndpointState, StandsFor};
ghost use Rattle.h3_connection.specs.StreamSets.{stream_at};
ghost use Rattle.h3_connection.specs.Unidirectional.{is_closed};
ghost use Rattle.h3_streams.specs.Placed.{placed, first_streams, stream_of_peer, is_critical_at, Answers};

use crate::ids::{StreamKind, is_own, other};
use crate::peer_streams::PeerStreams;
use h3_connection::event::Pull;
use h3_connection::setup::Announced;
use h3_frames::frame::FrameBuffer;
use h3_proto::stream::{Side, StreamId};
use h3_unidirectional::control::PeerControl;
use h3_unidirectional::decoding::Decoding;
use h3_unidirectional::encoding::Encoding;
use h3_unidirectional::own::OwnStreams;
use std::alloc::{AllocError, Global};
use std::marker::Model;

/// The peer's unidirectional streams with their readers, both QPACK ends, and the local streams.
#[derive(Drop)]
pub struct ConnectionStreams {
    /// The peer's streams of which anything came, by their ids.
    pub unidirectional: PeerStreams,
    /// The peer's stream that is read as its control stream.
    pub control_on: Option<StreamId>,
    /// The one that is read as its encoder stream.
    pub encoder_on: Option<StreamId>,
    /// The one that is read as its decoder stream.
    pub decoder_on: Option<StreamId>,
    /// What the peer's control stream said, and what of it is not read.
    pub peer: PeerControl,
    /// The local decoder, with the peer's encoder stream.
    pub decoding: Decoding,
    /// The local encoder, with the peer's decoder stream.
    pub encoding: Encoding,
    /// What waits on the local control, encoder and decoder streams.
    pub own: OwnStreams,
}

impl Model for ConnectionStreams {
    ghost use Rattle.h3_streams.specs.Placed.{StreamsState};

    ghost Value = { StreamsState };

    ghost view = { λ x. record {
      unidirectional = x.unidirectional;
      control_on = x.control_on;
      encoder_on = x.encoder_on;
      decoder_on = x.decoder_on;
      peer = x.peer;
      decoding = x.decoding;
      encoding = x.encoding;
      own = x.own;
    } };
}

/// Whether this stream is read as such.
pub(crate) fn is_read_as(first: Option<StreamId>, id: StreamId) -> bool
    ensures { result ≡ Rattle.h3_connection.specs.Endpoint.is_read_as first id }
{
    match first {
        Some(first) => first.into_inner() == id.into_inner(),
        None => false,
    }
}

impl ConnectionStreams {
    /// Those of an endpoint that announces these settings and limits, of which nothing was sent or came.
    pub fn new(alloc: Global, announced: &Announced) -> Result<ConnectionStreams, AllocError>
        requires { announced.now.limits.table < 2 ^ 30 }
        ensures { IfOk result (λ streams. streams ≡ first_streams announced.now) }
    {
        let own = OwnStreams::new(alloc, &announced.settings)?;
        Ok(ConnectionStreams {
            unidirectional: PeerStreams::new(alloc),
            control_on: None,
            encoder_on: None,
            decoder_on: None,
            peer: PeerControl::new(alloc, announced.most_updates(), announced.most_others()),
            decoding: Decoding::new(
                alloc,
                announced.limits.table as usize,
                announced.choices.extensions.strict_connection,
            ),
            encoding: Encoding::new(alloc, announced.choices),
            own,
        })
    }

    /// Whether the connection needs this stream: one of the six own ones, or one of the peer's that is read as such.
    #[tactic(auto, using(crate::specs::PlacedLaws::critical_stands))]
    pub fn is_critical(&self, side: Side, id: StreamId) -> bool
        ensures value { result ≡ is_critical_at side self.now id (Rattle.h3_connection.specs.Endpoint.kind_of side id) }
        ensures history { (s : EndpointState) (e : EndpointHistory) → StandsFor (placed s self.now) e → e.side ≡ side
            → result ≡ is_critical_id e id }
    {
        match StreamKind::of(side, id) {
            StreamKind::Request => false,
            StreamKind::ServerOpened => false,
            StreamKind::OwnUnidirectional => is_own(side, id),
            StreamKind::PeerUnidirectional => {
                is_own(other(side), id)
                    || is_read_as(self.control_on, id)
                    || is_read_as(self.encoder_on, id)
                    || is_read_as(self.decoder_on, id)
            }
        }
    }

    /// Whether the end or the reset of this stream of the peer came.
    pub fn is_closed(&self, id: StreamId) -> bool
        ensures { result ≡ is_closed (stream_of_peer self.now id) }
    {
        self.unidirectional.is_closed(id)
    }

    /// The bytes of the peer's control stream that were not read, with the count of tries of the frame at their front. None if this is not
    /// that stream.
    pub fn control_frames(&self, id: StreamId) -> Option<&FrameBuffer>
        ensures stream { is_some result ≡ Rattle.h3_connection.specs.Endpoint.is_read_as self.now.control_on id }
        ensures bytes { IfSome result (λ frames. concat frames.now.pieces ≡ self.now.peer.unread) }
    {
        if is_read_as(self.control_on, id) {
            return Some(self.peer.frames());
        }
        None
    }

    /// What this stream of the peer gives next. Before anything of it came that is pending. It takes no memory.
    pub fn pull(&mut self, id: StreamId) -> Pull
        ensures { (s : EndpointState) (e : EndpointHistory) → StandsFor (placed s self.old) e
            → Answers s result self.new (pull_peer e id (stream_at e.unidirectional id)) }
    {
        self.unidirectional.pull(id)
    }
}
