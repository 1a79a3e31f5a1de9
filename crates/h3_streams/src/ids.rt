//! What the id of a stream is to an endpoint (RFC 9000, section 2.1; RFC 9114, section 6.2).
ghost use Rattle.std.specs.Prelude.{◌≡◌};
ghost use Rattle.h3_connection.specs.Endpoint.{kind_of};
ghost use Rattle.h3_connection.specs.OwnIds.{other, is_own};
ghost use Rattle.h3_streams.specs.Ids.{kind};

use h3_proto::stream::{Side, StreamId};

/// What an id is to an endpoint, by its two low bits.
#[derive(Clone, Copy)]
pub enum StreamKind {
    /// A request stream, which a client opens.
    Request,
    /// A stream both ways that a server would open.
    ServerOpened,
    /// A stream on which this side alone sends.
    OwnUnidirectional,
    /// A stream on which the peer alone sends.
    PeerUnidirectional,
}

impl StreamKind {
    /// The kind of an id, to the endpoint of that side.
    pub fn of(side: Side, id: StreamId) -> StreamKind
        ensures { kind result ≡ kind_of side id }
    {
        let own = match side {
            Side::Client => 2,
            Side::Server => 3,
        };
        let low = id.into_inner() % 4;
        if low == 0 {
            return StreamKind::Request;
        }
        if low == 1 {
            return StreamKind::ServerOpened;
        }
        if low == own {
            return StreamKind::OwnUnidirectional;
        }
        StreamKind::PeerUnidirectional
    }
}

/// Whether an id is that of the control, encoder or decoder stream of this side.
pub(crate) fn is_own(side: Side, id: StreamId) -> bool
    ensures { result ≡ is_own side id }
{
    let control = match side {
        Side::Client => 2,
        Side::Server => 3,
    };
    let number = id.into_inner();
    number == control || number == control + 4 || number == control + 8
}

/// The peer's side.
pub(crate) fn other(side: Side) -> Side
    ensures { result ≡ other side }
{
    match side {
        Side::Client => Side::Server,
        Side::Server => Side::Client,
    }
}
