//! What a stream of a session begins with (draft-ietf-webtrans-http3-02, sections 4.1 and 4.2): its type, and the session's id.
ghost use Rattle.std.specs.Prelude.{◌≡◌, IfOk};
ghost use Rattle.h3_webtransport_streams.specs.Sender.{front_both_ways, front_one_way};

use bytes::Bytes;
use h3_capsule::capsule;
use h3_proto::webtransport::SessionId;
use std::alloc::{AllocError, Global};

/// The type of a bidirectional one.
pub(crate) const BOTH_WAYS: u64 = 0x41;

/// The type of a unidirectional one.
const ONE_WAY: u64 = 0x54;

/// The front of a bidirectional stream. (Two numbers are written as the type and the length of a capsule are.)
pub(crate) fn both_ways_front(alloc: Global, session: SessionId) -> Result<Bytes, AllocError>
    ensures { IfOk result (λ front. front ≡ front_both_ways session) }
{
    let head = capsule::head(BOTH_WAYS, session.into_inner());
    Bytes::copy_from_slice(alloc, head.as_slice())
}

/// The front of a unidirectional stream.
pub(crate) fn one_way_front(alloc: Global, session: SessionId) -> Result<Bytes, AllocError>
    ensures { IfOk result (λ front. front ≡ front_one_way session) }
{
    let head = capsule::head(ONE_WAY, session.into_inner());
    Bytes::copy_from_slice(alloc, head.as_slice())
}
