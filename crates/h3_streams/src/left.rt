//! What is left of an arrival whose reading ran out of memory.
ghost use Rattle.std.specs.Prelude.{◌≡◌, [], None};

use bytes::Bytes;
use h3_proto::stream::StreamId;

/// What is still to be read: these bytes on a stream of the peer, and then its decoder stream once more if that is named. Then the settings
/// came for which its bytes have waited. No bytes stand for those that the stream's reader holds.
#[derive(Drop)]
pub struct Left {
    /// The stream.
    pub id: StreamId,
    /// What came on it and is not read.
    pub bytes: Bytes,
    /// The peer's decoder stream, if it is read after them.
    pub early: Option<StreamId>,
}

impl Left {
    /// These bytes.
    pub(crate) fn of(id: StreamId, bytes: Bytes) -> Left
        ensures { result ≡ record { id = id; bytes = bytes; early = None } }
    {
        Left {
            id,
            bytes,
            early: None,
        }
    }

    /// What the reader of the stream holds.
    pub(crate) fn held(id: StreamId) -> Left
        ensures { result ≡ record { id = id; bytes = []; early = None } }
    {
        Left::of(id, Bytes::new())
    }
}
