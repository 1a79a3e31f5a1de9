//! What comes from the peer on a stream.
use bytes::Bytes;
use h3_proto::stream::StreamId;

/// The bytes of a stream that wait, to be read or to be sent, stay below twice this number, which no memory has room for. A call that
/// would let more wait is refused as one that lacks memory.
pub const MOST_HELD: usize = 1 << 61;

/// Bytes, the end, or a reset with its code, on the stream of this id.
#[derive(Drop)]
pub enum Arrival {
    /// Bytes came.
    BytesCame(StreamId, Bytes),
    /// The end of the stream came.
    EndCame(StreamId),
    /// The stream was reset, with this code of an application.
    ResetCame(StreamId, u64),
}
