//! What is asked of the transport: a source of bytes in pieces.
ghost use Rattle.std.specs.Prelude.{◌≡◌, ℕ, List};
ghost use Rattle.h3_wire.specs.Source.{Answer, Polls};

use bytes::Bytes;
use h3_frames::proto::stream::StreamId;
pub use h3_frames::quic::StreamErrorIncoming;

/// What a call has for its caller now.
#[derive(Clone, Copy, Debug, PartialEq, Eq)]
pub enum Poll<T> {
    /// This is it.
    Ready(T),
    /// Nothing yet: ask again.
    Pending,
}

/// A stream that is read in pieces. An implementation says what its answers mean by `answers`, and
/// proves that they keep the law `polls`.
pub trait RecvStream {
    // The bytes that it still gives.
    ghost rest: { Self → List ℕ };

    // What an answer says of the source before it and after it.
    ghost answers: { Self → Answer → Self → Type 0 };

    // The number of the stream.
    ghost id: { Self → ℕ };

    /// The next piece, or `None` at the end.
    fn poll_data(&mut self) -> Poll<Result<Option<Bytes>, StreamErrorIncoming>>
        ensures { answers self.old result self.new };

    /// The id of the stream.
    fn recv_id(&self) -> StreamId
        ensures { result ≡ id self.now };

    // The pieces joined are a front of the bytes that it gives, none is empty, and after the end
    // none comes. An answer that gives no piece changes none of these bytes.
    ghost polls: { (s t : Self) (answer : Answer) → answers s answer t → Polls answer (rest s) (rest t) };

    // It stays the same stream.
    ghost same: { (s t : Self) (answer : Answer) → answers s answer t → id t ≡ id s };
}
