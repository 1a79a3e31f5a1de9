//! What the transport says of a stream that fails.

/// Why a stream gives no more.
#[derive(Debug, Drop)]
pub enum StreamErrorIncoming {
    /// The connection was closed, with this code.
    ConnectionErrorIncoming { code: u64 },
    /// The peer reset the stream, with this code.
    StreamTerminated { error_code: u64 },
    /// The transport has another reason.
    Unknown,
    /// There was no memory for what came.
    OutOfMemory,
}
