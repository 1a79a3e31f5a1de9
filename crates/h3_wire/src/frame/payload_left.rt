//! What is left of a payload.

/// What is left of the payload under way: so many bytes (0 if no payload is under way), or all to
/// the stream's end.
#[derive(Clone, Copy, Debug, PartialEq, Eq)]
pub enum PayloadLeft {
    /// So many bytes.
    Bytes(usize),
    /// All to the stream's end.
    ToEnd,
}
