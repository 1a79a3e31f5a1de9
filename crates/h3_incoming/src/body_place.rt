//! The place of a piece of a body in bytes that were given.

/// The place of a piece of a body in bytes that were given to a call: `len` bytes after the first `offset`.
#[derive(Clone, Copy, PartialEq, Eq, Debug)]
pub struct BodyPlace {
    /// How many bytes stand before it: the type and length of its DATA frame, or none.
    pub offset: usize,
    /// How many bytes it has: at least one.
    pub len: usize,
}
