//! How much of what came is still held.
ghost use Rattle.std.specs.Prelude.{◌≡◌};
ghost use Rattle.h3_connection.specs.Unread.{held_of_role};

use super::{Kind, UnidirectionalStream};
use bytes::Buf;

impl UnidirectionalStream {
    /// How many bytes of it came and are held. These are those of its type, or of the id after that, while they are not whole, and those
    /// of a session, or of a stream of another type, that were not pulled. What came for another reader is that reader's, and what came for
    /// none was thrown away.
    pub fn held(&self) -> usize
        ensures { result ≡ held_of_role self.now self.now.role }
    {
        match self.kind {
            Kind::Untold => self.front.len(),
            Kind::Session(_) => self.unread.remaining(),
            Kind::Other(_) => self.unread.remaining(),
            Kind::Control => 0,
            Kind::Encoder => 0,
            Kind::Decoder => 0,
            Kind::Push(_) => 0,
            Kind::Ignored => 0,
        }
    }
}
