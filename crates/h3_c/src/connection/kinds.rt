//! What the peer's unidirectional streams are.
ghost use Rattle.std.specs.Prelude.{◌≡◌, ◌≤◌, ◌^◌};
ghost use Rattle.h3_c.specs.Exported.{OnStream};
ghost use Rattle.h3_c.specs.Kinds.{ShowsKind, ShowsType, kind_number, type_of};

use super::Connection;
use crate::numbers::{ARGUMENT, NONE, OK, Told};
use h3_proto::stream::StreamId;
use h3_session::Kind;

impl Connection {
    /// What a unidirectional stream of the peer is.
    pub(crate) fn stream_kind(&self, id: u64, kind: &mut u32) -> Told
        ensures shows { OnStream id result self.now self.now (ShowsKind self.now id result kind.old kind.new) }
        ensures unwritten { 2 ^ 62 ≤ id → kind.new ≡ kind.old }
    {
        let Ok(id) = StreamId::try_from(id) else {
            return ARGUMENT;
        };
        match self.endpoint.stream_kind(id) {
            Some(found) => {
                *kind = kind_number(found);
                OK
            }
            None => NONE,
        }
    }

    /// The type of a unidirectional stream of the peer that is delivered though its type has no meaning.
    pub(crate) fn other_type(&self, id: u64, number: &mut u64) -> Told
        ensures shows { OnStream id result self.now self.now (ShowsType self.now id result number.old number.new) }
        ensures unwritten { 2 ^ 62 ≤ id → number.new ≡ number.old }
    {
        let Ok(id) = StreamId::try_from(id) else {
            return ARGUMENT;
        };
        match other_type(self.endpoint.stream_kind(id)) {
            Some(found) => {
                *number = found;
                OK
            }
            None => NONE,
        }
    }
}

/// Its type, if that has no meaning and the stream is delivered.
fn other_type(kind: Option<Kind>) -> Option<u64>
    ensures { result ≡ type_of kind }
{
    match kind? {
        Kind::Other(number) => Some(number),
        Kind::Untold => None,
        Kind::Control => None,
        Kind::Encoder => None,
        Kind::Decoder => None,
        Kind::Push(_) => None,
        Kind::Session(_) => None,
        Kind::Ignored => None,
    }
}

/// Its number in `enum h3_stream_type`.
fn kind_number(kind: Kind) -> u32
    ensures { result ≡ kind_number kind }
{
    match kind {
        Kind::Untold => 0,
        Kind::Control => 1,
        Kind::Encoder => 2,
        Kind::Decoder => 3,
        Kind::Push(_) => 4,
        Kind::Session(_) => 5,
        Kind::Ignored => 6,
        Kind::Other(_) => 7,
    }
}
