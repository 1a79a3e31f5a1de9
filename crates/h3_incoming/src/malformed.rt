//! Why a list of fields is malformed.
ghost use Rattle.std.specs.Prelude.{◌≡◌, option_map};
ghost use Rattle.h3_header.specs.BadPart.{refusal_of};
ghost use Rattle.h3_connection.specs.Pulling.{malformation_of};
ghost use Rattle.h3_messages.specs.Outline.{refusal_by};

use h3_connection::event::Malformation;
use h3_header::BadPart;
use h3_messages::ListError;

/// Why a list is malformed of which a field is malformed by itself.
pub fn malformation_by(part: BadPart) -> Malformation
    ensures { result ≡ malformation_of (refusal_of part) }
{
    match part {
        BadPart::Name => Malformation::Name,
        BadPart::Value => Malformation::Value,
    }
}

/// Why a list is malformed that reads as no header. `OutOfMemory` says nothing of that.
pub fn malformation_in(e: ListError) -> Option<Malformation>
    ensures { result ≡ option_map malformation_of (refusal_by e) }
{
    match e {
        ListError::Malformed(part) => Some(malformation_by(part)),
        ListError::TooMany => Some(Malformation::TooMany),
        ListError::OutOfMemory => None,
    }
}
