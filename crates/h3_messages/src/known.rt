//! The names that the rules speak of.
ghost use Rattle.std.specs.Prelude.{◌≡◌, ◌≢◌, ◌<◌, bytes_eq, length, slice_index, if◌then◌else◌, Some, None};
ghost use Rattle.h3_messages.specs.Known.{place, known_at, known_of};

use crate::text::is_same;
use h3_header::FieldKind;

/// A field name that a rule speaks of.
#[derive(Clone, Copy)]
pub(crate) enum Known {
    Method,
    Scheme,
    Authority,
    Path,
    Protocol,
    Status,
    Host,
    ContentLength,
    Te,
    Connection,
    KeepAlive,
    ProxyConnection,
    TransferEncoding,
    Upgrade,
}

impl Known {
    /// How many there are.
    pub(crate) const COUNT: usize = 14;

    /// Which of them a name with no colon ahead is. No two of them have both one length and one third byte, so that a name is compared with
    /// at most one of them, here and below.
    #[inline(always)]
    pub(crate) fn of_regular(name: &[u8]) -> Option<Known>
        requires { slice_index name.now 0 ≢ 58 }
        ensures { result ≡ known_of name.now }
    {
        match name.len() {
            2 => if_same(name, b"te", Known::Te),
            4 => if_same(name, b"host", Known::Host),
            7 => if_same(name, b"upgrade", Known::Upgrade),
            10 => regular_of_ten(name),
            14 => if_same(name, b"content-length", Known::ContentLength),
            16 => if_same(name, b"proxy-connection", Known::ProxyConnection),
            17 => if_same(name, b"transfer-encoding", Known::TransferEncoding),
            _ => None,
        }
    }

    /// That of a pseudo-header field of this kind.
    pub(crate) fn of_kind(kind: FieldKind) -> Option<Known>
        ensures { result ≡ known_at kind }
    {
        match kind {
            FieldKind::Method => Some(Known::Method),
            FieldKind::Scheme => Some(Known::Scheme),
            FieldKind::Authority => Some(Known::Authority),
            FieldKind::Path => Some(Known::Path),
            FieldKind::Status => Some(Known::Status),
            FieldKind::Protocol => Some(Known::Protocol),
            FieldKind::Regular => None,
        }
    }

    /// The place at which a table has what is known of it.
    pub(crate) fn place(self) -> usize
        ensures place { result ≡ place self }
        ensures within { result < 14 }
    {
        match self {
            Known::Method => 0,
            Known::Scheme => 1,
            Known::Authority => 2,
            Known::Path => 3,
            Known::Protocol => 4,
            Known::Status => 5,
            Known::Host => 6,
            Known::ContentLength => 7,
            Known::Te => 8,
            Known::Connection => 9,
            Known::KeepAlive => 10,
            Known::ProxyConnection => 11,
            Known::TransferEncoding => 12,
            Known::Upgrade => 13,
        }
    }
}

// Which of them a name of ten bytes with no colon ahead is.
fn regular_of_ten(name: &[u8]) -> Option<Known>
    requires first { slice_index name.now 0 ≢ 58 }
    requires size { length name.now ≡ 10 }
    ensures { result ≡ known_of name.now }
{
    match name[2] {
        b'n' => if_same(name, b"connection", Known::Connection),
        b'e' => if_same(name, b"keep-alive", Known::KeepAlive),
        _ => None,
    }
}

// The name, if it is this text.
#[inline(always)]
fn if_same(name: &[u8], text: &[u8], known: Known) -> Option<Known>
    ensures { result ≡ (if bytes_eq name.now text.now then Some known else None) }
{
    if is_same(name, text) {
        Some(known)
    } else {
        None
    }
}
