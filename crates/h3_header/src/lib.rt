//! Header and trailer sections of HTTP/3 messages (RFC 9114, 4.1 to 4.3): their pseudo-header
//! fields and regular fields, and the field lists that they are sent as.
#![tactic(auto)]

pub mod ext;
pub mod grammar;
pub mod headers;
pub mod laws;

pub use ext::{InvalidProtocol, MOST_PROTOCOL_BYTES, Protocol};
pub use headers::{BadPart, FieldKind, Header, HeaderError, HeaderIter, MOST_NAMES, field_kind};
