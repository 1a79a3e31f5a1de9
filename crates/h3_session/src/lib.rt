//! An HTTP/3 connection (RFC 9114) with QPACK (RFC 9204), as one endpoint sees it: `endpoint::Endpoint`. It reads no socket. A caller with
//! a QUIC library delivers what comes on each stream (`deliver`, `deliver_end`, `deliver_reset`), and pulls header sections, bodies and
//! trailers (`pull`). It sends its messages (`open_request`, `send_head`, `send_body`, `send_trailer`, `finish`), and takes the bytes that
//! wait (`outgoing`, `advance`).
//!
//! - An endpoint is made for a `Side`, by a `Config` and the `Limits` of its decoder, unless a `NewError` refuses them.
//! - Messages are a `Header`, `Bytes` and perhaps a `Header` again; a stream is named by a `StreamId`.
//! - A `Pull` is an `Item`, a pause or a `Fault`, and a `ListPull` the same with lists of fields in the place of headers. A `BlockPull`
//!   has these in a block of memory that serves again. A call that is refused answers a `Refusal`, a delivery a `DeliverError`.
//! - `run::run` drives two endpoints, made by a `Setup`, over a list of `Event`s, and gives an `Answer` for each. What a client and a
//!   server may count on with each other is its contract.
//! - `laws` says what the calls come to over whole lists of calls: streams are isolated, cuts don't count, work is bounded.
//!
//! The types of all signatures are here too, so a caller names this crate alone, and those of the kit that it uses (`bytes`, `http`).
#![tactic(auto)]

pub mod endpoint;
pub mod laws;
pub mod run;

pub use crate::endpoint::{ClosedStream, ConnectionEvent, DatagramError, DatagramRead, EventsSeen};
pub use bytes::Bytes;
pub use h3_capsule::head_bytes::HeadBytes;
pub use h3_coding::varint::VarInt;
pub use h3_connection::event::{
    DeliverError, Fault, Item, Malformation, PeerLimits, Pull, Refusal, StreamFault, TableSizes,
};
pub use h3_connection::lists::{ListItem, ListPull};
pub use h3_connection::setup::{Announced, Limits, NewError};
pub use h3_field::{FieldBlock, FieldRef, Fields, HeaderField};
pub use h3_frames::frame::FrameBuffer;
pub use h3_header::{Header, HeaderError, Protocol};
pub use h3_incoming::answer::{MessageKind, Plain};
pub use h3_incoming::{BlockPull, BodyPlace, Told};
pub use h3_priority::priority::Priority;
pub use h3_proto::config::{Choices, Config};
pub use h3_proto::error::Code;
pub use h3_proto::frame::{SettingId, Settings, SettingsError};
pub use h3_proto::stream::{InvalidStreamId, Side, StreamId};
pub use h3_proto::webtransport::SessionId;
pub use h3_unidirectional::stream::Kind;
pub use h3_world::event::{Answer, Event};
pub use h3_world::setup::Setup;
