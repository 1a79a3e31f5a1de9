//! What a line asks of an endpoint.
use bytes::Bytes;
use h3_coding::varint::VarInt;
use h3_connection::setup::Limits;
use h3_field::HeaderField;
use h3_header::Header;
use h3_proto::config::Config;
use h3_proto::stream::{Side, StreamId};

/// What a line asks of an endpoint.
#[derive(Drop)]
pub enum Call {
    /// A new endpoint in place of the one before.
    New(Side, Config, Limits),
    Open,
    Head(StreamId, Header),
    /// A header section as a list of fields.
    Fields(StreamId, Vec<HeaderField>),
    Body(StreamId, Bytes),
    Trailer(StreamId, Header),
    /// A trailer as a list of fields.
    Trailers(StreamId, Vec<HeaderField>),
    Finish(StreamId),
    Reset(StreamId),
    Cancel(StreamId),
    Goaway(VarInt),
    Deliver(StreamId, Bytes),
    End(StreamId),
    Gone(StreamId, u64),
    Pull(StreamId),
    /// The next item, with its list of fields.
    Pulls(StreamId),
    /// All that waits on a stream.
    Waits(StreamId),
    /// The first piece of what waits.
    Lends(StreamId),
    Advance(StreamId, usize),
    /// Whether anything can be sent on a stream, and whether that was finished or reset.
    Sends(StreamId),
    Tries(StreamId),
    Show,
    Sent,
    Goaways,
}
