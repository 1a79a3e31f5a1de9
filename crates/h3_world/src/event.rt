//! What may happen to a client and a server, and what comes of it.
use crate::lists::FieldLines;
use bytes::Bytes;
use h3_coding::varint::VarInt;
use h3_connection::event::{PeerLimits, Pull, Refusal, TableSizes};
use h3_connection::lists::ListPull;
use h3_header::Header;
use h3_proto::stream::{Side, StreamId};

/// What may happen. The side is the one that acts, or the one whose bytes are delivered.
#[derive(Drop)]
pub enum Event {
    /// A client opens the next request stream.
    OpenRequest(Side),
    /// A header section is sent on a stream: that of a request, of an interim response or of a response.
    Head(Side, StreamId, Header),
    /// A header section is sent as this list of fields, in its order.
    Fields(Side, StreamId, FieldLines),
    /// Some bytes of the body are sent.
    Body(Side, StreamId, Bytes),
    /// The trailer is sent.
    Trailer(Side, StreamId, Header),
    /// The trailer is sent as this list of fields.
    TrailerFields(Side, StreamId, FieldLines),
    /// The message is complete.
    Finish(Side, StreamId),
    /// Sending ends, and what waits is dropped.
    Reset(Side, StreamId),
    /// What the other side sends on the stream is given up.
    Cancel(Side, StreamId),
    /// The side announces that it goes away (RFC 9114, section 5.2).
    Goaway(Side, VarInt),
    /// So many of the bytes that wait on a stream go over to the other side.
    Deliver(Side, StreamId, usize),
    /// The end of a stream goes over.
    DeliverEnd(Side, StreamId),
    /// The reset of a stream goes over.
    DeliverReset(Side, StreamId),
    /// The next item of what the other side sent on a stream is asked for.
    Pull(Side, StreamId),
    /// The same, with each header section and trailer as the list of its fields.
    PullFields(Side, StreamId),
    /// The limits and the tables are shown.
    Show(Side),
}

/// What comes of an event.
#[derive(Drop)]
pub enum Answer {
    /// The request stream of this id was opened.
    Opened(StreamId),
    /// It was done.
    Done,
    /// So many bytes went over.
    Delivered(usize),
    /// Fewer bytes wait: so many. Nothing was delivered.
    Short(usize),
    /// The side has no bytes to deliver under this id.
    NoStream,
    /// The end or the reset can't go over yet.
    Early,
    /// The answer of the pull.
    Pulled(Pull),
    /// The answer of the pull with lists.
    Listed(ListPull),
    /// The other side's limits once they are known, the tables, and how many streams wait.
    Shown(Option<PeerLimits>, TableSizes, usize),
    /// The call was refused. A list that is no header section or trailer is refused as malformed.
    Refused(Refusal),
}
