//! The answers of pulls that have lists of fields in the place of headers.
use crate::event::Fault;
use bytes::Bytes;
use h3_field::FieldBlock;
use h3_proto::webtransport::SessionId;

/// What a pull with lists returns, as `Item` has it, but for header sections and trailers. Of these it has the fields, as they came and in
/// the order in which they came: `Header::of_fields` takes them.
#[derive(Drop)]
pub enum ListItem {
    /// A header section with a status from 100 to 199, which is not the last one.
    Interim(FieldBlock),
    /// The header section of a request, or the final one of a response.
    Head(FieldBlock),
    /// The next piece of the content, as the pieces came that were delivered.
    Body(Bytes),
    /// The trailer, after which nothing but the end comes.
    Trailer(FieldBlock),
    /// In the place of a header section or trailer whose size is above the local limit on sections: that size.
    TooLarge(u64),
    /// The stream is one of this WebTransport session, and no message.
    Session(SessionId),
    /// The next piece of such a stream, as it came.
    Raw(Bytes),
    /// The stream has ended, and all of it was returned.
    End,
}

/// The answer of a pull with lists, as `Pull` has it, with a `ListItem`.
#[derive(Drop)]
pub enum ListPull {
    /// The next item.
    Item(ListItem),
    /// The next item isn't there yet.
    Pending,
    /// The next header section or trailer needs so many insertions.
    Waiting(usize),
    /// There is none, for this fault.
    Fault(Fault),
    /// The stream has no messages for this side.
    NoMessages,
}
