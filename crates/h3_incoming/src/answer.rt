//! What a pull answers beside the fields of a header or trailer section.
ghost use Rattle.std.specs.Prelude.{◌≡◌, false};
ghost use Rattle.h3_connection.specs.Pulling.{is_interim};
ghost use Rattle.h3_connection.specs.declared.event.Item.TheVariants as item;
ghost use Rattle.h3_connection.specs.declared.event.Pull.TheVariants as pull;
ghost use Rattle.h3_incoming.specs.Answering.{has_header, item_of, kind_at, plain_pull};

use bytes::Bytes;
use h3_connection::event::{Fault, Item, Pull};
use h3_connection::place::Place;
use h3_header::Header;
use h3_messages::Outline;
use h3_proto::stream::Side;
use h3_proto::webtransport::SessionId;

/// An answer that has no header or trailer section.
#[derive(Drop)]
pub enum Plain {
    /// The next piece of the content.
    Body(Bytes),
    /// The next piece of a WebTransport stream.
    Raw(Bytes),
    /// The stream is one of this WebTransport session.
    Session(SessionId),
    /// In the place of a header or trailer section that is too large: its size.
    TooLarge(u64),
    /// The stream has ended.
    End,
    /// The next item isn't there yet.
    Pending,
    /// The next header or trailer section needs so many insertions.
    Waiting(usize),
    /// There is none, for this fault.
    Fault(Fault),
    /// The stream has no messages for this side.
    NoMessages,
}

/// What a field section is at its place.
#[derive(Clone, Copy, Debug, PartialEq, Eq)]
pub enum MessageKind {
    /// A header section with a status from 100 to 199.
    Interim,
    /// Another header section.
    Head,
    /// A trailer section.
    Trailer,
}

/// Puts a value in the place of another, which is dropped.
pub fn put<T: Drop>(place: &mut T, value: T)
    ensures { place.new ≡ value }
{
    *place = value;
}

/// The same answer, if it has no `Header`. One that has becomes `Fault::Memory`.
pub(crate) fn plain_of(answer: Pull) -> Plain
    ensures { has_header answer ≡ false → plain_pull result ≡ answer }
{
    match answer {
        Pull::Item(item) => plain_of_item(item),
        Pull::Pending => Plain::Pending,
        Pull::Waiting(count) => Plain::Waiting(count),
        Pull::Fault(fault) => Plain::Fault(fault),
        Pull::NoMessages => Plain::NoMessages,
    }
}

fn plain_of_item(item: Item) -> Plain
    ensures { has_header (pull.Item item) ≡ false → plain_pull result ≡ pull.Item item }
{
    match item {
        Item::Body(bytes) => Plain::Body(bytes),
        Item::Raw(bytes) => Plain::Raw(bytes),
        Item::Session(session) => Plain::Session(session),
        Item::TooLarge(size) => Plain::TooLarge(size),
        Item::End => Plain::End,
        Item::Head(_) | Item::Interim(_) | Item::Trailer(_) => Plain::Fault(Fault::Memory),
    }
}

/// The answer that it is.
pub(crate) fn pull_of_plain(answer: Plain) -> Pull
    ensures { result ≡ plain_pull answer }
{
    match answer {
        Plain::Body(bytes) => Pull::Item(Item::Body(bytes)),
        Plain::Raw(bytes) => Pull::Item(Item::Raw(bytes)),
        Plain::Session(session) => Pull::Item(Item::Session(session)),
        Plain::TooLarge(size) => Pull::Item(Item::TooLarge(size)),
        Plain::End => Pull::Item(Item::End),
        Plain::Pending => Pull::Pending,
        Plain::Waiting(count) => Pull::Waiting(count),
        Plain::Fault(fault) => Pull::Fault(fault),
        Plain::NoMessages => Pull::NoMessages,
    }
}

/// The header or trailer section of this kind that a header is.
pub(crate) fn item_of(kind: MessageKind, header: Header) -> Item
    ensures { result ≡ item_of kind header }
{
    match kind {
        MessageKind::Interim => Item::Interim(header),
        MessageKind::Head => Item::Head(header),
        MessageKind::Trailer => Item::Trailer(header),
    }
}

/// What a header or trailer section of this outline is at a place, for a side.
pub(crate) fn kind_at(side: Side, place: Place, outline: &Outline) -> MessageKind
    ensures { result ≡ kind_at side place outline.now.status }
{
    match place {
        Place::BeforeHead => head_kind(side, outline),
        Place::InBody | Place::AfterTrailer | Place::InSession => MessageKind::Trailer,
    }
}

// A client reads responses, interim ones among them.
fn head_kind(side: Side, outline: &Outline) -> MessageKind
    ensures { result ≡ kind_at side Place.BeforeHead outline.now.status }
{
    match side {
        Side::Client if is_interim(outline) => MessageKind::Interim,
        Side::Client | Side::Server => MessageKind::Head,
    }
}

/// Whether a status from 100 to 199 is there: that of an interim response (RFC 9110, section 15.2).
pub(crate) fn is_interim(outline: &Outline) -> bool
    ensures { result ≡ is_interim outline.now.status }
{
    match outline.status() {
        Some(status) => (100..=199).contains(&status.as_u16()),
        None => false,
    }
}
