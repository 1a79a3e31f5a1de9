//! The item that was pulled last, as C sees it: `h3_item` of the header.
ghost use Rattle.std.specs.Prelude.{◌≡◌, unwrap_or, IfSome, IfNone, Some, None};
ghost use Rattle.h3_header.specs.Reads.{head_of_fields};
ghost use Rattle.h3_connection.specs.Lists.{list_of};
ghost use Rattle.h3_connection.specs.declared.lists.ListPull.TheVariants as answer;
ghost use Rattle.h3_incoming.specs.BlockPulls.{listed_as, plain_answer};
ghost use Rattle.h3_c.specs.Items.{shown, plain, numbered, bytes_shown, fault_shown, malformation_number, bytes_of};

use crate::rows::bytes_in;
use bytes::Bytes;
use h3_connection::event::{Fault, Malformation, StreamFault};
use h3_field::FieldBlock;
use h3_incoming::answer::{MessageKind, Plain};
use h3_incoming::{BlockPull, Told};

/// A kind, and what it says.
#[repr(C)]
#[derive(Copy, Clone)]
pub struct PulledItem {
    pub kind: u32,
    pub status: u32,
    pub number: u64,
    pub fields: usize,
    pub len: usize,
}

fn plain(kind: u32) -> PulledItem
    ensures { result ≡ plain kind }
{
    numbered(kind, 0)
}

fn numbered(kind: u32, number: u64) -> PulledItem
    ensures { result ≡ numbered kind number }
{
    PulledItem {
        kind,
        status: 0,
        number,
        fields: 0,
        len: 0,
    }
}

fn bytes_shown(kind: u32, bytes: &Bytes) -> PulledItem
    ensures { result ≡ bytes_shown kind bytes.now }
{
    PulledItem {
        kind,
        status: 0,
        number: 0,
        fields: 0,
        len: bytes.len(),
    }
}

/// The number of `enum h3_malformation`.
pub(crate) fn malformation_number(why: Malformation) -> u64
    ensures { result ≡ malformation_number why }
{
    match why {
        Malformation::Name => 0,
        Malformation::Value => 1,
        Malformation::TooMany => 2,
        Malformation::WrongSide => 3,
        Malformation::PseudoInTrailer => 4,
        Malformation::NoHead => 5,
        Malformation::PseudoOrder => 6,
        Malformation::WrongPseudo => 7,
        Malformation::RepeatedPseudo => 8,
        Malformation::ConnectionField => 9,
        Malformation::ContentLength => 10,
        Malformation::Protocol => 11,
        Malformation::Connect => 12,
        Malformation::MissingPseudo => 13,
        Malformation::Scheme => 14,
        Malformation::Authority => 15,
        Malformation::Path => 16,
        Malformation::Status => 17,
        Malformation::TrailerField => 18,
        Malformation::TooLong => 19,
    }
}

fn fault_shown(fault: StreamFault) -> PulledItem
    ensures { result ≡ fault_shown fault }
{
    match fault {
        StreamFault::Malformed(why) => numbered(13, malformation_number(why)),
        StreamFault::Reset(code) => numbered(14, code),
        StreamFault::Canceled => plain(15),
    }
}

/// Writes what a pull answered, as C sees it.
pub(crate) fn show(answer: &BlockPull, item: &mut PulledItem)
    ensures { item.new ≡ shown answer.now }
{
    match answer.told() {
        Told::Message(kind, status) => {
            let status = match status {
                Some(status) => status.as_u16() as u32,
                None => 0,
            };
            show_message(*kind, status, answer.block(), item);
        }
        Told::Plain(said) => *item = plain_shown(said),
    }
}

fn show_message(kind: MessageKind, status: u32, fields: &FieldBlock, item: &mut PulledItem)
    requires { status ≡ unwrap_or (head_of_fields fields.now).status 0 }
    ensures { item.new ≡ shown (answer.Item (listed_as kind fields.now)) }
{
    let kind = match kind {
        MessageKind::Interim => 1,
        MessageKind::Head => 2,
        MessageKind::Trailer => 4,
    };
    *item = PulledItem {
        kind,
        status,
        number: 0,
        fields: fields.len(),
        len: bytes_in(fields),
    };
}

/// What a pull answered, as C sees it, if that has no fields.
pub(crate) fn plain_shown(said: &Plain) -> PulledItem
    ensures { result ≡ shown (plain_answer said.now) }
{
    match said {
        Plain::Body(bytes) => bytes_shown(3, bytes),
        Plain::TooLarge(size) => numbered(5, *size),
        Plain::Session(id) => numbered(6, id.into_inner()),
        Plain::Raw(bytes) => bytes_shown(7, bytes),
        Plain::End => plain(8),
        Plain::Pending => plain(9),
        Plain::Waiting(count) => numbered(10, *count as u64),
        Plain::NoMessages => plain(11),
        Plain::Fault(fault) => fault_given(fault),
    }
}

fn fault_given(fault: &Fault) -> PulledItem
    ensures { result ≡ shown (answer.Fault fault.now) }
{
    match fault {
        Fault::Connection(code) => numbered(12, code.value()),
        Fault::Stream(fault) => fault_shown(*fault),
        Fault::Memory => plain(16),
    }
}

/// The fields of a header or trailer section, and nothing of anything else.
pub(crate) fn fields_of(answer: &BlockPull) -> Option<&FieldBlock>
    ensures some { IfSome result (λ fields. list_of answer.now ≡ Some fields.now) }
    ensures none { IfNone result (list_of answer.now ≡ None) }
{
    match answer.told() {
        Told::Message(_, _) => Some(answer.block()),
        Told::Plain(_) => None,
    }
}

/// The bytes of a body or of a session, and nothing of anything else.
pub(crate) fn bytes_of(answer: &BlockPull) -> &[u8]
    ensures { result.now ≡ bytes_of answer.now }
{
    match answer.told() {
        Told::Plain(Plain::Body(bytes)) => bytes.as_slice(),
        Told::Plain(Plain::Raw(bytes)) => bytes.as_slice(),
        _ => &[],
    }
}
