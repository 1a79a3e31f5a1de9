//! The numbers that C sees: `enum h3_answer` of the header.
ghost use Rattle.std.specs.Prelude.{◌≡◌, true, Some, is_some};
ghost use Rattle.h3_c.specs.Numbers.{TellsField, TellsList, TellsMalformed, refusal_told, call_told, body_told, datagram_told};
ghost use Rattle.h3_c.specs.Numbers.{delivery_told, open_told, setting_of, new_told, told_or_memory};
ghost use Rattle.h3_connection.specs.Answers.{call_refused};
ghost use Rattle.h3_connection.specs.declared.event.Refusal.TheVariants as refusal;
ghost use Rattle.h3_messages.specs.InvalidField.{invalid_field};
ghost use Rattle.h3_session.specs.InvalidFields.{NamesField};

use crate::items::malformation_number;
use bytes::Bytes;
use h3_connection::event::{DeliverError, Malformation, Refusal};
use h3_connection::setup::NewError;
use h3_field::Fields;
use h3_proto::frame::SettingsError;
use h3_session::endpoint::{DatagramError, Endpoint};
use h3_webtransport::OpenError;

/// What a call answers: a number, and the code, id or size that it names, else 0.
#[derive(Clone, Copy)]
pub(crate) struct Told {
    pub(crate) number: u32,
    pub(crate) detail: u64,
}

/// `H3_OK`.
pub(crate) const OK: Told = Told {
    number: 0,
    detail: 0,
};

/// `H3_MEMORY`.
pub(crate) const MEMORY: Told = Told {
    number: 18,
    detail: 0,
};

/// `H3_FIELD_VALUE`.
pub(crate) const FIELD_VALUE: Told = Told {
    number: 23,
    detail: 0,
};

/// `H3_NONE`.
pub(crate) const NONE: Told = Told {
    number: 25,
    detail: 0,
};

/// `H3_ROOM`.
pub(crate) const ROOM: Told = Told {
    number: 26,
    detail: 0,
};

/// `H3_NO_DATAGRAMS`.
pub(crate) const NO_DATAGRAMS: Told = Told {
    number: 29,
    detail: 0,
};

/// `H3_REJECTED`, with H3_REQUEST_REJECTED (RFC 9114, section 8.1).
pub(crate) const REJECTED: Told = Told {
    number: 30,
    detail: 0x10b,
};

/// `H3_NO_SESSIONS`.
pub(crate) const NO_SESSIONS: Told = Told {
    number: 31,
    detail: 0,
};

/// `H3_ARGUMENT`.
pub(crate) const ARGUMENT: Told = Told {
    number: 32,
    detail: 0,
};

fn with(number: u32, detail: u64) -> Told
    ensures { result ≡ record { number = number; detail = detail } }
{
    Told { number, detail }
}

fn plain(number: u32) -> Told
    ensures { result ≡ record { number = number; detail = 0 } }
{
    with(number, 0)
}

/// A refusal.
pub(crate) fn refused(refusal: Refusal) -> Told
    ensures { result ≡ refusal_told refusal }
{
    match refusal {
        Refusal::Closed(code) => with(1, code.value()),
        Refusal::Connection(code) => with(2, code.value()),
        Refusal::NotReceiving => plain(3),
        Refusal::AfterEnd => plain(4),
        Refusal::Kept => plain(5),
        Refusal::NotClient => plain(6),
        Refusal::GoingAway(id) => with(7, id.into_inner()),
        Refusal::IdsUsedUp => plain(8),
        Refusal::NotOpen => plain(9),
        Refusal::OutOfOrder => plain(10),
        Refusal::WrongSide => plain(11),
        Refusal::PseudoInTrailer => plain(12),
        Refusal::Malformed(why) => with(27, malformation_number(why)),
        Refusal::TooLarge(size) => with(13, size),
        Refusal::Critical => plain(14),
        Refusal::Ended => plain(15),
        Refusal::NotRequestId => plain(16),
        Refusal::Raised(id) => with(17, id),
        Refusal::OutOfMemory => plain(18),
    }
}

/// What a call tells that there was no memory for: what refuses it else comes first.
pub(crate) fn or_memory(refusal: Option<Refusal>) -> Told
    ensures { result ≡ told_or_memory refusal }
{
    match refusal {
        Some(refusal) => refused(refusal),
        None => MEMORY,
    }
}

/// What a call tells that returns no value.
pub(crate) fn called(call: Result<(), Refusal>) -> Told
    ensures { result ≡ call_told call }
{
    match call {
        Ok(()) => OK,
        Err(refusal) => refused(refusal),
    }
}

/// What a call tells that hands its bytes back.
pub(crate) fn sent(call: &Result<(), (Refusal, Bytes)>) -> Told
    ensures { result ≡ body_told call.now }
{
    match call {
        Ok(()) => OK,
        Err((refusal, _)) => refused(*refusal),
    }
}

/// What a call of this endpoint tells that sends a list.
#[inline(always)]
pub(crate) fn listed(call: &Result<(), Refusal>, endpoint: &Endpoint, fields: &Fields<'_>) -> Told
    requires { NamesField (call_refused call.now) endpoint.now.announced.choices fields.now }
    ensures { TellsList call.now endpoint.now.announced.choices fields.now result }
{
    match call {
        Ok(()) => OK,
        Err(Refusal::Malformed(why)) => malformed(*why, endpoint, fields),
        Err(refusal) => refused(*refusal),
    }
}

// A list that its own fields refuse has the number of an answer, with the index of that field beside. A rule of strict messages has its
// number beside.
#[tactic(auto, using(crate::proofs::NamedFields::name_is_there, crate::proofs::NamedFields::value_is_there))]
fn malformed(why: Malformation, endpoint: &Endpoint, fields: &Fields<'_>) -> Told
    requires { NamesField (Some (refusal.Malformed why)) endpoint.now.announced.choices fields.now }
    ensures { TellsMalformed why endpoint.now.announced.choices fields.now result }
{
    match why {
        Malformation::Name => at_field(22, endpoint, fields),
        Malformation::Value => at_field(23, endpoint, fields),
        Malformation::TooMany => plain(24),
        Malformation::WrongSide
        | Malformation::PseudoInTrailer
        | Malformation::NoHead
        | Malformation::PseudoOrder
        | Malformation::WrongPseudo
        | Malformation::RepeatedPseudo
        | Malformation::ConnectionField
        | Malformation::ContentLength
        | Malformation::Protocol
        | Malformation::Connect
        | Malformation::MissingPseudo
        | Malformation::Scheme
        | Malformation::Authority
        | Malformation::Path
        | Malformation::Status
        | Malformation::TrailerField
        | Malformation::TooLong => with(27, malformation_number(why)),
    }
}

// A number, with the index of the field for which the list is refused beside.
fn at_field(number: u32, endpoint: &Endpoint, fields: &Fields<'_>) -> Told
    requires { is_some
        (invalid_field endpoint.now.announced.choices.extensions.any_protocol endpoint.now.announced.choices.strict_messages fields.now)
        ≡ true }
    ensures { TellsField number endpoint.now.announced.choices fields.now result }
{
    match endpoint.invalid_field(fields) {
        Some(index) => with(number, index as u64),
        None => unreachable!(),
    }
}

/// What a delivery tells.
pub(crate) fn delivered(call: &Result<(), DeliverError>) -> Told
    ensures { result ≡ delivery_told call.now }
{
    match call {
        Ok(()) => OK,
        Err(DeliverError::Refused(refusal)) => refused(*refusal),
        Err(DeliverError::OutOfMemory(_)) => MEMORY,
        Err(DeliverError::Kept) => plain(5),
    }
}

/// Why a datagram may not be sent.
pub(crate) fn unsent(e: DatagramError) -> Told
    ensures { result ≡ datagram_told e }
{
    match e {
        DatagramError::Refused(refusal) => refused(refusal),
        DatagramError::NoDatagrams => NO_DATAGRAMS,
    }
}

/// Why no stream of a session was opened.
pub(crate) fn unopened(e: OpenError) -> Told
    ensures { result ≡ open_told e }
{
    match e {
        OpenError::Refused(refusal) => refused(refusal),
        OpenError::NoSessions => NO_SESSIONS,
    }
}

/// Why no endpoint was made.
pub(crate) fn unmade(e: &NewError) -> Told
    ensures { result ≡ new_told e.now }
{
    match e {
        NewError::TableLimit => plain(19),
        NewError::BlockedLimit => plain(20),
        NewError::Settings(e) => with(21, setting_of(e)),
        NewError::UnfinishedLimit => plain(28),
        NewError::OutOfMemory => MEMORY,
    }
}

fn setting_of(e: &SettingsError) -> u64
    ensures { result ≡ setting_of e.now }
{
    match e {
        SettingsError::Exceeded => 0,
        SettingsError::Malformed => 0,
        SettingsError::Repeated(id) => id.0,
        SettingsError::InvalidSettingId(id) => *id,
        SettingsError::InvalidSettingValue(id, _) => id.0,
    }
}
