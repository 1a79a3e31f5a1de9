//! Roles that the type of a stream alone tells (RFC 9114, section 6.2): of such a stream nothing is kept but its role.
ghost use Rattle.std.specs.Prelude.{◌≡◌, ◌≤◌, ℕ, List, [], false, length, drop, IfSome};
ghost use Rattle.h3_connection.specs.StrictConnection.{known_streams};
ghost use Rattle.h3_connection.specs.Unidirectional.{Role, is_critical, role_after};
ghost use Rattle.h3_connection.specs.Unidirectional.Role.{Untold};
ghost use Rattle.h3_unidirectional.specs.Kinds.{role_of, plain, is_untold, TellsFirst, received_by};
ghost use Rattle.h3_unidirectional.specs.Told.{kind_in};

use crate::stream::{Kind, Received, read_kind};
use bytes::Bytes;
use h3_connection::setup::Announced;

/// A role that the type alone tells.
#[derive(Clone, Copy)]
pub enum PlainRole {
    /// The control stream (RFC 9114, section 6.2.1).
    Control,
    /// The encoder stream (RFC 9204, section 4.2).
    Encoder,
    /// The decoder stream (RFC 9204, section 4.2).
    Decoder,
    /// A type without a meaning.
    Ignored,
}

impl PlainRole {
    /// The role of a kind, if it is such a one.
    fn of(kind: Kind) -> Option<PlainRole>
        ensures { IfSome result (λ role. plain role ≡ role_of kind []) }
    {
        match kind {
            Kind::Control => Some(PlainRole::Control),
            Kind::Encoder => Some(PlainRole::Encoder),
            Kind::Decoder => Some(PlainRole::Decoder),
            Kind::Ignored => Some(PlainRole::Ignored),
            Kind::Untold => None,
            Kind::Session(_) => None,
            Kind::Push(_) => None,
            Kind::Other(_) => None,
        }
    }

    /// What its stream is read as.
    pub fn kind(self) -> Kind
        ensures { result ≡ kind_in (plain self) }
    {
        match self {
            PlainRole::Control => Kind::Control,
            PlainRole::Encoder => Kind::Encoder,
            PlainRole::Decoder => Kind::Decoder,
            PlainRole::Ignored => Kind::Ignored,
        }
    }

    /// Bytes for it: those for a type without a meaning are thrown away.
    pub fn received(self, bytes: Bytes) -> Received
        ensures { result ≡ received_by (plain self, bytes) }
    {
        match self {
            PlainRole::Control => Received::Control(bytes),
            PlainRole::Encoder => Received::Encoder(bytes),
            PlainRole::Decoder => Received::Decoder(bytes),
            PlainRole::Ignored => Received::Nothing,
        }
    }

    /// Whether its stream may not be closed.
    pub fn is_critical(self) -> bool
        ensures { result ≡ is_critical (plain self) }
    {
        match self {
            PlainRole::Control => true,
            PlainRole::Encoder => true,
            PlainRole::Decoder => true,
            PlainRole::Ignored => false,
        }
    }
}

/// What the first bytes of a stream tell if its type alone tells its role: the role, and how many of them the type takes.
pub fn first_role(bytes: &[u8], own: &Announced) -> Option<(PlainRole, usize)>
    ensures told { IfSome result (λ first. role_after (known_streams own.now) (Untold []) bytes.now ≡
        (plain first.0, drop first.1 bytes.now)) }
    ensures within { IfSome result (λ first. first.1 ≤ length bytes.now) }
    ensures front { (r : Role) (rest : List ℕ) → is_untold r ≡ false → role_after (known_streams own.now) (Untold []) bytes.now ≡ (r, rest)
        → TellsFirst (known_streams own.now) (Untold []) bytes.now r rest }
{
    let mut ahead = bytes;
    let kind = read_kind(&mut ahead, own)?;
    let role = PlainRole::of(kind)?;
    Some((role, bytes.len() - ahead.len()))
}
