//! The ids of pushes (RFC 9114, section 4.6).
ghost use Rattle.std.specs.Prelude.{◌≡◌, ℕ, ◌^◌, ◌<◌, ◌++◌, Some, codes, false};
ghost use Rattle.std.specs.Fmt.{decimal, digits};
ghost use Rattle.h3_proto.specs.Ids.{Converts};

use h3_coding::varint::VarInt;
use std::error::Error;
use std::fmt;
use std::marker::Model;

/// The id of a push, below 2^62. A contract sees it as its number.
#[derive(Clone, Copy, PartialEq, Eq, PartialOrd, Ord, Hash, Debug)]
pub struct PushId(u64);

impl Model for PushId {
    ghost Value = { ℕ };

    ghost view = { λ v. v.0 };

    ghost invariant = { λ v. v.0 < 2 ^ 62 };

    ghost inverse = { λ n. record { 0 = n } };
}

/// The number is no push id: it is 2^62 or more.
#[derive(Debug, PartialEq, Drop)]
pub struct InvalidPushId(pub u64);

impl TryFrom<u64> for PushId {
    type Error = InvalidPushId;

    ghost try_from_gives = { λ x r. Converts (λ e. e.0) x r };

    fn try_from(x: u64) -> Result<Self, InvalidPushId> {
        if x < 1 << 62 {
            Ok(PushId(x))
        } else {
            Err(InvalidPushId(x))
        }
    }
}

impl From<VarInt> for PushId {
    ghost from_gives = { λ x id. id ≡ x };

    fn from(x: VarInt) -> Self {
        PushId(x.into_inner())
    }
}

impl From<PushId> for VarInt {
    ghost from_gives = { λ id x. (x ≡ id) × (x < 2 ^ 62) };

    fn from(id: PushId) -> VarInt {
        VarInt::from_u64_unchecked(id.0)
    }
}

impl fmt::Display for PushId {
    ghost output = { λ id. Some (codes "push " ++ decimal id) };

    fn fmt<W: fmt::Write>(&self, f: &mut fmt::Formatter<W>) -> fmt::Result {
        write!(f, "push {}", self.0)
    }
}

impl fmt::Display for InvalidPushId {
    ghost output = { λ e. Some (codes "invalid push id: " ++ digits 16 false e.0) };

    fn fmt<W: fmt::Write>(&self, f: &mut fmt::Formatter<W>) -> fmt::Result {
        write!(f, "invalid push id: {:x}", self.0)
    }
}

impl Error for InvalidPushId {}
