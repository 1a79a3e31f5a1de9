//! The settings that the payload of a SETTINGS frame carries (RFC 9114, section 7.2.4).
ghost use Rattle.std.specs.Prelude.{◌≡◌, ℕ, ◌+◌, ◌^◌, ◌<◌, ◌≤◌, ◌==◌, List, [], ◌++◌, length, take, drop, true, All, IfErr, IfSome, IsNone};
ghost use Rattle.std.specs.Prelude.{Ok, Err, Some, None, OnOk, OnErr};
ghost use Rattle.std.specs.Cmp.Lexicographic.{pointwise};
ghost use Rattle.h3_coding.specs.Writing.{AppendsFront, UsesRoom};
ghost use Rattle.h3_proto.specs.Codes.{settings_code};
ghost use Rattle.h3_proto.specs.Ids.{reserved};
ghost use Rattle.h3_proto.specs.PairLaws.{same_pairs};
ghost use Rattle.h3_proto.specs.Pairs.{IsPair, same_pair, pair_encoding, payload_of, pair_at};
ghost use Rattle.h3_proto.specs.Settings.{error_text, is_forbidden, is_known, has_id, ids_differ, value_of, inserted, received};
ghost use Rattle.h3_proto.specs.Settings.{settings_of, left_of, left_of_pair};

use crate::error::Code;
use bytes::{Buf, BufMut};
use h3_coding::coding::{BufExt, BufMutExt, WriteRefused};
use h3_coding::varint::VarInt;
use std::error::Error;
use std::fmt;
use std::marker::Model;

/// The id of a setting. A contract sees it as its number.
#[derive(Clone, Copy, PartialEq, Eq, Hash, Debug)]
pub struct SettingId(pub u64);

impl Model for SettingId {
    ghost use Rattle.std.specs.Prelude.{ℕ};

    ghost Value = { ℕ };

    ghost view = { λ id. id.0 };

    ghost inverse = { λ n. record { 0 = n } };
}

impl SettingId {
    /// The most bytes of the dynamic table (RFC 9204, section 5).
    pub const QPACK_MAX_TABLE_CAPACITY: SettingId = SettingId(1);

    /// The greatest size of a field section (RFC 9114, section 7.2.4.1).
    pub const MAX_HEADER_LIST_SIZE: SettingId = SettingId(6);

    /// The most streams that may be blocked (RFC 9204, section 5).
    pub const QPACK_MAX_BLOCKED_STREAMS: SettingId = SettingId(7);

    /// Whether extended CONNECT may be used (RFC 9220, section 5).
    pub const ENABLE_CONNECT_PROTOCOL: SettingId = SettingId(8);

    /// Whether datagrams may be used (RFC 9297, section 2.1.1).
    pub const H3_DATAGRAM: SettingId = SettingId(0x33);

    /// Whether WebTransport may be used.
    pub const ENABLE_WEBTRANSPORT: SettingId = SettingId(0x2b603742);

    /// The most WebTransport sessions.
    pub const WEBTRANSPORT_MAX_SESSIONS: SettingId = SettingId(0x2b603743);

    /// An older id of `H3_DATAGRAM`. A setting of it that was read is not kept.
    pub const H3_SETTING_ENABLE_DATAGRAM_CHROME_SPECIFIC: SettingId = SettingId(0xffd277);

    /// A reserved id, which has no meaning (RFC 9114, section 7.2.4.1).
    pub fn grease(n: u64) -> Self
        requires { n < 0x210842108421083 }
        ensures { result ≡ reserved n }
    {
        SettingId(0x1f * n + 0x21)
    }

    // Whether it is one of HTTP/2's, which HTTP/3 refuses.
    pub(crate) fn is_forbidden(self) -> bool
        ensures { result ≡ is_forbidden self }
    {
        matches!(self.0, 0 | 2 | 3 | 4 | 5)
    }

    // Whether it has a meaning here.
    pub(crate) fn is_known(self) -> bool
        ensures { result ≡ is_known self }
    {
        matches!(self.0, 1 | 6 | 7 | 8 | 0x33 | 0x2b603742 | 0x2b603743)
    }
}

/// The numbers n of reserved values `0x1f n + 0x21` (RFC 9114, section 7.2.8) that are taken here are below this one, so the values are
/// below 2^62.
pub const RESERVED_NUMBERS: u64 = 0x210842108421083;

/// What is wrong with settings.
#[derive(Debug, PartialEq, Drop)]
pub enum SettingsError {
    /// There are eight settings already.
    Exceeded,
    /// A payload ends inside a pair.
    Malformed,
    /// There is a setting of this id already.
    Repeated(SettingId),
    /// The id is reserved as one of HTTP/2's, or, if a setting is inserted, 2^62 or more.
    InvalidSettingId(u64),
    /// The value of the setting is 2^62 or more.
    InvalidSettingValue(SettingId, u64),
}

impl SettingsError {
    /// The code of the connection fault that such a payload is (RFC 9114, sections 7.1 and 7.2.4): `H3_FRAME_ERROR` if it ends inside a
    /// pair, and else `H3_SETTINGS_ERROR`.
    pub fn code(&self) -> Code
        ensures { result ≡ settings_code self.now }
    {
        match self {
            SettingsError::Malformed => Code::H3_FRAME_ERROR,
            _ => Code::H3_SETTINGS_ERROR,
        }
    }
}

impl fmt::Display for SettingsError {
    ghost output = { λ e. Some (error_text e) };

    fn fmt<W: fmt::Write>(&self, f: &mut fmt::Formatter<W>) -> fmt::Result {
        match self {
            SettingsError::Exceeded => {
                f.write_str("max settings number exceeded, check for duplicate entries")
            }
            SettingsError::Malformed => f.write_str("malformed settings frame"),
            SettingsError::Repeated(id) => write!(f, "got setting 0x{:x} twice", id.0),
            SettingsError::InvalidSettingId(id) => write!(f, "setting id 0x{:x} is invalid", id),
            SettingsError::InvalidSettingValue(id, value) => {
                let id = id.0;
                write!(f, "setting 0x{id:x} has invalid value {value}")
            }
        }
    }
}

impl Error for SettingsError {}

/// At most eight settings of different ids, in the order of their insertion. A contract sees them as
/// pairs of an id and a value.
#[derive(Debug, Drop)]
pub struct Settings {
    entries: [(u64, u64); 8],
    len: usize,
}

impl Model for Settings {
    ghost use Rattle.std.specs.Prelude.{◌≡◌, ℕ, ◌≤◌, true, List, length, take, All};
    ghost use Rattle.h3_proto.specs.PairLaws.{same_pairs};
    ghost use Rattle.h3_proto.specs.Pairs.{IsPair};
    ghost use Rattle.h3_proto.specs.Settings.{ids_differ};

    ghost Value = { List (ℕ × ℕ) };

    ghost view = { λ s. take s.len s.entries };

    ghost invariant = { λ s. (s.len ≤ 8) × (length s.entries ≡ 8)
        × All IsPair (take s.len s.entries)
        × (ids_differ (take s.len s.entries) ≡ true) };
}

impl PartialEq for Settings {
    ghost eq = { pointwise same_pair };

    ghost laws = { same_pairs };

    fn eq(&self, other: &Settings) -> bool {
        self.entries[..self.len] == other.entries[..other.len]
    }
}

impl Default for Settings {
    ghost is_default = { λ s. s ≡ [] };

    fn default() -> Self {
        Settings {
            entries: [(0, 0); 8],
            len: 0,
        }
    }
}

impl Settings {
    /// The most bytes that a payload of eight settings has.
    pub const MAX_ENCODED_SIZE: usize = 128;

    // RFC 9114 7.2.4: a setting twice
    /// Adds a setting at the end. Refuses, in this order, a ninth one, an id that is there already,
    /// and an id or a value of 2^62 or more, and then changes nothing.
    pub fn insert(&mut self, id: SettingId, value: u64) -> Result<(), SettingsError>
        ensures ok { OnOk result (inserted self.old id value ≡ Ok self.new) }
        ensures err { IfErr result (λ e. inserted self.old id value ≡ Err e) }
        ensures same { OnErr result (self.new ≡ self.old) }
    {
        if self.len >= 8 {
            return Err(SettingsError::Exceeded);
        }
        if self.contains(id) {
            return Err(SettingsError::Repeated(id));
        }
        if id.0 >= 1 << 62 {
            return Err(SettingsError::InvalidSettingId(id.0));
        }
        if value >= 1 << 62 {
            return Err(SettingsError::InvalidSettingValue(id, value));
        }
        self.entries[self.len] = (id.0, value);
        self.len += 1;
        Ok(())
    }

    /// The value of the setting of this id, if one was inserted.
    pub fn get(&self, id: SettingId) -> Option<u64>
        ensures value { result ≡ value_of id self.now }
        ensures bound { IfSome result (λ v. v < 2 ^ 62) }
    {
        self.entries[..self.len]
            .iter()
            .find(|pair| pair.0 == id.0)
            .map(|pair| pair.1)
    }

    // Whether there is a setting of this id.
    pub(crate) fn contains(&self, id: SettingId) -> bool
        ensures { result ≡ has_id id self.now }
    {
        self.entries[..self.len].iter().any(|pair| pair.0 == id.0)
    }

    // What holds of all settings. It does nothing: a proof that needs the fact calls it.
    pub(crate) fn known(&self)
        ensures few { length self.now ≤ 8 }
        ensures pairs { All IsPair self.now }
        ensures differ { ids_differ self.now ≡ true }
    {
        let _len = self.len;
    }

    /// How many bytes the payload has, at most `MAX_ENCODED_SIZE`.
    pub fn payload_len(&self) -> usize
        ensures value { result ≡ length (payload_of self.now) }
        ensures bound { result ≤ 128 }
    {
        let mut len = 0;
        let pairs = &self.entries[..self.len];
        for pair in pairs {
            len += pair_len(pair.0, pair.1);
        }
        len
    }

    /// Appends the payload. An `Err` leaves a beginning of it.
    pub fn write_payload<B: BufMut>(&self, buf: &mut B) -> Result<(), WriteRefused>
        ensures ok { OnOk result (B.written buf.new ≡ B.written buf.old ++ payload_of self.now) }
        ensures err { OnErr result
            (AppendsFront (payload_of self.now) (B.written buf.old) (B.written buf.new)) }
        ensures room { UsesRoom result (B.spare buf.old)
            (B.spare buf.new) (length (payload_of self.now)) }
    {
        let pairs = &self.entries[..self.len];
        for pair in pairs {
            put_pair(buf, pair.0, pair.1)?;
        }
        Ok(())
    }

    /// Reads a payload, to the end of the buffer: the settings of known ids in order; others are left out. Refuses, whichever comes first,
    /// a pair whose numbers are not whole (`Malformed`), an id that is reserved as one of HTTP/2's, and a known id that came before. An
    /// `Err` leaves what follows the refused pair, or what follows the id if its value is not whole (RFC 9114, section 7.2.4).
    pub fn read_payload<B: Buf>(buf: &mut B) -> Result<Self, SettingsError>
        ensures value { result ≡ settings_of (B.unread buf.old) }
        ensures ok { OnOk result (B.unread buf.new ≡ []) }
        ensures rest { B.unread buf.new ≡ left_of (B.unread buf.old) }
        ensures kept { B.kept buf.new ≡ B.kept buf.old }
    {
        let len = buf.remaining();
        Settings::read_front(buf, len)
    }

    /// Reads a payload of `len` bytes as `read_payload` does, and leaves what follows it.
    pub fn read_front<B: Buf>(buf: &mut B, len: usize) -> Result<Self, SettingsError>
        requires { len ≤ length (B.unread buf.old) }
        ensures value { result ≡ settings_of (take len (B.unread buf.old)) }
        ensures ok { OnOk result (B.unread buf.new ≡ drop len (B.unread buf.old)) }
        ensures rest { B.unread buf.new
            ≡ left_of (take len (B.unread buf.old)) ++ drop len (B.unread buf.old) }
        ensures kept { B.kept buf.new ≡ B.kept buf.old }
    {
        let mut settings = Settings::default();
        let mut left = len;
        while left > 0 {
            let Some((id, value, rest)) = get_pair(buf, left) else {
                return Err(SettingsError::Malformed);
            };
            left = rest;
            settings.receive(SettingId(id), value)?;
        }
        Ok(settings)
    }

    // Judges a setting that was read, and keeps it if its id is known.
    fn receive(&mut self, id: SettingId, value: u64) -> Result<(), SettingsError>
        ensures ok { OnOk result (received self.old (id, value) ≡ Ok self.new) }
        ensures err { IfErr result (λ e. received self.old (id, value) ≡ Err e) }
    {
        if id.is_forbidden() {
            return Err(SettingsError::InvalidSettingId(id.0));
        }
        if !id.is_known() {
            return Ok(());
        }
        self.insert(id, value)
    }
}

// Takes a pair that lies within the first `len` bytes, and answers it with how many of those bytes
// follow it.
pub(crate) fn get_pair<B: Buf>(buf: &mut B, len: usize) -> Option<(u64, u64, usize)>
    requires { len ≤ length (B.unread buf.old) }
    ensures some { IfSome result (λ p. (pair_at (take len (B.unread buf.old))
        ≡ Some ((p.0, p.1), take p.2 (B.unread buf.new)))
        × (drop len (B.unread buf.old) ≡ drop p.2 (B.unread buf.new))) }
    ensures inside { IfSome result (λ p. (p.2 ≤ length (B.unread buf.new)) × (p.2 < len)) }
    ensures none { IsNone result → pair_at (take len (B.unread buf.old)) ≡ None }
    ensures left { IsNone result
        → B.unread buf.new ≡ left_of_pair (take len (B.unread buf.old))
        ++ drop len (B.unread buf.old) }
    ensures kept { B.kept buf.new ≡ B.kept buf.old }
{
    let (id, behind) = buf.get_var_within(len)?;
    let (value, left) = buf.get_var_within(behind)?;
    Some((id, value, left))
}

// How many bytes the encoding of a pair has.
fn pair_len(id: u64, value: u64) -> usize
    requires { IsPair (id, value) }
    ensures value { result ≡ length (pair_encoding (id, value)) }
    ensures bound { result ≤ 16 }
{
    VarInt::from_u64_unchecked(id).size() + VarInt::from_u64_unchecked(value).size()
}

// Appends the encoding of a pair.
fn put_pair<B: BufMut>(buf: &mut B, id: u64, value: u64) -> Result<(), WriteRefused>
    requires { IsPair (id, value) }
    ensures ok { OnOk result (B.written buf.new ≡ B.written buf.old ++ pair_encoding (id, value)) }
    ensures err { OnErr result
        (AppendsFront (pair_encoding (id, value)) (B.written buf.old) (B.written buf.new)) }
    ensures room { UsesRoom result (B.spare buf.old)
        (B.spare buf.new) (length (pair_encoding (id, value))) }
{
    buf.write_var(id)?;
    buf.write_var(value)
}
