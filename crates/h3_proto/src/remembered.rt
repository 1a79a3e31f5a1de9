//! Settings of a server that its client remembers for a connection to come (RFC 9114, section 7.2.4.2).
ghost use Rattle.std.specs.Prelude.{◌≡◌, unwrap_or};
ghost use Rattle.h3_proto.specs.Remembered.{default_of, holds_to, keeps_to};
ghost use Rattle.h3_proto.specs.Settings.{value_of};

use crate::frame::{SettingId, Settings};
use h3_coding::varint::VarInt;

/// Those that have a meaning.
const KNOWN: [SettingId; 7] = [
    SettingId::QPACK_MAX_TABLE_CAPACITY,
    SettingId::MAX_HEADER_LIST_SIZE,
    SettingId::QPACK_MAX_BLOCKED_STREAMS,
    SettingId::ENABLE_CONNECT_PROTOCOL,
    SettingId::H3_DATAGRAM,
    SettingId::ENABLE_WEBTRANSPORT,
    SettingId::WEBTRANSPORT_MAX_SESSIONS,
];

/// What holds of a setting that is not there.
fn default_of(id: SettingId) -> u64
    ensures { result ≡ default_of id }
{
    if id.0 == SettingId::MAX_HEADER_LIST_SIZE.0 {
        return VarInt::MAX.into_inner();
    }
    0
}

/// Whether what was remembered of a setting holds still.
fn holds_to(id: SettingId, before: u64, now: Option<u64>) -> bool
    ensures { result ≡ holds_to id before now }
{
    let Some(now) = now else {
        return before == default_of(id);
    };
    if id.0 == SettingId::QPACK_MAX_TABLE_CAPACITY.0 {
        return before == 0 || before == now;
    }
    before <= now
}

impl Settings {
    /// Whether these, which came, keep to those that were remembered of the same server: none with a meaning is gone that was not its
    /// default, and none allows less. The capacity of the table stays the same unless it was 0 (RFC 9204, section 3.2.3).
    pub fn keeps_to(&self, remembered: &Settings) -> bool
        ensures { result ≡ keeps_to remembered.now self.now }
    {
        KNOWN.iter().all(|id| {
            let before = remembered.get(*id).unwrap_or(default_of(*id));
            holds_to(*id, before, self.get(*id))
        })
    }
}
