//! What an endpoint announces.
ghost use Rattle.std.specs.Prelude.{◌≡◌, ◌<◌, ◌≤◌, ◌^◌, ◌&&◌, not, option_copied};
ghost use Rattle.h3_proto.specs.Config.{announced, is_enabled};
ghost use Rattle.h3_proto.specs.OtherSettings.{is_reserved};
ghost use Rattle.h3_connection.specs.Announcing.{announced_by, connects, is_below_announced, least_limit, section_of};
ghost use Rattle.h3_connection.specs.StrictConnection.{announces_alone, have_bad_value, is_no_flag, is_no_session, judges_connect};
ghost use Rattle.h3_connection.specs.StrictConnection.{kinds_of, knows_sessions, lacks_datagrams, refuses_settings};
ghost use Rattle.h3_connection.specs.OtherSettings.{most_others};
ghost use Rattle.h3_connection.specs.Remembering.{settings_known};
ghost use Rattle.h3_connection.specs.Updates.{most_updates};

use h3_coding::varint::VarInt;
use h3_frames::frame::FrameKinds;
use h3_proto::config::{
    Choices, Config, MAX_BLOCKED_STREAMS, MAX_OTHER_SETTINGS, MAX_PRIORITY_UPDATES,
    MAX_TABLE_CAPACITY,
};
use h3_proto::frame::{SettingId, Settings, SettingsError};
use h3_proto::other_settings::is_reserved;
use h3_proto::stream::Side;

// Every SETTINGS frame of this library fits into so many bytes, and each instruction that rests on no announced size.
const LEAST_LIMIT: u64 = 256;
// The Huffman code writes a byte in at most 30 bits (RFC 7541, appendix B).
const MOST_ENCODED: u64 = 4;

/// The limits of an endpoint's decoder: the capacity of its table in bytes, and how many streams may wait.
#[derive(Clone, Copy, Debug, PartialEq, Eq)]
pub struct Limits {
    /// The capacity of its dynamic table in bytes, at most 2^30 - 1.
    pub table: u64,
    /// How many streams may wait for insertions, at most 65,535.
    pub blocked: u64,
}

/// Why no endpoint can be made.
#[derive(Debug, Drop)]
pub enum NewError {
    /// The table is above 2^30 - 1 bytes.
    TableLimit,
    /// More than 65535 streams may wait.
    BlockedLimit,
    /// A setting cannot be announced.
    Settings(SettingsError),
    /// The limit on what is unfinished is below four times what is announced: the greatest size of a field section, or the table's
    /// capacity. Or it is below 256 bytes, or no greatest size is announced.
    UnfinishedLimit,
    /// An allocation failed.
    OutOfMemory,
}

/// What an endpoint announces: its settings, those of QPACK among them, and its decoder's limits. Beside these stands what it chooses
/// for itself, which announces nothing.
#[derive(Drop)]
pub struct Announced {
    /// What its SETTINGS frame has.
    pub settings: Settings,
    /// The limits of its decoder, which are among the settings.
    pub limits: Limits,
    /// What it chooses for itself, which the peer does not learn.
    pub choices: Choices,
    /// What a client remembers of its server's settings from an earlier connection (RFC 9114, section 7.2.4.2).
    pub remembered: Option<Settings>,
}

impl Announced {
    /// The settings of a configuration, then the limits as settings 1 and 7 (RFC 9204, section 5).
    pub fn new(config: Config, limits: Limits, grease: u64) -> Result<Announced, NewError>
        requires { grease < 0x210842108421083 }
        ensures { result ≡ announced_by (announced config grease) limits config.choices }
    {
        if limits.table > MAX_TABLE_CAPACITY {
            return Err(NewError::TableLimit);
        }
        if limits.blocked > MAX_BLOCKED_STREAMS {
            return Err(NewError::BlockedLimit);
        }
        let choices = config.choices();
        let mut settings = match config.into_settings(grease) {
            Ok(settings) => settings,
            Err(e) => return Err(NewError::Settings(e)),
        };
        if let Err(e) = settings.insert(SettingId::QPACK_MAX_TABLE_CAPACITY, limits.table) {
            return Err(NewError::Settings(e));
        }
        if let Err(e) = settings.insert(SettingId::QPACK_MAX_BLOCKED_STREAMS, limits.blocked) {
            return Err(NewError::Settings(e));
        }
        let announced = Announced {
            settings,
            limits,
            choices,
            remembered: None,
        };
        if announced.announces_alone() {
            return Err(NewError::Settings(SettingsError::InvalidSettingValue(
                SettingId::ENABLE_WEBTRANSPORT,
                1,
            )));
        }
        if announced.is_below_announced() {
            return Err(NewError::UnfinishedLimit);
        }
        Ok(announced)
    }

    /// Which settings of the peer count: those that came, and until then those that it remembers.
    pub fn settings_known<'a>(&'a self, came: Option<&'a Settings>) -> Option<&'a Settings>
        ensures { option_copied result ≡ settings_known self.now (option_copied came.entry) }
    {
        match came {
            Some(settings) => Some(settings),
            None => self.remembered.as_ref(),
        }
    }

    /// Whether it asks for a strict connection, and announces WebTransport without datagrams, which no such endpoint takes of its peer.
    fn announces_alone(&self) -> bool
        ensures { result ≡ announces_alone self.now }
    {
        self.choices.extensions.strict_connection && lacks_datagrams(&self.settings)
    }

    /// Whether it asks for a strict connection, and does not take these settings of its peer (RFC 8441, section 3; RFC 9297, section
    /// 2.1.1).
    pub fn refuses_settings(&self, side: Side, peer: &Settings) -> bool
        ensures { result ≡ refuses_settings side self.now peer.now }
    {
        self.choices.extensions.strict_connection && self.have_bad_value(side, peer)
    }

    // Whether a setting of a peer has a value that it may not have.
    fn have_bad_value(&self, side: Side, peer: &Settings) -> bool
        ensures { result ≡ have_bad_value side self.now.settings peer.now }
    {
        (judges_connect(side) && is_no_flag(peer, SettingId::ENABLE_CONNECT_PROTOCOL))
            || is_no_flag(peer, SettingId::H3_DATAGRAM)
            || (is_enabled(&self.settings, SettingId::ENABLE_WEBTRANSPORT)
                && (is_no_flag(peer, SettingId::ENABLE_WEBTRANSPORT) || lacks_datagrams(peer)))
    }

    /// Whether it asks for a strict connection, and this id names no session of WebTransport: a session has that of a request stream.
    pub fn is_no_session(&self, id: u64) -> bool
        ensures { result ≡ is_no_session self.now id }
    {
        self.choices.extensions.strict_connection && id % 4 != 0
    }

    /// Whether sessions of WebTransport are known to it: it announces them, or does not ask for a strict connection. Otherwise 0x41 is the
    /// type of an unknown frame, and 0x54 that of an unknown stream (RFC 9114, section 9).
    pub fn knows_sessions(&self) -> bool
        ensures { result ≡ knows_sessions self.now }
    {
        !self.choices.extensions.strict_connection
            || is_enabled(&self.settings, SettingId::ENABLE_WEBTRANSPORT)
    }

    /// Whether a unidirectional stream of this type, which has no meaning, is delivered: the caller asks for it, and the type is not
    /// reserved (RFC 9114, section 6.2.3).
    pub fn hands_out(&self, kind: u64) -> bool
        ensures { result ≡ (self.now.choices.extensions.other_streams && not (is_reserved kind)) }
    {
        self.choices.extensions.other_streams && !is_reserved(kind)
    }

    /// Which kinds of frames it knows.
    pub fn kinds(&self) -> FrameKinds
        ensures { result ≡ kinds_of self.now }
    {
        FrameKinds {
            sessions: self.knows_sessions(),
            updates: self.choices.extensions.priority_updates > 0,
        }
    }

    /// Of how many streams it keeps what PRIORITY_UPDATE frames said (RFC 9218, section 7.2).
    pub fn most_updates(&self) -> usize
        ensures value { result ≡ most_updates self.now }
        ensures few { result ≤ 128 }
    {
        self.choices
            .extensions
            .priority_updates
            .min(MAX_PRIORITY_UPDATES) as usize
    }

    /// How many of the peer's settings it keeps that have no meaning here (RFC 9114, section 7.2.4).
    pub fn most_others(&self) -> usize
        ensures value { result ≡ most_others self.now }
        ensures few { result ≤ 64 }
    {
        self.choices
            .extensions
            .other_settings
            .min(MAX_OTHER_SETTINGS) as usize
    }

    /// Whether it limits what is unfinished to less than what a peer may send that keeps to what is announced.
    fn is_below_announced(&self) -> bool
        requires { self.now.limits.table < 2 ^ 30 }
        ensures { result ≡ is_below_announced self.now }
    {
        let most = self.choices.unfinished_limit;
        most < VarInt::MAX.into_inner() && most < self.least_limit()
    }

    // The least limit on what is unfinished.
    fn least_limit(&self) -> u64
        requires { self.now.limits.table < 2 ^ 30 }
        ensures { result ≡ least_limit self.now }
    {
        let announced = self.section().max(self.limits.table);
        LEAST_LIMIT.max(MOST_ENCODED * announced)
    }

    /// The greatest size of a field section that it takes (RFC 9114, section 4.2.2), in bytes.
    pub fn section(&self) -> u64
        ensures value { result ≡ section_of self.now }
        ensures bound { result < 2 ^ 62 }
    {
        self.settings
            .get(SettingId::MAX_HEADER_LIST_SIZE)
            .unwrap_or(VarInt::MAX.into_inner())
    }

    /// Whether it takes requests of extended CONNECT (RFC 9220, section 3).
    pub fn extended_connect(&self) -> bool
        ensures { result ≡ connects self.now }
    {
        self.settings
            .get(SettingId::ENABLE_CONNECT_PROTOCOL)
            .unwrap_or(0)
            != 0
    }
}

// The setting of extended CONNECT means nothing to a server.
fn judges_connect(side: Side) -> bool
    ensures { result ≡ judges_connect side }
{
    match side {
        Side::Client => true,
        Side::Server => false,
    }
}

// Whether a setting is there with a value other than 0.
fn is_enabled(settings: &Settings, id: SettingId) -> bool
    ensures { result ≡ is_enabled id settings.now }
{
    settings.get(id).unwrap_or(0) != 0
}

// Whether it is there with a value other than 0 and 1.
fn is_no_flag(settings: &Settings, id: SettingId) -> bool
    ensures { result ≡ is_no_flag id settings.now }
{
    settings.get(id).unwrap_or(0) > 1
}

// Whether WebTransport is announced, and datagrams are not.
fn lacks_datagrams(settings: &Settings) -> bool
    ensures { result ≡ lacks_datagrams settings.now }
{
    is_enabled(settings, SettingId::ENABLE_WEBTRANSPORT)
        && !is_enabled(settings, SettingId::H3_DATAGRAM)
}
