//! What an end of a connection announces of itself, and what its peer announced.
ghost use Rattle.std.specs.Prelude.{◌≡◌, ℕ, ◌-◌, ◌^◌, ◌<◌, true, false};
ghost use Rattle.h3_proto.specs.Config.{announced, default_settings, no_choices, no_extensions, peer_settings};

use crate::frame;
use crate::frame::{SettingId, SettingsError};
use h3_coding::varint::VarInt;

/// The settings of one end (RFC 9114, section 7.2.4.1), those of QPACK aside.
#[derive(Clone, Copy, Debug)]
pub struct Settings {
    // The greatest size of a field section that is accepted, 2^62 - 1 if none is named.
    max_field_section_size: u64,
    enable_webtransport: bool,
    enable_extended_connect: bool,
    enable_datagram: bool,
    max_webtransport_sessions: u64,
}

impl Default for Settings {
    ghost is_default = { λ s. s ≡ default_settings };

    fn default() -> Self {
        Settings {
            max_field_section_size: VarInt::MAX.into_inner(),
            enable_webtransport: false,
            enable_extended_connect: false,
            enable_datagram: false,
            max_webtransport_sessions: 0,
        }
    }
}

impl Settings {
    /// Whether WebTransport may be used.
    pub fn enable_webtransport(&self) -> bool
        ensures { result ≡ self.now.enable_webtransport }
    {
        self.enable_webtransport
    }

    /// Whether datagrams may be used (RFC 9297, section 2.1.1).
    pub fn enable_datagram(&self) -> bool
        ensures { result ≡ self.now.enable_datagram }
    {
        self.enable_datagram
    }

    /// Whether extended CONNECT may be used (RFC 9220, section 3).
    pub fn enable_extended_connect(&self) -> bool
        ensures { result ≡ self.now.enable_extended_connect }
    {
        self.enable_extended_connect
    }
}

/// The settings that a peer announced: a flag holds if its value is other than 0, and what is
/// missing has its default.
impl From<&frame::Settings> for Settings {
    ghost from_gives = { λ pairs s. s ≡ peer_settings pairs.now };

    fn from(settings: &frame::Settings) -> Self {
        let flag = |id| settings.get(id).unwrap_or(0) != 0;
        Settings {
            max_field_section_size: settings
                .get(SettingId::MAX_HEADER_LIST_SIZE)
                .unwrap_or(VarInt::MAX.into_inner()),
            enable_webtransport: flag(SettingId::ENABLE_WEBTRANSPORT),
            enable_extended_connect: flag(SettingId::ENABLE_CONNECT_PROTOCOL),
            enable_datagram: flag(SettingId::H3_DATAGRAM),
            max_webtransport_sessions: settings
                .get(SettingId::WEBTRANSPORT_MAX_SESSIONS)
                .unwrap_or(0),
        }
    }
}

/// The greatest capacity of a dynamic table that an end announces or takes (RFC 9204, section 3.2.3), in bytes: that of the tables here
/// (`h3_table::entries::MAX_CAPACITY`).
pub const MAX_TABLE_CAPACITY: u64 = (1 << 30) - 1;

/// The most streams that an end announces as blocked at its decoder (RFC 9204, section 2.1.2).
pub const MAX_BLOCKED_STREAMS: u64 = 65535;

/// The most streams of which a server keeps what PRIORITY_UPDATE frames said (RFC 9218, section 7.2).
pub const MAX_PRIORITY_UPDATES: u64 = 128;

/// The most settings without a meaning here that are kept of those of a peer (RFC 9114, section 7.2.4).
pub const MAX_OTHER_SETTINGS: u64 = 64;

/// What an end chooses for itself beyond what it announces. None of it is sent to the peer, and by default nothing is asked for.
#[derive(Clone, Copy, Debug)]
pub struct Choices {
    /// Messages are judged by all of RFC 9114, sections 4.1.2 and 4.2 to 4.5.
    pub strict_messages: bool,
    /// An acknowledgment of a section raises the known received count (RFC 9204, section 2.1.4).
    pub acknowledgments_counted: bool,
    /// The most bytes that the table of the local encoder has, however many its peer announces (RFC 9204, section 3.2.3).
    pub encoder_table: u64,
    /// The local encoder keeps out of its table what never comes again. If its peer lets no section wait, it inserts for later ones.
    pub economical_table: bool,
    /// The greatest length of a frame or an instruction that is kept until it is whole (RFC 9114, section 10.5). 2^62 - 1 or more: none.
    pub unfinished_limit: u64,
    /// What it chooses beyond that.
    pub extensions: Extensions,
}

/// What an end chooses that changes an answer of the plain calls. By default nothing.
#[derive(Clone, Copy, Debug)]
pub struct Extensions {
    /// The most ids of canceled streams that its encoder keeps; below 2^62 - 1 it also keeps the last id alone of the peer's GOAWAY frames.
    /// 2^62 - 1 or more: all.
    pub kept_ids: u64,
    /// A request that first comes from the id of its last GOAWAY on is refused (RFC 9114, section 5.2).
    pub requests_rejected: bool,
    /// `:protocol` may have any token of 1 to 31 bytes (RFC 8441, section 4), and not the two known ones alone, both ways.
    pub any_protocol: bool,
    /// The local encoder flags each field that is known to be a secret, as if the caller had (RFC 9204, section 7.1.3).
    pub secrets_guarded: bool,
    /// The local encoder writes a string plain if its Huffman code is not shorter.
    pub shortest_strings: bool,
    /// The connection is judged by the rules of the standards that peers may be forgiven, as `Config::with_strict_connection` says.
    pub strict_connection: bool,
    /// Of so many streams a server keeps what PRIORITY_UPDATE frames said, until it is used. 0: such frames are of unknown types (RFC 9218,
    /// section 7.2). More than `MAX_PRIORITY_UPDATES` is the same as that.
    pub priority_updates: u64,
    /// So many of the peer's settings are kept that have no meaning here. More than `MAX_OTHER_SETTINGS` is the same as that.
    pub other_settings: u64,
    /// Unidirectional streams of types that have no meaning here are delivered (RFC 9114, section 6.2).
    pub other_streams: bool,
}

impl Default for Extensions {
    ghost is_default = { λ e. e ≡ no_extensions };

    fn default() -> Self {
        Extensions {
            kept_ids: VarInt::MAX.into_inner(),
            requests_rejected: false,
            any_protocol: false,
            secrets_guarded: false,
            shortest_strings: false,
            strict_connection: false,
            priority_updates: 0,
            other_settings: 0,
            other_streams: false,
        }
    }
}

impl Default for Choices {
    ghost is_default = { λ c. c ≡ no_choices };

    fn default() -> Self {
        Choices {
            strict_messages: false,
            acknowledgments_counted: false,
            encoder_table: MAX_TABLE_CAPACITY,
            economical_table: false,
            unfinished_limit: VarInt::MAX.into_inner(),
            extensions: Extensions::default(),
        }
    }
}

/// How an end of a connection is set up.
#[derive(Clone, Copy, Debug)]
pub struct Config {
    // Whether a setting without meaning is sent (RFC 9114, section 7.2.4.1).
    send_grease: bool,
    settings: Settings,
    choices: Choices,
}

impl Default for Config {
    ghost is_default = { λ c. c ≡ record { send_grease = true; settings = default_settings; choices = no_choices } };

    fn default() -> Self {
        Config {
            send_grease: true,
            settings: Settings::default(),
            choices: Choices::default(),
        }
    }
}

impl Config {
    /// Whether a setting without meaning is sent, so that peers go on to ignore such settings.
    pub fn with_grease(mut self, send: bool) -> Self
        ensures { result ≡ record self { send_grease = send } }
    {
        self.send_grease = send;
        self
    }

    /// The greatest size of a field section that is accepted. 2^62 or more is refused by
    /// `into_settings`.
    pub fn with_max_field_section_size(mut self, size: u64) -> Self
        ensures { result ≡ record self {
          settings = record self.settings { max_field_section_size = size };
        } }
    {
        self.settings.max_field_section_size = size;
        self
    }

    /// Whether WebTransport may be used.
    pub fn with_webtransport(mut self, enable: bool) -> Self
        ensures { result ≡ record self {
          settings = record self.settings { enable_webtransport = enable };
        } }
    {
        self.settings.enable_webtransport = enable;
        self
    }

    /// Whether extended CONNECT may be used.
    pub fn with_extended_connect(mut self, enable: bool) -> Self
        ensures { result ≡ record self {
          settings = record self.settings { enable_extended_connect = enable };
        } }
    {
        self.settings.enable_extended_connect = enable;
        self
    }

    /// Whether datagrams may be used.
    pub fn with_datagram(mut self, enable: bool) -> Self
        ensures { result ≡ record self {
          settings = record self.settings { enable_datagram = enable };
        } }
    {
        self.settings.enable_datagram = enable;
        self
    }

    /// The most WebTransport sessions. 2^62 or more is refused by `into_settings`.
    pub fn with_max_webtransport_sessions(mut self, sessions: u64) -> Self
        ensures { result ≡ record self {
          settings = record self.settings { max_webtransport_sessions = sessions };
        } }
    {
        self.settings.max_webtransport_sessions = sessions;
        self
    }

    /// Whether messages are judged by all rules of RFC 9114, sections 4.1.2 and 4.2 to 4.5. Off by default.
    pub fn with_strict_messages(mut self, strict: bool) -> Self
        ensures { result ≡ record self { choices = record self.choices { strict_messages = strict } } }
    {
        self.choices.strict_messages = strict;
        self
    }

    /// Whether an acknowledgment of a section raises the known received count, as RFC 9204, section 2.1.4, has it. Off by default.
    pub fn with_acknowledgments_counted(mut self, counted: bool) -> Self
        ensures { result ≡ record self { choices = record self.choices { acknowledgments_counted = counted } } }
    {
        self.choices.acknowledgments_counted = counted;
        self
    }

    /// The most bytes that the table of the local encoder has: it sets and uses the lesser of this and the capacity that its peer announces
    /// (RFC 9204, section 3.2.3). With 0 it uses no table, and writes no instruction. 2^30 - 1 by default, the greatest capacity of a
    /// table, so that a table is as large as was announced; a greater value is the same.
    pub fn with_encoder_table(mut self, max: u64) -> Self
        ensures { result ≡ record self { choices = record self.choices { encoder_table = max } } }
    {
        self.choices.encoder_table = max;
        self
    }

    /// Whether the local encoder is economical with its table. It then keeps out of the table what never comes again, and does not name
    /// what is soon to go. So the table does not freeze (RFC 9204, section 2.1.1.1). If the peer lets no section wait (section 2.1.2), an
    /// economical encoder inserts such a field after its literal line. It names the entry once the insertion is known to be received. Any
    /// other encoder never inserts there. Off by default.
    pub fn with_economical_table(mut self, economical: bool) -> Self
        ensures { result ≡ record self { choices = record self.choices { economical_table = economical } } }
    {
        self.choices.economical_table = economical;
        self
    }

    /// The greatest length in bytes that a peer's frame may say whose payload is kept until it is whole. That is one of a known type other
    /// than DATA (RFC 9114, section 7.2). A longer HEADERS frame makes its message malformed, as soon as its type and length came. Any
    /// other longer one is a fault of the connection, H3_EXCESSIVE_LOAD (sections 8.1 and 10.5), as soon as its type and length came. So is
    /// a longer instruction of the peer's encoder or decoder stream (RFC 9204, sections 4.3 and 4.4), as soon as what came tells that it is
    /// longer. So is more than this of its decoder stream before its settings. 2^62 - 1 by default, which no length exceeds: there is no
    /// limit then. A greater value is the same.
    /// A limit below the greatest size of a field section is refused when an endpoint is made, so it goes with
    /// `with_max_field_section_size`. An encoder that writes every string in the Huffman code, as this library's without
    /// `with_shortest_strings`, may need four times that size.
    pub fn with_unfinished_limit(mut self, max: u64) -> Self
        ensures { result ≡ record self { choices = record self.choices { unfinished_limit = max } } }
    {
        self.choices.unfinished_limit = max;
        self
    }

    /// The most ids of streams that the peer canceled which the local encoder keeps (RFC 9204, section 4.4.2). If there is one too many,
    /// the least is dropped. From then on sections on each stream up to it are written without the table, unless one there is not yet
    /// acknowledged. Of the ids in the peer's GOAWAY frames (RFC 9114, section 5.2) the last one alone is kept. 2^62 - 1 by default, and
    /// then all of both are kept; a greater value is the same.
    pub fn with_kept_ids(mut self, max: u64) -> Self
        ensures { result
            ≡ record self { choices = record self.choices { extensions = record self.choices.extensions { kept_ids = max } } } }
    {
        self.choices.extensions.kept_ids = max;
        self
    }

    /// Whether a server refuses what first comes on a request stream from the id of its last GOAWAY on (RFC 9114, section 5.2). Off by
    /// default: such a request is taken as any other.
    pub fn with_requests_rejected(mut self, rejected: bool) -> Self
        ensures { result ≡ record self {
          choices = record self.choices { extensions = record self.choices.extensions { requests_rejected = rejected } };
        } }
    {
        self.choices.extensions.requests_rejected = rejected;
        self
    }

    /// Whether `:protocol` of an extended CONNECT may have any token of 1 to 31 bytes, as `websocket` (RFC 8441, section 4; RFC 9220,
    /// section 3). Off by default: then `webtransport` and `connect-udp` alone are valid. An endpoint sends no value that it would not take
    /// itself: a header section with another one is refused as malformed.
    pub fn with_any_protocol(mut self, any: bool) -> Self
        ensures { result ≡ record self {
          choices = record self.choices { extensions = record self.choices.extensions { any_protocol = any } };
        } }
    {
        self.choices.extensions.any_protocol = any;
        self
    }

    /// Whether the local encoder flags each field that is known to be a secret, as if the caller had flagged it (RFC 9204, section 7.1.3).
    /// These are `authorization`, `proxy-authorization`, and `cookie` and `set-cookie` with a value below 20 bytes. Such a field is never
    /// in a table, so its value cannot be guessed by the lengths of what is sent, and a peer that passes it on must keep it so (section
    /// 4.5.4). Off by default: the caller's flags are sent as they are.
    pub fn with_secrets_guarded(mut self, guarded: bool) -> Self
        ensures { result ≡ record self {
          choices = record self.choices { extensions = record self.choices.extensions { secrets_guarded = guarded } };
        } }
    {
        self.choices.extensions.secrets_guarded = guarded;
        self
    }

    /// Whether the local encoder writes a string plain if its Huffman code is not shorter (RFC 9204, section 4.1.2). Off by default: then
    /// each string is Huffman coded, so that one of rare bytes takes up to four times its length.
    pub fn with_shortest_strings(mut self, shortest: bool) -> Self
        ensures { result ≡ record self {
          choices = record self.choices { extensions = record self.choices.extensions { shortest_strings = shortest } };
        } }
    {
        self.choices.extensions.shortest_strings = shortest;
        self
    }

    /// Whether the connection is judged by rules that are else not asked for. Off by default. A peer that breaks one of them ends the
    /// connection:
    /// - Settings: 8 (at a client; RFC 8441, section 3) and 0x33 (RFC 9297, section 2.1.1) are 0 or 1. If the local end announces
    ///   WebTransport, so is 0x2b603742, and it is 1 only beside 0x33 = 1. Else H3_SETTINGS_ERROR.
    /// - The first frame of a control stream is SETTINGS, not one of unknown type either (RFC 9114, section 6.2.1). Else
    ///   H3_MISSING_SETTINGS, as soon as the type and the length of that frame came.
    /// - An instruction that is longer than the limit on what is unfinished is an error of its stream (RFC 9204, section 7.4):
    ///   QPACK_ENCODER_STREAM_ERROR or QPACK_DECODER_STREAM_ERROR.
    /// - The id of a WebTransport session names a bidirectional stream that a client opened. Else H3_ID_ERROR.
    /// - No line of a field section names an entry of the dynamic table from the section's required insert count on (RFC 9204, section
    ///   2.2.3). If the local end announces no table, the encoded count and the sign are 0 (sections 4.5.1.1 and 4.5.1.2). Else
    ///   QPACK_DECOMPRESSION_FAILED.
    ///
    /// Without WebTransport announced, the frames of type 0x41 and the streams of type 0x54 are of unknown type: they are ignored (RFC
    /// 9114, section 9).
    ///
    /// The local end keeps two rules itself: after a GOAWAY of its peer it sends no header section on a stream on which nothing was sent
    /// (RFC 9114, section 5.2), and it does not announce WebTransport without datagrams.
    pub fn with_strict_connection(mut self, strict: bool) -> Self
        ensures { result ≡ record self {
          choices = record self.choices { extensions = record self.choices.extensions { strict_connection = strict } };
        } }
    {
        self.choices.extensions.strict_connection = strict;
        self
    }

    /// Of how many streams a server keeps what the client's PRIORITY_UPDATE frames said (RFC 9218, section 7.2) until it is used, at most
    /// 128. What comes of a further one while so many wait is dropped. A greater value is the same as 128. With 0 such frames mean nothing,
    /// as any of an unknown type (RFC 9114, section 9). Otherwise one that is out of place or malformed is a fault of the connection. 0 by
    /// default.
    pub fn with_priority_updates(mut self, most: u64) -> Self
        ensures { result ≡ record self {
          choices = record self.choices { extensions = record self.choices.extensions { priority_updates = most } };
        } }
    {
        self.choices.extensions.priority_updates = most;
        self
    }

    /// How many of the peer's settings are kept whose ids have no meaning here, at most 64: the first ones of its SETTINGS frame. A
    /// reserved id is not kept (RFC 9114, section 7.2.4.1). A greater value is the same as 64. 0 by default: such settings are ignored.
    pub fn with_other_settings(mut self, most: u64) -> Self
        ensures { result ≡ record self {
          choices = record self.choices { extensions = record self.choices.extensions { other_settings = most } };
        } }
    {
        self.choices.extensions.other_settings = most;
        self
    }

    /// Whether the peer's unidirectional streams of types that have no meaning here are delivered (RFC 9114, section 6.2). Off by default:
    /// what comes on them is thrown away. A stream of a reserved type (section 6.2.3) is never delivered, nor one of WebTransport if that
    /// is not known here.
    pub fn with_other_streams(mut self, handed_out: bool) -> Self
        ensures { result ≡ record self {
          choices = record self.choices { extensions = record self.choices.extensions { other_streams = handed_out } };
        } }
    {
        self.choices.extensions.other_streams = handed_out;
        self
    }

    /// What the end chooses for itself.
    pub fn choices(&self) -> Choices
        ensures { result ≡ self.now.choices }
    {
        self.choices
    }

    /// The settings to send. If it greases, the reserved one of the number `grease` is first, with
    /// value 0. Then come the greatest size of a field section, extended CONNECT, WebTransport,
    /// datagrams and the most WebTransport sessions. Refuses a size or a count of 2^62 or more.
    pub fn into_settings(self, grease: u64) -> Result<frame::Settings, SettingsError>
        requires { grease < 0x210842108421083 }
        ensures { result ≡ announced self grease }
    {
        settings_to_send(self.send_grease, self.settings, grease)
    }
}

/// The settings that an end sends which announces these, after the reserved one if it greases.
fn settings_to_send(
    send_grease: bool,
    own: Settings,
    grease: u64,
) -> Result<frame::Settings, SettingsError>
    requires { grease < 0x210842108421083 }
    ensures { result ≡ announced (record { send_grease = send_grease; settings = own; choices = no_choices }) grease }
{
    let mut settings = frame::Settings::default();
    if send_grease {
        settings.insert(SettingId::grease(grease), 0)?;
    }
    settings.insert(SettingId::MAX_HEADER_LIST_SIZE, own.max_field_section_size)?;
    settings.insert(
        SettingId::ENABLE_CONNECT_PROTOCOL,
        u64::from(own.enable_extended_connect),
    )?;
    settings.insert(
        SettingId::ENABLE_WEBTRANSPORT,
        u64::from(own.enable_webtransport),
    )?;
    settings.insert(SettingId::H3_DATAGRAM, u64::from(own.enable_datagram))?;
    settings.insert(
        SettingId::WEBTRANSPORT_MAX_SESSIONS,
        own.max_webtransport_sessions,
    )?;
    Ok(settings)
}
