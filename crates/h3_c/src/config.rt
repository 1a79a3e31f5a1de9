//! What an endpoint is made of: `h3_config` of the header.
ghost use Rattle.std.specs.Prelude.{◌≡◌, ◌<◌, slice_get, unwrap_or};
ghost use Rattle.h3_connection.specs.Remembering.{remembering};
ghost use Rattle.h3_connection.specs.SendingContracts.{Creates, CreatesWith};
ghost use Rattle.h3_proto.specs.declared.stream.Side.TheVariants.{Client};
ghost use Rattle.h3_c.specs.Configs.{default_config, side_of, config_of, config_given, lacks_settings, least_for, limit_of_given};
ghost use Rattle.h3_c.specs.Configs.{announced_of, numbers_of, without_settings};

use h3_coding::varint::VarInt;
use h3_connection::setup::{Limits, NewError};
use h3_proto::config::Config;
use h3_proto::frame::{SettingId, Settings, SettingsError};
use h3_proto::stream::Side;
use h3_session::endpoint::Endpoint;
use std::alloc::Global;

/// How many numbers `h3_config` has: its size in bytes, and those of `GivenConfig`.
const NUMBERS: usize = 26;

/// The numbers of `h3_config` after its size, in its order. One other than 0 means yes.
#[derive(Copy, Clone)]
pub struct GivenConfig {
    pub max_field_section_size: u64,
    pub max_webtransport_sessions: u64,
    pub table: u64,
    pub blocked: u64,
    pub grease: u64,
    pub server: u64,
    pub send_grease: u64,
    pub webtransport: u64,
    pub extended_connect: u64,
    pub datagram: u64,
    pub strict: u64,
    pub count_acknowledgments: u64,
    pub encoder_table: u64,
    pub economical_table: u64,
    pub unfinished_limit: u64,
    pub kept_ids: u64,
    pub reject_requests: u64,
    pub any_protocol: u64,
    pub guard_secrets: u64,
    pub shortest_strings: u64,
    pub strict_connection: u64,
    pub priority_updates: u64,
    pub other_settings: u64,
    pub other_streams: u64,
    pub sessions: u64,
}

impl Default for GivenConfig {
    ghost is_default = { λ c. c ≡ default_config };

    fn default() -> Self {
        GivenConfig {
            max_field_section_size: 1 << 16,
            max_webtransport_sessions: 0,
            table: 4096,
            blocked: 16,
            grease: 0,
            server: 0,
            send_grease: 0,
            webtransport: 0,
            extended_connect: 0,
            datagram: 0,
            strict: 1,
            count_acknowledgments: 1,
            encoder_table: 4096,
            economical_table: 1,
            unfinished_limit: 0,
            kept_ids: 1000,
            reject_requests: 1,
            any_protocol: 1,
            guard_secrets: 1,
            shortest_strings: 1,
            strict_connection: 1,
            priority_updates: 100,
            other_settings: 0,
            other_streams: 0,
            sessions: 0,
        }
    }
}

impl GivenConfig {
    /// What these numbers ask for: a size first, as `h3_config` has it. A caller that was built when there were fewer has the defaults of
    /// those it does not know. None: the size is not that of the numbers, or there are more than are known here.
    pub(crate) fn of(numbers: &[u64]) -> Option<GivenConfig>
        ensures { result ≡ config_given numbers.now }
    {
        let size = *numbers.first()?;
        if numbers.len() > NUMBERS || size != 8 * numbers.len() as u64 {
            return None;
        }
        let default = GivenConfig::default();
        Some(GivenConfig {
            max_field_section_size: number_or(numbers, 1, default.max_field_section_size),
            max_webtransport_sessions: number_or(numbers, 2, default.max_webtransport_sessions),
            table: number_or(numbers, 3, default.table),
            blocked: number_or(numbers, 4, default.blocked),
            grease: number_or(numbers, 5, default.grease),
            server: number_or(numbers, 6, default.server),
            send_grease: number_or(numbers, 7, default.send_grease),
            webtransport: number_or(numbers, 8, default.webtransport),
            extended_connect: number_or(numbers, 9, default.extended_connect),
            datagram: number_or(numbers, 10, default.datagram),
            strict: number_or(numbers, 11, default.strict),
            count_acknowledgments: number_or(numbers, 12, default.count_acknowledgments),
            encoder_table: number_or(numbers, 13, default.encoder_table),
            economical_table: number_or(numbers, 14, default.economical_table),
            unfinished_limit: number_or(numbers, 15, default.unfinished_limit),
            kept_ids: number_or(numbers, 16, default.kept_ids),
            reject_requests: number_or(numbers, 17, default.reject_requests),
            any_protocol: number_or(numbers, 18, default.any_protocol),
            guard_secrets: number_or(numbers, 19, default.guard_secrets),
            shortest_strings: number_or(numbers, 20, default.shortest_strings),
            strict_connection: number_or(numbers, 21, default.strict_connection),
            priority_updates: number_or(numbers, 22, default.priority_updates),
            other_settings: number_or(numbers, 23, default.other_settings),
            other_streams: number_or(numbers, 24, default.other_streams),
            sessions: number_or(numbers, 25, default.sessions),
        })
    }

    /// All numbers, after a size.
    pub(crate) fn numbers(&self, size: u64) -> [u64; NUMBERS]
        ensures { result ≡ numbers_of size self.now }
    {
        [
            size,
            self.max_field_section_size,
            self.max_webtransport_sessions,
            self.table,
            self.blocked,
            self.grease,
            self.server,
            self.send_grease,
            self.webtransport,
            self.extended_connect,
            self.datagram,
            self.strict,
            self.count_acknowledgments,
            self.encoder_table,
            self.economical_table,
            self.unfinished_limit,
            self.kept_ids,
            self.reject_requests,
            self.any_protocol,
            self.guard_secrets,
            self.shortest_strings,
            self.strict_connection,
            self.priority_updates,
            self.other_settings,
            self.other_streams,
            self.sessions,
        ]
    }

    /// Whether it asks for sessions without the settings that they need.
    fn lacks_settings(&self) -> bool
        ensures { result ≡ lacks_settings self.now }
    {
        self.sessions != 0
            && (self.webtransport == 0 || self.extended_connect == 0 || self.datagram == 0)
    }

    // The limit on what is unfinished. 0 stands for the least one that takes whatever a peer may send that keeps to what is announced.
    fn limit(&self) -> u64
        ensures { result ≡ limit_of_given self.now }
    {
        if self.unfinished_limit == 0 {
            least_for(self.max_field_section_size.max(self.table))
        } else {
            self.unfinished_limit
        }
    }
}

// The least limit if this is announced: four times as much, and at least 256 bytes; or no limit.
fn least_for(announced: u64) -> u64
    ensures { result ≡ least_for announced }
{
    if announced < 1 << 60 {
        (4 * announced).max(256)
    } else {
        VarInt::MAX.into_inner()
    }
}

fn number_or(numbers: &[u64], at: usize, default: u64) -> u64
    ensures { result ≡ unwrap_or (slice_get numbers.now at) default }
{
    numbers.get(at).copied().unwrap_or(default)
}

pub(crate) fn side_of(given: &GivenConfig) -> Side
    ensures { result ≡ side_of given.now }
{
    if given.server != 0 {
        Side::Server
    } else {
        Side::Client
    }
}

fn config_of(given: &GivenConfig) -> Config
    ensures { result ≡ config_of given.now }
{
    Config::default()
        .with_grease(given.send_grease != 0)
        .with_max_field_section_size(given.max_field_section_size)
        .with_webtransport(given.webtransport != 0)
        .with_extended_connect(given.extended_connect != 0)
        .with_datagram(given.datagram != 0)
        .with_max_webtransport_sessions(given.max_webtransport_sessions)
        .with_strict_messages(given.strict != 0)
        .with_acknowledgments_counted(given.count_acknowledgments != 0)
        .with_encoder_table(given.encoder_table)
        .with_economical_table(given.economical_table != 0)
        .with_unfinished_limit(given.limit())
        .with_kept_ids(given.kept_ids)
        .with_requests_rejected(given.reject_requests != 0)
        .with_any_protocol(given.any_protocol != 0)
        .with_secrets_guarded(given.guard_secrets != 0)
        .with_shortest_strings(given.shortest_strings != 0)
        .with_strict_connection(given.strict_connection != 0)
        .with_priority_updates(given.priority_updates)
        .with_other_settings(given.other_settings)
        .with_other_streams(given.other_streams != 0)
}

// Sessions of WebTransport need their setting, with those that it needs.
fn without_settings() -> NewError
    ensures { result ≡ without_settings }
{
    NewError::Settings(SettingsError::InvalidSettingValue(SettingId::ENABLE_WEBTRANSPORT, 1))
}

/// The endpoint that is asked for, with these further settings.
pub(crate) fn endpoint_with(
    alloc: Global,
    given: &GivenConfig,
    further: &[(u64, u64)],
) -> Result<Endpoint, NewError>
    requires { given.now.grease < 0x210842108421083 }
    ensures { CreatesWith (side_of given.now) (announced_of given.now) further.now result }
{
    if given.lacks_settings() {
        return Err(without_settings());
    }
    let limits = Limits {
        table: given.table,
        blocked: given.blocked,
    };
    Endpoint::new_with(
        alloc,
        side_of(given),
        config_of(given),
        limits,
        given.grease,
        further,
    )
}

/// The client that is asked for, with these further settings, that remembers those.
pub(crate) fn endpoint_resumed(
    alloc: Global,
    given: &GivenConfig,
    further: &[(u64, u64)],
    remembered: Settings,
) -> Result<Endpoint, NewError>
    requires { given.now.grease < 0x210842108421083 }
    ensures { CreatesWith Client (remembering (announced_of given.now) remembered) further.now result }
{
    if given.lacks_settings() {
        return Err(without_settings());
    }
    let limits = Limits {
        table: given.table,
        blocked: given.blocked,
    };
    Endpoint::new_resumed(
        alloc,
        config_of(given),
        limits,
        given.grease,
        further,
        remembered,
    )
}

/// The endpoint that is asked for.
pub(crate) fn endpoint_of(alloc: Global, given: &GivenConfig) -> Result<Endpoint, NewError>
    requires { given.now.grease < 0x210842108421083 }
    ensures { Creates (side_of given.now) (announced_of given.now) result }
{
    if given.lacks_settings() {
        return Err(without_settings());
    }
    let limits = Limits {
        table: given.table,
        blocked: given.blocked,
    };
    Endpoint::new(
        alloc,
        side_of(given),
        config_of(given),
        limits,
        given.grease,
    )
}
