//! What C calls: settings that a client remembers of its server.
ghost use Rattle.std.specs.Prelude.{◌≡◌, ◌<◌, ◌≤◌, IsSome, take};
ghost use Rattle.h3_c.specs.Configs.{config_given, side_of};
ghost use Rattle.h3_c.specs.Does.{Does};
ghost use Rattle.h3_c.specs.Does.CallOfC.{RememberSettings, SettingsKept};
ghost use Rattle.h3_c.specs.Exported.{Steps};
ghost use Rattle.h3_c.specs.Further.{pairs_given};
ghost use Rattle.h3_c.specs.Numbers.{argument, number};
ghost use Rattle.h3_c.specs.Remembered.{MakesGivenResumed, MakesOf, MakesResumed};
ghost use Rattle.h3_proto.specs.Settings.{settings_of};

use crate::config::{GivenConfig, side_of};
use crate::connection::{GivenPairs, made_resumed};
use crate::handle::{Handle, kept, opened};
use crate::numbers::{ARGUMENT, OK, Told};
use h3_proto::frame::Settings;
use h3_proto::stream::Side;
use std::alloc::Global;

/// Copies the settings of the peer that came, to be remembered.
#[unsafe(no_mangle)]
pub extern "C" fn h3_raw_remember_settings(
    alloc: Global,
    handle: Handle,
    buffer: &mut [u8],
    count: &mut usize,
    out: &mut Handle,
) -> u32
    requires { IsSome handle.value }
    ensures { Steps handle.value out.new.value (Does (RememberSettings buffer.old buffer.new count.old count.new (number result 0))) }
{
    let connection = opened(alloc, handle);
    let told = connection.remember_settings(alloc, buffer, count);
    *out = kept(connection);
    told.number
}

/// Whether the settings of the peer that came keep to those that were remembered.
#[unsafe(no_mangle)]
pub extern "C" fn h3_raw_settings_kept(
    alloc: Global,
    handle: Handle,
    bytes: &[u8],
    keeps: &mut u32,
    out: &mut Handle,
) -> u32
    requires { IsSome handle.value }
    ensures { Steps handle.value out.new.value (Does (SettingsKept bytes.now keeps.old keeps.new (number result 0))) }
{
    let connection = opened(alloc, handle);
    let told = connection.settings_kept(bytes, keeps);
    *out = kept(connection);
    told.number
}

/// Makes a client that remembers settings of its server, and announces further ones: numbers that are an id and a value in turn. The handle
/// is written if it returns `H3_OK`.
#[tactic(auto, using(crate::proofs::MakingWith::given_some_resumed, crate::proofs::MakingWith::given_none_resumed))]
#[unsafe(no_mangle)]
pub extern "C" fn h3_raw_new_resumed(
    alloc: Global,
    config: &[u64],
    further: &[u64],
    bytes: &[u8],
    detail: &mut u64,
    out: &mut Handle,
) -> u32
    ensures { MakesGivenResumed (config_given config.now) further.now bytes.now (number result detail.new) out.old.value out.new.value }
{
    let told = match GivenConfig::of(config) {
        Some(given) => resume(alloc, &given, further, bytes, out),
        None => ARGUMENT,
    };
    *detail = told.detail;
    told.number
}

#[tactic(auto, using(crate::proofs::MakingWith::of_server, crate::proofs::MakingWith::of_malformed, crate::proofs::MakingWith::of_no_pairs, crate::proofs::MakingWith::of_client))]
fn resume(
    alloc: Global,
    given: &GivenConfig,
    further: &[u64],
    bytes: &[u8],
    out: &mut Handle,
) -> Told
    ensures { MakesOf (side_of given.now) (settings_of bytes.now) (pairs_given further.now) given.now result out.old.value out.new.value }
{
    if let Side::Server = side_of(given) {
        return ARGUMENT;
    }
    let mut rest = bytes;
    let Ok(remembered) = Settings::read_payload(&mut rest) else {
        return ARGUMENT;
    };
    match GivenPairs::of(further) {
        Some(pairs) => resume_with(alloc, given, &pairs, remembered, out),
        None => ARGUMENT,
    }
}

#[tactic(auto, using(crate::proofs::MakingWith::made_resumed, crate::proofs::MakingWith::unmade_resumed))]
fn resume_with(
    alloc: Global,
    given: &GivenConfig,
    pairs: &GivenPairs,
    remembered: Settings,
    out: &mut Handle,
) -> Told
    ensures range { 0x210842108421083 ≤ given.now.grease → (result ≡ argument) × (out.new.value ≡ out.old.value) }
    ensures made { given.now.grease < 0x210842108421083
        → MakesResumed given.now (take pairs.now.len pairs.now.pairs) remembered result out.old.value out.new.value }
{
    match made_resumed(alloc, given, pairs, remembered) {
        Ok(connection) => {
            *out = kept(connection);
            OK
        }
        Err(told) => told,
    }
}
