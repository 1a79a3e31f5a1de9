//! What C calls: making an endpoint that announces further settings.
ghost use Rattle.std.specs.Prelude.{◌≡◌, ◌<◌, ◌≤◌, take};
ghost use Rattle.h3_c.specs.Configs.{config_given};
ghost use Rattle.h3_c.specs.Further.{MakesGivenWith, MakesPaired, MakesWith, pairs_given};
ghost use Rattle.h3_c.specs.Numbers.{argument, number};

use crate::config::GivenConfig;
use crate::connection::{GivenPairs, made_with};
use crate::handle::{Handle, kept};
use crate::numbers::{ARGUMENT, OK, Told};
use std::alloc::Global;

/// Makes an endpoint that announces further settings: numbers that are an id and a value in turn. The handle is written if it returns
/// `H3_OK`.
#[tactic(auto, using(crate::proofs::MakingWith::given_some_with, crate::proofs::MakingWith::given_none_with))]
#[unsafe(no_mangle)]
pub extern "C" fn h3_raw_new_with(
    alloc: Global,
    config: &[u64],
    further: &[u64],
    detail: &mut u64,
    out: &mut Handle,
) -> u32
    ensures { MakesGivenWith (config_given config.now) further.now (number result detail.new) out.old.value out.new.value }
{
    let told = match GivenConfig::of(config) {
        Some(given) => make_paired(alloc, &given, further, out),
        None => ARGUMENT,
    };
    *detail = told.detail;
    told.number
}

#[tactic(auto, using(crate::proofs::MakingWith::pairs_none, crate::proofs::MakingWith::pairs_some))]
fn make_paired(alloc: Global, given: &GivenConfig, further: &[u64], out: &mut Handle) -> Told
    ensures { MakesPaired (pairs_given further.now) given.now result out.old.value out.new.value }
{
    match GivenPairs::of(further) {
        Some(pairs) => make_with(alloc, given, &pairs, out),
        None => ARGUMENT,
    }
}

#[tactic(auto, using(crate::proofs::MakingWith::made_with, crate::proofs::MakingWith::unmade_with))]
fn make_with(alloc: Global, given: &GivenConfig, pairs: &GivenPairs, out: &mut Handle) -> Told
    ensures range { 0x210842108421083 ≤ given.now.grease → (result ≡ argument) × (out.new.value ≡ out.old.value) }
    ensures made { given.now.grease < 0x210842108421083
        → MakesWith given.now (take pairs.now.len pairs.now.pairs) result out.old.value out.new.value }
{
    match made_with(alloc, given, pairs) {
        Ok(connection) => {
            *out = kept(connection);
            OK
        }
        Err(told) => told,
    }
}
