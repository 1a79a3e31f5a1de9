//! What C calls: making and freeing.
ghost use Rattle.std.specs.Prelude.{◌≡◌, ◌<◌, ◌≤◌, ◌*◌, length, IsSome};
ghost use Rattle.h3_outgoing.specs.Copied.{put};
ghost use Rattle.h3_c.specs.Configs.{Makes, MakesGiven, config_given, default_config, numbers_of};
ghost use Rattle.h3_c.specs.Numbers.{number, argument};

use crate::config::GivenConfig;
use crate::connection::made;
use crate::handle::{Handle, kept, opened};
use crate::numbers::{ARGUMENT, OK, Told};
use std::alloc::Global;

/// A client whose limits are fit for a peer that is not trusted: as many of its numbers as the caller's `h3_config` has, after its size.
#[unsafe(no_mangle)]
pub extern "C" fn h3_raw_config_default(config: &mut [u64])
    ensures { config.new ≡ put (numbers_of (8 * length config.old) default_config) config.old }
{
    let numbers = GivenConfig::default().numbers(8 * config.len() as u64);
    put_front(&numbers, config);
}

/// Copies numbers to the front of a row, as many as fit. The rest of the row stays.
fn put_front(numbers: &[u64], out: &mut [u64])
    ensures { out.new ≡ put numbers.now out.old }
{
    let count = numbers.len().min(out.len());
    out[..count].copy_from_slice(&numbers[..count]);
}

/// Makes an endpoint. The handle is written if it returns `H3_OK`.
#[tactic(auto, using(crate::proofs::Making::given_some, crate::proofs::Making::given_none))]
#[unsafe(no_mangle)]
pub extern "C" fn h3_raw_new(
    alloc: Global,
    config: &[u64],
    detail: &mut u64,
    out: &mut Handle,
) -> u32
    ensures { MakesGiven (config_given config.now) (number result detail.new) out.old.value out.new.value }
{
    let told = match GivenConfig::of(config) {
        Some(given) => make(alloc, &given, out),
        None => ARGUMENT,
    };
    *detail = told.detail;
    told.number
}

#[tactic(auto, using(crate::proofs::Making::made, crate::proofs::Making::unmade))]
fn make(alloc: Global, given: &GivenConfig, out: &mut Handle) -> Told
    ensures range { 0x210842108421083 ≤ given.now.grease → (result ≡ argument) × (out.new.value ≡ out.old.value) }
    ensures made { given.now.grease < 0x210842108421083 → Makes given.now result out.old.value out.new.value }
{
    match made(alloc, given) {
        Ok(connection) => {
            *out = kept(connection);
            OK
        }
        Err(told) => told,
    }
}

/// Lets an endpoint go. No clause says that all of its memory is given back: `tests/c` counts what is left.
#[unsafe(no_mangle)]
pub extern "C" fn h3_raw_free(alloc: Global, handle: Handle)
    requires { IsSome handle.value }
{
    drop(opened(alloc, handle));
}
