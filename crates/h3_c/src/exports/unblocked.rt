//! What C calls: the next stream that waited for insertions, which came.
ghost use Rattle.std.specs.Prelude.{IsSome};
ghost use Rattle.h3_c.specs.Does.{Does};
ghost use Rattle.h3_c.specs.Does.CallOfC.{NextUnblocked};
ghost use Rattle.h3_c.specs.Exported.{Steps};
ghost use Rattle.h3_c.specs.Numbers.{number};

use crate::handle::{Handle, kept, opened};
use std::alloc::Global;

/// The lowest id from `from` on of a stream that is unblocked.
#[unsafe(no_mangle)]
pub extern "C" fn h3_raw_next_unblocked(
    alloc: Global,
    handle: Handle,
    from: u64,
    id: &mut u64,
    out: &mut Handle,
) -> u32
    requires { IsSome handle.value }
    ensures { Steps handle.value out.new.value (Does (NextUnblocked from id.old id.new (number result 0))) }
{
    let connection = opened(alloc, handle);
    let told = connection.next_unblocked(from, id);
    *out = kept(connection);
    told.number
}
