//! What C calls: what happened on the connection, each reported once.
ghost use Rattle.std.specs.Prelude.{IsSome};
ghost use Rattle.h3_c.specs.Does.{Does};
ghost use Rattle.h3_c.specs.Does.CallOfC.{NextEvent};
ghost use Rattle.h3_c.specs.Exported.{Steps};
ghost use Rattle.h3_c.specs.Numbers.{number};

use crate::handle::{Handle, kept, opened};
use std::alloc::Global;

/// What happened on the connection and was not reported yet.
#[unsafe(no_mangle)]
pub extern "C" fn h3_raw_next_event(
    alloc: Global,
    handle: Handle,
    kind: &mut u32,
    id: &mut u64,
    out: &mut Handle,
) -> u32
    requires { IsSome handle.value }
    ensures { Steps handle.value out.new.value (Does (NextEvent kind.old kind.new id.old id.new (number result 0))) }
{
    let mut connection = opened(alloc, handle);
    let told = connection.next_event(kind, id);
    *out = kept(connection);
    told.number
}
