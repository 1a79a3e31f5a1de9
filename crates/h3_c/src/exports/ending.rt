//! What C calls: the ends of streams that are sent.
ghost use Rattle.std.specs.Prelude.{IsSome};
ghost use Rattle.h3_c.specs.Beside.{DoesBeside};
ghost use Rattle.h3_c.specs.Does.{Does};
ghost use Rattle.h3_c.specs.Does.CallOfC.{EndTaken, NextToSend};
ghost use Rattle.h3_c.specs.Exported.{StepsAlone, StepsBeside};
ghost use Rattle.h3_c.specs.Numbers.{number};

use crate::handle::{Handle, kept, opened};
use std::alloc::Global;

/// The lowest id from `from` on of a stream on which bytes or an end wait.
#[unsafe(no_mangle)]
pub extern "C" fn h3_raw_next_to_send(
    alloc: Global,
    handle: Handle,
    from: u64,
    id: &mut u64,
    out: &mut Handle,
) -> u32
    requires { IsSome handle.value }
    ensures there { IsSome out.new.value }
    ensures goes { StepsAlone handle.value out.new.value (Does (NextToSend from id.old id.new (number result 0))) }
    ensures beside { StepsBeside handle.value out.new.value (DoesBeside (NextToSend from id.old id.new (number result 0))) }
{
    let connection = opened(alloc, handle);
    let told = connection.next_to_send(from, id);
    *out = kept(connection);
    told.number
}

/// QUIC took the FIN of a stream.
#[unsafe(no_mangle)]
pub extern "C" fn h3_raw_end_taken(alloc: Global, handle: Handle, id: u64, out: &mut Handle) -> u32
    requires { IsSome handle.value }
    ensures there { IsSome out.new.value }
    ensures goes { StepsAlone handle.value out.new.value (Does (EndTaken id (number result 0))) }
    ensures beside { StepsBeside handle.value out.new.value (DoesBeside (EndTaken id (number result 0))) }
{
    let mut connection = opened(alloc, handle);
    let told = connection.end_taken(id);
    *out = kept(connection);
    told.number
}
