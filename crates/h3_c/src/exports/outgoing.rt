//! What C calls: what waits to be sent.
ghost use Rattle.std.specs.Prelude.{IsSome};
ghost use Rattle.h3_c.specs.Beside.{DoesBeside};
ghost use Rattle.h3_c.specs.Does.{Does};
ghost use Rattle.h3_c.specs.Does.CallOfC.{Advance, Outgoing};
ghost use Rattle.h3_c.specs.Exported.{StepsAlone, StepsBeside};
ghost use Rattle.h3_c.specs.Numbers.{number};

use crate::handle::{Handle, kept, opened};
use std::alloc::Global;

/// Copies the first bytes that wait on a stream, up to a payload that C holds.
#[unsafe(no_mangle)]
pub extern "C" fn h3_raw_outgoing(
    alloc: Global,
    handle: Handle,
    id: u64,
    buffer: &mut [u8],
    count: &mut usize,
    past: &mut usize,
    fin: &mut u32,
    out: &mut Handle,
) -> u32
    requires { IsSome handle.value }
    ensures there { IsSome out.new.value }
    ensures goes { StepsAlone handle.value out.new.value (Does
        (Outgoing id buffer.old buffer.new count.old count.new past.old past.new fin.old fin.new (number result 0))) }
    ensures beside { StepsBeside handle.value out.new.value (DoesBeside
        (Outgoing id buffer.old buffer.new count.old count.new past.old past.new fin.old fin.new (number result 0))) }
{
    let connection = opened(alloc, handle);
    let told = connection.outgoing(id, buffer, count, past, fin);
    *out = kept(connection);
    told.number
}

/// Takes the first bytes away that wait on a stream.
#[unsafe(no_mangle)]
pub extern "C" fn h3_raw_advance(
    alloc: Global,
    handle: Handle,
    id: u64,
    count: usize,
    out: &mut Handle,
) -> u32
    requires { IsSome handle.value }
    ensures there { IsSome out.new.value }
    ensures goes { StepsAlone handle.value out.new.value (Does (Advance id count (number result 0))) }
    ensures beside { StepsBeside handle.value out.new.value (DoesBeside (Advance id count (number result 0))) }
{
    let mut connection = opened(alloc, handle);
    let told = connection.advance(id, count);
    *out = kept(connection);
    told.number
}
