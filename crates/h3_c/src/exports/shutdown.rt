//! What C calls: shutting a connection down.
ghost use Rattle.std.specs.Prelude.{IsSome};
ghost use Rattle.h3_c.specs.Beside.{DoesBeside};
ghost use Rattle.h3_c.specs.Does.{Does};
ghost use Rattle.h3_c.specs.Does.CallOfC.{FirstUnseen, IsDrained, Shutdown, ShutdownNotice};
ghost use Rattle.h3_c.specs.Exported.{Steps, StepsAlone, StepsBeside};
ghost use Rattle.h3_c.specs.Numbers.{number};

use crate::handle::{Handle, answered, kept, opened};
use std::alloc::Global;

/// The peer learns that the connection will be shut down.
#[unsafe(no_mangle)]
pub extern "C" fn h3_raw_shutdown_notice(
    alloc: Global,
    handle: Handle,
    detail: &mut u64,
    out: &mut Handle,
) -> u32
    requires { IsSome handle.value }
    ensures { Steps handle.value out.new.value (Does (ShutdownNotice (number result detail.new))) }
{
    let mut connection = opened(alloc, handle);
    let told = connection.shutdown_notice();
    answered(connection, told, detail, out)
}

/// No more is taken than came.
#[unsafe(no_mangle)]
pub extern "C" fn h3_raw_shutdown(
    alloc: Global,
    handle: Handle,
    detail: &mut u64,
    out: &mut Handle,
) -> u32
    requires { IsSome handle.value }
    ensures { Steps handle.value out.new.value (Does (Shutdown (number result detail.new))) }
{
    let mut connection = opened(alloc, handle);
    let told = connection.shutdown();
    answered(connection, told, detail, out)
}

/// The first id of a request stream that was not seen.
#[unsafe(no_mangle)]
pub extern "C" fn h3_raw_first_unseen(
    alloc: Global,
    handle: Handle,
    id: &mut u64,
    out: &mut Handle,
) -> u32
    requires { IsSome handle.value }
    ensures { Steps handle.value out.new.value (Does (FirstUnseen id.new (number result 0))) }
{
    let connection = opened(alloc, handle);
    let told = connection.first_unseen(id);
    *out = kept(connection);
    told.number
}

/// Whether nothing is left to be done.
#[unsafe(no_mangle)]
pub extern "C" fn h3_raw_is_drained(
    alloc: Global,
    handle: Handle,
    drained: &mut u32,
    out: &mut Handle,
) -> u32
    requires { IsSome handle.value }
    ensures there { IsSome out.new.value }
    ensures goes { StepsAlone handle.value out.new.value (Does (IsDrained drained.new (number result 0))) }
    ensures beside { StepsBeside handle.value out.new.value (DoesBeside (IsDrained drained.new (number result 0))) }
{
    let connection = opened(alloc, handle);
    let told = connection.is_drained(drained);
    *out = kept(connection);
    told.number
}
