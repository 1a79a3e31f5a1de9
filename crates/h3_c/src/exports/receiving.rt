//! What C calls: what came.
ghost use Rattle.std.specs.Prelude.{IsSome};
ghost use Rattle.h3_c.specs.Beside.{DoesBeside};
ghost use Rattle.h3_c.specs.Does.{Does};
ghost use Rattle.h3_c.specs.Does.CallOfC.{Deliver, DeliverEnd, DeliverReset};
ghost use Rattle.h3_c.specs.Exported.{StepsAlone, StepsBeside};
ghost use Rattle.h3_c.specs.Numbers.{number};

use crate::handle::{Handle, answered, opened};
use std::alloc::Global;

/// Bytes came on a stream.
#[unsafe(no_mangle)]
pub extern "C" fn h3_raw_deliver(
    alloc: Global,
    handle: Handle,
    id: u64,
    bytes: &[u8],
    detail: &mut u64,
    out: &mut Handle,
) -> u32
    requires { IsSome handle.value }
    ensures there { IsSome out.new.value }
    ensures goes { StepsAlone handle.value out.new.value (Does (Deliver id bytes.now (number result detail.new))) }
    ensures beside { StepsBeside handle.value out.new.value (DoesBeside (Deliver id bytes.now (number result detail.new))) }
{
    let mut connection = opened(alloc, handle);
    let told = connection.deliver(alloc, id, bytes);
    answered(connection, told, detail, out)
}

/// The end of a stream came.
#[unsafe(no_mangle)]
pub extern "C" fn h3_raw_deliver_end(
    alloc: Global,
    handle: Handle,
    id: u64,
    detail: &mut u64,
    out: &mut Handle,
) -> u32
    requires { IsSome handle.value }
    ensures there { IsSome out.new.value }
    ensures goes { StepsAlone handle.value out.new.value (Does (DeliverEnd id (number result detail.new))) }
    ensures beside { StepsBeside handle.value out.new.value (DoesBeside (DeliverEnd id (number result detail.new))) }
{
    let mut connection = opened(alloc, handle);
    let told = connection.deliver_end(id);
    answered(connection, told, detail, out)
}

/// The sender reset a stream, with this code.
#[unsafe(no_mangle)]
pub extern "C" fn h3_raw_deliver_reset(
    alloc: Global,
    handle: Handle,
    id: u64,
    code: u64,
    detail: &mut u64,
    out: &mut Handle,
) -> u32
    requires { IsSome handle.value }
    ensures there { IsSome out.new.value }
    ensures goes { StepsAlone handle.value out.new.value (Does (DeliverReset id code (number result detail.new))) }
    ensures beside { StepsBeside handle.value out.new.value (DoesBeside (DeliverReset id code (number result detail.new))) }
{
    let mut connection = opened(alloc, handle);
    let told = connection.deliver_reset(id, code);
    answered(connection, told, detail, out)
}
