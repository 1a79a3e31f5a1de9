//! What C calls: which stream sends next, by priority.
ghost use Rattle.std.specs.Prelude.{IsSome};
ghost use Rattle.h3_c.specs.Beside.{DoesBeside};
ghost use Rattle.h3_c.specs.Does.{Does};
ghost use Rattle.h3_c.specs.Does.CallOfC.{Hold, NextByPriority, PriorityOf, SendPriority, SetInitialPriority, SetPriority};
ghost use Rattle.h3_c.specs.Exported.{Steps, StepsAlone, StepsBeside};
ghost use Rattle.h3_c.specs.Numbers.{number};

use crate::handle::{Handle, answered, kept, opened};
use std::alloc::Global;

/// The stream that sends next: one of the least urgency, by turns.
#[unsafe(no_mangle)]
pub extern "C" fn h3_raw_next_by_priority(
    alloc: Global,
    handle: Handle,
    id: &mut u64,
    out: &mut Handle,
) -> u32
    requires { IsSome handle.value }
    ensures there { IsSome out.new.value }
    ensures goes { StepsAlone handle.value out.new.value (Does (NextByPriority id.old id.new (number result 0))) }
    ensures beside { StepsBeside handle.value out.new.value (DoesBeside (NextByPriority id.old id.new (number result 0))) }
{
    let mut connection = opened(alloc, handle);
    let told = connection.next_by_priority(id);
    *out = kept(connection);
    told.number
}

/// A request stream has this priority from now on.
#[unsafe(no_mangle)]
pub extern "C" fn h3_raw_set_priority(
    alloc: Global,
    handle: Handle,
    id: u64,
    urgency: u32,
    incremental: u32,
    detail: &mut u64,
    out: &mut Handle,
) -> u32
    requires { IsSome handle.value }
    ensures { Steps handle.value out.new.value (Does (SetPriority id urgency incremental (number result detail.new))) }
{
    let mut connection = opened(alloc, handle);
    let told = connection.set_priority(id, urgency, incremental);
    answered(connection, told, detail, out)
}

/// The request of a stream asks for this priority by its `priority` field.
#[unsafe(no_mangle)]
pub extern "C" fn h3_raw_set_initial_priority(
    alloc: Global,
    handle: Handle,
    id: u64,
    urgency: u32,
    incremental: u32,
    detail: &mut u64,
    out: &mut Handle,
) -> u32
    requires { IsSome handle.value }
    ensures { Steps handle.value out.new.value (Does (SetInitialPriority id urgency incremental (number result detail.new))) }
{
    let mut connection = opened(alloc, handle);
    let told = connection.set_initial_priority(id, urgency, incremental);
    answered(connection, told, detail, out)
}

/// Tells the server the priority of a response (RFC 9218, section 7.2).
#[unsafe(no_mangle)]
pub extern "C" fn h3_raw_send_priority(
    alloc: Global,
    handle: Handle,
    id: u64,
    urgency: u32,
    incremental: u32,
    detail: &mut u64,
    out: &mut Handle,
) -> u32
    requires { IsSome handle.value }
    ensures { Steps handle.value out.new.value (Does (SendPriority id urgency incremental (number result detail.new))) }
{
    let mut connection = opened(alloc, handle);
    let told = connection.send_priority(id, urgency, incremental);
    answered(connection, told, detail, out)
}

/// The priority that counts of a request stream.
#[unsafe(no_mangle)]
pub extern "C" fn h3_raw_priority(
    alloc: Global,
    handle: Handle,
    id: u64,
    urgency: &mut u32,
    incremental: &mut u32,
    out: &mut Handle,
) -> u32
    requires { IsSome handle.value }
    ensures { Steps handle.value out.new.value (Does (PriorityOf id urgency.old urgency.new incremental.old incremental.new
        (number result 0))) }
{
    let connection = opened(alloc, handle);
    let told = connection.priority(id, urgency, incremental);
    *out = kept(connection);
    told.number
}

/// QUIC has no credit for a stream, or has it again.
#[unsafe(no_mangle)]
pub extern "C" fn h3_raw_hold(
    alloc: Global,
    handle: Handle,
    id: u64,
    held: u32,
    detail: &mut u64,
    out: &mut Handle,
) -> u32
    requires { IsSome handle.value }
    ensures there { IsSome out.new.value }
    ensures goes { StepsAlone handle.value out.new.value (Does (Hold id held (number result detail.new))) }
    ensures beside { StepsBeside handle.value out.new.value (DoesBeside (Hold id held (number result detail.new))) }
{
    let mut connection = opened(alloc, handle);
    let told = connection.hold(id, held);
    answered(connection, told, detail, out)
}
