//! What C calls: sending.
ghost use Rattle.std.specs.Prelude.{IsSome};
ghost use Rattle.h3_c.specs.Beside.{DoesBeside};
ghost use Rattle.h3_c.specs.Does.{Does};
ghost use Rattle.h3_c.specs.Does.CallOfC.{Cancel, Finish, Goaway, NextRequestId, OpenRequest, OpenRequestAt, Reset, SendBody, SendBodyOf};
ghost use Rattle.h3_c.specs.Exported.{Steps, StepsAlone, StepsBeside};
ghost use Rattle.h3_c.specs.Numbers.{number};

use crate::handle::{Handle, answered, opened};
use std::alloc::Global;

/// Opens the next request stream, whose id goes to `id`.
#[unsafe(no_mangle)]
pub extern "C" fn h3_raw_open_request(
    alloc: Global,
    handle: Handle,
    id: &mut u64,
    detail: &mut u64,
    out: &mut Handle,
) -> u32
    requires { IsSome handle.value }
    ensures { Steps handle.value out.new.value (Does (OpenRequest id.old id.new (number result detail.new))) }
{
    let mut connection = opened(alloc, handle);
    let told = connection.open_request(id);
    answered(connection, told, detail, out)
}

/// The id that `h3_raw_open_request` gives next goes to `id`, and nothing is opened.
#[unsafe(no_mangle)]
pub extern "C" fn h3_raw_next_request_id(
    alloc: Global,
    handle: Handle,
    id: &mut u64,
    detail: &mut u64,
    out: &mut Handle,
) -> u32
    requires { IsSome handle.value }
    ensures { Steps handle.value out.new.value (Does (NextRequestId id.old id.new (number result detail.new))) }
{
    let connection = opened(alloc, handle);
    let told = connection.next_request_id(id);
    answered(connection, told, detail, out)
}

/// Opens the request of an id that QUIC gave, and all with lower ids that are not open.
#[unsafe(no_mangle)]
pub extern "C" fn h3_raw_open_request_at(
    alloc: Global,
    handle: Handle,
    id: u64,
    detail: &mut u64,
    out: &mut Handle,
) -> u32
    requires { IsSome handle.value }
    ensures { Steps handle.value out.new.value (Does (OpenRequestAt id (number result detail.new))) }
{
    let mut connection = opened(alloc, handle);
    let told = connection.open_request_at(id);
    answered(connection, told, detail, out)
}

/// A piece of a body goes out on a stream.
#[unsafe(no_mangle)]
pub extern "C" fn h3_raw_send_body(
    alloc: Global,
    handle: Handle,
    id: u64,
    bytes: &[u8],
    detail: &mut u64,
    out: &mut Handle,
) -> u32
    requires { IsSome handle.value }
    ensures { Steps handle.value out.new.value (Does (SendBody id bytes.now (number result detail.new))) }
{
    let mut connection = opened(alloc, handle);
    let told = connection.send_body(alloc, id, bytes);
    answered(connection, told, detail, out)
}

/// A piece of a body of so many bytes goes out on a stream, which C holds.
#[unsafe(no_mangle)]
pub extern "C" fn h3_raw_send_body_of(
    alloc: Global,
    handle: Handle,
    id: u64,
    len: usize,
    detail: &mut u64,
    out: &mut Handle,
) -> u32
    requires { IsSome handle.value }
    ensures { Steps handle.value out.new.value (Does (SendBodyOf id len (number result detail.new))) }
{
    let mut connection = opened(alloc, handle);
    let told = connection.send_body_of(id, len);
    answered(connection, told, detail, out)
}

/// The message on a stream is whole.
#[unsafe(no_mangle)]
pub extern "C" fn h3_raw_finish(
    alloc: Global,
    handle: Handle,
    id: u64,
    detail: &mut u64,
    out: &mut Handle,
) -> u32
    requires { IsSome handle.value }
    ensures there { IsSome out.new.value }
    ensures goes { StepsAlone handle.value out.new.value (Does (Finish id (number result detail.new))) }
    ensures beside { StepsBeside handle.value out.new.value (DoesBeside (Finish id (number result detail.new))) }
{
    let mut connection = opened(alloc, handle);
    let told = connection.finish(id);
    answered(connection, told, detail, out)
}

/// Sending on a stream ends here.
#[unsafe(no_mangle)]
pub extern "C" fn h3_raw_reset(
    alloc: Global,
    handle: Handle,
    id: u64,
    detail: &mut u64,
    out: &mut Handle,
) -> u32
    requires { IsSome handle.value }
    ensures there { IsSome out.new.value }
    ensures goes { StepsAlone handle.value out.new.value (Does (Reset id (number result detail.new))) }
    ensures beside { StepsBeside handle.value out.new.value (DoesBeside (Reset id (number result detail.new))) }
{
    let mut connection = opened(alloc, handle);
    let told = connection.reset(id);
    answered(connection, told, detail, out)
}

/// The caller needs nothing more of a request stream.
#[unsafe(no_mangle)]
pub extern "C" fn h3_raw_cancel(
    alloc: Global,
    handle: Handle,
    id: u64,
    detail: &mut u64,
    out: &mut Handle,
) -> u32
    requires { IsSome handle.value }
    ensures there { IsSome out.new.value }
    ensures goes { StepsAlone handle.value out.new.value (Does (Cancel id (number result detail.new))) }
    ensures beside { StepsBeside handle.value out.new.value (DoesBeside (Cancel id (number result detail.new))) }
{
    let mut connection = opened(alloc, handle);
    let told = connection.cancel(id);
    answered(connection, told, detail, out)
}

/// No request, or no push, is taken from this id on.
#[unsafe(no_mangle)]
pub extern "C" fn h3_raw_goaway(
    alloc: Global,
    handle: Handle,
    id: u64,
    detail: &mut u64,
    out: &mut Handle,
) -> u32
    requires { IsSome handle.value }
    ensures { Steps handle.value out.new.value (Does (Goaway id (number result detail.new))) }
{
    let mut connection = opened(alloc, handle);
    let told = connection.goaway(id);
    answered(connection, told, detail, out)
}
