//! What C calls: HTTP Datagrams (RFC 9297, section 2).
ghost use Rattle.std.specs.Prelude.{IsSome};
ghost use Rattle.h3_c.specs.Does.{Does};
ghost use Rattle.h3_c.specs.Does.CallOfC.{DatagramHead, ReadDatagram};
ghost use Rattle.h3_c.specs.Exported.{Steps};
ghost use Rattle.h3_c.specs.Numbers.{number};

use crate::handle::{Handle, answered, opened};
use std::alloc::Global;

/// What stands in front of the payload of a datagram for the request on a stream.
#[unsafe(no_mangle)]
pub extern "C" fn h3_raw_datagram_head(
    alloc: Global,
    handle: Handle,
    id: u64,
    buffer: &mut [u8],
    count: &mut usize,
    detail: &mut u64,
    out: &mut Handle,
) -> u32
    requires { IsSome handle.value }
    ensures { Steps handle.value out.new.value (Does (DatagramHead id buffer.old buffer.new count.old count.new
        (number result detail.new))) }
{
    let connection = opened(alloc, handle);
    let told = connection.datagram_head(id, buffer, count);
    answered(connection, told, detail, out)
}

/// A datagram came.
#[unsafe(no_mangle)]
pub extern "C" fn h3_raw_read_datagram(
    alloc: Global,
    handle: Handle,
    bytes: &[u8],
    id: &mut u64,
    from: &mut usize,
    detail: &mut u64,
    out: &mut Handle,
) -> u32
    requires { IsSome handle.value }
    ensures { Steps handle.value out.new.value (Does (ReadDatagram bytes.now id.old id.new from.old from.new
        (number result detail.new))) }
{
    let mut connection = opened(alloc, handle);
    let told = connection.read_datagram(bytes, id, from);
    answered(connection, told, detail, out)
}
