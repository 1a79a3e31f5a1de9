//! What C calls: header and trailer sections.
ghost use Rattle.std.specs.Prelude.{IsSome};
ghost use Rattle.h3_c.specs.Does.{Does};
ghost use Rattle.h3_c.specs.Does.CallOfC.{SendHead, SendTrailer};
ghost use Rattle.h3_c.specs.Exported.{Steps};
ghost use Rattle.h3_c.specs.Numbers.{number};

use crate::fields::FieldSize;
use crate::handle::{Handle, answered, opened};
use std::alloc::Global;

/// A header section goes out on a stream, as it is.
#[unsafe(no_mangle)]
pub extern "C" fn h3_raw_send_head(
    alloc: Global,
    handle: Handle,
    id: u64,
    sizes: &[FieldSize],
    flags: &[u8],
    bytes: &'static [u8],
    detail: &mut u64,
    out: &mut Handle,
) -> u32
    requires { IsSome handle.value }
    ensures { Steps handle.value out.new.value (Does (SendHead id sizes.now flags.now bytes.now (number result detail.new))) }
{
    let mut connection = opened(alloc, handle);
    let told = connection.send_head(alloc, id, sizes, flags, bytes);
    answered(connection, told, detail, out)
}

/// A trailer section goes out on a stream, as it is.
#[unsafe(no_mangle)]
pub extern "C" fn h3_raw_send_trailer(
    alloc: Global,
    handle: Handle,
    id: u64,
    sizes: &[FieldSize],
    flags: &[u8],
    bytes: &'static [u8],
    detail: &mut u64,
    out: &mut Handle,
) -> u32
    requires { IsSome handle.value }
    ensures { Steps handle.value out.new.value (Does (SendTrailer id sizes.now flags.now bytes.now (number result detail.new))) }
{
    let mut connection = opened(alloc, handle);
    let told = connection.send_trailer(alloc, id, sizes, flags, bytes);
    answered(connection, told, detail, out)
}
