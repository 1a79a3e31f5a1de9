//! What C calls: what came, read where it lies.
ghost use Rattle.std.specs.Prelude.{IsSome};
ghost use Rattle.h3_c.specs.Beside.{DoesBeside};
ghost use Rattle.h3_c.specs.Does.{Does};
ghost use Rattle.h3_c.specs.Does.CallOfC.{Read};
ghost use Rattle.h3_c.specs.Exported.{StepsAlone, StepsBeside};
ghost use Rattle.h3_c.specs.Numbers.{number};

use crate::handle::{Handle, answered, opened};
use crate::items::PulledItem;
use std::alloc::Global;

/// Bytes came on a stream, and with `fin` its end: the next item, and how many of the bytes were used for it.
#[unsafe(no_mangle)]
pub extern "C" fn h3_raw_read(
    alloc: Global,
    handle: Handle,
    id: u64,
    bytes: &[u8],
    fin: u32,
    used: &mut usize,
    item: &mut PulledItem,
    detail: &mut u64,
    out: &mut Handle,
) -> u32
    requires { IsSome handle.value }
    ensures there { IsSome out.new.value }
    ensures goes { StepsAlone handle.value out.new.value (Does
        (Read id bytes.now fin used.new item.old item.new (number result detail.new))) }
    ensures beside { StepsBeside handle.value out.new.value (DoesBeside
        (Read id bytes.now fin used.new item.old item.new (number result detail.new))) }
{
    let mut connection = opened(alloc, handle);
    let told = connection.read(alloc, id, bytes, fin, used, item);
    answered(connection, told, detail, out)
}
