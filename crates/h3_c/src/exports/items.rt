//! What C calls: items.
ghost use Rattle.std.specs.Prelude.{IsSome};
ghost use Rattle.h3_c.specs.Beside.{DoesBeside};
ghost use Rattle.h3_c.specs.Does.{Does};
ghost use Rattle.h3_c.specs.Does.CallOfC.{ItemBytes, ItemFields, Pull};
ghost use Rattle.h3_c.specs.Exported.{Steps, StepsAlone, StepsBeside};
ghost use Rattle.h3_c.specs.Numbers.{number};

use crate::fields::FieldSize;
use crate::handle::{Handle, kept, opened};
use crate::items::PulledItem;
use std::alloc::Global;

/// What comes next on a stream.
#[unsafe(no_mangle)]
pub extern "C" fn h3_raw_pull(
    alloc: Global,
    handle: Handle,
    id: u64,
    item: &mut PulledItem,
    out: &mut Handle,
) -> u32
    requires { IsSome handle.value }
    ensures there { IsSome out.new.value }
    ensures goes { StepsAlone handle.value out.new.value (Does (Pull id item.old item.new (number result 0))) }
    ensures beside { StepsBeside handle.value out.new.value (DoesBeside (Pull id item.old item.new (number result 0))) }
{
    let mut connection = opened(alloc, handle);
    let told = connection.pull(alloc, id, item);
    *out = kept(connection);
    told.number
}

/// All fields of the header or trailer section that was pulled last.
#[unsafe(no_mangle)]
pub extern "C" fn h3_raw_item_fields(
    alloc: Global,
    handle: Handle,
    sizes: &mut [FieldSize],
    flags: &mut [u8],
    bytes: &mut [u8],
    out: &mut Handle,
) -> u32
    requires { IsSome handle.value }
    ensures { Steps handle.value out.new.value (Does (ItemFields sizes.old sizes.new flags.old flags.new bytes.old bytes.new
        (number result 0))) }
{
    let connection = opened(alloc, handle);
    let told = connection.item_fields(sizes, flags, bytes);
    *out = kept(connection);
    told.number
}

/// The bytes of the item that was pulled last, from `from` on.
#[unsafe(no_mangle)]
pub extern "C" fn h3_raw_item_bytes(
    alloc: Global,
    handle: Handle,
    from: usize,
    buffer: &mut [u8],
    count: &mut usize,
    out: &mut Handle,
) -> u32
    requires { IsSome handle.value }
    ensures { Steps handle.value out.new.value (Does (ItemBytes from buffer.old buffer.new count.old count.new (number result 0))) }
{
    let connection = opened(alloc, handle);
    let told = connection.item_bytes(from, buffer, count);
    *out = kept(connection);
    told.number
}
