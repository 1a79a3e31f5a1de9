//! What C calls: what the peer's unidirectional streams are.
ghost use Rattle.std.specs.Prelude.{IsSome};
ghost use Rattle.h3_c.specs.Does.{Does};
ghost use Rattle.h3_c.specs.Does.CallOfC.{OtherType, StreamKind};
ghost use Rattle.h3_c.specs.Exported.{Steps};
ghost use Rattle.h3_c.specs.Numbers.{number};

use crate::handle::{Handle, kept, opened};
use std::alloc::Global;

/// What a unidirectional stream of the peer is.
#[unsafe(no_mangle)]
pub extern "C" fn h3_raw_stream_kind(
    alloc: Global,
    handle: Handle,
    id: u64,
    kind: &mut u32,
    out: &mut Handle,
) -> u32
    requires { IsSome handle.value }
    ensures { Steps handle.value out.new.value (Does (StreamKind id kind.old kind.new (number result 0))) }
{
    let connection = opened(alloc, handle);
    let told = connection.stream_kind(id, kind);
    *out = kept(connection);
    told.number
}

/// The type of a unidirectional stream of the peer that is delivered though its type has no meaning.
#[unsafe(no_mangle)]
pub extern "C" fn h3_raw_other_type(
    alloc: Global,
    handle: Handle,
    id: u64,
    stream_type: &mut u64,
    out: &mut Handle,
) -> u32
    requires { IsSome handle.value }
    ensures { Steps handle.value out.new.value (Does (OtherType id stream_type.old stream_type.new (number result 0))) }
{
    let connection = opened(alloc, handle);
    let told = connection.other_type(id, stream_type);
    *out = kept(connection);
    told.number
}
