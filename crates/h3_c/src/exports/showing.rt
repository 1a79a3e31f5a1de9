//! What C calls: what can be read.
ghost use Rattle.std.specs.Prelude.{IsSome};
ghost use Rattle.h3_c.specs.Beside.{DoesBeside};
ghost use Rattle.h3_c.specs.Does.{Does};
ghost use Rattle.h3_c.specs.Does.CallOfC.{Connection, FrameLeft, PeerSetting, Stream};
ghost use Rattle.h3_c.specs.Exported.{Steps, StepsAlone, StepsBeside};
ghost use Rattle.h3_c.specs.Numbers.{number};

use crate::handle::{Handle, kept, opened};
use crate::state::{ConnectionState, StreamState};
use std::alloc::Global;

/// The state of a stream.
#[unsafe(no_mangle)]
pub extern "C" fn h3_raw_stream(
    alloc: Global,
    handle: Handle,
    id: u64,
    state: &mut StreamState,
    out: &mut Handle,
) -> u32
    requires { IsSome handle.value }
    ensures there { IsSome out.new.value }
    ensures goes { StepsAlone handle.value out.new.value (Does (Stream id state.old state.new (number result 0))) }
    ensures beside { StepsBeside handle.value out.new.value (DoesBeside (Stream id state.old state.new (number result 0))) }
{
    let connection = opened(alloc, handle);
    let told = connection.stream(id, state);
    *out = kept(connection);
    told.number
}

/// How many bytes of a frame's payload are still to come.
#[unsafe(no_mangle)]
pub extern "C" fn h3_raw_frame_left(
    alloc: Global,
    handle: Handle,
    id: u64,
    left: &mut u64,
    out: &mut Handle,
) -> u32
    requires { IsSome handle.value }
    ensures { Steps handle.value out.new.value (Does (FrameLeft id left.old left.new (number result 0))) }
{
    let connection = opened(alloc, handle);
    let told = connection.frame_left(id, left);
    *out = kept(connection);
    told.number
}

/// The state of the connection.
#[unsafe(no_mangle)]
pub extern "C" fn h3_raw_connection(
    alloc: Global,
    handle: Handle,
    state: &mut ConnectionState,
    out: &mut Handle,
) -> u32
    requires { IsSome handle.value }
    ensures { Steps handle.value out.new.value (Does (Connection state.new (number result 0))) }
{
    let connection = opened(alloc, handle);
    let told = connection.connection(state);
    *out = kept(connection);
    told.number
}

/// The value of a setting that the peer announced.
#[unsafe(no_mangle)]
pub extern "C" fn h3_raw_peer_setting(
    alloc: Global,
    handle: Handle,
    setting: u64,
    value: &mut u64,
    out: &mut Handle,
) -> u32
    requires { IsSome handle.value }
    ensures { Steps handle.value out.new.value (Does (PeerSetting setting value.old value.new (number result 0))) }
{
    let connection = opened(alloc, handle);
    let told = connection.peer_setting(setting, value);
    *out = kept(connection);
    told.number
}
