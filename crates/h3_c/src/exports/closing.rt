//! What C calls: a stream is given up both ways.
ghost use Rattle.std.specs.Prelude.{IsSome};
ghost use Rattle.h3_c.specs.Beside.{DoesBeside};
ghost use Rattle.h3_c.specs.Does.{Does};
ghost use Rattle.h3_c.specs.Does.CallOfC.{CloseStream};
ghost use Rattle.h3_c.specs.Exported.{StepsAlone, StepsBeside};
ghost use Rattle.h3_c.specs.Numbers.{number};

use crate::handle::{Handle, answered, opened};
use std::alloc::Global;

/// A stream is given up both ways: 1 says that QUIC has to send the frame.
#[unsafe(no_mangle)]
pub extern "C" fn h3_raw_close_stream(
    alloc: Global,
    handle: Handle,
    id: u64,
    stop_sending: &mut u32,
    reset_stream: &mut u32,
    detail: &mut u64,
    out: &mut Handle,
) -> u32
    requires { IsSome handle.value }
    ensures there { IsSome out.new.value }
    ensures goes { StepsAlone handle.value out.new.value (Does
        (CloseStream id stop_sending.old stop_sending.new reset_stream.old reset_stream.new (number result detail.new))) }
    ensures beside { StepsBeside handle.value out.new.value (DoesBeside
        (CloseStream id stop_sending.old stop_sending.new reset_stream.old reset_stream.new (number result detail.new))) }
{
    let mut connection = opened(alloc, handle);
    let told = connection.close_stream(id, stop_sending, reset_stream);
    answered(connection, told, detail, out)
}
