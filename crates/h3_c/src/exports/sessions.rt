//! What C calls: streams of WebTransport sessions.
ghost use Rattle.std.specs.Prelude.{◌≡◌, IsSome};
ghost use Rattle.h3_webtransport_streams.specs.Codes.{code_of, number_of};
ghost use Rattle.h3_c.specs.Exported.{StepsBeside};
ghost use Rattle.h3_c.specs.Numbers.{number};
ghost use Rattle.h3_c.specs.Sessions.{FindsOfSession, GivesNumber, OpensSession, SendsRawOn};

use crate::handle::{Handle, answered, kept, opened};
use crate::numbers::{NONE, OK};
use h3_webtransport_streams::codes;
use std::alloc::Global;

/// Opens a stream of a session, whose id goes to `id`.
#[unsafe(no_mangle)]
pub extern "C" fn h3_raw_open_session_stream(
    alloc: Global,
    handle: Handle,
    session: u64,
    both_ways: u32,
    id: &mut u64,
    detail: &mut u64,
    out: &mut Handle,
) -> u32
    requires { IsSome handle.value }
    ensures there { IsSome out.new.value }
    ensures goes { StepsBeside handle.value out.new.value (λ v w. OpensSession v w session both_ways
        (number result detail.new) id.old id.new) }
{
    let mut connection = opened(alloc, handle);
    let told = connection.open_session_stream(session, both_ways, id);
    answered(connection, told, detail, out)
}

/// Sends bytes on a stream of a session, as they are.
#[unsafe(no_mangle)]
pub extern "C" fn h3_raw_send_raw(
    alloc: Global,
    handle: Handle,
    id: u64,
    bytes: &[u8],
    detail: &mut u64,
    out: &mut Handle,
) -> u32
    requires { IsSome handle.value }
    ensures there { IsSome out.new.value }
    ensures goes { StepsBeside handle.value out.new.value (λ v w. SendsRawOn v w id bytes.now (number result detail.new)) }
{
    let mut connection = opened(alloc, handle);
    let told = connection.send_raw(alloc, id, bytes);
    answered(connection, told, detail, out)
}

/// The lowest id from `from` on of a stream of a session.
#[unsafe(no_mangle)]
pub extern "C" fn h3_raw_next_of_session(
    alloc: Global,
    handle: Handle,
    session: u64,
    from: u64,
    id: &mut u64,
    out: &mut Handle,
) -> u32
    requires { IsSome handle.value }
    ensures there { IsSome out.new.value }
    ensures goes { StepsBeside handle.value out.new.value (λ v w. FindsOfSession v w session from (number result 0) id.old id.new) }
{
    let connection = opened(alloc, handle);
    let told = connection.next_of_session(session, from, id);
    *out = kept(connection);
    told.number
}

/// The code of HTTP/3 for a number of an application.
#[unsafe(no_mangle)]
pub extern "C" fn h3_raw_webtransport_code(number: u32) -> u64
    ensures { result ≡ code_of number }
{
    codes::code_of(number)
}

/// The number of an application for a code of HTTP/3.
#[unsafe(no_mangle)]
pub extern "C" fn h3_raw_webtransport_number(code: u64, number: &mut u32) -> u32
    ensures { GivesNumber (number_of code) result number.old number.new }
{
    match codes::number_of(code) {
        Some(found) => {
            *number = found;
            OK.number
        }
        None => NONE.number,
    }
}
