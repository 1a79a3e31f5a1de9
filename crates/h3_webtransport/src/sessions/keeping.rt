//! What an endpoint kept, as an allocation failed before, is read before it gives up a stream of a session.
ghost use Rattle.std.specs.Prelude.{◌≡◌};
ghost use Rattle.h3_connection.specs.Answers.{call_refused};
ghost use Rattle.h3_webtransport.specs.Keeping.{Drops, DropsBehind, ReadsKept, lacks, read_as};

use h3_connection::event::{Fault, Pull, Refusal};
use h3_proto::error::Code;
use h3_proto::stream::StreamId;
use h3_session::endpoint::Endpoint;

// What was kept is read. Each pull does that first, and one of this stream delivers nothing: an endpoint reads none that a server opens
// both ways.
pub(super) fn read_kept(endpoint: &mut Endpoint) -> Result<(), Refusal>
    ensures { ReadsKept endpoint.old endpoint.new result }
{
    let Ok(silent) = StreamId::try_from(1) else {
        unreachable!()
    };
    let pull = endpoint.pull(silent);
    read_as(&pull)
}

// What this call answers by that of the pull.
fn read_as(pull: &Pull) -> Result<(), Refusal>
    ensures { result ≡ read_as pull.now }
{
    match pull {
        Pull::Fault(fault) => match fault {
            Fault::Connection(code) => Err(Refusal::Closed(*code)),
            Fault::Memory => Err(Refusal::OutOfMemory),
            Fault::Stream(_) => Ok(()),
        },
        Pull::Item(_) | Pull::Pending | Pull::Waiting(_) | Pull::NoMessages => Ok(()),
    }
}

// What came on a stream that goes one way is dropped. If something is kept, that is read first.
#[tactic(auto, using(crate::proofs::Keeping::drops_now))]
pub(super) fn drop_one_way(endpoint: &mut Endpoint, id: StreamId) -> Result<(), Refusal>
    ensures { Drops endpoint.old endpoint.new id result }
{
    let dropped = endpoint.drop_session(id, Code::H3_REQUEST_CANCELLED);
    if lacks_memory(&dropped) {
        return drop_behind(endpoint, id);
    }
    dropped
}

// The same after what is kept.
#[tactic(auto, using(crate::proofs::Keeping::drops_read, crate::proofs::Keeping::drops_not))]
fn drop_behind(endpoint: &mut Endpoint, id: StreamId) -> Result<(), Refusal>
    ensures { DropsBehind endpoint.old endpoint.new id result }
{
    match read_kept(endpoint) {
        Ok(()) => endpoint.drop_session(id, Code::H3_REQUEST_CANCELLED),
        Err(refusal) => Err(refusal),
    }
}

// Whether a call ran out of memory.
fn lacks_memory(call: &Result<(), Refusal>) -> bool
    ensures { result ≡ lacks (call_refused call.now) }
{
    match call {
        Ok(()) => false,
        Err(refusal) => matches!(refusal, Refusal::OutOfMemory),
    }
}
