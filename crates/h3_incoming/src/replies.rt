//! What a decoder answers on its stream when a field section was read (RFC 9204, section 4.4).
ghost use Rattle.std.specs.Prelude.{◌≡◌, ◌<◌, ◌^◌, ◌++◌, true, OnOk, OnErr};
ghost use Rattle.h3_incoming.specs.Replying.{replies_of, encodings};

use h3_proto::stream::StreamId;
use h3_qpack::{ack_header, stream_canceled};
use std::alloc::{AllocError, Global};

// RFC 9204 2.2.2.1: section acknowledgment, written
/// Appends the acknowledgment of a section and the cancellation of its stream, those of them that are due. A refusal appends
/// nothing.
pub(crate) fn reply(
    alloc: Global,
    id: StreamId,
    acknowledges: bool,
    cancels: bool,
    replies: &mut Vec<u8>,
) -> Result<(), AllocError>
    ensures ok { OnOk result (replies.new.items ≡ replies.old.items ++ encodings (replies_of id acknowledges cancels)) }
    ensures err { OnErr result (replies.new.items ≡ replies.old.items) }
{
    let stream = id.into_inner();
    if !cancels {
        if acknowledges {
            return ack_header(stream, replies);
        }
        return Ok(());
    }
    if !acknowledges {
        return stream_canceled(stream, replies);
    }
    reply_both(alloc, stream, replies)
}

// Both in a vector of their own first, so that they are appended at once.
fn reply_both(alloc: Global, stream: u64, replies: &mut Vec<u8>) -> Result<(), AllocError>
    requires { stream < 2 ^ 62 }
    ensures ok { OnOk result (replies.new.items ≡ replies.old.items ++ encodings (replies_of stream true true)) }
    ensures err { OnErr result (replies.new.items ≡ replies.old.items) }
{
    let mut both = Vec::new(alloc);
    let answer = match write_both(stream, &mut both) {
        Ok(()) => replies.extend_from_slice(both.as_slice()),
        Err(e) => Err(e),
    };
    drop(both);
    answer
}

fn write_both(stream: u64, both: &mut Vec<u8>) -> Result<(), AllocError>
    requires { stream < 2 ^ 62 }
    ensures { OnOk result (both.new.items ≡ both.old.items ++ encodings (replies_of stream true true)) }
{
    ack_header(stream, both)?;
    stream_canceled(stream, both)
}
