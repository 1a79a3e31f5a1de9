//! A copy of what waits to be sent.
ghost use Rattle.std.specs.Prelude.{◌≡◌, ◌+◌, ◌-◌, ◌≤◌, ◌==◌, ◌&&◌, ◌++◌, length, take, OnOk, OnErr};
ghost use Rattle.h3_connection.specs.WaitingPieces.{bytes_of};
ghost use Rattle.h3_session.specs.Copied.{CopiesTo, TellsEnd};
ghost use Rattle.h3_session.specs.Running.{CopiesOutgoing};

use super::Endpoint;
use h3_outgoing::OutgoingStream;
use h3_outgoing::outgoing::put_bytes;
use h3_proto::stream::StreamId;
use std::alloc::AllocError;

impl Endpoint {
    /// Appends the first `count` bytes that wait on a stream, at most all, to `out`, while `outgoing` lends those of the first frame. They
    /// keep waiting. A refusal appends nothing: an allocation failed, or the caller holds some of these bytes (`send_body_of`).
    #[tactic(auto, using(crate::proofs::Copying::copies_own))]
    pub fn copy_outgoing(
        &self,
        id: StreamId,
        count: usize,
        out: &mut Vec<u8>,
    ) -> Result<(), AllocError>
        ensures ok { OnOk result (CopiesOutgoing self.now id count out.old.items out.new.items) }
        ensures err { OnErr result (out.new.items ≡ out.old.items) }
    {
        let Some(stream) = self.sender(id) else {
            append_front(self.own_outgoing(id), count, out)?;
            return Ok(());
        };
        stream.copy_front(count, out)?;
        Ok(())
    }

    /// Copies the first bytes that wait on a stream to the front of `out`, over frames too: as many as fit, up to a payload that the caller
    /// holds (`send_body_of`). The rest of `out` stays, and they keep waiting. It takes no memory. Says how many bytes, and how many of
    /// that payload's follow them. Says also whether the message was finished and these are all that wait of it: then the end of the stream
    /// goes out after them. With one look-up.
    #[tactic(auto, using(crate::proofs::Copying::puts_own, crate::proofs::Copying::own_goes_on))]
    pub fn copy_with_end(&self, id: StreamId, out: &mut [u8]) -> (usize, usize, bool)
        ensures copied { CopiesTo self.now id result.0 result.1 out.old out.new }
        ensures within { result.0 ≤ length out.old }
        ensures ends { TellsEnd self.now id (result.0 + result.1) result.2 }
    {
        let Some(stream) = self.sender(id) else {
            return (put_bytes(self.own_outgoing(id), out), 0, false);
        };
        let (count, past) = stream.copy_to(out);
        (count, past, ends_behind(stream, count, past))
    }
}

/// Whether the message on a stream was finished, and so many bytes and so many after them are all that wait of it.
fn ends_behind(stream: &OutgoingStream, count: usize, past: usize) -> bool
    requires { count ≤ length (bytes_of stream.now.pieces) }
    ensures { result ≡ (stream.now.is_finished && (length (bytes_of stream.now.pieces) - count == past)) }
{
    stream.is_finished() && stream.waiting() - count == past
}

/// Appends the first bytes of a text, at most all. A refusal appends nothing.
fn append_front(bytes: &[u8], count: usize, out: &mut Vec<u8>) -> Result<(), AllocError>
    ensures ok { OnOk result (out.new.items ≡ out.old.items ++ take count bytes.now) }
    ensures err { OnErr result (out.new.items ≡ out.old.items) }
{
    if count < bytes.len() {
        return out.extend_from_slice(&bytes[..count]);
    }
    out.extend_from_slice(bytes)
}
