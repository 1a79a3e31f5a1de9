//! What stands in front of the payload of an HTTP Datagram: its Quarter Stream ID (RFC 9297, section 2.1).
ghost use Rattle.std.specs.Prelude.{◌≡◌, ◌+◌, ◌%◌, ◌^◌, ◌<◌, ◌++◌, None, Some, MatchOption, IfSome, OnOk, OnErr, length};
ghost use Rattle.h3_coding.specs.Writing.{UsesRoom};
ghost use Rattle.h3_capsule.specs.Datagram.{datagram_of, datagram_head};

use crate::head_bytes::HeadBytes;
use bytes::BufMut;
use h3_coding::coding::{BufExt, BufMutExt, WriteRefused};

/// The greatest quarter of an id, and one more.
const QUARTERS: u64 = 1 << 60;

/// The id of the stream that a datagram is for, a client's bidirectional one, and its payload. None: a datagram that is malformed, which
/// closes the connection with H3_DATAGRAM_ERROR.
#[tactic(auto, unfolding(crate::specs::Datagram::datagram_of))]
pub fn read(datagram: &[u8]) -> Option<(u64, &[u8])>
    ensures value { MatchOption result (datagram_of datagram.now ≡ None) (λ d. datagram_of datagram.now ≡ Some (d.0, d.1.now)) }
    ensures id { IfSome result (λ d. (d.0 % 4 ≡ 0) × (d.0 < 2 ^ 62)) }
{
    let mut payload = datagram;
    let Ok(quarter) = payload.get_var() else {
        return None;
    };
    if quarter >= QUARTERS {
        return None;
    }
    Some((quarter * 4, payload))
}

/// Appends what stands in front of a datagram's payload: a quarter of the id of its stream, a client's bidirectional one.
pub fn write_head<B: BufMut>(buf: &mut B, id: u64) -> Result<(), WriteRefused>
    requires below { id < 2 ^ 62 }
    requires kind { id % 4 ≡ 0 }
    ensures ok { OnOk result (B.written buf.new ≡ B.written buf.old ++ datagram_head id) }
    ensures err { OnErr result (B.written buf.new ≡ B.written buf.old) }
    ensures room { UsesRoom result (B.spare buf.old) (B.spare buf.new) (length (datagram_head id)) }
{
    buf.write_var(id / 4)
}

/// The same as `write_head`, in bytes of its own.
#[tactic(auto, using(crate::proofs::Lengths::of_datagram))]
pub fn head(id: u64) -> HeadBytes
    requires below { id < 2 ^ 62 }
    requires kind { id % 4 ≡ 0 }
    ensures { result ≡ datagram_head id }
{
    let mut head = HeadBytes::new();
    match write_head(&mut head, id) {
        Ok(()) => head,
        Err(_) => unreachable!(),
    }
}
