//! What the readers of the peer's control, encoder and decoder streams make of further bytes, each by itself.
ghost use Rattle.std.specs.Prelude.{◌≡◌, ◌+◌, ◌<◌, ◌≤◌, ◌^◌, ◌++◌, true, false, length, IfOk, IfErr, OnOk};
ghost use Rattle.h3_connection.specs.Listeners.{Hears};
ghost use Rattle.h3_connection.specs.PeerReading.{with_unread};
ghost use Rattle.h3_streams.specs.Stopping.{HeardPart, ListensIf, ListenedPart, left_by};

use crate::left::Left;
use bytes::Bytes;
use h3_connection::arrival::MOST_HELD;
use h3_proto::error::Code;
use h3_proto::stream::StreamId;
use h3_unidirectional::control::PeerControl;
use h3_unidirectional::decoding::Decoding;
use h3_unidirectional::encoding::Encoding;
use h3_unidirectional::waiting::WaitingBytes;

/// How far a reading came that ran out of memory.
#[derive(Drop)]
pub(crate) enum Stop {
    /// The reader took none of the bytes.
    Unheld(Bytes),
    /// It holds all of them, and has read a front of what it holds.
    Held,
}

impl Stop {
    /// What is still to be read of the stream of this id.
    pub(crate) fn left(self, id: StreamId) -> Left
        ensures { result ≡ left_by self id }
    {
        match self {
            Stop::Unheld(bytes) => Left::of(id, bytes),
            Stop::Held => Left::held(id),
        }
    }
}

/// Whether so many bytes more have room on the peer's control stream: what is refused is what no memory has room for.
fn has_room(peer: &PeerControl, len: usize) -> bool
    ensures room { result ≡ true → length peer.now.unread + len < 2 ^ 64 }
    ensures none { result ≡ false → 2 ^ 61 ≤ length peer.now.unread + len }
{
    peer.unread_len() < MOST_HELD && len < MOST_HELD
}

/// The peer's control stream holds these bytes as well. An `Err` changes nothing, and returns the bytes.
pub(crate) fn hold(peer: &mut PeerControl, bytes: Bytes) -> Result<(), Bytes>
    ensures ok { OnOk result (peer.new ≡ with_unread peer.old (peer.old.unread ++ bytes)) }
    ensures err { IfErr result (λ back. (back ≡ bytes) × (peer.new ≡ peer.old)) }
{
    if !has_room(peer, bytes.len()) {
        return Err(bytes);
    }
    match peer.push(bytes) {
        Ok(()) => Ok(()),
        Err(back) => Err(back),
    }
}

/// Bytes of the peer's encoder stream (RFC 9204, section 4.3), of instructions up to `most`. If something was inserted, the increment is
/// written on `out`.
#[tactic(auto, using(crate::proofs::Heard::heard_all))]
pub(crate) fn hear(
    decoding: &mut Decoding,
    most: u64,
    out: &mut WaitingBytes,
    bytes: Bytes,
) -> Result<Option<Code>, Stop>
    ensures ok { IfOk result (λ fault. Hears most decoding.old decoding.new bytes fault out.old out.new) }
    ensures err { IfErr result (λ stop. HeardPart most stop bytes decoding.old decoding.new out.old out.new) }
{
    let Ok(()) = decoding.push(bytes.as_slice()) else {
        return Err(Stop::Unheld(bytes));
    };
    match decoding.read(most, out) {
        Ok(fault) => Ok(fault),
        Err(_) => Err(Stop::Held),
    }
}

/// Bytes of the peer's decoder stream (RFC 9204, section 4.4), of instructions up to `most`. Until its settings are known they are held: as
/// many as the stream has credit for, which `unread` counts.
pub(crate) fn listen(
    encoding: &mut Encoding,
    most: u64,
    is_known: bool,
    bytes: Bytes,
) -> Result<Option<Code>, Stop>
    ensures ok { IfOk result (λ fault. ListensIf most is_known bytes encoding.old encoding.new fault) }
    ensures err { IfErr result (λ stop. ListenedPart most stop is_known bytes encoding.old encoding.new) }
{
    let Ok(()) = encoding.push(bytes.as_slice()) else {
        return Err(Stop::Unheld(bytes));
    };
    if !is_known {
        return Ok(None);
    }
    match encoding.read(most) {
        Ok(fault) => Ok(fault),
        Err(_) => Err(Stop::Held),
    }
}
