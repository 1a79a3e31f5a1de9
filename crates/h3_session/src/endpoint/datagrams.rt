//! HTTP Datagrams (RFC 9297, section 2): what stands in front of the payload of one that is sent, and which stream one is for that came.
ghost use Rattle.std.specs.Prelude.{◌≡◌, ◌&&◌, ◌%◌, IfNone, IfSome, option_map};
ghost use Rattle.h3_connection.specs.Remembering.{settings_known};
ghost use Rattle.h3_connection.specs.State.{kept_at};
ghost use Rattle.h3_outgoing.specs.Sent.{is_open};
ghost use Rattle.h3_session.specs.Datagrams.{announces, datagram_at, datagram_refused, if_known, is_late, is_off, peer_announces};
ghost use Rattle.h3_session.specs.Datagrams.{ReadsDatagram, ShowsDatagramHead};
ghost use Rattle.h3_session.specs.Refused.{sender_in};

use super::Endpoint;
use h3_capsule::datagram;
use h3_capsule::head_bytes::HeadBytes;
use h3_connection::event::Refusal;
use h3_proto::error::Code;
use h3_proto::frame::{SettingId, Settings};
use h3_proto::stream::StreamId;

/// Why a datagram may not be sent.
#[derive(Clone, Copy, Debug, PartialEq, Eq)]
pub enum DatagramError {
    /// As other calls on the stream are refused: `Closed`, `NotRequestId`, `NotOpen`, or `Ended` once sending on it was finished or reset.
    Refused(Refusal),
    /// This side announced no datagrams, or the peer did not, or its settings have not come (RFC 9297, section 2.1.1).
    NoDatagrams,
}

/// What a datagram is that came.
#[derive(Clone, Copy, Debug, PartialEq, Eq)]
pub enum DatagramRead {
    /// It is for the request on this stream, and its payload begins at this byte.
    For(StreamId, usize),
    /// It is for this stream, which is not there yet, or the peer's settings have not come. Drop it, or keep it for about a round trip and
    /// read it again.
    Early(StreamId),
    /// Nothing more is received on its stream: drop it.
    Late,
    /// One of the sides announced no datagrams: drop it.
    Off,
    /// The connection has this fault: H3_DATAGRAM_ERROR now, or the one that it had before.
    Fault(Code),
}

impl Endpoint {
    /// What stands in front of the payload of a datagram for the request on a stream: a quarter of the stream's id, in 1 to 8 bytes. Send
    /// both as the payload of a QUIC DATAGRAM frame (RFC 9297, section 2.1). Refused are, in this order, every call after a connection
    /// fault, the id of no request stream, datagrams that one of the sides did not announce, a stream that is not open, and one on which
    /// sending was finished or reset. It takes no memory.
    #[tactic(auto, using(crate::proofs::Datagrams::shows_head))]
    pub fn datagram_head(&self, id: StreamId) -> Result<HeadBytes, DatagramError>
        ensures { ShowsDatagramHead self.now id result }
    {
        match self.datagram_refusal(id) {
            Some(error) => Err(error),
            None => Ok(datagram::head(id.into_inner())),
        }
    }

    // Why no datagram may be sent for the request on a stream.
    fn datagram_refusal(&self, id: StreamId) -> Option<DatagramError>
        ensures value { result ≡ datagram_refused self.now id }
        ensures request { IfNone result (id % 4 ≡ 0) }
    {
        if let Some(code) = self.closed {
            return Some(DatagramError::Refused(Refusal::Closed(code)));
        }
        if !id.is_request() {
            return Some(DatagramError::Refused(Refusal::NotRequestId));
        }
        if !self.sends_datagrams() {
            return Some(DatagramError::NoDatagrams);
        }
        match self.is_sending(id) {
            None => Some(DatagramError::Refused(Refusal::NotOpen)),
            Some(false) => Some(DatagramError::Refused(Refusal::Ended)),
            Some(true) => None,
        }
    }

    // Whether sending on a stream goes on, if the stream is there.
    fn is_sending(&self, id: StreamId) -> Option<bool>
        ensures { result ≡ option_map is_open (sender_in self.now id) }
    {
        match self.sender(id) {
            Some(stream) => Some(!stream.is_finished() && !stream.is_reset()),
            None => None,
        }
    }

    /// A datagram came, the payload of a QUIC DATAGRAM frame: which request it is for, and where its own payload begins (RFC 9297, section
    /// 2.1). One without the whole id of a request stream is a connection fault, after which every call is refused as after any other. It
    /// takes no memory, and changes nothing else.
    #[tactic(auto, using(crate::proofs::Datagrams::was_closed, crate::proofs::Datagrams::was_off, crate::proofs::Datagrams::was_malformed, crate::proofs::Datagrams::was_read))]
    pub fn read_datagram(&mut self, bytes: &[u8]) -> DatagramRead
        ensures reads { ReadsDatagram self.old self.new bytes.now result }
        ensures rest { self.new ≡ record self.old { closed = self.new.closed } }
    {
        if let Some(code) = self.closed {
            return DatagramRead::Fault(code);
        }
        if self.has_no_datagrams() {
            return DatagramRead::Off;
        }
        let Some(read) = datagram::read(bytes) else {
            self.closed = Some(Code::H3_DATAGRAM_ERROR);
            return DatagramRead::Fault(Code::H3_DATAGRAM_ERROR);
        };
        let Ok(id) = StreamId::try_from(read.0) else {
            unreachable!();
        };
        self.datagram_for(id, bytes.len().saturating_sub(read.1.len()))
    }

    // Whether both sides announced datagrams.
    fn sends_datagrams(&self) -> bool
        ensures { result ≡ (announces self.now.announced.settings && peer_announces
            (settings_known self.now.announced self.now.peer.settings)) }
    {
        if !announces(&self.announced.settings) {
            return false;
        }
        match self.announced.settings_known(self.streams.peer.settings()) {
            Some(settings) => announces(settings),
            None => false,
        }
    }

    // Whether one of the sides announced none, as far as is known.
    fn has_no_datagrams(&self) -> bool
        ensures { result ≡ is_off self.now.announced.settings self.now.peer.settings }
    {
        if !announces(&self.announced.settings) {
            return true;
        }
        match self.streams.peer.settings() {
            Some(settings) => !announces(settings),
            None => false,
        }
    }

    // What a datagram is for this stream, whose payload begins at this byte.
    #[tactic(auto, using(crate::proofs::Datagrams::is_early, crate::proofs::Datagrams::is_dropped, crate::proofs::Datagrams::is_taken))]
    fn datagram_for(&self, id: StreamId, from: usize) -> DatagramRead
        ensures { result ≡ datagram_at self.now.kept self.now.peer.settings id from
            (option_map (λ r. r.incoming) (kept_at self.now.requests id)) }
    {
        if !self.requests.contains(id) {
            return DatagramRead::Early(id);
        }
        if self.is_late(id) {
            return DatagramRead::Late;
        }
        self.if_known(id, from)
    }

    // What it is for a stream that is open to receive.
    fn if_known(&self, id: StreamId, from: usize) -> DatagramRead
        ensures { result ≡ if_known self.now.peer.settings id from }
    {
        match self.streams.peer.settings() {
            Some(_) => DatagramRead::For(id, from),
            None => DatagramRead::Early(id),
        }
    }

    // Whether nothing more is received on a stream that is there.
    #[tactic(auto, using(crate::proofs::Datagrams::late_is))]
    fn is_late(&self, id: StreamId) -> bool
        ensures { IfSome (kept_at self.now.requests id) (λ r. result ≡ is_late self.now.kept id r.incoming) }
    {
        self.requests.delivery_refusal(self.side, id).is_some()
            || self.is_closed_behind(id)
            || self.requests.is_settled(id)
    }
}

/// Whether these settings announce datagrams.
fn announces(settings: &Settings) -> bool
    ensures { result ≡ announces settings.now }
{
    settings.get(SettingId::H3_DATAGRAM).unwrap_or(0) == 1
}
