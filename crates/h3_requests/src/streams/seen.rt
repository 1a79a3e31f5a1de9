//! What stands of a request stream, by its id.
ghost use Rattle.std.specs.Prelude.{◌≡◌, ◌≤◌, Some, false, is_some, option_copied, option_map, unwrap_or};
ghost use Rattle.h3_connection.specs.FrameLeft.{frame_left_of_request};
ghost use Rattle.h3_connection.specs.Incoming.{nothing_came};
ghost use Rattle.h3_connection.specs.Keeping.{is_settled_request};
ghost use Rattle.h3_connection.specs.Prioritizing.{takes_no_response};
ghost use Rattle.h3_connection.specs.State.{kept_at};
ghost use Rattle.h3_messages.specs.OwnMessages.{awaits_tunnel};
ghost use Rattle.h3_requests.specs.Changing.{receiver_refusal};
ghost use Rattle.h3_requests.specs.Refused.{known_in};

use super::RequestStreams;
use h3_connection::event::Refusal;
use h3_frames::frame::FrameBuffer;
use h3_incoming::IncomingStream;
use h3_messages::Content;
use h3_outgoing::OutgoingStream;
use h3_proto::stream::{Side, StreamId};

impl RequestStreams {
    /// Whether the stream is there.
    pub fn contains(&self, id: StreamId) -> bool
        ensures { result ≡ is_some (kept_at self.now id) }
    {
        self.streams.contains(id)
    }

    /// What is sent on a stream, if it is there.
    pub fn outgoing(&self, id: StreamId) -> Option<&OutgoingStream>
        ensures { option_copied result ≡ option_map (λ r. r.outgoing) (kept_at self.now id) }
    {
        match self.streams.get_alike(id) {
            Some(stream) => Some(stream.outgoing()),
            None => None,
        }
    }

    /// The bytes that came on a stream and were not read, if it is there.
    pub fn frames(&self, id: StreamId) -> Option<&FrameBuffer>
        ensures { option_map (λ frames. frames.pieces) (option_copied result) ≡ option_map (λ r. r.incoming.unread) (kept_at self.now id) }
    {
        match self.streams.get_alike(id) {
            Some(stream) => Some(stream.incoming().frames()),
            None => None,
        }
    }

    /// How many bytes are still to come of the payload of the frame that is under way on a stream; 0 if the stream is not there.
    pub fn frame_left(&self, id: StreamId) -> usize
        ensures { result ≡ frame_left_of_request (unwrap_or (option_map (λ r. r.incoming) (kept_at self.now id)) nothing_came) }
    {
        match self.streams.get_alike(id) {
            Some(stream) => stream.incoming().frame_left(),
            None => 0,
        }
    }

    /// How often the field section that is next on a stream was tried, else the last one: at most twice, and 0 if the stream is not there.
    pub fn tries(&self, id: StreamId) -> u8
        ensures value { result ≡ unwrap_or (option_map (λ r. r.incoming.tries) (kept_at self.now id)) 0 }
        ensures bound { result ≤ 2 }
    {
        match self.streams.get_alike(id) {
            Some(stream) => stream.incoming().tries(),
            None => 0,
        }
    }

    /// Whether nothing more is returned of a stream: its end was, or it was given up.
    pub fn is_settled(&self, id: StreamId) -> bool
        ensures { result ≡ is_settled_request (option_map (λ r. r.incoming) (kept_at self.now id)) }
    {
        match self.streams.get_alike(id) {
            Some(stream) => is_settled(stream.incoming()),
            None => false,
        }
    }

    /// Whether no response comes any more on a stream: its end or its reset came, or it was given up.
    pub fn takes_no_response(&self, id: StreamId) -> bool
        ensures { result ≡ unwrap_or (option_map (λ r. takes_no_response r.incoming) (kept_at self.now id)) false }
    {
        match self.streams.get_alike(id) {
            Some(stream) => takes_no_response(stream.incoming()),
            None => false,
        }
    }

    /// Whether a tunnel is awaited after the response on a stream: the header section of a CONNECT request was read there, and the endpoint
    /// asks for strict messages.
    pub fn awaits_tunnel(&self, id: StreamId) -> bool
        ensures { result ≡ awaits_tunnel (known_in (kept_at self.now id)) }
    {
        match self.streams.get_alike(id) {
            Some(stream) => is_tunnel(stream.incoming().response()),
            None => false,
        }
    }

    /// Why what comes on a stream is refused: its end or reset came, or it is not there and the peer does not open it.
    pub fn delivery_refusal(&self, side: Side, id: StreamId) -> Option<Refusal>
        ensures { result ≡ receiver_refusal side (kept_at self.now id) }
    {
        match self.streams.get_alike(id) {
            Some(stream) => {
                if stream.has_ended() {
                    return Some(Refusal::AfterEnd);
                }
                None
            }
            None => match side {
                Side::Client => Some(Refusal::NotOpen),
                Side::Server => None,
            },
        }
    }
}

// Whether it was given up, or its end was returned.
fn is_settled(stream: &IncomingStream) -> bool
    ensures { result ≡ is_settled_request (Some stream.now) }
{
    stream.fault().is_some() || stream.is_over()
}

// Whether its end or its reset came, or it was given up.
fn takes_no_response(stream: &IncomingStream) -> bool
    ensures { result ≡ takes_no_response stream.now }
{
    stream.ended() || stream.was_reset() || stream.fault().is_some()
}

// Whether this is awaited of a response, and is a tunnel.
fn is_tunnel(response: Option<Content>) -> bool
    ensures { result ≡ awaits_tunnel response }
{
    match response {
        Some(content) => matches!(content, Content::Tunnel),
        None => false,
    }
}
