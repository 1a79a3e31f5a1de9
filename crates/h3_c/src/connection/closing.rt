//! A stream is given up both ways.
ghost use Rattle.std.specs.Prelude.{◌≡◌, ◌≤◌, ◌^◌};
ghost use Rattle.h3_c.specs.Beside.{ClosesBeside};
ghost use Rattle.h3_c.specs.Exported.{OnStream};

use super::Connection;
use crate::numbers::{ARGUMENT, OK, Told, refused};
use h3_proto::stream::StreamId;

impl Connection {
    /// A stream is given up both ways: 1 says that QUIC has to send the frame.
    pub(crate) fn close_stream(
        &mut self,
        id: u64,
        stop_sending: &mut u32,
        reset_stream: &mut u32,
    ) -> Told
        ensures closes { OnStream id result self.old self.new
            (ClosesBeside result self.old self.new id stop_sending.old stop_sending.new reset_stream.old reset_stream.new) }
        ensures unwritten { 2 ^ 62 ≤ id → (stop_sending.new ≡ stop_sending.old) × (reset_stream.new ≡ reset_stream.old) }
    {
        let Ok(id) = StreamId::try_from(id) else {
            return ARGUMENT;
        };
        match self.sessions.close_stream(&mut self.endpoint, id) {
            Ok(frames) => {
                *stop_sending = frames.stop_sending as u32;
                *reset_stream = frames.reset_stream as u32;
                OK
            }
            Err(refusal) => refused(refusal),
        }
    }
}
