//! The ends of streams that are sent.
ghost use Rattle.h3_c.specs.Beside.{DoesBeside};
ghost use Rattle.h3_c.specs.Does.CallOfC.{EndTaken, NextToSend};
ghost use Rattle.h3_c.specs.Numbers.{number};

use super::Connection;
use crate::numbers::{ARGUMENT, NONE, OK, Told};
use h3_proto::stream::StreamId;

impl Connection {
    /// QUIC took the FIN of a stream. What it tells has no detail.
    pub(crate) fn end_taken(&mut self, id: u64) -> Told
        ensures { DoesBeside (EndTaken id (number result.number 0)) self.old self.new }
    {
        let Ok(stream) = StreamId::try_from(id) else {
            return ARGUMENT;
        };
        if self.sessions.end_taken(&mut self.endpoint, stream) {
            OK
        } else {
            NONE
        }
    }

    /// The lowest id from `from` on, of a stream on which bytes or an end wait. What it tells has no detail.
    pub(crate) fn next_to_send(&self, from: u64, id: &mut u64) -> Told
        ensures { DoesBeside (NextToSend from id.old id.new (number result.number 0)) self.now self.now }
    {
        let Some(next) = self.sessions.next_to_send(&self.endpoint, from) else {
            return NONE;
        };
        *id = next;
        OK
    }
}
