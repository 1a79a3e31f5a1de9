//! Streams of WebTransport sessions.
ghost use Rattle.h3_c.specs.Numbers.{number};
ghost use Rattle.h3_c.specs.Sessions.{FindsOfSession, OpensSession, OpensStreamOf, SendsRawOn};

use super::Connection;
use super::ordering::flag_given;
use super::sending::stream_of;
use crate::numbers::{ARGUMENT, NONE, OK, Told, or_memory, sent, unopened};
use bytes::Bytes;
use h3_proto::stream::StreamId;
use h3_proto::webtransport::SessionId;
use std::alloc::Global;

impl Connection {
    /// Opens a stream of a session, whose id goes to `id`.
    pub(crate) fn open_session_stream(&mut self, session: u64, both_ways: u32, id: &mut u64) -> Told
        ensures { OpensSession self.old self.new session both_ways result id.old id.new }
    {
        let Ok(session) = StreamId::try_from(session) else {
            return ARGUMENT;
        };
        let Some(both_ways) = flag_given(both_ways) else {
            return ARGUMENT;
        };
        self.open_stream_of(session, both_ways, id)
    }

    // The same of a session that there may be.
    #[tactic(auto, using(crate::proofs::RawCalls::opens_it, crate::proofs::RawCalls::opens_not))]
    fn open_stream_of(&mut self, session: StreamId, both_ways: bool, id: &mut u64) -> Told
        ensures { OpensStreamOf self.old self.new session both_ways result id.old id.new }
    {
        match self
            .sessions
            .open_session_stream(&mut self.endpoint, session, both_ways)
        {
            Ok(opened) => {
                *id = opened.into_inner();
                OK
            }
            Err(error) => unopened(error),
        }
    }

    /// Sends bytes on a stream of a session, as they are.
    pub(crate) fn send_raw(&mut self, alloc: Global, id: u64, bytes: &[u8]) -> Told
        ensures { SendsRawOn self.old self.new id bytes.now result }
    {
        let stream = match stream_of(id) {
            Ok(stream) => stream,
            Err(told) => return told,
        };
        let Ok(bytes) = Bytes::copy_from_slice(alloc, bytes) else {
            return or_memory(self.sessions.raw_refusal(&self.endpoint, stream));
        };
        sent(&self.sessions.send_raw(&self.endpoint, stream, bytes))
    }

    /// The lowest id from `from` on of a stream of a session. What it tells has no detail.
    pub(crate) fn next_of_session(&self, session: u64, from: u64, id: &mut u64) -> Told
        ensures { FindsOfSession self.now self.now session from (number result.number 0) id.old id.new }
    {
        let Ok(session) = SessionId::try_from(session) else {
            return ARGUMENT;
        };
        let Some(next) = self.sessions.next_of_session(session, from) else {
            return NONE;
        };
        *id = next;
        OK
    }
}
