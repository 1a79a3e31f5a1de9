//! What C sends, header and trailer sections aside.
ghost use Rattle.std.specs.Prelude.{◌≡◌, ◌<◌, ◌≤◌, ◌^◌, IfErr, IfOk};
ghost use Rattle.h3_connection.specs.SendingContracts.{SendsBody, GoesAway};
ghost use Rattle.h3_c.specs.Exported.{Calls, CallsOn, OnStream, OpensRequest, ShowsNextId};
ghost use Rattle.h3_c.specs.Numbers.{argument, call_told, body_told};
ghost use Rattle.h3_session.specs.Held.{SendsBodyOf};
ghost use Rattle.h3_session.specs.OpeningAt.{OpensRequestAt};
ghost use Rattle.h3_c.specs.Beside.{DoesBeside};
ghost use Rattle.h3_c.specs.Does.CallOfC.{Cancel, Finish, Reset};

use super::Connection;
use crate::numbers::{ARGUMENT, OK, Told, called, or_memory, refused, sent};
use bytes::Bytes;
use h3_coding::varint::VarInt;
use h3_proto::stream::StreamId;
use std::alloc::Global;

impl Connection {
    /// Opens the next request stream, whose id goes to `id`.
    pub(crate) fn open_request(&mut self, id: &mut u64) -> Told
        ensures does { OpensRequest result self.old self.new id.old id.new }
        ensures sessions { self.new.sessions ≡ self.old.sessions }
    {
        match self.endpoint.open_request() {
            Ok(opened) => {
                *id = opened.into_inner();
                OK
            }
            Err(refusal) => refused(refusal),
        }
    }

    /// The id that `open_request` gives next goes to `id`, and nothing is opened.
    #[tactic(auto, using(crate::proofs::NextIds::shows_id, crate::proofs::NextIds::shows_refusal))]
    pub(crate) fn next_request_id(&self, id: &mut u64) -> Told
        ensures { ShowsNextId self.now result id.old id.new }
    {
        match self.endpoint.next_request() {
            Ok(next) => {
                *id = next.into_inner();
                OK
            }
            Err(why) => refused(why),
        }
    }

    /// Opens the request of an id that QUIC gave, and all with lower ids that are not open.
    pub(crate) fn open_request_at(&mut self, id: u64) -> Told
        ensures does { CallsOn call_told id result self.old self.new (λ call. OpensRequestAt self.old.endpoint self.new.endpoint id call) }
        ensures sessions { self.new.sessions ≡ self.old.sessions }
    {
        let Ok(id) = StreamId::try_from(id) else {
            return ARGUMENT;
        };
        called(self.endpoint.open_request_at(id))
    }

    /// A piece of a body goes out on a stream.
    pub(crate) fn send_body(&mut self, alloc: Global, id: u64, body: &[u8]) -> Told
        ensures does { OnStream id result self.old self.new (Calls body_told result self.old self.new
            (λ call. SendsBody self.old.endpoint self.new.endpoint id body.now call)) }
        ensures sessions { self.new.sessions ≡ self.old.sessions }
    {
        let stream = match stream_of(id) {
            Ok(stream) => stream,
            Err(told) => return told,
        };
        let Ok(body) = Bytes::copy_from_slice(alloc, body) else {
            return or_memory(self.endpoint.body_refusal(stream, body.len()));
        };
        sent(&self.endpoint.send_body(stream, body))
    }

    /// A piece of a body of so many bytes goes out on a stream, which C holds.
    pub(crate) fn send_body_of(&mut self, id: u64, len: usize) -> Told
        ensures does { CallsOn call_told id result self.old self.new (λ call. SendsBodyOf self.old.endpoint self.new.endpoint id len call) }
        ensures sessions { self.new.sessions ≡ self.old.sessions }
    {
        let Ok(id) = StreamId::try_from(id) else {
            return ARGUMENT;
        };
        called(self.endpoint.send_body_of(id, len))
    }

    /// The message on a stream is whole.
    pub(crate) fn finish(&mut self, id: u64) -> Told
        ensures { DoesBeside (Finish id result) self.old self.new }
    {
        let Ok(id) = StreamId::try_from(id) else {
            return ARGUMENT;
        };
        called(self.sessions.finish(&mut self.endpoint, id))
    }

    /// Sending on a stream ends here.
    pub(crate) fn reset(&mut self, id: u64) -> Told
        ensures { DoesBeside (Reset id result) self.old self.new }
    {
        let Ok(id) = StreamId::try_from(id) else {
            return ARGUMENT;
        };
        called(self.sessions.reset(&mut self.endpoint, id))
    }

    /// The caller needs nothing more of a stream.
    pub(crate) fn cancel(&mut self, id: u64) -> Told
        ensures { DoesBeside (Cancel id result) self.old self.new }
    {
        let Ok(id) = StreamId::try_from(id) else {
            return ARGUMENT;
        };
        called(self.sessions.cancel(&mut self.endpoint, id))
    }

    /// No request, or no push, is taken from this id on.
    pub(crate) fn goaway(&mut self, id: u64) -> Told
        ensures does { CallsOn call_told id result self.old self.new (λ call. GoesAway self.old.endpoint self.new.endpoint id call) }
        ensures sessions { self.new.sessions ≡ self.old.sessions }
    {
        let Ok(id) = VarInt::from_u64(id) else {
            return ARGUMENT;
        };
        called(self.endpoint.goaway(id))
    }
}

// The stream of this id, if there may be one.
pub(super) fn stream_of(id: u64) -> Result<StreamId, Told>
    ensures ok { IfOk result (λ stream. (stream ≡ id) × (id < 2 ^ 62)) }
    ensures unknown { IfErr result (λ told. (told ≡ argument) × (2 ^ 62 ≤ id)) }
{
    match StreamId::try_from(id) {
        Ok(stream) => Ok(stream),
        Err(_) => Err(ARGUMENT),
    }
}
