//! What comes from the peer.
ghost use Rattle.std.specs.Prelude.{◌≡◌, ◌<◌, ◌≤◌, ◌^◌, true, false, IfErr, IfOk};
ghost use Rattle.h3_connection.specs.Shutdown.{is_rejected_in};
ghost use Rattle.h3_c.specs.Numbers.{argument, rejected};
ghost use Rattle.h3_c.specs.Beside.{DoesBeside};
ghost use Rattle.h3_c.specs.Does.CallOfC.{Deliver, DeliverEnd, DeliverReset};

use super::Connection;
use crate::copied::copied;
use crate::numbers::{ARGUMENT, REJECTED, Told, delivered, or_memory};
use h3_proto::stream::StreamId;
use std::alloc::Global;

impl Connection {
    // The stream of this id, or why nothing is delivered on it: the id is invalid, or its request
    // is rejected.
    pub(super) fn receiving(&self, id: u64) -> Result<StreamId, Told>
        ensures ok { IfOk result (λ stream. (stream ≡ id) × (id < 2 ^ 62) × (is_rejected_in self.now.endpoint id ≡ false)) }
        ensures unknown { IfErr result (λ told. 2 ^ 62 ≤ id → told ≡ argument) }
        ensures refused { IfErr result (λ told. id < 2 ^ 62 → (told ≡ rejected) × (is_rejected_in self.now.endpoint id ≡ true)) }
    {
        let Ok(stream) = StreamId::try_from(id) else {
            return Err(ARGUMENT);
        };
        if self.endpoint.is_rejected(stream) {
            return Err(REJECTED);
        }
        Ok(stream)
    }

    /// Bytes came on a stream.
    pub(crate) fn deliver(&mut self, alloc: Global, id: u64, bytes: &[u8]) -> Told
        ensures { DoesBeside (Deliver id bytes.now result) self.old self.new }
    {
        let id = match self.receiving(id) {
            Ok(id) => id,
            Err(told) => return told,
        };
        let Ok(bytes) = copied(alloc, bytes) else {
            return or_memory(self.sessions.bytes_refusal(&self.endpoint, id));
        };
        delivered(&self.sessions.deliver(&mut self.endpoint, id, bytes))
    }

    /// The end of a stream came.
    pub(crate) fn deliver_end(&mut self, id: u64) -> Told
        ensures { DoesBeside (DeliverEnd id result) self.old self.new }
    {
        let id = match self.receiving(id) {
            Ok(id) => id,
            Err(told) => return told,
        };
        delivered(&self.sessions.deliver_end(&mut self.endpoint, id))
    }

    /// The sender reset a stream.
    pub(crate) fn deliver_reset(&mut self, id: u64, code: u64) -> Told
        ensures { DoesBeside (DeliverReset id code result) self.old self.new }
    {
        let id = match self.receiving(id) {
            Ok(id) => id,
            Err(told) => return told,
        };
        delivered(&self.sessions.deliver_reset(&mut self.endpoint, id, code))
    }
}
