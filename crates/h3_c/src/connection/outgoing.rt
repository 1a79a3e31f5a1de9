//! What waits to be sent.
ghost use Rattle.std.specs.Prelude.{◌≡◌, ◌≤◌, ◌^◌};
ghost use Rattle.h3_c.specs.Beside.{CopiesBeside, TakesBeside};
ghost use Rattle.h3_c.specs.Exported.{OnStream};
ghost use Rattle.h3_c.specs.Numbers.{number};

use super::Connection;
use crate::numbers::{ARGUMENT, OK, Told};
use h3_proto::stream::StreamId;

impl Connection {
    /// Copies the first bytes that wait on a stream, up to a payload that C holds and as many as fit, and tells how many of that follow.
    pub(crate) fn outgoing(
        &self,
        id: u64,
        out: &mut [u8],
        count: &mut usize,
        past: &mut usize,
        fin: &mut u32,
    ) -> Told
        ensures copies { OnStream id (number result.number 0) self.now self.now
            (CopiesBeside self.now id (number result.number 0) out.old out.new count.new past.new fin.new) }
        ensures unwritten { 2 ^ 62 ≤ id → (out.new ≡ out.old) × (count.new ≡ count.old) × (past.new ≡ past.old) × (fin.new ≡ fin.old) }
    {
        let Ok(id) = StreamId::try_from(id) else {
            return ARGUMENT;
        };
        let (copied, follow, is_last) = self.sessions.copy_with_end(&self.endpoint, id, out);
        *count = copied;
        *past = follow;
        *fin = is_last as u32;
        OK
    }

    /// Takes the first bytes away that wait on a stream. What it tells has no detail.
    #[tactic(auto, using(crate::proofs::Taking::too_many, crate::proofs::Taking::takes))]
    pub(crate) fn advance(&mut self, id: u64, count: usize) -> Told
        ensures { OnStream id (number result.number 0) self.old self.new (TakesBeside self.old self.new id count (number result.number 0)) }
    {
        let Ok(stream) = StreamId::try_from(id) else {
            return ARGUMENT;
        };
        if count > self.sessions.waiting(&self.endpoint, stream) {
            return ARGUMENT;
        }
        self.sessions.advance(&mut self.endpoint, stream, count);
        OK
    }
}
