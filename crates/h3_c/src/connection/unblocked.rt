//! The next stream that waited for insertions, which came.
ghost use Rattle.h3_c.specs.Unblocked.{UnblocksNext};

use super::Connection;
use crate::numbers::{NONE, OK, Told};

impl Connection {
    /// The lowest id from `from` on of a stream that is unblocked.
    pub(crate) fn next_unblocked(&self, from: u64, id: &mut u64) -> Told
        ensures { UnblocksNext self.now from result id.old id.new }
    {
        let Some(next) = self.endpoint.next_unblocked(from) else {
            return NONE;
        };
        *id = next;
        OK
    }
}
