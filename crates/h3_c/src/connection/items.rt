//! What is pulled.
ghost use Rattle.std.specs.Prelude.{◌≡◌, ◌≤◌, ◌^◌};
ghost use Rattle.h3_c.specs.Exported.{OnStream, ReadsBytes, ReadsFields};
ghost use Rattle.h3_c.specs.PullsBeside.{PullsBeside};

use super::Connection;
use crate::fields::FieldSize;
use crate::items::{PulledItem, bytes_of, fields_of, show};
use crate::numbers::{ARGUMENT, NONE, OK, Told};
use crate::owned::put;
use crate::rows::fields_at_once;
use h3_incoming::BlockPull;
use h3_outgoing::outgoing::put_front;
use h3_proto::stream::StreamId;
use std::alloc::Global;

impl Connection {
    /// What comes next on a stream: it takes the place of what was pulled before.
    #[inline(always)]
    pub(crate) fn pull(&mut self, alloc: Global, id: u64, item: &mut PulledItem) -> Told
        ensures plain { result.detail ≡ 0 }
        ensures pulls { OnStream id result self.old self.new (PullsBeside id result self.old self.new item.new) }
        ensures unwritten { 2 ^ 62 ≤ id → item.new ≡ item.old }
    {
        let Ok(id) = StreamId::try_from(id) else {
            return ARGUMENT;
        };
        free_if_large(alloc, &mut self.last);
        self.sessions
            .pull_block(&mut self.endpoint, id, &mut self.last);
        show(&self.last, item);
        OK
    }

    /// All fields of the header or trailer section that was pulled last.
    pub(crate) fn item_fields(
        &self,
        sizes: &mut [FieldSize],
        flags: &mut [u8],
        bytes: &mut [u8],
    ) -> Told
        ensures { ReadsFields self.now result sizes.old sizes.new flags.old flags.new bytes.old bytes.new }
    {
        match fields_of(&self.last) {
            Some(fields) => fields_at_once(fields, sizes, flags, bytes),
            None => OK,
        }
    }

    /// The bytes of the item that was pulled last, from `from` on.
    pub(crate) fn item_bytes(&self, from: usize, out: &mut [u8], count: &mut usize) -> Told
        ensures { ReadsBytes self.now from result out.old out.new count.old count.new }
    {
        let bytes = bytes_of(&self.last);
        if bytes.len() <= from {
            return NONE;
        }
        *count = put_front(&bytes[from..], out);
        OK
    }
}

// Memory that a large section took is given back before the next pull: a peer could make a handle keep it until the connection closes.
fn free_if_large(alloc: Global, answer: &mut BlockPull) {
    if answer.block().is_large() {
        put(answer, BlockPull::new(alloc));
    }
}
