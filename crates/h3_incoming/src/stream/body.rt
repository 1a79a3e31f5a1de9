//! The payload of DATA that is under way, and the bytes of a session.
ghost use Rattle.std.specs.Prelude.{◌≡◌, ◌<◌, true, false, [], None};
ghost use Rattle.h3_connection.specs.Lists.{list_of, pull_of};
ghost use Rattle.h3_connection.specs.declared.lists.ListItem.TheVariants.{End};
ghost use Rattle.h3_connection.specs.declared.lists.ListPull.TheVariants as answer;
ghost use Rattle.h3_connection.specs.Pulling.{just, in_payload, at_payload, raw, is_memory};
ghost use Rattle.h3_messages.specs.Content.{is_exceeded};
ghost use Rattle.h3_incoming.specs.Gives.{Gives};
ghost use Rattle.h3_incoming.specs.Placing.{is_session};

use super::IncomingStream;
use crate::answer::Plain;
use crate::block::BlockPull;
use h3_connection::event::{Fault, Malformation};
use h3_frames::frame::FrameBuffer;
use h3_proto::error::Code;
use h3_proto::stream::StreamId;
use std::alloc::Global;
use std::mem;

impl IncomingStream {
    /// The next bytes of the payload under way. Of one that is longer than the content may be, nothing is returned: the message is
    /// malformed (RFC 9114, section 4.1.2).
    pub(super) fn pull_payload(
        &mut self,
        alloc: Global,
        id: StreamId,
        replies: &mut Vec<u8>,
        out: &mut BlockPull,
    )
        requires open { 0 < self.old.body_left }
        requires goes_on { self.old.is_over ≡ false }
        ensures answer { is_memory (pull_of out.new) ≡ false
            → Gives (at_payload id self.old) (pull_of out.new) self.new replies.old.items replies.new.items }
        ensures memory { is_memory (pull_of out.new) ≡ true → (self.new ≡ self.old) × (replies.new.items ≡ replies.old.items) }
        ensures none { list_of out.new ≡ None }
    {
        if self.has_too_much() {
            return self.refuse_message(alloc, id, Malformation::ContentLength, replies, out);
        }
        self.pull_bytes(out)
    }

    // Whether the payload under way is longer than the content may be.
    fn has_too_much(&self) -> bool
        ensures { result ≡ is_exceeded self.now.content }
    {
        self.content.is_exceeded()
    }

    // The next bytes of a payload that is not. One that the end cuts short is a fault of the connection (RFC 9114, section 7.1).
    fn pull_bytes(&mut self, out: &mut BlockPull)
        requires open { 0 < self.old.body_left }
        requires goes_on { self.old.is_over ≡ false }
        ensures answer { is_memory (pull_of out.new) ≡ false → in_payload self.old ≡ just (pull_of out.new) self.new }
        ensures memory { is_memory (pull_of out.new) ≡ true → self.new ≡ self.old }
        ensures none { list_of out.new ≡ None }
    {
        if self.ended && self.unread.len() < self.body_left {
            out.fail(Fault::Connection(Code::H3_FRAME_ERROR));
            return;
        }
        match self.unread.take_chunk(self.body_left) {
            Err(_) => out.fail(Fault::Memory),
            Ok(None) => out.pause(),
            Ok(Some(bytes)) => {
                self.body_left = self.body_left.saturating_sub(bytes.len());
                out.give(Plain::Body(bytes));
            }
        }
    }

    /// The next bytes of a session. At its end no buffer is kept.
    pub(super) fn pull_raw(&mut self, alloc: Global, out: &mut BlockPull)
        requires open { self.old.fault ≡ None }
        requires session { is_session self.old.place ≡ true }
        requires goes_on { self.old.is_over ≡ false }
        ensures answer { raw self.old ≡ just (pull_of out.new) self.new }
        ensures memory { is_memory (pull_of out.new) ≡ false }
        ensures none { list_of out.new ≡ None }
    {
        match self.unread.take_first_chunk() {
            Some(bytes) => out.give(Plain::Raw(bytes)),
            None if !self.ended => out.pause(),
            None => self.finish(alloc, out),
        }
    }

    /// The end is returned, and no buffer is kept.
    pub(super) fn finish(&mut self, alloc: Global, out: &mut BlockPull)
        ensures stream { self.new ≡ record self.old { unread = []; is_over = true } }
        ensures answer { out.new ≡ answer.Item End }
    {
        if !self.unread.is_bare() {
            drop(mem::replace(&mut self.unread, FrameBuffer::new(alloc)));
        }
        self.is_over = true;
        out.end();
    }
}
