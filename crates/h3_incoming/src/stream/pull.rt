//! What a pull of a request stream answers.
ghost use Rattle.std.specs.Prelude.{◌≡◌, true, false, nat_lt, None, is_some};
ghost use Rattle.h3_qpack.specs.DecoderState.{DecoderState};
ghost use Rattle.h3_connection.specs.Coming.{fields_next};
ghost use Rattle.h3_connection.specs.Lists.{list_of, pull_of};
ghost use Rattle.h3_connection.specs.Pulling.{is_memory, pull_stream};
ghost use Rattle.h3_incoming.specs.Answering.{Lists};
ghost use Rattle.h3_incoming.specs.Gives.{Gives};
ghost use Rattle.h3_incoming.specs.HeaderSlots.{MakesHeader};
ghost use Rattle.h3_incoming.specs.Looking.{BeginsSection};
ghost use Rattle.h3_incoming.specs.Placing.{is_session};
ghost use Rattle.h3_incoming.specs.Resuming.{Resumes};

use super::IncomingStream;
use crate::block::BlockPull;
use crate::header_slot::HeaderSlot;
use h3_connection::event::Fault;
use h3_connection::place::Place;
use h3_connection::setup::Announced;
use h3_proto::stream::{Side, StreamId};
use h3_qpack::Decoder;
use std::alloc::Global;

impl IncomingStream {
    /// The next item of the message, or why there is none now. That is the fault for which the stream was given up, its end again, or what
    /// its bytes and the decoder's table say. The answer, the stream after it, and what is appended to the replies to the peer's encoder
    /// rest on this stream, the table and what was announced alone. `Fault::Memory` writes nothing and loses nothing: whatever is delivered
    /// later, the stream's pulls answer the same. The answer takes the place of what `out` was, so that it is moved nowhere. The list of a
    /// header or trailer section is the one that came. If a header is asked for, it is made of that list.
    pub fn pull_into(
        &mut self,
        alloc: Global,
        side: Side,
        announced: &Announced,
        id: StreamId,
        decoder: &Decoder,
        replies: &mut Vec<u8>,
        out: &mut BlockPull,
        header: &mut HeaderSlot,
    )
        ensures answer { is_memory (pull_of out.new) ≡ false
            → Gives (pull_stream side announced.now id decoder.now self.old) (pull_of out.new) self.new replies.old.items replies.new.items }
        ensures memory { is_memory (pull_of out.new) ≡ true → Resumes announced.now self.old self.new
            × (replies.new.items ≡ replies.old.items) }
        ensures list { Lists (list_of out.new) (fields_next announced.now decoder.now self.old) }
        ensures header { MakesHeader header.old header.new (list_of out.new) }
    {
        if self.begin(alloc, side, announced, id, replies, out) {
            self.pull_section(alloc, side, announced, id, decoder, replies, out, header);
        }
        self.spare(announced);
    }

    // Reads up to what comes next, and answers it if it is no field section. Else nothing is answered, and the result is true: the section
    // stands in the stream.
    fn begin(
        &mut self,
        alloc: Global,
        side: Side,
        announced: &Announced,
        id: StreamId,
        replies: &mut Vec<u8>,
        out: &mut BlockPull,
    ) -> bool
        ensures answer { result ≡ false → is_memory (pull_of out.new) ≡ false → (r : DecoderState)
            → Gives (pull_stream side announced.now id r self.old) (pull_of out.new) self.new replies.old.items replies.new.items }
        ensures memory { result ≡ false → is_memory (pull_of out.new) ≡ true → Resumes announced.now self.old self.new
            × (replies.new.items ≡ replies.old.items) }
        ensures none { result ≡ false → list_of out.new ≡ None }
        ensures section { result ≡ true → BeginsSection side announced.now id self.old self.new × (replies.new.items ≡ replies.old.items) }
    {
        if let Some(fault) = self.fault() {
            out.fail(Fault::Stream(fault));
            return false;
        }
        if self.is_over() {
            out.end();
            return false;
        }
        if self.is_in_session() {
            self.pull_raw(alloc, out);
            return false;
        }
        if self.has_section() {
            return true;
        }
        if self.is_in_payload() {
            self.pull_payload(alloc, id, replies, out);
            return false;
        }
        self.begin_frame(alloc, side, announced, id, replies, out)
    }

    // Whether its bytes are those of a session.
    fn is_in_session(&self) -> bool
        ensures { result ≡ is_session self.now.place }
    {
        match self.place {
            Place::InSession => true,
            Place::BeforeHead | Place::InBody | Place::AfterTrailer => false,
        }
    }

    // Whether a field section is next. If none is, the stream waits for nothing.
    fn has_section(&self) -> bool
        ensures value { result ≡ is_some self.now.section }
        ensures none { result ≡ false → self.now.waits_for ≡ 0 }
    {
        self.section.is_some()
    }

    // Whether a payload of DATA is under way.
    fn is_in_payload(&self) -> bool
        ensures { result ≡ nat_lt 0 self.now.body_left }
    {
        self.body_left > 0
    }
}
