//! The field section that is next: a pull looks at it, and then passes it.
ghost use Rattle.std.specs.Prelude.{◌≡◌, ℕ, List, [], true, false, None, Some, IfSome, is_some, nat_lt};
ghost use Rattle.h3_qpack.specs.DecoderState.{DecoderState};
ghost use Rattle.h3_qpack.specs.DecodedSection.{Missing, decode_section};
ghost use Rattle.h3_connection.specs.Coming.{fields_in};
ghost use Rattle.h3_connection.specs.declared.event.Fault.TheVariants.{Stream, Connection};
ghost use Rattle.h3_connection.specs.Codes.{decompression_failed};
ghost use Rattle.h3_connection.specs.declared.event.StreamFault.TheVariants.{Malformed};
ghost use Rattle.h3_connection.specs.declared.lists.ListPull.TheVariants as answer;
ghost use Rattle.h3_connection.specs.Incoming.{given_up};
ghost use Rattle.h3_connection.specs.Lists.{list_of, pull_of};
ghost use Rattle.h3_connection.specs.Pulling.{is_memory, malformed, at_section, decoded, past_section, acknowledgment, just};
ghost use Rattle.h3_incoming.specs.Answering.{Lists};
ghost use Rattle.h3_incoming.specs.HeaderSlots.{MakesHeader, ReadsAsHead};
ghost use Rattle.h3_incoming.specs.Judging.{judged_as};
ghost use Rattle.h3_incoming.specs.Looking.{IsLooked};
ghost use Rattle.h3_incoming.specs.Gives.{Gives};

use super::IncomingStream;
use crate::block::BlockPull;
use crate::header_slot::HeaderSlot;
use crate::judge::{Judged, judge_fields, judge_large, names_entries};
use crate::replies::reply;
use crate::section::{Tried, try_section};
use h3_connection::event::{Fault, Malformation, StreamFault};
use h3_connection::setup::Announced;
use h3_proto::error::Code;
use h3_proto::stream::{Side, StreamId};
use h3_qpack::{BlockWithin, Decoder};
use std::alloc::Global;

/// What a look at a field section found.
#[derive(Drop)]
pub(super) enum Looked {
    /// It was decoded and judged; and whether it has to be acknowledged.
    Judged(Judged, bool),
    /// It needs so many insertions, and not all were read.
    Missing(usize),
    /// It cannot be decoded.
    Bad,
    /// An allocation failed.
    OutOfMemory,
}

impl IncomingStream {
    // RFC 9204 2.2.1: missing insertions
    /// The field section that is next: it waits for entries that it is known to need, or is decoded, judged and passed (RFC 9204, section
    /// 2.2.1). If a header is asked for, it is made before anything is passed.
    pub(super) fn pull_section(
        &mut self,
        alloc: Global,
        side: Side,
        announced: &Announced,
        id: StreamId,
        decoder: &Decoder,
        replies: &mut Vec<u8>,
        out: &mut BlockPull,
        header: &mut HeaderSlot,
    )
        requires { is_some self.old.section ≡ true }
        ensures answer { IfSome self.old.section (λ bytes. is_memory (pull_of out.new) ≡ false
            → Gives (at_section side announced.now id decoder.now self.old bytes)
            (pull_of out.new) self.new replies.old.items replies.new.items) }
        ensures memory { is_memory (pull_of out.new) ≡ true → (self.new ≡ self.old) × (replies.new.items ≡ replies.old.items) }
        ensures list { Lists (list_of out.new) (fields_in decoder.now self.old.section) }
        ensures header { MakesHeader header.old header.new (list_of out.new) }
    {
        if decoder.inserted() < self.waits_for {
            out.wait(self.waits_for);
            return;
        }
        let looked = match &self.section {
            Some(section) => self.look(alloc, side, announced, decoder, section.as_slice(), out),
            None => unreachable!(),
        };
        if header.is_asked() {
            let Ok(()) = header.make(alloc, announced.choices.extensions.any_protocol, out) else {
                return out.fail(Fault::Memory);
            };
            return self.pass(alloc, id, looked, replies, out);
        }
        self.pass(alloc, id, looked, replies, out)
    }

    /// Decodes a field section into the answer's block, and judges it as the next one of the stream, which stays as it is. If it is to be
    /// returned, it is the answer.
    #[inline(always)]
    pub(super) fn look(
        &self,
        alloc: Global,
        side: Side,
        announced: &Announced,
        decoder: &Decoder,
        section: &[u8],
        out: &mut BlockPull,
    ) -> Looked
        ensures looked { IsLooked side announced.now decoder.now self.now section.now result (pull_of out.new) }
        ensures item { is_memory (pull_of out.new) ≡ false }
        ensures list { Lists (list_of out.new) (fields_in decoder.now (Some section.now)) }
        ensures reads { IfSome (list_of out.new) (ReadsAsHead announced.now.choices.extensions.any_protocol) }
    {
        let mut block = out.room(alloc);
        let decoded = match try_section(decoder, section, announced.section(), &mut block) {
            Tried::Decoded(decoded) => decoded,
            Tried::Missing(count) => return Looked::Missing(count),
            Tried::Bad => return Looked::Bad,
            Tried::OutOfMemory => return Looked::OutOfMemory,
        };
        let acknowledges = names_entries(&decoded);
        let (place, content, response) = (self.place, self.content, self.response);
        match decoded {
            BlockWithin::Fields(_) => {
                match judge_fields(alloc, side, announced, place, content, response, block, out) {
                    Ok(judged) => Looked::Judged(judged, acknowledges),
                    Err(_) => Looked::OutOfMemory,
                }
            }
            BlockWithin::TooLarge(large) => {
                let judged = judge_large(side, announced, place, content, response, large, out);
                Looked::Judged(judged, acknowledges)
            }
        }
    }

    /// Passes the section that is next, at which a look was taken, and answers what was found. `Fault::Memory` changes nothing.
    #[inline(always)]
    pub(super) fn pass(
        &mut self,
        alloc: Global,
        id: StreamId,
        looked: Looked,
        replies: &mut Vec<u8>,
        out: &mut BlockPull,
    )
        requires there { is_some self.old.section ≡ true }
        requires item { is_memory (pull_of out.old) ≡ false }
        ensures answer { (side : Side) (own : Announced) (r : DecoderState) (bytes : List ℕ)
            → IsLooked side own r self.old bytes looked (pull_of out.old) → is_memory (pull_of out.new) ≡ false
            → Gives (decoded side own id r self.old (decode_section r bytes))
            (pull_of out.new) self.new replies.old.items replies.new.items }
        ensures memory { is_memory (pull_of out.new) ≡ true → (self.new ≡ self.old) × (replies.new.items ≡ replies.old.items) }
        ensures list { Lists (list_of out.new) (list_of out.old) }
    {
        match looked {
            Looked::Judged(judged, acknowledges) => {
                self.pass_judged(alloc, id, acknowledges, judged, replies, out)
            }
            Looked::Missing(count) => self.miss_entries(count, out),
            Looked::Bad => self.fail_section(out),
            Looked::OutOfMemory => out.fail(Fault::Memory),
        }
    }

    // The section was judged. What is said of it is written first, so that a failed allocation changes nothing.
    #[inline(always)]
    fn pass_judged(
        &mut self,
        alloc: Global,
        id: StreamId,
        acknowledges: bool,
        judged: Judged,
        replies: &mut Vec<u8>,
        out: &mut BlockPull,
    )
        requires there { is_some self.old.section ≡ true }
        requires item { is_memory (pull_of out.old) ≡ false }
        ensures answer { (count : ℕ) → acknowledges ≡ nat_lt 0 count → is_memory (pull_of out.new) ≡ false
            → Gives (judged_as id (past_section self.old) (acknowledgment id count) (pull_of out.old) judged)
            (pull_of out.new) self.new replies.old.items replies.new.items }
        ensures memory { is_memory (pull_of out.new) ≡ true → (self.new ≡ self.old) × (replies.new.items ≡ replies.old.items) }
        ensures list { Lists (list_of out.new) (list_of out.old) }
    {
        match judged {
            Judged::HandsOut(place, content, response) => {
                if reply(alloc, id, acknowledges, false, replies).is_err() {
                    out.fail(Fault::Memory);
                    return;
                }
                self.place = place;
                self.content = content;
                self.response = response;
                self.pass_section();
            }
            Judged::Malformed(why, response) => {
                if reply(alloc, id, acknowledges, true, replies).is_err() {
                    out.fail(Fault::Memory);
                    return;
                }
                self.response = response;
                self.pass_section();
                self.fail_message(alloc, why, out)
            }
        }
    }

    /// The message is malformed. What the peer's encoder learns of it is written first, so that a failed allocation changes nothing.
    pub(super) fn refuse_message(
        &mut self,
        alloc: Global,
        id: StreamId,
        why: Malformation,
        replies: &mut Vec<u8>,
        out: &mut BlockPull,
    )
        ensures answer { is_memory (pull_of out.new) ≡ false
            → Gives (malformed id why self.old []) (pull_of out.new) self.new replies.old.items replies.new.items }
        ensures memory { is_memory (pull_of out.new) ≡ true → (self.new ≡ self.old) × (replies.new.items ≡ replies.old.items) }
        ensures none { list_of out.new ≡ None }
    {
        if reply(alloc, id, false, true, replies).is_err() {
            out.fail(Fault::Memory);
            return;
        }
        self.fail_message(alloc, why, out)
    }

    // RFC 9114 4.1.2: a malformed message ends its stream alone
    // The message is malformed: the stream gives no more (RFC 9114, section 4.1.2).
    fn fail_message(&mut self, alloc: Global, why: Malformation, out: &mut BlockPull)
        ensures stream { self.new ≡ given_up self.old (Malformed why) }
        ensures answer { out.new ≡ answer.Fault (Stream (Malformed why)) }
    {
        let fault = StreamFault::Malformed(why);
        self.give_up(alloc, fault);
        out.fail(Fault::Stream(fault));
    }

    // The section needs so many insertions. One that waited already names what is not there.
    fn miss_entries(&mut self, count: usize, out: &mut BlockPull)
        requires { is_some self.old.section ≡ true }
        ensures answer { (side : Side) (own : Announced) (id : ℕ) (r : DecoderState)
            → decoded side own id r self.old (Missing count) ≡ just (pull_of out.new) self.new }
        ensures memory { is_memory (pull_of out.new) ≡ false }
        ensures none { list_of out.new ≡ None }
    {
        if self.waits_for > 0 {
            return self.fail_section(out);
        }
        self.tries = 1;
        self.waits_for = count;
        out.wait(count);
    }

    // RFC 9204 2.2.3: a section that cannot be decoded
    // The section is bad (RFC 9204, section 2.2.3).
    fn fail_section(&mut self, out: &mut BlockPull)
        ensures stream { self.new ≡ past_section self.old }
        ensures answer { out.new ≡ answer.Fault (Connection decompression_failed) }
    {
        self.pass_section();
        out.fail(Fault::Connection(Code::QPACK_DECOMPRESSION_FAILED));
    }

    // A try was made, and no section is next any more.
    fn pass_section(&mut self)
        ensures { self.new ≡ past_section self.old }
    {
        self.tries = if self.waits_for == 0 {
            1
        } else {
            self.tries + 1
        };
        self.waits_for = 0;
        drop(self.section.take());
    }
}
