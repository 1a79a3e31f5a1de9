//! How many request streams wait for insertions, and what a pull answers.
ghost use Rattle.std.specs.Prelude.{◌≡◌, ℕ, List, true, false, None, Some, count_by, nat_lt, is_some, IfNone, IfSome};
ghost use Rattle.h3_field.specs.Instruction.{DecoderInstruction};
ghost use Rattle.h3_qpack.specs.DecoderState.{DecoderState};
ghost use Rattle.h3_blocked.specs.Counting.{above, HasCount, IsSound, Replaces};
ghost use Rattle.h3_connection.specs.Incoming.{Incoming};
ghost use Rattle.h3_connection.specs.Keeping.{is_settled_request};
ghost use Rattle.h3_connection.specs.Lists.{list_of, pull_of};
ghost use Rattle.h3_connection.specs.NextWaiting.{IsLeast};
ghost use Rattle.h3_connection.specs.Pulling.{is_memory, just, pull_stream};
ghost use Rattle.h3_connection.specs.Sending.{if_too_many};
ghost use Rattle.h3_connection.specs.State.{kept_at};
ghost use Rattle.h3_connection.specs.StreamSets.{Streams};
ghost use Rattle.h3_incoming.specs.Answering.{Lists};
ghost use Rattle.h3_incoming.specs.HeaderSlots.{MakesHeader};
ghost use Rattle.h3_requests.specs.Coming.{fields_at};
ghost use Rattle.h3_requests.specs.Limited.{AnswersOver, AreReceivers, PullsWithin, ResumesThere, unopened_answer};
ghost use Rattle.h3_requests.specs.Over.{IsOver};
ghost use Rattle.h3_requests.specs.Stored.{over_at};
ghost use Rattle.h3_requests.specs.Unblocked.{is_unblocked};

use super::RequestStreams;
use crate::map::StreamMap;
use crate::stream::RequestStream;
use h3_blocked::Blocked;
use h3_connection::event::Fault;
use h3_connection::setup::Announced;
use h3_incoming::{BlockPull, HeaderSlot, IncomingStream};
use h3_proto::error::Code;
use h3_proto::stream::{Side, StreamId};
use h3_qpack::Decoder;
use std::alloc::Global;

impl RequestStreams {
    /// How many streams wait for more insertions than these (RFC 9204, section 2.1.2). No stream is looked at for it.
    pub fn waiting(&self, inserted: usize) -> usize
        ensures { (receivers : Streams Incoming) → AreReceivers receivers self.now
            → result ≡ count_by (λ s. nat_lt inserted s.1.waits_for) receivers }
    {
        self.blocked.above(inserted)
    }

    /// The least id from this one on of a stream that so many insertions unblock: a pull of it answered that it waits, and for no more than
    /// these (RFC 9204, section 2.1.2). It looks at those under way, and at none if all that wait do so for more.
    #[tactic(auto, using(crate::proofs::Unblocked::none_unblocked))]
    pub fn next_unblocked(&self, inserted: usize, from: u64) -> Option<u64>
        ensures { IsLeast (λ id. is_unblocked inserted (kept_at self.now id)) from result }
    {
        if self.blocked.above(inserted) == self.blocked.above(0) {
            return None;
        }
        self.streams.next_unblocked(inserted, from)
    }

    /// The next item of a stream's message, or why there is none now. More streams than were announced that would wait are a fault of the
    /// connection, and this stream waits no more then (RFC 9204, section 2.1.2). Room for what it may come to wait for is asked for first,
    /// but not if the stream was given up or its end was returned. `Fault::Memory` writes nothing and loses nothing: whatever is delivered
    /// later, the stream's pulls answer the same. Nothing happens if the stream is not there: a server's peer may still open it
    /// (`Pending`), a client's does not (`NoMessages`). The answer takes the place of what `out` was. The list of a header or trailer
    /// section is the one that came. If a header is asked for, it is made of that list.
    pub fn pull_into(
        &mut self,
        alloc: Global,
        side: Side,
        announced: &Announced,
        id: StreamId,
        decoder: &Decoder,
        replies: &mut Vec<u8>,
        out: &mut BlockPull,
        header: &mut HeaderSlot,
    )
        ensures absent { kept_at self.old id ≡ None → (pull_of out.new ≡ unopened_answer side) × (self.new ≡ self.old)
            × (replies.new.items ≡ replies.old.items) }
        ensures there { is_some (kept_at self.new id) ≡ is_some (kept_at self.old id) }
        ensures answer { is_memory (pull_of out.new) ≡ false → IfSome (kept_at self.old id) (λ before. IfSome (kept_at self.new id) (λ after.
            PullsWithin side announced.now id decoder.now self.old self.new before after
            (pull_of out.new) replies.old.items replies.new.items)) }
        ensures memory { is_memory (pull_of out.new) ≡ true → IfSome (kept_at self.old id) (λ before. IfSome (kept_at self.new id) (λ after.
            ResumesThere announced.now self.old self.new id before after)) × (replies.new.items ≡ replies.old.items) }
        ensures settled { IfSome (kept_at self.old id)
            (λ before. is_settled_request (Some before.incoming) ≡ true → is_memory (pull_of out.new) ≡ false) }
        ensures list { Lists (list_of out.new) (fields_at announced.now decoder.now (kept_at self.old id)) }
        ensures header { MakesHeader header.old header.new (list_of out.new) }
    {
        let limit = announced.limits.blocked;
        let inserted = decoder.inserted();
        self.blocked.pass(inserted);
        let Some(stream) = self.streams.get_mut(id) else {
            let are_too_many = self.blocked.above(inserted) as u64 > limit;
            return answer_at(&self.streams, id, side, are_too_many, out);
        };
        if answer_settled(&stream.incoming, out) {
            return within_limit(
                &mut stream.incoming,
                &mut self.blocked,
                limit,
                inserted,
                out,
            );
        }
        let Ok(()) = self.blocked.make_room() else {
            out.fail(Fault::Memory);
            return;
        };
        let before = stream.incoming.waits_for();
        stream
            .incoming
            .pull_into(alloc, side, announced, id, decoder, replies, out, header);
        if is_memory(out) {
            return;
        }
        self.blocked.replace(before, stream.incoming.waits_for());
        within_limit(
            &mut stream.incoming,
            &mut self.blocked,
            limit,
            inserted,
            out,
        );
        let is_over = stream.is_over();
        self.streams.retire_if(id, is_over);
    }
}

/// Answers for the stream of this id, which is not under way.
// (a function of its own: a pull of a stream that is under way has no room for one that is over)
#[inline(never)]
fn answer_at(streams: &StreamMap, id: StreamId, side: Side, are_too_many: bool, out: &mut BlockPull)
    ensures absent { IfNone (over_at streams.now id) (pull_of out.new ≡ unopened_answer side) }
    ensures there { IfSome (over_at streams.now id) (λ r. AnswersOver r.incoming are_too_many (pull_of out.new)) }
    ensures memory { is_memory (pull_of out.new) ≡ false }
    ensures none { list_of out.new ≡ None }
{
    answer_over(streams.get_over(id), side, are_too_many, out)
}

/// Answers for a stream that is not under way: for one that is over, or for none.
fn answer_over(stream: Option<RequestStream>, side: Side, are_too_many: bool, out: &mut BlockPull)
    requires { IfSome stream IsOver }
    ensures absent { IfNone stream (pull_of out.new ≡ unopened_answer side) }
    ensures there { IfSome stream (λ r. AnswersOver r.incoming are_too_many (pull_of out.new)) }
    ensures memory { is_memory (pull_of out.new) ≡ false }
    ensures none { list_of out.new ≡ None }
{
    match stream {
        Some(stream) => answer_for(&stream, are_too_many, out),
        None => unopened(side, out),
    }
}

// RFC 9204 2.1.2: limit of blocked streams, at the decoder
/// Answers for a stream that is over.
fn answer_for(stream: &RequestStream, are_too_many: bool, out: &mut BlockPull)
    requires { IsOver stream.now }
    ensures there { AnswersOver stream.now.incoming are_too_many (pull_of out.new) }
    ensures memory { is_memory (pull_of out.new) ≡ false }
    ensures none { list_of out.new ≡ None }
{
    answer_settled(&stream.incoming, out);
    if are_too_many {
        out.fail(Fault::Connection(Code::QPACK_DECOMPRESSION_FAILED));
    }
}

/// What a stream gives that is not there: a server's peer may still open it.
fn unopened(side: Side, out: &mut BlockPull)
    ensures is { pull_of out.new ≡ unopened_answer side }
    ensures none { list_of out.new ≡ None }
{
    match side {
        Side::Client => out.no_messages(),
        Side::Server => out.pause(),
    }
}

/// Answers for a stream that was given up, or whose end was returned, and says whether it is one.
fn answer_settled(stream: &IncomingStream, out: &mut BlockPull) -> bool
    ensures settled { result ≡ true → (is_memory (pull_of out.new) ≡ false)
        × ((side : Side) (own : Announced) (id : ℕ) (r : DecoderState)
        → pull_stream side own id r stream.now ≡ just (pull_of out.new) stream.now) }
    ensures open { result ≡ false → is_settled_request (Some stream.now) ≡ false }
    ensures none { result ≡ true → list_of out.new ≡ None }
{
    if let Some(fault) = stream.fault() {
        out.fail(Fault::Stream(fault));
        return true;
    }
    if stream.is_over() {
        out.end();
        return true;
    }
    false
}

/// Whether an allocation failed.
fn is_memory(answer: &BlockPull) -> bool
    ensures { result ≡ is_memory (pull_of answer.now) }
{
    matches!(answer.fault(), Some(Fault::Memory))
}

// RFC 9204 2.1.2: limit of blocked streams, at the decoder
/// The answer, unless more streams than this limit wait: then the connection has a fault, and the stream waits no more.
fn within_limit(
    stream: &mut IncomingStream,
    counts: &mut Blocked,
    limit: u64,
    inserted: usize,
    out: &mut BlockPull,
)
    requires sound { IsSound counts.old }
    requires among { HasCount counts.old stream.old.waits_for }
    ensures limited { (replies : List DecoderInstruction)
        → if_too_many (nat_lt limit (above inserted counts.old))
        (record { answer = pull_of out.old; incoming = stream.old; replies = replies })
        ≡ record { answer = pull_of out.new; incoming = stream.new; replies = replies } }
    ensures memory { is_memory (pull_of out.old) ≡ false → is_memory (pull_of out.new) ≡ false }
    ensures list { Lists (list_of out.new) (list_of out.old) }
    ensures replaced { Replaces counts.old counts.new stream.old.waits_for stream.new.waits_for }
    ensures sound { IsSound counts.new }
{
    if counts.above(inserted) as u64 <= limit {
        return;
    }
    counts.replace(stream.waits_for(), 0);
    stream.stop_waiting();
    out.fail(Fault::Connection(Code::QPACK_DECOMPRESSION_FAILED));
}
