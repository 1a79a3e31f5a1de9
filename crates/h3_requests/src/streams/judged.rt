//! What is done on a request stream if it is allowed: the stream is looked up once, judged by what is stored of it, and changed.
ghost use Rattle.std.specs.Prelude.{◌≡◌, ◌++◌, None, length, unwrap_or, OnOk, OnErr, IfOk, IfErr, IfSome};
ghost use Rattle.h3_connection.specs.Answers.{call_refused};
ghost use Rattle.h3_connection.specs.Calls.{Sets, AllSame};
ghost use Rattle.h3_connection.specs.Delivering.{given_up_once, cancellation};
ghost use Rattle.h3_connection.specs.Refusals.{or_later};
ghost use Rattle.h3_connection.specs.State.{kept_at};
ghost use Rattle.h3_connection.specs.declared.event.Refusal.TheVariants.{OutOfMemory};
ghost use Rattle.h3_connection.specs.declared.event.StreamFault.TheVariants.{Canceled};
ghost use Rattle.h3_incoming.specs.Replying.{encodings};
ghost use Rattle.h3_outgoing.specs.Held.{held};
ghost use Rattle.h3_outgoing.specs.Sent.{has_body, has_ended, was_cut_off};
ghost use Rattle.h3_requests.specs.Refused.{head_refused_at, body_refused_at, data_refused_at, early_trailer_at, end_refused_at};
ghost use Rattle.h3_requests.specs.Refused.{reset_refused_at, cancel_refused_at};

use super::RequestStreams;
use crate::room::SectionRoom;
use bytes::{Buf, Bytes};
use h3_connection::event::{Malformation, Refusal};
use h3_proto::stream::StreamId;
use std::alloc::Global;

impl RequestStreams {
    // RFC 9114 4.1: a header section in its place, sent
    /// Room for the frame of a header section, and for the stream's end, so that neither needs memory. Refused are, in this order, a stream
    /// that is not there, one whose final header section or end was sent, what `later` refuses, and a failed allocation.
    pub fn reserve_head(
        &mut self,
        id: StreamId,
        later: Option<Refusal>,
    ) -> Result<SectionRoom, Refusal>
        ensures room { IfOk result (λ room. room ≡ id) }
        ensures taken { OnOk result (or_later (head_refused_at (kept_at self.old id)) later ≡ None) }
        ensures why { IfErr result (λ r. r ≡ unwrap_or (or_later (head_refused_at (kept_at self.old id)) later) OutOfMemory) }
        ensures same { AllSame self.old self.new }
    {
        let Some(stream) = self.streams.get_mut(id) else {
            return Err(self.streams.refusal_of_over(id, Refusal::OutOfOrder));
        };
        if !stream.outgoing.takes_head() {
            return Err(Refusal::OutOfOrder);
        }
        if let Some(refusal) = later {
            return Err(refusal);
        }
        let class = stream.class_if(self.ready.has_classes());
        let Ok(frame) = stream.outgoing.reserve() else {
            return Err(Refusal::OutOfMemory);
        };
        let Ok(()) = self.ready.reserve_both(class, id) else {
            return Err(Refusal::OutOfMemory);
        };
        Ok(SectionRoom::of(class, id, frame, &self.ready))
    }

    // RFC 9114 4.1: a trailer section in its place, sent
    /// Room for the frame of a trailer section, so that sending it needs no memory. It refuses first a stream that is not there, then one
    /// whose final header section was not sent, or whose trailer section or end was. Then comes a trailer section in front of which less
    /// content was sent than the header section said, or that would stand in a tunnel. The last is a failed allocation.
    pub fn reserve_trailer(&mut self, id: StreamId) -> Result<SectionRoom, Refusal>
        ensures room { IfOk result (λ room. room ≡ id) }
        ensures taken { OnOk result (or_later (body_refused_at (kept_at self.old id)) (early_trailer_at (kept_at self.old id)) ≡ None) }
        ensures why { IfErr result
            (λ r. r ≡ unwrap_or (or_later (body_refused_at (kept_at self.old id)) (early_trailer_at (kept_at self.old id))) OutOfMemory) }
        ensures same { AllSame self.old self.new }
    {
        let Some(stream) = self.streams.get_mut(id) else {
            return Err(self.streams.refusal_of_over(id, Refusal::OutOfOrder));
        };
        if !stream.outgoing.takes_body() {
            return Err(Refusal::OutOfOrder);
        }
        if let Some(why) = stream.outgoing.early_trailer() {
            return Err(Refusal::Malformed(why));
        }
        let Ok(frame) = stream.outgoing.reserve() else {
            return Err(Refusal::OutOfMemory);
        };
        let class = stream.class();
        let Ok(()) = self.ready.reserve(class, id) else {
            return Err(Refusal::OutOfMemory);
        };
        Ok(SectionRoom::of(class, id, frame, &self.ready))
    }

    // RFC 9114 4.1: a body in its place, sent
    /// A body goes out as the payload of a DATA frame; an empty one writes nothing. It refuses first a stream that is not there, then one
    /// whose final header section was not sent, or whose trailer section or end was. Next is more content than the header section said, and
    /// last a failed allocation. An `Err` changes nothing, and returns the body.
    pub fn send_data(&mut self, id: StreamId, body: Bytes) -> Result<(), (Refusal, Bytes)>
        ensures ok { OnOk result
            (IfSome (kept_at self.old id) (λ r. Sets self.old self.new id (record r { outgoing = has_body r.outgoing body }))) }
        ensures taken { OnOk result (data_refused_at (kept_at self.old id) (length body) ≡ None) }
        ensures why { IfErr result (λ e. e.0 ≡ unwrap_or (data_refused_at (kept_at self.old id) (length body)) OutOfMemory) }
        ensures err { IfErr result (λ e. (e.1 ≡ body) × AllSame self.old self.new) }
    {
        let Some(stream) = self.streams.get_mut(id) else {
            let refusal = self.streams.refusal_of_over(id, Refusal::OutOfOrder);
            return Err((refusal, body));
        };
        if !stream.outgoing.takes_body() {
            return Err((Refusal::OutOfOrder, body));
        }
        if stream.outgoing.passes_content(body.len()) {
            return Err((Refusal::Malformed(Malformation::ContentLength), body));
        }
        if !body.has_remaining() {
            return Ok(());
        }
        let class = stream.class_if(self.ready.has_classes());
        let Ok(()) = self.ready.reserve(class, id) else {
            return Err((Refusal::OutOfMemory, body));
        };
        if let Err(body) = stream.outgoing.send_body(body) {
            return Err((Refusal::OutOfMemory, body));
        }
        self.ready.settle(class, id, stream.outgoing.waiting() > 0);
        Ok(())
    }

    // RFC 9114 4.1: a body in its place, sent
    /// The same of a body of so many bytes, which the caller holds: its frame is announced, and none of its bytes is given.
    pub fn send_data_of(&mut self, id: StreamId, len: usize) -> Result<(), Refusal>
        ensures ok { OnOk result
            (IfSome (kept_at self.old id) (λ r. Sets self.old self.new id (record r { outgoing = has_body r.outgoing (held len) }))) }
        ensures taken { OnOk result (data_refused_at (kept_at self.old id) len ≡ None) }
        ensures why { IfErr result (λ r. r ≡ unwrap_or (data_refused_at (kept_at self.old id) len) OutOfMemory) }
        ensures err { OnErr result (AllSame self.old self.new) }
    {
        let Some(stream) = self.streams.get_mut(id) else {
            return Err(self.streams.refusal_of_over(id, Refusal::OutOfOrder));
        };
        if !stream.outgoing.takes_body() {
            return Err(Refusal::OutOfOrder);
        }
        if stream.outgoing.passes_content(len) {
            return Err(Refusal::Malformed(Malformation::ContentLength));
        }
        if len == 0 {
            return Ok(());
        }
        let class = stream.class_if(self.ready.has_classes());
        let Ok(()) = self.ready.reserve(class, id) else {
            return Err(Refusal::OutOfMemory);
        };
        let Ok(()) = stream.outgoing.send_body_of(len) else {
            return Err(Refusal::OutOfMemory);
        };
        let waits = stream.outgoing.waiting() > 0;
        self.ready.settle(class, id, waits);
        Ok(())
    }

    // RFC 9114 4.1: the end in its place, sent
    /// The message is whole. It needs no memory. It refuses first a stream that is not there, then one whose final header section was not
    /// sent, or whose sending has ended. The last is one whose header section said more content than was sent. An `Err` changes nothing.
    pub fn finish_stream(&mut self, id: StreamId) -> Result<(), Refusal>
        ensures ok { OnOk result
            (IfSome (kept_at self.old id) (λ r. Sets self.old self.new id (record r { outgoing = has_ended r.outgoing }))) }
        ensures rule { call_refused result ≡ end_refused_at (kept_at self.old id) }
        ensures absent { kept_at self.old id ≡ None → self.new ≡ self.old }
        ensures err { OnErr result (AllSame self.old self.new) }
    {
        let Some(stream) = self.streams.get_mut(id) else {
            return Err(self.streams.refusal_of_over(id, Refusal::OutOfOrder));
        };
        if !stream.outgoing.takes_end() {
            return Err(Refusal::OutOfOrder);
        }
        if !stream.outgoing.content().may_end() {
            return Err(Refusal::Malformed(Malformation::ContentLength));
        }
        let class = stream.class_if(self.ready.has_classes());
        stream.outgoing.finish();
        let ends = stream.outgoing.end_waits();
        let is_over = stream.is_over();
        self.ready.settle_end(class, id, ends);
        self.streams.retire_if(id, is_over);
        Ok(())
    }

    /// Sending ends here: what waits is dropped. It needs no memory. Refused are, in this order, a stream that is not there, and one
    /// of which nothing is left to be sent. An `Err` changes nothing.
    pub fn reset_stream(&mut self, id: StreamId) -> Result<(), Refusal>
        ensures ok { OnOk result
            (IfSome (kept_at self.old id) (λ r. Sets self.old self.new id (record r { outgoing = was_cut_off r.outgoing }))) }
        ensures rule { call_refused result ≡ reset_refused_at (kept_at self.old id) }
        ensures absent { kept_at self.old id ≡ None → self.new ≡ self.old }
        ensures err { OnErr result (AllSame self.old self.new) }
    {
        let Some(stream) = self.streams.get_mut(id) else {
            return Err(self.streams.refusal_of_over(id, Refusal::Ended));
        };
        if stream.outgoing.is_sent_off() {
            return Err(Refusal::Ended);
        }
        let class = stream.class();
        stream.outgoing.reset();
        let is_over = stream.is_over();
        self.ready.leave(class, id);
        self.streams.retire_if(id, is_over);
        Ok(())
    }

    /// The application needs no more of it. It is given up, and the peer's encoder learns that (RFC 9204, section 2.2.2.2). Refused are, in
    /// this order, a stream that is not there, one whose end was returned or that was given up, and a failed allocation. An `Err` changes
    /// nothing.
    pub fn cancel_stream(
        &mut self,
        alloc: Global,
        id: StreamId,
        replies: &mut Vec<u8>,
    ) -> Result<(), Refusal>
        ensures ok { OnOk result
            (IfSome (kept_at self.old id) (λ r. Sets self.old self.new id (record r { incoming = given_up_once r.incoming Canceled }))) }
        ensures replies { OnOk result
            (IfSome (kept_at self.old id) (λ r. replies.new.items ≡ replies.old.items ++ encodings (cancellation id r.incoming.fault))) }
        ensures taken { OnOk result (cancel_refused_at (kept_at self.old id) ≡ None) }
        ensures why { IfErr result (λ r. r ≡ unwrap_or (cancel_refused_at (kept_at self.old id)) OutOfMemory) }
        ensures absent { kept_at self.old id ≡ None → (self.new ≡ self.old) × (replies.new.items ≡ replies.old.items) }
        ensures err { OnErr result (AllSame self.old self.new × (replies.new.items ≡ replies.old.items)) }
    {
        let Some(stream) = self.streams.get_mut(id) else {
            return Err(self.streams.refusal_of_over(id, Refusal::Ended));
        };
        if stream.is_settled() {
            return Err(Refusal::Ended);
        }
        let before = stream.incoming.waits_for();
        let Ok(()) = stream.incoming.cancel(alloc, id, replies) else {
            return Err(Refusal::OutOfMemory);
        };
        self.blocked.replace(before, stream.incoming.waits_for());
        let is_over = stream.is_over();
        self.streams.retire_if(id, is_over);
        Ok(())
    }
}
