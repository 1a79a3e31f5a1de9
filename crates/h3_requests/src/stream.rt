//! A request stream, both ways.
ghost use Rattle.std.specs.Prelude.{◌≡◌, ◌||◌, ◌+◌, ◌<◌, ◌≤◌, ◌^◌, true, false, length, is_some, Some, IfErr, IfSome, OnErr, OnOk};
ghost use Rattle.std.specs.List.{concat};
ghost use Rattle.h3_connection.specs.Calls.{fresh_request};
ghost use Rattle.h3_connection.specs.Delivering.{kept};
ghost use Rattle.h3_connection.specs.declared.event.StreamFault.TheVariants.{Reset};
ghost use Rattle.h3_requests.specs.Classes.{class_at};
ghost use Rattle.h3_requests.specs.Done.{is_done, is_sought};
ghost use Rattle.h3_requests.specs.Unblocked.{is_unblocked};
ghost use Rattle.h3_requests.specs.Over.{reset_with, with_end_taken, IsOver, ReceivesAlike, SendsAlike};

use crate::class::{PLAIN, class_of};
use bytes::Bytes;
use h3_connection::arrival::MOST_HELD;
use h3_connection::event::StreamFault;
use h3_connection::order::Precedence;
use h3_connection::setup::Announced;
use h3_incoming::IncomingStream;
use h3_outgoing::OutgoingStream;
use std::alloc::Global;
use std::marker::Model;

/// A request stream: what came on it, and what is sent on it. A contract sees it as the definitions' `RequestState`.
pub struct RequestStream {
    pub(crate) incoming: IncomingStream,
    pub(crate) outgoing: OutgoingStream,
}

/// In the body of its caller, so that neither part is copied for it.
impl Drop for RequestStream {
    #[inline(always)]
    fn drop(self) {
        let RequestStream { incoming, outgoing } = self;
        drop(incoming);
        drop(outgoing);
    }
}

impl Model for RequestStream {
    ghost use Rattle.h3_connection.specs.State.{RequestState};

    ghost Value = { RequestState };

    ghost view = { λ s. record { incoming = s.incoming; outgoing = s.outgoing } };
}

impl RequestStream {
    // A stream on which nothing has happened. It takes no memory.
    pub(crate) fn new(alloc: Global) -> RequestStream
        ensures { result ≡ fresh_request }
    {
        RequestStream {
            incoming: IncomingStream::new(alloc),
            outgoing: OutgoingStream::new(alloc),
        }
    }

    // It is dropped, and one on which nothing has happened takes its place. It takes no memory.
    #[inline(never)]
    pub(crate) fn renew(&mut self, alloc: Global)
        ensures { self.new ≡ fresh_request }
    {
        self.incoming = IncomingStream::new(alloc);
        self.outgoing.renew();
    }

    /// What came on it.
    pub fn incoming(&self) -> &IncomingStream
        ensures { result.now ≡ self.now.incoming }
    {
        &self.incoming
    }

    /// What is sent on it.
    pub fn outgoing(&self) -> &OutgoingStream
        ensures { result.now ≡ self.now.outgoing }
    {
        &self.outgoing
    }

    // The class of what goes before what in which it stands.
    #[inline(always)]
    pub(crate) fn class(&self) -> u64
        ensures value { result ≡ class_at (Some self.now) }
        ensures few { result ≤ 16 }
    {
        class_of(&self.outgoing.precedence())
    }

    // The same if streams may have classes of their own. Until one has, all are in one, and nothing is worked out.
    #[inline(always)]
    pub(crate) fn class_if(&self, has_classes: bool) -> u64
        requires { has_classes ≡ false → class_at (Some self.now) ≡ 6 }
        ensures value { result ≡ class_at (Some self.now) }
        ensures few { result ≤ 16 }
    {
        if !has_classes {
            return PLAIN;
        }
        self.class()
    }

    // Whether its end or its reset came: nothing more comes then.
    pub(crate) fn has_ended(&self) -> bool
        ensures { result ≡ (self.now.incoming.ended || self.now.incoming.was_reset) }
    {
        self.incoming.ended() || self.incoming.was_reset()
    }

    // Whether nothing more is returned of it: its end was, or it was given up.
    pub(crate) fn is_settled(&self) -> bool
        ensures { result ≡ (self.now.incoming.is_over || is_some self.now.incoming.fault) }
    {
        self.incoming.is_over() || self.incoming.fault().is_some()
    }

    // Whether no call changes it any more: nothing more comes on it or is returned of it, and nothing is left to be read or sent.
    pub(crate) fn is_over(&self) -> bool
        ensures { result ≡ true → IsOver self.now }
    {
        self.has_ended()
            && self.is_settled()
            && self.incoming.is_drained()
            && self.outgoing.is_sent_off()
            && self.outgoing.is_empty()
    }

    // The same of one on which so many bytes wait. (Mostly some do: so that is asked first.)
    #[inline(always)]
    pub(crate) fn is_over_with(&self, waiting: usize) -> bool
        ensures { result ≡ true → IsOver self.now }
    {
        waiting == 0 && self.is_over()
    }

    // Whether its end was returned or it was given up, and sending has ended.
    fn is_done(&self) -> bool
        ensures { result ≡ is_done self.now }
    {
        self.is_settled() && self.outgoing.is_sent_off()
    }

    // Whether so many insertions unblock it: a pull answered that it waits, and for no more than these.
    pub(crate) fn is_unblocked(&self, inserted: usize) -> bool
        ensures { result ≡ is_unblocked inserted (Some self.now) }
    {
        let required = self.incoming.waits_for();
        required > 0 && required <= inserted
    }

    // Whether it counts: all streams do, or, if `undone`, those alone that are not done.
    pub(crate) fn is_sought(&self, undone: bool) -> bool
        ensures { result ≡ is_sought undone (Some self.now) }
    {
        !(undone && self.is_done())
    }

    // Whether one that is over is over in the same way as another.
    #[tactic(auto, using(crate::proofs::Ways::over_alike))]
    pub(crate) fn is_over_like(&self, other: &RequestStream) -> bool
        requires over { IsOver self.now }
        requires other { IsOver other.now }
        ensures { result ≡ true → self.now ≡ other.now }
    {
        receives_alike(&self.incoming, &other.incoming)
            && sends_alike(&self.outgoing, &other.outgoing)
    }

    // One like this, which is over. It takes no memory.
    pub(crate) fn like(&self, alloc: Global) -> RequestStream
        requires { IsOver self.now }
        ensures { result ≡ self.now }
    {
        RequestStream {
            incoming: self.incoming.like(alloc),
            outgoing: self.outgoing.like(alloc),
        }
    }

    // The same with its end taken.
    pub(crate) fn with_end_taken(&self, alloc: Global) -> RequestStream
        requires { IsOver self.now }
        ensures { result ≡ with_end_taken self.now }
    {
        RequestStream {
            incoming: self.incoming.like(alloc),
            outgoing: self.outgoing.like_taken(alloc),
        }
    }

    // The same, but reset by its sender with this code. It takes no memory.
    pub(crate) fn like_reset(&self, alloc: Global, code: u64) -> RequestStream
        requires { IsOver self.now }
        ensures { result ≡ reset_with self.now code }
    {
        RequestStream {
            incoming: self.incoming.like_reset(alloc, code),
            outgoing: self.outgoing.like(alloc),
        }
    }

    // The code with which its sender reset it, if that is why it was given up.
    pub(crate) fn code_of_reset(&self) -> Option<u64>
        ensures { IfSome result (λ code. self.now.incoming.fault ≡ Some (Reset code)) }
    {
        match self.incoming.fault() {
            Some(StreamFault::Reset(code)) => Some(code),
            _ => None,
        }
    }

    // Whether so many bytes more have room: no queue of 2^62 bytes fits into memory, and what is refused is 2^61 bytes or more.
    fn has_room_for(&self, len: usize) -> bool
        ensures room { result ≡ true → length (concat self.now.incoming.unread) + len < 2 ^ 64 }
        ensures none { result ≡ false → 2 ^ 61 ≤ length (concat self.now.incoming.unread) + len }
    {
        self.incoming.unread() < MOST_HELD && len < MOST_HELD
    }

    // More bytes came. More than memory can hold is refused as out of memory. An `Err` changes nothing, and returns the bytes.
    #[inline(always)]
    pub(crate) fn deliver(&mut self, announced: &Announced, bytes: Bytes) -> Result<(), Bytes>
        ensures ok { OnOk result (self.new ≡ record self.old { incoming = kept self.old.incoming bytes }) }
        ensures back { IfErr result (λ b. b ≡ bytes) }
        ensures same { OnErr result (self.new ≡ self.old) }
        ensures waits { self.new.incoming.waits_for ≡ self.old.incoming.waits_for }
    {
        if !self.has_room_for(bytes.len()) {
            return Err(bytes);
        }
        self.incoming.deliver(announced, bytes)
    }
}

// Whether the messages of both came as far, and ended alike.
fn receives_alike(stream: &IncomingStream, other: &IncomingStream) -> bool
    ensures { result ≡ true → ReceivesAlike stream.now other.now }
{
    stream.place() == other.place()
        && stream.content() == other.content()
        && stream.response() == other.response()
        && stream.tries() == other.tries()
        && stream.ended() == other.ended()
        && stream.was_reset() == other.was_reset()
        && stream.is_over() == other.is_over()
        && stream.fault() == other.fault()
}

// Whether the messages of both were sent as far, and ended alike.
fn sends_alike(stream: &OutgoingStream, other: &OutgoingStream) -> bool
    ensures { result ≡ true → SendsAlike stream.now other.now }
{
    stream.content() == other.content()
        && stream.place() == other.place()
        && stream.is_finished() == other.is_finished()
        && stream.is_reset() == other.is_reset()
        && stream.end_taken() == other.end_taken()
        && precede_alike(&stream.precedence(), &other.precedence())
}

// Whether both go before the same.
fn precede_alike(one: &Precedence, other: &Precedence) -> bool
    ensures { result ≡ true → one.now ≡ other.now }
{
    one.priority.urgency() == other.priority.urgency()
        && one.priority.is_incremental() == other.priority.is_incremental()
        && one.source == other.source
        && one.is_held == other.is_held
}
