//! What goes before what of the request streams (RFC 9218, section 10).
ghost use Rattle.std.specs.Prelude.{◌≡◌, ◌≤◌, true, is_some, None, Some, option_map, IfErr, IfSome, IsSome, OnErr, OnOk};
ghost use Rattle.h3_connection.specs.Calls.{AllSame, Sets};
ghost use Rattle.h3_connection.specs.State.{kept_at};
ghost use Rattle.h3_connection.specs.declared.event.Refusal.TheVariants.{NotOpen, OutOfMemory};
ghost use Rattle.h3_outgoing.specs.Sent.{preceding};
ghost use Rattle.h3_scheduler.specs.Places.{IsNext};
ghost use Rattle.h3_requests.specs.Classes.{class_at};
ghost use Rattle.h3_requests.specs.Ordered.{is_sent, places_in, precedence_at, refused_unless, saying};

use super::RequestStreams;
use crate::class::{PLAIN, class_of};
use crate::ready::Waits;
use h3_connection::event::Refusal;
use h3_connection::order::{Precedence, PrioritySource};
use h3_outgoing::OutgoingStream;
use h3_priority::priority::Priority;
use h3_proto::stream::StreamId;
use h3_scheduler::round::Rounds;
use std::alloc::Global;

impl RequestStreams {
    /// The priority of a stream, and whether it is held; `None` if it is not there.
    pub fn precedence(&self, id: StreamId) -> Option<Precedence>
        ensures { result ≡ precedence_at (kept_at self.now id) }
    {
        match self.streams.get_alike(id) {
            Some(stream) => Some(stream.outgoing.precedence()),
            None => None,
        }
    }

    /// Whether sending on a stream has ended, and its end was taken; `None` if it is not there.
    pub fn is_sent(&self, id: StreamId) -> Option<bool>
        ensures { result ≡ option_map (λ r. is_sent r.outgoing) (kept_at self.now id) }
    {
        match self.streams.get_alike(id) {
            Some(stream) => Some(is_sent(stream.outgoing())),
            None => None,
        }
    }

    // The class in which a stream stands; that of all if none is of a class of its own.
    pub(super) fn class(&self, id: StreamId) -> u64
        ensures value { result ≡ class_at (kept_at self.now id) }
        ensures few { result ≤ 16 }
    {
        if !self.ready.has_classes() {
            return PLAIN;
        }
        match self.precedence(id) {
            Some(precedence) => class_of(&precedence),
            None => PLAIN,
        }
    }

    /// Somebody says the priority of a stream: it counts from now on unless something was said that counts before it. Refused are, in this
    /// order, a stream that is not there, and a failed allocation. An `Err` changes nothing.
    pub fn say_priority(
        &mut self,
        alloc: Global,
        id: StreamId,
        source: PrioritySource,
        priority: Priority,
    ) -> Result<(), Refusal>
        ensures ok { OnOk result (IfSome (kept_at self.old id) (λ r.
            Sets self.old self.new id (record r { outgoing = preceding (saying r.outgoing.precedence source priority) r.outgoing }))) }
        ensures taken { OnOk result (IsSome (kept_at self.old id)) }
        ensures why { IfErr result (λ r. r ≡ refused_unless (is_some (kept_at self.old id))) }
        ensures err { OnErr result (AllSame self.old self.new) }
    {
        let Some(there) = self.precedence(id) else {
            return Err(Refusal::NotOpen);
        };
        if !there.source.gives_way(source) {
            return Ok(());
        }
        let said = Precedence {
            priority,
            source,
            ..there
        };
        self.change_precedence(alloc, id, &said)
    }

    /// A stream is skipped from now on, or not any longer. Refused are, in this order, a stream that is not there, and a failed allocation.
    /// An `Err` changes nothing.
    pub fn hold(&mut self, alloc: Global, id: StreamId, is_held: bool) -> Result<(), Refusal>
        ensures ok { OnOk result (IfSome (kept_at self.old id) (λ r.
            Sets self.old self.new id (record r {
              outgoing = preceding
                  (record r.outgoing.precedence { is_held = is_held }) r.outgoing;
            }))) }
        ensures taken { OnOk result (IsSome (kept_at self.old id)) }
        ensures why { IfErr result (λ r. r ≡ refused_unless (is_some (kept_at self.old id))) }
        ensures err { OnErr result (AllSame self.old self.new) }
    {
        let Some(there) = self.precedence(id) else {
            return Err(Refusal::NotOpen);
        };
        self.change_precedence(alloc, id, &Precedence { is_held, ..there })
    }

    // The same of both, of a stream that is there. (One that is over is under way meanwhile.)
    fn change_precedence(
        &mut self,
        alloc: Global,
        id: StreamId,
        precedence: &Precedence,
    ) -> Result<(), Refusal>
        requires { IsSome (kept_at self.old id) }
        ensures ok { OnOk result
            (IfSome (kept_at self.old id) (λ r. Sets self.old self.new id (record r { outgoing = preceding precedence.now r.outgoing }))) }
        ensures why { IfErr result (λ r. r ≡ OutOfMemory) }
        ensures err { OnErr result (AllSame self.old self.new) }
    {
        let Ok(true) = self.streams.take_up(alloc, id) else {
            return Err(Refusal::OutOfMemory);
        };
        let Some(stream) = self.streams.get_mut(id) else {
            return Err(Refusal::OutOfMemory);
        };
        let before = stream.class();
        let after = class_of(precedence);
        let waits = Waits {
            bytes: stream.outgoing.waiting() > 0,
            end: stream.outgoing.end_waits(),
            may_end: stream.outgoing.takes_end(),
        };
        let Ok(()) = self.ready.settle_class(before, after, id, waits) else {
            return Err(Refusal::OutOfMemory);
        };
        stream.outgoing.set_precedence(precedence);
        let is_over = stream.is_over();
        self.streams.retire_if(id, is_over);
        Ok(())
    }

    /// The stream that sends next, of those on which bytes or an end wait and that are not held: one of the least urgency, by turns. `None`
    /// if there is none. It takes no memory, and looks at no other stream.
    pub fn next_by_priority(&self, rounds: &Rounds) -> Option<StreamId>
        ensures { IsNext (places_in self.now) rounds.now.rounds result }
    {
        let Some(number) = self.ready.next_by_priority(rounds) else {
            return None;
        };
        let Ok(id) = StreamId::try_from(number) else {
            unreachable!();
        };
        Some(id)
    }
}

// Whether sending has ended, and its end was taken.
fn is_sent(stream: &OutgoingStream) -> bool
    ensures { result ≡ is_sent stream.now }
{
    stream.is_reset() || stream.end_taken()
}
