//! The request streams on which bytes or an end wait, by classes, and of a class in the order of their ids.
ghost use Rattle.std.specs.Prelude.{◌≡◌, ◌≢◌, ◌≤◌, ◌||◌, ℕ, true, false, OnErr, OnOk};
ghost use Rattle.h3_connection.specs.NextWaiting.{IsLeast};
ghost use Rattle.h3_scheduler.specs.Places.{IsNext};
ghost use Rattle.h3_requests.specs.Classes.{class_of};
ghost use Rattle.h3_requests.specs.Waiting.{has_place, is_any, is_waiting, IsFirstClass, IsOnePlace, KeepsOtherPlaces};
ghost use Rattle.h3_requests.specs.Ready.{is_listed, is_ready, stands, stands_in, ArePlain, Moves};

use crate::class::{HELD, PLAIN, class_of};
use crate::lesser::lesser;
use crate::waiting::WaitingStreams;
use h3_connection::order::Precedence;
use h3_proto::stream::StreamId;
use h3_scheduler::round::Rounds;
use std::alloc::{AllocError, Global};

/// What of a stream waits, and whether its end may come to wait.
#[derive(Clone, Copy)]
pub(crate) struct Waits {
    pub(crate) bytes: bool,
    pub(crate) end: bool,
    pub(crate) may_end: bool,
}

/// The streams on which bytes wait, and those whose ends wait. On one that has a place bytes come to wait with no memory.
#[derive(Drop)]
pub(crate) struct ReadyStreams {
    bytes: WaitingStreams,
    // the stream for whose bytes room was taken last, with its class, until they come
    reserved: Option<(u64, StreamId)>,
    ends: WaitingStreams,
    // whether a stream was ever in a class of its own: until then all are in one
    has_classes: bool,
}

impl ReadyStreams {
    /// No stream. It takes no memory.
    pub(crate) fn new(alloc: Global) -> ReadyStreams
        ensures bytes { (c q : ℕ) → is_ready result c q ≡ false }
        ensures ends { (c q : ℕ) → is_waiting result.ends c q ≡ false }
        ensures plain { result.has_classes ≡ false }
    {
        ReadyStreams {
            bytes: WaitingStreams::new(alloc),
            reserved: None,
            ends: WaitingStreams::new(alloc),
            has_classes: false,
        }
    }

    /// Whether a stream was ever in a class of its own.
    pub(crate) fn has_classes(&self) -> bool
        ensures { result ≡ self.now.has_classes }
    {
        self.has_classes
    }

    /// Room for a stream of this class, so that bytes can come to wait on it with no memory. Room that was taken in vain before goes. Which
    /// streams are ready stays as it was.
    #[inline(always)]
    pub(crate) fn reserve(&mut self, class: u64, id: StreamId) -> Result<(), AllocError>
        requires { class ≤ 16 }
        ensures listed { OnOk result (is_listed self.new class id ≡ true) }
        ensures same { (c q : ℕ) → is_ready self.new c q ≡ is_ready self.old c q }
        ensures ends { self.new.ends ≡ self.old.ends }
        ensures classes { self.new.has_classes ≡ self.old.has_classes }
    {
        self.release_other(id);
        self.bytes.reserve(class, id)?;
        self.reserved = Some((class, id));
        Ok(())
    }

    // Whether room was taken last for this stream.
    fn was_last(&self, id: StreamId) -> bool {
        let Some((_, reserved)) = self.reserved else {
            return false;
        };
        reserved.into_inner() == id.into_inner()
    }

    // The room that was taken last is released if it is another stream's, so that no more than one has room in vain.
    fn release_other(&mut self, id: StreamId)
        ensures same { (c q : ℕ) → is_ready self.new c q ≡ is_ready self.old c q }
        ensures ends { self.new.ends ≡ self.old.ends }
        ensures classes { self.new.has_classes ≡ self.old.has_classes }
    {
        let Some((class, reserved)) = self.reserved else {
            return;
        };
        if reserved.into_inner() == id.into_inner() || class > HELD {
            return;
        }
        self.bytes.release(class, reserved);
    }

    /// Room for a stream of this class on which a header section goes out, for its bytes and for its end, if it has none. What is ready
    /// stays as it was.
    #[inline(always)]
    pub(crate) fn reserve_both(&mut self, class: u64, id: StreamId) -> Result<(), AllocError>
        requires { class ≤ 16 }
        ensures listed { OnOk result (is_listed self.new class id ≡ true) }
        ensures placed { OnOk result (has_place self.new.ends class id ≡ true) }
        ensures same { (c q : ℕ) → is_ready self.new c q ≡ is_ready self.old c q }
        ensures ending { (c q : ℕ) → is_waiting self.new.ends c q ≡ is_waiting self.old.ends c q }
        ensures places { (c q : ℕ) → has_place self.old.ends c q ≡ true → has_place self.new.ends c q ≡ true }
        ensures classes { self.new.has_classes ≡ self.old.has_classes }
    {
        if self.was_last(id)
            && self.bytes.has_near_place(class, id)
            && self.ends.has_near_place(class, id)
        {
            return Ok(());
        }
        self.reserve_places(class, id)
    }

    // The same, but it may have none.
    #[inline(never)]
    fn reserve_places(&mut self, class: u64, id: StreamId) -> Result<(), AllocError>
        requires { class ≤ 16 }
        ensures listed { OnOk result (is_listed self.new class id ≡ true) }
        ensures placed { OnOk result (has_place self.new.ends class id ≡ true) }
        ensures same { (c q : ℕ) → is_ready self.new c q ≡ is_ready self.old c q }
        ensures ending { (c q : ℕ) → is_waiting self.new.ends c q ≡ is_waiting self.old.ends c q }
        ensures places { (c q : ℕ) → has_place self.old.ends c q ≡ true → has_place self.new.ends c q ≡ true }
        ensures classes { self.new.has_classes ≡ self.old.has_classes }
    {
        self.ends.reserve(class, id)?;
        self.reserve(class, id)
    }

    /// Bytes wait on a stream of this class from now on, for which room was taken, or none do. It takes no memory.
    #[inline(always)]
    pub(crate) fn settle(&mut self, class: u64, id: StreamId, waits: bool)
        requires few { class ≤ 16 }
        requires place { waits ≡ true → is_listed self.old class id ≡ true }
        ensures bytes { IsOnePlace class id waits (is_ready self.old) (is_ready self.new) }
        ensures ends { self.new.ends ≡ self.old.ends }
        ensures classes { self.new.has_classes ≡ self.old.has_classes }
    {
        self.reserved = None;
        if !waits {
            self.bytes.take(class, id);
            return;
        }
        self.bytes.put(class, id);
    }

    /// Bytes were taken of a stream on which they waited: more wait, or none do any longer. It takes no memory. (The class is asked only
    /// if none do.)
    #[inline(always)]
    pub(crate) fn settle_rest(&mut self, precedence: &Precedence, id: StreamId, waits: bool)
        requires { waits ≡ true → is_ready self.old (class_of precedence.now) id ≡ true }
        ensures bytes { IsOnePlace (class_of precedence.now) id waits (is_ready self.old) (is_ready self.new) }
        ensures ends { self.new.ends ≡ self.old.ends }
        ensures classes { self.new.has_classes ≡ self.old.has_classes }
    {
        if !waits {
            self.bytes.take(class_of(precedence), id);
        }
    }

    /// The end of a stream of this class waits from now on, for which there is a place; or it does not, and all its places go. It takes no
    /// memory.
    pub(crate) fn settle_end(&mut self, class: u64, id: StreamId, waits: bool)
        requires few { class ≤ 16 }
        requires place { waits ≡ true → has_place self.old.ends class id ≡ true }
        ensures end { IsOnePlace class id waits (is_waiting self.old.ends) (is_waiting self.new.ends) }
        ensures places { KeepsOtherPlaces class id (has_place self.old.ends) (has_place self.new.ends) }
        ensures bytes { (c q : ℕ) → is_ready self.new c q ≡ is_ready self.old c q }
        ensures classes { self.new.has_classes ≡ self.old.has_classes }
    {
        if !waits {
            self.leave_end(class, id);
            return;
        }
        self.ends.put(class, id);
    }

    // The end of a stream does not wait, and all its places go. It takes no memory.
    #[inline(never)]
    fn leave_end(&mut self, class: u64, id: StreamId)
        requires { class ≤ 16 }
        ensures end { IsOnePlace class id false (is_waiting self.old.ends) (is_waiting self.new.ends) }
        ensures places { KeepsOtherPlaces class id (has_place self.old.ends) (has_place self.new.ends) }
        ensures bytes { (c q : ℕ) → is_ready self.new c q ≡ is_ready self.old c q }
        ensures classes { self.new.has_classes ≡ self.old.has_classes }
    {
        self.ends.take(class, id);
        self.bytes.release(class, id);
    }

    /// Neither bytes nor an end wait on a stream of this class from now on. It takes no memory.
    pub(crate) fn leave(&mut self, class: u64, id: StreamId)
        requires { class ≤ 16 }
        ensures bytes { IsOnePlace class id false (is_ready self.old) (is_ready self.new) }
        ensures taken { IsOnePlace class id false (is_waiting self.old.ends) (is_waiting self.new.ends) }
        ensures places { KeepsOtherPlaces class id (has_place self.old.ends) (has_place self.new.ends) }
        ensures classes { self.new.has_classes ≡ self.old.has_classes }
    {
        self.bytes.take(class, id);
        self.ends.take(class, id);
    }

    // A stream goes from one class to another, with what of it waits. If an allocation fails (`Err`), which streams are ready stays as it
    // was.
    fn change_class(
        &mut self,
        before: u64,
        after: u64,
        id: StreamId,
        waits: Waits,
    ) -> Result<(), AllocError>
        requires before { before ≤ 16 }
        requires after { after ≤ 16 }
        requires differ { before ≢ after }
        ensures moves { OnOk result (Moves before after id waits self.old self.new) }
        ensures bytes { OnErr result ((c q : ℕ) → is_ready self.new c q ≡ is_ready self.old c q) }
        ensures ends { OnErr result ((c q : ℕ) → is_waiting self.new.ends c q ≡ is_waiting self.old.ends c q) }
        ensures places { OnErr result ((c q : ℕ) → has_place self.old.ends c q ≡ true → has_place self.new.ends c q ≡ true) }
        ensures classes { OnErr result (self.new.has_classes ≡ self.old.has_classes) }
    {
        self.reserve_class(after, id, waits)?;
        self.bytes.put_if(after, id, waits.bytes);
        self.ends.put_if(after, id, waits.end);
        self.leave(before, id);
        self.reserved = None;
        self.has_classes = true;
        Ok(())
    }

    /// A stream goes to a class, if it is of another, with what of it waits. If an allocation fails (`Err`), which streams are ready stays
    /// as it was.
    pub(crate) fn settle_class(
        &mut self,
        before: u64,
        after: u64,
        id: StreamId,
        waits: Waits,
    ) -> Result<(), AllocError>
        requires before { before ≤ 16 }
        requires after { after ≤ 16 }
        ensures moves { before ≢ after → OnOk result (Moves before after id waits self.old self.new) }
        ensures stays { before ≡ after → self.new ≡ self.old }
        ensures bytes { OnErr result ((c q : ℕ) → is_ready self.new c q ≡ is_ready self.old c q) }
        ensures ends { OnErr result ((c q : ℕ) → is_waiting self.new.ends c q ≡ is_waiting self.old.ends c q) }
        ensures places { OnErr result ((c q : ℕ) → has_place self.old.ends c q ≡ true → has_place self.new.ends c q ≡ true) }
        ensures classes { OnErr result (self.new.has_classes ≡ self.old.has_classes) }
    {
        if before == after {
            return Ok(());
        }
        self.change_class(before, after, id, waits)
    }

    // Room for a stream in a class, for what of it waits. What is ready stays as it was.
    fn reserve_class(&mut self, class: u64, id: StreamId, waits: Waits) -> Result<(), AllocError>
        requires { class ≤ 16 }
        ensures listed { OnOk result (waits.bytes ≡ true → is_listed self.new class id ≡ true) }
        ensures placed { OnOk result ((waits.end || waits.may_end) ≡ true → has_place self.new.ends class id ≡ true) }
        ensures same { (c q : ℕ) → is_ready self.new c q ≡ is_ready self.old c q }
        ensures ending { (c q : ℕ) → is_waiting self.new.ends c q ≡ is_waiting self.old.ends c q }
        ensures places { (c q : ℕ) → has_place self.old.ends c q ≡ true → has_place self.new.ends c q ≡ true }
        ensures classes { self.new.has_classes ≡ self.old.has_classes }
    {
        if waits.end || waits.may_end {
            self.ends.reserve(class, id)?;
        }
        if waits.bytes {
            self.bytes.reserve(class, id)?;
        }
        Ok(())
    }

    /// The first stream from this id on whose end waits.
    #[inline(always)]
    pub(crate) fn next_end(&self, from: u64) -> Option<StreamId>
        requires { ArePlain self.now }
        ensures { IsLeast (is_any (is_waiting self.now.ends)) from result }
    {
        if self.has_classes {
            return self.ends.next_of_any(from);
        }
        self.ends.next(PLAIN, from)
    }

    /// The first stream from this id on on which bytes wait.
    #[inline(always)]
    pub(crate) fn next(&self, from: u64) -> Option<StreamId>
        requires { ArePlain self.now }
        ensures { IsLeast (is_any (is_ready self.now)) from result }
    {
        if self.has_classes {
            return self.bytes.next_of_any(from);
        }
        self.bytes.next(PLAIN, from)
    }

    // The least id from there on of the streams of a class on which bytes or an end wait.
    fn least(&self, class: u64, from: u64) -> Option<u64>
        requires { class ≤ 16 }
        ensures { IsLeast (stands self.now class) from result }
    {
        lesser(
            number_of(self.bytes.next(class, from)),
            number_of(self.ends.next(class, from)),
        )
    }

    // The first class of which bytes or an end wait.
    fn first_class(&self) -> Option<u64>
        ensures { IsFirstClass (stands self.now) result }
    {
        lesser(self.bytes.first_class(), self.ends.first_class())
    }

    /// The stream that sends next, of those that are not held. It takes no memory.
    pub(crate) fn next_by_priority(&self, rounds: &Rounds) -> Option<u64>
        ensures { IsNext (stands_in self.now) rounds.now.rounds result }
    {
        let Some(first) = self.first_class() else {
            return None;
        };
        if first >= HELD {
            return None;
        }
        let urgency = first / 2;
        let plain = self.least(urgency * 2, 0);
        let round = rounds.of(urgency);
        let shared = self.least(urgency * 2 + 1, round.from());
        let next = lesser(round.within(plain), round.within(shared));
        if next.is_some() {
            return next;
        }
        lesser(plain, self.least(urgency * 2 + 1, 0))
    }
}

// The number of an id.
fn number_of(id: Option<StreamId>) -> Option<u64>
    ensures { result ≡ id }
{
    match id {
        Some(id) => Some(id.into_inner()),
        None => None,
    }
}
