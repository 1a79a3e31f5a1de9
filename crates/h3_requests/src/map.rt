//! The request streams by their ids: those under way, found in the order of their ids, and those that are over.
ghost use Rattle.std.specs.Borrow.{sem};
ghost use Rattle.std.specs.Option.{option_copied_mut};
ghost use Rattle.std.specs.Prelude.{◌≡◌, [], true, false, None, is_some, IfOk, IfSome, OnErr, OnOk, option_copied};
ghost use Rattle.h3_blocked.specs.Counting.{waits_at};
ghost use Rattle.h3_blocked.specs.Sums.{TakesOut};
ghost use Rattle.h3_connection.specs.Calls.{fresh_request, Sets};
ghost use Rattle.h3_connection.specs.NextWaiting.{IsLeast};
ghost use Rattle.h3_connection.specs.State.{kept_at};
ghost use Rattle.h3_connection.specs.StreamSets.{HaveDistinctIds};
ghost use Rattle.h3_requests.specs.Done.{is_sought};
ghost use Rattle.h3_requests.specs.Greatest.{IsGreatest};
ghost use Rattle.h3_requests.specs.Lending.{LendsStream};
ghost use Rattle.h3_requests.specs.HasBytes.{has_end};
ghost use Rattle.h3_requests.specs.Over.{with_end_taken, AreAlike, IsOver};
ghost use Rattle.h3_requests.specs.Refused.{refused_over};
ghost use Rattle.h3_requests.specs.Stored.{over_at, streams_in, under_way_at};
ghost use Rattle.h3_requests.specs.Listed.{either};
ghost use Rattle.h3_requests.specs.Unblocked.{is_unblocked};

use crate::boxed::BoxedStream;
use crate::greatest::greater;
use crate::over::OverStreams;
use crate::stream::RequestStream;
use crate::under_way::StreamsUnderWay;
use h3_connection::event::Refusal;
use h3_proto::stream::StreamId;
use std::alloc::{AllocError, Global};

// The streams, no id twice. No look-up and no change moves or visits more than a few of them, however many there are.
#[derive(Drop)]
pub(crate) struct StreamMap {
    under_way: StreamsUnderWay,
    // and of a stream that is under way what it was when it was last over, which counts for nothing
    over: OverStreams,
}

impl StreamMap {
    // No stream. It takes no memory.
    pub(crate) fn new(alloc: Global) -> StreamMap
        ensures { streams_in result ≡ [] }
    {
        StreamMap {
            under_way: StreamsUnderWay::new(alloc),
            over: OverStreams::new(alloc),
        }
    }

    // The stream of that id, if it is there, but for the code of a reset.
    pub(crate) fn get_alike(&self, id: StreamId) -> Option<&RequestStream>
        ensures { AreAlike (option_copied result) (kept_at (streams_in self.now) id) }
    {
        if let Some(stream) = self.under_way.get_near(id.into_inner()) {
            return Some(stream);
        }
        self.get_any_alike(id)
    }

    // The same wherever it is: a call of its own, so that one in the row of those under way is found with no frame.
    #[inline(never)]
    fn get_any_alike(&self, id: StreamId) -> Option<&RequestStream>
        ensures { AreAlike (option_copied result) (kept_at (streams_in self.now) id) }
    {
        match self.under_way.get(id.into_inner()) {
            Some(stream) => Some(stream),
            None => self.over.get_alike(id),
        }
    }

    // Whether the stream of that id is there.
    pub(crate) fn contains(&self, id: StreamId) -> bool
        ensures { result ≡ is_some (kept_at (streams_in self.now) id) }
    {
        self.get_alike(id).is_some()
    }

    // One like the stream of that id, if it is over and not under way again.
    pub(crate) fn get_over(&self, id: StreamId) -> Option<RequestStream>
        ensures value { result ≡ over_at self.now id }
        ensures over { IfSome (over_at self.now id) IsOver }
    {
        self.over.get(id)
    }

    // Whether the stream of that id is over and not under way again.
    pub(crate) fn is_over(&self, id: StreamId) -> bool
        ensures value { result ≡ is_some (over_at self.now id) }
        ensures over { IfSome (over_at self.now id) IsOver }
    {
        self.over.contains(id)
    }

    // The greatest id of a stream that is there.
    pub(crate) fn greatest(&self) -> Option<u64>
        ensures { IsGreatest (λ id. is_some (kept_at (streams_in self.now) id)) result }
    {
        greater(self.under_way.greatest(false), self.over.greatest())
    }

    // The greatest id of a stream that is not done. It looks at those under way alone: all others are.
    pub(crate) fn undone(&self) -> Option<u64>
        ensures { IsGreatest (λ id. is_sought true (kept_at (streams_in self.now) id)) result }
    {
        // (for the proof: the others are over)
        self.over.are_over();
        self.under_way.greatest(true)
    }

    // The least id from `from` on of a stream that so many insertions unblock. It looks at those under way alone: no other waits.
    pub(crate) fn next_unblocked(&self, inserted: usize, from: u64) -> Option<u64>
        ensures { IsLeast (λ id. is_unblocked inserted (kept_at (streams_in self.now) id)) from result }
    {
        // (for the proof: the others are over)
        self.over.are_over();
        self.under_way.next_unblocked(inserted, from)
    }

    // Why a call is refused on a stream that is not under way: for this on one that is over, and else since none is there.
    pub(crate) fn refusal_of_over(&self, id: StreamId, refusal: Refusal) -> Refusal
        ensures value { result ≡ refused_over (over_at self.now id) refusal }
        ensures over { IfSome (over_at self.now id) IsOver }
    {
        if self.over.contains(id) {
            return refusal;
        }
        Refusal::NotOpen
    }

    // The stream of that id, if it is under way, to be changed.
    pub(crate) fn get_mut(&mut self, id: StreamId) -> Option<&mut RequestStream>
        ensures* writes_back { sem 𝓛 (LendsStream self.entry id result) }
        ensures value { option_copied_mut result ≡ under_way_at self.old id }
        ensures found { kept_at (streams_in self.old) id ≡ either (under_way_at self.old id) (over_at self.old id) }
    {
        self.under_way.get_mut(id.into_inner())
    }

    // Puts a stream there on which nothing has happened, and returns what the one that was there waits for. An `Err` changes nothing: no
    // stream was under way there, and an allocation failed.
    pub(crate) fn open(&mut self, alloc: Global, id: StreamId) -> Result<usize, AllocError>
        ensures ok { OnOk result (Sets (streams_in self.old) (streams_in self.new) id fresh_request) }
        ensures before { IfOk result (λ count. count ≡ waits_at (kept_at (streams_in self.old) id)) }
        ensures over { OnErr result (IfSome (kept_at (streams_in self.old) id) IsOver) }
        ensures err { OnErr result (streams_in self.new ≡ streams_in self.old) }
        ensures distinct { HaveDistinctIds (streams_in self.new) }
    {
        if let Some(there) = self.get_mut(id) {
            let before = there.incoming.waits_for();
            there.renew(alloc);
            return Ok(before);
        }
        let Ok(()) = self.open_new(alloc, id) else {
            return Err(AllocError);
        };
        Ok(0)
    }

    // The same if none is under way. One that is over may be there.
    pub(crate) fn open_new(&mut self, alloc: Global, id: StreamId) -> Result<(), AllocError>
        requires { under_way_at self.old id ≡ None }
        ensures ok { OnOk result (Sets (streams_in self.old) (streams_in self.new) id fresh_request) }
        ensures over { IfSome (kept_at (streams_in self.old) id) IsOver }
        ensures err { OnErr result (streams_in self.new ≡ streams_in self.old) }
        ensures distinct { HaveDistinctIds (streams_in self.new) }
    {
        let number = id.into_inner();
        let Ok(()) = self.over.reserve(alloc, id) else {
            return Err(AllocError);
        };
        let Ok(()) = self.under_way.open(alloc, number) else {
            return Err(AllocError);
        };
        Ok(())
    }

    // Takes the stream out, if it is there, and returns what it waits for. It takes no memory.
    pub(crate) fn remove(&mut self, id: StreamId) -> usize
        ensures takes_out { TakesOut (streams_in self.old) (streams_in self.new) id }
        ensures before { result ≡ waits_at (kept_at (streams_in self.old) id) }
        ensures distinct { HaveDistinctIds (streams_in self.new) }
    {
        let stream = self.under_way.remove(id.into_inner());
        self.over.remove(id);
        match stream {
            Some(stream) => stream.waits_for(),
            None => 0,
        }
    }

    // Takes the end of a stream that is over, and returns whether it waited. It takes no memory. Nothing changes if it did not wait.
    pub(crate) fn take_end(&mut self, id: StreamId) -> bool
        requires { under_way_at self.old id ≡ None }
        ensures told { result ≡ has_end (over_at self.old id) }
        ensures taken { result ≡ true
            → IfSome (over_at self.old id) (λ r. Sets (streams_in self.old) (streams_in self.new) id (with_end_taken r)) }
        ensures same { result ≡ false → self.new ≡ self.old }
        ensures over { IfSome (over_at self.old id) IsOver }
        ensures distinct { HaveDistinctIds (streams_in self.new) }
    {
        self.over.take_end(id)
    }

    // The stream is under way from now on, if it is there, and this returns whether it is there. An `Err` changes nothing: an allocation
    // failed.
    pub(crate) fn take_up(&mut self, alloc: Global, id: StreamId) -> Result<bool, AllocError>
        ensures there { IfOk result (λ is_there. is_there ≡ is_some (kept_at (streams_in self.old) id)) }
        ensures same { streams_in self.new ≡ streams_in self.old }
    {
        let number = id.into_inner();
        if self.under_way.contains(number) {
            return Ok(true);
        }
        let Some(stream) = self.over.get(id) else {
            return Ok(false);
        };
        let Ok(stream) = BoxedStream::new(alloc, stream) else {
            return Err(AllocError);
        };
        let Ok(()) = self.under_way.insert(number, stream) else {
            return Err(AllocError);
        };
        Ok(true)
    }

    // A stream of which `is_over` says that it is over takes a few bytes from now on. It does not if no memory was taken for that, or if
    // there are too many ways in which streams are over.
    #[inline(always)]
    pub(crate) fn retire_if(&mut self, id: StreamId, is_over: bool)
        ensures { streams_in self.new ≡ streams_in self.old }
    {
        if is_over {
            self.retire(id);
        }
    }

    #[inline(never)]
    fn retire(&mut self, id: StreamId)
        ensures { streams_in self.new ≡ streams_in self.old }
    {
        let number = id.into_inner();
        let Some(stream) = self.under_way.get(number) else {
            return;
        };
        if !stream.is_over() {
            return;
        }
        if self.over.put(id, stream) {
            self.under_way.retire(self.over.allocator(), number);
        }
    }
}
