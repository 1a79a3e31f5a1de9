//! The request streams of a connection, by their ids.
ghost use Rattle.std.specs.Prelude.{◌≡◌, ◌<◌, ◌*◌, ◌^◌, [], false, is_some, None, OnOk, OnErr, IfSome};
ghost use Rattle.h3_blocked.specs.Sums.{TakesOut};
ghost use Rattle.h3_connection.specs.Calls.{fresh_request, Sets};
ghost use Rattle.h3_connection.specs.State.{kept_at};
ghost use Rattle.h3_requests.specs.Over.{IsOver};
ghost use Rattle.h3_requests.specs.Seen.{AreSeen};
ghost use Rattle.h3_requests.specs.Stored.{streams_in};

use crate::map::StreamMap;
use crate::ready::ReadyStreams;
use h3_blocked::Blocked;
use h3_proto::stream::StreamId;
use std::alloc::{AllocError, Global};
use std::marker::Model;

mod answering;
mod ending;
mod judged;
mod ordering;
mod pulling;
mod reading;
mod receiving;
mod seen;
mod sending;
mod unread;

// The ids of request streams are four apart (RFC 9000, section 2.1).
const STEP: u64 = 4;

// So many of them have 62 bits.
const MOST: u64 = 1 << 60;

/// The request streams of a connection, by their ids. A contract sees the list of them, and finds one by `kept_at`.
#[derive(Drop)]
pub struct RequestStreams {
    streams: StreamMap,
    // what the streams wait for
    blocked: Blocked,
    // those on which bytes or an end wait to be sent
    ready: ReadyStreams,
    // at least so many of the first ones are there, so that a look at few shows whether those below an id are
    seen: u64,
}

impl Model for RequestStreams {
    ghost use Rattle.h3_connection.specs.State.{RequestState};
    ghost use Rattle.h3_connection.specs.StreamSets.{Streams};
    ghost use Rattle.h3_requests.specs.Stored.{streams_in};

    ghost Value = { Streams RequestState };

    ghost view = { λ s. streams_in s.streams };

    ghost use Rattle.h3_requests.specs.Ready.{AreKept};

    ghost invariant = { λ s. AreKept s.blocked s.ready s.seen (streams_in s.streams) };
}

impl RequestStreams {
    /// No stream. It takes no memory.
    pub fn new(alloc: Global) -> RequestStreams
        ensures { result ≡ [] }
    {
        RequestStreams {
            streams: StreamMap::new(alloc),
            blocked: Blocked::new(alloc),
            ready: ReadyStreams::new(alloc),
            seen: 0,
        }
    }

    /// A stream on which nothing has happened is there under that id, in the place of one that was there. An `Err` changes nothing: no
    /// stream was there, or one that is over (`IsOver`), and an allocation failed.
    pub fn open(&mut self, alloc: Global, id: StreamId) -> Result<(), AllocError>
        ensures ok { OnOk result (Sets self.old self.new id fresh_request) }
        ensures over { OnErr result (IfSome (kept_at self.old id) IsOver) }
        ensures err { OnErr result (self.new ≡ self.old) }
    {
        let class = self.class(id);
        let Ok(before) = self.streams.open(alloc, id) else {
            return Err(AllocError);
        };
        self.blocked.replace(before, 0);
        self.ready.leave(class, id);
        self.seen = count_seen(&self.streams, self.seen);
        Ok(())
    }

    // The same if no stream is there: none waits on it then.
    fn open_new(&mut self, alloc: Global, id: StreamId) -> Result<(), AllocError>
        requires { kept_at self.old id ≡ None }
        ensures ok { OnOk result (Sets self.old self.new id fresh_request) }
        ensures err { OnErr result (self.new ≡ self.old) }
    {
        // (for the proof: an id has 62 bits)
        id.into_inner();
        let Ok(()) = self.streams.open_new(alloc, id) else {
            return Err(AllocError);
        };
        self.seen = count_seen(&self.streams, self.seen);
        Ok(())
    }

    /// Takes a stream out again, if it is there. It takes no memory.
    pub fn undo_open(&mut self, id: StreamId)
        ensures { TakesOut self.old self.new id }
    {
        let class = self.class(id);
        let before = self.streams.remove(id);
        self.blocked.replace(before, 0);
        self.ready.leave(class, id);
        self.seen = self.seen.min(id.into_inner() / STEP);
    }
}

// How many of the first request streams are there, of which so many are. It looks at one more than it counts further.
fn count_seen(streams: &StreamMap, seen: u64) -> u64
    requires { AreSeen seen (streams_in streams.now) }
    ensures seen { AreSeen result (streams_in streams.now) }
    ensures next { result < 2 ^ 60 → is_some (kept_at (streams_in streams.now) (4 * result)) ≡ false }
{
    for count in seen..MOST {
        if !is_there(streams, count) {
            return count;
        }
    }
    MOST
}

// Whether the request stream of this number is there.
fn is_there(streams: &StreamMap, number: u64) -> bool
    requires { number < 2 ^ 60 }
    ensures { result ≡ is_some (kept_at (streams_in streams.now) (4 * number)) }
{
    let Ok(id) = StreamId::try_from(STEP * number) else {
        unreachable!();
    };
    streams.contains(id)
}
