//! What a client says of priorities (RFC 9218, sections 5 and 7).
ghost use Rattle.std.specs.Prelude.{if◌then◌else◌, ◌≡◌, ◌<◌, ◌+◌, ◌^◌, ◌++◌, ℕ, None, Some, length, remove, slice_get, IfErr, OnErr, OnOk};
ghost use Rattle.h3_connection.specs.OwnUpdates.{update_encoding};
ghost use Rattle.h3_connection.specs.Prioritizing.{SendsPriority, SetsInitialPriority, ShowsPriority, UsesUpdates};
ghost use Rattle.h3_session.specs.Prioritized.{counting_in, having_waiting, judged_in, send_refused, ChangesTurns, IsSaid, LooksAt};
ghost use Rattle.h3_session.specs.Prioritized.{UsesOne};

use super::Endpoint;
use super::sending::is_server;
use h3_connection::event::Refusal;
use h3_connection::order::{Precedence, PrioritySource};
use h3_priority::priority::Priority;
use h3_proto::stream::StreamId;
use h3_streams::streams::ConnectionStreams;
use std::alloc::{AllocError, Global};

impl Endpoint {
    /// What the `priority` field of a request says, which its server passes (RFC 9218, section 5): its response has this priority unless
    /// a PRIORITY_UPDATE frame said another one, or the server set one (`set_priority`). Refused as `set_priority` is. An `Err` changes
    /// nothing.
    pub fn set_initial_priority(&mut self, id: StreamId, priority: Priority) -> Result<(), Refusal>
        ensures { SetsInitialPriority self.old self.new id priority result }
    {
        match self.judge_priority(id) {
            Ok(()) => self.say_priority(id, PrioritySource::Field, priority),
            Err(refusal) => Err(refusal),
        }
    }

    // Why no priority can be said of a stream, whatever is stored of it.
    pub(super) fn judge_priority(&self, id: StreamId) -> Result<(), Refusal>
        ensures ok { OnOk result (judged_in self.now id ≡ None) }
        ensures err { IfErr result (λ r. judged_in self.now id ≡ Some r) }
    {
        if let Some(code) = self.closed {
            return Err(Refusal::Closed(code));
        }
        if !id.is_request() {
            return Err(Refusal::NotRequestId);
        }
        Ok(())
    }

    // Somebody says the priority of a stream, and turns count from now on.
    pub(super) fn say_priority(
        &mut self,
        id: StreamId,
        source: PrioritySource,
        priority: Priority,
    ) -> Result<(), Refusal>
        ensures said { IsSaid self.old self.new id source priority result }
        ensures rest { ChangesTurns self.old self.new }
    {
        match self.prioritize(id, source, priority) {
            Ok(()) => {
                self.begin_rounds();
                Ok(())
            }
            Err(refusal) => Err(refusal),
        }
    }

    /// What PRIORITY_UPDATE frames said is used of the streams that are open, and dropped of those on which sending has ended. What they
    /// said of others waits on. If an allocation fails, so does what was not looked at.
    #[inline(never)]
    #[tactic(auto, using(crate::proofs::LookingAtUpdates::room_left))]
    pub(super) fn use_updates(&mut self)
        ensures { UsesUpdates self.old self.new }
    {
        let mut place = 0;
        for looked in 0..self.updates_waiting() {
            let Ok(next) = self.use_update_at(place) else {
                return;
            };
            place = next;
        }
    }

    // How many updates wait.
    pub(super) fn updates_waiting(&self) -> usize
        ensures { result ≡ length self.now.peer.updates.waiting }
    {
        self.streams.peer.updates_waiting()
    }

    // The update at a place is looked at, and this returns the place of the next one: the same if this one waits no longer.
    #[tactic(auto, using(crate::proofs::LookingAtUpdates::still_within))]
    fn use_update_at(&mut self, place: usize) -> Result<usize, Refusal>
        requires there { place < length self.old.peer.updates.waiting }
        requires few { place + 1 < 2 ^ 64 }
        ensures { LooksAt self.old self.new place result }
    {
        let Some(update) = self.update_at(place) else {
            unreachable!();
        };
        match self.use_update(update.0, update.1) {
            Ok(is_used) => Ok(self.pass_update(place, is_used)),
            Err(refusal) => Err(refusal),
        }
    }

    // The update at a place waits no longer, or it waits on, and this returns the place of the next one.
    fn pass_update(&mut self, place: usize, is_used: bool) -> usize
        requires there { place < length self.old.peer.updates.waiting }
        requires few { place + 1 < 2 ^ 64 }
        ensures waits { self.new ≡ (if is_used then having_waiting self.old (remove self.old.peer.updates.waiting place) else self.old) }
        ensures next { result ≡ (if is_used then place else place + 1) }
    {
        if is_used {
            self.remove_update(place);
            return place;
        }
        place + 1
    }

    // The update at a place.
    fn update_at(&self, place: usize) -> Option<(StreamId, Priority)>
        ensures { result ≡ slice_get self.now.peer.updates.waiting place }
    {
        self.streams.peer.update_at(place)
    }

    // The update at a place waits no longer.
    fn remove_update(&mut self, place: usize)
        requires { place < length self.old.peer.updates.waiting }
        ensures { self.new ≡ having_waiting self.old (remove self.old.peer.updates.waiting place) }
    {
        remove_update(&mut self.streams, place);
    }

    // What an update said of a stream is used, if that is open, and this returns whether the update waits no longer.
    fn use_update(&mut self, id: StreamId, priority: Priority) -> Result<bool, Refusal>
        ensures used { UsesOne self.old self.new id priority result }
        ensures rest { ChangesTurns self.old self.new }
    {
        let Some(is_sent) = self.requests.is_sent(id) else {
            return Ok(false);
        };
        if is_sent {
            return Ok(true);
        }
        match self.say_priority(id, PrioritySource::Update, priority) {
            Ok(()) => Ok(true),
            Err(refusal) => Err(refusal),
        }
    }

    /// The priority that counts of a request stream at its sender: what the endpoint set (`set_priority`), else what the last
    /// PRIORITY_UPDATE frame said, else what the request said (`set_initial_priority`), else urgency 3, not incremental. `None` if it is
    /// not open.
    pub fn priority(&self, id: StreamId) -> Option<Priority>
        ensures { ShowsPriority self.now id result }
    {
        let Some(there) = self.requests.precedence(id) else {
            return None;
        };
        let Some(is_sent) = self.requests.is_sent(id) else {
            return None;
        };
        let update = self.streams.peer.update_of(id);
        Some(counting(update, is_sent, &there))
    }

    /// Tells the server the priority of a response from now on, by a PRIORITY_UPDATE frame on the local control stream (RFC 9218, section
    /// 7.2). Refused are, in this order, a connection with a fault, a server, a stream that is no request stream, one that is not open, one
    /// whose response has come or is not wanted (`Ended`), and last a failed allocation. An `Err` changes nothing.
    pub fn send_priority(&mut self, id: StreamId, priority: Priority) -> Result<(), Refusal>
        ensures { SendsPriority self.old self.new id priority result }
    {
        if let Some(refusal) = self.send_priority_refusal(id) {
            return Err(refusal);
        }
        let Ok(()) = write_update(&mut self.streams, self.alloc, id, priority) else {
            return Err(Refusal::OutOfMemory);
        };
        Ok(())
    }

    // Why the server learns no priority.
    fn send_priority_refusal(&self, id: StreamId) -> Option<Refusal>
        ensures { result ≡ send_refused self.now id }
    {
        if let Some(code) = self.closed {
            return Some(Refusal::Closed(code));
        }
        if is_server(self.side) {
            return Some(Refusal::NotClient);
        }
        if !id.is_request() {
            return Some(Refusal::NotRequestId);
        }
        if !self.requests.contains(id) {
            return Some(Refusal::NotOpen);
        }
        if self.requests.takes_no_response(id) {
            return Some(Refusal::Ended);
        }
        None
    }
}

// Which priority counts of a stream: that which was said, or an update that waits and counts before it.
fn counting(update: Option<Priority>, is_sent: bool, there: &Precedence) -> Priority
    ensures { result ≡ counting_in update is_sent there.now }
{
    let Some(update) = update else {
        return there.priority;
    };
    if is_sent || !there.source.gives_way(PrioritySource::Update) {
        return there.priority;
    }
    update
}

// The update at a place waits no longer.
fn remove_update(streams: &mut ConnectionStreams, place: usize)
    requires { place < length streams.old.peer.updates.waiting }
    ensures { streams.new ≡ record streams.old {
      peer = record streams.old.peer {
        updates = record streams.old.peer.updates
            { waiting = remove streams.old.peer.updates.waiting place };
      };
    } }
{
    streams.peer.remove_update(place);
}

// Writes a PRIORITY_UPDATE frame on the local control stream. A refusal changes nothing.
fn write_update(
    streams: &mut ConnectionStreams,
    alloc: Global,
    id: StreamId,
    priority: Priority,
) -> Result<(), AllocError>
    ensures ok { OnOk result ((behind : ℕ) → streams.new ≡ record streams.old {
      own = record streams.old.own {
        control = streams.old.own.control ++ update_encoding (record { behind = behind; id = id; priority = priority });
      };
    }) }
    ensures err { OnErr result (streams.new ≡ streams.old) }
{
    let Ok(()) = streams.own.update(alloc, id, priority) else {
        return Err(AllocError);
    };
    Ok(())
}
