//! What an endpoint sends.
ghost use Rattle.std.specs.Prelude.{◌≡◌, ◌≤◌, ◌+◌, ◌^◌, ◌++◌, true, false, None, length, not, unwrap_or, IfErr, IfNone, IfSome, OnOk};
ghost use Rattle.std.specs.Prelude.{OnErr, option_copied};
ghost use Rattle.h3_connection.specs.Answers.{call_refused};
ghost use Rattle.h3_connection.specs.Calls.{AllSame, Sets};
ghost use Rattle.h3_connection.specs.Endpoint.{goaway_encoding};
ghost use Rattle.h3_connection.specs.Pulling.{is_client};
ghost use Rattle.h3_connection.specs.ReadingContracts.{LendsOutgoing, ShowsWaiting};
ghost use Rattle.h3_connection.specs.SendingContracts.{Opens, SendsBody, Finishes, Resets, GoesAway, Advances};
ghost use Rattle.h3_unidirectional.specs.Owned.{waiting_on, having_taken};
ghost use Rattle.h3_connection.specs.State.{kept_at};
ghost use Rattle.h3_connection.specs.declared.event.Refusal.TheVariants.{OutOfMemory};
ghost use Rattle.h3_outgoing.specs.Held.{held};
ghost use Rattle.h3_outgoing.specs.Sent.{has_body, has_ended, was_cut_off};
ghost use Rattle.h3_requests.specs.Refused.{data_refused_at, end_refused_at, reset_refused_at};
ghost use Rattle.h3_session.specs.Held.{HoldsNone, LendsFront, SendsBodyOf};
ghost use Rattle.h3_session.specs.NextRequest.{ShowsNextRequest};
ghost use Rattle.h3_session.specs.Turns.{TakesBytes};
ghost use Rattle.h3_session.specs.Refused.{sender_in, critical_refused, goaway_refused, open_refused};

use super::Endpoint;
use bytes::Bytes;
use h3_coding::varint::VarInt;
use h3_connection::event::{Malformation, Refusal};
use h3_outgoing::OutgoingStream;
use h3_outgoing::outgoing::as_bytes;
use h3_proto::stream::{Side, StreamId};
use h3_streams::streams::ConnectionStreams;
use std::alloc::{AllocError, Global};

/// No endpoint sends so many bytes.
const SENT_LIMIT: u64 = 1 << 56;

impl Endpoint {
    /// Opens the next request stream. Refused are, in this order, every call after a connection fault, a server's, one after the
    /// peer's GOAWAY, and one beyond the last stream id.
    pub fn open_request(&mut self) -> Result<StreamId, Refusal>
        ensures { Opens self.old self.new result }
    {
        if let Some(refusal) = self.open_refusal() {
            return Err(refusal);
        }
        let Ok(id) = StreamId::try_from(self.next_id) else {
            return Err(Refusal::IdsUsedUp);
        };
        let Ok(()) = self.requests.open(self.alloc, id) else {
            return Err(Refusal::OutOfMemory);
        };
        self.next_id += 4;
        Ok(id)
    }

    /// The id that `open_request` gives next, or the refusal that it answers, out of memory aside. Nothing is opened.
    #[tactic(auto, using(crate::proofs::NextRequest::shows_id, crate::proofs::NextRequest::shows_refusal, crate::proofs::NextRequest::shows_far))]
    pub fn next_request(&self) -> Result<StreamId, Refusal>
        ensures { ShowsNextRequest self.now result }
    {
        if let Some(refusal) = self.open_refusal() {
            return Err(refusal);
        }
        match StreamId::try_from(self.next_id) {
            Ok(id) => Ok(id),
            Err(_) => Err(Refusal::IdsUsedUp),
        }
    }

    // RFC 9114 5.2: no request after GOAWAY
    pub(super) fn open_refusal(&self) -> Option<Refusal>
        ensures { result ≡ open_refused self.now }
    {
        if let Some(code) = self.closed {
            return Some(Refusal::Closed(code));
        }
        if let Side::Server = self.side {
            return Some(Refusal::NotClient);
        }
        if let Some(id) = self.streams.peer.last_goaway() {
            return Some(Refusal::GoingAway(StreamId::from(id)));
        }
        if self.next_id > VarInt::MAX.into_inner() {
            return Some(Refusal::IdsUsedUp);
        }
        None
    }

    /// Sends a body on a stream, as the payload of a DATA frame (RFC 9114, section 7.2.1); an empty one writes nothing. Refused are first
    /// every call after a connection fault, then a stream that is not open. Next is one whose final header section was not sent, or whose
    /// trailer or end was. An endpoint that asks for strict messages then refuses more content than the header section said (section
    /// 4.1.2). `OutOfMemory` comes last. A refused body comes back.
    pub fn send_body(&mut self, id: StreamId, body: Bytes) -> Result<(), (Refusal, Bytes)>
        ensures { SendsBody self.old self.new id body result }
    {
        if let Some(code) = self.closed {
            return Err((Refusal::Closed(code), body));
        }
        let size = body.len();
        let Some(sent) = self.sent_with(size as u64) else {
            return Err((self.uncounted_refusal(id, size), body));
        };
        self.append_body(id, body, sent)
    }

    // Appends a body to what waits on its stream, with one look-up, and so much was sent then.
    fn append_body(&mut self, id: StreamId, body: Bytes, sent: u64) -> Result<(), (Refusal, Bytes)>
        ensures rest { OnOk result (self.new ≡ record self.old { requests = self.new.requests; sent = sent }) }
        ensures same { OnErr result (self.new ≡ record self.old { requests = self.new.requests }) }
        ensures ok { OnOk result
            (IfSome (kept_at self.old.requests id)
            (λ r. Sets self.old.requests self.new.requests id (record r { outgoing = has_body r.outgoing body }))) }
        ensures taken { OnOk result (data_refused_at (kept_at self.old.requests id) (length body) ≡ None) }
        ensures why { IfErr result (λ e. e.0 ≡ unwrap_or (data_refused_at (kept_at self.old.requests id) (length body)) OutOfMemory) }
        ensures err { IfErr result (λ e. (e.1 ≡ body) × AllSame self.old.requests self.new.requests) }
    {
        match self.requests.send_data(id, body) {
            Ok(()) => {
                self.sent = sent;
                Ok(())
            }
            Err(refused) => Err(refused),
        }
    }

    /// The same of a body of so many bytes, which the caller holds: a DATA frame of this length is announced, and none of its bytes is
    /// given. They go out after the bytes that are copied, at the place that `copy_with_end` says. Refused as a body of these bytes is.
    pub fn send_body_of(&mut self, id: StreamId, len: usize) -> Result<(), Refusal>
        ensures { SendsBodyOf self.old self.new id len result }
    {
        if let Some(code) = self.closed {
            return Err(Refusal::Closed(code));
        }
        let Some(sent) = self.sent_with(len as u64) else {
            return Err(self.uncounted_refusal(id, len));
        };
        self.append_body_of(id, len, sent)
    }

    // The same as `append_body`.
    fn append_body_of(&mut self, id: StreamId, len: usize, sent: u64) -> Result<(), Refusal>
        ensures rest { OnOk result (self.new ≡ record self.old { requests = self.new.requests; sent = sent }) }
        ensures same { OnErr result (self.new ≡ record self.old { requests = self.new.requests }) }
        ensures ok { OnOk result
            (IfSome (kept_at self.old.requests id)
            (λ r. Sets self.old.requests self.new.requests id (record r { outgoing = has_body r.outgoing (held len) }))) }
        ensures taken { OnOk result (data_refused_at (kept_at self.old.requests id) len ≡ None) }
        ensures why { IfErr result (λ r. r ≡ unwrap_or (data_refused_at (kept_at self.old.requests id) len) OutOfMemory) }
        ensures err { OnErr result (AllSame self.old.requests self.new.requests) }
    {
        match self.requests.send_data_of(id, len) {
            Ok(()) => {
                self.sent = sent;
                Ok(())
            }
            Err(refused) => Err(refused),
        }
    }

    // Why a body is refused whose bytes cannot be counted: what refuses it on its stream comes before out of memory.
    pub(super) fn uncounted_refusal(&self, id: StreamId, size: usize) -> Refusal
        ensures { result ≡ unwrap_or (data_refused_at (kept_at self.now.requests id) size) OutOfMemory }
    {
        let Some(stream) = self.requests.outgoing(id) else {
            return Refusal::NotOpen;
        };
        if !stream.takes_body() {
            return Refusal::OutOfOrder;
        }
        if stream.passes_content(size) {
            return Refusal::Malformed(Malformation::ContentLength);
        }
        Refusal::OutOfMemory
    }

    // What was sent, in bytes and 64 for each field and call, with a call of this cost. A sum of `SENT_LIMIT` is refused as out of memory.
    pub(super) fn sent_with(&self, cost: u64) -> Option<u64>
        ensures some { IfSome result (λ sum. sum ≡ self.now.sent + cost + 64) }
        ensures none { IfNone result (2 ^ 56 ≤ self.now.sent + cost + 64) }
    {
        let sum = self.sent.checked_add(cost)?.checked_add(64)?;
        if sum < SENT_LIMIT { Some(sum) } else { None }
    }

    /// The message on a stream is whole (RFC 9114, section 4.1). It takes no memory. Refused are first every call after a connection fault,
    /// then a stream that is not open. Next is one whose final header section was not sent, or whose sending has ended. An endpoint that
    /// asks for strict messages last refuses one whose header section said more content than was sent (section 4.1.2).
    pub fn finish(&mut self, id: StreamId) -> Result<(), Refusal>
        ensures { Finishes self.old self.new id result }
    {
        if let Some(code) = self.closed {
            return Err(Refusal::Closed(code));
        }
        self.finish_stream(id)
    }

    // The message on a stream is whole if its stream takes an end, with one look-up.
    fn finish_stream(&mut self, id: StreamId) -> Result<(), Refusal>
        ensures rest { self.new ≡ record self.old { requests = self.new.requests } }
        ensures ok { OnOk result
            (IfSome (kept_at self.old.requests id)
            (λ r. Sets self.old.requests self.new.requests id (record r { outgoing = has_ended r.outgoing }))) }
        ensures rule { call_refused result ≡ end_refused_at (kept_at self.old.requests id) }
        ensures err { OnErr result (AllSame self.old.requests self.new.requests) }
    {
        self.requests.finish_stream(id)
    }

    /// Sending on a stream ends here, and what waits is dropped. It takes no memory. Refused are first every call after a connection fault,
    /// then a stream that the connection needs, then one that is not open. Last is one of which nothing is left to be sent.
    pub fn reset(&mut self, id: StreamId) -> Result<(), Refusal>
        ensures { Resets self.old self.new id result }
    {
        if let Some(refusal) = self.critical_refusal(id) {
            return Err(refusal);
        }
        self.reset_stream(id)
    }

    // Sending on a stream ends if something is left to be sent on it, with one look-up.
    fn reset_stream(&mut self, id: StreamId) -> Result<(), Refusal>
        ensures rest { self.new ≡ record self.old { requests = self.new.requests } }
        ensures ok { OnOk result
            (IfSome (kept_at self.old.requests id)
            (λ r. Sets self.old.requests self.new.requests id (record r { outgoing = was_cut_off r.outgoing }))) }
        ensures rule { call_refused result ≡ reset_refused_at (kept_at self.old.requests id) }
        ensures err { OnErr result (AllSame self.old.requests self.new.requests) }
    {
        self.requests.reset_stream(id)
    }

    // RFC 9114 6.2.1: a critical stream reset or canceled
    // Why a stream is neither reset nor given up, whatever is stored of it.
    pub(super) fn critical_refusal(&self, id: StreamId) -> Option<Refusal>
        ensures { result ≡ critical_refused self.now id }
    {
        if let Some(code) = self.closed {
            return Some(Refusal::Closed(code));
        }
        if self.streams.is_critical(self.side, id) {
            return Some(Refusal::Critical);
        }
        None
    }

    /// Takes no request from this id on, or, of a client, no push (RFC 9114, section 5.2). Refused are, in this order, every call
    /// after a connection fault, of a server the id of no request stream, and an id above that of an earlier call.
    pub fn goaway(&mut self, id: VarInt) -> Result<(), Refusal>
        ensures { GoesAway self.old self.new id result }
    {
        if let Some(refusal) = self.goaway_refusal(id) {
            return Err(refusal);
        }
        let Ok(()) = write_goaway(&mut self.streams, self.alloc, id) else {
            return Err(Refusal::OutOfMemory);
        };
        self.last_goaway = Some(id);
        Ok(())
    }

    // RFC 9114 5.2: GOAWAY raised, sent
    fn goaway_refusal(&self, id: VarInt) -> Option<Refusal>
        ensures { result ≡ goaway_refused self.now id }
    {
        if let Some(code) = self.closed {
            return Some(Refusal::Closed(code));
        }
        let number = id.into_inner();
        if is_server(self.side) && number % 4 != 0 {
            return Some(Refusal::NotRequestId);
        }
        if let Some(earlier) = self.last_goaway {
            if number > earlier.into_inner() {
                return Some(Refusal::Raised(earlier.into_inner()));
            }
        }
        None
    }

    /// Takes the first bytes that wait on a stream, at most all. Its turn is over then (`next_by_priority`). It takes no memory.
    pub fn advance(&mut self, id: StreamId, count: usize)
        ensures { Advances self.old self.new id count }
    {
        if self.order.rounds.is_some() {
            self.advance_in_turn(id, count);
            return;
        }
        self.take_bytes(id, count);
    }

    // The same if turns count. (a function of its own: while no priority was set nothing is spent on turns)
    #[inline(never)]
    fn advance_in_turn(&mut self, id: StreamId, count: usize)
        ensures { Advances self.old self.new id count }
    {
        self.end_turn(id, count);
        self.take_bytes(id, count);
    }

    // Takes these bytes, and ends no turn.
    #[inline(always)]
    fn take_bytes(&mut self, id: StreamId, count: usize)
        ensures { TakesBytes self.old self.new id count }
    {
        if self.advance_request(id, count) {
            return;
        }
        self.advance_own(id, count);
    }

    // Takes the first bytes that wait on a request stream, and answers whether that is there, with one look-up.
    #[inline(always)]
    fn advance_request(&mut self, id: StreamId, count: usize) -> bool
        ensures there { result ≡ true → TakesBytes self.old self.new id count }
        ensures absent { result ≡ false → sender_in self.old id ≡ None }
        ensures none { result ≡ false → self.new ≡ self.old }
    {
        self.requests.advance(id, count)
    }

    fn advance_own(&mut self, id: StreamId, count: usize)
        requires { sender_in self.old id ≡ None }
        ensures { TakesBytes self.old self.new id count }
    {
        let waiting = self.own_outgoing(id).len();
        take_own(&mut self.streams, self.side, id, count.min(waiting));
    }

    /// Some of the bytes that wait on a stream, from the first on. Empty exactly if nothing waits, or first a payload that the caller
    /// holds.
    #[tactic(auto, using(crate::proofs::Taking::lends_request, crate::proofs::Taking::lends_own, crate::proofs::Taking::lends_all))]
    pub fn outgoing(&self, id: StreamId) -> &[u8]
        ensures lends { HoldsNone self.now id → LendsOutgoing self.now id result.now }
        ensures front { LendsFront self.now id result.now }
    {
        match self.sender(id) {
            Some(stream) => stream.outgoing(),
            None => as_bytes(self.own_outgoing(id)),
        }
    }

    /// The same bytes as the `Bytes` in which a body was passed to `send_body`, as what is left of it: a clone copies nothing. None: first
    /// wait bytes of the endpoint's own, as a frame's type and length or a field section, or a payload that the caller holds. `outgoing`
    /// lends these of its own.
    #[tactic(auto, using(crate::proofs::Taking::lends_request, crate::proofs::Taking::lends_all))]
    pub fn outgoing_body(&self, id: StreamId) -> Option<&Bytes>
        ensures lends { HoldsNone self.now id → IfSome result (λ body. LendsOutgoing self.now id body.now) }
        ensures front { IfSome result (λ body. LendsFront self.now id body.now) }
    {
        let stream = self.sender(id)?;
        let body = stream.outgoing_body()?;
        Some(body)
    }

    /// How many bytes wait on a stream.
    #[tactic(auto, using(crate::proofs::Taking::shows_request, crate::proofs::Taking::shows_own))]
    pub fn waiting(&self, id: StreamId) -> usize
        ensures { ShowsWaiting self.now id result }
    {
        match self.sender(id) {
            Some(stream) => stream.waiting(),
            None => self.own_outgoing(id).len(),
        }
    }

    // What is sent on a request stream, if it is there.
    pub(super) fn sender(&self, id: StreamId) -> Option<&OutgoingStream>
        ensures { option_copied result ≡ sender_in self.now id }
    {
        self.requests.outgoing(id)
    }

    // What waits on a local control, encoder or decoder stream, and nothing on any other stream.
    pub(super) fn own_outgoing(&self, id: StreamId) -> &[u8]
        ensures { result.now ≡ waiting_on self.now.own self.now.side id }
    {
        self.streams.own.outgoing(self.side, id)
    }
}

pub(super) fn is_server(side: Side) -> bool
    ensures { result ≡ not (is_client side) }
{
    match side {
        Side::Client => false,
        Side::Server => true,
    }
}

/// Writes a GOAWAY frame on the local control stream. A refusal changes nothing.
fn write_goaway(
    streams: &mut ConnectionStreams,
    alloc: Global,
    id: VarInt,
) -> Result<(), AllocError>
    ensures ok { OnOk result
        (streams.new ≡ record streams.old { own = record streams.old.own { control = streams.old.own.control ++ goaway_encoding id } }) }
    ensures err { OnErr result (streams.new ≡ streams.old) }
{
    streams.own.goaway(alloc, id)
}

/// Takes the first `count` bytes that wait on a local control, encoder or decoder stream.
fn take_own(streams: &mut ConnectionStreams, side: Side, id: StreamId, count: usize)
    requires { count ≤ length (waiting_on streams.old.own side id) }
    ensures { streams.new ≡ record streams.old { own = having_taken streams.old.own side id count } }
{
    streams.own.advance(side, id, count);
}
