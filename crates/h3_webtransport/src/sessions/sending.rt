//! What is sent on streams, those of sessions among them.
ghost use Rattle.std.specs.Prelude.{◌≡◌, ◌≤◌, ◌+◌, ◌==◌, ◌&&◌, [], length, is_some, true, false};
ghost use Rattle.h3_webtransport_streams.specs.SessionStream.{passes, receiver_of, sender_of};
ghost use Rattle.h3_connection.specs.Answers.{call_refused};
ghost use Rattle.h3_connection.specs.ReadingContracts.{ShowsFinished, ShowsOutgoing, ShowsReset, ShowsWaiting};
ghost use Rattle.h3_session.specs.Copied.{CopiesTo, TellsEnd};
ghost use Rattle.h3_webtransport.specs.Closing.{ClosesOn, ClosesRaw, EndsRequest, Forgets, GivesUpRequest, Stops, StopsBehind, StopsOneWay};
ghost use Rattle.h3_webtransport.specs.Closing.{StopsRequest, closed_as, dropped_as, ended_as, is_cut, resets_raw};
ghost use Rattle.h3_webtransport.specs.Joint.{has_stream, stored_at};
ghost use Rattle.h3_webtransport.specs.Sending.{raw_finished, raw_refusal, raw_reset, raw_waiting, CopiesRaw, FinishesOn, ResetsOn};
ghost use Rattle.h3_webtransport.specs.Sending.{SendsRaw, TakesEndOn};

use super::Sessions;
use super::keeping::{drop_one_way, read_kept};
use bytes::Bytes;
use h3_connection::event::{DeliverError, Refusal};
use h3_proto::error::Code;
use h3_proto::stream::StreamId;
use h3_session::endpoint::{ClosedStream, Endpoint};

// What comes on a stream that the endpoint reads as a request is given up. What was kept is read first, so that nothing of it is kept.
#[tactic(auto, using(crate::proofs::GivingUp::stops_behind, crate::proofs::GivingUp::stops_not))]
fn stop_behind(endpoint: &mut Endpoint, id: StreamId) -> Result<bool, Refusal>
    ensures { StopsBehind endpoint.old endpoint.new id result }
{
    match read_kept(endpoint) {
        Ok(()) => stop_request(endpoint, id),
        Err(refusal) => Err(refusal),
    }
}

// Nothing more of it is delivered, so it ends there.
#[tactic(auto, using(crate::proofs::GivingUp::ends_now, crate::proofs::GivingUp::ended_before))]
fn stop_request(endpoint: &mut Endpoint, id: StreamId) -> Result<bool, Refusal>
    ensures { StopsRequest endpoint.old endpoint.new id result }
{
    let why = endpoint.bytes_refusal(id);
    if why.is_none() {
        return end_request(endpoint, id);
    }
    give_up_request(endpoint, id)
}

// Its end is still to come: it ends as if its sender had reset it.
#[tactic(auto, using(crate::proofs::GivingUp::ends_it, crate::proofs::GivingUp::ends_not))]
fn end_request(endpoint: &mut Endpoint, id: StreamId) -> Result<bool, Refusal>
    ensures { EndsRequest endpoint.old endpoint.new id result }
{
    let reset = endpoint.deliver_reset(id, Code::H3_REQUEST_CANCELLED.value());
    let ended = ended_as(&reset);
    if ended.is_ok() {
        // (refused if no message goes out on it)
        let _reset = endpoint.reset(id);
    }
    ended
}

// What this call answers by that of the reset. One that is kept is stored: nothing but it comes of the stream.
fn ended_as(reset: &Result<(), DeliverError>) -> Result<bool, Refusal>
    ensures { result ≡ ended_as reset.now }
{
    match reset {
        Ok(()) => Ok(true),
        Err(error) => match error {
            DeliverError::Refused(refusal) => Err(closed_as(*refusal)),
            DeliverError::OutOfMemory(_) => Err(Refusal::OutOfMemory),
            DeliverError::Kept => Ok(true),
        },
    }
}

// A fault that a delivery found has closed the connection.
fn closed_as(refusal: Refusal) -> Refusal
    ensures { result ≡ closed_as refusal }
{
    match refusal {
        Refusal::Connection(code) => Refusal::Closed(code),
        other => other,
    }
}

// Its end came, or nothing comes: what was not pulled is dropped.
fn give_up_request(endpoint: &mut Endpoint, id: StreamId) -> Result<bool, Refusal>
    ensures { GivesUpRequest endpoint.old endpoint.new id result }
{
    match endpoint.close_stream(id) {
        Ok(frames) => Ok(frames.stop_sending),
        Err(refusal) => Err(refusal),
    }
}

// What comes on a stream that goes one way is given up, if the endpoint reads it.
fn stop_one_way(endpoint: &mut Endpoint, id: StreamId) -> Result<bool, Refusal>
    ensures { StopsOneWay endpoint.old endpoint.new id result }
{
    let why = endpoint.bytes_refusal(id);
    let dropped = drop_one_way(endpoint, id);
    dropped_as(&dropped, why)
}

// What this call answers by that of the drop: any other refusal says that there was nothing to drop.
fn dropped_as(dropped: &Result<(), Refusal>, why: Option<Refusal>) -> Result<bool, Refusal>
    ensures { result ≡ dropped_as (call_refused dropped.now) why }
{
    match dropped {
        Ok(()) => Ok(why.is_none()),
        Err(refusal) => match refusal {
            Refusal::OutOfMemory => Err(Refusal::OutOfMemory),
            Refusal::Closed(code) => Err(Refusal::Closed(*code)),
            _ => Ok(why.is_none()),
        },
    }
}

impl Sessions {
    /// Sends bytes on a stream of a session, as they are. Refused are first every call after a connection fault, then a stream of no
    /// session, and one that this side did not open and that goes one way. Next is one that was finished or reset. `OutOfMemory` comes
    /// last. Refused bytes come back.
    #[tactic(auto, using(crate::proofs::Parting::sends_closed, crate::proofs::Parting::sends_here))]
    pub fn send_raw(
        &mut self,
        endpoint: &Endpoint,
        id: StreamId,
        bytes: Bytes,
    ) -> Result<(), (Refusal, Bytes)>
        ensures { SendsRaw endpoint.now self.old self.new id bytes result }
    {
        if let Some(code) = endpoint.fault() {
            return Err((Refusal::Closed(code), bytes));
        }
        self.streams.send(id, bytes)
    }

    /// Why `send_raw` refuses bytes on a stream, out of memory aside.
    pub fn raw_refusal(&self, endpoint: &Endpoint, id: StreamId) -> Option<Refusal>
        ensures { result ≡ raw_refusal endpoint.now.closed (stored_at self.now id) [] }
    {
        if let Some(code) = endpoint.fault() {
            return Some(Refusal::Closed(code));
        }
        self.streams.send_refusal(id)
    }

    /// All was sent on a stream.
    #[tactic(auto, using(crate::proofs::Parting::part_here, crate::proofs::Parting::part_elsewhere, crate::proofs::Parting::is_closed, crate::proofs::Parting::is_open))]
    pub fn finish(&mut self, endpoint: &mut Endpoint, id: StreamId) -> Result<(), Refusal>
        ensures { FinishesOn endpoint.old endpoint.new self.old self.new id result }
    {
        if !self.has(id) {
            return endpoint.finish(id);
        }
        if let Some(code) = endpoint.fault() {
            return Err(Refusal::Closed(code));
        }
        self.streams.finish(id)
    }

    /// Sending on a stream ends here, and what waits is dropped.
    #[tactic(auto, using(crate::proofs::Parting::part_here, crate::proofs::Parting::part_elsewhere, crate::proofs::Parting::is_closed, crate::proofs::Parting::is_open))]
    pub fn reset(&mut self, endpoint: &mut Endpoint, id: StreamId) -> Result<(), Refusal>
        ensures { ResetsOn endpoint.old endpoint.new self.old self.new id result }
    {
        if !self.has(id) {
            return endpoint.reset(id);
        }
        if let Some(code) = endpoint.fault() {
            return Err(Refusal::Closed(code));
        }
        self.streams.reset(id)
    }

    /// Gives a stream up both ways, as that of the endpoint does. Nothing is kept of a stream of a session then: also call it when QUIC has
    /// closed such a stream. What came on it and was not pulled is dropped, and so is a FIN that QUIC did not take: RESET_STREAM is to be
    /// sent then. What was kept, as an allocation failed before, is read first. After `OutOfMemory` the stream is as it was: the same call
    /// again does what this one would have done.
    #[tactic(auto, using(crate::proofs::Parting::part_here, crate::proofs::Parting::part_elsewhere, crate::proofs::Parting::is_closed, crate::proofs::Parting::is_open))]
    pub fn close_stream(
        &mut self,
        endpoint: &mut Endpoint,
        id: StreamId,
    ) -> Result<ClosedStream, Refusal>
        ensures { ClosesOn endpoint.old endpoint.new self.old self.new id result }
    {
        if !self.has(id) {
            return endpoint.close_stream(id);
        }
        if let Some(code) = endpoint.fault() {
            return Err(Refusal::Closed(code));
        }
        self.close_here(endpoint, id)
    }

    // The same of a stream of a session, of a connection that is open.
    #[tactic(auto, using(crate::proofs::GivingUp::closes_both, crate::proofs::GivingUp::closes_none))]
    fn close_here(&mut self, endpoint: &mut Endpoint, id: StreamId) -> Result<ClosedStream, Refusal>
        ensures { ClosesRaw endpoint.old endpoint.new self.old self.new id result }
    {
        let stop_sending = match self.stop(endpoint, id) {
            Ok(stop_sending) => stop_sending,
            Err(refusal) => return Err(refusal),
        };
        let reset_stream = self.give_up(id);
        Ok(ClosedStream {
            stop_sending,
            reset_stream,
        })
    }

    // Nothing is kept of a stream. Answers whether RESET_STREAM is to be sent: what waits is dropped, and a FIN that QUIC did not take. On
    // a stream that a server opened its client has sent nothing while no session of it is known.
    fn give_up(&mut self, id: StreamId) -> bool
        ensures is { result ≡ resets_raw self.old id }
        ensures forgets { Forgets self.old self.new id }
    {
        let is_unheard = self.is_server_opened(id) && !self.streams.has_sender(id);
        let is_cut = self.cut(id);
        is_unheard || is_cut
    }

    // Nothing is kept of a stream. Answers whether bytes or an end waited on it, or it could have gone on.
    #[tactic(auto, using(crate::proofs::GivingUp::cuts_here, crate::proofs::GivingUp::forgets_all, crate::proofs::Pulling::twice_alone))]
    fn cut(&mut self, id: StreamId) -> bool
        ensures is { result ≡ passes is_cut (sender_of (stored_at self.old id)) }
        ensures forgets { Forgets self.old self.new id }
    {
        let end_waits = self.streams.end_taken(id);
        let reset = self.streams.reset(id);
        self.streams.forget(id);
        end_waits || reset.is_ok()
    }

    // What comes on a stream of a session is given up, by the endpoint if it reads it. Answers whether the end or a reset is still to come.
    #[tactic(auto, using(crate::proofs::GivingUp::stops_here, crate::proofs::GivingUp::stops_request, crate::proofs::GivingUp::stops_one_way))]
    fn stop(&self, endpoint: &mut Endpoint, id: StreamId) -> Result<bool, Refusal>
        ensures { Stops (receiver_of (stored_at self.now id)) endpoint.old endpoint.new id result }
    {
        if self.streams.receives(id) {
            return Ok(self.streams.arrival_refusal(id).is_none());
        }
        if !id.is_request() {
            return stop_one_way(endpoint, id);
        }
        stop_behind(endpoint, id)
    }

    /// Whether anything can be sent on a stream.
    pub fn has_outgoing(&self, endpoint: &Endpoint, id: StreamId) -> bool
        ensures own { has_stream self.now id ≡ true → result ≡ is_some (sender_of (stored_at self.now id)) }
        ensures other { has_stream self.now id ≡ false → ShowsOutgoing endpoint.now id result }
    {
        if self.has(id) {
            return self.streams.has_sender(id);
        }
        endpoint.has_outgoing(id)
    }

    /// Whether sending on a stream was finished.
    pub fn is_finished(&self, endpoint: &Endpoint, id: StreamId) -> bool
        ensures own { has_stream self.now id ≡ true → result ≡ raw_finished self.now id }
        ensures other { has_stream self.now id ≡ false → ShowsFinished endpoint.now id result }
    {
        if self.has(id) {
            return self.streams.is_finished(id);
        }
        endpoint.is_finished(id)
    }

    /// Whether sending on a stream was reset.
    pub fn is_reset(&self, endpoint: &Endpoint, id: StreamId) -> bool
        ensures own { has_stream self.now id ≡ true → result ≡ raw_reset self.now id }
        ensures other { has_stream self.now id ≡ false → ShowsReset endpoint.now id result }
    {
        if self.has(id) {
            return self.streams.is_reset(id);
        }
        endpoint.is_reset(id)
    }

    /// How many bytes wait on a stream.
    #[inline(always)]
    pub fn waiting(&self, endpoint: &Endpoint, id: StreamId) -> usize
        ensures own { has_stream self.now id ≡ true → result ≡ length (raw_waiting self.now id) }
        ensures other { has_stream self.now id ≡ false → ShowsWaiting endpoint.now id result }
    {
        if self.has(id) {
            return self.streams.waiting(id);
        }
        endpoint.waiting(id)
    }

    /// Copies the first bytes that wait on a stream to the front of `out`, as that of the endpoint does.
    #[inline(always)]
    pub fn copy_with_end(
        &self,
        endpoint: &Endpoint,
        id: StreamId,
        out: &mut [u8],
    ) -> (usize, usize, bool)
        ensures own { has_stream self.now id ≡ true → CopiesRaw self.now id out.old out.new result.0 result.1 result.2 }
        ensures other { has_stream self.now id ≡ false → CopiesTo endpoint.now id result.0 result.1 out.old out.new
            × TellsEnd endpoint.now id (result.0 + result.1) result.2 }
        ensures within { result.0 ≤ length out.old }
    {
        if !self.has(id) {
            return endpoint.copy_with_end(id, out);
        }
        let count = self.streams.copy_to(id, out);
        (count, 0, self.ends_with(id, count))
    }

    // Whether so many bytes are all that wait on a stream of a session, and it was finished.
    fn ends_with(&self, id: StreamId, count: usize) -> bool
        ensures { result ≡ (raw_finished self.now id && (length (raw_waiting self.now id) == count)) }
    {
        if !self.streams.is_finished(id) {
            return false;
        }
        self.streams.waiting(id) == count
    }

    /// QUIC took the FIN of a stream.
    #[inline(always)]
    #[tactic(auto, using(crate::proofs::Parting::part_here, crate::proofs::Parting::part_elsewhere))]
    pub fn end_taken(&mut self, endpoint: &mut Endpoint, id: StreamId) -> bool
        ensures { TakesEndOn endpoint.old endpoint.new self.old self.new id result }
    {
        if self.has(id) {
            return self.streams.end_taken(id);
        }
        endpoint.end_taken(id)
    }
}
