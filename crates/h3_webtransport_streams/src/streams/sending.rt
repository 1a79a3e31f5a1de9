//! What is sent on streams of sessions.
ghost use Rattle.std.specs.Prelude.{◌≡◌, ◌++◌, [], length, take, drop, is_some, min, unwrap_or, true, false, Some, None, IfErr, OnOk};
ghost use Rattle.h3_connection.specs.Answers.{call_refused};
ghost use Rattle.h3_connection.specs.Calls.{AllSame};
ghost use Rattle.h3_connection.specs.State.{kept_at};
ghost use Rattle.h3_connection.specs.declared.event.Refusal.TheVariants.{NotOpen, OutOfMemory};
ghost use Rattle.h3_webtransport_streams.specs.Sender.{cut_off, end_told, finished, goes_on, held, sent};
ghost use Rattle.h3_webtransport_streams.specs.SessionStream.{Acts, Changes, answer_at, passes, sender_of, sending, takes, takes_turns};
ghost use Rattle.h3_webtransport_streams.specs.SessionStream.{waiting_of};
ghost use Rattle.h3_webtransport_streams.specs.Sessions.{IsTurn, turn_over};

use super::{SessionStreams, map};
use bytes::Bytes;
use h3_connection::event::Refusal;
use h3_proto::stream::StreamId;

impl SessionStreams {
    /// Whether this side sends on a stream, and neither finished nor reset it.
    pub fn goes_on(&self, id: StreamId) -> bool
        ensures { result ≡ passes goes_on (sender_of (kept_at self.now.streams id)) }
    {
        match map::get(&self.streams, id) {
            Some(stream) => stream.goes_on(),
            None => false,
        }
    }

    /// Whether this side sends on a stream.
    pub fn has_sender(&self, id: StreamId) -> bool
        ensures { result ≡ is_some (sender_of (kept_at self.now.streams id)) }
    {
        match map::get(&self.streams, id) {
            Some(stream) => stream.has_sender(),
            None => false,
        }
    }

    /// Whether sending on a stream was finished.
    pub fn is_finished(&self, id: StreamId) -> bool
        ensures { result ≡ passes (λ s. s.is_finished) (sender_of (kept_at self.now.streams id)) }
    {
        match map::get(&self.streams, id) {
            Some(stream) => stream.is_finished(),
            None => false,
        }
    }

    /// Whether sending on a stream was reset.
    pub fn is_reset(&self, id: StreamId) -> bool
        ensures { result ≡ passes (λ s. s.is_reset) (sender_of (kept_at self.now.streams id)) }
    {
        match map::get(&self.streams, id) {
            Some(stream) => stream.is_reset(),
            None => false,
        }
    }

    /// How many bytes wait on a stream.
    pub fn waiting(&self, id: StreamId) -> usize
        ensures { result ≡ length (waiting_of (sender_of (kept_at self.now.streams id))) }
    {
        match map::get(&self.streams, id) {
            Some(stream) => stream.waiting(),
            None => 0,
        }
    }

    /// Copies the first bytes that wait on a stream to the front of `out`, as many as fit, and says how many. The rest of `out` stays, and
    /// they keep waiting.
    pub fn copy_to(&self, id: StreamId, out: &mut [u8]) -> usize
        ensures count { result ≡ min (length (waiting_of (sender_of (kept_at self.now.streams id)))) (length out.old) }
        ensures front { out.new ≡ take (length out.old) (waiting_of (sender_of (kept_at self.now.streams id)))
            ++ drop (length (waiting_of (sender_of (kept_at self.now.streams id)))) out.old }
    {
        match map::get(&self.streams, id) {
            Some(stream) => stream.copy_to(out),
            None => 0,
        }
    }

    /// Why bytes are refused on a stream, out of memory aside.
    pub fn send_refusal(&self, id: StreamId) -> Option<Refusal>
        ensures { result ≡ answer_at (Some NotOpen) (sending (Some NotOpen) (λ s. sent s [])) (kept_at self.now.streams id) }
    {
        match map::get(&self.streams, id) {
            Some(stream) => stream.send_refusal(),
            None => Some(Refusal::NotOpen),
        }
    }

    /// Sends bytes on a stream as they are. Refused are first a stream on which this side does not send, then one that was finished or
    /// reset. `OutOfMemory` comes last. Refused bytes come back.
    #[tactic(auto, using(crate::proofs::Indexing::sent_but))]
    pub fn send(&mut self, id: StreamId, bytes: Bytes) -> Result<(), (Refusal, Bytes)>
        ensures ok { OnOk result (Acts (Some NotOpen) (sending (Some NotOpen)
            (λ s. sent s bytes)) self.old.streams self.new.streams id None) }
        ensures why { IfErr result (λ e. e.0 ≡ unwrap_or (answer_at (Some NotOpen) (sending (Some NotOpen) (λ s. sent s bytes))
            (kept_at self.old.streams id)) OutOfMemory) }
        ensures err { IfErr result (λ e. (e.1 ≡ bytes) × AllSame self.old.streams self.new.streams) }
        ensures rest { self.new ≡ record self.old { streams = self.new.streams } }
    {
        let sent = map::send(&mut self.streams, id, bytes);
        map::settle(&mut self.turns, &self.streams, id);
        sent
    }

    /// All was sent on a stream. Refused are first one on which this side does not send, then one that was finished or reset.
    pub fn finish(&mut self, id: StreamId) -> Result<(), Refusal>
        ensures acts { Acts (Some NotOpen) (sending (Some NotOpen) finished) self.old.streams self.new.streams id (call_refused result) }
        ensures rest { self.new ≡ record self.old { streams = self.new.streams } }
    {
        let finished = map::finish(&mut self.streams, id);
        map::settle(&mut self.turns, &self.streams, id);
        finished
    }

    /// Sending on a stream ends here, and what waits is dropped. Refused are first one on which this side does not send, then one of which
    /// nothing is left to be sent.
    pub fn reset(&mut self, id: StreamId) -> Result<(), Refusal>
        ensures acts { Acts (Some NotOpen) (sending (Some NotOpen) cut_off) self.old.streams self.new.streams id (call_refused result) }
        ensures rest { self.new ≡ record self.old { streams = self.new.streams } }
    {
        let alloc = self.alloc;
        let reset = map::reset(&mut self.streams, alloc, id);
        map::settle(&mut self.turns, &self.streams, id);
        reset
    }

    /// Takes the first bytes that wait on a stream, at most all. Its turn is over then.
    #[tactic(auto, using(crate::proofs::Indexing::changes_but))]
    pub fn advance(&mut self, id: StreamId, count: usize)
        ensures acts { Changes (λ s. takes s count) self.old.streams self.new.streams id }
        ensures rest { self.new ≡ record self.old { streams = self.new.streams; from = turn_over self.old.from id count } }
    {
        self.from = turn_over(self.from, id, count);
        map::advance(&mut self.streams, id, count);
        map::settle(&mut self.turns, &self.streams, id);
    }

    /// QUIC took the end of a stream, if that was next: it answers whether it was.
    #[tactic(auto, using(crate::proofs::Indexing::acts_but))]
    pub fn end_taken(&mut self, id: StreamId) -> bool
        ensures acts { Acts false (sending false end_told) self.old.streams self.new.streams id result }
        ensures rest { self.new ≡ record self.old { streams = self.new.streams } }
    {
        let is_taken = map::end_taken(&mut self.streams, id);
        map::settle(&mut self.turns, &self.streams, id);
        is_taken
    }

    /// QUIC has no credit for a stream, or has it again. It answers whether this side sends on it.
    #[tactic(auto, using(crate::proofs::Indexing::acts_but))]
    pub fn hold(&mut self, id: StreamId, is_held: bool) -> bool
        ensures acts { Acts false (sending false (λ s. (true, held s is_held))) self.old.streams self.new.streams id result }
        ensures rest { self.new ≡ record self.old { streams = self.new.streams } }
    {
        let sends = map::hold(&mut self.streams, id, is_held);
        map::settle(&mut self.turns, &self.streams, id);
        sends
    }

    /// The stream whose turn it is, of those on which bytes or an end wait and which are not held. They take turns from the greatest id
    /// down: one that is opened with a greater id waits for the next round, so each that waits has its turn. It goes over none of the
    /// others: it is found by binary search.
    #[tactic(auto, using(crate::proofs::Indexing::same_turn))]
    pub fn next_in_turn(&self) -> Option<u64>
        ensures { IsTurn (λ id. passes takes_turns (kept_at self.now.streams id)) self.now.from result }
    {
        self.turns.next(self.from)
    }
}

// The next turn is below this stream, if bytes of it were taken.
fn turn_over(from: u64, id: StreamId, count: usize) -> u64
    ensures { result ≡ turn_over from id count }
{
    if count == 0 {
        return from;
    }
    id.into_inner()
}
