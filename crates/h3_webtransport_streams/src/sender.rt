//! What is sent on a stream of a session.
ghost use Rattle.std.specs.Prelude.{◌≡◌, ◌≤◌, ◌++◌, [], length, take, drop, min, unwrap_or, Some, None, IfErr, IfOk, OnOk};
ghost use Rattle.h3_connection.specs.Answers.{call_refused};
ghost use Rattle.h3_connection.specs.declared.event.Refusal.TheVariants.{OutOfMemory};
ghost use Rattle.h3_webtransport_streams.specs.Sender.{beginning, cut_off, end_told, finished, goes_on, has_to_send, held, is_end_next};
ghost use Rattle.h3_webtransport_streams.specs.Sender.{is_sent_off, sends, sent, taken};

use bytes::{Buf, Bytes};
use h3_connection::event::Refusal;
use h3_frames::buf::BufList;
use std::alloc::{AllocError, Global};
use std::marker::Model;

/// The half of a stream that is sent. A contract sees it as the definitions' `Sender`.
#[derive(Drop)]
pub(crate) struct SendingHalf {
    waiting: BufList<Bytes>,
    is_finished: bool,
    is_reset: bool,
    end_taken: bool,
    is_held: bool,
}

impl Model for SendingHalf {
    ghost use Rattle.std.specs.List.{concat};
    ghost use Rattle.h3_webtransport_streams.specs.Sender.{Sender};

    ghost Value = { Sender };

    ghost view = { λ s. record {
      waiting = concat s.waiting.pieces;
      is_finished = s.is_finished;
      is_reset = s.is_reset;
      end_taken = s.end_taken;
      is_held = s.is_held;
    } };
}

impl SendingHalf {
    /// Nothing was sent after this front.
    pub(crate) fn new(alloc: Global, front: Bytes) -> Result<SendingHalf, AllocError>
        ensures { IfOk result (λ half. half ≡ beginning front) }
    {
        let mut waiting = BufList::new(alloc);
        let Ok(()) = waiting.push(front) else {
            return Err(AllocError);
        };
        Ok(SendingHalf {
            waiting,
            is_finished: false,
            is_reset: false,
            end_taken: false,
            is_held: false,
        })
    }

    /// The same if the peer wrote the front. It takes no memory.
    pub(crate) fn behind_front(alloc: Global) -> SendingHalf
        ensures { result ≡ beginning [] }
    {
        SendingHalf {
            waiting: BufList::new(alloc),
            is_finished: false,
            is_reset: false,
            end_taken: false,
            is_held: false,
        }
    }

    /// Whether it was neither finished nor reset.
    pub(crate) fn goes_on(&self) -> bool
        ensures { result ≡ goes_on self.now }
    {
        !self.is_finished && !self.is_reset
    }

    /// Whether it was finished.
    pub(crate) fn is_finished(&self) -> bool
        ensures { result ≡ self.now.is_finished }
    {
        self.is_finished
    }

    /// Whether it was reset.
    pub(crate) fn is_reset(&self) -> bool
        ensures { result ≡ self.now.is_reset }
    {
        self.is_reset
    }

    /// How many bytes wait.
    pub(crate) fn waiting(&self) -> usize
        ensures { result ≡ length self.now.waiting }
    {
        self.waiting.remaining()
    }

    fn is_end_next(&self) -> bool
        ensures { result ≡ is_end_next self.now }
    {
        self.is_finished && !self.end_taken && self.waiting.remaining() == 0
    }

    /// Whether bytes wait, or the end.
    pub(crate) fn has_to_send(&self) -> bool
        ensures { result ≡ has_to_send self.now }
    {
        self.waiting.remaining() > 0 || (self.is_finished && !self.end_taken)
    }

    /// Whether it does, and is not held.
    pub(crate) fn sends(&self) -> bool
        ensures { result ≡ sends self.now }
    {
        !self.is_held && self.has_to_send()
    }

    /// Sends bytes. They come back where they are refused: sending has ended, or an allocation failed.
    pub(crate) fn send(&mut self, bytes: Bytes) -> Result<(), (Refusal, Bytes)>
        ensures ok { OnOk result (sent self.old bytes ≡ (None, self.new)) }
        ensures why { IfErr result (λ e. e.0 ≡ unwrap_or (sent self.old bytes).0 OutOfMemory) }
        ensures err { IfErr result (λ e. (e.1 ≡ bytes) × (self.new ≡ self.old)) }
    {
        if !self.goes_on() {
            return Err((Refusal::OutOfOrder, bytes));
        }
        if self.waiting.remaining().checked_add(bytes.len()).is_none() {
            return Err((Refusal::OutOfMemory, bytes));
        }
        match self.waiting.keep(bytes) {
            Ok(()) => Ok(()),
            Err(refused) => Err((Refusal::OutOfMemory, refused.value)),
        }
    }

    /// All was sent.
    pub(crate) fn finish(&mut self) -> Result<(), Refusal>
        ensures { finished self.old ≡ (call_refused result, self.new) }
    {
        if !self.goes_on() {
            return Err(Refusal::OutOfOrder);
        }
        self.is_finished = true;
        Ok(())
    }

    /// Sending ends here, and what waits is dropped.
    pub(crate) fn reset(&mut self, alloc: Global) -> Result<(), Refusal>
        ensures { cut_off self.old ≡ (call_refused result, self.new) }
    {
        if self.is_reset || (self.is_finished && self.waiting.remaining() == 0) {
            return Err(Refusal::Ended);
        }
        self.waiting = BufList::new(alloc);
        self.is_finished = false;
        self.is_reset = true;
        Ok(())
    }

    /// Copies the first bytes that wait to the front of `out`, as many as fit, and says how many. The rest of `out` stays.
    pub(crate) fn copy_to(&self, out: &mut [u8]) -> usize
        ensures count { result ≡ min (length self.now.waiting) (length out.old) }
        ensures front { out.new ≡ take (length out.old) self.now.waiting ++ drop (length self.now.waiting) out.old }
    {
        let count = self.waiting.remaining().min(out.len());
        let mut cursor = self.waiting.cursor();
        cursor.copy_to_slice(&mut out[..count]);
        count
    }

    /// Takes the first bytes.
    pub(crate) fn advance(&mut self, count: usize)
        requires { count ≤ length self.old.waiting }
        ensures { self.new ≡ taken self.old count }
    {
        self.waiting.advance(count);
    }

    /// QUIC took the end, if that was next: it answers whether it was.
    pub(crate) fn end_taken(&mut self) -> bool
        ensures { end_told self.old ≡ (result, self.new) }
    {
        if !self.is_end_next() {
            return false;
        }
        self.end_taken = true;
        true
    }

    /// QUIC has no credit for it, or has it again.
    pub(crate) fn hold(&mut self, is_held: bool)
        ensures { self.new ≡ held self.old is_held }
    {
        self.is_held = is_held;
    }
}
