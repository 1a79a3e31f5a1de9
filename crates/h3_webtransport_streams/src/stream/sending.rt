//! The half of a stream that is sent.
ghost use Rattle.std.specs.Prelude.{◌≡◌, ◌≤◌, ◌++◌, [], length, take, drop, is_some, min, unwrap_or, true, false, Some, None, IfErr, OnOk};
ghost use Rattle.h3_connection.specs.Answers.{call_refused};
ghost use Rattle.h3_connection.specs.declared.event.Refusal.TheVariants.{NotOpen, OutOfMemory};
ghost use Rattle.h3_webtransport_streams.specs.Sender.{cut_off, end_told, finished, goes_on, held, sent, taken};
ghost use Rattle.h3_webtransport_streams.specs.SessionStream.{passes, sending, takes, waiting_of};

use super::StoredStream;
use bytes::Bytes;
use h3_connection::event::Refusal;
use std::alloc::Global;

impl StoredStream {
    /// Whether this side sends on it, and did not end that.
    pub(crate) fn goes_on(&self) -> bool
        ensures { result ≡ passes goes_on self.now.sender }
    {
        match &self.sender {
            Some(sender) => sender.goes_on(),
            None => false,
        }
    }

    /// Whether this side sends on it.
    pub(crate) fn has_sender(&self) -> bool
        ensures { result ≡ is_some self.now.sender }
    {
        self.sender.is_some()
    }

    /// Whether sending was finished.
    pub(crate) fn is_finished(&self) -> bool
        ensures { result ≡ passes (λ s. s.is_finished) self.now.sender }
    {
        match &self.sender {
            Some(sender) => sender.is_finished(),
            None => false,
        }
    }

    /// Whether it was reset.
    pub(crate) fn is_reset(&self) -> bool
        ensures { result ≡ passes (λ s. s.is_reset) self.now.sender }
    {
        match &self.sender {
            Some(sender) => sender.is_reset(),
            None => false,
        }
    }

    /// How many bytes wait.
    pub(crate) fn waiting(&self) -> usize
        ensures { result ≡ length (waiting_of self.now.sender) }
    {
        match &self.sender {
            Some(sender) => sender.waiting(),
            None => 0,
        }
    }

    /// Copies the first bytes that wait to the front of `out`, as many as fit, and says how many. The rest of `out` stays.
    pub(crate) fn copy_to(&self, out: &mut [u8]) -> usize
        ensures count { result ≡ min (length (waiting_of self.now.sender)) (length out.old) }
        ensures front { out.new ≡ take (length out.old) (waiting_of self.now.sender) ++ drop (length (waiting_of self.now.sender)) out.old }
    {
        match &self.sender {
            Some(sender) => sender.copy_to(out),
            None => 0,
        }
    }

    /// Why bytes are refused, out of memory aside.
    pub(crate) fn send_refusal(&self) -> Option<Refusal>
        ensures { result ≡ (sending (Some NotOpen) (λ s. sent s []) self.now).0 }
    {
        match &self.sender {
            Some(sender) => {
                if sender.goes_on() {
                    None
                } else {
                    Some(Refusal::OutOfOrder)
                }
            }
            None => Some(Refusal::NotOpen),
        }
    }

    /// Sends bytes.
    pub(crate) fn send(&mut self, bytes: Bytes) -> Result<(), (Refusal, Bytes)>
        ensures ok { OnOk result (sending (Some NotOpen) (λ s. sent s bytes) self.old ≡ (None, self.new)) }
        ensures why { IfErr result (λ e. e.0 ≡ unwrap_or (sending (Some NotOpen) (λ s. sent s bytes) self.old).0 OutOfMemory) }
        ensures err { IfErr result (λ e. (e.1 ≡ bytes) × (self.new ≡ self.old)) }
    {
        match &mut self.sender {
            Some(sender) => sender.send(bytes),
            None => Err((Refusal::NotOpen, bytes)),
        }
    }

    /// All was sent.
    pub(crate) fn finish(&mut self) -> Result<(), Refusal>
        ensures { sending (Some NotOpen) finished self.old ≡ (call_refused result, self.new) }
    {
        match &mut self.sender {
            Some(sender) => sender.finish(),
            None => Err(Refusal::NotOpen),
        }
    }

    /// Sending ends here.
    pub(crate) fn reset(&mut self, alloc: Global) -> Result<(), Refusal>
        ensures { sending (Some NotOpen) cut_off self.old ≡ (call_refused result, self.new) }
    {
        match &mut self.sender {
            Some(sender) => sender.reset(alloc),
            None => Err(Refusal::NotOpen),
        }
    }

    /// Takes the first bytes that wait, at most all.
    pub(crate) fn advance(&mut self, count: usize)
        ensures { self.new ≡ takes self.old count }
    {
        if let Some(sender) = &mut self.sender {
            let waiting = sender.waiting();
            sender.advance(count.min(waiting));
        }
    }

    /// QUIC took the end, if that was next: it answers whether it was.
    pub(crate) fn end_taken(&mut self) -> bool
        ensures { sending false end_told self.old ≡ (result, self.new) }
    {
        match &mut self.sender {
            Some(sender) => sender.end_taken(),
            None => false,
        }
    }

    /// QUIC has no credit for it, or has it again. It answers whether this side sends on it.
    pub(crate) fn hold(&mut self, is_held: bool) -> bool
        ensures { sending false (λ s. (true, held s is_held)) self.old ≡ (result, self.new) }
    {
        match &mut self.sender {
            Some(sender) => {
                sender.hold(is_held);
                true
            }
            None => false,
        }
    }
}
