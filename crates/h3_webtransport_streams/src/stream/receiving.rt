//! The half of a stream that comes.
ghost use Rattle.std.specs.List.{concat};
ghost use Rattle.std.specs.Prelude.{◌≡◌, ◌+◌, ◌<◌, ◌^◌, length, is_some, Some, None, IfErr, IfOk, IfSome, IsSome};
ghost use Rattle.h3_connection.specs.Answers.{call_refused};
ghost use Rattle.h3_connection.specs.declared.event.Pull.TheVariants.{NoMessages};
ghost use Rattle.h3_connection.specs.declared.event.Refusal.TheVariants.{NotOpen};
ghost use Rattle.h3_webtransport_streams.specs.Begun.{begun_by, refusal_of};
ghost use Rattle.h3_webtransport_streams.specs.Closing.{closing};
ghost use Rattle.h3_webtransport_streams.specs.Receiver.{came, canceled, pulled};
ghost use Rattle.h3_webtransport_streams.specs.SessionStream.{gives_up, receiving, told_by, unread_of};

use super::StoredStream;
use crate::receiver::{Begun, ReceivingHalf};
use crate::sender::SendingHalf;
use bytes::Bytes;
use h3_connection::event::{Pull, Refusal};
use h3_proto::webtransport::SessionId;
use std::alloc::Global;

impl StoredStream {
    /// Whether what comes on it is read here.
    pub(crate) fn receives(&self) -> bool
        ensures { result ≡ is_some self.now.receiver }
    {
        self.receiver.is_some()
    }

    /// Why a delivery is refused.
    pub(crate) fn arrival_refusal(&self) -> Option<Refusal>
        ensures { result ≡ refusal_of self.now.receiver }
    {
        match &self.receiver {
            Some(receiver) => {
                if receiver.is_closed() {
                    Some(Refusal::AfterEnd)
                } else {
                    None
                }
            }
            None => Some(Refusal::NotReceiving),
        }
    }

    /// How many bytes came and were not pulled.
    pub(crate) fn unread_len(&self) -> usize
        ensures { result ≡ length (concat (unread_of self.now.receiver)) }
    {
        match &self.receiver {
            Some(receiver) => receiver.unread_len(),
            None => 0,
        }
    }

    /// Bytes come. They tell its session, or are bytes of it. An `Err` returns them and changes nothing: an allocation failed.
    pub(crate) fn arrive(&mut self, alloc: Global, bytes: Bytes) -> Result<Begun, Bytes>
        requires there { IsSome self.old.receiver }
        requires fits { length (concat (unread_of self.old.receiver)) + length bytes < 2 ^ 64 }
        ensures ok { IfOk result (λ begun. IfSome self.old.receiver (λ r. (begun ≡ begun_by (came r bytes))
            × (self.new ≡ told_by self.old (came r bytes)))) }
        ensures err { IfErr result (λ back. (back ≡ bytes) × (self.new ≡ self.old)) }
    {
        let Some(receiver) = &mut self.receiver else {
            unreachable!();
        };
        let begun = match receiver.arrive(bytes) {
            Ok(begun) => begun,
            Err(back) => return Err(back),
        };
        if let Begun::Taken(Some(session)) = begun {
            self.session = Some(session);
            self.sender = Some(SendingHalf::behind_front(alloc));
        }
        Ok(begun)
    }

    /// Its end came (no code), or its reset. It takes no memory.
    pub(crate) fn close(&mut self, alloc: Global, code: Option<u64>)
        ensures { self.new ≡ closing code self.old self.old.receiver }
    {
        let Some(receiver) = &mut self.receiver else {
            return;
        };
        match code {
            Some(code) => receiver.reset(alloc, code),
            None => receiver.end(),
        }
    }

    /// What comes next.
    pub(crate) fn pull(&mut self) -> Pull
        ensures { receiving NoMessages (λ r. pulled r self.old.session) self.old ≡ (result, self.new) }
    {
        match &mut self.receiver {
            Some(receiver) => receiver.pull(self.session),
            None => Pull::NoMessages,
        }
    }

    /// Nothing more of it is needed.
    pub(crate) fn cancel(&mut self, alloc: Global) -> Result<(), Refusal>
        ensures { receiving (Some NotOpen) canceled self.old ≡ (call_refused result, self.new) }
    {
        match &mut self.receiver {
            Some(receiver) => receiver.cancel(alloc),
            None => Err(Refusal::NotOpen),
        }
    }

    /// Nothing more of it is needed, which another part read, and whose end came there or not: what comes is read here from now on.
    pub(crate) fn give_up(&mut self, alloc: Global, ended: bool)
        ensures { self.new ≡ gives_up self.old ended }
    {
        self.receiver = Some(ReceivingHalf::given_up(alloc, ended));
    }
}
