//! What comes on streams of sessions that are read here.
ghost use Rattle.std.specs.List.{concat};
ghost use Rattle.std.specs.Prelude.{◌≡◌, length, Some, None};
ghost use Rattle.h3_connection.specs.Answers.{call_refused};
ghost use Rattle.h3_connection.specs.State.{kept_at};
ghost use Rattle.h3_connection.specs.declared.event.Pull.TheVariants.{NoMessages};
ghost use Rattle.h3_connection.specs.declared.event.Refusal.TheVariants.{NotOpen};
ghost use Rattle.h3_webtransport_streams.specs.Begun.{Delivers, refusal_of, stream_or_unseen};
ghost use Rattle.h3_webtransport_streams.specs.Closing.{Closes};
ghost use Rattle.h3_webtransport_streams.specs.Receiver.{canceled, pulled};
ghost use Rattle.h3_webtransport_streams.specs.SessionStream.{Acts, Changes, gives_up, receiving, unread_of};

use super::{SessionStreams, map};
use crate::receiver::Begun;
use bytes::Bytes;
use h3_connection::event::{DeliverError, Pull, Refusal};
use h3_proto::stream::StreamId;

impl SessionStreams {
    /// How many bytes came on a stream and were not pulled.
    pub fn unread(&self, id: StreamId) -> usize
        ensures { result ≡ length (concat (unread_of (stream_or_unseen self.now.streams id).receiver)) }
    {
        map::unread_len(&self.streams, id)
    }

    /// Why what comes on a stream is refused.
    pub fn arrival_refusal(&self, id: StreamId) -> Option<Refusal>
        ensures { result ≡ refusal_of (stream_or_unseen self.now.streams id).receiver }
    {
        map::arrival_refusal(&self.streams, id)
    }

    /// Bytes came on a stream, which they open if it is not there. Refused are first what comes on one that is read elsewhere, then what
    /// comes after the end or a reset. `OutOfMemory` returns the bytes, and nothing has changed. The answer says whether the first bytes
    /// are the front of a session's stream.
    pub fn deliver(&mut self, id: StreamId, bytes: Bytes) -> Result<Begun, DeliverError>
        ensures delivers { Delivers self.old.streams self.new.streams id bytes result }
        ensures rest { self.new ≡ record self.old { streams = self.new.streams } }
    {
        let alloc = self.alloc;
        map::deliver(&mut self.turns, &mut self.streams, alloc, id, bytes)
    }

    /// The end of a stream came. It is refused as bytes are.
    pub fn deliver_end(&mut self, id: StreamId) -> Result<(), DeliverError>
        ensures closes { Closes self.old.streams self.new.streams id None result }
        ensures rest { self.new ≡ record self.old { streams = self.new.streams } }
    {
        let alloc = self.alloc;
        map::close(&mut self.turns, &mut self.streams, alloc, id, None)
    }

    /// A stream was reset by its sender, with this code. What was not pulled is thrown away.
    pub fn deliver_reset(&mut self, id: StreamId, code: u64) -> Result<(), DeliverError>
        ensures closes { Closes self.old.streams self.new.streams id (Some code) result }
        ensures rest { self.new ≡ record self.old { streams = self.new.streams } }
    {
        let alloc = self.alloc;
        map::close(&mut self.turns, &mut self.streams, alloc, id, Some(code))
    }

    /// What comes next on a stream: its session, unless this side opened it, the bytes that came, in pieces, and its end. A stream that is
    /// read elsewhere has no messages here.
    pub fn pull(&mut self, id: StreamId) -> Pull
        ensures acts { Acts NoMessages (λ s. receiving NoMessages (λ r. pulled r s.session) s) self.old.streams self.new.streams id result }
        ensures rest { self.new ≡ record self.old { streams = self.new.streams } }
    {
        map::pull(&mut self.streams, id)
    }

    /// Nothing more of a stream is needed, and what came is thrown away. Refused are first one that is not read here, then one whose end
    /// was pulled, which was reset or was given up before.
    pub fn cancel(&mut self, id: StreamId) -> Result<(), Refusal>
        ensures acts { Acts (Some NotOpen) (receiving (Some NotOpen) canceled) self.old.streams self.new.streams id (call_refused result) }
        ensures rest { self.new ≡ record self.old { streams = self.new.streams } }
    {
        let alloc = self.alloc;
        map::cancel(&mut self.streams, alloc, id)
    }

    /// Nothing more is needed of a stream that is read elsewhere, and whose end came there or not. What comes is read here from now on: it
    /// is thrown away, and each pull says that the stream was given up. It takes no memory.
    pub fn give_up(&mut self, id: StreamId, ended: bool)
        ensures acts { Changes (λ s. gives_up s ended) self.old.streams self.new.streams id }
        ensures rest { self.new ≡ record self.old { streams = self.new.streams } }
    {
        let alloc = self.alloc;
        map::give_up(&mut self.streams, alloc, id, ended);
    }
}
