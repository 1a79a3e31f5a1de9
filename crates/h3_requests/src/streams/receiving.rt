//! What comes on a request stream.
ghost use Rattle.std.specs.Prelude.{◌≡◌, ◌++◌, true, false, [], None, OnOk, OnErr, IfOk, IfErr, IfSome, is_some};
ghost use Rattle.h3_blocked.specs.Sums.{TakesOut};
ghost use Rattle.h3_connection.specs.Calls.{Sets, AllSame};
ghost use Rattle.h3_connection.specs.Delivering.{kept, with_end, given_up_once, cancellation};
ghost use Rattle.h3_connection.specs.Incoming.{awaiting};
ghost use Rattle.h3_connection.specs.State.{kept_at};
ghost use Rattle.h3_connection.specs.declared.event.StreamFault.TheVariants.{Reset};
ghost use Rattle.h3_incoming.specs.Replying.{encodings};
ghost use Rattle.h3_outgoing.specs.Sent.{is_to_have};
ghost use Rattle.h3_requests.specs.Changing.{opened_at, Receives, receiver_refusal, IsRefusedBy};

use super::RequestStreams;
use bytes::Bytes;
use h3_connection::event::{DeliverError, Refusal};
use h3_connection::setup::Announced;
use h3_messages::Content;
use h3_proto::stream::{Side, StreamId};
use std::alloc::{AllocError, Global};

impl RequestStreams {
    /// More bytes came. They are kept as they are, with no copy but of small pieces. Those of a stream that was given up are thrown away. A
    /// stream that is not there is opened. An `Err` changes nothing, and returns the bytes: it is out of memory.
    pub fn deliver(
        &mut self,
        alloc: Global,
        announced: &Announced,
        id: StreamId,
        bytes: Bytes,
    ) -> Result<(), Bytes>
        ensures ok { OnOk result (Receives self.old self.new id (λ i. kept i bytes)) }
        ensures back { IfErr result (λ b. b ≡ bytes) }
        ensures err { OnErr result (AllSame self.old self.new) }
    {
        let Some(stream) = self.streams.get_mut(id) else {
            return self.deliver_absent(alloc, announced, id, bytes);
        };
        stream.deliver(announced, bytes)
    }

    /// The same, but bytes are refused that the peer does not send. These are bytes on a stream of a client that is not open (`NotOpen`),
    /// and bytes after an end or a reset (`AfterEnd`). An `Err` changes nothing; `OutOfMemory` returns the bytes.
    pub fn deliver_or_refuse(
        &mut self,
        alloc: Global,
        side: Side,
        announced: &Announced,
        id: StreamId,
        bytes: Bytes,
    ) -> Result<(), DeliverError>
        ensures ok { OnOk result (Receives self.old self.new id (λ i. kept i bytes)) }
        ensures taken { OnOk result (receiver_refusal side (kept_at self.old id) ≡ None) }
        ensures why { IfErr result (λ e. IsRefusedBy (receiver_refusal side (kept_at self.old id)) bytes e) }
        ensures err { OnErr result (AllSame self.old self.new) }
    {
        let Some(stream) = self.streams.get_mut(id) else {
            if self.streams.is_over(id) {
                return Err(DeliverError::Refused(Refusal::AfterEnd));
            }
            return self.open_or_refuse(alloc, side, announced, id, bytes);
        };
        if stream.has_ended() {
            return Err(DeliverError::Refused(Refusal::AfterEnd));
        }
        match stream.deliver(announced, bytes) {
            Ok(()) => Ok(()),
            Err(bytes) => Err(DeliverError::OutOfMemory(bytes)),
        }
    }

    // Bytes of a stream that is not there: a server's peer opens it.
    fn open_or_refuse(
        &mut self,
        alloc: Global,
        side: Side,
        announced: &Announced,
        id: StreamId,
        bytes: Bytes,
    ) -> Result<(), DeliverError>
        requires { kept_at self.old id ≡ None }
        ensures ok { OnOk result (Receives self.old self.new id (λ i. kept i bytes)) }
        ensures taken { OnOk result (receiver_refusal side None ≡ None) }
        ensures why { IfErr result (λ e. IsRefusedBy (receiver_refusal side None) bytes e) }
        ensures err { OnErr result (AllSame self.old self.new) }
    {
        match side {
            Side::Client => Err(DeliverError::Refused(Refusal::NotOpen)),
            Side::Server => match self.open_with(alloc, announced, id, bytes) {
                Ok(()) => Ok(()),
                Err(bytes) => Err(DeliverError::OutOfMemory(bytes)),
            },
        }
    }

    // The first bytes of a stream, which open it.
    fn open_with(
        &mut self,
        alloc: Global,
        announced: &Announced,
        id: StreamId,
        bytes: Bytes,
    ) -> Result<(), Bytes>
        requires { kept_at self.old id ≡ None }
        ensures ok { OnOk result (Receives self.old self.new id (λ i. kept i bytes)) }
        ensures back { IfErr result (λ b. b ≡ bytes) }
        ensures err { OnErr result (AllSame self.old self.new) }
    {
        let Ok(()) = self.open_new(alloc, id) else {
            return Err(bytes);
        };
        let Err(bytes) = self.deliver_there(announced, id, bytes) else {
            return Ok(());
        };
        self.undo_open(id);
        Err(bytes)
    }

    // Bytes of a stream that is not under way.
    fn deliver_absent(
        &mut self,
        alloc: Global,
        announced: &Announced,
        id: StreamId,
        bytes: Bytes,
    ) -> Result<(), Bytes>
        ensures ok { OnOk result (Receives self.old self.new id (λ i. kept i bytes)) }
        ensures back { IfErr result (λ b. b ≡ bytes) }
        ensures err { OnErr result (AllSame self.old self.new) }
    {
        let Ok(was_there) = self.open_absent(alloc, id) else {
            return Err(bytes);
        };
        match self.deliver_there(announced, id, bytes) {
            Ok(()) => Ok(()),
            Err(bytes) => {
                self.close_again(id, was_there);
                Err(bytes)
            }
        }
    }

    /// Its end came. A stream that is not there is opened. An `Err` changes nothing: an allocation failed.
    pub fn end(&mut self, alloc: Global, id: StreamId) -> Result<(), AllocError>
        ensures ok { OnOk result (Receives self.old self.new id with_end) }
        ensures err { OnErr result (AllSame self.old self.new) }
    {
        let Some(stream) = self.streams.get_mut(id) else {
            return self.end_absent(alloc, id);
        };
        stream.incoming.end();
        let is_over = stream.is_over();
        self.streams.retire_if(id, is_over);
        Ok(())
    }

    /// The same, but an end is refused that the peer does not send, as `deliver_or_refuse` refuses bytes.
    pub fn end_or_refuse(
        &mut self,
        alloc: Global,
        side: Side,
        id: StreamId,
    ) -> Result<(), DeliverError>
        ensures ok { OnOk result (Receives self.old self.new id with_end) }
        ensures taken { OnOk result (receiver_refusal side (kept_at self.old id) ≡ None) }
        ensures why { IfErr result (λ e. IsRefusedBy (receiver_refusal side (kept_at self.old id)) [] e) }
        ensures err { OnErr result (AllSame self.old self.new) }
    {
        let Some(stream) = self.streams.get_mut(id) else {
            if !self.streams.is_over(id) {
                return self.end_new_or_refuse(alloc, side, id);
            }
            return Err(DeliverError::Refused(Refusal::AfterEnd));
        };
        if stream.has_ended() {
            return Err(DeliverError::Refused(Refusal::AfterEnd));
        }
        stream.incoming.end();
        let is_over = stream.is_over();
        self.streams.retire_if(id, is_over);
        Ok(())
    }

    // The end of a stream that is not there: a server's peer opens it.
    #[inline(never)]
    fn end_new_or_refuse(
        &mut self,
        alloc: Global,
        side: Side,
        id: StreamId,
    ) -> Result<(), DeliverError>
        requires { kept_at self.old id ≡ None }
        ensures ok { OnOk result (Receives self.old self.new id with_end) }
        ensures taken { OnOk result (receiver_refusal side None ≡ None) }
        ensures why { IfErr result (λ e. IsRefusedBy (receiver_refusal side None) [] e) }
        ensures err { OnErr result (AllSame self.old self.new) }
    {
        match side {
            Side::Client => Err(DeliverError::Refused(Refusal::NotOpen)),
            Side::Server => match self.end_absent(alloc, id) {
                Ok(()) => Ok(()),
                Err(_) => Err(DeliverError::OutOfMemory(Bytes::new())),
            },
        }
    }

    // The end of a stream that is not under way.
    fn end_absent(&mut self, alloc: Global, id: StreamId) -> Result<(), AllocError>
        ensures ok { OnOk result (Receives self.old self.new id with_end) }
        ensures err { OnErr result (AllSame self.old self.new) }
    {
        let Ok(was_there) = self.open_absent(alloc, id) else {
            return Err(AllocError);
        };
        match self.end_there(id) {
            Ok(()) => Ok(()),
            Err(e) => {
                self.close_again(id, was_there);
                Err(e)
            }
        }
    }

    /// Its sender reset it, with this code of an application. It is given up, unless it was before. The first time, the peer's encoder
    /// learns that (RFC 9204, section 2.2.2.2). A stream that is not there is opened. An `Err` changes nothing: an allocation failed.
    pub fn reset_incoming(
        &mut self,
        alloc: Global,
        id: StreamId,
        code: u64,
        replies: &mut Vec<u8>,
    ) -> Result<(), AllocError>
        ensures ok { OnOk result (Receives self.old self.new id (λ i. given_up_once (record i { was_reset = true }) (Reset code))) }
        ensures replies { OnOk result (replies.new.items ≡ replies.old.items ++ encodings
            (cancellation id (opened_at self.old id).incoming.fault)) }
        ensures err { OnErr result (AllSame self.old self.new × (replies.new.items ≡ replies.old.items)) }
    {
        let Ok(was_there) = self.open_absent(alloc, id) else {
            return Err(AllocError);
        };
        match self.reset_there(alloc, id, code, replies) {
            Ok(()) => Ok(()),
            Err(e) => {
                self.close_again(id, was_there);
                Err(e)
            }
        }
    }

    /// This content is awaited of a stream, until the header section of its message comes, and so much is to be sent on it, unless its
    /// sending has ended. Nothing happens if the stream is not there.
    pub fn await_content(&mut self, id: StreamId, content: Content, sent: Content)
        ensures there { IfSome (kept_at self.old id) (λ r.
            Sets self.old self.new id (record r { incoming = awaiting r.incoming content; outgoing = is_to_have r.outgoing sent })) }
        ensures absent { kept_at self.old id ≡ None → AllSame self.old self.new }
    {
        let Some(stream) = self.streams.get_mut(id) else {
            let _over = self.streams.is_over(id);
            return;
        };
        stream.incoming.await_content(content);
        stream.outgoing.expect(sent);
    }

    // Opens the stream if it is not there, takes it up if it is over, and returns whether it was there.
    fn open_absent(&mut self, alloc: Global, id: StreamId) -> Result<bool, AllocError>
        ensures was_there { IfOk result (λ b. b ≡ is_some (kept_at self.old id)) }
        ensures ok { OnOk result (Sets self.old self.new id (opened_at self.old id)) }
        ensures err { OnErr result (self.new ≡ self.old) }
    {
        if self.streams.take_up(alloc, id)? {
            return Ok(true);
        }
        match self.open(alloc, id) {
            Ok(()) => Ok(false),
            Err(e) => Err(e),
        }
    }

    // Takes a stream out that was just opened, and no other.
    fn close_again(&mut self, id: StreamId, was_there: bool)
        ensures opened { was_there ≡ false → TakesOut self.old self.new id }
        ensures there { was_there ≡ true → self.new ≡ self.old }
    {
        if was_there {
            return;
        }
        self.undo_open(id);
    }

    fn deliver_there(
        &mut self,
        announced: &Announced,
        id: StreamId,
        bytes: Bytes,
    ) -> Result<(), Bytes>
        ensures ok { OnOk result (IfSome (kept_at self.old id)
            (λ r. Sets self.old self.new id (record r { incoming = kept r.incoming bytes }))) }
        ensures back { IfErr result (λ b. b ≡ bytes) }
        ensures err { OnErr result (AllSame self.old self.new) }
    {
        let Some(stream) = self.streams.get_mut(id) else {
            return Err(bytes);
        };
        stream.deliver(announced, bytes)
    }

    // An `Err`: the stream is not under way.
    fn end_there(&mut self, id: StreamId) -> Result<(), AllocError>
        ensures ok { OnOk result (IfSome (kept_at self.old id)
            (λ r. Sets self.old self.new id (record r { incoming = with_end r.incoming }))) }
        ensures err { OnErr result (AllSame self.old self.new) }
    {
        let Some(stream) = self.streams.get_mut(id) else {
            return Err(AllocError);
        };
        stream.incoming.end();
        let is_over = stream.is_over();
        self.streams.retire_if(id, is_over);
        Ok(())
    }

    fn reset_there(
        &mut self,
        alloc: Global,
        id: StreamId,
        code: u64,
        replies: &mut Vec<u8>,
    ) -> Result<(), AllocError>
        ensures ok { OnOk result (IfSome (kept_at self.old id) (λ r.
            Sets self.old self.new id (record r { incoming = given_up_once (record r.incoming { was_reset = true }) (Reset code) }))) }
        ensures replies { OnOk result (IfSome (kept_at self.old id)
            (λ r. replies.new.items ≡ replies.old.items ++ encodings (cancellation id r.incoming.fault))) }
        ensures err { OnErr result (AllSame self.old self.new × (replies.new.items ≡ replies.old.items)) }
    {
        let Some(stream) = self.streams.get_mut(id) else {
            return Err(AllocError);
        };
        let before = stream.incoming.waits_for();
        let Ok(()) = stream.incoming.reset(alloc, id, code, replies) else {
            return Err(AllocError);
        };
        self.blocked.replace(before, stream.incoming.waits_for());
        let is_over = stream.is_over();
        self.streams.retire_if(id, is_over);
        Ok(())
    }
}
