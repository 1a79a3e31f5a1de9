//! What is sent on a request stream.
ghost use Rattle.std.specs.Prelude.{◌≡◌, true, false, None, is_some, length, min, OnOk, IfErr, IfSome, IsSome};
ghost use Rattle.h3_connection.specs.Calls.{Sets, AllSame};
ghost use Rattle.h3_connection.specs.NextWaiting.{IsLeast};
ghost use Rattle.h3_connection.specs.State.{kept_at};
ghost use Rattle.h3_connection.specs.WaitingPieces.{bytes_of};
ghost use Rattle.h3_outgoing.specs.Sent.{has_section, taken_from};
ghost use Rattle.h3_requests.specs.HasBytes.{has_bytes, has_end, gives_end};
ghost use Rattle.h3_requests.specs.Over.{with_end_taken};

use super::RequestStreams;
use crate::room::SectionRoom;
use h3_connection::place::SendPlace;
use h3_outgoing::EncodedSection;
use h3_proto::stream::StreamId;

impl RequestStreams {
    /// The HEADERS frame of an encoded field section goes out, for which room was taken, and the message is at that place then. An `Err`
    /// changes nothing, and returns the section: an allocation failed, or the stream is not there.
    pub fn send_section(
        &mut self,
        room: SectionRoom,
        section: EncodedSection,
        place: SendPlace,
    ) -> Result<(), EncodedSection>
        ensures ok { OnOk result (IfSome (kept_at self.old room)
            (λ r. Sets self.old self.new room (record r { outgoing = has_section r.outgoing section place }))) }
        ensures there { OnOk result (IsSome (kept_at self.old room)) }
        ensures err { IfErr result (λ b. (b ≡ section) × AllSame self.old self.new) }
    {
        let id = room.id();
        let frame = room.into_frame();
        let Some(stream) = self.streams.get_mut(id) else {
            return Err(section);
        };
        let class = stream.class_if(self.ready.has_classes());
        let Ok(()) = self.ready.reserve_both(class, id) else {
            return Err(section);
        };
        if let Err(section) = stream.outgoing.send_section(frame, section, place) {
            return Err(section);
        }
        self.ready.settle(class, id, stream.outgoing.waiting() > 0);
        Ok(())
    }

    /// Takes the first bytes of what waits, at most all, and returns whether the stream is there. Nothing happens if it is not.
    #[inline(always)]
    pub fn advance(&mut self, id: StreamId, count: usize) -> bool
        ensures found { result ≡ is_some (kept_at self.old id) }
        ensures there { IfSome (kept_at self.old id) (λ r.
            Sets self.old self.new id (record r { outgoing = taken_from r.outgoing (min count (length (bytes_of r.outgoing.pieces))) })) }
        ensures absent { kept_at self.old id ≡ None → self.new ≡ self.old }
    {
        let Some(stream) = self.streams.get_mut(id) else {
            return self.streams.is_over(id);
        };
        let precedence = stream.outgoing.precedence();
        let waiting = stream.outgoing.waiting();
        stream.outgoing.advance(count.min(waiting));
        let left = stream.outgoing.waiting();
        let is_over = stream.is_over_with(left);
        self.ready.settle_rest(&precedence, id, left > 0);
        self.streams.retire_if(id, is_over);
        true
    }

    /// The first stream from this id on on which bytes wait, and `None` if bytes wait on none of them. It takes no memory, and looks at no
    /// other stream.
    pub fn next_waiting(&self, from: u64) -> Option<StreamId>
        ensures { IsLeast (λ id. has_bytes (kept_at self.now id)) from result }
    {
        self.ready.next(from)
    }

    /// Takes the end of a stream, if it waits and no bytes wait ahead of it, and returns whether that is so. It takes no memory. Nothing
    /// happens if it is not so.
    pub fn take_end(&mut self, id: StreamId) -> bool
        ensures told { result ≡ gives_end (kept_at self.old id) }
        ensures taken { result ≡ true → IfSome (kept_at self.old id) (λ r. Sets self.old self.new id (with_end_taken r)) }
        ensures same { result ≡ false → AllSame self.old self.new }
    {
        let Some(stream) = self.streams.get_mut(id) else {
            let class = self.class(id);
            if !self.streams.take_end(id) {
                return false;
            }
            self.ready.settle_end(class, id, false);
            return true;
        };
        let class = stream.class_if(self.ready.has_classes());
        if !stream.outgoing.take_end() {
            return false;
        }
        self.ready.settle_end(class, id, false);
        true
    }

    /// The first stream from this id on whose end waits, and `None` if no end waits from there on. It takes no memory, and looks at 64
    /// streams at once, among those that may be finished or whose ends wait.
    pub fn next_end(&self, from: u64) -> Option<StreamId>
        ensures { IsLeast (λ id. has_end (kept_at self.now id)) from result }
    {
        self.ready.next_end(from)
    }
}
