//! What is sent on a request stream: the place in its message, and the frames that wait.
ghost use Rattle.std.specs.Prelude.{◌≡◌, ◌==◌, ◌+◌, ◌<◌, ◌≤◌, ◌^◌, ◌++◌, length, take, drop, true, false, OnOk, OnErr, IfErr, IfSome};
ghost use Rattle.std.specs.Prelude.{IsTrue};
ghost use Rattle.h3_connection.specs.WaitingPieces.{bytes_of, lent};
ghost use Rattle.h3_connection.specs.Order.{default_precedence};
ghost use Rattle.h3_connection.specs.State.{nothing_waits};
ghost use Rattle.h3_connection.specs.StrictSending.{early_trailer, passes_content};
ghost use Rattle.h3_outgoing.specs.Copied.{Filled, put};
ghost use Rattle.h3_outgoing.specs.Held.{AreApart, front_of, held, past_of};
ghost use Rattle.h3_outgoing.specs.Sent.{has_section, has_body, is_to_have, has_ended, was_cut_off, taken_from, takes_head, takes_body};
ghost use Rattle.h3_outgoing.specs.Sent.{takes_end, is_sent_off, end_waits, is_end_next, has_end_taken, preceding};

pub use crate::copying::{as_bytes, put_bytes, put_front};
use crate::frame::Frame;
use crate::frames::WaitingFrames;
use crate::room::FrameRoom;
use crate::section::EncodedSection;
use bytes::{Buf, Bytes};
use h3_connection::arrival::MOST_HELD;
use h3_connection::event::Malformation;
use h3_connection::order::{Precedence, PrioritySource};
use h3_connection::place::SendPlace;
use h3_messages::Content;
use h3_priority::priority::Priority;
use std::alloc::{AllocError, Global};
use std::marker::Model;

/// A request stream at its sender. Its frames wait in order. A short section waits in the frame itself, a longer one in the block in which
/// it was written. A body that was passed waits as the payload itself, and one that the caller holds as its length. Only a short section is
/// copied. A contract sees the pieces that wait.
#[derive(Drop)]
pub struct OutgoingStream {
    frames: WaitingFrames,
    place: SendPlace,
    // how much content is still to be sent, if the endpoint checks that against what the header section said
    content: Content,
    is_finished: bool,
    is_reset: bool,
    end_taken: bool,
    precedence: Precedence,
}

impl Model for OutgoingStream {
    ghost use Rattle.h3_connection.specs.State.{OutgoingState};

    ghost Value = { OutgoingState };

    ghost view = { λ s. record {
      pieces = s.frames.frames;
      place = s.place;
      content = s.content;
      is_finished = s.is_finished;
      is_reset = s.is_reset;
      end_taken = s.end_taken;
      precedence = s.precedence;
    } };
}

/// That of a stream whose priority nobody said.
fn unsaid() -> Precedence
    ensures { result ≡ default_precedence }
{
    Precedence {
        priority: Priority::default(),
        source: PrioritySource::Unsaid,
        is_held: false,
    }
}

impl OutgoingStream {
    /// A stream on which nothing was sent. It takes no memory.
    pub fn new(alloc: Global) -> OutgoingStream
        ensures { result ≡ nothing_waits }
    {
        OutgoingStream {
            frames: WaitingFrames::new(alloc),
            place: SendPlace::NothingSent,
            content: Content::Unsaid,
            is_finished: false,
            is_reset: false,
            end_taken: false,
            precedence: unsaid(),
        }
    }

    /// Whether a header section may be sent: the stream is open, and no final one was sent.
    pub fn takes_head(&self) -> bool
        ensures { result ≡ takes_head self.now }
    {
        !self.is_finished && !self.is_reset && matches!(self.place, SendPlace::NothingSent)
    }

    /// Whether a body or the trailer may be sent: the stream is open, the final header section was sent, and no trailer.
    pub fn takes_body(&self) -> bool
        ensures { result ≡ takes_body self.now }
    {
        !self.is_finished && !self.is_reset && matches!(self.place, SendPlace::HeadSent)
    }

    /// Whether it may be finished: the stream is open, and the final header section was sent.
    pub fn takes_end(&self) -> bool
        ensures { result ≡ takes_end self.now }
    {
        !self.is_finished && !self.is_reset && !matches!(self.place, SendPlace::NothingSent)
    }

    /// Room for one more frame, so that sending it needs no memory.
    pub fn reserve(&mut self) -> Result<FrameRoom, AllocError>
        ensures { self.new ≡ self.old }
    {
        let Ok(()) = self.frames.reserve() else {
            return Err(AllocError);
        };
        Ok(FrameRoom::of(&self.frames))
    }

    // No queue of 2^62 bytes fits into memory: a longer one is refused as such, and no other.
    fn has_room_for(&self, payload: usize) -> bool
        ensures room { IsTrue result → (payload < 2 ^ 61) × (length (bytes_of self.now.pieces) < 2 ^ 61) }
        ensures none { result ≡ false → 2 ^ 61 ≤ length (bytes_of self.now.pieces) + payload }
    {
        payload < MOST_HELD && self.frames.waiting() < MOST_HELD
    }

    /// The HEADERS frame of an encoded field section goes out, for which room was taken, and the message is at that place then. An `Err`
    /// changes nothing, and hands the section back.
    pub fn send_section(
        &mut self,
        _room: FrameRoom,
        section: EncodedSection,
        place: SendPlace,
    ) -> Result<(), EncodedSection>
        ensures ok { OnOk result (self.new ≡ has_section self.old section place) }
        ensures err { IfErr result (λ b. (b ≡ section) × (self.new ≡ self.old)) }
    {
        if !self.has_room_for(section.len()) {
            return Err(section);
        }
        let Ok(()) = self.frames.reserve() else {
            return Err(section);
        };
        self.place = place;
        self.frames.push(Frame::headers(section));
        Ok(())
    }

    /// So much content is to be sent after the header section. A stream whose sending has ended stays as it is.
    pub fn expect(&mut self, content: Content)
        ensures { self.new ≡ is_to_have self.old content }
    {
        if !self.is_finished && !self.is_reset {
            self.content = content;
        }
    }

    /// How much content is still to be sent: any, if nothing says it or the endpoint does not check it.
    pub fn content(&self) -> Content
        ensures { result ≡ self.now.content }
    {
        self.content
    }

    /// Whether so many bytes more are more content than the header section said (RFC 9114, section 4.1.2).
    pub fn passes_content(&self, size: usize) -> bool
        ensures { result ≡ passes_content self.now.content size }
    {
        self.content.left_behind(size as u64).is_exceeded()
    }

    /// Why no trailer may come here, whatever its list: content is left to be sent (RFC 9114, section 4.1.2), or it would stand in a tunnel
    /// (section 4.4).
    pub fn early_trailer(&self) -> Option<Malformation>
        ensures { result ≡ early_trailer self.now.content }
    {
        if !self.content.takes_trailer() {
            return Some(Malformation::Connect);
        }
        if self.content.may_end() {
            return None;
        }
        Some(Malformation::ContentLength)
    }

    /// A body goes out as the payload of a DATA frame; an empty one writes nothing. An `Err` changes nothing, and hands the body back.
    pub fn send_body(&mut self, body: Bytes) -> Result<(), Bytes>
        ensures ok { OnOk result (self.new ≡ has_body self.old body) }
        ensures err { IfErr result (λ b. (b ≡ body) × (self.new ≡ self.old)) }
    {
        if !body.has_remaining() {
            return Ok(());
        }
        if !self.has_room_for(body.len()) {
            return Err(body);
        }
        let Ok(()) = self.frames.reserve() else {
            return Err(body);
        };
        self.content = self.content.left_behind(body.len() as u64);
        self.frames.push(Frame::data(body));
        Ok(())
    }

    /// The same of a body of so many bytes, which the caller holds: its frame is announced, and none of its bytes is given. An `Err`
    /// changes nothing.
    pub fn send_body_of(&mut self, len: usize) -> Result<(), AllocError>
        ensures ok { OnOk result (self.new ≡ has_body self.old (held len)) }
        ensures err { OnErr result (self.new ≡ self.old) }
    {
        if len == 0 {
            return Ok(());
        }
        if !self.has_room_for(len) {
            return Err(AllocError);
        }
        let Ok(()) = self.frames.reserve() else {
            return Err(AllocError);
        };
        self.content = self.content.left_behind(len as u64);
        self.frames.push(Frame::held(len));
        Ok(())
    }

    /// The message is whole. It takes no memory.
    pub fn finish(&mut self)
        ensures { self.new ≡ has_ended self.old }
    {
        self.is_finished = true;
        self.content = Content::Unsaid;
        self.release();
    }

    /// Whether its end waits: the message is whole, and QUIC did not take the FIN that says so.
    pub fn end_waits(&self) -> bool
        ensures { result ≡ end_waits self.now }
    {
        self.is_finished && !self.end_taken
    }

    /// Whether the FIN was taken.
    pub fn end_taken(&self) -> bool
        ensures { result ≡ self.now.end_taken }
    {
        self.end_taken
    }

    /// Takes the end if it waits with no bytes ahead of it, and returns whether it did. It takes no memory.
    pub fn take_end(&mut self) -> bool
        ensures told { result ≡ is_end_next self.old }
        ensures taken { result ≡ true → self.new ≡ has_end_taken self.old }
        ensures same { result ≡ false → self.new ≡ self.old }
    {
        if !self.end_waits() || self.frames.waiting() > 0 {
            return false;
        }
        self.end_taken = true;
        true
    }

    /// Sending ends here: what waits is dropped. It takes no memory.
    pub fn reset(&mut self)
        ensures { self.new ≡ was_cut_off self.old }
    {
        self.frames.clear();
        self.is_reset = true;
        self.is_finished = false;
        self.content = Content::Unsaid;
    }

    /// What waits is dropped, and it is a stream on which nothing was sent. Its parts are written in their place. It takes no memory.
    pub fn renew(&mut self)
        ensures { self.new ≡ nothing_waits }
    {
        self.frames.clear();
        self.place = SendPlace::NothingSent;
        self.content = Content::Unsaid;
        self.is_finished = false;
        self.is_reset = false;
        self.end_taken = false;
        self.precedence = unsaid();
    }

    // No memory is kept for a queue once nothing of the stream is left to be sent.
    fn release(&mut self)
        ensures { self.new ≡ self.old }
    {
        if self.is_sent_off() {
            self.frames.release();
        }
    }

    /// The first bytes that wait: the rest of a frame's type and length, or of its payload. Empty exactly if nothing waits, or first a
    /// payload that the caller holds.
    pub fn outgoing(&self) -> &[u8]
        ensures { result.now ≡ front_of (lent self.now.pieces) }
    {
        self.frames.first_part()
    }

    /// The same as the `Bytes` in which a body was passed to send: a clone of it copies nothing. None: they are a frame's type and length,
    /// a field section, or a payload that the caller holds.
    pub fn outgoing_body(&self) -> Option<&Bytes>
        ensures { IfSome result (λ body. body.now ≡ front_of (lent self.now.pieces)) }
    {
        self.frames.first_body()
    }

    /// Appends the first `count` bytes that wait, at most all, over frames too. They keep waiting. A refusal appends nothing: an allocation
    /// failed, or the caller holds some of these bytes.
    pub fn copy_front(&self, count: usize, out: &mut Vec<u8>) -> Result<(), AllocError>
        ensures ok { OnOk result (out.new.items ≡ out.old.items ++ take count (bytes_of self.now.pieces)) }
        ensures err { OnErr result (out.new.items ≡ out.old.items) }
    {
        let start = out.len();
        let count = count.min(self.waiting());
        out.reserve(count)?;
        out.resize(start + count, 0)?;
        let Ok(()) = self.fill(&mut out[start..]) else {
            out.truncate(start);
            return Err(AllocError);
        };
        Ok(())
    }

    // Fills a buffer with the first bytes that wait. An `Err`: so many are not there, or the caller holds some of them.
    fn fill(&self, out: &mut [u8]) -> Result<(), AllocError>
        ensures { OnOk result (out.new ≡ put (bytes_of self.now.pieces) out.old) }
    {
        let (copied, _) = self.copy_to(out);
        if copied < out.len() {
            return Err(AllocError);
        }
        Ok(())
    }

    /// Copies the first bytes that wait to the front of `out`, over frames too, up to a payload that the caller holds and as many as fit.
    /// Returns how many, and how many of that payload follow them. They keep waiting. It takes no memory.
    pub fn copy_to(&self, out: &mut [u8]) -> (usize, usize)
        ensures copied { Filled (front_of (bytes_of self.now.pieces)) out.old out.new result.0 }
        ensures past { AreApart self.now.pieces → result.1 ≡ past_of (drop result.0 (bytes_of self.now.pieces)) }
    {
        self.frames.copy_to(out)
    }

    /// How many bytes wait.
    pub fn waiting(&self) -> usize
        ensures { result ≡ length (bytes_of self.now.pieces) }
    {
        self.frames.waiting()
    }

    /// Takes the first bytes of what waits, at most all. It may cross frames; one that is wholly taken is dropped.
    #[inline(always)]
    pub fn advance(&mut self, count: usize)
        requires { count ≤ length (bytes_of self.old.pieces) }
        ensures { self.new ≡ taken_from self.old count }
    {
        self.frames.advance(count);
        self.release();
    }

    /// Whether no frame waits.
    pub fn is_empty(&self) -> bool
        ensures { result ≡ (length self.now.pieces == 0) }
    {
        self.frames.is_empty()
    }

    /// One like this, on which no frame waits. It takes no memory.
    pub fn like(&self, alloc: Global) -> OutgoingStream
        requires { (length self.now.pieces == 0) ≡ true }
        ensures { result ≡ self.now }
    {
        OutgoingStream {
            frames: WaitingFrames::new(alloc),
            place: self.place,
            content: self.content,
            is_finished: self.is_finished,
            is_reset: self.is_reset,
            end_taken: self.end_taken,
            precedence: self.precedence,
        }
    }

    /// The same with the end taken. It takes no memory.
    pub fn like_taken(&self, alloc: Global) -> OutgoingStream
        requires { (length self.now.pieces == 0) ≡ true }
        ensures { result ≡ has_end_taken self.now }
    {
        let mut like = self.like(alloc);
        like.end_taken = true;
        like
    }

    /// What goes before it.
    pub fn precedence(&self) -> Precedence
        ensures { result ≡ self.now.precedence }
    {
        self.precedence
    }

    /// It goes before others by this from now on. It takes no memory.
    pub fn set_precedence(&mut self, precedence: &Precedence)
        ensures { self.new ≡ preceding precedence.now self.old }
    {
        self.precedence = *precedence;
    }

    /// The place in the message.
    pub fn place(&self) -> SendPlace
        ensures { result ≡ self.now.place }
    {
        self.place
    }

    /// Whether the message was finished.
    pub fn is_finished(&self) -> bool
        ensures { result ≡ self.now.is_finished }
    {
        self.is_finished
    }

    /// Whether sending was reset.
    pub fn is_reset(&self) -> bool
        ensures { result ≡ self.now.is_reset }
    {
        self.is_reset
    }

    /// Whether nothing of it is left to be sent: it was reset, or finished with nothing waiting.
    pub fn is_sent_off(&self) -> bool
        ensures { result ≡ is_sent_off self.now }
    {
        self.is_reset || (self.is_finished && self.frames.waiting() == 0)
    }
}
