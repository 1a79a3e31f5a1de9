//! What is left of a stream to be read.
ghost use Rattle.std.specs.Prelude.{◌≡◌, true, Some};
ghost use Rattle.h3_connection.specs.FrameLeft.{frame_left_of_request};
ghost use Rattle.h3_connection.specs.declared.event.StreamFault.TheVariants.{Reset};
ghost use Rattle.h3_incoming.specs.Left.{is_drained};

use super::IncomingStream;
use h3_connection::event::StreamFault;
use h3_connection::place::Place;
use h3_frames::frame::FrameBuffer;
use h3_messages::Content;
use std::alloc::Global;

impl IncomingStream {
    /// The place that its message is at.
    pub fn place(&self) -> Place
        ensures { result ≡ self.now.place }
    {
        self.place
    }

    /// What a response to it may have as content, as its client awaits it. None: that is not known, since no header section of a request
    /// was read, or the endpoint asks for no strict messages.
    pub fn response(&self) -> Option<Content>
        ensures { result ≡ self.now.response }
    {
        self.response
    }

    /// How much content of its message is left to come, if the endpoint asks for strict messages.
    pub fn content(&self) -> Content
        ensures { result ≡ self.now.content }
    {
        self.content
    }

    /// How many bytes are still to come of the payload of the DATA frame that is under way, or else of the frame that is next. 0 while the
    /// type and length of that one are not whole, once all of it came, and if no frame is next: a field section waits to be decoded, or a
    /// session is there.
    pub fn frame_left(&self) -> usize
        ensures { result ≡ frame_left_of_request self.now }
    {
        if self.body_left > 0 {
            return self.body_left.saturating_sub(self.unread.len());
        }
        if self.begins_frame() {
            return self.unread.frame_left();
        }
        0
    }

    /// Whether nothing is left of it: no bytes, no field section and no payload under way. It waits for nothing then. It is true only of
    /// streams whose end was returned, with nothing after it, or that were given up.
    pub fn is_drained(&self) -> bool
        ensures { result ≡ true → is_drained self.now ≡ true }
    {
        let is_settled = (self.is_over && !self.came_behind) || self.fault.is_some();
        is_settled && self.section.is_none() && self.body_left == 0
    }

    /// One like this, of which nothing is left. It takes no memory.
    pub fn like(&self, alloc: Global) -> IncomingStream
        requires { is_drained self.now ≡ true }
        ensures { result ≡ self.now }
    {
        IncomingStream {
            unread: FrameBuffer::new(alloc),
            section: None,
            body_left: 0,
            content: self.content,
            response: self.response,
            place: self.place,
            waits_for: 0,
            tries: self.tries,
            ended: self.ended,
            was_reset: self.was_reset,
            is_over: self.is_over,
            came_behind: false,
            fault: self.fault,
        }
    }

    /// The same, but reset with this code. It takes no memory.
    pub fn like_reset(&self, alloc: Global, code: u64) -> IncomingStream
        requires { is_drained self.now ≡ true }
        ensures { result ≡ record self.now { fault = Some (Reset code) } }
    {
        let mut stream = self.like(alloc);
        stream.fault = Some(StreamFault::Reset(code));
        stream
    }
}
