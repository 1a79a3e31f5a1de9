//! A request stream in a block of its own, so that a table of streams moves its address and no more.
ghost use Rattle.std.specs.Borrow.{sem};
ghost use Rattle.std.specs.Prelude.{◌≡◌, IfOk};
ghost use Rattle.h3_connection.specs.Calls.{fresh_request};
ghost use Rattle.h3_requests.specs.Boxed.{LendsWhole};

use crate::stream::RequestStream;
use std::alloc::{AllocError, Global};
use std::boxed::Box;
use std::marker::Model;

// A stream in a block. A contract sees the stream.
#[derive(Drop)]
pub(crate) struct BoxedStream {
    stream: Box<RequestStream>,
}

impl Model for BoxedStream {
    ghost use Rattle.h3_connection.specs.State.{RequestState};

    ghost Value = { RequestState };

    ghost view = { λ b. b.stream.value };
}

impl BoxedStream {
    // The stream, moved into a block.
    pub(crate) fn new(alloc: Global, stream: RequestStream) -> Result<BoxedStream, AllocError>
        ensures { IfOk result (λ b. b ≡ stream) }
    {
        let stream = Box::new(alloc, stream)?;
        Ok(BoxedStream { stream })
    }

    // The stream.
    pub(crate) fn get(&self) -> &RequestStream
        ensures { result.now ≡ self.now }
    {
        &self.stream
    }

    // What it waits for.
    pub(crate) fn waits_for(&self) -> usize
        ensures { result ≡ self.now.incoming.waits_for }
    {
        self.stream.incoming.waits_for()
    }

    // The stream is dropped, and one on which nothing has happened stands in its block. It takes no memory.
    pub(crate) fn renew(&mut self, alloc: Global)
        ensures { self.new ≡ fresh_request }
    {
        self.stream.renew(alloc);
    }

    // The stream, to be changed.
    pub(crate) fn get_mut(&mut self) -> &mut RequestStream
        ensures* writes_back { sem 𝓛 (LendsWhole self.entry result) }
        ensures value { result.now ≡ self.old }
    {
        &mut self.stream
    }
}
