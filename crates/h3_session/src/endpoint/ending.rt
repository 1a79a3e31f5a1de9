//! The ends of streams that are sent: which wait, and that one was taken.
ghost use Rattle.h3_connection.specs.EndsWaiting.{ShowsNextToSend, TakesEnd};

use super::Endpoint;
use super::next::earlier;
use h3_proto::stream::StreamId;

impl Endpoint {
    /// Tells that QUIC took the FIN of a stream (RFC 9114, section 4.1). It takes no memory, and answers whether an end was next there: the
    /// stream was finished, no bytes wait on it any more, and this was not told before. Nothing changes of any other stream, also not of a
    /// local unidirectional one or one that is not open.
    #[inline(always)]
    pub fn end_taken(&mut self, id: StreamId) -> bool
        ensures { TakesEnd self.old self.new id result }
    {
        self.requests.take_end(id)
    }

    /// The first stream from this id on on which bytes wait to be sent, or an end: it was finished, and `end_taken` did not say that its
    /// FIN was taken. `None` if nothing waits from there on. It takes no memory. A look-up passes by the streams on which nothing waits, 64
    /// at once those that may be finished.
    pub fn next_to_send(&self, from: u64) -> Option<StreamId>
        ensures { ShowsNextToSend self.now from result }
    {
        earlier(self.next_waiting(from), self.requests.next_end(from))
    }
}
