//! The next stream that waited for insertions, which came.
ghost use Rattle.h3_session.specs.Unblocked.{ShowsNextUnblocked};

use super::Endpoint;

impl Endpoint {
    /// The least id from this one on of a stream that is unblocked: a pull of it answered `Waiting`, and the insertions that it waits for
    /// came (RFC 9204, section 2.1.2). `None` if there is none from there on. It takes no memory. It looks at each stream that is under
    /// way, and at none if no stream is unblocked.
    #[tactic(auto, using(crate::proofs::Unblocked::shows_next))]
    pub fn next_unblocked(&self, from: u64) -> Option<u64>
        ensures { ShowsNextUnblocked self.now from result }
    {
        let inserted = self.streams.decoding.decoder().inserted();
        self.requests.next_unblocked(inserted, from)
    }
}
