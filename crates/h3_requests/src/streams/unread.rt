//! How much of what came is still held.
ghost use Rattle.std.specs.Prelude.{◌≡◌, option_map, unwrap_or};
ghost use Rattle.h3_connection.specs.Incoming.{nothing_came};
ghost use Rattle.h3_connection.specs.State.{kept_at};
ghost use Rattle.h3_connection.specs.Unread.{held_of_request, counted};

use super::RequestStreams;
use h3_connection::setup::Announced;
use h3_proto::stream::StreamId;

impl RequestStreams {
    /// How many bytes came on a stream and are held, at most the greatest `usize`; 0 if the stream is not there. It takes no memory.
    pub fn held(&self, announced: &Announced, id: StreamId) -> usize
        ensures { result ≡ counted
            (held_of_request announced.now (unwrap_or (option_map (λ r. r.incoming) (kept_at self.now id)) nothing_came)) }
    {
        match self.streams.get_alike(id) {
            Some(stream) => stream.incoming().held(announced),
            None => 0,
        }
    }
}
