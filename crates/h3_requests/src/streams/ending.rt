//! Which request streams there were, and whether something is left to be done on one.
ghost use Rattle.std.specs.Prelude.{◌≡◌, ◌≤◌, ◌^◌, is_some};
ghost use Rattle.h3_connection.specs.State.{kept_at};
ghost use Rattle.h3_requests.specs.Done.{is_unfinished};
ghost use Rattle.h3_requests.specs.Greatest.{IsGreatest, IsOneOf};
ghost use Rattle.h3_connection.specs.FirstRequests.{count_below, first_pass};

use super::{RequestStreams, STEP, count_seen};

impl RequestStreams {
    /// The greatest id of a stream that is there. It looks at the streams under way, and mostly at one that is over.
    pub fn greatest(&self) -> Option<u64>
        ensures { IsGreatest (λ id. is_some (kept_at self.now id)) result }
    {
        self.streams.greatest()
    }

    /// Whether each request stream below this id is there (their ids are four apart: RFC 9000, section 2.1). It takes no memory, and
    /// mostly looks at one stream.
    pub fn has_all_below(&self, id: u64) -> bool
        requires { id ≤ 2 ^ 62 }
        ensures { result ≡ first_pass (λ q. is_some (kept_at self.now q)) (count_below id) }
    {
        id <= STEP * count_seen(&self.streams, self.seen)
    }

    /// The id of a stream on which something is left to be done. There is none if nothing is left on any. Then each was pulled to its end
    /// or given up, all that was sent on it was taken, and so was its end. It looks at the streams under way alone.
    pub fn unfinished(&self) -> Option<u64>
        ensures { IsOneOf (λ id. is_unfinished (kept_at self.now id)) result }
    {
        if let Some(id) = self.ready.next(0) {
            return Some(id.into_inner());
        }
        if let Some(id) = self.ready.next_end(0) {
            return Some(id.into_inner());
        }
        self.streams.undone()
    }
}
