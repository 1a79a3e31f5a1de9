//! The next stream on which bytes wait.
ghost use Rattle.std.specs.Prelude.{◌≡◌, ◌<◌, ◌^◌, ◌==◌, ◌&&◌};
ghost use Rattle.h3_connection.specs.NextWaiting.{IsLeast, ShowsNextWaiting};
ghost use Rattle.h3_connection.specs.OwnIds.{control_id};
ghost use Rattle.h3_requests.specs.Lesser.{lesser_of};
ghost use Rattle.h3_session.specs.Next.{has_own_bytes};

use super::Endpoint;
use h3_proto::stream::{Side, StreamId};

impl Endpoint {
    /// The first stream from this id on on which bytes wait to be sent, of the request streams and the local unidirectional ones. It is
    /// `None` if bytes wait on no stream from there on. It takes no memory. A look-up passes by the streams on which nothing waits, so
    /// going from each answer to the next costs one look-up for each stream that waits.
    pub fn next_waiting(&self, from: u64) -> Option<StreamId>
        ensures { ShowsNextWaiting self.now from result }
    {
        earlier(self.requests.next_waiting(from), self.next_own(from))
    }

    // The same of the local unidirectional streams alone.
    fn next_own(&self, from: u64) -> Option<StreamId>
        ensures { IsLeast (has_own_bytes self.now) from result }
    {
        let control = control_id(self.side);
        let first = earlier(
            self.own_from(control, from),
            self.own_from(control + 4, from),
        );
        earlier(first, self.own_from(control + 8, from))
    }

    // The local unidirectional stream of this number, if it is not before `from` and bytes wait on it.
    #[tactic(auto, using(crate::proofs::Next::least_before, crate::proofs::Next::least_fails, crate::proofs::Next::least_passes))]
    fn own_from(&self, number: u64, from: u64) -> Option<StreamId>
        requires { number < 2 ^ 62 }
        ensures { IsLeast (λ id. id == number && has_own_bytes self.now id) from result }
    {
        if number < from {
            return None;
        }
        let Ok(id) = StreamId::try_from(number) else {
            return None;
        };
        if self.has_own_bytes(id) {
            Some(id)
        } else {
            None
        }
    }

    // Whether bytes wait on a local unidirectional stream. (What waits there is asked first: mostly that is nothing.)
    fn has_own_bytes(&self, id: StreamId) -> bool
        ensures { result ≡ has_own_bytes self.now id }
    {
        if self.own_outgoing(id).is_empty() {
            return false;
        }
        self.sender(id).is_none()
    }
}

/// The lesser of two ids.
pub(super) fn earlier(one: Option<StreamId>, other: Option<StreamId>) -> Option<StreamId>
    ensures { result ≡ lesser_of one other }
{
    match (one, other) {
        (Some(first), Some(second)) => {
            if second.into_inner() < first.into_inner() {
                other
            } else {
                one
            }
        }
        (Some(_), None) => one,
        (None, _) => other,
    }
}

/// The id of the local control stream. Those of the encoder and decoder streams are four and eight more.
pub(super) fn control_id(side: Side) -> u64
    ensures { result ≡ control_id side }
{
    match side {
        Side::Client => 2,
        Side::Server => 3,
    }
}
