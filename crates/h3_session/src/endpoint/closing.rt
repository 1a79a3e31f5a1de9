//! A stream is given up both ways.
ghost use Rattle.std.specs.Prelude.{◌≡◌};
ghost use Rattle.h3_connection.specs.Answers.{call_refused};
ghost use Rattle.h3_session.specs.Closing.{ClosesStream, is_ended, unless_ended};

use super::Endpoint;
use h3_connection::event::Refusal;
use h3_proto::stream::StreamId;

/// What QUIC is to send for a stream that was given up (RFC 9000, section 3.5).
#[derive(Clone, Copy, Debug, PartialEq, Eq)]
pub struct ClosedStream {
    /// STOP_SENDING: neither the end of the peer's half came nor its reset.
    pub stop_sending: bool,
    /// RESET_STREAM: the local half had not ended.
    pub reset_stream: bool,
}

impl Endpoint {
    /// Gives a request stream up both ways, as `cancel` and then `reset` do. A direction that is over stays as it is, and refuses nothing:
    /// the answer says which of STOP_SENDING and RESET_STREAM QUIC is to send. Refused are first calls after a connection fault, then
    /// streams that the connection needs, then those that are not open. `OutOfMemory` changes nothing.
    #[tactic(auto, using(crate::proofs::Closing::closes_not))]
    pub fn close_stream(&mut self, id: StreamId) -> Result<ClosedStream, Refusal>
        ensures { ClosesStream self.old self.new id result }
    {
        let arrival = self.arrival_refusal(id);
        let canceled = self.cancel(id);
        if let Some(refusal) = unless_ended(&canceled) {
            return Err(refusal);
        }
        let reset = self.reset(id);
        Ok(ClosedStream {
            stop_sending: arrival.is_none(),
            reset_stream: reset.is_ok(),
        })
    }
}

/// Why a stream is not given up: that nothing more comes on it already is no refusal.
fn unless_ended(canceled: &Result<(), Refusal>) -> Option<Refusal>
    ensures { result ≡ unless_ended (call_refused canceled.now) }
{
    match canceled {
        Ok(()) => None,
        Err(refusal) => {
            if is_ended(refusal) {
                None
            } else {
                Some(*refusal)
            }
        }
    }
}

fn is_ended(refusal: &Refusal) -> bool
    ensures { result ≡ is_ended refusal.now }
{
    match refusal {
        Refusal::Ended => true,
        Refusal::Closed(_)
        | Refusal::Connection(_)
        | Refusal::NotReceiving
        | Refusal::AfterEnd
        | Refusal::Kept
        | Refusal::NotClient
        | Refusal::GoingAway(_)
        | Refusal::IdsUsedUp
        | Refusal::NotOpen
        | Refusal::OutOfOrder
        | Refusal::WrongSide
        | Refusal::PseudoInTrailer
        | Refusal::Malformed(_)
        | Refusal::TooLarge(_)
        | Refusal::Critical
        | Refusal::NotRequestId
        | Refusal::Raised(_)
        | Refusal::OutOfMemory => false,
    }
}
