//! Which stream sends next, and what goes before what (RFC 9218, section 10).
ghost use Rattle.std.specs.Prelude.{◌≡◌, ◌<◌, ◌^◌, is_some, IfErr, IfSome, IsSome, OnErr, OnOk};
ghost use Rattle.h3_connection.specs.ByPriority.{Holds, SetsPriority, ShowsNextByPriority};
ghost use Rattle.h3_connection.specs.Calls.{AllSame, Sets};
ghost use Rattle.h3_connection.specs.Prioritizing.{SendsNext, UsesUpdates};
ghost use Rattle.h3_connection.specs.Order.{own_held, rounds_begun, turn_over};
ghost use Rattle.h3_connection.specs.OwnIds.{is_own};
ghost use Rattle.h3_connection.specs.State.{kept_at};
ghost use Rattle.h3_outgoing.specs.Sent.{preceding};
ghost use Rattle.h3_requests.specs.Ordered.{refused_unless, saying};
ghost use Rattle.h3_session.specs.Turns.{own_sends_in, first_own_in, has_turn_in, turn_in, BoundsTurn, EndsTurn};

use super::Endpoint;
use super::next::control_id;
use h3_connection::event::Refusal;
use h3_connection::order::{PrioritySource, SendOrder};
use h3_priority::priority::Priority;
use h3_proto::stream::{Side, StreamId};
use h3_scheduler::round::Rounds;

impl Endpoint {
    /// The stream that sends next (RFC 9218, section 10). The local control, encoder and decoder stream come first, in this order. Then
    /// comes a request stream, of those on which bytes or an end wait: one of the least urgency. Within an urgency the incremental streams
    /// and the first of the others take turns. A turn is over once `advance` takes bytes. A stream that is held (`hold`) is skipped.
    /// `None` if none sends. If no priority was set these are the streams of `next_to_send`, by their ids. It looks at no stream that does
    /// not send. What PRIORITY_UPDATE frames said since the last call (`Config::with_priority_updates`) counts. If an
    /// allocation fails for that, the next call tries once more; nothing else takes memory.
    pub fn next_by_priority(&mut self) -> Option<StreamId>
        ensures { SendsNext self.old self.new result }
    {
        self.use_any_updates();
        self.first_by_priority()
    }

    // The same, by what counts already.
    fn first_by_priority(&self) -> Option<StreamId>
        ensures { ShowsNextByPriority self.now result }
    {
        if let Some(own) = self.first_own() {
            return Some(own);
        }
        match &self.order.rounds {
            Some(rounds) => self.requests.next_by_priority(rounds),
            None => self.requests.next_by_priority(&Rounds::new()),
        }
    }

    // What PRIORITY_UPDATE frames said since the last call is used. (a function of its own: no call follows once its branches join)
    #[inline(always)]
    #[tactic(auto, using(crate::proofs::LookingAtUpdates::none_waits))]
    fn use_any_updates(&mut self)
        ensures { UsesUpdates self.old self.new }
    {
        if self.updates_waiting() > 0 {
            self.use_updates();
        }
    }

    // The first local unidirectional stream that sends.
    fn first_own(&self) -> Option<StreamId>
        ensures { result ≡ first_own_in self.now }
    {
        let control = control_id(self.side);
        if let Some(id) = self.own_if_sends(self.order.control_is_held, control) {
            return Some(id);
        }
        if let Some(id) = self.own_if_sends(self.order.encoder_is_held, control + 4) {
            return Some(id);
        }
        self.own_if_sends(self.order.decoder_is_held, control + 8)
    }

    // The local unidirectional stream of this number, if bytes wait on it and it is not held.
    fn own_if_sends(&self, is_held: bool, number: u64) -> Option<StreamId>
        requires { number < 2 ^ 62 }
        ensures { result ≡ own_sends_in self.now is_held number }
    {
        if is_held {
            return None;
        }
        let Ok(id) = StreamId::try_from(number) else {
            return None;
        };
        if self.own_outgoing(id).is_empty() {
            None
        } else {
            Some(id)
        }
    }

    /// A request stream has this priority at its sender from now on, whatever its client says: what a server knows better (RFC 9218,
    /// section 8). Refused are, in this order, a connection with a fault, a stream that is no request stream, one that is not open, and
    /// last a failed allocation. An `Err` changes nothing.
    pub fn set_priority(&mut self, id: StreamId, priority: Priority) -> Result<(), Refusal>
        ensures { SetsPriority self.old self.new id priority result }
    {
        match self.judge_priority(id) {
            Ok(()) => self.say_priority(id, PrioritySource::Own, priority),
            Err(refusal) => Err(refusal),
        }
    }

    // Somebody says the priority of a request stream, if it is there.
    pub(super) fn prioritize(
        &mut self,
        id: StreamId,
        source: PrioritySource,
        priority: Priority,
    ) -> Result<(), Refusal>
        ensures rest { self.new ≡ record self.old { requests = self.new.requests } }
        ensures ok { OnOk result (IfSome (kept_at self.old.requests id) (λ r.
            Sets self.old.requests self.new.requests id (record r {
              outgoing = preceding
                  (saying r.outgoing.precedence source priority) r.outgoing;
            }))) }
        ensures taken { OnOk result (IsSome (kept_at self.old.requests id)) }
        ensures why { IfErr result (λ r. r ≡ refused_unless (is_some (kept_at self.old.requests id))) }
        ensures err { OnErr result (AllSame self.old.requests self.new.requests) }
    {
        self.requests.say_priority(self.alloc, id, source, priority)
    }

    // Turns count from now on.
    pub(super) fn begin_rounds(&mut self)
        ensures { self.new ≡ record self.old { order = record self.old.order { rounds = rounds_begun self.old.order.rounds } } }
    {
        begin_rounds(&mut self.order);
    }

    /// QUIC has no credit for a stream, so `next_by_priority` skips it, or has it again. It may be a request stream that is open or a
    /// local unidirectional one. Refused are, in this order, a connection with a fault, any other stream, and last a failed allocation. An
    /// `Err` changes nothing.
    pub fn hold(&mut self, id: StreamId, is_held: bool) -> Result<(), Refusal>
        ensures { Holds self.old self.new id is_held result }
    {
        if let Some(code) = self.closed {
            return Err(Refusal::Closed(code));
        }
        if self.requests.contains(id) {
            return self.hold_request(id, is_held);
        }
        if self.hold_own(id, is_held) {
            Ok(())
        } else {
            Err(Refusal::NotOpen)
        }
    }

    // A request stream is skipped, or not any longer, if it is there.
    fn hold_request(&mut self, id: StreamId, is_held: bool) -> Result<(), Refusal>
        ensures rest { self.new ≡ record self.old { requests = self.new.requests } }
        ensures ok { OnOk result (IfSome (kept_at self.old.requests id) (λ r.
            Sets self.old.requests self.new.requests id (record r {
              outgoing = preceding
                  (record r.outgoing.precedence { is_held = is_held }) r.outgoing;
            }))) }
        ensures why { IfErr result (λ r. r ≡ refused_unless (is_some (kept_at self.old.requests id))) }
        ensures err { OnErr result (AllSame self.old.requests self.new.requests) }
    {
        self.requests.hold(self.alloc, id, is_held)
    }

    // A local unidirectional stream is held, or not any longer, and this returns whether it is one.
    fn hold_own(&mut self, id: StreamId, is_held: bool) -> bool
        ensures order { self.new ≡ record self.old { order = own_held self.old.order self.old.side id is_held } }
        ensures own { result ≡ is_own self.old.side id }
    {
        hold_own(&mut self.order, self.side, id, is_held)
    }

    // The turn of a request stream is over, if bytes of it are taken.
    pub(super) fn end_turn(&mut self, id: StreamId, count: usize)
        ensures { EndsTurn self.old self.new id count }
    {
        let Some(turn) = self.turn_of(id) else {
            return;
        };
        if count.min(turn.1) == 0 {
            return;
        }
        let until = self.turn_bound(turn.0, id);
        end_turn(&mut self.order, turn.0, id, until);
    }

    // Of which ids a round is that begins with this turn. If the stream has a turn in the round that is under way none begins, and any
    // number serves: so the streams are looked at once a round, and not at each turn.
    fn turn_bound(&self, priority: Priority, id: StreamId) -> u64
        ensures { BoundsTurn self.now priority id result }
    {
        if has_turn(&self.order, priority, id) {
            return 0;
        }
        self.first_unseen()
    }

    // The priority of a request stream, and how many bytes wait on it.
    fn turn_of(&self, id: StreamId) -> Option<(Priority, usize)>
        ensures { result ≡ turn_in self.now id }
    {
        match self.sender(id) {
            Some(stream) => Some((stream.precedence().priority, stream.waiting())),
            None => None,
        }
    }
}

// Whether a stream has a turn in the round of its urgency that is under way.
fn has_turn(order: &SendOrder, priority: Priority, id: StreamId) -> bool
    ensures { result ≡ has_turn_in order.now.rounds priority id }
{
    let Some(rounds) = &order.rounds else {
        return false;
    };
    let round = rounds.of(priority.urgency() as u64);
    round.within(Some(id.into_inner())).is_some()
}

// A turn is over.
fn end_turn(order: &mut SendOrder, priority: Priority, id: StreamId, until: u64)
    ensures { order.new ≡ record order.old { rounds = turn_over order.old.rounds priority id until } }
{
    if let Some(rounds) = &mut order.rounds {
        rounds.end_turn(priority, id.into_inner(), until);
    }
}

// Turns count from now on.
fn begin_rounds(order: &mut SendOrder)
    ensures { order.new ≡ record order.old { rounds = rounds_begun order.old.rounds } }
{
    if order.rounds.is_none() {
        order.rounds = Some(Rounds::new());
    }
}

// A local unidirectional stream is held, or not any longer, and this returns whether it is one.
fn hold_own(order: &mut SendOrder, side: Side, id: StreamId, is_held: bool) -> bool
    ensures order { order.new ≡ own_held order.old side id is_held }
    ensures own { result ≡ is_own side id }
{
    let control = control_id(side);
    let number = id.into_inner();
    if number == control {
        order.control_is_held = is_held;
    } else if number == control + 4 {
        order.encoder_is_held = is_held;
    } else if number == control + 8 {
        order.decoder_is_held = is_held;
    } else {
        return false;
    }
    true
}
