//! Laws over two endpoints that may ask for strict messages. These functions do nothing: their contracts are the laws.
ghost use Rattle.std.specs.Prelude.{◌≡◌, List, false};
ghost use Rattle.std.specs.List.{list_any};
ghost use Rattle.h3_proto.specs.declared.stream.Side.{Side};
ghost use Rattle.h3_connection.specs.Endpoint.{EndpointHistory, new_endpoint};
ghost use Rattle.h3_connection.specs.declared.setup.Announced.{Announced};
ghost use Rattle.h3_world.specs.Ends.{Ends, answered, answers_of_ends, new_ends};
ghost use Rattle.h3_world.specs.Setup.{IsMadeSetup, JudgesPlainly, Setup};
ghost use Rattle.h3_world.specs.declared.event.Event.{Event};
ghost use Rattle.h3_strict.specs.PlainEnds.{AreBounded, FewWaitAt, IsFront, NoneJudges, RunsPlainly, StepsPlainly, asks_strictly};
ghost use Rattle.h3_strict.specs.PlainEnds.{before_judged, finds_fault, plain_ends, plain_setup};
ghost use Rattle.std.specs.Prelude.{ℕ};
ghost use Rattle.std.specs.Prelude.{Some};
ghost use Rattle.h3_connection.specs.Delivering.{with_incoming};
ghost use Rattle.h3_connection.specs.Incoming.{Incoming};
ghost use Rattle.h3_connection.specs.PartReading.{CountsOn, ReadsPart};
ghost use Rattle.h3_connection.specs.StreamSets.{stream_at};
ghost use Rattle.h3_connection.specs.Sending.{advance};
ghost use Rattle.h3_connection.specs.declared.arrival.Arrival.{Arrival};
ghost use Rattle.h3_world.specs.Ends.{end_at};
ghost use Rattle.h3_strict.specs.CountsNothing.{CountsNothing, KeepsTo, RefusesAlike};
ghost use Rattle.h3_strict.specs.PlainAlike.{DoesPlainly};
ghost use Rattle.h3_strict.specs.Plainly.{plain, plainly};

/// Without strict messages a new endpoint, and two new ends, are those of the setup that asks for none. That setup is made if the other one
/// is.
pub fn new_ends_are_plain()
    ensures endpoint { (side : Side) (announced : Announced) → plainly (new_endpoint side announced) ≡ new_endpoint side (plain announced) }
    ensures ends { (setup : Setup) → plain_ends (new_ends setup) ≡ new_ends (plain_setup setup) }
    ensures made { (setup : Setup) → IsMadeSetup setup → IsMadeSetup (plain_setup setup) }
    ensures plain { (setup : Setup) → JudgesPlainly (plain_setup setup) }
{}

/// Each event at two ends, beside the same ends without strict messages, is one of these. A send is refused as malformed, and nothing has
/// changed. A pull finds a message malformed, a trailer in a tunnel or a frame too long, or a delivery is too long for a reader with a
/// limit. Or the event is answered alike, and the ends after it are the same without strict messages.
pub fn each_event_steps_plainly()
    ensures { (ends : Ends) (e : Event) → StepsPlainly ends e }
{}

/// What an end does, beside the same end that judges plainly. Each call is refused alike. Or it is refused as malformed, and the other end
/// accepts it or finds it too large. Both have the same to send, take the same, and read what came up to the same point.
pub fn ends_do_the_same_plainly()
    ensures { (e : EndpointHistory) → DoesPlainly e }
{}

/// A side keeps to what it announced. If that asks for no strict messages, it counts nothing of what it sends, nor of what comes
/// (`CountsNothing`). Then it refuses each send as the same end does that judges plainly, but for a list or header that it does not read
/// itself.
pub fn sides_that_judge_plainly_count_nothing()
    ensures first { (side : Side) (own : Announced) → KeepsTo own (new_endpoint side own) }
    ensures event { (own : Announced) (ends : Ends) (side : Side) → KeepsTo own (end_at ends side) → (e : Event)
        → KeepsTo own (end_at (answered ends e).1 side) }
    ensures reads { (own : Announced) (e new : EndpointHistory) (arrivals : List Arrival) → ReadsPart e arrivals new → KeepsTo own e
        → KeepsTo own new }
    ensures asked { (own : Announced) (e : EndpointHistory) (id : ℕ) (old new : Incoming) → KeepsTo own e
        → stream_at e.incoming id ≡ Some old → CountsOn old.content new.content → KeepsTo own (with_incoming e id new) }
    ensures advances { (own : Announced) (e : EndpointHistory) (id count : ℕ) → KeepsTo own e → KeepsTo own (advance e id count) }
    ensures sends { (own : Announced) (e : EndpointHistory) → CountsNothing own e → RefusesAlike e }
{}

/// No more streams of new ends wait for insertions than each announced, and each event keeps them so: an event that judges there tells so.
pub fn ends_stay_bounded()
    ensures made { (setup : Setup) → AreBounded (new_ends setup) }
    ensures kept { (ends : Ends) (e : Event) → AreBounded ends → AreBounded (answered ends e).1 }
    ensures few { (ends : Ends) → AreBounded ends → FewWaitAt ends }
{
    h3_connection::laws::tries_and_waiting_streams_are_bounded();
}

/// A schedule in which no event judges so is answered, without the sends that were refused as malformed, as by the ends without strict
/// messages over the other events (`all`). By its answers alone, so is each in which no answer finds a fault, if no more streams wait than
/// may (`faultless`). There no pull was answered by a malformed message, a frame at the wrong place or one too long, and no delivery by the
/// fault of what is too long. So that no pull is answered by another fault of the connection is no premise, and follows. So is every
/// schedule up to the first event that judges answered (`front`): these events are a front of it, and their answers one of its answers.
pub fn whole_runs_are_plain()
    ensures all { (ends : Ends) (events : List Event) → NoneJudges ends events → RunsPlainly ends events }
    ensures faultless { (ends : Ends) (events : List Event) → AreBounded ends
        → list_any (finds_fault (asks_strictly ends)) (answers_of_ends ends events) ≡ false → RunsPlainly ends events }
    ensures front { (ends : Ends) (events : List Event) → IsFront ends events (before_judged ends events)
        × RunsPlainly ends (before_judged ends events) }
    ensures none { (ends : Ends) (events : List Event) → NoneJudges ends (before_judged ends events) }
    ensures whole { (ends : Ends) (events : List Event) → NoneJudges ends events → before_judged ends events ≡ events }
{
    ends_stay_bounded();
}

ghost use Rattle.std.specs.List.{AllByRecursion};
ghost use Rattle.h3_world.specs.Ends.{ends_after};
ghost use Rattle.h3_world.specs.Headline.{Happens};
ghost use Rattle.h3_world.specs.Run.{Run};
ghost use Rattle.h3_world.specs.Sendable.{IsSendable};
ghost use Rattle.h3_world.specs.World.{World, empty_world};
ghost use Rattle.h3_headline.specs.Standing.{Stands};
ghost use Rattle.h3_strict.specs.PlainEnds.{answers_without_malformed, without_malformed};

/// So two endpoints that may ask for strict messages run in a world, over every schedule of events that may be sent and is answered so. The
/// answers without the sends that were refused as malformed are those of a run of the world of the setup that asks for no strict messages.
/// All that is said of each step holds there, and both ends without strict messages stand in the world that it leads to.
pub fn strict_endpoints_run_in_a_world()
    ensures { (setup : Setup) (events : List Event) → IsMadeSetup setup → AllByRecursion (IsSendable setup) events
        → RunsPlainly (new_ends setup) events →
        (w : World) × Run (Happens (plain_setup setup)) (empty_world (plain_setup setup))
        (without_malformed events (answers_of_ends (new_ends setup) events))
        (answers_without_malformed (answers_of_ends (new_ends setup) events)) w
        × Stands (plain_setup setup) w (plain_ends (ends_after (new_ends setup) events)) }
{
    h3_headline::laws::two_endpoints_run_in_a_world();
}

ghost use Rattle.std.specs.Prelude.{Bool, true};
ghost use Rattle.h3_connection.specs.OwnIds.{other};
ghost use Rattle.h3_world.specs.Headline.{is_connection_fault};
ghost use Rattle.h3_headline.specs.Exactly.{IsAllOf, IsExactly, reader_at};
ghost use Rattle.h3_headline.specs.Messages.{IsFrontOf, has_finished, has_pulled_end, pulled, sent};

/// By their own answers, with no world in view: in such a schedule no answer tells of a connection fault. What a side pulled from a stream
/// is a front of what the other side sent on it, and all of that with the end.
pub fn strict_endpoints_hand_out_what_was_sent()
    ensures fault { (setup : Setup) (events : List Event) → IsMadeSetup setup → AllByRecursion (IsSendable setup) events
        → RunsPlainly (new_ends setup) events → list_any is_connection_fault (answers_of_ends (new_ends setup) events) ≡ false }
    ensures front { (setup : Setup) (events : List Event) (side : Side) (id : ℕ) → IsMadeSetup setup
        → AllByRecursion (IsSendable setup) events → RunsPlainly (new_ends setup) events →
        IsFrontOf (IsExactly (reader_at setup side)) (pulled side id events (answers_of_ends (new_ends setup) events))
        (sent (other side) id events (answers_of_ends (new_ends setup) events)) }
    ensures end { (setup : Setup) (events : List Event) (side : Side) (id : ℕ) → IsMadeSetup setup
        → AllByRecursion (IsSendable setup) events → RunsPlainly (new_ends setup) events →
        has_pulled_end side id events (answers_of_ends (new_ends setup) events) ≡ true →
        IsAllOf (IsExactly (reader_at setup side)) (pulled side id events (answers_of_ends (new_ends setup) events))
        (sent (other side) id events (answers_of_ends (new_ends setup) events))
        × (has_finished (other side) id events (answers_of_ends (new_ends setup) events) ≡ true) }
{
    h3_headline::parts::endpoints_hand_out_what_was_sent();
}

/// If no event judges in such a schedule of new ends, no answer finds a message malformed, a frame at the wrong place or one too long. So
/// the answers alone tell what is judged.
pub fn schedules_that_judge_nothing_find_no_fault()
    ensures { (setup : Setup) (events : List Event) (strict : Bool) → IsMadeSetup setup → AllByRecursion (IsSendable setup) events
        → NoneJudges (new_ends setup) events → list_any (finds_fault strict) (answers_of_ends (new_ends setup) events) ≡ false }
{
    h3_headline::laws::two_endpoints_run_in_a_world();
    strict_endpoints_hand_out_what_was_sent();
}

ghost use Rattle.h3_strict.specs.PullPlainly.{PullPlainly};

/// A pull of any end, whatever it keeps, is answered as by the same end that judges plainly. Or it is answered by a fault of the
/// connection. Or it finds a message malformed and gives it up, once all that is kept is read: at once, or after the section that the other
/// end returns. An end that counts nothing and has no limit gives one up so only if it does not read the section that is next.
pub fn pulls_are_plain_or_give_a_message_up()
    ensures { (e : EndpointHistory) (id : ℕ) → PullPlainly e id }
{}
