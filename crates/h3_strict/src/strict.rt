//! Laws over two endpoints that both ask for strict messages. These functions do nothing: their contracts are the laws.
ghost use Rattle.std.specs.Prelude.{◌≡◌, ℕ, List, true, false};
ghost use Rattle.std.specs.List.{AllByRecursion, list_any};
ghost use Rattle.h3_proto.specs.declared.stream.Side.{Side};
ghost use Rattle.h3_connection.specs.OwnIds.{other};
ghost use Rattle.h3_world.specs.Ends.{answers_of_ends, ends_after, new_ends};
ghost use Rattle.h3_world.specs.Headline.{Happens, is_connection_fault};
ghost use Rattle.h3_world.specs.Run.{Run};
ghost use Rattle.h3_world.specs.Sendable.{IsSendable};
ghost use Rattle.h3_world.specs.Setup.{IsMadeSetup, Setup};
ghost use Rattle.h3_world.specs.World.{World, empty_world};
ghost use Rattle.h3_world.specs.declared.event.Event.{Event};
ghost use Rattle.h3_headline.specs.Exactly.{IsAllOf, IsExactly, reader_at};
ghost use Rattle.h3_headline.specs.Messages.{IsFrontOf, has_finished, has_pulled_end, pulled, sent};
ghost use Rattle.h3_headline.specs.Standing.{Stands};
ghost use Rattle.h3_strict.specs.PlainEnds.{NoneJudges, answers_without_malformed, plain_ends, plain_setup, without_malformed};
ghost use Rattle.h3_strict.specs.ServerKnows.{ServerKnows};
ghost use Rattle.h3_strict.specs.Tallies.{JudgesStrictly};

/// Two endpoints take what they send each other, if both ask for strict messages and do not limit what is unfinished. No pull finds a
/// message malformed, nor a trailer in a tunnel (RFC 9114, sections 4.1.2, 4.2 to 4.5). The schedule's server sends the final header
/// section of a response only if it pulled the header section of that request before.
pub fn strict_endpoints_take_what_they_send()
    ensures { (setup : Setup) (events : List Event) → IsMadeSetup setup → JudgesStrictly setup → AllByRecursion (IsSendable setup) events →
        ServerKnows events (answers_of_ends (new_ends setup) events) → NoneJudges (new_ends setup) events }
{
    h3_headline::laws::what_is_cited_holds();
    h3_headline::laws::two_endpoints_run_in_a_world();
}

/// So two such endpoints run in a world, over every such schedule of events that may be sent. The answers without the sends that were
/// refused as malformed are those of a run of the world of the setup that asks for no strict messages (`world`). By the answers alone, no
/// answer tells of a connection fault (`fault`). What a side pulled from a stream is a front of what the other side sent on it (`front`),
/// and all of that with the end (`end`).
pub fn two_strict_endpoints_run_in_a_world()
    ensures world { (setup : Setup) (events : List Event) → IsMadeSetup setup → JudgesStrictly setup
        → AllByRecursion (IsSendable setup) events →
        ServerKnows events (answers_of_ends (new_ends setup) events) →
        (w : World) × Run (Happens (plain_setup setup)) (empty_world (plain_setup setup))
        (without_malformed events (answers_of_ends (new_ends setup) events))
        (answers_without_malformed (answers_of_ends (new_ends setup) events)) w
        × Stands (plain_setup setup) w (plain_ends (ends_after (new_ends setup) events)) }
    ensures fault { (setup : Setup) (events : List Event) → IsMadeSetup setup → JudgesStrictly setup
        → AllByRecursion (IsSendable setup) events →
        ServerKnows events (answers_of_ends (new_ends setup) events)
        → list_any is_connection_fault (answers_of_ends (new_ends setup) events) ≡ false }
    ensures front { (setup : Setup) (events : List Event) (side : Side) (id : ℕ) → IsMadeSetup setup → JudgesStrictly setup
        → AllByRecursion (IsSendable setup) events →
        ServerKnows events (answers_of_ends (new_ends setup) events) →
        IsFrontOf (IsExactly (reader_at setup side)) (pulled side id events (answers_of_ends (new_ends setup) events))
        (sent (other side) id events (answers_of_ends (new_ends setup) events)) }
    ensures end { (setup : Setup) (events : List Event) (side : Side) (id : ℕ) → IsMadeSetup setup → JudgesStrictly setup
        → AllByRecursion (IsSendable setup) events →
        ServerKnows events (answers_of_ends (new_ends setup) events)
        → has_pulled_end side id events (answers_of_ends (new_ends setup) events) ≡ true →
        IsAllOf (IsExactly (reader_at setup side)) (pulled side id events (answers_of_ends (new_ends setup) events))
        (sent (other side) id events (answers_of_ends (new_ends setup) events))
        × (has_finished (other side) id events (answers_of_ends (new_ends setup) events) ≡ true) }
{
    strict_endpoints_take_what_they_send();
    crate::laws::whole_runs_are_plain();
    crate::laws::strict_endpoints_run_in_a_world();
    crate::laws::strict_endpoints_hand_out_what_was_sent();
}
