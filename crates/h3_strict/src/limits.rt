//! Laws over two endpoints that limit what is unfinished. These functions do nothing: their contracts are the laws.
ghost use Rattle.std.specs.Prelude.{◌≡◌, ℕ, List, true, false};
ghost use Rattle.std.specs.List.{AllByRecursion, list_any};
ghost use Rattle.h3_proto.specs.declared.stream.Side.{Side};
ghost use Rattle.h3_connection.specs.OwnIds.{other};
ghost use Rattle.h3_world.specs.Ends.{answers_of_ends, ends_after, new_ends};
ghost use Rattle.h3_world.specs.Headline.{Happens, is_connection_fault};
ghost use Rattle.h3_world.specs.Run.{Run};
ghost use Rattle.h3_world.specs.Sendable.{IsSendable};
ghost use Rattle.h3_world.specs.Setup.{IsMadeSetup, Setup};
ghost use Rattle.h3_world.specs.World.{World, empty_world};
ghost use Rattle.h3_world.specs.declared.event.Event.{Event};
ghost use Rattle.h3_headline.specs.Exactly.{IsAllOf, IsExactly, reader_at};
ghost use Rattle.h3_headline.specs.Messages.{IsFrontOf, has_finished, has_pulled_end, pulled, sent};
ghost use Rattle.h3_headline.specs.Standing.{Stands};
ghost use Rattle.h3_strict.specs.Limits.{AreTaken, AsksForNone, AsksForStrict, EarlyAreTaken, LimitsTakeWhatIsSent, RunsUnlimited};
ghost use Rattle.h3_strict.specs.Limits.{unlimited_ends, unlimited_setup};
ghost use Rattle.h3_strict.specs.PlainEnds.{NoneJudges, answers_without_malformed, plain_ends, plain_setup, without_malformed};
ghost use Rattle.h3_strict.specs.ServerKnows.{ServerKnows};

/// Limits on what is unfinished change nothing under two premises. Each list of fields that a side sends is one whose encoding its reader
/// takes, and no delivery is answered by the fault of what is too long. Then the schedule is answered as by the same two endpoints without
/// limits, and leads to the same ends. So it is if neither side asks for strict messages (`plain`), and if both do (`strict`).
pub fn limits_that_take_what_is_sent_change_nothing()
    ensures plain { (setup : Setup) (events : List Event) → IsMadeSetup setup → AsksForNone setup
        → AllByRecursion (IsSendable setup) events →
        AreTaken setup events (answers_of_ends (new_ends setup) events) → RunsUnlimited (new_ends setup) events }
    ensures strict { (setup : Setup) (events : List Event) → IsMadeSetup setup → AsksForStrict setup
        → AllByRecursion (IsSendable setup) events →
        ServerKnows events (answers_of_ends (new_ends setup) events) → AreTaken setup events (answers_of_ends (new_ends setup) events)
        → RunsUnlimited (new_ends setup) events }
{
    h3_qpack::laws::encoded_sections_are_short();
    h3_headline::laws::two_endpoints_run_in_a_world();
    crate::strict::two_strict_endpoints_run_in_a_world();
}

/// A side that knows the other side's settings sends no list above the size that these announce, and no instruction for a larger table than
/// they announce. On its control stream it sends its settings and GOAWAY frames, and its decoder writes numbers. Each limit of a setup that
/// was made takes every list of the size, and every instruction for the table, that its side announces, whatever their encoding. It takes
/// those frames and numbers too (`made`). So each limit takes what is sent to it, once the lists that were sent before the settings came
/// are taken too. No delivery is then answered by the fault of what is too long.
pub fn limits_above_what_is_announced_take_what_is_sent()
    ensures made { (setup : Setup) → IsMadeSetup setup → LimitsTakeWhatIsSent setup }
    ensures plain { (setup : Setup) (events : List Event) → IsMadeSetup setup → AsksForNone setup
        → AllByRecursion (IsSendable setup) events →
        EarlyAreTaken setup (new_ends setup) events → AreTaken setup events (answers_of_ends (new_ends setup) events) }
    ensures strict { (setup : Setup) (events : List Event) → IsMadeSetup setup → AsksForStrict setup
        → AllByRecursion (IsSendable setup) events →
        ServerKnows events (answers_of_ends (new_ends setup) events) → EarlyAreTaken setup (new_ends setup) events
        → AreTaken setup events (answers_of_ends (new_ends setup) events) }
{
    h3_qpack::laws::encoded_sections_are_short();
    h3_headline::laws::what_is_cited_holds();
    h3_headline::laws::two_endpoints_run_in_a_world();
    crate::strict::two_strict_endpoints_run_in_a_world();
}

/// So two endpoints that ask for no strict messages run in a world whatever their limits. It is so over every schedule of events that may
/// be sent in which each limit takes the lists that were sent to it before its side's settings came. The answers are those of a run of the
/// world of the setup without limits (`world`). By the answers alone, no answer tells of a connection fault (`fault`). What a side pulled
/// from a stream is a front of what the other side sent on it (`front`), and all of that with the end (`end`).
pub fn two_limited_endpoints_run_in_a_world()
    ensures world { (setup : Setup) (events : List Event) → IsMadeSetup setup → AsksForNone setup → AllByRecursion (IsSendable setup) events
        → EarlyAreTaken setup (new_ends setup) events → (w : World)
        × Run (Happens (unlimited_setup setup)) (empty_world (unlimited_setup setup)) events
        (answers_of_ends (new_ends setup) events) w
        × Stands (unlimited_setup setup) w (unlimited_ends (ends_after (new_ends setup) events)) }
    ensures fault { (setup : Setup) (events : List Event) → IsMadeSetup setup → AsksForNone setup → AllByRecursion (IsSendable setup) events
        → EarlyAreTaken setup (new_ends setup) events →
        list_any is_connection_fault (answers_of_ends (new_ends setup) events) ≡ false }
    ensures front { (setup : Setup) (events : List Event) (side : Side) (id : ℕ) → IsMadeSetup setup → AsksForNone setup
        → AllByRecursion (IsSendable setup) events → EarlyAreTaken setup (new_ends setup) events →
        IsFrontOf (IsExactly (reader_at setup side)) (pulled side id events (answers_of_ends (new_ends setup) events))
        (sent (other side) id events (answers_of_ends (new_ends setup) events)) }
    ensures end { (setup : Setup) (events : List Event) (side : Side) (id : ℕ) → IsMadeSetup setup → AsksForNone setup
        → AllByRecursion (IsSendable setup) events → EarlyAreTaken setup (new_ends setup) events →
        has_pulled_end side id events (answers_of_ends (new_ends setup) events) ≡ true →
        IsAllOf (IsExactly (reader_at setup side)) (pulled side id events (answers_of_ends (new_ends setup) events))
        (sent (other side) id events (answers_of_ends (new_ends setup) events))
        × (has_finished (other side) id events (answers_of_ends (new_ends setup) events) ≡ true) }
{
    limits_that_take_what_is_sent_change_nothing();
    limits_above_what_is_announced_take_what_is_sent();
    h3_headline::laws::two_endpoints_run_in_a_world();
    h3_headline::parts::endpoints_hand_out_what_was_sent();
}

/// And so do two endpoints that both ask for strict messages, if the server knows what was asked when it answers. No event judges a message
/// or finds a frame too long (`none`), and all of the above holds without the sends that were refused as malformed.
pub fn two_strict_limited_endpoints_run_in_a_world()
    ensures none { (setup : Setup) (events : List Event) → IsMadeSetup setup → AsksForStrict setup
        → AllByRecursion (IsSendable setup) events →
        ServerKnows events (answers_of_ends (new_ends setup) events) → EarlyAreTaken setup (new_ends setup) events
        → NoneJudges (new_ends setup) events }
    ensures world { (setup : Setup) (events : List Event) → IsMadeSetup setup → AsksForStrict setup
        → AllByRecursion (IsSendable setup) events →
        ServerKnows events (answers_of_ends (new_ends setup) events) → EarlyAreTaken setup (new_ends setup) events →
        (w : World) × Run (Happens (plain_setup setup)) (empty_world (plain_setup setup))
        (without_malformed events (answers_of_ends (new_ends setup) events))
        (answers_without_malformed (answers_of_ends (new_ends setup) events)) w
        × Stands (plain_setup setup) w (plain_ends (ends_after (new_ends setup) events)) }
    ensures fault { (setup : Setup) (events : List Event) → IsMadeSetup setup → AsksForStrict setup
        → AllByRecursion (IsSendable setup) events →
        ServerKnows events (answers_of_ends (new_ends setup) events) → EarlyAreTaken setup (new_ends setup) events
        → list_any is_connection_fault (answers_of_ends (new_ends setup) events) ≡ false }
    ensures front { (setup : Setup) (events : List Event) (side : Side) (id : ℕ) → IsMadeSetup setup → AsksForStrict setup
        → AllByRecursion (IsSendable setup) events →
        ServerKnows events (answers_of_ends (new_ends setup) events) → EarlyAreTaken setup (new_ends setup) events →
        IsFrontOf (IsExactly (reader_at setup side)) (pulled side id events (answers_of_ends (new_ends setup) events))
        (sent (other side) id events (answers_of_ends (new_ends setup) events)) }
    ensures end { (setup : Setup) (events : List Event) (side : Side) (id : ℕ) → IsMadeSetup setup → AsksForStrict setup
        → AllByRecursion (IsSendable setup) events →
        ServerKnows events (answers_of_ends (new_ends setup) events) → EarlyAreTaken setup (new_ends setup) events
        → has_pulled_end side id events (answers_of_ends (new_ends setup) events) ≡ true →
        IsAllOf (IsExactly (reader_at setup side)) (pulled side id events (answers_of_ends (new_ends setup) events))
        (sent (other side) id events (answers_of_ends (new_ends setup) events))
        × (has_finished (other side) id events (answers_of_ends (new_ends setup) events) ≡ true) }
{
    limits_that_take_what_is_sent_change_nothing();
    limits_above_what_is_announced_take_what_is_sent();
    crate::strict::strict_endpoints_take_what_they_send();
    crate::laws::whole_runs_are_plain();
    crate::laws::strict_endpoints_run_in_a_world();
    crate::laws::strict_endpoints_hand_out_what_was_sent();
}
