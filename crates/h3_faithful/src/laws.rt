//! The statement. This function does nothing: its contract is the law.
ghost use Rattle.std.specs.List.{AllByRecursion, list_any};
ghost use Rattle.std.specs.Prelude.{◌≡◌, List, false, true};
ghost use Rattle.h3_world.specs.Ends.{Ends, new_ends};
ghost use Rattle.h3_world.specs.Headline.{is_connection_fault};
ghost use Rattle.h3_world.specs.Sendable.{IsSendableBy};
ghost use Rattle.h3_world.specs.Setup.{IsMadeSetup, Setup};
ghost use Rattle.h3_world.specs.declared.event.Answer.{Answer};
ghost use Rattle.h3_world.specs.declared.event.Event.{Event};
ghost use Rattle.h3_memory.specs.Refused.{EndsRun};
ghost use Rattle.h3_faithful.specs.Faithful.{Faithful};
ghost use Rattle.h3_faithful.specs.Steps.{RunsUntilFault, StandsAnywhere};

/// What a client and a server get of each other. It is so of every setup, over every schedule of events that may be sent, however both
/// answer by the contracts of their calls, whichever allocations fail, up to a fault of the connection. Between sides that both ask for
/// strict messages, or both do not, there is no such fault (`faithful`), whatever they limit. The answers up to it are those of a run
/// (`runs`), in whose last world both stand if there is none (`stands`).
pub fn each_side_gets_what_the_other_sent()
    ensures runs { (setup : Setup) (events : List Event) (answers : List Answer) (ends : Ends) → IsMadeSetup setup
        → AllByRecursion (IsSendableBy true) events → EndsRun (new_ends setup) events answers ends → RunsUntilFault setup events answers }
    ensures stands { (setup : Setup) (events : List Event) (answers : List Answer) (ends : Ends) → IsMadeSetup setup
        → AllByRecursion (IsSendableBy true) events → EndsRun (new_ends setup) events answers ends →
        list_any is_connection_fault answers ≡ false → StandsAnywhere setup events answers ends }
    ensures faithful { (setup : Setup) (events : List Event) (answers : List Answer) (ends : Ends) → IsMadeSetup setup
        → AllByRecursion (IsSendableBy true) events → EndsRun (new_ends setup) events answers ends → Faithful setup events answers }
{
    h3_connection::laws::tries_and_waiting_streams_are_bounded();
    h3_world::laws::with_all_delivered_pauses_are_at_the_end();
    h3_headline::parts::ordered_sends_are_accepted();
    h3_memory::laws::two_endpoints_run_with_memory();
    h3_memory::laws::every_event_steps_on();
    h3_memory::laws::each_step_keeps_worlds_sound();
    h3_memory::laws::each_step_moves_messages();
    h3_memory::laws::a_side_gives_a_stream_up();
    h3_memory::laws::ends_stand_once_a_stream_is_given_up();
    h3_memory::in_order::what_is_kept_is_read_in_order();
    h3_memory::in_order::quiet_events_move_no_part();
    h3_strict::laws::new_ends_are_plain();
    h3_strict::laws::each_event_steps_plainly();
    h3_strict::laws::ends_do_the_same_plainly();
    h3_strict::laws::pulls_are_plain_or_give_a_message_up();
    h3_strict::laws::sides_that_judge_plainly_count_nothing();
    h3_strict::laws::ends_stay_bounded();
    h3_strict::alike::tunnels_stand_whatever_is_kept();
}
