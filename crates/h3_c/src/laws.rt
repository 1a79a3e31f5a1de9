//! The law of two programs that call the exports. This function does nothing: its contract is the law.
ghost use Rattle.std.specs.Prelude.{List};
ghost use Rattle.h3_world.specs.Small.{AreSmall};
ghost use Rattle.h3_world.specs.declared.event.Answer.{Answer};
ghost use Rattle.h3_world.specs.declared.event.Event.{Event};
ghost use Rattle.h3_world.specs.Setup.{Setup};
ghost use Rattle.h3_faithful.specs.Faithful.{Faithful};
ghost use Rattle.h3_c.specs.Programs.{Act, AreMade, Handles, Happen, StandFor};

/// Whatever a client and a server in C call, while the bytes of each stream go from one to the other in order, it stands for a schedule of
/// events and their answers. Of these `Faithful` holds: each side is given what the other one sent.
pub fn each_program_gets_what_the_other_sent()
    ensures { (setup : Setup) (h g : Handles) (acts : List Act) → AreMade setup h → Happen h acts g →
        (events : List Event) × (answers : List Answer) × StandFor h acts events answers g
        × (AreSmall events → Faithful setup events answers) }
{
    h3_faithful::laws::each_side_gets_what_the_other_sent();
    h3_session::laws::calls_are_steps_of_two_endpoints();
    h3_session::laws::schedules_within_bounds_may_be_sent();
}
