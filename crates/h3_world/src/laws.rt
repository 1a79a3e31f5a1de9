//! Laws over the definitions. These functions do nothing: their contracts are the laws.
ghost use Rattle.h3_world.specs.Setup.{Setup};
ghost use Rattle.h3_world.specs.World.{World};
ghost use Rattle.h3_world.specs.Step.{Step, IsExact};
ghost use Rattle.h3_world.specs.Machine.{served};
ghost use Rattle.h3_world.specs.Sound.{IsSoundWorld};
ghost use Rattle.h3_world.specs.declared.event.Event.{Event};

/// What the machine answers to any event, in a sound world, is a step that is allowed, and its pause is exact. So the steps can be
/// met.
pub fn the_machine_answers_as_allowed()
    ensures { (setup : Setup) (w : World) (e : Event) → IsSoundWorld setup w → Step setup w e (served setup w e).0 (served setup w e).1
        × IsExact w e (served setup w e).0 }
{}

ghost use Rattle.std.specs.Prelude.{◌≡◌, ℕ, false, None, is_none};
ghost use Rattle.h3_proto.specs.declared.stream.Side.{Side};
ghost use Rattle.h3_connection.specs.OwnIds.{other};
ghost use Rattle.h3_connection.specs.declared.event.Pull.{Pull};
ghost use Rattle.h3_world.specs.World.{party};
ghost use Rattle.h3_world.specs.Streams.{flow};
ghost use Rattle.h3_world.specs.Order.{next_part};
ghost use Rattle.h3_world.specs.Pauses.{PauseAllowed, pause_of};
ghost use Rattle.h3_world.specs.Pulling.{PausesExactly, settled};

/// In a sound world a pause that is exact is for bytes that are missing. These are bytes of the next part itself, or bytes that the encoder
/// stream had once it was sent.
pub fn pauses_wait_for_bytes()
    ensures { (setup : Setup) (w : World) (side : Side) (id : ℕ) (p : Pull) → IsSoundWorld setup w → settled w side id ≡ None
        → PausesExactly w side id p → is_none (pause_of p) ≡ false →
        PauseAllowed (flow w (other side) id) (party w (other side)).own.encoder_taken (next_part (flow w (other side) id)) }
{}

ghost use Rattle.std.specs.Prelude.{◌⊎◌, Some};
ghost use Rattle.h3_connection.specs.OwnIds.{encoder_id};
ghost use Rattle.h3_world.specs.Flow.Part.{End};
ghost use Rattle.h3_world.specs.Streams.{waiting};

/// With nothing left to deliver of a stream, which was not reset, and of its sender's encoder stream, an exact pause is after all parts, or
/// before the end alone.
pub fn with_all_delivered_pauses_are_at_the_end()
    ensures { (setup : Setup) (w : World) (side : Side) (id : ℕ) (p : Pull) → IsSoundWorld setup w → PausesExactly w side id p
        → (flow w (other side) id).is_reset ≡ false →
        waiting setup w (other side) id ≡ 0 → waiting setup w (other side) (encoder_id (other side)) ≡ 0 → settled w side id ≡ None
        → is_none (pause_of p) ≡ false →
        (next_part (flow w (other side) id) ≡ None) ⊎ (next_part (flow w (other side) id) ≡ Some End) }
{}

ghost use Rattle.h3_world.specs.World.{empty_world};
ghost use Rattle.h3_world.specs.Headline.{Happens};
ghost use Rattle.h3_world.specs.Sendable.{IsSendable};
ghost use Rattle.h3_world.specs.declared.event.Answer.{Answer};

/// The world before anything is sound, and every step that is exact, of an event that may be sent, keeps a world sound. All that is
/// said of a step holds of it: with everything delivered everything comes out, there is no connection fault, and no more streams
/// wait than were announced.
pub fn every_exact_step_happens()
    ensures begins { (setup : Setup) → IsSoundWorld setup (empty_world setup) }
    ensures kept { (setup : Setup) (w new : World) (e : Event) (a : Answer) → IsSendable setup e → Step setup w e a new → IsExact w e a
        → IsSoundWorld setup w → IsSoundWorld setup new }
    ensures both { (setup : Setup) (w new : World) (e : Event) (a : Answer) → IsSendable setup e → Step setup w e a new → IsExact w e a
        → IsSoundWorld setup w → Happens setup w e a new × IsSoundWorld setup new }
    ensures happens { (setup : Setup) (w new : World) (e : Event) (a : Answer) → Step setup w e a new → IsExact w e a → IsSoundWorld setup w
        → IsSoundWorld setup new → Happens setup w e a new }
{
    h3_qpack::laws::every_session_is_sound();
    h3_qpack::laws::encoders_without_insertions_use_no_table();
}

ghost use Rattle.std.specs.Prelude.{List};
ghost use Rattle.std.specs.List.{AllByRecursion};
ghost use Rattle.h3_world.specs.Run.{Run};
ghost use Rattle.h3_world.specs.Machine.{answers_from, world_after};

/// Over every schedule of events that may be sent there is a run of which all that is said holds: the machine's. And it holds of every
/// run of exact steps.
pub fn every_schedule_runs()
    ensures machine { (setup : Setup) (events : List Event) → AllByRecursion (IsSendable setup) events →
        Run (Happens setup) (empty_world setup) events (answers_from setup (empty_world setup) events)
        (world_after setup (empty_world setup) events) }
    ensures exact { (setup : Setup) (events : List Event) (answers : List Answer) (new : World) → AllByRecursion (IsSendable setup) events →
        Run (λ w e a v. Step setup w e a v × IsExact w e a) (empty_world setup) events answers new
        → Run (Happens setup) (empty_world setup) events answers new × IsSoundWorld setup new }
{
    h3_qpack::laws::every_session_is_sound();
    h3_qpack::laws::encoders_without_insertions_use_no_table();
}

ghost use Rattle.std.specs.Prelude.{◌<◌, Bool};
ghost use Rattle.h3_qpack.specs.Schedule.{SessionEvent, SessionRun, beginning};
ghost use Rattle.h3_qpack.specs.Session.{Session, count_of};

/// Over every schedule of one encoder, whose peer's limits come at any time, a section that names entries was written for the announced
/// capacity that the encoder goes by.
pub fn sections_have_the_capacity()
    ensures { (counts : Bool) (most : ℕ) (events : List SessionEvent) (s : Session) → SessionRun (beginning counts most 0 0) events s
        → AllByRecursion (λ b. 0 < count_of b → b.encoder.announced ≡ s.encoder.announced) s.sections }
{
    h3_qpack::laws::every_session_is_sound();
    h3_qpack::laws::canceled_streams_use_no_table();
}

ghost use Rattle.std.specs.Prelude.{◌+◌, ◌≤◌, false, true, length};
ghost use Rattle.h3_field.specs.Field.{Field};
ghost use Rattle.h3_proto.specs.declared.stream.Side.{Side};
ghost use Rattle.h3_world.specs.Came.{settings_came};
ghost use Rattle.h3_world.specs.Delivering.{delivered_message};
ghost use Rattle.h3_world.specs.Flow.{flow_bytes};
ghost use Rattle.h3_world.specs.Refused.{held_back, with_insertions};
ghost use Rattle.h3_world.specs.Streams.{flow, is_open};

/// A sound world is sound after an allocation failed: with the insertions for fields whose section was not written (`insertions`). It is
/// sound if what a decoder wrote before its side's settings came counts as not delivered (`held`). It is sound once bytes are read that
/// were delivered before their stream was reset (`bytes`).
pub fn what_refused_memory_leaves_is_sound()
    ensures insertions { (setup : Setup) (w : World) (side : Side) (id : ℕ) (fields : List Field) → IsSoundWorld setup w
        → IsSoundWorld setup (with_insertions w side id fields) }
    ensures held { (setup : Setup) (w : World) (side : Side) → settings_came setup w side ≡ false → IsSoundWorld setup w
        → IsSoundWorld setup (held_back w side) }
    ensures bytes { (setup : Setup) (w : World) (writer : Side) (id count : ℕ) → IsSoundWorld setup w → is_open w writer id ≡ true
        → (flow w writer id).delivered + count ≤ length (flow_bytes (flow w writer id)) →
        (flow w writer id).ended ≡ false → IsSoundWorld setup (delivered_message w writer id count) }
{
    h3_qpack::laws::every_session_is_sound();
    h3_qpack::laws::encoders_without_insertions_use_no_table();
}

ghost use Rattle.std.specs.Prelude.{None};
ghost use Rattle.h3_connection.specs.OwnIds.{other};
ghost use Rattle.h3_connection.specs.declared.event.StreamFault.{StreamFault};
ghost use Rattle.h3_world.specs.Sending.{given_up};

/// A sound world is sound once a side gave up what comes on a stream, for whatever fault, that it had not given up.
pub fn a_side_gives_a_stream_up()
    ensures { (setup : Setup) (w : World) (receiver : Side) (id : ℕ) (fault : StreamFault) → IsSoundWorld setup w
        → is_open w receiver id ≡ true → (flow w (other receiver) id).fault ≡ None → IsSoundWorld setup (given_up w receiver id fault) }
{}
