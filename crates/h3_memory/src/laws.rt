//! Laws over the definitions. These functions do nothing: their contracts are the laws.
ghost use Rattle.std.specs.List.{AllByRecursion, list_any};
ghost use Rattle.std.specs.Prelude.{◌≡◌, ℕ, List, [], None, false, is_none, length, true};
ghost use Rattle.h3_field.specs.Field.{Field};
ghost use Rattle.h3_header.specs.Head.{Head as Fields};
ghost use Rattle.h3_proto.specs.declared.stream.Side.{Side};
ghost use Rattle.h3_connection.specs.OwnIds.{other};
ghost use Rattle.h3_connection.specs.declared.event.Pull.{Pull};
ghost use Rattle.h3_connection.specs.declared.event.Refusal.TheVariants as refusal;
ghost use Rattle.h3_world.specs.declared.event.Event.{Event};
ghost use Rattle.h3_world.specs.declared.event.Event.TheVariants as does;
ghost use Rattle.h3_world.specs.declared.event.Answer.{Answer};
ghost use Rattle.h3_world.specs.declared.event.Answer.TheVariants as gives;
ghost use Rattle.h3_world.specs.Ends.{Ends, new_ends};
ghost use Rattle.h3_world.specs.Headline.{Happens, IsDelivered, is_connection_fault, is_out_of_memory};
ghost use Rattle.h3_world.specs.Pauses.{pause_of};
ghost use Rattle.h3_world.specs.Pulling.{settled};
ghost use Rattle.h3_world.specs.Refusals.{fields_refusal, head_refusal, trailer_fields_refusal, trailer_refusal};
ghost use Rattle.h3_world.specs.Run.{Run};
ghost use Rattle.h3_world.specs.Sendable.{IsSendable};
ghost use Rattle.h3_world.specs.Setup.{IsMadeSetup, JudgesPlainly, Setup};
ghost use Rattle.h3_world.specs.Step.{IsExact};
ghost use Rattle.h3_world.specs.World.{World, empty_world};
ghost use Rattle.h3_headline.specs.Exactly.{IsAllOf, IsExactly, reader_at};
ghost use Rattle.h3_headline.specs.Messages.{IsFrontOf, has_finished, has_pulled_end, pulled, sent};
ghost use Rattle.h3_memory.specs.Kept.{KeepingWorld, caught_up, is_settled, kept_at, nothing_kept};
ghost use Rattle.h3_memory.specs.MemoryStep.{HappensWithMemory, StepWithMemory, UnlessMemory, reader_world};
ghost use Rattle.h3_memory.specs.Refused.{EndsRun};
ghost use Rattle.h3_memory.specs.SoundKeeping.{IsSoundKeeping};
ghost use Rattle.h3_memory.specs.Theorem.{RunsWithMemory, StepsOn};

/// Two endpoints with the bytes carried between them run in a world, whichever allocations fail. Over every schedule of events that may be
/// sent, however both answer by the contracts of their calls, the answers are those of a run. Of that run all holds that is said of each
/// step, and both stand in the world that it leads to, with what they keep. Neither end asks for strict messages.
pub fn two_endpoints_run_with_memory()
    ensures { (setup : Setup) (events : List Event) (answers : List Answer) (ends : Ends) → IsMadeSetup setup → JudgesPlainly setup
        → AllByRecursion (IsSendable setup) events →
        EndsRun (new_ends setup) events answers ends → RunsWithMemory setup events answers ends }
{
    h3_world::laws::what_refused_memory_leaves_is_sound();
    h3_headline::laws::what_is_cited_holds();
}

/// Every event is a step from any world in which two endpoints stand with what they keep. It is so however they answer by the contracts of
/// their calls, whether allocations fail or not. The step's pause is exact, and both stand in the world that it leads to. Neither end asks
/// for strict messages.
pub fn every_event_steps_on()
    ensures { (setup : Setup) (e : Event) → IsMadeSetup setup → JudgesPlainly setup → StepsOn setup e }
{
    h3_world::laws::what_refused_memory_leaves_is_sound();
    h3_headline::laws::what_is_cited_holds();
}

/// Each step that is allowed, of an event that may be sent and with an exact pause, leaves a world sound, and what is kept there readable.
/// All that is said of a step holds of it.
pub fn each_step_keeps_worlds_sound()
    ensures happens { (setup : Setup) (k new : KeepingWorld) (e : Event) (a : Answer) → IsSendable setup e → IsSoundKeeping setup k
        → StepWithMemory setup k e a new → UnlessMemory (is_out_of_memory a) (IsExact (reader_world setup k e) e a)
        → HappensWithMemory setup k e a new }
    ensures sound { (setup : Setup) (k new : KeepingWorld) (e : Event) (a : Answer) → IsSendable setup e → IsSoundKeeping setup k
        → StepWithMemory setup k e a new → UnlessMemory (is_out_of_memory a) (IsExact (reader_world setup k e) e a)
        → IsSoundKeeping setup new }
{
    h3_world::laws::what_refused_memory_leaves_is_sound();
    h3_headline::laws::what_is_cited_holds();
}

ghost use Rattle.h3_world.specs.Sound.{IsSoundWorld};
ghost use Rattle.std.specs.Prelude.{Bool};
ghost use Rattle.h3_headline.specs.Changes.{StaysAs, StaysBy};
ghost use Rattle.h3_headline.specs.Contents.{GoneStays, KeepsParts, MovesBy};

/// What each step changes of each stream: what a side sends on it, and what the other side pulls. A stream that was given up stays so, and
/// one that is open. One that is not reset, and a server that has not gone away, stay so but for that. When a side reads what it keeps, no
/// message changes.
pub fn each_step_moves_messages()
    ensures begins { (setup : Setup) → IsSoundKeeping setup (nothing_kept (empty_world setup)) }
    ensures moves { (setup : Setup) (k new : KeepingWorld) (e : Event) (a : Answer) (writer : Side) (id : ℕ) → IsSoundKeeping setup k
        → StepWithMemory setup k e a new → MovesBy setup k.world e writer id a new.world }
    ensures gone { (setup : Setup) (k new : KeepingWorld) (e : Event) (a : Answer) → IsSoundKeeping setup k → StepWithMemory setup k e a new
        → GoneStays k.world new.world }
    ensures stays { (setup : Setup) (k new : KeepingWorld) (e : Event) (a : Answer) (writer : Side) (id : ℕ) → IsSoundKeeping setup k
        → StepWithMemory setup k e a new → StaysBy k.world e writer id a new.world }
    ensures caught { (setup : Setup) (k : KeepingWorld) (side : Side) → IsSoundKeeping setup k → KeepsParts k.world (caught_up setup k side)
        × GoneStays k.world (caught_up setup k side) × IsSoundWorld setup (caught_up setup k side) }
    ensures caught_as { (setup : Setup) (k : KeepingWorld) (side writer : Side) (id : ℕ) (resets goes : Bool) → IsSoundKeeping setup k
        → StaysAs writer id resets goes k.world (caught_up setup k side) }
{
    h3_world::laws::what_refused_memory_leaves_is_sound();
    h3_headline::laws::what_is_cited_holds();
}

ghost use Rattle.h3_connection.specs.Announcing.{section_of};
ghost use Rattle.h3_connection.specs.declared.event.Item.{Item};
ghost use Rattle.h3_connection.specs.declared.event.Pull.TheVariants as gives_pull;
ghost use Rattle.h3_connection.specs.declared.event.StreamFault.{StreamFault};
ghost use Rattle.h3_world.specs.Items.{HasCome, handed_out};
ghost use Rattle.h3_world.specs.Order.{next_part};
ghost use Rattle.h3_world.specs.Pulling.{PausesExactly};
ghost use Rattle.h3_world.specs.Sending.{given_up};
ghost use Rattle.h3_world.specs.Setup.{announced_at};
ghost use Rattle.h3_world.specs.Streams.{flow};
ghost use Rattle.h3_memory.specs.Kept.{with_kept};

/// A side that has read all that it keeps gives a message up, for whatever fault: at once, or after the part that comes next, which it
/// hands to nobody. That leaves the world sound, and what the other side keeps readable.
pub fn a_side_gives_a_stream_up()
    ensures at_once { (setup : Setup) (k : KeepingWorld) (side : Side) (id : ℕ) (fault : StreamFault) → IsSoundKeeping setup k
        → settled (caught_up setup k side) side id ≡ None →
        IsSoundKeeping setup (with_kept k side (given_up (caught_up setup k side) side id fault) []) }
    ensures behind { (setup : Setup) (k : KeepingWorld) (side : Side) (id : ℕ) (fault : StreamFault) → IsSoundKeeping setup k
        → settled (caught_up setup k side) side id ≡ None →
        (i : Item) → HasCome (section_of (announced_at setup side)) (flow (caught_up setup k side) (other side) id)
        (next_part (flow (caught_up setup k side) (other side) id)) i →
        PausesExactly (caught_up setup k side) side id (gives_pull.Item i)
        → IsSoundKeeping setup (with_kept k side (given_up (handed_out (caught_up setup k side) side id i) side id fault) []) }
{
    h3_world::laws::a_side_gives_a_stream_up();
    h3_world::laws::what_refused_memory_leaves_is_sound();
    h3_headline::laws::what_is_cited_holds();
}

ghost use Rattle.h3_connection.specs.Endpoint.{EndpointHistory};
ghost use Rattle.h3_connection.specs.Incoming.{Incoming};
ghost use Rattle.h3_connection.specs.Keeping.{read_all, unkept};
ghost use Rattle.h3_connection.specs.StreamSets.{stream_at};
ghost use Rattle.h3_connection.specs.Lists.{pull_of};
ghost use Rattle.h3_connection.specs.declared.lists.ListPull.{ListPull};
ghost use Rattle.h3_world.specs.Ends.{end_at, with_end};
ghost use Rattle.h3_headline.specs.GivenUp.{IsGone, giving_up};
ghost use Rattle.h3_memory.specs.Keeping.{StandsKeeping};

/// Two endpoints that stand in a world with what they keep. Once one has read all that it keeps, and given up a stream that was not over,
/// they stand in the world in which its side did so.
pub fn ends_stand_once_a_stream_is_given_up()
    ensures { (setup : Setup) (k : KeepingWorld) (ends : Ends) (side : Side) (id : ℕ) (fault : StreamFault) → IsMadeSetup setup
        → StandsKeeping setup k ends →
        (next : EndpointHistory) (i x : Incoming) → read_all (end_at ends side).kept (unkept (end_at ends side)) ≡ (next, None)
        → stream_at next.incoming id ≡ Some i → i.fault ≡ None → i.is_over ≡ false → IsGone i x fault →
        (settled (caught_up setup k side) side id ≡ None)
        × StandsKeeping setup (with_kept k side (given_up (caught_up setup k side) side id fault) [])
        (with_end ends side (giving_up next id x)) }
{
    h3_world::laws::a_side_gives_a_stream_up();
    h3_world::laws::what_refused_memory_leaves_is_sound();
    h3_headline::laws::what_is_cited_holds();
}

/// If no answer reports out of memory and nothing is kept, a run is one of the world, and nothing is kept at its end.
pub fn without_memory_answers_a_run_is_one_of_the_world()
    ensures run { (setup : Setup) (w : World) (events : List Event) (answers : List Answer) (new : KeepingWorld)
        → list_any is_out_of_memory answers ≡ false →
        Run (HappensWithMemory setup) (nothing_kept w) events answers new → Run (Happens setup) w events answers new.world }
    ensures none { (setup : Setup) (w : World) (events : List Event) (answers : List Answer) (new : KeepingWorld)
        → list_any is_out_of_memory answers ≡ false → Run (HappensWithMemory setup) (nothing_kept w) events answers new
        → new ≡ nothing_kept new.world }
{}

/// What is pulled over a whole run is what was sent, whichever allocations fail. Each event has an answer, and none tells of a connection
/// fault. What a side pulled from a stream is a front of what the other side sent on it, and with the end all of it.
pub fn what_is_pulled_with_memory_refused_is_what_was_sent()
    ensures as_many { (setup : Setup) (events : List Event) (answers : List Answer) (k : KeepingWorld)
        → Run (HappensWithMemory setup) (nothing_kept (empty_world setup)) events answers k → length answers ≡ length events }
    ensures fault { (setup : Setup) (events : List Event) (answers : List Answer) (k : KeepingWorld)
        → Run (HappensWithMemory setup) (nothing_kept (empty_world setup)) events answers k → list_any is_connection_fault answers ≡ false }
    ensures front { (setup : Setup) (events : List Event) (answers : List Answer) (k : KeepingWorld) (side : Side) (id : ℕ)
        → AllByRecursion (IsSendable setup) events → Run (HappensWithMemory setup) (nothing_kept (empty_world setup)) events answers k →
        IsFrontOf (IsExactly (reader_at setup side)) (pulled side id events answers) (sent (other side) id events answers) }
    ensures end { (setup : Setup) (events : List Event) (answers : List Answer) (k : KeepingWorld) (side : Side) (id : ℕ)
        → AllByRecursion (IsSendable setup) events → Run (HappensWithMemory setup) (nothing_kept (empty_world setup)) events answers k →
        has_pulled_end side id events answers ≡ true →
        IsAllOf (IsExactly (reader_at setup side)) (pulled side id events answers) (sent (other side) id events answers)
        × (has_finished (other side) id events answers ≡ true) }
{
    h3_world::laws::what_refused_memory_leaves_is_sound();
    h3_headline::laws::what_is_cited_holds();
}

/// Once memory is back nothing has been lost. The first delivery to a side that is taken, and the first pull there that is answered and not
/// settled, with lists or without, leave nothing kept. From a world with nothing kept on, a run in which no answer reports out of memory is
/// one of the world of a connection (`without_memory_answers_a_run_is_one_of_the_world`). A header section, a trailer or a list for which
/// an allocation failed is judged as before. With everything delivered and pulled, all that was sent has come out.
pub fn once_memory_is_back_nothing_is_lost()
    ensures pull { (setup : Setup) (k new : KeepingWorld) (side : Side) (id : ℕ) (a : Answer) → is_out_of_memory a ≡ false
        → is_settled k.world side id ≡ false → StepWithMemory setup k (does.Pull side id) a new → kept_at new side ≡ [] }
    ensures listed { (setup : Setup) (k new : KeepingWorld) (side : Side) (id : ℕ) (a : Answer) → is_out_of_memory a ≡ false
        → is_settled k.world side id ≡ false → StepWithMemory setup k (does.PullFields side id) a new → kept_at new side ≡ [] }
    ensures bytes { (setup : Setup) (k new : KeepingWorld) (writer : Side) (id count n : ℕ)
        → StepWithMemory setup k (does.Deliver writer id count) (gives.Delivered n) new → kept_at new (other writer) ≡ [] }
    ensures end { (setup : Setup) (k new : KeepingWorld) (writer : Side) (id : ℕ)
        → StepWithMemory setup k (does.DeliverEnd writer id) gives.Done new → kept_at new (other writer) ≡ [] }
    ensures reset { (setup : Setup) (k new : KeepingWorld) (writer : Side) (id : ℕ)
        → StepWithMemory setup k (does.DeliverReset writer id) gives.Done new → kept_at new (other writer) ≡ [] }
    ensures none { (k : KeepingWorld) → kept_at k Side.Client ≡ [] → kept_at k Side.Server ≡ [] → k ≡ nothing_kept k.world }
    ensures head { (setup : Setup) (k new : KeepingWorld) (side : Side) (id : ℕ) (head : Fields)
        → StepWithMemory setup k (does.Head side id head) (gives.Refused refusal.OutOfMemory) new →
        head_refusal setup new.world side id head ≡ head_refusal setup k.world side id head }
    ensures fields { (setup : Setup) (k new : KeepingWorld) (side : Side) (id : ℕ) (list : List Field)
        → StepWithMemory setup k (does.Fields side id list) (gives.Refused refusal.OutOfMemory) new →
        fields_refusal setup new.world side id list ≡ fields_refusal setup k.world side id list }
    ensures trailer { (setup : Setup) (k new : KeepingWorld) (side : Side) (id : ℕ) (trailer : Fields)
        → StepWithMemory setup k (does.Trailer side id trailer) (gives.Refused refusal.OutOfMemory) new →
        trailer_refusal setup new.world side id trailer ≡ trailer_refusal setup k.world side id trailer }
    ensures trailer_fields { (setup : Setup) (k new : KeepingWorld) (side : Side) (id : ℕ) (list : List Field)
        → StepWithMemory setup k (does.TrailerFields side id list) (gives.Refused refusal.OutOfMemory) new →
        trailer_fields_refusal setup new.world side id list ≡ trailer_fields_refusal setup k.world side id list }
    ensures all { (setup : Setup) (before : List Event) (given : List Answer) (k new : KeepingWorld) (side : Side) (id : ℕ) (p : Pull)
        → AllByRecursion (IsSendable setup) before →
        Run (HappensWithMemory setup) (nothing_kept (empty_world setup)) before given k
        → HappensWithMemory setup k (does.Pull side id) (gives.Pulled p) new → is_out_of_memory (gives.Pulled p) ≡ false →
        IsDelivered setup (caught_up setup k side) (other side) id → settled (caught_up setup k side) side id ≡ None
        → is_none (pause_of p) ≡ false →
        IsAllOf (IsExactly (reader_at setup side)) (pulled side id before given) (sent (other side) id before given) }
    ensures all_listed { (setup : Setup) (before : List Event) (given : List Answer) (k new : KeepingWorld) (side : Side) (id : ℕ)
        (l : ListPull) → AllByRecursion (IsSendable setup) before →
        Run (HappensWithMemory setup) (nothing_kept (empty_world setup)) before given k
        → HappensWithMemory setup k (does.PullFields side id) (gives.Listed l) new → is_out_of_memory (gives.Listed l) ≡ false →
        IsDelivered setup (caught_up setup k side) (other side) id → settled (caught_up setup k side) side id ≡ None
        → is_none (pause_of (pull_of l)) ≡ false →
        IsAllOf (IsExactly (reader_at setup side)) (pulled side id before given) (sent (other side) id before given) }
{
    h3_world::laws::what_refused_memory_leaves_is_sound();
    h3_headline::laws::what_is_cited_holds();
}
